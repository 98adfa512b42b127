//! Tests of texts by patterns.
ghost use Rattle.std.specs.Prelude.{◌≡◌, IfOk};
ghost use Rattle.patterns.specs.Meaning.{matches_pattern};

use crate::fault::PatternFault;
use crate::pattern::{Pattern, PatternMatcher};
use std::alloc::{AllocError, Global};
use text_tests::TextTests;

/// Tests of texts by patterns in Go's syntax: those of a list, whose matchers are kept, and any others, which are compiled for each test.
#[derive(Drop)]
pub struct PatternTests<'p> {
    alloc: Global,
    matchers: Vec<PatternMatcher<'p>>,
}

impl<'p> PatternTests<'p> {
    /// Tests with a matcher for each of these patterns.
    pub fn new(alloc: Global, patterns: &'p [Pattern]) -> Result<PatternTests<'p>, AllocError> {
        let mut matchers = Vec::new(alloc);
        for pattern in patterns {
            matchers.push(pattern.matcher(alloc)?)?;
        }
        Ok(PatternTests { alloc, matchers })
    }
}

impl<'p> TextTests for PatternTests<'p> {
    ghost matches = { matches_pattern };

    // A pattern of the list is tested with its matcher, and `Err` never comes there. Of the others one that is too big gives `Err`.
    fn test(&mut self, pattern: &str, text: &str) -> Result<bool, AllocError> {
        for matcher in &mut self.matchers {
            if matcher.is_for(pattern) {
                return Ok(matcher.is_match(text));
            }
        }
        test_once(self.alloc, pattern, text)
    }
}

/// Whether the text matches the pattern, which is compiled for this test alone.
fn test_once(alloc: Global, pattern: &str, text: &str) -> Result<bool, AllocError>
    ensures { IfOk result (λ yes. yes ≡ matches_pattern pattern.now text.now) }
{
    match Pattern::new(alloc, pattern) {
        Ok(compiled) => {
            let mut matcher = compiled.matcher(alloc)?;
            Ok(matcher.is_match(text))
        }
        Err(PatternFault::NoPattern) => Ok(false),
        Err(_) => Err(AllocError),
    }
}
