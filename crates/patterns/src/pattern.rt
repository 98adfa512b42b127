//! A pattern, and what matches texts by it.
ghost use Rattle.std.specs.Prelude.{◌≡◌, ◌↔◌, true, false, IfOk, IfErr, OnOk, IsTrue};
ghost use Rattle.patterns.specs.Meaning.{is_pattern, matches_pattern};
ghost use Rattle.patterns.specs.declared.fault.PatternFault.TheVariants.{NoPattern, TooBig};

use crate::fault::PatternFault;
use regex::{Error, Matcher, Regex};
use std::alloc::{AllocError, Global};
use std::marker::Model;

/// A regular expression in Go's syntax, compiled from its text. Contracts see it as the bytes of that text.
pub struct Pattern {
    text: String,
    regex: Regex,
}

// (it is one call where a pattern is dropped)
impl Drop for Pattern {
    fn drop(self) {
        let Pattern {
            text: _text,
            regex: _regex,
        } = self;
    }
}

impl Model for Pattern {
    ghost use Rattle.std.specs.Prelude.{ℕ, List, string_bytes};
    ghost use Rattle.regex.specs.Strings.{regex_pattern};
    ghost use Rattle.patterns.specs.Internal.Compiled.{MatchesAs};

    ghost Value = { List ℕ };

    ghost view = { λ p. string_bytes p.text };

    ghost invariant = { λ p. MatchesAs (string_bytes p.text) (regex_pattern p.regex) };
}

impl Pattern {
    /// Compiles the text of a pattern, which may be of any length. `NoPattern` where the text is none, `TooBig` where it is one and what it
    /// compiles to is above 10 MiB, `NoMemory` where an allocation fails.
    pub fn new(alloc: Global, text: &str) -> Result<Pattern, PatternFault>
        ensures text { IfOk result (λ p. p ≡ text.now) }
        ensures pattern { OnOk result (is_pattern text.now ≡ true) }
        ensures none { IfErr result (λ e. e ≡ NoPattern → is_pattern text.now ≡ false) }
        ensures too_big { IfErr result (λ e. e ≡ TooBig → is_pattern text.now ≡ true) }
    {
        let Some(written) = go_text::in_kit_syntax(alloc, text)? else {
            return Err(PatternFault::NoPattern);
        };
        match Regex::new(alloc, written.as_str()) {
            Ok(regex) => {
                let text = String::from_str(alloc, text)?;
                Ok(Pattern { text, regex })
            }
            Err(Error::Syntax(_)) => Err(PatternFault::NoPattern),
            Err(Error::CompiledTooBig) => Err(PatternFault::TooBig),
            Err(_) => Err(PatternFault::NoMemory),
        }
    }

    /// What matches texts by the pattern.
    pub fn matcher(&self, alloc: Global) -> Result<PatternMatcher<'_>, AllocError>
        ensures { IfOk result (λ m. m ≡ self.now) }
    {
        let matcher = self.regex.matcher(alloc)?;
        let text = self.text.as_str();
        Ok(PatternMatcher { text, matcher })
    }
}

/// What matches texts by a pattern; it keeps what its searches learn. Contracts see it as the bytes of the pattern's text.
#[derive(Drop)]
pub struct PatternMatcher<'p> {
    text: &'p str,
    matcher: Matcher<'p>,
}

impl<'p> Model for PatternMatcher<'p> {
    ghost use Rattle.std.specs.Prelude.{ℕ, List};
    ghost use Rattle.regex.specs.Strings.{matcher_pattern};
    ghost use Rattle.patterns.specs.Internal.Compiled.{MatchesAs};

    ghost Value = { List ℕ };

    ghost view = { λ m. m.text.now };

    ghost invariant = { λ m. MatchesAs m.text.now (matcher_pattern m.matcher) };
}

impl<'p> PatternMatcher<'p> {
    /// Whether it is for the pattern of this text. It does not allocate.
    pub fn is_for(&self, text: &str) -> bool
        ensures { IsTrue result ↔ (self.now ≡ text.now) }
    {
        self.text == text
    }

    /// Whether some part of the text matches the pattern.
    pub fn is_match(&mut self, text: &str) -> bool
        ensures answer { result ≡ matches_pattern self.old text.now }
        ensures same { self.new ≡ self.old }
    {
        self.matcher.is_match(text)
    }
}
