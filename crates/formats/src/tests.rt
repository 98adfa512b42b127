//! Tests of texts by patterns and by formats.
ghost use Rattle.std.specs.Prelude.{is_some};
ghost use Rattle.formats.specs.Names.{named};
ghost use Rattle.formats.specs.Formats.{has_named};

use crate::format::Format;
use crate::testing::is_of;
use std::alloc::AllocError;
use text_tests::{FormatTests, TextTests};

/// Tests of texts by the patterns of these, and by the formats of the API server with them.
#[derive(Drop)]
pub struct WithFormats<'t, T: TextTests> {
    pub tests: &'t mut T,
}

impl<'t, T: TextTests> TextTests for WithFormats<'t, T> {
    ghost matches = { T.matches };

    fn test(&mut self, pattern: &str, text: &str) -> Result<bool, AllocError> {
        self.tests.test(pattern, text)
    }
}

impl<'t, T: TextTests> FormatTests for WithFormats<'t, T> {
    ghost is_format = { λ name. is_some (named name) };

    ghost has_format = { λ name text. has_named T.matches (named name) text };

    fn knows(&self, name: &str) -> bool {
        Format::named(name).is_some()
    }

    fn test_format(&mut self, name: &str, text: &str) -> Result<bool, AllocError> {
        match Format::named(name) {
            Some(format) => is_of(self.tests, format, text),
            None => Ok(true),
        }
    }
}
