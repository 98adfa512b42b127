//! Patterns: regular expressions in Go's syntax, as `pattern` of a schema has them, and tests of texts by them.
//!
//! A [`Pattern`] is compiled once from its text. A [`PatternMatcher`] matches texts by it and keeps what its searches learn, so one matcher
//! for each pattern is kept for a run: [`PatternTests`] has those of a list of patterns.
//!
//! ```
//! let patterns = [Pattern::new(alloc, "^[a-z]+$")?];
//! let mut tests = PatternTests::new(alloc, &patterns)?;
//! let is_word = tests.test("^[a-z]+$", "widget")?;
//! assert!(rt; is_word, "a word");
//! ```
//!
//! What a pattern means is what the kit's grammar of regular expressions says of the text that `go_text` writes for it. That this is what
//! Go's `regexp` means is tested, and not proved.
#![tactic(auto)]

mod fault;
mod pattern;
mod tests;

pub use fault::PatternFault;
pub use pattern::{Pattern, PatternMatcher};
pub use tests::PatternTests;
