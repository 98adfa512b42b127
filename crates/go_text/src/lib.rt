//! Go's patterns, written in the syntax that the kit's regular expressions read.
//!
//! A cluster reads the `pattern` of a schema by Go's package `regexp`, whose syntax is RE2's. The kit's crate `regex` reads another syntax: its
//! `\d` has the digits of all scripts, `[a&&b]` is an intersection, and so on. [`in_kit_syntax`] reads a pattern as Go does, and writes each
//! construct as one of the same meaning.
//!
//! ```
//! let written = go_text::in_kit_syntax(alloc, r"\d+[a&&b]")?;
//! assert!(rt; written.is_some_and(|text| text.as_str() == r"[0-9]+[a\&\&b]"), "written");
//! ```
#![tactic(auto)]

mod ascii;
mod brackets;
mod carrying;
mod escapes;
mod groups;
mod piece;
mod properties;
mod repetitions;
mod texts;

pub use carrying::in_kit_syntax;
