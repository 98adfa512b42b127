//! Formats of texts, as `format` of a schema names them (OpenAPI 3.0), tested as the API server tests them.
//!
//! A [`Format`] is found by its name. Most are regular expressions in Go's syntax, which a [`TextTests`] tests; what they do not say, such as
//! that a day is there in its month, is computed. [`WithFormats`] are the tests by patterns and by formats in one, as `judge` takes them.
//!
//! ```
//! let format = Format::named("date-time");
//! assert_eq!(rt; format, Some(Format::DateTime));
//! let is_date = is_of(&mut tests, Format::Date, "2023-02-29")?;
//! assert!(rt; !is_date, "no day of that year");
//! ```
#![tactic(auto)]

mod addresses;
mod days;
mod digits;
mod durations;
mod expressions;
mod format;
mod hostnames;
mod testing;
mod tests;

pub use expressions::expressions_of;
pub use format::Format;
pub use testing::is_of;
pub use tests::WithFormats;
