//! Tests of `formats`.
mod format_cases;
