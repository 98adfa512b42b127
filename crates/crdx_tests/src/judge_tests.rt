//! Tests of `judge` and of the tests of texts that it takes.
pub mod fault_cases;
pub mod pattern_cases;
