//! Tests of `explain`.
mod field_cases;
