//! Tests of `definition`.
pub mod definition_cases;
pub mod schema_cases;
