//! Tests of `stored`.
mod bound_cases;
mod default_cases;
mod object_cases;
mod value_cases;
