//! Tests of `cluster`.
mod way_cases;
