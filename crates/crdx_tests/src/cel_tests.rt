//! Tests of `cel_read`, `cel_parse` and `cel_eval`.
mod eval_cases;
mod token_cases;
mod tree_cases;
