//! Tests of `jtree`.
mod line_cases;
mod member_cases;
mod number_cases;
mod order_cases;
mod part_cases;
mod pointer_cases;
mod refusal_cases;
mod source_cases;
mod tree_cases;
