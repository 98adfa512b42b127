//! Tests of `enumerate`.
mod lending_cases;
mod number_cases;
mod page_cases;
mod reference_cases;
mod small_plan_cases;
mod stored_cases;
mod walk_cases;
mod wide_cases;
