//! Tests of `plan`.
mod plan_cases;
mod pool_limit_cases;
mod pools_cases;
mod size_cases;
mod size_set_cases;
