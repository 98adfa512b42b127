//! Tests of `schema`.
mod junctor_cases;
mod limit_cases;
mod marker_cases;
mod node_cases;
mod profile_cases;
mod reading_cases;
mod reason_cases;
mod root_cases;
mod written_cases;
