//! Tests of `suggest`.
mod document_cases;
mod varied_cases;
