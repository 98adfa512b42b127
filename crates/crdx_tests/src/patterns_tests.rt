//! Tests of `go_text`, `patterns` and `text_tests`.
mod pattern_cases;
