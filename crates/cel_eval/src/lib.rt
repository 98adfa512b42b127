//! Expressions of the Common Expression Language, evaluated.
//!
//! [`eval`] gives the value of the syntax tree that `cel_parse` makes, or why it has none: an error of the language, or what of it crdx does not
//! know.
//!
//! ```
//! let tokens = cel_read::tokens(alloc, "[1, 2].exists(x, x == 2) || 1 / 0 > 1")?;
//! let expr = cel_parse::parse(alloc, tokens.as_slice(), cel_parse::MOST_NESTED)?;
//! let answer = cel_eval::eval(alloc, &expr, &cel_eval::Env::Empty)?;
//! assert!(rt; matches!(answer, cel_eval::Answer::Made(cel_value::Value::Bool(true))));
//! ```
#![tactic(auto)]

mod access;
mod answer;
mod apply;
mod binary;
mod calculating;
mod env;
mod evaluating;
mod laws;
mod making;
mod ordering;
mod ranges;
mod stop;
mod truth;
mod unary;

pub use answer::Answer;
pub use env::Env;
pub use evaluating::eval;
pub use laws::{
    de_morgan, errors_are_absorbed, exists_is_dual, macros_expand, membership_is_exists,
};
pub use stop::{Fault, Reason, Stop};
