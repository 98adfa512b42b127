//! Expressions of the Common Expression Language, parsed.
//!
//! [`parse`] makes the syntax tree of the tokens that `cel_read` cuts a text into.
//!
//! ```
//! let tokens = cel_read::tokens(alloc, "self.all(x, x > 0)")?;
//! let expr = cel_parse::parse(alloc, tokens.as_slice(), cel_parse::MOST_NESTED)?;
//! assert!(rt; matches!(expr, cel_ast::Expr::Macro(cel_ast::Macro::All, _, _, _)));
//! ```
#![tactic(auto)]

mod calls;
mod fault;
mod laws;
mod literals;
mod marks;
mod members;
mod names;
mod operators;
mod parsing;
mod signs;
mod start;
mod texts;
mod words;

pub use fault::ParseFault;
pub use laws::expressions_are_unique;
pub use parsing::{MOST_NESTED, parse};
