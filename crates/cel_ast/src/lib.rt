//! The syntax tree of the Common Expression Language.
//!
//! An [`Expr`] is plain data: contracts see it as `Syntax`. `cel_parse` makes it of tokens.
//!
//! ```
//! let ten = cel_ast::Expr::Literal(cel_ast::Literal::Int(10));
//! assert!(rt; matches!(ten, cel_ast::Expr::Literal(cel_ast::Literal::Int(10))));
//! ```
#![tactic(auto)]

mod expr;
mod literal;
mod operators;
mod text;

pub use expr::{Element, Elements, Entries, Entry, Expr, Key, Part, Parts};
pub use literal::Literal;
pub use operators::{Binary, Macro, Unary};
pub use text::Text;
