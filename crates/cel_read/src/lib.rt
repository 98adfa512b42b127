//! The Common Expression Language, read.
//!
//! [`tokens`] cuts the text of an expression into its tokens.
//!
//! ```
//! let tokens = cel_read::tokens(alloc, "self.size() <= 0x10 // at most")?;
//! assert_eq!(rt; tokens.len(), 7);
//! ```
#![tactic(auto)]

mod blanks;
mod escapes;
mod fault;
mod laws;
mod lexeme;
mod lexing;
mod numbers;
mod runs;
mod spelling;
mod strings;
mod symbols;
mod token;
mod words;

pub use fault::LexFault;
pub use laws::tokens_are_unique;
pub use lexing::tokens;
pub use token::{Keyword, Symbol, Token};
