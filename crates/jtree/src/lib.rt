//! JSON trees: documents, their order, their compact text, and pointers into them.
//!
//! [`Tree::from_bytes`] reads a document, and [`Tree::to_text`] writes its compact text: no white space, members by the bytes of their
//! names. Trees are ordered by their number of nodes, and then by kind and value. Numbers are integers of 64 bits;
//! [`Tree::from_bytes_with`] reads all others too, which keep their text.
//!
//! ```
//! let tree = Tree::from_bytes(alloc, r#"{"b": [1, 2], "a": null}"#.as_bytes())?;
//! let text = tree.to_text(alloc)?;
//! assert_eq!(rt; text.as_str(), r#"{"a":null,"b":[1,2]}"#);
//! assert_eq!(rt; tree.nodes(), 5);
//! ```
//!
//! `source` is where bytes come from, `lines` reads one document a line, and `laws` says what holds of the definitions.
#![tactic(auto)]

mod copy;
mod equality;
mod fault;
mod integer_text;
mod last;
pub mod laws;
pub mod lines;
mod members;
mod nodes;
mod number;
mod order;
mod other_number;
mod parts;
mod pointer;
mod read;
mod read_all;
mod read_with;
mod refusal;
mod same_value;
pub mod source;
mod value;
mod write;

pub use equality::{Equality, TreeKey};
pub use fault::JFault;
pub use members::search;
pub use number::Number;
pub use pointer::{push_index, push_name};
pub use read::{MOST_BYTES, MOST_DEPTH};
pub use read_with::Numbers;
pub use refusal::Refusal;
pub use value::{Items, Member, Members, Text, Tree};
