//! What becomes of an object under an accepted schema: whether it is valid and why not, how it is pruned, and how it is completed.
//!
//! [`accept`] takes a schema that breaks no rule. Its root node judges objects: [`valid`] and [`faults`], [`prune`], [`complete`] and
//! [`leaves`] (apiextensions.k8s.io/v1, field pruning, defaulting, merge markers).
//!
//! ```
//! let schema = accept(alloc, crd.raw)?;
//! let object = Tree::from_bytes(alloc, r#"{"spec":{"a":1,"z":2}}"#.as_bytes())?;
//! let completed = complete(alloc, schema.root(), &object)?;
//! let text = completed.to_text(alloc)?;
//! assert_eq!(rt; text.as_str(), r#"{"spec":{"a":1}}"#);
//! ```
//!
//! `junctors` judges `allOf`, `anyOf`, `oneOf` and `not` by any test, and `laws` says what a stored object is, level by level.
#![tactic(auto)]

mod accepting;
mod all_faults;
mod ascending;
mod completing;
mod constraints;
mod defaulting;
mod defaults;
mod explaining;
mod fault;
mod fields;
mod is_filled;
mod is_pruned;
pub mod junctors;
pub mod laws;
mod leaf;
mod listing;
mod pruning;
mod repetition;
mod storing;
mod validity;

pub use accepting::{Schema, accept, violations};
pub use all_faults::{faults, strict_faults};
pub use completing::complete;
pub use constraints::is_within;
pub use explaining::explained;
pub use fault::{Fault, LFault};
pub use leaf::Leaf;
pub use listing::leaves;
pub use pruning::prune;
pub use storing::{check_stored, is_stored};
pub use validity::valid;
