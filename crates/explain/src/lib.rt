//! The fields that an accepted schema declares, and what the path of a field leads to.
//!
//! A [`Listing`] has each declared path once, in order, with what the schema says of the field. [`resolve`] answers the node that a
//! path leads to. A path is written as names after `/`, with `[]` for the items of a list and `{}` for the values of a map.
//!
//! ```
//! let listing = Listing::new(alloc, &schema)?;
//! let last = listing.fields().last().map(|field| field.path.as_str());
//! assert!(rt; last == Some("/spec/b"), "the last path");
//! ```
//!
//! No two paths have the same text (`laws`).
#![tactic(auto)]

mod describing;
mod fault;
mod field;
pub mod laws;
mod listing;
mod path_text;
mod reading;
mod resolving;
mod walk;

pub use fault::XFault;
pub use field::Field;
pub use listing::Listing;
pub use path_text::{Step, path_below};
pub use reading::after_step;
pub use resolving::resolve;
