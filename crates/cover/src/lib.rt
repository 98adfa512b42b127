//! Samples that cover a schema: for each path the first one in which it is there, and for each value of a scalar the first one with it.
//!
//! [`cover`] goes through the declared paths in their order. What the sample of a line before has is passed over, and what no sample has
//! is missed. A [`Covering`] does the same one path at a time, so that each line can be printed when it is there.
//!
//! ```
//! let covered = cover(alloc, plan, false)?;
//! assert_eq!(rt; covered.lines.len(), 3);
//! assert!(rt; covered.missed.is_empty(), "each path is in some sample");
//! ```
//!
//! What such lines say together is in `laws`.
#![tactic(auto)]

mod adding;
mod covering;
mod first;
mod known;
pub mod laws;
mod narrowing;
mod there;
mod values;
mod way;

pub use covering::{Covered, Covering, Line, Wanted, cover};
