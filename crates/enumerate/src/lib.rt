//! Samples of a plan, each made from the one before it.
//!
//! [`page`] answers the first samples past an object, or from the first one on, and whether none is left. A [`Live`] stands at a sample,
//! moves to the next one, and lends samples to a [`Taker`] without a copy.
//!
//! ```
//! let mut meter = plan.meter();
//! let first = page(alloc, &plan, None, 2, &mut meter)?;
//! assert_eq!(rt; first.items.len(), 2);
//! assert!(rt; !first.end, "more samples are left");
//! ```
//!
//! The cost of a sample does not grow with how many come before it: its steps are bounded by the limit and the width of the plan.
#![tactic(auto)]

mod current;
mod fault;
pub mod laws;
mod leaf;
mod list;
mod listed;
mod live;
mod names;
mod paging;
mod prefix;
mod row;
mod sample;
mod siblings;
mod sizes;
mod taker;
mod walk;

pub use fault::EFault;
pub use listed::Page;
pub use live::Live;
pub use paging::page;
pub use taker::{Change, Replaced, Taker};
