//! What samples are made of: pools of values, and a plan that joins them with a schema and a node limit.
//!
//! [`Pools::read`] reads a pools document, and [`Plan::new`] makes the plan: for each node its slots, items or candidates, and how many
//! nodes what is begun can still have, so that whatever is begun within these sizes can be completed.
//!
//! ```
//! let document = Tree::from_bytes(alloc, r#"{"integers":[0,1]}"#.as_bytes())?;
//! let pools = Pools::read(alloc, &document)?;
//! let plan: Plan<u64> = Plan::new(alloc, schema, pools, 4)?;
//! assert_eq!(rt; plan.limit(), 4);
//! ```
//!
//! Sets of sizes are words of 64 or 128 bits ([`SizeSet`]); the limit is below their number of bits.
#![tactic(auto)]

mod arena;
mod asked;
mod building;
mod entries;
mod fault;
mod kinds;
pub mod laws;
mod leaf;
mod list_at;
mod list_entries;
mod lists;
mod meter;
mod path_step;
mod plan;
mod pool_form;
mod pool_limits;
mod pool_paths;
mod pool_sizes;
mod pools;
mod presence;
mod renewing;
mod rows;
mod size_set;
mod sizing;
mod sort;
mod values;
mod wide_word;
mod word;

pub use arena::PlanNode;
pub use fault::PFault;
pub use leaf::candidates;
pub use list_at::ListAt;
pub use meter::Meter;
pub use path_step::PathStep;
pub use plan::{Plan, Slot};
pub use pool_limits::PoolLimits;
pub use pool_paths::{first_bad_path, is_fixable_path};
pub use pool_sizes::{Oversized, PoolName, oversized_pool};
pub use pools::Pools;
pub use size_set::SizeSet;
pub use sort::{Distinct, Sort};
