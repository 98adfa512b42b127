//! A pools document to start with, made from a schema, and from objects.
//!
//! [`suggested_pools`] lists values at the bounds of scalars, defaults, examples and texts of formats, or what stands in given objects;
//! and around one object it fixes all but varied paths.
//!
//! ```
//! let wanted = Wanted { objects: &[], varied: &[], without: &[] };
//! let pools = suggested_pools(alloc, &raw, &schema, &wanted, PoolLimits::STANDARD)?;
//! let text = pools.to_text(alloc)?;
//! assert_eq!(rt; text.as_str(), r#"{"any":["a",{}],"integers":[0,1],"names":["a","b"],"strings":["a"]}"#);
//! ```
//!
//! What the samples over such pools are is in `laws`.
#![tactic(auto)]

mod chosen;
mod document;
mod fault;
mod finding;
mod formats;
mod general;
mod halves;
mod judging;
pub mod laws;
mod leaf_values;
mod lists;
mod members;
mod putting;
mod suggestions;
mod values_below;
mod varying;
mod wanted;
mod without;

pub use document::suggested_pools;
pub use fault::SuggestFault;
pub use wanted::Wanted;
