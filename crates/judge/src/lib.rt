//! Judges a JSON value by a schema as it is written, every keyword of it, as the API server of Kubernetes does (OpenAPI 3.0, Schema Object;
//! apiextensions.k8s.io/v1, JSONSchemaProps).
//!
//! [`faults`] lists what is wrong with a value, and where; [`is_valid`] says whether anything is. Texts are tested by what the caller has
//! for patterns and formats, a `TextTests` and a `FormatTests`. Tests that no keyword asks, such as rules, join by a [`PlaceTests`] of their
//! own, in [`faults_by`]. [`patterns`] lists the patterns of a schema, with their places. [`is_label`], [`is_kind_name`] and [`is_subdomain`] say
//! whether a text is a name of such a form.
//!
//! ```
//! let schema = Tree::from_bytes(alloc, r#"{"required":["a"],"maxProperties":1}"#.as_bytes())?;
//! let value = Tree::from_bytes(alloc, r#"{"b":1}"#.as_bytes())?;
//! let found = faults(alloc, &mut tests, &schema, &value)?;
//! assert_eq!(rt; found.len(), 1);
//! assert_eq!(rt; found[0].path.as_str(), "/a");
//! assert_eq!(rt; found[0].test.number(), 12);
//! ```
#![tactic(auto)]

mod asking;
mod envelope;
mod finding;
mod listing;
mod meeting;
mod names;
mod numbers;
mod own;
mod places;
mod repetition;
mod slots;
mod test;
mod types;
mod validity;

pub use asking::{KeywordTests, PlaceTests};
pub use finding::{Fault, faults, faults_by};
pub use listing::{SchemaPattern, patterns};
pub use names::{Letters, is_kind_name, is_label, is_subdomain};
pub use numbers::{passes_maximum, passes_minimum};
pub use own::{is_long, is_short};
pub use test::Test;
pub use types::passes_enum;
pub use validity::is_valid;
