//! Judges a CustomResourceDefinition as the API server of Kubernetes does, beside the rules of schemas that `schema` has
//! (apiextensions.k8s.io/v1).
//!
//! [`faults`] lists the rules that are broken in a definition, and where, and [`schema_faults`] those that are broken in a schema as it is
//! written. Each fault has the part where it is, whose fields and choices can be asked for. Here `WIDGET` is a definition without a scope:
//!
//! ```
//! let document = Tree::from_bytes_with(alloc, WIDGET.as_bytes(), Numbers::All)?;
//! let found = faults(alloc, &document)?;
//! assert_eq!(rt; found.len(), 4);
//! assert_eq!(rt; found[1].pointer.as_str(), "/spec");
//! assert_eq!(rt; found[1].rule.number(), 4);
//! assert!(rt; matches!(found[1].part, Part::Fields(Fields::Spec)), "the part");
//! assert!(rt; Fields::Spec.required().contains(&"scope"), "required");
//! ```
#![tactic(auto)]

mod breaking;
mod fields;
mod finding;
mod part;
mod parts;
mod places;
mod reading;
mod rule;
mod schemas;
mod texts;

pub use finding::{Fault, faults, schema_faults};
pub use part::{Fields, Listed, Metadata, Needed, Part, Place, Properties, Value};
pub use rule::Rule;
