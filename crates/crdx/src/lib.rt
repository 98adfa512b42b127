//! Checks the schema of a Kubernetes custom resource and objects of it, and lists its small objects exhaustively.
//!
//! [`run`] does what the arguments ask for: it reads documents by name from [`inputs::Inputs`], writes to two sinks, and answers the
//! exit status. [`walk::walk`] writes samples, a line for each. Here the inputs have `WIDGET` as `crd.json`:
//!
//! ```
//! let words = words_of(alloc, "crdx check crd.json v1")?;
//! let status = run(alloc, words.as_slice(), &mut inputs, &mut out, &mut err);
//! assert_eq!(rt; status, 0);
//! assert_eq!(rt; out.text(), "structural\n");
//! ```
//!
//! `arguments` reads the command line, `phrases` has the words of rules and faults, and `sink` counts what could not be written.
#![tactic(auto)]

pub mod arguments;
mod envelope;
pub mod inputs;
pub mod phrases;
mod profile;
mod running;
pub mod sink;
pub mod walk;

pub use envelope::{Parts, join, split};
pub use running::run;
