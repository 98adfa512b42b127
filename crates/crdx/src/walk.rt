//! Writes the samples of a plan, a line for each.

mod blocks;
mod fault;
mod line;
mod walking;

pub use fault::WFault;
pub use line::Envelope;
pub(crate) use line::with_envelope;
pub use walking::{Walked, walk, walk_to_end};
