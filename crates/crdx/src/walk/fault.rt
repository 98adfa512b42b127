//! Why a walk stopped early.
use thiserror::Error;

/// Why a walk stopped early.
#[derive(Clone, Copy, Debug, PartialEq, Eq, Drop, Error)]
pub enum WFault {
    /// The tree to go on from is no sample; nothing is written.
    #[error("W1")]
    NotASample,
    /// An allocation failed, with so many whole lines written and nothing after them.
    #[error("W2")]
    NoMemory(u64),
    /// The sink failed, with so many whole lines written and of the next one a beginning, perhaps an empty one.
    #[error("W3")]
    Write(u64),
}
