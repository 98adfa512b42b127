//! Why a tree was not read, copied or written.
ghost use Rattle.std.specs.Prelude.{◌≡◌};
ghost use Rattle.jtree.specs.declared.fault.JFault.TheVariants.{NoMemory, ReadFailed};

use crate::source::SourceFault;
use std::alloc::{AllocError, AllocFailed};
use thiserror::Error;

/// Why a tree was not read, copied or written.
#[derive(Debug, Drop, Clone, Copy, PartialEq, Eq, Error)]
pub enum JFault {
    /// A number of the document is not an integer of 64 bits.
    #[error("J1")]
    NotAnInteger,
    /// An allocation failed.
    #[error("J2")]
    NoMemory,
    /// The bytes are not JSON (RFC 8259).
    #[error("J3")]
    NotJson,
    /// The document has more than `MOST_BYTES` bytes.
    #[error("J4")]
    TooLong,
    /// The source of the bytes failed.
    #[error("J5")]
    ReadFailed,
}

impl From<AllocError> for JFault {
    ghost from_gives = { λ _ e. e ≡ NoMemory };

    fn from(_refused: AllocError) -> JFault {
        JFault::NoMemory
    }
}

impl<T: Drop> From<AllocFailed<T>> for JFault {
    ghost from_gives = { λ _ e. e ≡ NoMemory };

    fn from(_refused: AllocFailed<T>) -> JFault {
        JFault::NoMemory
    }
}

impl From<SourceFault> for JFault {
    ghost from_gives = { λ _ e. e ≡ ReadFailed };

    fn from(_failed: SourceFault) -> JFault {
        JFault::ReadFailed
    }
}
