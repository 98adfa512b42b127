//! What is wrong with an object, and why one has no leaves.
ghost use Rattle.std.specs.Prelude.{◌≡◌};
ghost use Rattle.stored.specs.declared.fault.LFault.TheVariants.{NoMemory};

use std::alloc::AllocError;
use thiserror::Error;

/// A fault of an object.
#[derive(Debug, Drop)]
pub struct Fault {
    /// The JSON pointer of its place (RFC 6901), which a missing name has too.
    pub path: String,
    /// Which test fails there, 1 to 14; 15 where pruning drops the member there, which is a strict fault.
    pub number: u8,
}

/// Why an object has no leaves. Each is displayed as its code.
#[derive(Debug, Drop, Error)]
pub enum LFault {
    /// The object is not stored: it is not valid, or pruning or defaulting changes it.
    #[error("L1")]
    NotStored,
    /// An allocation failed.
    #[error("L2")]
    NoMemory,
}

impl From<AllocError> for LFault {
    ghost from_gives = { λ _ e. e ≡ NoMemory };

    fn from(_refused: AllocError) -> LFault {
        LFault::NoMemory
    }
}
