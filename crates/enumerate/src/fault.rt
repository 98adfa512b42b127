//! Why there is no page, no enumeration or no next sample.
ghost use Rattle.std.specs.Prelude.{◌≡◌};
ghost use Rattle.enumerate.specs.declared.fault.EFault.TheVariants.{NoMemory};

use std::alloc::{AllocError, AllocFailed};
use thiserror::Error;

/// Why no page, no enumeration or no next sample was answered. Each is displayed as its code.
#[derive(Clone, Copy, Debug, PartialEq, Eq, Drop, Error)]
pub enum EFault {
    /// The tree to go on from is no sample.
    #[error("E1")]
    NotASample,
    /// An allocation failed.
    #[error("E2")]
    NoMemory,
    /// The enumeration had ended. `Live::advance` and `Live::lend_page` alone answer it.
    #[error("E3")]
    Ended,
}

impl From<AllocError> for EFault {
    ghost from_gives = { λ _ e. e ≡ NoMemory };

    fn from(_refused: AllocError) -> EFault {
        EFault::NoMemory
    }
}

impl<T: Drop> From<AllocFailed<T>> for EFault {
    ghost from_gives = { λ _ e. e ≡ NoMemory };

    fn from(_refused: AllocFailed<T>) -> EFault {
        EFault::NoMemory
    }
}
