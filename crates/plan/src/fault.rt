//! Why a pools document, a node limit or a path of the pools is refused.
ghost use Rattle.std.specs.Prelude.{◌≡◌};
ghost use Rattle.plan.specs.declared.fault.PFault.TheVariants.{NoMemory};

use std::alloc::AllocError;
use thiserror::Error;

/// Why a pools document, a node limit or a path of the pools was refused. Each is displayed as its code.
#[derive(Debug, Drop, Error)]
pub enum PFault {
    /// The value at the pointer (RFC 6901) does not have the form that is required there.
    #[error("P1")]
    Form(String),
    /// A pool has more entries than a pool may have.
    #[error("P2")]
    TooLarge,
    /// An allocation failed.
    #[error("P3")]
    NoMemory,
    /// The node limit is 0, or not below the `BITS` of the plan's sets: with `u64`, not 1 to 63, and with `u128`, not 1 to 127.
    #[error("P4")]
    BadLimit,
    /// A path of the pools leads to no field of the schema, or to one about which the pools cannot say this.
    #[error("P5")]
    BadPath(String),
}

impl From<AllocError> for PFault {
    ghost from_gives = { λ _ e. e ≡ NoMemory };

    fn from(_refused: AllocError) -> PFault {
        PFault::NoMemory
    }
}
