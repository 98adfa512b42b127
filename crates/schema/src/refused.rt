//! Why a schema has no nodes.
ghost use Rattle.std.specs.Prelude.{◌≡◌};
ghost use Rattle.schema.specs.declared.refused.Refused.TheVariants.{NoMemory};

use crate::violation::Violation;
use std::alloc::{AllocError, AllocFailed};
use thiserror::Error;

/// Why a raw schema has no shape. The second is displayed as its code.
#[derive(Debug, Drop, Error)]
pub enum Refused {
    /// The schema breaks rules at these places: all of them, and at least one.
    #[error("violations")]
    Violations(Vec<Violation>),
    /// An allocation failed.
    #[error("S5")]
    NoMemory,
}

impl From<AllocError> for Refused {
    ghost from_gives = { λ _ e. e ≡ NoMemory };

    fn from(_refused: AllocError) -> Refused {
        Refused::NoMemory
    }
}

impl<T: Drop> From<AllocFailed<T>> for Refused {
    ghost from_gives = { λ _ e. e ≡ NoMemory };

    fn from(_refused: AllocFailed<T>) -> Refused {
        Refused::NoMemory
    }
}
