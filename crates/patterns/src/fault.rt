//! Why a text was not compiled.
ghost use Rattle.std.specs.Prelude.{◌≡◌};
ghost use Rattle.patterns.specs.declared.fault.PatternFault.TheVariants.{NoMemory};

use std::alloc::AllocError;
use thiserror::Error;

/// Why a text was not compiled to a pattern.
#[derive(Clone, Copy, Debug, PartialEq, Eq, Drop, Error)]
pub enum PatternFault {
    /// The text is no pattern.
    #[error("no regular expression")]
    NoPattern,
    /// The text is a pattern, and what it compiles to is above 10 MiB.
    #[error("regular expression too big")]
    TooBig,
    /// An allocation failed.
    #[error("out of memory")]
    NoMemory,
}

impl From<AllocError> for PatternFault {
    ghost from_gives = { λ _ e. e ≡ NoMemory };

    fn from(_refused: AllocError) -> PatternFault {
        PatternFault::NoMemory
    }
}
