//! Why no pools document is suggested.
ghost use Rattle.std.specs.Prelude.{◌≡◌};
ghost use Rattle.suggest.specs.declared.fault.SuggestFault.TheVariants.{NoMemory};

use std::alloc::AllocError;
use thiserror::Error;

/// Why no pools document is suggested.
#[derive(Debug, PartialEq, Eq, Drop, Error)]
pub enum SuggestFault {
    /// The text is not that of a path that can be varied or left out.
    #[error("bad path {0}")]
    BadPath(String),
    /// The object has nothing that the field of this path belongs to, or there is not one object alone.
    #[error("not in the object: {0}")]
    NotInObject(String),
    /// The document would be longer, deeper or have more paths than one that is read.
    #[error("too large")]
    TooLarge,
    /// An allocation failed.
    #[error("out of memory")]
    NoMemory,
}

impl From<AllocError> for SuggestFault {
    ghost from_gives = { λ _ e. e ≡ NoMemory };

    fn from(_: AllocError) -> SuggestFault {
        SuggestFault::NoMemory
    }
}
