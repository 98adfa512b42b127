//! Why tokens spell no expression.
use std::alloc::{AllocError, AllocFailed};
use thiserror::Error;

/// Why there is no syntax tree.
#[derive(Clone, Copy, Debug, PartialEq, Eq, Drop, Error)]
pub enum ParseFault {
    /// The tokens spell no expression. Parsing stopped at the token with this index: it does not go on what is before it, or nests too deep, or
    /// follows a macro whose arguments are of another form. It is the number of tokens where they end too early.
    #[error("unexpected token {0}")]
    Unexpected(usize),
    /// An allocation failed.
    #[error("out of memory")]
    NoMemory,
}

/// Why reading stopped.
#[derive(Clone, Copy, Drop)]
pub(crate) enum Stopped {
    /// Before so many tokens that are left.
    Before(usize),
    NoMemory,
}

impl From<AllocError> for Stopped {
    ghost use Rattle.cel_parse.specs.declared.fault.Stopped.TheVariants.{NoMemory};
    ghost use Rattle.std.specs.Prelude.{◌≡◌};

    ghost from_gives = { λ _ e. e ≡ NoMemory };

    fn from(_refused: AllocError) -> Stopped {
        Stopped::NoMemory
    }
}

impl<T: Drop> From<AllocFailed<T>> for Stopped {
    ghost use Rattle.cel_parse.specs.declared.fault.Stopped.TheVariants.{NoMemory};
    ghost use Rattle.std.specs.Prelude.{◌≡◌};

    ghost from_gives = { λ _ e. e ≡ NoMemory };

    fn from(_refused: AllocFailed<T>) -> Stopped {
        Stopped::NoMemory
    }
}
