//! Why a text has no tokens.
use std::alloc::{AllocError, AllocFailed};
use thiserror::Error;

/// Why a text has no tokens. A place is the number of code points before it, as in the positions of the Common Expression Language.
#[derive(Clone, Copy, Debug, PartialEq, Eq, Drop, Error)]
pub enum LexFault {
    /// What stands here begins no token: a character that is in none, a string that is not closed, or one with an escape that is none.
    #[error("no token begins at {0}")]
    NoLexeme(usize),
    /// The integer that begins here is above 2^63.
    #[error("the integer at {0} is too large")]
    IntegerTooLarge(usize),
    /// The string that begins here has an escape of a surrogate, or of a number above 10FFFF.
    #[error("the string at {0} has an escape of no code point")]
    NoCodePoint(usize),
    /// An allocation failed.
    #[error("out of memory")]
    NoMemory,
}

impl From<AllocError> for LexFault {
    ghost use Rattle.cel_read.specs.declared.fault.LexFault.TheVariants.{NoMemory};
    ghost use Rattle.std.specs.Prelude.{◌≡◌};

    ghost from_gives = { λ _ e. e ≡ NoMemory };

    fn from(_refused: AllocError) -> LexFault {
        LexFault::NoMemory
    }
}

impl<T: Drop> From<AllocFailed<T>> for LexFault {
    ghost use Rattle.cel_read.specs.declared.fault.LexFault.TheVariants.{NoMemory};
    ghost use Rattle.std.specs.Prelude.{◌≡◌};

    ghost from_gives = { λ _ e. e ≡ NoMemory };

    fn from(_refused: AllocFailed<T>) -> LexFault {
        LexFault::NoMemory
    }
}
