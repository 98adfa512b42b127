//! Why no schema is read of a document.
ghost use Rattle.std.specs.Prelude.{◌≡◌};
ghost use Rattle.schema.specs.declared.fault.SFault.TheVariants.{NoMemory};

use std::alloc::{AllocError, AllocFailed};
use thiserror::Error;

/// Why no schema was read of a document. Each is displayed as its code.
#[derive(Debug, Drop, Error)]
pub enum SFault {
    /// The document is no CustomResourceDefinition, or the version has no schema.
    #[error("S1")]
    NotACrd,
    /// The CustomResourceDefinition has no version of this name.
    #[error("S2")]
    NoSuchVersion,
    /// A keyword's value has not its JSON form. The pointer (RFC 6901), counted from the schema, is that of the innermost
    /// value that breaks the form, the first in path order.
    #[error("S3")]
    KeywordForm(String),
    /// A limit is passed (`Limits`). The pointer, counted from the schema, is that of the first place after as many as there may
    /// be, of the place with too many steps, or of the keyword, the first in path order.
    #[error("S4")]
    TooLarge(String),
    /// An allocation failed.
    #[error("S5")]
    NoMemory,
}

impl From<AllocError> for SFault {
    ghost from_gives = { λ _ e. e ≡ NoMemory };

    fn from(_refused: AllocError) -> SFault {
        SFault::NoMemory
    }
}

impl<T: Drop> From<AllocFailed<T>> for SFault {
    ghost from_gives = { λ _ e. e ≡ NoMemory };

    fn from(_refused: AllocFailed<T>) -> SFault {
        SFault::NoMemory
    }
}
