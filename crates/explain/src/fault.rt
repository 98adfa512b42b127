//! Why a path leads to no field.
use thiserror::Error;

/// Why a path leads to no field. Each is displayed as its code.
#[derive(Clone, Copy, Debug, PartialEq, Eq, Drop, Error)]
pub enum XFault {
    /// The text is not that of a path.
    #[error("X1")]
    BadPath,
    /// The schema declares no such field.
    #[error("X2")]
    NoSuchField,
}
