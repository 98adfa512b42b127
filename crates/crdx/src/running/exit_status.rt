//! The exit statuses.

/// What was asked for is done, or the answer is yes.
pub(crate) const DONE: u8 = 0;

/// The answer is no.
pub(crate) const NO: u8 = 1;

/// The arguments are refused.
pub(crate) const USAGE: u8 = 2;

/// An input is no such document.
pub(crate) const REFUSED: u8 = 3;

/// A read or a write failed.
pub(crate) const FAILED: u8 = 4;

/// An allocation failed.
pub(crate) const NO_MEMORY: u8 = 5;
