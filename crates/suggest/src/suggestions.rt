//! What is suggested at the paths of a schema.
use jtree::{Text, Tree};

/// The text of a path, and values.
#[derive(Drop)]
pub(crate) struct Entry {
    pub path: Text,
    pub values: Vec<Tree>,
}

/// What is suggested so far.
#[derive(Drop)]
pub(crate) struct Suggestions {
    /// Lists of values at paths.
    pub lists: Vec<Entry>,
    /// Names of the members of maps.
    pub names: Vec<Text>,
    /// The values that are fixed at paths.
    pub fixed: Vec<Entry>,
    /// The paths at which there is always something.
    pub present: Vec<Text>,
}
