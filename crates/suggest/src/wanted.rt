//! What pools are suggested for besides a schema.
use jtree::Tree;

/// What pools are suggested for besides a schema.
#[derive(Clone, Copy, Drop)]
pub struct Wanted<'a> {
    /// Objects: what stands in them is listed.
    pub objects: &'a [Tree],
    /// The texts of the paths at which the one object is varied, and all else is as it is there; none where nothing is fixed.
    pub varied: &'a [&'a str],
    /// The texts of the paths that never occur, and are taken out of the objects first.
    pub without: &'a [&'a str],
}
