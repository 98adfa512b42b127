//! A page of samples. Not in the module of `page`: two names that differ only in case cannot be declared in one module.
use jtree::Tree;

/// The first samples of a plan past a place.
#[derive(Drop)]
pub struct Page {
    /// The samples, in the tree order, each once.
    pub items: Vec<Tree>,
    /// Whether no further sample is left.
    pub end: bool,
}
