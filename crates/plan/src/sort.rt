//! The sorts of node of a plan, and which items may not be in one list.

/// The sorts of node of a plan.
#[derive(Clone, Copy, Debug, PartialEq, Eq, Drop)]
pub enum Sort {
    /// A scalar, open to any value, or of fixed values: it holds one of its candidates.
    Leaf,
    /// An object or a map: it has slots, each with a name.
    Row,
    /// A list: it has items.
    List,
}

/// Which items may not be in one list.
#[derive(Clone, Copy, Debug, PartialEq, Eq, Drop)]
pub enum Distinct {
    /// Any may.
    Free,
    /// Equal ones may not: a set.
    Whole,
    /// Those that agree on all keys may not: a map list.
    Keys,
}
