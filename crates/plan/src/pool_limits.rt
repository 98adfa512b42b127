//! How large pools may be.
ghost use Rattle.std.specs.Prelude.{◌≡◌};
ghost use Rattle.plan.specs.Pools.Pools.{standard, large};

/// How large pools may be. Each repeat counts.
#[derive(Clone, Copy)]
pub struct PoolLimits {
    /// The most integers, the most numbers, the most strings, the most trees of any kind, and the most trees in the list of a path.
    pub entries: usize,
    /// The most names.
    pub names: usize,
    /// The most paths that there may be in each of `paths`, `fixed` and `present`.
    pub paths: usize,
}

impl PoolLimits {
    /// What [`crate::Pools::read`] admits.
    pub const STANDARD: PoolLimits = PoolLimits {
        entries: 64,
        names: 32,
        paths: 64,
    };

    /// For a schema with many fields.
    pub const LARGE: PoolLimits = PoolLimits {
        entries: 1024,
        names: 32,
        paths: 1024,
    };
}
