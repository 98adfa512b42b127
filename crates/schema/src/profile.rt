//! By which rules a schema is judged.
ghost use Rattle.std.specs.Prelude.{◌≡◌};
ghost use Rattle.schema.specs.Nodes.ByPlace.{equality_of};

use jtree::Equality;

/// By which rules a schema is judged, and which forms its keywords have.
#[derive(Clone, Copy, Debug, PartialEq, Eq, Drop)]
pub enum Profile {
    /// The rules of this project, over integers alone.
    Core,
    /// Those of a cluster (apiextensions.k8s.io/v1).
    Cluster,
}

impl Profile {
    /// Which items and keys of a list count as the same: by the profile of a cluster those of the same value, as it has numbers as floats.
    pub fn equality(self) -> Equality
        ensures { result ≡ equality_of self }
    {
        match self {
            Profile::Core => Equality::Exact,
            Profile::Cluster => Equality::ByValue,
        }
    }
}
