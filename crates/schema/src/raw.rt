//! The schema of a version as it is written.
use crate::limits::Limits;
use crate::profile::Profile;
use jtree::Tree;
use std::marker::Model;

/// How a schema is read: the profile, which says its forms, and the limits.
#[derive(Clone, Copy, Debug, PartialEq, Eq, Drop)]
pub struct Reading {
    pub profile: Profile,
    pub limits: Limits,
}

/// The schema of a version as it is in the document, and the profile that it is judged by; each keyword has its form.
pub struct RawSchema {
    tree: Tree,
    /// How it was read; its places are listed again, within the same limits.
    reading: Reading,
}

impl Drop for RawSchema {
    fn drop(self) {
        let RawSchema {
            tree: _,
            reading: _,
        } = self;
    }
}

impl Model for RawSchema {
    ghost use Rattle.schema.specs.Document.Raw.{Raw};
    ghost use Rattle.schema.specs.Internal.RawCode.{raw_coded};

    ghost Value = { Raw };

    ghost coded = { raw_coded };

    ghost use Rattle.jtree.specs.View.{data_of};
    ghost use Rattle.schema.specs.Document.Raw.{raw_by};

    ghost view = { λ a. raw_by a.reading.profile (data_of a.tree) };

    ghost use Rattle.schema.specs.Document.Forms.{HasForms};
    ghost use Rattle.schema.specs.Document.Limits.{IsWithinLimits};

    ghost invariant = { λ a. HasForms (raw_by a.reading.profile (data_of a.tree)) × IsWithinLimits a.reading.limits (data_of a.tree) };
}

impl RawSchema {
    ghost use Rattle.std.specs.Prelude.{◌≡◌};
    ghost use Rattle.jtree.specs.View.{data_of};
    ghost use Rattle.schema.specs.Document.Forms.{HasForms};
    ghost use Rattle.schema.specs.Document.Limits.{IsWithinLimits};
    ghost use Rattle.schema.specs.Document.Raw.{raw_by};

    /// The raw schema that a tree is, which was read so.
    pub(crate) fn new(tree: Tree, reading: Reading) -> RawSchema
        requires forms { HasForms (raw_by reading.profile (data_of tree)) }
        requires within { IsWithinLimits reading.limits (data_of tree) }
        ensures { result ≡ raw_by reading.profile (data_of tree) }
    {
        RawSchema { tree, reading }
    }

    /// The limits that it was read within.
    pub(crate) fn limits(&self) -> Limits
        ensures { IsWithinLimits result self.now.tree }
    {
        self.reading.limits
    }

    /// The profile that it is judged by.
    pub fn profile(&self) -> Profile
        ensures { result ≡ self.now.profile }
    {
        self.reading.profile
    }

    /// The tree of the schema.
    pub fn tree(&self) -> &Tree
        ensures data { data_of result.now ≡ self.now.tree }
        ensures forms { HasForms self.now }
    {
        &self.tree
    }
}
