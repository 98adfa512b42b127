//! How large a schema may be.

ghost use Rattle.std.specs.Prelude.{◌≡◌};
ghost use Rattle.jtree.specs.View.{data_of};
ghost use Rattle.schema.specs.Document.Limits as spec;
ghost use Rattle.schema.specs.Document.Limits.{standard, large, most};

use jtree::Tree;

/// How large a schema may be.
#[derive(Clone, Copy, Debug, PartialEq, Eq, Drop)]
pub struct Limits {
    /// The most places, branches of junctors among them.
    pub places: usize,
    /// The most steps of a place.
    pub steps: usize,
    /// The most members of `properties`.
    pub properties: usize,
    /// The most entries of `required`.
    pub required: usize,
    /// The most entries of `x-kubernetes-list-map-keys`.
    pub map_keys: usize,
    /// The most entries of `enum`.
    pub choices: usize,
}

impl Limits {
    /// Those of `read_crd`.
    pub const STANDARD: Limits = Limits {
        places: 512,
        steps: 24,
        properties: 32,
        required: 32,
        map_keys: 4,
        choices: 64,
    };

    /// Those for definitions of the size that operators ship.
    pub const LARGE: Limits = Limits {
        places: 16_384,
        steps: 60,
        properties: 1_024,
        required: 1_024,
        map_keys: 8,
        choices: 1_024,
    };

    /// How many there may be.
    pub fn most(&self, limited: Limited) -> usize
        ensures { result ≡ most self.now limited }
    {
        match limited {
            Limited::Places => self.places,
            Limited::Steps => self.steps,
            Limited::Properties => self.properties,
            Limited::Required => self.required,
            Limited::MapKeys => self.map_keys,
            Limited::Choices => self.choices,
        }
    }
}

/// What of a schema is limited.
#[derive(Clone, Copy, Debug, PartialEq, Eq, Drop)]
pub enum Limited {
    /// Its places.
    Places,
    /// The steps of a place.
    Steps,
    /// The members of `properties`.
    Properties,
    /// The entries of `required`.
    Required,
    /// The entries of `x-kubernetes-list-map-keys`.
    MapKeys,
    /// The entries of `enum`.
    Choices,
}

/// A limit that a schema passes.
#[derive(Drop)]
pub struct Excess {
    /// Where, as a pointer (RFC 6901) that is counted from the schema.
    pub pointer: String,
    /// What there is too much of.
    pub limited: Limited,
    /// How many there are.
    pub found: usize,
}

/// What of a keyword is limited.
pub(crate) fn limited_by(keyword: &str) -> Option<Limited>
    ensures { result ≡ spec.limited_by keyword.now }
{
    match keyword {
        "properties" => Some(Limited::Properties),
        "required" => Some(Limited::Required),
        "x-kubernetes-list-map-keys" => Some(Limited::MapKeys),
        "enum" => Some(Limited::Choices),
        _ => None,
    }
}

/// How many members or entries a value has.
pub(crate) fn size(tree: &Tree) -> usize
    ensures { result ≡ spec.size (data_of tree.now) }
{
    match tree {
        Tree::List(items) => items.items.as_slice().len(),
        Tree::Object(members) => members.members.as_slice().len(),
        _ => 0,
    }
}
