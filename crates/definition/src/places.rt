//! What stands where in a schema.
ghost use Rattle.std.specs.Prelude.{◌≡◌};
ghost use Rattle.definition.specs.Parts as spec;
ghost use Rattle.definition.specs.Faults.{root_place};

use crate::part::{Needed, Part, Place, Properties};
use crate::reading::is_true;
use crate::texts::is_one_of;
use jtree::Members;

impl Place {
    /// The schema of a whole resource.
    pub(crate) fn root(has_status: bool) -> Place
        ensures { result ≡ root_place has_status }
    {
        Place {
            is_root: true,
            has_status,
            is_inside: false,
            is_in_metadata: false,
            needed: Needed::Anything,
        }
    }

    /// A schema in it.
    fn part(self) -> Place
        ensures { result ≡ spec.part_place self }
    {
        Place {
            is_root: false,
            has_status: false,
            is_inside: self.is_inside,
            is_in_metadata: self.is_in_metadata,
            needed: Needed::Anything,
        }
    }

    /// A branch of a junctor of it.
    fn branch(self) -> Place
        ensures { result ≡ spec.branch_place self }
    {
        Place {
            is_root: false,
            has_status: false,
            is_inside: true,
            is_in_metadata: self.is_in_metadata,
            needed: Needed::Anything,
        }
    }

    /// The schemas under its `properties`.
    fn properties(self, schema: &Members) -> Properties
        ensures { result ≡ spec.properties_of self schema.now }
    {
        let is_embedded = is_true(schema.get("x-kubernetes-embedded-resource"));
        Properties {
            place: self.part(),
            is_resource: !self.is_inside && (self.is_root || is_embedded),
            is_root: self.is_root,
        }
    }

    /// What stands under a keyword of it.
    pub(crate) fn part_under(self, schema: &Members, keyword: &str) -> Part
        ensures { result ≡ spec.in_place self schema.now keyword.now }
    {
        if is_one_of(keyword, &["additionalProperties", "items"]) {
            return Part::Place(self.part());
        }
        if is_one_of(keyword, &["allOf", "anyOf", "oneOf"]) {
            return Part::Branches(self.branch());
        }
        match keyword {
            "not" => Part::Place(self.branch()),
            "properties" => Part::Properties(self.properties(schema)),
            _ => Part::Other,
        }
    }

    /// A schema in its place that may not be there.
    fn for_nothing(self) -> Place
        ensures { result ≡ spec.place_for_nothing self }
    {
        Place {
            is_root: false,
            has_status: false,
            is_inside: self.is_inside,
            is_in_metadata: self.is_in_metadata,
            needed: Needed::Nothing,
        }
    }

    /// The schema of a field of the envelope in its place.
    fn in_envelope(self, needed: Needed) -> Place
        ensures { result ≡ spec.place_in_envelope self needed }
    {
        Place {
            is_root: false,
            has_status: false,
            is_inside: self.is_inside,
            is_in_metadata: true,
            needed,
        }
    }
}

impl Properties {
    /// What the schema of `metadata` has to be.
    fn metadata_needs(self) -> Needed
        ensures { result ≡ spec.metadata_needs self }
    {
        if self.is_root {
            Needed::Anything
        } else {
            Needed::Object
        }
    }

    /// The schema of `metadata`.
    fn metadata_place(self) -> Place
        ensures { result ≡ spec.metadata_place self }
    {
        if self.place.is_inside {
            return self.place.for_nothing();
        }
        if self.is_resource {
            self.place.in_envelope(self.metadata_needs())
        } else {
            self.place
        }
    }

    /// The schema of a name.
    pub(crate) fn place_of(self, name: &str) -> Place
        ensures { result ≡ spec.property_place self name.now }
    {
        if name == "metadata" {
            return self.metadata_place();
        }
        if self.is_resource && is_type_field(name) {
            self.place.in_envelope(Needed::String)
        } else {
            self.place
        }
    }
}

fn is_type_field(name: &str) -> bool
    ensures { result ≡ spec.is_type_field name.now }
{
    is_one_of(name, &["apiVersion", "kind"])
}
