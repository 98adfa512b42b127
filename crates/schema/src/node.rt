//! The nodes of a schema.
use crate::names::Names;
use jtree::{Equality, Items, Members, Text, Tree};
use std::marker::Model;

/// The kinds of value that a scalar node accepts: booleans, integers, strings, or both integers and strings.
#[derive(Clone, Copy, Debug, PartialEq, Eq, Drop)]
pub enum ScalarKind {
    Boolean,
    Integer,
    /// Integers and other numbers.
    Number,
    String,
    IntOrString,
}

/// How the items of a list merge, and which may be in one list (`x-kubernetes-list-type`): of a set no two that count as the same, of
/// a map list no two with keys that do.
#[derive(Clone, Copy, Debug, PartialEq, Eq, Drop)]
pub enum ListType {
    Atomic,
    Set(Equality),
    Map(Equality),
}

/// How the members of an object or a map merge (`x-kubernetes-map-type`).
#[derive(Clone, Copy, Debug, PartialEq, Eq, Drop)]
pub enum MapType {
    Granular,
    Atomic,
}

/// The least and the most parts that a value may have, where there is such a bound.
#[derive(Clone, Copy, Drop)]
pub struct Bounds {
    pub least: Option<u64>,
    pub most: Option<u64>,
}

/// What is asked of a scalar besides its kind, or of an object in a branch of a junctor. Lengths are counted in Unicode scalar
/// values.
#[derive(Drop)]
pub struct Constraints {
    /// The values of `enum` as written, where it is there.
    pub choices: Option<Items>,
    pub minimum: Option<i64>,
    pub maximum: Option<i64>,
    pub exclusive_minimum: bool,
    pub exclusive_maximum: bool,
    pub lengths: Bounds,
    /// The schema as it is written, where a cluster asks by it: then what stands above is not asked.
    pub written: Option<Members>,
    /// The names of the members that must be there (`required`).
    pub required: Names,
}

/// The constraints of a node, or of a branch of a junctor, and the junctors beside them.
#[cycle(validations)]
#[derive(Drop)]
pub struct Validations {
    pub constraints: Constraints,
    /// The branches of `allOf`, none where it is absent; and so for the next two.
    pub all_of: Branches,
    pub any_of: Branches,
    pub one_of: Branches,
    /// The branch of `not`, where it is there.
    pub negated: Branches,
}

/// The branches of a junctor, as written.
#[cycle(validations)]
#[derive(Drop)]
pub struct Branches {
    pub branches: Vec<Validations>,
}

/// A node of an accepted schema.
#[cycle(node)]
#[derive(Drop)]
pub struct Node {
    /// Whether null is accepted.
    pub nullable: bool,
    pub description: Option<Text>,
    pub sort: Sort,
}

/// What a node accepts besides null: scalars, objects with declared fields, maps, lists, or any value.
#[cycle(node)]
#[derive(Drop)]
pub enum Sort {
    Scalar(ScalarNode),
    Object(ObjectNode),
    Map(MapNode),
    List(ListNode),
    Open,
}

#[derive(Drop)]
pub struct ScalarNode {
    pub kind: ScalarKind,
    pub validations: Validations,
}

#[cycle(node)]
#[derive(Drop)]
pub struct ObjectNode {
    pub fields: Fields,
    /// Whether fields that are not declared are kept (`x-kubernetes-preserve-unknown-fields`).
    pub preserves: bool,
    pub map_type: MapType,
    /// On the number of members (`minProperties`, `maxProperties`).
    pub bounds: Bounds,
    /// The junctors, which ask which members are there; beside them nothing is asked here.
    pub junctors: Validations,
}

#[cycle(node)]
#[derive(Drop)]
pub struct MapNode {
    /// The node of each value (`additionalProperties`).
    pub value: Below,
    pub map_type: MapType,
    /// On the number of members (`minProperties`, `maxProperties`).
    pub bounds: Bounds,
}

#[cycle(node)]
#[derive(Drop)]
pub struct ListNode {
    /// The node of each item (`items`).
    pub item: Below,
    pub list_type: ListType,
    /// The names of the fields that distinguish the items of a map list (`x-kubernetes-list-map-keys`), as written.
    pub keys: Vec<Text>,
    /// On the number of items (`minItems`, `maxItems`).
    pub bounds: Bounds,
}

/// A node below another.
#[cycle(node)]
#[derive(Drop)]
pub struct Below {
    pub node: Box<Node>,
}

/// The declared fields of an object, by the bytes of their names, each name once.
#[cycle(node)]
#[derive(Drop)]
pub struct Fields {
    pub fields: Vec<Field>,
}

/// A declared field.
#[cycle(node)]
#[derive(Drop)]
pub struct Field {
    pub name: Text,
    pub node: Node,
    pub required: bool,
    pub default: Option<Tree>,
}

impl Model for Branches {
    ghost use Rattle.schema.specs.Nodes.Node as Nodes;
    ghost use Rattle.schema.specs.Nodes.Node.{branches_depth};
    ghost use Rattle.schema.specs.Internal.NodeCode.{branches_coded};

    ghost Value = { Nodes.Branches };

    ghost coded = { branches_coded };

    ghost use Rattle.schema.specs.Nodes.View.{branches_of};

    ghost view = { λ a. branches_of a.branches.items };

    ghost size = { branches_depth };

    ghost use Rattle.schema.specs.Internal.NodeMeasures.{branches_decrease};

    ghost size_decreases = { λ a h. branches_decrease a.branches.items };
}

impl Model for Below {
    ghost use Rattle.schema.specs.Nodes.Node as Nodes;
    ghost use Rattle.schema.specs.Nodes.Node.{node_depth, IsNode};
    ghost use Rattle.schema.specs.Internal.NodeCode.{node_coded};

    ghost Value = { Nodes.Node };

    ghost coded = { node_coded };

    ghost use Rattle.schema.specs.Nodes.View.{node_of};

    ghost view = { λ a. node_of a.node.value };

    ghost invariant = { λ a. IsNode (node_of a.node.value) };

    ghost size = { node_depth };

    ghost use Rattle.schema.specs.Internal.NodeMeasures.{below_decreases};

    ghost size_decreases = { λ a h. below_decreases a.node.value };
}

impl Model for Fields {
    ghost use Rattle.schema.specs.Nodes.Node as Nodes;
    ghost use Rattle.schema.specs.Nodes.Node.{fields_depth, AreOrdered};
    ghost use Rattle.schema.specs.Internal.NodeCode.{fields_coded};

    ghost Value = { Nodes.Fields };

    ghost coded = { fields_coded };

    ghost use Rattle.schema.specs.Nodes.View.{fields_of};

    ghost view = { λ a. fields_of a.fields.items };

    ghost invariant = { λ a. AreOrdered (fields_of a.fields.items) };

    ghost size = { fields_depth };

    ghost use Rattle.schema.specs.Internal.NodeMeasures.{fields_decrease};

    ghost size_decreases = { λ a h. fields_decrease a.fields.items };
}

impl Node {
    ghost use Rattle.schema.specs.Nodes.Node.{IsNode};
    ghost use Rattle.schema.specs.Nodes.View.{node_of};

    /// Brings to a proof that declared names are in order, each once. It does nothing.
    pub fn reveal_invariant(&self)
        ensures { IsNode (node_of self.now) }
    {
        match &self.sort {
            Sort::Scalar(_) | Sort::Open => {}
            Sort::Object(object) => object.fields.reveal_invariant(),
            Sort::Map(map) => map.value.reveal_invariant(),
            Sort::List(list) => list.item.reveal_invariant(),
        }
    }
}

impl Below {
    ghost use Rattle.schema.specs.Nodes.Node.{IsNode};

    /// Brings to a proof that declared names are in order, each once. It does nothing.
    pub fn reveal_invariant(&self)
        ensures { IsNode self.now }
    {
        let _ = &self.node;
    }
}

impl Fields {
    ghost use Rattle.schema.specs.Nodes.Node.{AreOrdered};

    /// Brings to a proof that declared names are in order, each once. It does nothing.
    pub fn reveal_invariant(&self)
        ensures { AreOrdered self.now }
    {
        let _ = &self.fields;
    }
}
