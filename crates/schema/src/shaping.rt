//! The nodes of a schema that breaks no rule.
ghost use Rattle.std.specs.Prelude.{◌≡◌, true, false, OnOk, IfOk, IfErr, option_map, codes};
ghost use Rattle.jtree.specs.Data.{no_items, item};
ghost use Rattle.jtree.specs.Path.{under};
ghost use Rattle.jtree.specs.View.{data_of};
ghost use Rattle.schema.specs.Document.Texts.{is_among};
ghost use Rattle.schema.specs.Rules.Kinds;
ghost use Rattle.schema.specs.Rules.Kinds.{IsOfKind};
ghost use Rattle.schema.specs.Document.Places.{Place};
ghost use Rattle.schema.specs.Rules.Breaks.{BreaksNone};
ghost use Rattle.schema.specs.Rules.Keywords.{text_under, texts_under, members_under};
ghost use Rattle.schema.specs.Nodes.View.{node_of, sort_of, object_of, map_of, list_of};
ghost use Rattle.schema.specs.Nodes.ByPlace.{AreNodesOf, equality_of, list_type_named, map_type_named};
ghost use Rattle.schema.specs.Nodes.Shape.{IsRootOf, IsShapeRefusal};
ghost use Rattle.schema.specs.Internal.NodeOf;
ghost use Rattle.schema.specs.Internal.NodeOf.{IsNodeOf, IsSortOf, AreFieldsOf, declared_of};
ghost use Rattle.schema.specs.Internal.Building.{HasNodes, HaveNodes, IsFieldOf};

use crate::judging::breaks;
use crate::keywords::lists_text;
use crate::kinds::{Kind, kind_of};
use crate::node::{
    Below, Field, Fields, ListNode, ListType, MapNode, MapType, Node, ObjectNode, ScalarNode, Sort,
};
use crate::places::is_envelope_name;
use crate::profile::Profile;
use crate::raw::RawSchema;
use crate::reading::{bounds, copy_text, copy_texts, flag, text};
use crate::refused::Refused;
use crate::shaped::Shape;
use crate::validations::{read_object_junctors, read_validations};
use jtree::{Items, Member, Members, Tree};
use std::alloc::{AllocError, Global};

/// The nodes of a schema that breaks none of the rules V01 to V13 and V15 to V17 (apiextensions.k8s.io/v1, "specifying a
/// structural schema", and this project's profile): one for each place that is in no branch of a junctor and not of the
/// envelope, of its kind and with its keywords. The root has no field for `apiVersion`, `kind` and `metadata`.
///
/// `Violations` with all that is broken, in path order of the places and then by number, where some rule is broken.
/// `NoMemory` where an allocation fails.
pub fn shape(alloc: Global, raw: &RawSchema) -> Result<Shape, Refused>
    ensures nodes { IfOk result (λ s. AreNodesOf true s raw.now) }
    ensures unbroken { OnOk result (BreaksNone raw.now) }
    ensures refused { IfErr result (IsShapeRefusal raw.now) }
{
    match check_rules(alloc, raw) {
        Ok(()) => Ok(shape_of_unbroken(alloc, raw)?),
        Err(refused) => Err(refused),
    }
}

/// The nodes of a schema that is known to break none of these rules, as `shape` answers them, without judging it again. `AllocError`
/// where an allocation fails.
pub fn shape_of_unbroken(alloc: Global, raw: &RawSchema) -> Result<Shape, AllocError>
    requires { BreaksNone raw.now }
    ensures { IfOk result (λ s. AreNodesOf true s raw.now) }
{
    Ok(Shape::new(read_root(alloc, raw)?))
}

/// The node of a whole schema.
fn read_root(alloc: Global, raw: &RawSchema) -> Result<Node, AllocError>
    requires { BreaksNone raw.now }
    ensures { IfOk result (λ n. IsRootOf (node_of n) raw.now) }
{
    let schema = raw.tree();
    schema.reveal_invariant();
    Ok(read_node(alloc, raw.profile(), schema, true)?)
}

/// Whether a schema breaks no rule.
fn check_rules(alloc: Global, raw: &RawSchema) -> Result<(), Refused>
    ensures ok { OnOk result (BreaksNone raw.now) }
    ensures err { IfErr result (IsShapeRefusal raw.now) }
{
    match breaks(alloc, raw) {
        Ok(violations) if violations.as_slice().is_empty() => Ok(()),
        Ok(violations) => Err(Refused::Violations(violations)),
        Err(_fault) => Err(Refused::NoMemory),
    }
}

/// The node of a schema, at the root of the whole or below it.
#[cycle(read)]
fn read_node(alloc: Global, profile: Profile, schema: &Tree, root: bool) -> Result<Node, AllocError>
    requires { HasNodes profile root (data_of schema.now) }
    ensures { IfOk result (λ n. IsNodeOf profile root (node_of n) (data_of schema.now)) }
{
    let description = copy_text(alloc, schema, "description")?;
    Ok(Node {
        nullable: flag(schema, "nullable"),
        description,
        sort: read_sort(alloc, profile, schema, root)?,
    })
}

/// What the node of a schema accepts besides null.
#[cycle(read)]
fn read_sort(alloc: Global, profile: Profile, schema: &Tree, root: bool) -> Result<Sort, AllocError>
    requires { HasNodes profile root (data_of schema.now) }
    ensures { IfOk result (λ s. IsSortOf profile root (sort_of s) (data_of schema.now)) }
{
    match kind_of(profile, schema) {
        Some(Kind::Scalar(kind)) => {
            let validations = read_validations(alloc, profile, schema)?;
            Ok(Sort::Scalar(ScalarNode { kind, validations }))
        }
        Some(Kind::Object) => Ok(Sort::Object(read_object(alloc, profile, schema, root)?)),
        Some(Kind::Map) => Ok(Sort::Map(read_map(alloc, profile, schema, root)?)),
        Some(Kind::List) => Ok(Sort::List(read_list(alloc, profile, schema, root)?)),
        Some(Kind::Open) => Ok(Sort::Open),
        None => unreachable!(),
    }
}

#[cycle(read)]
fn read_object(
    alloc: Global,
    profile: Profile,
    schema: &Tree,
    root: bool,
) -> Result<ObjectNode, AllocError>
    requires nodes { HasNodes profile root (data_of schema.now) }
    requires kind { IsOfKind profile (data_of schema.now) Kinds.object }
    ensures { IfOk result (λ n. IsSortOf profile root (object_of n) (data_of schema.now)) }
{
    Ok(ObjectNode {
        fields: read_properties(alloc, profile, schema, root)?,
        preserves: flag(schema, "x-kubernetes-preserve-unknown-fields"),
        map_type: map_type(schema),
        bounds: bounds(schema, "minProperties", "maxProperties"),
        junctors: read_object_junctors(alloc, schema)?,
    })
}

/// The fields of an object.
#[cycle(read)]
fn read_properties(
    alloc: Global,
    profile: Profile,
    schema: &Tree,
    root: bool,
) -> Result<Fields, AllocError>
    requires { HasNodes profile root (data_of schema.now) }
    ensures { IfOk result (λ fs. AreFieldsOf profile fs (texts_under (data_of schema.now) (codes "required")) (declared_of root (members_under (data_of schema.now) (codes "properties")))) }
{
    match schema.get("properties") {
        Some(Tree::Object(properties)) => read_fields(alloc, profile, schema, properties, root),
        _ => Ok(Fields {
            fields: Vec::new(alloc),
        }),
    }
}

#[cycle(read)]
fn read_map(
    alloc: Global,
    profile: Profile,
    schema: &Tree,
    root: bool,
) -> Result<MapNode, AllocError>
    requires nodes { HasNodes profile root (data_of schema.now) }
    requires kind { IsOfKind profile (data_of schema.now) Kinds.map }
    ensures { IfOk result (λ n. IsSortOf profile root (map_of n) (data_of schema.now)) }
{
    match schema.get("additionalProperties") {
        Some(below) => Ok(MapNode {
            value: read_below(alloc, profile, below)?,
            map_type: map_type(schema),
            bounds: bounds(schema, "minProperties", "maxProperties"),
        }),
        None => unreachable!(),
    }
}

#[cycle(read)]
fn read_list(
    alloc: Global,
    profile: Profile,
    schema: &Tree,
    root: bool,
) -> Result<ListNode, AllocError>
    requires nodes { HasNodes profile root (data_of schema.now) }
    requires kind { IsOfKind profile (data_of schema.now) Kinds.list }
    ensures { IfOk result (λ n. IsSortOf profile root (list_of n) (data_of schema.now)) }
{
    match schema.get("items") {
        Some(below) => Ok(ListNode {
            item: read_below(alloc, profile, below)?,
            list_type: list_type(profile, schema),
            keys: copy_texts(alloc, schema, "x-kubernetes-list-map-keys")?,
            bounds: bounds(schema, "minItems", "maxItems"),
        }),
        None => unreachable!(),
    }
}

/// The node of the items of a list, or of the values of a map.
#[cycle(read)]
fn read_below(alloc: Global, profile: Profile, schema: &Tree) -> Result<Below, AllocError>
    requires { HasNodes profile false (data_of schema.now) }
    ensures { IfOk result (λ b. IsNodeOf profile false b (data_of schema.now)) }
{
    let node = read_node(alloc, profile, schema, false)?;
    node.reveal_invariant();
    Ok(Below {
        node: Box::new(alloc, node)?,
    })
}

/// The fields of the properties of a schema, at the root without those of the envelope.
#[cycle(read)]
fn read_fields(
    alloc: Global,
    profile: Profile,
    schema: &Tree,
    properties: &Members,
    root: bool,
) -> Result<Fields, AllocError>
    requires { HaveNodes profile root properties.now }
    ensures { IfOk result (λ fs. AreFieldsOf profile fs (texts_under (data_of schema.now) (codes "required")) (declared_of root properties.now)) }
{
    properties.reveal_invariant();
    let mut fields = Vec::new(alloc);
    for property in &properties.members {
        if !is_declared(property, root) {
            continue;
        }
        fields.push(read_field(alloc, profile, schema, property)?)?;
    }
    Ok(Fields { fields })
}

/// The field of a property.
#[cycle(read)]
fn read_field(
    alloc: Global,
    profile: Profile,
    schema: &Tree,
    property: &Member,
) -> Result<Field, AllocError>
    requires { HasNodes profile false (data_of property.now.tree) }
    ensures { IfOk result (λ f. IsFieldOf profile f (data_of schema.now) property.now) }
{
    let name = property.name.copy(alloc)?;
    let default = copy_default(alloc, &property.tree)?;
    Ok(Field {
        name,
        node: read_node(alloc, profile, &property.tree, false)?,
        required: is_required(schema, property.name.as_str()),
        default,
    })
}

/// Whether a property has a field.
fn is_declared(property: &Member, root: bool) -> bool
    ensures { result ≡ NodeOf.is_declared root property.now.name (data_of property.now.tree) }
{
    match &property.tree {
        Tree::Object(_) => !(root && is_envelope_name(property.name.as_str())),
        _ => false,
    }
}

fn is_required(schema: &Tree, name: &str) -> bool
    ensures { result ≡ is_among name.now (texts_under (data_of schema.now) (codes "required")) }
{
    match schema {
        Tree::Object(members) => lists_text(members, "required", name),
        _ => false,
    }
}

/// An equal default of a property, where it has one.
fn copy_default(alloc: Global, property: &Tree) -> Result<Option<Tree>, AllocError>
    ensures { IfOk result (λ o. option_map data_of o ≡ under (data_of property.now) (codes "default")) }
{
    match property.get("default") {
        Some(tree) => Ok(Some(tree.try_clone(alloc)?)),
        None => Ok(None),
    }
}

fn list_type(profile: Profile, schema: &Tree) -> ListType
    ensures { result ≡ list_type_named (equality_of profile) (text_under (data_of schema.now) (codes "x-kubernetes-list-type")) }
{
    match text(schema, "x-kubernetes-list-type") {
        Some("set") => ListType::Set(profile.equality()),
        Some("map") => ListType::Map(profile.equality()),
        _ => ListType::Atomic,
    }
}

fn map_type(schema: &Tree) -> MapType
    ensures { result ≡ map_type_named (text_under (data_of schema.now) (codes "x-kubernetes-map-type")) }
{
    match text(schema, "x-kubernetes-map-type") {
        Some("atomic") => MapType::Atomic,
        _ => MapType::Granular,
    }
}
