//! Where junctors may be, what their branches may say, and how many fields they may name.
ghost use Rattle.std.specs.Prelude.{◌≡◌, ◌↔◌, [], true, false, map, option_map, option_and_then, IsTrue};
ghost use Rattle.jtree.specs.Data.{object, item, no_items};
ghost use Rattle.jtree.specs.View.{data_of, items_of};
ghost use Rattle.schema.specs.Document.Places.{core};
ghost use Rattle.schema.specs.Internal.Named;
ghost use Rattle.schema.specs.Internal.Named.{part_names, item_names, member_names, other_of, has_others};
ghost use Rattle.schema.specs.Internal.NamedView.{name_part_view};
ghost use Rattle.schema.specs.Internal.PlaceView.{place_of};
ghost use Rattle.schema.specs.Rules.Junctors as JunctorsSpec;
ghost use Rattle.schema.specs.Rules.Junctors.{BreaksJunctors, HasTooManyNames, NamesTooMany};
ghost use Rattle.schema.specs.Rules.Keywords.{members_in, texts_of};
ghost use Rattle.schema.specs.Rules.Kinds;
ghost use Rattle.schema.specs.Rules.Profile as ProfileSpec;

use crate::keywords::{Keywords, has_keyword, is_one_of};
use crate::kinds::{declares_fields, is_scalar};
use crate::places::{Step, is_junctor};
use crate::profile::Profile;
use crate::rules::is_inside;
use crate::rules::profile::{has_empty_enum, lists_other, properties_of};
use crate::rules::required::{FieldNames, lists_no_field};
use jtree::{Items, Members, Tree};

/// V16: the junctors of a place, or what a branch has, is outside the profile.
pub(crate) fn breaks_junctors(
    profile: Profile,
    place: &[Step<'_>],
    outer: Option<&Members>,
    schema: &Members,
) -> bool
    ensures { IsTrue result ↔ BreaksJunctors profile (place_of place.now) (option_map (λ m. object m.now) outer.entry) (object schema.now) }
{
    has_misplaced_junctor(profile, place, schema)
        || has_too_many_names(profile, place, schema)
        || is_bad_presence(profile, place, outer, schema)
        || is_bad_value(profile, place, outer, schema)
}

/// Whether an outside place has a junctor and is neither a scalar nor an object with declared fields.
fn has_misplaced_junctor(profile: Profile, place: &[Step<'_>], schema: &Members) -> bool
    ensures { result ≡ JunctorsSpec.has_misplaced_junctor profile (place_of place.now) (object schema.now) }
{
    takes_no_junctor(profile, place, schema) && has_keyword(schema, Keywords::Junctors)
}

/// Whether an outside place is neither a scalar nor an object with declared fields.
pub(crate) fn takes_no_junctor(profile: Profile, place: &[Step<'_>], schema: &Members) -> bool
    ensures { result ≡ JunctorsSpec.takes_no_junctor profile (place_of place.now) (object schema.now) }
{
    !is_inside(place) && (!is_scalar(profile, schema) && !declares_fields(profile, schema))
}

/// Whether a branch that asks which fields are present has another keyword than it may have, or requires what is no field.
fn is_bad_presence(
    profile: Profile,
    place: &[Step<'_>],
    outer: Option<&Members>,
    schema: &Members,
) -> bool
    ensures { result ≡ JunctorsSpec.is_bad_presence profile (place_of place.now) (option_map (λ m. object m.now) outer.entry) (object schema.now) }
{
    asks_presence(profile, place, outer)
        && (has_keyword(schema, Keywords::BesidePresence)
            || requires_no_field(place, outer, schema))
}

/// Whether a branch that asks of the value has another keyword or another value of `enum` than it may have.
fn is_bad_value(
    profile: Profile,
    place: &[Step<'_>],
    outer: Option<&Members>,
    schema: &Members,
) -> bool
    ensures { result ≡ JunctorsSpec.is_bad_value profile (place_of place.now) (option_map (λ m. object m.now) outer.entry) (object schema.now) }
{
    (is_inside(place) && !asks_presence(profile, place, outer))
        && (has_keyword(schema, Keywords::BesideBranch)
            || (has_empty_enum(schema) || lists_other(schema, None)))
}

/// Whether a place is a branch that asks which fields are present, by the schema at its place without the steps into
/// branches.
pub(crate) fn asks_presence(profile: Profile, place: &[Step<'_>], outer: Option<&Members>) -> bool
    ensures { result ≡ JunctorsSpec.asks_presence profile (place_of place.now) (option_map (λ m. object m.now) outer.entry) }
{
    is_inside(place) && is_with_fields(profile, outer)
}

fn is_with_fields(profile: Profile, schema: Option<&Members>) -> bool
    ensures { result ≡ JunctorsSpec.declares_fields (option_and_then (Kinds.kind_of profile) (option_map (λ m. object m.now) schema.entry)) }
{
    match schema {
        Some(schema) => declares_fields(profile, schema),
        None => false,
    }
}

/// Whether `required` lists what is no field of the object outside.
pub(crate) fn requires_no_field(
    place: &[Step<'_>],
    outer: Option<&Members>,
    schema: &Members,
) -> bool
    ensures { result ≡ JunctorsSpec.requires_no_field (place_of place.now) (option_map (λ m. object m.now) outer.entry) (object schema.now) }
{
    let fields = FieldNames {
        at_root: is_in_root(place),
        envelope: false,
        properties: fields_of(outer),
    };
    lists_no_field(&fields, schema)
}

/// Whether all steps of the place are into branches.
fn is_in_root(place: &[Step<'_>]) -> bool
    ensures { result ≡ ProfileSpec.is_root (core (place_of place.now)) }
{
    for step in place {
        if !is_junctor(*step) {
            return false;
        }
    }
    true
}

/// The properties of the object outside.
fn fields_of(outer: Option<&Members>) -> Option<&Members>
    ensures { members_in (option_map (λ m. object m.now) result) ≡ JunctorsSpec.fields_of (option_map (λ m. object m.now) outer.entry) }
{
    properties_of(outer?)
}

pub(crate) fn has_too_many_names(profile: Profile, place: &[Step<'_>], schema: &Members) -> bool
    ensures { IsTrue result ↔ HasTooManyNames profile (place_of place.now) (object schema.now) }
{
    !is_inside(place) && (declares_fields(profile, schema) && names_too_many(schema))
}

/// Whether the branches of a schema name more than four fields.
fn names_too_many(schema: &Members) -> bool
    ensures { IsTrue result ↔ NamesTooMany (object schema.now) }
{
    schema.reveal_invariant();
    has_fifth_name(schema)
}

/// Whether there are five names, each found as the first beside those before it.
fn has_fifth_name(schema: &Members) -> bool
    ensures { result ≡ has_others 5 [] (member_names false schema.now) }
{
    let Some(first) = other_name(schema, false, &[]) else {
        return false;
    };
    let Some(second) = other_name(schema, false, &[first]) else {
        return false;
    };
    let Some(third) = other_name(schema, false, &[second, first]) else {
        return false;
    };
    let Some(fourth) = other_name(schema, false, &[third, second, first]) else {
        return false;
    };
    other_name(schema, false, &[fourth, third, second, first]).is_some()
}

/// What the value of a keyword has of the names that branches ask for.
#[derive(Clone, Copy, Drop)]
enum NamePart {
    Names,
    Branches,
    Branch,
    Other,
}

fn name_part(in_branch: bool, keyword: &str) -> NamePart
    ensures { name_part_view result ≡ Named.name_part in_branch keyword.now }
{
    match keyword {
        "required" => {
            if in_branch {
                NamePart::Names
            } else {
                NamePart::Other
            }
        }
        "allOf" | "anyOf" | "oneOf" => NamePart::Branches,
        "not" => NamePart::Branch,
        _ => NamePart::Other,
    }
}

/// The first name, beside those that are known, that the branches of a schema require; of a branch its own among them.
#[cycle(names)]
fn other_name<'a>(schema: &'a Members, in_branch: bool, known: &[&str]) -> Option<&'a str>
    ensures { option_map (λ s. s.now) result ≡ other_of (map (λ w. w.now) known.now) (member_names in_branch schema.now) }
{
    for member in &schema.members {
        let part = name_part(in_branch, member.name.as_str());
        if let Some(name) = other_in_part(part, &member.tree, known) {
            return Some(name);
        }
    }
    None
}

#[cycle(names)]
fn other_in_part<'a>(part: NamePart, tree: &'a Tree, known: &[&str]) -> Option<&'a str>
    ensures { option_map (λ s. s.now) result ≡ other_of (map (λ w. w.now) known.now) (part_names (name_part_view part) (data_of tree.now)) }
{
    match part {
        NamePart::Names => match tree {
            Tree::List(names) => other_listed(names.items.as_slice(), known),
            _ => None,
        },
        NamePart::Branches => match tree {
            Tree::List(branches) => other_in_branches(branches, known),
            _ => None,
        },
        NamePart::Branch => match tree {
            Tree::Object(members) => other_name(members, true, known),
            _ => None,
        },
        NamePart::Other => None,
    }
}

#[cycle(names)]
fn other_in_branches<'a>(branches: &'a Items, known: &[&str]) -> Option<&'a str>
    ensures { option_map (λ s. s.now) result ≡ other_of (map (λ w. w.now) known.now) (item_names branches.now) }
{
    for branch in &branches.items {
        if let Some(name) = other_in_part(NamePart::Branch, branch, known) {
            return Some(name);
        }
    }
    None
}

/// The first of these names that is not known.
fn other_listed<'a>(names: &'a [Tree], known: &[&str]) -> Option<&'a str>
    ensures { option_map (λ s. s.now) result ≡ other_of (map (λ w. w.now) known.now) (texts_of (items_of names.now)) }
{
    for name in names {
        if let Some(name) = other_text(name, known) {
            return Some(name);
        }
    }
    None
}

fn other_text<'a>(name: &'a Tree, known: &[&str]) -> Option<&'a str>
    ensures { option_map (λ s. s.now) result ≡ other_of (map (λ w. w.now) known.now) (texts_of (item (data_of name.now) no_items)) }
{
    match name {
        Tree::Text(name) => {
            let name = name.as_str();
            if is_one_of(name, known) {
                None
            } else {
                Some(name)
            }
        }
        _ => None,
    }
}
