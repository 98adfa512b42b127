//! All patterns of a schema, in order.
ghost use Rattle.std.specs.Prelude.{◌≡◌, ◌∷◌, [], OnOk, IfOk};
ghost use Rattle.jtree.specs.Path.{name as name_step, index as index_step};
ghost use Rattle.jtree.specs.View.{data_of};
ghost use Rattle.judge.specs.Patterns.{a_schema, role_under as role_under_of, role_by, ArePatterns};
ghost use Rattle.judge.specs.Internal.PatternsByLevel.{role_of, here, own, under, found, in_items, in_members, progress, added};

use crate::finding::{push_index, push_name};
use jtree::{Items, Members, Tree};
use std::alloc::{AllocError, Global};

/// A pattern that a schema asks texts for.
#[derive(Drop)]
pub struct SchemaPattern<'s> {
    /// The JSON pointer of the schema that has it, counted from the whole schema (RFC 6901).
    pub pointer: String,
    /// The text of the pattern.
    pub text: &'s str,
}

/// What a part of a schema is: a schema, a list of schemas, schemas by name, or anything else.
#[derive(Clone, Copy)]
enum Part {
    Schema,
    List,
    Named,
    Other,
}

/// How far the walk over a schema has come.
#[derive(Drop)]
struct Walk<'s> {
    /// The pointer of the part.
    pointer: String,
    /// What is found so far.
    found: Vec<SchemaPattern<'s>>,
}

impl<'s> Walk<'s> {
    /// Adds a pattern of the schema that the walk has come to.
    fn add(&mut self, text: &'s str) -> Result<(), AllocError>
        ensures { OnOk result (progress self.new ≡ added (progress self.old) (here text.now ∷ [])) }
    {
        let pointer = self.pointer.clone()?;
        self.found.push(SchemaPattern { pointer, text })?;
        Ok(())
    }
}

/// All patterns of a schema as it is written, with those of the schemas in it (apiextensions.k8s.io/v1, JSONSchemaProps): below `items`,
/// `not` and `additionalProperties`, in the lists of `allOf`, `anyOf` and `oneOf`, and under the names of `properties`, to any depth. They
/// come in path order, one for each schema that has one. `Err` where an allocation fails.
///
/// A `pattern` that is no text is left out, and an empty one is listed. Whether a text is a pattern at all is not asked. The work is linear
/// in the schema and the pointers that are listed.
pub fn patterns<'s>(alloc: Global, schema: &'s Tree) -> Result<Vec<SchemaPattern<'s>>, AllocError>
    ensures { IfOk result (λ found. ArePatterns (data_of schema.now) found.items) }
{
    schema.reveal_invariant();
    let mut walk = Walk {
        pointer: String::new(alloc),
        found: Vec::new(alloc),
    };
    add_part(&mut walk, Part::Schema, schema)?;
    Ok(walk.found)
}

/// What stands under a keyword.
fn part_under(keyword: &str) -> Part
    ensures { role_of result ≡ role_under_of keyword.now }
{
    match keyword {
        "items" | "additionalProperties" | "not" => Part::Schema,
        "allOf" | "anyOf" | "oneOf" => Part::List,
        "properties" => Part::Named,
        _ => Part::Other,
    }
}

/// What stands under a name in a part.
fn part_by(part: Part, name: &str) -> Part
    ensures { role_of result ≡ role_by (role_of part) (name_step name.now) }
{
    match part {
        Part::Schema => part_under(name),
        Part::Named => Part::Schema,
        _ => Part::Other,
    }
}

/// Adds the patterns of a part.
#[cycle(walk)]
fn add_part<'s>(walk: &mut Walk<'s>, part: Part, tree: &'s Tree) -> Result<(), AllocError>
    ensures { OnOk result (progress walk.new ≡ added (progress walk.old) (found (role_of part) (data_of tree.now))) }
{
    match (part, tree) {
        (Part::Schema, Tree::Object(keywords)) => {
            add_own(walk, keywords)?;
            add_members(walk, part, keywords)
        }
        (Part::List, Tree::List(schemas)) => add_items(walk, schemas),
        (Part::Named, Tree::Object(schemas)) => add_members(walk, part, schemas),
        _ => Ok(()),
    }
}

/// Adds the pattern of a schema itself.
fn add_own<'s>(walk: &mut Walk<'s>, keywords: &'s Members) -> Result<(), AllocError>
    ensures { OnOk result (progress walk.new ≡ added (progress walk.old) (own keywords.now)) }
{
    match keywords.get("pattern") {
        Some(Tree::Text(text)) => walk.add(text.as_str()),
        _ => Ok(()),
    }
}

#[cycle(walk)]
fn add_items<'s>(walk: &mut Walk<'s>, schemas: &'s Items) -> Result<(), AllocError>
    ensures { OnOk result (progress walk.new ≡ added (progress walk.old) (in_items schemas.now 0)) }
{
    for (i, schema) in schemas.items.iter().enumerate() {
        add_item(walk, i, schema)?;
    }
    Ok(())
}

#[cycle(walk)]
fn add_item<'s>(walk: &mut Walk<'s>, index: usize, schema: &'s Tree) -> Result<(), AllocError>
    ensures { OnOk result (progress walk.new ≡ added (progress walk.old) (under (index_step index) (found a_schema (data_of schema.now)))) }
{
    let length = walk.pointer.len();
    push_index(&mut walk.pointer, index as u64)?;
    add_part(walk, Part::Schema, schema)?;
    walk.pointer.truncate(length);
    Ok(())
}

#[cycle(walk)]
fn add_members<'s>(walk: &mut Walk<'s>, part: Part, members: &'s Members) -> Result<(), AllocError>
    ensures { OnOk result (progress walk.new ≡ added (progress walk.old) (in_members (role_of part) members.now)) }
{
    for member in &members.members {
        let name = member.name.as_str();
        add_member(walk, part_by(part, name), name, &member.tree)?;
    }
    Ok(())
}

/// Adds the patterns of the part under a name.
#[cycle(walk)]
fn add_member<'s>(
    walk: &mut Walk<'s>,
    part: Part,
    name: &str,
    tree: &'s Tree,
) -> Result<(), AllocError>
    ensures { OnOk result (progress walk.new ≡ added (progress walk.old) (under (name_step name.now) (found (role_of part) (data_of tree.now)))) }
{
    let length = walk.pointer.len();
    push_name(&mut walk.pointer, name)?;
    add_part(walk, part, tree)?;
    walk.pointer.truncate(length);
    Ok(())
}
