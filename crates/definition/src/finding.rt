//! All faults of a definition, and of a schema, in order.
ghost use Rattle.std.specs.Prelude.{◌≡◌, ◌++◌, ◌∷◌, [], OnOk, IfOk, string_bytes};
ghost use Rattle.jtree.specs.Path.{name as name_step, index as index_step};
ghost use Rattle.jtree.specs.Pointer.{name_token, index_token};
ghost use Rattle.jtree.specs.View.{data_of};
ghost use Rattle.definition.specs.Faults.{AreFaults, AreSchemaFaults, AreFaultsFrom};
ghost use Rattle.definition.specs.Parts.{item_in as item_in_of, member_in as member_in_of};
ghost use Rattle.definition.specs.Internal.ByLevel.{here, broken_of, own as own_of, found, in_items, in_members, under, progress, added};

use crate::breaking::breaks;
use crate::part::{Fields, Part, Place};
use crate::parts::{item_in, member_in};
use crate::rule::{Rule, all_rules};
use jtree::{Items, Members, Tree};
use std::alloc::{AllocError, Global};

/// A rule that is broken in a definition or in a schema, and where.
#[derive(Drop)]
pub struct Fault {
    /// The JSON pointer of the part that breaks it, counted from the whole document or the whole schema (RFC 6901).
    pub pointer: String,
    /// The rule.
    pub rule: Rule,
    /// What the part is.
    pub part: Part,
}

/// How far a walk has come.
#[derive(Drop)]
struct Walk {
    /// The pointer of the part.
    pointer: String,
    /// What is found so far.
    found: Vec<Fault>,
}

impl Walk {
    /// Adds a rule that the part breaks.
    fn add(&mut self, part: Part, rule: Rule) -> Result<(), AllocError>
        ensures { OnOk result (progress self.new ≡ added (progress self.old) (here part rule ∷ [])) }
    {
        let pointer = self.pointer.clone()?;
        self.found.push(Fault {
            pointer,
            rule,
            part,
        })?;
        Ok(())
    }
}

/// All faults of a CustomResourceDefinition (apiextensions.k8s.io/v1), those of [`schema_faults`] aside: each pair of a path and a rule
/// once, in path order and then by number. Pointers begin at the document's root. `Err` where an allocation fails.
///
/// A field that is null or an empty text counts as absent. Fields that no rule speaks of may have any value. Of a schema it is asked, at
/// any depth, whether its keywords are known. The work is linear in the document and the pointers of the faults, but for the names of
/// versions, each of which is compared with those after it.
pub fn faults(alloc: Global, document: &Tree) -> Result<Vec<Fault>, AllocError>
    ensures { IfOk result (λ found. AreFaults (data_of document.now) found.items) }
{
    faults_from(alloc, Part::Fields(Fields::Definition), document)
}

/// All faults of the schema of a resource as it is written (apiextensions.k8s.io/v1, JSONSchemaProps), with the subresource `status` or
/// without it: each pair of a path and a rule once, in path order and then by number. Pointers begin at the schema itself. `Err` where an
/// allocation fails.
///
/// What the rules of `schema` say already is not asked, nor what a keyword that is not supported has in it. The work is linear in the
/// schema and the pointers of the faults.
pub fn schema_faults(
    alloc: Global,
    schema: &Tree,
    has_status: bool,
) -> Result<Vec<Fault>, AllocError>
    ensures { IfOk result (λ found. AreSchemaFaults has_status (data_of schema.now) found.items) }
{
    faults_from(alloc, Part::Place(Place::root(has_status)), schema)
}

/// All faults from a part on.
fn faults_from(alloc: Global, part: Part, tree: &Tree) -> Result<Vec<Fault>, AllocError>
    ensures { IfOk result (λ found. AreFaultsFrom part (data_of tree.now) found.items) }
{
    tree.reveal_invariant();
    let mut walk = Walk {
        pointer: String::new(alloc),
        found: Vec::new(alloc),
    };
    add_part(&mut walk, part, tree)?;
    Ok(walk.found)
}

/// Adds the rules, of some, that a part breaks.
fn add_broken(walk: &mut Walk, part: Part, tree: &Tree, rules: &[Rule]) -> Result<(), AllocError>
    ensures { OnOk result (progress walk.new ≡ added (progress walk.old) (broken_of part (data_of tree.now) rules.now)) }
{
    for rule in rules {
        if breaks(*rule, part, tree) {
            walk.add(part, *rule)?;
        }
    }
    Ok(())
}

fn add_own(walk: &mut Walk, part: Part, tree: &Tree) -> Result<(), AllocError>
    ensures { OnOk result (progress walk.new ≡ added (progress walk.old) (own_of part (data_of tree.now))) }
{
    add_broken(walk, part, tree, &all_rules())
}

/// Adds the faults of a part and of what is below it.
#[cycle(walk)]
fn add_part(walk: &mut Walk, part: Part, tree: &Tree) -> Result<(), AllocError>
    ensures { OnOk result (progress walk.new ≡ added (progress walk.old) (found part (data_of tree.now))) }
{
    add_own(walk, part, tree)?;
    match tree {
        Tree::List(items) => add_items(walk, part, items),
        Tree::Object(members) => add_members(walk, part, members),
        _ => Ok(()),
    }
}

#[cycle(walk)]
fn add_items(walk: &mut Walk, part: Part, items: &Items) -> Result<(), AllocError>
    ensures { OnOk result (progress walk.new ≡ added (progress walk.old) (in_items part items.now 0)) }
{
    let below = item_in(part);
    for (i, item) in items.items.iter().enumerate() {
        add_item(walk, below, i, item)?;
    }
    Ok(())
}

/// Adds the faults at an index.
#[cycle(walk)]
fn add_item(walk: &mut Walk, part: Part, index: usize, tree: &Tree) -> Result<(), AllocError>
    ensures { OnOk result (progress walk.new ≡ added (progress walk.old) (under (index_step index) (found part (data_of tree.now)))) }
{
    let length = walk.pointer.len();
    push_index(&mut walk.pointer, index as u64)?;
    add_part(walk, part, tree)?;
    walk.pointer.truncate(length);
    Ok(())
}

#[cycle(walk)]
fn add_members(walk: &mut Walk, part: Part, members: &Members) -> Result<(), AllocError>
    ensures { OnOk result (progress walk.new ≡ added (progress walk.old) (in_members part members.now members.now)) }
{
    for member in &members.members {
        let name = member.name.as_str();
        add_member(walk, member_in(part, members, name), name, &member.tree)?;
    }
    Ok(())
}

/// Adds the faults under a name.
#[cycle(walk)]
fn add_member(walk: &mut Walk, part: Part, name: &str, tree: &Tree) -> Result<(), AllocError>
    ensures { OnOk result (progress walk.new ≡ added (progress walk.old) (under (name_step name.now) (found part (data_of tree.now)))) }
{
    let length = walk.pointer.len();
    push_name(&mut walk.pointer, name)?;
    add_part(walk, part, tree)?;
    walk.pointer.truncate(length);
    Ok(())
}

fn push_name(text: &mut String, name: &str) -> Result<(), AllocError>
    ensures { OnOk result (string_bytes text.new ≡ string_bytes text.old ++ name_token name.now) }
{
    jtree::push_name(text, name).map_err(|_| AllocError)
}

fn push_index(text: &mut String, index: u64) -> Result<(), AllocError>
    ensures { OnOk result (string_bytes text.new ≡ string_bytes text.old ++ index_token index) }
{
    jtree::push_index(text, index).map_err(|_| AllocError)
}
