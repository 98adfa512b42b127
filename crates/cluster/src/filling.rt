//! Defaulting: what is absent, or a null that is not nullable, gets its default.
ghost use Rattle.std.specs.Prelude.{◌≡◌, IfOk, OnOk, Some, codes};
ghost use Rattle.jtree.specs.Data.{IsTree};
ghost use Rattle.jtree.specs.Data as tree;
ghost use Rattle.jtree.specs.View.{data_of};
ghost use Rattle.cluster.specs.Keywords.{keyword as keyword_of, default_of, item_schema as item_schema_of, member_schema as member_schema_of};
ghost use Rattle.cluster.specs.Filled.{filled, filled_by, filled_part, filled_members, filled_items, settled, with_default, with_each_default, with_defaults};
ghost use Rattle.cluster.specs.Internal.Trees.{schema_of, IsFilledMember};

use crate::keywords::{is_schema, is_set, keyword, member_schema};
use jtree::{Items, Member, Members, Tree};
use std::alloc::{AllocError, Global};

/// Fills a value with the defaults of its schema ("defaulting" and "nullable" of apiextensions.k8s.io/v1): a property that is absent, or a
/// null that is not nullable, gets its default. So does a null that is an item or a member of `additionalProperties`. What is then there is
/// filled in turn. `AllocError` where an allocation fails.
#[cycle(fill)]
pub fn fill(alloc: Global, schema: &Tree, value: Tree) -> Result<Tree, AllocError>
    ensures { IfOk result (λ t. data_of t ≡ filled (data_of schema.now) (data_of value)) }
{
    if is_schema(Some(schema)) {
        return fill_by(alloc, schema, value);
    }
    Ok(value)
}

#[cycle(fill)]
fn fill_by(alloc: Global, schema: &Tree, value: Tree) -> Result<Tree, AllocError>
    ensures { IfOk result (λ t. data_of t ≡ filled_by filled (data_of schema.now) (data_of value)) }
{
    match value {
        Tree::Object(members) => Ok(Tree::Object(fill_object(alloc, schema, members)?)),
        Tree::List(items) => Ok(Tree::List(fill_list(alloc, schema, items)?)),
        value => Ok(value),
    }
}

#[cycle(fill)]
fn fill_object(alloc: Global, schema: &Tree, members: Members) -> Result<Members, AllocError>
    ensures { IfOk result (λ ms. tree.object ms ≡ filled_by filled (data_of schema.now) (tree.object members)) }
{
    let mut members = members;
    add_defaults(alloc, keyword(Some(schema), "properties"), &mut members)?;
    fill_members(alloc, schema, members)
}

#[cycle(fill)]
fn fill_list(alloc: Global, schema: &Tree, items: Items) -> Result<Items, AllocError>
    ensures { IfOk result (λ ds. tree.list ds ≡ filled_by filled (data_of schema.now) (tree.list items)) }
{
    match keyword(Some(schema), "items") {
        Some(below) => fill_items(alloc, below, items),
        None => Ok(items),
    }
}

#[cycle(fill)]
fn fill_members(alloc: Global, schema: &Tree, members: Members) -> Result<Members, AllocError>
    ensures { IfOk result (λ ms. ms ≡ filled_members filled (Some (data_of schema.now)) members) }
{
    let mut filled = Vec::with_capacity(alloc, members.members.len())?;
    for member in members.members {
        filled.push(fill_member(alloc, schema, member)?)?;
    }
    Ok(Members { members: filled })
}

#[cycle(fill)]
fn fill_items(alloc: Global, schema: &Tree, items: Items) -> Result<Items, AllocError>
    ensures { IfOk result (λ ds. ds ≡ filled_items filled (Some (data_of schema.now)) items) }
{
    let mut filled = Vec::with_capacity(alloc, items.items.len())?;
    for item in items.items {
        let tree = fill_part(alloc, schema, item)?;
        tree.reveal_invariant();
        filled.push(tree)?;
    }
    Ok(Items { items: filled })
}

#[cycle(fill)]
fn fill_member(alloc: Global, schema: &Tree, member: Member) -> Result<Member, AllocError>
    ensures { IfOk result (λ m. IsFilledMember (data_of schema.now) member m) }
{
    let Member { name, tree } = member;
    let tree = match member_schema(Some(schema), name.as_str()) {
        Some(below) => fill_part(alloc, below, tree)?,
        None => tree,
    };
    tree.reveal_invariant();
    Ok(Member { name, tree })
}

#[cycle(fill)]
fn fill_part(alloc: Global, schema: &Tree, value: Tree) -> Result<Tree, AllocError>
    ensures { IfOk result (λ t. data_of t ≡ filled (data_of schema.now) (settled (data_of schema.now) (data_of value))) }
{
    let value = settle(alloc, schema, value)?;
    fill(alloc, schema, value)
}

/// The value, or the default for a null that is not nullable.
fn settle(alloc: Global, schema: &Tree, value: Tree) -> Result<Tree, AllocError>
    ensures { IfOk result (λ t. data_of t ≡ settled (data_of schema.now) (data_of value)) }
{
    match value {
        Tree::Null => or_default(alloc, schema),
        value => Ok(value),
    }
}

/// What becomes of a null.
fn or_default(alloc: Global, schema: &Tree) -> Result<Tree, AllocError>
    ensures { IfOk result (λ t. data_of t ≡ settled (data_of schema.now) tree.null) }
{
    if is_set(Some(schema), "nullable") {
        return Ok(Tree::Null);
    }
    match keyword(Some(schema), "default") {
        Some(default) => default.try_clone(alloc),
        None => Ok(Tree::Null),
    }
}

/// Adds the default of each property that is absent.
fn add_defaults(
    alloc: Global,
    properties: Option<&Tree>,
    members: &mut Members,
) -> Result<(), AllocError>
    ensures { OnOk result (members.new ≡ with_defaults (schema_of properties.entry) members.old) }
{
    match properties {
        Some(Tree::Object(properties)) => add_each(alloc, properties, members),
        _ => Ok(()),
    }
}

fn add_each(alloc: Global, properties: &Members, members: &mut Members) -> Result<(), AllocError>
    ensures { OnOk result (members.new ≡ with_each_default properties.now members.old) }
{
    for property in &properties.members {
        add_default(alloc, property, members)?;
    }
    Ok(())
}

fn add_default(alloc: Global, property: &Member, members: &mut Members) -> Result<(), AllocError>
    ensures { OnOk result (members.new ≡ with_default property.now.name (default_of (Some (data_of property.now.tree))) members.old) }
{
    let Some(default) = keyword(Some(&property.tree), "default") else {
        return Ok(());
    };
    if members.get(property.name.as_str()).is_some() {
        return Ok(());
    }
    let name = property.name.copy(alloc)?;
    members.insert(name, default.try_clone(alloc)?)?;
    Ok(())
}
