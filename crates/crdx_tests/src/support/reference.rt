//! All samples of a small plan, by the definitions alone: every value that can be at a node is made, and what is stored is kept.
//! It is slow, and of `plan` it uses nothing but the pools.
ghost use Rattle.std.specs.Prelude.{◌≡◌, IsTrue, IfOk};
ghost use Rattle.jtree.specs.Data.{IsNameBefore};
ghost use Rattle.schema.specs.Nodes.View.{node_of};

use crate::support::plain_stored::{Before, Judged, is_plainly_stored, is_within, meets_junctors};
use explain::{Step, path_below};
use jtree::{Items, Member, Members, Text, Tree};
use plan::Pools;
use schema::{
    Below, Bounds, Branches, Field, Fields, Node, ScalarKind, ScalarNode, Sort, Validations,
};
use std::alloc::{AllocError, Global};

/// The parts of a node with this path over pools of at most `limit` nodes, in the tree order, each once.
pub fn plain_parts(
    alloc: Global,
    node: &Node,
    path: &str,
    pools: &Pools,
    limit: u64,
) -> Result<Vec<Tree>, AllocError> {
    let mut parts = Vec::new(alloc);
    for value in plain_values(alloc, node, path, pools, limit)? {
        if is_plainly_stored(node, &value) {
            parts.push(value)?;
        }
    }
    parts.sort_unstable();
    parts.dedup();
    Ok(parts)
}

/// The values over pools of at most `limit` nodes that can be at a node, stored or not.
#[cycle(values)]
pub fn plain_values(
    alloc: Global,
    node: &Node,
    path: &str,
    pools: &Pools,
    limit: u64,
) -> Result<Vec<Tree>, AllocError> {
    if let Some(list) = pools.fixed_at(path) {
        return within(alloc, leasts(alloc, list)?, limit);
    }
    let mut values = values_of(alloc, &node.sort, path, pools, limit.saturating_sub(1))?;
    if node.nullable {
        values.push(Tree::Null)?;
    }
    let values = with_present(alloc, &node.sort, path, pools, values)?;
    within(alloc, values, limit)
}

/// Those that have what the pools ask for directly below them.
fn with_present(
    alloc: Global,
    sort: &Sort,
    path: &str,
    pools: &Pools,
    trees: Vec<Tree>,
) -> Result<Vec<Tree>, AllocError> {
    let mut kept = Vec::new(alloc);
    for tree in trees {
        if has_present(alloc, sort, path, pools, &tree)? {
            kept.push(tree)?;
        }
    }
    Ok(kept)
}

fn has_present(
    alloc: Global,
    sort: &Sort,
    path: &str,
    pools: &Pools,
    tree: &Tree,
) -> Result<bool, AllocError> {
    match sort {
        Sort::Object(object) => {
            for field in &object.fields.fields {
                let name = field.name.as_str();
                if tree.get(name).is_none() && asks_for(alloc, pools, path, Step::Field(name))? {
                    return Ok(false);
                }
            }
            Ok(true)
        }
        Sort::Map(_) => Ok(tree.nodes() > 1 || !asks_for(alloc, pools, path, Step::Value)?),
        Sort::List(_) => Ok(tree.nodes() > 1 || !asks_for(alloc, pools, path, Step::Item)?),
        Sort::Scalar(_) | Sort::Open => Ok(true),
    }
}

/// Whether the pools list the path of this step.
fn asks_for(alloc: Global, pools: &Pools, path: &str, step: Step<'_>) -> Result<bool, AllocError> {
    let below = path_below(alloc, path, step)?;
    for text in pools.present() {
        if text.as_str() == below.as_str() {
            return Ok(true);
        }
    }
    Ok(false)
}

/// The values at a node of this sort, null aside, of at most `room` nodes below them.
#[cycle(values)]
fn values_of(
    alloc: Global,
    sort: &Sort,
    path: &str,
    pools: &Pools,
    room: u64,
) -> Result<Vec<Tree>, AllocError> {
    match sort {
        Sort::Scalar(scalar) => match pools.list_at(path) {
            Some(list) => leasts(alloc, list),
            None => leasts(alloc, &scalars(alloc, scalar, pools)?),
        },
        Sort::Open => leasts(alloc, pools.list_at(path).unwrap_or(pools.any())),
        Sort::Object(object) => {
            let choices = field_choices(alloc, &object.fields, path, pools, room)?;
            objects(alloc, &choices, room)
        }
        Sort::Map(map) => {
            let choices = name_choices(alloc, node_below(&map.value), path, pools, room)?;
            objects(alloc, &choices, room)
        }
        Sort::List(list) => {
            let below = path_below(alloc, path, Step::Item)?;
            let items = plain_values(alloc, node_below(&list.item), &below, pools, room)?;
            lists(alloc, &items, room)
        }
    }
}

/// Those of at most `limit` nodes.
fn within(alloc: Global, trees: Vec<Tree>, limit: u64) -> Result<Vec<Tree>, AllocError> {
    let mut kept = Vec::new(alloc);
    for tree in trees {
        if tree.nodes() <= limit {
            kept.push(tree)?;
        }
    }
    Ok(kept)
}

/// The node below a map or a list.
pub fn node_below(below: &Below) -> &Node
    ensures { node_of result.now ≡ below.now }
{
    &below.node
}

/// A name, whether there must be a value under it, and the values that may be there.
#[derive(Drop)]
pub struct Choice {
    name: Text,
    must: bool,
    pub values: Vec<Tree>,
}

/// The slots of an object or a map, each with its parts of at most `limit` nodes; none of another node.
pub fn plain_slots(
    alloc: Global,
    node: &Node,
    path: &str,
    pools: &Pools,
    limit: u64,
) -> Result<Vec<Choice>, AllocError> {
    match &node.sort {
        Sort::Object(object) => field_slots(alloc, &object.fields, path, pools, limit),
        Sort::Map(map) => name_slots(alloc, node_below(&map.value), path, pools, limit),
        Sort::Scalar(_) | Sort::Open | Sort::List(_) => Ok(Vec::new(alloc)),
    }
}

fn field_slots(
    alloc: Global,
    fields: &Fields,
    path: &str,
    pools: &Pools,
    limit: u64,
) -> Result<Vec<Choice>, AllocError> {
    let mut slots = Vec::new(alloc);
    for field in &fields.fields {
        let below = path_below(alloc, path, Step::Field(field.name.as_str()))?;
        let values = plain_parts(alloc, &field.node, &below, pools, limit)?;
        let asked = asks_for(alloc, pools, path, Step::Field(field.name.as_str()))?;
        slots.push(choice_of_field(alloc, field, values, asked)?)?;
    }
    Ok(slots)
}

/// There must be a value under a field that is required, has a default or is asked for.
fn choice_of_field(
    alloc: Global,
    field: &Field,
    values: Vec<Tree>,
    asked: bool,
) -> Result<Choice, AllocError> {
    let name = field.name.copy(alloc)?;
    let must = asked || field.required || field.default.is_some();
    Ok(Choice { name, must, values })
}

fn name_slots(
    alloc: Global,
    node: &Node,
    path: &str,
    pools: &Pools,
    limit: u64,
) -> Result<Vec<Choice>, AllocError> {
    let below = path_below(alloc, path, Step::Value)?;
    let values = plain_parts(alloc, node, &below, pools, limit)?;
    choices_of_names(alloc, pools, &values)
}

/// A choice for each name of the pools: one of these values, or none.
fn choices_of_names(
    alloc: Global,
    pools: &Pools,
    values: &[Tree],
) -> Result<Vec<Choice>, AllocError> {
    let mut choices = Vec::new(alloc);
    for name in names_of(alloc, pools)? {
        let values = copies(alloc, values)?;
        let must = false;
        choices.push(Choice { name, must, values })?;
    }
    Ok(choices)
}

/// What is asked of an object or a map where it ends: bounds, and of an object its junctors.
#[derive(Clone, Copy)]
pub struct Ending<'a> {
    pub bounds: Bounds,
    pub junctors: Option<&'a Validations>,
}

/// What is asked of a map at this path where it ends.
pub fn map_ending<'a>(
    alloc: Global,
    bounds: Bounds,
    path: &str,
    pools: &Pools,
) -> Result<Ending<'a>, AllocError> {
    let asked = asks_for(alloc, pools, path, Step::Value)?;
    let least = if asked && bounds.least.unwrap_or(0) == 0 {
        Some(1)
    } else {
        bounds.least
    };
    Ok(Ending {
        bounds: Bounds {
            least,
            most: bounds.most,
        },
        junctors: None,
    })
}

/// The numbers of nodes of what may be in these slots, of at most `limit` nodes together: none is left empty that must be
/// filled, and with what is before them the whole may end.
pub fn plain_rest(
    alloc: Global,
    slots: &[Choice],
    limit: u64,
    ending: Ending<'_>,
    before: Before<'_>,
) -> Result<Vec<u32>, AllocError> {
    let mut counts = Vec::new(alloc);
    for row in rows_of(alloc, slots, limit)? {
        if is_filled(&row, slots) && may_end(&row, ending, before) {
            counts.push(row.nodes().min(99) as u32)?;
        }
    }
    counts.sort_unstable();
    counts.dedup();
    Ok(counts)
}

fn is_filled(row: &Members, slots: &[Choice]) -> bool {
    for slot in slots {
        if slot.must && row.get(slot.name.as_str()).is_none() {
            return false;
        }
    }
    true
}

fn may_end(row: &Members, ending: Ending<'_>, before: Before<'_>) -> bool {
    let is_met = match ending.junctors {
        Some(junctors) => meets_junctors(junctors, Judged::Fields(row, before)),
        None => true,
    };
    let count = before.taken.saturating_add(row.members.len() as u64);
    is_met && is_within(ending.bounds, count)
}

/// The fields that junctors name, by bytes, each once.
pub fn plain_named(alloc: Global, ending: Ending<'_>) -> Result<Vec<Text>, AllocError> {
    let mut names = Vec::new(alloc);
    if let Some(junctors) = ending.junctors {
        push_named(alloc, &mut names, junctors)?;
    }
    names.sort_unstable();
    names.dedup();
    Ok(names)
}

#[cycle(named)]
fn push_named(
    alloc: Global,
    names: &mut Vec<Text>,
    validations: &Validations,
) -> Result<(), AllocError> {
    for name in &validations.constraints.required.names {
        names.push(name.copy(alloc)?)?;
    }
    push_named_in(alloc, names, &validations.all_of)?;
    push_named_in(alloc, names, &validations.any_of)?;
    push_named_in(alloc, names, &validations.one_of)?;
    push_named_in(alloc, names, &validations.negated)
}

#[cycle(named)]
fn push_named_in(
    alloc: Global,
    names: &mut Vec<Text>,
    branches: &Branches,
) -> Result<(), AllocError> {
    for branch in &branches.branches {
        push_named(alloc, names, branch)?;
    }
    Ok(())
}

/// The numbers of nodes of the items after the first `taken`, over the lists among these parts that have so many.
pub fn plain_more(alloc: Global, parts: &[Tree], taken: u32) -> Result<Vec<u32>, AllocError> {
    let mut counts = Vec::new(alloc);
    for part in parts {
        if let Tree::List(list) = part {
            if let Some(after) = list.items.get(taken as usize..) {
                counts.push(items_nodes(after).min(99) as u32)?;
            }
        }
    }
    counts.sort_unstable();
    counts.dedup();
    Ok(counts)
}

/// As `Tree::copy`, which fails for memory alone.
fn copied(alloc: Global, tree: &Tree) -> Result<Tree, AllocError>
    ensures { IfOk result (λ t. t ≡ tree.now) }
{
    tree.copy(alloc).map_err(|_| AllocError)
}

fn copies(alloc: Global, trees: &[Tree]) -> Result<Vec<Tree>, AllocError> {
    let mut values = Vec::new(alloc);
    for tree in trees {
        values.push(copied(alloc, tree)?)?;
    }
    Ok(values)
}

/// Those but numbers of which a lesser one has the same value.
fn leasts(alloc: Global, trees: &[Tree]) -> Result<Vec<Tree>, AllocError> {
    let mut values = Vec::new(alloc);
    for tree in trees {
        if !has_lesser(trees, tree) {
            values.push(copied(alloc, tree)?)?;
        }
    }
    Ok(values)
}

fn has_lesser(trees: &[Tree], tree: &Tree) -> bool {
    for other in trees {
        if is_lesser(other, tree) {
            return true;
        }
    }
    false
}

/// Whether the first is a number of the value of the second, and before it.
fn is_lesser(tree: &Tree, other: &Tree) -> bool {
    match (tree, other) {
        (Tree::Number(number), Tree::Number(second)) => {
            number.has_value_of(second) && *tree < *other
        }
        _ => false,
    }
}

fn scalars(alloc: Global, scalar: &ScalarNode, pools: &Pools) -> Result<Vec<Tree>, AllocError> {
    match &scalar.validations.constraints.choices {
        Some(choices) => copies(alloc, &choices.items),
        None => scalars_of(alloc, scalar.kind, pools),
    }
}

fn scalars_of(alloc: Global, kind: ScalarKind, pools: &Pools) -> Result<Vec<Tree>, AllocError> {
    let mut values = Vec::new(alloc);
    if kind == ScalarKind::Boolean {
        values.push(Tree::Bool(false))?;
        values.push(Tree::Bool(true))?;
    }
    if matches!(
        kind,
        ScalarKind::Integer | ScalarKind::Number | ScalarKind::IntOrString
    ) {
        push_integers(&mut values, pools)?;
    }
    if kind == ScalarKind::Number {
        push_numbers(alloc, &mut values, pools)?;
    }
    if kind == ScalarKind::String || kind == ScalarKind::IntOrString {
        push_strings(alloc, &mut values, pools)?;
    }
    Ok(values)
}

fn push_integers(values: &mut Vec<Tree>, pools: &Pools) -> Result<(), AllocError> {
    for integer in pools.integers() {
        values.push(Tree::Int(*integer))?;
    }
    Ok(())
}

fn push_numbers(alloc: Global, values: &mut Vec<Tree>, pools: &Pools) -> Result<(), AllocError> {
    for number in pools.numbers() {
        values.push(copied(alloc, number)?)?;
    }
    Ok(())
}

fn push_strings(alloc: Global, values: &mut Vec<Tree>, pools: &Pools) -> Result<(), AllocError> {
    for text in pools.strings() {
        values.push(Tree::Text(text.copy(alloc)?))?;
    }
    Ok(())
}

#[cycle(values)]
fn field_choices(
    alloc: Global,
    fields: &Fields,
    path: &str,
    pools: &Pools,
    room: u64,
) -> Result<Vec<Choice>, AllocError> {
    let mut choices = Vec::new(alloc);
    for field in &fields.fields {
        let below = path_below(alloc, path, Step::Field(field.name.as_str()))?;
        let values = plain_values(alloc, &field.node, &below, pools, room)?;
        let asked = asks_for(alloc, pools, path, Step::Field(field.name.as_str()))?;
        choices.push(choice_of_field(alloc, field, values, asked)?)?;
    }
    Ok(choices)
}

#[cycle(values)]
fn name_choices(
    alloc: Global,
    node: &Node,
    path: &str,
    pools: &Pools,
    room: u64,
) -> Result<Vec<Choice>, AllocError> {
    let below = path_below(alloc, path, Step::Value)?;
    let values = plain_values(alloc, node, &below, pools, room)?;
    choices_of_names(alloc, pools, &values)
}

/// The names of the pools, by bytes, each once.
fn names_of(alloc: Global, pools: &Pools) -> Result<Vec<Text>, AllocError> {
    let mut names = Vec::new(alloc);
    for name in pools.names() {
        names.push(name.copy(alloc)?)?;
    }
    names.sort_unstable();
    names.dedup();
    Ok(names)
}

/// Each object that has some of the names, with one of the values under each, of at most `room` nodes below it.
fn objects(alloc: Global, choices: &[Choice], room: u64) -> Result<Vec<Tree>, AllocError> {
    let mut values = Vec::new(alloc);
    for row in rows_of(alloc, choices, room)? {
        values.push(Tree::Object(row))?;
    }
    Ok(values)
}

/// Some of the names, with one of the values under each, of at most `room` nodes.
fn rows_of(alloc: Global, choices: &[Choice], room: u64) -> Result<Vec<Members>, AllocError> {
    let mut rows = Vec::new(alloc);
    rows.push(Members {
        members: Vec::new(alloc),
    })?;
    for choice in choices.iter().rev() {
        let mut longer = longer_rows(alloc, &rows, choice, room)?;
        rows.append(&mut longer)?;
    }
    Ok(rows)
}

/// Each row with each value under the name in front of it, where there is room.
fn longer_rows(
    alloc: Global,
    rows: &[Members],
    choice: &Choice,
    room: u64,
) -> Result<Vec<Members>, AllocError> {
    let mut longer = Vec::new(alloc);
    for row in rows {
        push_longer_rows(alloc, &mut longer, row, choice, room)?;
    }
    Ok(longer)
}

/// The choices come by name, so the name goes in front; if it did not, objects would be missing here.
fn push_longer_rows(
    alloc: Global,
    longer: &mut Vec<Members>,
    row: &Members,
    choice: &Choice,
    room: u64,
) -> Result<(), AllocError> {
    if is_name_before(&choice.name, row) {
        for value in &choice.values {
            if value.nodes().saturating_add(row.nodes()) <= room {
                longer.push(with_member(alloc, &choice.name, value, row)?)?;
            }
        }
    }
    Ok(())
}

fn is_name_before(name: &Text, row: &Members) -> bool
    ensures { IsTrue result → IsNameBefore name.now row.now }
{
    match row.members.as_slice() {
        [] => true,
        [first, ..] => *name < first.name,
    }
}

/// The row with a value under the name in front of it.
fn with_member(
    alloc: Global,
    name: &Text,
    value: &Tree,
    row: &Members,
) -> Result<Members, AllocError>
    requires { IsNameBefore name.now row.now }
{
    value.reveal_invariant();
    let mut members = Vec::new(alloc);
    members.push(Member {
        name: name.copy(alloc)?,
        tree: copied(alloc, value)?,
    })?;
    for member in &row.members {
        let name = member.name.copy(alloc)?;
        let tree = copied(alloc, &member.tree)?;
        members.push(Member { name, tree })?;
    }
    Ok(Members { members })
}

/// Each list of these items, in each order and with repeats, of at most `room` nodes below it.
fn lists(alloc: Global, items: &[Tree], room: u64) -> Result<Vec<Tree>, AllocError> {
    let mut values = Vec::new(alloc);
    for list in item_lists(alloc, items, room)? {
        values.push(Tree::List(list))?;
    }
    Ok(values)
}

fn item_lists(alloc: Global, items: &[Tree], room: u64) -> Result<Vec<Items>, AllocError> {
    let mut lists = Vec::new(alloc);
    for most in 0..room.saturating_add(1) {
        lists = longer_lists(alloc, items, &lists, most)?;
    }
    Ok(lists)
}

/// The empty list, and each of the lists with each item in front of it, where there is room.
fn longer_lists(
    alloc: Global,
    items: &[Tree],
    lists: &[Items],
    room: u64,
) -> Result<Vec<Items>, AllocError> {
    let mut longer = Vec::new(alloc);
    longer.push(Items {
        items: Vec::new(alloc),
    })?;
    for list in lists {
        push_longer_lists(alloc, &mut longer, items, list, room)?;
    }
    Ok(longer)
}

fn push_longer_lists(
    alloc: Global,
    longer: &mut Vec<Items>,
    items: &[Tree],
    list: &Items,
    room: u64,
) -> Result<(), AllocError> {
    let used = items_nodes(&list.items);
    for item in items {
        if item.nodes().saturating_add(used) <= room {
            longer.push(with_item(alloc, item, list)?)?;
        }
    }
    Ok(())
}

fn items_nodes(items: &[Tree]) -> u64 {
    let mut nodes: u64 = 0;
    for item in items {
        nodes = nodes.saturating_add(item.nodes());
    }
    nodes
}

/// The list with an item in front of it.
fn with_item(alloc: Global, item: &Tree, list: &Items) -> Result<Items, AllocError> {
    item.reveal_invariant();
    let mut items = Vec::new(alloc);
    items.push(copied(alloc, item)?)?;
    for item in &list.items {
        items.push(copied(alloc, item)?)?;
    }
    Ok(Items { items })
}
