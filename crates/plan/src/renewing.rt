//! The entries of the nodes along a path, made anew over pools that were changed there.
ghost use Rattle.std.specs.Prelude.{◌≡◌, ◌≢◌, ◌<◌, ◌≤◌, ◌+◌, ◌^◌, ◌∷◌, ◌||◌};
ghost use Rattle.std.specs.Prelude.{ℕ, true, false, Bool, List, [], None, All, IfOk, IfSome, IfNone, length, is_some, option_map};
ghost use Rattle.jtree.specs.View.{data_of};
ghost use Rattle.schema.specs.Nodes.ByPlace.{field_at};
ghost use Rattle.schema.specs.Nodes.Junctors.{most_named};
ghost use Rattle.schema.specs.Nodes.View.{node_of, validations_of};
ghost use Rattle.explain.specs.Paths.FieldPath;
ghost use Rattle.plan.specs.Pools.PathSteps.{path_of};
ghost use Rattle.plan.specs.Pools.Pools.{fixed_at, is_present};
ghost use Rattle.plan.specs.Samples.Candidates.{sort_at};
ghost use Rattle.plan.specs.Internal.Arena.{IsLimit, IsKept, slots_in};
ghost use Rattle.plan.specs.Internal.Arena as arenas;
ghost use Rattle.plan.specs.Internal.Renewed.{Renews, Remakes, IsRowRemade, IsFieldAt, AreEndsOf};
ghost use Rattle.plan.specs.declared.arena.SlotEntry.{SlotEntry};
ghost use Rattle.plan.specs.declared.sort.Sort.TheVariants.{Leaf};

use crate::arena::{Arena, Content, Entry, PlanNode, RowEntry, SlotEntry};
use crate::asked::{raised, takes_null};
use crate::building::{leaf_entry, node_below};
use crate::entries::row_entry;
use crate::list_entries::list_entry;
use crate::presence::{ends_for, named_fields};
use crate::{PathStep, Pools, SizeSet};
use explain::{Step, path_below};
use jtree::Text;
use schema::{Bounds, Field, Fields, Node, ObjectNode, Sort};
use std::alloc::{AllocError, Global};

/// A node on the way, with the text of its path and its number in the plan.
#[derive(Drop)]
pub(crate) struct Place<'a> {
    pub path: &'a str,
    pub node: &'a Node,
    pub number: PlanNode,
}

/// Makes anew the entries of the nodes along the steps, from the last one up to this one.
#[cycle(renew)]
pub(crate) fn renew<Z: SizeSet>(
    arena: &mut Arena<Z>,
    alloc: Global,
    pools: &Pools,
    place: &Place<'_>,
    steps: &[PathStep],
) -> Result<(), AllocError>
    requires limit { IsLimit Z.BITS arena.old.limit }
    ensures kept { IsKept arena.old arena.new }
    ensures renewed { IfOk result (λ _. Renews Z.holds arena.old arena.new pools.now place.now (path_of steps.now)) }
{
    explain::laws::paths_have_one_text();
    let list = pools.fixed_at(place.path);
    if list.is_some() || is_leaf(place.node) {
        let nullable = takes_null(alloc, pools, place.path, place.node)?;
        let entry = leaf_entry(arena, alloc, pools, list, place.path, place.node, nullable)?;
        arena.put(place.number, entry);
        return Ok(());
    }
    let [step, rest @ ..] = steps else {
        return Ok(());
    };
    match step {
        PathStep::Field(name) => renew_object(arena, alloc, pools, place, name, rest),
        PathStep::Item => renew_list(arena, alloc, pools, place, rest),
        PathStep::Value => renew_map(arena, alloc, pools, place, rest),
    }
}

/// As `renew`, where the way goes on to the field of this name.
#[cycle(renew)]
fn renew_object<Z: SizeSet>(
    arena: &mut Arena<Z>,
    alloc: Global,
    pools: &Pools,
    place: &Place<'_>,
    name: &Text,
    rest: &[PathStep],
) -> Result<(), AllocError>
    requires limit { IsLimit Z.BITS arena.old.limit }
    requires free { fixed_at place.now.path.now pools.now ≡ None }
    ensures kept { IsKept arena.old arena.new }
    ensures renewed { IfOk result (λ _. Renews Z.holds arena.old arena.new pools.now place.now (FieldPath.field name.now ∷ path_of rest.now)) }
{
    explain::laws::paths_have_one_text();
    let Sort::Object(object) = &place.node.sort else {
        return Ok(());
    };
    let Some(FieldPlace { at, field }) = field_place(&object.fields, name) else {
        return Ok(());
    };
    let Some(number) = arena.slot_node(place.number, at) else {
        return Ok(());
    };
    let path = path_below(alloc, place.path, Step::Field(name.as_str()))?;
    let below = Place {
        path: &path,
        node: &field.node,
        number,
    };
    renew(arena, alloc, pools, &below, rest)?;
    let must = has_to_be(pools, field, &path);
    let nullable = takes_null(alloc, pools, place.path, place.node)?;
    remake_object(arena, alloc, place.number, object, at, must, nullable)
}

/// As `renew`, where the way goes on to the values of a map, whose node is the one before.
#[cycle(renew)]
fn renew_map<Z: SizeSet>(
    arena: &mut Arena<Z>,
    alloc: Global,
    pools: &Pools,
    place: &Place<'_>,
    rest: &[PathStep],
) -> Result<(), AllocError>
    requires limit { IsLimit Z.BITS arena.old.limit }
    requires free { fixed_at place.now.path.now pools.now ≡ None }
    ensures kept { IsKept arena.old arena.new }
    ensures renewed { IfOk result (λ _. Renews Z.holds arena.old arena.new pools.now place.now (FieldPath.value ∷ path_of rest.now)) }
{
    explain::laws::paths_have_one_text();
    let Sort::Map(map) = &place.node.sort else {
        return Ok(());
    };
    let Some(number) = place.number.before() else {
        return Ok(());
    };
    let path = path_below(alloc, place.path, Step::Value)?;
    let below = Place {
        path: &path,
        node: node_below(&map.value),
        number,
    };
    renew(arena, alloc, pools, &below, rest)?;
    let nullable = takes_null(alloc, pools, place.path, place.node)?;
    let rules = RowRules {
        bounds: raised(map.bounds, pools.is_present(&path)),
        named: &[],
        ends: &[true],
        place: 0,
        must: false,
    };
    remake_row(arena, alloc, place.number, rules, nullable)
}

/// As `renew`, where the way goes on to the items of a list.
#[cycle(renew)]
fn renew_list<Z: SizeSet>(
    arena: &mut Arena<Z>,
    alloc: Global,
    pools: &Pools,
    place: &Place<'_>,
    rest: &[PathStep],
) -> Result<(), AllocError>
    requires limit { IsLimit Z.BITS arena.old.limit }
    requires free { fixed_at place.now.path.now pools.now ≡ None }
    ensures kept { IsKept arena.old arena.new }
    ensures renewed { IfOk result (λ _. Renews Z.holds arena.old arena.new pools.now place.now (FieldPath.item ∷ path_of rest.now)) }
{
    explain::laws::paths_have_one_text();
    let Sort::List(list) = &place.node.sort else {
        return Ok(());
    };
    let Some(number) = arena.item_node(place.number) else {
        return Ok(());
    };
    let path = path_below(alloc, place.path, Step::Item)?;
    let below = Place {
        path: &path,
        node: node_below(&list.item),
        number,
    };
    renew(arena, alloc, pools, &below, rest)?;
    if !arena.has(number) {
        return Ok(());
    }
    let nullable = takes_null(alloc, pools, place.path, place.node)?;
    let bounds = raised(list.bounds, pools.is_present(&path));
    let entry = list_entry(arena, alloc, number, list, bounds, nullable)?;
    arena.put(place.number, entry);
    Ok(())
}

/// Whether there is no node below.
fn is_leaf(node: &Node) -> bool
    ensures leaf { result ≡ true → sort_at (node_of node.now) ≡ Leaf }
    ensures other { result ≡ false → sort_at (node_of node.now) ≢ Leaf }
{
    matches!(&node.sort, Sort::Scalar(_) | Sort::Open)
}

/// A field, and where it is among the fields.
#[derive(Clone, Copy)]
struct FieldPlace<'a> {
    at: usize,
    field: &'a Field,
}

/// The field of this name.
fn field_place<'a>(fields: &'a Fields, name: &Text) -> Option<FieldPlace<'a>>
    ensures some { IfSome result (λ r. IsFieldAt r.at name.now (node_of r.field.now.node) r.field.now.required (option_map data_of r.field.now.default) fields.now) }
    ensures none { IfNone result (field_at name.now fields.now ≡ None) }
{
    for (at, field) in fields.fields.iter().enumerate() {
        if name == &field.name {
            return Some(FieldPlace { at, field });
        }
    }
    None
}

/// Whether a field with this path has to be there.
fn has_to_be(pools: &Pools, field: &Field, path: &str) -> bool
    ensures { result ≡ ((field.now.required || is_some (option_map data_of field.now.default)) || is_present path.now pools.now) }
{
    field.required || field.default.is_some() || pools.is_present(path)
}

/// What is asked of a row: the bounds on the number of its members, the fields that its junctors name, whether these hold for each set
/// of them, and whether the slot at a place has to be filled.
#[derive(Clone, Copy)]
struct RowRules<'a> {
    bounds: Bounds,
    named: &'a [Text],
    ends: &'a [bool],
    place: usize,
    must: bool,
}

/// Makes the entry of an object anew, with the slot at this place to be filled or not.
fn remake_object<Z: SizeSet>(
    arena: &mut Arena<Z>,
    alloc: Global,
    number: PlanNode,
    object: &ObjectNode,
    place: usize,
    must: bool,
    nullable: bool,
) -> Result<(), AllocError>
    requires limit { IsLimit Z.BITS arena.old.limit }
    ensures kept { IsKept arena.old arena.new }
    ensures remade { IfOk result (λ _. (names : List (List ℕ)) × (ends : List Bool) × AreEndsOf (validations_of object.now.junctors) names ends
        × IsRowRemade Z.holds arena.old.limit arena.old.values number object.now.bounds names ends place must nullable arena.old.entries.items arena.new.entries.items) }
{
    let named = named_fields(alloc, &object.junctors)?;
    let ends = ends_for(alloc, &object.junctors, &named)?;
    let rules = RowRules {
        bounds: object.bounds,
        named: &named,
        ends: &ends,
        place,
        must,
    };
    remake_row(arena, alloc, number, rules, nullable)
}

/// Makes the entry of a row anew.
fn remake_row<Z: SizeSet>(
    arena: &mut Arena<Z>,
    alloc: Global,
    number: PlanNode,
    rules: RowRules<'_>,
    nullable: bool,
) -> Result<(), AllocError>
    requires limit { IsLimit Z.BITS arena.old.limit }
    requires few { length rules.named.now ≤ most_named }
    requires ends { length rules.ends.now ≡ 2 ^ length rules.named.now }
    ensures kept { IsKept arena.old arena.new }
    ensures remade { IfOk result (λ _. Remakes Z.holds arena.old arena.new number rules.entry nullable) }
{
    let RowEntry {
        slots,
        later: _,
        tables,
    } = row_of(alloc, arena.put(number, blank(alloc)));
    if !are_within(&slots, arena.entries.len(), rules.named.len()) {
        return Ok(());
    }
    let slots = with_must(slots, rules.place, rules.must);
    let entry = row_entry(
        arena,
        alloc,
        tables,
        slots,
        rules.bounds,
        rules.ends,
        nullable,
    )?;
    arena.put(number, entry);
    Ok(())
}

/// The entry of a row without slots.
fn blank<Z: SizeSet>(alloc: Global) -> Entry<Z> {
    Entry {
        sizes: Z::empty(),
        nullable: false,
        content: Content::Row(no_slots(alloc)),
    }
}

/// A row without slots.
fn no_slots<Z>(alloc: Global) -> RowEntry<Z>
    ensures { result.slots.items ≡ [] }
{
    RowEntry {
        slots: Vec::new(alloc),
        later: Vec::new(alloc),
        tables: Vec::new(alloc),
    }
}

/// The row of an entry; one without slots where it has none.
fn row_of<Z: SizeSet>(alloc: Global, entry: Entry<Z>) -> RowEntry<Z>
    ensures { result.slots.items ≡ slots_in entry.content }
{
    match entry.content {
        Content::Row(row) => row,
        Content::Leaf(_) | Content::List(_) => no_slots(alloc),
    }
}

/// Whether the slots have nodes below this number, and are among so many named fields where they are named.
fn are_within(slots: &[SlotEntry], nodes: usize, named: usize) -> bool
    ensures nodes { result ≡ true → All (λ (s : SlotEntry). s.node < nodes) slots.now }
    ensures named { result ≡ true → All (λ (s : SlotEntry). IfSome s.bit (λ j. j < named)) slots.now }
    ensures all { All (λ (s : SlotEntry). s.node < nodes) slots.now → All (λ (s : SlotEntry). IfSome s.bit (λ j. j < named)) slots.now → result ≡ true }
{
    for slot in slots {
        if !slot.node.is_below(nodes) || !is_named(slot.bit, named) {
            return false;
        }
    }
    true
}

/// Whether a field that has a place among the named ones is one of so many.
fn is_named(bit: Option<u8>, named: usize) -> bool
    ensures named { result ≡ true → IfSome bit (λ j. j < named) }
    ensures all { IfSome bit (λ j. j < named) → result ≡ true }
{
    match bit {
        Some(bit) => (bit as usize) < named,
        None => true,
    }
}

/// The slots, with this one to be filled or not.
fn with_must(slots: Vec<SlotEntry>, place: usize, must: bool) -> Vec<SlotEntry>
    ensures { result.items ≡ arenas.with_must place must slots.items }
{
    let mut slots = slots;
    if place < slots.len() {
        slots[place].must = must;
    }
    slots
}
