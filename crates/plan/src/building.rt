//! The entries of a schema's nodes, those below a node before it.
ghost use Rattle.std.specs.Prelude.{◌≡◌, ℕ, ◌≤◌, ◌<◌, ◌+◌, ◌^◌, List, [], Bool, Option, None, length, IfOk};
ghost use Rattle.schema.specs.Nodes.Node as nodes;
ghost use Rattle.schema.specs.Nodes.View.{node_of, object_of, map_of, list_of};
ghost use Rattle.jtree.specs.View.{data_of};
ghost use Rattle.std.specs.Prelude.{option_map, All, map as map_list};
ghost use Rattle.explain.specs.Paths.FieldPath;
ghost use Rattle.plan.specs.Samples.Sites.{Site, plain, below, where_fixed, value_slot, item_keys};
ghost use Rattle.plan.specs.Samples.Sites;
ghost use Rattle.plan.specs.Pools.Pools.{Pools as PoolsData, fixed_at};
ghost use Rattle.plan.specs.Internal.Values.{trees_of, AreValues};
ghost use Rattle.plan.specs.Samples.Candidates.{sort_at};
ghost use Rattle.plan.specs.Samples.RuleOfParts;
ghost use Rattle.plan.specs.declared.sort.Sort.TheVariants.{Leaf};
ghost use Rattle.plan.specs.Internal.Arena.{AreSlots, IsLimit, IsRightIn};
ghost use Rattle.plan.specs.Samples.Sites.{site_at};
ghost use Rattle.plan.specs.declared.arena.SlotEntry.{SlotEntry};
ghost use Rattle.schema.specs.Nodes.Junctors.{most_named};
ghost use Rattle.plan.specs.Internal.Tables.{IsClosed};
ghost use Rattle.plan.specs.Internal.Building.{Builds, BuildsLeaf, BuildsSort, BuildsField, BuildsFields};

use crate::arena::{Arena, Content, Entry, PlanNode, SlotEntry, SlotName};
use crate::asked::{raised, takes_null};
use crate::entries::row_entry;
use crate::leaf::{leaf_of, leaf_sizes};
use crate::list_entries::list_entry;
use crate::presence::{bit_of, ends_for, named_fields};
use crate::{Pools, SizeSet};
use explain::{Step, path_below};
use jtree::{Text, Tree};
use schema::{Below, Field, Fields, ListNode, ListType, MapNode, Node, ObjectNode, Sort, is_among};
use std::alloc::{AllocError, Global};

/// Adds the entries of a node and of all nodes below it, of which a node whose values are fixed has none; `path` is the text of its
/// path, and `keys` are the keys of the map list whose item it is.
#[cycle(build)]
pub(crate) fn build<Z: SizeSet>(
    arena: &mut Arena<Z>,
    alloc: Global,
    pools: &Pools,
    fixed: Option<&[Tree]>,
    path: &str,
    node: &Node,
    keys: &[Text],
) -> Result<PlanNode, AllocError>
    requires { IsLimit Z.BITS arena.old.limit }
    ensures { IfOk result (Builds Z.holds arena.old arena.new pools.now (option_map (λ ts. trees_of ts.now) fixed.entry) path.now (node_of node.now) keys.now) }
{
    let nullable = takes_null(alloc, pools, path, node)?;
    if fixed.is_some() {
        return build_leaf(arena, alloc, pools, fixed, path, node, nullable);
    }
    match &node.sort {
        Sort::Object(object) => build_object(arena, alloc, pools, path, object, nullable, keys),
        Sort::Map(map) => build_map(arena, alloc, pools, path, map, nullable, keys),
        Sort::List(list) => build_list(arena, alloc, pools, path, list, nullable, keys),
        Sort::Scalar(_) | Sort::Open => {
            build_leaf(arena, alloc, pools, fixed, path, node, nullable)
        }
    }
}

#[cycle(build)]
fn build_object<Z: SizeSet>(
    arena: &mut Arena<Z>,
    alloc: Global,
    pools: &Pools,
    path: &str,
    object: &ObjectNode,
    nullable: bool,
    keys: &[Text],
) -> Result<PlanNode, AllocError>
    requires { IsLimit Z.BITS arena.old.limit }
    ensures { IfOk result (BuildsSort Z.holds arena.old arena.new pools.now path.now (object_of object.now) keys.now nullable) }
{
    object.fields.reveal_invariant();
    let named = named_fields(alloc, &object.junctors)?;
    let slots = build_fields(arena, alloc, pools, path, &object.fields, keys, &named)?;
    let ends = ends_for(alloc, &object.junctors, &named)?;
    let entry = row_entry(
        arena,
        alloc,
        Vec::new(alloc),
        slots,
        object.bounds,
        &ends,
        nullable,
    )?;
    arena.add(entry)
}

/// Adds the entries of the fields' nodes, and answers their slots; `named` are the fields that the junctors name.
#[cycle(build)]
fn build_fields<Z: SizeSet>(
    arena: &mut Arena<Z>,
    alloc: Global,
    pools: &Pools,
    path: &str,
    fields: &Fields,
    keys: &[Text],
    named: &[Text],
) -> Result<Vec<SlotEntry>, AllocError>
    requires limit { IsLimit Z.BITS arena.old.limit }
    requires few { length named.now ≤ most_named }
    ensures { IfOk result (λ slots. BuildsFields Z.holds arena.old arena.new pools.now path.now fields.now keys.now named.now slots.items) }
{
    let mut slots = Vec::with_capacity(alloc, fields.fields.len())?;
    for field in &fields.fields {
        let slot = build_field(arena, alloc, pools, path, field, keys, named)?;
        slots.push(slot)?;
    }
    Ok(slots)
}

#[cycle(build)]
fn build_field<Z: SizeSet>(
    arena: &mut Arena<Z>,
    alloc: Global,
    pools: &Pools,
    path: &str,
    field: &Field,
    keys: &[Text],
    named: &[Text],
) -> Result<SlotEntry, AllocError>
    requires limit { IsLimit Z.BITS arena.old.limit }
    requires few { length named.now ≤ most_named }
    ensures { IfOk result (BuildsField Z.holds arena.old arena.new pools.now path.now keys.now named.now field.now.name (node_of field.now.node) field.now.required (option_map data_of field.now.default)) }
{
    let below = path_below(alloc, path, Step::Field(field.name.as_str()))?;
    let node = build(
        arena,
        alloc,
        pools,
        pools.fixed_at(&below),
        &below,
        &field.node,
        &[],
    )?;
    Ok(SlotEntry {
        name: SlotName::Field(field.name.copy(alloc)?),
        node,
        must: field.required || field.default.is_some() || pools.is_present(&below),
        key: is_among(field.name.as_str(), keys),
        bit: bit_of(&field.name, named),
    })
}

#[cycle(build)]
fn build_map<Z: SizeSet>(
    arena: &mut Arena<Z>,
    alloc: Global,
    pools: &Pools,
    path: &str,
    map: &MapNode,
    nullable: bool,
    keys: &[Text],
) -> Result<PlanNode, AllocError>
    requires { IsLimit Z.BITS arena.old.limit }
    ensures { IfOk result (BuildsSort Z.holds arena.old arena.new pools.now path.now (map_of map.now) keys.now nullable) }
{
    map.value.reveal_invariant();
    let below = path_below(alloc, path, Step::Value)?;
    let value = build(
        arena,
        alloc,
        pools,
        pools.fixed_at(&below),
        &below,
        node_below(&map.value),
        &[],
    )?;
    let slots = value_slots(alloc, arena.values.names.len(), value)?;
    let bounds = raised(map.bounds, pools.is_present(&below));
    let entry = row_entry(
        arena,
        alloc,
        Vec::new(alloc),
        slots,
        bounds,
        &[true],
        nullable,
    )?;
    arena.add(entry)
}

#[cycle(build)]
fn build_list<Z: SizeSet>(
    arena: &mut Arena<Z>,
    alloc: Global,
    pools: &Pools,
    path: &str,
    list: &ListNode,
    nullable: bool,
    keys: &[Text],
) -> Result<PlanNode, AllocError>
    requires { IsLimit Z.BITS arena.old.limit }
    ensures { IfOk result (BuildsSort Z.holds arena.old arena.new pools.now path.now (list_of list.now) keys.now nullable) }
{
    list.item.reveal_invariant();
    let below = path_below(alloc, path, Step::Item)?;
    let item = build(
        arena,
        alloc,
        pools,
        fixed_item(pools, list, &below),
        &below,
        node_below(&list.item),
        item_keys(list),
    )?;
    let bounds = raised(list.bounds, pools.is_present(&below));
    let entry = list_entry(arena, alloc, item, list, bounds, nullable)?;
    arena.add(entry)
}

/// The values that the pools fix for the items of a list: none for those of a map list.
fn fixed_item<'a>(pools: &'a Pools, list: &ListNode, below: &str) -> Option<&'a [Tree]>
    ensures { option_map (λ ts. trees_of ts.now) result ≡ Sites.fixed_item pools.now list.now.list_type below.now }
{
    match list.list_type {
        ListType::Map(_) => None,
        ListType::Atomic | ListType::Set(_) => pools.fixed_at(below),
    }
}

/// The keys of the items of the list.
fn item_keys(list: &ListNode) -> &[Text]
    ensures { result.now ≡ item_keys list.now.list_type list.now.keys.items }
{
    match list.list_type {
        ListType::Map(_) => &list.keys,
        ListType::Atomic | ListType::Set(_) => &[],
    }
}

/// Adds the entry of a leaf.
fn build_leaf<Z: SizeSet>(
    arena: &mut Arena<Z>,
    alloc: Global,
    pools: &Pools,
    fixed: Option<&[Tree]>,
    path: &str,
    node: &Node,
    nullable: bool,
) -> Result<PlanNode, AllocError>
    requires limit { arena.old.limit < Z.BITS }
    requires leaf { where_fixed (option_map (λ ts. trees_of ts.now) fixed) Leaf (sort_at (node_of node.now)) ≡ Leaf }
    ensures { IfOk result (BuildsLeaf Z.holds arena.old arena.new pools.now (option_map (λ ts. trees_of ts.now) fixed.entry) path.now (node_of node.now) nullable) }
{
    let entry = leaf_entry(arena, alloc, pools, fixed, path, node, nullable)?;
    arena.add(entry)
}

/// The entry of a leaf.
pub(crate) fn leaf_entry<Z: SizeSet>(
    arena: &Arena<Z>,
    alloc: Global,
    pools: &Pools,
    fixed: Option<&[Tree]>,
    path: &str,
    node: &Node,
    nullable: bool,
) -> Result<Entry<Z>, AllocError>
    requires limit { arena.now.limit < Z.BITS }
    requires leaf { where_fixed (option_map (λ ts. trees_of ts.now) fixed) Leaf (sort_at (node_of node.now)) ≡ Leaf }
    ensures { IfOk result (λ e. (sites : List Site) (i : ℕ) (keys : List (List ℕ)) → AreValues pools.now arena.now.values → site_at sites i ≡ record { node = node_of node.now; keys = keys; path = path.now; fixed = option_map (λ ts. trees_of ts.now) fixed.entry }
        → RuleOfParts.takes_null pools.now path.now (node_of node.now) ≡ nullable → IsRightIn Z.holds arena.now pools.now sites i e) }
{
    let values = &arena.values;
    let leaf = leaf_of(alloc, pools, arena.limit, values, fixed, path, node)?;
    let sizes = leaf_sizes(values, &leaf, arena.limit);
    Ok(Entry {
        sizes,
        nullable,
        content: Content::Leaf(leaf),
    })
}

/// The node below a map or a list.
pub(crate) fn node_below(below: &Below) -> &Node
    ensures { node_of result.now ≡ below.now }
{
    &below.node
}

/// A slot for each name of the pools, all of one node.
fn value_slots(alloc: Global, count: usize, node: PlanNode) -> Result<Vec<SlotEntry>, AllocError>
    ensures below { IfOk result (λ slots. All (λ (s : SlotEntry). s.node ≡ node) slots.items) }
    ensures bits { IfOk result (λ slots. All (λ (s : SlotEntry). IsClosed 1 s.bit) slots.items) }
    ensures slots { IfOk result (λ slots. (names : List (List ℕ)) (sites : List Site) (i : ℕ) (P : PoolsData) (path : List ℕ) (M : nodes.Node) → count ≡ length names → node < i → site_at sites node ≡ plain P (below path FieldPath.value) M
        → AreSlots names sites i slots.items (map_list (value_slot P path M) names)) }
{
    let mut slots = Vec::with_capacity(alloc, count)?;
    for place in 0..count {
        slots.push(SlotEntry {
            name: SlotName::Pool(place),
            node,
            must: false,
            key: false,
            bit: None,
        })?;
    }
    Ok(slots)
}
