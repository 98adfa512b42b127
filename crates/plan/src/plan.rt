//! Plans: the nodes of a schema over pools and within a node limit.
ghost use Rattle.std.specs.Prelude.{◌≡◌, ◌≤◌, ◌<◌, ℕ, IfOk, IfErr, OnOk};
ghost use Rattle.plan.specs.Pools.PlanFault.{HasGoodPaths, IsPlanFault};
ghost use Rattle.plan.specs.Internal.Plan.{IsPlan};

use crate::arena::{Arena, Content, PlanNode};
use crate::building::build;
use crate::leaf::candidate;
use crate::pool_paths::check_paths;
use crate::renewing::{Place, renew};
use crate::values::Values;
use crate::{Distinct, ListAt, Meter, PFault, PathStep, Pools, SizeSet, Sort, laws};
use jtree::Tree;
use std::alloc::{AllocError, Global};
use std::marker::Model;
use stored::Schema;

/// A slot of a row: a name, the node of the value under it, whether there has to be a value (where it is required, has a
/// default, or is asked for by the pools), and whether it is a key of the map list whose item the row is.
#[derive(Clone, Copy)]
pub struct Slot<'a> {
    pub name: &'a str,
    pub node: PlanNode,
    pub must: bool,
    pub key: bool,
    /// The place of the name by bytes among the fields that the junctors of the object name, where it is one of them; below 4.
    pub bit: Option<u8>,
    /// How many tuples of candidates the keys after this slot have, at most 2^64 - 1.
    pub later: u64,
}

/// The nodes of a schema over pools and within a node limit, with the sizes of the possible values of each, as sets `Z`.
///
/// The calls that take a node require one that this plan has answered.
pub struct Plan<Z: SizeSet> {
    schema: Schema,
    pools: Pools,
    arena: Arena<Z>,
    root: PlanNode,
}

impl<Z: SizeSet> Drop for Plan<Z> {
    fn drop(self) {
        let Plan {
            schema: _,
            pools: _,
            arena: _,
            root: _,
        } = self;
    }
}

impl<Z: SizeSet> Model for Plan<Z> {
    ghost use Rattle.plan.specs.Samples.Question.{Question, question_coded};

    ghost Value = { Question };

    ghost coded = { question_coded };

    ghost use Rattle.plan.specs.Internal.Plan.{IsPlan};

    ghost view = { λ p. record { root = p.schema; pools = p.pools; limit = p.arena.limit } };

    ghost invariant = { λ p. IsPlan Z.holds Z.BITS p.schema p.pools p.arena.limit p.arena.values p.arena.entries.items p.root };
}

impl<Z: SizeSet> Plan<Z> {
    ghost use Rattle.std.specs.Prelude.{◌≡◌, ◌≢◌, ◌≤◌, ◌<◌, ◌⊎◌, ◌↔◌, ◌+◌, []};
    ghost use Rattle.std.specs.Prelude.{ℕ, List, false, length, drop, filter, Contains, All, AllPairs, Some, None};
    ghost use Rattle.std.specs.Prelude.{IsTrue, IfOk, IfErr, OnOk, IfSome, IfNone, option_map};
    ghost use Rattle.std.specs.Option.{option_copied};
    ghost use Rattle.jtree.specs.View.{data_of};
    ghost use Rattle.plan.specs.Samples.Steps.{counted};
    ghost use Rattle.plan.specs.Samples.RuleOfParts.{RuleOfParts, admits_null};
    ghost use Rattle.plan.specs.Pools.Pools.{Pools};
    ghost use Rattle.jtree.specs.Data.{Data};
    ghost use Rattle.plan.specs.Samples.NoDeadEnd.{NoDeadEnd, is_key, IsTuple, AreCounts, product, HasFree};
    ghost use Rattle.plan.specs.Samples.Keys.{HasTuples, HasSoundParts};
    ghost use Rattle.plan.specs.Samples.ByPlace.{IsSlotAt, IsCandidateAt};
    ghost use Rattle.plan.specs.Samples.Sites.{Site, sites_of, root_site, item_site};
    ghost use Rattle.plan.specs.Samples.Sites;
    ghost use Rattle.plan.specs.Samples.Candidates.{sort_of, distinct_of, HasCount, IsCandidate, IsWidth};
    ghost use Rattle.plan.specs.Samples.Sizes.{HasSize, HasRest, HasMore, IsUpTo, ending_of};
    ghost use Rattle.plan.specs.Samples.Presence.{named};
    ghost use Rattle.plan.specs.Samples.Sites.{site_at};
    ghost use Rattle.schema.specs.Nodes.Junctors.{most_named};
    ghost use Rattle.plan.specs.declared.sort.Sort.TheVariants as sort;

    /// The plan of these samples: of this schema, over these pools, of at most `limit` nodes. The tables are filled from the
    /// leaves upward; no object is made.
    ///
    /// `BadLimit` where the limit is 0, or is not below `Z::BITS` (with `u64`: where it is not 1 to 63; with `u128`: not 1 to 127), which is decided first.
    /// `BadPath` with the first text of the pools that is not that of a path which leads where it has to ([`crate::first_bad_path`]). It
    /// is decided after the limit. `NoMemory` where an allocation fails.
    pub fn new(alloc: Global, schema: Schema, pools: Pools, limit: u32) -> Result<Plan<Z>, PFault>
        ensures ok { IfOk result (λ plan. plan ≡ record { root = schema; pools = pools; limit = limit }) }
        ensures limit { OnOk result ((1 ≤ limit) × (limit < Z.BITS)) }
        ensures paths { OnOk result (HasGoodPaths schema pools) }
        ensures err { IfErr result (IsPlanFault schema pools limit Z.BITS) }
    {
        match entries(alloc, &schema, &pools, limit) {
            Ok((arena, root)) => Ok(Plan {
                schema,
                pools,
                arena,
                root,
            }),
            Err(fault) => {
                drop(schema);
                drop(pools);
                Err(fault)
            }
        }
    }

    /// The schema and the pools, given back.
    pub fn into_parts(self) -> (Schema, Pools)
        ensures schema { result.0 ≡ self.root }
        ensures pools { result.1 ≡ self.pools }
        ensures limit { (1 ≤ self.limit) × (self.limit < Z.BITS) }
    {
        let Plan {
            schema,
            pools,
            arena: _,
            root: _,
        } = self;
        (schema, pools)
    }

    /// The node of the root.
    pub fn root(&self) -> PlanNode
        ensures number { result < length (sites_of self.now.pools self.now.root) }
        ensures site { site_at (sites_of self.now.pools self.now.root) result ≡ root_site self.now.root }
    {
        self.root
    }

    /// The most nodes of a sample.
    pub fn limit(&self) -> u32
        ensures { result ≡ self.now.limit }
    {
        self.arena.limit
    }

    /// The sort of the node.
    pub fn sort(&self, node: PlanNode) -> Sort
        requires { node < length (sites_of self.now.pools self.now.root) }
        ensures { result ≡ sort_of (site_at (sites_of self.now.pools self.now.root) node) }
    {
        match &self.arena.entry(node).content {
            Content::Leaf(_) => Sort::Leaf,
            Content::Row(_) => Sort::Row,
            Content::List(_) => Sort::List,
        }
    }

    /// Whether null is accepted: the node is nullable, and the pools ask for nothing directly below it.
    pub fn null_ok(&self, node: PlanNode) -> bool
        requires { node < length (sites_of self.now.pools self.now.root) }
        ensures { result ≡ admits_null self.now.pools (site_at (sites_of self.now.pools self.now.root) node) }
    {
        self.arena.entry(node).nullable
    }

    /// The sizes up to the limit of the parts at the node.
    pub fn sizes(&self, node: PlanNode) -> Z
        requires { node < length (sites_of self.now.pools self.now.root) }
        ensures { IsUpTo self.now.limit (Z.holds result) (HasSize self.now.pools (site_at (sites_of self.now.pools self.now.root) node)) }
    {
        self.arena.entry(node).sizes
    }

    /// The sizes up to the limit that the slots of a row from `place` on can still take, where `taken` slots before it are
    /// filled, and the named fields among them are those whose bits are set in `seen` (see [`Slot::bit`]). Only for a
    /// row, with `place` at most the number of its slots and `taken` at most `place`.
    pub fn rest(&self, node: PlanNode, place: u64, taken: u32, seen: u8) -> Z
        requires node { node < length (sites_of self.now.pools self.now.root) }
        requires row { sort_of (site_at (sites_of self.now.pools self.now.root) node) ≡ sort.Row }
        requires place { place ≤ length (Sites.slots self.now.pools (site_at (sites_of self.now.pools self.now.root) node)) }
        requires taken { taken ≤ place }
        ensures { IsUpTo self.now.limit (Z.holds result) (HasRest self.now.pools (site_at (sites_of self.now.pools self.now.root) node) place (record { count = taken; seen = seen })) }
    {
        match &self.arena.entry(node).content {
            Content::Row(row) => {
                let table = &row.tables[row.slots.len() - place as usize];
                let level = &table[seen as usize % table.len()];
                level[(taken as usize).min(level.len() - 1)]
            }
            Content::Leaf(_) | Content::List(_) => Z::empty(),
        }
    }

    /// The sizes up to the limit that the items of a list can still take after `taken` items. Only for a list.
    pub fn more(&self, node: PlanNode, taken: u32) -> Z
        requires node { node < length (sites_of self.now.pools self.now.root) }
        requires list { sort_of (site_at (sites_of self.now.pools self.now.root) node) ≡ sort.List }
        ensures { IsUpTo self.now.limit (Z.holds result) (HasMore self.now.pools self.now.limit (site_at (sites_of self.now.pools self.now.root) node) taken) }
    {
        match &self.arena.entry(node).content {
            Content::List(list) => {
                if (taken as usize) < list.more.len() {
                    list.more[taken as usize]
                } else {
                    Z::empty()
                }
            }
            _ => Z::empty(),
        }
    }

    /// Which items may not be in one list; `Free` where the node is not a list.
    pub fn distinct(&self, node: PlanNode) -> Distinct
        requires { node < length (sites_of self.now.pools self.now.root) }
        ensures { result ≡ distinct_of (site_at (sites_of self.now.pools self.now.root) node) }
    {
        match &self.arena.entry(node).content {
            Content::List(list) => list.distinct,
            Content::Leaf(_) | Content::Row(_) => Distinct::Free,
        }
    }

    /// The number of candidates: of the values within the limit. Only for a leaf.
    pub fn count(&self, node: PlanNode) -> u64
        requires node { node < length (sites_of self.now.pools self.now.root) }
        requires leaf { sort_of (site_at (sites_of self.now.pools self.now.root) node) ≡ sort.Leaf }
        ensures { HasCount (IsCandidate self.now.pools self.now.limit (site_at (sites_of self.now.pools self.now.root) node)) result }
    {
        self.arena.count(node)
    }

    /// The width of the widest node: by the slots of a row, or by the candidates of a leaf; 0 where there are none.
    pub fn width(&self) -> u64
        ensures { IsWidth self.now result }
    {
        let mut width: u64 = 0;
        for entry in &self.arena.entries {
            width = width.max(entry.width());
        }
        width
    }

    /// The number of slots. Only for a row.
    pub fn slot_count(&self, node: PlanNode) -> u64
        requires node { node < length (sites_of self.now.pools self.now.root) }
        requires row { sort_of (site_at (sites_of self.now.pools self.now.root) node) ≡ sort.Row }
        ensures { result ≡ length (Sites.slots self.now.pools (site_at (sites_of self.now.pools self.now.root) node)) }
    {
        match &self.arena.entry(node).content {
            Content::Row(row) => row.slots.len() as u64,
            Content::Leaf(_) | Content::List(_) => 0,
        }
    }

    /// Whether the junctors of an object name some of its fields. Only for a row.
    pub fn names_fields(&self, node: PlanNode) -> bool
        requires node { node < length (sites_of self.now.pools self.now.root) }
        requires row { sort_of (site_at (sites_of self.now.pools self.now.root) node) ≡ sort.Row }
        ensures names { IsTrue result ↔ (named (ending_of self.now.pools (site_at (sites_of self.now.pools self.now.root) node)).asked ≢ []) }
        ensures no_bit { result ≡ false → All (λ s. s.bit ≡ None) (Sites.slots self.now.pools (site_at (sites_of self.now.pools self.now.root) node)) }
    {
        match &self.arena.entry(node).content {
            Content::Row(row) => row.tables[0].len() > 1,
            Content::Leaf(_) | Content::List(_) => false,
        }
    }

    /// Slot `place` of a row, counted from 0 in the order of names; none past the last. Only for a row. It is one step.
    pub fn slot(&self, node: PlanNode, place: u64, meter: &mut Meter) -> Option<Slot<'_>>
        requires node { node < length (sites_of self.now.pools self.now.root) }
        requires row { sort_of (site_at (sites_of self.now.pools self.now.root) node) ≡ sort.Row }
        ensures some { IfSome result (λ t. IsSlotAt (sites_of self.now.pools self.now.root) (Sites.slots self.now.pools (site_at (sites_of self.now.pools self.now.root) node)) place t) }
        ensures below { IfSome result (λ t. t.node < node) }
        ensures bit { IfSome result (λ t. IfSome t.bit (λ j. j < most_named)) }
        ensures later { IfSome result (λ t. HasTuples self.now.pools (drop (place + 1) (Sites.slots self.now.pools (site_at (sites_of self.now.pools self.now.root) node))) t.later) }
        ensures within { IfSome result (λ _. place < length (Sites.slots self.now.pools (site_at (sites_of self.now.pools self.now.root) node))) }
        ensures followed { IfSome result (λ _. place < 18446744073709551615) }
        ensures none { IfNone result (length (Sites.slots self.now.pools (site_at (sites_of self.now.pools self.now.root) node)) ≤ place) }
        ensures step { meter.new ≡ counted meter.old 1 }
    {
        self.sound_parts();
        meter.step();
        match &self.arena.entry(node).content {
            Content::Row(row) => match row.slots.get(place as usize) {
                Some(slot) => Some(Slot {
                    name: self.arena.values.name(&slot.name),
                    node: slot.node,
                    must: slot.must,
                    key: slot.key,
                    bit: slot.bit,
                    later: row.later[place as usize],
                }),
                None => None,
            },
            Content::Leaf(_) | Content::List(_) => None,
        }
    }

    /// The node of the item at `place` of a list, the same for each place; none where no list of the node within the limit has
    /// an item there. Only for a list. It is one step.
    pub fn item(&self, node: PlanNode, place: u32, meter: &mut Meter) -> Option<PlanNode>
        requires node { node < length (sites_of self.now.pools self.now.root) }
        requires list { sort_of (site_at (sites_of self.now.pools self.now.root) node) ≡ sort.List }
        ensures some { IfSome result (λ i. item_site self.now.pools (site_at (sites_of self.now.pools self.now.root) node) ≡ Some (site_at (sites_of self.now.pools self.now.root) i)) }
        ensures below { IfSome result (λ i. i < node) }
        ensures goes_on { IfSome result (λ _. (m : ℕ) × HasMore self.now.pools self.now.limit (site_at (sites_of self.now.pools self.now.root) node) (place + 1) m) }
        ensures none { IfNone result ((m : ℕ) → HasMore self.now.pools self.now.limit (site_at (sites_of self.now.pools self.now.root) node) (place + 1) m → ⊥) }
        ensures step { meter.new ≡ counted meter.old 1 }
    {
        meter.step();
        match &self.arena.entry(node).content {
            Content::List(list) => list.item_at(place as usize),
            Content::Leaf(_) | Content::Row(_) => None,
        }
    }

    /// Candidate `place` of a leaf, counted from 0 in the tree order; none past the last. Only for a leaf. It is one
    /// step.
    pub fn candidate(&self, node: PlanNode, place: u64, meter: &mut Meter) -> Option<&Tree>
        requires node { node < length (sites_of self.now.pools self.now.root) }
        requires leaf { sort_of (site_at (sites_of self.now.pools self.now.root) node) ≡ sort.Leaf }
        ensures candidate { IsCandidateAt self.now.pools self.now.limit (site_at (sites_of self.now.pools self.now.root) node) place (option_map data_of (option_copied result)) }
        ensures step { meter.new ≡ counted meter.old 1 }
    {
        meter.step();
        match &self.arena.entry(node).content {
            Content::Leaf(leaf) => candidate(&self.arena.values, leaf, place as usize),
            Content::Row(_) | Content::List(_) => None,
        }
    }

    /// Does nothing: a proof calls it to learn what the parts of each node are, and that nothing that was begun within the tables is a
    /// dead end.
    pub fn no_dead_end(&self)
        ensures parts { (s : Site) → Contains (sites_of self.now.pools self.now.root) s → RuleOfParts self.now.pools self.now.limit s }
        ensures completed { (s : Site) → Contains (sites_of self.now.pools self.now.root) s → NoDeadEnd self.now.pools self.now.limit s }
    {
        laws::plans_are_sound();
        let _ = self.schema.root();
    }

    /// Does nothing: a proof calls it to learn what the rules of the schema say of the slots and the items of each node, and when a
    /// tuple of candidates is left.
    pub fn sound_parts(&self)
        ensures parts { (s : Site) → Contains (sites_of self.now.pools self.now.root) s → HasSoundParts self.now.pools s }
        ensures items { (s M : Site) → Contains (sites_of self.now.pools self.now.root) s → item_site self.now.pools s ≡ Some M → Contains (sites_of self.now.pools self.now.root) M }
        ensures counts { (s : Site) → Contains (sites_of self.now.pools self.now.root) s → (counts : List ℕ) × AreCounts self.now.pools (filter is_key (Sites.slots self.now.pools s)) counts }
        ensures free { (P : Pools) (ss : List Sites.Slot) (used : List (List Data)) (counts : List ℕ) → All (IsTuple P ss) used → AllPairs (λ t u. t ≢ u) used → AreCounts P ss counts → HasFree P ss used [] ↔ (length used < product counts) }
    {
        laws::plans_are_sound();
        let _ = self.schema.root();
    }

    /// A meter at 0. It borrows the plan mutably, so that code with a shared borrow cannot make one.
    pub fn meter(&mut self) -> Meter
        ensures zero { result ≡ 0 }
        ensures same { self.new ≡ self.old }
    {
        Meter::new()
    }
}

impl<Z: SizeSet> Plan<Z> {
    ghost use Rattle.std.specs.Prelude.{◌≡◌, IfOk};
    ghost use Rattle.explain.specs.Fields.Declared.{IsDeclared};
    ghost use Rattle.plan.specs.Pools.Along.{narrowed, widened, lists_of, DifferAlong};
    ghost use Rattle.plan.specs.Pools.PathSteps.{path_of};
    ghost use Rattle.plan.specs.Pools.PlanFault.{HasGoodPaths};

    /// The plan over pools that ask for this path and its beginnings too, and have these lists there, the last one put in first; and the
    /// lists that they take the place of, with which [`Plan::widen`] gives this plan back. A list may stand at a place whose values are fixed,
    /// or at a scalar or an open node. Work is as the nodes along the path, not as the plan. `AllocError` where an allocation fails.
    pub fn narrow(
        self,
        alloc: Global,
        steps: &[PathStep],
        lists: Vec<ListAt>,
    ) -> Result<(Plan<Z>, Vec<ListAt>), AllocError>
        requires good { HasGoodPaths self.root self.pools }
        requires good_then { HasGoodPaths self.root (narrowed self.pools (lists_of lists.items) (path_of steps.now)) }
        requires along { DifferAlong self.root self.pools (narrowed self.pools (lists_of lists.items) (path_of steps.now)) (path_of steps.now) }
        requires declared { IsDeclared self.root (path_of steps.now) }
        ensures plan { IfOk result (λ r. r.0 ≡ record { root = self.root; pools = narrowed self.pools (lists_of lists.items) (path_of steps.now); limit = self.limit }) }
        ensures back { IfOk result (λ r. widened (narrowed self.pools (lists_of lists.items) (path_of steps.now)) (lists_of r.1.items) (path_of steps.now) ≡ self.pools) }
    {
        let Plan {
            schema,
            pools,
            mut arena,
            root,
        } = self;
        laws::schemas_are_sound();
        explain::laws::paths_have_one_text();
        let (pools, old) = pools.with_lists(alloc, lists)?;
        let pools = pools.asking(alloc, steps)?;
        let place = Place {
            path: "",
            node: schema.root(),
            number: root,
        };
        renew(&mut arena, alloc, &pools, &place, steps)?;
        let plan = Plan {
            schema,
            pools,
            arena,
            root,
        };
        Ok((plan, old))
    }

    /// The plan over pools that no longer ask for the last paths, as many as this path has beginnings, and have these lists, the last one put
    /// in first. Work is as that of [`Plan::narrow`]. `AllocError` where an allocation fails.
    pub fn widen(
        self,
        alloc: Global,
        steps: &[PathStep],
        lists: Vec<ListAt>,
    ) -> Result<Plan<Z>, AllocError>
        requires good { HasGoodPaths self.root self.pools }
        requires good_then { HasGoodPaths self.root (widened self.pools (lists_of lists.items) (path_of steps.now)) }
        requires along { DifferAlong self.root self.pools (widened self.pools (lists_of lists.items) (path_of steps.now)) (path_of steps.now) }
        requires declared { IsDeclared self.root (path_of steps.now) }
        ensures { IfOk result (λ plan. plan ≡ record { root = self.root; pools = widened self.pools (lists_of lists.items) (path_of steps.now); limit = self.limit }) }
    {
        let Plan {
            schema,
            pools,
            mut arena,
            root,
        } = self;
        laws::schemas_are_sound();
        explain::laws::paths_have_one_text();
        let (pools, _) = pools.with_lists(alloc, lists)?;
        let pools = pools.asking_less(steps.len());
        let place = Place {
            path: "",
            node: schema.root(),
            number: root,
        };
        renew(&mut arena, alloc, &pools, &place, steps)?;
        Ok(Plan {
            schema,
            pools,
            arena,
            root,
        })
    }

    /// The schema.
    pub fn schema(&self) -> &Schema
        ensures { result.now ≡ self.now.root }
    {
        &self.schema
    }

    /// The pools.
    pub fn pools(&self) -> &Pools
        ensures { result.now ≡ self.now.pools }
    {
        &self.pools
    }
}

/// The entries of the schema's nodes, and the root's among them, where a plan can have this limit.
fn entries<Z: SizeSet>(
    alloc: Global,
    schema: &Schema,
    pools: &Pools,
    limit: u32,
) -> Result<(Arena<Z>, PlanNode), PFault>
    ensures limit { IfOk result (λ made. made.0.limit ≡ limit) }
    ensures made { IfOk result (λ made. IsPlan Z.holds Z.BITS schema.now pools.now limit made.0.values made.0.entries.items made.1) }
    ensures paths { OnOk result (HasGoodPaths schema.now pools.now) }
    ensures err { IfErr result (IsPlanFault schema.now pools.now limit Z.BITS) }
{
    if limit == 0 || limit >= Z::BITS {
        return Err(PFault::BadLimit);
    }
    check_paths(alloc, schema, pools)?;
    laws::schemas_are_sound();
    let mut arena = Arena {
        values: Values::new(alloc, pools)?,
        limit,
        entries: Vec::new(alloc),
    };
    let root = build(&mut arena, alloc, pools, None, "", schema.root(), &[])?;
    Ok((arena, root))
}
