//! A walk over the samples of a plan: the first part of a node, the next one, and whether a tree is one.
//!
//! The next object moves the last of its slots that can move: what is in the slot becomes its next value, or else the first one of the
//! least larger size that leaves a rest which the slots after it can have; an empty slot is filled likewise. What comes after that slot
//! is made anew, as the first members are, and what comes before it is left as it is. Lists go from the last item to the first. Since
//! the tables of the plan are exact, nothing that is begun has to be given up.
//!
//! In a set the items that are there already are skipped. In a map list an item gets its keys one by one, each in view of the items
//! that have the same keys so far (`siblings`).
ghost use Rattle.std.specs.Prelude.{[], ◌≡◌, ◌≤◌, ◌<◌, List, ◌↔◌, IsTrue, ◌≢◌};
ghost use Rattle.jtree.specs.Data as Trees;
ghost use Rattle.jtree.specs.Nodes.{node_count};
ghost use Rattle.jtree.specs.View.{data_of};
ghost use Rattle.plan.specs.Samples.Candidates.{sort_of};
ghost use Rattle.plan.specs.Samples.Part.{IsPart};
ghost use Rattle.plan.specs.Samples.Sites.{slots};
ghost use Rattle.enumerate.specs.Internal.Answers.{Decides, FindsFirst, FindsNext};
ghost use Rattle.enumerate.specs.Internal.Moves.{IsNextTree};
ghost use Rattle.enumerate.specs.Internal.Nodes.{HasLaws, site, IsNodeOf, IsPartOf, Costs, HasSizeAt};
ghost use Rattle.enumerate.specs.Internal.Steps.{CostsTree};
ghost use Rattle.plan.specs.declared.sort.Sort.TheVariants as sort;

use crate::prefix::Before;
use crate::siblings::Rows;
use jtree::{Items, Members, Text, Tree};
use plan::{Meter, Plan, PlanNode, SizeSet, Sort};
use std::alloc::{AllocError, Global};

/// What a walk over a plan reads: the plan, and where it allocates.
#[derive(Clone, Copy)]
pub(crate) struct Walk<'p, Z: SizeSet> {
    pub alloc: Global,
    pub plan: &'p Plan<Z>,
}

/// What is kept from one sample to the next.
#[derive(Drop)]
pub(crate) struct Scratch<'p> {
    /// On top the candidate that is the last node, and below it those that follow in its place.
    pub following: Vec<&'p Tree>,
    /// Names of members that were removed, whose memory is used again: at most as many as a sample had members.
    pub spare: Vec<Text>,
}

impl<'p> Scratch<'p> {
    ghost use Rattle.std.specs.Prelude.{◌≡◌, []};

    /// With nothing in it.
    pub(crate) fn new(alloc: Global) -> Scratch<'p>
        ensures following { result.following.items ≡ [] }
    {
        Scratch {
            following: Vec::new(alloc),
            spare: Vec::new(alloc),
        }
    }
}

/// What comes after a tree.
#[derive(Drop)]
pub(crate) enum NextTree {
    /// The next one of as many nodes, and how many levels down it differs: in the part that is reached there by the last item or member
    /// of each level, and nowhere else.
    To(Tree, usize),
    /// None: it was the last one of so many nodes.
    Last(u32),
}

/// What became of members or items.
#[derive(Clone, Copy)]
pub(crate) enum NextParts {
    /// The next ones of as many nodes, which differ so many levels down, as a tree does; at 0 all of them may.
    Made(usize),
    /// They were the last ones of so many nodes.
    Last(u32),
}

impl<'p, Z: SizeSet> Walk<'p, Z> {
    /// Does nothing: a proof calls it to learn that a limit has 32 bits, so that the nodes of a sample can be counted.
    pub(crate) fn reveal_limit(&self)
        ensures { self.now.plan.now.limit < 4294967296 }
    {
        let _ = self.plan.limit();
    }

    /// Does nothing: a proof calls it to learn the laws of a node's parts.
    pub(crate) fn laws_of(&self, node: PlanNode)
        requires node { IsNodeOf self.now.plan.now node }
        ensures { HasLaws self.now.plan.now node }
    {
        let _ = node;
        self.plan.no_dead_end();
        self.plan.sound_parts();
        self.reveal_limit();
    }

    /// The first part of the given size, which some part of the node has.
    #[cycle(first)]
    pub(crate) fn first_part(
        &self,
        node: PlanNode,
        size: u32,
        scratch: &mut Scratch<'p>,
        meter: &mut Meter,
    ) -> Result<Tree, AllocError>
        requires node { IsNodeOf self.now.plan.now node }
        requires size { HasSizeAt self.now.plan.now node size }
        requires limit { size ≤ self.now.plan.now.limit }
        ensures { FindsFirst result (IsPartOf self.now.plan.now node size) scratch.new.following.items (Costs self.now.plan.now meter.old meter.new size) }
    {
        self.laws_of(node);
        match self.plan.sort(node) {
            Sort::Leaf => self.first_unused(node, size, &[], scratch, meter),
            _ if size == 1 && self.plan.null_ok(node) => {
                scratch.following.clear();
                Ok(Tree::Null)
            }
            Sort::Row => self.first_row(node, size, &Rows::Listed(&[]), scratch, meter),
            Sort::List => self.first_list(node, size, scratch, meter),
        }
    }

    /// The next part of as many nodes.
    #[cycle(next)]
    #[inline(always)]
    pub(crate) fn next_part(
        &self,
        node: PlanNode,
        tree: Tree,
        scratch: &mut Scratch<'p>,
        meter: &mut Meter,
    ) -> Result<NextTree, AllocError>
        requires node { IsNodeOf self.now.plan.now node }
        requires part { IsPart self.now.plan.now.pools (site self.now.plan.now node) (data_of tree) }
        requires limit { node_count (data_of tree) ≤ self.now.plan.now.limit }
        ensures { FindsNext result (IsPartOf self.now.plan.now node (node_count (data_of tree))) (data_of tree) scratch.new.following.items (CostsTree result self.now.plan.now meter.old meter.new (node_count (data_of tree))) }
    {
        self.laws_of(node);
        match self.plan.sort(node) {
            Sort::Leaf => self.next_unused(node, tree, &[], scratch, meter),
            _ if is_null(&tree) => {
                scratch.following.clear();
                Ok(self.after_null(node))
            }
            Sort::Row => self.next_row(node, tree, &Rows::Listed(&[]), scratch, meter),
            Sort::List => self.next_list(node, tree, scratch, meter),
        }
    }

    /// What comes after null at a row or a list: the empty one, where it is a part.
    fn after_null(&self, node: PlanNode) -> NextTree
        requires node { IsNodeOf self.now.plan.now node }
        requires no_leaf { sort_of (site self.now.plan.now node) ≢ sort.Leaf }
        requires some { 1 ≤ self.now.plan.now.limit }
        ensures { IsNextTree (IsPartOf self.now.plan.now node 1) Trees.null result }
    {
        self.laws_of(node);
        match self.plan.sort(node) {
            Sort::Row if Before::nothing().rest(self.plan, node, 0).has(0) => {
                let members = Vec::new(self.alloc);
                NextTree::To(Tree::Object(Members { members }), 0)
            }
            Sort::List if self.plan.more(node, 0).has(0) => {
                let items = Vec::new(self.alloc);
                NextTree::To(Tree::List(Items { items }), 0)
            }
            _ => NextTree::Last(1),
        }
    }

    /// Whether the tree is a part of the node, by the rule of parts and in one pass over the tree.
    #[cycle(part)]
    pub(crate) fn is_part(
        &self,
        node: PlanNode,
        tree: &Tree,
        meter: &mut Meter,
    ) -> Result<bool, AllocError>
        requires node { IsNodeOf self.now.plan.now node }
        requires limit { node_count (data_of tree.now) ≤ self.now.plan.now.limit }
        ensures { Decides result (IsPart self.now.plan.now.pools (site self.now.plan.now node) (data_of tree.now)) (Costs self.now.plan.now meter.old meter.new (node_count (data_of tree.now))) }
    {
        self.laws_of(node);
        match self.plan.sort(node) {
            Sort::Leaf => Ok(self.is_candidate(node, tree, meter)),
            _ if is_null(tree) => Ok(self.plan.null_ok(node)),
            Sort::Row => self.is_unused_row(node, tree, &Rows::Listed(&[]), meter),
            Sort::List => self.is_list(node, tree, meter),
        }
    }
}

/// Whether the tree is null.
fn is_null(tree: &Tree) -> bool
    ensures { IsTrue result ↔ (data_of tree.now ≡ Trees.null) }
{
    match tree {
        Tree::Null => true,
        _ => false,
    }
}
