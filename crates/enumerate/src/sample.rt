//! Samples of a plan, by their sizes.
ghost use Rattle.std.specs.Prelude.{IfOk, ◌*◌, IfSome};
ghost use Rattle.jtree.specs.View.{data_of};
ghost use Rattle.enumerate.specs.Internal.Answers.{Decides};
ghost use Rattle.enumerate.specs.Page.{IsSampleOf};
ghost use Rattle.enumerate.specs.View.{tree_of};
ghost use Rattle.enumerate.specs.Internal.Candidates.{stack_of};
ghost use Rattle.enumerate.specs.Internal.Current.{ContinueSample, IsSampleAfter, ContinueAfter};
ghost use Rattle.enumerate.specs.Internal.Nodes.{Costs};
ghost use Rattle.enumerate.specs.Internal.Roots.{IsFirstFrom};

use crate::walk::{NextTree, Scratch, Walk};
use jtree::Tree;
use plan::{Meter, SizeSet};
use std::alloc::AllocError;

impl<'p, Z: SizeSet> Walk<'p, Z> {
    /// The first sample of at least `from` nodes. `following` becomes what continues it in the place of its last node.
    pub(crate) fn first_from(
        &self,
        from: u32,
        scratch: &mut Scratch<'p>,
        meter: &mut Meter,
    ) -> Result<Option<Tree>, AllocError>
        ensures ok { IfOk result (λ found. IsFirstFrom self.now.plan.now from (tree_of found)) }
        ensures following { IfOk result (λ found. IfSome (tree_of found) (λ v. ContinueSample self.now.plan.now v (stack_of scratch.new.following.items))) }
        ensures steps { Costs self.now.plan.now meter.old meter.new self.now.plan.now.limit }
    {
        jtree::laws::last_node_is_replaced();
        let root = self.plan.root();
        self.reveal_limit();
        match self.plan.sizes(root).next(from) {
            Some(size) => Ok(Some(self.first_part(root, size, scratch, meter)?)),
            None => Ok(None),
        }
    }

    /// The sample after this one. `following` becomes what continues it in the place of its last node.
    pub(crate) fn next_sample(
        &self,
        tree: Tree,
        scratch: &mut Scratch<'p>,
        meter: &mut Meter,
    ) -> Result<NextTree, AllocError>
        requires sample { IsSampleOf self.now.plan.now (data_of tree) }
        ensures ok { IfOk result (λ next. IsSampleAfter self.now.plan.now (data_of tree) next) }
        ensures following { IfOk result (λ next. ContinueAfter self.now.plan.now next (stack_of scratch.new.following.items)) }
        ensures steps { Costs self.now.plan.now meter.old meter.new (3 * self.now.plan.now.limit) }
    {
        jtree::laws::last_node_is_replaced();
        let root = self.plan.root();
        let limit = self.plan.limit();
        match self.next_part(root, tree, scratch, meter)? {
            NextTree::To(next, depth) => Ok(NextTree::To(next, depth)),
            NextTree::Last(size) => {
                if size < limit {
                    match self.first_from(size + 1, scratch, meter)? {
                        Some(next) => Ok(NextTree::To(next, 0)),
                        None => Ok(NextTree::Last(size)),
                    }
                } else {
                    Ok(NextTree::Last(size))
                }
            }
        }
    }

    /// Whether the tree is a sample.
    pub(crate) fn is_sample(&self, tree: &Tree, meter: &mut Meter) -> Result<bool, AllocError>
        ensures { Decides result (IsSampleOf self.now.plan.now (data_of tree.now)) (Costs self.now.plan.now meter.old meter.new self.now.plan.now.limit) }
    {
        if tree.nodes() > self.plan.limit() as u64 {
            return Ok(false);
        }
        self.is_part(self.plan.root(), tree, meter)
    }
}
