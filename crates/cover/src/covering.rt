//! The lines of what is wanted of a schema, one path after the other.
ghost use Rattle.std.specs.Prelude.{IfOk};
ghost use Rattle.plan.specs.Pools.PlanFault.{HasGoodPaths};
ghost use Rattle.cover.specs.Cover.{IsWholeCover};
ghost use Rattle.cover.specs.View.{covered_of};

use crate::adding::add_path;
use crate::known::Front;
use explain::Listing;
use jtree::{Text, Tree};
use plan::{Plan, SizeSet};
use std::alloc::{AllocError, Global};
use std::marker::Model;

/// What is wanted of a sample: that the path of this text is there, or that it is there with this value.
#[derive(Drop)]
pub struct Wanted {
    pub path: Text,
    pub value: Option<Tree>,
}

/// What is wanted, and the first sample that has it.
#[derive(Drop)]
pub struct Line {
    pub wanted: Wanted,
    pub tree: Tree,
}

/// The lines of what is wanted, and what no sample has.
#[derive(Drop)]
pub struct Covered {
    pub lines: Vec<Line>,
    pub missed: Vec<Wanted>,
}

/// A cover that is under way: it covers one declared path after the other, in the order of the listing, and has its lines so far.
pub struct Covering<Z: SizeSet> {
    alloc: Global,
    plan: Plan<Z>,
    values: bool,
    listing: Listing,
    next: usize,
    fronts: Vec<Front>,
    covered: Covered,
}

impl<Z: SizeSet> Drop for Covering<Z> {
    fn drop(self) {
        let Covering {
            alloc: _,
            plan: _,
            values: _,
            listing: _,
            next: _,
            fronts: _,
            covered: _,
        } = self;
    }
}

impl<Z: SizeSet> Model for Covering<Z> {
    ghost use Rattle.cover.specs.Covering.{Covering as CoveringData, covering_coded};

    ghost Value = { CoveringData };

    ghost coded = { covering_coded };

    ghost use Rattle.cover.specs.View.{covered_of};
    ghost use Rattle.cover.specs.Internal.Known.{IsCovering};

    ghost view = { λ c. record { question = c.plan; values = c.values; fields = c.listing; count = c.next; covered = covered_of c.covered } };

    ghost invariant = { λ c. IsCovering c.plan c.values c.listing c.next c.covered c.fronts.items };
}

impl<Z: SizeSet> Covering<Z> {
    ghost use Rattle.std.specs.Prelude.{◌≡◌, ◌≤◌, true, IfOk, Decides, length};
    ghost use Rattle.plan.specs.Pools.PlanFault.{HasGoodPaths};
    ghost use Rattle.cover.specs.Cover.{IsWholeCover};
    ghost use Rattle.cover.specs.Covering.{IsBegun, IsAdvanced};
    ghost use Rattle.cover.specs.View.{covered_of};

    /// A cover of the plan's schema, with `values` or without, of which no path is covered yet. `AllocError` where an allocation fails.
    pub fn new(alloc: Global, plan: Plan<Z>, values: bool) -> Result<Covering<Z>, AllocError>
        requires paths { HasGoodPaths plan.root plan.pools }
        ensures { IfOk result (IsBegun plan values) }
    {
        let listing = Listing::new(alloc, plan.schema())?;
        Ok(Covering {
            alloc,
            plan,
            values,
            listing,
            next: 0,
            fronts: Vec::new(alloc),
            covered: Covered {
                lines: Vec::new(alloc),
                missed: Vec::new(alloc),
            },
        })
    }

    /// Covers the next path, where one is left. `AllocError` where an allocation fails.
    pub fn advance(self) -> Result<Covering<Z>, AllocError>
        ensures { IfOk result (IsAdvanced self) }
    {
        let Covering {
            alloc,
            plan,
            values,
            listing,
            next,
            fronts,
            covered,
        } = self;
        let mut fronts = fronts;
        let mut covered = covered;
        let (plan, next) = match listing.fields().get(next) {
            Some(field) => {
                let path = field.path.as_str();
                let plan = add_path(alloc, plan, values, path, &mut fronts, &mut covered)?;
                (plan, next + 1)
            }
            None => (plan, next),
        };
        Ok(Covering {
            alloc,
            plan,
            values,
            listing,
            next,
            fronts,
            covered,
        })
    }

    /// Whether all paths are covered.
    pub fn is_done(&self) -> bool
        ensures done { Decides result (length self.now.fields ≤ self.now.count) }
        ensures whole { result ≡ true → IsWholeCover self.now.values self.now.question self.now.covered }
    {
        self.next >= self.listing.fields().len()
    }

    /// What is covered so far.
    pub fn covered(&self) -> &Covered
        ensures { covered_of result.now ≡ self.now.covered }
    {
        &self.covered
    }

    /// What is covered, by value.
    pub fn into_covered(self) -> Covered
        ensures { covered_of result ≡ self.covered }
    {
        let Covering {
            alloc: _,
            plan: _,
            values: _,
            listing: _,
            next: _,
            fronts: _,
            covered,
        } = self;
        covered
    }
}

/// For each declared path of the plan's schema, in the order of the listing: nothing where the path is there in the sample of a line
/// before, else a line with the first sample in which it is there, and where there is no such sample, the path is missed. With
/// `values`, after a path that leads to a scalar the same for that path with each of its candidates over the pools, in the tree order.
///
/// A path is there where each name on the way is, and an item of each list and of each map, with the rest of the path in every item.
/// It is there with a value where each value at its end is that one. `AllocError` where an allocation fails.
pub fn cover<Z: SizeSet>(alloc: Global, plan: Plan<Z>, values: bool) -> Result<Covered, AllocError>
    requires paths { HasGoodPaths plan.root plan.pools }
    ensures { IfOk result (λ c. IsWholeCover values plan (covered_of c)) }
{
    let mut covering = Covering::new(alloc, plan, values)?;
    'path: while !covering.is_done() {
        covering = covering.advance()?;
    }
    Ok(covering.into_covered())
}
