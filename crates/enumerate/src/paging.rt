//! Pages of samples.
ghost use Rattle.std.proofs.Common.{sym, append-nil};
ghost use Rattle.std.specs.Prelude.{◌≡◌, ◌+◌, ◌*◌, ◌≤◌, ◌++◌, ℕ, Err, IfOk, IfErr, OnOk, IfSome, IsSomeAnd, length};
ghost use Rattle.plan.specs.Samples.Steps.{delay};
ghost use Rattle.plan.specs.Samples.Candidates.{IsWidth};
ghost use Rattle.enumerate.specs.Page.{IsPage, IsSampleOf};
ghost use Rattle.enumerate.specs.View.{resume_point, trees_of};
ghost use Rattle.enumerate.specs.declared.fault.EFault.TheVariants.{NotASample, NoMemory, Ended};

use crate::fault::EFault;
use crate::listed::Page;
use crate::live::Live;
use crate::taker::{Change, Taker};
use jtree::Tree;
use plan::{Meter, Plan, SizeSet};
use std::alloc::{AllocError, Global};

/// The first `count` samples past `after`, or from the first sample on, in the tree order; fewer only where no more are
/// left, which `end` says. The caller keeps `count` from 1 to 10,000.
///
/// `NotASample` exactly where `after` is no sample of the plan, and `NoMemory` where an allocation fails. Where it answers a page,
/// it takes at most 4 * (limit + 1) * (width + 1) steps for each item, and once more as many.
pub fn page<Z: SizeSet>(
    alloc: Global,
    plan: &Plan<Z>,
    after: Option<&Tree>,
    count: u32,
    meter: &mut Meter,
) -> Result<Page, EFault>
    requires one { 1 ≤ count }
    requires most { count ≤ 10000 }
    ensures page { IfOk result (λ page. IsPage plan.now (resume_point after.entry) count (trees_of page.items.items) page.end) }
    ensures sample { OnOk result (IfSome (resume_point after.entry) (λ a. IsSampleOf plan.now a)) }
    ensures not_a_sample { result ≡ Err NotASample → IsSomeAnd (resume_point after.entry) (λ a. IsSampleOf plan.now a → ⊥) }
    ensures never_ended { IfErr result (λ e. e ≡ Ended → ⊥) }
    ensures steps { IfOk result (λ page. (width : ℕ) → IsWidth plan.now width
        → meter.new ≤ meter.old + (length page.items.items + 1) * delay plan.now.limit width) }
{
    let Some(mut live) = Live::past(alloc, plan, after, meter)? else {
        return Ok(Page {
            items: Vec::new(alloc),
            end: true,
        });
    };
    let mut copies = Copies {
        alloc,
        items: Vec::new(alloc),
    };
    let end = live.lend_page(count, &mut copies, meter)?;
    Ok(Page {
        items: copies.items,
        end,
    })
}

/// Copies of samples.
#[derive(Drop)]
struct Copies {
    alloc: Global,
    items: Vec<Tree>,
}

impl Taker for Copies {
    ghost has_taken = { λ first now items. trees_of now.items.items ≡ trees_of first.items.items ++ items };

    ghost none_taken = { λ now. sym (append-nil (trees_of now.items.items)) };

    fn take(&mut self, sample: &Tree, _change: Option<Change<'_>>) -> Result<(), AllocError> {
        self.items.push(sample.try_clone(self.alloc)?)?;
        Ok(())
    }
}
