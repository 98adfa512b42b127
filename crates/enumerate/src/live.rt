//! An enumeration of the samples of a plan.
use crate::current::Current;
use crate::fault::EFault;
use crate::taker::Taker;
use crate::walk::{NextTree, Scratch, Walk};
use jtree::Tree;
use plan::{Meter, Plan, SizeSet};
use std::alloc::Global;
use std::marker::Model;

/// An enumeration of the samples of a plan. It has a current sample until it has ended.
pub struct Live<'p, Z: SizeSet> {
    walk: Walk<'p, Z>,
    current: Option<Current<'p>>,
}

impl<Z: SizeSet> Drop for Live<'_, Z> {
    fn drop(self) {
        let Live {
            walk: _,
            current: _,
        } = self;
    }
}

impl<'p, Z: SizeSet> Model for Live<'p, Z> {
    ghost use Rattle.enumerate.specs.Live.{Enumeration, enumeration_coded};

    ghost Value = { Enumeration };

    ghost coded = { enumeration_coded };

    ghost use Rattle.std.specs.Prelude.{IfSome, option_map};
    ghost use Rattle.jtree.specs.View.{data_of};
    ghost use Rattle.enumerate.specs.Internal.Current.{IsCurrent};

    ghost view = { λ l. record { question = l.walk.plan.now; at = option_map (λ s. data_of s.tree) l.current } };

    ghost invariant = { λ l. IfSome l.current (IsCurrent l.walk.plan.now) };
}

impl<'p, Z: SizeSet> Live<'p, Z> {
    ghost use Rattle.std.specs.Prelude.{◌≡◌, ◌≢◌, ◌≤◌};
    ghost use Rattle.std.specs.Prelude.{List, length, Option, Some, None, Err, IsSome, IfSome, IsSomeAnd, IfOk, IfErr, OnOk, MatchOption, option_map};
    ghost use Rattle.std.specs.Option.{option_copied};
    ghost use Rattle.jtree.specs.Data.{Data};
    ghost use Rattle.jtree.specs.View.{data_of};
    ghost use Rattle.enumerate.specs.Page.{IsSampleOf};
    ghost use Rattle.enumerate.specs.View.{resume_point};
    ghost use Rattle.enumerate.specs.Live.{IsStarted, IsAdvanced, IsNextSample, IsWithinDelay, LendsPage, LendsPart};
    ghost use Rattle.enumerate.specs.declared.fault.EFault.TheVariants.{NotASample, NoMemory, Ended};

    /// Starts at the first sample; `None` exactly where there is none.
    ///
    /// `NoMemory` where an allocation fails. It takes at most 4 * (limit + 1) * (width + 1) steps, whatever it answers.
    pub fn first(
        alloc: Global,
        plan: &'p Plan<Z>,
        meter: &mut Meter,
    ) -> Result<Option<Live<'p, Z>>, EFault>
        ensures ok { IfOk result (λ live. IsStarted plan.now None live) }
        ensures err { IfErr result (λ e. e ≡ NoMemory) }
        ensures steps { IsWithinDelay plan.now meter.old meter.new }
    {
        let walk = Walk { alloc, plan };
        let mut scratch = Scratch::new(alloc);
        match walk.first_from(0, &mut scratch, meter)? {
            Some(tree) => Ok(Some(Live {
                walk,
                current: Some(Current::at(plan, tree, scratch)),
            })),
            None => Ok(None),
        }
    }

    /// Starts at the first sample past the tree, which is a sample itself; `None` exactly where there is none.
    ///
    /// `NotASample` exactly where the tree is no sample, and `NoMemory` where an allocation fails. It takes at most
    /// 4 * (limit + 1) * (width + 1) steps, whatever it answers.
    pub fn after(
        alloc: Global,
        plan: &'p Plan<Z>,
        tree: &Tree,
        meter: &mut Meter,
    ) -> Result<Option<Live<'p, Z>>, EFault>
        ensures ok { IfOk result (λ live. IsStarted plan.now (Some (data_of tree.now)) live) }
        ensures sample { OnOk result (IsSampleOf plan.now (data_of tree.now)) }
        ensures not_a_sample { IfErr result (λ e. e ≡ NotASample → ¬ IsSampleOf plan.now (data_of tree.now)) }
        ensures never_ended { IfErr result (λ e. e ≢ Ended) }
        ensures steps { IsWithinDelay plan.now meter.old meter.new }
    {
        let walk = Walk { alloc, plan };
        if !walk.is_sample(tree, meter)? {
            return Err(EFault::NotASample);
        }
        let copy = tree.try_clone(alloc)?;
        let mut scratch = Scratch::new(alloc);
        match walk.next_sample(copy, &mut scratch, meter)? {
            NextTree::To(next, _) => Ok(Some(Live {
                walk,
                current: Some(Current::at(plan, next, scratch)),
            })),
            NextTree::Last(_) => Ok(None),
        }
    }

    /// Starts at the first sample past `after`, which is a sample itself, or at the first one of all; `None` exactly where there is
    /// none.
    ///
    /// `NotASample` exactly where `after` is no sample, and `NoMemory` where an allocation fails. It takes at most
    /// 4 * (limit + 1) * (width + 1) steps, whatever it answers.
    pub fn past(
        alloc: Global,
        plan: &'p Plan<Z>,
        after: Option<&Tree>,
        meter: &mut Meter,
    ) -> Result<Option<Live<'p, Z>>, EFault>
        ensures ok { IfOk result (λ live. IsStarted plan.now (resume_point after.entry) live) }
        ensures sample { OnOk result (IfSome (resume_point after.entry) (IsSampleOf plan.now)) }
        ensures not_a_sample { result ≡ Err NotASample → IsSomeAnd (resume_point after.entry) (λ a. ¬ IsSampleOf plan.now a) }
        ensures never_ended { IfErr result (λ e. e ≢ Ended) }
        ensures steps { IsWithinDelay plan.now meter.old meter.new }
    {
        match after {
            Some(tree) => Live::after(alloc, plan, tree, meter),
            None => Live::first(alloc, plan, meter),
        }
    }

    /// Moves to the next sample, and answers whether there is one. Where there is none, the enumeration has ended.
    ///
    /// `Ended` exactly where it had ended before, and `NoMemory` where an allocation fails, which ends it. It takes at most
    /// 4 * (limit + 1) * (width + 1) steps, whatever it answers.
    pub fn advance(&mut self, meter: &mut Meter) -> Result<bool, EFault>
        ensures same { self.new.question ≡ self.old.question }
        ensures ok { IfOk result (λ more. IsAdvanced self.old self.new more) }
        ensures err { IfErr result (λ e. MatchOption self.old.at (e ≡ Ended) (λ _. e ≡ NoMemory)) }
        ensures nowhere { IfErr result (λ _. self.new.at ≡ None) }
        ensures steps { IsWithinDelay self.old.question meter.old meter.new }
    {
        let Some(current) = &mut self.current else {
            return Err(EFault::Ended);
        };
        match current.advance(&self.walk, meter) {
            Ok(true) => Ok(true),
            Ok(false) => {
                self.current = None;
                Ok(false)
            }
            Err(_) => {
                self.current = None;
                Err(EFault::NoMemory)
            }
        }
    }

    /// Lends the taker the current sample and those after it, `count` in all, or fewer where no more are left, and moves to the sample
    /// after them. It answers whether no sample is left.
    ///
    /// `Ended` exactly where the enumeration had ended before, with nothing lent, and `NoMemory` where an allocation fails, which ends
    /// it; the samples taken by then are the first ones of the page. Where it answers, it takes at most
    /// 4 * (limit + 1) * (width + 1) steps for each sample that was lent.
    pub fn lend_page<T: Taker>(
        &mut self,
        count: u32,
        taker: &mut T,
        meter: &mut Meter,
    ) -> Result<bool, EFault>
        ensures same { self.new.question ≡ self.old.question }
        ensures current { OnOk result (IsSome self.old.at) }
        ensures page { IfOk result (λ end. (after : Option Data) → IsNextSample self.old.question after self.old.at
            → LendsPage self.old.question after count end (T.has_taken taker.old taker.new) self.new.at meter.old meter.new) }
        ensures part { IfErr result (λ _. (after : Option Data) → IsNextSample self.old.question after self.old.at
            → LendsPart self.old.question after count (T.has_taken taker.old taker.new)) }
        ensures taken { (items : List Data) × T.has_taken taker.old taker.new items × (length items ≤ count) }
        ensures err { IfErr result (λ e. MatchOption self.old.at (e ≡ Ended) (λ _. e ≡ NoMemory)) }
        ensures nowhere { IfErr result (λ _. self.new.at ≡ None) }
    {
        match &mut self.current {
            None => Err(EFault::Ended),
            Some(first) => match first.lend(&self.walk, count, taker, meter) {
                Ok(false) => Ok(false),
                Ok(true) => {
                    self.current = None;
                    Ok(true)
                }
                Err(_) => {
                    self.current = None;
                    Err(EFault::NoMemory)
                }
            },
        }
    }

    /// The current sample; `None` once the enumeration has ended.
    pub fn tree(&self) -> Option<&Tree>
        ensures { option_map data_of (option_copied result) ≡ self.now.at }
    {
        match &self.current {
            Some(current) => Some(&current.tree),
            None => None,
        }
    }
}
