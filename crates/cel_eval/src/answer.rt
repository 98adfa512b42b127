//! Answers: values and stops.
ghost use Rattle.std.specs.Prelude.{◌≡◌, IfOk, MatchResult};
ghost use Rattle.cel_value.specs.View.{value_of};
ghost use Rattle.cel_eval.specs.Outcome.{value, stopped, error, not_judged, answer};
ghost use Rattle.cel_eval.specs.Truth.{truth};
ghost use Rattle.cel_eval.specs.View.{outcome_of};

use crate::stop::{Fault, Reason, Stop};
use crate::truth::Truth;
use cel_value::Value;
use std::alloc::{AllocError, Global};

/// What an expression gives.
#[derive(Drop)]
pub enum Answer<'a> {
    /// A value that is part of a bound one.
    Lent(&'a Value),
    /// A value that was made.
    Made(Value),
    /// No value.
    Stopped(Stop),
}

impl Answer<'_> {
    /// The value, or why there is none.
    pub(crate) fn value(&self) -> Result<&Value, Stop>
        ensures { MatchResult result (λ v. outcome_of self.now ≡ value (value_of v.now)) (λ s. outcome_of self.now ≡ stopped s) }
    {
        match self {
            Answer::Lent(value) => Ok(value),
            Answer::Made(value) => Ok(value),
            Answer::Stopped(stop) => Err(*stop),
        }
    }

    /// What it is as a truth value.
    pub(crate) fn truth(&self) -> Truth
        ensures { result ≡ truth (outcome_of self.now) }
    {
        match self.value() {
            Ok(value) => Truth::of(value),
            Err(stop) => Truth::Neither(stop),
        }
    }

    /// The value, which is copied where it is lent, or why there is none. `AllocError` where an allocation fails.
    pub(crate) fn into_value(self, alloc: Global) -> Result<Result<Value, Stop>, AllocError>
        ensures { IfOk result (λ r. MatchResult r (λ v. outcome_of self.entry ≡ value (value_of v)) (λ s. outcome_of self.entry ≡ stopped s)) }
    {
        match self {
            Answer::Lent(value) => Ok(Ok(value.copy(alloc)?)),
            Answer::Made(value) => Ok(Ok(value)),
            Answer::Stopped(stop) => Ok(Err(stop)),
        }
    }
}

pub(crate) fn failed<'a>(fault: Fault) -> Answer<'a>
    ensures { outcome_of result ≡ error fault }
{
    Answer::Stopped(Stop::Error(fault))
}

pub(crate) fn not_judged<'a>(reason: Reason) -> Answer<'a>
    ensures { outcome_of result ≡ not_judged reason }
{
    Answer::Stopped(Stop::NotJudged(reason))
}

pub(crate) fn verdict<'a>(holds: bool) -> Answer<'a>
    ensures { outcome_of result ≡ answer holds }
{
    Answer::Made(Value::Bool(holds))
}
