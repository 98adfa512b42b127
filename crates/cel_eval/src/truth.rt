//! Truth values as `&&` and `||` see them.
ghost use Rattle.std.specs.Prelude.{◌≡◌};
ghost use Rattle.cel_value.specs.View.{value_of};
ghost use Rattle.cel_eval.specs.Truth.{both, either, either_stop, opposite, outcome, truth_of};
ghost use Rattle.cel_eval.specs.View.{outcome_of};

use crate::answer::Answer;
use crate::stop::{Fault, Stop};
use cel_value::Value;

/// True, false, or neither.
#[derive(Clone, Copy)]
pub(crate) enum Truth {
    Yes,
    No,
    Neither(Stop),
}

impl Truth {
    /// What a value is: `NoOverload` where it is no boolean.
    pub(crate) fn of(value: &Value) -> Truth
        ensures { result ≡ truth_of (value_of value.now) }
    {
        match value {
            Value::Bool(true) => Truth::Yes,
            Value::Bool(false) => Truth::No,
            _ => Truth::Neither(Stop::Error(Fault::NoOverload)),
        }
    }

    /// `self && other`: false where one of them is, and true where both are. Else the first stop that is not judged, or the first error.
    pub(crate) fn and(self, other: Truth) -> Truth
        ensures { result ≡ both self other }
    {
        match self {
            Truth::No => Truth::No,
            Truth::Yes => other,
            Truth::Neither(stop) => match other {
                Truth::No => Truth::No,
                Truth::Yes => self,
                Truth::Neither(next) => Truth::Neither(first_stop(stop, next)),
            },
        }
    }

    /// `self || other`: true where one of them is, and false where both are. Else the first stop that is not judged, or the first error.
    pub(crate) fn or(self, other: Truth) -> Truth
        ensures { result ≡ either self other }
    {
        match self {
            Truth::Yes => Truth::Yes,
            Truth::No => other,
            Truth::Neither(stop) => match other {
                Truth::Yes => Truth::Yes,
                Truth::No => self,
                Truth::Neither(next) => Truth::Neither(first_stop(stop, next)),
            },
        }
    }

    /// `!self`
    pub(crate) fn not(self) -> Truth
        ensures { result ≡ opposite self }
    {
        match self {
            Truth::Yes => Truth::No,
            Truth::No => Truth::Yes,
            Truth::Neither(_) => self,
        }
    }

    /// What it is as an answer.
    pub(crate) fn answer<'a>(self) -> Answer<'a>
        ensures { outcome_of result ≡ outcome self }
    {
        match self {
            Truth::Yes => Answer::Made(Value::Bool(true)),
            Truth::No => Answer::Made(Value::Bool(false)),
            Truth::Neither(stop) => Answer::Stopped(stop),
        }
    }
}

/// Of two stops, the first that is not judged, and else the first.
fn first_stop(stop: Stop, next: Stop) -> Stop
    ensures { result ≡ either_stop stop next }
{
    match (stop, next) {
        (Stop::Error(_), Stop::NotJudged(_)) => next,
        _ => stop,
    }
}
