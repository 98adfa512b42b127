//! Arithmetic on integers.
ghost use Rattle.std.specs.Prelude.{◌≡◌, ◌+ℤ◌, ◌-ℤ◌, ◌*ℤ◌, int_div, int_rem};
ghost use Rattle.cel_value.specs.View.{value_of};
ghost use Rattle.cel_eval.specs.Outcome.{number};
ghost use Rattle.cel_eval.specs.Operators.{calculated, divided};
ghost use Rattle.cel_eval.specs.Internal.Numbers.{checked};
ghost use Rattle.cel_eval.specs.View.{outcome_of};

use crate::answer::{Answer, failed};
use crate::stop::Fault;
use cel_value::Value;

/// An integer, or that it needs more than 64 bits.
pub(crate) fn integer<'a>(found: Option<i64>) -> Answer<'a>
    ensures { outcome_of result ≡ checked found }
{
    match found {
        Some(n) => Answer::Made(Value::Int(n)),
        None => failed(Fault::Overflow),
    }
}

pub(crate) fn added<'a>(a: i64, b: i64) -> Answer<'a>
    ensures { outcome_of result ≡ number (a +ℤ b) }
{
    integer(a.checked_add(b))
}

pub(crate) fn difference<'a>(left: &Value, right: &Value) -> Answer<'a>
    ensures { outcome_of result ≡ calculated (λ x y. number (x -ℤ y)) (value_of left.now) (value_of right.now) }
{
    match (left, right) {
        (Value::Int(a), Value::Int(b)) => subtracted(*a, *b),
        _ => failed(Fault::NoOverload),
    }
}

fn subtracted<'a>(a: i64, b: i64) -> Answer<'a>
    ensures { outcome_of result ≡ number (a -ℤ b) }
{
    integer(a.checked_sub(b))
}

pub(crate) fn product<'a>(left: &Value, right: &Value) -> Answer<'a>
    ensures { outcome_of result ≡ calculated (λ x y. number (x *ℤ y)) (value_of left.now) (value_of right.now) }
{
    match (left, right) {
        (Value::Int(a), Value::Int(b)) => multiplied(*a, *b),
        _ => failed(Fault::NoOverload),
    }
}

fn multiplied<'a>(a: i64, b: i64) -> Answer<'a>
    ensures { outcome_of result ≡ number (a *ℤ b) }
{
    integer(a.checked_mul(b))
}

pub(crate) fn quotient<'a>(left: &Value, right: &Value) -> Answer<'a>
    ensures { outcome_of result ≡ calculated (divided int_div) (value_of left.now) (value_of right.now) }
{
    match (left, right) {
        (Value::Int(a), Value::Int(b)) => divided_by(*a, *b),
        _ => failed(Fault::NoOverload),
    }
}

fn divided_by<'a>(a: i64, b: i64) -> Answer<'a>
    ensures { outcome_of result ≡ divided int_div a b }
{
    if b == 0 {
        failed(Fault::DivisionByZero)
    } else {
        integer(a.checked_div(b))
    }
}

pub(crate) fn remainder<'a>(left: &Value, right: &Value) -> Answer<'a>
    ensures { outcome_of result ≡ calculated (divided int_rem) (value_of left.now) (value_of right.now) }
{
    match (left, right) {
        (Value::Int(a), Value::Int(b)) => rest_by(*a, *b),
        _ => failed(Fault::NoOverload),
    }
}

fn rest_by<'a>(a: i64, b: i64) -> Answer<'a>
    ensures { outcome_of result ≡ divided int_rem a b }
{
    if b == 0 {
        failed(Fault::DivisionByZero)
    } else {
        integer(a.checked_rem(b))
    }
}
