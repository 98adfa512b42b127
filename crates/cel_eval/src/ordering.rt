//! `<` and `<=`.
ghost use Rattle.std.specs.Prelude.{◌≡◌, chars, string_bytes};
ghost use Rattle.std.specs.Ordering.{is_lt, is_le, nat_cmp};
ghost use Rattle.std.specs.Cmp.Lexicographic.{slice_cmp};
ghost use Rattle.cel_value.specs.View.{value_of};
ghost use Rattle.cel_eval.specs.Operators.{order_of as spec_order_of, compared};
ghost use Rattle.cel_eval.specs.View.{outcome_of};

use crate::answer::{Answer, failed, verdict};
use crate::stop::Fault;
use cel_ast::Text;
use cel_value::Value;
use std::cmp::Ordering;

/// `left < right`
pub(crate) fn less<'a>(left: &Value, right: &Value) -> Answer<'a>
    ensures { outcome_of result ≡ compared is_lt (value_of left.now) (value_of right.now) }
{
    match order_of(left, right) {
        Ok(order) => verdict(order.is_lt()),
        Err(fault) => failed(fault),
    }
}

/// `left <= right`
pub(crate) fn less_or_equal<'a>(left: &Value, right: &Value) -> Answer<'a>
    ensures { outcome_of result ≡ compared is_le (value_of left.now) (value_of right.now) }
{
    match order_of(left, right) {
        Ok(order) => verdict(order.is_le()),
        Err(fault) => failed(fault),
    }
}

fn order_of(left: &Value, right: &Value) -> Result<Ordering, Fault>
    ensures { result ≡ spec_order_of (value_of left.now) (value_of right.now) }
{
    match (left, right) {
        (Value::Int(a), Value::Int(b)) => Ok(a.cmp(b)),
        (Value::String(a), Value::String(b)) => Ok(text_order(a, b)),
        (Value::Bool(a), Value::Bool(b)) => Ok(a.cmp(b)),
        _ => Err(Fault::NoOverload),
    }
}

/// The order of two texts by their characters.
fn text_order(a: &Text, b: &Text) -> Ordering
    ensures { result ≡ slice_cmp nat_cmp a.now b.now }
{
    a.text.chars().cmp(b.text.chars())
}
