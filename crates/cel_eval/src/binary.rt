//! `+` and `in`.
ghost use Rattle.std.specs.Prelude.{◌≡◌, ◌++◌, IfOk};
ghost use Rattle.cel_value.specs.View.{value_of};
ghost use Rattle.cel_eval.specs.Operators.{joined as joined_of, sum_of, is_item as is_item_of, is_in};
ghost use Rattle.cel_eval.specs.View.{outcome_of};

use crate::access::value_under;
use crate::answer::{Answer, failed, verdict};
use crate::calculating::added;
use crate::stop::Fault;
use cel_ast::Text;
use cel_value::{Value, Values};
use std::alloc::{AllocError, Global};

/// `left + right`
pub(crate) fn sum<'a>(alloc: Global, left: &Value, right: &Value) -> Result<Answer<'a>, AllocError>
    ensures { IfOk result (λ a. outcome_of a ≡ sum_of (value_of left.now) (value_of right.now)) }
{
    match (left, right) {
        (Value::Int(a), Value::Int(b)) => Ok(added(*a, *b)),
        (Value::String(a), Value::String(b)) => Ok(Answer::Made(Value::String(text_sum(
            alloc, a, b,
        )?))),
        (Value::List(a), Value::List(b)) => Ok(Answer::Made(Value::List(joined(alloc, a, b)?))),
        _ => Ok(failed(Fault::NoOverload)),
    }
}

fn text_sum(alloc: Global, a: &Text, b: &Text) -> Result<Text, AllocError>
    ensures { IfOk result (λ t. t ≡ a.now ++ b.now) }
{
    let mut text = String::from_str(alloc, a.text.as_str())?;
    text.push_str(b.text.as_str())?;
    Ok(Text { text })
}

fn joined(alloc: Global, a: &Values, b: &Values) -> Result<Values, AllocError>
    ensures { IfOk result (λ vs. vs ≡ joined_of a.now b.now) }
{
    let mut values = Vec::new(alloc);
    for item in &a.values {
        values.push(item.copy(alloc)?)?;
    }
    for next in &b.values {
        values.push(next.copy(alloc)?)?;
    }
    Ok(Values { values })
}

/// `left in right`
pub(crate) fn membership<'a>(left: &Value, right: &Value) -> Answer<'a>
    ensures { outcome_of result ≡ is_in (value_of left.now) (value_of right.now) }
{
    match right {
        Value::List(values) => verdict(is_item(left, values)),
        Value::Map(entries) => verdict(value_under(entries, left).is_some()),
        _ => failed(Fault::NoOverload),
    }
}

fn is_item(value: &Value, values: &Values) -> bool
    ensures { result ≡ is_item_of (value_of value.now) values.now }
{
    for item in &values.values {
        if value.is_same(item) {
            return true;
        }
    }
    false
}
