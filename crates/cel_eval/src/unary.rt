//! Operators on one value.
ghost use Rattle.std.specs.Prelude.{◌≡◌, neg_ℤ};
ghost use Rattle.cel_value.specs.View.{value_of};
ghost use Rattle.cel_eval.specs.Outcome.{number};
ghost use Rattle.cel_eval.specs.Operators.{negative, unary_of};
ghost use Rattle.cel_eval.specs.View.{outcome_of};

use crate::answer::{Answer, failed};
use crate::calculating::integer;
use crate::stop::Fault;
use crate::truth::Truth;
use cel_ast::Unary;
use cel_value::Value;

/// What the operator gives at a value.
pub(crate) fn apply_unary<'a>(operator: Unary, value: &Value) -> Answer<'a>
    ensures { outcome_of result ≡ unary_of operator (value_of value.now) }
{
    match operator {
        Unary::Not => Truth::of(value).not().answer(),
        Unary::Negate => negated(value),
    }
}

fn negated<'a>(value: &Value) -> Answer<'a>
    ensures { outcome_of result ≡ negative (value_of value.now) }
{
    match value {
        Value::Int(n) => opposite(*n),
        _ => failed(Fault::NoOverload),
    }
}

fn opposite<'a>(n: i64) -> Answer<'a>
    ensures { outcome_of result ≡ number (neg_ℤ n) }
{
    integer(n.checked_neg())
}
