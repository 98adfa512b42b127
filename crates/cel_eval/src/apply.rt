//! An operator at two answers.
ghost use Rattle.std.specs.Prelude.{◌≡◌, ◌≢◌, IfOk};
ghost use Rattle.cel_ast.specs.declared.operators.Binary.TheVariants.{Index};
ghost use Rattle.cel_value.specs.View.{value_of};
ghost use Rattle.cel_eval.specs.Outcome.{bind};
ghost use Rattle.cel_eval.specs.Operators.{strict_of};
ghost use Rattle.cel_eval.specs.View.{outcome_of};

use crate::access::index;
use crate::answer::{Answer, not_judged, verdict};
use crate::binary::{membership, sum};
use crate::calculating::{difference, product, quotient, remainder};
use crate::ordering::{less, less_or_equal};
use crate::stop::Reason;
use crate::truth::Truth;
use cel_ast::Binary;
use cel_value::Value;
use std::alloc::{AllocError, Global};

/// What an operator gives at two values, or at a stop on the left.
pub(crate) fn apply_binary<'a>(
    alloc: Global,
    operator: Binary,
    left: Answer<'a>,
    right: &Value,
) -> Result<Answer<'a>, AllocError>
    ensures { IfOk result (λ a. outcome_of a ≡ bind (outcome_of left.entry) (λ v. strict_of operator v (value_of right.now))) }
{
    match operator {
        Binary::Index => index(alloc, left, right),
        _ => match left.value() {
            Ok(value) => apply_values(alloc, operator, value, right),
            Err(stop) => Ok(Answer::Stopped(stop)),
        },
    }
}

/// What an operator other than an index gives at two values.
fn apply_values<'a>(
    alloc: Global,
    operator: Binary,
    left: &Value,
    right: &Value,
) -> Result<Answer<'a>, AllocError>
    requires { operator ≢ Index }
    ensures { IfOk result (λ a. outcome_of a ≡ strict_of operator (value_of left.now) (value_of right.now)) }
{
    match operator {
        Binary::Or => Ok(Truth::of(left).or(Truth::of(right)).answer()),
        Binary::And => Ok(Truth::of(left).and(Truth::of(right)).answer()),
        Binary::Equal => Ok(verdict(left.is_same(right))),
        Binary::NotEqual => Ok(verdict(!left.is_same(right))),
        Binary::Less => Ok(less(left, right)),
        Binary::LessOrEqual => Ok(less_or_equal(left, right)),
        Binary::Greater => Ok(less(right, left)),
        Binary::GreaterOrEqual => Ok(less_or_equal(right, left)),
        Binary::In => Ok(membership(left, right)),
        Binary::Add => sum(alloc, left, right),
        Binary::Subtract => Ok(difference(left, right)),
        Binary::Multiply => Ok(product(left, right)),
        Binary::Divide => Ok(quotient(left, right)),
        Binary::Modulo => Ok(remainder(left, right)),
        Binary::Index => unreachable!(),
        Binary::OptionalIndex => Ok(not_judged(Reason::Optional)),
    }
}
