//! Evaluation.
ghost use Rattle.std.specs.Prelude.{◌≡◌, ◌∷◌, IfOk};
ghost use Rattle.cel_ast.specs.View.{syntax_of, key_of as syntax_key_of};
ghost use Rattle.cel_eval.specs.Operators.{binary_of};
ghost use Rattle.cel_eval.specs.Making.{pair_of, required};
ghost use Rattle.cel_eval.specs.Eval.{eval as eval_of, eval_elements as elements_of, eval_entries as entries_of, eval_key as key_is};
ghost use Rattle.cel_eval.specs.Internal.Views.{key_found, pair_found};
ghost use Rattle.cel_eval.specs.View.{outcome_of, bindings_of};

use crate::access::{field, presence};
use crate::answer::{Answer, not_judged};
use crate::apply::apply_binary;
use crate::env::Env;
use crate::making::{constant, key_from, list_of, map_of};
use crate::ranges::eval_macro;
use crate::stop::{Reason, Stop};
use crate::truth::Truth;
use crate::unary::apply_unary;
use cel_ast::{Binary, Elements, Entries, Entry, Expr, Key, Macro, Part};
use cel_value::{Entries as ValueEntries, Entry as ValueEntry, Key as ValueKey, Values};
use std::alloc::{AllocError, Global};

/// What the expression gives where the names have these values: a value, an error, or that it is not judged. A macro over a map visits its keys in
/// the order of its entries. `AllocError` where an allocation fails.
#[cycle(eval)]
pub fn eval<'a>(alloc: Global, expr: &Expr, env: &Env<'a>) -> Result<Answer<'a>, AllocError>
    ensures { IfOk result (λ a. outcome_of a ≡ eval_of (syntax_of expr.now) (bindings_of env.now)) }
{
    match expr {
        Expr::Literal(literal) => constant(alloc, literal),
        Expr::Name(name) => Ok(env.find(name)),
        Expr::Select(whole, name) => {
            let whole = eval_part(alloc, whole, env)?;
            field(alloc, whole, name)
        }
        Expr::OptionalSelect(_, _) => Ok(not_judged(Reason::Optional)),
        Expr::Present(whole, name) => {
            let whole = eval_part(alloc, whole, env)?;
            Ok(presence(&whole, name))
        }
        Expr::Call(_, _) => Ok(not_judged(Reason::Function)),
        Expr::Method(_, _, _) => Ok(not_judged(Reason::Function)),
        Expr::List(elements) => Ok(list_of(eval_elements(alloc, elements, env)?)),
        Expr::Map(entries) => Ok(map_of(eval_entries(alloc, entries, env)?)),
        Expr::Message(_, _) => Ok(not_judged(Reason::Message)),
        Expr::Unary(operator, part) => {
            let operand = eval_part(alloc, part, env)?;
            Ok(match operand.value() {
                Ok(value) => apply_unary(*operator, value),
                Err(stop) => Answer::Stopped(stop),
            })
        }
        Expr::Binary(operator, left, right) => {
            let left = eval_part(alloc, left, env)?;
            eval_binary(alloc, *operator, right, left, env)
        }
        Expr::Choice(condition, yes, no) => match eval_part(alloc, condition, env)?.truth() {
            Truth::Yes => eval_part(alloc, yes, env),
            Truth::No => eval_part(alloc, no, env),
            Truth::Neither(stop) => Ok(Answer::Stopped(stop)),
        },
        Expr::Macro(kind, range, name, body) => {
            let range = eval_part(alloc, range, env)?;
            eval_macro(alloc, *kind, &*body, &*name, &range, &*env)
        }
        Expr::MapWhere(range, name, test, target) => {
            let range = eval_part(alloc, range, env)?;
            let kept = eval_macro(alloc, Macro::Filter, &*test, &*name, &range, &*env)?;
            eval_macro(alloc, Macro::Map, &*target, &*name, &kept, &*env)
        }
    }
}

/// What a part of an expression gives.
#[cycle(eval)]
pub(crate) fn eval_part<'a>(
    alloc: Global,
    part: &Part,
    env: &Env<'a>,
) -> Result<Answer<'a>, AllocError>
    ensures { IfOk result (λ a. outcome_of a ≡ eval_of part.now (bindings_of env.now)) }
{
    eval(alloc, &part.expr, env)
}

/// What an element or the value of an entry gives.
#[cycle(eval)]
fn eval_required<'a>(
    alloc: Global,
    optional: bool,
    part: &Part,
    env: &Env<'a>,
) -> Result<Answer<'a>, AllocError>
    ensures { IfOk result (λ a. outcome_of a ≡ required optional (eval_of part.now (bindings_of env.now))) }
{
    if optional {
        Ok(not_judged(Reason::Optional))
    } else {
        eval_part(alloc, part, env)
    }
}

/// The elements of a list, up to the first stop.
#[cycle(eval)]
fn eval_elements<'a>(
    alloc: Global,
    elements: &Elements,
    env: &Env<'a>,
) -> Result<Result<Values, Stop>, AllocError>
    ensures { IfOk result (λ r. r ≡ elements_of elements.now (bindings_of env.now)) }
{
    let mut made = Vec::new(alloc);
    for element in &elements.elements {
        match eval_required(alloc, element.optional, &element.expr, env)?.into_value(alloc)? {
            Ok(value) => made.push(value)?,
            Err(stop) => return Ok(Err(stop)),
        }
    }
    Ok(Ok(Values { values: made }))
}

/// The entries of a map, up to the first stop.
#[cycle(eval)]
fn eval_entries<'a>(
    alloc: Global,
    entries: &Entries,
    env: &Env<'a>,
) -> Result<Result<ValueEntries, Stop>, AllocError>
    ensures { IfOk result (λ r. r ≡ entries_of entries.now (bindings_of env.now)) }
{
    let mut made = Vec::new(alloc);
    for entry in &entries.entries {
        match eval_entry(alloc, entry, env)? {
            Ok(pair) => made.push(pair)?,
            Err(stop) => return Ok(Err(stop)),
        }
    }
    Ok(Ok(ValueEntries { entries: made }))
}

/// An entry of a map.
#[cycle(eval)]
fn eval_entry<'a>(
    alloc: Global,
    entry: &Entry,
    env: &Env<'a>,
) -> Result<Result<ValueEntry, Stop>, AllocError>
    ensures { IfOk result (λ r. pair_found r ≡ pair_of (key_is (syntax_key_of entry.now.key) (bindings_of env.now)) (required entry.now.optional (eval_of entry.now.value (bindings_of env.now)))) }
{
    match eval_key(alloc, &entry.key, env)? {
        Ok(key) => match eval_required(alloc, entry.optional, &entry.value, env)?.into_value(
            alloc,
        )? {
            Ok(value) => Ok(Ok(ValueEntry { key, value })),
            Err(stop) => Ok(Err(stop)),
        },
        Err(stop) => Ok(Err(stop)),
    }
}

/// The key of an entry.
#[cycle(eval)]
fn eval_key<'a>(
    alloc: Global,
    key: &Key,
    env: &Env<'a>,
) -> Result<Result<ValueKey, Stop>, AllocError>
    ensures { IfOk result (λ r. key_found r ≡ key_is (syntax_key_of key.now) (bindings_of env.now)) }
{
    match key {
        Key::Expr(part) => {
            let answer = eval_part(alloc, part, env)?;
            key_from(alloc, &answer)
        }
        Key::Field(_) => Ok(Err(Stop::NotJudged(Reason::Message))),
    }
}

/// An operator on two operands. `&&` and `||` ask for the second only where the first does not decide.
#[cycle(eval)]
fn eval_binary<'a>(
    alloc: Global,
    operator: Binary,
    right: &Part,
    left: Answer<'a>,
    env: &Env<'a>,
) -> Result<Answer<'a>, AllocError>
    ensures { IfOk result (λ a. outcome_of a ≡ binary_of operator (outcome_of left.entry) (eval_of right.now (bindings_of env.now))) }
{
    match operator {
        Binary::Or => {
            let left = left.truth();
            if let Truth::Yes = left {
                return Ok(Truth::Yes.answer());
            }
            let right = eval_part(alloc, right, env)?;
            Ok(left.or(right.truth()).answer())
        }
        Binary::And => {
            let left = left.truth();
            if let Truth::No = left {
                return Ok(Truth::No.answer());
            }
            let right = eval_part(alloc, right, env)?;
            Ok(left.and(right.truth()).answer())
        }
        _ => {
            if let Answer::Stopped(stop) = left {
                return Ok(Answer::Stopped(stop));
            }
            let right = eval_part(alloc, right, env)?;
            match right.value() {
                Ok(value) => apply_binary(alloc, operator, left, value),
                Err(stop) => Ok(Answer::Stopped(stop)),
            }
        }
    }
}
