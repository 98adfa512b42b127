//! Macros.
ghost use Rattle.std.specs.Prelude.{◌≡◌, ◌∷◌, IfOk};
ghost use Rattle.cel_value.specs.View.{value_of};
ghost use Rattle.cel_eval.specs.Outcome.{bind};
ghost use Rattle.cel_eval.specs.Ranges.{all_of, any_of, count_of, filtered, mapped, over, over_range};
ghost use Rattle.cel_eval.specs.Eval.{eval as eval_of};
ghost use Rattle.cel_eval.specs.View.{outcome_of, bindings_of};

use crate::answer::{Answer, failed, verdict};
use crate::env::Env;
use crate::evaluating::eval_part;
use crate::making::{keys_of, list_of};
use crate::stop::{Fault, Stop};
use crate::truth::Truth;
use cel_ast::{Macro, Part, Text};
use cel_value::{Value, Values};
use std::alloc::{AllocError, Global};

/// A macro over what an expression gave.
#[cycle(eval)]
pub(crate) fn eval_macro<'a, 'b>(
    alloc: Global,
    kind: Macro,
    body: &'b Part,
    name: &'b Text,
    range: &'b Answer<'b>,
    env: &'b Env<'b>,
) -> Result<Answer<'a>, AllocError>
    ensures { IfOk result (λ a. outcome_of a ≡ bind (outcome_of range.now) (over_range (over kind (λ v. eval_of body.now ((name.now, v) ∷ bindings_of env.now))))) }
{
    match range.value() {
        Ok(value) => eval_range(alloc, kind, &*body, &*name, value, &*env),
        Err(stop) => Ok(Answer::Stopped(stop)),
    }
}

/// A macro over a value: over the items of a list, or the keys of a map.
#[cycle(eval)]
fn eval_range<'a, 'b>(
    alloc: Global,
    kind: Macro,
    body: &'b Part,
    name: &'b Text,
    range: &'b Value,
    env: &'b Env<'b>,
) -> Result<Answer<'a>, AllocError>
    ensures { IfOk result (λ a. outcome_of a ≡ over_range (over kind (λ v. eval_of body.now ((name.now, v) ∷ bindings_of env.now))) (value_of range.now)) }
{
    match range {
        Value::List(values) => eval_over(alloc, kind, &*body, &*name, &*values, &*env),
        Value::Map(entries) => {
            let keys = keys_of(alloc, entries)?;
            eval_over(alloc, kind, &*body, &*name, &keys, &*env)
        }
        _ => Ok(failed(Fault::NoOverload)),
    }
}

/// A macro over items.
#[cycle(eval)]
fn eval_over<'a, 'b>(
    alloc: Global,
    kind: Macro,
    body: &'b Part,
    name: &'b Text,
    values: &'b Values,
    env: &'b Env<'b>,
) -> Result<Answer<'a>, AllocError>
    ensures { IfOk result (λ a. outcome_of a ≡ over kind (λ v. eval_of body.now ((name.now, v) ∷ bindings_of env.now)) values.now) }
{
    match kind {
        Macro::All => Ok(eval_all(alloc, &*body, &*name, &*values, &*env)?.answer()),
        Macro::Exists => Ok(eval_exists(alloc, &*body, &*name, &*values, &*env)?.answer()),
        Macro::ExistsOne => Ok(match eval_count(alloc, &*body, &*name, &*values, &*env)? {
            Ok(count) => verdict(count == 1),
            Err(stop) => Answer::Stopped(stop),
        }),
        Macro::Filter => Ok(list_of(eval_filter(alloc, &*body, &*name, &*values, &*env)?)),
        Macro::Map => Ok(list_of(eval_map(alloc, &*body, &*name, &*values, &*env)?)),
    }
}

/// `all`, up to the first item where the body is false.
#[cycle(eval)]
fn eval_all<'b>(
    alloc: Global,
    body: &'b Part,
    name: &'b Text,
    values: &'b Values,
    env: &'b Env<'b>,
) -> Result<Truth, AllocError>
    ensures { IfOk result (λ t. t ≡ all_of (λ v. eval_of body.now ((name.now, v) ∷ bindings_of env.now)) values.now) }
{
    let mut found = Truth::Yes;
    for item in &values.values {
        found = found.and(eval_part(alloc, &*body, &Env::Bound(&*name, &*item, &*env))?.truth());
        if let Truth::No = found {
            return Ok(Truth::No);
        }
    }
    Ok(found)
}

/// `exists`, up to the first item where the body is true.
#[cycle(eval)]
fn eval_exists<'b>(
    alloc: Global,
    body: &'b Part,
    name: &'b Text,
    values: &'b Values,
    env: &'b Env<'b>,
) -> Result<Truth, AllocError>
    ensures { IfOk result (λ t. t ≡ any_of (λ v. eval_of body.now ((name.now, v) ∷ bindings_of env.now)) values.now) }
{
    let mut found = Truth::No;
    for item in &values.values {
        found = found.or(eval_part(alloc, &*body, &Env::Bound(&*name, &*item, &*env))?.truth());
        if let Truth::Yes = found {
            return Ok(Truth::Yes);
        }
    }
    Ok(found)
}

/// At how many items the body is true, up to the first stop.
#[cycle(eval)]
fn eval_count<'b>(
    alloc: Global,
    body: &'b Part,
    name: &'b Text,
    values: &'b Values,
    env: &'b Env<'b>,
) -> Result<Result<usize, Stop>, AllocError>
    ensures { IfOk result (λ n. n ≡ count_of (λ v. eval_of body.now ((name.now, v) ∷ bindings_of env.now)) values.now) }
{
    let mut count = 0;
    for item in &values.values {
        match eval_part(alloc, &*body, &Env::Bound(&*name, &*item, &*env))?.truth() {
            Truth::Yes => count += 1,
            Truth::No => {}
            Truth::Neither(stop) => return Ok(Err(stop)),
        }
    }
    Ok(Ok(count))
}

/// The items where the body is true.
#[cycle(eval)]
fn eval_filter<'b>(
    alloc: Global,
    body: &'b Part,
    name: &'b Text,
    values: &'b Values,
    env: &'b Env<'b>,
) -> Result<Result<Values, Stop>, AllocError>
    ensures { IfOk result (λ vs. vs ≡ filtered (λ v. eval_of body.now ((name.now, v) ∷ bindings_of env.now)) values.now) }
{
    let mut made = Vec::new(alloc);
    for item in &values.values {
        match eval_part(alloc, &*body, &Env::Bound(&*name, &*item, &*env))?.truth() {
            Truth::Yes => made.push(item.copy(alloc)?)?,
            Truth::No => {}
            Truth::Neither(stop) => return Ok(Err(stop)),
        }
    }
    Ok(Ok(Values { values: made }))
}

/// The body at each item.
#[cycle(eval)]
fn eval_map<'b>(
    alloc: Global,
    body: &'b Part,
    name: &'b Text,
    values: &'b Values,
    env: &'b Env<'b>,
) -> Result<Result<Values, Stop>, AllocError>
    ensures { IfOk result (λ vs. vs ≡ mapped (λ v. eval_of body.now ((name.now, v) ∷ bindings_of env.now)) values.now) }
{
    let mut made = Vec::new(alloc);
    for item in &values.values {
        match eval_part(alloc, &*body, &Env::Bound(&*name, &*item, &*env))?.into_value(alloc)? {
            Ok(value) => made.push(value)?,
            Err(stop) => return Ok(Err(stop)),
        }
    }
    Ok(Ok(Values { values: made }))
}
