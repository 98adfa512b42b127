//! Numbers of values and of schemas, as the API server compares them.
ghost use lib.Ieee.{lt, le};
ghost use Rattle.std.specs.Prelude.{◌≡◌, option_and_then, int_lt, int_le, if◌then◌else◌};
ghost use Rattle.jtree.specs.Path.{member_at};
ghost use Rattle.jtree.specs.View.{data_of};
ghost use Rattle.judge.specs.Keywords.{is_true, as_float, cut as cut_of, whole_part as whole_part_of, is_safe as is_safe_of};
ghost use Rattle.judge.specs.Keywords.{is_near_whole as is_near_whole_of, is_whole as is_whole_of, is_above as is_above_of, is_below as is_below_of};
ghost use Rattle.judge.specs.Keywords.{is_integer_multiple as is_integer_multiple_of, is_float_multiple as is_float_multiple_of};
ghost use Rattle.judge.specs.Keywords.{quotient as quotient_of, is_multiple as is_multiple_of, passes_minimum as passes_minimum_of};
ghost use Rattle.judge.specs.Keywords.{passes_maximum as passes_maximum_of, passes_multiple as passes_multiple_of};

use jtree::{Members, Tree};
use std::num::{nearest_i64_to_f64, saturating_f64_to_i64};

/// The nearest float of a number.
fn float_of(tree: &Tree) -> Option<f64>
    ensures { result ≡ as_float (data_of tree.now) }
{
    match tree {
        Tree::Int(n) => Some(nearest_i64_to_f64(*n)),
        Tree::Number(number) => Some(number.value()),
        _ => None,
    }
}

/// The float of a number under a name.
fn float_under(schema: &Members, name: &str) -> Option<f64>
    ensures { result ≡ option_and_then as_float (member_at name.now schema.now) }
{
    match schema.get(name) {
        Some(tree) => float_of(tree),
        None => None,
    }
}

/// Whether a name is there and its value is true.
pub(crate) fn is_true_under(schema: &Members, name: &str) -> bool
    ensures { result ≡ is_true (member_at name.now schema.now) }
{
    match schema.get(name) {
        Some(Tree::Bool(value)) => *value,
        _ => false,
    }
}

/// A float cut to an integer of 64 bits, where one that is too large gives the least integer.
pub(crate) fn cut(x: f64) -> i64
    ensures { result ≡ cut_of x }
{
    let whole = saturating_f64_to_i64(x);
    if whole == i64::MAX { i64::MIN } else { whole }
}

fn whole_part(x: f64) -> f64
    ensures { result ≡ whole_part_of x }
{
    nearest_i64_to_f64(saturating_f64_to_i64(x))
}

/// Whether a float is at most 2^53 - 1 in size.
fn is_safe(x: f64) -> bool
    ensures { result ≡ is_safe_of x }
{
    nearest_i64_to_f64(-9007199254740991) <= x && x <= nearest_i64_to_f64(9007199254740991)
}

/// Whether a float is positive and its fraction is less than 10^-9 of its double.
fn is_near_whole(x: f64) -> bool
    ensures { result ≡ is_near_whole_of x }
{
    let least = nearest_i64_to_f64(1) / nearest_i64_to_f64(1000000000);
    let whole = whole_part(x);
    0 < saturating_f64_to_i64(x) && (x - whole) / (x + whole) < least
}

/// Whether a float counts as an integer.
pub(crate) fn is_whole(x: f64) -> bool
    ensures { result ≡ is_whole_of x }
{
    is_safe(x) && (x == whole_part(x) || is_near_whole(x))
}

/// Whether a value is a number above a bound, or none.
fn is_above(bound: Option<f64>, exclusive: bool, value: &Tree) -> bool
    ensures { result ≡ is_above_of bound exclusive (data_of value.now) }
{
    match (bound, value) {
        (Some(least), Tree::Int(number)) => is_above_integer(cut(least), exclusive, *number),
        (Some(least), Tree::Number(number)) => is_above_float(least, exclusive, number.value()),
        _ => true,
    }
}

fn is_above_integer(least: i64, exclusive: bool, number: i64) -> bool
    ensures { result ≡ (if exclusive then int_lt least number else int_le least number) }
{
    if exclusive {
        least < number
    } else {
        least <= number
    }
}

fn is_above_float(least: f64, exclusive: bool, number: f64) -> bool
    ensures { result ≡ (if exclusive then lt least number else le least number) }
{
    if exclusive {
        least < number
    } else {
        least <= number
    }
}

/// Whether a value is a number below a bound, or none.
fn is_below(bound: Option<f64>, exclusive: bool, value: &Tree) -> bool
    ensures { result ≡ is_below_of bound exclusive (data_of value.now) }
{
    match (bound, value) {
        (Some(most), Tree::Int(number)) => is_above_integer(*number, exclusive, cut(most)),
        (Some(most), Tree::Number(number)) => is_above_float(number.value(), exclusive, most),
        _ => true,
    }
}

/// Whether a value is no number below the schema's `minimum`: an integer is compared with the bound cut to an integer, any other number with
/// the nearest float of the bound.
pub fn passes_minimum(schema: &Members, value: &Tree) -> bool
    ensures { result ≡ passes_minimum_of schema.now (data_of value.now) }
{
    match float_under(schema, "minimum") {
        Some(least) => is_above(
            Some(least),
            is_true_under(schema, "exclusiveMinimum"),
            value,
        ),
        None => true,
    }
}

/// Whether a value is no number above the schema's `maximum`, compared as in `passes_minimum`.
pub fn passes_maximum(schema: &Members, value: &Tree) -> bool
    ensures { result ≡ passes_maximum_of schema.now (data_of value.now) }
{
    match float_under(schema, "maximum") {
        Some(most) => is_below(Some(most), is_true_under(schema, "exclusiveMaximum"), value),
        None => true,
    }
}

fn is_integer_multiple(factor: i64, number: i64) -> bool
    ensures { result ≡ is_integer_multiple_of factor number }
{
    0 < factor && number % factor == 0
}

fn quotient(factor: f64, x: f64) -> f64
    ensures { result ≡ quotient_of factor x }
{
    let one = nearest_i64_to_f64(1);
    if factor < one {
        one / factor * x
    } else {
        x / factor
    }
}

fn is_float_multiple(factor: f64, x: f64) -> bool
    ensures { result ≡ is_float_multiple_of factor x }
{
    nearest_i64_to_f64(0) <= factor && is_whole(quotient(factor, x))
}

fn is_multiple(factor: Option<f64>, value: &Tree) -> bool
    ensures { result ≡ is_multiple_of factor (data_of value.now) }
{
    match (factor, value) {
        (Some(factor), Tree::Int(number)) => is_integer_multiple(cut(factor), *number),
        (Some(factor), Tree::Number(number)) => is_float_multiple(factor, number.value()),
        _ => true,
    }
}

pub(crate) fn passes_multiple(schema: &Members, value: &Tree) -> bool
    ensures { result ≡ passes_multiple_of schema.now (data_of value.now) }
{
    is_multiple(float_under(schema, "multipleOf"), value)
}
