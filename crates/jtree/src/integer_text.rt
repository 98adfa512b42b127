//! From the text of a number to a tree: an integer, or another number.
ghost use Rattle.std.specs.Prelude.{◌≡◌, ◌⊎◌, ◌^◌, ◌&&◌, pos, nat_lt, if◌then◌else◌, true, false, None, Some, IfOk, IfErr, option_map};
ghost use Rattle.json.specs.Print.{IsNumber};
ghost use Rattle.serde_json.specs.Data.{unsigned};
ghost use Rattle.serde_json.specs.Find.{as_i64};
ghost use Rattle.serde_json.specs.Read.{number_of, number_from, float_of};
ghost use Rattle.fast_float.specs.Text.{whole_of};
ghost use Rattle.jtree.specs.Integers.{integer_of, small_whole, is_whole};
ghost use Rattle.jtree.specs.ReadsAll.{number_tree};
ghost use Rattle.jtree.specs.View.{data_of};
ghost use Rattle.jtree.specs.declared.fault.JFault.TheVariants.{NoMemory, NotJson};

use crate::fault::JFault;
use crate::number::{Number, has_minus};
use crate::value::{Text, Tree};
use fast_float::Numeral;
use json::is_number;
use std::alloc::Global;

/// The tree that a number is by its text: an integer of 64 bits, or another number.
///
/// `NotJson` where it is beyond the range of floats, `NoMemory` where an allocation fails.
pub(crate) fn number_from_text(alloc: Global, text: &str) -> Result<Tree, JFault>
    ensures ok { IfOk result (λ t. option_map (λ n. number_tree text.now (integer_of text.now n)) (number_of text.now) ≡ Some (data_of t)) }
    ensures not_json { IfErr result (λ e. e ≡ NotJson → IsNumber text.now → number_of text.now ≡ None) }
    ensures err { IfErr result (λ e. (e ≡ NotJson) ⊎ (e ≡ NoMemory)) }
{
    match read_integer(text) {
        None => Err(JFault::NotJson),
        Some(Some(n)) => Ok(Tree::Int(n)),
        Some(None) => Ok(Tree::Number(other_number(alloc, text)?)),
    }
}

/// A number that is not an integer. `NotJson` where the text is not a number by the grammar of JSON; that of a document always is.
fn other_number(alloc: Global, text: &str) -> Result<Number, JFault>
    requires { option_map (integer_of text.now) (number_of text.now) ≡ Some None }
    ensures ok { IfOk result (λ n. n ≡ text.now) }
    ensures not_json { IfErr result (λ e. e ≡ NotJson → IsNumber text.now → ⊥) }
    ensures err { IfErr result (λ e. (e ≡ NotJson) ⊎ (e ≡ NoMemory)) }
{
    if !is_number(text) {
        return Err(JFault::NotJson);
    }
    Ok(Number {
        text: Text::from_str(alloc, text)?,
    })
}

/// The integer that a number is, if it is one. `None` where it is beyond the range of floats.
fn read_integer(text: &str) -> Option<Option<i64>>
    ensures { result ≡ option_map (integer_of text.now) (number_of text.now) }
{
    match held_integer(text) {
        Some(None) => Some(whole_integer(text)),
        held => held,
    }
}

/// The integer that a number is by its digits, where it is less than 2^53 in size.
fn whole_integer(text: &str) -> Option<i64>
    ensures { result ≡ small_whole text.now }
{
    let bytes = text.as_bytes();
    if has_minus(bytes) {
        match small_whole(&Numeral::scan(&bytes[1..])) {
            Some(n) => Some(-n),
            None => None,
        }
    } else {
        small_whole(&Numeral::scan(bytes))
    }
}

/// The integer that a number without a sign is by its digits, where it is less than 2^53.
fn small_whole(numeral: &Numeral<'_>) -> Option<i64>
    ensures { result ≡ (if is_whole numeral.now && nat_lt (whole_of numeral.now) (2 ^ 53) then Some (pos (whole_of numeral.now)) else None) }
{
    match numeral.whole_u64() {
        Some(n) if n < 1 << 53 => Some(n as i64),
        _ => None,
    }
}

/// The integer of 64 bits that `serde_json` holds a number as, if it holds it so. `None` where the number is beyond the range of floats.
fn held_integer(text: &str) -> Option<Option<i64>>
    ensures { result ≡ option_map as_i64 (number_of text.now) }
{
    let bytes = text.as_bytes();
    if has_minus(bytes) {
        integer_below_zero(&Numeral::scan(&bytes[1..]))
    } else {
        integer_from_zero(&Numeral::scan(bytes))
    }
}

fn integer_from_zero(numeral: &Numeral<'_>) -> Option<Option<i64>>
    ensures { result ≡ option_map as_i64 (number_from false numeral.now) }
{
    match numeral.to_u64() {
        Some(n) => Some(integer_within(n)),
        None => no_integer(false, numeral),
    }
}

fn integer_within(n: u64) -> Option<i64>
    ensures { result ≡ as_i64 (unsigned n) }
{
    if n <= i64::MAX as u64 {
        Some(n as i64)
    } else {
        None
    }
}

fn integer_below_zero(numeral: &Numeral<'_>) -> Option<Option<i64>>
    ensures { result ≡ option_map as_i64 (number_from true numeral.now) }
{
    if let Some(n) = numeral.to_i64(true) {
        if n < 0 {
            return Some(Some(n));
        }
    }
    no_integer(true, numeral)
}

/// A number that `serde_json` holds as a float, and not where it is beyond the range of floats.
fn no_integer(negative: bool, numeral: &Numeral<'_>) -> Option<Option<i64>>
    ensures { result ≡ option_map as_i64 (float_of negative numeral.now) }
{
    if numeral.to_float::<f64>(negative).is_finite() {
        Some(None)
    } else {
        None
    }
}
