//! What characters write: a text, or a number.
ghost use Rattle.std.specs.Prelude.{◌≡◌, ◌≤◌, ◌∷◌, [], ◌++◌, length, true, IfOk, OnOk};
ghost use Rattle.std.specs.Str.Parse.{digits_value};
ghost use Rattle.cel_read.specs.Lexemes.{are_digits};
ghost use Rattle.cel_read.specs.View.{text_of};
ghost use Rattle.cel_read.specs.Internal.Kept.{IsValueOf};

use std::alloc::{AllocError, Global};

/// Digits of a radix.
#[derive(Clone, Copy, Drop)]
pub(crate) struct Numeral<'t> {
    pub(crate) radix: u32,
    pub(crate) digits: &'t [char],
    ghost bounds: { (2 ≤ radix) × (radix ≤ 16) },
    ghost some: { 1 ≤ length digits.now },
    ghost numeral: { are_digits radix digits.now ≡ true },
}

/// Writes a character at the end.
pub(crate) fn push(out: &mut String, c: char) -> Result<(), AllocError>
    ensures { OnOk result (text_of out.new ≡ text_of out.old ++ c ∷ []) }
{
    out.push(c)?;
    Ok(())
}

/// The characters as a text.
pub(crate) fn spelled(alloc: Global, text: &[char]) -> Result<String, AllocError>
    ensures { IfOk result (λ s. text_of s ≡ text.now) }
{
    let mut out = String::new(alloc);
    for c in text {
        push(&mut out, *c)?;
    }
    Ok(out)
}

/// The number that digits write; `None` where it has more than 64 bits.
pub(crate) fn number(alloc: Global, numeral: Numeral<'_>) -> Result<Option<u64>, AllocError>
    ensures { IfOk result (λ value. IsValueOf numeral.entry.radix numeral.entry.digits.now value) }
{
    let text = spelled(alloc, numeral.digits)?;
    match u64::from_str_radix(text.as_str(), numeral.radix) {
        Ok(number) => Ok(Some(number)),
        Err(_) => Ok(None),
    }
}

/// The number that at most eight digits write.
pub(crate) fn short_number(alloc: Global, numeral: Numeral<'_>) -> Result<u32, AllocError>
    requires { length numeral.digits.now ≤ 8 }
    ensures { IfOk result (λ n. n ≡ digits_value numeral.entry.radix numeral.entry.digits.now) }
{
    match number(alloc, numeral)? {
        Some(number) => Ok(number as u32),
        None => Ok(0),
    }
}
