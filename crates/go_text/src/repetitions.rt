//! The counts of repetitions.
ghost use Rattle.std.specs.Prelude.{◌≡◌};
ghost use Rattle.go_text.specs.Repetitions as spec;

use crate::texts::{cut, spells};

/// Whether what stands in braces is `n`, `n,` or `n,m`.
pub(crate) fn is_count(text: &[char]) -> bool
    ensures { result ≡ spec.is_count text.now }
{
    match cut(text, &[',']) {
        None => is_number(text),
        Some((low, high)) => is_number(low) && (high.is_empty() || is_number(high)),
    }
}

/// Whether no number of a count is above 1000.
pub(crate) fn is_small_count(text: &[char]) -> bool
    ensures { result ≡ spec.is_small_count text.now }
{
    match cut(text, &[',']) {
        None => is_small(text),
        Some((low, high)) => is_small(low) && is_small(high),
    }
}

/// Whether the text is a number with no needless zero in front.
fn is_number(text: &[char]) -> bool
    ensures { result ≡ spec.is_number text.now }
{
    are_digits(text) && !text.is_empty() && (text.len() == 1 || !begins_with_zero(text))
}

fn are_digits(text: &[char]) -> bool
    ensures { result ≡ spec.are_digits text.now }
{
    text.iter().all(|c| c.is_ascii_digit())
}

fn begins_with_zero(text: &[char]) -> bool
    ensures { result ≡ spec.begins_with_zero text.now }
{
    matches!(text, ['0', ..])
}

/// Whether a number is at most 1000.
fn is_small(number: &[char]) -> bool
    ensures { result ≡ spec.is_small number.now }
{
    number.len() <= 3 || spells(number, "1000")
}
