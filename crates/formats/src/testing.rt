//! Whether a text is of a format.
ghost use Rattle.std.specs.Prelude.{◌≡◌, IfOk};
ghost use Rattle.formats.specs.Formats as spec;
ghost use Rattle.formats.specs.Formats.{matches_any, is_plain, is_email, is_duration};
ghost use Rattle.formats.specs.View.{texts_at};

use crate::addresses::has_groups;
use crate::days::names_day;
use crate::digits::{has_card_check, has_ean_check, has_isbn_check};
use crate::expressions::{
    ADDRESS, BEGINS_WITH_ADDRESS, GO_DURATION, NAMED_ADDRESS, TOO_LARGE, WITH_UNIT, expressions_of,
};
use crate::format::Format;
use crate::{durations, hostnames};
use std::alloc::AllocError;
use text_tests::TextTests;

/// Whether a text is of a format, by these tests of patterns (OpenAPI 3.0, `format`; the API server's tests of formats). `Err` where one of
/// the tests answers it.
pub fn is_of<T: TextTests>(tests: &mut T, format: Format, text: &str) -> Result<bool, AllocError>
    ensures { IfOk result (λ yes. yes ≡ spec.is_of T.matches format text.now) }
{
    match format {
        Format::Password => Ok(true),
        Format::Isbn => is_isbn(tests, text),
        Format::Email => is_email(tests, text),
        Format::Duration => is_duration(tests, text),
        _ => is_plain(tests, format, text),
    }
}

fn is_isbn<T: TextTests>(tests: &mut T, text: &str) -> Result<bool, AllocError>
    ensures { IfOk result (λ yes. yes ≡ spec.is_isbn T.matches text.now) }
{
    if is_plain(tests, Format::Isbn10, text)? {
        return Ok(true);
    }
    is_plain(tests, Format::Isbn13, text)
}

fn is_email<T: TextTests>(tests: &mut T, text: &str) -> Result<bool, AllocError>
    ensures { IfOk result (λ yes. yes ≡ is_email T.matches text.now) }
{
    if tests.test(ADDRESS, text)? {
        return Ok(true);
    }
    if !tests.test(NAMED_ADDRESS, text)? {
        return Ok(false);
    }
    let begins = tests.test(BEGINS_WITH_ADDRESS, text)?;
    Ok(!begins)
}

fn is_duration<T: TextTests>(tests: &mut T, text: &str) -> Result<bool, AllocError>
    ensures { IfOk result (λ yes. yes ≡ is_duration T.matches text.now) }
{
    if tests.test(GO_DURATION, text)? && durations::fits(text) {
        return Ok(true);
    }
    if !tests.test(WITH_UNIT, text)? {
        return Ok(false);
    }
    let large = tests.test(TOO_LARGE, text)?;
    Ok(!large)
}

/// Whether a text matches one of the format's expressions, and meets what is asked besides.
fn is_plain<T: TextTests>(tests: &mut T, format: Format, text: &str) -> Result<bool, AllocError>
    ensures { IfOk result (λ yes. yes ≡ is_plain T.matches format text.now) }
{
    let matches = matches_any(tests, expressions_of(format), text)?;
    Ok(matches && meets(format, text))
}

fn matches_any<T: TextTests>(
    tests: &mut T,
    expressions: &[&str],
    text: &str,
) -> Result<bool, AllocError>
    ensures { IfOk result (λ yes. yes ≡ matches_any T.matches (texts_at expressions.now) text.now) }
{
    for expression in expressions {
        if tests.test(expression, text)? {
            return Ok(true);
        }
    }
    Ok(false)
}

/// Whether a text meets what is asked besides the expressions.
fn meets(format: Format, text: &str) -> bool
    ensures { result ≡ spec.meets format text.now }
{
    match format {
        Format::Cidr | Format::Ipv4 | Format::Ipv6 => has_groups(text),
        Format::CreditCard => has_card_check(text),
        Format::Isbn10 => has_isbn_check(text),
        Format::Isbn13 => has_ean_check(text),
        Format::Date | Format::DateTime => names_day(text),
        Format::Hostname => hostnames::fits(text),
        Format::LongName => text.len() <= 253,
        _ => true,
    }
}
