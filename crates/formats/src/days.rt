//! Days that there are.
ghost use Rattle.std.specs.Prelude.{◌≡◌, ◌<◌};
ghost use Rattle.formats.specs.Days as spec;

/// Whether the text of a date, `2006-01-02` and what follows, names a day that there is.
pub(crate) fn names_day(text: &str) -> bool
    ensures { result ≡ spec.names_day text.now }
{
    let bytes = text.as_bytes();
    let year = 100 * two_at(bytes, 0) + two_at(bytes, 2);
    is_day(year, two_at(bytes, 5), two_at(bytes, 8))
}

fn is_day(year: u32, month: u32, day: u32) -> bool
    ensures { result ≡ spec.is_day year month day }
{
    (1 <= month && month <= 12) && (1 <= day && day <= days_in(year, month))
}

fn days_in(year: u32, month: u32) -> u32
    ensures { result ≡ spec.days_in year month }
{
    match month {
        2 => { if is_leap_year(year) { 29 } else { 28 } }
        4 | 6 | 9 | 11 => 30,
        _ => 31,
    }
}

fn is_leap_year(year: u32) -> bool
    ensures { result ≡ spec.is_leap_year year }
{
    year % 4 == 0 && (year % 100 != 0 || year % 400 == 0)
}

/// The number of two digits.
fn two_at(bytes: &[u8], at: usize) -> u32
    requires { at < 9 }
    ensures value { result ≡ spec.two_at bytes.now at }
    ensures small { result < 2288 }
{
    10 * digit_at(bytes, at) + digit_at(bytes, at + 1)
}

fn digit_at(bytes: &[u8], at: usize) -> u32
    ensures value { result ≡ spec.digit_at bytes.now at }
    ensures small { result < 208 }
{
    match bytes.get(at) {
        Some(byte) => u32::from(byte.saturating_sub(b'0')),
        None => 0,
    }
}
