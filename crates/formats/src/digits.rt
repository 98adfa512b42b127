//! Check digits.
ghost use Rattle.std.specs.Prelude.{◌≡◌, ◌<◌};
ghost use Rattle.formats.specs.Digits as spec;

/// Whether the digits of an ISBN of 10 agree with the last one.
pub(crate) fn has_isbn_check(text: &str) -> bool
    ensures { result ≡ spec.has_isbn_check text.now }
{
    let mut so_far = 0;
    let mut sum = 0;
    for byte in text.as_bytes() {
        let value = match *byte {
            b'0'..=b'9' => *byte - b'0',
            b'X' => 10,
            _ => continue,
        };
        so_far = (so_far + value) % 11;
        sum = (sum + so_far) % 11;
    }
    sum == 0
}

/// Whether the digits of an ISBN of 13 agree with the last one.
pub(crate) fn has_ean_check(text: &str) -> bool
    ensures { result ≡ spec.has_ean_check text.now }
{
    let mut three = false;
    let mut sum = 0;
    for byte in text.as_bytes() {
        if byte.is_ascii_digit() {
            let weight = if three { 3 } else { 1 };
            sum = (sum + weight * (*byte - b'0')) % 10;
            three = !three;
        }
    }
    sum == 0
}

/// Whether the digits of a credit card agree with the last one.
pub(crate) fn has_card_check(text: &str) -> bool
    ensures { result ≡ spec.has_card_check text.now }
{
    let mut once = 0;
    let mut twice = 0;
    for byte in text.as_bytes() {
        if byte.is_ascii_digit() {
            let digit = *byte - b'0';
            let single = (twice + digit) % 10;
            twice = (once + doubled(digit)) % 10;
            once = single;
        }
    }
    once == 0
}

/// The sum of the digits of twice a digit.
fn doubled(digit: u8) -> u8
    requires { digit < 10 }
    ensures { result ≡ spec.doubled digit }
{
    if digit >= 5 { 2 * digit - 9 } else { 2 * digit }
}
