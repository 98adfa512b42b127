//! How long a duration of Go is.
ghost use Rattle.std.specs.Prelude.{◌≡◌, ◌-◌, ◌^◌, min};
ghost use Rattle.formats.specs.Durations as spec;

/// Whether a duration has less than 2^63 nanoseconds, or 2^63 with a minus before it. Each number counts without its fraction.
pub(crate) fn fits(text: &str) -> bool
    ensures { result ≡ spec.fits text.now }
{
    match text.as_bytes() {
        [b'-', parts @ ..] => nanoseconds(parts) <= 1 << 63,
        [b'+', parts @ ..] => nanoseconds(parts) < 1 << 63,
        parts => nanoseconds(parts) < 1 << 63,
    }
}

/// The nanoseconds of these parts, or 2^64 - 1 where there are more.
fn nanoseconds(parts: &[u8]) -> u64
    ensures { result ≡ min (spec.nanoseconds parts.now) (2 ^ 64 - 1) }
{
    let mut total: u64 = 0;
    for part in parts.chunk_by(|a, b| in_number(*a) || !in_number(*b)) {
        let more = number(part).saturating_mul(unit(unit_of(part)));
        total = total.saturating_add(more);
    }
    total
}

fn in_number(byte: u8) -> bool
    ensures { result ≡ spec.in_number byte }
{
    byte.is_ascii_digit() || byte == b'.'
}

/// The number of a part without its fraction, or 2^64 - 1 where it is more.
fn number(part: &[u8]) -> u64
    ensures { result ≡ min (spec.number part.now) (2 ^ 64 - 1) }
{
    let mut number: u64 = 0;
    for byte in part {
        if !byte.is_ascii_digit() {
            return number;
        }
        number = number
            .saturating_mul(10)
            .saturating_add(u64::from(*byte - b'0'));
    }
    number
}

fn unit_of(part: &[u8]) -> &[u8]
    ensures { result.now ≡ spec.unit_of part.now }
{
    let mut rest = part;
    while let [b'0'..=b'9' | b'.', later @ ..] = rest {
        rest = later;
    }
    rest
}

/// The nanoseconds of a unit.
fn unit(text: &[u8]) -> u64
    ensures { result ≡ spec.unit text.now }
{
    match text {
        [b'n', b's'] => 1,
        [b'm', b's'] => 1_000_000,
        [b's'] => 1_000_000_000,
        [b'm'] => 60_000_000_000,
        [b'h'] => 3_600_000_000_000,
        _ => 1_000,
    }
}
