//! How many groups an IPv6 address has.
ghost use Rattle.std.specs.Prelude.{◌≡◌};
ghost use Rattle.formats.specs.Addresses as spec;

/// Whether a text has as many groups as an address may have.
pub(crate) fn has_groups(text: &str) -> bool
    ensures { result ≡ spec.has_groups text.now }
{
    let bytes = text.as_bytes();
    let mixed = if bytes.contains(&b'.') { 1 } else { 0 };
    let most = if has_gap(bytes) { 7 } else { 8 };
    group_count(bytes) <= most - mixed
}

fn group_count(bytes: &[u8]) -> usize
    ensures { result ≡ spec.group_count bytes.now }
{
    bytes
        .split(|b| *b == b':')
        .filter(|part| is_group(part))
        .count()
}

fn is_group(part: &[u8]) -> bool
    ensures { result ≡ spec.is_group part.now }
{
    match part {
        [first, ..] => *first != b'/',
        [] => false,
    }
}

/// Whether two colons stand beside each other.
fn has_gap(bytes: &[u8]) -> bool
    ensures { result ≡ spec.has_gap bytes.now }
{
    let mut rest = bytes;
    while let [first, later @ ..] = rest {
        if *first == b':' && later.starts_with(b":") {
            return true;
        }
        rest = later;
    }
    false
}
