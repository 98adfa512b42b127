//! Forms of the texts in a definition.
ghost use Rattle.std.specs.Prelude.{◌≡◌, ◌++◌, ◌∷◌};
ghost use Rattle.std.specs.Str.{bytes_eq};
ghost use Rattle.definition.specs.Fields.{texts_at};
ghost use Rattle.definition.specs.Texts as spec;
ghost use Rattle.definition.specs.Broken.{is_simple_path as is_simple_path_of};

use judge::{Letters, is_label, is_subdomain};

/// Whether a text is one of these.
pub(crate) fn is_one_of(text: &str, texts: &[&str]) -> bool
    ensures { result ≡ spec.is_among text.now (texts_at texts.now) }
{
    for other in texts {
        if text == *other {
            return true;
        }
    }
    false
}

/// Whether a text is a DNS label that begins with a letter (RFC 1035).
pub(crate) fn is_name(text: &str) -> bool
    ensures { result ≡ spec.is_name text.now }
{
    is_label(text) && begins_with_letter(text.as_bytes())
}

fn begins_with_letter(text: &[u8]) -> bool
    ensures { result ≡ spec.begins_with_letter text.now }
{
    match text.first() {
        Some(first) => first.is_ascii_alphabetic(),
        None => false,
    }
}

/// Whether a text is a DNS subdomain (RFC 1123) with a dot.
pub(crate) fn is_group(text: &str) -> bool
    ensures { result ≡ spec.is_group text.now }
{
    is_subdomain(text, Letters::Lower) && has_dot(text)
}

fn has_dot(text: &str) -> bool
    ensures { result ≡ spec.has_dot text.now }
{
    text.as_bytes().iter().any(|byte| *byte == b'.')
}

/// Whether a group is one of Kubernetes itself.
pub(crate) fn is_protected(group: &str) -> bool
    ensures { result ≡ spec.is_protected group.now }
{
    is_one_of(group, &["k8s.io", "kubernetes.io"])
        || ends_with(group, ".k8s.io")
        || ends_with(group, ".kubernetes.io")
}

fn ends_with(text: &str, end: &str) -> bool
    ensures { result ≡ spec.text_ends text.now end.now }
{
    text.ends_with(end)
}

fn begins_with(text: &str, beginning: &str) -> bool
    ensures { result ≡ spec.text_begins text.now beginning.now }
{
    text.starts_with(beginning)
}

/// Whether a path begins with a dot.
pub(crate) fn is_simple_path(path: &[u8]) -> bool
    ensures { result ≡ is_simple_path_of path.now }
{
    match path.first() {
        Some(first) => *first == b'.',
        None => false,
    }
}

pub(crate) fn is_below_spec(path: &str) -> bool
    ensures { result ≡ spec.is_below_spec path.now }
{
    begins_with(path, ".spec.")
}

pub(crate) fn is_below_status(path: &str) -> bool
    ensures { result ≡ spec.is_below_status path.now }
{
    begins_with(path, ".status.")
}

/// Whether a text is two others with a dot between them.
pub(crate) fn is_joined(text: &[u8], first: &[u8], second: &[u8]) -> bool
    ensures { result ≡ bytes_eq text.now (first.now ++ 46 ∷ second.now) }
{
    match text.strip_prefix(first) {
        Some(rest) => is_dotted(rest, second),
        None => false,
    }
}

/// Whether a text is a dot and another.
fn is_dotted(text: &[u8], other: &[u8]) -> bool
    ensures { result ≡ bytes_eq text.now (46 ∷ other.now) }
{
    match text {
        [first, rest @ ..] => *first == b'.' && rest == other,
        [] => false,
    }
}
