//! Forms of names (k8s.io/apimachinery, pkg/util/validation).
ghost use Rattle.std.specs.Prelude.{◌≡◌};
ghost use Rattle.std.specs.Char.{is_ascii_alphabetic};
ghost use Rattle.judge.specs.Envelope as spec;
ghost use Rattle.judge.specs.Internal.NameForms.{letter_of, mark_of};

/// Which letters count. Digits count with them.
#[derive(Clone, Copy)]
pub enum Letters {
    /// The lowercase ones of ASCII.
    Lower,
    /// All of ASCII.
    All,
}

/// Which marks may stand between letters.
#[derive(Clone, Copy)]
pub(crate) enum Marks {
    Hyphen,
    /// `_` and `.` too.
    All,
}

impl Letters {
    fn has(self, byte: u8) -> bool
        ensures { result ≡ letter_of self byte }
    {
        match self {
            Letters::Lower => byte.is_ascii_lowercase() || byte.is_ascii_digit(),
            Letters::All => byte.is_ascii_alphanumeric(),
        }
    }
}

impl Marks {
    fn has(self, byte: u8) -> bool
        ensures { result ≡ mark_of self byte }
    {
        match self {
            Marks::Hyphen => byte == b'-',
            Marks::All => matches!(byte, b'-' | b'_' | b'.'),
        }
    }
}

fn begins(text: &[u8], letters: Letters) -> bool
    ensures { result ≡ spec.begins (letter_of letters) text.now }
{
    match text.first() {
        Some(first) => letters.has(*first),
        None => false,
    }
}

fn ends(text: &[u8], letters: Letters) -> bool
    ensures { result ≡ spec.ends (letter_of letters) text.now }
{
    match text.last() {
        Some(last) => letters.has(*last),
        None => false,
    }
}

/// Whether a text begins and ends with a letter or a digit, and has these and marks between.
fn is_word(text: &[u8], letters: Letters, marks: Marks) -> bool
    ensures { result ≡ spec.is_word (letter_of letters) (mark_of marks) text.now }
{
    begins(text, letters)
        && ends(text, letters)
        && text
            .iter()
            .all(|byte| letters.has(*byte) || marks.has(*byte))
}

/// Whether a text is a DNS label of at most 63 bytes (RFC 1123).
pub fn is_label(text: &str) -> bool
    ensures { result ≡ spec.is_label text.now }
{
    text.len() <= 63 && is_word(text.as_bytes(), Letters::Lower, Marks::Hyphen)
}

/// Whether a text, whatever its case, is a DNS label that begins with a letter (RFC 1035).
pub fn is_kind_name(text: &str) -> bool
    ensures { result ≡ spec.is_kind_name text.now }
{
    text.len() <= 63
        && begins_with_letter(text.as_bytes())
        && is_word(text.as_bytes(), Letters::All, Marks::Hyphen)
}

fn begins_with_letter(text: &[u8]) -> bool
    ensures { result ≡ spec.begins is_ascii_alphabetic text.now }
{
    match text.first() {
        Some(first) => first.is_ascii_alphabetic(),
        None => false,
    }
}

/// Whether a text is a DNS subdomain of at most 253 bytes (RFC 1123): words of these letters and hyphens, with dots between them.
pub fn is_subdomain(text: &str, letters: Letters) -> bool
    ensures { result ≡ spec.is_subdomain (letter_of letters) text.now }
{
    text.len() <= 253
        && text
            .as_bytes()
            .split(|byte| *byte == b'.')
            .all(|word| is_word(word, letters, Marks::Hyphen))
}

/// Whether a text is a value of a label that is not empty.
pub(crate) fn is_name(text: &str) -> bool
    ensures { result ≡ spec.is_name text.now }
{
    text.len() <= 63 && is_word(text.as_bytes(), Letters::All, Marks::All)
}

/// Whether a text is a name, or a subdomain and a name with a slash between them.
pub(crate) fn is_qualified_name(text: &str, letters: Letters) -> bool
    ensures { result ≡ spec.is_qualified_name (letter_of letters) text.now }
{
    match text.split_once('/') {
        Some((prefix, name)) => is_subdomain(prefix, letters) && is_name(name),
        None => is_name(text),
    }
}

pub(crate) fn is_segment_prefix(text: &str) -> bool
    ensures { result ≡ spec.is_segment_prefix text.now }
{
    !text
        .as_bytes()
        .iter()
        .any(|byte| *byte == b'/' || *byte == b'%')
}

/// Whether a text can be a segment of a path.
pub(crate) fn is_segment(text: &str) -> bool
    ensures { result ≡ spec.is_segment text.now }
{
    text != "." && text != ".." && is_segment_prefix(text)
}

/// Whether a text has at most one slash.
pub(crate) fn is_group_version(text: &str) -> bool
    ensures { result ≡ spec.is_group_version text.now }
{
    text.as_bytes().iter().filter(|byte| **byte == b'/').count() <= 1
}
