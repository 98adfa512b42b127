//! Parts of a text.
ghost use Rattle.std.specs.Prelude.{◌≡◌, ◌≤◌, length, option_map, ◌∷◌, [], nat_eq, IfSome, MatchOption};
ghost use lib.Pointwise.{pointwise};
ghost use Rattle.std.specs.List.{list_all};
ghost use Rattle.std.specs.Char.{is_ascii_hexdigit};
ghost use Rattle.go_text.specs.Texts.{cut as cut_of};
ghost use Rattle.go_text.specs.Internal.View.{parts_of};

/// The first character of a text, and the text after it.
pub(crate) fn next<'t>(text: &'t [char]) -> Option<(char, &'t [char])>
    ensures { MatchOption result (text.now ≡ []) (λ x. text.now ≡ x.0 ∷ x.1.now) }
{
    let (first, rest) = text.split_first()?;
    Some((*first, rest))
}

/// What stands before the first place of a mark, and what stands after it.
pub(crate) fn cut<'t>(text: &'t [char], mark: &[char]) -> Option<(&'t [char], &'t [char])>
    ensures value { option_map parts_of result ≡ cut_of mark.now text.now }
    ensures shorter { IfSome result (λ parts. length parts.1.now ≤ length text.now) }
{
    for i in 0..text.len() {
        let (before, rest) = text.split_at(i);
        if rest.starts_with(mark) {
            let (_, after) = rest.split_at(mark.len());
            return Some((before, after));
        }
    }
    None
}

pub(crate) fn are_hex_digits(text: &[char]) -> bool
    ensures { result ≡ list_all is_ascii_hexdigit text.now }
{
    text.iter().all(|c| c.is_ascii_hexdigit())
}

/// Whether the text is a word of ASCII.
pub(crate) fn spells(text: &[char], word: &str) -> bool
    ensures { result ≡ pointwise nat_eq text.now word.now }
{
    let bytes = word.as_bytes();
    if text.len() != bytes.len() {
        return false;
    }
    for i in 0..bytes.len() {
        if text[i] != char::from(bytes[i]) {
            return false;
        }
    }
    true
}
