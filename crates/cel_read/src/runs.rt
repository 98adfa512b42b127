//! How far characters of one class go on.
ghost use Rattle.std.specs.Prelude.{◌≡◌, ◌≤◌, length};
ghost use Rattle.cel_read.specs.Internal.Runs as spec;
ghost use Rattle.cel_read.specs.Internal.Found.{parts_of};

/// A class of characters.
#[derive(Clone, Copy)]
pub(crate) enum Class {
    /// Letters, digits and `_`.
    OfWord,
    /// All but the end of a line.
    OfComment,
    Octal,
    Decimal,
    Hexadecimal,
}

pub(crate) fn is_of_class(class: Class, c: char) -> bool
    ensures { result ≡ spec.is_of_class class c }
{
    match class {
        Class::OfWord => c.is_ascii_alphanumeric() || c == '_',
        Class::OfComment => c != '\n',
        Class::Octal => c.is_digit(8),
        Class::Decimal => c.is_digit(10),
        Class::Hexadecimal => c.is_digit(16),
    }
}

/// The characters at the front that are of a class, and what follows them.
pub(crate) fn run<'t>(class: Class, text: &'t [char]) -> (&'t [char], &'t [char])
    ensures value { parts_of result ≡ spec.run (spec.is_of_class class) text.now }
    ensures shorter { length result.1.now ≤ length text.now }
{
    for i in 0..text.len() {
        if !is_of_class(class, text[i]) {
            return text.split_at(i);
        }
    }
    (text, &[])
}
