//! The tokens of a pointer (RFC 6901), appended one after the other.
ghost use Rattle.std.specs.Prelude.{◌≡◌, ◌++◌, OnOk, OnErr, IfOk, IfErr, flat_map, string_bytes};
ghost use Rattle.std.specs.Char.{encode_utf8};
ghost use Rattle.jtree.specs.Pointer.{escaped, name_token, index_token};
ghost use Rattle.jtree.specs.declared.fault.JFault.TheVariants.{NoMemory};

use crate::fault::JFault;
use itoa::Buffer;
use std::alloc::{AllocError, Global};

/// Appends the token of a member's name to a pointer (RFC 6901): `/` and the name, where `~` is written `~0` and `/` is
/// written `~1`. `NoMemory` where an allocation fails, and the text is then unchanged.
pub fn push_name(text: &mut String, name: &str) -> Result<(), JFault>
    ensures ok { OnOk result (string_bytes text.new ≡ string_bytes text.old ++ name_token name.now) }
    ensures err { IfErr result (λ e. e ≡ NoMemory) }
    ensures unchanged { OnErr result (string_bytes text.new ≡ string_bytes text.old) }
{
    let token = name_text(*text.allocator(), name)?;
    text.push_str(token.as_str())?;
    Ok(())
}

/// Appends the token of an index, counted from 0, to a pointer (RFC 6901): `/` and the index in decimal.
/// `NoMemory` where an allocation fails, and the text is then unchanged.
pub fn push_index(text: &mut String, index: u64) -> Result<(), JFault>
    ensures ok { OnOk result (string_bytes text.new ≡ string_bytes text.old ++ index_token index) }
    ensures err { IfErr result (λ e. e ≡ NoMemory) }
    ensures unchanged { OnErr result (string_bytes text.new ≡ string_bytes text.old) }
{
    let mut buffer = Buffer::new();
    let digits = buffer.format(index);
    text.reserve(digits.len() + 1)?;
    text.push('/').unwrap();
    text.push_str(digits).unwrap();
    Ok(())
}

fn name_text(alloc: Global, name: &str) -> Result<String, AllocError>
    ensures { IfOk result (λ s. string_bytes s ≡ name_token name.now) }
{
    let mut token = String::with_capacity(alloc, name.len().saturating_add(1))?;
    token.push('/')?;
    for letter in name.chars() {
        push_letter(&mut token, letter)?;
    }
    Ok(token)
}

fn push_letter(token: &mut String, letter: char) -> Result<(), AllocError>
    ensures { OnOk result (string_bytes token.new
        ≡ string_bytes token.old ++ flat_map escaped (encode_utf8 letter)) }
{
    match letter {
        '~' => token.push_str("~0")?,
        '/' => token.push_str("~1")?,
        _ => token.push(letter)?,
    }
    Ok(())
}
