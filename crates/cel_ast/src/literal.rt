//! Literals.
use crate::text::Text;

/// A value that is written out.
#[derive(Drop)]
pub enum Literal {
    /// `null`
    Null,
    /// `true`, `false`
    Bool(bool),
    /// An integer, with the minus before it.
    Int(i64),
    /// An integer with the suffix `u`, as it is written.
    Uint(Text),
    /// A floating-point number, as it is written, with the minus before it.
    Double(Text),
    /// What a string stands for.
    String(Text),
    /// A literal of bytes.
    Bytes,
}
