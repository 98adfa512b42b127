//! Why an expression has no value.

/// Why an expression has no value.
#[derive(Clone, Copy, PartialEq, Eq, Debug)]
pub enum Stop {
    /// Its evaluation ends in an error.
    Error(Fault),
    /// It asks for something that crdx does not know.
    NotJudged(Reason),
}

/// An error of an evaluation.
#[derive(Clone, Copy, PartialEq, Eq, Debug)]
pub enum Fault {
    /// An operator is not defined for the types of its operands. A cluster, which checks the types of a rule first, takes no rule where this can
    /// happen, unless a type is known at run time alone.
    NoOverload,
    /// A map has no entry with the key.
    NoSuchKey,
    /// A list has no item at the index.
    IndexOutOfRange,
    /// An integer would need more than 64 bits.
    Overflow,
    /// A division by zero, or the remainder of one.
    DivisionByZero,
}

/// What crdx does not know.
#[derive(Clone, Copy, PartialEq, Eq, Debug)]
pub enum Reason {
    /// A name to which nothing is bound.
    Name,
    /// A function or a method.
    Function,
    /// A message, or a field's name in the place of a key.
    Message,
    /// An optional field, index, element or entry.
    Optional,
    /// An unsigned integer.
    Unsigned,
    /// A floating-point number.
    Double,
    /// Bytes.
    Bytes,
    /// A map with a key that is neither a boolean nor an integer nor a string.
    KeyType,
    /// A map in which a key is given twice.
    RepeatedKey,
}
