//! Operators and macros.

/// An operator on one operand.
#[derive(Clone, Copy, PartialEq, Eq, Debug)]
pub enum Unary {
    /// `!a`
    Not,
    /// `-a`
    Negate,
}

/// An operator on two operands.
#[derive(Clone, Copy, PartialEq, Eq, Debug)]
pub enum Binary {
    /// `a || b`
    Or,
    /// `a && b`
    And,
    /// `a == b`
    Equal,
    /// `a != b`
    NotEqual,
    /// `a < b`
    Less,
    /// `a <= b`
    LessOrEqual,
    /// `a > b`
    Greater,
    /// `a >= b`
    GreaterOrEqual,
    /// `a in b`
    In,
    /// `a + b`
    Add,
    /// `a - b`
    Subtract,
    /// `a * b`
    Multiply,
    /// `a / b`
    Divide,
    /// `a % b`
    Modulo,
    /// `a[b]`
    Index,
    /// `a[?b]`
    OptionalIndex,
}

/// What binds a name to each item of a list, or to each key of a map.
#[derive(Clone, Copy, PartialEq, Eq, Debug)]
pub enum Macro {
    /// `e.all(x, p)`
    All,
    /// `e.exists(x, p)`
    Exists,
    /// `e.exists_one(x, p)`
    ExistsOne,
    /// `e.filter(x, p)`
    Filter,
    /// `e.map(x, t)`
    Map,
}
