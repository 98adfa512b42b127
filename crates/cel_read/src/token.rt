//! Tokens.

/// A word that is no identifier. The words that the language reserves, as `while`, are identifiers here: it is for a parser to refuse them.
#[derive(Clone, Copy, PartialEq, Eq, Debug)]
pub enum Keyword {
    /// `in`
    In,
    /// `true`
    True,
    /// `false`
    False,
    /// `null`
    Null,
}

/// An operator, a bracket or another sign.
#[derive(Clone, Copy, PartialEq, Eq, Debug)]
pub enum Symbol {
    /// `||`
    Or,
    /// `&&`
    And,
    /// `==`
    Equal,
    /// `!=`
    NotEqual,
    /// `<`
    Less,
    /// `<=`
    LessOrEqual,
    /// `>`
    Greater,
    /// `>=`
    GreaterOrEqual,
    /// `+`
    Plus,
    /// `-`
    Minus,
    /// `*`
    Star,
    /// `/`
    Slash,
    /// `%`
    Percent,
    /// `!`
    Not,
    /// `?`
    Question,
    /// `:`
    Colon,
    /// `.`
    Dot,
    /// `,`
    Comma,
    /// `(`
    LeftParenthesis,
    /// `)`
    RightParenthesis,
    /// `[`
    LeftBracket,
    /// `]`
    RightBracket,
    /// `{`
    LeftBrace,
    /// `}`
    RightBrace,
}

/// A token.
#[derive(Drop)]
pub enum Token {
    /// An identifier.
    Name(String),
    /// A word of the language.
    Keyword(Keyword),
    /// The magnitude of an integer, at most 2^63. A minus before it is a symbol.
    Integer(u64),
    /// An integer with the suffix `u`, as it is written.
    Unsigned(String),
    /// A floating-point number, as it is written.
    Double(String),
    /// What a string stands for.
    Text(String),
    /// A literal of bytes.
    Bytes,
    /// An operator, a bracket or another sign.
    Symbol(Symbol),
}
