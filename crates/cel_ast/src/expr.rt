//! Expressions.
use crate::literal::Literal;
use crate::operators::{Binary, Macro, Unary};
use crate::text::Text;
use std::marker::Model;

/// An expression. Parentheses leave no trace.
#[cycle(expr)]
#[derive(Drop)]
pub enum Expr {
    /// A value that is written out.
    Literal(Literal),
    /// `a`, or `.a` with the dot in its text.
    Name(Text),
    /// `e.f`
    Select(Part, Text),
    /// `e.?f`
    OptionalSelect(Part, Text),
    /// `has(e.f)`
    Present(Part, Text),
    /// `f(a, b)`, or `.f(a, b)` with the dot in the name.
    Call(Text, Parts),
    /// `e.f(a, b)`
    Method(Part, Text, Parts),
    /// `[a, ?b]`
    List(Elements),
    /// `{a: b, ?c: d}`
    Map(Entries),
    /// `a.b{f: e, ?g: h}`, with the whole name in one text.
    Message(Text, Entries),
    /// An operator on one operand.
    Unary(Unary, Part),
    /// An operator on two operands, or an index.
    Binary(Binary, Part, Part),
    /// `a ? b : c`
    Choice(Part, Part, Part),
    /// `e.all(x, p)` and the other macros that bind a name.
    Macro(Macro, Part, Text, Part),
    /// `e.map(x, p, t)`
    MapWhere(Part, Text, Part, Part),
}

/// An expression in its place on the heap.
#[cycle(expr)]
#[derive(Drop)]
pub struct Part {
    pub expr: Box<Expr>,
}

/// Expressions in order.
#[cycle(expr)]
#[derive(Drop)]
pub struct Parts {
    pub exprs: Vec<Part>,
}

/// The elements of a list, in order.
#[cycle(expr)]
#[derive(Drop)]
pub struct Elements {
    pub elements: Vec<Element>,
}

/// The entries of a map, or the fields of a message, in order.
#[cycle(expr)]
#[derive(Drop)]
pub struct Entries {
    pub entries: Vec<Entry>,
}

/// An element of a list.
#[cycle(expr)]
#[derive(Drop)]
pub struct Element {
    /// Whether a `?` stands before it.
    pub optional: bool,
    pub expr: Part,
}

/// An entry of a map, or a field of a message.
#[cycle(expr)]
#[derive(Drop)]
pub struct Entry {
    /// Whether a `?` stands before it.
    pub optional: bool,
    pub key: Key,
    pub value: Part,
}

/// What stands before the colon of an entry.
#[cycle(expr)]
#[derive(Drop)]
pub enum Key {
    /// The key of a map.
    Expr(Part),
    /// The name of a message's field.
    Field(Text),
}

impl Model for Part {
    ghost use Rattle.cel_ast.specs.Syntax;
    ghost use Rattle.cel_ast.specs.Syntax.{height};
    ghost use Rattle.cel_ast.specs.Internal.Code.{coded_syntax};

    ghost Value = { Syntax.Syntax };

    ghost coded = { coded_syntax };

    ghost use Rattle.cel_ast.specs.View.{syntax_of};

    ghost view = { λ a. syntax_of a.expr.value };

    ghost size = { height };

    ghost use Rattle.cel_ast.specs.Internal.Measures.{part_decreases};

    ghost size_decreases = { λ a h. part_decreases a.expr.value };
}

impl Model for Parts {
    ghost use Rattle.cel_ast.specs.Syntax;
    ghost use Rattle.cel_ast.specs.Syntax.{parts_height};
    ghost use Rattle.cel_ast.specs.Internal.Code.{coded_parts};

    ghost Value = { Syntax.Parts };

    ghost coded = { coded_parts };

    ghost use Rattle.cel_ast.specs.Syntax.{parts};

    ghost view = { λ a. parts a.exprs.items };

    ghost size = { parts_height };

    ghost use Rattle.cel_ast.specs.Internal.Measures.{parts_decrease};

    ghost size_decreases = { λ a h. parts_decrease a.exprs.items };
}

impl Model for Elements {
    ghost use Rattle.cel_ast.specs.Syntax;
    ghost use Rattle.cel_ast.specs.Syntax.{elements_height};
    ghost use Rattle.cel_ast.specs.Internal.Code.{coded_elements};

    ghost Value = { Syntax.Elements };

    ghost coded = { coded_elements };

    ghost use Rattle.cel_ast.specs.View.{elements_of};

    ghost view = { λ a. elements_of a.elements.items };

    ghost size = { elements_height };

    ghost use Rattle.cel_ast.specs.Internal.Measures.{elements_decrease};

    ghost size_decreases = { λ a h. elements_decrease a.elements.items };
}

impl Model for Entries {
    ghost use Rattle.cel_ast.specs.Syntax;
    ghost use Rattle.cel_ast.specs.Syntax.{entries_height};
    ghost use Rattle.cel_ast.specs.Internal.Code.{coded_entries};

    ghost Value = { Syntax.Entries };

    ghost coded = { coded_entries };

    ghost use Rattle.cel_ast.specs.View.{entries_of};

    ghost view = { λ a. entries_of a.entries.items };

    ghost size = { entries_height };

    ghost use Rattle.cel_ast.specs.Internal.Measures.{entries_decrease};

    ghost size_decreases = { λ a h. entries_decrease a.entries.items };
}
