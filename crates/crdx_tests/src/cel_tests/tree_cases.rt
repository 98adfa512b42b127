//! Syntax trees of the Common Expression Language. The answers are made by hand from its specification; cel-go takes and refuses the same
//! texts, but for those of `NEWER`, which its versions since 2023 read so.
use crate::support::report::Report;
use crate::support::rows::{Kind, Row, try_tables};
use cel_ast::{Binary, Elements, Entries, Expr, Key, Literal, Macro, Part, Parts, Unary};
use cel_parse::{MOST_NESTED, ParseFault, parse};
use cel_read::tokens;
use std::alloc::Global;
use std::fmt::Write;
use std::test::Fail;

static LITERALS: &str = r#"
14 rows: name | text | tree
words | [true, false, null] | (list true false null)
integers | [0, 0x1F, 9223372036854775807] | (list 0 31 9223372036854775807)
negative integers | [-1, - 2, -0x10, -9223372036854775808] | (list -1 -2 -16 -9223372036854775808)
as they are written | [1u, 0x1FU, 1.5, -.5e1, "a", b"a"] | (list 1u 0x1FU 1.5 -.5e1 "a" bytes)
two minuses | --1 | 1
three | ---1 | (- 1)
a minus and brackets | -(1) | (- 1)
a minus before a name | -a | (- a)
a minus of a member | -1.f() | (.f -1)
not of the rest | -a.f() | (- (.f a))
a text negated | -"a" | (- "a")
a sum | 1 -1 | (- 1 1)
a sum of a negative | 1--1 | (- 1 -1)
not of a number | !-1 | (! -1)
"#;

static OPERATORS: &str = r#"
15 rows: name | text | tree
ranks | a || b && c == d + e * f | (|| a (&& b (== c (+ d (* e f)))))
ranks the other way round | a * b + c == d && e || f | (|| (&& (== (+ (* a b) c) d) e) f)
the first are joined first | a - b + c - d | (- (+ (- a b) c) d)
products | a / b % c * d | (* (% (/ a b) c) d)
relations | a < b <= c > d >= e == f != g in h | (in (!= (== (>= (> (<= (< a b) c) d) e) f) g) h)
or | a || b || c | (|| (|| a b) c)
brackets | a * (b + c) | (* a (+ b c))
brackets leave no trace | ((a)) | a
not | !a && !b.c | (&& (! a) (! (get b c)))
two nots | !!a | a
three nots | !!!a | (! a)
three minuses | ---a | (- a)
a choice | a ? b : c | (? a b c)
choices | a ? b : c ? d : e | (? a b (? c d e))
a choice of or | a || b ? c && d : e == f | (? (|| a b) (&& c d) (== e f))
"#;

static MEMBERS: &str = r#"
16 rows: name | text | tree
fields | a.b.c | (get (get a b) c)
indexes | a[b][0] | ([] ([] a b) 0)
reserved words as fields | a.while.as() | (.as (get a while))
a leading dot | .a.b | (get .a b)
a leading dot apart | . a | .a
functions | f() + g(a, b + c) | (+ (call f) (call g a (+ b c)))
a function with a dot | .f(a) | (call .f a)
methods | a.f().g(b, c) | (.g (.f a) b c)
methods of literals | "a".f() | (.f "a")
of lists and maps | [a].f()[{}.g()] | ([] (.f (list a)) (.g (entries)))
lists | [[], [a], [a, b], [a,]] | (list (list) (list a) (list a b) (list a))
no elements and a comma | [,] | (list)
maps | {a: b, c + d: {}, "e": f,} | (entries a:b (+ c d):(entries) "e":f)
no entries and a comma | {,} | (entries)
messages | a{} + .a.b{f: c, g: d,} | (+ (message a) (message .a.b f:c g:d))
a message of a message | a.b{f: c{}}.g[h] | ([] (get (message a.b f:(message c)) g) h)
"#;

static MACROS: &str = r#"
14 rows: name | text | tree
has | has(a.b.c) | (has (get a b) c)
has in brackets | has((a.b)) | (has a b)
the four | a.all(x, p) && a.exists(x, p) | (&& (all a x p) (exists a x p))
and two | a.exists_one(x, p) == a.filter(x, p) | (== (exists_one a x p) (filter a x p))
map | a.map(x, t) | (map a x t)
map of what passes | a.map(x, p, t) | (map a x p t)
in one another | a.b.all(x, x.exists(y, y == x)) | (all (get a b) x (exists x y (== y x)))
a name in brackets | a.all((x), p) | (all a x p)
a name with a dot | a.all(.x, p) | (all a .x p)
another number of arguments | a.all(x) + a.map(x) + a.all(x, p, t) | (+ (+ (.all a x) (.map a x)) (.all a x p t))
no member | all(a, x) + has() + has(a, b) | (+ (+ (call all a x) (call has)) (call has a b))
has with a dot | .has(a) | (call .has a)
has of a member | a.has(b) | (.has a b)
another name | a.existsOne(x, p) | (.existsOne a x p)
"#;

static NEWER: &str = r#"
7 rows: name | text | tree
an optional field | a.?b.c | (get (get? a b) c)
an optional index | a[?b][c] | ([] ([?] a b) c)
optional elements | [?a, b, ?c.d] | (list ?a b ?(get c d))
optional entries | {?a: b, c: d} | (entries ?a:b c:d)
optional fields of messages | a{?f: b} | (message a ?f:b)
a choice and a double | a?.5:1 | (? a .5 1)
a type of reserved words | while.a{f: b} | (message while.a f:b)
"#;

/// What is no expression, and the number of tokens before what stopped it.
static FAULTS: &str = r#"
50 rows: name | text | tree
nothing | - | at 0
an operator at the end | a + | at 2
and at the front | * a | at 0
two names | a b | at 1
two numbers | 1 2 | at 1
too large | 9223372036854775808 | at 0
too large after two minuses | --9223372036854775808 | at 2
in brackets | -(9223372036854775808) | at 2
mixed signs | -!a | at 1
the other way round | !-a | at 1
a minus in the middle | !-!a | at 1
reserved | while | at 0
reserved in a list | [a, for] | at 3
a reserved function | if(a) | at 0
reserved with a dot | .as | at 0
a keyword | in | at 0
a keyword for a field | a.in | at 2
a dot at the end | a. | at 2
two dots | a..b | at 2
a number for a field | a.1 | at 1
a text for a field | a."b" | at 2
brackets not closed | (a | at 2
nothing in brackets | () | at 1
two in brackets | (a, b) | at 2
no index | a[] | at 2
two indexes | a[b, c] | at 3
an index not closed | a[b | at 3
a comma at the end of arguments | f(a,) | at 3
a comma alone | f(,) | at 2
a call of a call | f(a)(b) | at 4
a call of a number | 1(a) | at 1
commas | [a,,] | at 3
a comma first | [,a] | at 2
a list not closed | [a | at 2
no colon | {a} | at 2
no value | {a:} | at 3
two colons | {a: b: c} | at 4
no key | {:a} | at 1
an expression for a field's name | a{b.c: d} | at 3
a text for one | a{"b": c} | at 2
a message of no type | (a){f: b} | at 3
of a call | a(){f: b} | at 3
a message in brackets called | a{}(b) | at 3
half of a choice | a ? b | at 3
a choice in a choice | a ? b ? c : d : e | at 3
no first choice | a ? : b | at 2
a colon | a : b | at 1
an optional method | a.?b(c) | at 4
has of a name | has(a) | at 4
a macro of no name | a.all(b.c, p) | at 10
"#;

/// How deep brackets and choices nest, the expression itself being one.
static DEPTHS: &str = r#"
9 rows: name | text | depth | tree
nothing is so shallow | a | 0 | at 0
a name | a | 1 | a
operators do not nest | !a + b * c && d.e | 1 | (&& (+ (! a) (* b c)) (get d e))
brackets do | (a) | 1 | at 1
within the depth | (a) | 2 | a
arguments | f(a) | 1 | at 2
lists in lists | [[a]] | 2 | at 2
and within | [[a]] | 3 | (list (list a))
choices | a ? b : c | 1 | at 4
"#;

fn operator_of(operator: Binary) -> &'static str {
    match operator {
        Binary::Or => "||",
        Binary::And => "&&",
        Binary::Equal => "==",
        Binary::NotEqual => "!=",
        Binary::Less => "<",
        Binary::LessOrEqual => "<=",
        Binary::Greater => ">",
        Binary::GreaterOrEqual => ">=",
        Binary::In => "in",
        Binary::Add => "+",
        Binary::Subtract => "-",
        Binary::Multiply => "*",
        Binary::Divide => "/",
        Binary::Modulo => "%",
        Binary::Index => "[]",
        Binary::OptionalIndex => "[?]",
    }
}

fn macro_of(kind: Macro) -> &'static str {
    match kind {
        Macro::All => "all",
        Macro::Exists => "exists",
        Macro::ExistsOne => "exists_one",
        Macro::Filter => "filter",
        Macro::Map => "map",
    }
}

fn sign_of(operator: Unary) -> &'static str {
    match operator {
        Unary::Not => "!",
        Unary::Negate => "-",
    }
}

fn write_literal(said: &mut String, literal: &Literal) -> Result<(), Fail> {
    match literal {
        Literal::Null => said.push_str("null")?,
        Literal::Bool(value) => write!(said, "{value}")?,
        Literal::Int(number) => write!(said, "{number}")?,
        Literal::Uint(text) => write!(said, "{}", text.text)?,
        Literal::Double(text) => write!(said, "{}", text.text)?,
        Literal::String(text) => write!(said, "\"{}\"", text.text)?,
        Literal::Bytes => said.push_str("bytes")?,
    }
    Ok(())
}

/// Writes what an expression is: all of it, or a bracket and what stands before its parts.
fn write_head(said: &mut String, expr: &Expr) -> Result<(), Fail> {
    match expr {
        Expr::Literal(literal) => write_literal(said, literal)?,
        Expr::Name(name) => write!(said, "{}", name.text)?,
        Expr::Select(_, _) => said.push_str("(get")?,
        Expr::OptionalSelect(_, _) => said.push_str("(get?")?,
        Expr::Present(_, _) => said.push_str("(has")?,
        Expr::Call(name, _) => write!(said, "(call {}", name.text)?,
        Expr::Method(_, name, _) => write!(said, "(.{}", name.text)?,
        Expr::List(_) => said.push_str("(list")?,
        Expr::Map(_) => said.push_str("(entries")?,
        Expr::Message(name, _) => write!(said, "(message {}", name.text)?,
        Expr::Unary(operator, _) => write!(said, "({}", sign_of(*operator))?,
        Expr::Binary(operator, _, _) => write!(said, "({}", operator_of(*operator))?,
        Expr::Choice(_, _, _) => said.push_str("(?")?,
        Expr::Macro(kind, _, _, _) => write!(said, "({}", macro_of(*kind))?,
        Expr::MapWhere(_, _, _, _) => said.push_str("(map")?,
    }
    Ok(())
}

#[cycle(write)]
fn write_expr(said: &mut String, expr: &Expr) -> Result<(), Fail> {
    write_head(said, expr)?;
    match expr {
        Expr::Literal(_) | Expr::Name(_) => return Ok(()),
        Expr::Select(left, name) | Expr::OptionalSelect(left, name) | Expr::Present(left, name) => {
            write_part(said, left)?;
            write!(said, " {}", name.text)?;
        }
        Expr::Call(_, parts) => write_parts(said, parts)?,
        Expr::Method(left, _, parts) => {
            write_part(said, left)?;
            write_parts(said, parts)?;
        }
        Expr::List(elements) => write_elements(said, elements)?,
        Expr::Map(entries) | Expr::Message(_, entries) => write_entries(said, entries)?,
        Expr::Unary(_, part) => write_part(said, part)?,
        Expr::Binary(_, left, right) => {
            write_part(said, left)?;
            write_part(said, right)?;
        }
        Expr::Choice(condition, yes, no) => {
            write_part(said, condition)?;
            write_part(said, yes)?;
            write_part(said, no)?;
        }
        Expr::Macro(_, range, name, body) => {
            write_part(said, range)?;
            write!(said, " {}", name.text)?;
            write_part(said, body)?;
        }
        Expr::MapWhere(range, name, test, body) => {
            write_part(said, range)?;
            write!(said, " {}", name.text)?;
            write_part(said, test)?;
            write_part(said, body)?;
        }
    }
    said.push(')')?;
    Ok(())
}

#[cycle(write)]
fn write_part(said: &mut String, part: &Part) -> Result<(), Fail> {
    said.push(' ')?;
    write_expr(said, &*part.expr)
}

#[cycle(write)]
fn write_parts(said: &mut String, parts: &Parts) -> Result<(), Fail> {
    for part in &parts.exprs {
        write_part(said, part)?;
    }
    Ok(())
}

#[cycle(write)]
fn write_elements(said: &mut String, elements: &Elements) -> Result<(), Fail> {
    for element in &elements.elements {
        said.push_str(if element.optional { " ?" } else { " " })?;
        write_expr(said, &*element.expr.expr)?;
    }
    Ok(())
}

#[cycle(write)]
fn write_entries(said: &mut String, entries: &Entries) -> Result<(), Fail> {
    for entry in &entries.entries {
        said.push_str(if entry.optional { " ?" } else { " " })?;
        match &entry.key {
            Key::Expr(key) => write_expr(said, &*key.expr)?,
            Key::Field(name) => write!(said, "{}", name.text)?,
        }
        said.push(':')?;
        write_expr(said, &*entry.value.expr)?;
    }
    Ok(())
}

/// The tree of a text, or where it is none, as a row has it.
fn said_of(alloc: Global, text: &str, depth: u32) -> Result<String, Fail> {
    let mut said = String::new(alloc);
    let Ok(tokens) = tokens(alloc, text) else {
        return Err(Fail::from("no tokens"));
    };
    match parse(alloc, tokens.as_slice(), depth) {
        Ok(expr) => write_expr(&mut said, &expr)?,
        Err(ParseFault::Unexpected(place)) => write!(said, "at {place}")?,
        Err(ParseFault::NoMemory) => return Err(Fail::from("out of memory")),
    }
    Ok(said)
}

/// A text, and its syntax tree.
struct TreeRow;

impl Kind for TreeRow {
    fn attempt(&self, report: &mut Report, alloc: Global, row: &Row) -> Result<(), Fail> {
        let said = said_of(alloc, row.text("text"), MOST_NESTED)?;
        report.is_text("tree", said.as_str(), row.text("tree"));
        Ok(())
    }
}

/// A text, how deep it may nest, and its syntax tree.
struct DeepRow;

impl Kind for DeepRow {
    fn attempt(&self, report: &mut Report, alloc: Global, row: &Row) -> Result<(), Fail> {
        let said = said_of(alloc, row.text("text"), row.small("depth"))?;
        report.is_text("tree", said.as_str(), row.text("tree"));
        Ok(())
    }
}

#[test]
fn what_the_trees_are(rt: HostRuntime) -> Result<(), Fail> {
    try_tables(
        &rt,
        rt.alloc(),
        &TreeRow,
        &[LITERALS, OPERATORS, MEMBERS, MACROS, NEWER, FAULTS],
    )
}

#[test]
fn how_deep_they_nest(rt: HostRuntime) -> Result<(), Fail> {
    try_tables(&rt, rt.alloc(), &DeepRow, &[DEPTHS])
}

/// Brackets as deep as may be, and one deeper.
#[test]
fn the_deepest_tree(rt: HostRuntime) -> Result<(), Fail> {
    let alloc = rt.alloc();
    let mut text = String::new(alloc);
    for _ in 1..MOST_NESTED {
        text.push('(')?;
    }
    text.push('a')?;
    for _ in 1..MOST_NESTED {
        text.push(')')?;
    }
    let said = said_of(alloc, text.as_str(), MOST_NESTED)?;
    assert_eq!(rt; said.as_str(), "a");
    let said = said_of(alloc, text.as_str(), MOST_NESTED - 1)?;
    assert_eq!(rt; said.as_str(), "at 249");
    Ok(())
}
