//! Parsing by recursive descent.
ghost use Rattle.std.specs.Prelude.{◌≡◌, ◌<◌, ◌≤◌, ℕ, suc, [], Some, length, map, IfOk, IfErr};
ghost use Rattle.cel_ast.specs.Syntax.{Syntax};
ghost use Rattle.cel_ast.specs.View.{syntax_of, element_of, entry_of, key_of};
ghost use Rattle.cel_read.specs.View.{token_lexemes};
ghost use Rattle.cel_parse.specs.Grammar.{IsExpr};
ghost use Rattle.cel_parse.specs.Words.{signed as signed_is};
ghost use Rattle.cel_parse.specs.Internal.Readers.{loop};
ghost use Rattle.cel_parse.specs.Internal.Reading as spec;
ghost use Rattle.cel_parse.specs.Internal.Answers.{Reads};
ghost use Rattle.cel_parse.specs.declared.fault.ParseFault.TheVariants.{Unexpected};

use crate::calls::{call, method};
use crate::fault::{ParseFault, Stopped};
use crate::marks::{
    after_brace, after_bracket, after_colon, after_comma, after_parenthesis, after_question,
    item_at, optional_at,
};
use crate::members::{Next, goes_on, index, next_at, part, select};
use crate::names::copied;
use crate::operators::operator_at;
use crate::signs::{Signs, signs_at};
use crate::start::{Start, start_at};
use cel_ast::{Element, Elements, Entries, Entry, Expr, Key, Part, Unary};
use cel_read::Token;
use std::alloc::{AllocError, Global};

/// How deep brackets and choices may nest in what crdx reads.
pub const MOST_NESTED: u32 = 250;

/// The syntax tree of tokens, by the grammar of the Common Expression Language, where brackets and choices nest less deep than `depth`.
///
/// # Errors
///
/// [`ParseFault::Unexpected`] where the tokens spell no such expression, with the index of the token where parsing stopped, which is their number
/// where they end too early. [`ParseFault::NoMemory`].
pub fn parse(alloc: Global, tokens: &[Token], depth: u32) -> Result<Expr, ParseFault>
    ensures ok { IfOk result (λ e. IsExpr depth (token_lexemes tokens.now) (syntax_of e)) }
    ensures err { IfErr result (λ f. (place : ℕ) → f ≡ Unexpected place → (e : Syntax) → IsExpr depth (token_lexemes tokens.now) e → ⊥) }
    ensures place { IfErr result (λ f. (place : ℕ) → f ≡ Unexpected place → place ≤ length tokens.now) }
{
    match read_expr(alloc, tokens, depth) {
        Ok((expr, rest)) => {
            if rest.is_empty() {
                Ok(inside(expr))
            } else {
                Err(ParseFault::Unexpected(tokens.len() - rest.len()))
            }
        }
        Err(Stopped::Before(left)) => Err(ParseFault::Unexpected(
            tokens.len().saturating_sub(left),
        )),
        Err(Stopped::NoMemory) => Err(ParseFault::NoMemory),
    }
}

fn inside(part: Part) -> Expr
    ensures { syntax_of result ≡ part }
{
    Box::into_inner(part.expr)
}

/// Expr ::= Or [ "?" Or ":" Expr ]
#[cycle(read)]
fn read_expr<'a>(
    alloc: Global,
    tokens: &'a [Token],
    depth: u32,
) -> Result<(Part, &'a [Token]), Stopped>
    ensures gives { Reads (λ e. e) (spec.read_expr depth (token_lexemes tokens.now)) result }
    ensures shorter { IfOk result (λ r. length r.1.now < length tokens.now) }
{
    if depth == 0 {
        return Err(Stopped::Before(tokens.len()));
    }
    let depth = depth - 1;
    let (condition, rest) = read_rank(alloc, tokens, depth, 5)?;
    match after_question(rest) {
        Some(rest) => read_choice(alloc, condition, rest, depth),
        None => Ok((condition, rest)),
    }
}

/// Or ":" Expr
#[cycle(read)]
fn read_choice<'a>(
    alloc: Global,
    condition: Part,
    tokens: &'a [Token],
    depth: u32,
) -> Result<(Part, &'a [Token]), Stopped>
    ensures gives { Reads (λ e. e) (spec.choose (spec.read_rank (spec.read_expr depth) 5) (spec.read_expr depth) condition [] (Some (token_lexemes tokens.now))) result }
    ensures shorter { IfOk result (λ r. length r.1.now < length tokens.now) }
{
    let (yes, rest) = read_rank(alloc, tokens, depth, 5)?;
    match after_colon(rest) {
        Some(rest) => {
            let (no, rest) = read_expr(alloc, rest, depth)?;
            Ok((part(alloc, Expr::Choice(condition, yes, no))?, rest))
        }
        None => Err(Stopped::Before(rest.len())),
    }
}

/// An expression whose operators all bind more strongly than the rank.
#[cycle(read)]
fn read_rank<'a>(
    alloc: Global,
    tokens: &'a [Token],
    depth: u32,
    rank: u8,
) -> Result<(Part, &'a [Token]), Stopped>
    ensures gives { Reads (λ e. e) (spec.read_rank (spec.read_expr depth) rank (token_lexemes tokens.now)) result }
    ensures shorter { IfOk result (λ r. length r.1.now < length tokens.now) }
{
    if rank == 0 {
        return read_unary(alloc, tokens, depth);
    }
    let (first, rest) = read_rank(alloc, tokens, depth, rank - 1)?;
    read_joins(alloc, first, rest, depth, rank - 1)
}

/// Operators of a rank with their right sides.
#[cycle(read)]
fn read_joins<'a>(
    alloc: Global,
    first: Part,
    tokens: &'a [Token],
    depth: u32,
    rank: u8,
) -> Result<(Part, &'a [Token]), Stopped>
    ensures gives { Reads (λ e. e) (loop (spec.join_step rank (spec.read_rank (spec.read_expr depth) rank)) first (token_lexemes tokens.now)) result }
    ensures shorter { IfOk result (λ r. length r.1.now ≤ length tokens.now) }
{
    let mut left = first;
    let mut rest = tokens;
    'joins: while let Some((operator, after)) = operator_at(rank, rest) {
        let (right, next) = read_rank(alloc, after, depth, rank)?;
        left = part(alloc, Expr::Binary(operator, left, right))?;
        rest = next;
    }
    Ok((left, rest))
}

/// Unary ::= Member | "!" { "!" } Member | "-" { "-" } Member
#[cycle(read)]
fn read_unary<'a>(
    alloc: Global,
    tokens: &'a [Token],
    depth: u32,
) -> Result<(Part, &'a [Token]), Stopped>
    ensures gives { Reads (λ e. e) (spec.read_unary (spec.read_expr depth) (token_lexemes tokens.now)) result }
    ensures shorter { IfOk result (λ r. length r.1.now < length tokens.now) }
{
    match signs_at(tokens) {
        Signs::Some(operator, count, rest) => {
            let (expr, rest) = read_member(alloc, rest, depth)?;
            Ok((signed(alloc, operator, count, expr)?, rest))
        }
        Signs::Neither => read_member(alloc, tokens, depth),
    }
}

/// Two signs leave an expression as it is.
fn signed(alloc: Global, operator: Unary, count: usize, expr: Part) -> Result<Part, AllocError>
    ensures { IfOk result (λ e. e ≡ signed_is operator count expr) }
{
    if count % 2 == 0 {
        Ok(expr)
    } else {
        part(alloc, Expr::Unary(operator, expr))
    }
}

/// Member ::= Primary { "." ["?"] SELECTOR | "." SELECTOR "(" .. ")" | "[" ["?"] Expr "]" }
#[cycle(read)]
fn read_member<'a>(
    alloc: Global,
    tokens: &'a [Token],
    depth: u32,
) -> Result<(Part, &'a [Token]), Stopped>
    ensures gives { Reads (λ e. e) (spec.read_member (spec.read_expr depth) (token_lexemes tokens.now)) result }
    ensures shorter { IfOk result (λ r. length r.1.now < length tokens.now) }
{
    let (first, after_first) = read_primary(alloc, tokens, depth)?;
    let mut left = first;
    let mut rest = after_first;
    'turns: while goes_on(rest) {
        let (longer, next) = read_next(alloc, left, rest, depth)?;
        left = longer;
        rest = next;
    }
    Ok((left, rest))
}

/// "." ["?"] SELECTOR | "." SELECTOR "(" .. ")" | "[" ["?"] Expr "]"
#[cycle(read)]
fn read_next<'a>(
    alloc: Global,
    left: Part,
    tokens: &'a [Token],
    depth: u32,
) -> Result<(Part, &'a [Token]), Stopped>
    ensures gives { Reads (λ e. e) (spec.read_next (spec.read_expr depth) left (spec.next_of (token_lexemes tokens.now))) result }
    ensures shorter { IfOk result (λ r. length r.1.now < length tokens.now) }
{
    match next_at(tokens) {
        Next::Field(optional, name, rest) => Ok((select(alloc, optional, left, name)?, rest)),
        Next::Method(name, rest) => {
            let (args, rest) = read_arguments(alloc, rest, depth)?;
            match method(alloc, left, name, args)? {
                Some(expr) => Ok((expr, rest)),
                None => Err(Stopped::Before(rest.len())),
            }
        }
        Next::Index(optional, rest) => {
            let (at, closing) = read_expr(alloc, rest, depth)?;
            match after_bracket(closing) {
                Some(rest) => Ok((index(alloc, optional, left, at)?, rest)),
                None => Err(Stopped::Before(closing.len())),
            }
        }
        Next::Cut => Err(Stopped::Before(tokens.len().saturating_sub(1))),
        Next::Ended => Err(Stopped::Before(tokens.len())),
    }
}

/// A literal, a name, a call of a function, or what stands in brackets.
#[cycle(read)]
fn read_primary<'a>(
    alloc: Global,
    tokens: &'a [Token],
    depth: u32,
) -> Result<(Part, &'a [Token]), Stopped>
    ensures gives { Reads (λ e. e) (spec.read_primary (spec.read_expr depth) (token_lexemes tokens.now)) result }
    ensures shorter { IfOk result (λ r. length r.1.now < length tokens.now) }
{
    match start_at(alloc, tokens)? {
        Start::Literal(literal, rest) => Ok((part(alloc, Expr::Literal(literal))?, rest)),
        Start::Name(name, rest) => Ok((part(alloc, Expr::Name(name))?, rest)),
        Start::Call(name, rest) => {
            let (args, rest) = read_arguments(alloc, rest, depth)?;
            match call(alloc, name, args)? {
                Some(expr) => Ok((expr, rest)),
                None => Err(Stopped::Before(rest.len())),
            }
        }
        Start::Parenthesis(rest) => {
            let (expr, closing) = read_expr(alloc, rest, depth)?;
            match after_parenthesis(closing) {
                Some(rest) => Ok((expr, rest)),
                None => Err(Stopped::Before(closing.len())),
            }
        }
        Start::Bracket(rest) => {
            let (elements, rest) = read_elements(alloc, rest, depth)?;
            Ok((part(alloc, Expr::List(Elements { elements }))?, rest))
        }
        Start::Brace(rest) => {
            let (entries, rest) = read_entries(alloc, false, rest, depth)?;
            Ok((part(alloc, Expr::Map(Entries { entries }))?, rest))
        }
        Start::Message(name, rest) => {
            let (entries, rest) = read_entries(alloc, true, rest, depth)?;
            Ok((part(alloc, Expr::Message(name, Entries { entries }))?, rest))
        }
        Start::Wrong => Err(Stopped::Before(tokens.len())),
    }
}

/// [ Expr { "," Expr } ] ")"
#[cycle(read)]
fn read_arguments<'a>(
    alloc: Global,
    tokens: &'a [Token],
    depth: u32,
) -> Result<(Vec<Part>, &'a [Token]), Stopped>
    ensures gives { Reads (λ v. v.items) (spec.read_arguments (spec.read_expr depth) (token_lexemes tokens.now)) result }
    ensures shorter { IfOk result (λ r. length r.1.now < length tokens.now) }
{
    let mut args = Vec::new(alloc);
    let mut rest = tokens;
    'items: while let Some(at) = item_at(args.is_empty(), rest) {
        let (arg, next) = read_expr(alloc, at, depth)?;
        args.push(arg)?;
        rest = next;
    }
    match after_parenthesis(rest) {
        Some(next) => Ok((args, next)),
        None => Err(Stopped::Before(rest.len())),
    }
}

/// [ Element { "," Element } ] [","] "]"
#[cycle(read)]
fn read_elements<'a>(
    alloc: Global,
    tokens: &'a [Token],
    depth: u32,
) -> Result<(Vec<Element>, &'a [Token]), Stopped>
    ensures gives { Reads (λ v. map element_of v.items) (spec.read_elements (spec.read_expr depth) (token_lexemes tokens.now)) result }
    ensures shorter { IfOk result (λ r. length r.1.now < length tokens.now) }
{
    let mut elements = Vec::new(alloc);
    let mut rest = tokens;
    'items: while let Some(at) = item_at(elements.is_empty(), rest) {
        let (element, next) = read_element(alloc, at, depth)?;
        elements.push(element)?;
        rest = next;
    }
    let closing = after_comma(rest);
    match after_bracket(closing) {
        Some(next) => Ok((elements, next)),
        None => Err(Stopped::Before(closing.len())),
    }
}

/// [ "?" ] Expr
#[cycle(read)]
fn read_element<'a>(
    alloc: Global,
    tokens: &'a [Token],
    depth: u32,
) -> Result<(Element, &'a [Token]), Stopped>
    ensures gives { Reads element_of (spec.read_element (spec.read_expr depth) (token_lexemes tokens.now)) result }
    ensures shorter { IfOk result (λ r. length r.1.now < length tokens.now) }
{
    let (optional, at) = optional_at(tokens);
    let (expr, rest) = read_expr(alloc, at, depth)?;
    Ok((Element { optional, expr }, rest))
}

/// [ Entry { "," Entry } ] [","] "}"
#[cycle(read)]
fn read_entries<'a>(
    alloc: Global,
    of_message: bool,
    tokens: &'a [Token],
    depth: u32,
) -> Result<(Vec<Entry>, &'a [Token]), Stopped>
    ensures gives { Reads (λ v. map entry_of v.items) (spec.read_entries (spec.read_expr depth) of_message (token_lexemes tokens.now)) result }
    ensures shorter { IfOk result (λ r. length r.1.now < length tokens.now) }
{
    let mut entries = Vec::new(alloc);
    let mut rest = tokens;
    'items: while let Some(at) = item_at(entries.is_empty(), rest) {
        let (entry, next) = read_entry(alloc, of_message, at, depth)?;
        entries.push(entry)?;
        rest = next;
    }
    let closing = after_comma(rest);
    match after_brace(closing) {
        Some(next) => Ok((entries, next)),
        None => Err(Stopped::Before(closing.len())),
    }
}

/// [ "?" ] Key ":" Expr
#[cycle(read)]
fn read_entry<'a>(
    alloc: Global,
    of_message: bool,
    tokens: &'a [Token],
    depth: u32,
) -> Result<(Entry, &'a [Token]), Stopped>
    ensures gives { Reads entry_of (spec.read_entry (spec.read_expr depth) of_message (token_lexemes tokens.now)) result }
    ensures shorter { IfOk result (λ r. length r.1.now < length tokens.now) }
{
    let (optional, at) = optional_at(tokens);
    let (key, after_key) = read_key(alloc, of_message, at, depth)?;
    match after_colon(after_key) {
        Some(at) => {
            let (value, rest) = read_expr(alloc, at, depth)?;
            let entry = Entry {
                optional,
                key,
                value,
            };
            Ok((entry, rest))
        }
        None => Err(Stopped::Before(after_key.len())),
    }
}

/// What stands before the colon: an expression in a map, and in a message a field's name.
#[cycle(read)]
fn read_key<'a>(
    alloc: Global,
    of_message: bool,
    tokens: &'a [Token],
    depth: u32,
) -> Result<(Key, &'a [Token]), Stopped>
    ensures gives { Reads key_of (spec.read_key (spec.read_expr depth) of_message (token_lexemes tokens.now)) result }
    ensures shorter { IfOk result (λ r. length r.1.now < length tokens.now) }
{
    if of_message {
        return read_field(alloc, tokens);
    }
    let (expr, rest) = read_expr(alloc, tokens, depth)?;
    Ok((Key::Expr(expr), rest))
}

fn read_field<'a>(alloc: Global, tokens: &'a [Token]) -> Result<(Key, &'a [Token]), Stopped>
    ensures gives { Reads key_of (spec.read_field (token_lexemes tokens.now)) result }
    ensures shorter { IfOk result (λ r. length r.1.now < length tokens.now) }
{
    match tokens {
        [Token::Name(name), rest @ ..] => Ok((Key::Field(copied(alloc, name)?), rest)),
        _ => Err(Stopped::Before(tokens.len())),
    }
}
