//! What a call is.
ghost use Rattle.std.specs.Prelude.{◌≡◌, length, chars, option_map, IfOk};
ghost use Rattle.cel_read.specs.View.{text_of};
ghost use Rattle.cel_ast.specs.Syntax as tree;
ghost use Rattle.cel_parse.specs.Calls as spec;

use crate::members::part;
use crate::names::copied;
use crate::words::{is_word, macro_of};
use cel_ast::{Expr, Macro, Part, Parts, Text};
use std::alloc::{AllocError, Global};

/// A call of a function; `None` where it is `has` of another form.
pub(crate) fn call(alloc: Global, name: Text, args: Vec<Part>) -> Result<Option<Part>, AllocError>
    ensures { IfOk result (λ e. e ≡ spec.call_of name args.items) }
{
    if args.len() == 1 && is_word(name.text.as_str(), "has") {
        return presence(alloc, args);
    }
    Ok(Some(part(alloc, Expr::Call(name, Parts { exprs: args }))?))
}

fn presence(alloc: Global, args: Vec<Part>) -> Result<Option<Part>, AllocError>
    requires { length args.items ≡ 1 }
    ensures { IfOk result (λ e. e ≡ spec.presence args.items) }
{
    let mut args = args;
    let Some(arg) = args.pop() else {
        return Ok(None);
    };
    match selection(arg) {
        Some((left, name)) => Ok(Some(part(alloc, Expr::Present(left, name))?)),
        None => Ok(None),
    }
}

/// What is selected, and from what.
fn selection(arg: Part) -> Option<(Part, Text)>
    ensures { option_map (λ r. (r.0, r.1)) result ≡ spec.selection arg }
{
    match Box::into_inner(arg.expr) {
        Expr::Select(left, name) => Some((left, name)),
        _ => None,
    }
}

/// A call of a method, or a macro; `None` where it is a macro of another form.
pub(crate) fn method(
    alloc: Global,
    left: Part,
    name: &String,
    args: Vec<Part>,
) -> Result<Option<Part>, AllocError>
    ensures { IfOk result (λ e. e ≡ spec.method_of left (text_of name.now) args.items) }
{
    if args.len() == 2 {
        return of_two(alloc, left, name, args);
    }
    if args.len() == 3 && is_word(name.as_str(), "map") {
        return mapping(alloc, left, args);
    }
    Ok(Some(plain_method(alloc, left, name, args)?))
}

fn plain_method(
    alloc: Global,
    left: Part,
    name: &String,
    args: Vec<Part>,
) -> Result<Part, AllocError>
    ensures { IfOk result (λ e. e ≡ tree.method left (text_of name.now) (tree.parts args.items)) }
{
    let name = copied(alloc, name)?;
    part(alloc, Expr::Method(left, name, Parts { exprs: args }))
}

fn of_two(
    alloc: Global,
    left: Part,
    name: &String,
    args: Vec<Part>,
) -> Result<Option<Part>, AllocError>
    requires { length args.items ≡ 2 }
    ensures { IfOk result (λ e. e ≡ spec.of_two (spec.macro_of (text_of name.now)) left (text_of name.now) args.items) }
{
    match macro_of(name.as_str()) {
        Some(kind) => binding(alloc, kind, left, args),
        None => Ok(Some(plain_method(alloc, left, name, args)?)),
    }
}

/// `left.all(x, p)` and the like
fn binding(
    alloc: Global,
    kind: Macro,
    left: Part,
    args: Vec<Part>,
) -> Result<Option<Part>, AllocError>
    requires { length args.items ≡ 2 }
    ensures { IfOk result (λ e. e ≡ spec.binding kind left args.items) }
{
    match bound(args) {
        Some((name, body)) => Ok(Some(part(alloc, Expr::Macro(kind, left, name, body))?)),
        None => Ok(None),
    }
}

/// `left.map(x, p, t)`
fn mapping(alloc: Global, left: Part, args: Vec<Part>) -> Result<Option<Part>, AllocError>
    requires { length args.items ≡ 3 }
    ensures { IfOk result (λ e. e ≡ spec.mapping left args.items) }
{
    let mut args = args;
    let Some(body) = args.pop() else {
        return Ok(None);
    };
    match bound(args) {
        Some((name, test)) => Ok(Some(part(alloc, Expr::MapWhere(left, name, test, body))?)),
        None => Ok(None),
    }
}

/// The name that a macro binds, and the expression after it.
fn bound(args: Vec<Part>) -> Option<(Text, Part)>
    requires { length args.items ≡ 2 }
    ensures { option_map (λ b. (b.0, b.1)) result ≡ spec.bound args.items }
{
    let mut args = args;
    let body = args.pop()?;
    match simple_name(args.pop()?) {
        Some(name) => Some((name, body)),
        None => None,
    }
}

fn simple_name(arg: Part) -> Option<Text>
    ensures { result ≡ spec.simple_name arg }
{
    match Box::into_inner(arg.expr) {
        Expr::Name(name) => Some(name),
        _ => None,
    }
}
