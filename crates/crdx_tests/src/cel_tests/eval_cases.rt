//! Values of expressions of the Common Expression Language. The answers are made by hand from its specification; cel-go gives the same where it
//! gives a value, and an error where a row has one.
use crate::support::report::Report;
use crate::support::rows::{Kind, Row, try_tables};
use cel_ast::Text;
use cel_eval::{Answer, Env, Stop, eval};
use cel_parse::{MOST_NESTED, parse};
use cel_read::tokens;
use cel_value::{Entries, Key, Value, Values};
use std::alloc::Global;
use std::fmt::Write;
use std::test::Fail;

static LITERALS: &str = r#"
9 rows: name | text | answer
words | [true, false, null] | [true, false, null]
integers | [0, -1, 9223372036854775807, -9223372036854775808] | [0, -1, 9223372036854775807, -9223372036854775808]
strings | ["", "é\n", 'a'] | ["", "é␊", "a"]
a map | {"a": 1, true: [], 2: null} | {"a": 1, true: [], 2: null}
empty | [[], {}] | [[], {}]
an unsigned integer | 1u | not judged: Unsigned
a number with a point | 1.5 | not judged: Double
bytes | b"a" | not judged: Bytes
the first stop | [1, 1 / 0, 1u] | error: DivisionByZero
"#;

static MAPS: &str = r#"
10 rows: name | text | answer
a key of another type | {[1]: 2} | not judged: KeyType
null as a key | {null: 2} | not judged: KeyType
a key given twice | {1: 2, 3: 4, 1: 2} | not judged: RepeatedKey
keys that are alike | {1: 2, "1": 3, true: 4} | {1: 2, "1": 3, true: 4}
an error in a key | {1 / 0: 2} | error: DivisionByZero
an error in a value | {1: 2 / 0} | error: DivisionByZero
an optional entry | {?1: 2} | not judged: Optional
an optional element | [?1] | not judged: Optional
a message | a{b: 1} | not judged: Message
an error before an optional one | [1 / 0, ?1] | error: DivisionByZero
"#;

static ACCESS: &str = r#"
24 rows: name | text | answer
a field | {"a": {"b": 1}}.a.b | 1
no such field | {"a": 1}.b | error: NoSuchKey
a field of no map | [1].a | error: NoOverload
a field of null | null.a | error: NoOverload
a field that is there | has({"a": 1}.a) | true
a field that is null | has({"a": null}.a) | true
a field that is not there | has({"a": 1}.b) | false
a field below one that is not there | has({"a": 1}.b.c) | error: NoSuchKey
has of a number | has({"a": 1}.a.b) | error: NoOverload
an optional field | {"a": 1}.?a | not judged: Optional
items | [[3, 4][0], [3, 4][1]] | [3, 4]
past the end | [3, 4][2] | error: IndexOutOfRange
before the beginning | [3, 4][-1] | error: IndexOutOfRange
not by an integer | [3, 4]["a"] | error: NoOverload
keys | [{"a": 1}["a"], {2: 3}[2], {true: 4}[true]] | [1, 3, 4]
no such key | {"a": 1}["b"] | error: NoSuchKey
a key of another type | {"1": 1}[1] | error: NoSuchKey
an index of no list | 1[0] | error: NoOverload
an optional index | [1][?0] | not judged: Optional
in a list | [2 in [1, 2], 3 in [1, 2], "1" in [1], [1] in [[1]]] | [true, false, false, true]
in a map | ["a" in {"a": 1}, 1 in {"a": 1}, [] in {"a": 1}] | [true, false, false]
in no list | 1 in "1" | error: NoOverload
no such name | a.b | not judged: Name
a bound name | [x, x + 1] | [5, 6]
"#;

static EQUALITY: &str = r#"
14 rows: name | text | answer
numbers | [1 == 1, 1 == 2, 1 != 2] | [true, false, true]
strings | ["a" == "a", "a" == "A", "é" == "e"] | [true, false, false]
words | [true == true, true == false, null == null, null != null] | [true, false, true, false]
types | [1 == "1", 1 == true, null == false, [] == {}] | [false, false, false, false]
lists | [[1, "a"] == [1, "a"], [1] == [1, 1], [1, 2] == [2, 1], [] == []] | [true, false, false, true]
maps | [{1: 2, 3: 4} == {3: 4, 1: 2}, {1: 2} == {1: 3}, {1: 2} == {1: 2, 3: 4}, {1: 2, 3: 4} == {1: 2}] | [true, false, false, false]
keys | [{"1": 2} == {1: 2}, {1: [2]} == {1: [2]}] | [false, true]
below | [[[1], {"a": [2]}] == [[1], {"a": [2]}], [[1]] == [[2]]] | [true, false]
smaller numbers | [1 < 2, 2 < 2, -1 < 1, 2 <= 2, 3 <= 2] | [true, false, true, true, false]
larger numbers | [2 > 1, 2 > 2, 2 >= 2, 1 >= 2] | [true, false, true, false]
texts in order | ["a" < "b", "a" < "aa", "" < "a", "Z" < "a", "b" <= "a"] | [true, true, true, true, false]
texts by code points | ["z" < "é", "\uffff" < "\U00010000", "é" >= "é"] | [true, true, true]
words in order | [false < true, true < false, true <= true] | [true, false, true]
without order | [1, 2] < [3] | error: NoOverload
"#;

static ARITHMETIC: &str = r#"
21 rows: name | text | answer
sums | [1 + 2, 1 - 2, -3 * 4] | [3, -1, -12]
cut off towards zero | [7 / 2, -7 / 2, 7 / -2, -7 / -2] | [3, -3, -3, 3]
remainders | [7 % 2, -7 % 2, 7 % -2, -7 % -2] | [1, -1, 1, -1]
divided by zero | 1 / 0 | error: DivisionByZero
the remainder of it | 1 % 0 | error: DivisionByZero
the largest sum | 9223372036854775806 + 1 | 9223372036854775807
past it | 9223372036854775807 + 1 | error: Overflow
below the smallest | -9223372036854775808 - 1 | error: Overflow
a product past it | 4611686018427387904 * 2 | error: Overflow
the smallest product | 4611686018427387904 * -2 | -9223372036854775808
the smallest divided | -9223372036854775808 / -1 | error: Overflow
its remainder | -9223372036854775808 % -1 | error: Overflow
the smallest negated | -(-9223372036854775808) | error: Overflow
negated | -(1 + 2) | -3
a text negated | -"a" | error: NoOverload
texts joined | "a" + "" + "é" | "aé"
lists joined | [1] + [] + ["a", 2] | [1, "a", 2]
maps are not | {"a": 1} + {"b": 2} | error: NoOverload
types that are mixed | 1 + "a" | error: NoOverload
not | [!true, !false] | [false, true]
not of a number | !(1 + 1) | error: NoOverload
"#;

static LOGIC: &str = r#"
27 rows: name | text | answer
and | [true && true, true && false, false && true, false && false] | [true, false, false, false]
or | [true || true, true || false, false || true, false || false] | [true, true, true, false]
false wins over an error | [false && 1 / 0 > 1, 1 / 0 > 1 && false] | [false, false]
true wins over an error | [true || 1 / 0 > 1, 1 / 0 > 1 || true] | [true, true]
an error and true | 1 / 0 > 1 && true | error: DivisionByZero
true and an error | true && 1 / 0 > 1 | error: DivisionByZero
an error or false | 1 / 0 > 1 || false | error: DivisionByZero
false or an error | false || 1 / 0 > 1 | error: DivisionByZero
the first of two errors | 1 / 0 > 1 && [1][2] > 1 | error: DivisionByZero
the first of two errors of or | [1][2] > 1 || 1 / 0 > 1 | error: IndexOutOfRange
what is not judged and an error | f() && 1 / 0 > 1 | not judged: Function
an error and what is not judged | 1 / 0 > 1 && f() | not judged: Function
an error or what is not judged | 1 / 0 > 1 || f() | not judged: Function
what is not judged and false | [f() && false, false && f()] | [false, false]
what is not judged or true | [f() || true, true || 1.5 > 1] | [true, true]
what is not judged and true | f() && true | not judged: Function
the first that is not judged | 1u == 1u && f() | not judged: Unsigned
a number and false | 1 && false | false
a number and true | 1 && true | error: NoOverload
a number or true | 1 || true | true
a choice | [true ? 1 : 2, false ? 1 : 2] | [1, 2]
the other side is left alone | [true ? 1 : 1 / 0, false ? f() : 2] | [1, 2]
a choice by an error | 1 / 0 > 1 ? 1 : 2 | error: DivisionByZero
a choice by a number | 1 ? 1 : 2 | error: NoOverload
a choice by what is not judged | f() ? 1 : 2 | not judged: Function
a function | size("a") | not judged: Function
a method | "a".size() | not judged: Function
"#;

static MACROS: &str = r#"
33 rows: name | text | answer
all | [[1, 2].all(y, y > 0), [1, 2].all(y, y > 1), [].all(y, false)] | [true, false, true]
exists | [[1, 2].exists(y, y > 1), [1, 2].exists(y, y > 2), [].exists(y, true)] | [true, false, false]
exists one | [[1, 2].exists_one(y, y > 1), [1, 2].exists_one(y, y > 0), [1, 2].exists_one(y, y > 2)] | [true, false, false]
filter | [[1, 2, 3].filter(y, y != 2), [].filter(y, true)] | [[1, 3], []]
map | [[1, 2].map(y, y * 2), [].map(y, y)] | [[2, 4], []]
map with a test | [1, 2, 3].map(y, y > 1, y * 2) | [4, 6]
all absorbs an error | [0, 1].all(y, 1 / y > 5) | false
all ends in an error | [0, 1].all(y, 1 / y > 0) | error: DivisionByZero
exists absorbs an error | [0, 1].exists(y, 1 / y > 0) | true
exists ends in an error | [0, 1].exists(y, 1 / y > 5) | error: DivisionByZero
exists one absorbs none | [0, 1].exists_one(y, 1 / y > 0) | error: DivisionByZero
exists one by a number | [1].exists_one(y, y) | error: NoOverload
filter absorbs none | [1, 0].filter(y, 1 / y > 0) | error: DivisionByZero
filter by a number | [1].filter(y, y) | error: NoOverload
map absorbs none | [1, 0].map(y, 1 / y) | error: DivisionByZero
an error in the test | [1, 0].map(y, 1 / y > 0, y) | error: DivisionByZero
an error in the target | [1, 0].map(y, true, 1 / y) | error: DivisionByZero
no target where the test is false | [1, 0].map(y, y > 0, 1 / y) | [1]
all by a number | [1].all(y, y) | error: NoOverload
all by a number and false | [1, false].all(y, y) | false
over a map | {"a": 1, "b": 2}.all(y, y in ["a", "b"]) | true
keys of a map | {"a": 1, 2: 3, true: 4}.map(y, y) | ["a", 2, true]
keys that pass | {"a": 1, "b": 2}.filter(y, y == "b") | ["b"]
over null | null.all(y, true) | error: NoOverload
over a text | "ab".exists(y, true) | error: NoOverload
map with a test over a number | 1.map(y, true, y) | error: NoOverload
over an error | [1, 0][2].all(y, true) | error: IndexOutOfRange
over what is not judged | f().map(y, y) | not judged: Function
the inner name | [1, 2].map(x, x) + [x] | [1, 2, 5]
in one another | [[1, 2], [3]].map(y, y.filter(z, z > 1)) | [[2], [3]]
the outer name from within | [1, 2].map(y, [3, 4].map(z, y * z)) | [[3, 4], [6, 8]]
what is not judged is absorbed | [1, 2].exists(y, y == 2 || f()) | true
what is not judged is left | [1, 2].all(y, y == 2 || f()) | not judged: Function
"#;

/// Writes a value as an expression.
#[cycle(write_value)]
fn write_value(said: &mut String, value: &Value) -> Result<(), Fail> {
    match value {
        Value::Null => said.push_str("null")?,
        Value::Bool(b) => write!(said, "{b}")?,
        Value::Int(n) => write!(said, "{n}")?,
        Value::String(text) => write!(said, "\"{}\"", text.text)?,
        Value::List(values) => write_values(said, values)?,
        Value::Map(entries) => write_entries(said, entries)?,
    }
    Ok(())
}

#[cycle(write_value)]
fn write_values(said: &mut String, values: &Values) -> Result<(), Fail> {
    said.push_str("[")?;
    let mut is_first = true;
    for value in &values.values {
        said.push_str(if is_first { "" } else { ", " })?;
        write_value(said, value)?;
        is_first = false;
    }
    said.push_str("]")?;
    Ok(())
}

#[cycle(write_value)]
fn write_entries(said: &mut String, entries: &Entries) -> Result<(), Fail> {
    said.push_str("{")?;
    let mut is_first = true;
    for entry in &entries.entries {
        said.push_str(if is_first { "" } else { ", " })?;
        match &entry.key {
            Key::Bool(b) => write!(said, "{b}")?,
            Key::Int(n) => write!(said, "{n}")?,
            Key::String(text) => write!(said, "\"{}\"", text.text)?,
        }
        said.push_str(": ")?;
        write_value(said, &entry.value)?;
        is_first = false;
    }
    said.push_str("}")?;
    Ok(())
}

/// What the text gives where `x` is 5.
fn said_of(alloc: Global, text: &str) -> Result<String, Fail> {
    let mut said = String::new(alloc);
    let Ok(tokens) = tokens(alloc, text) else {
        return Err(Fail::from("no tokens"));
    };
    let Ok(expr) = parse(alloc, tokens.as_slice(), MOST_NESTED) else {
        return Err(Fail::from("no expression"));
    };
    let name = Text {
        text: String::from_str(alloc, "x")?,
    };
    let five = Value::Int(5);
    match eval(alloc, &expr, &Env::Bound(&name, &five, &Env::Empty))? {
        Answer::Lent(value) => write_value(&mut said, value)?,
        Answer::Made(value) => write_value(&mut said, &value)?,
        Answer::Stopped(Stop::Error(fault)) => write!(said, "error: {fault:?}")?,
        Answer::Stopped(Stop::NotJudged(reason)) => write!(said, "not judged: {reason:?}")?,
    }
    Ok(said)
}

/// A text, and what it gives.
struct EvalRow;

impl Kind for EvalRow {
    fn attempt(&self, report: &mut Report, alloc: Global, row: &Row) -> Result<(), Fail> {
        let said = said_of(alloc, row.text("text"))?;
        report.is_text("answer", said.as_str(), row.text("answer"));
        Ok(())
    }
}

#[test]
fn what_expressions_give(rt: HostRuntime) -> Result<(), Fail> {
    try_tables(
        &rt,
        rt.alloc(),
        &EvalRow,
        &[LITERALS, MAPS, ACCESS, EQUALITY, ARITHMETIC, LOGIC, MACROS],
    )
}
