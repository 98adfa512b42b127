//! Trees: read, copied and written.
use crate::support::harness::is_said;
use crate::support::report::Report;
use crate::support::rows::{Kind, Row, all_rows, try_tables};
use crate::support::texts::{border_of, nested};
use jtree::{Text, Tree};
use serde_json::Value;
use std::alloc::Global;
use std::test::Fail;

// What is read of the bytes, as its text or its fault.
fn outcome(alloc: Global, bytes: &[u8]) -> Result<String, Fail> {
    match Tree::from_bytes(alloc, bytes) {
        Ok(tree) => Ok(tree.to_text(alloc)?),
        Err(fault) => Ok(fault.to_string(alloc)?),
    }
}

fn try_bytes(report: &mut Report, alloc: Global, bytes: &[u8], wanted: &str) -> Result<(), Fail> {
    is_said(report, "what is read", outcome(alloc, bytes), wanted)
}

// What the tables name.
static NAMED: &str = r#"
@CONTROL_CHARACTERS
    | "\u0000\u0001\u0002\u0003\u0004\u0005\u0006\u0007\b\t\n\u000b\f\r\u000e\u000f\u0010\u0011\u0012\u0013\u0014\u0015\u0016\u0017\u0018\u0019
    \u001a\u001b\u001c\u001d\u001e\u001f"
"#;

static DOCUMENTS: &str = r#"
13 rows: name | document | wanted
null | null | null
spaces between items | ␠[ true , false ]␠ | [true,false]
names in another order | {"b":1,"a":2,"":3,"é":4,"Z":5} | {"":3,"Z":5,"a":2,"b":1,"é":4}
names of three and four bytes | {"😀":1,"￼":2} | {"￼":2,"😀":1}
values of several kinds in a list | {"k":[{},[],"",{"x":null}]} | {"k":[{},[],"",{"x":null}]}
the greatest integer | 9223372036854775807 | 9223372036854775807
one above the greatest integer | 9223372036854775808 | J1
the least integer | -9223372036854775808 | -9223372036854775808
one below the least integer | -9223372036854775809 | J1
integers of few digits | [0,-1,10] | [0,-1,10]
a fraction | 1.5 | J1
an exponent | 1e2 | J1
a fraction that is zero | 1.0 | J1
"#;

static REFUSALS_AND_ESCAPES: &str = r#"
12 rows: name | document | wanted
an exponent past any float | 1e999 | J3
a fraction below a name | {"a":[1,1.5]} | J1
half of a pair of surrogates | "\ud800" | J3
two documents | 1 2 | J3
an object that is cut | {"a": | J3
a comma before a bracket | [1,] | J3
a zero before a digit | 01 | J3
a word that is cut | nul | J3
escapes that need not be | "\u0041\/\u00e9\ud83d\ude00" | "A/é😀"
escapes that must be | "a\"b\\c" | "a\"b\\c"
characters that are not escaped | "/␡é😀" | "/␡é😀"
control characters | @CONTROL_CHARACTERS | @CONTROL_CHARACTERS
"#;

/// A document, and its compact text or the fault.
struct DocumentRow;

impl Kind for DocumentRow {
    fn attempt(&self, report: &mut Report, alloc: Global, row: &Row) -> Result<(), Fail> {
        try_bytes(
            report,
            alloc,
            row.text("document").as_bytes(),
            row.text("wanted"),
        )
    }
}

#[test]
fn documents(rt: HostRuntime) -> Result<(), Fail> {
    let mut report = Report::new(rt.alloc());
    let tables = &[NAMED, DOCUMENTS, REFUSALS_AND_ESCAPES];
    all_rows(&mut report, rt.alloc(), &DocumentRow, tables);
    let ended = try_bytes(&mut report, rt.alloc(), b"", "J3");
    report.row("no byte", ended);
    let ended = try_bytes(&mut report, rt.alloc(), b"\"\xff\"", "J3");
    report.row("a byte of 255", ended);
    report.end(&rt)
}

static BORDERS: &str = r#"
4 rows: name | before | times | middle | after | wanted
128 lists | [ | 128 | - | ] | J3
1,048,576 bytes | ␠ | 1048575 | 7 | - | 7
1,048,577 bytes | ␠ | 1048576 | 7 | - | J4
the length goes first | ␠ | 1048576 | nul | - | J4
"#;

/// A long text, and what is said of it.
struct BorderRow;

impl Kind for BorderRow {
    fn attempt(&self, report: &mut Report, alloc: Global, row: &Row) -> Result<(), Fail> {
        let text = border_of(alloc, row)?;
        try_bytes(report, alloc, text.as_bytes(), row.text("wanted"))
    }
}

#[test]
fn borders(rt: HostRuntime) -> Result<(), Fail> {
    try_tables(&rt, rt.alloc(), &BorderRow, &[BORDERS])
}

fn tree_of_value(alloc: Global, document: &str) -> Result<Tree, Fail> {
    let value = Value::from_str(alloc, document)?;
    Ok(Tree::from_value(alloc, &value)?)
}

// The text of a tree after other bytes.
fn appended(alloc: Global, tree: &Tree, before: &str) -> Result<String, Fail> {
    let bytes = Vec::from_slice(alloc, before.as_bytes())?;
    Ok(String::from_utf8(tree.append_text(bytes)?)?)
}

#[test]
fn after_others(rt: HostRuntime) -> Result<(), Fail> {
    let document = r#"{"a":[1,null,true,"x"],"b":{"c":-5}}"#;
    let wanted = r#"> {"a":[1,null,true,"x"],"b":{"c":-5}}"#;
    let mut report = Report::new(rt.alloc());
    let tree = tree_of_value(rt.alloc(), document)?;
    let found = appended(rt.alloc(), &tree, "> ");
    let ended = is_said(&mut report, "the text", found, wanted);
    report.row("a tree after others", ended);
    report.end(&rt)
}

fn copied_text(alloc: Global, text: &str) -> Result<Text, Fail> {
    let text = Text::from_str(alloc, text)?;
    Ok(text.copy(alloc)?)
}

fn text_set_to(alloc: Global, text: &str) -> Result<Text, Fail> {
    let mut set = Text::from_str(alloc, "abc")?;
    set.set(text)?;
    Ok(set)
}

#[test]
fn copies_of_texts(rt: HostRuntime) -> Result<(), Fail> {
    let mut report = Report::new(rt.alloc());
    let text = copied_text(rt.alloc(), "abc")?;
    report.is_text("the text", text.as_str(), "abc");
    report.row("a copy", Ok(()));
    for wanted in ["", "de", "a text with more bytes"] {
        let text = text_set_to(rt.alloc(), wanted)?;
        report.is_text("the text", text.as_str(), wanted);
        report.row("one that was set", Ok(()));
    }
    report.end(&rt)
}

/// What is read is copied, compared and written. The bytes can be too many to be shown.
fn try_copy(report: &mut Report, alloc: Global, bytes: &[u8]) -> Result<(), Fail> {
    let tree = Tree::from_bytes(alloc, bytes)?;
    let copy = tree.copy(alloc)?;
    report.holds("an equal copy", copy == tree);
    let text = copy.to_text(alloc)?;
    report.holds("the same text", text.as_bytes() == bytes);
    Ok(())
}

#[test]
fn deepest_chain(rt: HostRuntime) -> Result<(), Fail> {
    let text = nested(rt.alloc(), "[", 127, "", "]")?;
    let mut report = Report::new(rt.alloc());
    let ended = try_copy(&mut report, rt.alloc(), text.as_bytes());
    report.row("the deepest chain", ended);
    report.end(&rt)
}

fn ones(alloc: Global) -> Result<Vec<u8>, Fail> {
    let mut bytes = Vec::from_slice(alloc, b"[1")?;
    for _ in 1..500_000 {
        bytes.extend_from_slice(b",1")?;
    }
    bytes.push(b']')?;
    Ok(bytes)
}

/// Half a million items are read, copied and written.
#[test]
fn long_list(rt: HostRuntime) -> Result<(), Fail> {
    let bytes = ones(rt.alloc())?;
    let mut report = Report::new(rt.alloc());
    let ended = try_copy(&mut report, rt.alloc(), &bytes);
    report.row("a long list", ended);
    report.end(&rt)
}
