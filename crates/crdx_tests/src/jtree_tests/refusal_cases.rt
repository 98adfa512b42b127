//! Why bytes are no document.
use crate::support::harness::is_said;
use crate::support::report::Report;
use crate::support::rows::{Kind, Row, all_rows, try_tables};
use crate::support::texts::border_of;
use jtree::Refusal;
use std::alloc::Global;
use std::test::Fail;

// What is said of the bytes: a number and its pointer, a line and a column, or a length.
fn said(alloc: Global, bytes: &[u8]) -> Result<String, Fail> {
    Ok(match Refusal::of_bytes(alloc, bytes)? {
        None => String::from_str(alloc, "a document")?,
        Some(Refusal::NotAnInteger { number, pointer }) => {
            format!(in alloc; "{number} at {pointer:?}")?
        }
        Some(
            Refusal::NotJson {
                line,
                column,
                is_yaml,
            },
        ) => {
            let form = if is_yaml { "YAML" } else { "no YAML" };
            format!(in alloc; "{line}:{column}, {form}")?
        }
        Some(Refusal::TooLong { bytes }) => format!(in alloc; "{bytes} bytes")?,
    })
}

static NUMBERS: &str = r#"
11 rows: name | document | wanted
integers of 64 bits | {"a":[1,-9223372036854775808],"b":{}} | a document
a fraction | 0.5 | 0.5 at ""
an exponent | ␠1e2␠ | 1e2 at ""
a negative zero | -0 | -0 at ""
a fraction with a zero after it | 1.50 | 1.50 at ""
one above the greatest integer | [9223372036854775807,9223372036854775808] | 9223372036854775808 at "/1"
one below the least integer | [-9223372036854775809] | -9223372036854775809 at "/0"
an integer of 65 bits | [18446744073709551616] | 18446744073709551616 at "/0"
an exponent with a capital letter and a sign | [1,[2,1E+2],0.5] | 1E+2 at "/1/1"
a fraction that is zero | [[],{},[[]],0.0] | 0.0 at "/3"
a number in an object in lists | [[],{"x":[1,2,{"y":1.0}]}] | 1.0 at "/1/x/2/y"
"#;

static NAMES: &str = r#"
9 rows: name | document | wanted
two members, the later name first | {"b":0.5,"a":2.5} | 2.5 at "/a"
a member below a name that begins the other | {"a-b":0.5,"a":{"b":1.5}} | 1.5 at "/a/b"
a capital letter before a small one | {"a":{"z":0.5},"B":[1.5]} | 1.5 at "/B/0"
a name twice, with an integer last | {"a":0.5,"a":1,"b":1.5} | 1.5 at "/b"
a name twice, with lists | {"a":[0.5,1.5],"a":[1,2.5]} | 2.5 at "/a/1"
a name twice, with another between | {"a":1.50,"b":1,"a":1.5} | 1.5 at "/a"
a slash and a tilde in names | {"a/b":{"~":0.25}} | 0.25 at "/a~1b/~0"
an escaped letter, a quote and an empty name | {"\u0061\"":{"":5e-1}} | 5e-1 at "/a\"/"
names of digits | {"0":{"1":[0.5]},"":1} | 0.5 at "/0/1/0"
"#;

static TEXTS: &str = r#"
6 rows: name | document | wanted
no byte | - | 1:0, no YAML
newlines alone | ␊␊ | 3:0, no YAML
a word that is cut | nul | 1:1, no YAML
a comma before a brace | {␊  "a": 1,␊} | 3:1, no YAML
no comma between items | [1,␊ 2 3] | 2:4, no YAML
a letter of two bytes before the fault | {"é":x} | 1:7, no YAML
"#;

static MARKERS_AND_KEYS: &str = r#"
13 rows: name | document | wanted
a document after a list | [1]␊---␊ | 2:1, no YAML
a marker of YAML and a key | ---␊a: 1␊ | 1:1, YAML
a marker of YAML and an object | --- {}␊ | 1:1, YAML
a directive of YAML | %YAML 1.2␊---␊ | 1:1, YAML
a list of YAML | - a␊- b␊ | 1:1, YAML
a dash without a space | -a␊ | 1:1, no YAML
a key and a word | kind: CustomResourceDefinition␊ | 1:1, YAML
a key and a key below it | spec:␊  a: 1␊ | 1:1, YAML
the same with line breaks of two characters | spec:␍␊  a: 1␍␊ | 1:1, YAML
a key and a comment | spec: # what it is␊ | 1:1, YAML
a key after spaces | ␠␠spec:␊ | 1:3, YAML
a key after comments | ␊# a comment␊␊  # another␊spec:␊ | 2:1, YAML
comments alone | # only␊# comments␊ | 1:1, no YAML
"#;

static OTHER_KEYS: &str = r#"
7 rows: name | document | wanted
a key with a slash, dots and digits | app.kubernetes.io/name_1: a-b␊ | 1:1, YAML
a key in braces | {a: 1} | 1:2, no YAML
a key in quotes | 'a': 1 | 1:1, no YAML
a key with a space | a b: 1 | 1:1, no YAML
an address | http://x | 1:1, no YAML
a colon and a number | : 1 | 1:1, no YAML
a colon alone | : | 1:1, no YAML
"#;

fn try_bytes(report: &mut Report, alloc: Global, bytes: &[u8], wanted: &str) -> Result<(), Fail> {
    is_said(report, "what is said", said(alloc, bytes), wanted)
}

/// A document, and what is said of it.
struct RefusedRow;

impl Kind for RefusedRow {
    fn attempt(&self, report: &mut Report, alloc: Global, row: &Row) -> Result<(), Fail> {
        try_bytes(
            report,
            alloc,
            row.text("document").as_bytes(),
            row.text("wanted"),
        )
    }
}

#[test]
fn refusals(rt: HostRuntime) -> Result<(), Fail> {
    let mut report = Report::new(rt.alloc());
    let tables = &[NUMBERS, NAMES, TEXTS, MARKERS_AND_KEYS, OTHER_KEYS];
    all_rows(&mut report, rt.alloc(), &RefusedRow, tables);
    let ended = try_bytes(&mut report, rt.alloc(), b"a: \xff", "1:4, no YAML");
    report.row("a byte of 255", ended);
    report.end(&rt)
}

static BORDERS: &str = r#"
4 rows: name | before | times | middle | after | wanted
127 lists | [ | 127 | - | ] | a document
1,048,576 bytes | ␠ | 1048573 | 0.5 | - | 0.5 at ""
1,048,577 bytes | ␠ | 1048574 | 0.5 | - | 1048577 bytes
1,048,576 spaces | ␠ | 1048576 | - | - | 1:1048576, no YAML
"#;

/// A long text, and what is said of it.
struct BorderRow;

impl Kind for BorderRow {
    fn attempt(&self, report: &mut Report, alloc: Global, row: &Row) -> Result<(), Fail> {
        let text = border_of(alloc, row)?;
        try_bytes(report, alloc, text.as_bytes(), row.text("wanted"))
    }
}

#[test]
fn borders(rt: HostRuntime) -> Result<(), Fail> {
    try_tables(&rt, rt.alloc(), &BorderRow, &[BORDERS])
}
