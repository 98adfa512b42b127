//! Lines of a source, one at a time.
use crate::support::fakes::FailingSource;
use crate::support::harness::is_said;
use crate::support::report::Report;
use crate::support::rows::{Kind, Row, try_tables};
use crate::support::texts::padded;
use jtree::lines::{LineFeed, LineSource};
use jtree::{JFault, Tree};
use std::alloc::Global;
use std::fmt::Write;
use std::test::Fail;

static LINES: &str = r#"
8 rows: name | bytes | wanted
no bytes | - | -
a newline alone | ␊ | [J3]
one line | {}␊ | [{}]
the last line without a newline | {}␊1 | [{}][1]
empty lines | ␊1␊␊2␊␊ | [J3][1][J3][2][J3]
a line break of two characters | 1␍␊[2]␍␊ | [1][[2]]
lines that are no documents | {␊0.5␊3␊ | [J3][J1][3]
a newline in a text | "a\nb"␊"a␊b"␊ | ["a\nb"][J3][J3]
"#;

fn push_read(alloc: Global, all: &mut String, read: Result<Tree, JFault>) -> Result<(), Fail> {
    let text = match read {
        Ok(tree) => tree.to_text(alloc)?,
        Err(fault) => fault.to_string(alloc)?,
    };
    Ok(write!(all, "[{text}]")?)
}

/// What is read of each line of a source, at most eight of them.
fn said_of(alloc: Global, source: FailingSource<'_>) -> Result<String, Fail> {
    let mut feed = LineFeed::new(alloc, source);
    let mut line = Vec::new(alloc);
    let mut all = String::new(alloc);
    for _ in 0..8 {
        match feed.next_line(&mut line) {
            Ok(true) => push_read(alloc, &mut all, Tree::from_bytes(alloc, line.as_slice()))?,
            Ok(false) => return Ok(all),
            Err(fault) => {
                all.push_str(fault.to_string(alloc)?.as_str())?;
                return Ok(all);
            }
        }
    }
    Ok(all)
}

/// The bytes of a source, and what is read of each line, which is in brackets; or the fault that ends them.
struct LinesRow;

impl Kind for LinesRow {
    fn attempt(&self, report: &mut Report, alloc: Global, row: &Row) -> Result<(), Fail> {
        for step in [1, 2, 3, usize::MAX] {
            let source = FailingSource::new(row.text("bytes").as_bytes(), step, usize::MAX);
            is_said(
                report,
                "the lines",
                said_of(alloc, source),
                row.text("wanted"),
            )?;
        }
        Ok(())
    }
}

/// The lines are the same in pieces of any length.
#[test]
fn lines(rt: HostRuntime) -> Result<(), Fail> {
    jtree::laws::lines_are_unique();
    try_tables(&rt, rt.alloc(), &LinesRow, &[LINES])
}

static LONG_LINES: &str = r#"
4 rows: name | spaces | end | wanted
the longest line, the last one | 1048575 | - | [1]
the longest line before another | 1048575 | ␊2 | [1][2]
one byte more, in the last line | 1048576 | - | J4
one byte more, in a line before another | 1048576 | ␊2 | J4
"#;

/// A 1 with so many spaces after it, an end, and what is read of the lines.
struct LongLine;

impl Kind for LongLine {
    fn attempt(&self, report: &mut Report, alloc: Global, row: &Row) -> Result<(), Fail> {
        let mut bytes = padded(alloc, "1", row.count("spaces"))?;
        bytes.push_str(row.text("end"))?;
        let source = FailingSource::new(bytes.as_bytes(), usize::MAX, usize::MAX);
        is_said(
            report,
            "the lines",
            said_of(alloc, source),
            row.text("wanted"),
        )
    }
}

/// A line may be as long as a document, with a newline or without, and no longer.
#[test]
fn long_lines(rt: HostRuntime) -> Result<(), Fail> {
    try_tables(&rt, rt.alloc(), &LongLine, &[LONG_LINES])
}

static FAILURES: &str = r#"
6 rows: name | left | wanted
no byte | 0 | J5
two bytes | 2 | J5
a line | 3 | [{}]J5
a byte after a line | 4 | [{}]J5
two lines | 5 | [{}][1]J5
two lines and a byte | 6 | [{}][1]J5
"#;

/// After how many bytes a source fails, and what is read of the lines until then.
struct FailingLines;

impl Kind for FailingLines {
    fn attempt(&self, report: &mut Report, alloc: Global, row: &Row) -> Result<(), Fail> {
        let source = FailingSource::new(b"{}\n1\n2", 1, row.count("left"));
        is_said(
            report,
            "the lines",
            said_of(alloc, source),
            row.text("wanted"),
        )
    }
}

/// A source that fails after each number of bytes, also after the last one.
#[test]
fn failures(rt: HostRuntime) -> Result<(), Fail> {
    try_tables(&rt, rt.alloc(), &FailingLines, &[FAILURES])
}
