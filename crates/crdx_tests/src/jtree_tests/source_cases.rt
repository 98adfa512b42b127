//! Documents that come in pieces, and sources that fail.
use crate::support::documents::WIDGET;
use crate::support::fakes::FailingSource;
use crate::support::harness::is_said;
use crate::support::report::Report;
use crate::support::rows::{Kind, Row, try_tables};
use crate::support::texts::padded;
use jtree::source::{Feed, Source, read_bytes};
use jtree::{JFault, Tree};
use std::alloc::{AllocError, Global};
use std::io::{self, Error, ErrorKind, Read};
use std::test::Fail;

fn said(alloc: Global, read: Result<Tree, JFault>) -> Result<String, Fail> {
    match read {
        Ok(tree) => Ok(tree.to_text(alloc)?),
        Err(fault) => Ok(fault.to_string(alloc)?),
    }
}

fn said_of(alloc: Global, source: &mut impl Source) -> Result<String, Fail> {
    said(alloc, Tree::from_reader(alloc, source))
}

// How long pieces are: one byte, the length of a piece that is asked for, those beside it, and all at once.
static STEPS: [usize; 6] = [1, 7, 8191, 8192, 8193, usize::MAX];

fn try_piece(
    report: &mut Report,
    alloc: Global,
    document: &str,
    wanted: &str,
    step: usize,
) -> Result<(), Fail> {
    let mut source = FailingSource::new(document.as_bytes(), step, usize::MAX);
    let found = said_of(alloc, &mut source);
    is_said(report, "what is read", found, wanted)?;
    report.is_number("the failures", source.failures, 0);
    Ok(())
}

/// A document of 20,000 bytes is the tree of `from_bytes` in pieces of any length.
#[test]
fn pieces(rt: HostRuntime) -> Result<(), Fail> {
    let alloc = rt.alloc();
    let document = padded(alloc, WIDGET, 20_000usize.saturating_sub(WIDGET.len()))?;
    let whole = said(alloc, Tree::from_bytes(alloc, document.as_bytes()))?;
    let mut report = Report::new(alloc);
    for step in STEPS {
        let ended = try_piece(&mut report, alloc, &document, &whole, step);
        report.row_of(step_name(alloc, step), ended);
    }
    let found = said_of(alloc, &mut Feed::new(document.as_bytes()));
    let ended = is_said(&mut report, "what is read", found, &whole);
    report.row("a document of a reader", ended);
    report.end(&rt)
}

fn step_name(alloc: Global, step: usize) -> Result<String, AllocError> {
    format!(in alloc; "pieces of {step} bytes")
}

/// The bytes themselves are those of the source, document or not.
#[test]
fn bytes(rt: HostRuntime) -> Result<(), Fail> {
    let wanted: &[u8] = b"{\xff: 0.5";
    let mut report = Report::new(rt.alloc());
    for step in STEPS {
        let mut source = FailingSource::new(wanted, step, usize::MAX);
        let found = read_bytes(rt.alloc(), &mut source)?;
        report.is_value("the bytes", &found.as_slice(), &wanted);
        report.row_of(step_name(rt.alloc(), step), Ok(()));
    }
    report.end(&rt)
}

fn try_failure(report: &mut Report, alloc: Global, step: usize, left: usize) -> Result<(), Fail> {
    let mut source = FailingSource::new(WIDGET.as_bytes(), step, left);
    is_said(report, "what is read", said_of(alloc, &mut source), "J5")?;
    report.is_number("the failures", source.failures, 1);
    let taken = WIDGET.len().saturating_sub(source.bytes.len());
    report.is_number("the bytes taken", taken as u64, left as u64);
    Ok(())
}

/// A source that fails after each number of bytes, also after the last one.
#[test]
fn failures(rt: HostRuntime) -> Result<(), Fail> {
    let mut report = Report::new(rt.alloc());
    for left in 0..WIDGET.len() + 1 {
        for step in [1, usize::MAX] {
            let ended = try_failure(&mut report, rt.alloc(), step, left);
            report.row_of(
                format!(in rt.alloc(); "{left} bytes in pieces of {step}"),
                ended,
            );
        }
    }
    report.end(&rt)
}

static LENGTHS: &str = r#"
3 rows: name | spaces | wanted | left
the longest text | 1048576 | J3 | 0
one byte more | 1048577 | J4 | 0
100 bytes more | 1048676 | J4 | 99
"#;

/// How many spaces there are, what is read, and how many of them are left.
struct Length;

impl Kind for Length {
    fn attempt(&self, report: &mut Report, alloc: Global, row: &Row) -> Result<(), Fail> {
        let document = padded(alloc, "", row.count("spaces"))?;
        let mut source = FailingSource::new(document.as_bytes(), 10_000, usize::MAX);
        let found = said_of(alloc, &mut source);
        is_said(report, "what is read", found, row.text("wanted"))?;
        let left = source.bytes.len() as u64;
        report.is_number("the bytes that are left", left, row.number("left"));
        Ok(())
    }
}

/// Of a document that is too long, no more is taken than tells so.
#[test]
fn lengths(rt: HostRuntime) -> Result<(), Fail> {
    try_tables(&rt, rt.alloc(), &Length, &[LENGTHS])
}

/// Is interrupted so many times, and then gives what it has, or fails.
#[derive(Drop)]
struct Interrupted<'a> {
    times: u32,
    bytes: &'a [u8],
    fails: bool,
}

impl Read for Interrupted<'_> {
    fn read(&mut self, buffer: &mut [u8]) -> io::Result<usize> {
        if self.times > 0 {
            self.times -= 1;
            return Err(Error::from(ErrorKind::Interrupted));
        }
        if self.fails {
            return Err(Error::from(ErrorKind::BrokenPipe));
        }
        self.bytes.read(buffer)
    }
}

static READERS: &str = r#"
4 rows: name | times | fails | wanted
a reader | 0 | no | [1]
an interrupted reader | 3 | no | [1]
a reader that fails | 0 | yes | J5
an interrupted reader that fails | 3 | yes | J5
"#;

/// How often a reader is interrupted, whether it fails then, and what is read.
struct Readable;

impl Kind for Readable {
    fn attempt(&self, report: &mut Report, alloc: Global, row: &Row) -> Result<(), Fail> {
        let reader = Interrupted {
            times: row.small("times"),
            bytes: b"[1]",
            fails: row.is("fails"),
        };
        let found = said_of(alloc, &mut Feed::new(reader));
        is_said(report, "what is read", found, row.text("wanted"))
    }
}

#[test]
fn readers(rt: HostRuntime) -> Result<(), Fail> {
    try_tables(&rt, rt.alloc(), &Readable, &[READERS])
}
