//! The tokens of pointers.
use crate::support::harness::is_said;
use crate::support::report::Report;
use crate::support::rows::{Kind, Row, all_rows};
use jtree::{push_index, push_name};
use std::alloc::Global;
use std::test::Fail;

static NAMES: &str = r#"
6 rows: name | member | token
a tilde and a slash | a~b/c | /a~0b~1c
a tilde before a 1 | ~1 | /~01
a tilde before a 0 | ~0 | /~00
slashes alone | // | /~1~1
letters of two and four bytes | é~😀/ | /é~0😀~1
the empty name | - | /
"#;

fn token(alloc: Global, name: &str) -> Result<String, Fail> {
    let mut text = String::new(alloc);
    push_name(&mut text, name)?;
    Ok(text)
}

fn below_x(alloc: Global) -> Result<String, Fail> {
    let mut text = String::from_str(alloc, "/x")?;
    push_index(&mut text, 0)?;
    push_name(&mut text, "y")?;
    push_index(&mut text, 18_446_744_073_709_551_615)?;
    Ok(text)
}

/// The name of a member, and its token.
struct TokenRow;

impl Kind for TokenRow {
    fn attempt(&self, report: &mut Report, alloc: Global, row: &Row) -> Result<(), Fail> {
        let found = token(alloc, row.text("member"));
        is_said(report, "the token", found, row.text("token"))
    }
}

#[test]
fn pointers(rt: HostRuntime) -> Result<(), Fail> {
    let mut report = Report::new(rt.alloc());
    all_rows(&mut report, rt.alloc(), &TokenRow, &[NAMES]);
    let wanted = "/x/0/y/18446744073709551615";
    let ended = is_said(&mut report, "the pointer", below_x(rt.alloc()), wanted);
    report.row("names and indices", ended);
    report.end(&rt)
}
