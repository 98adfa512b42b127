//! Sets of sizes: their members, sums up to a limit, and the next member.
use crate::support::plans::are_sizes_of;
use crate::support::report::Report;
use crate::support::rows::{Kind, Row, all_rows};
use plan::SizeSet;
use std::alloc::Global;
use std::test::Fail;

/// The set of these members, none of which is too large.
fn set_of<S: SizeSet>(members: &str) -> Result<S, Fail> {
    let mut set = S::empty();
    for member in members.split_whitespace() {
        let n = member.parse::<u32>()?;
        if n >= S::BITS {
            return Err(Fail::from("no size"));
        }
        set = set.union(S::one(n));
    }
    Ok(set)
}

static SUMS: &str = r#"
4 rows: name | left | right | limit | sums
sums up to 4 | 1 3 | 0 2 | 4 | 1 3
sums up to 5 | 1 3 | 0 2 | 5 | 1 3 5
sums that are too great | 63 | 1 | 63 | -
sums with the empty set | 1 3 | - | 63 | -
"#;

static WIDE_SUMS: &str = r#"
4 rows: name | left | right | limit | sums
sums around 64 | 1 63 | 0 1 | 127 | 1 2 63 64
sums up to 126 | 63 64 | 62 63 | 126 | 125 126
sums to 127 | 63 64 | 62 63 | 127 | 125 126 127
sums past any size | 64 127 | 1 64 | 127 | 65
"#;

fn try_sums<S: SizeSet>(report: &mut Report, alloc: Global, row: &Row) -> Result<(), Fail> {
    let limit = row.small("limit");
    if limit >= S::BITS {
        return Err(Fail::from("no limit"));
    }
    let sums = set_of::<S>(row.text("left"))?.sums(set_of(row.text("right"))?, limit);
    are_sizes_of(report, alloc, "the members", sums, row.text("sums"))
}

/// The members of two sets, a limit, and the sums up to it, over 128 bits, and over 64 where the members are not wide.
#[derive(Drop)]
struct SumsRow {
    are_wide: bool,
}

impl Kind for SumsRow {
    fn attempt(&self, report: &mut Report, alloc: Global, row: &Row) -> Result<(), Fail> {
        if !self.are_wide {
            try_sums::<u64>(report, alloc, row)?;
        }
        try_sums::<u128>(report, alloc, row)
    }
}

#[test]
fn sums(rt: HostRuntime) -> Result<(), Fail> {
    let mut report = Report::new(rt.alloc());
    all_rows(
        &mut report,
        rt.alloc(),
        &SumsRow { are_wide: false },
        &[SUMS],
    );
    all_rows(
        &mut report,
        rt.alloc(),
        &SumsRow { are_wide: true },
        &[WIDE_SUMS],
    );
    report.end(&rt)
}

static NEXT: &str = r#"
7 rows: name | members | from | next
a number between two members | 3 9 | 4 | Some(9)
a member | 3 9 | 3 | Some(3)
a number past all members | 3 9 | 10 | None
0 and the empty set | - | 0 | None
63, a member | 63 | 63 | Some(63)
63, not a member | 62 | 63 | None
64, past all members | 63 | 64 | None
"#;

static WIDE_NEXT: &str = r#"
5 rows: name | members | from | next
64, a member | 63 64 | 64 | Some(64)
a number between 64 and 126 | 64 126 | 65 | Some(126)
the greatest size, a member | 127 | 127 | Some(127)
the greatest size, not a member | 126 | 127 | None
a number that is no size | 127 | 128 | None
"#;

fn try_next<S: SizeSet>(report: &mut Report, row: &Row) -> Result<(), Fail> {
    let next = set_of::<S>(row.text("members"))?.next(row.small("from"));
    report.is_shown("the next member", &next, row.text("next"))?;
    Ok(())
}

/// The members of a set, a number, and the least member at or above it, over 128 bits, and over 64 where they are not wide.
#[derive(Drop)]
struct Next {
    are_wide: bool,
}

impl Kind for Next {
    fn attempt(&self, report: &mut Report, _alloc: Global, row: &Row) -> Result<(), Fail> {
        if !self.are_wide {
            try_next::<u64>(report, row)?;
        }
        try_next::<u128>(report, row)
    }
}

#[test]
fn next_members(rt: HostRuntime) -> Result<(), Fail> {
    let mut report = Report::new(rt.alloc());
    all_rows(&mut report, rt.alloc(), &Next { are_wide: false }, &[NEXT]);
    all_rows(
        &mut report,
        rt.alloc(),
        &Next { are_wide: true },
        &[WIDE_NEXT],
    );
    report.end(&rt)
}
