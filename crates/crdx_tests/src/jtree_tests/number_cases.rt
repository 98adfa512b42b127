//! Numbers that are not integers: read, ordered, compared by value, counted, copied and written.
use crate::support::fakes::FailingSource;
use crate::support::harness::is_said;
use crate::support::report::Report;
use crate::support::rows::{Kind, Row, all_rows, try_tables};
use crate::support::texts::{border_of, repeated};
use jtree::lines::{LineFeed, LineSource};
use jtree::{Equality, JFault, Number, Numbers, Tree, TreeKey};
use std::alloc::{AllocError, Global};
use std::fmt::Write;
use std::test::Fail;

// What is read, as its text or its fault.
fn said_of(alloc: Global, read: Result<Tree, JFault>) -> Result<String, Fail> {
    match read {
        Ok(tree) => Ok(tree.to_text(alloc)?),
        Err(fault) => Ok(fault.to_string(alloc)?),
    }
}

// Where integers alone are read, and where all numbers are.
static WHOLE: &str = r#"
15 rows: name | document | integers | all
an integer | 7 | 7 | 7
a point | 1.0 | J1 | 1
an exponent | 1e2 | J1 | 100
no number below zero | -0 | J1 | 0
no fraction below zero | -0.0 | J1 | 0
a point that the exponent moves | 2.50e1 | J1 | 25
one that it moves back | -30E-1 | J1 | -3
zero with an exponent | 0e999 | J1 | 0
the greatest integer | 9223372036854775807 | 9223372036854775807 | 9223372036854775807
the least integer | -9223372036854775808 | -9223372036854775808 | -9223372036854775808
the greatest with a point | 9007199254740991.0 | J1 | 9007199254740991
the least with a point | -9007199254740991.0 | J1 | -9007199254740991
2^53 with a point | 9007199254740992.0 | J1 | 9007199254740992.0
-2^53 with a point | -9007199254740992.0 | J1 | -9007199254740992.0
past 2^53 | 1e16 | J1 | 1e16
"#;

static OTHERS: &str = r#"
14 rows: name | document | integers | all
a half | 0.5 | J1 | 0.5
the same in three digits, between spaces | ␠0.50␠ | J1 | 0.50
the text as it is written | 25E-1 | J1 | 25E-1
the nearest float is 0 | 1e-999 | J1 | 1e-999
past the integers | 9223372036854775808 | J1 | 9223372036854775808
before the integers | -9223372036854775809 | J1 | -9223372036854775809
beyond the floats | 1e999 | J3 | J3
one of a list | [0.5,-1e999] | J3 | J3
two points | 0.5. | J3 | J3
a zero before digits | 01.5 | J3 | J3
a plus | +0.5 | J3 | J3
no digit before the point | .5 | J3 | J3
two numbers | 0.5 0.5 | J3 | J3
members and items | {"b":0.5,"a":[1.0,{"c":1e2},null,"é"],"b":0.25,"":[]} | J1 | {"":[],"a":[1,{"c":100},null,"é"],"b":0.25}
"#;

/// A document, and its text or the fault: where integers alone are read, and where all numbers are.
struct ReadRow;

impl Kind for ReadRow {
    fn attempt(&self, report: &mut Report, alloc: Global, row: &Row) -> Result<(), Fail> {
        let bytes = row.text("document").as_bytes();
        let integers = row.text("integers");
        let read = Tree::from_bytes_with(alloc, bytes, Numbers::Integers);
        is_said(report, "integers alone", said_of(alloc, read), integers)?;
        let read = Tree::from_bytes(alloc, bytes);
        is_said(report, "by default", said_of(alloc, read), integers)?;
        for step in [1, 3, usize::MAX] {
            let mut source = FailingSource::new(bytes, step, usize::MAX);
            let read = Tree::from_reader_with(alloc, &mut source, Numbers::All);
            is_said(report, "all numbers", said_of(alloc, read), row.text("all"))?;
        }
        Ok(())
    }
}

#[test]
fn readings(rt: HostRuntime) -> Result<(), Fail> {
    jtree::laws::readings_agree();
    try_tables(&rt, rt.alloc(), &ReadRow, &[WHOLE, OTHERS])
}

static BORDERS: &str = r#"
4 rows: name | before | times | middle | after | wanted
127 lists | [ | 127 | - | ] | read
128 lists | [ | 128 | - | ] | J3
1,048,576 bytes | ␠ | 1048573 | 0.5 | - | read
1,048,577 bytes | ␠ | 1048574 | 0.5 | - | J4
"#;

/// A long text, and whether it is read.
struct BorderRow;

impl Kind for BorderRow {
    fn attempt(&self, report: &mut Report, alloc: Global, row: &Row) -> Result<(), Fail> {
        let text = border_of(alloc, row)?;
        let found = match Tree::from_bytes_with(alloc, text.as_bytes(), Numbers::All) {
            Ok(_) => String::from_str(alloc, "read")?,
            Err(fault) => fault.to_string(alloc)?,
        };
        report.is_text("what is read", found.as_str(), row.text("wanted"));
        Ok(())
    }
}

#[test]
fn borders(rt: HostRuntime) -> Result<(), Fail> {
    let mut report = Report::new(rt.alloc());
    all_rows(&mut report, rt.alloc(), &BorderRow, &[BORDERS]);
    let mut source = FailingSource::new(b"[0.5", 1, 4);
    let failed = Tree::from_reader_with(rt.alloc(), &mut source, Numbers::All);
    report.holds(
        "a source that fails",
        matches!(failed, Err(JFault::ReadFailed)),
    );
    report.row("a source that fails", Ok(()));
    report.end(&rt)
}

// What is read of each line of a source, in brackets.
fn lines_of(alloc: Global, bytes: &[u8], numbers: Numbers) -> Result<String, Fail> {
    let mut feed = LineFeed::new(alloc, FailingSource::new(bytes, 2, usize::MAX));
    let mut line = Vec::new(alloc);
    let mut all = String::new(alloc);
    for _ in 0..8 {
        if !feed.next_line(&mut line)? {
            return Ok(all);
        }
        let text = said_of(
            alloc,
            Tree::from_bytes_with(alloc, line.as_slice(), numbers),
        )?;
        write!(all, "[{text}]")?;
    }
    Ok(all)
}

#[test]
fn lines(rt: HostRuntime) -> Result<(), Fail> {
    let bytes = b"0.5\n{\n1.0\n[1e2,2.5]\n";
    let mut report = Report::new(rt.alloc());
    let integers = lines_of(rt.alloc(), bytes, Numbers::Integers);
    let ended = is_said(&mut report, "the lines", integers, "[J1][J3][J1][J1]");
    report.row("integers alone", ended);
    let all = lines_of(rt.alloc(), bytes, Numbers::All);
    let ended = is_said(&mut report, "the lines", all, "[0.5][J3][1][[100,2.5]]");
    report.row("all numbers", ended);
    report.end(&rt)
}

// By value: whether the two are the same where numbers compare by their values.
static ORDERED: &str = r#"
14 rows: name | earlier | later | by value
an integer before another number | 5 | 0.5 | no
another number before a string | 0.5 | "" | no
values | 0.25 | 0.5 | no
not the bytes | 2.5 | 10.5 | no
below zero | -2.5 | -0.25 | no
one value, by the text | 0.5 | 0.50 | yes
one value, with an exponent | 0.5 | 5e-1 | yes
beyond integers | 9223372036854775808 | 1e20 | no
the nearest float | 9223372036854775808 | 9223372036854775809 | yes
an integer and a number | 9223372036854775807 | 9223372036854775808 | no
fewer nodes | 10.5 | [0.5] | no
items | [0.5,1,0.50] | [0.50,1,0.5] | yes
members | {"a":0.5,"b":[]} | {"a":5e-1,"b":[]} | yes
other names | {"b":0.5} | {"a":0.50} | no
"#;

/// Two trees of which the first is before the second, and whether they are the same by the values of their numbers.
struct PairRow;

impl Kind for PairRow {
    fn attempt(&self, report: &mut Report, alloc: Global, row: &Row) -> Result<(), Fail> {
        let earlier = Tree::from_bytes_with(alloc, row.text("earlier").as_bytes(), Numbers::All)?;
        let later = Tree::from_bytes_with(alloc, row.text("later").as_bytes(), Numbers::All)?;
        report.holds("less", earlier.cmp(&later).is_lt());
        report.holds("greater", later.cmp(&earlier).is_gt());
        report.holds("two trees", earlier != later);
        report.holds("equal to a copy", later.copy(alloc)? == later);
        let same = row.is("by value");
        report.is_value("by value", &earlier.has_value_of(&later), &same);
        let turned = later.has_value_of(&earlier);
        report.is_value("by value, turned round", &turned, &same);
        report.holds("of its own value", later.has_value_of(&later));
        compare_by_equality(report, &earlier, &later, same);
        Ok(())
    }
}

/// Two trees of which the first is before the second in both orders, but where they are the same by the values of their numbers.
fn compare_by_equality(report: &mut Report, earlier: &Tree, later: &Tree, same: bool) {
    let exact = earlier.compare_by(later, Equality::Exact);
    report.holds("less exactly", exact.is_lt());
    let other = !earlier.is_equal_by(later, Equality::Exact);
    report.holds("another exactly", other);
    let equal = earlier.is_equal_by(later, Equality::ByValue);
    report.is_value("equal by value", &equal, &same);
    let order = earlier.compare_by(later, Equality::ByValue);
    report.is_value("they tie by value", &order.is_eq(), &same);
    report.is_value("or are less", &order.is_lt(), &!same);
    let key = key_of(earlier, Equality::ByValue);
    let next = key_of(later, Equality::ByValue);
    report.is_value("keys by value", &(key == next), &same);
    let first = key_of(later, Equality::Exact);
    report.holds("exact keys first", first < key);
    report.holds("keys, exactly", key_of(earlier, Equality::Exact) < first);
}

fn key_of<'a>(tree: &'a Tree, equality: Equality) -> TreeKey<'a> {
    TreeKey { tree, equality }
}

#[test]
fn order(rt: HostRuntime) -> Result<(), Fail> {
    try_tables(&rt, rt.alloc(), &PairRow, &[ORDERED])
}

fn number_of(tree: &Tree) -> Option<&Number> {
    match tree {
        Tree::Number(number) => Some(number),
        _ => None,
    }
}

#[test]
fn numbers(rt: HostRuntime) -> Result<(), Fail> {
    let mut report = Report::new(rt.alloc());
    let bytes = br#"[-2.50,{"a":0.5}]"#;
    let tree = Tree::from_bytes_with(rt.alloc(), bytes, Numbers::All)?;
    report.is_number("the nodes", tree.nodes(), 4);
    report.row("a list with two numbers", Ok(()));
    let tree = Tree::from_bytes_with(rt.alloc(), b"-2.50", Numbers::All)?;
    report.is_number("the nodes", tree.nodes(), 1);
    report.holds("no part", tree.get("a").is_none() && tree.last() == &tree);
    match number_of(&tree) {
        Some(number) => {
            report.is_text("the text", number.as_str(), "-2.50");
            report.holds("the value", number.value() == -2.5);
            report.holds("a copy", number.copy(rt.alloc())? == *number);
        }
        None => report.holds("a number", false),
    }
    report.row("a number", Ok(()));
    report.end(&rt)
}

fn try_many(report: &mut Report, alloc: Global, bytes: &[u8], wanted: &[u8]) -> Result<(), Fail> {
    let tree = Tree::from_bytes_with(alloc, bytes, Numbers::All)?;
    let copy = tree.copy(alloc)?;
    report.holds("an equal copy", copy == tree && copy.has_value_of(&tree));
    let text = copy.to_text(alloc)?;
    report.holds("the text", text.as_bytes() == wanted);
    Ok(())
}

/// Two documents of 250,000 fractions, which is the most that a document has room for, in thousands: they are read, copied, compared
/// and written.
#[test]
fn many_fractions(rt: HostRuntime) -> Result<(), Fail> {
    let mut report = Report::new(rt.alloc());
    for fraction in ["0.5", "1.5"] {
        let bytes = repeated(rt.alloc(), "[", fraction, 250_000, "]")?;
        let ended = try_many(&mut report, rt.alloc(), bytes.as_bytes(), bytes.as_bytes());
        report.row(fraction, ended);
    }
    report.end(&rt)
}

// An object with the members of the names from `m10000` on, a number under each, as they come from an iterator.
fn push_member(text: &mut String, i: usize, name: usize) -> Result<(), Fail> {
    let comma = if i > 0 { "," } else { "{" };
    Ok(write!(text, "{comma}\"m{name}\":0.{name}")?)
}

/// 60,000 members in descending order are read, and written in ascending order.
#[test]
fn many_members(rt: HostRuntime) -> Result<(), Fail> {
    let mut report = Report::new(rt.alloc());
    let mut descending = String::new(rt.alloc());
    let mut ascending = String::new(rt.alloc());
    for i in 0..60_000 {
        push_member(&mut descending, i, 69_999 - i)?;
        push_member(&mut ascending, i, 10_000 + i)?;
    }
    descending.push('}')?;
    ascending.push('}')?;
    let ended = try_many(
        &mut report,
        rt.alloc(),
        descending.as_bytes(),
        ascending.as_bytes(),
    );
    report.row("members in descending order", ended);
    report.end(&rt)
}
