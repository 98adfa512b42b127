//! Samples that are lent to a taker, page by page.
ghost use Rattle.std.proofs.Common.{sym, append-nil};
ghost use Rattle.std.specs.Prelude.{◌≡◌, ◌++◌, IfOk};
ghost use Rattle.jtree.specs.View.{data_of};
ghost use Rattle.enumerate.specs.View.{trees_of};

use crate::support::given::{TWO_FIELDS, made};
use crate::support::harness::is_said;
use crate::support::pages::place_of;
use crate::support::report::Report;
use crate::support::rows::{Kind, Row, try_tables};
use enumerate::{Change, EFault, Live, Taker};
use jtree::Tree;
use plan::{Meter, Plan};
use std::alloc::{AllocError, Global};
use std::fmt::Write;
use std::test::Fail;

/// Copies of samples, with room for so many. It fails where a sample differs from the one before in more than the change.
#[derive(Drop)]
struct Copies {
    alloc: Global,
    room: usize,
    trees: Vec<Tree>,
}

impl Taker for Copies {
    ghost has_taken = { λ first now items. trees_of now.trees.items ≡ trees_of first.trees.items ++ items };

    ghost none_taken = { λ now. sym (append-nil (trees_of now.trees.items)) };

    fn take(&mut self, sample: &Tree, change: Option<Change<'_>>) -> Result<(), AllocError> {
        if self.trees.len() >= self.room {
            return Err(AllocError);
        }
        if let Some(change) = change
            && !differs_in(self.alloc, self.trees.as_slice(), sample, change)?
        {
            return Err(AllocError);
        }
        self.trees.push(copied(self.alloc, sample)?)?;
        Ok(())
    }
}

/// Whether the sample differs from the last of the trees in the change alone.
fn differs_in(
    alloc: Global,
    trees: &[Tree],
    sample: &Tree,
    change: Change<'_>,
) -> Result<bool, AllocError> {
    let Some(last) = trees.last() else {
        return Ok(false);
    };
    match change {
        Change::Node(change) => {
            let mut before = copied(alloc, sample)?;
            let depth = before.set_last(alloc, change.before)?;
            Ok(before == *last && sample.last() == change.node && depth == change.depth)
        }
        Change::Part(depth) => Ok(front(alloc, last, depth)? == front(alloc, sample, depth)?),
    }
}

/// The text of the tree before a part.
fn front(alloc: Global, tree: &Tree, depth: usize) -> Result<Vec<u8>, AllocError> {
    let part = tree.append_part(depth, Vec::new(alloc))?;
    let mut text = tree.append_text(Vec::new(alloc))?;
    text.truncate(text.len().saturating_sub(part.len()));
    Ok(text)
}

fn copied(alloc: Global, tree: &Tree) -> Result<Tree, AllocError>
    ensures { IfOk result (λ copy. data_of copy ≡ data_of tree.now) }
{
    match tree.copy(alloc) {
        Ok(copy) => Ok(copy),
        Err(_) => Err(AllocError),
    }
}

static LENT: &str = r#"
6 rows: name | place | room | first | second | taken | answer | at
two pages | none | 100 | 2 | 3 | {} {"spec":{}} {"spec":{"b":false}} {"spec":{"b":true}} {"spec":{"a":0}}␠ | Ok(false) | {"spec":{"a":1}}
past a sample | {"spec":{"a":0}} | 100 | 1 | 1 | {"spec":{"a":1}} {"spec":{"a":0,"b":false}}␠ | Ok(false) | {"spec":{"a":0,"b":true}}
exactly to the end | {"spec":{"a":0,"b":false}} | 100 | 1 | 2 | {"spec":{"a":0,"b":true}} {"spec":{"a":1,"b":false}} {"spec":{"a":1,"b":true}}␠
    | Ok(true) | ended
more room than samples | {"spec":{"a":0,"b":true}} | 100 | 1 | 10000 | {"spec":{"a":1,"b":false}} {"spec":{"a":1,"b":true}}␠ | Ok(true) | ended
a page of none | none | 100 | 1 | 0 | {}␠ | Ok(false) | {"spec":{}}
a taker that fails | none | 3 | 2 | 3 | {} {"spec":{}} {"spec":{"b":false}}␠ | Err(NoMemory) | ended
"#;

/// The texts of the trees, each with a space after it.
fn texts(alloc: Global, trees: &[Tree]) -> Result<String, Fail> {
    let mut all = String::new(alloc);
    for tree in trees {
        let text = tree.to_text(alloc)?;
        write!(all, "{text} ")?;
    }
    Ok(all)
}

fn said_of_tree(alloc: Global, tree: Option<&Tree>) -> Result<String, Fail> {
    match tree {
        Some(tree) => Ok(tree.to_text(alloc)?),
        None => Ok(String::from_str(alloc, "ended")?),
    }
}

fn lends_pages(
    report: &mut Report,
    live: &mut Live<'_, u64>,
    row: &Row,
    copies: &mut Copies,
    meter: &mut Meter,
) -> Result<(), AllocError> {
    let first = live.lend_page(row.small("first"), copies, meter);
    report.is_value("the first answer", &first, &Ok(false));
    let second = live.lend_page(row.small("second"), copies, meter);
    report.is_shown("the second answer", &second, row.text("answer"))?;
    if live.tree().is_none() {
        for count in [0, 1] {
            let again = live.lend_page(count, copies, meter);
            report.is_value("an answer after the end", &again, &Err(EFault::Ended));
        }
    }
    Ok(())
}

fn lends(
    report: &mut Report,
    alloc: Global,
    live: &mut Live<'_, u64>,
    row: &Row,
    meter: &mut Meter,
) -> Result<(), Fail> {
    let mut copies = Copies {
        alloc,
        room: row.count("room"),
        trees: Vec::new(alloc),
    };
    lends_pages(report, live, row, &mut copies, meter)?;
    is_said(
        report,
        "taken",
        texts(alloc, &copies.trees),
        row.text("taken"),
    )?;
    let place = said_of_tree(alloc, live.tree());
    is_said(report, "the place", place, row.text("at"))
}

fn lends_past(
    report: &mut Report,
    alloc: Global,
    plan: &Plan<u64>,
    row: &Row,
    meter: &mut Meter,
) -> Result<(), Fail> {
    let place = place_of(alloc, row.optional("place"))?;
    match Live::past(alloc, plan, place.as_ref(), meter)? {
        Some(mut live) => lends(report, alloc, &mut live, row, meter),
        None => Err(Fail::from("no sample")),
    }
}

/// The place to go on from, how much room the taker has, the sizes of two pages, what it has taken of both, what the second answers,
/// and where the enumeration is then.
struct LentRow;

impl Kind for LentRow {
    fn attempt(&self, report: &mut Report, alloc: Global, row: &Row) -> Result<(), Fail> {
        let mut plan = made(alloc, TWO_FIELDS)?;
        let mut meter = plan.meter();
        lends_past(report, alloc, &plan, row, &mut meter)
    }
}

#[test]
fn lent(rt: HostRuntime) -> Result<(), Fail> {
    try_tables(&rt, rt.alloc(), &LentRow, &[LENT])
}
