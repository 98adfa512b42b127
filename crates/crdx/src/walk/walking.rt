//! The walk over the samples of a plan, written line by line.
ghost use Rattle.std.specs.Prelude.{◌≡◌, ◌≤◌, ◌+◌, IfOk, IfErr, OnOk, Option, IsSome};
ghost use Rattle.std.specs.Io.KnownBytes.{Keeps};
ghost use Rattle.std.specs.Option.{option_copied};
ghost use Rattle.jtree.specs.Data.{Data};
ghost use Rattle.jtree.specs.Failures.{HasFailed};
ghost use Rattle.enumerate.specs.Live.{IsNextSample};
ghost use Rattle.enumerate.specs.View.{resume_point};
ghost use Rattle.crdx.specs.Output.Walk.{most_lines};
ghost use Rattle.crdx.specs.Output.WalkResult.{IsWalk};
ghost use Rattle.crdx.specs.Internal.Progress.{AddsBlock, IsPartialBlock, IsWithinLines};
ghost use Rattle.crdx.specs.declared.walk.fault.WFault.TheVariants.{Write};

use crate::sink::{Sink, put_all};
use crate::walk::blocks::{Block, whole_lines};
use crate::walk::fault::WFault;
use crate::walk::line::Envelope;
use enumerate::{EFault, Live};
use jtree::Tree;
use plan::{Meter, Plan, SizeSet};
use std::alloc::Global;

/// The most lines that are given to the sink in one call.
const BLOCK_LINES: u32 = 128;

/// What a walk wrote.
#[derive(Clone, Copy, Debug, PartialEq, Eq, Drop)]
pub struct Walked {
    /// How many lines.
    pub lines: u64,
    /// Whether no further sample is left.
    pub end: bool,
}

/// How far a walk has come.
#[derive(Drop)]
struct Progress {
    /// How many lines are out.
    lines: u64,
    /// Whether no further sample is left.
    end: bool,
}

/// How far a walk goes, and how it writes.
#[derive(Clone, Copy, Drop)]
struct Extent {
    /// The most lines that are held at a time.
    page: u32,
    /// The most lines that are written.
    total: u64,
    /// Whether the sink is flushed before each block but the first.
    flushed: bool,
    ghost page_least: { 1 ≤ page },
    ghost total_least: { 1 ≤ total },
}

/// Writes the first `total` samples past `after`, or from the first sample on, in the tree order: for each its compact
/// JSON, in the envelope where there is one, and a newline. The lines of at most `page` samples are held at a time, which makes no
/// difference to what is written. The sink is given many lines at a time, and is not flushed. The caller keeps `page` and
/// `total` from 1 to 10,000.
///
/// `NotASample` exactly where `after` is no sample of the plan, `NoMemory` where an allocation fails, and `Write` where
/// the sink fails or takes nothing. Both counts are of the whole lines that the sink took. A walk past the last of these,
/// with `total` less their number, writes exactly what is missing; where there is none, the same walk does. Where it answers,
/// it takes at most 4 * (limit + 1) * (width + 1) steps for each line, and once more as many.
pub fn walk<Z: SizeSet, W: Sink>(
    alloc: Global,
    plan: &Plan<Z>,
    after: Option<&Tree>,
    page: u32,
    total: u32,
    envelope: Option<&Envelope>,
    meter: &mut Meter,
    out: &mut W,
) -> Result<Walked, WFault>
    requires page_least { 1 ≤ page }
    requires page_most { page ≤ 10000 }
    requires total_least { 1 ≤ total }
    requires total_most { total ≤ 10000 }
    ensures { IsWalk plan.now (resume_point after.entry) total (option_copied envelope.entry) (W.taken out.old) (W.taken out.new) (W.failures out.old) (W.failures out.new) meter.old meter.new result }
{
    let extent = Extent {
        page,
        total: total as u64,
        flushed: false,
    };
    walk_within(alloc, plan, after, extent, envelope, meter, out)
}

/// Writes all samples past `after`, or from the first sample on, as `walk` does with a total of 2^64 - 1, and flushes the sink before
/// each block of lines but the first. So what reads them sees them while the walk goes on. The last block is not flushed.
///
/// It fails as `walk` does, and where a flush fails too: `Write`, with the whole lines that are out and nothing of the next one.
pub fn walk_to_end<Z: SizeSet, W: Sink>(
    alloc: Global,
    plan: &Plan<Z>,
    after: Option<&Tree>,
    envelope: Option<&Envelope>,
    meter: &mut Meter,
    out: &mut W,
) -> Result<Walked, WFault>
    ensures { IsWalk plan.now (resume_point after.entry) most_lines (option_copied envelope.entry) (W.taken out.old) (W.taken out.new) (W.failures out.old) (W.failures out.new) meter.old meter.new result }
{
    let extent = Extent {
        page: BLOCK_LINES,
        total: u64::MAX,
        flushed: true,
    };
    walk_within(alloc, plan, after, extent, envelope, meter, out)
}

/// As `walk`, as far as the extent says.
fn walk_within<Z: SizeSet, W: Sink>(
    alloc: Global,
    plan: &Plan<Z>,
    after: Option<&Tree>,
    extent: Extent,
    envelope: Option<&Envelope>,
    meter: &mut Meter,
    out: &mut W,
) -> Result<Walked, WFault>
    ensures { IsWalk plan.now (resume_point after.entry) extent.total (option_copied envelope.entry) (W.taken out.old) (W.taken out.new) (W.failures out.old) (W.failures out.new) meter.old meter.new result }
{
    enumerate::laws::pages_agree();
    let live = match Live::past(alloc, plan, after, meter) {
        Ok(live) => live,
        Err(EFault::NotASample) => return Err(WFault::NotASample),
        Err(_) => return Err(WFault::NoMemory(0)),
    };
    let Some(mut live) = live else {
        return Ok(Walked {
            lines: 0,
            end: true,
        });
    };
    let mut block = Block::new(alloc, envelope);
    let mut so_far = Progress {
        lines: 0,
        end: false,
    };
    'pages: while !so_far.end && so_far.lines < extent.total {
        match flush_lines(extent.flushed, so_far.lines, out) {
            Ok(()) => {}
            Err(fault) => return Err(fault),
        }
        let count = block_lines(extent.page, extent.total - so_far.lines);
        so_far = match write_block(&mut live, count, so_far.lines, &mut block, meter, out) {
            Ok(so_far) => so_far,
            Err(fault) => return Err(fault),
        };
    }
    Ok(Walked {
        lines: so_far.lines,
        end: so_far.end,
    })
}

/// Flushes the sink, where this is asked for and lines are out.
fn flush_lines<W: Sink>(flushed: bool, lines: u64, out: &mut W) -> Result<(), WFault>
    ensures keeps { Keeps (W.taken out.old) (W.taken out.new) }
    ensures unfailed { OnOk result (W.failures out.new ≡ W.failures out.old) }
    ensures failed { IfErr result (λ e. (e ≡ Write lines) × HasFailed (W.failures out.old) (W.failures out.new)) }
{
    if !flushed || lines == 0 {
        return Ok(());
    }
    match out.flush() {
        Ok(()) => Ok(()),
        Err(_) => Err(WFault::Write(lines)),
    }
}

/// How many lines the next block has at most, where so many are left to write.
fn block_lines(page: u32, left: u64) -> u32
    requires page { 1 ≤ page }
    requires left { 1 ≤ left }
    ensures some { 1 ≤ result }
    ensures within { result ≤ left }
{
    let most = page.min(BLOCK_LINES);
    if left < most as u64 {
        left as u32
    } else {
        most
    }
}

/// Writes the samples from the current one of the enumeration on, `count` at most, after `before` lines that are out.
fn write_block<Z: SizeSet, W: Sink>(
    live: &mut Live<'_, Z>,
    count: u32,
    before: u64,
    block: &mut Block<'_>,
    meter: &mut Meter,
    out: &mut W,
) -> Result<Progress, WFault>
    requires current { IsSome live.old.at }
    requires most { before + count ≤ most_lines }
    ensures same { live.new.question ≡ live.old.question }
    ensures envelope { option_copied block.new.envelope ≡ option_copied block.old.envelope }
    ensures block { IfOk result (λ p. (place : Option Data) → IsNextSample live.old.question place live.old.at
        → AddsBlock live.old.question place count (option_copied block.old.envelope) before p.lines p.end live.new.at (W.taken out.old) (W.taken out.new)) }
    ensures unfailed { OnOk result (W.failures out.new ≡ W.failures out.old) }
    ensures steps { IfOk result (λ p. (place : Option Data) → IsNextSample live.old.question place live.old.at
        → IsWithinLines live.old.question before p.lines meter.old meter.new) }
    ensures err { IfErr result (λ e. (place : Option Data) → IsNextSample live.old.question place live.old.at
        → IsPartialBlock live.old.question place count (option_copied block.old.envelope) before (W.taken out.old) (W.taken out.new) (W.failures out.old) (W.failures out.new) e) }
{
    block.clear();
    let end = match live.lend_page(count, block, meter) {
        Ok(end) => end,
        Err(_) => return Err(WFault::NoMemory(before)),
    };
    match put_all(out, block.bytes.as_slice()) {
        Ok(()) => Ok(Progress {
            lines: before + block.ends.len() as u64,
            end,
        }),
        Err(taken) => {
            let whole = whole_lines(block.ends.as_slice(), taken);
            Err(WFault::Write(before + whole as u64))
        }
    }
}
