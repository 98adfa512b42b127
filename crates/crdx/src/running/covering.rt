//! What `cover` writes.
ghost use Rattle.std.specs.Prelude.{◌≡◌, ◌<◌, ◌≤◌, IfOk, IfErr, OnOk, drop, length, map, string_bytes};
ghost use Rattle.std.specs.Io.KnownBytes.{Appends};
ghost use Rattle.std.specs.Option.{option_copied};
ghost use Rattle.jtree.specs.View.{data_of};
ghost use Rattle.plan.specs.Pools.PlanFault.{HasGoodPaths};
ghost use Rattle.cover.specs.Cover.{IsWholeCover, objects_of};
ghost use Rattle.cover.specs.View.{covered_of};
ghost use Rattle.crdx.specs.Internal.Cause.{IsCoverResult, IsCoveringCause, IsCutText};
ghost use Rattle.crdx.specs.Output.Line.{line as line_of, lines as lines_of};
ghost use Rattle.crdx.specs.Program.RunResult.{effects};

use crate::arguments::CoverArguments;
use crate::inputs::Inputs;
use crate::running::answer::{json_line, json_text, json_tree};
use crate::running::causes::Cause;
use crate::running::ended::Ended;
use crate::running::exit_status::DONE;
use crate::running::refusal::Refusal;
use crate::running::reporting::{newlines, put_text};
use crate::running::sampling::{PlanSource, WORD, plan_source};
use crate::sink::Sink;
use crate::walk::{Envelope, with_envelope};
use cover::{Covered, Covering, Line, Wanted};
use jtree::Tree;
use plan::{Plan, SizeSet};
use std::alloc::{AllocError, Global};

/// Writes the samples that cover a schema, each when it is there, and answers what is to be said of what none of them has.
pub(crate) fn cover_paths<'a, I: Inputs, W: Sink>(
    alloc: Global,
    arguments: &CoverArguments<'a>,
    inputs: &mut I,
    out: &mut W,
) -> Result<Ended, Refusal<'a>>
    ensures { IsCoverResult (effects I.has I.lines I.failures W.taken W.failures inputs.old inputs.new out.old out.new) arguments.now result }
{
    if arguments.plan.limit < WORD {
        cover_with::<u64, I, W>(alloc, arguments, inputs, out)
    } else {
        cover_with::<u128, I, W>(alloc, arguments, inputs, out)
    }
}

/// As `cover_paths`, by plans over these sets of sizes.
fn cover_with<'a, Z: SizeSet, I: Inputs, W: Sink>(
    alloc: Global,
    arguments: &CoverArguments<'a>,
    inputs: &mut I,
    out: &mut W,
) -> Result<Ended, Refusal<'a>>
    requires { arguments.now.plan.limit < Z.BITS }
    ensures { IsCoverResult (effects I.has I.lines I.failures W.taken W.failures inputs.old inputs.new out.old out.new) arguments.now result }
{
    let found = match plan_source::<Z, I>(alloc, &arguments.plan, inputs) {
        Ok(found) => found,
        Err(refusal) => return Err(refusal),
    };
    let PlanSource { plan, envelope } = found;
    let covered = match write_cover(alloc, plan, arguments.values, envelope.as_ref(), out) {
        Ok(covered) => covered,
        Err(cause) => return Err(cause.into()),
    };
    match missed_lines(alloc, &covered, arguments) {
        Ok(said) => Ok(Ended {
            status: DONE,
            line: "",
            lines: Some(said),
        }),
        Err(error) => Err(error.into()),
    }
}

/// Writes the lines of the cover of the plan's schema, and flushes those of a path before the next one is looked at; and answers what
/// is covered.
fn write_cover<Z: SizeSet, W: Sink>(
    alloc: Global,
    plan: Plan<Z>,
    values: bool,
    envelope: Option<&Envelope>,
    out: &mut W,
) -> Result<Covered, Cause>
    requires paths { HasGoodPaths plan.root plan.pools }
    ensures covered { IfOk result (λ c. IsWholeCover values plan (covered_of c)
        × Appends (W.taken out.old) (W.taken out.new) (lines_of (option_copied envelope.entry) (objects_of (covered_of c)))) }
    ensures unfailed { OnOk result (W.failures out.new ≡ W.failures out.old) }
    ensures cause { IfErr result (IsCoveringCause values plan (option_copied envelope.entry) (W.taken out.old) (W.taken out.new) (W.failures out.old) (W.failures out.new)) }
{
    let mut covering = Covering::new(alloc, plan, values)?;
    let mut written = 0;
    'path: while !covering.is_done() {
        covering = match covering.advance() {
            Ok(covering) => covering,
            Err(_) => return Err(Cause::NoMemory),
        };
        written = match write_lines(alloc, &covering.covered().lines, written, envelope, out) {
            Ok(written) => written,
            Err(cause) => return Err(cause),
        };
    }
    Ok(covering.into_covered())
}

/// Writes the lines behind the first ones, of which so many are written, and flushes; and answers how many are written.
fn write_lines<W: Sink>(
    alloc: Global,
    lines: &[Line],
    written: usize,
    envelope: Option<&Envelope>,
    out: &mut W,
) -> Result<usize, Cause>
    requires written { written ≤ length lines.now }
    ensures all { IfOk result (λ n. n ≡ length lines.now) }
    ensures out { OnOk result (Appends (W.taken out.old) (W.taken out.new) (lines_of (option_copied envelope.entry) (map (λ l. data_of l.tree) (drop written lines.now)))) }
    ensures unfailed { OnOk result (W.failures out.new ≡ W.failures out.old) }
    ensures cause { IfErr result (IsCutText (lines_of (option_copied envelope.entry) (map (λ l. data_of l.tree) (drop written lines.now)))
        (W.taken out.old) (W.taken out.new) (W.failures out.old) (W.failures out.new)) }
{
    let text = lines_text(alloc, &lines[written..], envelope)?;
    match put_text(out, text.as_bytes()) {
        Ok(()) => Ok(lines.len()),
        Err(taken) => Err(Cause::Write(
            (written as u64).saturating_add(newlines(&text.as_bytes()[..taken])),
        )),
    }
}

/// The lines of these samples.
fn lines_text(
    alloc: Global,
    lines: &[Line],
    envelope: Option<&Envelope>,
) -> Result<String, AllocError>
    ensures { IfOk result (λ s. string_bytes s ≡ lines_of (option_copied envelope.entry) (map (λ l. data_of l.tree) lines.now)) }
{
    let mut text = String::new(alloc);
    for line in lines {
        text.push_str(line_text(alloc, &line.tree, envelope)?.as_str())?;
    }
    Ok(text)
}

/// The line of a sample.
fn line_text(alloc: Global, tree: &Tree, envelope: Option<&Envelope>) -> Result<String, AllocError>
    ensures { IfOk result (λ s. string_bytes s ≡ line_of (option_copied envelope.entry) (data_of tree.now)) }
{
    match envelope {
        Some(envelope) => json_line(alloc, &with_envelope(alloc, tree, envelope)?),
        None => json_line(alloc, tree),
    }
}

/// How many paths, and how many values, no sample has, and with `--why` which ones.
fn missed_lines(
    alloc: Global,
    covered: &Covered,
    arguments: &CoverArguments<'_>,
) -> Result<String, AllocError> {
    if arguments.values && covered.missed.is_empty() {
        return String::from_str(alloc, "crdx: all paths and values are in some sample\n");
    }
    let mut said = String::new(alloc);
    say_missed(alloc, covered, arguments, Kind::Path, &mut said)?;
    say_missed(alloc, covered, arguments, Kind::Value, &mut said)?;
    Ok(said)
}

/// What a sample is wanted to have.
#[derive(Clone, Copy, PartialEq, Eq, Drop)]
enum Kind {
    Path,
    Value,
}

impl Kind {
    fn of(wanted: &Wanted) -> Kind {
        match wanted.value {
            None => Kind::Path,
            Some(_) => Kind::Value,
        }
    }
}

/// Adds how many of this kind no sample has, and with `--why` which ones.
fn say_missed(
    alloc: Global,
    covered: &Covered,
    arguments: &CoverArguments<'_>,
    kind: Kind,
    said: &mut String,
) -> Result<(), AllocError> {
    let count = covered
        .missed
        .iter()
        .filter(|w| Kind::of(w) == kind)
        .count();
    let first = count_line(alloc, kind, count, arguments.plan.limit)?;
    said.push_str(first.as_str())?;
    if arguments.plan.common.why {
        for wanted in &covered.missed {
            if Kind::of(wanted) == kind {
                said.push_str(missed_line(alloc, wanted)?.as_str())?;
            }
        }
    }
    Ok(())
}

/// How many of a kind are in no sample within the limit.
fn count_line(alloc: Global, kind: Kind, count: usize, limit: u32) -> Result<String, AllocError> {
    let most = node_count(alloc, limit)?;
    match (kind, count) {
        (Kind::Path, 0) => String::from_str(alloc, "crdx: all paths are in some sample\n"),
        (Kind::Value, 0) => Ok(String::new(alloc)),
        (_, 1) => {
            let one = match kind {
                Kind::Path => "path",
                Kind::Value => "value",
            };
            format!(in alloc; "crdx: 1 {one} is in no sample of at most {most}\n")
        }
        _ => {
            let several = match kind {
                Kind::Path => "paths",
                Kind::Value => "values",
            };
            format!(in alloc; "crdx: {count} {several} are in no sample of at most {most}\n")
        }
    }
}

/// The line of a path, or of a value at a path.
fn missed_line(alloc: Global, wanted: &Wanted) -> Result<String, AllocError> {
    let path = json_text(alloc, wanted.path.as_str())?;
    match &wanted.value {
        None => format!(in alloc; "    {path}\n"),
        Some(value) => {
            let value = json_tree(alloc, value)?;
            format!(in alloc; "    {path} {value}\n")
        }
    }
}

/// A number of nodes, in words.
fn node_count(alloc: Global, count: u32) -> Result<String, AllocError> {
    match count {
        1 => String::from_str(alloc, "1 node"),
        _ => format!(in alloc; "{count} nodes"),
    }
}
