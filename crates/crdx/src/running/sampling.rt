//! What `sample` writes.
ghost use Rattle.std.specs.Prelude.{◌≡◌, ◌<◌, IfOk, IfErr, OnOk, OnErr, IfSome, option_map};
ghost use Rattle.jtree.specs.View.{data_of};
ghost use Rattle.plan.specs.Pools.PlanFault.{HasGoodPaths};
ghost use Rattle.enumerate.specs.Page.{IsSampleOf};
ghost use Rattle.crdx.specs.Internal.Cause.{IsInputCause, IsPlanCause, IsRequestedPlanCause, IsSampleResult, IsWalkCause};
ghost use Rattle.crdx.specs.Output.Walk.{WritesPage};
ghost use Rattle.crdx.specs.Output.PartialOutput.{IsPartialOutput};
ghost use Rattle.crdx.specs.Program.Requested.{IsRequested, IsRequestedWalk, envelope_for, total_of};
ghost use Rattle.crdx.specs.declared.arguments.request.Request.TheVariants.{Sample};
ghost use Rattle.crdx.specs.Program.RunResult.{effects};

use crate::arguments::{PlanArguments, SampleArguments};
use crate::inputs::Inputs;
use crate::running::causes::Cause;
use crate::running::documents::{Accepted, PoolsRead, accepted_schema, after_of, pools_of};
use crate::running::ended::Ended;
use crate::running::exit_status::DONE;
use crate::running::explanation::no_sample_line;
use crate::running::refusal::{Refusal, Subject};
use crate::sink::Sink;
use crate::walk::{Envelope, WFault, Walked, walk, walk_to_end};
use jtree::{Text, Tree};
use plan::{Meter, Plan, SizeSet};
use std::alloc::{AllocError, Global};

/// The node limits below this have plans over words of 64 bits.
pub(crate) const WORD: u32 = 64;

/// The most lines that are held at a time where not all samples are listed.
const PAGE_LINES: u32 = 64;

/// What samples are chosen from: a plan, and the envelope that they are printed with.
#[derive(Drop)]
pub(crate) struct PlanSource<Z: SizeSet> {
    pub plan: Plan<Z>,
    pub envelope: Option<Envelope>,
}

/// What samples are listed from: a plan, the tree to go on from, and the envelope that they are printed with.
#[derive(Drop)]
struct SampleSource<Z: SizeSet> {
    plan: Plan<Z>,
    after: Option<Tree>,
    envelope: Option<Envelope>,
}

/// Lists samples. Inputs are judged in the order CustomResourceDefinition, its schema, pools, their paths, the tree to go on
/// from, and the first refusal ends the run. A set of sizes is a word of 64 bits where the limit is below that, and else one of 128.
pub(crate) fn sample<'a, I: Inputs, W: Sink>(
    alloc: Global,
    arguments: &SampleArguments<'a>,
    inputs: &mut I,
    out: &mut W,
) -> Result<Ended, Refusal<'a>>
    ensures { IsSampleResult (effects I.has I.lines I.failures W.taken W.failures inputs.old inputs.new out.old out.new) arguments.now result }
{
    if arguments.plan.limit < WORD {
        sample_with::<u64, I, W>(alloc, arguments, inputs, out)
    } else {
        sample_with::<u128, I, W>(alloc, arguments, inputs, out)
    }
}

/// As `sample`, by plans over these sets of sizes.
fn sample_with<'a, Z: SizeSet, I: Inputs, W: Sink>(
    alloc: Global,
    arguments: &SampleArguments<'a>,
    inputs: &mut I,
    out: &mut W,
) -> Result<Ended, Refusal<'a>>
    requires { arguments.now.plan.limit < Z.BITS }
    ensures { IsSampleResult (effects I.has I.lines I.failures W.taken W.failures inputs.old inputs.new out.old out.new) arguments.now result }
{
    let mut source = sample_source::<Z, I>(alloc, arguments, inputs)?;
    let walked = match write_samples(alloc, arguments, &mut source, out) {
        Ok(walked) => walked,
        Err(cause) => {
            return Err(Refusal {
                cause,
                subject: Subject::After {
                    limit: arguments.plan.limit,
                    body: source.after,
                },
            });
        }
    };
    match end_of(alloc, arguments, walked, source.plan) {
        Ok(ended) => Ok(ended),
        Err(error) => Err(error.into()),
    }
}

/// How a listing ends: whether more samples are left, and with `--why`, where there are none at all, why.
fn end_of<Z: SizeSet>(
    alloc: Global,
    arguments: &SampleArguments<'_>,
    walked: Walked,
    plan: Plan<Z>,
) -> Result<Ended, AllocError>
    ensures done { IfOk result (λ ended. ended.status ≡ 0) }
    ensures none { OnErr result (walked.lines ≡ 0) }
{
    let lines = if walked.lines == 0 && arguments.after.is_none() && arguments.plan.common.why {
        no_sample_line(alloc, plan)?
    } else {
        None
    };
    let line = if walked.end {
        "crdx: end\n"
    } else {
        "crdx: more\n"
    };
    Ok(Ended {
        status: DONE,
        line,
        lines,
    })
}

/// Writes the samples that are asked for past the tree to go on from, and flushes.
fn write_samples<Z: SizeSet, W: Sink>(
    alloc: Global,
    arguments: &SampleArguments<'_>,
    source: &mut SampleSource<Z>,
    out: &mut W,
) -> Result<Walked, Cause>
    ensures sampled { IfOk result (λ walked. IfSome (option_map data_of source.old.after) (IsSampleOf source.old.plan)
        × WritesPage source.old.plan (option_map data_of source.old.after) (total_of arguments.now) source.old.envelope walked.lines walked.end (W.taken out.old) (W.taken out.new)) }
    ensures unfailed { OnOk result (W.failures out.new ≡ W.failures out.old) }
    ensures cause { IfErr result (IsWalkCause source.old.plan (option_map data_of source.old.after) (total_of arguments.now) source.old.envelope
        (W.taken out.old) (W.taken out.new) (W.failures out.old) (W.failures out.new)) }
{
    enumerate::laws::pages_agree();
    let mut meter = source.plan.meter();
    let walked = walk_asked(alloc, arguments, source, &mut meter, out)?;
    match out.flush() {
        Ok(()) => Ok(walked),
        Err(_) => Err(Cause::Write(walked.lines)),
    }
}

/// Writes all samples past the tree to go on from, or the number of them that is asked for.
fn walk_asked<Z: SizeSet, W: Sink>(
    alloc: Global,
    arguments: &SampleArguments<'_>,
    source: &SampleSource<Z>,
    meter: &mut Meter,
    out: &mut W,
) -> Result<Walked, WFault>
    ensures lines { IfOk result (λ walked. WritesPage source.now.plan (option_map data_of source.now.after) (total_of arguments.now) source.now.envelope walked.lines walked.end (W.taken out.old) (W.taken out.new)) }
    ensures sample { OnOk result (IfSome (option_map data_of source.now.after) (IsSampleOf source.now.plan)) }
    ensures cut { IfErr result (IsPartialOutput source.now.plan (option_map data_of source.now.after) (total_of arguments.now) source.now.envelope (W.taken out.old) (W.taken out.new) (W.failures out.old) (W.failures out.new)) }
    ensures unfailed { OnOk result (W.failures out.new ≡ W.failures out.old) }
{
    let after = source.after.as_ref();
    let envelope = source.envelope.as_ref();
    let plan = &source.plan;
    if arguments.all {
        walk_to_end(alloc, plan, after, envelope, meter, out)
    } else {
        walk(
            alloc,
            plan,
            after,
            PAGE_LINES,
            arguments.count,
            envelope,
            meter,
            out,
        )
    }
}

/// What the arguments ask for: a plan of the schema and the pools, the envelope, and the tree to go on from.
fn sample_source<'a, Z: SizeSet, I: Inputs>(
    alloc: Global,
    arguments: &SampleArguments<'a>,
    inputs: &mut I,
) -> Result<SampleSource<Z>, Refusal<'a>>
    requires { arguments.now.plan.limit < Z.BITS }
    ensures requested { IfOk result (λ a. IsRequestedWalk (I.has inputs.old) arguments.now a.plan (option_map data_of a.after) a.envelope) }
    ensures cause { IfErr result (λ r. IsInputCause (I.has inputs.old) (I.failures inputs.old) (I.failures inputs.new) (Sample arguments.now) r.cause) }
{
    let PlanSource { plan, envelope } = match plan_source::<Z, I>(alloc, &arguments.plan, inputs) {
        Ok(source) => source,
        Err(refusal) => return Err(refusal),
    };
    match after_of(alloc, arguments.plan.common.profile, arguments.after) {
        Ok(after) => Ok(SampleSource {
            plan,
            after,
            envelope,
        }),
        Err(refusal) => {
            drop(plan);
            drop(envelope);
            Err(refusal)
        }
    }
}

/// What the arguments ask for: a plan of the schema and the pools, and the envelope.
pub(crate) fn plan_source<'a, Z: SizeSet, I: Inputs>(
    alloc: Global,
    arguments: &PlanArguments<'a>,
    inputs: &mut I,
) -> Result<PlanSource<Z>, Refusal<'a>>
    requires { arguments.now.limit < Z.BITS }
    ensures requested { IfOk result (λ a. IsRequested (I.has inputs.old) arguments.now a.plan a.envelope) }
    ensures cause { IfErr result (λ r. IsRequestedPlanCause (I.has inputs.old) (I.failures inputs.old) (I.failures inputs.new) arguments.now r.cause) }
{
    let accepted = match accepted_schema(alloc, &arguments.common, inputs) {
        Ok(accepted) => accepted,
        Err(refusal) => return Err(refusal),
    };
    match pools_of(alloc, arguments, inputs) {
        Ok(read) => source_of(alloc, arguments, accepted, read),
        Err(refusal) => {
            drop(accepted);
            Err(refusal)
        }
    }
}

/// What samples of this schema over these pools are listed from.
fn source_of<'a, Z: SizeSet>(
    alloc: Global,
    arguments: &PlanArguments<'a>,
    accepted: Accepted,
    read: PoolsRead,
) -> Result<PlanSource<Z>, Refusal<'a>>
    requires { arguments.now.limit < Z.BITS }
    ensures ok { IfOk result (λ a. (a.plan ≡ record { root = accepted.schema; pools = read.pools; limit = arguments.now.limit })
        × HasGoodPaths accepted.schema read.pools
        × (a.envelope ≡ envelope_for accepted.group arguments.now.common.version.now accepted.kind arguments.now.name)) }
    ensures cause { IfErr result (λ r. IsPlanCause accepted.schema read.pools r.cause) }
{
    let envelope = envelope_named(
        alloc,
        &accepted.group,
        arguments.common.version,
        &accepted.kind,
        arguments.name,
    )?;
    match Plan::new(alloc, accepted.schema, read.pools, arguments.limit) {
        Ok(plan) => Ok(PlanSource { plan, envelope }),
        Err(fault) => Err(Refusal {
            cause: fault.into(),
            subject: Subject::Paths {
                definition: accepted.document,
                pools: read.document,
            },
        }),
    }
}

/// The envelope of resources of this group, version, kind and name; none without a name.
fn envelope_named(
    alloc: Global,
    group: &Text,
    version: &str,
    kind: &Text,
    name: Option<&str>,
) -> Result<Option<Envelope>, AllocError>
    ensures { IfOk result (λ e. e ≡ envelope_for group.now version.now kind.now name.entry) }
{
    match name {
        Some(name) => Ok(Some(Envelope {
            api_version: Text {
                text: format!(in alloc; "{}/{version}", group.as_str())?,
            },
            kind: kind.copy(alloc)?,
            name: Text::from_str(alloc, name)?,
        })),
        None => Ok(None),
    }
}
