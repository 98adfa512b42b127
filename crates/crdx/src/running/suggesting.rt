//! What `pools` answers.
ghost use Rattle.std.specs.Prelude.{◌≡◌, None, true, IfOk, IfErr, string_bytes};
ghost use Rattle.jtree.specs.View.{data_of};
ghost use Rattle.schema.specs.Document.Raw.{Raw};
ghost use Rattle.schema.specs.Nodes.Node.{Node};
ghost use Rattle.schema.specs.Nodes.ByPlace.{AreNodesOf};
ghost use Rattle.schema.specs.Rules.Breaks.{IsUnbroken};
ghost use Rattle.stored.specs.Schemas.Accepted.{IsBroken};
ghost use Rattle.suggest.specs.View.{wanted_of};
ghost use Rattle.suggest.specs.Suggested.Document.{suggested_document};
ghost use Rattle.suggest.specs.Suggested.Fault.{IsSuggestFault};
ghost use Rattle.suggest.specs.Suggested.Wanted.{Wanted as WantedData};
ghost use Rattle.crdx.specs.Output.Line.{line};
ghost use Rattle.crdx.specs.Internal.Cause.{IsPoolsRequestCause, IsSuggestionCause, IsBrokenCause};
ghost use Rattle.crdx.specs.Program.RunResult.{IsWanted, IsPoolsRequest, pools_line};

use crate::arguments::PoolsArguments;
use crate::inputs::Inputs;
use crate::running::answer::{Answer, json_line};
use crate::running::causes::Cause;
use crate::running::documents::{Definition, pool_limits_of, read_definition};
use crate::running::exit_status::DONE;
use crate::running::object_inputs::read_objects;
use crate::running::refusal::{Refusal, Subject};
use jtree::Tree;
use plan::PoolLimits;
use schema::RawSchema;
use std::alloc::Global;
use stored::{Schema, accept};
use suggest::{SuggestFault, Wanted, suggested_pools};

/// A schema as it is written, and accepted.
#[derive(Drop)]
struct Written {
    raw: Tree,
    schema: Schema,
}

/// A pools document: one to start with, or one for the samples around an object. Inputs are judged in the order
/// CustomResourceDefinition, its schema, objects, paths, and the first refusal ends the run.
pub(crate) fn suggest_pools<'a, I: Inputs>(
    alloc: Global,
    arguments: &PoolsArguments<'a>,
    inputs: &mut I,
) -> Result<Answer, Refusal<'a>>
    ensures status { IfOk result (λ a. a.status ≡ 0) }
    ensures answer { IfOk result (λ a. (raw : Raw) × (N : Node) × (w : WantedData) × IsPoolsRequest (I.has inputs.old) (I.lines inputs.old) arguments.now raw N w
        × (string_bytes a.out ≡ pools_line arguments.now raw.tree N w)) }
    ensures cause { IfErr result (λ r. IsPoolsRequestCause (I.has inputs.old) (I.lines inputs.old) (I.failures inputs.old) (I.failures inputs.new) arguments.now r.cause) }
{
    let Definition { document, crd } = match read_definition(alloc, &arguments.common, inputs) {
        Ok(definition) => definition,
        Err(refusal) => return Err(refusal),
    };
    let written = match accept_written(alloc, crd.raw) {
        Ok(written) => written,
        Err(cause) => {
            return Err(Refusal {
                cause,
                subject: Subject::Definition(document),
            });
        }
    };
    drop(document);
    suggest_at(alloc, arguments, written, inputs)
}

/// A schema that breaks no rule, with a copy of it as it is written.
fn accept_written(alloc: Global, raw: RawSchema) -> Result<Written, Cause>
    ensures raw { IfOk result (λ w. data_of w.raw ≡ raw.tree) }
    ensures unbroken { IfOk result (λ w. IsUnbroken (IsBroken raw) × AreNodesOf true w.schema raw) }
    ensures cause { IfErr result (IsBrokenCause raw) }
{
    let copy = match raw.tree().copy(alloc) {
        Ok(copy) => copy,
        Err(_) => {
            drop(raw);
            return Err(Cause::NoMemory);
        }
    };
    match accept(alloc, raw) {
        Ok(schema) => Ok(Written { raw: copy, schema }),
        Err(refused) => {
            drop(copy);
            Err(refused.into())
        }
    }
}

/// The line of the document for an accepted schema.
fn suggest_at<'a, I: Inputs>(
    alloc: Global,
    arguments: &PoolsArguments<'a>,
    written: Written,
    inputs: &mut I,
) -> Result<Answer, Refusal<'a>>
    ensures status { IfOk result (λ a. a.status ≡ 0) }
    ensures answer { IfOk result (λ a. (w : WantedData) × IsWanted (I.lines inputs.old) arguments.now w × (string_bytes a.out ≡ pools_line arguments.now (data_of written.raw) written.schema w)) }
    ensures cause { IfErr result (λ r. IsSuggestionCause (I.lines inputs.old) (I.failures inputs.old) (I.failures inputs.new) arguments.now (data_of written.raw) written.schema r.cause) }
{
    let objects = match read_objects(
        alloc,
        arguments.common.profile,
        inputs,
        arguments.from.as_slice(),
    ) {
        Ok(objects) => objects,
        Err(refusal) => return Err(refusal),
    };
    let wanted = Wanted {
        objects: objects.as_slice(),
        varied: arguments.varied.as_slice(),
        without: arguments.without.as_slice(),
    };
    let limits = pool_limits_of(&arguments.common);
    match suggested_line(alloc, &written, &wanted, limits) {
        Ok(out) => Ok(Answer {
            status: DONE,
            out,
            err: String::new(alloc),
        }),
        Err(fault) => Err(Refusal {
            cause: fault.into(),
            subject: Subject::Objects {
                schema: written.schema,
                count: objects.len(),
            },
        }),
    }
}

/// The document as a line of JSON.
fn suggested_line(
    alloc: Global,
    written: &Written,
    wanted: &Wanted<'_>,
    limits: PoolLimits,
) -> Result<String, SuggestFault>
    ensures text { IfOk result (λ s. string_bytes s ≡ line None (suggested_document limits (data_of written.now.raw) written.now.schema (wanted_of wanted.now))) }
    ensures err { IfErr result (IsSuggestFault limits (data_of written.now.raw) written.now.schema (wanted_of wanted.now)) }
{
    let document = suggested_pools(alloc, &written.raw, &written.schema, wanted, limits)?;
    Ok(json_line(alloc, &document)?)
}
