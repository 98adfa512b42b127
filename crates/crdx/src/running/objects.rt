//! What `validate`, `prune`, `default` and `leaves` answer.
ghost use Rattle.std.specs.Prelude.{◌≡◌, ◌≢◌, None, Ok, IfOk, IfErr, codes, false, length, string_bytes};
ghost use Rattle.std.specs.List.{flat_map};
ghost use Rattle.jtree.specs.Data.{Data, IsTree};
ghost use Rattle.jtree.specs.View.{data_of};
ghost use Rattle.schema.specs.Nodes.View.{node_of};
ghost use Rattle.stored.specs.Objects.AllFaults.{reported};
ghost use Rattle.stored.specs.Objects.Leaves.{elements_of};
ghost use Rattle.crdx.specs.Internal.Cause.{IsInputCause, IsDocumentCause, IsObjectCause};
ghost use Rattle.crdx.specs.Internal.Found.{AreFound};
ghost use Rattle.crdx.specs.Output.Line.{line};
ghost use Rattle.crdx.specs.Program.Requested.{numbers_of};
ghost use Rattle.crdx.specs.Program.Documents.{file_name};
ghost use Rattle.crdx.specs.Program.Envelope.{body_of, IsJoined};
ghost use Rattle.crdx.specs.Program.ObjectAnswer.{IsObjectAnswer, fault_line, leaf_line};
ghost use Rattle.crdx.specs.Program.RunResult.{IsAnswer};
ghost use Rattle.crdx.specs.Program.Standard.{by_node, asks_as_written};
ghost use Rattle.crdx.specs.declared.arguments.request.ObjectCommand.TheVariants.{Validate, Leaves};
ghost use Rattle.crdx.specs.declared.running.causes.Cause.TheVariants.{NoMemory};
ghost use Rattle.crdx.specs.declared.arguments.request.Request.TheVariants.{Object};

use crate::arguments::{ObjectArguments, ObjectCommand};
use crate::envelope::{Parts, join, split};
use crate::inputs::Inputs;
use crate::phrases::fault_phrase;
use crate::running::answer::{Answer, json_line, json_text, json_texts};
use crate::running::as_written::judge_as_written;
use crate::running::causes::{Cause, Input};
use crate::running::documents::{Accepted, accepted_schema, read_document};
use crate::running::exit_status::{DONE, NO};
use crate::running::lines::{Lines, all_lines};
use crate::running::refusal::{Refusal, Subject};
use jtree::Tree;
use schema::Node;
use std::alloc::{AllocError, Global};
use stored::{Fault, Leaf, Schema, complete, faults, leaves, prune, strict_faults};

/// What is asked about an object. Inputs are judged in the order CustomResourceDefinition, its schema, object, and the first refusal ends the
/// run.
pub(crate) fn judge_object<'a, I: Inputs>(
    alloc: Global,
    arguments: &ObjectArguments<'a>,
    inputs: &mut I,
) -> Result<Answer, Refusal<'a>>
    ensures answer { IfOk result (λ a. IsAnswer (I.has inputs.old) (Object arguments.now) a.status (string_bytes a.out)) }
    ensures cause { IfErr result (λ r. IsInputCause (I.has inputs.old) (I.failures inputs.old) (I.failures inputs.new) (Object arguments.now) r.cause) }
{
    if arguments.asks_as_written() {
        judge_as_written(alloc, arguments, inputs)
    } else {
        judge_by_rules(alloc, arguments, inputs)
    }
}

/// What is asked about an object by the rules of crdx. Its envelope is taken off before it is judged, and put back where it is printed.
fn judge_by_rules<'a, I: Inputs>(
    alloc: Global,
    arguments: &ObjectArguments<'a>,
    inputs: &mut I,
) -> Result<Answer, Refusal<'a>>
    requires { asks_as_written arguments.now ≡ false }
    ensures answer { IfOk result (λ a. IsAnswer (I.has inputs.old) (Object arguments.now) a.status (string_bytes a.out)) }
    ensures cause { IfErr result (λ r. IsInputCause (I.has inputs.old) (I.failures inputs.old) (I.failures inputs.new) (Object arguments.now) r.cause) }
{
    let Accepted {
        document: _,
        group: _,
        kind: _,
        schema,
    } = accepted_schema(alloc, &arguments.common, inputs)?;
    judge_by(alloc, arguments, schema, inputs)
}

/// What is said of the document that is asked about, by the schema of its body.
fn judge_by<'a, I: Inputs>(
    alloc: Global,
    arguments: &ObjectArguments<'a>,
    schema: Schema,
    inputs: &mut I,
) -> Result<Answer, Refusal<'a>>
    ensures answer { IfOk result (λ a. (document : Data) × I.has inputs.old (numbers_of arguments.now.common) (file_name arguments.now.object) (Ok document)
        × IsObjectAnswer schema document arguments.now.command a.status (string_bytes a.out)) }
    ensures cause { IfErr result (λ r. IsDocumentCause (I.has inputs.old) (I.failures inputs.old) (I.failures inputs.new) (by_node schema) arguments.now r.cause) }
{
    let profile = arguments.common.profile;
    let mut body = read_document(inputs, profile, Input::Object, arguments.object)?;
    match answer_of(alloc, arguments.command, schema.root(), &mut body) {
        Ok(answer) => Ok(answer),
        Err(cause) => Err(Refusal {
            cause,
            subject: Subject::Object { schema, body },
        }),
    }
}

/// What is said of a document at the node of its body, which it is made.
pub(crate) fn answer_of(
    alloc: Global,
    command: ObjectCommand,
    node: &Node,
    document: &mut Tree,
) -> Result<Answer, Cause>
    ensures answer { IfOk result (λ a. IsObjectAnswer (node_of node.now) (data_of document.old) command a.status (string_bytes a.out)) }
    ensures cause { IfErr result (IsObjectCause (by_node (node_of node.now)) (data_of document.old) command) }
{
    let envelope = split(document);
    match command {
        ObjectCommand::Validate { strict } => {
            drop(envelope);
            validate(alloc, node, document, strict)
        }
        ObjectCommand::Prune => {
            prune(node, document);
            print(alloc, document, envelope)
        }
        ObjectCommand::Default => match complete(alloc, node, document) {
            Ok(mut body) => print(alloc, &mut body, envelope),
            Err(_) => {
                drop(envelope);
                Err(Cause::NoMemory)
            }
        },
        ObjectCommand::Leaves => {
            drop(envelope);
            list_leaves(alloc, node, document)
        }
    }
}

/// `valid`, or a line for each fault.
fn validate(alloc: Global, node: &Node, body: &Tree, strict: bool) -> Result<Answer, Cause>
    ensures answer { IfOk result (λ a. (document : Data) → body_of document ≡ data_of body.now → IsObjectAnswer (node_of node.now) document (Validate strict) a.status (string_bytes a.out)) }
    ensures memory { IfErr result (λ cause. cause ≡ NoMemory) }
{
    stored::laws::strictly_valid_is_pruned();
    let found = find_faults(alloc, node, body, strict)?;
    Ok(answer_with(alloc, found.as_slice())?)
}

/// `valid` where there are no faults, and else their lines.
pub(crate) fn answer_with<T: Lines>(alloc: Global, found: &[T]) -> Result<Answer, AllocError>
    ensures none { length found.now ≡ 0 → IfOk result (λ a. (a.status ≡ 0) × (string_bytes a.out ≡ codes "valid\n")) }
    ensures some { length found.now ≢ 0 → IfOk result (λ a. (a.status ≡ 1) × (string_bytes a.out ≡ flat_map T.text found.now)) }
{
    if found.is_empty() {
        Ok(Answer {
            status: DONE,
            out: String::from_str(alloc, "valid\n")?,
            err: String::new(alloc),
        })
    } else {
        Ok(Answer {
            status: NO,
            out: all_lines(alloc, found)?,
            err: String::new(alloc),
        })
    }
}

/// The faults of a body, or its strict ones.
fn find_faults(
    alloc: Global,
    node: &Node,
    body: &Tree,
    strict: bool,
) -> Result<Vec<Fault>, AllocError>
    ensures { IfOk result (λ found. AreFound strict (node_of node.now) (data_of body.now) found.items) }
{
    if strict {
        strict_faults(alloc, node, body)
    } else {
        faults(alloc, node, body)
    }
}

/// The line of a body with its envelope.
fn print(alloc: Global, body: &mut Tree, envelope: Parts) -> Result<Answer, Cause>
    ensures answer { IfOk result (λ a. (a.status ≡ 0) × IsTree (data_of body.old) × ((whole : Data) × IsJoined (data_of body.old) envelope whole × (string_bytes a.out ≡ line None whole))) }
    ensures memory { IfErr result (λ cause. cause ≡ NoMemory) }
{
    body.reveal_invariant();
    join(body, envelope)?;
    Ok(Answer {
        status: DONE,
        out: json_line(alloc, body)?,
        err: String::new(alloc),
    })
}

/// The number, the path of the place as a JSON text, and what is wrong there.
impl Lines for Fault {
    ghost text = { λ fault. fault_line (reported fault) };

    fn lines(&self, alloc: Global) -> Result<String, AllocError> {
        line_of_fault(alloc, self.path.as_str(), self.number)
    }
}

/// The line of the fault of this number at the place of this pointer.
pub(crate) fn line_of_fault(alloc: Global, path: &str, number: u8) -> Result<String, AllocError>
    ensures { IfOk result (λ s. string_bytes s ≡ fault_line (record { path = path.now; number = number })) }
{
    let path = json_text(alloc, path)?;
    format!(in alloc;
        "F{}{} {path} {}\n",
        number / 10,
        number % 10,
        fault_phrase(number)
    )
}

/// A line for each leaf, where the body is stored.
fn list_leaves(alloc: Global, node: &Node, body: &Tree) -> Result<Answer, Cause>
    ensures answer { IfOk result (λ a. (document : Data) → body_of document ≡ data_of body.now → IsObjectAnswer (node_of node.now) document Leaves a.status (string_bytes a.out)) }
    ensures cause { IfErr result (λ cause. (document : Data) → body_of document ≡ data_of body.now → IsObjectCause (by_node (node_of node.now)) document Leaves cause) }
{
    let found = leaves(alloc, node, body)?;
    Ok(Answer {
        status: DONE,
        out: all_lines(alloc, found.as_slice())?,
        err: String::new(alloc),
    })
}

/// The JSON list of the elements.
impl Lines for Leaf {
    ghost text = { λ leaf. leaf_line (elements_of leaf) };

    fn lines(&self, alloc: Global) -> Result<String, AllocError> {
        let mut line = json_texts(alloc, self.elements.as_slice())?;
        line.push_str("\n")?;
        Ok(line)
    }
}
