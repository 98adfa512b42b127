//! What `validate`, `prune`, `default` and `leaves` answer of the objects on the lines of an input.
ghost use Rattle.std.specs.Prelude.{◌≡◌, ◌==◌, ◌+◌, ◌<◌, ◌-◌, ◌^◌, ℕ, List, [], ◌∷◌, ◌++◌, take, max, true, false, None, IfOk, IfErr, OnOk, OnErr, IfSome};
ghost use Rattle.std.specs.Prelude.{string_bytes, codes};
ghost use Rattle.std.specs.Io.KnownBytes.{Appends};
ghost use Rattle.jtree.specs.Failures.{HasFailed};
ghost use Rattle.crdx.specs.Internal.Cause.{IsLinesEnd, IsObjectCause};
ghost use Rattle.crdx.specs.Internal.LineProgress.{IsNextAnswer, IsUnreadCause, IsCutCause, IsLinesCause};
ghost use Rattle.crdx.specs.Program.Documents.{file_name};
ghost use Rattle.crdx.specs.Program.InputFault.{IsOfBytes};
ghost use Rattle.crdx.specs.Program.LineAnswers.{with_front, numbered, printed_at, document_code, code_at, IsLineAnswer, AreAnswered};
ghost use Rattle.crdx.specs.Program.Profiles.{numbers_by};
ghost use Rattle.crdx.specs.Program.ObjectAnswer.{IsAnswerBy};
ghost use Rattle.crdx.specs.Program.Requested.{numbers_of};
ghost use Rattle.crdx.specs.Program.Standard.{asks_as_written};
ghost use Rattle.crdx.specs.Internal.Judge.{standard_of};
ghost use Rattle.jtree.specs.Lines.{newline};
ghost use Rattle.jtree.specs.ReadsWith.{ReadsWith, IsNoDocumentWith};
ghost use Rattle.jtree.specs.View.{data_of};
ghost use Rattle.crdx.specs.Program.RunResult.{effects};

use crate::arguments::{ObjectArguments, ObjectCommand};
use crate::inputs::{InFault, InputName, Inputs};
use crate::profile::numbers_by;
use crate::running::answer::Answer;
use crate::running::as_written::WrittenJudge;
use crate::running::causes::{Cause, Input};
use crate::running::documents::{accepted_schema, written_schema};
use crate::running::ended::Ended;
use crate::running::exit_status::{DONE, NO, REFUSED};
use crate::running::explanation::bytes_line;
use crate::running::objects::answer_of;
use crate::running::refusal::{Refusal, Subject};
use crate::running::reporting::{newlines, say};
use crate::sink::{Sink, put_all};
use jtree::{JFault, Tree};
use schema::{Node, Profile};
use std::alloc::{AllocError, Global};

/// What is asked about each line.
#[derive(Clone, Copy, Drop)]
struct Asked {
    alloc: Global,
    /// How the documents are read.
    profile: Profile,
    command: ObjectCommand,
    /// Whether the reason is said where a line is no document.
    why: bool,
}

/// By what the objects are judged.
#[derive(Drop)]
pub(crate) enum Judge<'s> {
    /// The node of their bodies.
    Node(&'s Node),
    /// The schema as it is written.
    AsWritten(WrittenJudge<'s>),
}

/// What comes of a line: the exit status, and the text for standard output.
#[derive(Drop)]
struct LineAnswer {
    status: u8,
    text: Vec<u8>,
}

/// How far the lines are answered.
#[derive(Clone, Copy, Drop)]
struct SoFar {
    /// How many lines are answered.
    lines: u64,
    /// The exit status of their answers.
    status: u8,
    /// How many lines standard output took, up to the greatest count.
    written: u64,
}

/// What is asked about the object on each line of an input, one after the other. Each answer is written, and flushed, before the next
/// line is read. It answers the exit status, the greatest of the lines. Inputs are judged in the order CustomResourceDefinition, its
/// schema, lines. A line that is no document is answered with its code; what is said of it besides goes to `err`. Where there are
/// 2^64 - 1 lines, it gives up after them as where memory runs out.
pub(crate) fn judge_lines<'a, I: Inputs, W: Sink, E: Sink>(
    alloc: Global,
    arguments: &ObjectArguments<'a>,
    inputs: &mut I,
    out: &mut W,
    err: &mut E,
) -> Result<Ended, Refusal<'a>>
    ensures { IsLinesEnd (effects I.has I.lines I.failures W.taken W.failures inputs.old inputs.new out.old out.new) arguments.now result }
{
    if arguments.asks_as_written() {
        judge_lines_as_written(alloc, arguments, inputs, out, err)
    } else {
        judge_lines_by_rules(alloc, arguments, inputs, out, err)
    }
}

/// The same by the schema as it is written.
fn judge_lines_as_written<'a, I: Inputs, W: Sink, E: Sink>(
    alloc: Global,
    arguments: &ObjectArguments<'a>,
    inputs: &mut I,
    out: &mut W,
    err: &mut E,
) -> Result<Ended, Refusal<'a>>
    requires { asks_as_written arguments.now ≡ true }
    ensures { IsLinesEnd (effects I.has I.lines I.failures W.taken W.failures inputs.old inputs.new out.old out.new) arguments.now result }
{
    let written = match written_schema(alloc, &arguments.common, inputs) {
        Ok(written) => written,
        Err(refusal) => return Err(refusal),
    };
    let mut judge = match WrittenJudge::new(alloc, &written) {
        Ok(judge) => Judge::AsWritten(judge),
        Err(error) => return Err(error.into()),
    };
    judge_lines_by(alloc, arguments, &mut judge, inputs, out, err)
}

/// The same by the rules of crdx.
fn judge_lines_by_rules<'a, I: Inputs, W: Sink, E: Sink>(
    alloc: Global,
    arguments: &ObjectArguments<'a>,
    inputs: &mut I,
    out: &mut W,
    err: &mut E,
) -> Result<Ended, Refusal<'a>>
    requires { asks_as_written arguments.now ≡ false }
    ensures { IsLinesEnd (effects I.has I.lines I.failures W.taken W.failures inputs.old inputs.new out.old out.new) arguments.now result }
{
    let accepted = match accepted_schema(alloc, &arguments.common, inputs) {
        Ok(accepted) => accepted,
        Err(refusal) => return Err(refusal),
    };
    let mut judge = Judge::Node(accepted.schema.root());
    judge_lines_by(alloc, arguments, &mut judge, inputs, out, err)
}

/// The same by what is known to judge the objects.
fn judge_lines_by<'a, I: Inputs, W: Sink, E: Sink>(
    alloc: Global,
    arguments: &ObjectArguments<'a>,
    judge: &mut Judge<'_>,
    inputs: &mut I,
    out: &mut W,
    err: &mut E,
) -> Result<Ended, Refusal<'a>>
    ensures answered { IfOk result (λ ended. (lines : List (List ℕ)) × (text : List ℕ)
        × AreAnswered (I.lines inputs.old (file_name arguments.now.object)) (numbers_of arguments.now.common) (standard_of judge.old) arguments.now.command lines [] ended.status text × Appends (W.taken out.old) (W.taken out.new) text) }
    ensures unfailed { OnOk result (W.failures out.new ≡ W.failures out.old) }
    ensures cause { IfErr result (λ r. IsLinesCause (I.lines inputs.old (file_name arguments.now.object)) (numbers_of arguments.now.common) (standard_of judge.old) arguments.now.command
        (I.failures inputs.old) (I.failures inputs.new) (W.taken out.old) (W.taken out.new) (W.failures out.old) (W.failures out.new) r.cause) }
{
    let asked = Asked {
        alloc,
        profile: arguments.common.profile,
        command: arguments.command,
        why: arguments.common.why,
    };
    match judge_lines_of(&asked, judge, arguments.object, inputs, out, err) {
        Ok(status) => Ok(Ended {
            status,
            line: "",
            lines: None,
        }),
        Err(cause) => Err(Refusal {
            cause,
            subject: Subject::Input(arguments.object),
        }),
    }
}

/// The same of the lines of the input of this name.
fn judge_lines_of<I: Inputs, W: Sink, E: Sink>(
    asked: &Asked,
    judge: &mut Judge<'_>,
    name: InputName<'_>,
    inputs: &mut I,
    out: &mut W,
    err: &mut E,
) -> Result<u8, Cause>
    ensures answered { IfOk result (λ status. (lines : List (List ℕ)) × (text : List ℕ)
        × AreAnswered (I.lines inputs.old (file_name name.entry)) (numbers_by asked.now.profile) (standard_of judge.old) asked.now.command lines [] status text × Appends (W.taken out.old) (W.taken out.new) text) }
    ensures unfailed { OnOk result (W.failures out.new ≡ W.failures out.old) }
    ensures cause { IfErr result (IsLinesCause (I.lines inputs.old (file_name name.entry)) (numbers_by asked.now.profile) (standard_of judge.old) asked.now.command
        (I.failures inputs.old) (I.failures inputs.new) (W.taken out.old) (W.taken out.new) (W.failures out.old) (W.failures out.new)) }
{
    match inputs.open_lines(name) {
        Ok(()) => answer_lines(asked, judge, inputs, out, err),
        Err(InFault::Failed) => Err(Cause::Read(Input::Object)),
        Err(_) => Err(Cause::NoMemory),
    }
}

/// The answers to the lines of the input that was opened.
fn answer_lines<I: Inputs, W: Sink, E: Sink>(
    asked: &Asked,
    judge: &mut Judge<'_>,
    inputs: &mut I,
    out: &mut W,
    err: &mut E,
) -> Result<u8, Cause>
    ensures answered { IfOk result (λ status. (lines : List (List ℕ)) × (text : List ℕ)
        × AreAnswered (I.coming inputs.old) (numbers_by asked.now.profile) (standard_of judge.old) asked.now.command lines [] status text × Appends (W.taken out.old) (W.taken out.new) text) }
    ensures unfailed { OnOk result (W.failures out.new ≡ W.failures out.old) }
    ensures cause { IfErr result (IsLinesCause (I.coming inputs.old) (numbers_by asked.now.profile) (standard_of judge.old) asked.now.command
        (I.failures inputs.old) (I.failures inputs.new) (W.taken out.old) (W.taken out.new) (W.failures out.old) (W.failures out.new)) }
{
    let mut line = Vec::new(asked.alloc);
    let mut so_far = SoFar {
        lines: 0,
        status: DONE,
        written: 0,
    };
    'lines: while so_far.lines < u64::MAX {
        let answer = match next_answer(asked, judge, so_far.lines + 1, inputs, &mut line, err) {
            Ok(Some(answer)) => answer,
            Ok(None) => return Ok(so_far.status),
            Err(cause) => return Err(cause),
        };
        so_far = match write_answer(so_far, &answer, out) {
            Ok(so_far) => so_far,
            Err(cause) => return Err(cause),
        };
    }
    Err(Cause::NoMemory)
}

/// The answer to the next line, which has this number, where there is one.
fn next_answer<I: Inputs, E: Sink>(
    asked: &Asked,
    judge: &mut Judge<'_>,
    number: u64,
    inputs: &mut I,
    line: &mut Vec<u8>,
    err: &mut E,
) -> Result<Option<LineAnswer>, Cause>
    ensures some { IfOk result (λ o. IfSome o (λ a. IsNextAnswer (I.coming inputs.old) (I.coming inputs.new) (numbers_by asked.now.profile) (standard_of judge.old) asked.now.command number a.status a.text.items)) }
    ensures none { IfOk result (λ o. o ≡ None → I.coming inputs.old []) }
    ensures unfailed { OnOk result (I.failures inputs.new ≡ I.failures inputs.old) }
    ensures cause { IfErr result (IsUnreadCause (I.failures inputs.old) (I.failures inputs.new)) }
    ensures same { standard_of judge.new ≡ standard_of judge.old }
{
    match inputs.next_line(line) {
        Ok(true) => Ok(Some(answer_to(asked, judge, number, line.as_slice(), err)?)),
        Ok(false) => Ok(None),
        Err(InFault::Document(JFault::TooLong)) => Ok(Some(answer_to_fault(
            asked,
            number,
            JFault::TooLong,
            line.as_slice(),
            err,
        )?)),
        Err(InFault::Failed) => Err(Cause::Read(Input::Object)),
        Err(_) => Err(Cause::NoMemory),
    }
}

/// The answer to a line.
fn answer_to<E: Sink>(
    asked: &Asked,
    judge: &mut Judge<'_>,
    number: u64,
    line: &[u8],
    err: &mut E,
) -> Result<LineAnswer, AllocError>
    ensures answer { IfOk result (λ a. IsLineAnswer (numbers_by asked.now.profile) (standard_of judge.old) asked.now.command number line.now a.status a.text.items) }
    ensures same { standard_of judge.new ≡ standard_of judge.old }
{
    match parse_line(asked.alloc, asked.profile, line) {
        Ok(Ok(document)) => answer_to_document(asked, judge, number, document),
        Ok(Err(fault)) => answer_to_fault(asked, number, fault, line, err),
        Err(_) => Err(AllocError),
    }
}

/// The document on a line, or why it is none.
fn parse_line(
    alloc: Global,
    profile: Profile,
    line: &[u8],
) -> Result<Result<Tree, JFault>, AllocError>
    ensures document { IfOk result (λ read. IfOk read (λ t. ReadsWith (numbers_by profile) line.now (data_of t))) }
    ensures none { IfOk result (λ read. IfErr read (λ fault. IsOfBytes fault × IsNoDocumentWith (numbers_by profile) line.now fault)) }
{
    match Tree::from_bytes_with(alloc, line, numbers_by(profile)) {
        Ok(document) => Ok(Ok(document)),
        Err(JFault::NoMemory) => Err(AllocError),
        Err(fault) => Ok(Err(fault)),
    }
}

/// The answer to the document on a line.
fn answer_to_document(
    asked: &Asked,
    judge: &mut Judge<'_>,
    number: u64,
    document: Tree,
) -> Result<LineAnswer, AllocError>
    ensures answer { IfOk result (λ a. (line : List ℕ) → ReadsWith (numbers_by asked.now.profile) line (data_of document) → IsLineAnswer (numbers_by asked.now.profile) (standard_of judge.old) asked.now.command number line a.status a.text.items) }
    ensures same { standard_of judge.new ≡ standard_of judge.old }
{
    let Asked {
        alloc,
        profile: _,
        command,
        why: _,
    } = *asked;
    match answer_by(alloc, command, judge, document) {
        Ok(alone) => numbered_answer(alloc, number, command, &alone),
        Err(Cause::NotStored) => {
            let alone = Answer {
                status: NO,
                out: String::new(alloc),
                err: String::new(alloc),
            };
            numbered_answer(alloc, number, command, &alone)
        }
        Err(_) => Err(AllocError),
    }
}

/// What is said of a document alone.
fn answer_by(
    alloc: Global,
    command: ObjectCommand,
    judge: &mut Judge<'_>,
    document: Tree,
) -> Result<Answer, Cause>
    ensures answer { IfOk result (λ a. IsAnswerBy (standard_of judge.old) (data_of document) command a.status (string_bytes a.out)) }
    ensures cause { IfErr result (IsObjectCause (standard_of judge.old) (data_of document) command) }
    ensures same { standard_of judge.new ≡ standard_of judge.old }
{
    let mut document = document;
    match judge {
        Judge::Node(node) => answer_of(alloc, command, node, &mut document),
        Judge::AsWritten(written) => Ok(written.validate(alloc, &document)?),
    }
}

/// The answer to a line that is no document, of which at least a beginning is at hand.
fn answer_to_fault<E: Sink>(
    asked: &Asked,
    number: u64,
    fault: JFault,
    line: &[u8],
    err: &mut E,
) -> Result<LineAnswer, AllocError>
    ensures { IfOk result (λ a. (a.status ≡ 3) × (a.text.items ≡ code_at number asked.now.command fault)) }
{
    let alloc = asked.alloc;
    let text = fault_text(alloc, number, asked.command, &fault)?;
    if asked.why || text.is_empty() {
        let explanation = if asked.why {
            bytes_line(alloc, line)?
        } else {
            None
        };
        say(alloc, &Cause::Line(number, fault), &explanation, err)?;
    }
    Ok(LineAnswer {
        status: REFUSED,
        text,
    })
}

/// The text of what is printed of a line that is no document.
fn fault_text(
    alloc: Global,
    number: u64,
    command: ObjectCommand,
    fault: &JFault,
) -> Result<Vec<u8>, AllocError>
    ensures { IfOk result (λ v. v.items ≡ code_at number command fault.now) }
{
    match command {
        ObjectCommand::Validate { strict: _ } | ObjectCommand::Leaves => {
            with_number(alloc, number, fault_code(fault))
        }
        ObjectCommand::Prune | ObjectCommand::Default => Ok(Vec::new(alloc)),
    }
}

/// The code of a fault, with the end of its line.
fn fault_code(fault: &JFault) -> &'static [u8]
    ensures { result.now ≡ document_code fault.now ++ codes "\n" }
{
    match fault {
        JFault::NotAnInteger => b"J1\n",
        JFault::NoMemory => b"J2\n",
        JFault::NotJson => b"J3\n",
        JFault::TooLong => b"J4\n",
        JFault::ReadFailed => b"J5\n",
    }
}

/// Writes the answer to the line after those that are answered.
fn write_answer<W: Sink>(before: SoFar, answer: &LineAnswer, out: &mut W) -> Result<SoFar, Cause>
    requires { before.lines < 2 ^ 64 - 1 }
    ensures counted { IfOk result (λ so_far. (so_far.lines ≡ before.lines + 1) × (so_far.status ≡ max before.status answer.now.status)) }
    ensures written { OnOk result (Appends (W.taken out.old) (W.taken out.new) answer.now.text.items) }
    ensures unfailed { OnOk result (W.failures out.new ≡ W.failures out.old) }
    ensures cause { IfErr result (IsCutCause answer.now.text.items (W.taken out.old) (W.taken out.new) (W.failures out.old) (W.failures out.new)) }
{
    match write_text(answer.text.as_slice(), before.written, out) {
        Ok(written) => Ok(SoFar {
            lines: before.lines + 1,
            status: before.status.max(answer.status),
            written,
        }),
        Err(written) => Err(Cause::Write(written)),
    }
}

/// What is printed of the document on the line of this number, by its answer alone.
fn numbered_answer(
    alloc: Global,
    number: u64,
    command: ObjectCommand,
    alone: &Answer,
) -> Result<LineAnswer, AllocError>
    ensures { IfOk result (λ a. (a.status ≡ alone.now.status) × (a.text.items ≡ printed_at number command alone.now.status (string_bytes alone.now.out))) }
{
    Ok(LineAnswer {
        status: alone.status,
        text: numbered_text(alloc, number, command, alone.status, alone.out.as_bytes())?,
    })
}

/// The text of what is printed.
fn numbered_text(
    alloc: Global,
    number: u64,
    command: ObjectCommand,
    status: u8,
    text: &[u8],
) -> Result<Vec<u8>, AllocError>
    ensures { IfOk result (λ v. v.items ≡ printed_at number command status text.now) }
{
    match command {
        ObjectCommand::Validate { strict: _ } if status == 0 => Ok(Vec::new(alloc)),
        ObjectCommand::Validate { strict: _ } => with_number(alloc, number, text),
        ObjectCommand::Prune | ObjectCommand::Default => Vec::from_slice(alloc, text),
        ObjectCommand::Leaves if status == 0 => with_number(alloc, number, text),
        ObjectCommand::Leaves => with_number(alloc, number, b"L1\n"),
    }
}

/// The lines of a text behind a number.
fn with_number(alloc: Global, number: u64, text: &[u8]) -> Result<Vec<u8>, AllocError>
    ensures { IfOk result (λ v. v.items ≡ numbered number text.now) }
{
    let front = format!(in alloc; "{number}: ")?;
    let mut lines = Vec::new(alloc);
    let mut at_start = true;
    for byte in text {
        push_byte(&mut lines, front.as_bytes(), at_start, *byte)?;
        at_start = *byte == b'\n';
    }
    Ok(lines)
}

/// Puts a byte after the others, behind the front of its line where it is at the start of one.
fn push_byte(lines: &mut Vec<u8>, front: &[u8], at_start: bool, byte: u8) -> Result<(), AllocError>
    ensures { OnOk result ((rest : List ℕ) → lines.old.items ++ with_front front.now at_start (byte ∷ rest) ≡ lines.new.items ++ with_front front.now (byte == newline) rest) }
{
    if at_start {
        lines.extend_from_slice(front)?;
    }
    lines.push(byte)?;
    Ok(())
}

/// Writes a text and flushes, after so many lines that are out. It answers how many lines are out then; on an error too.
fn write_text<W: Sink>(text: &[u8], before: u64, out: &mut W) -> Result<u64, u64>
    ensures ok { OnOk result (Appends (W.taken out.old) (W.taken out.new) text.now) }
    ensures unfailed { OnOk result (W.failures out.new ≡ W.failures out.old) }
    ensures part { OnErr result ((bytes : ℕ) × Appends (W.taken out.old) (W.taken out.new) (take bytes text.now)) }
    ensures failed { OnErr result (HasFailed (W.failures out.old) (W.failures out.new)) }
{
    if text.is_empty() {
        return Ok(before);
    }
    match put_all(out, text) {
        Ok(()) => {
            let written = before.saturating_add(newlines(text));
            match out.flush() {
                Ok(()) => Ok(written),
                Err(_) => Err(written),
            }
        }
        Err(taken) => Err(before.saturating_add(newlines(&text[..taken]))),
    }
}
