//! The objects that `pools` is given: inputs with one document, or with one on each line.
ghost use Rattle.std.specs.Prelude.{◌≡◌, ◌<◌, ◌+◌, ◌-◌, ◌^◌, ◌++◌, ◌∷◌, [], ℕ, List, map, IfOk, IfErr, OnOk, MatchOption};
ghost use Rattle.jtree.specs.Data.{Data};
ghost use Rattle.jtree.specs.ReadsWith.{ReadsWith};
ghost use Rattle.jtree.specs.View.{data_of};
ghost use Rattle.crdx.specs.Internal.Cause.{IsObjectInputCause, HasComing};
ghost use Rattle.crdx.specs.Internal.LineProgress.{cause_of_line};
ghost use Rattle.crdx.specs.Internal.ObjectInputs.{AreAdded, AddsLines, AddsText, IsBrokenLine, IsLaterCause, IsTextCause, IsRefusedText, cause_of_text};
ghost use Rattle.crdx.specs.Program.CommandLine.{input_of};
ghost use Rattle.crdx.specs.Program.Documents.{AreLinesAmong};
ghost use Rattle.crdx.specs.Program.Profiles.{numbers_by};
ghost use Rattle.crdx.specs.Program.Objects.{AreDocuments, AreObjects, HasInput, IsRefused};
ghost use Rattle.jtree.specs.Lines.{newline};
ghost use Rattle.crdx.specs.declared.running.causes.Cause.TheVariants.{Document};
ghost use Rattle.crdx.specs.declared.running.causes.Input.TheVariants.{Object};

use crate::arguments::input_named;
use crate::envelope::split;
use crate::inputs::{InFault, Inputs};
use crate::profile::numbers_by;
use crate::running::causes::{Cause, Input};
use crate::running::refusal::{Refusal, Subject};
use jtree::{JFault, MOST_BYTES, Tree};
use schema::Profile;
use std::alloc::{AllocError, Global};

/// The bodies of the documents of the inputs that these words name, one input after the other: a file, or for `-` the standard input.
pub(crate) fn read_objects<'a, I: Inputs>(
    alloc: Global,
    profile: Profile,
    inputs: &mut I,
    words: &[&'a str],
) -> Result<Vec<Tree>, Refusal<'a>>
    ensures objects { IfOk result (λ os. AreObjects (numbers_by profile) (I.lines inputs.old) (map (λ w. w.now) words.now) (map data_of os.items)) }
    ensures cause { IfErr result (λ r. IsObjectInputCause (numbers_by profile) (HasInput (I.lines inputs.old) (map (λ w. w.now) words.now)) (I.failures inputs.old) (I.failures inputs.new) r.cause) }
{
    let mut objects = Vec::new(alloc);
    for word in words {
        match read_input(alloc, profile, inputs, word, &mut objects) {
            Ok(()) => {}
            Err(refusal) => return Err(refusal),
        }
    }
    Ok(objects)
}

/// Adds the bodies of the documents of the input that a word names.
fn read_input<'a, I: Inputs>(
    alloc: Global,
    profile: Profile,
    inputs: &mut I,
    word: &'a str,
    objects: &mut Vec<Tree>,
) -> Result<(), Refusal<'a>>
    ensures objects { OnOk result ((ls : List (List ℕ)) × I.lines inputs.old (input_of word.now) ls × (ds : List Data) × AreDocuments (numbers_by profile) ls ds × AreAdded ds objects.old.items objects.new.items) }
    ensures cause { IfErr result (λ r. IsObjectInputCause (numbers_by profile) (HasComing (I.lines inputs.old (input_of word.now))) (I.failures inputs.old) (I.failures inputs.new) r.cause) }
    ensures lines { AreLinesAmong (I.lines inputs.new) (I.lines inputs.old) }
    ensures unfailed { OnOk result (I.failures inputs.new ≡ I.failures inputs.old) }
{
    let name = input_named(word);
    match inputs.open_lines(name) {
        Ok(()) => match read_lines(alloc, profile, inputs, objects) {
            Ok(()) => Ok(()),
            Err(refusal) => Err(refusal.about(Subject::Input(name))),
        },
        Err(InFault::Failed) => Err(Refusal {
            cause: Cause::Read(Input::Object),
            subject: Subject::Input(name),
        }),
        Err(_) => Err(Cause::NoMemory.into()),
    }
}

/// Adds those of the input that was opened: one on each line where the first line has one, and else one on all lines together.
fn read_lines<I: Inputs>(
    alloc: Global,
    profile: Profile,
    inputs: &mut I,
    objects: &mut Vec<Tree>,
) -> Result<(), Refusal<'static>>
    ensures objects { OnOk result ((ls : List (List ℕ)) × I.coming inputs.old ls × (ds : List Data) × AreDocuments (numbers_by profile) ls ds × AreAdded ds objects.old.items objects.new.items) }
    ensures cause { IfErr result (λ r. IsObjectInputCause (numbers_by profile) (HasComing (I.coming inputs.old)) (I.failures inputs.old) (I.failures inputs.new) r.cause) }
    ensures lines { AreLinesAmong (I.lines inputs.new) (I.lines inputs.old) }
    ensures unfailed { OnOk result (I.failures inputs.new ≡ I.failures inputs.old) }
{
    let mut line = Vec::new(alloc);
    match inputs.next_line(&mut line) {
        Ok(true) => {}
        Ok(false) => return add_text(alloc, profile, Vec::new(alloc), objects),
        Err(fault) => return Err(unread_text(fault, line)),
    }
    match document_of(alloc, profile, line.as_slice()) {
        Ok(Some(document)) => match push_body(objects, document) {
            Ok(()) => read_more(alloc, profile, inputs, objects, line),
            Err(error) => Err(error.into()),
        },
        Ok(None) => read_on(alloc, profile, inputs, objects, line),
        Err(error) => Err(error.into()),
    }
}

/// The document that a line is, where it is one.
fn document_of(alloc: Global, profile: Profile, line: &[u8]) -> Result<Option<Tree>, AllocError>
    ensures { IfOk result (λ d. MatchOption d (IsRefused (numbers_by profile) line.now) (λ t. ReadsWith (numbers_by profile) line.now (data_of t))) }
{
    match Tree::from_bytes_with(alloc, line, numbers_by(profile)) {
        Ok(document) => Ok(Some(document)),
        Err(JFault::NoMemory) => Err(AllocError),
        Err(_) => Ok(None),
    }
}

/// Adds those on each line after the first one; what was read of that is overwritten.
fn read_more<I: Inputs>(
    alloc: Global,
    profile: Profile,
    inputs: &mut I,
    objects: &mut Vec<Tree>,
    first: Vec<u8>,
) -> Result<(), Refusal<'static>>
    ensures objects { OnOk result (AddsLines (numbers_by profile) (I.coming inputs.old) objects.old.items objects.new.items) }
    ensures cause { IfErr result (λ r. IsLaterCause (numbers_by profile) (I.coming inputs.old) (I.failures inputs.old) (I.failures inputs.new) r.cause) }
    ensures lines { AreLinesAmong (I.lines inputs.new) (I.lines inputs.old) }
    ensures unfailed { OnOk result (I.failures inputs.new ≡ I.failures inputs.old) }
{
    let mut line = first;
    let mut read: u64 = 1;
    'lines: while read < u64::MAX {
        match inputs.next_line(&mut line) {
            Ok(true) => {}
            Ok(false) => return Ok(()),
            Err(fault) => return Err(unread_line(read, fault, line)),
        }
        match add_line(alloc, profile, read + 1, line.as_slice(), objects) {
            Ok(()) => {}
            Err(cause) => {
                return Err(Refusal {
                    cause,
                    subject: Subject::Bytes(line),
                });
            }
        }
        read += 1;
    }
    Err(Cause::NoMemory.into())
}

/// Adds that of the line of this number.
fn add_line(
    alloc: Global,
    profile: Profile,
    number: u64,
    line: &[u8],
    objects: &mut Vec<Tree>,
) -> Result<(), Cause>
    ensures added { OnOk result ((d : Data) × ReadsWith (numbers_by profile) line.now d × AreAdded (d ∷ []) objects.old.items objects.new.items) }
    ensures cause { IfErr result (IsBrokenLine (numbers_by profile) number line.now) }
{
    match Tree::from_bytes_with(alloc, line, numbers_by(profile)) {
        Ok(document) => match push_body(objects, document) {
            Ok(()) => Ok(()),
            Err(_) => Err(Cause::NoMemory),
        },
        Err(JFault::NoMemory) => Err(Cause::NoMemory),
        Err(fault) => Err(Cause::Line(number, fault)),
    }
}

/// Adds that of all lines together, of which the first one is read.
fn read_on<I: Inputs>(
    alloc: Global,
    profile: Profile,
    inputs: &mut I,
    objects: &mut Vec<Tree>,
    first: Vec<u8>,
) -> Result<(), Refusal<'static>>
    ensures objects { OnOk result (AddsText (numbers_by profile) (I.coming inputs.old) first.items objects.old.items objects.new.items) }
    ensures cause { IfErr result (λ r. IsTextCause (numbers_by profile) (I.coming inputs.old) first.items (I.failures inputs.old) (I.failures inputs.new) r.cause) }
    ensures lines { AreLinesAmong (I.lines inputs.new) (I.lines inputs.old) }
    ensures unfailed { OnOk result (I.failures inputs.new ≡ I.failures inputs.old) }
{
    let mut text = first;
    let mut line = Vec::new(alloc);
    'lines: while text.len() <= MOST_BYTES {
        match inputs.next_line(&mut line) {
            Ok(true) => {}
            Ok(false) => return add_text(alloc, profile, text, objects),
            Err(fault) => return Err(unread_text(fault, line)),
        }
        match add_to_text(&mut text, line.as_slice()) {
            Ok(()) => {}
            Err(error) => return Err(error.into()),
        }
    }
    Err(no_document(JFault::TooLong, text))
}

/// A line after those that there are.
fn add_to_text(text: &mut Vec<u8>, line: &[u8]) -> Result<(), AllocError>
    ensures { OnOk result (text.new.items ≡ text.old.items ++ newline ∷ line.now) }
{
    text.push(b'\n')?;
    text.extend_from_slice(line)
}

/// Adds that of the text of an input.
fn add_text(
    alloc: Global,
    profile: Profile,
    text: Vec<u8>,
    objects: &mut Vec<Tree>,
) -> Result<(), Refusal<'static>>
    ensures added { OnOk result ((d : Data) × ReadsWith (numbers_by profile) text.items d × AreAdded (d ∷ []) objects.old.items objects.new.items) }
    ensures cause { IfErr result (λ r. IsRefusedText (numbers_by profile) text.items r.cause) }
{
    match Tree::from_bytes_with(alloc, text.as_slice(), numbers_by(profile)) {
        Ok(document) => match push_body(objects, document) {
            Ok(()) => Ok(()),
            Err(error) => Err(error.into()),
        },
        Err(JFault::NoMemory) => Err(Cause::NoMemory.into()),
        Err(fault) => Err(no_document(fault, text)),
    }
}

/// Adds the body of a document.
fn push_body(objects: &mut Vec<Tree>, document: Tree) -> Result<(), AllocError>
    ensures { OnOk result (AreAdded (data_of document ∷ []) objects.old.items objects.new.items) }
{
    let mut body = document;
    drop(split(&mut body));
    Ok(objects.push(body)?)
}

/// Why an input has no document, which has this text as far as it was read.
fn no_document(fault: JFault, text: Vec<u8>) -> Refusal<'static>
    ensures { result.cause ≡ Document Object fault }
{
    Refusal {
        cause: Cause::Document(Input::Object, fault),
        subject: Subject::Bytes(text),
    }
}

/// Why the next line was not read, and so no document is that goes over all of them.
fn unread_text(fault: InFault, line: Vec<u8>) -> Refusal<'static>
    ensures { result.cause ≡ cause_of_text fault }
{
    match fault {
        InFault::Failed => Cause::Read(Input::Object).into(),
        InFault::Document(JFault::NoMemory) => Cause::NoMemory.into(),
        InFault::Document(fault) => no_document(fault, line),
    }
}

/// Why the line after so many was not read; `line` has what was read of it.
pub(crate) fn unread_line(lines: u64, fault: InFault, line: Vec<u8>) -> Refusal<'static>
    requires { lines < 2 ^ 64 - 1 }
    ensures { result.cause ≡ cause_of_line (lines + 1) fault }
{
    match fault {
        InFault::Failed => Cause::Read(Input::Object).into(),
        InFault::Document(JFault::NoMemory) => Cause::NoMemory.into(),
        InFault::Document(fault) => Refusal {
            cause: Cause::Line(lines + 1, fault),
            subject: Subject::Bytes(line),
        },
    }
}
