//! Where documents come from.

ghost use Rattle.std.specs.Prelude.{◌≡◌, ◌≢◌, ◌⊎◌, ◌<◌, ℕ, List, [], ◌∷◌, true, false, Option, Result, length, Ok, Err, IfOk, IfErr, OnOk, IfSome};
ghost use Rattle.jtree.specs.Data.{Data};
ghost use Rattle.jtree.specs.Failures.{one_more};
ghost use Rattle.jtree.specs.ReadsWith.{ReadsWith};
ghost use Rattle.jtree.specs.declared.read_with.Numbers.{Numbers as NumbersData};
ghost use Rattle.jtree.specs.View.{data_of};
ghost use Rattle.jtree.specs.declared.fault.JFault.TheVariants.{NoMemory, ReadFailed, TooLong};
ghost use Rattle.crdx.specs.Program.Documents.{file_name, AreAmong, AreLinesAmong};
ghost use Rattle.crdx.specs.Program.InputFault.{IsInputFault, IsFaultOf, IsOpenFault, IsLineFault, input_fault, failures_after_read};
ghost use Rattle.jtree.specs.declared.fault.JFault.{JFault};
ghost use Rattle.crdx.specs.declared.inputs.InFault.TheVariants.{Failed, Document};

use jtree::lines::{LineFeed, LineSource};
use jtree::source::{Feed, read_bytes};
use jtree::{JFault, Numbers, Tree};
use std::alloc::Global;
use std::fs::{self, Metadata};
use std::io::{self, ErrorKind, Read};
use std::rt::Files;
use thiserror::Error;

/// The name of an input.
#[derive(Clone, Copy, Debug, Drop)]
pub enum InputName<'a> {
    /// The standard input.
    Stdin,
    /// The file of this name.
    File(&'a str),
}

/// Why no document was read.
#[derive(Clone, Copy, Debug, PartialEq, Eq, Drop, Error)]
pub enum InFault {
    /// The file could not be opened, or it or the standard input could not be read.
    #[error("could not be read")]
    Failed,
    /// What was read is no document, or an allocation failed.
    #[error("{0}")]
    Document(JFault),
}

impl From<JFault> for InFault {
    ghost from_gives = { λ fault e. e ≡ input_fault fault };

    fn from(fault: JFault) -> InFault {
        // so no `Document` has J5, and a failed read never gives status 3
        match fault {
            JFault::ReadFailed => InFault::Failed,
            _ => InFault::Document(fault),
        }
    }
}

/// Why the file of a name could not be opened or read.
#[derive(Clone, Copy, Debug, PartialEq, Eq, Drop, Error)]
pub enum Unread {
    /// There is no file of this name.
    #[error("is not there")]
    NotThere,
    /// It is a directory.
    #[error("is a directory")]
    Directory,
    /// It may not be read.
    #[error("may not be read: permission denied")]
    NoPermission,
    /// Another reason, or one that is not known.
    #[error("could not be read")]
    Other,
}

impl From<ErrorKind> for Unread {
    fn from(kind: ErrorKind) -> Unread {
        match kind {
            ErrorKind::NotFound => Unread::NotThere,
            ErrorKind::IsADirectory => Unread::Directory,
            ErrorKind::PermissionDenied => Unread::NoPermission,
            _ => Unread::Other,
        }
    }
}

/// A place that has documents, and lines with a document each.
pub trait Inputs {
    // What the file of this name has, or the standard input where there is no name, where these numbers are read: a document, or why there
    // is none.
    ghost has: { Self → NumbersData → Option (List ℕ) → Result Data JFault → Type 0 };

    // What the lines of the file of this name, or of the standard input where there is no name, can be, as the implementation
    // has it: of known bytes their lines (`AreLines`), of unknown ones any. No clause ties them to bytes.
    ghost lines: { Self → Option (List ℕ) → List (List ℕ) → Type 0 };

    // The lines still to come of the input that was opened last.
    ghost coming: { Self → List (List ℕ) → Type 0 };

    ghost some_coming: { (now : Self) → (lines : List (List ℕ)) × coming now lines };

    // How often an input could not be opened or read, up to the greatest count.
    ghost failures: { Self → ℕ };

    /// The document of the input of this name, which may have these numbers.
    ///
    /// `Failed` where it cannot be opened or read, and `Document` where it is no document, or out of memory.
    fn tree(&mut self, name: InputName<'_>, numbers: Numbers) -> Result<Tree, InFault>
        ensures document { IfOk result (λ t. has self.old numbers (file_name name.entry) (Ok (data_of t))) }
        ensures refused { IfErr result (IsInputFault (has self.old numbers) (file_name name.entry)) }
        ensures stays { AreAmong (has self.new) (has self.old) }
        ensures lines { AreLinesAmong (lines self.new) (lines self.old) }
        ensures counts { failures self.new ≡ failures_after_read (failures self.old) result };

    /// Opens the input of this name to read its lines by `next_line`.
    ///
    /// `Failed` where it cannot be opened, and `Document(NoMemory)` where an allocation fails.
    fn open_lines(&mut self, name: InputName<'_>) -> Result<(), InFault>
        ensures opened { OnOk result ((ls : List (List ℕ)) → coming self.new ls → lines self.old (file_name name.entry) ls) }
        ensures refused { IfErr result IsOpenFault }
        ensures lines { AreLinesAmong (lines self.new) (lines self.old) }
        ensures counts { failures self.new ≡ failures_after_read (failures self.old) result };

    /// Makes `line` the next line of the input that was opened last, without the newline at its end, which the last line may lack,
    /// and answers whether there is one.
    ///
    /// `Failed` where the read fails, `Document(TooLong)` where the line has more than `MOST_BYTES` bytes, which is taken then, and of
    /// which `line` is a beginning, and `Document(NoMemory)` where an allocation fails.
    fn next_line(&mut self, line: &mut Vec<u8>) -> Result<bool, InFault>
        ensures line { IfOk result (λ more. more ≡ true → (ls : List (List ℕ)) → coming self.new ls → coming self.old (line.new.items ∷ ls)) }
        ensures end { IfOk result (λ more. more ≡ false → coming self.old []) }
        ensures refused { IfErr result (IsLineFault (coming self.old) (coming self.new)) }
        ensures lines { AreLinesAmong (lines self.new) (lines self.old) }
        ensures counts { failures self.new ≡ failures_after_read (failures self.old) result };

    /// The bytes of the document that was refused last, as far as they were read.
    fn refused(&self) -> &[u8];

    /// How many bytes the file of this name has, where that is known; of the standard input it is not.
    fn size(&self, name: InputName<'_>) -> Option<u64>;

    /// Why the file of this name, the last one for which `Failed` was answered, could not be opened or read.
    fn unread(&self, name: InputName<'_>) -> Unread;
}

/// A file or the standard input, whose lines are read.
#[derive(Drop)]
enum OpenLines<F, S> {
    File(LineFeed<Feed<F>>),
    Standard(LineFeed<Feed<S>>),
}

impl<F: Read, S: Read> OpenLines<F, S> {
    fn next_line(&mut self, line: &mut Vec<u8>) -> Result<bool, JFault>
        ensures { IfErr result (λ e. (e ≡ TooLong) ⊎ ((e ≡ ReadFailed) ⊎ (e ≡ NoMemory))) }
    {
        match self {
            OpenLines::File(lines) => lines.next_line(line),
            OpenLines::Standard(lines) => lines.next_line(line),
        }
    }
}

/// The files and the standard input of a runtime.
#[derive(Drop)]
pub struct HostInputs<'a, R: Files + Input> {
    rt: &'a R,
    failures: u64,
    refused: Option<Vec<u8>>,
    /// Why a file was not opened.
    unopened: Option<ErrorKind>,
    lines: Option<OpenLines<R::File, R::Reader>>,
}

impl<'a, R: Files + Input> HostInputs<'a, R> {
    /// The files and the standard input of this runtime.
    pub fn new(rt: &'a R) -> HostInputs<'a, R> {
        HostInputs {
            rt,
            failures: 0,
            refused: None,
            unopened: None,
            lines: None,
        }
    }
}

impl<R: Files + Input> HostInputs<'_, R> {
    /// A file is not opened, for this reason.
    fn not_opened(&mut self, kind: ErrorKind) -> InFault
        ensures fault { (result ≡ Failed) ⊎ (result ≡ Document NoMemory) }
        ensures failures { self.new.failures ≡ self.old.failures }
    {
        self.unopened = Some(kind);
        fault_of(kind)
    }

    fn count_failure(&mut self) -> InFault
        ensures fault { result ≡ Failed }
        ensures failures { self.new.failures ≡ one_more self.old.failures }
    {
        self.failures = self.failures.saturating_add(1);
        InFault::Failed
    }
}

impl<R: Files + Input + AllocGlobal> HostInputs<'_, R> {
    fn read(&mut self, name: InputName<'_>, numbers: Numbers) -> Result<Tree, InFault>
        ensures failures { self.new.failures ≡ self.old.failures }
        ensures no_read { IfErr result (λ e. e ≢ Document ReadFailed) }
    {
        let alloc = self.rt.alloc();
        match name {
            InputName::File(name) => match fs::open(self.rt, name) {
                Ok(file) => read_document(alloc, file, numbers, &mut self.refused),
                Err(error) => Err(self.not_opened(error.kind())),
            },
            InputName::Stdin => {
                read_document(alloc, self.rt.reader(), numbers, &mut self.refused)
            }
        }
    }

    fn open(&mut self, name: InputName<'_>) -> Result<OpenLines<R::File, R::Reader>, InFault>
        ensures fault { IfErr result IsOpenFault }
        ensures failures { self.new.failures ≡ self.old.failures }
    {
        let alloc = self.rt.alloc();
        match name {
            InputName::File(name) => match fs::open(self.rt, name) {
                Ok(file) => Ok(OpenLines::File(LineFeed::new(alloc, Feed::new(file)))),
                Err(error) => Err(self.not_opened(error.kind())),
            },
            InputName::Stdin => {
                let lines = LineFeed::new(alloc, Feed::new(self.rt.reader()));
                Ok(OpenLines::Standard(lines))
            }
        }
    }
}

impl<R: Files + Input + AllocGlobal> Inputs for HostInputs<'_, R> {
    // Nothing is known of files.
    ghost has = { λ _ _ _ _. Unit {0} };

    ghost lines = { λ _ _ _. Unit {0} };

    ghost coming = { λ _ _. Unit {0} };

    ghost some_coming = { λ _. ([], tt) };

    ghost failures = { λ s. s.failures };

    fn tree(&mut self, name: InputName<'_>, numbers: Numbers) -> Result<Tree, InFault> {
        match self.read(name, numbers) {
            Ok(tree) => Ok(tree),
            Err(InFault::Failed) => Err(self.count_failure()),
            Err(fault) => Err(fault),
        }
    }

    fn open_lines(&mut self, name: InputName<'_>) -> Result<(), InFault> {
        match self.open(name) {
            Ok(lines) => {
                self.lines = Some(lines);
                Ok(())
            }
            Err(InFault::Failed) => Err(self.count_failure()),
            Err(fault) => Err(fault),
        }
    }

    fn next_line(&mut self, line: &mut Vec<u8>) -> Result<bool, InFault> {
        let Some(lines) = &mut self.lines else {
            return Ok(false);
        };
        match lines.next_line(line) {
            Ok(more) => Ok(more),
            Err(JFault::ReadFailed) => Err(self.count_failure()),
            Err(JFault::TooLong) => Err(InFault::Document(JFault::TooLong)),
            Err(_) => Err(InFault::Document(JFault::NoMemory)),
        }
    }

    fn refused(&self) -> &[u8] {
        match &self.refused {
            Some(bytes) => bytes.as_slice(),
            None => &[],
        }
    }

    fn size(&self, name: InputName<'_>) -> Option<u64> {
        match name {
            InputName::Stdin => None,
            InputName::File(name) => Some(fs::metadata(self.rt, name).ok()?.len()),
        }
    }

    fn unread(&self, name: InputName<'_>) -> Unread {
        match (self.unopened, name) {
            (Some(kind), _) => kind.into(),
            (None, InputName::File(name)) => unread_of(fs::metadata(self.rt, name)),
            (None, InputName::Stdin) => Unread::Other,
        }
    }
}

/// The document with these numbers that is all that the reader has left; where the bytes are none, they are kept.
fn read_document<R: Read + Drop>(
    alloc: Global,
    reader: R,
    numbers: Numbers,
    refused: &mut Option<Vec<u8>>,
) -> Result<Tree, InFault>
    ensures ok { IfOk result (λ t. IfSome (R.remaining reader) (λ bytes. ReadsWith numbers bytes (data_of t))) }
    ensures err { IfErr result (λ e. IfSome (R.remaining reader) (λ bytes. IsFaultOf numbers bytes e)) }
    ensures no_read { IfErr result (λ e. e ≢ Document ReadFailed) }
{
    let bytes = read_bytes(alloc, &mut Feed::new(reader))?;
    match Tree::from_bytes_with(alloc, bytes.as_slice(), numbers) {
        Ok(tree) => Ok(tree),
        Err(fault) => {
            *refused = Some(bytes);
            Err(fault.into())
        }
    }
}

/// Running out of memory while a file is opened is another fault than failing to open it.
fn fault_of(kind: ErrorKind) -> InFault
    ensures memory { kind ≡ ErrorKind.OutOfMemory → result ≡ Document NoMemory }
    ensures other { kind ≢ ErrorKind.OutOfMemory → result ≡ Failed }
    ensures either { (result ≡ Failed) ⊎ (result ≡ Document NoMemory) }
{
    match kind {
        ErrorKind::OutOfMemory => InFault::Document(JFault::NoMemory),
        _ => InFault::Failed,
    }
}

/// Why what was opened could not be read.
fn unread_of(metadata: io::Result<Metadata>) -> Unread {
    match metadata {
        Ok(metadata) if metadata.is_dir() => Unread::Directory,
        _ => Unread::Other,
    }
}
