//! Sinks and sources that can fail, and documents of memory.
ghost use Rattle.std.specs.Prelude.{Some, Ok, Err, ◌≡◌, ◌⊎◌, ◌∷◌, [], ℕ, List, true, false, IfOk, IfErr, IfSome};
ghost use Rattle.jtree.specs.declared.fault.JFault.TheVariants.{TooLong};
ghost use Rattle.jtree.specs.Lines.{AreLines};
ghost use Rattle.crdx_tests.specs.ComingLines.{AreComing, some_of_feed};
ghost use Rattle.jtree.specs.View.{data_of};
ghost use Rattle.crdx.specs.Program.InputFault.{IsReading, IsFaultOf, TakesLongLine, failures_after_read};
ghost use Rattle.crdx.specs.Output.Sink.{failures_after};

use crdx::inputs::{InFault, InputName, Inputs, Unread};
use crdx::sink::{Sink, SinkFault};
use jtree::lines::{LineFeed, LineSource};
use jtree::source::{Source, SourceFault};
use jtree::{JFault, Numbers, Tree};
use std::alloc::Global;
use std::io::Write;

/// Takes at most `step` bytes a call, and `left` in all; then it fails, or answers 0.
#[derive(Drop)]
pub struct FailingSink {
    pub taken: Vec<u8>,
    pub left: usize,
    pub step: usize,
    pub answers_zero: bool,
    pub flush_fails: bool,
    pub failures: u64,
    /// How often it was flushed.
    pub flushes: u64,
}

impl FailingSink {
    pub fn new(alloc: Global, left: usize, step: usize, answers_zero: bool) -> FailingSink {
        FailingSink {
            taken: Vec::new(alloc),
            left,
            step,
            answers_zero,
            flush_fails: false,
            failures: 0,
            flushes: 0,
        }
    }

    /// Takes all.
    pub fn endless(alloc: Global) -> FailingSink {
        FailingSink::new(alloc, usize::MAX, usize::MAX, false)
    }

    /// What was taken, as text.
    pub fn text(&self) -> &str {
        std::str::from_utf8(self.taken.as_slice()).unwrap_or("no UTF-8")
    }

    fn refuse(&mut self, bytes: &[u8]) -> Result<usize, SinkFault>
        ensures none { IfOk result (λ n. n ≡ 0) }
        ensures taken { self.new.taken.items ≡ self.old.taken.items }
        ensures counts { self.new.failures ≡ failures_after self.old.failures result bytes.now }
    {
        if self.answers_zero && bytes.is_empty() {
            return Ok(0);
        }
        self.failures = self.failures.saturating_add(1);
        if self.answers_zero {
            Ok(0)
        } else {
            Err(SinkFault::Failed)
        }
    }
}

impl Sink for FailingSink {
    ghost taken = { λ s. Some s.taken.items };

    ghost failures = { λ s. s.failures };

    fn put(&mut self, bytes: &[u8]) -> Result<usize, SinkFault> {
        let most = bytes.len().min(self.step).min(self.left);
        if most == 0 {
            return self.refuse(bytes);
        }
        match self.taken.write(&bytes[..most]) {
            Ok(n) => {
                self.left = self.left.saturating_sub(n);
                if n == 0 {
                    self.failures = self.failures.saturating_add(1);
                }
                Ok(n)
            }
            Err(_) => {
                self.failures = self.failures.saturating_add(1);
                Err(SinkFault::Failed)
            }
        }
    }

    fn flush(&mut self) -> Result<(), SinkFault> {
        self.flushes = self.flushes.saturating_add(1);
        if self.flush_fails {
            self.failures = self.failures.saturating_add(1);
            return Err(SinkFault::Failed);
        }
        Ok(())
    }
}

/// Gives at most `step` bytes a call, and fails once it has given `left` in all.
#[derive(Drop)]
pub struct FailingSource<'a> {
    pub bytes: &'a [u8],
    pub step: usize,
    pub left: usize,
    pub failures: u64,
}

impl<'a> FailingSource<'a> {
    pub fn new(bytes: &'a [u8], step: usize, left: usize) -> FailingSource<'a>
        ensures { result.bytes.now ≡ bytes.entry.now }
    {
        FailingSource {
            bytes,
            step,
            left,
            failures: 0,
        }
    }
}

impl Source for FailingSource<'_> {
    ghost remaining = { λ s. Some s.bytes.now };

    ghost failures = { λ s. s.failures };

    fn get(&mut self, buffer: &mut [u8]) -> Result<usize, SourceFault> {
        let most = buffer.len().min(self.step).min(self.left);
        if most == 0 {
            self.failures = self.failures.saturating_add(1);
            return Err(SourceFault::Failed);
        }
        let n = most.min(self.bytes.len());
        buffer[..n].copy_from_slice(&self.bytes[..n]);
        self.bytes = &self.bytes[n..];
        self.left -= n;
        Ok(n)
    }
}

/// How often each input was asked for.
#[derive(Clone, Copy, Debug, PartialEq, Eq, Drop)]
pub struct Reads {
    pub crd: u64,
    pub pools: u64,
    pub object: u64,
    /// The standard input, or a file of another name.
    pub other: u64,
}

/// Two documents: a definition, and a second one that the file of pools, that of an object and the standard input have. A
/// file of another name cannot be opened. They come in pieces of one
/// byte, and reading each fails after so many.
#[derive(Drop)]
pub struct FakeInputs<'a> {
    pub alloc: Global,
    pub crd: &'a [u8],
    pub second: &'a [u8],
    pub crd_left: usize,
    pub second_left: usize,
    pub reads: Reads,
    pub failures: u64,
    pub refused: &'a [u8],
    /// The lines of the input that was opened last.
    pub feed: Option<LineFeed<FailingSource<'a>>>,
}

impl<'a> FakeInputs<'a> {
    pub fn new(alloc: Global, crd: &'a str, second: &'a str) -> FakeInputs<'a> {
        FakeInputs {
            alloc,
            crd: crd.as_bytes(),
            second: second.as_bytes(),
            crd_left: usize::MAX,
            second_left: usize::MAX,
            reads: Reads {
                crd: 0,
                pools: 0,
                object: 0,
                other: 0,
            },
            failures: 0,
            refused: &[],
            feed: None,
        }
    }

    /// The document with these numbers that these bytes are, where reading them does not fail after so many.
    fn read(&mut self, bytes: &'a [u8], left: usize, numbers: Numbers) -> Result<Tree, InFault>
        ensures document { IfOk result (λ t. IsReading numbers bytes.now (Ok (data_of t))) }
        ensures refused { IfErr result (IsFaultOf numbers bytes.now) }
        ensures counts { self.new.failures ≡ failures_after_read self.old.failures result }
        ensures crd { self.new.crd ≡ self.old.crd }
        ensures second { self.new.second ≡ self.old.second }
    {
        let mut source = FailingSource {
            bytes,
            step: 1,
            left,
            failures: 0,
        };
        match Tree::from_reader_with(self.alloc, &mut source, numbers) {
            Ok(tree) => Ok(tree),
            Err(JFault::ReadFailed) => {
                self.failures = self.failures.saturating_add(1);
                Err(InFault::Failed)
            }
            Err(fault) => {
                self.refused = bytes;
                Err(InFault::Document(fault))
            }
        }
    }
}

/// The lines of these bytes, of which reading fails after so many.
fn line_feed<'a>(alloc: Global, bytes: &'a [u8], left: usize) -> LineFeed<FailingSource<'a>>
    ensures { ⟦<LineFeed<FailingSource<'a>> as LineSource>⟧.remaining result ≡ Some bytes.entry.now }
{
    LineFeed::new(alloc, FailingSource::new(bytes, 1, left))
}

/// The next line of these.
fn next_of<'a>(feed: &mut LineFeed<FailingSource<'a>>, line: &mut Vec<u8>) -> Result<bool, JFault>
    ensures line { IfOk result (λ more. more ≡ true → (ls : List (List ℕ))
        → AreComing (⟦<LineFeed<FailingSource<'a>> as LineSource>⟧.remaining feed.new) ls
        → AreComing (⟦<LineFeed<FailingSource<'a>> as LineSource>⟧.remaining feed.old) (line.new.items ∷ ls)) }
    ensures end { IfOk result (λ more. more ≡ false
        → AreComing (⟦<LineFeed<FailingSource<'a>> as LineSource>⟧.remaining feed.old) []) }
    ensures too_long { result ≡ Err TooLong → TakesLongLine (AreComing (⟦<LineFeed<FailingSource<'a>> as LineSource>⟧.remaining feed.old))
        (AreComing (⟦<LineFeed<FailingSource<'a>> as LineSource>⟧.remaining feed.new)) }
{
    feed.next_line(line)
}

impl<'a> Inputs for FakeInputs<'a> {
    ghost has = { λ s numbers name read. IsReading numbers s.crd.now read ⊎ IsReading numbers s.second.now read };

    ghost lines = { λ s name lines. AreLines s.second.now lines };

    ghost coming = { λ s lines. IfSome s.feed (λ f. AreComing (⟦<LineFeed<FailingSource<'a>> as LineSource>⟧.remaining f) lines) };

    ghost some_coming = { λ s. some_of_feed (⟦<LineFeed<FailingSource<'a>> as LineSource>⟧.remaining) s.feed };

    ghost failures = { λ s. s.failures };

    fn tree(&mut self, name: InputName<'_>, numbers: Numbers) -> Result<Tree, InFault> {
        match name {
            InputName::File("crd.json") => {
                self.reads.crd = self.reads.crd.saturating_add(1);
                self.read(self.crd, self.crd_left, numbers)
            }
            InputName::File("pools.json") => {
                self.reads.pools = self.reads.pools.saturating_add(1);
                self.read(self.second, self.second_left, numbers)
            }
            InputName::File("object.json") => {
                self.reads.object = self.reads.object.saturating_add(1);
                self.read(self.second, self.second_left, numbers)
            }
            InputName::Stdin => {
                self.reads.other = self.reads.other.saturating_add(1);
                self.read(self.second, self.second_left, numbers)
            }
            InputName::File(_) => {
                self.reads.other = self.reads.other.saturating_add(1);
                self.failures = self.failures.saturating_add(1);
                Err(InFault::Failed)
            }
        }
    }

    fn open_lines(&mut self, name: InputName<'_>) -> Result<(), InFault> {
        match name {
            InputName::File("object.json") => {
                self.reads.object = self.reads.object.saturating_add(1);
                self.feed = Some(line_feed(self.alloc, self.second, self.second_left));
                Ok(())
            }
            InputName::Stdin => {
                self.reads.other = self.reads.other.saturating_add(1);
                self.feed = Some(line_feed(self.alloc, self.second, self.second_left));
                Ok(())
            }
            InputName::File(_) => {
                self.reads.other = self.reads.other.saturating_add(1);
                self.failures = self.failures.saturating_add(1);
                Err(InFault::Failed)
            }
        }
    }

    fn next_line(&mut self, line: &mut Vec<u8>) -> Result<bool, InFault> {
        let Some(feed) = &mut self.feed else {
            return Ok(false);
        };
        match next_of(feed, line) {
            Ok(more) => Ok(more),
            Err(JFault::ReadFailed) => {
                self.failures = self.failures.saturating_add(1);
                Err(InFault::Failed)
            }
            Err(JFault::TooLong) => Err(InFault::Document(JFault::TooLong)),
            Err(_) => Err(InFault::Document(JFault::NoMemory)),
        }
    }

    fn refused(&self) -> &[u8] {
        self.refused
    }

    fn size(&self, name: InputName<'_>) -> Option<u64> {
        match name {
            InputName::Stdin => None,
            InputName::File(_) => Some(self.refused.len() as u64),
        }
    }

    fn unread(&self, name: InputName<'_>) -> Unread {
        match name {
            InputName::File("crd.json" | "pools.json" | "object.json") | InputName::Stdin => {
                Unread::Other
            }
            InputName::File(_) => Unread::NotThere,
        }
    }
}
