//! Documents one line each (JSON Lines). A line is the bytes that `Tree::from_bytes` or `Tree::from_bytes_with` reads.

ghost use Rattle.std.specs.Prelude.{◌≡◌, ◌≢◌, ◌≤◌, ◌<◌, ◌⊎◌, []};
ghost use Rattle.std.specs.Prelude.{ℕ, List, length, drop, true, false, Option, Err, IfOk, IfErr, OnOk, All};
ghost use Rattle.std.specs.Io.KnownBytes.{Consumes, IsAtEnd, Keeps};
ghost use Rattle.jtree.specs.Failures.{HasFailed};
ghost use Rattle.jtree.specs.Lines.{AreLines, TakesLine, TakesLongLine, newline};
ghost use Rattle.jtree.specs.Internal.LineParts.{left, TakesPart};
ghost use Rattle.jtree.specs.Reads.{most_bytes};
ghost use Rattle.jtree.specs.declared.fault.JFault.TheVariants.{NoMemory, TooLong, ReadFailed};

use crate::fault::JFault;
use crate::read::MOST_BYTES;
use crate::source::{PIECE, Source};
use std::alloc::Global;

/// A place that lines come from.
pub trait LineSource {
    // The bytes still to come up to the end of input, where they are known.
    ghost remaining: { Self → Option (List ℕ) };

    // How often it has failed, up to the greatest count.
    ghost failures: { Self → ℕ };

    /// Makes `line` the next line, without the newline at its end, which the last line may lack, and answers whether there is one.
    ///
    /// `TooLong` exactly where the next line has more than `MOST_BYTES` bytes; that line is taken, and `line` is a beginning of it. `ReadFailed` exactly where
    /// the source fails, and `NoMemory` where an allocation fails; a beginning of the bytes is taken then, and lost.
    fn next_line(&mut self, line: &mut Vec<u8>) -> Result<bool, JFault>
        ensures line { IfOk result (λ more. more ≡ true → TakesLine (remaining self.old) (remaining self.new) line.new.items) }
        ensures end { IfOk result (λ more. more ≡ false → IsAtEnd (remaining self.old) × IsAtEnd (remaining self.new)) }
        ensures short { OnOk result (length line.new.items ≤ most_bytes) }
        ensures too_long { result ≡ Err TooLong → TakesLongLine (remaining self.old) (remaining self.new) }
        ensures taken { (taken : List ℕ) × Consumes (remaining self.old) (remaining self.new) taken }
        ensures failed { result ≡ Err ReadFailed → HasFailed (failures self.old) (failures self.new) }
        ensures unfailed { result ≢ Err ReadFailed → failures self.new ≡ failures self.old }
        ensures err { IfErr result (λ e. (e ≡ TooLong) ⊎ ((e ≡ ReadFailed) ⊎ (e ≡ NoMemory))) };
}

/// The lines of a source. It holds the bytes that were read and not yet taken.
#[derive(Drop)]
pub struct LineFeed<T> {
    source: T,
    /// A piece of the bytes, of which those from `at` on are not yet taken.
    piece: Vec<u8>,
    at: usize,
    ghost in_piece: { at ≤ length piece.items },
}

impl<T: Source> LineFeed<T> {
    /// The lines of this source.
    pub fn new(alloc: Global, source: T) -> LineFeed<T>
        ensures remaining { ⟦<LineFeed<T> as LineSource>⟧.remaining result ≡ T.remaining source }
        ensures failures { ⟦<LineFeed<T> as LineSource>⟧.failures result ≡ T.failures source }
    {
        LineFeed {
            source,
            piece: Vec::new(alloc),
            at: 0,
        }
    }

    /// Reads the next piece where all bytes of the last one are taken, and answers whether bytes are left in the piece; none are at
    /// the end of input.
    fn read_ahead(&mut self) -> Result<bool, JFault>
        ensures same { OnOk result (Keeps (left self.old.at self.old.piece.items (T.remaining self.old.source)) (left self.new.at self.new.piece.items (T.remaining self.new.source))) }
        ensures some { IfOk result (λ some. some ≡ true → self.new.at < length self.new.piece.items) }
        ensures end { IfOk result (λ some. some ≡ false → (drop self.new.at self.new.piece.items ≡ []) × IsAtEnd (T.remaining self.new.source)) }
        ensures taken { IfErr result (λ _. (taken : List ℕ) × Consumes (left self.old.at self.old.piece.items (T.remaining self.old.source)) (left self.new.at self.new.piece.items (T.remaining self.new.source)) taken) }
        ensures failed { result ≡ Err ReadFailed → HasFailed (T.failures self.old.source) (T.failures self.new.source) }
        ensures unfailed { result ≢ Err ReadFailed → T.failures self.new.source ≡ T.failures self.old.source }
        ensures err { IfErr result (λ e. (e ≡ ReadFailed) ⊎ (e ≡ NoMemory)) }
    {
        if self.at < self.piece.len() {
            return Ok(true);
        }
        self.piece.clear();
        self.at = 0;
        let mut buffer = [0; PIECE];
        let n = self.source.get(&mut buffer)?;
        self.piece.extend_from_slice(&buffer[..n])?;
        Ok(n > 0)
    }

    /// Takes the bytes of the piece before the next newline, or all that are left, and answers whether a newline was met, which is
    /// taken too.
    fn take_part(&mut self, line: &mut Vec<u8>) -> Result<bool, JFault>
        requires { self.old.at < length self.old.piece.items }
        ensures same { (self.new.source ≡ self.old.source) × (self.new.piece ≡ self.old.piece) }
        ensures part { IfOk result (λ met. TakesPart met (drop self.old.at self.old.piece.items) (drop self.new.at self.new.piece.items) line.old.items line.new.items) }
        ensures err { IfErr result (λ e. (e ≡ NoMemory) × (self.new.at ≡ self.old.at)) }
    {
        let ahead = &self.piece[self.at..];
        match ahead.iter().position(|byte| *byte == b'\n') {
            Some(n) => {
                line.extend_from_slice(&ahead[..n])?;
                self.at += n + 1;
                Ok(true)
            }
            None => {
                line.extend_from_slice(ahead)?;
                self.at = self.piece.len();
                Ok(false)
            }
        }
    }

    /// Takes what is left of a line that is too long, with its newline. It gives up as out of memory after 2^64 - 1 pieces.
    fn skip_line(&mut self) -> Result<(), JFault>
        ensures skipped { OnOk result ((old : Option (List ℕ)) (front : List ℕ) → Consumes old (left self.old.at self.old.piece.items (T.remaining self.old.source)) front → All (λ b. b ≢ newline) front → most_bytes < length front
            → TakesLongLine old (left self.new.at self.new.piece.items (T.remaining self.new.source))) }
        ensures taken { (taken : List ℕ) × Consumes (left self.old.at self.old.piece.items (T.remaining self.old.source)) (left self.new.at self.new.piece.items (T.remaining self.new.source)) taken }
        ensures failed { result ≡ Err ReadFailed → HasFailed (T.failures self.old.source) (T.failures self.new.source) }
        ensures unfailed { result ≢ Err ReadFailed → T.failures self.new.source ≡ T.failures self.old.source }
        ensures err { IfErr result (λ e. (e ≡ ReadFailed) ⊎ (e ≡ NoMemory)) }
    {
        let mut part = Vec::new(*self.piece.allocator());
        for _piece in 0..u64::MAX {
            part.clear();
            if !self.read_ahead()? {
                return Ok(());
            }
            if self.take_part(&mut part)? {
                return Ok(());
            }
        }
        Err(JFault::NoMemory)
    }
}

impl<T: Source> LineSource for LineFeed<T> {
    ghost remaining = { λ s. left s.at s.piece.items (T.remaining s.source) };

    ghost failures = { λ s. T.failures s.source };

    fn next_line(&mut self, line: &mut Vec<u8>) -> Result<bool, JFault> {
        line.clear();
        'line: while line.len() <= MOST_BYTES {
            if !self.read_ahead()? {
                return Ok(!line.is_empty());
            }
            if self.take_part(line)? {
                return if line.len() <= MOST_BYTES {
                    Ok(true)
                } else {
                    Err(JFault::TooLong)
                };
            }
        }
        self.skip_line()?;
        Err(JFault::TooLong)
    }
}
