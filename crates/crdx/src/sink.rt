//! Where bytes go, and what is known of them.

ghost use Rattle.std.specs.Prelude.{◌≡◌, ◌<◌, ◌≤◌, ℕ, List, Option, length, take, IfOk, IfErr, OnOk};
ghost use Rattle.std.specs.Io.KnownBytes.{WriteAppends, Appends, Keeps};
ghost use Rattle.jtree.specs.Failures.{one_more, HasFailed};
ghost use Rattle.crdx.specs.Output.Sink.{failures_after};

use std::io::Write;
use thiserror::Error;

/// Why a sink took nothing.
#[derive(Clone, Copy, Debug, PartialEq, Eq, Drop, Error)]
pub enum SinkFault {
    /// The write or the flush failed.
    #[error("the write failed")]
    Failed,
}

/// A place for bytes, which counts its failures.
pub trait Sink {
    // The bytes that it has taken, where they are known.
    ghost taken: { Self → Option (List ℕ) };

    // How often it has failed, up to the greatest count.
    ghost failures: { Self → ℕ };

    /// Puts out the bytes, or a beginning of them, and answers how many. An error takes nothing, and is one failure more,
    /// as is an answer of 0 for bytes that are not empty.
    fn put(&mut self, bytes: &[u8]) -> Result<usize, SinkFault>
        ensures within { IfOk result (λ n. n ≤ length bytes.now) }
        ensures takes { WriteAppends (taken self.old) (taken self.new) result bytes.now }
        ensures counts { failures self.new ≡ failures_after (failures self.old) result bytes.now };

    /// Passes on what is held back. An error is one failure more.
    fn flush(&mut self) -> Result<(), SinkFault>
        ensures keeps { Keeps (taken self.old) (taken self.new) }
        ensures ok { OnOk result (failures self.new ≡ failures self.old) }
        ensures err { IfErr result (λ _. failures self.new ≡ one_more (failures self.old)) };
}

/// A sink of any writer.
#[derive(Drop)]
pub struct Plain<T> {
    writer: T,
    failures: u64,
}

impl<T: Write> Plain<T> {
    /// A sink of this writer, which has not failed yet.
    pub fn new(writer: T) -> Plain<T>
        ensures taken { ⟦<Plain<T> as Sink>⟧.taken result ≡ T.contents writer }
        ensures unfailed { ⟦<Plain<T> as Sink>⟧.failures result ≡ 0 }
    {
        Plain {
            writer,
            failures: 0,
        }
    }

    fn count_failure(&mut self) -> SinkFault
        ensures writer { self.new.writer ≡ self.old.writer }
        ensures failures { self.new.failures ≡ one_more self.old.failures }
    {
        self.failures = self.failures.saturating_add(1);
        SinkFault::Failed
    }
}

impl<T: Write> Sink for Plain<T> {
    ghost taken = { λ s. T.contents s.writer };

    ghost failures = { λ s. s.failures };

    fn put(&mut self, bytes: &[u8]) -> Result<usize, SinkFault> {
        match self.writer.write(bytes) {
            Ok(n) => {
                if n == 0 && !bytes.is_empty() {
                    let _ = self.count_failure();
                }
                Ok(n)
            }
            Err(_) => Err(self.count_failure()),
        }
    }

    fn flush(&mut self) -> Result<(), SinkFault> {
        match self.writer.flush() {
            Ok(()) => Ok(()),
            Err(_) => {
                let fault = self.count_failure();
                Err(fault)
            }
        }
    }
}

/// Puts out all the bytes, in as many calls as the sink needs; on an error, how many it took.
pub fn put_all<W: Sink>(sink: &mut W, bytes: &[u8]) -> Result<(), usize>
    ensures ok { OnOk result (Appends (W.taken sink.old) (W.taken sink.new) bytes.now) }
    ensures unfailed { OnOk result (W.failures sink.new ≡ W.failures sink.old) }
    ensures fewer { IfErr result (λ n. n < length bytes.now) }
    ensures part { IfErr result (λ n. Appends (W.taken sink.old) (W.taken sink.new) (take n bytes.now)) }
    ensures failed { IfErr result (λ _. HasFailed (W.failures sink.old) (W.failures sink.new)) }
{
    let mut at = 0;
    'put: while at < bytes.len() {
        match sink.put(&bytes[at..]) {
            Ok(0) => return Err(at),
            Ok(n) => at += n,
            Err(_) => return Err(at),
        }
    }
    Ok(())
}
