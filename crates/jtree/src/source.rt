//! Where bytes come from, and what is known of them.

ghost use Rattle.std.specs.Prelude.{◌≡◌, ◌≢◌, ◌≤◌, ◌⊎◌, ℕ, List, length, Option, Err, IfOk, IfErr, OnOk};
ghost use Rattle.std.specs.Io.{ReadsAtMost};
ghost use Rattle.std.specs.Io.KnownBytes.{Consumes, IsAtEnd, ReadConsumes};
ghost use Rattle.jtree.specs.Failures.{one_more, HasFailed};
ghost use Rattle.jtree.specs.Reads.{most_bytes, HasTaken};
ghost use Rattle.jtree.specs.declared.fault.JFault.TheVariants.{NoMemory, ReadFailed};

use crate::fault::JFault;
use crate::read::MOST_BYTES;
use std::alloc::Global;
use std::io::{self, ErrorKind, Read};
use thiserror::Error;

/// Why a source gave nothing.
#[derive(Clone, Copy, Debug, PartialEq, Eq, Drop, Error)]
pub enum SourceFault {
    /// The read failed.
    #[error("the read failed")]
    Failed,
}

/// A place that bytes come from, which counts its failures.
pub trait Source {
    // The bytes still to come up to the end of input, where they are known.
    ghost remaining: { Self → Option (List ℕ) };

    // How often it has failed, up to the greatest count.
    ghost failures: { Self → ℕ };

    /// Puts a beginning of the bytes still to come at the front of the buffer, and answers how many: 0 is the end of
    /// input where the buffer has room. An error gives nothing, and is one failure more.
    fn get(&mut self, buffer: &mut [u8]) -> Result<usize, SourceFault>
        ensures within { ReadsAtMost result buffer.new }
        ensures gives { ReadConsumes (remaining self.old) (remaining self.new) result buffer.new }
        ensures ok { OnOk result (failures self.new ≡ failures self.old) }
        ensures err { IfErr result (λ _. failures self.new ≡ one_more (failures self.old)) };
}

/// A source of any reader.
#[derive(Drop)]
pub struct Feed<T> {
    reader: T,
    failures: u64,
}

impl<T: Read> Feed<T> {
    /// A source of this reader, which has not failed yet.
    pub fn new(reader: T) -> Feed<T>
        ensures remaining { ⟦<Feed<T> as Source>⟧.remaining result ≡ T.remaining reader }
        ensures unfailed { ⟦<Feed<T> as Source>⟧.failures result ≡ 0 }
    {
        Feed {
            reader,
            failures: 0,
        }
    }
}

impl<T: Read> Source for Feed<T> {
    ghost remaining = { λ s. T.remaining s.reader };

    ghost failures = { λ s. s.failures };

    fn get(&mut self, buffer: &mut [u8]) -> Result<usize, SourceFault> {
        match read_on(&mut self.reader, buffer) {
            Ok(n) => Ok(n),
            Err(_) => {
                self.failures = self.failures.saturating_add(1);
                Err(SourceFault::Failed)
            }
        }
    }
}

/// How often a read that a signal interrupts is repeated: so it ends however often it is interrupted.
const MOST_TRIES: u32 = 1000;

/// One read, repeated where a signal interrupted it.
fn read_on<T: Read>(reader: &mut T, buffer: &mut [u8]) -> io::Result<usize>
    ensures within { ReadsAtMost result buffer.new }
    ensures gives { ReadConsumes (T.remaining reader.old) (T.remaining reader.new) result buffer.new }
{
    for _ in 0..MOST_TRIES {
        match reader.read(buffer) {
            Ok(n) => return Ok(n),
            Err(error) => {
                if error.kind() != ErrorKind::Interrupted {
                    return Err(error);
                }
            }
        }
    }
    reader.read(buffer)
}

/// How many bytes a source is asked for at a time.
pub(crate) const PIECE: usize = 8192;

/// All bytes up to the end of input, in whatever pieces they come; of more than `MOST_BYTES`, the first `MOST_BYTES + 1`.
///
/// `ReadFailed` exactly where the source fails, `NoMemory` where an allocation fails. After either, a beginning of the bytes is taken,
/// and lost.
pub fn read_bytes<R: Source>(alloc: Global, source: &mut R) -> Result<Vec<u8>, JFault>
    ensures taken { HasTaken (R.remaining source.old) (R.remaining source.new) }
    ensures all { IfOk result (λ bytes. Consumes (R.remaining source.old) (R.remaining source.new) bytes.items) }
    ensures end { IfOk result (λ bytes. length bytes.items ≤ most_bytes → IsAtEnd (R.remaining source.new)) }
    ensures failed { result ≡ Err ReadFailed → HasFailed (R.failures source.old) (R.failures source.new) }
    ensures unfailed { result ≢ Err ReadFailed → R.failures source.new ≡ R.failures source.old }
    ensures err { IfErr result (λ e. (e ≡ ReadFailed) ⊎ (e ≡ NoMemory)) }
{
    let mut bytes = Vec::new(alloc);
    let mut piece = [0; PIECE];
    'read: while bytes.len() <= MOST_BYTES {
        let n = get_at_most(source, MOST_BYTES + 1 - bytes.len(), &mut piece)?;
        if n == 0 {
            return Ok(bytes);
        }
        bytes.extend_from_slice(&piece[..n])?;
    }
    Ok(bytes)
}

/// A beginning of the bytes still to come, at most as many as this.
fn get_at_most<R: Source>(
    source: &mut R,
    most: usize,
    buffer: &mut [u8],
) -> Result<usize, SourceFault>
    requires some { 1 ≤ most }
    requires room { 1 ≤ length buffer.old }
    ensures within { IfOk result (λ n. n ≤ most) }
    ensures room { ReadsAtMost result buffer.new }
    ensures gives { ReadConsumes (R.remaining source.old) (R.remaining source.new) result buffer.new }
    ensures ok { OnOk result (R.failures source.new ≡ R.failures source.old) }
    ensures err { IfErr result (λ _. R.failures source.new ≡ one_more (R.failures source.old)) }
{
    let most = most.min(buffer.len());
    source.get(&mut buffer[..most])
}
