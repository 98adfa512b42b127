//! Reading with a choice of the numbers that are read.
ghost use Rattle.std.specs.Prelude.{◌≡◌, ◌≢◌, ◌<◌, ◌↔◌, length, Err, IfOk, IfErr, IfSome, OnOk, IsErrOf};
ghost use Rattle.std.specs.Io.KnownBytes.{IsAtEnd};
ghost use Rattle.jtree.specs.Failures.{HasFailed};
ghost use Rattle.jtree.specs.Reads.{most_bytes, HasTaken};
ghost use Rattle.jtree.specs.ReadsWith.{ReadsWith, IsNoDocumentWith};
ghost use Rattle.jtree.specs.View.{data_of};
ghost use Rattle.jtree.specs.declared.fault.JFault.TheVariants.{TooLong, ReadFailed};

use crate::fault::JFault;
use crate::read_all::tree_from_bytes;
use crate::source::{Source, read_bytes};
use crate::value::Tree;
use std::alloc::Global;

/// Which numbers of a document are read.
#[derive(Clone, Copy, Debug, PartialEq, Eq, Drop)]
pub enum Numbers {
    /// Integers of 64 bits alone, written without a point and without an exponent.
    Integers,
    /// All numbers within the range of floats.
    All,
}

impl Tree {
    /// The tree of the bytes as JSON (RFC 8259), with these numbers. With `Numbers::Integers` it is `from_bytes`.
    ///
    /// With `Numbers::All` a number is an integer where it has neither a point nor an exponent and is between -2^63 and 2^63 - 1, and
    /// where it is whole and less than 2^53 in size, as `1.0`, `1e2` and `-0`. Any other number is a `Tree::Number`.
    ///
    /// The errors are those of `from_bytes`, but with `Numbers::All` `NotAnInteger` does not come. `NotJson` comes for the same bytes
    /// with both: where a number is beyond the range of floats, as `1e999`, too.
    pub fn from_bytes_with(alloc: Global, bytes: &[u8], numbers: Numbers) -> Result<Tree, JFault>
        ensures ok { IfOk result (λ t. ReadsWith numbers bytes.now (data_of t)) }
        ensures too_long { IsErrOf result TooLong ↔ most_bytes < length bytes.now }
        ensures refused { IfErr result (IsNoDocumentWith numbers bytes.now) }
    {
        match numbers {
            Numbers::Integers => Tree::from_bytes(alloc, bytes),
            Numbers::All => tree_from_bytes(alloc, bytes),
        }
    }

    /// The tree of all bytes up to the end of input, as `from_bytes_with` answers it, in whatever pieces they come.
    ///
    /// `ReadFailed` exactly where the source fails, even after the last byte. Of a document that is too long it takes `MOST_BYTES + 1`
    /// bytes; whatever it answers, it has taken a beginning of the bytes.
    pub fn from_reader_with<R: Source>(
        alloc: Global,
        source: &mut R,
        numbers: Numbers,
    ) -> Result<Tree, JFault>
        ensures ok { IfOk result (λ t. IfSome (R.remaining source.old) (λ bytes. ReadsWith numbers bytes (data_of t))) }
        ensures refused { IfErr result (λ e. e ≢ ReadFailed → IfSome (R.remaining source.old) (λ bytes. IsNoDocumentWith numbers bytes e)) }
        ensures end { OnOk result (IsAtEnd (R.remaining source.new)) }
        ensures taken { HasTaken (R.remaining source.old) (R.remaining source.new) }
        ensures failed { result ≡ Err ReadFailed → HasFailed (R.failures source.old) (R.failures source.new) }
        ensures unfailed { result ≢ Err ReadFailed → R.failures source.new ≡ R.failures source.old }
    {
        let bytes = read_bytes(alloc, source)?;
        Tree::from_bytes_with(alloc, bytes.as_slice(), numbers)
    }
}
