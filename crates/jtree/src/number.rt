//! Numbers that are not integers of 64 bits.
ghost use Rattle.std.specs.Prelude.{◌≡◌, ◌==◌, ◌<◌, IfOk, IsTrue, length, slice_index};
ghost use Rattle.std.specs.Ordering.{is_eq};
ghost use Rattle.jtree.specs.NumberOrder.{number_value, value_cmp};

use crate::value::Text;
use fast_float::Numeral;
use std::alloc::{AllocError, Global};
use std::cmp::OrderedFloat;
use std::marker::Model;

/// A number that is not an integer of 64 bits, as its text: one with a fraction or an exponent, or a larger integer. A contract sees it
/// as the bytes of the text.
pub struct Number {
    pub(crate) text: Text,
}

impl Drop for Number {
    fn drop(self) {
        let Number { text: _ } = self;
    }
}

impl Model for Number {
    ghost use Rattle.std.specs.Prelude.{ℕ, List};
    ghost use Rattle.jtree.specs.Data.{IsOtherNumber};

    ghost Value = { List ℕ };

    ghost view = { λ a. a.text };

    ghost invariant = { λ a. IsOtherNumber a.text };
}

impl Number {
    ghost use Rattle.jtree.specs.Data.{IsOtherNumber};

    /// Does nothing: a proof calls it to learn that the text is such a number.
    pub fn reveal_invariant(&self)
        ensures { IsOtherNumber self.now }
    {
        let _ = &self.text;
    }

    /// The number as it was written.
    pub fn as_str(&self) -> &str
        ensures { result.now ≡ self.now }
    {
        self.text.as_str()
    }

    /// An equal number. `AllocError` where an allocation fails.
    pub fn copy(&self, alloc: Global) -> Result<Number, AllocError>
        ensures { IfOk result (λ t. t ≡ self.now) }
    {
        Ok(Number {
            text: self.text.copy(alloc)?,
        })
    }

    /// The float nearest to the number (RFC 8259, section 6).
    pub fn value(&self) -> f64
        ensures { result ≡ number_value self.now }
    {
        let bytes = self.as_str().as_bytes();
        if has_minus(bytes) {
            Numeral::scan(&bytes[1..]).to_float(true)
        } else {
            Numeral::scan(bytes).to_float(false)
        }
    }

    /// Whether the nearest floats of the two are equal, as those of `0.5` and `0.50` are. `==` compares the texts.
    pub fn has_value_of(&self, other: &Number) -> bool
        ensures { result ≡ is_eq (value_cmp self.now other.now) }
    {
        OrderedFloat(self.value()) == OrderedFloat(other.value())
    }
}

/// Whether a number begins with a minus sign.
pub(crate) fn has_minus(bytes: &[u8]) -> bool
    ensures value { result ≡ (slice_index bytes.now 0 == 45) }
    ensures len { IsTrue result → 0 < length bytes.now }
{
    !bytes.is_empty() && bytes[0] == b'-'
}
