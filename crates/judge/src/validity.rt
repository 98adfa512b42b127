//! Whether a value is valid.
ghost use Rattle.std.specs.Prelude.{◌≡◌, Decides, IfOk};
ghost use Rattle.jtree.specs.View.{data_of};
ghost use Rattle.judge.specs.Keywords.{texts};
ghost use Rattle.judge.specs.Faults.{some_fails, IsValid};
ghost use Rattle.judge.specs.Meets.{meets as meets_of};

use crate::meeting::meets;
use jtree::Tree;
use std::alloc::AllocError;
use text_tests::{FormatTests, TextTests};

/// Whether a value has no fault by a schema (OpenAPI 3.0, Schema Object; apiextensions.k8s.io/v1, JSONSchemaProps): whether `faults` finds
/// none. It makes no list. `Err` where a test of a text answers so.
pub fn is_valid<T: TextTests + FormatTests>(
    tests: &mut T,
    schema: &Tree,
    value: &Tree,
) -> Result<bool, AllocError>
    ensures valid { IfOk result (λ yes. Decides yes (IsValid (some_fails (texts T.matches T.is_format T.has_format)) (data_of schema.now) (data_of value.now))) }
    ensures meets { IfOk result (λ yes. yes ≡ meets_of (texts T.matches T.is_format T.has_format) (data_of schema.now) (data_of value.now)) }
{
    schema.reveal_invariant();
    value.reveal_invariant();
    meets(tests, schema, value)
}
