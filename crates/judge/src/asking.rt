//! The tests of a place, by the schemas that are asked there.
ghost use Rattle.std.specs.Prelude.{◌≡◌, ◌&&◌, not, IfOk};
ghost use Rattle.jtree.specs.View.{data_of};
ghost use Rattle.judge.specs.Keywords.{texts};
ghost use Rattle.judge.specs.Faults.{fails as fails_of, some_fails as some_fails_of};
ghost use Rattle.judge.specs.Asked.{schemas_of};

use crate::meeting::passes;
use crate::test::Test;
use jtree::Tree;
use std::alloc::AllocError;
use text_tests::{FormatTests, TextTests};

/// What is asked of the values of an object, place by place. The tests by keywords are one of them, and others can be asked beside these,
/// as the rules of `x-kubernetes-validations` are.
pub trait PlaceTests {
    ghost use Rattle.std.specs.Prelude.{◌≡◌, IfOk};
    ghost use Rattle.jtree.specs.View.{data_of};
    ghost use Rattle.judge.specs.Faults.{Asking};
    ghost use Rattle.judge.specs.Asked.{schemas_of};

    // Whether a value fails a test, by the schemas that are asked of it.
    ghost asking: { Asking };

    /// Whether the value fails the test. `Test::Required` and `Test::Duplicate` are never asked: whoever walks over an object finds them.
    /// `Err` where an allocation fails: it says nothing of the test.
    fn fails(&mut self, schemas: &[&Tree], value: &Tree, test: Test) -> Result<bool, AllocError>
        ensures { IfOk result (λ yes. yes ≡ asking (schemas_of schemas.now) (data_of value.now) test) };
}

/// The tests by keywords.
#[derive(Drop)]
pub struct KeywordTests<'t, T> {
    pub tests: &'t mut T,
}

impl<'t, T: TextTests + FormatTests> PlaceTests for KeywordTests<'t, T> {
    ghost asking = { some_fails_of (texts T.matches T.is_format T.has_format) };

    fn fails(&mut self, schemas: &[&Tree], value: &Tree, test: Test) -> Result<bool, AllocError> {
        some_fails(self.tests, schemas, value, test)
    }
}

/// Whether a value fails a test of one of the schemas.
fn some_fails<T: TextTests + FormatTests>(
    tests: &mut T,
    schemas: &[&Tree],
    value: &Tree,
    test: Test,
) -> Result<bool, AllocError>
    ensures { IfOk result (λ yes. yes ≡ some_fails_of (texts T.matches T.is_format T.has_format) (schemas_of schemas.now) (data_of value.now) test) }
{
    for schema in schemas {
        if fails(tests, schema, value, test)? {
            return Ok(true);
        }
    }
    Ok(false)
}

/// Whether a value fails a test of a schema.
fn fails<T: TextTests + FormatTests>(
    tests: &mut T,
    schema: &Tree,
    value: &Tree,
    test: Test,
) -> Result<bool, AllocError>
    ensures { IfOk result (λ yes. yes ≡ fails_of (texts T.matches T.is_format T.has_format) (data_of schema.now) (data_of value.now) test) }
{
    match schema {
        Tree::Object(keywords) => Ok(!passes(tests, keywords, test, value)?),
        Tree::Bool(allows) => Ok(matches!(test, Test::Junctor) && !*allows),
        _ => Ok(false),
    }
}
