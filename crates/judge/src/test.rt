//! The tests of a place.
ghost use Rattle.std.specs.Prelude.{◌≡◌};
ghost use Rattle.judge.specs.Keywords.{is_asked as is_asked_of, number as number_of, all_tests as all_tests_of};
ghost use Rattle.jtree.specs.View.{data_of};

use jtree::Tree;

/// A test that the value at a place may fail, mostly one keyword of its schemas (OpenAPI 3.0, Schema Object).
#[derive(Clone, Copy, Drop)]
pub enum Test {
    /// The value is not of the `type`.
    OfType,
    /// It is null, and null is not accepted.
    Null,
    /// It is none of `enum`.
    Enum,
    /// A number is below `minimum`.
    Minimum,
    /// A number is above `maximum`.
    Maximum,
    /// A text has fewer characters than `minLength`.
    MinLength,
    /// A text has more characters than `maxLength`.
    MaxLength,
    /// A list has fewer items than `minItems`.
    MinItems,
    /// A list has more items than `maxItems`.
    MaxItems,
    /// An object has fewer members than `minProperties`.
    MinProperties,
    /// An object has more members than `maxProperties`.
    MaxProperties,
    /// A name of `required` is missing, at its place.
    Required,
    /// An item repeats an earlier one (`x-kubernetes-list-type`).
    Duplicate,
    /// `anyOf`, `oneOf` or `not` is not met.
    Junctor,
    /// A text does not match `pattern`.
    Pattern,
    /// A text has not the `format`.
    Format,
    /// A number is no multiple of `multipleOf`.
    MultipleOf,
    /// What no keyword asks, as a rule does.
    Rule,
    /// The `apiVersion`, `kind` or `metadata` of an embedded resource is not good (`x-kubernetes-embedded-resource`).
    Envelope,
}

impl Test {
    /// The number of the test, which is printed after `F`.
    pub fn number(self) -> u8
        ensures { result ≡ number_of self }
    {
        match self {
            Test::OfType => 1,
            Test::Null => 2,
            Test::Enum => 3,
            Test::Minimum => 4,
            Test::Maximum => 5,
            Test::MinLength => 6,
            Test::MaxLength => 7,
            Test::MinItems => 8,
            Test::MaxItems => 9,
            Test::MinProperties => 10,
            Test::MaxProperties => 11,
            Test::Required => 12,
            Test::Duplicate => 13,
            Test::Junctor => 14,
            Test::Pattern => 16,
            Test::Format => 17,
            Test::MultipleOf => 18,
            Test::Rule => 19,
            Test::Envelope => 20,
        }
    }

    /// Whether a value is asked by the test at all.
    pub(crate) fn is_asked(self, value: &Tree) -> bool
        ensures { result ≡ is_asked_of self (data_of value.now) }
    {
        match (self, value) {
            (Test::Null | Test::Enum, _) => true,
            (_, Tree::Null) => false,
            _ => true,
        }
    }
}

/// All tests, by their numbers.
pub(crate) fn all_tests() -> [Test; 19]
    ensures { result ≡ all_tests_of }
{
    [
        Test::OfType,
        Test::Null,
        Test::Enum,
        Test::Minimum,
        Test::Maximum,
        Test::MinLength,
        Test::MaxLength,
        Test::MinItems,
        Test::MaxItems,
        Test::MinProperties,
        Test::MaxProperties,
        Test::Required,
        Test::Duplicate,
        Test::Junctor,
        Test::Pattern,
        Test::Format,
        Test::MultipleOf,
        Test::Rule,
        Test::Envelope,
    ]
}
