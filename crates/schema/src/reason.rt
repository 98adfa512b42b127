//! Why a place breaks a rule that has several conditions.
use crate::violation::Violation;
use jtree::Text;

/// Why a place breaks one of the rules V03, V05, V11, V12, V16 and V17. Each reason is about a keyword that is at the
/// place.
#[derive(Clone, Copy, Debug, PartialEq, Eq, Drop)]
pub enum Reason {
    /// V03: no branch of a junctor may have the keyword.
    NotInBranches,
    /// V03: a branch has a `type`, and is none of the int-or-string pattern.
    TypeInBranch,
    /// V05: no place may have the keyword.
    NotSupported,
    /// V11: keys are listed, and the list type is not `map`.
    KeysOfOtherList,
    /// V11: a map list has no keys.
    NoKeys,
    /// V11, V12, V17: a list has no `items`.
    NoItems,
    /// V11: the items of a map list are no objects.
    ItemsNotObjects,
    /// V12: the items of a set are no scalars.
    ItemsNotScalars,
    /// V11, V12: the items of a map list or of a set are nullable.
    NullableItems,
    /// V11: a key is listed twice.
    RepeatedKey,
    /// V11: a key is no property of the items.
    UndeclaredKey,
    /// V11: the property of a key is no scalar.
    KeyNotScalar,
    /// V11: the property of a key is nullable.
    NullableKey,
    /// V11: the property of a key is neither required nor has a default.
    OptionalKey,
    /// V16: a junctor is at a place that is neither a scalar nor an object with declared fields.
    MisplacedJunctor,
    /// V16: a branch that restricts a scalar may not have the keyword.
    NotInScalarBranches,
    /// V16: a branch that asks which fields are present may not have the keyword.
    NotInPresenceBranches,
    /// V16: the junctors of an object name more than four fields in all.
    TooManyNames,
    /// V16, V17: `enum` lists no value.
    EmptyEnum,
    /// V16: `enum` of a branch lists a null, a list or an object.
    EnumNotScalars,
    /// V17: `enum` lists a value that the kind of the place does not accept.
    EnumOfOtherKind,
    /// V16, V17: `required` lists a name that is no declared field.
    UndeclaredField,
    /// V17: the keyword makes the root something other than an object.
    RootNotObject,
    /// V17: the root may not have the keyword, or is nullable.
    NotAtRoot,
    /// V17: `type` is none of the five.
    UnknownType,
    /// V17: the keyword does not go with `x-kubernetes-preserve-unknown-fields`.
    NotWithPreserving,
    /// V17: scalars may not have the keyword.
    NotOfScalars,
    /// V17: lists may not have the keyword.
    NotOfLists,
    /// V17: objects and maps may not have the keyword.
    NotOfObjects,
    /// V17: open places, which accept every value, may not have the keyword.
    NotOfOpenPlaces,
    /// V17: `additionalProperties` is true.
    AdditionalPropertiesTrue,
}

/// A reason, and the keyword of the place that it is about.
#[derive(Drop)]
pub struct Finding {
    pub keyword: Text,
    pub reason: Reason,
}

/// A violation with its reasons.
#[derive(Drop)]
pub struct Explained {
    pub violation: Violation,
    /// By the bytes of the keyword, and then in the order of `Reason`; none where the rule has no reasons of its own.
    pub findings: Vec<Finding>,
}
