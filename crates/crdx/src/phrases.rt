//! What the program says of a rule that is broken, of a reason for that, and of a fault of an object.
ghost use Rattle.std.specs.Prelude.{◌≡◌};
ghost use Rattle.crdx.specs.Program.Phrases.{phrase_of, reason_phrase_of, fault_phrase_of};

use schema::{Reason, Rule};

/// What is wrong where a rule is broken.
pub fn phrase(rule: Rule) -> &'static str
    ensures { result.now ≡ phrase_of rule }
{
    match rule {
        Rule::V01 => "missing type",
        Rule::V02 => "not specified outside the junctor",
        Rule::V03 => "keyword not allowed in a junctor",
        Rule::V04 => "metadata restricted",
        Rule::V05 => "keyword not supported",
        Rule::V06 => "uniqueItems is true",
        Rule::V07 => "additionalProperties is false",
        Rule::V08 => "properties with additionalProperties",
        Rule::V09 => "int-or-string with a type",
        Rule::V10 => "bad list type",
        Rule::V11 => "bad map keys",
        Rule::V12 => "bad items of a set",
        Rule::V13 => "bad map type",
        Rule::V14 => "bad default",
        Rule::V15 => "misplaced default",
        Rule::V16 => "junctor outside the profile",
        Rule::V17 => "outside the profile",
    }
}

/// What is wrong with the keyword of a reason, and what can be done.
pub fn reason_phrase(reason: Reason) -> &'static str
    ensures { result.now ≡ reason_phrase_of reason }
{
    match reason {
        Reason::NotInBranches => "a junctor may not have it; move it out of the junctor",
        Reason::TypeInBranch => "a junctor may not have it; state the type at the place itself",
        Reason::NotSupported => {
            "no custom resource may have it; write out what it stands for, or remove it"
        }
        Reason::KeysOfOtherList => {
            "keys of what is no map list; remove them, or make it a map list"
        }
        Reason::NoKeys => "a map list without keys; list them under x-kubernetes-list-map-keys",
        Reason::NoItems => "a list without items; state the schema of its items",
        Reason::ItemsNotObjects => {
            "the items of a map list are not objects; make them objects, or the list atomic"
        }
        Reason::ItemsNotScalars => {
            "the items of a set are not scalars; crdx-relax makes the list atomic"
        }
        Reason::NullableItems => {
            "the items of a set or a map list are nullable; crdx-relax makes the list atomic"
        }
        Reason::RepeatedKey => "lists a key twice; list it once",
        Reason::UndeclaredKey => {
            "lists a key that is no property of the items; declare it, or list another"
        }
        Reason::KeyNotScalar => {
            "lists a key that is not a scalar; crdx-relax makes the list atomic"
        }
        Reason::NullableKey => "lists a key that is nullable; crdx-relax makes the list atomic",
        Reason::OptionalKey => "lists a key that items may lack; require it, or give it a default",
        Reason::MisplacedJunctor => {
            "crdx takes junctors of scalars and objects alone; crdx-relax drops it"
        }
        Reason::NotInScalarBranches => {
            "not a keyword of a scalar's junctors for crdx; crdx-relax drops the junctor"
        }
        Reason::NotInPresenceBranches => {
            "not a keyword of an object's junctors for crdx; crdx-relax drops the junctor"
        }
        Reason::TooManyNames => {
            "the junctors of the object name more than four fields; crdx-relax keeps those that fit"
        }
        Reason::EmptyEnum => "lists no value; list one, or remove it",
        Reason::EnumNotScalars => "lists a value that is no scalar; crdx-relax drops the junctor",
        Reason::EnumOfOtherKind => "lists a value of another type; crdx-relax leaves it out",
        Reason::UndeclaredField => {
            "names a field that is not declared; declare it under properties"
        }
        Reason::RootNotObject => "the root is not an object; make its type object",
        Reason::NotAtRoot => "not a keyword of the root for crdx; crdx-relax drops it",
        Reason::UnknownType => "not a type for crdx; crdx-relax opens the place to any value",
        Reason::NotWithPreserving => {
            "does not go with x-kubernetes-preserve-unknown-fields; remove one of the two"
        }
        Reason::NotOfScalars => "not a keyword of scalars for crdx; crdx-relax drops it",
        Reason::NotOfLists => "not a keyword of lists for crdx; crdx-relax drops it",
        Reason::NotOfObjects => "not a keyword of objects for crdx; crdx-relax drops it",
        Reason::NotOfOpenPlaces => "not a keyword of open places for crdx; crdx-relax drops it",
        Reason::AdditionalPropertiesTrue => {
            "crdx takes a schema in its place; crdx-relax writes one"
        }
    }
}

/// What is wrong where an object has the fault of this number, 1 to 18 or 20.
pub fn fault_phrase(number: u8) -> &'static str
    ensures { result.now ≡ fault_phrase_of number }
{
    match number {
        1 => "kind",
        2 => "null",
        3 => "enum",
        4 => "minimum",
        5 => "maximum",
        6 => "minLength",
        7 => "maxLength",
        8 => "minItems",
        9 => "maxItems",
        10 => "minProperties",
        11 => "maxProperties",
        12 => "required",
        13 => "duplicate",
        14 => "junctor",
        15 => "undeclared",
        16 => "pattern",
        17 => "format",
        18 => "multipleOf",
        20 => "envelope",
        _ => "",
    }
}
