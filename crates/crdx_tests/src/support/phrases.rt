//! The phrases of rules, faults and reasons. The tables of the tests have their codes alone.
use std::alloc::{AllocError, Global};
use std::fmt::Write;

// The rules and patterns of schemas and the faults of objects, whose phrases follow a code and a place.
static PHRASES: &str = r#"
V01 missing type
V02 not specified outside the junctor
V03 keyword not allowed in a junctor
V04 metadata restricted
V05 keyword not supported
V06 uniqueItems is true
V07 additionalProperties is false
V08 properties with additionalProperties
V09 int-or-string with a type
V10 bad list type
V11 bad map keys
V12 bad items of a set
V13 bad map type
V14 bad default
V15 misplaced default
V16 junctor outside the profile
V17 outside the profile
F01 kind
F02 null
F03 enum
F04 minimum
F05 maximum
F06 minLength
F07 maxLength
F08 minItems
F09 maxItems
F10 minProperties
F11 maxProperties
F12 required
F13 duplicate
F14 junctor
F15 undeclared
F16 pattern
F17 format
F18 multipleOf
F20 envelope
C01 bad pattern
C02 pattern too big
C03 unknown field
C04 missing field
C05 wrong name
C06 bad group
C07 protected group
C08 bad scope
C09 bad name
C10 version named twice
C11 not one stored version
C12 preserveUnknownFields is true
C13 bad printer column
C14 bad scale path
C15 bad conversion
C16 unknown type
C17 bad root
C18 not beside status
C19 array without items
C20 x-kubernetes-preserve-unknown-fields is false
C21 bad embedded resource
C22 keyword not supported
C23 int-or-string with another
C24 bad envelope
"#;

// Reasons, whose phrases follow a keyword.
static REASONS: &str = r#"
TypeInBranch a junctor may not have it; state the type at the place itself
NotSupported no custom resource may have it; write out what it stands for, or remove it
KeyNotScalar lists a key that is not a scalar; crdx-relax makes the list atomic
NullableKey lists a key that is nullable; crdx-relax makes the list atomic
OptionalKey lists a key that items may lack; require it, or give it a default
NotInScalarBranches not a keyword of a scalar's junctors for crdx; crdx-relax drops the junctor
EnumOfOtherKind lists a value of another type; crdx-relax leaves it out
NotOfScalars not a keyword of scalars for crdx; crdx-relax drops it
"#;

/// What follows a code on its line.
fn phrase_of(phrases: &'static str, code: &str) -> Option<&'static str> {
    for line in phrases.lines() {
        match line.split_once(' ') {
            Some((found, phrase)) if found == code => return Some(phrase),
            _ => {}
        }
    }
    None
}

/// A line without the number of the line that it answers.
fn without_number(line: &str) -> &str {
    match line.split_once(": ") {
        Some((number, rest)) if number.parse::<u64>().is_ok() => rest,
        _ => line,
    }
}

/// The line of a rule or a fault, with its phrase after its code and its place; any other line as it is.
fn push_line(lines: &mut String, line: &str) -> Result<(), AllocError> {
    lines.push_str(line)?;
    let Some((code, _place)) = without_number(line).split_once(' ') else {
        return Ok(());
    };
    match phrase_of(PHRASES, code) {
        Some(phrase) => write!(lines, " {phrase}"),
        None => Ok(()),
    }
}

/// The line of a reason, with its phrase in place of its name; any other line as `push_line` has it.
fn push_reason_or_line(lines: &mut String, line: &str) -> Result<(), AllocError> {
    if let Some((keyword, reason)) = line.rsplit_once(": ") {
        if let Some(phrase) = phrase_of(REASONS, reason) {
            return write!(lines, "{keyword}: {phrase}");
        }
    }
    push_line(lines, line)
}

/// Lines as they are printed: those of rules and faults, which begin with a code and a place, with their phrases; those of reasons,
/// which end with a name, with phrases in place of these.
pub fn with_phrases(alloc: Global, lines: &str) -> Result<String, AllocError> {
    let mut printed = String::new(alloc);
    for (index, line) in lines.split('\n').enumerate() {
        if index > 0 {
            printed.push_str("\n")?;
        }
        push_reason_or_line(&mut printed, line)?;
    }
    Ok(printed)
}
