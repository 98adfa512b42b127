//! How a path is written.
ghost use Rattle.std.specs.Prelude.{◌≡◌, ◌++◌, IfOk, OnOk, flat_map, string_bytes};
ghost use Rattle.std.specs.Char.{encode_utf8};
ghost use Rattle.explain.specs.Paths.FieldPath.{field};
ghost use Rattle.explain.specs.Paths.PathText.{escaped, step_text};
ghost use Rattle.explain.specs.Paths.StepView.{step_of};

use std::alloc::{AllocError, Global};

/// A step of the path of a field.
#[derive(Clone, Copy, Drop)]
pub enum Step<'a> {
    /// To the field of this name.
    Field(&'a str),
    /// To the items of a list.
    Item,
    /// To the values of a map.
    Value,
}

/// The text of the path of this text extended by a step. `AllocError` where an allocation fails.
pub fn path_below(alloc: Global, path: &str, step: Step<'_>) -> Result<String, AllocError>
    ensures { IfOk result (λ s. string_bytes s ≡ path.now ++ step_text (step_of step.entry)) }
{
    let mut text = String::with_capacity(alloc, path.len().saturating_add(room_of(step)))?;
    text.push_str(path)?;
    push_step(&mut text, step)?;
    Ok(text)
}

/// How many bytes the text of a step takes, where nothing in it is escaped.
fn room_of(step: Step<'_>) -> usize {
    match step {
        Step::Field(name) => name.len().saturating_add(1),
        Step::Item | Step::Value => 3,
    }
}

/// Appends the text of a step.
pub(crate) fn push_step(text: &mut String, step: Step<'_>) -> Result<(), AllocError>
    ensures { OnOk result (string_bytes text.new ≡ string_bytes text.old ++ step_text (step_of step.entry)) }
{
    match step {
        Step::Field(name) => push_name(text, name),
        Step::Item => text.push_str("/[]"),
        Step::Value => text.push_str("/{}"),
    }
}

fn push_name(text: &mut String, name: &str) -> Result<(), AllocError>
    ensures { OnOk result (string_bytes text.new ≡ string_bytes text.old ++ step_text (field name.now)) }
{
    text.push('/')?;
    for letter in name.chars() {
        push_letter(text, letter)?;
    }
    Ok(())
}

fn push_letter(text: &mut String, letter: char) -> Result<(), AllocError>
    ensures { OnOk result (string_bytes text.new ≡ string_bytes text.old ++ flat_map escaped (encode_utf8 letter)) }
{
    match letter {
        '~' => text.push_str("~0")?,
        '/' => text.push_str("~1")?,
        '[' => text.push_str("~2")?,
        '{' => text.push_str("~3")?,
        _ => text.push(letter)?,
    }
    Ok(())
}
