//! The reading of the texts of paths.
ghost use Rattle.std.specs.Prelude.{◌≡◌, ◌≢◌, ◌++◌, ℕ, List, Decides, MatchOption};
ghost use Rattle.explain.specs.Paths.FieldPath.{field, FieldPath};
ghost use Rattle.explain.specs.Paths.PathText.{escaped, step_text, path_text};
ghost use Rattle.explain.specs.Paths.StepView.{step_of};
ghost use Rattle.explain.specs.Internal.Reading;
ghost use Rattle.explain.specs.Internal.Reading.{IsPathText, IsEnd, IsAfterStep};

use crate::path_text::Step;

/// How far a text is read.
#[derive(Clone, Copy, Drop)]
enum Stage {
    /// A step begins here, or the path ends.
    Between,
    /// After the `/` of a step.
    Step,
    /// After a letter of a name.
    Name,
    /// After a `~`.
    Escape,
    /// After `/[`.
    Item,
    /// After `/{`.
    Value,
    /// No path has a text that begins so.
    Wrong,
}

/// Whether some path has this text.
pub(crate) fn is_path_text(text: &str) -> bool
    ensures { Decides result (IsPathText text.now) }
{
    let mut stage = Stage::Between;
    for byte in text.as_bytes() {
        stage = after_byte(stage, *byte);
    }
    may_end(stage)
}

fn after_byte(stage: Stage, byte: u8) -> Stage
    ensures { result ≡ Reading.after_byte stage byte }
{
    match stage {
        Stage::Between if byte == b'/' => Stage::Step,
        Stage::Step if byte == b'[' => Stage::Item,
        Stage::Step if byte == b'{' => Stage::Value,
        Stage::Step | Stage::Name => in_name(byte),
        Stage::Escape if byte == b'0' || byte == b'1' || byte == b'2' || byte == b'3' =>
            Stage::Name,
        Stage::Item if byte == b']' => Stage::Between,
        Stage::Value if byte == b'}' => Stage::Between,
        _ => Stage::Wrong,
    }
}

fn in_name(byte: u8) -> Stage
    ensures { result ≡ Reading.in_name byte }
{
    match byte {
        b'/' => Stage::Step,
        b'~' => Stage::Escape,
        b'[' | b'{' => Stage::Wrong,
        _ => Stage::Name,
    }
}

fn may_end(stage: Stage) -> bool
    ensures { result ≡ Reading.may_end stage }
{
    match stage {
        Stage::Between | Stage::Step | Stage::Name => true,
        _ => false,
    }
}

/// The rest of the text of a path after its first step, where that is this one; `None` where the text is of no path that begins so. It
/// does not allocate.
pub fn after_step<'a>(text: &'a [u8], step: Step<'_>) -> Option<&'a [u8]>
    ensures { MatchOption result ((p : FieldPath) → text.now ≢ step_text (step_of step.entry) ++ path_text p) (λ rest. text.now ≡ step_text (step_of step.entry) ++ rest.now) }
{
    match step {
        Step::Field(name) => after_name(text, name.as_bytes()),
        Step::Item => after(text, b"/[]"),
        Step::Value => after(text, b"/{}"),
    }
}

/// The rest of a text after the step to the field of this name, where it begins with that step.
pub(crate) fn after_name<'a>(text: &'a [u8], name: &[u8]) -> Option<&'a [u8]>
    ensures { MatchOption result ((rest : List ℕ) → IsAfterStep (field name.now) text.now rest → ⊥) (λ rest. IsAfterStep (field name.now) text.now rest.now) }
{
    let mut rest = after(text, b"/")?;
    for letter in name {
        rest = after_letter(rest, *letter)?;
    }
    if is_end(rest) { Some(rest) } else { None }
}

/// Whether a step ends before this text.
fn is_end(text: &[u8]) -> bool
    ensures { Decides result (IsEnd text.now) }
{
    match text {
        [] => true,
        [byte, ..] => *byte == b'/',
    }
}

/// The rest of a text after a letter of a name.
fn after_letter<'a>(text: &'a [u8], letter: u8) -> Option<&'a [u8]>
    ensures { MatchOption result ((rest : List ℕ) → text.now ≢ escaped letter ++ rest) (λ rest. text.now ≡ escaped letter ++ rest.now) }
{
    match letter {
        b'~' => after(text, b"~0"),
        b'/' => after(text, b"~1"),
        b'[' => after(text, b"~2"),
        b'{' => after(text, b"~3"),
        _ => after(text, &[letter]),
    }
}

/// The rest of a text after these bytes, where it begins with them.
pub(crate) fn after<'a>(text: &'a [u8], begin: &[u8]) -> Option<&'a [u8]>
    ensures { MatchOption result ((rest : List ℕ) → text.now ≢ begin.now ++ rest) (λ rest. text.now ≡ begin.now ++ rest.now) }
{
    text.strip_prefix(begin)
}
