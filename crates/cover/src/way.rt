//! The steps of a path, found by its text.
ghost use Rattle.std.specs.Prelude.{◌≡◌, ◌++◌, true, false, [], IfOk};
ghost use Rattle.schema.specs.Nodes.View.{node_of};
ghost use Rattle.explain.specs.Fields.Declared.{IsDeclared};
ghost use Rattle.explain.specs.Fields.PathFault.{IsTextOf};
ghost use Rattle.explain.specs.Paths.FieldPath.{FieldPath};
ghost use Rattle.explain.specs.Paths.PathText.{step_text, path_text};
ghost use Rattle.explain.specs.Paths.StepView as explain_step;
ghost use Rattle.cover.specs.Internal.Ways.{step_of, path_of, LeadsNowhere, NoneLeads};

use explain::{Step, after_step};
use jtree::Text;
pub(crate) use plan::PathStep;
use schema::{Fields, Node, Sort};
use std::alloc::{AllocError, Global};
use stored::Schema;

/// The steps of the declared path of this text.
pub(crate) fn steps_of(
    alloc: Global,
    schema: &Schema,
    text: &str,
) -> Result<Vec<PathStep>, AllocError>
    requires { IsTextOf (IsDeclared schema.now) text.now }
    ensures { IfOk result (λ steps. path_text (path_of steps.items) ≡ text.now) }
{
    let mut steps = Vec::new(alloc);
    find(alloc, schema.root(), text.as_bytes(), &mut steps)?;
    Ok(steps)
}

/// Whether a path that leads somewhere from the node has this text; its steps are then added.
#[cycle(find)]
fn find(
    alloc: Global,
    node: &Node,
    text: &[u8],
    steps: &mut Vec<PathStep>,
) -> Result<bool, AllocError>
    ensures found { IfOk result (λ found. found ≡ true → (p : FieldPath) × (path_of steps.new.items ≡ path_of steps.old.items ++ p) × (path_text p ≡ text.now)) }
    ensures nowhere { IfOk result (λ found. found ≡ false → LeadsNowhere [] (node_of node.now) text.now) }
    ensures kept { IfOk result (λ found. found ≡ false → steps.new.items ≡ steps.old.items) }
{
    if text.is_empty() {
        return Ok(true);
    }
    match &node.sort {
        Sort::Object(object) => find_field(alloc, &object.fields, text, steps),
        Sort::Map(map) => find_below(alloc, &map.value.node, Step::Value, text, steps),
        Sort::List(list) => find_below(alloc, &list.item.node, Step::Item, text, steps),
        Sort::Scalar(_) | Sort::Open => Ok(false),
    }
}

/// As `find`, for a path that begins at one of the fields.
#[cycle(find)]
fn find_field(
    alloc: Global,
    fields: &Fields,
    text: &[u8],
    steps: &mut Vec<PathStep>,
) -> Result<bool, AllocError>
    ensures found { IfOk result (λ found. found ≡ true → (p : FieldPath) × (path_of steps.new.items ≡ path_of steps.old.items ++ p) × (path_text p ≡ text.now)) }
    ensures nowhere { IfOk result (λ found. found ≡ false → NoneLeads [] fields.now text.now) }
    ensures kept { IfOk result (λ found. found ≡ false → steps.new.items ≡ steps.old.items) }
{
    for field in &fields.fields {
        let step = Step::Field(field.name.as_str());
        if find_below(alloc, &field.node, step, text, steps)? {
            return Ok(true);
        }
    }
    Ok(false)
}

/// As `find`, for a path that begins with this step, which leads to the node.
#[cycle(find)]
fn find_below(
    alloc: Global,
    node: &Node,
    step: Step<'_>,
    text: &[u8],
    steps: &mut Vec<PathStep>,
) -> Result<bool, AllocError>
    ensures found { IfOk result (λ found. found ≡ true → (p : FieldPath) × (path_of steps.new.items ≡ path_of steps.old.items ++ p) × (path_text p ≡ text.now)) }
    ensures nowhere { IfOk result (λ found. found ≡ false → LeadsNowhere (step_text (explain_step.step_of step.entry)) (node_of node.now) text.now) }
    ensures kept { IfOk result (λ found. found ≡ false → steps.new.items ≡ steps.old.items) }
{
    let Some(rest) = after_step(text, step) else {
        return Ok(false);
    };
    steps.push(owned(alloc, step)?)?;
    if find(alloc, node, rest, steps)? {
        return Ok(true);
    }
    steps.pop();
    Ok(false)
}

/// The step, with a name of its own.
fn owned(alloc: Global, step: Step<'_>) -> Result<PathStep, AllocError>
    ensures { IfOk result (λ s. step_of s ≡ explain_step.step_of step.entry) }
{
    match step {
        Step::Field(name) => Ok(PathStep::Field(Text::from_str(alloc, name)?)),
        Step::Item => Ok(PathStep::Item),
        Step::Value => Ok(PathStep::Value),
    }
}
