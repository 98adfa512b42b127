//! The walk over the nodes of a schema that lists its fields.
ghost use Rattle.std.specs.Prelude.{◌≡◌, ◌∷◌, [], OnOk, option_map, string_bytes};
ghost use Rattle.jtree.specs.View.{data_of};
ghost use Rattle.schema.specs.Nodes.View.{node_of};
ghost use Rattle.explain.specs.Paths.FieldPath;
ghost use Rattle.explain.specs.Internal.ListedByLevel.{progress, noted, added, listed_as, under, whole, below, below_fields};
ghost use Rattle.explain.specs.Paths.StepView.{step_of};

use crate::describing::{copied_default, describe};
use crate::field::Field;
use crate::path_text::{Step, push_step};
use jtree::Tree;
use schema::{Fields, Node, Sort};
use std::alloc::AllocError;

/// How far the walk has come.
#[derive(Drop)]
pub(crate) struct Walk {
    /// The text of the path of the place.
    pub(crate) path: String,
    /// What is listed so far.
    pub(crate) fields: Vec<Field>,
}

impl Walk {
    /// Lists the field at the place.
    fn push_field(
        &mut self,
        node: &Node,
        required: bool,
        default: Option<Tree>,
    ) -> Result<(), AllocError>
        ensures { OnOk result (progress self.new ≡ noted (progress self.old) (listed_as (string_bytes self.old.path) required (option_map data_of default) (node_of node.now) ∷ [])) }
    {
        let alloc = *self.path.allocator();
        let field = describe(alloc, self.path.as_str(), node, required, default)?;
        self.fields.push(field)?;
        Ok(())
    }
}

/// Lists the fields below a node, in order.
#[cycle(list)]
pub(crate) fn list_below(walk: &mut Walk, node: &Node) -> Result<(), AllocError>
    ensures { OnOk result (progress walk.new ≡ added (progress walk.old) (below (node_of node.now))) }
{
    match &node.sort {
        Sort::Object(object) => list_fields(walk, &object.fields),
        Sort::Map(map) => list_step(walk, Step::Value, &map.value.node, false, None),
        Sort::List(list) => list_step(walk, Step::Item, &list.item.node, false, None),
        Sort::Scalar(_) | Sort::Open => Ok(()),
    }
}

#[cycle(list)]
fn list_fields(walk: &mut Walk, fields: &Fields) -> Result<(), AllocError>
    ensures { OnOk result (progress walk.new ≡ added (progress walk.old) (below_fields fields.now)) }
{
    for field in &fields.fields {
        list_field(walk, field)?;
    }
    Ok(())
}

#[cycle(list)]
fn list_field(walk: &mut Walk, field: &schema::Field) -> Result<(), AllocError>
    ensures { OnOk result (progress walk.new ≡ added (progress walk.old) (under (FieldPath.field field.now.name)
        (whole field.now.required (option_map data_of field.now.default) (node_of field.now.node) (below (node_of field.now.node))))) }
{
    let default = copied_default(*walk.path.allocator(), &field.default)?;
    let step = Step::Field(field.name.as_str());
    list_step(walk, step, &field.node, field.required, default)
}

/// Lists the field to which a step leads, and the fields below it.
#[cycle(list)]
fn list_step(
    walk: &mut Walk,
    step: Step<'_>,
    node: &Node,
    required: bool,
    default: Option<Tree>,
) -> Result<(), AllocError>
    ensures { OnOk result (progress walk.new ≡ added (progress walk.old) (under (step_of step.entry) (whole required (option_map data_of default) (node_of node.now) (below (node_of node.now))))) }
{
    let length = walk.path.len();
    push_step(&mut walk.path, step)?;
    walk.push_field(node, required, default)?;
    list_below(walk, node)?;
    walk.path.truncate(length);
    Ok(())
}
