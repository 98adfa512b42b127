//! The lists of values at the paths below a node, and the names of the members of maps.
ghost use Rattle.std.specs.Prelude.{◌≡◌, ◌++◌, OnOk, None, option_map, option_and_then};
ghost use Rattle.jtree.specs.Path;
ghost use Rattle.jtree.specs.View.{data_of};
ghost use Rattle.schema.specs.Nodes.View.{node_of};
ghost use Rattle.suggest.specs.View.{trees_of, trees_at, tree_at};
ghost use Rattle.suggest.specs.Internal.Parts.{entries_of, suggestions_of, lists_there, lists_of_fields_there};
ghost use Rattle.suggest.specs.Suggested.Lists.{entry_of, schema_of_field};
ghost use Rattle.suggest.specs.Suggested.Varied.{both};

use crate::general::General;
use crate::leaf_values::{Hints, leaf_values, under};
use crate::suggestions::{Entry, Suggestions};
use crate::values_below::{items_of, push_names, values_of, values_under};
use explain::{Step, path_below};
use jtree::{Text, Tree};
use schema::{Field, Fields, Node, Sort};
use std::alloc::{AllocError, Global};

/// A path of a schema, and what the schema says of the values there.
#[derive(Clone, Copy, Drop)]
pub(crate) struct Site<'a> {
    /// The text of the path.
    pub path: &'a str,
    pub hints: Hints<'a>,
}

/// Adds the lists and the names at the node of a site and below it, where objects have these values there.
#[cycle(lists)]
pub(crate) fn add_lists(
    alloc: Global,
    general: &General,
    site: &Site<'_>,
    node: &Node,
    values: &[&Tree],
    suggestions: &mut Suggestions,
) -> Result<(), AllocError>
    ensures { OnOk result (suggestions_of suggestions.new ≡ both (suggestions_of suggestions.old) (lists_there general.now site.now (node_of node.now) (trees_at values.now))) }
{
    match &node.sort {
        Sort::Object(object) => {
            let fields = &object.fields;
            add_lists_of_fields(alloc, general, site, fields, values, suggestions)
        }
        Sort::Map(map) => {
            push_names(alloc, values, &mut suggestions.names)?;
            let values = values_of(alloc, values)?;
            let path = path_below(alloc, site.path, Step::Value)?;
            let below = Site {
                path: &path,
                hints: hints_below(site.hints.schema, "additionalProperties"),
            };
            let value: &Node = &map.value.node;
            add_lists(alloc, general, &below, value, &values, suggestions)
        }
        Sort::List(list) => {
            let values = items_of(alloc, values)?;
            let path = path_below(alloc, site.path, Step::Item)?;
            let below = Site {
                path: &path,
                hints: hints_below(site.hints.schema, "items"),
            };
            let item: &Node = &list.item.node;
            add_lists(alloc, general, &below, item, &values, suggestions)
        }
        Sort::Scalar(_) | Sort::Open => {
            let values = leaf_values(alloc, general, node, values, &site.hints)?;
            push_entry(alloc, site.path, values, &mut suggestions.lists)
        }
    }
}

/// Adds the lists and the names at these fields of the node of a site, and below them.
#[cycle(lists)]
fn add_lists_of_fields(
    alloc: Global,
    general: &General,
    site: &Site<'_>,
    fields: &Fields,
    values: &[&Tree],
    suggestions: &mut Suggestions,
) -> Result<(), AllocError>
    ensures { OnOk result (suggestions_of suggestions.new ≡ both (suggestions_of suggestions.old) (lists_of_fields_there general.now site.now fields.now (trees_at values.now))) }
{
    for field in &fields.fields {
        let name = field.name.as_str();
        let values = values_under(alloc, name, values)?;
        let path = path_below(alloc, site.path, Step::Field(name))?;
        let below = Site {
            path: &path,
            hints: field_hints(field, site.hints.schema),
        };
        add_lists(alloc, general, &below, &field.node, &values, suggestions)?;
    }
    Ok(())
}

/// What the schema says of a field's values.
pub(crate) fn field_hints<'a>(field: &'a Field, schema: Option<&'a Tree>) -> Hints<'a>
    ensures default { tree_at result.default ≡ option_map (λ d. data_of d) field.now.default }
    ensures schema { tree_at result.schema ≡ schema_of_field (tree_at schema.entry) field.now.name }
{
    Hints {
        default: field.default.as_ref(),
        schema: under(under(schema, "properties"), field.name.as_str()),
    }
}

/// What the schema says of the values of items or of members.
fn hints_below<'a>(schema: Option<&'a Tree>, keyword: &str) -> Hints<'a>
    ensures default { tree_at result.default ≡ None }
    ensures schema { tree_at result.schema ≡ option_and_then (λ s. Path.under s keyword.now) (tree_at schema.entry) }
{
    Hints {
        default: None,
        schema: under(schema, keyword),
    }
}

/// Adds the values at the path, where there are some.
fn push_entry(
    alloc: Global,
    path: &str,
    values: Vec<Tree>,
    lists: &mut Vec<Entry>,
) -> Result<(), AllocError>
    ensures { OnOk result (entries_of lists.new.items ≡ entries_of lists.old.items ++ entry_of path.now (trees_of values.items)) }
{
    if !values.is_empty() {
        let path = Text::from_str(alloc, path)?;
        lists.push(Entry { path, values })?;
    }
    Ok(())
}
