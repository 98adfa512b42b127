//! What is suggested so that samples are an object varied at some paths.
ghost use Rattle.std.specs.Prelude.{◌≡◌, IfOk, OnOk, codes};
ghost use Rattle.std.specs.Option.{option_to_list};
ghost use Rattle.schema.specs.Nodes.View.{node_of};
ghost use Rattle.schema.specs.Document.Texts;
ghost use Rattle.suggest.specs.View.{texts_at, tree_at};
ghost use Rattle.suggest.specs.Internal.Parts.{suggestions_of, lists_there, varied_at, varied_below, varied_fields};
ghost use Rattle.suggest.specs.Suggested.Varied.{both, as_in_object, always_present, begins_with};
ghost use Rattle.suggest.specs.Suggested.Varied;

use crate::general::General;
use crate::leaf_values::under;
use crate::lists::{Site, add_lists, field_hints};
use crate::suggestions::{Entry, Suggestions};
use explain::{Step, path_below};
use jtree::{Text, Tree};
use schema::{Fields, Node, Sort};
use std::alloc::{AllocError, Global};

/// The pools, and the texts of the varied paths.
#[derive(Clone, Copy, Drop)]
pub(crate) struct Variation<'a> {
    pub general: &'a General,
    pub varied: &'a [&'a str],
}

/// Adds what is suggested at the node of a site and below it, where the object has this value there.
#[cycle(varied)]
fn add_at(
    alloc: Global,
    variation: &Variation<'_>,
    site: &Site<'_>,
    node: &Node,
    object: Option<&Tree>,
    suggestions: &mut Suggestions,
) -> Result<(), AllocError>
    ensures { OnOk result (suggestions_of suggestions.new ≡ both (suggestions_of suggestions.old) (varied_at variation.now site.now (node_of node.now) (tree_at object.entry))) }
{
    if is_path_among(site.path, variation.varied) {
        return add_varied(alloc, variation.general, site, node, object, suggestions);
    }
    if !leads_on(site.path, variation.varied) {
        return add_as_in_object(alloc, site.path, object, suggestions);
    }
    add_present(alloc, site.path, suggestions)?;
    add_below(alloc, variation, site, node, object, suggestions)
}

/// Adds what is suggested below the node of a site.
#[cycle(varied)]
pub(crate) fn add_below(
    alloc: Global,
    variation: &Variation<'_>,
    site: &Site<'_>,
    node: &Node,
    object: Option<&Tree>,
    suggestions: &mut Suggestions,
) -> Result<(), AllocError>
    ensures { OnOk result (suggestions_of suggestions.new ≡ both (suggestions_of suggestions.old) (varied_below variation.now site.now (node_of node.now) (tree_at object.entry))) }
{
    match &node.sort {
        Sort::Object(node) => add_fields(alloc, variation, site, &node.fields, object, suggestions),
        _ => Ok(()),
    }
}

/// Adds what is suggested at these fields of the node of a site, and below them.
#[cycle(varied)]
fn add_fields(
    alloc: Global,
    variation: &Variation<'_>,
    site: &Site<'_>,
    fields: &Fields,
    object: Option<&Tree>,
    suggestions: &mut Suggestions,
) -> Result<(), AllocError>
    ensures { OnOk result (suggestions_of suggestions.new ≡ both (suggestions_of suggestions.old) (varied_fields variation.now site.now fields.now (tree_at object.entry))) }
{
    for field in &fields.fields {
        let name = field.name.as_str();
        let path = path_below(alloc, site.path, Step::Field(name))?;
        let below = Site {
            path: &path,
            hints: field_hints(field, site.hints.schema),
        };
        let object = under(object, name);
        add_at(alloc, variation, &below, &field.node, object, suggestions)?;
    }
    Ok(())
}

/// Adds what is suggested at a varied path.
fn add_varied(
    alloc: Global,
    general: &General,
    site: &Site<'_>,
    node: &Node,
    object: Option<&Tree>,
    suggestions: &mut Suggestions,
) -> Result<(), AllocError>
    ensures { OnOk result (suggestions_of suggestions.new ≡ both (suggestions_of suggestions.old) (lists_there general.now site.now (node_of node.now) (option_to_list (tree_at object.entry)))) }
{
    match object {
        Some(value) => add_lists(alloc, general, site, node, &[value], suggestions),
        None => add_lists(alloc, general, site, node, &[], suggestions),
    }
}

/// Adds that what has this path is as it is in the object.
fn add_as_in_object(
    alloc: Global,
    path: &str,
    object: Option<&Tree>,
    suggestions: &mut Suggestions,
) -> Result<(), AllocError>
    ensures { OnOk result (suggestions_of suggestions.new ≡ both (suggestions_of suggestions.old) (as_in_object path.now (tree_at object.entry))) }
{
    let mut values = Vec::new(alloc);
    if let Some(value) = object {
        add_present(alloc, path, suggestions)?;
        values.push(value.try_clone(alloc)?)?;
    }
    let path = Text::from_str(alloc, path)?;
    suggestions.fixed.push(Entry { path, values })?;
    Ok(())
}

/// Adds that there is always something at this path.
fn add_present(alloc: Global, path: &str, suggestions: &mut Suggestions) -> Result<(), AllocError>
    ensures { OnOk result (suggestions_of suggestions.new ≡ both (suggestions_of suggestions.old) (always_present path.now)) }
{
    suggestions.present.push(Text::from_str(alloc, path)?)?;
    Ok(())
}

/// Whether a text is one of these.
pub(crate) fn is_path_among(text: &str, texts: &[&str]) -> bool
    ensures { result ≡ Texts.is_among text.now (texts_at texts.now) }
{
    for other in texts {
        if text == *other {
            return true;
        }
    }
    false
}

/// Whether the path of one of the texts goes on from this one.
fn leads_on(path: &str, texts: &[&str]) -> bool
    ensures { result ≡ Varied.leads_on path.now (texts_at texts.now) }
{
    for text in texts {
        if goes_on(path, text) {
            return true;
        }
    }
    false
}

/// Whether the path of the text goes on from this one.
fn goes_on(path: &str, text: &str) -> bool
    ensures { result ≡ Varied.goes_on path.now text.now }
{
    match text.as_bytes().strip_prefix(path.as_bytes()) {
        Some(rest) => begins_with_slash(rest),
        None => false,
    }
}

fn begins_with_slash(text: &[u8]) -> bool
    ensures { result ≡ begins_with (codes "/") text.now }
{
    match text {
        [first, ..] => *first == b'/',
        [] => false,
    }
}

/// Whether an object can be varied at the path of a text.
#[derive(Clone, Copy, Debug, PartialEq, Eq, Drop)]
pub(crate) enum Reach {
    /// The text is not that of a declared path of names.
    Undeclared,
    /// The object has no object to which the last of the names belongs.
    Missing,
    /// It has one.
    There,
}

/// Whether the object that stands at the node with this path can be varied at the path of the text.
#[cycle(reach)]
pub(crate) fn reached(
    alloc: Global,
    text: &str,
    object: Option<&Tree>,
    path: &str,
    node: &Node,
) -> Result<Reach, AllocError>
    ensures { IfOk result (λ r. r ≡ Varied.reach text.now (tree_at object.entry) path.now (node_of node.now)) }
{
    match &node.sort {
        Sort::Object(fields) => reach_by_fields(alloc, text, object, path, &fields.fields),
        _ => Ok(Reach::Undeclared),
    }
}

#[cycle(reach)]
fn reach_by_fields(
    alloc: Global,
    text: &str,
    object: Option<&Tree>,
    path: &str,
    fields: &Fields,
) -> Result<Reach, AllocError>
    ensures { IfOk result (λ r. r ≡ Varied.reach_by_fields text.now (tree_at object.entry) path.now fields.now) }
{
    for field in &fields.fields {
        let name = field.name.as_str();
        let below = path_below(alloc, path, Step::Field(name))?;
        if text == below.as_str() {
            return Ok(there_in(object));
        }
        if goes_on(&below, text) {
            return reached(alloc, text, under(object, name), &below, &field.node);
        }
    }
    Ok(Reach::Undeclared)
}

/// Whether the object has an object to which the field belongs.
fn there_in(object: Option<&Tree>) -> Reach
    ensures { result ≡ Varied.there_in (tree_at object.entry) }
{
    match object {
        Some(Tree::Object(_)) => Reach::There,
        _ => Reach::Missing,
    }
}
