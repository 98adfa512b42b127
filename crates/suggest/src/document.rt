//! The pools document that is suggested for a schema.
ghost use Rattle.std.specs.Prelude.{◌≡◌, ◌≤◌, ◌<◌, ◌++◌, IfOk, IfErr, OnOk, length, map, filter, take, true, false, not};
ghost use Rattle.jtree.specs.Data.{depth};
ghost use Rattle.jtree.specs.Data as tree;
ghost use Rattle.jtree.specs.Reads.{most_bytes, most_depth};
ghost use Rattle.jtree.specs.Text.{compact};
ghost use Rattle.jtree.specs.View.{data_of};
ghost use Rattle.schema.specs.Document.Raw.{Raw};
ghost use Rattle.schema.specs.Document.Texts;
ghost use Rattle.schema.specs.Nodes.ByPlace.{AreNodesOf};
ghost use Rattle.schema.specs.Nodes.View.{node_of};
ghost use Rattle.plan.specs.Pools.Pools.{AreSmall};
ghost use Rattle.schema.specs.declared.profile.Profile.TheVariants.{Core, Cluster};
ghost use Rattle.plan.specs.Pools.Document.{HasForm, HasFormBy, pools_of};
ghost use Rattle.plan.specs.Pools.PlanFault.{HasGoodPaths};
ghost use Rattle.suggest.specs.View.{trees_of, texts_at, wanted_of};
ghost use Rattle.suggest.specs.Internal.Parts;
ghost use Rattle.suggest.specs.Internal.Parts.{suggestions_of, suggestions_from, lists_there, entries_of, document_from};
ghost use Rattle.suggest.specs.Internal.Parts.{with_lists_member, with_texts_member, with_values_member};
ghost use Rattle.suggest.specs.Suggested.Chosen.{chosen_names};
ghost use Rattle.suggest.specs.Suggested.Document.{members_from, without_entry, usual_names, suggested_document};
ghost use Rattle.suggest.specs.Suggested.Varied.{both};
ghost use Rattle.suggest.specs.Suggested.Fault.{IsSuggestFault};
ghost use Rattle.suggest.specs.Suggested.Halves.{has_numbers};

use crate::chosen::push_name;
use crate::fault::SuggestFault;
use crate::general::{General, general_pools};
use crate::judging::{can_be_read, check_varied, check_without, single};
use crate::leaf_values::Hints;
use crate::lists::{Site, add_lists};
use crate::members::{list, text_list, with, with_lists};
use crate::suggestions::{Entry, Suggestions};
use crate::varying::{Variation, add_below, is_path_among};
use crate::wanted::Wanted;
use crate::without::objects_without;
use jtree::{Members, Text, Tree};
use plan::PoolLimits;
use schema::Node;
use std::alloc::{AllocError, Global};
use stored::Schema;

/// A pools document to start with, which `Pools::read_by` `Profile::Cluster` and these limits and, for the schema, `Plan::new` accept;
/// where the schema has no place of numbers, and so wherever it was judged by `Profile::Core`, `Pools::read_within` accepts it too.
///
/// `integers` are 0 and 1, and each `minimum` and `maximum` of scalars, in branches of their junctors too, with the integer before
/// and the one after it, as far as they have 64 bits; of a bound that is no integer its fraction is left out. `strings` are texts of letters `a`: one of a single letter, and one for each
/// `minLength` and `maxLength` of scalars, in branches too, that is at most 64. Both are in ascending order, each value once, and are
/// cut after 64 values. Where the schema has a place of numbers, `numbers` has for each of these integers the half after its digits,
/// 3.5 for 3 and -3.5 for -3. `any` has the text `a` and the empty object. `names` are those of the members of maps in the objects,
/// then `a` and `b`, as many as the limits allow.
///
/// `paths` lists what stands at each scalar or open node in the objects. Where nothing stands there that is stored, it lists the
/// default, the example, the bounds of a number that are no integers, and two texts of the format, as far as they are stored there;
/// without such a text some of the pools besides.
/// Nothing of that kind is listed for a boolean or an `enum`. The first paths are listed, as many as the limits allow.
///
/// Where paths are varied, all else is as it is in the one object, by `fixed` and `present`, and values are listed at the varied paths
/// and below them alone. What stands there in the object comes first, and what would be listed without it besides, or, where that is
/// nothing, some of the pools. Nothing is listed for a boolean or an `enum` there, so that all its values are candidates.
///
/// A path of `without` has an empty list under `fixed`, and the objects are taken without what stands there. `raw` is the schema as
/// written, of which formats and examples are read.
///
/// `BadPath` with the first varied path that is not a declared path of names, or, where all can be varied, with the first path of
/// `without` whose values cannot be fixed. `NotInObject` with the first varied path whose last field belongs to nothing in the object
/// without these paths, or where there is not one object alone. `TooLarge` where the document, printed with a newline, would not be read
/// again. `NoMemory` where an allocation fails.
pub fn suggested_pools(
    alloc: Global,
    raw: &Tree,
    schema: &Schema,
    wanted: &Wanted<'_>,
    limits: PoolLimits,
) -> Result<Tree, SuggestFault>
    ensures document { IfOk result (λ d. data_of d ≡ suggested_document limits (data_of raw.now) schema.now (wanted_of wanted.now)) }
    ensures form { IfOk result (λ d. HasFormBy Cluster (data_of d)) }
    ensures core { IfOk result (λ d. (written : Raw) → written.profile ≡ Core → AreNodesOf true schema.now written → HasForm (data_of d)) }
    ensures no_numbers { IfOk result (λ d. has_numbers schema.now ≡ false → HasForm (data_of d)) }
    ensures small { IfOk result (λ d. AreSmall limits (pools_of (data_of d))) }
    ensures paths { IfOk result (λ d. HasGoodPaths schema.now (pools_of (data_of d))) }
    ensures short { IfOk result (λ d. length (compact (data_of d)) < most_bytes) }
    ensures shallow { IfOk result (λ d. depth (data_of d) ≤ most_depth) }
    ensures err { IfErr result (IsSuggestFault limits (data_of raw.now) schema.now (wanted_of wanted.now)) }
{
    let root = schema.root();
    let objects = objects_without(alloc, wanted.without, root, wanted.objects)?;
    let wanted = &Wanted {
        objects: &objects,
        varied: wanted.varied,
        without: wanted.without,
    };
    check_varied(alloc, schema, wanted)?;
    check_without(alloc, schema, wanted)?;
    let beside = !wanted.varied.is_empty();
    let general = general_pools(alloc, root, limits, beside)?;
    let suggestions = suggest(alloc, &general, raw, root, wanted)?;
    let document = write_document(alloc, &general, &suggestions, wanted.without)?;
    drop(general);
    drop(suggestions);
    if !can_be_read(alloc, &document, limits)? {
        drop(document);
        return Err(SuggestFault::TooLarge);
    }
    Ok(document)
}

/// What is suggested at paths, with these values for all scalars and open nodes.
fn suggest(
    alloc: Global,
    general: &General,
    raw: &Tree,
    root: &Node,
    wanted: &Wanted<'_>,
) -> Result<Suggestions, AllocError>
    ensures { IfOk result (λ s. suggestions_of s ≡ suggestions_from (wanted_of wanted.now).varied (Parts.general_of general.now) (wanted_of wanted.now) (data_of raw.now) (node_of root.now)) }
{
    let mut suggestions = Suggestions {
        lists: Vec::new(alloc),
        names: Vec::new(alloc),
        fixed: Vec::new(alloc),
        present: Vec::new(alloc),
    };
    let site = Site {
        path: "",
        hints: Hints {
            default: None,
            schema: Some(raw),
        },
    };
    if wanted.varied.is_empty() {
        add_all(
            alloc,
            general,
            &site,
            root,
            wanted.objects,
            &mut suggestions,
        )?;
    } else {
        let variation = Variation {
            general,
            varied: wanted.varied,
        };
        let object = single(wanted.objects);
        add_below(alloc, &variation, &site, root, object, &mut suggestions)?;
    }
    Ok(suggestions)
}

/// Adds what is suggested where no path is varied.
fn add_all(
    alloc: Global,
    general: &General,
    site: &Site<'_>,
    root: &Node,
    objects: &[Tree],
    suggestions: &mut Suggestions,
) -> Result<(), AllocError>
    ensures { OnOk result (suggestions_of suggestions.new ≡ both (suggestions_of suggestions.old) (lists_there general.now site.now (node_of root.now) (trees_of objects.now))) }
{
    let mut values = Vec::with_capacity(alloc, objects.len())?;
    for object in objects {
        values.push(object)?;
    }
    add_lists(alloc, general, site, root, &values, suggestions)
}

/// The document of these suggestions.
fn write_document(
    alloc: Global,
    general: &General,
    suggestions: &Suggestions,
    without: &[&str],
) -> Result<Tree, AllocError>
    ensures { IfOk result (λ d. data_of d ≡ document_from (Parts.general_of general.now) (texts_at without.now) (suggestions_of suggestions.now)) }
{
    let mut members = no_members(alloc);
    members = with(alloc, members, "any", list(alloc, &general.any)?)?;
    let fixed = fixed_lists(alloc, &suggestions.fixed, without)?;
    members = with_object(alloc, members, "fixed", fixed)?;
    members = with(alloc, members, "integers", list(alloc, &general.integers)?)?;
    let names = with_usual_names(alloc, general.limits.names, &suggestions.names)?;
    members = with(alloc, members, "names", text_list(alloc, &names)?)?;
    members = with_values(alloc, members, "numbers", &general.numbers)?;
    let lists = first_lists(alloc, general.limits.paths, &suggestions.lists)?;
    members = with_object(alloc, members, "paths", lists)?;
    let present = kept_paths(alloc, &suggestions.present, without)?;
    members = with_texts(alloc, members, "present", &present)?;
    members = with(alloc, members, "strings", list(alloc, &general.strings)?)?;
    Ok(Tree::Object(members))
}

/// The fixed values, and the paths that never occur.
fn fixed_lists(alloc: Global, fixed: &[Entry], without: &[&str]) -> Result<Members, AllocError>
    ensures { IfOk result (λ ms. ms ≡ members_from (entries_of fixed.now ++ map without_entry (texts_at without.now))) }
{
    let mut lists = with_lists(alloc, no_members(alloc), fixed)?;
    for path in without {
        lists = with(alloc, lists, path, list(alloc, &[])?)?;
    }
    Ok(lists)
}

fn no_members(alloc: Global) -> Members
    ensures { result ≡ tree.no_members }
{
    Members {
        members: Vec::new(alloc),
    }
}

/// The members with an object of these lists, where there are some.
fn with_object(
    alloc: Global,
    members: Members,
    name: &str,
    lists: Members,
) -> Result<Members, AllocError>
    ensures { IfOk result (λ ms. ms ≡ with_lists_member name.now lists members) }
{
    if lists.members.is_empty() {
        return Ok(members);
    }
    with(alloc, members, name, Tree::Object(lists))
}

/// The members with a list of these texts, where there are some.
fn with_texts(
    alloc: Global,
    members: Members,
    name: &str,
    texts: &[Text],
) -> Result<Members, AllocError>
    ensures { IfOk result (λ ms. ms ≡ with_texts_member name.now texts.now members) }
{
    if texts.is_empty() {
        return Ok(members);
    }
    with(alloc, members, name, text_list(alloc, texts)?)
}

/// The members with a list of these values, where there are some.
fn with_values(
    alloc: Global,
    members: Members,
    name: &str,
    values: &[Tree],
) -> Result<Members, AllocError>
    ensures { IfOk result (λ ms. ms ≡ with_values_member name.now (trees_of values.now) members) }
{
    if values.is_empty() {
        return Ok(members);
    }
    with(alloc, members, name, list(alloc, values)?)
}

/// The names, and usual ones.
fn with_usual_names(alloc: Global, most: usize, found: &[Text]) -> Result<Vec<Text>, AllocError>
    ensures { IfOk result (λ ts. ts.items ≡ chosen_names most (found.now ++ usual_names)) }
{
    let mut names = Vec::new(alloc);
    for name in found {
        push_name(alloc, most, &mut names, name.as_str())?;
    }
    push_name(alloc, most, &mut names, "a")?;
    push_name(alloc, most, &mut names, "b")?;
    Ok(names)
}

/// The first lists, no more than `most`.
fn first_lists(alloc: Global, most: usize, lists: &[Entry]) -> Result<Members, AllocError>
    ensures { IfOk result (λ ms. ms ≡ members_from (take most (entries_of lists.now))) }
{
    with_lists(alloc, no_members(alloc), &lists[..most.min(lists.len())])
}

/// The paths, but for those that never occur.
fn kept_paths(alloc: Global, paths: &[Text], without: &[&str]) -> Result<Vec<Text>, AllocError>
    ensures { IfOk result (λ ts. ts.items ≡ filter (λ t. not (Texts.is_among t (texts_at without.now))) paths.now) }
{
    let mut kept = Vec::new(alloc);
    for path in paths {
        if !is_path_among(path.as_str(), without) {
            kept.push(path.copy(alloc)?)?;
        }
    }
    Ok(kept)
}
