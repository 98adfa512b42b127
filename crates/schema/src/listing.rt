//! The places of a schema in path order, each once, as far as no limit is passed.
ghost use Rattle.std.specs.Prelude.{◌≡◌, ℕ, ◌++◌, suc, List, ◌∷◌, [], Some, None, OnOk, IfOk, IfErr};
ghost use Rattle.jtree.specs.Data.{Data, object, list};
ghost use Rattle.jtree.specs.View.{data_of};
ghost use Rattle.schema.specs.Document.Limits.{IsWithinLimits};
ghost use Rattle.schema.specs.Internal.Events as passed;
ghost use Rattle.schema.specs.Internal.Events.{Event, entered, keyword_event, schema_events, Passing, of_all, limit_break};
ghost use Rattle.schema.specs.Internal.Faults.{IsLimitRefusal, IsLimitFaultOf};
ghost use Rattle.schema.specs.Internal.Listing.{ListsSchema, ListsKeywords, ListsPart};
ghost use Rattle.schema.specs.Internal.PlaceView.{step_of, place_of, junctor_of, part_view};
ghost use Rattle.schema.specs.Internal.Subschemas.{AreSubschemas};
ghost use Rattle.schema.specs.declared.listing.Unlisted.TheVariants.{Passed};

use crate::context::{Context, context_below, root_context};
use crate::fault::SFault;
use crate::limits::{Excess, Limited, Limits, limited_by, size};
use crate::places::{Step, keyword_pointer, pointer_of};
use jtree::{Items, Members, Tree};
use std::alloc::{AllocError, AllocFailed, Global};

/// Why places are not listed.
#[derive(Drop)]
pub(crate) enum Unlisted {
    /// A limit is passed, the first in path order.
    Passed(Excess),
    /// An allocation failed.
    NoMemory,
}

impl From<AllocError> for Unlisted {
    ghost use Rattle.std.specs.Prelude.{◌≡◌};
    ghost use Rattle.schema.specs.declared.listing.Unlisted.TheVariants.{NoMemory};

    ghost from_gives = { λ _ e. e ≡ NoMemory };

    fn from(_refused: AllocError) -> Unlisted {
        Unlisted::NoMemory
    }
}

impl<T: Drop> From<AllocFailed<T>> for Unlisted {
    ghost use Rattle.std.specs.Prelude.{◌≡◌};
    ghost use Rattle.schema.specs.declared.listing.Unlisted.TheVariants.{NoMemory};

    ghost from_gives = { λ _ e. e ≡ NoMemory };

    fn from(_refused: AllocFailed<T>) -> Unlisted {
        Unlisted::NoMemory
    }
}

impl From<Unlisted> for SFault {
    ghost use Rattle.std.specs.Prelude.{◌≡◌};
    ghost use Rattle.schema.specs.Internal.Faults.{listing_fault};

    ghost from_gives = { λ unlisted e. e ≡ listing_fault unlisted };

    fn from(unlisted: Unlisted) -> SFault {
        match unlisted {
            Unlisted::Passed(excess) => SFault::TooLarge(excess.pointer),
            Unlisted::NoMemory => SFault::NoMemory,
        }
    }
}

/// A place of a schema, and what a rule asks of it.
#[derive(Drop)]
pub(crate) struct Subschema<'a> {
    pub place: Vec<Step<'a>>,
    pub schema: &'a Members,
    /// The schema at the place without its steps into branches, where that is a place.
    pub outer: Option<&'a Members>,
    /// Whether it is a branch of the int-or-string pattern.
    pub in_pattern: bool,
}

/// A keyword with branches.
#[derive(Clone, Copy, Drop)]
enum Junctor {
    All,
    Any,
    One,
}

/// What a value is among the schemas, by the keyword or the name that it is under.
#[derive(Clone, Copy, Drop)]
enum Part<'a> {
    Schema(Step<'a>),
    Properties,
    Branches(Junctor),
    Other,
}

fn part_of<'a>(keyword: &str) -> Part<'a>
    ensures { part_view result ≡ passed.part_of keyword.now }
{
    match keyword {
        "properties" => Part::Properties,
        "additionalProperties" => Part::Schema(Step::MapValue),
        "items" => Part::Schema(Step::Items),
        "allOf" => Part::Branches(Junctor::All),
        "anyOf" => Part::Branches(Junctor::Any),
        "oneOf" => Part::Branches(Junctor::One),
        "not" => Part::Schema(Step::Not),
        _ => Part::Other,
    }
}

fn branch<'a>(junctor: Junctor, index: u64) -> Step<'a>
    ensures { step_of result ≡ passed.branch (junctor_of junctor) index }
{
    match junctor {
        Junctor::All => Step::AllOf(index),
        Junctor::Any => Step::AnyOf(index),
        Junctor::One => Step::OneOf(index),
    }
}

fn place_below<'a>(
    alloc: Global,
    place: &[Step<'a>],
    step: Step<'a>,
) -> Result<Vec<Step<'a>>, AllocError>
    ensures { IfOk result (λ v. place_of v.items ≡ place_of place.now ++ (step_of step.entry ∷ [])) }
{
    let mut longer = Vec::with_capacity(alloc, place.len() + 1)?;
    longer.extend_from_slice(place)?;
    longer.push(step)?;
    Ok(longer)
}

/// Refuses a place after as many others as there may be, or with too many steps.
fn check_place(
    alloc: Global,
    limits: Limits,
    place: &[Step<'_>],
    count: usize,
) -> Result<(), Unlisted>
    ensures ok { OnOk result ((s : Data) (events : List Event) → limit_break limits count (entered (place_of place.now) s ∷ events) ≡ limit_break limits (suc count) events) }
    ensures err { IfErr result (λ e. (s : Data) (events : List Event) → IsLimitRefusal (limit_break limits count (entered (place_of place.now) s ∷ events)) e) }
{
    if count >= limits.places {
        return Err(Unlisted::Passed(Excess {
            pointer: pointer_of(alloc, place)?,
            limited: Limited::Places,
            found: count,
        }));
    }
    if place.len() > limits.steps {
        return Err(Unlisted::Passed(Excess {
            pointer: pointer_of(alloc, place)?,
            limited: Limited::Steps,
            found: place.len(),
        }));
    }
    Ok(())
}

/// Refuses a keyword whose value has too many members or entries.
fn check_keyword(
    alloc: Global,
    limits: Limits,
    place: &[Step<'_>],
    keyword: &str,
    tree: &Tree,
) -> Result<(), Unlisted>
    ensures ok { OnOk result ((n : ℕ) (events : List Event) → limit_break limits n (keyword_event (place_of place.now) keyword.now (data_of tree.now) ++ events) ≡ limit_break limits n events) }
    ensures err { IfErr result (λ e. (n : ℕ) (events : List Event) → IsLimitRefusal (limit_break limits n (keyword_event (place_of place.now) keyword.now (data_of tree.now) ++ events)) e) }
{
    let Some(limited) = limited_by(keyword) else {
        return Ok(());
    };
    let found = size(tree);
    if found <= limits.most(limited) {
        return Ok(());
    }
    Err(Unlisted::Passed(Excess {
        pointer: keyword_pointer(alloc, place, keyword)?,
        limited,
        found,
    }))
}

/// The places of a schema in path order, each once.
pub(crate) fn list_places<'a>(
    alloc: Global,
    limits: Limits,
    schema: &'a Members,
) -> Result<Vec<Subschema<'a>>, Unlisted>
    ensures subschemas { IfOk result (λ v. AreSubschemas schema.now v.items) }
    ensures within { OnOk result (IsWithinLimits limits (object schema.now)) }
    ensures err { IfErr result (IsLimitFaultOf limits (object schema.now)) }
{
    schema.reveal_invariant();
    match list_within(alloc, limits, schema) {
        Ok(subschemas) => Ok(subschemas),
        Err(Unlisted::Passed(excess)) => Err(with_all_places(alloc, schema, excess)),
        Err(Unlisted::NoMemory) => Err(Unlisted::NoMemory),
    }
}

/// The same, with the number of the places so far where there are too many.
fn list_within<'a>(
    alloc: Global,
    limits: Limits,
    schema: &'a Members,
) -> Result<Vec<Subschema<'a>>, Unlisted>
    ensures subschemas { IfOk result (λ v. AreSubschemas schema.now v.items) }
    ensures ok { OnOk result (limit_break limits 0 (schema_events [] schema.now) ≡ None) }
    ensures err { IfErr result (IsLimitRefusal (limit_break limits 0 (schema_events [] schema.now))) }
{
    schema.reveal_invariant();
    let mut subschemas = Vec::new(alloc);
    let position = Position {
        limits,
        place: &[],
        context: root_context(schema),
    };
    list_schema(alloc, &position, schema, &mut subschemas)?;
    Ok(subschemas)
}

/// The excess with the number of all places, where there are too many.
fn with_all_places(alloc: Global, schema: &Members, excess: Excess) -> Unlisted
    ensures { (p : Passing) → IsLimitRefusal (Some p) (Passed excess) → IsLimitRefusal (Some (of_all schema.now p)) result }
{
    let Excess {
        pointer,
        limited,
        found,
    } = excess;
    let found = match limited {
        Limited::Places => match list_within(alloc, UNLIMITED, schema) {
            Ok(places) => places.len(),
            Err(_) => return Unlisted::NoMemory,
        },
        _ => found,
    };
    Unlisted::Passed(Excess {
        pointer,
        limited,
        found,
    })
}

/// Limits that no document passes.
const UNLIMITED: Limits = Limits {
    places: usize::MAX,
    steps: usize::MAX,
    properties: usize::MAX,
    required: usize::MAX,
    map_keys: usize::MAX,
    choices: usize::MAX,
};

/// A place that the walk has come to.
#[derive(Clone, Copy, Drop)]
struct Position<'p, 'a> {
    limits: Limits,
    place: &'p [Step<'a>],
    /// What is known of the place.
    context: Context<'a>,
}

/// Lists the place, which has these members, and those below it, after the places that are listed already.
#[cycle(listing)]
fn list_schema<'a>(
    alloc: Global,
    position: &Position<'_, 'a>,
    members: &'a Members,
    subschemas: &mut Vec<Subschema<'a>>,
) -> Result<(), Unlisted>
    ensures { ListsSchema position.now members.now subschemas.old.items subschemas.new.items result }
{
    let place = position.place;
    let context = position.context;
    check_place(alloc, position.limits, place, subschemas.len())?;
    subschemas.push(Subschema {
        place: copied(alloc, place)?,
        schema: members,
        outer: context.outer,
        in_pattern: context.in_pattern,
    })?;
    list_keywords(alloc, position, members, subschemas)
}

/// Lists the places below the keywords of the place.
#[cycle(listing)]
fn list_keywords<'a>(
    alloc: Global,
    position: &Position<'_, 'a>,
    members: &'a Members,
    subschemas: &mut Vec<Subschema<'a>>,
) -> Result<(), Unlisted>
    ensures { ListsKeywords position.now members.now subschemas.old.items subschemas.new.items result }
{
    members.reveal_invariant();
    for member in &members.members {
        let keyword = member.name.as_str();
        let tree = &member.tree;
        check_keyword(alloc, position.limits, position.place, keyword, tree)?;
        list_part(alloc, position, part_of(keyword), tree, subschemas)?;
    }
    Ok(())
}

/// Lists the places that the properties of the place are.
#[cycle(listing)]
fn list_properties<'a>(
    alloc: Global,
    position: &Position<'_, 'a>,
    properties: &'a Members,
    subschemas: &mut Vec<Subschema<'a>>,
) -> Result<(), Unlisted>
    ensures { ListsPart position.now passed.properties (object properties.now) subschemas.old.items subschemas.new.items result }
{
    properties.reveal_invariant();
    for property in &properties.members {
        let step = Step::Property(property.name.as_str());
        list_part(
            alloc,
            position,
            Part::Schema(step),
            &property.tree,
            subschemas,
        )?;
    }
    Ok(())
}

/// Lists the places that the branches of a junctor are.
#[cycle(listing)]
fn list_branches<'a>(
    alloc: Global,
    position: &Position<'_, 'a>,
    junctor: Junctor,
    items: &'a Items,
    subschemas: &mut Vec<Subschema<'a>>,
) -> Result<(), Unlisted>
    ensures { ListsPart position.now (passed.branches (junctor_of junctor)) (list items.now) subschemas.old.items subschemas.new.items result }
{
    for (i, item) in items.items.iter().enumerate() {
        let step = branch(junctor, i as u64);
        list_part(alloc, position, Part::Schema(step), item, subschemas)?;
    }
    Ok(())
}

/// Lists the places in a value that is below the place.
#[cycle(listing)]
fn list_part<'a>(
    alloc: Global,
    position: &Position<'_, 'a>,
    part: Part<'a>,
    tree: &'a Tree,
    subschemas: &mut Vec<Subschema<'a>>,
) -> Result<(), Unlisted>
    ensures { ListsPart position.now (part_view part.entry) (data_of tree.now) subschemas.old.items subschemas.new.items result }
{
    match (part, tree) {
        (Part::Schema(step), Tree::Object(members)) => {
            let place = place_below(alloc, position.place, step)?;
            let next = Position {
                limits: position.limits,
                place: place.as_slice(),
                context: context_below(position.context, step, members),
            };
            list_schema(alloc, &next, members, subschemas)
        }
        (Part::Properties, Tree::Object(members)) => {
            list_properties(alloc, position, members, subschemas)
        }
        (Part::Branches(junctor), Tree::List(items)) => {
            list_branches(alloc, position, junctor, items, subschemas)
        }
        _ => Ok(()),
    }
}

fn copied<'a>(alloc: Global, place: &[Step<'a>]) -> Result<Vec<Step<'a>>, AllocError>
    ensures { IfOk result (λ v. place_of v.items ≡ place_of place.now) }
{
    let mut steps = Vec::with_capacity(alloc, place.len())?;
    steps.extend_from_slice(place)?;
    Ok(steps)
}
