//! What `explain` answers.
ghost use Rattle.std.specs.Prelude.{◌≡◌, None, Some, option_map, IfOk, IfErr, string_bytes};
ghost use Rattle.jtree.specs.View.{data_of};
ghost use Rattle.explain.specs.Fields.View.{field_of};
ghost use Rattle.crdx.specs.Internal.Cause.{IsInputCause, IsFieldCause};
ghost use Rattle.crdx.specs.Program.FieldAnswer.{IsFieldAnswer};
ghost use Rattle.crdx.specs.Program.FieldLines as said;
ghost use Rattle.crdx.specs.Program.RunResult.{IsAnswer};
ghost use Rattle.crdx.specs.declared.arguments.request.Request.TheVariants.{Explain};
ghost use Rattle.crdx.specs.declared.running.causes.Cause.TheVariants.{NoMemory};

use crate::arguments::ExplainArguments;
use crate::inputs::Inputs;
use crate::running::answer::{Answer, json_items, json_text, json_texts, json_tree};
use crate::running::causes::Cause;
use crate::running::documents::{Accepted, accepted_schema};
use crate::running::exit_status::DONE;
use crate::running::lines::{Lines, all_lines};
use crate::running::refusal::{Refusal, Subject};
use explain::{Field, Listing, resolve};
use jtree::{Items, Text};
use schema::{ListType, MapType};
use std::alloc::{AllocError, Global};
use stored::Schema;

/// A line for each field of the schema, or all that is known of the field of a path. The schema is judged before the path.
pub(crate) fn explain<'a, I: Inputs>(
    alloc: Global,
    arguments: &ExplainArguments<'a>,
    inputs: &mut I,
) -> Result<Answer, Refusal<'a>>
    ensures answer { IfOk result (λ a. IsAnswer (I.has inputs.old) (Explain arguments.now) a.status (string_bytes a.out)) }
    ensures cause { IfErr result (λ r. IsInputCause (I.has inputs.old) (I.failures inputs.old) (I.failures inputs.new) (Explain arguments.now) r.cause) }
{
    let Accepted {
        document: _,
        group: _,
        kind: _,
        schema,
    } = accepted_schema(alloc, &arguments.common, inputs)?;
    let path = arguments.path;
    match explain_schema(alloc, &schema, path) {
        Ok(answer) => Ok(answer),
        Err(cause) => Err(Refusal {
            cause,
            subject: Subject::Field { schema, path },
        }),
    }
}

fn explain_schema(alloc: Global, schema: &Schema, path: Option<&str>) -> Result<Answer, Cause>
    ensures answer { IfOk result (λ a. IsFieldAnswer schema.now path.entry a.status (string_bytes a.out)) }
    ensures cause { IfErr result (IsFieldCause schema.now path.entry) }
{
    match path {
        Some(path) => explain_field(alloc, schema, path),
        None => explain_fields(alloc, schema),
    }
}

/// The lines of all fields.
fn explain_fields(alloc: Global, schema: &Schema) -> Result<Answer, Cause>
    ensures answer { IfOk result (λ a. IsFieldAnswer schema.now None a.status (string_bytes a.out)) }
    ensures memory { IfErr result (λ cause. cause ≡ NoMemory) }
{
    let listing = Listing::new(alloc, schema)?;
    Ok(Answer {
        status: DONE,
        out: all_lines(alloc, listing.fields())?,
        err: String::new(alloc),
    })
}

/// All that is known of the field of a path. A path that leads to none is refused before memory is taken for the fields.
fn explain_field(alloc: Global, schema: &Schema, path: &str) -> Result<Answer, Cause>
    ensures answer { IfOk result (λ a. IsFieldAnswer schema.now (Some path.entry) a.status (string_bytes a.out)) }
    ensures cause { IfErr result (IsFieldCause schema.now (Some path.entry)) }
{
    resolve(schema, path)?;
    let listing = Listing::new(alloc, schema)?;
    let field = listing.field(path)?;
    Ok(Answer {
        status: DONE,
        out: all_of_field(alloc, field)?,
        err: String::new(alloc),
    })
}

/// The line of a field, and a line each for its description and its values where it has them.
fn all_of_field(alloc: Global, field: &Field) -> Result<String, AllocError>
    ensures { IfOk result (λ s. string_bytes s ≡ said.all_of_field (field_of field.now)) }
{
    let line = field.lines(alloc)?;
    let description = description_line(alloc, field)?;
    let choices = enum_line(alloc, &field.choices)?;
    format!(in alloc; "{line}{description}{choices}")
}

/// The path as a JSON text, the type, and what else applies.
impl Lines for Field {
    ghost text = { λ field. said.field_line (field_of field) };

    fn lines(&self, alloc: Global) -> Result<String, AllocError> {
        let path = json_text(alloc, self.path.as_str())?;
        let keys = keys_word(alloc, self.keys.as_slice())?;
        let default = default_word(alloc, self)?;
        format!(in alloc;
            "{path} <{}>{}{}{}{keys}{}{default}\n",
            self.type_text.as_str(),
            word_if(self.required, " required"),
            word_if(self.nullable, " nullable"),
            list_type_word(self.list_type),
            map_type_word(self.map_type)
        )
    }
}

fn word_if(applies: bool, word: &'static str) -> &'static str
    ensures { result.now ≡ said.word_if applies word.now }
{
    if applies { word } else { "" }
}

fn list_type_word(list_type: Option<ListType>) -> &'static str
    ensures { result.now ≡ said.list_type_word list_type }
{
    match list_type {
        Some(ListType::Set(_)) => " list-type=set",
        Some(ListType::Map(_)) => " list-type=map",
        Some(ListType::Atomic) | None => "",
    }
}

fn map_type_word(map_type: Option<MapType>) -> &'static str
    ensures { result.now ≡ said.map_type_word map_type }
{
    match map_type {
        Some(MapType::Atomic) => " map-type=atomic",
        Some(MapType::Granular) | None => "",
    }
}

fn keys_word(alloc: Global, keys: &[Text]) -> Result<String, AllocError>
    ensures { IfOk result (λ s. string_bytes s ≡ said.keys_word keys.now) }
{
    if keys.is_empty() {
        return Ok(String::new(alloc));
    }
    let keys = json_texts(alloc, keys)?;
    format!(in alloc; " keys={keys}")
}

fn default_word(alloc: Global, field: &Field) -> Result<String, AllocError>
    ensures { IfOk result (λ s. string_bytes s ≡ said.default_word (option_map data_of field.now.default)) }
{
    match &field.default {
        Some(default) => {
            let default = json_tree(alloc, default)?;
            format!(in alloc; " default={default}")
        }
        None => Ok(String::new(alloc)),
    }
}

fn description_line(alloc: Global, field: &Field) -> Result<String, AllocError>
    ensures { IfOk result (λ s. string_bytes s ≡ said.description_line field.now.description) }
{
    match &field.description {
        Some(description) => {
            let description = json_text(alloc, description.as_str())?;
            format!(in alloc; "description {description}\n")
        }
        None => Ok(String::new(alloc)),
    }
}

fn enum_line(alloc: Global, choices: &Items) -> Result<String, AllocError>
    ensures { IfOk result (λ s. string_bytes s ≡ said.enum_line choices.now) }
{
    if choices.items.as_slice().is_empty() {
        return Ok(String::new(alloc));
    }
    let choices = json_items(alloc, choices)?;
    format!(in alloc; "enum {choices}\n")
}
