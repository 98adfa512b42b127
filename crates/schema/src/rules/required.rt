//! What `required` may list.
ghost use Rattle.std.specs.Prelude.{◌≡◌, option_map};
ghost use Rattle.std.specs.Option.{is_some};
ghost use Rattle.jtree.specs.Data.{object};
ghost use Rattle.jtree.specs.Path.{member_at};
ghost use Rattle.jtree.specs.View.{data_of, items_of};
ghost use Rattle.schema.specs.Rules.Keywords.{members_in, any_item};
ghost use Rattle.schema.specs.Rules.Profile as ProfileSpec;

use crate::keywords::has;
use crate::places::is_envelope_name;
use jtree::{Members, Tree};

/// The fields of an object: its properties, but at the root a name of the envelope is one exactly where the envelope counts.
#[derive(Clone, Copy)]
pub(crate) struct FieldNames<'a> {
    pub at_root: bool,
    /// Whether the envelope counts.
    pub envelope: bool,
    pub properties: Option<&'a Members>,
}

/// Whether `required` lists what is no field.
pub(crate) fn lists_no_field(fields: &FieldNames<'_>, schema: &Members) -> bool
    ensures { result ≡ ProfileSpec.lists_no_field fields.now.at_root fields.now.envelope (members_in (option_map (λ m. object m.now) fields.now.properties)) (object schema.now) }
{
    match schema.get("required") {
        Some(Tree::List(names)) => has_no_field(fields, names.items.as_slice()),
        _ => false,
    }
}

/// Whether one of these names is no field.
fn has_no_field(fields: &FieldNames<'_>, names: &[Tree]) -> bool
    ensures { result ≡ any_item (ProfileSpec.is_no_field fields.now.at_root fields.now.envelope (members_in (option_map (λ m. object m.now) fields.now.properties))) (items_of names.now) }
{
    for name in names {
        if is_no_field(fields, name) {
            return true;
        }
    }
    false
}

fn is_no_field(fields: &FieldNames<'_>, name: &Tree) -> bool
    ensures { result ≡ ProfileSpec.is_no_field fields.now.at_root fields.now.envelope (members_in (option_map (λ m. object m.now) fields.now.properties)) (data_of name.now) }
{
    match name {
        Tree::Text(name) => {
            let name = name.as_str();
            if fields.at_root && is_envelope_name(name) {
                !fields.envelope
            } else {
                !declares(fields.properties, name)
            }
        }
        _ => false,
    }
}

/// Whether there is a property of this name.
fn declares(properties: Option<&Members>, name: &str) -> bool
    ensures { result ≡ is_some (member_at name.now (members_in (option_map (λ m. object m.now) properties.entry))) }
{
    match properties {
        Some(properties) => has(properties, name),
        None => false,
    }
}
