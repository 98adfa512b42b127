//! Declared fields by their names.
ghost use Rattle.std.specs.Prelude.{◌≡◌, option_map};
ghost use Rattle.stored.specs.Internal.Fields.{declared_of};
ghost use Rattle.schema.specs.Nodes.ByPlace.{field_at};

use schema::{Field, Fields};

/// The field of a name, and `None` where the name is not declared.
pub(crate) fn field_named<'a>(fields: &'a Fields, name: &str) -> Option<&'a Field>
    ensures { option_map (λ f. declared_of f.now) result ≡ field_at name.now fields.now }
{
    for field in &fields.fields {
        if name == field.name.as_str() {
            return Some(field);
        }
    }
    None
}
