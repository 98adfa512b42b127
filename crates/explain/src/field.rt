//! What a schema says of a field.
use jtree::{Items, Text, Tree};
use schema::{ListType, MapType};

/// What a schema says of a field.
#[derive(Drop)]
pub struct Field {
    /// Each step of the path after a `/`: a name with `~`, `/`, `[` and `{` written `~0`, `~1`, `~2` and `~3`, `[]` for the
    /// items of a list and `{}` for the values of a map.
    pub path: Text,
    /// The type as `kubectl explain` writes it: `string`, `integer`, `number`, `boolean`, `Object`, `[]` and the type of the items,
    /// `map[string]` and the type of the values. `int-or-string` and `any` are this project's own.
    pub type_text: Text,
    /// Whether the object above requires it. Items and values are not required.
    pub required: bool,
    /// Whether null is accepted.
    pub nullable: bool,
    /// How the items of a list merge.
    pub list_type: Option<ListType>,
    /// How the members of an object or a map merge.
    pub map_type: Option<MapType>,
    /// The names of the fields that are the keys of a map list, as written.
    pub keys: Vec<Text>,
    /// The values of `enum` as written, none where it is absent.
    pub choices: Items,
    /// The default. Items and values have none.
    pub default: Option<Tree>,
    pub description: Option<Text>,
}
