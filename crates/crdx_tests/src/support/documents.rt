//! Documents that more than one test reads, and what is listed of them.

/// A resource with an integer `a` and a boolean `b` below `spec`.
pub const WIDGET: &str = r#"{
    "apiVersion":"apiextensions.k8s.io/v1","kind":"CustomResourceDefinition",
    "spec":{
        "group":"example.org","names":{"kind":"Widget"},
        "versions":[{"name":"v1","schema":{"openAPIV3Schema":{
            "type":"object",
            "properties":{"spec":{"type":"object","properties":{
                "a":{"type":"integer"},"b":{"type":"boolean"}
            }}}
        }}}]
    }
}"#;

/// Pools of two integers.
pub const ZERO_AND_ONE: &str = r#"{"integers":[0,1]}"#;

/// The samples of `WIDGET` over `ZERO_AND_ONE` of at most four nodes.
pub const TEN_LINES: &str = r#"{}
{"spec":{}}
{"spec":{"b":false}}
{"spec":{"b":true}}
{"spec":{"a":0}}
{"spec":{"a":1}}
{"spec":{"a":0,"b":false}}
{"spec":{"a":0,"b":true}}
{"spec":{"a":1,"b":false}}
{"spec":{"a":1,"b":true}}
"#;

/// The lines of `TEN_LINES` past the third one.
pub const LAST_LINES: &str = r#"{"spec":{"b":true}}
{"spec":{"a":0}}
{"spec":{"a":1}}
{"spec":{"a":0,"b":false}}
{"spec":{"a":0,"b":true}}
{"spec":{"a":1,"b":false}}
{"spec":{"a":1,"b":true}}
"#;

/// An object with at least two of three booleans.
pub const TRUTHS: &str = r#"{"type":"object","properties":{"o":{
    "type":"object","minProperties":2,
    "properties":{"a":{"type":"boolean"},"b":{"type":"boolean"},"c":{"type":"boolean"}}
}}}"#;

/// An object of three booleans that has exactly one of the first two.
pub const ONE_OF_TWO: &str = r#"{"type":"object","properties":{"o":{
    "type":"object","oneOf":[{"required":["a"]},{"required":["b"]}],
    "properties":{"a":{"type":"boolean"},"b":{"type":"boolean"},"c":{"type":"boolean"}}
}}}"#;

/// A map list with a text `k` as its key and an integer `v`.
pub const MAP_LIST: &str = r#"{"type":"object","properties":{"m":{
    "type":"array","x-kubernetes-list-type":"map","x-kubernetes-list-map-keys":["k"],
    "items":{
        "type":"object","properties":{"k":{"type":"string"},"v":{"type":"integer"}},"required":["k"]
    }
}}}"#;

/// The same, of at least three items.
pub const LONG_MAP_LIST: &str = r#"{"type":"object","properties":{"m":{
    "type":"array","minItems":3,"x-kubernetes-list-type":"map","x-kubernetes-list-map-keys":["k"],
    "items":{
        "type":"object","properties":{"k":{"type":"string"},"v":{"type":"integer"}},"required":["k"]
    }
}}}"#;

/// Pools of two texts and an integer.
pub const TWO_TEXTS: &str = r#"{"strings":["a","b"],"integers":[0]}"#;

/// An integer `a` and a boolean `b` below `spec`: the schema of `WIDGET`.
pub const SPEC: &str =
    r#"{"type":"object","properties":{"spec":{"type":"object","properties":{"a":{"type":"integer"},"b":{"type":"boolean"}}}}}"#;

/// Fifteen objects of three booleans.
pub const FIFTEEN: &str = r#"{"type":"object","required":["t"],"properties":{"t":{
    "type":"array","minItems":15,"maxItems":15,
    "items":{"type":"object","required":["a","b","c"],"properties":{
        "a":{"type":"boolean"},"b":{"type":"boolean"},"c":{"type":"boolean"}
    }}
}}}"#;

/// Thirty-one objects of three booleans.
pub const THIRTY_ONE: &str = r#"{"type":"object","required":["t"],"properties":{"t":{
    "type":"array","minItems":31,"maxItems":31,
    "items":{"type":"object","required":["a","b","c"],"properties":{
        "a":{"type":"boolean"},"b":{"type":"boolean"},"c":{"type":"boolean"}
    }}
}}}"#;

/// A set of integers.
pub const SET: &str =
    r#"{"type":"object","properties":{"s":{"type":"array","x-kubernetes-list-type":"set","items":{"type":"integer"}}}}"#;

/// Pools of two integers, one of them twice.
pub const REPEATED: &str = r#"{"integers":[2,1,2]}"#;

/// The samples of `SET` over `REPEATED` of at most four nodes, which are all.
pub const SIX_SETS: &str = r#"{}
{"s":[]}
{"s":[1]}
{"s":[2]}
{"s":[1,2]}
{"s":[2,1]}
"#;

/// An object without properties, or null.
pub const NULLABLE: &str =
    r#"{"type":"object","properties":{"n":{"type":"object","nullable":true}}}"#;

/// An integer with a default below `spec`.
pub const DEFAULTED: &str =
    r#"{"type":"object","properties":{"spec":{"type":"object","properties":{"f":{"type":"integer","default":7}}}}}"#;

/// Pools of two integers, one of them the default of `DEFAULTED`.
pub const ZERO_AND_SEVEN: &str = r#"{"integers":[0,7]}"#;

/// A map of texts.
pub const LABELS: &str =
    r#"{"type":"object","properties":{"labels":{"type":"object","additionalProperties":{"type":"string"}}}}"#;

/// Pools of a text and of two names, one of them twice.
pub const NAMES: &str = r#"{"names":["k","j","k"],"strings":["x"]}"#;

/// Any value but null.
pub const OPEN: &str =
    r#"{"type":"object","properties":{"x":{"x-kubernetes-preserve-unknown-fields":true}}}"#;

/// Any value.
pub const OPEN_NULLABLE: &str =
    r#"{"type":"object","properties":{"x":{"x-kubernetes-preserve-unknown-fields":true,"nullable":true}}}"#;

/// A resource whose schema breaks two rules.
pub const BROKEN: &str = r#"{
    "apiVersion":"apiextensions.k8s.io/v1","kind":"CustomResourceDefinition",
    "spec":{
        "group":"example.com","names":{"kind":"Widget"},
        "versions":[{"name":"v1","schema":{"openAPIV3Schema":{
            "type":"object","properties":{"a":{},"b":{"type":"string","uniqueItems":true}}
        }}}]
    }
}"#;

/// What is said of `BROKEN`.
pub const BROKEN_LINES: &str = r#"V01 "/properties/a"
V06 "/properties/b"
"#;

/// `LONG_MAP_LIST`, required.
pub const REQUIRED_LONG_MAP_LIST: &str = r#"{"type":"object","required":["m"],"properties":{"m":{
    "type":"array","minItems":3,"x-kubernetes-list-type":"map","x-kubernetes-list-map-keys":["k"],
    "items":{
        "type":"object","properties":{"k":{"type":"string"},"v":{"type":"integer"}},"required":["k"]
    }
}}}"#;

/// A map list with the integers `a` and `c` as its keys and a boolean `b`.
pub const TWO_INTEGER_KEYS: &str = r#"{"type":"object","properties":{"m":{
    "type":"array","x-kubernetes-list-type":"map","x-kubernetes-list-map-keys":["a","c"],
    "items":{
        "type":"object",
        "properties":{"a":{"type":"integer"},"b":{"type":"boolean"},"c":{"type":"integer"}},
        "required":["a","c"]
    }
}}}"#;

/// An object that is there by default, with an integer that has one.
pub const TWO_DEFAULTS: &str = r#"{"type":"object","properties":{"spec":{
    "type":"object","default":{},"properties":{"f":{"type":"integer","default":7}}
}}}"#;

/// A list of objects of two booleans.
pub const LIST_OF_OBJECTS: &str = r#"{"type":"object","properties":{"l":{"type":"array","items":{
    "type":"object","properties":{"a":{"type":"boolean"},"b":{"type":"boolean"}}
}}}}"#;

/// An object with at most one of two booleans.
pub const AT_MOST_ONE: &str = r#"{"type":"object","properties":{"o":{
    "type":"object","maxProperties":1,"properties":{"a":{"type":"boolean"},"b":{"type":"boolean"}}
}}}"#;

/// An integer that keeps exactly one of two bounds.
pub const ONE_BOUND: &str = r#"{"type":"object","required":["n"],"properties":{"n":{
    "type":"integer","oneOf":[{"minimum":1},{"maximum":3}]
}}}"#;

/// An object of a boolean, or null.
pub const NULL_OR_TRUTH: &str = r#"{"type":"object","properties":{"n":{
    "type":"object","nullable":true,"properties":{"a":{"type":"boolean"}}
}}}"#;

/// Exactly one of two booleans, at the root.
pub const ONE_OF_TWO_AT_THE_ROOT: &str = r#"{
    "type":"object","properties":{"a":{"type":"boolean"},"b":{"type":"boolean"}},
    "oneOf":[{"required":["a"]},{"required":["b"]}]
}"#;

/// An integer of 1 at least, and a text with a default.
pub const BOUND_AND_DEFAULT: &str =
    r#"{"type":"object","properties":{"a":{"type":"integer","minimum":1},"b":{"type":"string","default":"x"}}}"#;

/// The document that a table names so.
pub fn document(name: &str) -> Option<&'static str> {
    match name {
        "@WIDGET" => Some(WIDGET),
        "@TEN_LINES" => Some(TEN_LINES),
        "@LAST_LINES" => Some(LAST_LINES),
        "@TRUTHS" => Some(TRUTHS),
        "@ONE_OF_TWO" => Some(ONE_OF_TWO),
        "@MAP_LIST" => Some(MAP_LIST),
        "@LONG_MAP_LIST" => Some(LONG_MAP_LIST),
        "@SPEC" => Some(SPEC),
        "@FIFTEEN" => Some(FIFTEEN),
        "@THIRTY_ONE" => Some(THIRTY_ONE),
        "@SET" => Some(SET),
        "@SIX_SETS" => Some(SIX_SETS),
        "@NULLABLE" => Some(NULLABLE),
        "@DEFAULTED" => Some(DEFAULTED),
        "@LABELS" => Some(LABELS),
        "@OPEN" => Some(OPEN),
        "@OPEN_NULLABLE" => Some(OPEN_NULLABLE),
        "@BROKEN" => Some(BROKEN),
        "@BROKEN_LINES" => Some(BROKEN_LINES),
        "@REQUIRED_LONG_MAP_LIST" => Some(REQUIRED_LONG_MAP_LIST),
        "@TWO_DEFAULTS" => Some(TWO_DEFAULTS),
        "@LIST_OF_OBJECTS" => Some(LIST_OF_OBJECTS),
        "@AT_MOST_ONE" => Some(AT_MOST_ONE),
        "@ONE_BOUND" => Some(ONE_BOUND),
        "@NULL_OR_TRUTH" => Some(NULL_OR_TRUTH),
        "@ONE_OF_TWO_AT_THE_ROOT" => Some(ONE_OF_TWO_AT_THE_ROOT),
        "@BOUND_AND_DEFAULT" => Some(BOUND_AND_DEFAULT),
        _ => None,
    }
}
