//! `check` on what is below the root by the profile (V17): what breaks the rule, beside what does not.
use crate::support::harness::{CHECKED, FieldRow};
use crate::support::rows::try_tables;
use std::test::Fail;

static TYPES: &str = r#"
5 rows: name | schema | out
a number | {"type":"object","properties":{"x":{"type":"number"}}} | V17 "/properties/x"
another type | {"type":"object","properties":{"x":{"type":"Integer"}}} | V17 "/properties/x"
a number for integers and texts | {"type":"object","properties":{"x":{"type":"number","x-kubernetes-int-or-string":true}}} | V09 "/properties/x"
    > V17 "/properties/x"
the types
    | {"type":"object","properties":{"a":{"type":"integer"},"b":{"type":"string"},"c":{"type":"boolean"},"d":{"type":"array","items":{"type":"object"}}}}
    | structural
an empty type for integers and texts | {"type":"object","properties":{"x":{"type":"","x-kubernetes-int-or-string":true}}} | V09 "/properties/x"
"#;

// Fields that keep unknown fields, or do not.
static UNKNOWN_FIELDS: &str = r#"
10 rows: name | field | out
a text that keeps fields | {"type":"string","x-kubernetes-preserve-unknown-fields":true} | V17 "/properties/x"
a text that keeps no fields | {"type":"string","x-kubernetes-preserve-unknown-fields":false} | structural
integers and texts that keep fields | {"x-kubernetes-int-or-string":true,"x-kubernetes-preserve-unknown-fields":true} | V17 "/properties/x"
integers and texts that keep no fields | {"x-kubernetes-int-or-string":true,"x-kubernetes-preserve-unknown-fields":false} | structural
a map that keeps fields | {"type":"object","additionalProperties":{"type":"string"},"x-kubernetes-preserve-unknown-fields":true} | V17 "/properties/x"
a map that keeps no fields | {"type":"object","additionalProperties":{"type":"string"},"x-kubernetes-preserve-unknown-fields":false} | structural
any value with properties | {"x-kubernetes-preserve-unknown-fields":true,"properties":{}} | V17 "/properties/x"
any value with items | {"x-kubernetes-preserve-unknown-fields":true,"items":{"type":"string"}} | V17 "/properties/x"
any value
    | {"x-kubernetes-preserve-unknown-fields":true,"type":"","description":"","title":"","format":"","example":[],"externalDocs":0,"nullable":true,
    "uniqueItems":false} | structural
an object that keeps fields
    | {"type":"object","x-kubernetes-preserve-unknown-fields":true,"properties":{"a":{"x-kubernetes-preserve-unknown-fields":true}}} | structural
"#;

// Keywords of each kind.
static KEYWORDS: &str = r#"
9 rows: name | schema
the keywords of a text
    | {"type":"object","properties":{"x":{"type":"string","description":"","title":"","format":"","example":[],"externalDocs":0,"nullable":true,
    "uniqueItems":false,"x-kubernetes-int-or-string":false,"x-kubernetes-preserve-unknown-fields":false,"enum":["a"],"minimum":1,"maximum":1,
    "exclusiveMinimum":false,"exclusiveMaximum":false,"minLength":1,"maxLength":1}}}
    > structural
other keywords of a text
    | {"type":"object","properties":{"additionalProperties":{"type":"string","additionalProperties":{"type":"string"}},
    "items":{"type":"string","items":{"type":"string"}},"maxItems":{"type":"string","maxItems":1},"maxProperties":{"type":"string","maxProperties":1},
    "minItems":{"type":"string","minItems":1},"minProperties":{"type":"string","minProperties":1},"multipleOf":{"type":"string","multipleOf":1},
    "pattern":{"type":"string","pattern":""},"properties":{"type":"string","properties":{}},"required":{"type":"string","required":[]},
    "x-kubernetes-embedded-resource":{"type":"string","x-kubernetes-embedded-resource":true},
    "x-kubernetes-validations":{"type":"string","x-kubernetes-validations":[]}}}
    > V17 "/properties/additionalProperties"
    > V17 "/properties/items"
    > V17 "/properties/maxItems"
    > V17 "/properties/maxProperties"
    > V17 "/properties/minItems"
    > V17 "/properties/minProperties"
    > V17 "/properties/multipleOf"
    > V17 "/properties/pattern"
    > V17 "/properties/properties"
    > V17 "/properties/required"
    > V17 "/properties/x-kubernetes-embedded-resource"
    > V17 "/properties/x-kubernetes-validations"
the keywords of an object
    | {"type":"object","properties":{"x":{"type":"object","description":"","title":"","format":"","example":[],"externalDocs":0,"nullable":true,
    "uniqueItems":false,"x-kubernetes-int-or-string":false,"x-kubernetes-preserve-unknown-fields":false,"x-kubernetes-map-type":"atomic",
    "properties":{},"required":[],"minProperties":1,"maxProperties":1}}}
    > structural
the keywords of a map
    | {"type":"object","properties":{"x":{"type":"object","description":"","title":"","format":"","example":[],"externalDocs":0,"nullable":true,
    "uniqueItems":false,"additionalProperties":{"type":"string"},"required":[],"minProperties":1,"maxProperties":1}}}
    > structural
other keywords of an object
    | {"type":"object","properties":{"enum":{"type":"object","enum":["a"]},"exclusiveMaximum":{"type":"object","exclusiveMaximum":false},
    "exclusiveMinimum":{"type":"object","exclusiveMinimum":false},"items":{"type":"object","items":{"type":"string"}},
    "maxItems":{"type":"object","maxItems":1},"maxLength":{"type":"object","maxLength":1},"maximum":{"type":"object","maximum":1},
    "minItems":{"type":"object","minItems":1},"minLength":{"type":"object","minLength":1},"minimum":{"type":"object","minimum":1},
    "multipleOf":{"type":"object","multipleOf":1},"pattern":{"type":"object","pattern":""},
    "x-kubernetes-embedded-resource":{"type":"object","x-kubernetes-embedded-resource":true},
    "x-kubernetes-validations":{"type":"object","x-kubernetes-validations":[]}}}
    > V17 "/properties/enum"
    > V17 "/properties/exclusiveMaximum"
    > V17 "/properties/exclusiveMinimum"
    > V17 "/properties/items"
    > V17 "/properties/maxItems"
    > V17 "/properties/maxLength"
    > V17 "/properties/maximum"
    > V17 "/properties/minItems"
    > V17 "/properties/minLength"
    > V17 "/properties/minimum"
    > V17 "/properties/multipleOf"
    > V17 "/properties/pattern"
    > V17 "/properties/x-kubernetes-embedded-resource"
    > V17 "/properties/x-kubernetes-validations"
the keywords of a list
    | {"type":"object","properties":{"x":{"type":"array","description":"","title":"","format":"","example":[],"externalDocs":0,"nullable":true,
    "uniqueItems":false,"x-kubernetes-int-or-string":false,"x-kubernetes-preserve-unknown-fields":false,"x-kubernetes-list-type":"atomic",
    "items":{"type":"string"},"minItems":1,"maxItems":1}}}
    > structural
other keywords of a list
    | {"type":"object","properties":{"additionalProperties":{"type":"array","items":{"type":"string"},"additionalProperties":{"type":"string"}},
    "enum":{"type":"array","items":{"type":"string"},"enum":["a"]},"exclusiveMaximum":{"type":"array","items":{"type":"string"},
    "exclusiveMaximum":false},"exclusiveMinimum":{"type":"array","items":{"type":"string"},"exclusiveMinimum":false},
    "maxLength":{"type":"array","items":{"type":"string"},"maxLength":1},"maxProperties":{"type":"array","items":{"type":"string"},"maxProperties":1},
    "maximum":{"type":"array","items":{"type":"string"},"maximum":1},"minLength":{"type":"array","items":{"type":"string"},"minLength":1},
    "minProperties":{"type":"array","items":{"type":"string"},"minProperties":1},"minimum":{"type":"array","items":{"type":"string"},"minimum":1},
    "multipleOf":{"type":"array","items":{"type":"string"},"multipleOf":1},"pattern":{"type":"array","items":{"type":"string"},"pattern":""},
    "properties":{"type":"array","items":{"type":"string"},"properties":{}},"required":{"type":"array","items":{"type":"string"},"required":[]},
    "x-kubernetes-embedded-resource":{"type":"array","items":{"type":"string"},"x-kubernetes-embedded-resource":true},
    "x-kubernetes-validations":{"type":"array","items":{"type":"string"},"x-kubernetes-validations":[]}}}
    > V17 "/properties/additionalProperties"
    > V17 "/properties/enum"
    > V17 "/properties/exclusiveMaximum"
    > V17 "/properties/exclusiveMinimum"
    > V17 "/properties/maxLength"
    > V17 "/properties/maxProperties"
    > V17 "/properties/maximum"
    > V17 "/properties/minLength"
    > V17 "/properties/minProperties"
    > V17 "/properties/minimum"
    > V17 "/properties/multipleOf"
    > V17 "/properties/pattern"
    > V17 "/properties/properties"
    > V17 "/properties/required"
    > V17 "/properties/x-kubernetes-embedded-resource"
    > V17 "/properties/x-kubernetes-validations"
other keywords of any value
    | {"type":"object","properties":{"additionalProperties":{"x-kubernetes-preserve-unknown-fields":true,"additionalProperties":{"type":"string"}},
    "enum":{"x-kubernetes-preserve-unknown-fields":true,"enum":["a"]},"exclusiveMaximum":{"x-kubernetes-preserve-unknown-fields":true,
    "exclusiveMaximum":false},"exclusiveMinimum":{"x-kubernetes-preserve-unknown-fields":true,"exclusiveMinimum":false},
    "items":{"x-kubernetes-preserve-unknown-fields":true,"items":{"type":"string"}},"maxItems":{"x-kubernetes-preserve-unknown-fields":true,
    "maxItems":1},"maxLength":{"x-kubernetes-preserve-unknown-fields":true,"maxLength":1},
    "maxProperties":{"x-kubernetes-preserve-unknown-fields":true,"maxProperties":1},"maximum":{"x-kubernetes-preserve-unknown-fields":true,
    "maximum":1},"minItems":{"x-kubernetes-preserve-unknown-fields":true,"minItems":1},
    "minLength":{"x-kubernetes-preserve-unknown-fields":true,"minLength":1},"minProperties":{"x-kubernetes-preserve-unknown-fields":true,
    "minProperties":1},"minimum":{"x-kubernetes-preserve-unknown-fields":true,"minimum":1},
    "multipleOf":{"x-kubernetes-preserve-unknown-fields":true,"multipleOf":1},"pattern":{"x-kubernetes-preserve-unknown-fields":true,"pattern":""},
    "properties":{"x-kubernetes-preserve-unknown-fields":true,"properties":{}},"required":{"x-kubernetes-preserve-unknown-fields":true,"required":[]},
    "x-kubernetes-embedded-resource":{"x-kubernetes-preserve-unknown-fields":true,"x-kubernetes-embedded-resource":true},
    "x-kubernetes-validations":{"x-kubernetes-preserve-unknown-fields":true,"x-kubernetes-validations":[]}}}
    > V17 "/properties/additionalProperties"
    > V17 "/properties/enum"
    > V17 "/properties/exclusiveMaximum"
    > V17 "/properties/exclusiveMinimum"
    > V17 "/properties/items"
    > V17 "/properties/maxItems"
    > V17 "/properties/maxLength"
    > V17 "/properties/maxProperties"
    > V17 "/properties/maximum"
    > V17 "/properties/minItems"
    > V17 "/properties/minLength"
    > V17 "/properties/minProperties"
    > V17 "/properties/minimum"
    > V17 "/properties/multipleOf"
    > V17 "/properties/pattern"
    > V17 "/properties/properties"
    > V17 "/properties/required"
    > V17 "/properties/x-kubernetes-embedded-resource"
    > V17 "/properties/x-kubernetes-validations"
any keyword without a type | {"type":"object","properties":{"x":{"pattern":"","minItems":1,"minLength":1}}}
    > V01 "/properties/x"
"#;

// Fields: items and required names.
static REQUIRED: &str = r#"
7 rows: name | field | out
a list of any values | {"type":"array","items":{"x-kubernetes-preserve-unknown-fields":true}} | structural
a list without items | {"type":"array"} | V17 "/properties/x"
a required field that is not declared | {"type":"object","properties":{"a":{"type":"string"}},"required":["a","b"]} | V17 "/properties/x"
a required field that occurs twice | {"type":"object","properties":{"a":{"type":"string"}},"required":["a","a"]} | structural
a required field without properties | {"type":"object","required":["a"]} | V17 "/properties/x"
a required field of a map | {"type":"object","additionalProperties":{"type":"string"},"required":["a"]} | V17 "/properties/x"
a required field without a type | {"required":["a"]} | V01 "/properties/x"
    > V17 "/properties/x"
"#;

// Values of enum, and additionalProperties.
static VALUES: &str = r#"
7 rows: name | schema
enums
    | {"type":"object","properties":{"a":{"type":"integer","enum":[1,1]},"b":{"type":"string","enum":["a"]},"c":{"type":"boolean","enum":[true]},
    "d":{"x-kubernetes-int-or-string":true,"enum":[1,"a"]}}}
    > structural
empty enums
    | {"type":"object","properties":{"a":{"type":"integer","enum":[]},"b":{"type":"string","enum":[]},"c":{"type":"boolean","enum":[]},
    "d":{"x-kubernetes-int-or-string":true,"enum":[]}}}
    > V17 "/properties/a"
    > V17 "/properties/b"
    > V17 "/properties/c"
    > V17 "/properties/d"
enums of other kinds
    | {"type":"object","properties":{"a":{"type":"integer","enum":[1,"a"]},"b":{"type":"string","enum":["a",1]},"c":{"type":"boolean","enum":[1]},
    "d":{"x-kubernetes-int-or-string":true,"enum":[1,true]}}}
    > V17 "/properties/a"
    > V17 "/properties/b"
    > V17 "/properties/c"
    > V17 "/properties/d"
null in the enum of a text or null | {"type":"object","properties":{"x":{"type":"string","nullable":true,"enum":["a",null]}}}
    > V17 "/properties/x"
any other field | {"type":"object","properties":{"x":{"type":"object","additionalProperties":true}}}
    > V17 "/properties/x"
any other field without a type | {"type":"object","properties":{"x":{"additionalProperties":true}}}
    > V01 "/properties/x"
    > V17 "/properties/x"
no other field | {"type":"object","properties":{"x":{"type":"object","additionalProperties":false}}}
    > V07 "/properties/x"
"#;

#[test]
fn types(rt: HostRuntime) -> Result<(), Fail> {
    try_tables(&rt, rt.alloc(), &CHECKED, &[TYPES])
}

#[test]
fn unknown_fields(rt: HostRuntime) -> Result<(), Fail> {
    try_tables(&rt, rt.alloc(), &FieldRow, &[UNKNOWN_FIELDS])
}

#[test]
fn keywords(rt: HostRuntime) -> Result<(), Fail> {
    try_tables(&rt, rt.alloc(), &CHECKED, &[KEYWORDS])
}

#[test]
fn required(rt: HostRuntime) -> Result<(), Fail> {
    try_tables(&rt, rt.alloc(), &FieldRow, &[REQUIRED])
}

#[test]
fn values(rt: HostRuntime) -> Result<(), Fail> {
    try_tables(&rt, rt.alloc(), &CHECKED, &[VALUES])
}
