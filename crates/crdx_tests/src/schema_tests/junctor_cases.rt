//! `check` on junctors (V16): what breaks the rule, beside what does not.
use crate::support::harness::CHECKED;
use crate::support::rows::try_tables;
use std::test::Fail;

static JUNCTORS: &str = r#"
13 rows: name | schema | out
junctors of scalars
    | {"type":"object","properties":{"a":{"type":"integer","allOf":[{}]},"b":{"type":"string","anyOf":[{}]},"c":{"type":"boolean","oneOf":[{}]},
    "d":{"x-kubernetes-int-or-string":true,"not":{}}}} | structural
allOf of an object | {"type":"object","properties":{"x":{"type":"object","allOf":[{}]}}} | structural
anyOf of a list | {"type":"object","properties":{"x":{"type":"array","items":{"type":"string"},"anyOf":[{}]}}} | V16 "/properties/x"
oneOf of a map | {"type":"object","properties":{"x":{"type":"object","additionalProperties":{"type":"string"},"oneOf":[{}]}}} | V16 "/properties/x"
not of any value | {"type":"object","properties":{"x":{"x-kubernetes-preserve-unknown-fields":true,"not":{}}}} | V16 "/properties/x"
not of the root | {"type":"object","not":{}} | structural
a junctor without a type | {"type":"object","properties":{"x":{"not":{}}}} | V01 "/properties/x"
    > V16 "/properties/x"
a junctor of numbers | {"type":"object","properties":{"x":{"type":"number","anyOf":[{}]}}} | V16 "/properties/x"
    > V17 "/properties/x"
keywords of branches
    | {"type":"object","properties":{"x":{"type":"string","allOf":[{"enum":[0]},{"minimum":0},{"maximum":0},{"exclusiveMinimum":true},
    {"exclusiveMaximum":true},{"minLength":0},{"maxLength":0},{"allOf":[{}]},{"anyOf":[{}]},{"oneOf":[{}]},{"not":{}}]}}}
    | structural
other keywords of branches
    | {"type":"object","properties":{"x":{"type":"string","allOf":[{"properties":{}},{"required":[]},{"minProperties":0},{"maxProperties":0},
    {"minItems":0},{"maxItems":0},{"title":""},{"format":""},{"example":1},{"externalDocs":1},{"uniqueItems":false},
    {"x-kubernetes-int-or-string":false},{"x-kubernetes-preserve-unknown-fields":false},{"x-kubernetes-list-type":""},
    {"x-kubernetes-list-map-keys":[]},{"x-kubernetes-map-type":""},{"pattern":""},{"multipleOf":1}]}}}
    | V16 "/properties/x/allOf/0"
    > V16 "/properties/x/allOf/1"
    > V16 "/properties/x/allOf/2"
    > V16 "/properties/x/allOf/3"
    > V16 "/properties/x/allOf/4"
    > V16 "/properties/x/allOf/5"
    > V16 "/properties/x/allOf/6"
    > V16 "/properties/x/allOf/7"
    > V16 "/properties/x/allOf/8"
    > V16 "/properties/x/allOf/9"
    > V16 "/properties/x/allOf/10"
    > V16 "/properties/x/allOf/11"
    > V16 "/properties/x/allOf/12"
    > V16 "/properties/x/allOf/13"
    > V16 "/properties/x/allOf/14"
    > V16 "/properties/x/allOf/15"
    > V16 "/properties/x/allOf/16"
    > V16 "/properties/x/allOf/17"
keywords of branches that other rules name
    | {"type":"object","properties":{"x":{"type":"string","allOf":[{"description":""},{"type":"string"},{"nullable":true},{"additionalProperties":{}},
    {"$ref":""},{"readOnly":true}]}}} | V03 "/properties/x/allOf/0"
    > V03 "/properties/x/allOf/1"
    > V03 "/properties/x/allOf/2"
    > V03 "/properties/x/allOf/3"
    > V05 "/properties/x/allOf/4"
    > V05 "/properties/x/allOf/5"
another keyword in a branch of a branch | {"type":"object","properties":{"x":{"type":"string","anyOf":[{"not":{"title":""}}]}}}
    | V16 "/properties/x/anyOf/0/not"
the enums of branches
    | {"type":"object","properties":{"x":{"type":"string","anyOf":[{"enum":["a",1,true]},{"enum":[]},{"enum":[1,null]},{"enum":["a",[]]},
    {"enum":[{},1]}]}}} | V16 "/properties/x/anyOf/1"
    > V16 "/properties/x/anyOf/2"
    > V16 "/properties/x/anyOf/3"
    > V16 "/properties/x/anyOf/4"
"#;

#[test]
fn junctors(rt: HostRuntime) -> Result<(), Fail> {
    try_tables(&rt, rt.alloc(), &CHECKED, &[JUNCTORS])
}
