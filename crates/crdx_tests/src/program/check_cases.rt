//! `check`: the rules that a schema breaks, and what is said of the inputs that are refused.
use crate::support::harness::{CHECKED, SchemaRunRow};
use crate::support::rows::try_tables;
use std::test::Fail;

static SOUND: &str = r#"
14 rows: name | schema | out
two fields | @SPEC | structural
metadata below the root
    | {"type":"object","properties":{"spec":{"type":"object","properties":{"metadata":{"type":"object","properties":{"labels":{"type":"object"}}}}}}}
    | structural
metadata alone | {"type":"object","properties":{"metadata":{"type":"object"}}} | structural
keywords without effect, and the envelope
    | {"type":"object","title":"","properties":{"apiVersion":{"type":"string"},"kind":{"type":"array","items":{"type":"integer"}},
    "metadata":{"type":"object","description":"","properties":{"name":{"type":"string","minLength":1}}},
    "spec":{"type":"object","description":"","format":"","example":[1],"externalDocs":{"url":""},"uniqueItems":false,
    "properties":{"kind":{"type":"integer","format":"int32","title":"x"}}}}} | structural
a text | {"type":"object","properties":{"a":{"type":"string"}}} | structural
the int-or-string pattern | {"type":"object","properties":{"x":{"x-kubernetes-int-or-string":true,"anyOf":[{"type":"integer"},{"type":"string"}]}}}
    | structural
the int-or-string pattern in allOf
    | {"type":"object","properties":{"x":{"x-kubernetes-int-or-string":true,"allOf":[{"anyOf":[{"type":"integer"},{"type":"string"}]},{"minimum":1}]}}}
    | structural
a field named as one of the envelope | {"type":"object","properties":{"spec":{"type":"object","properties":{"kind":{"type":"string"}}}}} | structural
nullable | {"type":"object","properties":{"a":{"type":"integer","nullable":false}}} | structural
junctors of a test | @ONE_BOUND | structural
a set, a map list and a map
    | {"type":"object","properties":{"labels":{"type":"object","additionalProperties":{"type":"string"},"x-kubernetes-map-type":"atomic"},
    "m":{"type":"array","x-kubernetes-list-type":"map","x-kubernetes-list-map-keys":["host","port"],
    "items":{"type":"object","required":["host","port"],"properties":{"host":{"type":"string"},"port":{"type":"integer"}}}},
    "s":{"type":"array","x-kubernetes-list-type":"set","items":{"type":"integer"}}}} | structural
fields that are not declared
    | {"type":"object","properties":{"spec":{"type":"object","x-kubernetes-preserve-unknown-fields":true,
    "properties":{"a":{"x-kubernetes-preserve-unknown-fields":true}}}}} | structural
a number of fields | @TRUTHS | structural
a field named default | {"type":"object","properties":{"default":{"type":"string"}}} | structural
"#;

static BROKEN: &str = r#"
16 rows: name | schema
two rules | {"type":"object","properties":{"a":{},"b":{"type":"string","uniqueItems":true}}}
    > V01 "/properties/a"
    > V06 "/properties/b"
places in path order | {"type":"object","properties":{"a":{"type":"object","properties":{"b":{}}},"a-b":{}}}
    > V01 "/properties/a/properties/b"
    > V01 "/properties/a-b"
seven rules
    | {"type":"object","properties":{"metadata":{"type":"object","properties":{"labels":{"type":"object"},"name":{"type":"string"}}},
    "p":{"type":"string","x-kubernetes-int-or-string":true},"q":{"type":"object","additionalProperties":false,"properties":{}},
    "r":{"type":"string","$ref":"x"},"s":{"type":"object","properties":{"t":{"type":"string"}},"allOf":[{"properties":{"u":{}}}]}}}
    > V04 "/properties/metadata/properties/labels"
    > V09 "/properties/p"
    > V07 "/properties/q"
    > V08 "/properties/q"
    > V05 "/properties/r"
    > V16 "/properties/s/allOf/0"
    > V02 "/properties/s/allOf/0/properties/u"
a number in the enum of a text | {"type":"object","properties":{"e":{"type":"string","enum":[1]}}}
    > V17 "/properties/e"
markers of lists and maps
    | {"type":"object","properties":{"a":{"type":"string","x-kubernetes-list-type":"set"},
    "b":{"type":"array","items":{"type":"string"},"x-kubernetes-list-map-keys":["k"]},
    "c":{"type":"array","items":{"type":"object"},"x-kubernetes-list-type":"set"},"d":{"type":"array","items":{"type":"string"},
    "x-kubernetes-map-type":"atomic"},"e":{"type":"array","x-kubernetes-list-type":"map","x-kubernetes-list-map-keys":["k","k"],
    "items":{"type":"object","properties":{"k":{"type":"string"}},"required":["k"]}},
    "f":{"type":"array","items":{"type":"string","nullable":true},"x-kubernetes-list-type":"set"}}}
    > V10 "/properties/a"
    > V11 "/properties/b"
    > V12 "/properties/c"
    > V13 "/properties/d"
    > V11 "/properties/e"
    > V12 "/properties/f"
a violation after a default | {"type":"object","properties":{"n":{"type":"integer","default":"x"},"z":{}}}
    > V01 "/properties/z"
an empty type | {"type":"object","properties":{"x":{"type":"","x-kubernetes-preserve-unknown-fields":true},"y":{"type":""}}}
    > V01 "/properties/y"
an empty schema | {}
    > V01 ""
additionalProperties and items without a type | {"type":"object","additionalProperties":{"items":{}}}
    > V17 ""
    > V01 "/additionalProperties"
    > V01 "/additionalProperties/items"
metadata of another type | {"type":"object","properties":{"metadata":{"type":"string","minLength":1,"properties":{"generateName":{"type":"string"}}}}}
    > V04 "/properties/metadata"
    > V17 "/properties/metadata"
keywords that are not supported | {"type":"object","definitions":1,"dependencies":1,"deprecated":1,"not":{"discriminator":1,"uniqueItems":true}}
    > V05 ""
    > V05 "/not"
    > V06 "/not"
    > V16 "/not"
each keyword that is not supported
    | {"type":"object","properties":{"$ref":{"type":"string","$ref":1},"definitions":{"type":"string","definitions":1},
    "dependencies":{"type":"string","dependencies":1},"deprecated":{"type":"string","deprecated":1},
    "discriminator":{"type":"string","discriminator":1},"id":{"type":"string","id":1},"patternProperties":{"type":"string","patternProperties":1},
    "readOnly":{"type":"string","readOnly":1},"writeOnly":{"type":"string","writeOnly":1},"xml":{"type":"string","xml":1}}}
    > V05 "/properties/$ref"
    > V05 "/properties/definitions"
    > V05 "/properties/dependencies"
    > V05 "/properties/deprecated"
    > V05 "/properties/discriminator"
    > V05 "/properties/id"
    > V05 "/properties/patternProperties"
    > V05 "/properties/readOnly"
    > V05 "/properties/writeOnly"
    > V05 "/properties/xml"
metadata that is a text | {"type":"object","properties":{"metadata":{"type":"string"}}}
    > V04 "/properties/metadata"
properties beside additionalProperties
    | {"type":"object","properties":{"a":{"type":"object","additionalProperties":true,"properties":{}},
    "b":{"type":"object","uniqueItems":false,"id":"","xml":{}}}}
    > V08 "/properties/a"
    > V17 "/properties/a"
    > V05 "/properties/b"
a default of items | {"type":"object","properties":{"l":{"type":"array","items":{"type":"integer","default":1}}}}
    > V15 "/properties/l/items"
a name with a slash | {"type":"object","properties":{"spec":{"type":"object","properties":{"x/y":{"minimum":1}}}}}
    > V01 "/properties/spec/properties/x~1y"
"#;

// Junctors, and values that are integers or texts.
static BROKEN_JUNCTORS: &str = r#"
9 rows: name | schema
types in a junctor | {"type":"object","properties":{"x":{"type":"integer","anyOf":[{"type":"integer"},{"type":"string"}]}}}
    > V03 "/properties/x/anyOf/0"
    > V03 "/properties/x/anyOf/1"
the int-or-string pattern second in allOf
    | {"type":"object","properties":{"x":{"x-kubernetes-int-or-string":true,"allOf":[{"minimum":1},{"anyOf":[{"type":"integer"},{"type":"string"}]}]}}}
    > V03 "/properties/x/allOf/1/anyOf/0"
    > V03 "/properties/x/allOf/1/anyOf/1"
the int-or-string pattern turned round
    | {"type":"object","properties":{"x":{"x-kubernetes-int-or-string":true,"anyOf":[{"type":"string"},{"type":"integer"}]}}}
    > V03 "/properties/x/anyOf/0"
    > V03 "/properties/x/anyOf/1"
keywords of a value in a junctor | {"type":"object","not":{"description":"","default":1,"nullable":false,"additionalProperties":{"type":"string"}}}
    > V03 "/not"
    > V03 "/not/additionalProperties"
items in a junctor alone | {"type":"object","oneOf":[{"items":{"minimum":1}},{"required":["a"]}]}
    > V16 "/oneOf/0"
    > V02 "/oneOf/0/items"
    > V16 "/oneOf/1"
items in a junctor and outside | {"type":"object","properties":{"s":{"type":"array","items":{"type":"integer"},"not":{"items":{"minimum":1}}}}}
    > V16 "/properties/s"
    > V16 "/properties/s/not"
the int-or-string pattern in allOf, beside a test
    | {"type":"object","properties":{"x":{"x-kubernetes-int-or-string":true,"allOf":[{"minimum":1,"anyOf":[{"type":"integer"},{"type":"string"}]}]}}}
    > V03 "/properties/x/allOf/0/anyOf/0"
    > V03 "/properties/x/allOf/0/anyOf/1"
the int-or-string pattern in allOf of integers
    | {"type":"object","properties":{"x":{"type":"integer","allOf":[{"anyOf":[{"type":"integer"},{"type":"string"}]}]}}}
    > V03 "/properties/x/allOf/0/anyOf/0"
    > V03 "/properties/x/allOf/0/anyOf/1"
the int-or-string pattern in a branch
    | {"type":"object","properties":{"x":{"x-kubernetes-int-or-string":true,"not":{"allOf":[{"anyOf":[{"type":"integer"},{"type":"string"}]}]}}}}
    > V03 "/properties/x/not/allOf/0/anyOf/0"
    > V03 "/properties/x/not/allOf/0/anyOf/1"
"#;

static REFUSED: &str = r#"
2 rows: name | command | schema | second | status
a required name that is a number | crdx check crd.json v1 | {"type":"object","properties":{"a":{"type":"string","required":[1]}}} | - | 3
    ! crdx: crd: S3 "/properties/a/required/0"
five keys of a map list | crdx check crd.json v1 | {"properties":{"a":{"x-kubernetes-list-map-keys":["a","b","c","d","e"]}}} | - | 3
    ! crdx: crd: S4 "/properties/a/x-kubernetes-list-map-keys"
"#;

#[test]
fn sound_schemas(rt: HostRuntime) -> Result<(), Fail> {
    try_tables(&rt, rt.alloc(), &CHECKED, &[SOUND])
}

#[test]
fn broken_schemas(rt: HostRuntime) -> Result<(), Fail> {
    try_tables(&rt, rt.alloc(), &CHECKED, &[BROKEN])
}

#[test]
fn broken_junctors(rt: HostRuntime) -> Result<(), Fail> {
    try_tables(&rt, rt.alloc(), &CHECKED, &[BROKEN_JUNCTORS])
}

#[test]
fn refused_schemas(rt: HostRuntime) -> Result<(), Fail> {
    try_tables(&rt, rt.alloc(), &SchemaRunRow, &[REFUSED])
}
