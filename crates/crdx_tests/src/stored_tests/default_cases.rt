//! Defaults: where `check` says that one is misplaced (V15), and where that one is bad (V14).
use crate::support::harness::CHECKED;
use crate::support::rows::try_tables;
use std::test::Fail;

static MISPLACED: &str = r#"
8 rows: name | schema | out
a default of the root | {"type":"object","default":{}} | V15 ""
a default of an item | {"type":"object","properties":{"x":{"type":"array","items":{"type":"integer","default":1}}}} | V15 "/properties/x/items"
a default of the values of a map | {"type":"object","properties":{"x":{"type":"object","additionalProperties":{"type":"integer","default":1}}}}
    | V15 "/properties/x/additionalProperties"
defaults of the envelope | {"type":"object","properties":{"apiVersion":{"type":"string","default":"x"},"kind":{"type":"string","default":"x"}}}
    | V15 "/properties/apiVersion"
    > V15 "/properties/kind"
a default below the envelope | {"type":"object","properties":{"metadata":{"type":"object","properties":{"name":{"type":"string","default":"x"}}}}}
    | V15 "/properties/metadata/properties/name"
a default of metadata | {"type":"object","properties":{"metadata":{"type":"object","default":{}}}} | V04 "/properties/metadata"
    > V15 "/properties/metadata"
a default in a branch | {"type":"object","properties":{"x":{"type":"integer","not":{"default":1}}}} | V03 "/properties/x/not"
a misplaced default beside a bad one, which is not judged | {"type":"object","default":{},"properties":{"n":{"type":"integer","default":"x"}}}
    | V15 ""
"#;

// Defaults in their places.
static JUDGED: &str = r#"
16 rows: name | schema | out
a default of its kind | {"type":"object","properties":{"n":{"type":"integer","default":7}}} | structural
a default of another kind | {"type":"object","properties":{"n":{"type":"integer","default":"x"}}} | V14 "/properties/n"
a null where it is accepted and where it is not, at a name with a slash
    | {"type":"object","properties":{"x":{"type":"string","nullable":true,"default":null},"x/y":{"type":"string","default":null}}}
    | V14 "/properties/x~1y"
a default that fails a junctor | {"type":"object","properties":{"n":{"type":"integer","default":2,"oneOf":[{"minimum":1},{"maximum":3}]}}}
    | V14 "/properties/n"
a default above another | @TWO_DEFAULTS | structural
a default with a member that is not declared
    | {"type":"object","properties":{"spec":{"type":"object","default":{"z":1},"properties":{"f":{"type":"integer","default":7}}}}}
    | V14 "/properties/spec"
members that are not declared, and are kept, above one that is pruned
    | {"type":"object","properties":{"o":{"type":"object","x-kubernetes-preserve-unknown-fields":true,"default":{"z":null}},
    "p":{"type":"object","x-kubernetes-preserve-unknown-fields":true,"default":{"a":{"z":1}},"properties":{"a":{"type":"object"}}}}}
    | V14 "/properties/p"
a default that is valid once it is completed
    | {"type":"object","properties":{"spec":{"type":"object","default":{},"required":["f"],"properties":{"f":{"type":"integer","default":7}}}}}
    | structural
a default that is valid until it is completed
    | {"type":"object","properties":{"spec":{"type":"object","default":{},"maxProperties":0,"properties":{"f":{"type":"integer","default":7}}}}}
    | V14 "/properties/spec"
items that repeat one another once they are completed
    | {"type":"object","properties":{"m":{"type":"array","x-kubernetes-list-type":"map","x-kubernetes-list-map-keys":["k"],"default":[{},{"k":"x"}],
    "items":{"type":"object","properties":{"k":{"type":"string","default":"x"}}}}}} | V14 "/properties/m"
a default that is completed by a bad one
    | {"type":"object","properties":{"spec":{"type":"object","default":{},"properties":{"f":{"type":"integer","maximum":6,"default":7}}}}}
    | V14 "/properties/spec"
    > V14 "/properties/spec/properties/f"
a default that leaves no place for a bad one
    | {"type":"object","properties":{"spec":{"type":"object","default":{"f":1},"properties":{"f":{"type":"integer","maximum":6,"default":7}}}}}
    | V14 "/properties/spec/properties/f"
below the values of a map, and below items
    | {"type":"object","properties":{"l":{"type":"array","items":{"type":"object","properties":{"kind":{"type":"string","default":"x"},
    "name":{"type":"string","default":1}}}},"m":{"type":"object","additionalProperties":{"type":"object",
    "properties":{"b":{"type":"boolean","default":"true"}}}}}} | V14 "/properties/l/items/properties/name"
    > V14 "/properties/m/additionalProperties/properties/b"
places in path order
    | {"type":"object","properties":{"spec-b":{"type":"string","default":1},"spec":{"type":"object","properties":{"z":{"type":"string","default":1}}}}}
    | V14 "/properties/spec/properties/z"
    > V14 "/properties/spec-b"
a bad default of a key of a map list
    | {"type":"object","properties":{"m":{"type":"array","x-kubernetes-list-type":"map","x-kubernetes-list-map-keys":["k","l"],
    "items":{"type":"object","properties":{"k":{"type":"string","default":"x"},"l":{"type":"integer","default":"x"}}}}}}
    | V14 "/properties/m/items/properties/l"
a bad default beside a keyword outside the profile | {"type":"object","properties":{"n":{"type":"integer","pattern":"x","default":"x"}}}
    | V17 "/properties/n"
"#;

#[test]
fn judged(rt: HostRuntime) -> Result<(), Fail> {
    try_tables(&rt, rt.alloc(), &CHECKED, &[MISPLACED, JUDGED])
}
