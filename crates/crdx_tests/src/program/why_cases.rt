//! `check --why`: the reasons below the lines of rules.
use crate::support::harness::CheckedRow;
use crate::support::rows::try_tables;
use std::test::Fail;

static JUDGED: &str = r#"
8 rows: name | schema
a schema that breaks no rule | {"type":"object","properties":{"a":{"type":"string"}}}
    > structural
a pattern | {"type":"object","properties":{"a":{"type":"string","pattern":"x"}}}
    > V17 "/properties/a"
    >     "pattern": NotOfScalars
a rule that is broken in one way | {"type":"object","properties":{"a":{}}}
    > V01 "/properties/a"
a default that is not valid | {"type":"object","properties":{"a":{"type":"integer","default":"x"}}}
    > V14 "/properties/a"
rules with reasons and without, and a rule with two
    | {"type":"object","properties":{"a":{"type":"integer","multipleOf":2,"pattern":"x"},"b":{},"c":{"type":"string","id":"c"}}}
    > V17 "/properties/a"
    >     "multipleOf": NotOfScalars
    >     "pattern": NotOfScalars
    > V01 "/properties/b"
    > V05 "/properties/c"
    >     "id": NotSupported
a key with three faults
    | {"type":"object","properties":{"x":{"type":"array","x-kubernetes-list-type":"map","x-kubernetes-list-map-keys":["k"],
    "items":{"type":"object","properties":{"k":{"type":"object","nullable":true}}}}}}
    > V11 "/properties/x"
    >     "x-kubernetes-list-map-keys": KeyNotScalar
    >     "x-kubernetes-list-map-keys": NullableKey
    >     "x-kubernetes-list-map-keys": OptionalKey
two rules at one place | {"type":"object","properties":{"x":{"type":"integer","anyOf":[{"type":"integer","required":["a"]}]}}}
    > V03 "/properties/x/anyOf/0"
    >     "type": TypeInBranch
    > V16 "/properties/x/anyOf/0"
    >     "required": NotInScalarBranches
a keyword with a quote | {"type":"object","properties":{"a":{"type":"string","x\"y":1}}}
    > V17 "/properties/a"
    >     "x\"y": NotOfScalars
"#;

#[test]
fn reasons(rt: HostRuntime) -> Result<(), Fail> {
    try_tables(
        &rt,
        rt.alloc(),
        &CheckedRow {
            command: "crdx check crd.json v1 --why",
        },
        &[JUDGED],
    )
}
