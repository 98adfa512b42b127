//! `prune` and `default`: what they print of an object.
use crate::support::harness::{SchemaRun, try_schema_run};
use crate::support::report::Report;
use crate::support::rows::{Kind, Row, try_tables};
use std::alloc::Global;
use std::test::Fail;

static NULLS_AND_DEFAULTS: &str = r#"
7 rows: name | schema | object | pruned | completed
nulls under names with and without a default
    | {"type":"object","properties":{"spec":{"type":"object","properties":{"foo":{"type":"string","default":"default"},
    "bar":{"type":"string","nullable":true},"baz":{"type":"string"}}}}}
    | {"spec":{"foo":null,"bar":null,"baz":null}} | {"spec":{"bar":null,"baz":null,"foo":null}} | {"spec":{"bar":null,"foo":"default"}}
members that are kept and others
    | {"type":"object","properties":{"spec":{"type":"object","x-kubernetes-preserve-unknown-fields":true,
    "properties":{"a":{"type":"object","properties":{"b":{"type":"integer"}}}}}}}
    | {"kind":"K","spec":{"a":{"b":1,"z":2},"u":{"q":null}},"w":1} | {"kind":"K","spec":{"a":{"b":1},"u":{"q":null}}}
    | {"kind":"K","spec":{"a":{"b":1},"u":{"q":null}}}
a null that is kept, and one that goes
    | {"type":"object","properties":{"spec":{"type":"object","x-kubernetes-preserve-unknown-fields":true,
    "properties":{"a":{"type":"object","properties":{"b":{"type":"integer"}}}}}}}
    | {"spec":{"a":null,"u":null}} | {"spec":{"a":null,"u":null}} | {"spec":{"u":null}}
a default below a default | @TWO_DEFAULTS | {} | {} | {"spec":{"f":7}}
a null in place of an object with a default | @TWO_DEFAULTS | {"spec":null} | {"spec":null} | {"spec":{"f":7}}
an empty object with an envelope | @TWO_DEFAULTS | {"apiVersion":"x/v1","spec":{}} | {"apiVersion":"x/v1","spec":{}}
    | {"apiVersion":"x/v1","spec":{"f":7}}
a null in a map | {"type":"object","properties":{"m":{"type":"object","additionalProperties":{"type":"string"}}}} | {"m":{"a":null,"b":"x"}}
    | {"m":{"a":null,"b":"x"}} | {"m":{"b":"x"}}
"#;

static OTHER_OBJECTS: &str = r#"
8 rows: name | schema | object | pruned | completed
a null in a list | {"type":"object","properties":{"l":{"type":"array","items":{"type":"string"}}}} | {"l":[null]} | {"l":[null]} | {"l":[null]}
an envelope of other values
    | {"type":"object","properties":{"kind":{"type":"string"},"metadata":{"type":"object","properties":{"name":{"type":"string"}}},
    "z":{"type":"integer","default":0}}}
    | {"apiVersion":[{"z":null}],"kind":null,"metadata":{"labels":{"a":null}},"spec":1}
    | {"apiVersion":[{"z":null}],"kind":null,"metadata":{"labels":{"a":null}}}
    | {"apiVersion":[{"z":null}],"kind":null,"metadata":{"labels":{"a":null}},"z":0}
names of the envelope below the root | {"type":"object","properties":{"spec":{"type":"object","properties":{"kind":{"type":"string","default":"x"}}}}}
    | {"metadata":{},"spec":{"apiVersion":"v1","metadata":{}}} | {"metadata":{},"spec":{}} | {"metadata":{},"spec":{"kind":"x"}}
defaults three deep, below a map and below items
    | {"type":"object","properties":{"l":{"type":"array","items":{"type":"object","properties":{"f":{"type":"boolean","default":false}}}},
    "m":{"type":"object","additionalProperties":{"type":"object","properties":{"a":{"type":"object","default":{},
    "properties":{"b":{"type":"object","default":{},"properties":{"c":{"type":"integer","default":1}}}}}}}}}}
    | {"l":[{"z":1},7],"m":{"p":{}}} | {"l":[{},7],"m":{"p":{}}} | {"l":[{"f":false},7],"m":{"p":{"a":{"b":{"c":1}}}}}
values that are not valid
    | {"type":"object","required":["r"],"properties":{"n":{"type":"integer"},"o":{"type":"object","properties":{"a":{"type":"integer","default":1}}},
    "r":{"type":"integer"}}} | {"n":"x","o":[{"z":null}]} | {"n":"x","o":[{"z":null}]}
    | {"n":"x","o":[{"z":null}]}
a list in place of the object | {"type":"object","properties":{"a":{"type":"integer","default":1}}} | [{"kind":"K","z":null}]
    | [{"kind":"K","z":null}] | [{"kind":"K","z":null}]
a null in place of the object | {"type":"object","properties":{"a":{"type":"integer","default":1}}} | null | null | null
white space, names out of order, and texts with escapes | {"type":"object","properties":{"a":{"type":"string"},"b":{"type":"integer"}}}
    | ␠{ "b" : 2 , "a" : "\/\u00e9\u001f\n" }␠ | {"a":"/é\u001f\n","b":2} | {"a":"/é\u001f\n","b":2}
"#;

/// An object by a schema, and what `prune` and `default` print of it.
struct PrintedForms;

impl Kind for PrintedForms {
    fn attempt(&self, report: &mut Report, alloc: Global, row: &Row) -> Result<(), Fail> {
        for (command, printed) in [
            ("crdx prune crd.json v1", row.text("pruned")),
            ("crdx default crd.json v1", row.text("completed")),
        ] {
            let out = format!(in alloc; "{printed}\n")?;
            let run = SchemaRun {
                command,
                schema: row.text("schema"),
                second: row.text("object"),
                out: out.as_str(),
                err: "",
                status: 0,
            };
            try_schema_run(report, alloc, &run)?;
        }
        Ok(())
    }
}

#[test]
fn printed(rt: HostRuntime) -> Result<(), Fail> {
    try_tables(
        &rt,
        rt.alloc(),
        &PrintedForms,
        &[NULLS_AND_DEFAULTS, OTHER_OBJECTS],
    )
}
