//! Objects on their way in, by schemas as they are written. The answers are those of the API server's code (apiextensions-apiserver 1.20.2), but
//! that it writes a `creationTimestamp` of null into the metadata of the object.
use crate::support::report::Report;
use crate::support::rows::{Kind, Row, try_tables};
use cluster::{prune, way_in};
use jtree::{Numbers, Tree};
use std::alloc::Global;
use std::test::Fail;

static PRUNED: &str = r#"
15 rows: name | schema | object | pruned | way in
a member that is not declared | {"properties":{"a":{"type":"integer"}}} | {"a":1,"b":2} | {"a":1} | {"a":1}
one that is kept, and below it what is declared | {"x-kubernetes-preserve-unknown-fields":true,"properties":{"a":{"properties":{"b":{}}}}} | {"a":{"b":1,"c":2},"d":{"e":{}}} | {"a":{"b":1},"d":{"e":{}}} | {"a":{"b":1},"d":{"e":{}}}
items of a list that keeps | {"properties":{"a":{"x-kubernetes-preserve-unknown-fields":true,"items":{"properties":{"b":{"properties":{}}}}}}} | {"a":[{"b":{"c":1},"d":2}]} | {"a":[{"b":{},"d":2}]} | {"a":[{"b":{},"d":2}]}
other members by a schema | {"additionalProperties":{"properties":{"b":{}}}} | {"a":{"b":1,"c":2}} | {"a":{"b":1}} | {"a":{"b":1}}
a property before other members | {"properties":{"a":{"properties":{}}},"additionalProperties":{"properties":{"b":{}}}} | {"a":{"b":1},"c":{"b":1,"d":2}} | {"a":{},"c":{"b":1}} | {"a":{},"c":{"b":1}}
other members without a schema | {"properties":{"a":{"additionalProperties":true}}} | {"a":{"b":1,"c":{"d":1},"e":[{"f":1},2]}} | {"a":{"b":1,"c":{},"e":[{},2]}} | {"a":{"b":1,"c":{},"e":[{},2]}}
items without a schema | {"properties":{"a":{"type":"array"}}} | {"a":[1,{"b":1},[{"c":1}]]} | {"a":[1,{},[{}]]} | {"a":[1,{},[{}]]}
a value of another type | {"properties":{"a":{"type":"string","properties":{"b":{}}}}} | {"a":{"b":1,"c":2}} | {"a":{"b":1}} | {"a":{"b":1}}
the envelope | {"properties":{}} | {"apiVersion":"v1","kind":"K","metadata":{"name":"n"},"spec":{}} | {"apiVersion":"v1","kind":"K","metadata":{"name":"n"}} | {"apiVersion":"v1","kind":"K","metadata":{"name":"n"}}
an embedded resource | {"properties":{"a":{"x-kubernetes-embedded-resource":true,"properties":{}}}} | {"a":{"apiVersion":"v1","kind":"K","metadata":{"name":"n","z":1},"spec":{}}} | {"a":{"apiVersion":"v1","kind":"K","metadata":{"name":"n","z":1}}} | {"a":{"apiVersion":"v1","kind":"K","metadata":{"name":"n"}}}
a property of metadata | {"properties":{"metadata":{"properties":{"name":{"default":"d"}}}}} | {"metadata":{"labels":{"a":"b"},"name":null}} | {"metadata":{"labels":{"a":"b"},"name":null}} | {"metadata":{"labels":{"a":"b"},"name":"d"}}
metadata of no resource | {"properties":{"a":{"properties":{"metadata":{"properties":{"z":{}}}}}}} | {"a":{"metadata":{"name":"n","z":1}}} | {"a":{"metadata":{"z":1}}} | {"a":{"metadata":{"z":1}}}
fields of metadata without a value | {} | {"metadata":{"name":"","labels":{},"finalizers":[],"generation":0,"uid":null,"deletionGracePeriodSeconds":0}} | {"metadata":{"deletionGracePeriodSeconds":0,"finalizers":[],"generation":0,"labels":{},"name":"","uid":null}} | {"metadata":{"deletionGracePeriodSeconds":0}}
metadata that is null | {"properties":{"metadata":{"type":"object"}}} | {"metadata":null} | {"metadata":null} | {"metadata":{}}
entries of metadata | {} | {"metadata":{"ownerReferences":[{"apiVersion":"v1","controller":null,"kind":"K","name":"n","uid":"u","z":1}],"managedFields":[{"manager":"","operation":"Apply","z":1}]}} | {"metadata":{"managedFields":[{"manager":"","operation":"Apply","z":1}],"ownerReferences":[{"apiVersion":"v1","controller":null,"kind":"K","name":"n","uid":"u","z":1}]}} | {"metadata":{"managedFields":[{"operation":"Apply"}],"ownerReferences":[{"apiVersion":"v1","kind":"K","name":"n","uid":"u"}]}}
"#;

static FILLED: &str = r#"
16 rows: name | schema | object | pruned | way in
a null that has no place | {"properties":{"a":{"type":"string"}}} | {"a":null} | {"a":null} | {}
a null that may be | {"properties":{"a":{"nullable":true,"default":1}}} | {"a":null} | {"a":null} | {"a":null}
a null in place of a default | {"properties":{"a":{"default":1}}} | {"a":null} | {"a":null} | {"a":1}
null as a default is none | {"properties":{"a":{"default":null}}} | {"a":null} | {"a":null} | {}
a null that is kept, and not declared | {"x-kubernetes-preserve-unknown-fields":true} | {"a":null,"b":{"c":null}} | {"a":null,"b":{"c":null}} | {"a":null,"b":{"c":null}}
nulls of a map | {"additionalProperties":{"type":"string"}} | {"a":null,"b":"c"} | {"a":null,"b":"c"} | {"b":"c"}
nulls of a map with a default | {"additionalProperties":{"default":"d"}} | {"a":null} | {"a":null} | {"a":"d"}
nulls of a map without a schema | {"additionalProperties":true} | {"a":null} | {"a":null} | {"a":null}
null items | {"properties":{"a":{"items":{"type":"string"}}}} | {"a":[null,"b"]} | {"a":[null,"b"]} | {"a":[null,"b"]}
null items with a default | {"properties":{"a":{"items":{"default":"d"}}}} | {"a":[null,"b"]} | {"a":[null,"b"]} | {"a":["d","b"]}
null items that may be | {"properties":{"a":{"items":{"nullable":true,"default":"d"}}}} | {"a":[null]} | {"a":[null]} | {"a":[null]}
a default that is absent | {"properties":{"a":{"default":{"b":1}}}} | {} | {} | {"a":{"b":1}}
a default below one | {"properties":{"a":{"default":{},"properties":{"b":{"default":2},"c":{"properties":{"d":{"default":3}}}}}}} | {} | {} | {"a":{"b":2}}
a default is not pruned | {"properties":{"a":{"default":{"z":1},"properties":{}}}} | {} | {} | {"a":{"z":1}}
defaults in items and members | {"properties":{"a":{"items":{"properties":{"b":{"default":1}}}}},"additionalProperties":{"properties":{"c":{"default":2}}}} | {"a":[{}],"d":{}} | {"a":[{}],"d":{}} | {"a":[{"b":1}],"d":{"c":2}}
a property in the order of names | {"properties":{"a":{"default":1},"c":{"default":2}}} | {"b":0,"d":1} | {} | {"a":1,"c":2}
"#;

/// A schema and an object, pruned and on its way in.
struct WayRow;

impl Kind for WayRow {
    fn attempt(&self, report: &mut Report, alloc: Global, row: &Row) -> Result<(), Fail> {
        let schema = Tree::from_bytes_with(alloc, row.text("schema").as_bytes(), Numbers::All)?;
        let object = Tree::from_bytes_with(alloc, row.text("object").as_bytes(), Numbers::All)?;
        let made = way_in(alloc, &schema, &object)?.to_text(alloc)?;
        let mut pruned = object;
        prune(&schema, &mut pruned);
        let pruned = pruned.to_text(alloc)?;
        report.is_text("pruned", pruned.as_str(), row.text("pruned"));
        report.is_text("way in", made.as_str(), row.text("way in"));
        Ok(())
    }
}

#[test]
fn ways_in(rt: HostRuntime) -> Result<(), Fail> {
    try_tables(&rt, rt.alloc(), &WayRow, &[PRUNED, FILLED])
}
