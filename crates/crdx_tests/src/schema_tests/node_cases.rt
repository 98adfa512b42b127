//! The node of a schema, or why it has none.
use crate::support::harness::{crd_of, is_said, object_with_field};
use crate::support::nodes::{first_field, node_text};
use crate::support::report::Report;
use crate::support::rows::{Kind, Row, all_rows};
use schema::{Shape, shape};
use std::alloc::Global;
use std::test::Fail;

fn shape_said(alloc: Global, shape: &Shape, is_field: bool) -> Result<String, Fail> {
    if is_field {
        node_text(alloc, first_field(shape.root())?)
    } else {
        node_text(alloc, shape.root())
    }
}

// The text of the node of the root, or of its first field; or the refusal.
fn said(alloc: Global, schema: &str, is_field: bool) -> Result<String, Fail> {
    let crd = crd_of(alloc, schema)??;
    let shape = shape(alloc, &crd.raw);
    drop(crd);
    let said = match &shape {
        Ok(shape) => shape_said(alloc, shape, is_field),
        Err(refused) => refused.to_string(alloc).map_err(Fail::from),
    };
    drop(shape);
    said
}

static NODES: &str = r#"
16 rows: name | schema | wanted
an integer | {"type":"integer"} | integer
a description, and null | {"type":"boolean","nullable":true,"description":"on or off"} | boolean nullable description=on or off
int-or-string | {"x-kubernetes-int-or-string":true} | int-or-string
an object | {"type":"object"} | object
fields, one required and with a default
    | {"type":"object","properties":{"b":{"type":"string","default":"y"},"a":{"type":"integer"}},"required":["b","b"]}
    | object a=integer b=string required default="y"
a default of an object | {"type":"object","properties":{"a":{"type":"object","default":{"z":[1]},"properties":{"kind":{"type":"string"}}}}}
    | object a=object default={"z":[1]}
an object with its markers
    | {"type":"object","minProperties":1,"maxProperties":2,"x-kubernetes-map-type":"atomic","x-kubernetes-preserve-unknown-fields":true}
    | object preserves atomic least=1 most=2
a map | {"type":"object","additionalProperties":{"type":"string"},"x-kubernetes-map-type":"granular","maxProperties":3} | map of=string most=3
a map of lists | {"type":"object","additionalProperties":{"type":"array","items":{"type":"integer"}},"x-kubernetes-map-type":"atomic"}
    | map of=list atomic
a map list
    | {"type":"array","items":{"type":"object","properties":{"k":{"type":"string"},"l":{"type":"integer"}},"required":["k","l"]},
    "x-kubernetes-list-type":"map","x-kubernetes-list-map-keys":["l","k"],"minItems":0,"maxItems":3}
    | list of=object map key=l key=k least=0 most=3
a set | {"type":"array","items":{"type":"string"},"x-kubernetes-list-type":"set"} | list of=string set
an atomic list | {"type":"array","items":{"x-kubernetes-preserve-unknown-fields":true},"x-kubernetes-list-type":"atomic"} | list of=open
any value | {"x-kubernetes-preserve-unknown-fields":true,"nullable":true} | open nullable
any value with an empty type | {"type":"","x-kubernetes-preserve-unknown-fields":true} | open
a number | {"type":"number"} | violations
no type | {} | violations
"#;

static ROOTS: &str = r#"
6 rows: name | schema | wanted
an envelope
    | {"type":"object","required":["kind","spec"],"properties":{"apiVersion":{"type":"string"},"kind":{"type":"string"},"metadata":{"type":"object"},
    "spec":{"type":"object"},"status":{"type":"boolean"}}} | object spec=object required status=boolean
a required envelope, and a field of the same name below
    | {"type":"object","required":["metadata"],"properties":{"spec":{"type":"object","properties":{"kind":{"type":"string"}}}}} | object spec=object
a description and markers | {"type":"object","description":"a widget","x-kubernetes-map-type":"atomic","x-kubernetes-preserve-unknown-fields":true}
    | object description=a widget preserves atomic
an integer | {"type":"integer"} | violations
a violation after a default | {"type":"object","properties":{"x":{"type":"integer","default":1},"y":{"type":"array"}}} | violations
a violation in the envelope | {"type":"object","properties":{"kind":{"type":"string","default":"x"}}} | violations
"#;

/// The schema of a field, and its node or its refusal.
struct NodeRow;

impl Kind for NodeRow {
    fn attempt(&self, report: &mut Report, alloc: Global, row: &Row) -> Result<(), Fail> {
        let root = object_with_field(alloc, row.text("schema"))?;
        let found = said(alloc, root.as_str(), true);
        is_said(report, "the node", found, row.text("wanted"))
    }
}

/// A schema, and the node of the root or its refusal.
struct RootRow;

impl Kind for RootRow {
    fn attempt(&self, report: &mut Report, alloc: Global, row: &Row) -> Result<(), Fail> {
        let found = said(alloc, row.text("schema"), false);
        is_said(report, "the node", found, row.text("wanted"))
    }
}

#[test]
fn nodes(rt: HostRuntime) -> Result<(), Fail> {
    schema::laws::nodes_are_unique();
    let mut report = Report::new(rt.alloc());
    all_rows(&mut report, rt.alloc(), &NodeRow, &[NODES]);
    all_rows(&mut report, rt.alloc(), &RootRow, &[ROOTS]);
    report.end(&rt)
}
