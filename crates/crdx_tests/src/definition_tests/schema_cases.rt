//! Schemas as they are written, and the rules that they break, beside those of `schema`.
use super::definition_cases::said_of;
use crate::support::report::Report;
use crate::support::rows::{Kind, Row, try_tables};
use jtree::{Numbers, Tree};
use std::alloc::Global;
use std::test::Fail;

static SCHEMAS: &str = r#"
58 rows: name | schema | status | faults
types that there are | {"type":"object","properties":{"a":{"type":"number"},"b":{"type":"boolean"},"c":{"type":""}}} | no | -
another type | {"type":"object","properties":{"a":{"type":"float"}}} | no | C16 /properties/a
null as a type, in a branch | {"type":"object","not":{"anyOf":[{},{"type":"null"}]}} | no | C16 /not/anyOf/1
another type of items and of other members
    | {"type":"object","properties":{"a":{"type":"array","items":{"type":"int"}},"b":{"additionalProperties":{"type":"any"}}}} | no
    | C16 /properties/a/items, C16 /properties/b/additionalProperties
a root of texts | {"type":"string"} | no | C17
a root of another type | {"type":"any"} | no | C16, C17
a root without a type | {"x-kubernetes-preserve-unknown-fields":true} | no | -
a root that takes null | {"type":"object","nullable":true} | no | C17
a root of other members | {"type":"object","additionalProperties":true} | no | C17
a root of no other members | {"type":"object","additionalProperties":false} | no | C17
null for other members | {"type":"object","additionalProperties":null,"nullable":false} | no | -
below the root | {"type":"object","properties":{"a":{"type":"object","nullable":true,"additionalProperties":{}}}} | no | -
with the status | {"type":"object","properties":{"status":{}},"required":["spec"],"description":"d","x-kubernetes-validations":[]} | yes | -
a junctor with it | {"type":"object","allOf":[{}]} | yes | C18
a junctor without it | {"type":"object","allOf":[{}]} | no | -
an empty junctor with it | {"type":"object","oneOf":[]} | yes | C18
a count with it | {"type":"object","minProperties":0} | yes | C18
no junctor but null | {"type":"object","anyOf":null,"nullable":false,"id":""} | yes | -
an unknown keyword with it | {"type":"object","xml":{}} | yes | -
a junctor below the root with it | {"type":"object","properties":{"spec":{"not":{}}}} | yes | -
a root of all that | {"type":"array","nullable":true} | yes | C17, C18, C19
a list without items | {"type":"object","properties":{"a":{"type":"array"}}} | no | C19 /properties/a
with null for them | {"type":"object","properties":{"a":{"type":"array","items":null}}} | no | C19 /properties/a
a list in a branch | {"type":"object","not":{"type":"array"}} | no | -
lists in lists | {"type":"object","properties":{"a":{"type":"array","items":{"type":"array"}}}} | no | C19 /properties/a/items
unknown fields that are not preserved | {"type":"object","x-kubernetes-preserve-unknown-fields":false} | no | C20
in a branch | {"type":"object","allOf":[{"x-kubernetes-preserve-unknown-fields":false}]} | no | C20 /allOf/0
@EMBEDDED | {"type":"object","properties":{"a":{"type":"object","x-kubernetes-embedded-resource":true,"properties":{"b":{}}}}}
a resource in it | @EMBEDDED | no | -
one that preserves | {"type":"object","properties":{"a":{"type":"object","x-kubernetes-embedded-resource":true,
    "x-kubernetes-preserve-unknown-fields":true}}} | no | -
one of no type | {"type":"object","properties":{"a":{"x-kubernetes-embedded-resource":true,"x-kubernetes-preserve-unknown-fields":true}}} | no
    | C21 /properties/a
one of no properties | {"type":"object","properties":{"a":{"type":"object","x-kubernetes-embedded-resource":true,"properties":{}}}} | no
    | C21 /properties/a
one of other members | {"type":"object","properties":{"a":{"type":"object","x-kubernetes-embedded-resource":true,
    "x-kubernetes-preserve-unknown-fields":true,"additionalProperties":{}}}} | no | C21 /properties/a
one in metadata | {"type":"object","properties":{"metadata":{"type":"object","properties":{"name":{"type":"object",
    "x-kubernetes-embedded-resource":true,"x-kubernetes-preserve-unknown-fields":true}}}}} | no | C21 /properties/metadata/properties/name
one in metadata of one | {"type":"object","properties":{"a":{"type":"object","x-kubernetes-embedded-resource":true,"properties":{
    "metadata":{"type":"object","properties":{"b":{"type":"object","x-kubernetes-embedded-resource":true,"properties":{"c":{}}}}}}}}} | no
    | C21 /properties/a/properties/metadata/properties/b
one in a field of that name | {"type":"object","properties":{"a":{"type":"object","properties":{"metadata":{"type":"object",
    "x-kubernetes-embedded-resource":true,"properties":{"c":{}}}}}}} | no | -
one in a branch | {"type":"object","not":{"x-kubernetes-embedded-resource":true}} | no | -
a reference | {"type":"object","properties":{"a":{"$ref":""}}} | no | C22 /properties/a
no reference but null | {"type":"object","properties":{"a":{"$ref":null}}} | no | -
an identifier | {"type":"object","id":"a"} | no | C22
an empty one | {"type":"object","id":"","$schema":""} | no | -
a dialect | {"type":"object","$schema":"http://json-schema.org/schema#"} | no | C22
definitions | {"type":"object","definitions":{"a":{}}} | no | C22
none | {"type":"object","definitions":{},"patternProperties":{}} | no | -
properties by pattern | {"type":"object","not":{"patternProperties":{"^a":{}}}} | no | C22 /not
dependencies, even none | {"type":"object","dependencies":{}} | no | C22
other items | {"type":"object","additionalItems":false} | no | C22
what is in them | {"type":"object","definitions":{"a":{"type":"any"}}} | no | C22
integers or texts that preserve
    | {"type":"object","properties":{"a":{"x-kubernetes-int-or-string":true,"x-kubernetes-preserve-unknown-fields":true}}} | no | C23 /properties/a
that are resources | {"type":"object","properties":{"a":{"x-kubernetes-int-or-string":true,"x-kubernetes-embedded-resource":true}}} | no
    | C21 /properties/a, C23 /properties/a
in a branch | {"type":"object","not":{"x-kubernetes-int-or-string":true,"x-kubernetes-preserve-unknown-fields":true}} | no | -
a kind that is no text | {"type":"object","properties":{"kind":{"type":"integer"},"apiVersion":{"type":"string"}}} | no | C24 /properties/kind
metadata that is no object, as other rules say | {"type":"object","properties":{"metadata":{"type":"string"}}} | no | -
that of an embedded resource | {"type":"object","properties":{"a":{"type":"object","x-kubernetes-embedded-resource":true,"properties":{
    "apiVersion":{},"kind":{"type":"string"},"metadata":{"type":"string"}}}}} | no
    | C24 /properties/a/properties/apiVersion, C24 /properties/a/properties/metadata
a kind of another object | {"type":"object","properties":{"a":{"type":"object","properties":{"kind":{"type":"integer"}}}}} | no | -
a kind in a branch | {"type":"object","anyOf":[{"properties":{"kind":{}}}]} | no | -
metadata in a branch | {"type":"object","anyOf":[{"properties":{"metadata":{}}}]} | no | C24 /anyOf/0/properties/metadata
metadata in a branch below | {"type":"object","properties":{"a":{"type":"object","not":{"not":{"properties":{"metadata":{"type":"object"}}}}}}} | no
    | C24 /properties/a/not/not/properties/metadata
by names, not by pointers | {"type":"object","properties":{"a-b":{"type":"y"},"a":{"items":{"type":"x"}}}} | no
    | C16 /properties/a/items, C16 /properties/a-b
"#;

/// A schema, whether the resource has the subresource `status`, and the faults.
struct SchemaRow;

impl Kind for SchemaRow {
    fn attempt(&self, report: &mut Report, alloc: Global, row: &Row) -> Result<(), Fail> {
        let schema = Tree::from_bytes_with(alloc, row.text("schema").as_bytes(), Numbers::All)?;
        let found = definition::schema_faults(alloc, &schema, row.is("status"))?;
        let said = said_of(alloc, found.as_slice())?;
        report.is_text("faults", said.as_str(), row.text("faults"));
        Ok(())
    }
}

#[test]
fn faults_of_schemas(rt: HostRuntime) -> Result<(), Fail> {
    try_tables(&rt, rt.alloc(), &SchemaRow, &[SCHEMAS])
}
