//! Definitions that are read or refused, and the forms of the keywords of their schemas.
use crate::support::harness::{SchemaSaidRow, is_said, read};
use crate::support::report::Report;
use crate::support::rows::{Kind, Row, try_tables};
use schema::Crd;
use std::alloc::Global;
use std::test::Fail;

// What is wanted: the group, the kind, the version and the schema that are read, or the fault.
static DEFINITIONS: &str = r#"
13 rows: name | document | wanted
the second of two versions
    | {"apiVersion":"apiextensions.k8s.io/v1","kind":"CustomResourceDefinition","spec":{"group":"example.com","names":{"kind":"Widget"},
    "versions":[{"name":"v0"},{"name":"v1","schema":{"openAPIV3Schema":{"type":"object"}}}]}}
    | example.com Widget v1 {"type":"object"}
another apiVersion
    | {"apiVersion":"apiextensions.k8s.io/v1beta1","kind":"CustomResourceDefinition","spec":{"group":"example.com","names":{"kind":"Widget"},
    "versions":[{"name":"v1","schema":{"openAPIV3Schema":{}}}]}} | S1
another kind
    | {"apiVersion":"apiextensions.k8s.io/v1","kind":"CustomResource","spec":{"group":"example.com","names":{"kind":"Widget"},
    "versions":[{"name":"v1","schema":{"openAPIV3Schema":{}}}]}} | S1
a name that occurs twice
    | {"apiVersion":"apiextensions.k8s.io/v1","kind":"CustomResourceDefinition","spec":{"group":"example.com","names":{"kind":"Widget"},
    "versions":[{"name":"v1","schema":{"openAPIV3Schema":{}}},{"name":"v0"},{"name":"v1"}]}} | S1
a version without a name
    | {"apiVersion":"apiextensions.k8s.io/v1","kind":"CustomResourceDefinition","spec":{"group":"example.com","names":{"kind":"Widget"},
    "versions":[{"name":"v1","schema":{"openAPIV3Schema":{}}},{"title":"v2"}]}} | S1
no group
    | {"apiVersion":"apiextensions.k8s.io/v1","kind":"CustomResourceDefinition","spec":{"names":{"kind":"Widget"},
    "versions":[{"name":"v1","schema":{"openAPIV3Schema":{}}}]}} | S1
an empty group
    | {"apiVersion":"apiextensions.k8s.io/v1","kind":"CustomResourceDefinition","spec":{"group":"","names":{"kind":"Widget"},
    "versions":[{"name":"v1","schema":{"openAPIV3Schema":{}}}]}} | S1
an empty kind
    | {"apiVersion":"apiextensions.k8s.io/v1","kind":"CustomResourceDefinition","spec":{"group":"example.com","names":{"kind":""},
    "versions":[{"name":"v1","schema":{"openAPIV3Schema":{}}}]}} | S1
no such version
    | {"apiVersion":"apiextensions.k8s.io/v1","kind":"CustomResourceDefinition","spec":{"group":"example.com","names":{"kind":"Widget"},
    "versions":[{"name":"v2","schema":{"openAPIV3Schema":{}}}]}} | S2
no such version, and a name that occurs twice
    | {"apiVersion":"apiextensions.k8s.io/v1","kind":"CustomResourceDefinition","spec":{"group":"example.com","names":{"kind":"Widget"},
    "versions":[{"name":"v2"},{"name":"v2"}]}} | S1
a schema that is a list
    | {"apiVersion":"apiextensions.k8s.io/v1","kind":"CustomResourceDefinition","spec":{"group":"example.com","names":{"kind":"Widget"},
    "versions":[{"name":"v1","schema":{"openAPIV3Schema":[]}}]}} | S1
no schema
    | {"apiVersion":"apiextensions.k8s.io/v1","kind":"CustomResourceDefinition","spec":{"group":"example.com","names":{"kind":"Widget"},
    "versions":[{"name":"v1"}]}} | S1
a list | [] | S1
"#;

fn crd_text(alloc: Global, crd: &Crd) -> Result<String, Fail> {
    let schema = crd.raw.tree().to_text(alloc)?;
    let group = crd.group.as_str();
    let kind = crd.kind.as_str();
    let version = crd.version.as_str();
    Ok(format!(in alloc; "{group} {kind} {version} {schema}")?)
}

fn said(alloc: Global, document: &str) -> Result<String, Fail> {
    match read(alloc, document)? {
        Ok(crd) => {
            let text = crd_text(alloc, &crd);
            drop(crd);
            text
        }
        Err(fault) => Ok(fault.to_string(alloc)?),
    }
}

/// A document, and what is read of it.
struct Definition;

impl Kind for Definition {
    fn attempt(&self, report: &mut Report, alloc: Global, row: &Row) -> Result<(), Fail> {
        let found = said(alloc, row.text("document"));
        is_said(report, "what is read", found, row.text("wanted"))
    }
}

#[test]
fn definitions(rt: HostRuntime) -> Result<(), Fail> {
    try_tables(&rt, rt.alloc(), &Definition, &[DEFINITIONS])
}

// Keywords that have their form.
static FORMS: &str = r#"
6 rows: name | schema | wanted
texts | {"type":"x","description":"x","title":"x","format":"x","x-kubernetes-list-type":"x","x-kubernetes-map-type":"x"} | read
booleans
    | {"nullable":true,"uniqueItems":false,"exclusiveMinimum":true,"exclusiveMaximum":true,"x-kubernetes-int-or-string":true,
    "x-kubernetes-preserve-unknown-fields":true} | read
schemas | {"properties":{},"additionalProperties":true,"items":{},"not":{},"allOf":[{}],"anyOf":[{}],"oneOf":[{}]} | read
lists and numbers | {"required":[],"x-kubernetes-list-map-keys":["a"],"enum":[],"minimum":-1,"maximum":-1} | read
counts | {"minLength":0,"maxLength":0,"minItems":0,"maxItems":0,"minProperties":0,"maxProperties":0} | read
what is in values and unknown keywords | {"additionalProperties":{},"enum":[1,null,{"type":1}],"example":{"type":1},"x":[{"items":1}]} | read
"#;

// A text or a boolean that has not its form.
static TEXTS: &str = r#"
12 rows: name | schema | wanted
type | {"type":1} | S3 /type
description | {"description":null} | S3 /description
title | {"title":[]} | S3 /title
format | {"format":{}} | S3 /format
x-kubernetes-list-type | {"x-kubernetes-list-type":true} | S3 /x-kubernetes-list-type
x-kubernetes-map-type | {"x-kubernetes-map-type":1} | S3 /x-kubernetes-map-type
nullable | {"nullable":"true"} | S3 /nullable
uniqueItems | {"uniqueItems":1} | S3 /uniqueItems
exclusiveMinimum | {"exclusiveMinimum":1} | S3 /exclusiveMinimum
exclusiveMaximum | {"exclusiveMaximum":1} | S3 /exclusiveMaximum
x-kubernetes-int-or-string | {"x-kubernetes-int-or-string":"x"} | S3 /x-kubernetes-int-or-string
x-kubernetes-preserve-unknown-fields | {"x-kubernetes-preserve-unknown-fields":null} | S3 /x-kubernetes-preserve-unknown-fields
"#;

// Schemas and lists that have not their form.
static SCHEMAS: &str = r#"
12 rows: name | schema | wanted
properties | {"properties":[]} | S3 /properties
a property | {"properties":{"a":1}} | S3 /properties/a
additionalProperties | {"additionalProperties":1} | S3 /additionalProperties
items | {"items":[{}]} | S3 /items
not | {"not":true} | S3 /not
allOf | {"allOf":{}} | S3 /allOf
anyOf, which is empty | {"anyOf":[]} | S3 /anyOf
an entry of oneOf | {"oneOf":[{},1]} | S3 /oneOf/1
required | {"required":"a"} | S3 /required
an entry of required | {"required":["a",1]} | S3 /required/1
an entry of x-kubernetes-list-map-keys | {"x-kubernetes-list-map-keys":[null]} | S3 /x-kubernetes-list-map-keys/0
enum | {"enum":{}} | S3 /enum
"#;

// A number that has not its form.
static NUMBERS: &str = r#"
8 rows: name | schema | wanted
minimum | {"minimum":"1"} | S3 /minimum
maximum | {"maximum":true} | S3 /maximum
minLength | {"minLength":-1} | S3 /minLength
maxLength | {"maxLength":"1"} | S3 /maxLength
minItems | {"minItems":-1} | S3 /minItems
maxItems | {"maxItems":null} | S3 /maxItems
minProperties | {"minProperties":-1} | S3 /minProperties
maxProperties | {"maxProperties":{}} | S3 /maxProperties
"#;

// The first value that has not its form.
static FIRST_BREAKS: &str = r#"
6 rows: name | schema | wanted
enum, far below | {"not":{"anyOf":[{"items":{"enum":1}}]}} | S3 /not/anyOf/0/items/enum
allOf before items | {"items":1,"allOf":[{"type":1}]} | S3 /allOf/0/type
an entry of allOf before items | {"items":{"type":1},"allOf":[1]} | S3 /allOf/0
a property within a property before its neighbor | {"properties":{"a-b":1,"a":{"properties":{"b":{"type":1}}}}} | S3 /properties/a/properties/b/type
a name with a slash and a tilde | {"properties":{"a/~":{"type":1}}} | S3 /properties/a~1~0/type
an entry of required, below values | {"additionalProperties":{"additionalProperties":{"required":[["x"]]}}}
    | S3 /additionalProperties/additionalProperties/required/0
"#;

#[test]
fn forms(rt: HostRuntime) -> Result<(), Fail> {
    try_tables(
        &rt,
        rt.alloc(),
        &SchemaSaidRow,
        &[FORMS, TEXTS, SCHEMAS, NUMBERS, FIRST_BREAKS],
    )
}
