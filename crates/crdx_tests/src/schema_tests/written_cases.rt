//! Schemas with the forms that a cluster reads.
use crate::support::harness::{definition, fault_text, is_said};
use crate::support::report::Report;
use crate::support::rows::{Kind, Row, try_tables};
use jtree::{Numbers, Tree};
use schema::{Limits, Refusal, read_written};
use std::alloc::Global;
use std::test::Fail;

// What other keywords and numbers are read, and the first value that has not its form.
static WRITTEN: &str = r#"
15 rows: name | schema | wanted
fractions | {"minimum":0.5,"maximum":2.5,"multipleOf":0.1} | read
no branches | {"allOf":[],"anyOf":[],"oneOf":[]} | read
other keywords
    | {"pattern":"x","id":"x","$ref":"x","$schema":"x","x-kubernetes-embedded-resource":true,"patternProperties":{"x":{}},"definitions":{},
    "additionalProperties":false} | read
what is in values | {"enum":[{"pattern":1}],"default":{"minimum":"1"},"example":{"type":1}} | read
multipleOf | {"multipleOf":"2"} | S3 /multipleOf
maximum | {"maximum":"1"} | S3 /maximum
a count that is a fraction | {"minLength":0.5} | S3 /minLength
pattern | {"pattern":5} | S3 /pattern
x-kubernetes-embedded-resource | {"x-kubernetes-embedded-resource":"true"} | S3 /x-kubernetes-embedded-resource
an entry of oneOf | {"oneOf":[{},1]} | S3 /oneOf/1
a property of a branch | {"anyOf":[{"properties":{"a":{"pattern":5}}}]} | S3 /anyOf/0/properties/a/pattern
a schema below definitions | {"definitions":{"a":{"patternProperties":{"x":1}}}} | S3 /definitions/a/patternProperties/x
a schema of values | {"additionalProperties":{"not":{"items":{"id":1}}}} | S3 /additionalProperties/not/items/id
allOf before pattern | {"pattern":1,"allOf":[{"multipleOf":"x"}]} | S3 /allOf/0/multipleOf
5 keys | {"x-kubernetes-list-map-keys":["a","b","c","d","e"]} | S4 /x-kubernetes-list-map-keys
"#;

fn said(alloc: Global, document: &Tree) -> Result<String, Fail> {
    match read_written(alloc, document, "v1", Limits::STANDARD) {
        Ok(written) => {
            drop(written);
            Ok(String::from_str(alloc, "read")?)
        }
        Err(fault) => Ok(fault_text(alloc, &fault)?),
    }
}

fn refused(alloc: Global, document: &Tree) -> Result<String, Fail> {
    match Refusal::of_written(alloc, document, "v1", Limits::STANDARD)? {
        None => Ok(String::from_str(alloc, "read")?),
        Some(Refusal::KeywordForm(pointer, _)) => Ok(format!(in alloc; "S3 {pointer}")?),
        Some(Refusal::TooLarge(excess)) => {
            let pointer = excess.pointer.as_str();
            Ok(format!(in alloc; "S4 {pointer}")?)
        }
        Some(_) => Ok(String::from_str(alloc, "another refusal")?),
    }
}

/// A schema, and what reading it as written says.
struct WrittenRow;

impl Kind for WrittenRow {
    fn attempt(&self, report: &mut Report, alloc: Global, row: &Row) -> Result<(), Fail> {
        let document = definition(alloc, row.text("schema"))?;
        let document = Tree::from_bytes_with(alloc, document.as_bytes(), Numbers::All)?;
        let wanted = row.text("wanted");
        is_said(report, "what is read", said(alloc, &document), wanted)?;
        is_said(
            report,
            "why none is read",
            refused(alloc, &document),
            wanted,
        )
    }
}

#[test]
fn schemas_as_written(rt: HostRuntime) -> Result<(), Fail> {
    try_tables(&rt, rt.alloc(), &WrittenRow, &[WRITTEN])
}
