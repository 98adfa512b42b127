//! The patterns of schemas, each with its pointer. The order is by names and indexes, so `/a/b` comes before `/a-b`.
use crate::support::report::Report;
use crate::support::rows::{Kind, Row, try_tables};
use jtree::{Numbers, Tree};
use judge::SchemaPattern;
use std::alloc::{AllocError, Global};
use std::test::Fail;

static PATTERNS: &str = r#"
16 rows: name | schema | patterns
no patterns | {"type":"object","properties":{"a":{"type":"string"}}} | -
of the schema itself | {"pattern":"^x$"} | =^x$
an empty one | {"pattern":""} | =
what is no text | {"pattern":1,"items":{"pattern":["a"]}} | -
of a property | {"properties":{"a":{"type":"string","pattern":"a+"}}} | /properties/a=a+
a property of that name | {"properties":{"pattern":{"pattern":"b"}}} | /properties/pattern=b
of items | {"items":{"items":{"pattern":"b"}}} | /items/items=b
of other members | {"additionalProperties":{"pattern":"c"}} | /additionalProperties=c
no schema of other members | {"additionalProperties":true} | -
of what is not to be | {"not":{"pattern":"d"}} | /not=d
of a second branch | {"anyOf":[{"type":"string"},{"pattern":"e"}]} | /anyOf/1=e
of branches of each kind | {"oneOf":[{"pattern":"o"}],"allOf":[{"not":{"pattern":"n"}}]} | /allOf/0/not=n, /oneOf/0=o
names with signs | {"properties":{"a/b~":{"pattern":"f"}}} | /properties/a~1b~0=f
a schema before those in it | {"pattern":"p","items":{"pattern":"q"}} | =p, /items=q
by names, not by pointers | {"properties":{"a-b":{"pattern":"2"},"a":{"items":{"pattern":"1"}}}} | /properties/a/items=1, /properties/a-b=2
not of an example, nor of a list for an object | {"example":{"pattern":"g"},"enum":[{"pattern":"h"}],"items":[{"pattern":"i"}]} | -
"#;

/// The patterns as a row has them: pointer, `=` and text.
fn said_of(alloc: Global, found: &[SchemaPattern<'_>]) -> Result<String, AllocError> {
    let mut said = String::new(alloc);
    for pattern in found {
        if !said.as_str().is_empty() {
            said.push_str(", ")?;
        }
        said.push_str(pattern.pointer.as_str())?;
        said.push('=')?;
        said.push_str(pattern.text)?;
    }
    Ok(said)
}

/// A schema and its patterns.
struct PatternRow;

impl Kind for PatternRow {
    fn attempt(&self, report: &mut Report, alloc: Global, row: &Row) -> Result<(), Fail> {
        let schema = Tree::from_bytes_with(alloc, row.text("schema").as_bytes(), Numbers::All)?;
        let found = judge::patterns(alloc, &schema)?;
        let said = said_of(alloc, found.as_slice())?;
        report.is_text("patterns", said.as_str(), row.text("patterns"));
        Ok(())
    }
}

#[test]
fn patterns_of_schemas(rt: HostRuntime) -> Result<(), Fail> {
    try_tables(&rt, rt.alloc(), &PatternRow, &[PATTERNS])
}
