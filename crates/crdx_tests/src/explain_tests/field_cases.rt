//! The fields of a listing, and the field and the node of a path.
use crate::support::documents::MAP_LIST;
use crate::support::harness::{is_said, schema_of};
use crate::support::nodes::{node_text, push_flag, push_keyword};
use crate::support::report::Report;
use crate::support::rows::{Kind, Row, all_rows};
use explain::{Field, Listing, XFault, resolve};
use schema::{ListType, MapType};
use std::alloc::Global;
use std::test::Fail;
use stored::Schema;

/// The type of the field and its markers, without its texts.
fn field_text(alloc: Global, field: &Field) -> Result<String, Fail> {
    let mut text = String::from_str(alloc, field.type_text.as_str())?;
    push_flag(&mut text, field.required, "required")?;
    let is_map_list = matches!(field.list_type, Some(ListType::Map(_)));
    push_flag(&mut text, is_map_list, "map list")?;
    let is_granular = field.map_type == Some(MapType::Granular);
    push_flag(&mut text, is_granular, "granular")?;
    for key in &field.keys {
        push_keyword(&mut text, "key", key.as_str())?;
    }
    Ok(text)
}

fn fault_text(alloc: Global, fault: &XFault) -> Result<String, Fail> {
    Ok(fault.to_string(alloc)?)
}

static PATHS: &str = r#"
9 rows: name | path | field | node
a map list | /m | []Object map list key=k | list of=object map key=k
an item of a map list | /m/[] | Object granular | object k=string required v=integer
a key | /m/[]/k | string required | string
a field of an item | /m/[]/v | integer | integer
the root | - | X2 | X2
a field of an item, without the item | /m/k | X2 | X2
a slash after a key | /m/[]/k/ | X2 | X2
no slash before a name | m | X1 | X1
a bracket alone | /m/[ | X1 | X1
"#;

fn said_of_field(alloc: Global, listing: &Listing, path: &str) -> Result<String, Fail> {
    match listing.field(path) {
        Ok(field) => field_text(alloc, field),
        Err(fault) => fault_text(alloc, &fault),
    }
}

fn said_of_node(alloc: Global, schema: &Schema, path: &str) -> Result<String, Fail> {
    match resolve(schema, path) {
        Ok(node) => node_text(alloc, node),
        Err(fault) => fault_text(alloc, &fault),
    }
}

/// A path, the text of its field, and its node; or the code of the fault of both.
#[derive(Drop)]
struct PathRow<'a> {
    schema: &'a Schema,
    listing: &'a Listing,
}

impl Kind for PathRow<'_> {
    fn attempt(&self, report: &mut Report, alloc: Global, row: &Row) -> Result<(), Fail> {
        let found = said_of_field(alloc, self.listing, row.text("path"));
        is_said(report, "the field", found, row.text("field"))?;
        let found = said_of_node(alloc, self.schema, row.text("path"));
        is_said(report, "the node", found, row.text("node"))
    }
}

#[test]
fn fields_and_nodes_of_paths(rt: HostRuntime) -> Result<(), Fail> {
    explain::laws::paths_have_one_text();
    let mut report = Report::new(rt.alloc());
    let schema = schema_of(rt.alloc(), MAP_LIST)?;
    let listing = Listing::new(rt.alloc(), &schema)?;
    let fields = listing.fields();
    report.is_number("the fields", fields.len() as u64, 4);
    let last = fields.last().map(|field| field.path.as_str());
    report.is_value("the last path", &last, &Some("/m/[]/v"));
    report.row("all fields", Ok(()));
    let kind = PathRow {
        schema: &schema,
        listing: &listing,
    };
    all_rows(&mut report, rt.alloc(), &kind, &[PATHS]);
    report.end(&rt)
}
