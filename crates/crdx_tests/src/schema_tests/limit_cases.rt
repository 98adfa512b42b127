//! Schemas at the limits and past them.
use crate::support::harness::try_schema;
use crate::support::report::Report;
use crate::support::rows::{Kind, Row, all_rows};
use crate::support::texts::{nested, repeated};
use std::alloc::Global;
use std::test::Fail;

// What the tables name.
static NAMED: &str = r#"
@THIRTY_ONE_PROPERTIES
    | {"properties":{"q":{"properties":{"p0":{},"p1":{},"p2":{},"p3":{},"p4":{},"p5":{},"p6":{},"p7":{},"p8":{},"p9":{},"p10":{},"p11":{},"p12":{},
    "p13":{},"p14":{},"p15":{},"p16":{},"p17":{},"p18":{},"p19":{},"p20":{},"p21":{},"p22":{},"p23":{},"p24":{},"p25":{},"p26":{},"p27":{},"p28":{},
    "p29":{},"p30":{},
"#;

// Forms are judged before limits, and the first limit in path order is named.
static LISTS: &str = r#"
12 rows: name | head | entry | count | tail | wanted
512 places | {"anyOf":[ | {} | 511 | ],"minimum":0} | read
513 places | {"anyOf":[ | {} | 512 | ],"minimum":0} | S4 /anyOf/511
64 values | {"enum":[ | 1 | 64 | ]} | read
65 values | {"enum":[ | 1 | 65 | ]} | S4 /enum
4 keys | {"not":{"x-kubernetes-list-map-keys":[ | "k" | 4 | ]}} | read
5 keys | {"not":{"x-kubernetes-list-map-keys":[ | "k" | 5 | ]}} | S4 /not/x-kubernetes-list-map-keys
32 required names | {"required":[ | "k" | 32 | ]} | read
33 required names | {"required":[ | "k" | 33 | ]} | S4 /required
65 values beside a type that is a number | {"enum":[ | 1 | 65 | ],"type":1} | S3 /type
601 places | {"anyOf":[ | {} | 600 | ],"enum":[]} | S4 /anyOf/511
32 properties | @THIRTY_ONE_PROPERTIES | "p31":{} | 1 | }}}} | read
33 properties | @THIRTY_ONE_PROPERTIES | "p31":{},"p32":{} | 1 | }}}} | S4 /properties/q/properties
"#;

/// A schema before its entries, an entry, how many there are, the schema after them, and what is said of it.
struct Long;

impl Kind for Long {
    fn attempt(&self, report: &mut Report, alloc: Global, row: &Row) -> Result<(), Fail> {
        let schema = repeated(
            alloc,
            row.text("head"),
            row.text("entry"),
            row.count("count"),
            row.text("tail"),
        )?;
        try_schema(report, alloc, schema.as_str(), row.text("wanted"))
    }
}

static DEPTHS: &str = r#"
2 rows: name | depth | wanted
24 steps | 24 | read
60 steps | 60
    | S4 /items/items/items/items/items/items/items/items/items/items/items/items/items/items/items/items/items/items/items/items/items/items
    /items/items/items
"#;

/// How deep a schema is, and what is said of it.
struct Deep;

impl Kind for Deep {
    fn attempt(&self, report: &mut Report, alloc: Global, row: &Row) -> Result<(), Fail> {
        let schema = nested(alloc, r#"{"items":"#, row.count("depth"), "{}", "}")?;
        try_schema(report, alloc, schema.as_str(), row.text("wanted"))
    }
}

#[test]
fn limits(rt: HostRuntime) -> Result<(), Fail> {
    let mut report = Report::new(rt.alloc());
    all_rows(&mut report, rt.alloc(), &Long, &[NAMED, LISTS]);
    all_rows(&mut report, rt.alloc(), &Deep, &[DEPTHS]);
    report.end(&rt)
}
