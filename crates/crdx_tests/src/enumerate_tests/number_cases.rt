//! Schemas by the profile of a cluster, whose scalars may be numbers: what is broken in them, and their nodes, values, fields and samples.
use crate::support::harness::{
    definition, fault_text, is_said, object_with_field, pools_by, schema_by,
};
use crate::support::nodes::{first_field, node_text};
use crate::support::pages::lines_of;
use crate::support::plain_stored::is_plainly_stored;
use crate::support::reference::plain_parts;
use crate::support::report::Report;
use crate::support::rows::{Kind, Row, try_tables};
use enumerate::page;
use explain::Listing;
use jtree::{Numbers, Tree};
use plan::{Plan, PoolLimits};
use schema::{
    Crd, Explained, Finding, Limits, Node, Profile, RawSchema, Reading, Refused, SFault, Violation,
    breaks, read_crd_by,
};
use std::alloc::{AllocError, Global};
use std::fmt::Write;
use std::test::Fail;
use stored::{Schema, accept, is_stored, valid};
use suggest::{Wanted, suggested_pools};

/// What is read by a profile of the definition of an object with one field, `x`, of this schema.
fn crd_by(alloc: Global, profile: Profile, field: &str) -> Result<Result<Crd, SFault>, Fail> {
    let schema = object_with_field(alloc, field)?;
    let document = definition(alloc, schema.as_str())?;
    let document = Tree::from_bytes_with(alloc, document.as_bytes(), Numbers::All)?;
    let limits = Limits::STANDARD;
    Ok(read_crd_by(alloc, &document, "v1", Reading { profile, limits }))
}

/// The schema of an object with one field, `x`, of this schema, by a cluster.
fn accepted(alloc: Global, field: &str) -> Result<Schema, Fail> {
    let schema = object_with_field(alloc, field)?;
    schema_by(alloc, Profile::Cluster, schema.as_str())
}

// What reading the schema of `x` says: the code and the pointer of a fault, all that is broken, or the node of `x`.
static SCHEMAS: &str = r#"
23 rows: name | field | core | cluster
a number | {"type":"number"} | V17 /properties/x | number
a number or null | {"type":"number","nullable":true} | V17 /properties/x | number nullable
a number by another name | {"type":"Number"} | V17 /properties/x | V17 /properties/x
a bound that is a fraction | {"type":"number","minimum":0.5} | S3 /properties/x/minimum | number
the same of an integer | {"type":"integer","minimum":0.5} | S3 /properties/x/minimum | integer
lengths and exclusive flags of a number | {"type":"number","maximum":1,"exclusiveMaximum":true,"minLength":1} | V17 /properties/x | number
numbers to choose from | {"type":"number","enum":[0.5,1,0.5]} | V17 /properties/x | number
no number to choose from | {"type":"number","enum":[]} | V17 /properties/x | V17 /properties/x
a text among the numbers | {"type":"number","enum":[0.5,"x"]} | V17 /properties/x | V17 /properties/x
a fraction among integers | {"type":"integer","enum":[1,0.5]} | V17 /properties/x | V17 /properties/x
a fraction among integers and texts | {"x-kubernetes-int-or-string":true,"enum":["x",0.5]} | V17 /properties/x | V17 /properties/x
a number that is int-or-string | {"type":"number","x-kubernetes-int-or-string":true} | V09 /properties/x, V17 /properties/x | V09 /properties/x
a default | {"type":"number","default":0.5} | V17 /properties/x | number
a default of another kind | {"type":"number","default":"0.5"} | V17 /properties/x | V14 /properties/x
a default above the bound | {"type":"number","maximum":4,"default":4.5} | V17 /properties/x | V14 /properties/x
a keyword of lists | {"type":"number","minItems":1} | V17 /properties/x | V17 /properties/x
a set of numbers | {"type":"array","x-kubernetes-list-type":"set","items":{"type":"number"}} | V12 /properties/x, V17 /properties/x/items
    | list of=number set
a set of numbers or null | {"type":"array","x-kubernetes-list-type":"set","items":{"type":"number","nullable":true}}
    | V12 /properties/x, V17 /properties/x/items | V12 /properties/x
a map list whose key is a number
    | {"type":"array","x-kubernetes-list-type":"map","x-kubernetes-list-map-keys":["k"],
    "items":{"type":"object","required":["k"],"properties":{"k":{"type":"number"}}}}
    | V11 /properties/x, V17 /properties/x/items/properties/k | list of=object map key=k
branches of a number | {"type":"number","anyOf":[{"minimum":1},{"enum":[5]}],"not":{"maximum":0}} | V16 /properties/x, V17 /properties/x | number
a type in a branch | {"type":"number","not":{"type":"number"}} | V16 /properties/x, V17 /properties/x, V03 /properties/x/not | V03 /properties/x/not
no branches | {"type":"number","allOf":[]} | S3 /properties/x/allOf | number
a pattern that is no text | {"type":"number","pattern":5} | V17 /properties/x | S3 /properties/x/pattern
"#;

fn push_violation(line: &mut String, violation: &Violation) -> Result<(), AllocError> {
    let Violation { pointer, rule } = violation;
    if !line.is_empty() {
        line.push_str(", ")?;
    }
    write!(line, "{rule} {pointer}")
}

fn broken_line(alloc: Global, broken: &[Violation]) -> Result<String, AllocError> {
    let mut line = String::new(alloc);
    for violation in broken {
        push_violation(&mut line, violation)?;
    }
    Ok(line)
}

fn said_of_raw(alloc: Global, raw: RawSchema) -> Result<String, Fail> {
    match accept(alloc, raw) {
        Ok(schema) => node_text(alloc, first_field(schema.root())?),
        Err(Refused::Violations(broken)) => Ok(broken_line(alloc, broken.as_slice())?),
        Err(Refused::NoMemory) => Err(Fail::from(AllocError)),
    }
}

fn said(alloc: Global, profile: Profile, field: &str) -> Result<String, Fail> {
    match crd_by(alloc, profile, field)? {
        Ok(crd) => said_of_raw(alloc, crd.raw),
        Err(fault) => Ok(fault_text(alloc, &fault)?),
    }
}

/// The schema of a field, and what is said of it by each profile.
struct SchemaRow;

impl Kind for SchemaRow {
    fn attempt(&self, report: &mut Report, alloc: Global, row: &Row) -> Result<(), Fail> {
        let field = row.text("field");
        let core = said(alloc, Profile::Core, field);
        is_said(report, "by the core profile", core, row.text("core"))?;
        let cluster = said(alloc, Profile::Cluster, field);
        is_said(report, "by a cluster", cluster, row.text("cluster"))
    }
}

// Why a schema is refused: the rule, the pointer, the keyword and the reason; and how many rules are broken.
static REASONS: &str = r#"
5 rows: name | field | core | cluster
a number | {"type":"number"} | 1 V17 /properties/x type UnknownType | 0
a text among the numbers | {"type":"number","enum":["x"]} | 1 V17 /properties/x type UnknownType | 1 V17 /properties/x enum EnumOfOtherKind
another type | {"type":"float"} | 1 V17 /properties/x type UnknownType | 1 V17 /properties/x type UnknownType
a set of numbers or null | {"type":"array","x-kubernetes-list-type":"set","items":{"type":"number","nullable":true}}
    | 2 V12 /properties/x items ItemsNotScalars V12 /properties/x items NullableItems V17 /properties/x/items type UnknownType
    | 1 V12 /properties/x items NullableItems
a keyword of no scalar | {"type":"number","multipleOf":0.5} | 1 V17 /properties/x type UnknownType | 1 V17 /properties/x multipleOf NotOfScalars
"#;

fn push_findings(line: &mut String, explained: &Explained) -> Result<(), AllocError> {
    let Violation { pointer, rule } = &explained.violation;
    for finding in &explained.findings {
        let Finding { keyword, reason } = finding;
        let keyword = keyword.as_str();
        write!(line, " {rule} {pointer} {keyword} {reason:?}")?;
    }
    Ok(())
}

fn reasons(alloc: Global, profile: Profile, field: &str) -> Result<String, Fail> {
    let crd = crd_by(alloc, profile, field)??;
    let count = breaks(alloc, &crd.raw)?.len();
    let all = schema::explained(alloc, &crd.raw)?;
    drop(crd);
    let mut line = format!(in alloc; "{count}")?;
    for explained in &all {
        push_findings(&mut line, explained)?;
    }
    Ok(line)
}

/// The schema of a field, and why it is refused by each profile.
struct ReasonRow;

impl Kind for ReasonRow {
    fn attempt(&self, report: &mut Report, alloc: Global, row: &Row) -> Result<(), Fail> {
        let field = row.text("field");
        let core = reasons(alloc, Profile::Core, field);
        is_said(report, "by the core profile", core, row.text("core"))?;
        let cluster = reasons(alloc, Profile::Cluster, field);
        is_said(report, "by a cluster", cluster, row.text("cluster"))
    }
}

// Values of a field that are good, and others. What is written is asked as a cluster asks: a bound of integers is cut to an integer, and a number
// is turned into the kind of a listed one.
static VALUES: &str = r#"
21 rows: name | field | good | bad
numbers | {"type":"number"} | [0.5,1,1.5,-2.5e3,9223372036854775808,1.0] | ["x",null,true,[],{},"0.5"]
numbers or null | {"type":"number","nullable":true} | [null,0.5,1] | ["x",false]
an enum beside nullable | {"type":"string","nullable":true,"enum":["x"]} | ["x"] | [null,"y"]
other tests beside nullable | {"type":"string","nullable":true,"minLength":2,"anyOf":[{"enum":["xy"]},{"minLength":3}]} | [null,"xy","abc"] | ["x","ab"]
a minimum | {"type":"number","minimum":1} | [1,2,1.0,1.5] | [0.5,0.99,0,-1,"x",null]
a minimum that is a fraction | {"type":"number","minimum":0.5} | [0,1,0.5,0.75] | [-1,0.25,-0.5,"x",null]
the same of integers | {"type":"integer","minimum":1.5} | [1,2] | [0,-1,1.5,2.5]
an exclusive maximum | {"type":"number","maximum":3,"exclusiveMaximum":true} | [2,2.5,2.99] | [3,3.0,3.5,4]
an exclusive maximum that is a fraction | {"type":"number","maximum":2.5,"exclusiveMaximum":true} | [1,2.25,-2.5] | [2,2.5,3,2.75]
a bound of more than 64 bits | {"type":"number","maximum":1e300} | [1e299,0.5,-1e301] | [1e301,1,-1]
lengths | {"type":"number","minLength":3} | [0.5,1] | ["abc","x"]
an enum | {"type":"number","enum":[0.5,1]} | [0.5,0.50,5e-1,1,1.0,1.25] | [0,0.25,0.75,2,2.5,"0.5",null]
an enum of integers and texts | {"x-kubernetes-int-or-string":true,"enum":["A",7]} | ["A",65,7] | ["B",66,"65","7",0.5,null]
some branch | {"type":"number","anyOf":[{"minimum":2},{"enum":[0,-1]}]} | [0,-1,2,3,2.5,0.25] | [1,-2,1.5,"x"]
no value of a branch | {"type":"number","not":{"enum":[0.5,2]}} | [0,1,1.5,0.25] | [0.5,0.50,2,2.0,2.25]
a set | {"type":"array","x-kubernetes-list-type":"set","items":{"type":"number"}} | [[],[0.5,1],[1,0.5],[1,1.5]]
    | [[0.5,0.5],[0.5,0.50],[1,1.0],[1,1e0],[0,-0],[1.5,1,1.5],[1.5,1,15e-1],[0.5,"x"],[null]]
a set of numbers beyond 64 bits, of which floats round some to the same | {"type":"array","x-kubernetes-list-type":"set","items":{"type":"number"}}
    | [[9223372036854775807,9223372036854775808],[-9223372036854775809,9223372036854775808],[1e300,1e299]]
    | [[9223372036854775808,9223372036854775809],[1e300,10e299],[1e2,100]]
a map list
    | {"type":"array","x-kubernetes-list-type":"map","x-kubernetes-list-map-keys":["k"],
    "items":{"type":"object","required":["k"],"properties":{"k":{"type":"number"},"v":{"type":"string"}}}}
    | [[{"k":0.5},{"k":1}],[{"k":1},{"k":1.5,"v":"x"}]] | [[{"k":1},{"k":1.0}],[{"k":0.5},{"k":0.5,"v":"x"}],[{"k":0.5},{"k":0.50}],[{"v":"x"}],[{"k":"x"}]]
a map | {"type":"object","maxProperties":2,"additionalProperties":{"type":"number"}} | [{},{"a":0.5,"b":1}] | [{"a":"x"},{"a":null},{"a":1,"b":2,"c":3}]
integers | {"type":"integer"} | [1,1.0,1e2] | [0.5,9223372036854775808,"x"]
integers and texts | {"x-kubernetes-int-or-string":true} | [1,1.0,"x"] | [0.5,1.5,null]
"#;

fn try_list(
    report: &mut Report,
    alloc: Global,
    node: &Node,
    values: &str,
    wanted: bool,
) -> Result<(), Fail> {
    let values = Tree::from_bytes_with(alloc, values.as_bytes(), Numbers::All)?;
    let Tree::List(values) = values else {
        return Err(Fail::from("no list"));
    };
    for value in &values.items {
        let text = value.to_text(alloc)?;
        report.holds_of("valid", text.as_str(), valid(node, value) == wanted);
        report.holds_of("stored", text.as_str(), is_stored(node, value) == wanted);
        let plainly = is_plainly_stored(node, value);
        report.holds_of("plainly stored", text.as_str(), plainly == wanted);
    }
    Ok(())
}

/// The schema of a field, a list of values that are valid and stored there, and a list of values that are neither.
struct ValueRow;

impl Kind for ValueRow {
    fn attempt(&self, report: &mut Report, alloc: Global, row: &Row) -> Result<(), Fail> {
        let schema = accepted(alloc, row.text("field"))?;
        let node = first_field(schema.root())?;
        try_list(report, alloc, node, row.text("good"), true)?;
        try_list(report, alloc, node, row.text("bad"), false)
    }
}

// The fields of a listing: a path, a type and a default a line.
static FIELDS: &str = r#"
5 rows: name | field | out
a number | {"type":"number"} | /x number
a default as it is written | {"type":"number","default":0.50} | /x number default 0.50
a default that is a whole number | {"type":"number","default":1.0} | /x number default 1
a list of numbers | {"type":"array","items":{"type":"number"}} | /x []number
    > /x/[] number
a map of objects with a number | {"type":"object","additionalProperties":{"type":"object","properties":{"n":{"type":"number"}}}} | /x map[string]Object
    > /x/{} Object
    > /x/{}/n number
"#;

fn fields(alloc: Global, schema: &Schema) -> Result<String, Fail> {
    let mut lines = String::new(alloc);
    for field in Listing::new(alloc, schema)?.fields() {
        let (path, type_text) = (field.path.as_str(), field.type_text.as_str());
        write!(lines, "{path} {type_text}")?;
        if let Some(default) = &field.default {
            let default = default.to_text(alloc)?;
            write!(lines, " default {default}")?;
        }
        lines.push_str("\n")?;
    }
    Ok(lines)
}

/// The schema of a field, and the fields of a listing.
struct FieldsRow;

impl Kind for FieldsRow {
    fn attempt(&self, report: &mut Report, alloc: Global, row: &Row) -> Result<(), Fail> {
        let schema = accepted(alloc, row.text("field"))?;
        is_said(report, "the fields", fields(alloc, &schema), row.out())
    }
}

// All samples, one a line.
static SAMPLES: &str = r#"
21 rows: name | field | pools | limit | out
numbers of the pools beside its integers | {"type":"number"} | {"integers":[3],"numbers":[0.5,2,-0.5,2,3]} | 2 | {}
    > {"x":2}
    > {"x":3}
    > {"x":-0.5}
    > {"x":0.5}
the same for integers | {"type":"integer"} | {"integers":[3],"numbers":[0.5,2]} | 2 | {}
    > {"x":3}
the same for integers and texts | {"x-kubernetes-int-or-string":true} | {"strings":["a"],"numbers":[0.5,2]} | 2 | {}
    > {"x":"a"}
numbers within bounds | {"type":"number","minimum":1} | {"integers":[0,2],"numbers":[0.5,1.5]} | 2 | {}
    > {"x":2}
    > {"x":1.5}
numbers beside an enum | {"type":"number","enum":[0.25]} | {"numbers":[0.5,0.25,1]} | 2 | {}
    > {"x":0.25}
numbers beside a list for the path | {"type":"number"} | {"numbers":[0.5],"paths":{"/x":[0.25]}} | 2 | {}
    > {"x":0.25}
integers of the pools | {"type":"number"} | {"integers":[1,0,1],"strings":["x"],"any":[0.5]} | 2 | {}
    > {"x":0}
    > {"x":1}
a list for the path, of one value the least text | {"type":"number"} | {"integers":[7],"paths":{"/x":[1.5,1,"x",0.50,null,1.0,5e-1,0.5]}} | 2 | {}
    > {"x":1}
    > {"x":0.5}
    > {"x":1.5}
an enum, which refuses null | {"type":"number","nullable":true,"enum":[1.5,2,0.5]} | {"integers":[7]} | 2 | {}
    > {"x":2}
    > {"x":0.5}
    > {"x":1.5}
an enum with one value twice | {"type":"number","enum":[0.50,1,0.5,1.0]} | {} | 2 | {}
    > {"x":1}
    > {"x":0.5}
numbers of the pools, one value twice | {"type":"number"} | {"integers":[1],"numbers":[5e-1,1.0,0.50]} | 2 | {}
    > {"x":1}
    > {"x":0.50}
an open place, one value twice, and lists of one value | {"x-kubernetes-preserve-unknown-fields":true} | {"any":[0.50,0.5,[0.50],[0.5]]} | 3 | {}
    > {"x":0.5}
    > {"x":[0.5]}
    > {"x":[0.50]}
an enum beside a list for the path | {"type":"number","enum":[0.5,1]} | {"integers":[7],"paths":{"/x":[0.50,2,1.25,"x"]}} | 2 | {}
    > {"x":0.50}
    > {"x":1.25}
a bound | {"type":"number","maximum":1.5} | {"paths":{"/x":[0,2,0.5,2.5,1]}} | 2 | {}
    > {"x":0}
    > {"x":1}
    > {"x":0.5}
fixed values | {"type":"number","minimum":1} | {"integers":[7],"fixed":{"/x":[0.5,0,"x",1.5]}} | 2 | {}
    > {"x":1.5}
fixed values, one value twice | {"type":"number"} | {"fixed":{"/x":[0.50,5e-1]}} | 2 | {}
    > {"x":0.50}
a default | {"type":"number","default":0.5} | {"integers":[7]} | 2 | {"x":7}
a set | {"type":"array","x-kubernetes-list-type":"set","items":{"type":"number","enum":[0.5,1]}} | {} | 4 | {}
    > {"x":[]}
    > {"x":[1]}
    > {"x":[0.5]}
    > {"x":[1,0.5]}
    > {"x":[0.5,1]}
a set, one value twice | {"type":"array","x-kubernetes-list-type":"set","items":{"type":"number"}} | {"numbers":[0.50,0.5]} | 4 | {}
    > {"x":[]}
    > {"x":[0.5]}
a map list, one key twice
    | {"type":"array","x-kubernetes-list-type":"map","x-kubernetes-list-map-keys":["k"],
    "items":{"type":"object","required":["k"],"properties":{"k":{"type":"number","enum":[0.50,0.5]}}}} | {} | 6 | {}
    > {"x":[]}
    > {"x":[{"k":0.5}]}
a map list
    | {"type":"array","x-kubernetes-list-type":"map","x-kubernetes-list-map-keys":["k"],
    "items":{"type":"object","required":["k"],"properties":{"k":{"type":"number","enum":[0.5,1]}}}} | {} | 6 | {}
    > {"x":[]}
    > {"x":[{"k":1}]}
    > {"x":[{"k":0.5}]}
    > {"x":[{"k":1},{"k":0.5}]}
    > {"x":[{"k":0.5},{"k":1}]}
"#;

fn paged(alloc: Global, row: &Row) -> Result<String, Fail> {
    let schema = accepted(alloc, row.text("field"))?;
    let pools = pools_by(alloc, Profile::Cluster, row.text("pools"))?;
    let mut plan = Plan::<u64>::new(alloc, schema, pools, row.small("limit"))?;
    let mut meter = plan.meter();
    let page = page(alloc, &plan, None, 100, &mut meter)?;
    lines_of(alloc, &page.items)
}

fn plainly(alloc: Global, row: &Row) -> Result<String, Fail> {
    let schema = accepted(alloc, row.text("field"))?;
    let pools = pools_by(alloc, Profile::Cluster, row.text("pools"))?;
    let parts = plain_parts(alloc, schema.root(), "", &pools, row.number("limit"))?;
    lines_of(alloc, &parts)
}

/// All samples by a plan, and by the plain reference.
struct SamplesRow;

impl Kind for SamplesRow {
    fn attempt(&self, report: &mut Report, alloc: Global, row: &Row) -> Result<(), Fail> {
        is_said(report, "the samples", paged(alloc, row), row.out())?;
        let plain = plainly(alloc, row);
        is_said(report, "the samples by the definitions", plain, row.out())
    }
}

// The document of pools that is suggested.
static SUGGESTED: &str = r#"
7 rows: name | field | document
a number | {"type":"number"} | {"any":["a",{}],"integers":[0,1],"names":["a","b"],"numbers":[0.5,1.5],"strings":["a"]}
bounds | {"type":"number","minimum":-1,"maximum":2}
    | {"any":["a",{}],"integers":[-2,-1,0,1,2,3],"names":["a","b"],"numbers":[-2.5,-1.5,0.5,1.5,2.5,3.5],"strings":["a"]}
a bound that is a fraction | {"type":"number","minimum":0.25}
    | {"any":["a",{}],"integers":[-1,0,1],"names":["a","b"],"numbers":[-1.5,0.5,1.5],"paths":{"/x":[0.25,0,1,0.5,1.5]},"strings":["a"]}
a bound below 0 | {"type":"integer","maximum":-1.5,"exclusiveMaximum":true}
    | {"any":["a",{}],"integers":[-2,-1,0,1],"names":["a","b"],"strings":["a"]}
a default | {"type":"number","default":0.50}
    | {"any":["a",{}],"integers":[0,1],"names":["a","b"],"numbers":[0.5,1.5],"paths":{"/x":[0.50,0,1,0.5,1.5]},"strings":["a"]}
below a map and a list | {"type":"object","additionalProperties":{"type":"array","items":{"type":"number","maximum":1}}}
    | {"any":["a",{}],"integers":[0,1,2],"names":["a","b"],"numbers":[0.5,1.5,2.5],"strings":["a"]}
no place of numbers | {"type":"integer","maximum":1} | {"any":["a",{}],"integers":[0,1,2],"names":["a","b"],"strings":["a"]}
"#;

fn suggested(alloc: Global, field: &str) -> Result<String, Fail> {
    let raw = crd_by(alloc, Profile::Cluster, field)??.raw;
    let wanted = Wanted {
        objects: &[],
        varied: &[],
        without: &[],
    };
    let schema = accepted(alloc, field)?;
    let document = suggested_pools(alloc, raw.tree(), &schema, &wanted, PoolLimits::STANDARD)?;
    Ok(document.to_text(alloc)?)
}

/// The schema of a field, and the pools that are suggested.
struct SuggestedRow;

impl Kind for SuggestedRow {
    fn attempt(&self, report: &mut Report, alloc: Global, row: &Row) -> Result<(), Fail> {
        let found = suggested(alloc, row.text("field"));
        is_said(report, "the pools", found, row.text("document"))
    }
}

#[test]
fn number_suggestions(rt: HostRuntime) -> Result<(), Fail> {
    try_tables(&rt, rt.alloc(), &SuggestedRow, &[SUGGESTED])
}

#[test]
fn number_schemas(rt: HostRuntime) -> Result<(), Fail> {
    try_tables(&rt, rt.alloc(), &SchemaRow, &[SCHEMAS])
}

#[test]
fn number_reasons(rt: HostRuntime) -> Result<(), Fail> {
    try_tables(&rt, rt.alloc(), &ReasonRow, &[REASONS])
}

#[test]
fn number_values(rt: HostRuntime) -> Result<(), Fail> {
    try_tables(&rt, rt.alloc(), &ValueRow, &[VALUES])
}

#[test]
fn number_fields(rt: HostRuntime) -> Result<(), Fail> {
    try_tables(&rt, rt.alloc(), &FieldsRow, &[FIELDS])
}

#[test]
fn number_samples(rt: HostRuntime) -> Result<(), Fail> {
    try_tables(&rt, rt.alloc(), &SamplesRow, &[SAMPLES])
}
