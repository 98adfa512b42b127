//! The plain reference, and walks, against lists of samples that were made by hand.
use crate::support::comparison::compare_plan;
use crate::support::documents::{LONG_MAP_LIST, REQUIRED_LONG_MAP_LIST, TWO_TEXTS};
use crate::support::fakes::FailingSink;
use crate::support::given::{Given, TWO_KEYED_LISTS, given_of};
use crate::support::harness::{is_said, is_tree};
use crate::support::pages::{WalkInput, listed, plain_lines, walked};
use crate::support::report::Report;
use crate::support::rows::{Kind, Row, rows_of, try_tables};
use jtree::Tree;
use schema::Profile;
use std::alloc::Global;
use std::test::Fail;

static SAMPLES: &str = r#"
16 rows: name | schema | pools | limit
two fields | @SPEC | {"integers":[0,1]} | 4
    > @TEN_LINES
one node | @SPEC | {"integers":[0,1]} | 1
    > {}
an object that may be null | @NULLABLE | {} | 2
    > {}
    > {"n":null}
    > {"n":{}}
a set | @SET | {"integers":[2,1,2]} | 4
    > @SIX_SETS
a map list | @MAP_LIST | {"strings":["a","b"],"integers":[0]} | 8
    > {}
    > {"m":[]}
    > {"m":[{"k":"a"}]}
    > {"m":[{"k":"b"}]}
    > {"m":[{"k":"a","v":0}]}
    > {"m":[{"k":"b","v":0}]}
    > {"m":[{"k":"a"},{"k":"b"}]}
    > {"m":[{"k":"b"},{"k":"a"}]}
    > {"m":[{"k":"a"},{"k":"b","v":0}]}
    > {"m":[{"k":"b"},{"k":"a","v":0}]}
    > {"m":[{"k":"a","v":0},{"k":"b"}]}
    > {"m":[{"k":"b","v":0},{"k":"a"}]}
    > {"m":[{"k":"a","v":0},{"k":"b","v":0}]}
    > {"m":[{"k":"b","v":0},{"k":"a","v":0}]}
a map list by two keys
    | {"type":"object","properties":{"m":{"type":"array","x-kubernetes-list-type":"map","x-kubernetes-list-map-keys":["host","port"],
    "items":{"type":"object","properties":{"host":{"type":"string"},"port":{"type":"integer"}},"required":["host","port"]}}}}
    | {"strings":["x"],"integers":[0,1]} | 8
    > {}
    > {"m":[]}
    > {"m":[{"host":"x","port":0}]}
    > {"m":[{"host":"x","port":1}]}
    > {"m":[{"host":"x","port":0},{"host":"x","port":1}]}
    > {"m":[{"host":"x","port":1},{"host":"x","port":0}]}
at least two of three booleans | @TRUTHS | {} | 4
    > {}
    > {"o":{"b":false,"c":false}}
    > {"o":{"b":false,"c":true}}
    > {"o":{"b":true,"c":false}}
    > {"o":{"b":true,"c":true}}
    > {"o":{"a":false,"c":false}}
    > {"o":{"a":false,"c":true}}
    > {"o":{"a":false,"b":false}}
    > {"o":{"a":false,"b":true}}
    > {"o":{"a":true,"c":false}}
    > {"o":{"a":true,"c":true}}
    > {"o":{"a":true,"b":false}}
    > {"o":{"a":true,"b":true}}
a map over two names | @LABELS | {"names":["k","j"],"strings":["x"]} | 4
    > {}
    > {"labels":{}}
    > {"labels":{"k":"x"}}
    > {"labels":{"j":"x"}}
    > {"labels":{"j":"x","k":"x"}}
a map over names with a repeat | @LABELS | {"names":["k","j","k"],"strings":["x"]} | 4
    > {}
    > {"labels":{}}
    > {"labels":{"k":"x"}}
    > {"labels":{"j":"x"}}
    > {"labels":{"j":"x","k":"x"}}
one of two branches | {"type":"object","required":["n"],"properties":{"n":{"type":"integer","oneOf":[{"minimum":1},{"maximum":3}]}}}
    | {"integers":[0,1,2,3,4]} | 2
    > {"n":0}
    > {"n":4}
a default | @DEFAULTED | {"integers":[0,7]} | 3
    > {}
    > {"spec":{"f":0}}
    > {"spec":{"f":7}}
int-or-string | {"type":"object","properties":{"p":{"x-kubernetes-int-or-string":true}}} | {"integers":[1],"strings":["1"]} | 2
    > {}
    > {"p":1}
    > {"p":"1"}
any value | @OPEN | {"any":[{"q":1},"z"],"integers":[0,1],"names":["k"],"strings":["a","b"]} | 3
    > {}
    > {"x":"z"}
    > {"x":{"q":1}}
lists of lists | {"type":"object","properties":{"l":{"type":"array","items":{"type":"array","items":{"type":"integer"}}}}} | {"integers":[0]} | 4
    > {}
    > {"l":[]}
    > {"l":[[]]}
    > {"l":[[],[]]}
    > {"l":[[0]]}
no null | @OPEN | {"any":[null]} | 2
    > {}
null | @OPEN_NULLABLE | {"any":[null]} | 2
    > {}
    > {"x":null}
"#;

/// What a walk writes by pages of three.
fn walked_lines(alloc: Global, given: Given<'_>) -> Result<String, Fail> {
    let walk = WalkInput {
        given,
        place: None,
        page: 3,
        total: 10000,
    };
    let mut sink = FailingSink::endless(alloc);
    let walked = walked(alloc, walk, &mut sink)??;
    if !walked.end {
        return Err(Fail::from("no end"));
    }
    Ok(String::from_str(alloc, sink.text())?)
}

/// All samples of a plan.
struct SamplesRow;

impl Kind for SamplesRow {
    fn attempt(&self, report: &mut Report, alloc: Global, row: &Row) -> Result<(), Fail> {
        is_said(
            report,
            "samples",
            plain_lines(alloc, given_of(row)),
            row.out(),
        )?;
        is_said(
            report,
            "lines",
            walked_lines(alloc, given_of(row)),
            row.out(),
        )
    }
}

#[test]
fn samples(rt: HostRuntime) -> Result<(), Fail> {
    try_tables(&rt, rt.alloc(), &SamplesRow, &[SAMPLES])
}

fn are_plain(report: &mut Report, alloc: Global, schema: &str, pools: &str, name: &str) {
    for limit in 1..9 {
        let given = Given {
            profile: Profile::Core,
            schema,
            pools,
            limit,
        };
        compare_plan(report, alloc, given, name);
    }
}

#[test]
fn plans_at_each_limit(rt: HostRuntime) -> Result<(), Fail> {
    let mut report = Report::new(rt.alloc());
    for row in &rows_of(rt.alloc(), &[SAMPLES])? {
        let Given { schema, pools, .. } = given_of(row);
        are_plain(&mut report, rt.alloc(), schema, pools, row.name());
    }
    report.end(&rt)
}

#[test]
fn plans_of_long_lists(rt: HostRuntime) -> Result<(), Fail> {
    let mut report = Report::new(rt.alloc());
    for (name, schema) in [
        ("a list that cannot be", LONG_MAP_LIST),
        ("a required list that cannot be", REQUIRED_LONG_MAP_LIST),
    ] {
        are_plain(&mut report, rt.alloc(), schema, TWO_TEXTS, name);
    }
    report.end(&rt)
}

fn of_nodes(samples: &[Tree], nodes: u64) -> u64 {
    let mut count: u64 = 0;
    for sample in samples {
        if sample.nodes() == nodes {
            count = count.saturating_add(1);
        }
    }
    count
}

/// Of 74 samples 48 have nine nodes, and come after the others.
fn are_many(report: &mut Report, alloc: Global) -> Result<(), Fail> {
    let samples = listed(alloc, TWO_KEYED_LISTS)?;
    report.is_number("the number", samples.len() as u64, 74);
    report.is_number("nine nodes", of_nodes(&samples, 9), 48);
    let Some(first) = samples.get(26) else {
        return Err(Fail::from("no sample of nine nodes"));
    };
    let wanted = r#"{"m":[{"a":0,"c":0},{"a":0,"b":false,"c":1}]}"#;
    is_tree(report, alloc, "the first of nine nodes", first, wanted)
}

#[test]
fn many_samples(rt: HostRuntime) -> Result<(), Fail> {
    let mut report = Report::new(rt.alloc());
    let ended = are_many(&mut report, rt.alloc());
    report.row("many samples", ended);
    compare_plan(&mut report, rt.alloc(), TWO_KEYED_LISTS, "many samples");
    report.end(&rt)
}
