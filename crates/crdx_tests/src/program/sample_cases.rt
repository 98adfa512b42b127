//! `sample`: what is listed.
use crate::support::given::TWO_KEYED_LISTS;
use crate::support::harness::{RunRow, SchemaRun, try_schema_run};
use crate::support::pages::plain_lines;
use crate::support::report::Report;
use crate::support::rows::{Kind, Row, try_tables};
use std::alloc::Global;
use std::test::Fail;

// What the tables name.
static NAMED: &str = r#"
@SIX_LINES
    > {}
    > {"spec":{}}
    > {"spec":{"b":false}}
    > {"spec":{"b":true}}
    > {"spec":{"a":0}}
    > {"spec":{"a":1}}
"#;

static COUNTS: &str = r#"
7 rows: name | command | definition | second | status
every sample of four nodes | crdx sample crd.json v1 --pools pools.json --limit 4 | @WIDGET | {"integers":[0,1]} | 0
    > @TEN_LINES
    ! crdx: end
one node | crdx sample crd.json v1 --pools pools.json --limit 1 | @WIDGET | {"integers":[0,1]} | 0
    > {}
    ! crdx: end
two nodes | crdx sample crd.json v1 --pools pools.json --limit 2 | @WIDGET | {"integers":[0,1]} | 0
    > {}
    > {"spec":{}}
    ! crdx: end
three nodes | crdx sample crd.json v1 --pools pools.json --limit 3 | @WIDGET | {"integers":[0,1]} | 0
    > @SIX_LINES
    ! crdx: end
six of ten samples | crdx sample crd.json v1 --pools pools.json --limit 4 --count 6 | @WIDGET | {"integers":[0,1]} | 0
    > @SIX_LINES
    ! crdx: more
as many samples as there are | crdx sample crd.json v1 --pools pools.json --count 10 | @WIDGET | {"integers":[0,1]} | 0
    > @TEN_LINES
    ! crdx: end
no pools | crdx sample crd.json v1 | @WIDGET | {"integers":[0,1]} | 0
    > {}
    > {"spec":{}}
    > {"spec":{"b":false}}
    > {"spec":{"b":true}}
    ! crdx: end
"#;

static SCHEMAS: &str = r#"
8 rows: name | command | definition | second | status
repeated and negative integers | crdx sample crd.json v1 --pools pools.json --limit 3 | @WIDGET | {"integers":[5,-9223372036854775808,5,-1]} | 0
    > {}
    > {"spec":{}}
    > {"spec":{"b":false}}
    > {"spec":{"b":true}}
    > {"spec":{"a":-9223372036854775808}}
    > {"spec":{"a":-1}}
    > {"spec":{"a":5}}
    ! crdx: end
a property of texts | crdx sample crd.json v1 --pools pools.json --limit 4
    | {"apiVersion":"apiextensions.k8s.io/v1","kind":"CustomResourceDefinition","spec":{"group":"example.org","names":{"kind":"Widget"},
    "versions":[{"name":"v1","schema":{"openAPIV3Schema":{"type":"object","properties":{"a":{"type":"string"}}}}}]}}
    | {"strings":["b","a","b"]} | 0
    > {}
    > {"a":"a"}
    > {"a":"b"}
    ! crdx: end
a default | crdx sample crd.json v1 --pools pools.json --limit 4
    | {"apiVersion":"apiextensions.k8s.io/v1","kind":"CustomResourceDefinition","spec":{"group":"example.org","names":{"kind":"Widget"},
    "versions":[{"name":"v1","schema":{"openAPIV3Schema":{"type":"object","properties":{"a":{"type":"integer","default":1}}}}}]}}
    | {"integers":[0,1]} | 0
    > {"a":0}
    > {"a":1}
    ! crdx: end
numbers after a property of texts | crdx sample crd.json v1 --pools pools.json
    | {"apiVersion":"apiextensions.k8s.io/v1","kind":"CustomResourceDefinition","spec":{"group":"example.org","names":{"kind":"Widget"},
    "versions":[{"name":"v1","schema":{"openAPIV3Schema":{"type":"object","properties":{"a":{"type":"string"},"n":{"type":"number"}}}}}]}}
    | {"integers":[1.5]} | 1
    ! V17 "/properties/n"
an envelope and keywords without effect | crdx sample crd.json v1 --pools pools.json --limit 4
    | {"apiVersion":"apiextensions.k8s.io/v1","kind":"CustomResourceDefinition","spec":{"group":"example.org","names":{"kind":"Widget"},
    "versions":[{"name":"v1","schema":{"openAPIV3Schema":{"type":"object","description":"A widget.",
    "properties":{"apiVersion":{"type":"string"},"kind":{"type":"string"},"metadata":{"type":"object"},
    "spec":{"type":"object","title":"What is wanted","properties":{"a":{"type":"integer","format":"int64","example":7},
    "b":{"type":"boolean","uniqueItems":false}}}}}}}]}} | {"integers":[0,1]} | 0
    > @TEN_LINES
    ! crdx: end
a required name that is a number | crdx sample crd.json v1
    | {"apiVersion":"apiextensions.k8s.io/v1","kind":"CustomResourceDefinition","spec":{"group":"example.org","names":{"kind":"Widget"},
    "versions":[{"name":"v1","schema":{"openAPIV3Schema":{"type":"object","properties":{"a":{"type":"string","required":[1]}}}}}]}}
    | {"integers":[0,1]} | 3
    ! crdx: crd: S3 "/properties/a/required/0"
five keys of a map list | crdx sample crd.json v1
    | {"apiVersion":"apiextensions.k8s.io/v1","kind":"CustomResourceDefinition","spec":{"group":"example.org","names":{"kind":"Widget"},
    "versions":[{"name":"v1","schema":{"openAPIV3Schema":{"type":"object","properties":{"a":{"x-kubernetes-list-map-keys":["a","b","c","d",
    "e"]}}}}}]}} | {"integers":[0,1]} | 3
    ! crdx: crd: S4 "/properties/a/x-kubernetes-list-map-keys"
a name with a quote and a slash | crdx sample crd.json v1 --pools pools.json
    | {"apiVersion":"apiextensions.k8s.io/v1","kind":"CustomResourceDefinition","spec":{"group":"example.org","names":{"kind":"Widget"},
    "versions":[{"name":"v1","schema":{"openAPIV3Schema":{"type":"object","properties":{"a\"/~é":{"type":"string"}}}}}]}}
    | {"strings":["b","a","b"]} | 0
    > {}
    > {"a\"/~é":"a"}
    > {"a\"/~é":"b"}
    ! crdx: end
"#;

// Envelopes, and samples to go on from.
static RESUMES: &str = r#"
7 rows: name | command | definition | second | status
a name | crdx sample crd.json v1 --pools pools.json --limit 4 --count 2 --name w | @WIDGET | {"integers":[0,1]} | 0
    > {"apiVersion":"example.org/v1","kind":"Widget","metadata":{"name":"w"}}
    > {"apiVersion":"example.org/v1","kind":"Widget","metadata":{"name":"w"},"spec":{}}
    ! crdx: more
a named sample to go on from
    | crdx sample crd.json v1 --pools pools.json --limit 4 --count 1 --name w
    ␠--after {"apiVersion":"example.org/v1","kind":"Widget","metadata":{"name":"w"},"spec":{}} | @WIDGET
    | {"integers":[0,1]} | 0
    > {"apiVersion":"example.org/v1","kind":"Widget","metadata":{"name":"w"},"spec":{"b":false}}
    ! crdx: more
a sample to go on from with an envelope of another kind
    | crdx sample crd.json v1 --pools pools.json --limit 4 --count 1 --name w
    ␠--after {"apiVersion":"example.org/v1","kind":"Other","metadata":{"name":"w"},"spec":{}} | @WIDGET
    | {"integers":[0,1]} | 0
    > {"apiVersion":"example.org/v1","kind":"Widget","metadata":{"name":"w"},"spec":{"b":false}}
    ! crdx: more
a sample to go on from | crdx sample crd.json v1 --pools pools.json --limit 4 --after {"spec":{"b":false}} | @WIDGET | {"integers":[0,1]} | 0
    > @LAST_LINES
    ! crdx: end
no sample to go on from | crdx sample crd.json v1 --pools pools.json --limit 4 --after {"zzz":1} | @WIDGET | {"integers":[0,1]} | 1
    ! crdx: after: not a sample
a sample to go on from that is cut | crdx sample crd.json v1 --pools pools.json --after {"spec": | @WIDGET | {"integers":[0,1]} | 3
    ! crdx: after: J3
a fraction in what to go on from | crdx sample crd.json v1 --after {"spec":1.5} | @WIDGET | {"integers":[0,1]} | 3
    ! crdx: after: J1
"#;

#[test]
fn samples(rt: HostRuntime) -> Result<(), Fail> {
    try_tables(&rt, rt.alloc(), &RunRow, &[NAMED, COUNTS, SCHEMAS])
}

#[test]
fn resumes(rt: HostRuntime) -> Result<(), Fail> {
    try_tables(&rt, rt.alloc(), &RunRow, &[RESUMES])
}

static WHOLE: &str = r#"
3 rows: name | schema | pools | out
a map list of more items than keys | @LONG_MAP_LIST | {"strings":["a","b"],"integers":[0]} | {}
a required map list of more items than keys | @REQUIRED_LONG_MAP_LIST | {"strings":["a","b"],"integers":[0]} | -
a required set of more items than values
    | {"type":"object","required":["s"],"properties":{"s":{"type":"array","minItems":21,"x-kubernetes-list-type":"set","items":{"type":"integer"}}}}
    | {"integers":[0,1,2,3,4,5,6,7,8,9,10,11,12,13,14,15,16,17,18,19]} | -
"#;

/// Pools over which the samples of a schema end.
struct WholeList;

impl Kind for WholeList {
    fn attempt(&self, report: &mut Report, alloc: Global, row: &Row) -> Result<(), Fail> {
        let run = SchemaRun {
            command: "crdx sample crd.json v1 --pools pools.json --limit 63",
            schema: row.text("schema"),
            second: row.text("pools"),
            out: row.out(),
            err: "crdx: end\n",
            status: 0,
        };
        try_schema_run(report, alloc, &run)
    }
}

#[test]
fn whole_lists(rt: HostRuntime) -> Result<(), Fail> {
    try_tables(&rt, rt.alloc(), &WholeList, &[WHOLE])
}

fn try_74_samples(report: &mut Report, alloc: Global) -> Result<(), Fail> {
    let lines = plain_lines(alloc, TWO_KEYED_LISTS)?;
    let run = SchemaRun {
        command: "crdx sample crd.json v1 --pools pools.json --limit 9",
        schema: TWO_KEYED_LISTS.schema,
        second: TWO_KEYED_LISTS.pools,
        out: lines.as_str(),
        err: "crdx: end\n",
        status: 0,
    };
    try_schema_run(report, alloc, &run)
}

// More samples than the program asks for at once.
#[test]
fn more_than_a_page(rt: HostRuntime) -> Result<(), Fail> {
    let mut report = Report::new(rt.alloc());
    let ended = try_74_samples(&mut report, rt.alloc());
    report.row("74 samples", ended);
    report.end(&rt)
}
