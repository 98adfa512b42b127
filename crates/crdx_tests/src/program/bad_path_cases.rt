//! Lists of values for what is no path of a scalar and of no open node.
use crate::support::harness::SchemaRunRow;
use crate::support::rows::try_tables;
use std::test::Fail;

static NO_SCALARS: &str = r#"
6 rows: name | command | schema | second | status
a path to an object | crdx sample crd.json v1 --pools pools.json | @SPEC | {"paths":{"/spec":[]}} | 3
    ! crdx: pools: P5 "/spec"
a path that is not declared | crdx sample crd.json v1 --pools pools.json | @SPEC | {"paths":{"/spec/c":[]}} | 3
    ! crdx: pools: P5 "/spec/c"
a path without a slash | crdx sample crd.json v1 --pools pools.json | @SPEC | {"paths":{"spec":[]}} | 3
    ! crdx: pools: P5 "spec"
the path of the root | crdx sample crd.json v1 --pools pools.json | @SPEC | {"paths":{"":[]}} | 3
    ! crdx: pools: P5 ""
a path to a list | crdx sample crd.json v1 --pools pools.json | @SET | {"paths":{"/s":[]}} | 3
    ! crdx: pools: P5 "/s"
a path to a map | crdx sample crd.json v1 --pools pools.json | @LABELS | {"paths":{"/labels":[]}} | 3
    ! crdx: pools: P5 "/labels"
"#;

static BELOW_FIELDS: &str = r#"
6 rows: name | command | schema | second | status
a path to the objects of a list | crdx sample crd.json v1 --pools pools.json | @MAP_LIST | {"paths":{"/m/[]":[]}} | 3
    ! crdx: pools: P5 "/m/[]"
a name of a map | crdx sample crd.json v1 --pools pools.json | @LABELS | {"names":["k"],"paths":{"/labels/k":[]}} | 3
    ! crdx: pools: P5 "/labels/k"
an index of a list | crdx sample crd.json v1 --pools pools.json | @SET | {"paths":{"/s/0":[]}} | 3
    ! crdx: pools: P5 "/s/0"
a path below any value | crdx sample crd.json v1 --pools pools.json | @OPEN | {"paths":{"/x/q":[]}} | 3
    ! crdx: pools: P5 "/x/q"
a path of the envelope | crdx sample crd.json v1 --pools pools.json | @SPEC | {"paths":{"/metadata/name":[]}} | 3
    ! crdx: pools: P5 "/metadata/name"
a path with a wrong escape | crdx sample crd.json v1 --pools pools.json | @SPEC | {"paths":{"/spec/a~":[]}} | 3
    ! crdx: pools: P5 "/spec/a~"
"#;

static BESIDE_OTHERS: &str = r#"
10 rows: name | command | schema | second | status
the first of three bad paths | crdx sample crd.json v1 --pools pools.json | @SPEC | {"paths":{"/spec/c":[],"/spec":[],"/spec/a":[1],"/z":[]}} | 3
    ! crdx: pools: P5 "/spec"
a bad path after a good one | crdx sample crd.json v1 --pools pools.json | @SPEC | {"paths":{"/spec/a":[1],"/spec/b":[true],"/spec/c":[]}} | 3
    ! crdx: pools: P5 "/spec/c"
a bad path by bytes, and not by steps | crdx sample crd.json v1 --pools pools.json | @SPEC | {"paths":{"/spec/c":[],"/spec-c":[]}} | 3
    ! crdx: pools: P5 "/spec-c"
a text with a quotation mark | crdx sample crd.json v1 --pools pools.json | @SPEC | {"paths":{"/\"":[]}} | 3
    ! crdx: pools: P5 "/\""
a bad path beside what is no sample | crdx sample crd.json v1 --pools pools.json --after {"zzz":1} | @SPEC | {"paths":{"/spec/c":[]}} | 3
    ! crdx: pools: P5 "/spec/c"
a bad path beside what is no JSON | crdx sample crd.json v1 --pools pools.json --after { | @SPEC | {"paths":{"/spec/c":[]}} | 3
    ! crdx: pools: P5 "/spec/c"
a bad path at a limit of 127 | crdx sample crd.json v1 --pools pools.json --limit 127 | @SPEC | {"paths":{"/spec/c":[]}} | 3
    ! crdx: pools: P5 "/spec/c"
no object of paths | crdx sample crd.json v1 --pools pools.json | @SPEC | {"paths":[]} | 3
    ! crdx: pools: P1 "/paths"
what is no list beside a bad path | crdx sample crd.json v1 --pools pools.json | @SPEC | {"paths":{"/spec/b":1,"/spec/a~":[]}} | 3
    ! crdx: pools: P1 "/paths/~1spec~1b"
a bad path beside a bad schema | crdx sample crd.json v1 --pools pools.json | {"type":"object","properties":{"a":{}}} | {"paths":{"/a":[]}} | 1
    ! V01 "/properties/a"
"#;

static FIXED_AND_PRESENT: &str = r#"
9 rows: name | command | schema | second | status
a fixed path that is not declared | crdx sample crd.json v1 --pools pools.json | @SPEC | {"fixed":{"/spec/a":[],"/spec/c":[]}} | 3
    ! crdx: pools: P5 "/spec/c"
the fixed items of a map list | crdx sample crd.json v1 --pools pools.json | @MAP_LIST | {"fixed":{"/m":[],"/m/[]":[],"/m/[]/k":[]}} | 3
    ! crdx: pools: P5 "/m/[]"
the fixed root | crdx sample crd.json v1 --pools pools.json | @SPEC | {"fixed":{"":[{}]}} | 3
    ! crdx: pools: P5 ""
a fixed text that is no path | crdx sample crd.json v1 --pools pools.json | @SPEC | {"fixed":{"spec":[]}} | 3
    ! crdx: pools: P5 "spec"
the first of two bad fixed paths | crdx sample crd.json v1 --pools pools.json | @SPEC | {"fixed":{"/z":[],"/spec":[],"/spec/c":[]}} | 3
    ! crdx: pools: P5 "/spec/c"
a present path that is not declared | crdx sample crd.json v1 --pools pools.json | @SPEC | {"present":["/spec/a","/spec/c"]} | 3
    ! crdx: pools: P5 "/spec/c"
the first of three bad present paths by bytes | crdx sample crd.json v1 --pools pools.json | @SPEC
    | {"present":["/z","/spec","/spec/c","/spec-c","/z"]} | 3
    ! crdx: pools: P5 "/spec-c"
the present root | crdx sample crd.json v1 --pools pools.json | @SPEC | {"present":[""]} | 3
    ! crdx: pools: P5 ""
a present text that is no path | crdx sample crd.json v1 --pools pools.json | @SPEC | {"present":["/spec/[0]"]} | 3
    ! crdx: pools: P5 "/spec/[0]"
"#;

static OF_SEVERAL_KINDS: &str = r#"
4 rows: name | command | schema | second | status
a bad path before fixed and present ones | crdx sample crd.json v1 --pools pools.json | @SPEC
    | {"present":["/a"],"fixed":{"/b":[]},"paths":{"/spec":[]}} | 3
    ! crdx: pools: P5 "/spec"
a bad fixed path before a present one | crdx sample crd.json v1 --pools pools.json | @SPEC
    | {"present":["/a"],"fixed":{"/b":[]},"paths":{"/spec/a":[]}} | 3
    ! crdx: pools: P5 "/b"
fixed values that are no object | crdx sample crd.json v1 --pools pools.json | @SPEC | {"fixed":[],"present":["/z"]} | 3
    ! crdx: pools: P1 "/fixed"
an integer among present paths | crdx sample crd.json v1 --pools pools.json | @SPEC | {"present":["/z",0]} | 3
    ! crdx: pools: P1 "/present/1"
"#;

#[test]
fn bad_paths(rt: HostRuntime) -> Result<(), Fail> {
    try_tables(
        &rt,
        rt.alloc(),
        &SchemaRunRow,
        &[
            NO_SCALARS,
            BELOW_FIELDS,
            BESIDE_OTHERS,
            FIXED_AND_PRESENT,
            OF_SEVERAL_KINDS,
        ],
    )
}
