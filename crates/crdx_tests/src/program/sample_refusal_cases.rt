//! `sample`: what is said of the inputs that are refused.
use crate::support::harness::RunRow;
use crate::support::rows::try_tables;
use std::test::Fail;

static DEFINITIONS: &str = r#"
6 rows: name | command | definition | second | status
a definition that is cut, judged before the pools | crdx sample crd.json v1 --pools pools.json
    | {"apiVersion":"apiextensions.k8s.io/v1","kind":"CustomRes | {"integers":[1.5]} | 3
    ! crdx: crd: J3
no definition | crdx sample crd.json v1 | {"kind":"Widget"} | {"integers":[0,1]} | 3
    ! crdx: crd: S1
no such version | crdx sample crd.json v2 | @WIDGET | {"integers":[0,1]} | 3
    ! crdx: crd: S2
a definition that cannot be read | crdx sample nowhere.json v1 | @WIDGET | {"integers":[0,1]} | 4
    ! crdx: crd: read failed
pools that cannot be read | crdx sample crd.json v1 --pools nowhere.json | @WIDGET | {"integers":[0,1]} | 4
    ! crdx: pools: read failed
a schema that breaks rules | crdx sample crd.json v1 | @BROKEN | - | 1
    ! @BROKEN_LINES
"#;

static POOLS: &str = r#"
8 rows: name | command | definition | second | status
a fraction in pools | crdx sample crd.json v1 --pools pools.json | @WIDGET | {"integers":[1.5]} | 3
    ! crdx: pools: J1
an integer past 64 bits | crdx sample crd.json v1 --pools pools.json | @WIDGET | {"integers":[9223372036854775808]} | 3
    ! crdx: pools: J1
a text for a pool, judged before the sample to go on from | crdx sample crd.json v1 --pools pools.json --after { | @WIDGET | {"integers":"x"} | 3
    ! crdx: pools: P1 "/integers"
a text among integers | crdx sample crd.json v1 --pools pools.json | @WIDGET | {"integers":[0,"x"]} | 3
    ! crdx: pools: P1 "/integers/1"
a pool of numbers | crdx sample crd.json v1 --pools pools.json | @WIDGET | {"floats":[]} | 3
    ! crdx: pools: P1 "/floats"
pools that are a list | crdx sample crd.json v1 --pools pools.json | @WIDGET | [] | 3
    ! crdx: pools: P1 ""
a pool of another name | crdx sample crd.json v1 --pools pools.json | @WIDGET | {"a\"/~é":[]} | 3
    ! crdx: pools: P1 "/a\"~1~0é"
33 names | crdx sample crd.json v1 --pools pools.json | @WIDGET
    | {"names":["","","","","","","","","","","","","","","","","","","","","","","","","","","","","","","","",""]} | 3
    ! crdx: pools: P2
"#;

#[test]
fn refusals(rt: HostRuntime) -> Result<(), Fail> {
    try_tables(&rt, rt.alloc(), &RunRow, &[DEFINITIONS, POOLS])
}
