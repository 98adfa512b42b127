//! `sample` with limits up to 127.
use crate::support::harness::SchemaRunRow;
use crate::support::rows::try_tables;
use std::test::Fail;

// What the tables name.
static NAMED: &str = r#"
@LONGER_MAP_LISTS
    > {"m":[{"k":"a"},{"k":"b","v":0}]}
    > {"m":[{"k":"b"},{"k":"a","v":0}]}
    > {"m":[{"k":"a","v":0},{"k":"b"}]}
    > {"m":[{"k":"b","v":0},{"k":"a"}]}
    > {"m":[{"k":"a","v":0},{"k":"b","v":0}]}
    > {"m":[{"k":"b","v":0},{"k":"a","v":0}]}
"#;

static ROWS: &str = r#"
8 rows: name | command | schema | second | status
thirty-one items with too little room | crdx sample crd.json v1 --pools pools.json --limit 63 | @THIRTY_ONE | {} | 0
    ! crdx: end
thirty-one items with a node too little | crdx sample crd.json v1 --pools pools.json --limit 125 | @THIRTY_ONE | {} | 0
    ! crdx: end
thirty-one items | crdx sample crd.json v1 --pools pools.json --limit 126 --count 1 | @THIRTY_ONE | {} | 0
    > {"t":[{"a":false,"b":false,"c":false},{"a":false,"b":false,"c":false},{"a":false,"b":false,"c":false},{"a":false,"b":false,"c":false},␄
    > {"a":false,"b":false,"c":false},{"a":false,"b":false,"c":false},{"a":false,"b":false,"c":false},{"a":false,"b":false,"c":false},␄
    > {"a":false,"b":false,"c":false},{"a":false,"b":false,"c":false},{"a":false,"b":false,"c":false},{"a":false,"b":false,"c":false},␄
    > {"a":false,"b":false,"c":false},{"a":false,"b":false,"c":false},{"a":false,"b":false,"c":false},{"a":false,"b":false,"c":false},␄
    > {"a":false,"b":false,"c":false},{"a":false,"b":false,"c":false},{"a":false,"b":false,"c":false},{"a":false,"b":false,"c":false},␄
    > {"a":false,"b":false,"c":false},{"a":false,"b":false,"c":false},{"a":false,"b":false,"c":false},{"a":false,"b":false,"c":false},␄
    > {"a":false,"b":false,"c":false},{"a":false,"b":false,"c":false},{"a":false,"b":false,"c":false},{"a":false,"b":false,"c":false},␄
    > {"a":false,"b":false,"c":false},{"a":false,"b":false,"c":false},{"a":false,"b":false,"c":false}]}
    ! crdx: more
two fields, 64 nodes | crdx sample crd.json v1 --pools pools.json --limit 64 | @SPEC | {"integers":[0,1]} | 0
    > @TEN_LINES
    ! crdx: end
two fields, 127 nodes | crdx sample crd.json v1 --pools pools.json --limit 127 | @SPEC | {"integers":[0,1]} | 0
    > @TEN_LINES
    ! crdx: end
a set, 127 nodes | crdx sample crd.json v1 --pools pools.json --limit 127 | @SET | {"integers":[2,1,2]} | 0
    > @SIX_SETS
    ! crdx: end
past the last sample of a smaller limit | crdx sample crd.json v1 --pools pools.json --limit 8 --after {"m":[{"k":"b"},{"k":"a"}]} | @MAP_LIST
    | {"strings":["a","b"],"integers":[0]} | 0
    > @LONGER_MAP_LISTS
    ! crdx: end
past the last sample of a smaller limit, at 127 nodes | crdx sample crd.json v1 --pools pools.json --limit 127 --after {"m":[{"k":"b"},{"k":"a"}]}
    | @MAP_LIST | {"strings":["a","b"],"integers":[0]} | 0
    > @LONGER_MAP_LISTS
    ! crdx: end
"#;

#[test]
fn limits(rt: HostRuntime) -> Result<(), Fail> {
    try_tables(&rt, rt.alloc(), &SchemaRunRow, &[NAMED, ROWS])
}
