//! `sample` with fixed values for paths.
use crate::support::harness::SchemaRunRow;
use crate::support::rows::try_tables;
use std::test::Fail;

// What the tables name.
static NAMED: &str = r#"
// A list of booleans.
@LIST | {"type":"object","properties":{"l":{"type":"array","items":{"type":"boolean"}}}}
"#;

static SCALARS_AND_OBJECTS: &str = r#"
4 rows: name | command | schema | second | status
a scalar | crdx sample crd.json v1 --pools pools.json --limit 4 | @SPEC | {"integers":[0],"fixed":{"/spec/a":[7,"x",null,7]}} | 0
    > {}
    > {"spec":{}}
    > {"spec":{"b":false}}
    > {"spec":{"b":true}}
    > {"spec":{"a":7}}
    > {"spec":{"a":7,"b":false}}
    > {"spec":{"a":7,"b":true}}
    ! crdx: end
a value that enum does not list | crdx sample crd.json v1 --pools pools.json --limit 9
    | {"type":"object","properties":{"e":{"type":"string","enum":["a","b"]}}} | {"fixed":{"/e":["c","b"]}} | 0
    > {}
    > {"e":"b"}
    ! crdx: end
objects, one of them with an undeclared name | crdx sample crd.json v1 --pools pools.json --limit 4 | @SPEC
    | {"integers":[0],"fixed":{"/spec":[{"b":true,"a":5},{"c":1},{"a":5}]}} | 0
    > {}
    > {"spec":{"a":5}}
    > {"spec":{"a":5,"b":true}}
    ! crdx: end
objects, one of them without a default | crdx sample crd.json v1 --pools pools.json --limit 9 | @DEFAULTED | {"fixed":{"/spec":[{},{"f":3}]}} | 0
    > {}
    > {"spec":{"f":3}}
    ! crdx: end
"#;

static LISTS_AND_MAPS: &str = r#"
9 rows: name | command | schema | second | status
lists | crdx sample crd.json v1 --pools pools.json --limit 5 | @LIST | {"fixed":{"/l":[[true,true,true],[],"x"]}} | 0
    > {}
    > {"l":[]}
    > {"l":[true,true,true]}
    ! crdx: end
lists, one of them with more nodes than the limit | crdx sample crd.json v1 --pools pools.json --limit 4 | @LIST
    | {"fixed":{"/l":[[true,true,true],[]]}} | 0
    > {}
    > {"l":[]}
    ! crdx: end
a map of names that are not in the pools | crdx sample crd.json v1 --pools pools.json --limit 9 | @LABELS
    | {"names":["k"],"strings":["x"],"fixed":{"/labels":[{"z":"q"}]}} | 0
    > {}
    > {"labels":{"z":"q"}}
    ! crdx: end
the values of a map | crdx sample crd.json v1 --pools pools.json --limit 4 | @LABELS
    | {"names":["k","j"],"strings":["x"],"fixed":{"/labels/{}":["p"]}} | 0
    > {}
    > {"labels":{}}
    > {"labels":{"k":"p"}}
    > {"labels":{"j":"p"}}
    > {"labels":{"j":"p","k":"p"}}
    ! crdx: end
the items of a list | crdx sample crd.json v1 --pools pools.json --limit 4 | @LIST | {"fixed":{"/l/[]":[true]}} | 0
    > {}
    > {"l":[]}
    > {"l":[true]}
    > {"l":[true,true]}
    ! crdx: end
the items of a list of objects | crdx sample crd.json v1 --pools pools.json --limit 5 | @LIST_OF_OBJECTS | {"fixed":{"/l/[]":[{"b":true},{}]}} | 0
    > {}
    > {"l":[]}
    > {"l":[{}]}
    > {"l":[{},{}]}
    > {"l":[{"b":true}]}
    > {"l":[{},{},{}]}
    > {"l":[{},{"b":true}]}
    > {"l":[{"b":true},{}]}
    ! crdx: end
the items of a set | crdx sample crd.json v1 --pools pools.json --limit 9 | @SET | {"integers":[2],"fixed":{"/s/[]":[5,"x",5]}} | 0
    > {}
    > {"s":[]}
    > {"s":[5]}
    ! crdx: end
the key of a map list | crdx sample crd.json v1 --pools pools.json --limit 63 | @MAP_LIST | {"strings":["a"],"integers":[0],"fixed":{"/m/[]/k":["b"]}}
    | 0
    > {}
    > {"m":[]}
    > {"m":[{"k":"b"}]}
    > {"m":[{"k":"b","v":0}]}
    ! crdx: end
a map list | crdx sample crd.json v1 --pools pools.json --limit 63 | @MAP_LIST
    | {"strings":["a"],"fixed":{"/m":[[{"k":"y"},{"k":"z"}],[{"k":"y"},{"k":"y"}]]}} | 0
    > {}
    > {"m":[{"k":"y"},{"k":"z"}]}
    ! crdx: end
"#;

static OPEN_PLACES_AND_NULLS: &str = r#"
7 rows: name | command | schema | second | status
an open place | crdx sample crd.json v1 --pools pools.json --limit 9 | @OPEN | {"any":[2],"fixed":{"/x":[{"q":1},null]}} | 0
    > {}
    > {"x":{"q":1}}
    ! crdx: end
an open place that may be null, with null | crdx sample crd.json v1 --pools pools.json --limit 9 | @OPEN_NULLABLE
    | {"any":[2],"fixed":{"/x":[1,null]}} | 0
    > {}
    > {"x":null}
    > {"x":1}
    ! crdx: end
an open place that may be null, without null | crdx sample crd.json v1 --pools pools.json --limit 9 | @OPEN_NULLABLE | {"any":[2],"fixed":{"/x":[1]}}
    | 0
    > {}
    > {"x":1}
    ! crdx: end
null for an object | crdx sample crd.json v1 --pools pools.json --limit 9 | @NULLABLE | {"fixed":{"/n":[null]}} | 0
    > {}
    > {"n":null}
    ! crdx: end
an object that may be null, without null | crdx sample crd.json v1 --pools pools.json --limit 9 | @NULLABLE | {"fixed":{"/n":[{}]}} | 0
    > {}
    > {"n":{}}
    ! crdx: end
no values | crdx sample crd.json v1 --pools pools.json --limit 9 | @SPEC | {"integers":[0],"fixed":{"/spec":[]}} | 0
    > {}
    ! crdx: end
no values for what is required | crdx sample crd.json v1 --pools pools.json --limit 63 | @REQUIRED_LONG_MAP_LIST
    | {"strings":["a","b","c"],"fixed":{"/m":[]}} | 0
    ! crdx: end
"#;

static BESIDE_OTHER_PATHS: &str = r#"
7 rows: name | command | schema | second | status
a path below another fixed path | crdx sample crd.json v1 --pools pools.json --limit 9 | @SPEC
    | {"integers":[0],"fixed":{"/spec":[{"a":5}],"/spec/a":[7]}} | 0
    > {}
    > {"spec":{"a":5}}
    ! crdx: end
a list of values for a fixed path | crdx sample crd.json v1 --pools pools.json --limit 3 | @SPEC | {"paths":{"/spec/a":[1]},"fixed":{"/spec/a":[2]}}
    | 0
    > {}
    > {"spec":{}}
    > {"spec":{"b":false}}
    > {"spec":{"b":true}}
    > {"spec":{"a":2}}
    ! crdx: end
a list of values below a fixed path | crdx sample crd.json v1 --pools pools.json --limit 3 | @SPEC
    | {"paths":{"/spec/a":[1]},"fixed":{"/spec":[{"a":2}]}} | 0
    > {}
    > {"spec":{"a":2}}
    ! crdx: end
a fixed path that is always there | crdx sample crd.json v1 --pools pools.json --limit 9 | @SPEC | {"fixed":{"/spec":[{"a":5}]},"present":["/spec"]}
    | 0
    > {"spec":{"a":5}}
    ! crdx: end
a path below a fixed path that is always there | crdx sample crd.json v1 --pools pools.json --limit 9 | @SPEC
    | {"fixed":{"/spec":[{},{"a":5}]},"present":["/spec/a"]} | 0
    > {}
    > {"spec":{}}
    > {"spec":{"a":5}}
    ! crdx: end
an item of a list whose items are fixed to nothing | crdx sample crd.json v1 --pools pools.json --limit 9 | @LIST
    | {"fixed":{"/l/[]":[]},"present":["/l/[]"]} | 0
    > {}
    ! crdx: end
a field with a default | crdx sample crd.json v1 --pools pools.json --limit 9 | @DEFAULTED | {"integers":[0,7],"fixed":{"/spec/f":[3]}} | 0
    > {}
    > {"spec":{"f":3}}
    ! crdx: end
"#;

static BEGINNINGS: &str = r#"
3 rows: name | command | schema | second | status
past a fixed value | crdx sample crd.json v1 --pools pools.json --limit 4 --after {"spec":{"a":5}} | @SPEC
    | {"fixed":{"/spec":[{"b":true,"a":5},{"a":5}]}} | 0
    > {"spec":{"a":5,"b":true}}
    ! crdx: end
past what is not a fixed value | crdx sample crd.json v1 --pools pools.json --limit 4 --after {"spec":{}} | @SPEC
    | {"fixed":{"/spec":[{"b":true,"a":5},{"a":5}]}} | 1
    ! crdx: after: not a sample
with room for 127 nodes | crdx sample crd.json v1 --pools pools.json --limit 127 | @SPEC
    | {"fixed":{"/spec":[{"b":true,"a":5},{"a":5}]},"present":["/spec"]} | 0
    > {"spec":{"a":5}}
    > {"spec":{"a":5,"b":true}}
    ! crdx: end
"#;

#[test]
fn fixed_paths(rt: HostRuntime) -> Result<(), Fail> {
    try_tables(
        &rt,
        rt.alloc(),
        &SchemaRunRow,
        &[
            NAMED,
            SCALARS_AND_OBJECTS,
            LISTS_AND_MAPS,
            OPEN_PLACES_AND_NULLS,
            BESIDE_OTHER_PATHS,
            BEGINNINGS,
        ],
    )
}
