//! `sample` with lists of values for the paths of fields.
use crate::support::harness::SchemaRunRow;
use crate::support::rows::try_tables;
use std::test::Fail;

static TRUTHS_AND_KEYS: &str = r#"
8 rows: name | command | schema | second | status
a list for a boolean | crdx sample crd.json v1 --pools pools.json --limit 4 | @SPEC | {"integers":[0,1],"paths":{"/spec/b":[true]}} | 0
    > {}
    > {"spec":{}}
    > {"spec":{"b":true}}
    > {"spec":{"a":0}}
    > {"spec":{"a":1}}
    > {"spec":{"a":0,"b":true}}
    > {"spec":{"a":1,"b":true}}
    ! crdx: end
an empty list for a boolean | crdx sample crd.json v1 --pools pools.json --limit 4 | @SPEC | {"integers":[0,1],"paths":{"/spec/b":[]}} | 0
    > {}
    > {"spec":{}}
    > {"spec":{"a":0}}
    > {"spec":{"a":1}}
    ! crdx: end
the key of a map list | crdx sample crd.json v1 --pools pools.json --limit 8 | @MAP_LIST
    | {"strings":["a","b"],"integers":[0],"paths":{"/m/[]/k":["a"]}} | 0
    > {}
    > {"m":[]}
    > {"m":[{"k":"a"}]}
    > {"m":[{"k":"a","v":0}]}
    ! crdx: end
the key of a map list that has more keys than the pool | crdx sample crd.json v1 --pools pools.json --limit 6 | @MAP_LIST
    | {"strings":["z"],"paths":{"/m/[]/k":["b","a"]}} | 0
    > {}
    > {"m":[]}
    > {"m":[{"k":"a"}]}
    > {"m":[{"k":"b"}]}
    > {"m":[{"k":"a"},{"k":"b"}]}
    > {"m":[{"k":"b"},{"k":"a"}]}
    ! crdx: end
a map list of three items that has two keys | crdx sample crd.json v1 --pools pools.json --limit 63 | @LONG_MAP_LIST
    | {"strings":["a","b","c"],"paths":{"/m/[]/k":["a","b"]}} | 0
    > {}
    ! crdx: end
a required map list of three items that has two keys | crdx sample crd.json v1 --pools pools.json --limit 63 | @REQUIRED_LONG_MAP_LIST
    | {"strings":["a","b","c"],"paths":{"/m/[]/k":["a","b"]}} | 0
    ! crdx: end
a field beside the key of a map list | crdx sample crd.json v1 --pools pools.json --limit 4 | @MAP_LIST
    | {"strings":["a"],"integers":[0],"paths":{"/m/[]/v":[4,3]}} | 0
    > {}
    > {"m":[]}
    > {"m":[{"k":"a"}]}
    ! crdx: end
a field beside the key of a map list, with room | crdx sample crd.json v1 --pools pools.json --limit 5 | @MAP_LIST
    | {"strings":["a"],"integers":[0],"paths":{"/m/[]/v":[4,3]}} | 0
    > {}
    > {"m":[]}
    > {"m":[{"k":"a"}]}
    > {"m":[{"k":"a","v":3}]}
    > {"m":[{"k":"a","v":4}]}
    ! crdx: end
"#;

static ITEMS_AND_OPEN_PLACES: &str = r#"
6 rows: name | command | schema | second | status
the items of a set | crdx sample crd.json v1 --pools pools.json --limit 63 | @SET | {"integers":[2,1,2],"paths":{"/s/[]":[2]}} | 0
    > {}
    > {"s":[]}
    > {"s":[2]}
    ! crdx: end
the items of a list | crdx sample crd.json v1 --pools pools.json --limit 4
    | {"type":"object","properties":{"l":{"type":"array","items":{"type":"integer"}}}} | {"integers":[5],"paths":{"/l/[]":[2,1]}} | 0
    > {}
    > {"l":[]}
    > {"l":[1]}
    > {"l":[2]}
    > {"l":[1,1]}
    > {"l":[1,2]}
    > {"l":[2,1]}
    > {"l":[2,2]}
    ! crdx: end
the values of a map | crdx sample crd.json v1 --pools pools.json --limit 4 | @LABELS
    | {"names":["k"],"strings":["x"],"paths":{"/labels/{}":["z","y"]}} | 0
    > {}
    > {"labels":{}}
    > {"labels":{"k":"y"}}
    > {"labels":{"k":"z"}}
    ! crdx: end
any value | crdx sample crd.json v1 --pools pools.json --limit 3 | @OPEN | {"any":[1],"paths":{"/x":[[0],"t"]}} | 0
    > {}
    > {"x":"t"}
    > {"x":[0]}
    ! crdx: end
any value, with too little room for some | crdx sample crd.json v1 --pools pools.json --limit 2 | @OPEN | {"any":[1],"paths":{"/x":[[0],"t"]}} | 0
    > {}
    > {"x":"t"}
    ! crdx: end
any value, with no values | crdx sample crd.json v1 --pools pools.json --limit 3 | @OPEN | {"any":[1],"paths":{"/x":[]}} | 0
    > {}
    ! crdx: end
"#;

static NULLS: &str = r#"
5 rows: name | command | schema | second | status
an empty list for a field that may be null | crdx sample crd.json v1 --pools pools.json --limit 2
    | {"type":"object","properties":{"n":{"type":"integer","nullable":true}}} | {"integers":[1],"paths":{"/n":[]}} | 0
    > {}
    > {"n":null}
    ! crdx: end
null for a field that may be null | crdx sample crd.json v1 --pools pools.json --limit 2
    | {"type":"object","properties":{"n":{"type":"integer","nullable":true}}} | {"integers":[1],"paths":{"/n":[null]}} | 0
    > {}
    > {"n":null}
    ! crdx: end
an integer for a field that may be null | crdx sample crd.json v1 --pools pools.json --limit 2
    | {"type":"object","properties":{"n":{"type":"integer","nullable":true}}} | {"integers":[1],"paths":{"/n":[3]}} | 0
    > {}
    > {"n":null}
    > {"n":3}
    ! crdx: end
null for a field that may not be null | crdx sample crd.json v1 --pools pools.json --limit 2 | {"type":"object","properties":{"n":{"type":"integer"}}}
    | {"integers":[1],"paths":{"/n":[null,2]}} | 0
    > {}
    > {"n":2}
    ! crdx: end
any value or null | crdx sample crd.json v1 --pools pools.json --limit 2 | @OPEN_NULLABLE | {"any":[1],"paths":{"/x":[2]}} | 0
    > {}
    > {"x":null}
    > {"x":2}
    ! crdx: end
"#;

static ENUMS_AND_DEFAULTS: &str = r#"
5 rows: name | command | schema | second | status
a value that is not in the enum | crdx sample crd.json v1 --pools pools.json --limit 2
    | {"type":"object","properties":{"e":{"type":"string","enum":["a","b"]}}} | {"strings":["c"],"paths":{"/e":["b","c"]}} | 0
    > {}
    > {"e":"b"}
    ! crdx: end
only values that are not in the enum | crdx sample crd.json v1 --pools pools.json --limit 2
    | {"type":"object","properties":{"e":{"type":"string","enum":["a","b"]}}} | {"strings":["a"],"paths":{"/e":["c"]}} | 0
    > {}
    ! crdx: end
values past the bounds | crdx sample crd.json v1 --pools pools.json --limit 2
    | {"type":"object","properties":{"n":{"type":"integer","minimum":2,"maximum":3}}} | {"integers":[2],"paths":{"/n":[4,3,1]}} | 0
    > {}
    > {"n":3}
    ! crdx: end
a field with a default | crdx sample crd.json v1 --pools pools.json --limit 3 | @DEFAULTED | {"integers":[0,7],"paths":{"/spec/f":[5]}} | 0
    > {}
    > {"spec":{"f":5}}
    ! crdx: end
an empty list for a field with a default | crdx sample crd.json v1 --pools pools.json --limit 3 | @DEFAULTED
    | {"integers":[0,7],"paths":{"/spec/f":[]}} | 0
    > {}
    ! crdx: end
"#;

static SEVERAL_FIELDS: &str = r#"
5 rows: name | command | schema | second | status
two fields of one type | crdx sample crd.json v1 --pools pools.json --limit 3
    | {"type":"object","properties":{"a":{"type":"integer"},"b":{"type":"integer"}}} | {"integers":[9],"paths":{"/a":[1],"/b":[2]}} | 0
    > {}
    > {"b":2}
    > {"a":1}
    > {"a":1,"b":2}
    ! crdx: end
one of two fields of one type | crdx sample crd.json v1 --pools pools.json --limit 3
    | {"type":"object","properties":{"a":{"type":"integer"},"b":{"type":"integer"}}} | {"integers":[9],"paths":{"/b":[2]}} | 0
    > {}
    > {"b":2}
    > {"a":9}
    > {"a":9,"b":2}
    ! crdx: end
integers and texts | crdx sample crd.json v1 --pools pools.json --limit 2 | {"type":"object","properties":{"p":{"x-kubernetes-int-or-string":true}}}
    | {"integers":[1],"strings":["1"],"paths":{"/p":["80%",true,2]}} | 0
    > {}
    > {"p":2}
    > {"p":"80%"}
    ! crdx: end
no paths | crdx sample crd.json v1 --pools pools.json --limit 4 | @SPEC | {"integers":[0,1],"paths":{}} | 0
    > @TEN_LINES
    ! crdx: end
entries of another kind | crdx sample crd.json v1 --pools pools.json --limit 4 | @SPEC
    | {"integers":[0],"paths":{"/spec/b":["x",1,null,[],{},false,false]}} | 0
    > {}
    > {"spec":{}}
    > {"spec":{"b":false}}
    > {"spec":{"a":0}}
    > {"spec":{"a":0,"b":false}}
    ! crdx: end
"#;

static NAMES_AND_BEGINNINGS: &str = r#"
6 rows: name | command | schema | second | status
names with letters that are escaped | crdx sample crd.json v1 --pools pools.json --limit 2
    | {"type":"object","properties":{"a/b":{"type":"integer"},"c~[{":{"type":"integer"}}} | {"paths":{"/a~1b":[1],"/c~0~2~3":[2]}} | 0
    > {}
    > {"c~[{":2}
    > {"a/b":1}
    ! crdx: end
the empty name | crdx sample crd.json v1 --pools pools.json --limit 2 | {"type":"object","properties":{"":{"type":"integer"}}} | {"paths":{"/":[1]}}
    | 0
    > {}
    > {"":1}
    ! crdx: end
a list of lists | crdx sample crd.json v1 --pools pools.json --limit 4
    | {"type":"object","properties":{"l":{"type":"array","items":{"type":"array","items":{"type":"integer"}}}}}
    | {"integers":[0],"paths":{"/l/[]/[]":[3]}} | 0
    > {}
    > {"l":[]}
    > {"l":[[]]}
    > {"l":[[],[]]}
    > {"l":[[3]]}
    ! crdx: end
past a sample over a list | crdx sample crd.json v1 --pools pools.json --limit 4 --after {"spec":{"a":1}} | @SPEC
    | {"integers":[0,1],"paths":{"/spec/b":[true]}} | 0
    > {"spec":{"a":0,"b":true}}
    > {"spec":{"a":1,"b":true}}
    ! crdx: end
past what is no sample over a list | crdx sample crd.json v1 --pools pools.json --limit 4 --after {"spec":{"b":false}} | @SPEC
    | {"integers":[0,1],"paths":{"/spec/b":[true]}} | 1
    ! crdx: after: not a sample
a list with room for 127 nodes | crdx sample crd.json v1 --pools pools.json --limit 127 | @SPEC | {"integers":[0,1],"paths":{"/spec/b":[]}} | 0
    > {}
    > {"spec":{}}
    > {"spec":{"a":0}}
    > {"spec":{"a":1}}
    ! crdx: end
"#;

#[test]
fn paths(rt: HostRuntime) -> Result<(), Fail> {
    try_tables(
        &rt,
        rt.alloc(),
        &SchemaRunRow,
        &[
            TRUTHS_AND_KEYS,
            ITEMS_AND_OPEN_PLACES,
            NULLS,
            ENUMS_AND_DEFAULTS,
            SEVERAL_FIELDS,
            NAMES_AND_BEGINNINGS,
        ],
    )
}
