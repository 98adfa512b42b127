//! `sample` with paths that are always there.
use crate::support::harness::SchemaRunRow;
use crate::support::rows::try_tables;
use std::test::Fail;

static FIELDS: &str = r#"
4 rows: name | command | schema | second | status
a field that is always there | crdx sample crd.json v1 --pools pools.json --limit 4 | @SPEC | {"integers":[0],"present":["/spec"]} | 0
    > {"spec":{}}
    > {"spec":{"b":false}}
    > {"spec":{"b":true}}
    > {"spec":{"a":0}}
    > {"spec":{"a":0,"b":false}}
    > {"spec":{"a":0,"b":true}}
    ! crdx: end
a field of an object that may be absent | crdx sample crd.json v1 --pools pools.json --limit 4 | @SPEC | {"integers":[0],"present":["/spec/a"]} | 0
    > {}
    > {"spec":{"a":0}}
    > {"spec":{"a":0,"b":false}}
    > {"spec":{"a":0,"b":true}}
    ! crdx: end
an object and a field of it, each twice | crdx sample crd.json v1 --pools pools.json --limit 4 | @SPEC
    | {"integers":[0],"present":["/spec/a","/spec","/spec","/spec/a"]} | 0
    > {"spec":{"a":0}}
    > {"spec":{"a":0,"b":false}}
    > {"spec":{"a":0,"b":true}}
    ! crdx: end
a field with no candidates | crdx sample crd.json v1 --pools pools.json --limit 4 | @SPEC | {"present":["/spec/a"]} | 0
    > {}
    ! crdx: end
"#;

static ITEMS: &str = r#"
9 rows: name | command | schema | second | status
a field of the items of a list | crdx sample crd.json v1 --pools pools.json --limit 5 | @LIST_OF_OBJECTS | {"present":["/l/[]/a"]} | 0
    > {}
    > {"l":[]}
    > {"l":[{"a":false}]}
    > {"l":[{"a":true}]}
    > {"l":[{"a":false,"b":false}]}
    > {"l":[{"a":false,"b":true}]}
    > {"l":[{"a":true,"b":false}]}
    > {"l":[{"a":true,"b":true}]}
    ! crdx: end
an item of a list | crdx sample crd.json v1 --pools pools.json --limit 4
    | {"type":"object","properties":{"l":{"type":"array","items":{"type":"boolean"}}}} | {"present":["/l/[]"]} | 0
    > {}
    > {"l":[false]}
    > {"l":[true]}
    > {"l":[false,false]}
    > {"l":[false,true]}
    > {"l":[true,false]}
    > {"l":[true,true]}
    ! crdx: end
an item of a list of objects | crdx sample crd.json v1 --pools pools.json --limit 4 | @LIST_OF_OBJECTS | {"present":["/l/[]"]} | 0
    > {}
    > {"l":[{}]}
    > {"l":[{},{}]}
    > {"l":[{"b":false}]}
    > {"l":[{"b":true}]}
    > {"l":[{"a":false}]}
    > {"l":[{"a":true}]}
    ! crdx: end
an item of a list that has at least two | crdx sample crd.json v1 --pools pools.json --limit 4
    | {"type":"object","properties":{"l":{"type":"array","minItems":2,"items":{"type":"boolean","enum":[true]}}}} | {"present":["/l/[]"]} | 0
    > {}
    > {"l":[true,true]}
    ! crdx: end
an item of a list that has none | crdx sample crd.json v1 --pools pools.json --limit 9
    | {"type":"object","properties":{"l":{"type":"array","maxItems":0,"items":{"type":"boolean"}}}} | {"present":["/l/[]"]} | 0
    > {}
    ! crdx: end
an item of a list that may be null | crdx sample crd.json v1 --pools pools.json --limit 3
    | {"type":"object","properties":{"l":{"type":"array","nullable":true,"items":{"type":"boolean"}}}} | {"present":["/l/[]"]} | 0
    > {}
    > {"l":[false]}
    > {"l":[true]}
    ! crdx: end
an item of a set | crdx sample crd.json v1 --pools pools.json --limit 9 | @SET | {"integers":[2,1],"present":["/s/[]"]} | 0
    > {}
    > {"s":[1]}
    > {"s":[2]}
    > {"s":[1,2]}
    > {"s":[2,1]}
    ! crdx: end
an item of a map list | crdx sample crd.json v1 --pools pools.json --limit 5 | @MAP_LIST | {"strings":["a"],"integers":[0],"present":["/m/[]"]} | 0
    > {}
    > {"m":[{"k":"a"}]}
    > {"m":[{"k":"a","v":0}]}
    ! crdx: end
a field beside the key of a map list | crdx sample crd.json v1 --pools pools.json --limit 5 | @MAP_LIST
    | {"strings":["a"],"integers":[0],"present":["/m/[]/v"]} | 0
    > {}
    > {"m":[]}
    > {"m":[{"k":"a","v":0}]}
    ! crdx: end
"#;

static VALUES_AND_NULLS: &str = r#"
6 rows: name | command | schema | second | status
a value of a map | crdx sample crd.json v1 --pools pools.json --limit 4 | @LABELS | {"names":["k","j"],"strings":["x"],"present":["/labels/{}"]} | 0
    > {}
    > {"labels":{"k":"x"}}
    > {"labels":{"j":"x"}}
    > {"labels":{"j":"x","k":"x"}}
    ! crdx: end
a value of a map without names | crdx sample crd.json v1 --pools pools.json --limit 4 | @LABELS | {"strings":["x"],"present":["/labels/{}"]} | 0
    > {}
    ! crdx: end
a value of a map that may be null | crdx sample crd.json v1 --pools pools.json --limit 3
    | {"type":"object","properties":{"m":{"type":"object","nullable":true,"additionalProperties":{"type":"boolean"}}}}
    | {"names":["k"],"present":["/m/{}"]} | 0
    > {}
    > {"m":{"k":false}}
    > {"m":{"k":true}}
    ! crdx: end
a field with a default | crdx sample crd.json v1 --pools pools.json --limit 3 | @DEFAULTED | {"integers":[0,7],"present":["/spec/f"]} | 0
    > {}
    > {"spec":{"f":0}}
    > {"spec":{"f":7}}
    ! crdx: end
a field of an object that may be null | crdx sample crd.json v1 --pools pools.json --limit 3 | @NULL_OR_TRUTH | {"present":["/n/a"]} | 0
    > {}
    > {"n":{"a":false}}
    > {"n":{"a":true}}
    ! crdx: end
an object that may be null | crdx sample crd.json v1 --pools pools.json --limit 3 | @NULL_OR_TRUTH | {"present":["/n"]} | 0
    > {"n":null}
    > {"n":{}}
    > {"n":{"a":false}}
    > {"n":{"a":true}}
    ! crdx: end
"#;

static NAMED_FIELDS: &str = r#"
4 rows: name | command | schema | second | status
a field that a junctor names | crdx sample crd.json v1 --pools pools.json --limit 4 | @ONE_OF_TWO | {"present":["/o/b"]} | 0
    > {}
    > {"o":{"b":false}}
    > {"o":{"b":true}}
    > {"o":{"b":false,"c":false}}
    > {"o":{"b":false,"c":true}}
    > {"o":{"b":true,"c":false}}
    > {"o":{"b":true,"c":true}}
    ! crdx: end
two fields of which a junctor allows one | crdx sample crd.json v1 --pools pools.json --limit 9 | @ONE_OF_TWO | {"present":["/o/b","/o/a"]} | 0
    > {}
    ! crdx: end
two fields of an object that has at most one | crdx sample crd.json v1 --pools pools.json --limit 9 | @AT_MOST_ONE | {"present":["/o/a","/o/b"]} | 0
    > {}
    ! crdx: end
one of two fields of an object that has at most one | crdx sample crd.json v1 --pools pools.json --limit 9 | @AT_MOST_ONE | {"present":["/o/b"]} | 0
    > {}
    > {"o":{"b":false}}
    > {"o":{"b":true}}
    ! crdx: end
"#;

static BEGINNINGS: &str = r#"
3 rows: name | command | schema | second | status
past a sample that has the field | crdx sample crd.json v1 --pools pools.json --limit 4 --after {"spec":{"a":0}} | @SPEC
    | {"integers":[0],"present":["/spec"]} | 0
    > {"spec":{"a":0,"b":false}}
    > {"spec":{"a":0,"b":true}}
    ! crdx: end
past what has not the field | crdx sample crd.json v1 --pools pools.json --limit 4 --after {} | @SPEC | {"integers":[0],"present":["/spec"]} | 1
    ! crdx: after: not a sample
past null above the field | crdx sample crd.json v1 --pools pools.json --limit 4 --after {"n":null} | @NULL_OR_TRUTH | {"present":["/n/a"]} | 1
    ! crdx: after: not a sample
"#;

#[test]
fn present_paths(rt: HostRuntime) -> Result<(), Fail> {
    try_tables(
        &rt,
        rt.alloc(),
        &SchemaRunRow,
        &[FIELDS, ITEMS, VALUES_AND_NULLS, NAMED_FIELDS, BEGINNINGS],
    )
}
