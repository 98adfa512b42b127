//! `cover`: for each path the first sample in which it is there, and with `--values` for each value the first one with it.
use crate::support::harness::SchemaRunRow;
use crate::support::rows::try_tables;
use std::test::Fail;

// What the tables name.
static NAMED: &str = r#"
// A map of booleans.
@MAP_OF_TRUTHS | {"type":"object","properties":{"m":{"type":"object","additionalProperties":{"type":"boolean"}}}}
"#;

static FIELDS: &str = r#"
5 rows: name | command | schema | second | status
an object and its fields | crdx cover crd.json v1 --pools pools.json | @SPEC | {"integers":[0]} | 0
    > {"spec":{}}
    > {"spec":{"a":0}}
    > {"spec":{"b":false}}
    ! crdx: all paths are in some sample
a field with no candidates | crdx cover crd.json v1 | @SPEC | {} | 0
    > {"spec":{}}
    > {"spec":{"b":false}}
    ! crdx: 1 path is in no sample of at most 127 nodes
a field with no candidates, named | crdx cover crd.json v1 --why | @SPEC | {} | 0
    > {"spec":{}}
    > {"spec":{"b":false}}
    ! crdx: 1 path is in no sample of at most 127 nodes
    !     "/spec/a"
a limit below the nodes of some fields | crdx cover crd.json v1 --pools pools.json --limit 2 --why | @SPEC | {"integers":[0]} | 0
    > {"spec":{}}
    ! crdx: 2 paths are in no sample of at most 2 nodes
    !     "/spec/a"
    !     "/spec/b"
whole resources | crdx cover crd.json v1 --limit 2 --name w | @SPEC | {} | 0
    > {"apiVersion":"example.com/v1","kind":"Widget","metadata":{"name":"w"},"spec":{}}
    ! crdx: 2 paths are in no sample of at most 2 nodes
"#;

static LISTS_AND_MAPS: &str = r#"
5 rows: name | command | schema | second | status
the items of a list | crdx cover crd.json v1 | @LIST_OF_OBJECTS | {} | 0
    > {"l":[]}
    > {"l":[{}]}
    > {"l":[{"a":false}]}
    > {"l":[{"b":false}]}
    ! crdx: all paths are in some sample
a field of every item of a list that has at least two | crdx cover crd.json v1
    | {"type":"object","properties":{"l":{"type":"array","minItems":2,"items":{"type":"object","properties":{"a":{"type":"boolean"}}}}}} | {} | 0
    > {"l":[{},{}]}
    > {"l":[{"a":false},{"a":false}]}
    ! crdx: all paths are in some sample
a list that is always empty, and what is below it | crdx cover crd.json v1 --why
    | {"type":"object","properties":{"l":{"type":"array","maxItems":0,"items":{"type":"object","properties":{"a":{"type":"boolean"}}}}}} | {} | 0
    > {"l":[]}
    ! crdx: 2 paths are in no sample of at most 127 nodes
    !     "/l/[]"
    !     "/l/[]/a"
the values of a map | crdx cover crd.json v1 --pools pools.json | @MAP_OF_TRUTHS | {"names":["k"]} | 0
    > {"m":{}}
    > {"m":{"k":false}}
    ! crdx: all paths are in some sample
nothing is below a null | crdx cover crd.json v1 | @NULL_OR_TRUTH | {} | 0
    > {"n":null}
    > {"n":{"a":false}}
    ! crdx: all paths are in some sample
"#;

static MEMBERS: &str = r#"
4 rows: name | command | schema | second | status
a required field is there with its object | crdx cover crd.json v1
    | {"type":"object","properties":{"o":{"type":"object","required":["c"],"properties":{"c":{"type":"boolean"}}}}} | {} | 0
    > {"o":{"c":false}}
    ! crdx: all paths are in some sample
a field with a default is always there | crdx cover crd.json v1
    | {"type":"object","properties":{"d":{"type":"boolean","default":true},"e":{"type":"boolean"}}} | {} | 0
    > {"d":false}
    > {"d":false,"e":false}
    ! crdx: all paths are in some sample
at most one member | crdx cover crd.json v1 | @AT_MOST_ONE | {} | 0
    > {"o":{}}
    > {"o":{"a":false}}
    > {"o":{"b":false}}
    ! crdx: all paths are in some sample
exactly one of two fields | crdx cover crd.json v1 | @ONE_OF_TWO | {} | 0
    > {"o":{"b":false}}
    > {"o":{"a":false}}
    > {"o":{"b":false,"c":false}}
    ! crdx: all paths are in some sample
"#;

static FIXED_AND_PRESENT: &str = r#"
4 rows: name | command | schema | second | status
fixed values, some with a field and some without | crdx cover crd.json v1 --pools pools.json | @SPEC
    | {"fixed":{"/spec":[{},{"b":true},{"a":7,"b":true},{"a":9}]}} | 0
    > {"spec":{}}
    > {"spec":{"a":9}}
    > {"spec":{"b":true}}
    ! crdx: all paths are in some sample
fixed values without a field | crdx cover crd.json v1 --pools pools.json --why | @SPEC | {"integers":[0],"fixed":{"/spec":[{},{"b":true}]}} | 0
    > {"spec":{}}
    > {"spec":{"b":true}}
    ! crdx: 1 path is in no sample of at most 127 nodes
    !     "/spec/a"
fields that are always there | crdx cover crd.json v1 --pools pools.json | @SPEC | {"integers":[0],"present":["/spec","/spec/b"]} | 0
    > {"spec":{"b":false}}
    > {"spec":{"a":0,"b":false}}
    ! crdx: all paths are in some sample
a sample of 22 nodes | crdx cover crd.json v1
    | {"type":"object","properties":{"l":{"type":"array","minItems":20,"items":{"type":"boolean","enum":[true]}}}} | {} | 0
    > {"l":[true,true,true,true,true,true,true,true,true,true,true,true,true,true,true,true,true,true,true,true]}
    ! crdx: all paths are in some sample
"#;

static VALUES: &str = r#"
8 rows: name | command | schema | second | status
the values of two scalars | crdx cover crd.json v1 --pools pools.json --values | @SPEC | {"integers":[7,0]} | 0
    > {"spec":{}}
    > {"spec":{"a":0}}
    > {"spec":{"a":7}}
    > {"spec":{"b":false}}
    > {"spec":{"b":true}}
    ! crdx: all paths and values are in some sample
the values of an enum | crdx cover crd.json v1 --pools pools.json --values | {"type":"object","properties":{"e":{"type":"string","enum":["b","a"]}}}
    | {"strings":["c"]} | 0
    > {"e":"a"}
    > {"e":"b"}
    ! crdx: all paths and values are in some sample
null among the values | crdx cover crd.json v1 --pools pools.json --values | {"type":"object","properties":{"n":{"type":"integer","nullable":true}}}
    | {"integers":[1]} | 0
    > {"n":null}
    > {"n":1}
    ! crdx: all paths and values are in some sample
the same value in every item of a list | crdx cover crd.json v1 --values
    | {"type":"object","properties":{"l":{"type":"array","minItems":2,"items":{"type":"boolean"}}}} | {} | 0
    > {"l":[false,false]}
    > {"l":[true,true]}
    ! crdx: all paths and values are in some sample
the values of a map | crdx cover crd.json v1 --pools pools.json --values | @MAP_OF_TRUTHS | {"names":["k"]} | 0
    > {"m":{}}
    > {"m":{"k":false}}
    > {"m":{"k":true}}
    ! crdx: all paths and values are in some sample
the values of a key of a map list | crdx cover crd.json v1 --pools pools.json --values
    | {"type":"object","properties":{"l":{"type":"array","x-kubernetes-list-type":"map","x-kubernetes-list-map-keys":["k"],
    "items":{"type":"object","required":["k"],"properties":{"k":{"type":"string"},"v":{"type":"boolean"}}}}}}
    | {"strings":["b","a"]} | 0
    > {"l":[]}
    > {"l":[{"k":"a"}]}
    > {"l":[{"k":"b"}]}
    > {"l":[{"k":"a","v":false}]}
    > {"l":[{"k":"a","v":true}]}
    ! crdx: all paths and values are in some sample
the values of a set | crdx cover crd.json v1 --pools pools.json --values
    | {"type":"object","properties":{"l":{"type":"array","x-kubernetes-list-type":"set","items":{"type":"string"}}}} | {"strings":["b","a"]} | 0
    > {"l":[]}
    > {"l":["a"]}
    > {"l":["b"]}
    ! crdx: all paths and values are in some sample
a set of two has no value in every item | crdx cover crd.json v1 --pools pools.json --values --why
    | {"type":"object","properties":{"l":{"type":"array","minItems":2,"x-kubernetes-list-type":"set","items":{"type":"string"}}}}
    | {"strings":["b","a"]} | 0
    > {"l":["a","b"]}
    ! crdx: all paths are in some sample
    ! crdx: 2 values are in no sample of at most 127 nodes
    !     "/l/[]" "a"
    !     "/l/[]" "b"
"#;

static MISSED_VALUES: &str = r#"
6 rows: name | command | schema | second | status
values of missed paths | crdx cover crd.json v1 --pools pools.json --values --why --limit 2 | @SPEC | {"integers":[0]} | 0
    > {"spec":{}}
    ! crdx: 2 paths are in no sample of at most 2 nodes
    !     "/spec/a"
    !     "/spec/b"
    ! crdx: 3 values are in no sample of at most 2 nodes
    !     "/spec/a" 0
    !     "/spec/b" false
    !     "/spec/b" true
a value that no fixed object has | crdx cover crd.json v1 --pools pools.json --values --why | @SPEC
    | {"integers":[7,9],"fixed":{"/spec":[{},{"b":true},{"a":7,"b":true},{"a":9}]}} | 0
    > {"spec":{}}
    > {"spec":{"a":9}}
    > {"spec":{"a":7,"b":true}}
    ! crdx: all paths are in some sample
    ! crdx: 1 value is in no sample of at most 127 nodes
    !     "/spec/b" false
fixed values of a scalar that are stored there | crdx cover crd.json v1 --pools pools.json --values | @SPEC
    | {"integers":[0],"fixed":{"/spec/a":[5,"x",3]}} | 0
    > {"spec":{}}
    > {"spec":{"a":3}}
    > {"spec":{"a":5}}
    > {"spec":{"b":false}}
    > {"spec":{"b":true}}
    ! crdx: all paths and values are in some sample
values that a line before has | crdx cover crd.json v1 --values
    | {"type":"object","required":["c","d"],"properties":{"c":{"type":"boolean"},"d":{"type":"boolean"}}} | {} | 0
    > {"c":false,"d":false}
    > {"c":true,"d":false}
    > {"c":false,"d":true}
    ! crdx: all paths and values are in some sample
a scalar with no values | crdx cover crd.json v1 --values | {"type":"object","properties":{"a":{"type":"integer"}}} | {} | 0
    ! crdx: 1 path is in no sample of at most 127 nodes
a path that leads nowhere | crdx cover crd.json v1 --pools pools.json | @SPEC | {"present":["/x"]} | 3
    ! crdx: pools: P5 "/x"
"#;

#[test]
fn covers(rt: HostRuntime) -> Result<(), Fail> {
    cover::laws::lines_cover();
    try_tables(
        &rt,
        rt.alloc(),
        &SchemaRunRow,
        &[
            NAMED,
            FIELDS,
            LISTS_AND_MAPS,
            MEMBERS,
            FIXED_AND_PRESENT,
            VALUES,
            MISSED_VALUES,
        ],
    )
}
