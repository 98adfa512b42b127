//! `--why`: what is said below the line of a refusal.
use crate::support::harness::{RunRow, SchemaRunRow};
use crate::support::rows::try_tables;
use std::test::Fail;

// What the tables name.
static NAMED: &str = r#"
// An object with two booleans, all of it required.
@TWO_REQUIRED
    | {"type":"object","required":["s"],"properties":{"s":{"type":"object","required":["a","b"],
    "properties":{"a":{"type":"boolean"},"b":{"type":"boolean"}}}}}
"#;

static DEFINITIONS: &str = r#"
6 rows: name | command | definition | second | status
another kind | crdx check crd.json v1 --why | {"apiVersion":"apps/v1","kind":"Deployment"} | - | 3
    ! crdx: crd: S1
    !     "apiVersion" has to be "apiextensions.k8s.io/v1", and "kind" "CustomResourceDefinition"
an empty group | crdx explain crd.json v1 --why | {"apiVersion":"apiextensions.k8s.io/v1","kind":"CustomResourceDefinition","spec":{"group":""}} | -
    | 3
    ! crdx: crd: S1
    !     "group" of "spec" has to be a string that is not empty
no kind | crdx pools crd.json v1 --why | {"apiVersion":"apiextensions.k8s.io/v1","kind":"CustomResourceDefinition","spec":{"group":"g","names":{}}}
    | - | 3
    ! crdx: crd: S1
    !     "kind" of "names" of "spec" has to be a string that is not empty
two versions of one name | crdx prune crd.json v1 object.json --why
    | {"apiVersion":"apiextensions.k8s.io/v1","kind":"CustomResourceDefinition","spec":{"group":"g","names":{"kind":"K"},
    "versions":[{"name":"v1"},{"name":"v1"}]}} | {} | 3
    ! crdx: crd: S1
    !     "versions" of "spec" has to be a list of objects, each with a "name" that no other has
a version without a schema | crdx default crd.json v1 object.json --why
    | {"apiVersion":"apiextensions.k8s.io/v1","kind":"CustomResourceDefinition","spec":{"group":"g","names":{"kind":"K"},"versions":[{"name":"v1"}]}}
    | {} | 3
    ! crdx: crd: S1
    !     the version has to have an object at "openAPIV3Schema" of "schema"
no such version | crdx explain crd.json v2 --why | @WIDGET | - | 3
    ! crdx: crd: S2
    !     found the versions ["v1"]
"#;

static DOCUMENTS: &str = r#"
6 rows: name | command | definition | second | status
a fraction in a definition | crdx check crd.json v1 --why | {"b":{"c":2},"a":[1,0.50]} | - | 3
    ! crdx: crd: J1
    !     found 0.50 at "/a/1"; allowed are integers of 64 bits; `--profile cluster` reads other numbers
a fraction to go on from | crdx sample crd.json v1 --why --after {"spec":1e2} | @WIDGET | - | 3
    ! crdx: after: J1
    !     found 1e2 at "/spec"; allowed are integers of 64 bits; `--profile cluster` reads other numbers
pools that are cut | crdx sample crd.json v1 --pools pools.json --why | @WIDGET | {␊"integers":[0 | 3
    ! crdx: pools: J3
    !     found no JSON at line 2, column 13
an object of YAML | crdx validate crd.json v1 object.json --why | @WIDGET | # a widget␊kind: Widget␊ | 3
    ! crdx: object: J3
    !     found no JSON at line 1, column 1, which looks like YAML; `yq -o json` makes JSON of it
without --why | crdx validate crd.json v1 object.json | @WIDGET | kind: Widget␊ | 3
    ! crdx: object: J3
a file that cannot be opened | crdx validate crd.json v1 nowhere.json --why | @WIDGET | - | 4
    ! crdx: object: read failed
    !     "nowhere.json" is not there
"#;

static SCHEMAS: &str = r#"
6 rows: name | command | schema | second | status
a keyword of another form | crdx check crd.json v1 --why | {"type":"object","properties":{"a":{"required":[1]}}} | - | 3
    ! crdx: crd: S3 "/properties/a/required/0"
    !     found 1; allowed is a string
an empty list of branches | crdx check crd.json v1 --why | {"anyOf":[]} | - | 3
    ! crdx: crd: S3 "/anyOf"
    !     found []; allowed is a list of at least one object, with nothing else in it
a rule with a reason | crdx explain crd.json v1 --why | {"type":"object","properties":{"a":{"type":"string","pattern":"x"},"b":{}}} | - | 1
    ! V17 "/properties/a"
    !     "pattern": NotOfScalars
    ! V01 "/properties/b"
a path of another spelling | crdx explain crd.json v1 spec --why | @SPEC | - | 1
    ! crdx: explain: X1
    !     each step of a path is after a "/": a name with "~0", "~1", "~2" and "~3" for "~", "/", "[" and "{", or "[]" or "{}"
a field that is not declared | crdx explain crd.json v1 /spec/c/d --why | @SPEC | - | 1
    ! crdx: explain: X2
    !     found no such field; the longest beginning that leads to one is "/spec"
a field of the root that is not declared | crdx explain crd.json v1 /c --why | @SPEC | - | 1
    ! crdx: explain: X2
    !     found no such field; no beginning of the path leads to one
"#;

static POOLS: &str = r#"
8 rows: name | command | schema | second | status
pools that are a list | crdx sample crd.json v1 --pools pools.json --why | @SPEC | [] | 3
    ! crdx: pools: P1 ""
    !     found []; allowed is an object
a pool of another name | crdx sample crd.json v1 --pools pools.json --why | @SPEC | {"floats":[1]} | 3
    ! crdx: pools: P1 "/floats"
    !     found a list; allowed are the members "any", "fixed", "integers", "names", "paths", "present" and "strings"
a text among integers | crdx sample crd.json v1 --pools pools.json --why | @SPEC | {"integers":[0,"x"]} | 3
    ! crdx: pools: P1 "/integers/1"
    !     found "x"; allowed is an integer
names that are an object | crdx sample crd.json v1 --pools pools.json --why | @SPEC | {"names":{"a":1}} | 3
    ! crdx: pools: P1 "/names"
    !     found an object; allowed is a list of strings
no list at a path | crdx sample crd.json v1 --pools pools.json --why | @SPEC | {"paths":{"/spec":[],"/spec/a":7}} | 3
    ! crdx: pools: P1 "/paths/~1spec~1a"
    !     found 7; allowed is a list
a text that is no path | crdx sample crd.json v1 --pools pools.json --why | @SPEC | {"paths":{"spec":[]}} | 3
    ! crdx: pools: P5 "spec"
    !     found a text that is no path; `crdx explain` lists the paths
a path that is not declared | crdx sample crd.json v1 --pools pools.json --why | @SPEC | {"paths":{"/spec/a":[],"/spec/c":[]}} | 3
    ! crdx: pools: P5 "/spec/c"
    !     found a path that is not declared; `crdx explain` lists those that are
the path of an object | crdx sample crd.json v1 --pools pools.json --why | @SPEC | {"paths":{"/spec":[]}} | 3
    ! crdx: pools: P5 "/spec"
    !     found the path of an object; allowed are those of scalars and of open places
"#;

static FIXED_AND_PRESENT: &str = r#"
6 rows: name | command | schema | second | status
fixed values that are a list | crdx sample crd.json v1 --pools pools.json --why | @SPEC | {"fixed":[1]} | 3
    ! crdx: pools: P1 "/fixed"
    !     found a list; allowed is an object of lists
no list at a fixed path | crdx sample crd.json v1 --pools pools.json --why | @SPEC | {"fixed":{"/spec":7}} | 3
    ! crdx: pools: P1 "/fixed/~1spec"
    !     found 7; allowed is a list
an integer among present paths | crdx sample crd.json v1 --pools pools.json --why | @SPEC | {"present":["/spec",7]} | 3
    ! crdx: pools: P1 "/present/1"
    !     found 7; allowed is a string
the items of a map list | crdx sample crd.json v1 --pools pools.json --why | @MAP_LIST | {"fixed":{"/m/[]":[]}} | 3
    ! crdx: pools: P5 "/m/[]"
    !     found the path of the items of a map list; allowed are those of the list and of what is below its items
the items of a map list under paths too | crdx sample crd.json v1 --pools pools.json --why | @MAP_LIST | {"paths":{"/m/[]":[]},"fixed":{"/m/[]":[]}}
    | 3
    ! crdx: pools: P5 "/m/[]"
    !     found the path of an object; allowed are those of scalars and of open places
a present path that is not declared, before one that is no path | crdx sample crd.json v1 --pools pools.json --why | @SPEC | {"present":["spec","/z"]}
    | 3
    ! crdx: pools: P5 "/z"
    !     found a path that is not declared; `crdx explain` lists those that are
"#;

static OBJECTS: &str = r#"
6 rows: name | command | schema | second | status
an object with a fault | crdx leaves crd.json v1 object.json --why | @SPEC | {"spec":{"a":"x"}} | 1
    ! crdx: object: L1
    !     the object is not stored: found F01 "/spec/a" kind; `crdx validate` lists all faults
an object with a member that is not declared | crdx leaves crd.json v1 object.json --why | @SPEC | {"z":1} | 1
    ! crdx: object: L1
    !     the object is not stored: found members that are not declared; `crdx prune` prints it without them
an object without a default | crdx leaves crd.json v1 object.json --why | @DEFAULTED | {"spec":{}} | 1
    ! crdx: object: L1
    !     the object is not stored: found fields without their defaults; `crdx default` prints it with them
more nodes than the limit | crdx sample crd.json v1 --pools pools.json --limit 2 --why --after {"spec":{"a":0}} | @SPEC | {"integers":[0,1]} | 1
    ! crdx: after: not a sample
    !     found 3 nodes; allowed are 2 (--limit)
a value that is not in the pools | crdx sample crd.json v1 --pools pools.json --why --after {"spec":{"a":2}} | @SPEC | {"integers":[0,1]} | 1
    ! crdx: after: not a sample
    !     found a value or a name that is not in the pools, or an object that is not as it is stored (`crdx leaves --why`)
samples | crdx sample crd.json v1 --limit 1 --why | @SPEC | - | 0
    > {}
    ! crdx: end
"#;

// Listings, most of them empty: what is said below `crdx: end`.
static LISTINGS: &str = r#"
10 rows: name | command | schema | second | status
a required field without a value | crdx sample crd.json v1 --why
    | {"type":"object","required":["s"],"properties":{"s":{"type":"object","required":["a","b"],
    "properties":{"a":{"type":"boolean"},"b":{"type":"string"},"c":{"type":"integer"}}}}} | - | 0
    ! crdx: end
    !     found no value of at most 127 nodes for "/s/b", which has to be there
a field with a default, whose value is not in the pools | crdx sample crd.json v1 --why
    | {"type":"object","properties":{"n":{"type":"integer","default":7},"z":{"type":"string"}}} | - | 0
    ! crdx: end
    !     found no value of at most 127 nodes for "/n", which has to be there
a present field without a value | crdx sample crd.json v1 --pools pools.json --why | {"type":"object","properties":{"a/b":{"type":"string"}}}
    | {"present":["/a~1b"]} | 0
    ! crdx: end
    !     found no value of at most 127 nodes for "/a~1b", which has to be there
a field that is there and may have no value | crdx sample crd.json v1 --pools pools.json --why
    | {"type":"object","required":["a"],"properties":{"a":{"type":"boolean"}}} | {"fixed":{"/a":[]}} | 0
    ! crdx: end
    !     found no value of at most 127 nodes for "/a", which has to be there
a list that has to have items, which have no value | crdx sample crd.json v1 --why
    | {"type":"object","required":["l"],"properties":{"l":{"type":"array","minItems":1,"items":{"type":"string"}}}} | - | 0
    ! crdx: end
    !     found no value of at most 127 nodes for "/l", which has to be there
a root that needs more fields than have a value | crdx sample crd.json v1 --why
    | {"type":"object","anyOf":[{"required":["a"]}],"properties":{"a":{"type":"string"}}} | - | 0
    ! crdx: end
    !     found no sample of at most 127 nodes
a limit below the fewest nodes | crdx sample crd.json v1 --limit 3 --why | @TWO_REQUIRED | - | 0
    ! crdx: end
    !     found a least sample of 4 nodes; allowed are 3 (--limit)
the same without --why | crdx sample crd.json v1 --limit 3 | @TWO_REQUIRED | - | 0
    ! crdx: end
nothing after the last sample | crdx sample crd.json v1 --pools pools.json --limit 3 --why --after {"spec":{"a":1}} | @SPEC | {"integers":[0,1]} | 0
    ! crdx: end
words of 128 bits | crdx sample crd.json v1 --limit 64 --why | {"type":"object","required":["a"],"properties":{"a":{"type":"string"}}} | - | 0
    ! crdx: end
    !     found no value of at most 127 nodes for "/a", which has to be there
"#;

#[test]
fn documents(rt: HostRuntime) -> Result<(), Fail> {
    try_tables(&rt, rt.alloc(), &RunRow, &[DEFINITIONS, DOCUMENTS])
}

#[test]
fn schemas(rt: HostRuntime) -> Result<(), Fail> {
    try_tables(
        &rt,
        rt.alloc(),
        &SchemaRunRow,
        &[SCHEMAS, POOLS, FIXED_AND_PRESENT, OBJECTS],
    )
}

#[test]
fn listings(rt: HostRuntime) -> Result<(), Fail> {
    try_tables(&rt, rt.alloc(), &SchemaRunRow, &[NAMED, LISTINGS])
}
