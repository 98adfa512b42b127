//! Schemas with fractions, and what each command makes of them and of objects with fractions, by each profile.
use crate::support::harness::SchemaRunRow;
use crate::support::rows::try_tables;
use std::test::Fail;

// What the tables name.
static NAMED: &str = r#"
// Numbers to choose from, an integer and a number between fractions, and a set.
@FRACTIONS
    | {"type":"object","properties":{"e":{"type":"number","enum":[0.50,1,0.5]},"i":{"type":"integer","minimum":0.5,"maximum":2.5},
    "n":{"type":"number","minimum":-1.5,"exclusiveMinimum":true,"maximum":1e2,"default":0.50},
    "s":{"type":"array","x-kubernetes-list-type":"set","items":{"type":"number"}}}}
// A number, in a document of integers alone.
@NUMBER | {"type":"object","properties":{"n":{"type":"number","maximum":2}}}
// Items that are told apart by a number.
@KEYS
    | {"type":"object","properties":{"m":{"type":"array","x-kubernetes-list-type":"map","x-kubernetes-list-map-keys":["k"],
    "items":{"type":"object","required":["k"],"properties":{"k":{"type":"number"},"v":{"type":"string"}}}}}}
@BELOW | {"type":"object","properties":{"n":{"type":"number","maximum":1.5}}}
// A list of values at a place that null may have.
@CHOICE | {"type":"object","properties":{"e":{"type":"string","nullable":true,"enum":["x"]}}}
// Numbers with no bounds, and integers between fractions.
@FREE
    | {"type":"object","properties":{"i":{"type":"integer","minimum":0.5,"maximum":2.5},"n":{"type":"number"},
    "s":{"type":"array","x-kubernetes-list-type":"set","items":{"type":"number"}}}}
// Each way to write a number, and one value twice.
@SPELT
    | {"type":"object","properties":{"a":{"type":"number","default":1e2},"b":{"type":"number","default":-0},
    "c":{"type":"number","minimum":1.0,"default":9223372036854775808},"e":{"type":"number","enum":[0.50,1.0,1e2,-0,0.5,9223372036854775808]}}}
"#;

static SCHEMAS: &str = r#"
27 rows: name | command | schema | second | status
by core a fraction is not read | crdx check crd.json v1 | @FRACTIONS | - | 3
    ! crdx: crd: J1
the first of them | crdx check crd.json v1 --why --profile core | @FRACTIONS | - | 3
    ! crdx: crd: J1
    !     found 0.50 at "/spec/versions/0/schema/openAPIV3Schema/properties/e/enum/0"; allowed are integers of 64 bits; `--profile cluster` reads other numbers
as a cluster reads it | crdx check crd.json v1 --profile cluster | @FRACTIONS | - | 0
    > structural
numbers by core | crdx check crd.json v1 | @NUMBER | - | 1
    > V17 "/properties/n"
numbers | crdx check crd.json v1 --profile cluster | @NUMBER | - | 0
    > structural
keys by core | crdx check crd.json v1 | @KEYS | - | 1
    > V11 "/properties/m"
    > V17 "/properties/m/items/properties/k"
keys | crdx check crd.json v1 --profile cluster | @KEYS | - | 0
    > structural
bounds of more than 64 bits | crdx check crd.json v1 --profile cluster
    | {"type":"object","properties":{"i":{"type":"integer","minimum":-9223372036854775809,"maximum":9223372036854775808}}} | - | 0
    > structural
each way to write a number | crdx check crd.json v1 --profile cluster | @SPELT | - | 0
    > structural
its fields: whole numbers are integers | crdx explain crd.json v1 --profile cluster | @SPELT | - | 0
    > "/a" <number> default=100
    > "/b" <number> default=0
    > "/c" <number> default=9223372036854775808
    > "/e" <number>
values to choose from, as they are written but for whole numbers | crdx explain crd.json v1 /e --profile cluster | @SPELT | - | 0
    > "/e" <number>
    > enum [0.50,1,100,0,0.5,9223372036854775808]
a default beyond the range of floats | crdx explain crd.json v1 --profile cluster
    | {"type":"object","properties":{"n":{"type":"number","default":1e999}}} | - | 3
    ! crdx: crd: J3
a bound beyond the range of floats | crdx check crd.json v1 --profile cluster | {"type":"object","properties":{"n":{"type":"number","maximum":1e999}}} | - | 3
    ! crdx: crd: J3
a default above a bound | crdx explain crd.json v1 --profile cluster
    | {"type":"object","properties":{"n":{"type":"number","maximum":4,"default":4.5}}} | - | 1
    ! V14 "/properties/n"
a text among numbers, with reasons | crdx explain crd.json v1 --why --profile cluster
    | {"type":"object","properties":{"n":{"type":"number","enum":[0.5,"x"]}}} | - | 1
    ! V17 "/properties/n"
    !     "enum": EnumOfOtherKind
a bound that is a text | crdx explain crd.json v1 --why --profile cluster | {"type":"object","properties":{"n":{"type":"number","minimum":"0.5"}}} | - | 3
    ! crdx: crd: S3 "/properties/n/minimum"
    !     found "0.5"; allowed is a number
the same by core | crdx explain crd.json v1 --why | {"type":"object","properties":{"n":{"type":"number","minimum":"0.5"}}} | - | 3
    ! crdx: crd: S3 "/properties/n/minimum"
    !     found "0.5"; allowed is an integer
fields by core | crdx explain crd.json v1 | @FRACTIONS | - | 3
    ! crdx: crd: J1
a default that is a fraction of an integer | crdx check crd.json v1 --profile cluster
    | {"type":"object","properties":{"i":{"type":"integer","default":1.5}}} | - | 1
    > V14 "/properties/i"
fields of numbers by core | crdx explain crd.json v1 | @NUMBER | - | 1
    ! V17 "/properties/n"
fields | crdx explain crd.json v1 --profile cluster | @FRACTIONS | - | 0
    > "/e" <number>
    > "/i" <integer>
    > "/n" <number> default=0.50
    > "/s" <[]number> list-type=set
    > "/s/[]" <number>
one field | crdx explain crd.json v1 /e --profile cluster | @FRACTIONS | - | 0
    > "/e" <number>
    > enum [0.50,1,0.5]
suggested pools by core | crdx pools crd.json v1 | @NUMBER | - | 1
    ! V17 "/properties/n"
suggested pools: bounds that are fractions, their neighbours, and halves | crdx pools crd.json v1 --profile cluster
    | {"type":"object","properties":{"n":{"type":"number","minimum":0.5,"maximum":2.5}}} | - | 0
    > {"any":["a",{}],"integers":[-1,0,1,2,3],"names":["a","b"],"numbers":[-1.5,0.5,1.5,2.5,3.5],"paths":{"/n":[0.5,2.5,0,1,2,1.5]},"strings":["a"]}
suggested pools: bounds that are whole, their neighbours and halves | crdx pools crd.json v1 --profile cluster
    | {"type":"object","properties":{"n":{"type":"number","minimum":-0,"maximum":1e2}}} | - | 0
    > {"any":["a",{}],"integers":[-1,0,1,99,100,101],"names":["a","b"],"numbers":[-1.5,0.5,1.5,99.5,100.5,101.5],"strings":["a"]}
suggested pools: a bound of more than 64 bits, which integers are above | crdx pools crd.json v1 --profile cluster
    | {"type":"object","properties":{"n":{"type":"number","maximum":9223372036854775808}}} | - | 0
    > {"any":["a",{}],"integers":[0,1],"names":["a","b"],"numbers":[0.5,1.5],"paths":{"/n":[9223372036854775808,0.5,1.5]},"strings":["a"]}
suggested pools: bounds of an integer that are fractions | crdx pools crd.json v1 --profile cluster
    | {"type":"object","properties":{"i":{"type":"integer","minimum":0.5,"maximum":2.5}}} | - | 0
    > {"any":["a",{}],"integers":[-1,0,1,2,3],"names":["a","b"],"strings":["a"]}
"#;

// An integer is asked by a bound cut to an integer, and a number by the bound itself. A number is turned into the kind of a listed one.
static OBJECTS: &str = r#"
41 rows: name | command | schema | second | status
by core the schema is not read | crdx validate crd.json v1 object.json | @FRACTIONS | {"e":1} | 3
    ! crdx: crd: J1
by core numbers are no kind | crdx validate crd.json v1 object.json | @NUMBER | {"n":1} | 1
    ! V17 "/properties/n"
fractions | crdx validate crd.json v1 object.json --profile cluster | @FRACTIONS | {"e":0.5,"i":2,"n":1.5,"s":[0.5,1]} | 0
    > valid
the same, strictly | crdx validate crd.json v1 object.json --strict --profile cluster | @FRACTIONS | {"e":0.5,"i":2,"n":1.5,"s":[0.5,1]} | 0
    > valid
whole numbers, however they are written | crdx validate crd.json v1 object.json --profile cluster | @FRACTIONS | {"e":1.0,"i":1.0,"n":1e2,"s":[-0,1e0]} | 0
    > valid
the same, strictly | crdx validate crd.json v1 object.json --strict --profile cluster | @FRACTIONS | {"e":1.0,"i":1.0,"n":1e2,"s":[-0,1e0]} | 0
    > valid
a listed number of another spelling, and one that is cut to a listed integer | crdx validate crd.json v1 object.json --lines --profile cluster | @FRACTIONS
    | {"e":5e-1}␊{"e":1.25}␊{"e":0.25}␊{"e":2}␊ | 1
    > 3: F03 "/e"
    > 4: F03 "/e"
the same, strictly | crdx validate crd.json v1 object.json --lines --strict --profile cluster | @FRACTIONS
    | {"e":5e-1}␊{"e":1.25}␊{"e":0.25}␊{"e":2}␊ | 1
    > 3: F03 "/e"
    > 4: F03 "/e"
null beside an enum, by core | crdx validate crd.json v1 object.json | @CHOICE | {"e":null} | 0
    > valid
an enum refuses null | crdx validate crd.json v1 object.json --profile cluster | @CHOICE | {"e":null} | 1
    > F03 "/e"
the same, strictly | crdx validate crd.json v1 object.json --strict --profile cluster | @CHOICE | {"e":null} | 1
    > F03 "/e"
but it is completed as it is, since the place is nullable | crdx default crd.json v1 object.json --profile cluster | @CHOICE | {"e":null} | 0
    > {"e":null}
integers by bounds that are cut | crdx validate crd.json v1 object.json --lines --profile cluster | @FRACTIONS
    | {"i":0}␊{"i":-1}␊{"i":2}␊{"i":3}␊{"n":-1}␊{"n":0}␊ | 1
    > 2: F04 "/i"
    > 4: F05 "/i"
    > 5: F04 "/n"
the same, strictly | crdx validate crd.json v1 object.json --lines --strict --profile cluster | @FRACTIONS
    | {"i":0}␊{"i":-1}␊{"i":2}␊{"i":3}␊{"n":-1}␊{"n":0}␊ | 1
    > 2: F04 "/i"
    > 4: F05 "/i"
    > 5: F04 "/n"
other numbers by the bounds themselves | crdx validate crd.json v1 object.json --lines --profile cluster | @FRACTIONS
    | {"n":-1.5}␊{"n":-1.25}␊{"n":100.5}␊{"n":9223372036854775808}␊{"n":-1e300}␊ | 1
    > 1: F04 "/n"
    > 3: F05 "/n"
    > 4: F05 "/n"
    > 5: F04 "/n"
the same, strictly | crdx validate crd.json v1 object.json --lines --strict --profile cluster | @FRACTIONS
    | {"n":-1.5}␊{"n":-1.25}␊{"n":100.5}␊{"n":9223372036854775808}␊{"n":-1e300}␊ | 1
    > 1: F04 "/n"
    > 3: F05 "/n"
    > 4: F05 "/n"
    > 5: F04 "/n"
a fraction is no integer, and is above the maximum | crdx validate crd.json v1 object.json --profile cluster | @FRACTIONS | {"i":2.75} | 1
    > F01 "/i"
    > F05 "/i"
a fraction is no integer, of which strictly no bound is asked | crdx validate crd.json v1 object.json --strict --profile cluster | @FRACTIONS | {"i":2.75} | 1
    > F01 "/i"
a repeated number | crdx validate crd.json v1 object.json --lines --profile cluster | @FRACTIONS
    | {"s":[0.5,0.50]}␊{"s":[1,1.0]}␊{"s":[1,1.5,0.1]}␊ | 1
    > 1: F13 "/s/1"
    > 2: F13 "/s/1"
the same, strictly | crdx validate crd.json v1 object.json --lines --strict --profile cluster | @FRACTIONS
    | {"s":[0.5,5e-1]}␊{"s":[1,1.0]}␊{"s":[1,1.5,0.1]}␊ | 1
    > 1: F13 "/s/1"
    > 2: F13 "/s/1"
beyond the range of floats | crdx validate crd.json v1 object.json --profile cluster | @FRACTIONS | {"n":1e999} | 3
    ! crdx: object: J3
a repeated key | crdx validate crd.json v1 object.json --profile cluster | @KEYS | {"m":[{"k":0.5},{"k":1},{"k":0.50}]} | 1
    > F13 "/m/2"
the same, strictly | crdx validate crd.json v1 object.json --strict --profile cluster | @KEYS | {"m":[{"k":0.5},{"k":1},{"k":0.50}]} | 1
    > F13 "/m/2"
no repeated keys by their values | crdx validate crd.json v1 object.json --strict --profile cluster | @KEYS | {"m":[{"k":0.5},{"k":1},{"k":-0}]} | 0
    > valid
pruned by core | crdx prune crd.json v1 object.json | @FRACTIONS | {} | 3
    ! crdx: crd: J1
pruned | crdx prune crd.json v1 object.json --profile cluster | @FRACTIONS | {"e":0.50,"n":1.0,"s":[5e-1,9223372036854775808],"u":0.5} | 0
    > {"e":0.50,"n":1,"s":[5e-1,9223372036854775808]}
pruned, however they are written | crdx prune crd.json v1 object.json --lines --profile cluster | @FREE
    | {"n":1e2,"u":1e2}␊{"i":-0}␊{"n":1e999}␊{"n":0.50,"s":[0.5,0.50]}␊ | 3
    > {"n":100}
    > {"i":0}
    > {"n":0.50,"s":[0.5,0.50]}
    ! crdx: object: 3: J3
completed by core | crdx default crd.json v1 object.json | @FRACTIONS | {} | 3
    ! crdx: crd: J1
a default as it is written | crdx default crd.json v1 object.json --profile cluster | @FRACTIONS | {"e":0.5,"n":null} | 0
    > {"e":0.5,"n":0.50}
beside one that is there | crdx default crd.json v1 object.json --profile cluster | @FRACTIONS | {"n":5e-1} | 0
    > {"n":5e-1}
completed, however they are written | crdx default crd.json v1 object.json --lines --profile cluster | @SPELT
    | {"a":0.5}␊{"b":1e2,"c":-0}␊{"e":1e999}␊{"a":null,"e":9223372036854775808}␊ | 3
    > {"a":0.5,"b":0,"c":9223372036854775808}
    > {"a":100,"b":100,"c":0}
    > {"a":100,"b":0,"c":9223372036854775808,"e":9223372036854775808}
    ! crdx: object: 3: J3
leaves by core | crdx leaves crd.json v1 object.json | @FRACTIONS | {} | 3
    ! crdx: crd: J1
leaves of a set | crdx leaves crd.json v1 object.json --profile cluster | @FRACTIONS | {"e":1e0,"n":0.50,"s":[0.50,1.0]} | 0
    > ["f:e"]
    > ["f:n"]
    > ["f:s","v:0.50"]
    > ["f:s","v:1"]
leaves below keys | crdx leaves crd.json v1 object.json --profile cluster | @KEYS | {"m":[{"k":0.5,"v":"x"},{"k":-0}]} | 0
    > ["f:m","k:{\"k\":0.5}","f:k"]
    > ["f:m","k:{\"k\":0.5}","f:v"]
    > ["f:m","k:{\"k\":0}","f:k"]
leaves, however they are written | crdx leaves crd.json v1 object.json --profile cluster | @FREE
    | {"i":1e0,"n":9223372036854775808,"s":[1e2,-0,0.5,-0.5,9223372036854775808]} | 0
    > ["f:i"]
    > ["f:n"]
    > ["f:s","v:100"]
    > ["f:s","v:0"]
    > ["f:s","v:0.5"]
    > ["f:s","v:-0.5"]
    > ["f:s","v:9223372036854775808"]
leaves of a number beyond the range of floats | crdx leaves crd.json v1 object.json --profile cluster | @FREE | {"n":1e999} | 3
    ! crdx: object: J3
one value twice is not stored | crdx leaves crd.json v1 object.json --why --profile cluster | @FREE | {"s":[0.5,0.50]} | 1
    ! crdx: object: L1
    !     the object is not stored: found F13 "/s/1" duplicate; `crdx validate` lists all faults
repeated keys are not stored | crdx leaves crd.json v1 object.json --profile cluster | @KEYS | {"m":[{"k":0.5},{"k":0.5}]} | 1
    ! crdx: object: L1
nor is a number without the default, with the reason | crdx leaves crd.json v1 object.json --why --profile cluster | @FRACTIONS | {} | 1
    ! crdx: object: L1
    !     the object is not stored: found fields without their defaults; `crdx default` prints it with them
suggested pools: what an object has | crdx pools crd.json v1 --from object.json --profile cluster | @BELOW | {"n":0.25} | 0
    > {"any":["a",{}],"integers":[0,1,2],"names":["a","b"],"numbers":[0.5,1.5,2.5],"paths":{"/n":[0.25]},"strings":["a"]}
suggested pools: what objects have, as they are written but for whole numbers | crdx pools crd.json v1 --from object.json --profile cluster | @BELOW
    | {"n":0.50}␊{"n":1.0}␊{"n":2.5}␊{"n":0.5}␊{"n":-0}␊ | 0
    > {"any":["a",{}],"integers":[0,1,2],"names":["a","b"],"numbers":[0.5,1.5,2.5],"paths":{"/n":[0.50,1,0.5,0]},"strings":["a"]}
"#;

// The second document has the pools.
static SAMPLES: &str = r#"
20 rows: name | command | schema | second | status
by core the schema is not read | crdx sample crd.json v1 --pools pools.json | @BELOW | {} | 3
    ! crdx: crd: J1
by core numbers are no kind | crdx cover crd.json v1 --pools pools.json | @NUMBER | {} | 1
    ! V17 "/properties/n"
integers of the pools | crdx sample crd.json v1 --pools pools.json --limit 2 --profile cluster | @BELOW | {"integers":[2,1,-0]} | 0
    > {}
    > {"n":0}
    > {"n":1}
    ! crdx: end
a list for the path | crdx sample crd.json v1 --pools pools.json --limit 2 --profile cluster | @BELOW | {"integers":[0],"paths":{"/n":[1.75,1.5,0.5,1.0]}} | 0
    > {}
    > {"n":1}
    > {"n":0.5}
    > {"n":1.5}
    ! crdx: end
after one of them | crdx sample crd.json v1 --pools pools.json --limit 2 --after {"n":0.5} --profile cluster | @BELOW | {"paths":{"/n":[1.75,1.5,0.5,1.0]}} | 0
    > {"n":1.5}
    ! crdx: end
an enum, without the default | crdx sample crd.json v1 --pools pools.json --limit 2 --profile cluster
    | {"type":"object","properties":{"e":{"type":"number","enum":[2.5,1],"default":2.5}}} | {} | 0
    > {"e":1}
    > {"e":2.5}
    ! crdx: end
each value | crdx cover crd.json v1 --pools pools.json --values --profile cluster | @BELOW | {"paths":{"/n":[0.5,1]}} | 0
    > {"n":1}
    > {"n":0.5}
    ! crdx: all paths and values are in some sample
a path that is not declared | crdx sample crd.json v1 --pools pools.json --why --profile cluster | @BELOW | {"paths":{"/z":[0.5]}} | 3
    ! crdx: pools: P5 "/z"
    !     found a path that is not declared; `crdx explain` lists those that are
numbers of the pools, however they are written, and of one value the least text | crdx sample crd.json v1 --pools pools.json --limit 2 --profile cluster
    | {"type":"object","properties":{"n":{"type":"number"}}} | {"integers":[3],"numbers":[0.50,1.0,1e2,-0,0.5,9223372036854775808,5e-1]} | 0
    > {}
    > {"n":0}
    > {"n":1}
    > {"n":3}
    > {"n":100}
    > {"n":0.5}
    > {"n":9223372036854775808}
    ! crdx: end
no number beyond the range of floats | crdx sample crd.json v1 --pools pools.json --profile cluster | @FREE | {"numbers":[0.5,1e999]} | 3
    ! crdx: pools: J3
integers by bounds that are cut, and no numbers | crdx sample crd.json v1 --pools pools.json --limit 2 --profile cluster
    | {"type":"object","properties":{"i":{"type":"integer","minimum":0.5,"maximum":2.5}}} | {"integers":[-1,0,1,2,3],"numbers":[1,1.5]} | 0
    > {}
    > {"i":0}
    > {"i":1}
    > {"i":2}
    ! crdx: end
null beside an enum, by core | crdx sample crd.json v1 --pools pools.json --limit 2 | @CHOICE | {} | 0
    > {}
    > {"e":null}
    > {"e":"x"}
    ! crdx: end
no null beside an enum | crdx sample crd.json v1 --pools pools.json --limit 2 --profile cluster | @CHOICE | {} | 0
    > {}
    > {"e":"x"}
    ! crdx: end
an enum with one value twice | crdx sample crd.json v1 --pools pools.json --limit 2 --profile cluster
    | {"type":"object","properties":{"e":{"type":"number","enum":[0.50,1.0,0.5]}}} | {} | 0
    > {}
    > {"e":1}
    > {"e":0.5}
    ! crdx: end
a set over one value twice | crdx sample crd.json v1 --pools pools.json --limit 4 --profile cluster
    | {"type":"object","properties":{"s":{"type":"array","x-kubernetes-list-type":"set","items":{"type":"number"}}}} | {"numbers":[0.50,0.5]} | 0
    > {}
    > {"s":[]}
    > {"s":[0.5]}
    ! crdx: end
each path over numbers | crdx cover crd.json v1 --pools pools.json --profile cluster | @FREE | {"integers":[2],"numbers":[0.5]} | 0
    > {"i":2}
    > {"n":2}
    > {"s":[]}
    > {"s":[2]}
    ! crdx: all paths are in some sample
each value of numbers, of one value the least text | crdx cover crd.json v1 --pools pools.json --values --profile cluster | @BELOW
    | {"numbers":[0.50,0.5,2]} | 0
    > {"n":0.5}
    ! crdx: all paths and values are in some sample
after a sample with one of them | crdx sample crd.json v1 --pools pools.json --limit 2 --after {"n":0.5} --profile cluster | @BELOW
    | {"numbers":[0.50,0.5,1.25]} | 0
    > {"n":1.25}
    ! crdx: end
pools of core have no numbers | crdx sample crd.json v1 --pools pools.json
    | {"type":"object","properties":{"i":{"type":"integer"}}} | {"numbers":[1]} | 3
    ! crdx: pools: P1 "/numbers"
integers that are none | crdx sample crd.json v1 --pools pools.json --profile cluster | @BELOW | {"integers":[1.0,0.5]} | 3
    ! crdx: pools: P1 "/integers/1"
"#;

#[test]
fn schemas(rt: HostRuntime) -> Result<(), Fail> {
    try_tables(&rt, rt.alloc(), &SchemaRunRow, &[NAMED, SCHEMAS])
}

#[test]
fn objects(rt: HostRuntime) -> Result<(), Fail> {
    try_tables(&rt, rt.alloc(), &SchemaRunRow, &[NAMED, OBJECTS])
}

#[test]
fn samples(rt: HostRuntime) -> Result<(), Fail> {
    try_tables(&rt, rt.alloc(), &SchemaRunRow, &[NAMED, SAMPLES])
}
