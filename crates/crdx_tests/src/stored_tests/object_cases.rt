//! What becomes of objects under a schema: their faults, and how they are pruned and completed.
use crate::support::harness::{crd_of, is_said, is_tree, schema_of};
use crate::support::report::Report;
use crate::support::rows::{Kind, Row, try_tables};
use jtree::Tree;
use schema::{Node, RawSchema, Refused, Violation};
use std::alloc::{AllocError, Global};
use std::fmt::Write;
use std::test::Fail;
use stored::{Fault, accept, complete, faults, prune, strict_faults, violations};

static OBJECTS: &str = r#"
6 rows: name | schema | object | pruned | completed | lines
a default below an object without one
    | {"type":"object","properties":{"spec":{"type":"object","properties":{"f":{"type":"integer","default":7}}},"a":{"type":"integer","default":1}}}
    | {} | {} | {"a":1} | -
a null that the values of a map accept
    | {"type":"object","properties":{"m":{"type":"object","additionalProperties":{"type":"object","nullable":true,
    "properties":{"f":{"type":"integer","default":7}}}}}} | {"m":{"a":null,"b":{"z":1}}}
    | {"m":{"a":null,"b":{}}} | {"m":{"a":null,"b":{"f":7}}} | -
objects in a list of lists
    | {"type":"object","properties":{"l":{"type":"array","items":{"type":"array","items":{"type":"object",
    "properties":{"a":{"type":"integer","default":0}}}}}}} | {"l":[[{"a":1,"z":1},{"z":1}],[],[7]]}
    | {"l":[[{"a":1},{}],[],[7]]} | {"l":[[{"a":1},{"a":0}],[],[7]]} | 1 /l/2/0
any value | {"type":"object","properties":{"x":{"x-kubernetes-preserve-unknown-fields":true}}} | {"x":{"a":[null,{"b":null}]},"y":1}
    | {"x":{"a":[null,{"b":null}]}} | {"x":{"a":[null,{"b":null}]}} | -
names between, before and after the fields
    | {"type":"object","properties":{"spec":{"type":"object","x-kubernetes-preserve-unknown-fields":true,
    "properties":{"b":{"type":"integer","default":2},"d":{"type":"integer","default":4},"f":{"type":"integer"}}}}}
    | {"spec":{"a":0,"c":0,"d":null,"e":0,"f":null,"g":0}} | {"spec":{"a":0,"c":0,"d":null,"e":0,"f":null,"g":0}}
    | {"spec":{"a":0,"b":2,"c":0,"d":4,"e":0,"g":0}} | 2 /spec/d
    > 2 /spec/f
all that is asked of a text, and of an integer
    | {"type":"object","properties":{"i":{"type":"integer","enum":[5],"minimum":2,"maximum":0,"not":{}},
    "s":{"type":"string","enum":["x"],"minLength":3,"maxLength":1,"anyOf":[{"minLength":3}]}}}
    | {"i":1,"s":"ab"} | {"i":1,"s":"ab"} | {"i":1,"s":"ab"} | 3 /i
    > 4 /i
    > 5 /i
    > 14 /i
    > 3 /s
    > 6 /s
    > 7 /s
    > 14 /s
"#;

static ITEMS_AND_NAMES: &str = r#"
6 rows: name | schema | object | pruned | completed
items of a set that are of no kind that it takes, and that repeat others
    | {"type":"object","properties":{"s":{"type":"array","x-kubernetes-list-type":"set","minItems":9,"maxItems":1,
    "items":{"type":"integer","maximum":5,"not":{"minimum":7}}}}} | {"s":[8,null,8,null,"x",8]}
    | {"s":[8,null,8,null,"x",8]} | {"s":[8,null,8,null,"x",8]}
    > 8 /s
    > 9 /s
    > 5 /s/0
    > 14 /s/0
    > 2 /s/1
    > 5 /s/2
    > 13 /s/2
    > 14 /s/2
    > 2 /s/3
    > 13 /s/3
    > 1 /s/4
    > 5 /s/5
    > 13 /s/5
    > 14 /s/5
items that ascend, and items in any order
    | {"type":"object","properties":{"ascending":{"type":"array","x-kubernetes-list-type":"map","x-kubernetes-list-map-keys":["k","l"],
    "items":{"type":"object","required":["k","l"],"properties":{"k":{"type":"string"},"l":{"type":"integer"}}}},
    "descending":{"type":"array","x-kubernetes-list-type":"set","items":{"type":"integer"}},
    "far":{"type":"array","x-kubernetes-list-type":"set","items":{"type":"integer"}},
    "keyless":{"type":"array","x-kubernetes-list-type":"map","x-kubernetes-list-map-keys":["k","l"],
    "items":{"type":"object","required":["k","l"],"properties":{"k":{"type":"string"},"l":{"type":"integer"}}}},
    "near":{"type":"array","x-kubernetes-list-type":"set","items":{"type":"integer"}},
    "pairs":{"type":"array","x-kubernetes-list-type":"map","x-kubernetes-list-map-keys":["k","l"],
    "items":{"type":"object","required":["k","l"],"properties":{"k":{"type":"string"},"l":{"type":"integer"}}}}}}
    | {"ascending":[{"k":"a","l":1},{"k":"a","l":2},{"k":"b","l":1}],"descending":[3,2,1],"far":[2,1,2,3,1,2],
    "keyless":[{"k":"a","l":1},1,1,null,{"k":"b","l":1},{"k":"a","l":1}],"near":[1,2,2,3],
    "pairs":[{"k":"b","l":1},{"k":"a","l":2},{"k":"a","l":1},{"k":"a","l":2}]}
    | {"ascending":[{"k":"a","l":1},{"k":"a","l":2},{"k":"b","l":1}],"descending":[3,2,1],"far":[2,1,2,3,1,2],
    "keyless":[{"k":"a","l":1},1,1,null,{"k":"b","l":1},{"k":"a","l":1}],"near":[1,2,2,3],
    "pairs":[{"k":"b","l":1},{"k":"a","l":2},{"k":"a","l":1},{"k":"a","l":2}]}
    | {"ascending":[{"k":"a","l":1},{"k":"a","l":2},{"k":"b","l":1}],"descending":[3,2,1],"far":[2,1,2,3,1,2],
    "keyless":[{"k":"a","l":1},1,1,null,{"k":"b","l":1},{"k":"a","l":1}],"near":[1,2,2,3],
    "pairs":[{"k":"b","l":1},{"k":"a","l":2},{"k":"a","l":1},{"k":"a","l":2}]}
    > 13 /far/2
    > 13 /far/4
    > 13 /far/5
    > 1 /keyless/1
    > 1 /keyless/2
    > 2 /keyless/3
    > 13 /keyless/5
    > 13 /near/2
    > 13 /pairs/3
names between fields, and names with a slash and a tilde
    | {"type":"object","required":["b","d"],"properties":{"a":{"type":"integer"},"b":{"type":"integer"},
    "c":{"type":"object","required":["x/y"],"properties":{"x/y":{"type":"integer"},"~":{"type":"integer"}}},"d":{"type":"integer"}}}
    | {"a":"","aa":null,"c":{"~":""},"e":0} | {"a":"","c":{"~":""}} | {"a":"","c":{"~":""}}
    > 1 /a
    > 12 /b
    > 12 /c/x~1y
    > 1 /c/~0
    > 12 /d
the values of a map, and what is free
    | {"type":"object","properties":{"m":{"type":"object","maxProperties":1,"additionalProperties":{"type":"object","required":["a"],
    "properties":{"a":{"type":"integer"}}}},"x":{"x-kubernetes-preserve-unknown-fields":true}}}
    | {"m":{"p":{"a":"","z":null},"q":{}},"x":{"a":null},"y":null} | {"m":{"p":{"a":""},"q":{}},"x":{"a":null}}
    | {"m":{"p":{"a":""},"q":{}},"x":{"a":null}}
    > 11 /m
    > 1 /m/p/a
    > 12 /m/q/a
more than ten items | {"type":"object","properties":{"l":{"type":"array","items":{"type":"integer"}}}} | {"l":[0,1,null,3,4,5,6,7,8,9,null,11]}
    | {"l":[0,1,null,3,4,5,6,7,8,9,null,11]} | {"l":[0,1,null,3,4,5,6,7,8,9,null,11]}
    > 2 /l/2
    > 2 /l/10
null | {"type":"object","properties":{"m":{"type":"array","items":{"type":"string"}}}} | null | null | null
    > 2␠
"#;

// What is wanted: all that is broken, a rule and a pointer a line.
static DEFAULTS: &str = r#"
4 rows: name | schema | lines
a default of another kind | {"type":"object","properties":{"n":{"type":"integer","default":"x"}}} | V14 /properties/n
a default of another kind beside a field without a type | {"type":"object","properties":{"n":{"type":"integer","default":"x"},"z":{}}}
    | V01 /properties/z
a default with a bad one below
    | {"type":"object","properties":{"spec":{"type":"object","default":{},"required":["f"],
    "properties":{"f":{"type":"integer","maximum":6,"default":7}}}}} | V14 /properties/spec
    > V14 /properties/spec/properties/f
no default | {"type":"object","properties":{"default":{"type":"integer"}}} | -
"#;

fn push_fault(lines: &mut String, fault: &Fault) -> Result<(), AllocError> {
    let Fault { path, number } = fault;
    writeln!(lines, "{number} {path}")
}

fn fault_lines(alloc: Global, found: &[Fault]) -> Result<String, AllocError> {
    let mut lines = String::new(alloc);
    for fault in found {
        push_fault(&mut lines, fault)?;
    }
    Ok(lines)
}

/// The faults of an object: a number and a pointer a line.
fn faulty(alloc: Global, node: &Node, tree: &Tree) -> Result<String, Fail> {
    let found = faults(alloc, node, tree)?;
    Ok(fault_lines(alloc, found.as_slice())?)
}

fn try_tree(
    report: &mut Report,
    alloc: Global,
    node: &Node,
    tree: &mut Tree,
    row: &Row,
) -> Result<(), Fail> {
    is_said(report, "the faults", faulty(alloc, node, tree), row.out())?;
    let complete = complete(alloc, node, tree)?;
    is_tree(
        report,
        alloc,
        "the completed form",
        &complete,
        row.text("completed"),
    )?;
    prune(node, tree);
    is_tree(report, alloc, "the pruned form", tree, row.text("pruned"))
}

/// An object by a schema, its pruned form, its completed form, and its faults: a number and a pointer a line.
struct Object;

impl Kind for Object {
    fn attempt(&self, report: &mut Report, alloc: Global, row: &Row) -> Result<(), Fail> {
        let mut tree = Tree::from_bytes(alloc, row.text("object").as_bytes())?;
        let schema = schema_of(alloc, row.text("schema"))?;
        try_tree(report, alloc, schema.root(), &mut tree, row)
    }
}

#[test]
fn objects(rt: HostRuntime) -> Result<(), Fail> {
    try_tables(&rt, rt.alloc(), &Object, &[OBJECTS, ITEMS_AND_NAMES])
}

static STRICT: &str = r#"
11 rows: name | schema | object
a member that is not declared, and what is below it | {"type":"object","properties":{"spec":{"type":"object","properties":{"a":{"type":"integer"}}}}}
    | {"spec":{"a":1,"b":{"c":{"d":1}}}}
    > 15 /spec/b
names before, between and after the fields | {"type":"object","required":["d"],"properties":{"b":{"type":"integer"},"d":{"type":"integer"}}}
    | {"a":null,"b":"","c":0,"e":[0]}
    > 15 /a
    > 1 /b
    > 15 /c
    > 12 /d
    > 15 /e
below a list and a map
    | {"type":"object","properties":{"l":{"type":"array","items":{"type":"object","nullable":true,"properties":{"a":{"type":"integer"}}}},
    "m":{"type":"object","additionalProperties":{"type":"object","properties":{"a":{"type":"integer"}}}}}}
    | {"l":[null,{"a":1,"z":null}],"m":{"p":{"y":1},"q":{"a":1}}}
    > 15 /l/1/z
    > 15 /m/p/y
a member that is kept, and one below a field beside it
    | {"type":"object","properties":{"spec":{"type":"object","x-kubernetes-preserve-unknown-fields":true,
    "properties":{"a":{"type":"object","properties":{}}}}}} | {"spec":{"a":{"y":1},"z":{"w":2}}}
    > 15 /spec/a/y
below a place of any value | {"type":"object","properties":{"x":{"x-kubernetes-preserve-unknown-fields":true}}} | {"x":{"a":[null,{"b":null}]},"y":1}
    > 15 /y
below a value of another kind
    | {"type":"object","properties":{"l":{"type":"array","items":{"type":"object","properties":{}}},"o":{"type":"object","properties":{}}}}
    | {"l":{"z":1},"o":null}
    > 1 /l
    > 2 /o
names in the order of their bytes, with a tilde and a slash | {"type":"object","properties":{"B":{"type":"integer"}}} | {"A~":1,"B":1,"a/b":1}
    > 15 /A~0
    > 15 /a~1b
an item that repeats another
    | {"type":"object","properties":{"m":{"type":"array","x-kubernetes-list-type":"map","x-kubernetes-list-map-keys":["k"],
    "items":{"type":"object","required":["k"],"properties":{"k":{"type":"string"}}}}}}
    | {"m":[{"k":"a"},{"j":1,"k":"a"}]}
    > 13 /m/1
    > 15 /m/1/j
a member too many | {"type":"object","properties":{"o":{"type":"object","maxProperties":1,"properties":{"a":{"type":"integer"}}}}}
    | {"o":{"a":1,"z":1}}
    > 11 /o
    > 15 /o/z
no field at all | {"type":"object","properties":{"o":{"type":"object"}}} | {"o":{"a":1,"b":2}}
    > 15 /o/a
    > 15 /o/b
a default that is absent | {"type":"object","properties":{"f":{"type":"integer","default":7}}} | {}
"#;

fn strictly_faulty(alloc: Global, schema: &str, object: &str) -> Result<String, Fail> {
    let tree = Tree::from_bytes(alloc, object.as_bytes())?;
    let schema = schema_of(alloc, schema)?;
    let found = strict_faults(alloc, schema.root(), &tree)?;
    drop(schema);
    Ok(fault_lines(alloc, found.as_slice())?)
}

/// An object by a schema, and its strict faults: a number and a pointer a line.
struct StrictFaults;

impl Kind for StrictFaults {
    fn attempt(&self, report: &mut Report, alloc: Global, row: &Row) -> Result<(), Fail> {
        let found = strictly_faulty(alloc, row.text("schema"), row.text("object"));
        is_said(report, "the strict faults", found, row.out())
    }
}

#[test]
fn strict(rt: HostRuntime) -> Result<(), Fail> {
    stored::laws::strictly_valid_is_pruned();
    try_tables(&rt, rt.alloc(), &StrictFaults, &[STRICT])
}

fn push_violation(lines: &mut String, violation: &Violation) -> Result<(), AllocError> {
    let Violation { pointer, rule } = violation;
    writeln!(lines, "{rule} {pointer}")
}

/// All that is broken: a rule and a pointer a line.
fn lines_of(alloc: Global, broken: &[Violation]) -> Result<String, AllocError> {
    let mut lines = String::new(alloc);
    for violation in broken {
        push_violation(&mut lines, violation)?;
    }
    Ok(lines)
}

fn broken_lines(alloc: Global, raw: &RawSchema) -> Result<String, Fail> {
    let broken = violations(alloc, raw)?;
    Ok(lines_of(alloc, broken.as_slice())?)
}

/// What `accept` answers of a schema.
fn answer(alloc: Global, raw: RawSchema) -> Result<String, Fail> {
    match accept(alloc, raw) {
        Ok(_schema) => Ok(String::new(alloc)),
        Err(Refused::Violations(broken)) => Ok(lines_of(alloc, broken.as_slice())?),
        Err(Refused::NoMemory) => Err(Fail::from(AllocError)),
    }
}

/// A schema, and all that is broken: a rule and a pointer a line.
struct DefaultRow;

impl Kind for DefaultRow {
    fn attempt(&self, report: &mut Report, alloc: Global, row: &Row) -> Result<(), Fail> {
        let crd = crd_of(alloc, row.text("schema"))??;
        let broken = broken_lines(alloc, &crd.raw);
        match is_said(report, "what is broken", broken, row.out()) {
            Ok(()) => is_said(report, "the answer", answer(alloc, crd.raw), row.out()),
            Err(fail) => {
                drop(crd);
                Err(fail)
            }
        }
    }
}

#[test]
fn defaults(rt: HostRuntime) -> Result<(), Fail> {
    try_tables(&rt, rt.alloc(), &DefaultRow, &[DEFAULTS])
}
