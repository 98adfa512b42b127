//! Values of a field: which are valid, and which are stored as they are.
use crate::support::harness::schema_of_field;
use crate::support::nodes::first_field;
use crate::support::report::Report;
use crate::support::rows::{Kind, Row, all_rows};
use jtree::Tree;
use schema::Node;
use std::alloc::Global;
use std::test::Fail;
use stored::{is_stored, valid};

// In this table and the next good values are valid.
static SCALARS: &str = r#"
8 rows: name | field | good | bad
lengths in characters, and `not` | {"type":"string","minLength":2,"not":{"enum":["ab"]}} | ["éé","abc","😀😀"] | ["a","ab","é","😀",1,null]
an exclusive minimum | {"type":"integer","minimum":3,"exclusiveMinimum":true} | [4] | [3,2,-4,"4",true]
an exclusive flag without its bound | {"type":"integer","exclusiveMinimum":true,"exclusiveMaximum":true} | [0,-1] | [false]
exactly one branch | {"type":"integer","oneOf":[{"minimum":1},{"maximum":3}]} | [0,4] | [1,2,3]
at least one branch | {"type":"integer","anyOf":[{"maximum":1},{"minimum":1},{"enum":[9]}]} | [0,1,2] | ["x"]
none of the branches | {"type":"integer","anyOf":[{"maximum":1},{"minimum":5}]} | [1,5] | [2,4]
junctors three deep | {"type":"integer","allOf":[{"anyOf":[{"not":{"minimum":5}},{"enum":[7]}]}]} | [4,7] | [5,6,8]
bounds and lengths of an integer or a text | {"x-kubernetes-int-or-string":true,"minimum":2,"maxLength":1} | [2,10,"","1"] | [1,"12",true,{},[]]
"#;

static LISTS_AND_OBJECTS: &str = r#"
9 rows: name | field | good | bad
a null with an enum | {"type":"string","nullable":true,"enum":["x","x"]} | [null,"x"] | ["y",""]
a set | {"type":"array","items":{"type":"integer"},"x-kubernetes-list-type":"set"} | [[1,2,3],[3,2,1],[]]
    | [[1,1],[1,2,2],[2,1,2],["1"],[null],{},null]
a set of integers and texts | {"type":"array","items":{"x-kubernetes-int-or-string":true},"x-kubernetes-list-type":"set"} | [[1,"1"]] | [["1",1,"1"]]
an atomic list with bounds | {"type":"array","items":{"type":"integer"},"minItems":1,"maxItems":2} | [[1],[1,1]] | [[],[1,2,3]]
a map list
    | {"type":"array","x-kubernetes-list-type":"map","x-kubernetes-list-map-keys":["host","port"],
    "items":{"type":"object","required":["host","port"],"properties":{"host":{"type":"string"},"port":{"type":"integer"}}}}
    | [[{"host":"x","port":0},{"host":"x","port":1}],[{"host":"y","port":0},{"host":"x","port":0}],[]]
    | [[{"host":"x","port":0},{"host":"x","port":0}],[{"host":"y","port":0},{"host":"x","port":0},{"host":"y","port":0}],[{"host":"x"}],
    [{"host":"x","port":0},{"host":"y"},1]]
keys that are absent on both sides
    | {"type":"array","x-kubernetes-list-type":"map","x-kubernetes-list-map-keys":["k"],
    "items":{"type":"object","properties":{"k":{"type":"string","default":""},"v":{"type":"integer"}}}}
    | [[{"v":1},{"k":""}]] | [[{"v":1},{"v":2}],[{"k":"a"},{"k":"b"},{"k":"a","v":1}]]
a map with bounds | {"type":"object","additionalProperties":{"type":"integer","nullable":true},"minProperties":1,"maxProperties":2}
    | [{"a":1},{"a":null,"b":2}] | [{},{"a":1,"b":2,"c":3},{"a":"x"},[]]
any value | {"x-kubernetes-preserve-unknown-fields":true} | [0,"",[null],{"a":{"b":null}}] | [null]
a nullable object below a list | {"type":"array","items":{"type":"object","nullable":true,"properties":{"a":{"type":"integer"}}}}
    | [[null,{}],[{"a":1}]] | [[{"a":null}],[[]]]
"#;

// Good values are stored as they are.
static STORED: &str = r#"
5 rows: name | field | good | bad
a default | {"type":"object","properties":{"f":{"type":"integer","default":7}}} | [{"f":7},{"f":0}] | [{},{"f":null},{"f":7,"z":1},{"f":""},null]
nulls that are accepted and others | {"type":"object","properties":{"a":{"type":"integer"},"b":{"type":"integer","nullable":true,"default":1}}}
    | [{"b":null},{"a":1,"b":1}] | [{},{"a":null,"b":1}]
a default below a map and a list
    | {"type":"object","additionalProperties":{"type":"array","items":{"type":"object","properties":{"f":{"type":"integer","default":7}}}}}
    | [{},{"m":[]},{"m":[{"f":7}]}] | [{"m":[{}]},{"m":[{"f":7},{"f":7,"z":1}]},{"m":null}]
fields that are kept | {"type":"object","x-kubernetes-preserve-unknown-fields":true,"properties":{"a":{"type":"object","properties":{}}}}
    | [{"z":null,"a":{}}] | [{"a":{"z":1}}]
a set | {"type":"array","items":{"type":"integer"},"x-kubernetes-list-type":"set"} | [[1,2]] | [[1,1]]
"#;

/// Which values of a field are good.
#[derive(Clone, Copy)]
enum Good {
    Valid,
    Stored,
}

impl Good {
    fn holds(self, node: &Node, value: &Tree) -> bool {
        match self {
            Good::Valid => valid(node, value),
            Good::Stored => is_stored(node, value),
        }
    }
}

/// Notes it unless each value of a list is good, or each is not.
fn all_answer(
    report: &mut Report,
    alloc: Global,
    node: &Node,
    values: &Tree,
    good: Good,
    wanted: bool,
) -> Result<(), Fail> {
    let what = if wanted {
        "a good value"
    } else {
        "a bad value"
    };
    let Tree::List(items) = values else {
        return Err(Fail::from("no list of values"));
    };
    for item in &items.items {
        let text = item.to_text(alloc)?;
        report.holds_of(what, text.as_str(), good.holds(node, item) == wanted);
    }
    Ok(())
}

fn try_list(
    report: &mut Report,
    alloc: Global,
    node: &Node,
    values: &str,
    good: Good,
    wanted: bool,
) -> Result<(), Fail> {
    let values = Tree::from_bytes(alloc, values.as_bytes())?;
    all_answer(report, alloc, node, &values, good, wanted)
}

fn try_lists(
    report: &mut Report,
    alloc: Global,
    root: &Node,
    row: &Row,
    good: Good,
) -> Result<(), Fail> {
    let node = first_field(root)?;
    try_list(report, alloc, node, row.text("good"), good, true)?;
    try_list(report, alloc, node, row.text("bad"), good, false)
}

/// The schema of a field `x`, values of it that are good, and others.
#[derive(Drop)]
struct FieldValues {
    good: Good,
}

impl Kind for FieldValues {
    fn attempt(&self, report: &mut Report, alloc: Global, row: &Row) -> Result<(), Fail> {
        let schema = schema_of_field(alloc, row.text("field"))?;
        try_lists(report, alloc, schema.root(), row, self.good)
    }
}

#[test]
fn values(rt: HostRuntime) -> Result<(), Fail> {
    stored::laws::becomes_one_tree();
    let valid = FieldValues { good: Good::Valid };
    let stored = FieldValues { good: Good::Stored };
    let mut report = Report::new(rt.alloc());
    all_rows(
        &mut report,
        rt.alloc(),
        &valid,
        &[SCALARS, LISTS_AND_OBJECTS],
    );
    all_rows(&mut report, rt.alloc(), &stored, &[STORED]);
    report.end(&rt)
}
