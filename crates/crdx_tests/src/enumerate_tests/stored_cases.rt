//! What is stored, by the plain reference and by `stored`, against values that were judged by hand.
use crate::support::harness::schema_of_field;
use crate::support::nodes::first_field;
use crate::support::plain_stored::is_plainly_stored;
use crate::support::report::Report;
use crate::support::rows::{Kind, Row, try_tables};
use jtree::Tree;
use schema::Node;
use std::alloc::Global;
use std::test::Fail;
use stored::is_stored;

static SCALARS: &str = r#"
9 rows: name | schema | stored | others
booleans | {"type":"boolean"} | [true,false] | [null,1,"true",[],{}]
an exclusive minimum, and null | {"type":"integer","nullable":true,"minimum":1,"exclusiveMinimum":true,"maximum":3} | [null,2,3]
    | [-2,1,4,"2",true,[2]]
an exclusive maximum | {"type":"integer","minimum":1,"maximum":3,"exclusiveMaximum":true} | [1,2] | [null,0,3,4]
exclusive flags without their bounds | {"type":"integer","exclusiveMinimum":true,"exclusiveMaximum":true} | [-1,0,1] | [false]
lengths in Unicode scalar values | {"type":"string","minLength":1,"maxLength":2} | ["a","ab","éé","😀😀"] | ["","abc","ééé","😀😀😀",1,null]
an enum | {"type":"string","enum":["a","bb"]} | ["a","bb"] | ["","b","c",null]
null beside an enum | {"type":"integer","nullable":true,"enum":[1]} | [null,1] | [0,"1"]
integers and texts | {"x-kubernetes-int-or-string":true,"minimum":2,"maxLength":1} | [2,10,"","1"] | [1,"12",true,{},[],null]
any value but null | {"x-kubernetes-preserve-unknown-fields":true} | [1,"a",true,[null,null],{"q":null}] | [null]
"#;

static OBJECTS: &str = r#"
7 rows: name | schema | stored | others
a required field | {"type":"object","required":["a"],"properties":{"a":{"type":"integer"},"b":{"type":"boolean","nullable":true}}}
    | [{"a":1},{"a":1,"b":null},{"a":1,"b":true}] | [{},{"a":null},{"a":1,"b":1},{"a":1,"c":1},{"b":true},[],1,null]
members that are not declared
    | {"type":"object","x-kubernetes-preserve-unknown-fields":true,"properties":{"a":{"type":"object","properties":{"b":{"type":"integer"}}}}}
    | [{},{"z":{"q":null}},{"a":{"b":1},"z":[null]}] | [{"a":{"z":1}},{"a":1},{"a":null}]
a default | {"type":"object","properties":{"f":{"type":"integer","default":7},"g":{"type":"integer"}}} | [{"f":7},{"f":0,"g":1}]
    | [{},{"g":1},{"f":null}]
a default beside null | {"type":"object","properties":{"f":{"type":"integer","nullable":true,"default":0}}} | [{"f":null},{"f":0},{"f":1}] | [{}]
a default in the items of a list | {"type":"array","items":{"type":"object","properties":{"f":{"type":"integer","default":7}}}}
    | [[],[{"f":1}],[{"f":1},{"f":1}]] | [[{}],[{"f":1},{}],[null],{},null]
numbers of members
    | {"type":"object","minProperties":1,"maxProperties":2,"properties":{"a":{"type":"boolean"},"b":{"type":"boolean"},"c":{"type":"boolean"}}}
    | [{"a":true},{"a":true,"c":false}] | [{},{"a":true,"b":true,"c":true}]
maps | {"type":"object","minProperties":1,"maxProperties":2,"additionalProperties":{"type":"integer","nullable":true}} | [{"p":1},{"p":null,"q":2}]
    | [{},{"p":"1"},{"p":1,"q":1,"r":1},[],null]
"#;

static LISTS_AND_JUNCTORS: &str = r#"
7 rows: name | schema | stored | others
numbers of items | {"type":"array","minItems":1,"maxItems":2,"items":{"type":"integer"}} | [[1],[1,1]] | [[],[1,2,3],["1"],[null]]
sets | {"type":"array","x-kubernetes-list-type":"set","items":{"x-kubernetes-int-or-string":true}} | [[],[1,2],[2,1],[1,"1"]]
    | [[1,1],[1,2,1],["1",1,"1"]]
map lists by two keys
    | {"type":"array","x-kubernetes-list-type":"map","x-kubernetes-list-map-keys":["h","p"],
    "items":{"type":"object","required":["h","p"],"properties":{"h":{"type":"string"},"p":{"type":"integer"},"v":{"type":"integer"}}}}
    | [[],[{"h":"a","p":0},{"h":"a","p":1}],[{"h":"a","p":0},{"h":"b","p":0,"v":1}]]
    | [[{"h":"a","p":0},{"h":"a","p":0,"v":1}],[{"h":"a","p":0},{"h":"b","p":0},{"h":"a","p":0}],[{"h":"a"}],[1]]
junctors of integers | {"type":"integer","allOf":[{"minimum":1},{"maximum":9}],"anyOf":[{"maximum":3},{"minimum":7}],"not":{"enum":[2]}} | [1,3,7,9]
    | [0,2,4,6,10]
exactly one branch, and branches in branches
    | {"type":"integer","oneOf":[{"minimum":1},{"maximum":3}],"allOf":[{"anyOf":[{"not":{"minimum":5}},{"enum":[7]}]}]} | [0,4,7] | [1,2,3,5,6,8]
one of two fields
    | {"type":"object","oneOf":[{"required":["a"]},{"required":["b"]}],"properties":{"a":{"type":"boolean","nullable":true},"b":{"type":"boolean"},
    "c":{"type":"boolean"}}} | [{"a":true},{"a":null},{"b":true,"c":true}]
    | [{},{"c":true},{"a":true,"b":true},{"a":null,"b":true,"c":true}]
fields that are not both there, and one of which is
    | {"type":"object","not":{"required":["a","b"]},"anyOf":[{"required":["b"]},{"allOf":[{"required":["c"]}]}],
    "properties":{"a":{"type":"boolean"},"b":{"type":"boolean"},"c":{"type":"boolean"}}}
    | [{"b":true},{"c":true},{"a":true,"c":true},{"b":true,"c":true}] | [{},{"a":true},{"a":true,"b":true},{"a":true,"b":true,"c":true}]
"#;

fn try_list(
    report: &mut Report,
    alloc: Global,
    node: &Node,
    values: &str,
    wanted: bool,
) -> Result<(), Fail> {
    let Tree::List(values) = Tree::from_bytes(alloc, values.as_bytes())? else {
        return Err(Fail::from("no list"));
    };
    for value in &values.items {
        let text = value.to_text(alloc)?;
        report.is_value(text.as_str(), &is_plainly_stored(node, value), &wanted);
        report.holds_of(
            "the same by `stored`",
            text.as_str(),
            is_stored(node, value) == wanted,
        );
    }
    Ok(())
}

/// The schema of a field, a list of values that are stored there, and a list of values that are not.
struct Stored;

impl Kind for Stored {
    fn attempt(&self, report: &mut Report, alloc: Global, row: &Row) -> Result<(), Fail> {
        let schema = schema_of_field(alloc, row.text("schema"))?;
        let node = first_field(schema.root())?;
        try_list(report, alloc, node, row.text("stored"), true)?;
        try_list(report, alloc, node, row.text("others"), false)
    }
}

#[test]
fn stored_values(rt: HostRuntime) -> Result<(), Fail> {
    try_tables(
        &rt,
        rt.alloc(),
        &Stored,
        &[SCALARS, OBJECTS, LISTS_AND_JUNCTORS],
    )
}
