//! Parts of trees: how many nodes they have, the value under a name, and the last node.
use crate::support::harness::{is_said, is_tree};
use crate::support::report::Report;
use crate::support::rows::{Kind, Row, try_tables};
use jtree::Tree;
use std::alloc::Global;
use std::test::Fail;

static PARTS: &str = r#"
10 rows: name | document | nodes | member | value | text | is_x
null | null | 1 | a | none | none | no
an empty list | [] | 1 | a | none | none | no
an empty object | {} | 1 | a | none | none | no
an object below an object | {"spec":{"a":0,"b":false}} | 4 | spec | {"a":0,"b":false} | none | no
a list | [[],[0,"x"],{"name":null}] | 7 | name | none | none | no
a text that is `x` | {"a":"x","b":1,"":""} | 4 | a | "x" | x | yes
an integer | {"a":"x","b":1,"":""} | 4 | b | 1 | none | no
the empty name | {"a":"x","b":1,"":""} | 4 | - | "" | - | no
a name that is not there | {"a":"x","b":1,"":""} | 4 | c | none | none | no
a text in a list | ["x"] | 2 | x | none | none | no
"#;

fn said_of_part(alloc: Global, tree: &Tree, name: &str) -> Result<String, Fail> {
    match tree.get(name) {
        Some(part) => Ok(part.to_text(alloc)?),
        None => Ok(String::from_str(alloc, "none")?),
    }
}

/// A document, how many nodes it has, the name of a member, the value there, its text if it is one, and whether that is `x`.
struct Part;

impl Kind for Part {
    fn attempt(&self, report: &mut Report, alloc: Global, row: &Row) -> Result<(), Fail> {
        let tree = Tree::from_bytes(alloc, row.text("document").as_bytes())?;
        report.is_number("the nodes", tree.nodes(), row.number("nodes"));
        if let Tree::Object(members) = &tree {
            let found = members.nodes().saturating_add(1);
            report.is_number("the nodes by the members", found, row.number("nodes"));
        }
        report.is_value(
            "the text",
            &tree.get_text(row.text("member")),
            &row.optional("text"),
        );
        report.is_value(
            "the test",
            &tree.has_text(row.text("member"), "x"),
            &row.is("is_x"),
        );
        is_said(
            report,
            "the value",
            said_of_part(alloc, &tree, row.text("member")),
            row.text("value"),
        )
    }
}

#[test]
fn parts(rt: HostRuntime) -> Result<(), Fail> {
    try_tables(&rt, rt.alloc(), &Part, &[PARTS])
}

static LAST_NODES: &str = r#"
8 rows: name | document | last | other | changed | same_length
an integer | -5 | -5 | 27 | 27 | yes
an empty list | [] | [] | {} | {} | yes
an empty object | {} | {} | [] | [] | yes
an integer in lists | [1,[2,3]] | 3 | 9 | [1,[2,9]] | yes
an integer with fewer digits | [1,[2,10]] | 10 | 9 | [1,[2,9]] | no
a boolean | [[true]] | true | null | [[null]] | yes
a longer boolean | [[true]] | true | false | [[false]] | no
an empty list in objects | {"a":{"b":7},"c":{"d":[8,[]]}} | [] | 12 | {"a":{"b":7},"c":{"d":[8,12]}} | yes
"#;

static OTHER_NODES: &str = r#"
8 rows: name | document | last | other | changed | same_length
the least integer | {"z":[{"y":-9223372036854775808}]} | -9223372036854775808 | -9223372036854775807 | {"z":[{"y":-9223372036854775807}]} | yes
a text with an escape | [{"k":"a\"b"}] | "a\"b" | "a\nb" | [{"k":"a\nb"}] | yes
a text with fewer bytes | [{"k":"a\"b"}] | "a\"b" | "a/b" | [{"k":"a/b"}] | no
a text with an escape of six bytes | ["\u0001"] | "\u0001" | "abcdef" | ["abcdef"] | yes
a text with more bytes | ["ab"] | "ab" | "abcd" | ["abcd"] | no
a list in the place of a text | [7,"abc"] | "abc" | [1,2] | [7,[1,2]] | yes
an object in the place of a list | {"b":1,"c":[]} | [] | {"x":[2,3]} | {"b":1,"c":{"x":[2,3]}} | no
an integer in the place of an object | [5,{"a":[1,{"b":{}}]}] | {} | -8 | [5,{"a":[1,{"b":-8}]}] | yes
"#;

static LAST_PARTS: &str = r#"
11 rows: name | document | last_depth | depth | text
an integer | 7 | 0 | 0 | 7
below an integer | 7 | 0 | 1 | -
an empty object | {} | 0 | 0 | {}
two levels below a list | [] | 0 | 2 | -
a list | [1,"a"] | 1 | 0 | [1,"a"]
the last item | [1,"a"] | 1 | 1 | "a"]
one level down | {"a":[{"b":1},{"b":[]}],"c":[{"d":2},{"e":3,"f":4}]} | 3 | 1 | [{"d":2},{"e":3,"f":4}]}
two levels down | {"a":[{"b":1},{"b":[]}],"c":[{"d":2},{"e":3,"f":4}]} | 3 | 2 | {"e":3,"f":4}]}
three levels down | {"a":[{"b":1},{"b":[]}],"c":[{"d":2},{"e":3,"f":4}]} | 3 | 3 | 4}]}
below the last node | {"a":[{"b":1},{"b":[]}],"c":[{"d":2},{"e":3,"f":4}]} | 3 | 4 | }]}
an object in lists | [[],[{}]] | 2 | 2 | {}]]
"#;

fn after_others(alloc: Global, tree: &Tree, depth: usize) -> Result<String, Fail> {
    let others = Vec::from_slice(alloc, b"> ")?;
    Ok(String::from_utf8(tree.append_part(depth, others)?)?)
}

/// A document, how many levels down its last node is, how many levels down a part is, and the text from that part on.
struct LastPart;

impl Kind for LastPart {
    fn attempt(&self, report: &mut Report, alloc: Global, row: &Row) -> Result<(), Fail> {
        let tree = Tree::from_bytes(alloc, row.text("document").as_bytes())?;
        report.is_value(
            "how deep the last node is",
            &tree.last_depth(),
            &row.count("last_depth"),
        );
        let text = after_others(alloc, &tree, row.count("depth"))?;
        let part = text.as_str().strip_prefix("> ");
        report.is_value("the text of the part", &part, &Some(row.text("text")));
        Ok(())
    }
}

fn try_overwriting(
    report: &mut Report,
    alloc: Global,
    tree: &Tree,
    node: &Tree,
    row: &Row,
) -> Result<(), Fail> {
    let mut text = Vec::from_slice(alloc, b"> ")?;
    text.extend_from_slice(row.text("changed").as_bytes())?;
    let mut scratch = Vec::from_slice(alloc, b"scratch")?;
    let done = tree
        .last()
        .overwrite(node, tree.last_depth(), &mut text, &mut scratch)?;
    report.is_value(
        "whether it has as many bytes",
        &done,
        &row.is("same_length"),
    );
    let text = String::from_utf8(text)?;
    let wanted = if row.is("same_length") {
        row.text("document")
    } else {
        row.text("changed")
    };
    let found = text.as_str().strip_prefix("> ");
    report.is_value("the text", &found, &Some(wanted));
    Ok(())
}

fn try_set_last(
    report: &mut Report,
    alloc: Global,
    tree: &mut Tree,
    node: &Tree,
    row: &Row,
) -> Result<(), Fail> {
    let depth = tree.last_depth();
    let found = tree.set_last(alloc, node)?;
    report.is_value("how deep the node is", &found, &depth);
    is_tree(
        report,
        alloc,
        "the tree with the other node",
        tree,
        row.text("changed"),
    )
}

fn try_set(report: &mut Report, alloc: Global, node: &mut Tree, row: &Row) -> Result<(), Fail> {
    let before = Tree::from_bytes(alloc, row.text("last").as_bytes())?;
    node.set(alloc, &before)?;
    is_tree(
        report,
        alloc,
        "a node set to the last one",
        node,
        row.text("last"),
    )
}

/// A document, its last node, another node, the document with that one in its place, and whether it has as many bytes.
struct LastNode;

impl Kind for LastNode {
    fn attempt(&self, report: &mut Report, alloc: Global, row: &Row) -> Result<(), Fail> {
        let mut tree = Tree::from_bytes(alloc, row.text("document").as_bytes())?;
        is_tree(
            report,
            alloc,
            "the last node",
            tree.last(),
            row.text("last"),
        )?;
        let mut node = Tree::from_bytes(alloc, row.text("other").as_bytes())?;
        try_overwriting(report, alloc, &tree, &node, row)?;
        try_set_last(report, alloc, &mut tree, &node, row)?;
        try_set(report, alloc, &mut node, row)
    }
}

#[test]
fn last_nodes(rt: HostRuntime) -> Result<(), Fail> {
    try_tables(&rt, rt.alloc(), &LastNode, &[LAST_NODES, OTHER_NODES])
}

#[test]
fn last_parts(rt: HostRuntime) -> Result<(), Fail> {
    try_tables(&rt, rt.alloc(), &LastPart, &[LAST_PARTS])
}
