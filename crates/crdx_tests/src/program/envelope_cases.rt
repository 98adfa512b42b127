//! The envelope of a resource, taken off and put back.
use crate::support::harness::is_tree;
use crate::support::report::Report;
use crate::support::rows::{Kind, Row, try_tables};
use crdx::{join, split};
use jtree::Tree;
use std::alloc::Global;
use std::test::Fail;

static ROWS: &str = r#"
11 rows: name | whole | body
all three | {"apiVersion":"v1","kind":"Widget","metadata":{"name":"w"},"spec":{"kind":"a"}} | {"spec":{"kind":"a"}}
the envelope alone | {"apiVersion":"v1","kind":"Widget","metadata":{}} | {}
a kind | {"kind":"Widget","spec":1} | {"spec":1}
no kind | {"apiVersion":"v1","metadata":{},"z":1} | {"z":1}
none | {"spec":1,"status":2} | {"spec":1,"status":2}
no members | {} | {}
members before, between and after | {"A":0,"apiVersion":"v1","b":1,"kind":"Widget","l":2,"metadata":{},"z":3} | {"A":0,"b":1,"l":2,"z":3}
names that are alike | {"Kind":1,"apiVersio":2,"apiVersions":3,"kind":4,"kinds":5} | {"Kind":1,"apiVersio":2,"apiVersions":3,"kinds":5}
other values | {"apiVersion":1,"kind":null,"metadata":"m","spec":[]} | {"spec":[]}
a list | [{"kind":"Widget"}] | [{"kind":"Widget"}]
a text | "kind" | "kind"
"#;

// The envelope is taken off a tree and put back.
fn try_parts(report: &mut Report, alloc: Global, tree: &mut Tree, row: &Row) -> Result<(), Fail> {
    let parts = split(tree);
    is_tree(report, alloc, "the body", tree, row.text("body"))?;
    join(tree, parts)?;
    is_tree(report, alloc, "the whole", tree, row.text("whole"))
}

/// A tree, and what is left of it without the envelope.
struct Enveloped;

impl Kind for Enveloped {
    fn attempt(&self, report: &mut Report, alloc: Global, row: &Row) -> Result<(), Fail> {
        let mut tree = Tree::from_bytes(alloc, row.text("whole").as_bytes())?;
        try_parts(report, alloc, &mut tree, row)
    }
}

#[test]
fn split_and_join(rt: HostRuntime) -> Result<(), Fail> {
    try_tables(&rt, rt.alloc(), &Enveloped, &[ROWS])
}
