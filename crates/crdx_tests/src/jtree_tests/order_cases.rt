//! The order of trees.
use crate::support::report::Report;
use crate::support::rows::{Kind, Row, try_tables};
use jtree::Tree;
use std::alloc::Global;
use std::test::Fail;

/// By one rule of the order after the other.
static KINDS: &str = r#"
9 rows: name | earlier | later
fewer nodes | 9 | [9]
fewer nodes of another kind | {"a":1} | [1,2]
fewer nodes of the same kind | {"z":[[]]} | {"a":[],"b":1,"c":2}
null before a boolean | null | false
a boolean before an integer | true | -5
an integer before a text | 5 | ""
a text before a list | "zzz" | []
a list before an object | [] | {}
a list of a node before an object of one | [[]] | {"a":1}
"#;

static SCALARS: &str = r#"
12 rows: name | earlier | later
booleans | false | true
the least integer | -9223372036854775808 | -2
negative integers | -2 | -1
an integer below 0 | -1 | 0
fewer digits | 9 | 10
the greatest integer | 10 | 9223372036854775807
the empty text | "" | "a"
the beginning of a text | "a" | "aa"
the first letters | "aa" | "b"
a capital letter | "Z" | "a"
a letter of two bytes | "z" | "é"
letters of three and four bytes | "￼" | "😀"
"#;

static PARTS: &str = r#"
12 rows: name | earlier | later
the first items | [1,2] | [2,1]
the first items, not the last | [0,9] | [1,0]
a first item of fewer nodes, of two items | [[],[]] | [[0]]
an integer before a list with one | [0,1] | [[1]]
the later name | {"b":false} | {"a":0}
the later name of equal texts | {"k":"x"} | {"j":"x"}
the later first name | {"b":true,"c":true} | {"a":false,"c":false}
the later name after equal members | {"a":false,"c":true} | {"a":false,"b":false}
equal names, another value | {"a":0} | {"a":1}
equal names, the first value | {"a":0,"b":1} | {"a":1,"b":0}
equal names, an integer before a list | {"a":1,"b":[]} | {"a":[],"b":1}
the empty name last | {"a":null} | {"":null}
"#;

/// Two trees of which the first is before the second.
struct Ordered;

impl Kind for Ordered {
    fn attempt(&self, report: &mut Report, alloc: Global, row: &Row) -> Result<(), Fail> {
        let earlier = Tree::from_bytes(alloc, row.text("earlier").as_bytes())?;
        let later = Tree::from_bytes(alloc, row.text("later").as_bytes())?;
        report.holds("less, by `cmp`", earlier.cmp(&later).is_lt());
        report.holds("greater, by `cmp`", later.cmp(&earlier).is_gt());
        report.holds("less, by `<`", earlier < later);
        report.holds("two trees", earlier != later);
        report.holds("equal to itself, by `cmp`", later.cmp(&later).is_eq());
        Ok(())
    }
}

#[test]
fn order(rt: HostRuntime) -> Result<(), Fail> {
    jtree::laws::order_is_total();
    jtree::laws::order_in_words();
    jtree::laws::texts_are_unique();
    jtree::laws::last_node_is_replaced();
    try_tables(&rt, rt.alloc(), &Ordered, &[KINDS, SCALARS, PARTS])
}
