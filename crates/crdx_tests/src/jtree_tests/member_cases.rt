//! Members by their names: found, put in and taken off.
use crate::support::harness::is_tree;
use crate::support::report::Report;
use crate::support::rows::{Kind, Row, try_tables};
use jtree::{Members, Text, Tree, search};
use std::alloc::Global;
use std::test::Fail;

static NAMES: &str = r#"
5 rows: name | place | with | without
- | Err(0) | {"":9,"a":1,"c":[2],"d":3} | {"a":1,"c":[2],"d":3}
a | Ok(0) | {"a":9,"c":[2],"d":3} | {"c":[2],"d":3}
b | Err(1) | {"a":1,"b":9,"c":[2],"d":3} | {"a":1,"c":[2],"d":3}
d | Ok(2) | {"a":1,"c":[2],"d":9} | {"a":1,"c":[2]}
da | Err(3) | {"a":1,"c":[2],"d":3,"da":9} | {"a":1,"c":[2],"d":3}
"#;

const DOCUMENT: &str = r#"{"a":1,"c":[2],"d":3}"#;

fn members_of(alloc: Global) -> Result<Members, Fail> {
    match Tree::from_bytes(alloc, DOCUMENT.as_bytes())? {
        Tree::Object(members) => Ok(members),
        _ => Ok(Members {
            members: Vec::new(alloc),
        }),
    }
}

/// A name, where it is or belongs among the members `a`, `c` and `d`, the members with the value 9 under it, and those without it.
struct Named;

impl Kind for Named {
    fn attempt(&self, report: &mut Report, alloc: Global, row: &Row) -> Result<(), Fail> {
        let mut with = members_of(alloc)?;
        let there = with.get(row.name()).is_some();
        report.is_shown(
            "the place",
            &search(&with.members, row.name()),
            row.text("place"),
        )?;
        let old = with.insert(Text::from_str(alloc, row.name())?, Tree::Int(9))?;
        report.is_value("whether one was replaced", &old.is_some(), &there);
        is_tree(
            report,
            alloc,
            "with it",
            &Tree::Object(with),
            row.text("with"),
        )?;
        let mut without = members_of(alloc)?;
        let old = without.remove(row.name());
        report.is_value("whether one was taken off", &old.is_some(), &there);
        is_tree(
            report,
            alloc,
            "without it",
            &Tree::Object(without),
            row.text("without"),
        )
    }
}

#[test]
fn names(rt: HostRuntime) -> Result<(), Fail> {
    try_tables(&rt, rt.alloc(), &Named, &[NAMES])
}
