//! Plans that are small enough for the plain reference: each way to hold a node, round each sort of node, over a few pools.
use crate::support::comparison::compare_plan;
use crate::support::given::Given;
use crate::support::report::Report;
use crate::support::rows::{Row, rows_of};
use crate::support::small_nodes::{
    HOLDERS, HOLDERS_OF_SCALARS, LEAVES, NODES, NUMBERS, PRESENCE, SCALARS,
};
use schema::Profile;
use std::alloc::{AllocError, Global};
use std::test::Fail;

const POOLS: &str =
    r#"{"any":[[1],null,"z",{"q":1},"z"],"integers":[1,0,1],"names":["q","p","q"],"strings":["bb","a"]}"#;

const FEW: &str =
    r#"{"any":[[true,[]],false],"integers":[7],"names":["p","a/b"],"strings":["bb"]}"#;

/// A profile, pools, a limit, and what their name adds to that of a row.
#[derive(Clone, Copy)]
struct Over<'a> {
    profile: Profile,
    pools: &'a str,
    limit: u32,
    name: &'a str,
}

fn one_node(
    report: &mut Report,
    alloc: Global,
    holder: &Row,
    node: &Row,
    over: Over<'_>,
) -> Result<(), AllocError> {
    let name = format!(in alloc; "{} of {}{}", holder.name(), node.name(), over.name)?;
    let (head, schema, tail) = (
        holder.text("head"),
        node.text("schema"),
        holder.text("tail"),
    );
    let schema = format!(in alloc; "{head}{schema}{tail}")?;
    let given = Given {
        profile: over.profile,
        schema: schema.as_str(),
        pools: over.pools,
        limit: over.limit,
    };
    compare_plan(report, alloc, given, name.as_str());
    Ok(())
}

/// Each node of a table in each way to hold it.
fn all_nodes(
    report: &mut Report,
    alloc: Global,
    holders: &str,
    nodes: &[&str],
    over: Over<'_>,
) -> Result<(), Fail> {
    let nodes = rows_of(alloc, nodes)?;
    for holder in &rows_of(alloc, &[holders])? {
        for node in &nodes {
            one_node(report, alloc, holder, node, over)?;
        }
    }
    Ok(())
}

fn all_plans(report: &mut Report, alloc: Global, pools: &str, limit: u32) -> Result<(), Fail> {
    let over = Over {
        profile: Profile::Core,
        pools,
        limit,
        name: "",
    };
    let nodes = &[SCALARS, LEAVES, NODES, PRESENCE];
    all_nodes(report, alloc, HOLDERS, nodes, over)?;
    all_nodes(report, alloc, HOLDERS_OF_SCALARS, &[SCALARS], over)
}

#[test]
fn plans_over_pools(rt: HostRuntime) -> Result<(), Fail> {
    let mut report = Report::new(rt.alloc());
    all_plans(&mut report, rt.alloc(), POOLS, 6)?;
    report.end(&rt)
}

#[test]
fn plans_over_few_values(rt: HostRuntime) -> Result<(), Fail> {
    let mut report = Report::new(rt.alloc());
    all_plans(&mut report, rt.alloc(), FEW, 7)?;
    report.end(&rt)
}

#[test]
fn plans_without_pools(rt: HostRuntime) -> Result<(), Fail> {
    let mut report = Report::new(rt.alloc());
    all_plans(&mut report, rt.alloc(), "{}", 8)?;
    report.end(&rt)
}

// With one value twice.
const NUMBER_POOLS: &str =
    r#"{"integers":[2,1],"names":["q"],"numbers":[0.50,1.5,0.5],"strings":["a"]}"#;

#[test]
fn plans_of_numbers(rt: HostRuntime) -> Result<(), Fail> {
    let mut report = Report::new(rt.alloc());
    let over = Over {
        profile: Profile::Cluster,
        pools: NUMBER_POOLS,
        limit: 6,
        name: "",
    };
    for holders in [HOLDERS, HOLDERS_OF_SCALARS] {
        all_nodes(&mut report, rt.alloc(), holders, &[NUMBERS], over)?;
    }
    report.end(&rt)
}

/// With values of another kind and a repeat, and without values.
static LISTS: &str = r#"
3 rows: name | list
a list of scalars | [3,1,"bb",null,true,3]
a list of other values | [{"q":[1]},"a",[]]
an empty list | []
"#;

/// Fixed values: of each kind with a repeat, and none.
static FIXED: &str = r#"
3 rows: name | list
fixed integers and lists | [3,{"a":true,"b":1},["bb"],3,[{"k":"z"}]]
fixed nulls, texts and objects | [null,"bb",{},[true,false],{"p":"a"}]
no fixed value | []
"#;

/// A list for the path of a holder, over other pools.
#[derive(Clone, Copy)]
struct Listed<'a> {
    /// The pools before the members of the last one.
    front: &'a str,
    row: &'a Row,
}

fn listed_nodes(
    report: &mut Report,
    alloc: Global,
    holder: &Row,
    nodes: &[Row],
    listed: Listed<'_>,
) -> Result<(), AllocError> {
    let Listed { front, row } = listed;
    let (path, list) = (holder.text("path"), row.text("list"));
    let pools = format!(in alloc; r#"{front}{{"{path}":{list}}}}}"#)?;
    let name = format!(in alloc; ", {}", row.name())?;
    let over = Over {
        profile: Profile::Core,
        pools: pools.as_str(),
        limit: 6,
        name: name.as_str(),
    };
    for node in nodes {
        one_node(report, alloc, holder, node, over)?;
    }
    Ok(())
}

/// Each node of a table in each way to hold it.
fn listed_plans(
    report: &mut Report,
    alloc: Global,
    holders: &str,
    nodes: &[&str],
    listed: Listed<'_>,
) -> Result<(), Fail> {
    let nodes = rows_of(alloc, nodes)?;
    for holder in &rows_of(alloc, &[holders])? {
        listed_nodes(report, alloc, holder, &nodes, listed)?;
    }
    Ok(())
}

#[test]
fn plans_with_lists_for_paths(rt: HostRuntime) -> Result<(), Fail> {
    let alloc = rt.alloc();
    let mut report = Report::new(alloc);
    let front = r#"{"any":["z"],"integers":[0,5],"names":["p"],"strings":["bb","c"],"paths":"#;
    for row in &rows_of(alloc, &[LISTS])? {
        let listed = Listed { front, row };
        listed_plans(&mut report, alloc, HOLDERS, &[SCALARS, LEAVES], listed)?;
        listed_plans(&mut report, alloc, HOLDERS_OF_SCALARS, &[SCALARS], listed)?;
    }
    report.end(&rt)
}

#[test]
fn plans_over_fixed_values(rt: HostRuntime) -> Result<(), Fail> {
    let alloc = rt.alloc();
    let mut report = Report::new(alloc);
    let front = r#"{"any":["z"],"integers":[0],"names":["p"],"strings":["c"],"fixed":"#;
    for row in &rows_of(alloc, &[FIXED])? {
        let listed = Listed { front, row };
        listed_plans(&mut report, alloc, HOLDERS, &[LEAVES, NODES], listed)?;
        listed_plans(&mut report, alloc, HOLDERS_OF_SCALARS, &[SCALARS], listed)?;
    }
    report.end(&rt)
}

// Nodes that have nodes below them, and the texts of two steps that are asked for below each.
static ASKED: &str = r#"
9 rows: name | schema | one | other
objects | {"type":"object","properties":{"a":{"type":"boolean"},"b":{"type":"boolean","nullable":true}}} | /b | /a
objects or null | {"type":"object","nullable":true,"properties":{"a":{"type":"boolean"},"b":{"type":"integer"}}} | /a | /a
objects with a required field and a default
    | {"type":"object","nullable":true,"required":["a"],"properties":{"a":{"type":"boolean"},"f":{"type":"integer","default":7}}} | /f | /a
objects with at most one of two fields
    | {"type":"object","maxProperties":1,"properties":{"a":{"type":"boolean"},"b":{"type":"object","nullable":true,
    "properties":{"c":{"type":"boolean"}}}}} | /b | /b/c
objects with one of two fields
    | {"type":"object","nullable":true,"oneOf":[{"required":["a"]},{"required":["b"]}],
    "properties":{"a":{"type":"boolean"},"b":{"type":"object"},"c":{"type":"object"}}} | /c | /b
maps or null | {"type":"object","nullable":true,"additionalProperties":{"type":"boolean","nullable":true}} | /{} | /{}
maps of lists | {"type":"object","maxProperties":1,"additionalProperties":{"type":"array","nullable":true,"items":{"type":"boolean"}}} | /{}/[] | /{}
lists or null | {"type":"array","nullable":true,"items":{"type":"object","nullable":true,"properties":{"a":{"type":"boolean"}}}} | /[] | /[]/a
map lists
    | {"type":"array","maxItems":2,"x-kubernetes-list-type":"map","x-kubernetes-list-map-keys":["k"],
    "items":{"type":"object","required":["k"],"properties":{"k":{"type":"boolean"},"v":{"type":"boolean"}}}}
    | /[] | /[]/v
"#;

/// The path of the node that is held, what is below it, or both are asked for.
fn present_paths(alloc: Global, path: &str, row: &Row, place: u32) -> Result<String, AllocError> {
    let (one, other) = (row.text("one"), row.text("other"));
    match place {
        0 => format!(in alloc; r#"["{path}"]"#),
        1 => format!(in alloc; r#"["{path}{one}"]"#),
        2 => format!(in alloc; r#"["{path}{other}","{path}{one}"]"#),
        _ => format!(in alloc; r#"["{path}{other}","{path}","/x"]"#),
    }
}

fn asked_node(
    report: &mut Report,
    alloc: Global,
    holder: &Row,
    row: &Row,
    present: &str,
) -> Result<(), AllocError> {
    let pools = format!(in alloc; r#"{{"integers":[0],"names":["p"],"present":{present}}}"#)?;
    let name = format!(in alloc; ", {present}")?;
    let over = Over {
        profile: Profile::Core,
        pools: pools.as_str(),
        limit: 6,
        name: name.as_str(),
    };
    one_node(report, alloc, holder, row, over)
}

fn asked_nodes(
    report: &mut Report,
    alloc: Global,
    holder: &Row,
    row: &Row,
) -> Result<(), AllocError> {
    for place in 0..4 {
        let present = present_paths(alloc, holder.text("path"), row, place)?;
        asked_node(report, alloc, holder, row, present.as_str())?;
    }
    Ok(())
}

#[test]
fn plans_over_present_paths(rt: HostRuntime) -> Result<(), Fail> {
    let mut report = Report::new(rt.alloc());
    for holder in &rows_of(rt.alloc(), &[HOLDERS])? {
        for row in &rows_of(rt.alloc(), &[ASKED])? {
            asked_nodes(&mut report, rt.alloc(), holder, row)?;
        }
    }
    report.end(&rt)
}
