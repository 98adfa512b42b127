//! Documents of pools: their form, and what is read.
use crate::support::harness::{is_said, pools_of};
use crate::support::pages::lines_of;
use crate::support::pools::{DocumentRow, counts, said};
use crate::support::report::Report;
use crate::support::rows::{Kind, Row, try_tables};
use jtree::{Numbers, Text, Tree};
use plan::{PFault, PoolLimits, Pools};
use schema::Profile;
use std::alloc::Global;
use std::test::Fail;

static FIXED_AND_PRESENT: &str = r#"
11 rows: name | document | wanted
no member | {} | 0 0 0 0 0 0 0
fixed and present paths | {"present":["/a","no path","/a"],"fixed":{"/a":[null,{"q":[]}],"/b":[]}} | 0 0 0 0 0 2 3
a list of fixed values | {"fixed":[]} | P1 "/fixed"
a text for a fixed path | {"fixed":{"/spec":"x","/a":[]}} | P1 "/fixed/~1spec"
the first of two fixed paths | {"fixed":{"/b":1,"/a":2}} | P1 "/fixed/~1a"
a present text | {"present":"/a"} | P1 "/present"
an integer among present paths | {"present":["/a",1,2]} | P1 "/present/1"
an object of present paths | {"present":{"/a":[]}} | P1 "/present"
a fixed path before an integer | {"integers":"x","fixed":{"/a":{}}} | P1 "/fixed/~1a"
a path before a present one, and this before a string | {"strings":[0],"present":[0],"paths":{"/a":0}} | P1 "/paths/~1a"
a present path before a string | {"strings":[0],"present":[0]} | P1 "/present/0"
"#;

static VALUES_AND_PATHS: &str = r#"
12 rows: name | document | wanted
each pool | {"any":[null],"integers":[1,1,1,1],"names":["n","n"],"strings":["a","b","a"]} | 4 3 2 1 0 0 0
trees of each kind | {"any":[null,true,-1,"t",[[]],{"q":1}]} | 0 0 0 6 0 0 0
no paths | {"paths":{}} | 0 0 0 0 0 0 0
paths with trees of each kind | {"paths":{"":[],"/a":[null,true,-1,"t",[[]],{"q":1}],"no path":[1,1]}} | 0 0 0 0 3 0 0
a list of paths | {"paths":[]} | P1 "/paths"
null for paths | {"paths":null} | P1 "/paths"
an integer for a path | {"paths":{"/spec/b":1}} | P1 "/paths/~1spec~1b"
an object for a path | {"paths":{"/a":[],"/b~0":{}}} | P1 "/paths/~1b~00"
null for the path of the root | {"paths":{"":null}} | P1 "/paths/"
the first of two paths | {"paths":{"/b":1,"/a":2}} | P1 "/paths/~1a"
a path before a string | {"strings":[1],"paths":{"/a":[],"/b":2}} | P1 "/paths/~1b"
a name before a path | {"names":[1],"paths":{"/b":2}} | P1 "/names/0"
"#;

static FORMS: &str = r#"
7 rows: name | document | wanted
a list | [] | P1 ""
a text for integers | {"integers":"x"} | P1 "/integers"
a text for strings | {"strings":"x"} | P1 "/strings"
a text among integers | {"integers":[0,"x"]} | P1 "/integers/1"
an integer for a name | {"names":[1]} | P1 "/names/0"
a break of index 2 before one of index 10 | {"integers":[0,1,"x",3,4,5,6,7,8,9,"y"]} | P1 "/integers/2"
a break of index 10 | {"integers":[0,1,2,3,4,5,6,7,8,9,"y"]} | P1 "/integers/10"
"#;

static NAMES: &str = r#"
8 rows: name | document | wanted
a pool of another name | {"floats":[]} | P1 "/floats"
the empty name | {"":[]} | P1 "/"
a slash and a tilde | {"a/b~c~1":[]} | P1 "/a~1b~0c~01"
trees before integers | {"integers":"x","any":"x"} | P1 "/any"
a capital letter before a small one | {"any":1,"Z":[]} | P1 "/Z"
an entry before another name | {"integers":[true],"j":[]} | P1 "/integers/0"
another name before an entry | {"integers":[true],"i":[]} | P1 "/i"
any trees before an entry | {"any":["x",1],"integers":[1,"x"]} | P1 "/integers/1"
"#;

#[test]
fn forms(rt: HostRuntime) -> Result<(), Fail> {
    let kind = DocumentRow {
        profile: Profile::Core,
        limits: PoolLimits::STANDARD,
    };
    let tables = &[FIXED_AND_PRESENT, VALUES_AND_PATHS, FORMS, NAMES];
    try_tables(&rt, rt.alloc(), &kind, tables)
}

// The code and the pointer, or how many integers and numbers there are.
static BY_PROFILE: &str = r#"
11 rows: name | document | core | cluster
nothing | {} | 0 0 | 0 0
numbers | {"numbers":[0.5,1,0.50]} | P1 "/numbers" | 0 3
integers and numbers | {"integers":[1],"numbers":[2]} | P1 "/numbers" | 1 1
no numbers | {"numbers":[]} | P1 "/numbers" | 0 0
a number for numbers | {"numbers":0.5} | P1 "/numbers" | P1 "/numbers"
a text among numbers | {"numbers":[0.5,"x"]} | P1 "/numbers" | P1 "/numbers/1"
null among numbers | {"numbers":[null]} | P1 "/numbers" | P1 "/numbers/0"
a number among integers | {"integers":[1,0.5]} | P1 "/integers/1" | P1 "/integers/1"
a number that is whole among integers | {"integers":[1.0,1e2]} | 2 0 | 2 0
another name | {"number":[1]} | P1 "/number" | P1 "/number"
numbers in lists of any values | {"any":[0.5],"fixed":{"/a":[0.5]},"paths":{"/a":[1.5]}} | 0 0 | 0 0
"#;

fn read_as(alloc: Global, document: &Tree, profile: Profile) -> Result<String, Fail> {
    match Pools::read_by(alloc, document, profile, PoolLimits::STANDARD) {
        Ok(pools) => {
            let (integers, numbers) = (pools.integers().len(), pools.numbers().len());
            Ok(format!(in alloc; "{integers} {numbers}")?)
        }
        Err(fault) => Ok(said(alloc, &fault)?),
    }
}

/// A document, and what is read of it by each profile.
struct ProfileRow;

impl Kind for ProfileRow {
    fn attempt(&self, report: &mut Report, alloc: Global, row: &Row) -> Result<(), Fail> {
        let bytes = row.text("document").as_bytes();
        let document = Tree::from_bytes_with(alloc, bytes, Numbers::All)?;
        let core = read_as(alloc, &document, Profile::Core);
        is_said(report, "by the core profile", core, row.text("core"))?;
        let cluster = read_as(alloc, &document, Profile::Cluster);
        is_said(report, "by a cluster", cluster, row.text("cluster"))
    }
}

#[test]
fn by_profile(rt: HostRuntime) -> Result<(), Fail> {
    try_tables(&rt, rt.alloc(), &ProfileRow, &[BY_PROFILE])
}

fn are_texts(report: &mut Report, found: &[Text], wanted: &[&str]) {
    report.is_number("the length", found.len() as u64, wanted.len() as u64);
    for (text, wanted) in found.iter().zip(wanted) {
        report.is_text("an entry", text.as_str(), wanted);
    }
}

fn are_trees(
    report: &mut Report,
    alloc: Global,
    found: Option<&[Tree]>,
    wanted: &str,
) -> Result<(), Fail> {
    match found {
        Some(found) => is_said(report, "the entries", lines_of(alloc, found), wanted),
        None => Err(Fail::from("no list")),
    }
}

static WRITTEN: &str =
    r#"{"strings":["b","a","b"],"names":["","é"],"integers":[3,-1,3],"any":[{"q":[1]},null],
        "paths":{"/b":[2,"x",2],"/a":[]},"fixed":{"/b":[null,null],"/c":[]},"present":["/z","/b","/z"]}"#;

fn general_as_written(report: &mut Report, alloc: Global, pools: &Pools) {
    report.is_value("integers", &pools.integers(), &[3, -1, 3].as_slice());
    report.row("integers", Ok(()));
    are_texts(report, pools.strings(), &["b", "a", "b"]);
    report.row("strings", Ok(()));
    are_texts(report, pools.names(), &["", "é"]);
    report.row("names", Ok(()));
    let ended = are_trees(report, alloc, Some(pools.any()), "{\"q\":[1]}\nnull\n");
    report.row("any", ended);
}

fn paths_as_written(report: &mut Report, alloc: Global, pools: &Pools) {
    let ended = are_trees(report, alloc, pools.list_at("/b"), "2\n\"x\"\n2\n");
    report.row("a path with values", ended);
    let ended = are_trees(report, alloc, pools.list_at("/a"), "");
    report.row("a path without values", ended);
    report.holds("no list", pools.list_at("/c").is_none());
    report.row("a path that is not listed", Ok(()));
    let ended = are_trees(report, alloc, pools.fixed_at("/b"), "null\nnull\n");
    report.row("a fixed path", ended);
    report.holds("no list", pools.fixed_at("/a").is_none());
    report.row("a path that is not fixed", Ok(()));
    are_texts(report, pools.present(), &["/z", "/b", "/z"]);
    report.row("present paths", Ok(()));
    report.holds("a present path", pools.is_present("/b"));
    report.holds("a path that is not present", !pools.is_present("/a"));
    report.row("whether a path is present", Ok(()));
}

/// The order and the repeats are kept.
#[test]
fn entries_as_written(rt: HostRuntime) -> Result<(), Fail> {
    let pools = pools_of(rt.alloc(), WRITTEN)?;
    let mut report = Report::new(rt.alloc());
    general_as_written(&mut report, rt.alloc(), &pools);
    paths_as_written(&mut report, rt.alloc(), &pools);
    report.end(&rt)
}

#[test]
fn no_entries(rt: HostRuntime) -> Result<(), Fail> {
    let mut report = Report::new(rt.alloc());
    let found = counts(rt.alloc(), &Pools::new(rt.alloc()))?;
    report.is_text("the entries", found.as_str(), "0 0 0 0 0 0 0");
    report.row("empty pools", Ok(()));
    let code = said(rt.alloc(), &PFault::NoMemory)?;
    report.is_text("the code", code.as_str(), "P3");
    report.row("out of memory", Ok(()));
    report.end(&rt)
}
