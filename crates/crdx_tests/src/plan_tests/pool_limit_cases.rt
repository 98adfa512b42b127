//! How many entries the pools of a document may have.
use crate::support::harness::is_said;
use crate::support::pools::{DocumentRow, limits_of, outcome};
use crate::support::report::Report;
use crate::support::rows::{Kind, Row, all_rows, try_tables};
use plan::PoolLimits;
use schema::Profile;
use std::alloc::{AllocError, Global};
use std::fmt::Write;
use std::test::Fail;

/// Each repeat counts, and the form is judged before the limits.
static PATHS_AND_SCALARS: &str = r#"
8 rows: name | head | entry | count | tail | wanted
64 present paths | {"present":[ | "/a", | 63 | "/a"]} | 0 0 0 0 0 0 64
65 present paths | {"present":[ | "/a", | 64 | "/a"]} | P2 present 65 64
64 values at a fixed path | {"fixed":{"/a":[ | 0, | 63 | 0]}} | 0 0 0 0 0 1 0
65 values at a fixed path | {"fixed":{"/a":[ | 0, | 64 | 0]}} | P2 /a 65 64
64 integers | {"integers":[ | 0, | 63 | 0]} | 64 0 0 0 0 0 0
65 integers | {"integers":[ | 0, | 64 | 0]} | P2 integers 65 64
64 strings | {"strings":[ | "s", | 63 | "s"]} | 0 64 0 0 0 0 0
65 strings | {"strings":[ | "s", | 64 | "s"]} | P2 strings 65 64
"#;

static NAMES_AND_TREES: &str = r#"
10 rows: name | head | entry | count | tail | wanted
32 names | {"names":[ | "n", | 31 | "n"]} | 0 0 32 0 0 0 0
33 names | {"names":[ | "n", | 32 | "n"]} | P2 names 33 32
64 trees | {"any":[ | {}, | 63 | {}]} | 0 0 0 64 0 0 0
65 trees | {"any":[ | {}, | 64 | {}]} | P2 any 65 64
64 entries at a path | {"paths":{"/a":[ | 0, | 63 | 0]}} | 0 0 0 0 1 0 0
65 entries at a path | {"paths":{"/a":[ | 0, | 64 | 0]}} | P2 /a 65 64
an integer for a path after 65 integers | {"integers":[ | 0, | 64 | 0],"paths":{"/a":1}} | P1 "/paths/~1a"
a text for strings after 65 integers | {"integers":[ | 0, | 64 | 0],"strings":"s"} | P1 "/strings"
another name after 33 names | {"names":[ | "n", | 32 | "n"],"titles":[]} | P1 "/titles"
127 lists | - | [ | 126
    | []]]]]]]]]]]]]]]]]]]]]]]]]]]]]]]]]]]]]]]]]]]]]]]]]]]]]]]]]]]]]]]]]]]]]]]]]]]]]]]]]]]]]]]]]]]]]]]]]]]]]]]]]]]]]]]]]]]]]]]]]]]]]]] | P1 ""
"#;

/// The same with the large limits.
static LARGE: &str = r#"
8 rows: name | head | entry | count | tail | wanted
1,024 present paths | {"present":[ | "/a", | 1023 | "/a"]} | 0 0 0 0 0 0 1024
1,025 values at a fixed path | {"fixed":{"/a":[ | 0, | 1024 | 0]}} | P2 /a 1025 1024
1,024 integers | {"integers":[ | 0, | 1023 | 0]} | 1024 0 0 0 0 0 0
1,025 integers | {"integers":[ | 0, | 1024 | 0]} | P2 integers 1025 1024
1,025 strings | {"strings":[ | "s", | 1024 | "s"]} | P2 strings 1025 1024
33 names | {"names":[ | "n", | 32 | "n"]} | P2 names 33 32
1,024 entries at a path | {"paths":{"/a":[ | 0, | 1023 | 0]}} | 0 0 0 0 1 0 0
1,025 entries at a path | {"paths":{"/a":[ | 0, | 1024 | 0]}} | P2 /a 1025 1024
"#;

/// What is answered where there may be one entry, two names and three paths: of several pools that have too many entries, the first
/// in path order.
static FEW: &str = r#"
13 rows: name | document | wanted
as many fixed and present paths as there may be | {"fixed":{"/a":[1],"/b":[],"/c":[2]},"present":["/a","/a","/b"]} | 0 0 0 0 0 3 3
too many fixed paths, values at one of them, and integers | {"integers":[0,1],"fixed":{"/a":[0,1],"/b":[],"/c":[],"/d":[]}} | P2 fixed 4 3
too many values at two fixed paths, integers and values at a path | {"integers":[0,1],"paths":{"/a":[0,1]},"fixed":{"/c":[0,1,2],"/b":[0,1],"/a":[0]}}
    | P2 /b 2 1
too many present paths and strings | {"strings":["s","t"],"present":["/a","/b","/c","/a"]} | P2 present 4 3
too many values at a path and present paths | {"present":["/a","/b","/c","/a"],"paths":{"/p":[0,1]}} | P2 /p 2 1
as many as there may be | {"any":[0],"integers":[1],"names":["a","b"],"paths":{"/a":[1],"/b":[2],"/c":[]},"strings":["s"]} | 1 1 2 1 3 0 0
too many in each pool | {"strings":["s","t"],"paths":{"/a":[0,1],"/b":[],"/c":[],"/d":[]},"names":["a","b","c"],"integers":[0,1],"any":[0,1]}
    | P2 any 2 1
too many in each pool but any | {"strings":["s","t"],"paths":{"/a":[0,1],"/b":[],"/c":[],"/d":[]},"names":["a","b","c"],"integers":[0,1]}
    | P2 integers 2 1
too many names, paths and strings | {"strings":["s","t"],"paths":{"/a":[0,1],"/b":[],"/c":[],"/d":[]},"names":["a","b","c"]} | P2 names 3 2
too many paths, entries at one of them, and strings | {"strings":["s","t"],"paths":{"/a":[0,1],"/b":[],"/c":[],"/d":[]}} | P2 paths 4 3
too many entries at two paths, and strings | {"strings":["s","t"],"paths":{"/c":[0,1,2],"/b":[0,1],"/a":[0]}} | P2 /b 2 1
too many strings | {"strings":["s","s","s"],"paths":{"/a":[0]}} | P2 strings 3 1
a text for strings after too many integers | {"integers":[0,1],"strings":"s"} | P1 "/strings"
"#;

fn repeated(alloc: Global, row: &Row) -> Result<String, AllocError> {
    let mut document = String::from_str(alloc, row.text("head"))?;
    for _ in 0..row.count("count") {
        document.push_str(row.text("entry"))?;
    }
    document.push_str(row.text("tail"))?;
    Ok(document)
}

/// The beginning of a document, an entry with its comma, how many there are, the text after them, and what is answered.
#[derive(Drop)]
struct Long {
    profile: Profile,
    limits: PoolLimits,
}

impl Kind for Long {
    fn attempt(&self, report: &mut Report, alloc: Global, row: &Row) -> Result<(), Fail> {
        let document = repeated(alloc, row)?;
        let found = outcome(alloc, document.as_str(), self.profile, self.limits);
        is_said(report, "what is read", found, row.text("wanted"))
    }
}

/// The pools that a cluster's profile has besides.
static NUMBERS: &str = r#"
2 rows: name | head | entry | count | tail | wanted
64 numbers | {"numbers":[ | 0.5, | 63 | 0.5]} | 0 0 0 0 0 0 0
65 numbers | {"numbers":[ | 0.5, | 64 | 0.5]} | P2 numbers 65 64
"#;

static FEW_NUMBERS: &str = r#"
4 rows: name | document | wanted
as many numbers as there may be | {"numbers":[0.5]} | 0 0 0 0 0 0 0
too many names and numbers | {"numbers":[0.5,1],"names":["a","b","c"]} | P2 names 3 2
too many numbers and paths | {"paths":{"/a":[1],"/b":[2],"/c":[],"/d":[]},"numbers":[0.5,0.5]} | P2 numbers 2 1
a text among too many numbers | {"numbers":[0.5,1,"x"]} | P1 "/numbers/2"
"#;

fn all_of_numbers(report: &mut Report, alloc: Global, few: PoolLimits) {
    let long = Long {
        profile: Profile::Cluster,
        limits: PoolLimits::STANDARD,
    };
    let short = DocumentRow {
        profile: Profile::Cluster,
        limits: few,
    };
    all_rows(report, alloc, &long, &[NUMBERS]);
    all_rows(report, alloc, &short, &[FEW_NUMBERS]);
}

#[test]
fn limits(rt: HostRuntime) -> Result<(), Fail> {
    let few = PoolLimits {
        entries: 1,
        names: 2,
        paths: 3,
    };
    let standard = Long {
        profile: Profile::Core,
        limits: PoolLimits::STANDARD,
    };
    let large = Long {
        profile: Profile::Core,
        limits: PoolLimits::LARGE,
    };
    let alloc = rt.alloc();
    let mut report = Report::new(alloc);
    all_rows(
        &mut report,
        alloc,
        &standard,
        &[PATHS_AND_SCALARS, NAMES_AND_TREES],
    );
    all_rows(&mut report, alloc, &large, &[LARGE]);
    let few_of_all = DocumentRow {
        profile: Profile::Core,
        limits: few,
    };
    all_rows(&mut report, alloc, &few_of_all, &[FEW]);
    all_of_numbers(&mut report, alloc, few);
    report.end(&rt)
}

/// Pools with so many paths under this name, the last of them with an entry.
fn many_paths(alloc: Global, name: &str, count: usize) -> Result<String, AllocError> {
    let mut document = format!(in alloc; r#"{{"{name}":{{"#)?;
    for path in 1..count {
        write!(document, r#""/{path}":[],"#)?;
    }
    document.push_str(r#""/last":[0]}}"#)?;
    Ok(document)
}

static MANY_PATHS: &str = r#"
9 rows: name | pool | count | limits | wanted
one path | paths | 1 | standard | 0 0 0 0 1 0 0
64 paths | paths | 64 | standard | 0 0 0 0 64 0 0
65 paths | paths | 65 | standard | P2 paths 65 64
1,024 paths | paths | 1024 | large | 0 0 0 0 1024 0 0
1,025 paths | paths | 1025 | large | P2 paths 1025 1024
64 fixed paths | fixed | 64 | standard | 0 0 0 0 0 64 0
65 fixed paths | fixed | 65 | standard | P2 fixed 65 64
1,024 fixed paths | fixed | 1024 | large | 0 0 0 0 0 1024 0
1,025 fixed paths | fixed | 1025 | large | P2 fixed 1025 1024
"#;

/// How many paths there are under a name, the limits, and what is read.
struct ManyPaths;

impl Kind for ManyPaths {
    fn attempt(&self, report: &mut Report, alloc: Global, row: &Row) -> Result<(), Fail> {
        let document = many_paths(alloc, row.text("pool"), row.count("count"))?;
        let limits = limits_of(row.text("limits"))?;
        let found = outcome(alloc, document.as_str(), Profile::Core, limits);
        is_said(report, "what is read", found, row.text("wanted"))
    }
}

#[test]
fn paths(rt: HostRuntime) -> Result<(), Fail> {
    try_tables(&rt, rt.alloc(), &ManyPaths, &[MANY_PATHS])
}
