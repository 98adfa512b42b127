//! `explain`: the fields of a schema, one of them, and paths that lead to none.
use crate::support::documents::{BROKEN, BROKEN_LINES};
use crate::support::harness::{Run, SchemaRun, try_run, try_schema_run};
use crate::support::report::Report;
use crate::support::rows::{Kind, Row, try_tables};
use std::alloc::Global;
use std::test::Fail;

static LISTINGS: &str = r#"
8 rows: name | schema
no field | {"type":"object"}
a map list | @MAP_LIST
    > "/m" <[]Object> list-type=map keys=["k"]
    > "/m/[]" <Object>
    > "/m/[]/k" <string> required
    > "/m/[]/v" <integer>
names that are escaped
    | {"type":"object","properties":{"a/b":{"type":"array","items":{"x-kubernetes-int-or-string":true}},
    "c[":{"type":"object","additionalProperties":{"type":"string","nullable":true}}}}
    > "/a~1b" <[]int-or-string>
    > "/a~1b/[]" <int-or-string>
    > "/c~2" <map[string]string>
    > "/c~2/{}" <string> nullable
each letter that is escaped or looks like it, and an empty name
    | {"type":"object","properties":{"":{"type":"integer"},"~":{"type":"integer"},"/":{"type":"integer"},"[":{"type":"integer"},
    "]":{"type":"integer"},"[]":{"type":"integer"},"{":{"type":"integer"},"}":{"type":"integer"},"\"é":{"type":"integer"},"~1":{"type":"integer"}}}
    > "/" <integer>
    > "/\"é" <integer>
    > "/~1" <integer>
    > "/~2" <integer>
    > "/~2]" <integer>
    > "/]" <integer>
    > "/~3" <integer>
    > "/}" <integer>
    > "/~0" <integer>
    > "/~01" <integer>
a field before its siblings, and below it what it has
    | {"type":"object","properties":{"a-b":{"type":"boolean"},"a":{"type":"object","properties":{"z":{"type":"boolean"},"b":{"type":"boolean"}}}}}
    > "/a" <Object>
    > "/a/b" <boolean>
    > "/a/z" <boolean>
    > "/a-b" <boolean>
every sort of node, without the envelope
    | {"type":"object","required":["b","g","metadata"],"properties":{"apiVersion":{"type":"string"},"kind":{"type":"string"},
    "metadata":{"type":"object"},"a":{"type":"boolean"},"b":{"type":"integer","nullable":true},"c":{"type":"string","default":"x\"y"},
    "d":{"x-kubernetes-int-or-string":true,"enum":[1,"x"]},"e":{"type":"object","x-kubernetes-preserve-unknown-fields":true,
    "properties":{"z":{"type":"boolean","default":true}},"default":{}},"f":{"type":"object","x-kubernetes-map-type":"atomic",
    "additionalProperties":{"type":"array","items":{"type":"string"}}},"g":{"type":"array",
    "items":{"type":"array","x-kubernetes-list-type":"set","items":{"type":"string"}}},"h":{"x-kubernetes-preserve-unknown-fields":true},
    "i":{"type":"object","x-kubernetes-map-type":"atomic","nullable":true,"default":null,
    "properties":{"y":{"type":"object","additionalProperties":{"x-kubernetes-preserve-unknown-fields":true,"nullable":true}}}}}}
    > "/a" <boolean>
    > "/b" <integer> required nullable
    > "/c" <string> default="x\"y"
    > "/d" <int-or-string>
    > "/e" <Object> default={}
    > "/e/z" <boolean> default=true
    > "/f" <map[string][]string> map-type=atomic
    > "/f/{}" <[]string>
    > "/f/{}/[]" <string>
    > "/g" <[][]string> required
    > "/g/[]" <[]string> list-type=set
    > "/g/[]/[]" <string>
    > "/h" <any>
    > "/i" <Object> nullable map-type=atomic default=null
    > "/i/y" <map[string]any>
    > "/i/y/{}" <any> nullable
a map list of two keys, and all that a line can say
    | {"type":"object","required":["m"],"properties":{"m":{"type":"array","nullable":true,"default":[{"protocol":"UDP","port":1}],
    "x-kubernetes-list-type":"map","x-kubernetes-list-map-keys":["protocol","port"],"items":{"type":"object","x-kubernetes-map-type":"atomic",
    "required":["port"],"properties":{"port":{"type":"integer"},"protocol":{"type":"string","default":"TCP"}}}}}}
    > "/m" <[]Object> required nullable list-type=map keys=["protocol","port"] default=[{"port":1,"protocol":"UDP"}]
    > "/m/[]" <Object> map-type=atomic
    > "/m/[]/port" <integer> required
    > "/m/[]/protocol" <string> default="TCP"
a junctor adds no field | {"type":"object","properties":{"p":{"x-kubernetes-int-or-string":true,"anyOf":[{"type":"integer"},{"type":"string"}]}}}
    > "/p" <int-or-string>
"#;

const SAID: &str = r#"{"type":"object","description":"the root","properties":{
    "d":{"type":"integer","description":""},
    "e":{"type":"string","description":"Say \"x\"","enum":["b","a"]},
    "l":{"type":"array","description":"many","items":{
        "type":"string","enum":["x\n","\"","x\n"],"description":"a\n\"b\"\\"
    }},
    "n":{"type":"integer","enum":[3]},
    "o":{"type":"object","properties":{"a/b":{"type":"boolean"},"":{"type":"boolean"}}}
}}"#;

// In these tables are paths of `SAID`.
static FIELDS: &str = r#"
8 rows: path | status
/e | 0
    > "/e" <string>
    > description "Say \"x\""
    > enum ["b","a"]
/l/[] | 0
    > "/l/[]" <string>
    > description "a\n\"b\"\\"
    > enum ["x\n","\"","x\n"]
/l | 0
    > "/l" <[]string>
    > description "many"
/d | 0
    > "/d" <integer>
    > description ""
/n | 0
    > "/n" <integer>
    > enum [3]
/o | 0
    > "/o" <Object>
/o/a~1b | 0
    > "/o/a~1b" <boolean>
/o/ | 0
    > "/o/" <boolean>
"#;

static MISSPELT: &str = r#"
13 rows: path | status | out
e | 1 | -
    ! crdx: explain: X1
/e~ | 1 | -
    ! crdx: explain: X1
/e[ | 1 | -
    ! crdx: explain: X1
/e~4 | 1 | -
    ! crdx: explain: X1
/e~e | 1 | -
    ! crdx: explain: X1
/e~/e | 1 | -
    ! crdx: explain: X1
/{ | 1 | -
    ! crdx: explain: X1
/l/[]x | 1 | -
    ! crdx: explain: X1
/l/[][] | 1 | -
    ! crdx: explain: X1
/l/[]~ | 1 | -
    ! crdx: explain: X1
/l[] | 1 | -
    ! crdx: explain: X1
l/[] | 1 | -
    ! crdx: explain: X1
/zz/~ | 1 | -
    ! crdx: explain: X1
"#;

static UNDECLARED: &str = r#"
10 rows: path | status | out
- | 1 | -
    ! crdx: explain: X2
/ | 1 | -
    ! crdx: explain: X2
/zz | 1 | -
    ! crdx: explain: X2
/[] | 1 | -
    ! crdx: explain: X2
/l/{} | 1 | -
    ! crdx: explain: X2
/l/[]/[] | 1 | -
    ! crdx: explain: X2
/e/ | 1 | -
    ! crdx: explain: X2
/e] | 1 | -
    ! crdx: explain: X2
/~2] | 1 | -
    ! crdx: explain: X2
/e~0~1~2~3 | 1 | -
    ! crdx: explain: X2
"#;

/// A schema, and the lines of all its fields.
struct Listing;

impl Kind for Listing {
    fn attempt(&self, report: &mut Report, alloc: Global, row: &Row) -> Result<(), Fail> {
        let run = SchemaRun {
            command: "crdx explain crd.json v1",
            schema: row.text("schema"),
            second: "",
            out: row.out(),
            err: "",
            status: 0,
        };
        try_schema_run(report, alloc, &run)
    }
}

#[test]
fn listings(rt: HostRuntime) -> Result<(), Fail> {
    try_tables(&rt, rt.alloc(), &Listing, &[LISTINGS])
}

/// A path, and what is said of it.
struct Explained;

impl Kind for Explained {
    fn attempt(&self, report: &mut Report, alloc: Global, row: &Row) -> Result<(), Fail> {
        let path = row.name();
        let command = format!(in alloc; "crdx explain crd.json v1 {path}")?;
        let run = SchemaRun {
            command: command.as_str(),
            schema: SAID,
            second: "",
            out: row.out(),
            err: row.err(),
            status: row.number("status"),
        };
        try_schema_run(report, alloc, &run)
    }
}

#[test]
fn paths(rt: HostRuntime) -> Result<(), Fail> {
    try_tables(&rt, rt.alloc(), &Explained, &[FIELDS, MISSPELT, UNDECLARED])
}

#[test]
fn a_schema_that_breaks_rules_is_said_before_the_path_is_read(rt: HostRuntime) -> Result<(), Fail> {
    let mut report = Report::new(rt.alloc());
    let run = Run {
        command: "crdx explain crd.json v1 ~",
        crd: BROKEN,
        second: "",
        out: "",
        err: BROKEN_LINES,
        status: 1,
    };
    let ended = try_run(&mut report, rt.alloc(), &run);
    report.row("a broken schema", ended);
    report.end(&rt)
}
