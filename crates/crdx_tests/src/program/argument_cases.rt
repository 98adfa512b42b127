//! The words of the command line: what they ask for.
use crate::support::harness::{is_said, words_of};
use crate::support::report::Report;
use crate::support::rows::{Kind, Row, try_tables};
use crdx::arguments::{
    CommonArguments, CoverArguments, ExplainArguments, ObjectArguments, ObjectCommand,
    PoolsArguments, Request, SampleArguments, parse_arguments,
};
use crdx::inputs::InputName;
use schema::Profile;
use std::alloc::{AllocError, Global};
use std::fmt::Write;
use std::test::Fail;

// What is wanted in these tables: the definition, the version, and the object, or the pools, the sample to go on from, the name, the
// limit and the count, or all. What is read of the standard input is (input), and - is nothing.
static COVERS_AND_CHECKS: &str = r#"
15 rows: name | command | wanted
a check as a cluster reads | crdx check c.json v1 --profile cluster | check c.json v1 by cluster without reasons
a cover by the usual profile | crdx cover --profile core c.json v1 | cover c.json v1 - - 127
a cover | crdx cover c.json v1 | cover c.json v1 - - 127
a cover with values | crdx cover --values c.json v1 --pools - --limit 15 --name w | cover c.json v1 (input) w 15 values
a cover of the standard input, with reasons | crdx cover - v1 --why --large --pools p.json | cover (input) v1 large with reasons p.json - 127
a sample | crdx sample c.json v1 | sample c.json v1 - - - 8 100
a check | crdx check c.json v1 | check c.json v1 without reasons
a check with reasons | crdx check c.json v1 --why | check c.json v1 with reasons
a check with reasons, which come first | crdx check --why c.json v1 | check c.json v1 with reasons
a check of the standard input | crdx check - v1 | check (input) v1 without reasons
a check of a file with the name - | crdx check ./- v1 | check ./- v1 without reasons
a check within the larger limits | crdx check --large c.json v1 | check c.json v1 large without reasons
a sample with reasons | crdx sample c.json v1 --why --pools p.json | sample c.json v1 with reasons p.json - - 8 100
fields within the larger limits | crdx explain --large c.json v1 | explain c.json v1 large -
options between the words | crdx validate c.json --why v1 --large o.json | validate c.json v1 large with reasons o.json
"#;

static POOLS: &str = r#"
8 rows: name | command | wanted
pools with both options | crdx pools --large c.json v1 --why | pools c.json v1 large with reasons
pools | crdx pools c.json v1 | pools c.json v1
pools of the standard input | crdx pools - v1 | pools (input) v1
pools with values of objects | crdx pools c.json v1 --from o.json --from=- --without /status --without /a
    | pools c.json v1 from o.json from - without /status without /a
pools around an object of the standard input | crdx pools --vary /b c.json --vary /a v1 --from - | pools c.json v1 from - vary /b vary /a
a version with the name - | crdx explain - - | explain (input) - -
the standard input by its name | crdx validate c.json v1 - | validate c.json v1 (input)
pools of a sample on the standard input | crdx sample c.json v1 --pools - | sample c.json v1 (input) - - 8 100
"#;

static OBJECTS: &str = r#"
9 rows: name | command | wanted
an object in a file, of a definition on the standard input | crdx leaves - v1 o.json | leaves (input) v1 o.json
faults of an object in a file | crdx validate c.json v1 o.json | validate c.json v1 o.json
a strict validation, after the inputs | crdx validate c.json v1 --large o.json --strict | validate strictly c.json v1 large o.json
what is pruned of the standard input | crdx prune c.json v1 | prune c.json v1 (input)
the defaults of an object | crdx default c.json v1 ./o | default c.json v1 ./o
the leaves of an object in a file | crdx leaves c.json v1 o.json | leaves c.json v1 o.json
objects on lines, strictly | crdx validate c.json v1 o.jsonl --lines --strict | lines: validate strictly c.json v1 o.jsonl
the defaults of objects on the lines of the standard input | crdx default --lines --why c.json v1 | lines: default c.json v1 with reasons (input)
the leaves of objects on the lines of the standard input, of a definition of real size | crdx leaves c.json v1 - --large --lines
    | lines: leaves c.json v1 large (input)
"#;

static FIELDS_AND_SAMPLES: &str = r#"
8 rows: name | command | wanted
all fields | crdx explain c.json v1 | explain c.json v1 -
the field at a path | crdx explain c.json v1 /spec/[] | explain c.json v1 /spec/[]
the field at an empty path | crdx explain c.json v1␠ | explain c.json v1␠
the least limit and count | crdx sample c.json v1 --pools p.json --limit 1 --count 1 | sample c.json v1 p.json - - 1 1
the greatest limit and count | crdx sample --limit 127 --count=10000 - v1beta1 | sample (input) v1beta1 - - - 127 10000
a sample to go on from, and a name | crdx sample c.json v1 --name w --after {"a":0} | sample c.json v1 - {"a":0} w 8 100
all samples | crdx sample c.json v1 --all --limit 3 | sample c.json v1 - - - 3 all
all samples past one, with a name | crdx sample --all c.json v1 --name w --after {} | sample c.json v1 - {} w 8 all
"#;

/// The name of a file, or `(input)` for the standard input.
fn input_text(name: InputName<'_>) -> &str {
    match name {
        InputName::Stdin => "(input)",
        InputName::File(name) => name,
    }
}

fn pools_text(pools: Option<InputName<'_>>) -> &str {
    match pools {
        Some(pools) => input_text(pools),
        None => "-",
    }
}

/// The definition and the version, and whether the larger limits and reasons are asked for.
fn common_text(alloc: Global, common: &CommonArguments<'_>) -> Result<String, AllocError> {
    let crd = input_text(common.crd);
    let version = common.version;
    let options = match (common.large, common.why) {
        (false, false) => "",
        (true, false) => " large",
        (false, true) => " with reasons",
        (true, true) => " large with reasons",
    };
    let profile = match common.profile {
        Profile::Core => "",
        Profile::Cluster => " by cluster",
    };
    format!(in alloc; "{crd} {version}{profile}{options}")
}

fn object_text(alloc: Global, arguments: &ObjectArguments<'_>) -> Result<String, AllocError> {
    let command = match arguments.command {
        ObjectCommand::Validate { strict: false } => "validate",
        ObjectCommand::Validate { strict: true } => "validate strictly",
        ObjectCommand::Prune => "prune",
        ObjectCommand::Default => "default",
        ObjectCommand::Leaves => "leaves",
    };
    let common = common_text(alloc, &arguments.common)?;
    let object = input_text(arguments.object);
    format!(in alloc; "{command} {common} {object}")
}

/// Each word behind the front.
fn joined(alloc: Global, front: &str, words: &[&str]) -> Result<String, AllocError> {
    let mut text = String::new(alloc);
    for word in words {
        write!(text, "{front} {word}")?;
    }
    Ok(text)
}

fn sample_text(alloc: Global, arguments: &SampleArguments<'_>) -> Result<String, AllocError> {
    let SampleArguments {
        plan,
        after,
        count,
        all,
    } = arguments;
    let common = common_text(alloc, &plan.common)?;
    let pools = pools_text(plan.pools);
    let after = after.unwrap_or("-");
    let name = plan.name.unwrap_or("-");
    let limit = plan.limit;
    if *all {
        return format!(in alloc; "sample {common} {pools} {after} {name} {limit} all");
    }
    format!(in alloc; "sample {common} {pools} {after} {name} {limit} {count}")
}

fn cover_text(alloc: Global, arguments: &CoverArguments<'_>) -> Result<String, AllocError> {
    let CoverArguments { plan, values } = arguments;
    let common = common_text(alloc, &plan.common)?;
    let pools = pools_text(plan.pools);
    let name = plan.name.unwrap_or("-");
    let limit = plan.limit;
    let values = if *values { " values" } else { "" };
    format!(in alloc; "cover {common} {pools} {name} {limit}{values}")
}

fn check_text(alloc: Global, common: &CommonArguments<'_>) -> Result<String, AllocError> {
    let reasons = if common.why { "" } else { " without reasons" };
    let common = common_text(alloc, common)?;
    format!(in alloc; "check {common}{reasons}")
}

fn suggested_text(alloc: Global, arguments: &PoolsArguments<'_>) -> Result<String, AllocError> {
    let common = common_text(alloc, &arguments.common)?;
    let from = joined(alloc, " from", arguments.from.as_slice())?;
    let varied = joined(alloc, " vary", arguments.varied.as_slice())?;
    let without = joined(alloc, " without", arguments.without.as_slice())?;
    format!(in alloc; "pools {common}{from}{varied}{without}")
}

fn explain_text(alloc: Global, arguments: &ExplainArguments<'_>) -> Result<String, AllocError> {
    let common = common_text(alloc, &arguments.common)?;
    let path = arguments.path.unwrap_or("-");
    format!(in alloc; "explain {common} {path}")
}

fn lines_text(alloc: Global, arguments: &ObjectArguments<'_>) -> Result<String, AllocError> {
    let text = object_text(alloc, arguments)?;
    format!(in alloc; "lines: {text}")
}

fn said(alloc: Global, request: &Request<'_>) -> Result<String, AllocError> {
    match request {
        Request::Sample(arguments) => sample_text(alloc, arguments),
        Request::Cover(arguments) => cover_text(alloc, arguments),
        Request::Check(common) => check_text(alloc, common),
        Request::SuggestPools(arguments) => suggested_text(alloc, arguments),
        Request::Explain(arguments) => explain_text(alloc, arguments),
        Request::Object(arguments) => object_text(alloc, arguments),
        Request::ObjectLines(arguments) => lines_text(alloc, arguments),
        _ => String::from_str(alloc, "another request"),
    }
}

fn asked(alloc: Global, line: &str) -> Result<String, Fail> {
    let words = words_of(alloc, line)?;
    Ok(said(alloc, &parse_arguments(alloc, words.as_slice()))?)
}

/// A command line, and what it asks for.
struct RequestRow;

impl Kind for RequestRow {
    fn attempt(&self, report: &mut Report, alloc: Global, row: &Row) -> Result<(), Fail> {
        is_said(
            report,
            "what is asked",
            asked(alloc, row.text("command")),
            row.text("wanted"),
        )
    }
}

#[test]
fn requests(rt: HostRuntime) -> Result<(), Fail> {
    let tables = &[COVERS_AND_CHECKS, POOLS, OBJECTS, FIELDS_AND_SAMPLES];
    try_tables(&rt, rt.alloc(), &RequestRow, tables)
}
