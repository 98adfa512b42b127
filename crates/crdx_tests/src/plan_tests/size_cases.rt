//! The sizes of what may be at a node of a plan, and of what can follow.
use crate::support::given::{given_of, made};
use crate::support::plans::{are_sizes_of, more_of, node_at, rest_of};
use crate::support::report::Report;
use crate::support::rows::{Kind, Row, try_tables};
use plan::{Meter, Plan};
use std::alloc::Global;
use std::test::Fail;

// What the tables name.
static NAMED: &str = r#"
// Four optional booleans, of which one or two are there, and where any number of them may be there.
@ONE_OR_TWO
    | {"type":"object","properties":{"o":{"type":"object","minProperties":1,"maxProperties":2,
    "properties":{"a":{"type":"boolean"},"b":{"type":"boolean"},"c":{"type":"boolean"},"d":{"type":"boolean"}}}}}
@ANY_NUMBER
    | {"type":"object","properties":{"o":{"type":"object","maxProperties":9223372036854775807,
    "properties":{"a":{"type":"boolean"},"b":{"type":"boolean"},"c":{"type":"boolean"},"d":{"type":"boolean"}}}}}
"#;

static SIZES: &str = r#"
11 rows: name | schema | pools | limit | at | asked | sizes
the sizes of at least two of three booleans | @TRUTHS | {} | 4 | first | sizes | 3 4
the sizes of the root above booleans | @TRUTHS | {} | 4 | root | sizes | 1 4
the sizes of a map list | @MAP_LIST | {"strings":["a","b"],"integers":[0]} | 8 | first | sizes | 1 3 4 5 6 7
the sizes of a map list of more items than keys | @LONG_MAP_LIST | {"strings":["a","b"],"integers":[0]} | 63 | first | sizes | -
the sizes of the root above a list that cannot be | @LONG_MAP_LIST | {"strings":["a","b"],"integers":[0]} | 63 | root | sizes | 1
the sizes of fifteen objects | @FIFTEEN | {} | 63 | first | sizes | 61
the sizes of the root above fifteen objects | @FIFTEEN | {} | 63 | root | sizes | 62
the sizes of a set with the highest limit | @SET | {"integers":[2,1,2]} | 63 | first | sizes | 1 2 3
the sizes of the root above a default | @DEFAULTED | {"integers":[0,7]} | 3 | root | sizes | 1 3
the sizes of a value of more nodes than the limit | @OPEN | {"any":[[1,2,3],[4,5,6]]} | 2 | first | sizes | -
the sizes of an integer without candidates | @SPEC | {} | 4 | slot 0 | sizes | -
"#;

static RESTS: &str = r#"
8 rows: name | schema | pools | limit | at | asked | sizes
the rest after no slot | @TRUTHS | {} | 4 | first | rest 0 0 0 | 2 3
the rest after an empty slot | @TRUTHS | {} | 4 | first | rest 1 0 0 | 2
the rest after a filled slot | @TRUTHS | {} | 4 | first | rest 1 1 0 | 1 2
the rest after two empty slots | @TRUTHS | {} | 4 | first | rest 2 0 0 | -
the rest after a filled slot of two | @TRUTHS | {} | 4 | first | rest 2 1 0 | 1
the rest after two filled slots of three | @TRUTHS | {} | 4 | first | rest 3 2 0 | 0
the rest after a filled slot of three | @TRUTHS | {} | 4 | first | rest 3 1 0 | -
the rest after more filled slots than are asked for | @TRUTHS | {} | 4 | first | rest 3 3 0 | 0
"#;

static RESTS_WITHIN_BOUNDS: &str = r#"
8 rows: name | schema | pools | limit | at | asked | sizes
the rest of one or two members after no slot | @ONE_OR_TWO | {} | 6 | first | rest 0 0 0 | 1 2
the rest of one or two members after three empty slots | @ONE_OR_TWO | {} | 6 | first | rest 3 0 0 | 1
the rest of one or two members after one of three slots | @ONE_OR_TWO | {} | 6 | first | rest 3 1 0 | 0 1
the rest of one or two members after two of three slots | @ONE_OR_TWO | {} | 6 | first | rest 3 2 0 | 0
the rest of one or two members after three | @ONE_OR_TWO | {} | 6 | first | rest 3 3 0 | -
the rest of one or two members after four | @ONE_OR_TWO | {} | 6 | first | rest 4 4 0 | -
the rest of any number of members after one | @ANY_NUMBER | {} | 6 | first | rest 1 1 0 | 0 1 2 3
the rest of any number of members after four | @ANY_NUMBER | {} | 6 | first | rest 4 4 0 | 0
"#;

static FOLLOWERS: &str = r#"
4 rows: name | schema | pools | limit | at | asked | sizes
what can follow after no item | @MAP_LIST | {"strings":["a","b"],"integers":[0]} | 8 | first | more 0 | 0 2 3 4 5 6
what can follow after one item | @MAP_LIST | {"strings":["a","b"],"integers":[0]} | 8 | first | more 1 | 0 2 3
what can follow after two items | @MAP_LIST | {"strings":["a","b"],"integers":[0]} | 8 | first | more 2 | 0
what can follow after three items | @MAP_LIST | {"strings":["a","b"],"integers":[0]} | 8 | first | more 3 | -
"#;

static NAMED_FIELDS: &str = r#"
8 rows: name | schema | pools | limit | at | asked | sizes
the sizes where one of two fields is asked for | @ONE_OF_TWO | {} | 4 | first | sizes | 2 3
the sizes of the root where one of two fields is asked for | @ONE_OF_TWO | {} | 4 | root | sizes | 1 3 4
the rest after no slot where one of two fields is asked for | @ONE_OF_TWO | {} | 4 | first | rest 0 0 0 | 1 2
the rest after the first of two named fields | @ONE_OF_TWO | {} | 4 | first | rest 2 1 1 | 0 1
the rest after both named fields | @ONE_OF_TWO | {} | 4 | first | rest 2 2 3 | -
the rest after no named field | @ONE_OF_TWO | {} | 4 | first | rest 2 0 0 | -
the rest at the second of two named fields, after the first | @ONE_OF_TWO | {} | 4 | first | rest 1 1 1 | 0 1
the rest after the second of two named fields, and bits of none | @ONE_OF_TWO | {} | 4 | first | rest 2 1 254 | 0 1
"#;

/// What is asked of a node: its `sizes`; `rest`, what the slots from a place on can take after so many filled ones with these named
/// fields among them; or `more`, what can follow after so many items.
fn answer_of(plan: &Plan<u64>, meter: &mut Meter, row: &Row) -> Option<u64> {
    let node = node_at(plan, row.text("at"), meter)?;
    let mut asked = row.text("asked").split(' ');
    match asked.next()? {
        "sizes" => Some(plan.sizes(node)),
        "rest" => {
            let place = asked.next()?.parse::<u64>().ok()?;
            let taken = asked.next()?.parse::<u32>().ok()?;
            let seen = asked.next()?.parse::<u8>().ok()?;
            rest_of(plan, node, place, taken, seen, meter)
        }
        "more" => more_of(plan, node, asked.next()?.parse::<u32>().ok()?),
        _ => None,
    }
}

/// A node, what is asked of it, and the sizes that are answered.
struct SizesRow;

impl Kind for SizesRow {
    fn attempt(&self, report: &mut Report, alloc: Global, row: &Row) -> Result<(), Fail> {
        let mut plan = made(alloc, given_of(row))?;
        let mut meter = plan.meter();
        let found = answer_of(&plan, &mut meter, row);
        drop(plan);
        match found {
            Some(found) => are_sizes_of(report, alloc, "the sizes", found, row.text("sizes")),
            None => Err(Fail::from("no such node")),
        }
    }
}

#[test]
fn sizes(rt: HostRuntime) -> Result<(), Fail> {
    try_tables(
        &rt,
        rt.alloc(),
        &SizesRow,
        &[
            NAMED,
            SIZES,
            RESTS,
            RESTS_WITHIN_BOUNDS,
            FOLLOWERS,
            NAMED_FIELDS,
        ],
    )
}
