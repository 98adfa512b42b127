//! The examples at the heads of the crates, line by line, each a test.
use crate::judge_tests::fault_cases::OneFormat;
use crate::support::documents::{SPEC, WIDGET, ZERO_AND_ONE};
use crate::support::fakes::{FailingSink, FakeInputs};
use crate::support::given::{TWO_FIELDS, made};
use crate::support::harness::{pools_of, schema_of, words_of};
use cluster::way_in;
use cover::cover;
use crdx::run;
use definition::{Fields, Part, Value};
use enumerate::page;
use explain::Listing;
use formats::{Format, is_of};
use jtree::{Numbers, Tree};
use judge::faults;
use patterns::{Pattern, PatternTests};
use plan::{Plan, PoolLimits, Pools};
use schema::{breaks, read_crd};
use std::test::Fail;
use stored::{accept, complete};
use suggest::{Wanted, suggested_pools};
use text_tests::TextTests;

#[test]
fn jtree(rt: HostRuntime) -> Result<(), Fail> {
    let alloc = rt.alloc();
    let tree = Tree::from_bytes(alloc, r#"{"b": [1, 2], "a": null}"#.as_bytes())?;
    let text = tree.to_text(alloc)?;
    assert_eq!(rt; text.as_str(), r#"{"a":null,"b":[1,2]}"#);
    assert_eq!(rt; tree.nodes(), 5);
    Ok(())
}

#[test]
fn go_text_of_a_pattern(rt: HostRuntime) -> Result<(), Fail> {
    let alloc = rt.alloc();
    let written = go_text::in_kit_syntax(alloc, r"\d+[a&&b]")?;
    assert!(rt;
        written.is_some_and(|text| text.as_str() == r"[0-9]+[a\&\&b]"),
        "written"
    );
    Ok(())
}

#[test]
fn patterns_and_text_tests(rt: HostRuntime) -> Result<(), Fail> {
    let alloc = rt.alloc();
    let patterns = [Pattern::new(alloc, "^[a-z]+$")?];
    let mut tests = PatternTests::new(alloc, &patterns)?;
    let is_word = tests.test("^[a-z]+$", "widget")?;
    assert!(rt; is_word, "a word");
    Ok(())
}

#[test]
fn formats(rt: HostRuntime) -> Result<(), Fail> {
    let mut tests = PatternTests::new(rt.alloc(), &[])?;
    let format = Format::named("date-time");
    assert_eq!(rt; format, Some(Format::DateTime));
    let is_date = is_of(&mut tests, Format::Date, "2023-02-29")?;
    assert!(rt; !is_date, "no day of that year");
    Ok(())
}

#[test]
fn cluster(rt: HostRuntime) -> Result<(), Fail> {
    let alloc = rt.alloc();
    let schema = Tree::from_bytes(alloc, r#"{"properties":{"a":{"default":1}}}"#.as_bytes())?;
    let object = Tree::from_bytes(alloc, r#"{"a":null,"b":2,"kind":"C"}"#.as_bytes())?;
    let stored = way_in(alloc, &schema, &object)?;
    let text = stored.to_text(alloc)?;
    assert_eq!(rt; text.as_str(), r#"{"a":1,"kind":"C"}"#);
    Ok(())
}

#[test]
fn tokens_of_an_expression(rt: HostRuntime) -> Result<(), Fail> {
    let alloc = rt.alloc();
    let tokens = cel_read::tokens(alloc, "self.size() <= 0x10 // at most")?;
    assert_eq!(rt; tokens.len(), 7);
    Ok(())
}

#[test]
fn an_expression(rt: HostRuntime) -> Result<(), Fail> {
    let ten = cel_ast::Expr::Literal(cel_ast::Literal::Int(10));
    assert!(rt; matches!(ten, cel_ast::Expr::Literal(cel_ast::Literal::Int(10))));
    Ok(())
}

#[test]
fn tree_of_an_expression(rt: HostRuntime) -> Result<(), Fail> {
    let alloc = rt.alloc();
    let tokens = cel_read::tokens(alloc, "self.all(x, x > 0)")?;
    let expr = cel_parse::parse(alloc, tokens.as_slice(), cel_parse::MOST_NESTED)?;
    assert!(rt; matches!(expr, cel_ast::Expr::Macro(cel_ast::Macro::All, _, _, _)));
    Ok(())
}

#[test]
fn values_of_expressions(rt: HostRuntime) -> Result<(), Fail> {
    let one = cel_value::Value::Int(1);
    assert!(rt; one.is_same(&cel_value::Value::Int(1)));
    assert!(rt; !one.is_same(&cel_value::Value::Null));
    Ok(())
}

#[test]
fn value_of_an_expression(rt: HostRuntime) -> Result<(), Fail> {
    let alloc = rt.alloc();
    let tokens = cel_read::tokens(alloc, "[1, 2].exists(x, x == 2) || 1 / 0 > 1")?;
    let expr = cel_parse::parse(alloc, tokens.as_slice(), cel_parse::MOST_NESTED)?;
    let answer = cel_eval::eval(alloc, &expr, &cel_eval::Env::Empty)?;
    assert!(rt; matches!(answer, cel_eval::Answer::Made(cel_value::Value::Bool(true))));
    Ok(())
}

#[test]
fn judge(rt: HostRuntime) -> Result<(), Fail> {
    let alloc = rt.alloc();
    let mut tests = OneFormat::new(alloc)?;
    let schema = Tree::from_bytes(alloc, r#"{"required":["a"],"maxProperties":1}"#.as_bytes())?;
    let value = Tree::from_bytes(alloc, r#"{"b":1}"#.as_bytes())?;
    let found = faults(alloc, &mut tests, &schema, &value)?;
    assert_eq!(rt; found.len(), 1);
    assert_eq!(rt; found[0].path.as_str(), "/a");
    assert_eq!(rt; found[0].test.number(), 12);
    Ok(())
}

#[test]
fn faults_of_a_definition(rt: HostRuntime) -> Result<(), Fail> {
    use definition::faults;

    let alloc = rt.alloc();
    let document = Tree::from_bytes_with(alloc, WIDGET.as_bytes(), Numbers::All)?;
    let found = faults(alloc, &document)?;
    assert_eq!(rt; found.len(), 4);
    assert_eq!(rt; found[1].pointer.as_str(), "/spec");
    assert_eq!(rt; found[1].rule.number(), 4);
    assert!(rt;
        matches!(found[1].part, Part::Fields(Fields::Spec)),
        "the part"
    );
    assert!(rt; Fields::Spec.required().contains(&"scope"), "required");
    let missing = Fields::Column.missing(
        alloc,
        &Tree::from_bytes(alloc, r#"{"type":""}"#.as_bytes())?,
    )?;
    assert_eq!(rt; missing.len(), 3);
    assert_eq!(rt; missing[2], "type");
    assert!(rt; Fields::Conversion.names().contains(&"webhook"), "a field");
    assert!(rt; Value::Scope.choices().contains(&"Cluster"), "a choice");
    Ok(())
}

#[test]
fn schema_and_stored(rt: HostRuntime) -> Result<(), Fail> {
    let alloc = rt.alloc();
    let document = Tree::from_bytes(alloc, WIDGET.as_bytes())?;
    let crd = read_crd(alloc, &document, "v1")?;
    let broken = breaks(alloc, &crd.raw)?;
    assert!(rt; broken.is_empty(), "a schema that breaks no rule");
    let schema = accept(alloc, crd.raw)?;
    let object = Tree::from_bytes(alloc, r#"{"spec":{"a":1,"z":2}}"#.as_bytes())?;
    let completed = complete(alloc, schema.root(), &object)?;
    let text = completed.to_text(alloc)?;
    assert_eq!(rt; text.as_str(), r#"{"spec":{"a":1}}"#);
    Ok(())
}

#[test]
fn explain(rt: HostRuntime) -> Result<(), Fail> {
    let alloc = rt.alloc();
    let schema = schema_of(alloc, SPEC)?;
    let listing = Listing::new(alloc, &schema)?;
    let last = listing.fields().last().map(|field| field.path.as_str());
    assert!(rt; last == Some("/spec/b"), "the last path");
    Ok(())
}

#[test]
fn plan(rt: HostRuntime) -> Result<(), Fail> {
    let alloc = rt.alloc();
    let schema = schema_of(alloc, SPEC)?;
    let document = Tree::from_bytes(alloc, r#"{"integers":[0,1]}"#.as_bytes())?;
    let pools = Pools::read(alloc, &document)?;
    let plan: Plan<u64> = Plan::new(alloc, schema, pools, 4)?;
    assert_eq!(rt; plan.limit(), 4);
    Ok(())
}

#[test]
fn enumerate(rt: HostRuntime) -> Result<(), Fail> {
    let alloc = rt.alloc();
    let mut plan = made(alloc, TWO_FIELDS)?;
    let mut meter = plan.meter();
    let first = page(alloc, &plan, None, 2, &mut meter)?;
    assert_eq!(rt; first.items.len(), 2);
    assert!(rt; !first.end, "more samples are left");
    Ok(())
}

#[test]
fn cover_of_fields(rt: HostRuntime) -> Result<(), Fail> {
    let alloc = rt.alloc();
    let schema = schema_of(alloc, SPEC)?;
    let pools = pools_of(alloc, ZERO_AND_ONE)?;
    let plan: Plan<u64> = Plan::new(alloc, schema, pools, 4)?;
    let covered = cover(alloc, plan, false)?;
    assert_eq!(rt; covered.lines.len(), 3);
    assert!(rt; covered.missed.is_empty(), "each path is in some sample");
    Ok(())
}

#[test]
fn suggest(rt: HostRuntime) -> Result<(), Fail> {
    let alloc = rt.alloc();
    let raw = Tree::from_bytes(alloc, SPEC.as_bytes())?;
    let schema = schema_of(alloc, SPEC)?;
    let wanted = Wanted {
        objects: &[],
        varied: &[],
        without: &[],
    };
    let pools = suggested_pools(alloc, &raw, &schema, &wanted, PoolLimits::STANDARD)?;
    let text = pools.to_text(alloc)?;
    assert_eq!(rt;
        text.as_str(),
        r#"{"any":["a",{}],"integers":[0,1],"names":["a","b"],"strings":["a"]}"#
    );
    Ok(())
}

#[test]
fn crdx(rt: HostRuntime) -> Result<(), Fail> {
    let alloc = rt.alloc();
    let mut inputs = FakeInputs::new(alloc, WIDGET, "");
    let mut out = FailingSink::endless(alloc);
    let mut err = FailingSink::endless(alloc);
    let words = words_of(alloc, "crdx check crd.json v1")?;
    let status = run(alloc, words.as_slice(), &mut inputs, &mut out, &mut err);
    assert_eq!(rt; status, 0);
    assert_eq!(rt; out.text(), "structural\n");
    Ok(())
}
