//! `check` on the root by the profile (V17): what breaks the rule, beside what does not.
use crate::support::harness::CHECKED;
use crate::support::rows::try_tables;
use std::test::Fail;

static ROOTS: &str = r#"
7 rows: name | schema | out
a root of integers | {"type":"integer"} | V17 ""
a root of lists | {"type":"array","items":{"type":"string"}} | V17 ""
a root of integers and texts | {"x-kubernetes-int-or-string":true} | V17 ""
a root of any value | {"x-kubernetes-preserve-unknown-fields":true} | V17 ""
a root of numbers | {"type":"number"} | V17 ""
a root of an empty type | {"type":""} | V01 ""
a root of any fields | {"type":"object","x-kubernetes-preserve-unknown-fields":true} | structural
"#;

// Keywords of the root.
static ROOT_KEYWORDS: &str = r#"
8 rows: name | schema | out
a root or null | {"type":"object","nullable":true} | V17 ""
a root without a type or null | {"nullable":true} | V01 ""
    > V17 ""
a root and no null | {"type":"object","nullable":false} | structural
a root that is a map | {"type":"object","additionalProperties":{"type":"string"}} | V17 ""
a root without other fields | {"type":"object","additionalProperties":false} | V07 ""
    > V17 ""
a least number of fields of the root | {"type":"object","minProperties":0} | V17 ""
a greatest number of fields of the root | {"type":"object","maxProperties":9} | V17 ""
null and a number of fields below the root
    | {"type":"object","properties":{"x":{"type":"object","nullable":true,"minProperties":0,"maxProperties":9}}} | structural
"#;

static REQUIRED_AT_THE_ROOT: &str = r#"
3 rows: name | schema | out
a required field named as one of the envelope | {"type":"object","properties":{"x":{"type":"object","required":["kind"]}}} | V17 "/properties/x"
the envelope required | {"type":"object","required":["apiVersion","kind","metadata","kind"]} | structural
a field of the root that is not declared | {"type":"object","required":["kind","spec"]} | V17 ""
"#;

#[test]
fn roots(rt: HostRuntime) -> Result<(), Fail> {
    try_tables(&rt, rt.alloc(), &CHECKED, &[ROOTS])
}

#[test]
fn root_keywords(rt: HostRuntime) -> Result<(), Fail> {
    try_tables(&rt, rt.alloc(), &CHECKED, &[ROOT_KEYWORDS])
}

#[test]
fn required_at_the_root(rt: HostRuntime) -> Result<(), Fail> {
    try_tables(&rt, rt.alloc(), &CHECKED, &[REQUIRED_AT_THE_ROOT])
}
