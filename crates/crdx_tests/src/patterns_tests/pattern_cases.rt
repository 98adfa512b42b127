//! Patterns: what they match, what is none, what is too big, and how they are written for the kit. The answers are those of Go's regexp
//! and of its documentation.
use crate::support::report::Report;
use patterns::{Pattern, PatternFault, PatternTests};
use std::alloc::Global;
use std::test::Fail;
use text_tests::TextTests;

/// In each line a pattern, a text that it matches, and one that it does not match.
static MATCHED: &str = r#"
^[a-z]([-a-z0-9]*[a-z0-9])?$ => web-1 => web-
^(([0-9]+(s|m|h))+|Never)$ => 1h30m => 1d
b.d => abxdy => bd
^\d+$ => 12 => 1٣
^\w+$ => a_1 => é
^\S+$ => ab => a b
^a\sb$ => a b => a_b
\bfoo\b => a foo => afoo
\Bfoo => afoo => éfoo
^\pN$ => ٣ => a
^\p{Greek}+$ => αβγ => abc
^\P{Greek}$ => a => α
^\p{^Lu}$ => a => A
^\p{Any}$ => 中 => ab
^[[:alpha:]]+$ => abc => ab1
^[^[:space:]]+$ => ab => a b
^[a[b]+$ => a[b => a]b
^[]a]$ => ] => b
^[&&b]$ => & => a
^[a~~b]$ => ~ => c
^[!--]$ => - => a
^[+-]$ => - => ,
^[\w.-]+$ => a.b-c => a b
^\Qa.b\E$ => a.b => axb
^\Q[x]*$ => [x]*$ => x
^\x41\x{42}\103$ => ABC => ABc
^\60$ => 0 => 7
^a{2,3}$ => aaa => a
^a{,2}$ => a{,2} => aa
^a{$ => a{ => a
^x{y}$ => x{y} => xy
^a{01}$ => a{01} => a
(?i)^k$ => K => x
(?s)a.b => a:b => ab
(?i:A)b => ab => aB
^(?P<1st>a)(?P<1st>b)$ => ab => a
^(?<name>a)$ => a => b
^a+?b??$ => aa => ba
^a|b$ => ax => xa
\Aa\z => a => ab
^\_\/\"\<\>$ => _/"<> => a
"#;

/// What is no pattern, a line each.
static NONE: &str = r#"
(
)
[
[a
*a
a**
a+{2}
a{1001}
a{2,1001}
a{2,1}
[z-a]
[a-\d]
[[:foo:]]
\Z
\q
\8
\1
\x4
\x{}
\x{110000}
\p{Foo}
\p{Latn}
\p{lu}
\pX
\E
(?=a)
(?<=a)
(?x)a
(?P<n
(?P<>a)
(?P=n)
(?i-)a
\u0041
"#;

/// A pattern in each line, and how it is written for the kit.
static WRITTEN: &str = r#"
\d\D => [0-9][^0-9]
\w\W => [0-9A-Za-z_][^0-9A-Za-z_]
[\s] => [[\t\n\f\r ]]
\b\B => (?-u:\b)(?-u:\B)
a-b]{}é => a\-b\]\{\}é
\Q.*\E. => \.\*.
\pL\P{Greek} => \p{gc=L}\P{sc=Greek}
\PC => [^\p{Cc}\p{Cf}\p{Co}]
\x2d\101\n => \-A\n
[a-z&&[^b] => [a-z\&\&\[\^b]
(?P<n>a)(?i:b) => (a)(?i:b)
a{2,}?b{1 => a{2,}?b\{1
"#;

/// The parts of a line between arrows.
fn parts(line: &str) -> Option<(&str, &str)> {
    line.split_once(" => ")
}

fn try_matched(
    report: &mut Report,
    tests: &mut PatternTests<'_>,
    pattern: &str,
    texts: &str,
) -> Result<(), Fail> {
    let (matched, other) = parts(texts).unwrap_or(("", ""));
    report.holds_of("matches", matched, tests.test(pattern, matched)?);
    report.holds_of("does not match", other, !tests.test(pattern, other)?);
    Ok(())
}

#[test]
fn what_patterns_match(rt: HostRuntime) -> Result<(), Fail> {
    let mut report = Report::new(rt.alloc());
    let mut tests = PatternTests::new(rt.alloc(), &[])?;
    for line in MATCHED.lines() {
        if let Some((pattern, texts)) = parts(line) {
            let ended = try_matched(&mut report, &mut tests, pattern, texts);
            report.row(pattern, ended);
        }
    }
    report.end(&rt)
}

/// Why it is no pattern.
fn fault_of(alloc: Global, text: &str) -> Option<PatternFault> {
    match Pattern::new(alloc, text) {
        Ok(_) => None,
        Err(fault) => Some(fault),
    }
}

#[test]
fn what_is_no_pattern(rt: HostRuntime) -> Result<(), Fail> {
    let mut report = Report::new(rt.alloc());
    for text in NONE.lines() {
        if !text.is_empty() {
            let fault = fault_of(rt.alloc(), text);
            report.is_value("fault", &fault, &Some(PatternFault::NoPattern));
            report.row(text, Ok(()));
        }
    }
    report.end(&rt)
}

#[test]
fn how_patterns_are_written(rt: HostRuntime) -> Result<(), Fail> {
    let mut report = Report::new(rt.alloc());
    for line in WRITTEN.lines() {
        if let Some((pattern, wanted)) = parts(line) {
            let written = go_text::in_kit_syntax(rt.alloc(), pattern)?;
            let text = written.as_ref().map_or("", |text| text.as_str());
            report.is_text("written", text, wanted);
            report.row(pattern, Ok(()));
        }
    }
    report.end(&rt)
}

/// What compiles to more than 10 MiB: no text is said to match it, and none not to.
#[test]
fn patterns_that_are_too_big(rt: HostRuntime) -> Result<(), Fail> {
    let big = "((a{1000}){1000}){10}";
    let fault = fault_of(rt.alloc(), big);
    assert!(rt; fault == Some(PatternFault::TooBig), "too big");
    let mut tests = PatternTests::new(rt.alloc(), &[])?;
    assert!(rt; tests.test(big, "a").is_err(), "no answer");
    Ok(())
}

/// A matcher that is kept answers again as before, and what is no pattern matches nothing.
#[test]
fn matchers_that_are_kept(rt: HostRuntime) -> Result<(), Fail> {
    let mut report = Report::new(rt.alloc());
    let patterns = [
        Pattern::new(rt.alloc(), "^a+$")?,
        Pattern::new(rt.alloc(), r"\d{2}")?,
    ];
    let mut tests = PatternTests::new(rt.alloc(), &patterns)?;
    for _ in 0..3 {
        report.holds("a listed pattern", tests.test("^a+$", "aaa")?);
        report.holds("another one", tests.test(r"\d{2}", "a12")?);
        report.holds("a text between", !tests.test("^a+$", "aba")?);
        report.holds("a pattern that is not listed", tests.test("b", "aba")?);
        report.holds("what is no pattern", !tests.test("(", "(")?);
        report.row("a round", Ok(()));
    }
    report.end(&rt)
}
