//! Formats: which texts are of them. The answers are those of the API server's tests (kube-openapi's strfmt); for the names of Kubernetes they
//! are made by hand.
use crate::support::report::Report;
use formats::{Format, WithFormats, expressions_of, is_of};
use patterns::{Pattern, PatternTests};
use std::test::Fail;
use text_tests::{FormatTests, TextTests};

/// In each line whether a text is of a format, the format's name, and the text.
static TEXTS: &str = r#"
yes bsonobjectid 507f1f77bcf86cd799439011
yes bson-objectid 507F1F77BCF86CD799439011
no bsonobjectid 507f1f77bcf86cd79943901
no bsonobjectid 507f1f77bcf86cd79943901g
yes byte aGVsbG8=
yes byte a+/b
no byte
no byte aGk
no byte a-_b
yes cidr 10.0.0.0/8
yes cidr 010.0.0.1/08
no cidr 1.2.3.4/33
no cidr 1.2.3.4
yes cidr ::/0
no cidr 2001:db8::/129
yes cidr 1:2:3:4:5:6:7:8/64
yes cidr 1:2:3:4:5:6:1.2.3.4/120
no cidr 1::2:3:4:5:6:7:8/64
yes credit-card 4111111111111111
yes credit-card 4111-1111-1111-1111
no credit-card 4111111111111112
yes credit-card 378282246310005
yes credit-card 30569309025904
yes credit-card 3530111333300000
no credit-card 1234567812345670
yes date 2020-02-29
no date 2019-02-29
no date 1900-02-29
yes date 2000-02-29
no date 2021-04-31
yes date 2021-12-31
no date 2021-13-01
no date 2021-00-01
no date 2021-01-00
yes date 0000-01-01
no date 21-01-01
no date 2021-01-01T
yes date-time 2021-01-01T12:30:45Z
yes datetime 2021-01-01t12:30:45z
yes datetime 2021-01-01T12:30:45.123+01:00
yes datetime 2021-01-01T12:30:45x5Z
no datetime 2021-01-01T12:30:45t5Z
yes datetime 2021-01-01T12:30:45ZTrest
yes datetime 2021-01-01T12:30:45-99:99
no datetime 2021-02-29T12:30:45Z
no datetime 2021-01-01T24:00:00Z
no datetime 2021-01-01T12:60:00Z
no datetime 2021-01-01T12:30:60Z
no datetime 2021-01-01 12:30:45Z
no datetime 2021-01-01T12:30:45
yes duration 1h30m
yes duration -1.5h
yes duration 0
yes duration 1.h
yes duration 2562047.h
no duration 2562048.h
yes duration 9223372036.s
no duration 9223372037.s
yes duration -9223372036854775808.ns
no duration 9223372036854775808.ns
yes duration 1281023.h1281024.h
no duration 1281024.h1281024.h
yes duration 1.5μs
yes duration 1.5µs
yes duration 3 days
yes duration wait 5 min
yes duration 2wk
no duration 1mo
yes duration 1M
no duration 5
no duration
yes duration 9223372036854775807 s
no duration 9223372036854775808 s
no duration 1s 9223372036854775808 x
yes duration 1s 9223372036854775808
yes email a@b
yes email a.b+c@d.e
yes email Joe <a@b.c>
yes email "J D" <a@b>
yes email J. D. <a@b> (me)
yes email "a b"@c
yes email a@b (hi)
yes email  a@b
yes email é@ü.de
no email a..b@c
no email .a@b
no email a@b.
no email a@[1.2.3.4]
no email a b@c
no email a@b <c@d>
no email <a@b
no email ""@b
yes hexcolor #fff
yes hexcolor ABCDEF
no hexcolor #ffff
no hexcolor #ggg
yes hostname example.com
yes hostname a
no hostname 1.2.3.4
yes hostname bücher.example
yes hostname ☃.net
no hostname -a.com
no hostname a-.com
no hostname a_b.com
no hostname a..b
no hostname example.com.
yes hostname aaaaaaaaaaaaaaaaaaaaaaaaaaaaaaaaaaaaaaaaaaaaaaaaaaaaaaaaaaaaaaa.com
no hostname aaaaaaaaaaaaaaaaaaaaaaaaaaaaaaaaaaaaaaaaaaaaaaaaaaaaaaaaaaaaaaaa.com
yes hostname üüüüüüüüüüüüüüüüüüüüüüüüüüüüüüü.com
no hostname üüüüüüüüüüüüüüüüüüüüüüüüüüüüüüüü.com
yes hostname aaaaaaaaaaaaaaaaaaaaaaaaaaaaa.aaaaaaaaaaaaaaaaaaaaaaaaaaaaa.aaaaaaaaaaaaaaaaaaaaaaaaaaaaa.aaaaaaaaaaaaaaaaaaaaaaaaaaaaa.aaaaaaaaaaaaaaaaaaaaaaaaaaaaa.aaaaaaaaaaaaaaaaaaaaaaaaaaaaa.aaaaaaaaaaaaaaaaaaaaaaaaaaaaa.aaaaaaaaaaaaaaaaaaaaaaaaaaaaa.aaaaaaaaaaa.aaa
no hostname aaaaaaaaaaaaaaaaaaaaaaaaaaaaa.aaaaaaaaaaaaaaaaaaaaaaaaaaaaa.aaaaaaaaaaaaaaaaaaaaaaaaaaaaa.aaaaaaaaaaaaaaaaaaaaaaaaaaaaa.aaaaaaaaaaaaaaaaaaaaaaaaaaaaa.aaaaaaaaaaaaaaaaaaaaaaaaaaaaa.aaaaaaaaaaaaaaaaaaaaaaaaaaaaa.aaaaaaaaaaaaaaaaaaaaaaaaaaaaa.aaaaaaaaaaaa.aaa
yes ipv4 192.0.2.1
yes ipv4 010.000.0.255
no ipv4 256.0.0.1
no ipv4 1.2.3
no ipv4 1.2.3.4.5
yes ipv4 ::1.2.3.4
no ipv4 ::1
yes ipv4 1::3:4:5:6:1.2.3.4
no ipv4 1::2:3:4:5:6:1.2.3.4
yes ipv6 ::
yes ipv6 2001:db8::1
yes ipv6 1:2:3:4:5:6:7:8
yes ipv6 1:2:3:4:5:6:7::
yes ipv6 ::2:3:4:5:6:7:8
no ipv6 1:2:3:4:5:6:7:8::
no ipv6 1::2:3:4:5:6:7:8
no ipv6 1::2::3
no ipv6 1:2:3:4:5:6:7
no ipv6 12345::
yes ipv6 ::ffff:1.2.3.4
no ipv6 ::ffff:01.2.3.4
yes ipv6 1:2:3:4:5:6:1.2.3.4
no ipv6 fe80::1%eth0
no ipv6 192.0.2.1
yes isbn 0-306-40615-2
yes isbn 978-0-306-40615-7
no isbn 0-306-40615-7
yes isbn10 080442957X
yes isbn10 0 8044 2957 X
no isbn10 0306406153
no isbn10 9780306406157
yes isbn13 9780306406157
no isbn13 9780306406158
yes mac 01:23:45:67:89:ab
yes mac 01-23-45-67-89-ab
yes mac 0123.4567.89ab
yes mac 01:23:45:67:89:ab:cd:ef
yes mac 00:00:00:00:fe:80:00:00:00:00:00:00:02:00:5e:10:00:00:00:01
no mac 01:23-45:67:89:ab
no mac 01:23:45:67:89
no mac 0123456789ab
yes password
yes password any text
yes rgbcolor rgb(0,128,255)
yes rgbcolor rgb( 0 , 128 , 199 )
no rgbcolor rgb(256,0,0)
no rgbcolor rgb(01,0,0)
no rgbcolor rgb(0,0)
yes ssn 123-45-6789
yes ssn 123 45 6789
yes ssn 123-45 6789
no ssn 123456789
yes uri https://example.org/a?b#c
yes uri /a b
yes uri *
yes uri mailto:a@b
yes uri http:
yes uri a:/%41
no uri a:/%4
yes uri http://[::1]:80/
no uri http://[::1]:8x/
yes uri http://u:p@h:80
no uri http://h:80x
no uri http://a b/
no uri http://a%20b/
yes uri http://a%25b/
yes uri http://é/
no uri http://h/%zz
yes uri http://h?%zz
yes uri http://::1/
no uri example.org
no uri 1a:b
no uri :
no uri
yes uuid 550e8400-e29b-41d4-a716-446655440000
yes uuid 550E8400E29B41D4A716446655440000
no uuid {550e8400-e29b-41d4-a716-446655440000}
yes uuid3 550e8400-e29b-31d4-a716-446655440000
no uuid3 550e8400-e29b-41d4-a716-446655440000
yes uuid4 550e8400-e29b-41d4-a716-446655440000
no uuid4 550e8400-e29b-41d4-c716-446655440000
yes uuid5 550e8400-e29b-51d4-b716-446655440000
no uuid5 550e8400-e29b-51d4-7716-446655440000
yes k8s-short-name web-1
no k8s-short-name Web
no k8s-short-name web-
no k8s-short-name a.b
yes k8s-short-name aaaaaaaaaaaaaaaaaaaaaaaaaaaaaaaaaaaaaaaaaaaaaaaaaaaaaaaaaaaaaaa
no k8s-short-name aaaaaaaaaaaaaaaaaaaaaaaaaaaaaaaaaaaaaaaaaaaaaaaaaaaaaaaaaaaaaaaa
yes k8s-long-name a.b-c.d
no k8s-long-name a..b
no k8s-long-name -a
yes k8s-long-name aaaaaaaaaaaaaaaaaaaaaaaaaaaaaaaaaaaaaaaaaaaaaaaaaa.aaaaaaaaaaaaaaaaaaaaaaaaaaaaaaaaaaaaaaaaaaaaaaaaaa.aaaaaaaaaaaaaaaaaaaaaaaaaaaaaaaaaaaaaaaaaaaaaaaaaa.aaaaaaaaaaaaaaaaaaaaaaaaaaaaaaaaaaaaaaaaaaaaaaaaaa.aaaaaaaaaaaaaaaaaaaaaaaaaaaaaaaaaaaaaaaaaaaaaaaaa
no k8s-long-name aaaaaaaaaaaaaaaaaaaaaaaaaaaaaaaaaaaaaaaaaaaaaaaaaa.aaaaaaaaaaaaaaaaaaaaaaaaaaaaaaaaaaaaaaaaaaaaaaaaaa.aaaaaaaaaaaaaaaaaaaaaaaaaaaaaaaaaaaaaaaaaaaaaaaaaa.aaaaaaaaaaaaaaaaaaaaaaaaaaaaaaaaaaaaaaaaaaaaaaaaaa.aaaaaaaaaaaaaaaaaaaaaaaaaaaaaaaaaaaaaaaaaaaaaaaaaa
"#;

/// Names of no format.
static OTHERS: &str = "int32 double date-timer dat uuid6 DATE -";

#[test]
fn which_texts_are_of_formats(rt: HostRuntime) -> Result<(), Fail> {
    let mut report = Report::new(rt.alloc());
    let mut tests = PatternTests::new(rt.alloc(), &[])?;
    for line in TEXTS.lines() {
        if let Some((answer, rest)) = line.split_once(' ') {
            let (name, text) = rest.split_once(' ').unwrap_or((rest, ""));
            let format = Format::named(name).unwrap_or(Format::Password);
            let found = is_of(&mut tests, format, text)?;
            report.holds("a format", Format::named(name).is_some());
            report.is_value("answer", &found, &(answer == "yes"));
            report.row(line, Ok(()));
        }
    }
    report.end(&rt)
}

/// They ask nothing, and beside them patterns are tested as before.
#[test]
fn names_of_no_format(rt: HostRuntime) -> Result<(), Fail> {
    let mut report = Report::new(rt.alloc());
    let mut patterns = PatternTests::new(rt.alloc(), &[])?;
    let mut tests = WithFormats {
        tests: &mut patterns,
    };
    for name in OTHERS.split_whitespace() {
        report.holds("no format", Format::named(name).is_none());
        report.holds("not known", !tests.knows(name));
        report.holds("any text", tests.test_format(name, "any text")?);
        report.row(name, Ok(()));
    }
    report.holds("a format", tests.knows("ipv4"));
    report.holds("an address", tests.test_format("ipv4", "192.0.2.1")?);
    report.holds("no address", !tests.test_format("ipv4", "192.0.2")?);
    report.holds("a pattern", tests.test("^a+$", "aa")?);
    report.row("formats and patterns", Ok(()));
    report.end(&rt)
}

/// With matchers kept for its expressions a format answers the same.
#[test]
fn formats_with_kept_matchers(rt: HostRuntime) -> Result<(), Fail> {
    let mut patterns = Vec::new(rt.alloc());
    for expression in expressions_of(Format::Duration) {
        match Pattern::new(rt.alloc(), expression) {
            Ok(pattern) => patterns.push(pattern)?,
            Err(_) => assert!(rt; false, "an expression is no pattern"),
        }
    }
    assert_eq!(rt; patterns.len(), 3, "expressions");
    let mut tests = PatternTests::new(rt.alloc(), &patterns)?;
    let is_long = is_of(&mut tests, Format::Duration, "1h30m")?;
    assert!(rt; is_long, "a duration");
    let is_none = is_of(&mut tests, Format::Duration, "1mo")?;
    assert!(rt; !is_none, "no duration");
    Ok(())
}
