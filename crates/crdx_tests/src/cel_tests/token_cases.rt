//! Tokens of the Common Expression Language. The answers are made by hand from its specification.
use crate::support::report::Report;
use crate::support::rows::{Kind, Row, try_tables};
use cel_read::{Keyword, LexFault, Symbol, Token, tokens};
use std::alloc::Global;
use std::fmt::Write;
use std::test::Fail;

static PLAIN: &str = r#"
18 rows: name | text | tokens
nothing | - | -
blanks alone | ␠␉␊␍ // no more | -
identifiers | a _b1 Zz9_ | name:a name:_b1 name:Zz9_
keywords | in true false null | in true false null
longer than a keyword | inn trues nulls In | name:inn name:trues name:nulls name:In
reserved words | while for as | name:while name:for name:as
a path | self.a[0] | name:self . name:a [ int:0 ]
brackets | ([{}]) | ( [ { } ] )
signs of one character | +-*/%!<>?:,. | + - * / % ! < > ? : , .
signs of two characters | == != <= >= && || | == != <= >= && ||
signs as long as can be | ====<=>=!!= | == == <= >= ! !=
no blanks | a&&!b||c | name:a && ! name:b || name:c
optional parts | a.?b[?c] | name:a . ? name:b [ ? name:c ]
a comment to the end of its line | a // b␊c | name:a name:c
a comment at the end | a// | name:a
a comment in a comment | a // b // c␊d | name:a name:d
a carriage return ends no comment | a // b␍c | name:a
slashes | a / b | name:a / name:b
"#;

static NUMBERS: &str = r#"
13 rows: name | text | tokens
decimal | 0 12 007 | int:0 int:12 int:7
hexadecimal | 0x1F 0xab | int:31 int:171
a large X | 0X1 | int:0 name:X1
no digits after the x | 0x 0xg | int:0 name:x int:0 name:xg
suffixes | 1u 0x1FU 12 u | uint:1u uint:0x1FU int:12 name:u
the largest | 9223372036854775808 0x8000000000000000 | int:9223372036854775808 int:9223372036854775808
doubles | 1.5 .5 1e3 1.5E-3 2e+10 .5e1 | double:1.5 double:.5 double:1e3 double:1.5E-3 double:2e+10 double:.5e1
no doubles | 1. 1.e3 1e 1e+ | int:1 . int:1 . name:e3 int:1 name:e int:1 name:e +
names after numbers | 12ab 0x1Fg 1.5u 1uu | int:12 name:ab int:31 name:g double:1.5 name:u uint:1u name:u
a minus is a sign | -1 a-1 | - int:1 name:a - int:1
two points | 1..2 | int:1 . double:.2
two fractions | 1.2.3 | double:1.2 double:.3
a number for a field | a.1 | name:a double:.1
"#;

static STRINGS: &str = r#"
21 rows: name | text | tokens
in both quotes | "abc" 'abc' | text:[abc] text:[abc]
the other quote | "it's" 'say "x"' | text:[it's] text:[say "x"]
empty | "" '' """""" | text:[] text:[] text:[]
four quotes | """" | text:[] text:[]
escapes of signs | "\a\b\f\n\r\t\v\\\?\"\'\`" | text:[<7><8><c><a><d><9><b>\?"'`]
escapes of numbers | "\x41\X42\u0043\U00000044\105" | text:[ABCDE]
code points, not bytes | "\x80\377\u00e9" | text:[<80>ÿé]
the largest code point | "\U0010FFFF" | text:[<10ffff>]
more digits than an escape has | "\u00411\1012" | text:[A1A2]
other characters | "é中" | text:[é中]
in three quotes | """a"b""c""" '''it's''' | text:[a"b""c] text:[it's]
over lines | """a␊b""" | text:[a<a>b]
an escaped quote in three | """\"""" | text:["]
raw | r"\n" R'\' | text:[\n] text:[\]
raw in three quotes | r"""\"a""" | text:[\"a]
bytes | b"a" B'\xff' br"\" bR'''x''' | bytes bytes bytes bytes
bytes that are no code points | b"\ud800" | bytes
prefixes the other way round | rb"a" | name:rb text:[a]
prefixes alone | r b br | name:r name:b name:br
what is no comment | "a // b" | text:[a // b]
a comment after it | "a"//b␊c | text:[a] name:c
"#;

/// What is wrong, and the number of characters before it.
static FAULTS: &str = r#"
31 rows: name | text | tokens
no sign | a @ | none@2
one of two | a = b | none@2
one bar | a|b | none@1
one and | a & b | none@2
signs too many | !== | none@2
a letter of no identifier | aé | none@1
a backquote | `a` | none@0
counted in characters | "é" # | none@4
not closed | a == "b | none@5
closed by the other quote | "a' | none@0
the end of a line in it | "a␊b" | none@0
a raw one over lines | r"a␊b" | none@1
three quotes closed by two | """abc"" | none@7
four quotes at the end | """a"""" | none@7
a raw one ends at its quote | r"\"" | none@4
an escape that is none | "\q" | none@0
too few hexadecimal digits | "\x4" | none@0
too few of four | "\u12" | none@0
an octal escape too large | "\400" | none@0
two octal digits | "\12" | none@0
an escape at the end | "\ | none@0
a raw literal not closed | r"a | none@1
an integer above 2^63 | 9223372036854775809 | large@0
one above 64 bits | a + 18446744073709551616 | large@4
a hexadecimal one | 0x8000000000000001 | large@0
a surrogate | "\ud800" | point@0
the last surrogate | a == "\udfff" | point@5
above the largest code point | "\U00110000" | point@0
of 32 bits | "\UFFFFFFFF" | point@0
the first of two faults | 99999999999999999999 @ | large@0
and the other way round | a@ 99999999999999999999 | none@1
"#;

fn keyword_of(keyword: Keyword) -> &'static str {
    match keyword {
        Keyword::In => "in",
        Keyword::True => "true",
        Keyword::False => "false",
        Keyword::Null => "null",
    }
}

fn symbol_of(symbol: Symbol) -> &'static str {
    match symbol {
        Symbol::Or => "||",
        Symbol::And => "&&",
        Symbol::Equal => "==",
        Symbol::NotEqual => "!=",
        Symbol::Less => "<",
        Symbol::LessOrEqual => "<=",
        Symbol::Greater => ">",
        Symbol::GreaterOrEqual => ">=",
        Symbol::Plus => "+",
        Symbol::Minus => "-",
        Symbol::Star => "*",
        Symbol::Slash => "/",
        Symbol::Percent => "%",
        Symbol::Not => "!",
        Symbol::Question => "?",
        Symbol::Colon => ":",
        Symbol::Dot => ".",
        Symbol::Comma => ",",
        Symbol::LeftParenthesis => "(",
        Symbol::RightParenthesis => ")",
        Symbol::LeftBracket => "[",
        Symbol::RightBracket => "]",
        Symbol::LeftBrace => "{",
        Symbol::RightBrace => "}",
    }
}

/// Writes a text, with the numbers of the characters that one does not see.
fn write_text(said: &mut String, text: &str) -> Result<(), Fail> {
    for c in text.chars() {
        let code = c as u32;
        if code < 0x20 || (0x7F <= code && code <= 0xA0) || 0xFFFF < code {
            write!(said, "<{code:x}>")?;
        } else {
            said.push(c)?;
        }
    }
    Ok(())
}

fn write_token(said: &mut String, token: &Token) -> Result<(), Fail> {
    match token {
        Token::Name(name) => write!(said, "name:{name}")?,
        Token::Keyword(keyword) => said.push_str(keyword_of(*keyword))?,
        Token::Integer(number) => write!(said, "int:{number}")?,
        Token::Unsigned(text) => write!(said, "uint:{text}")?,
        Token::Double(text) => write!(said, "double:{text}")?,
        Token::Text(text) => {
            said.push_str("text:[")?;
            write_text(said, text.as_str())?;
            said.push(']')?;
        }
        Token::Bytes => said.push_str("bytes")?,
        Token::Symbol(symbol) => said.push_str(symbol_of(*symbol))?,
    }
    Ok(())
}

/// The tokens of a text, or what is wrong with it, as a row has them.
fn said_of(alloc: Global, text: &str) -> Result<String, Fail> {
    let mut said = String::new(alloc);
    match tokens(alloc, text) {
        Ok(tokens) => {
            for token in &tokens {
                if !said.as_str().is_empty() {
                    said.push(' ')?;
                }
                write_token(&mut said, token)?;
            }
        }
        Err(LexFault::NoLexeme(place)) => write!(said, "none@{place}")?,
        Err(LexFault::IntegerTooLarge(place)) => write!(said, "large@{place}")?,
        Err(LexFault::NoCodePoint(place)) => write!(said, "point@{place}")?,
        Err(LexFault::NoMemory) => return Err(Fail::from("out of memory")),
    }
    Ok(said)
}

/// A text, and its tokens.
struct TokenRow;

impl Kind for TokenRow {
    fn attempt(&self, report: &mut Report, alloc: Global, row: &Row) -> Result<(), Fail> {
        let said = said_of(alloc, row.text("text"))?;
        report.is_text("tokens", said.as_str(), row.text("tokens"));
        Ok(())
    }
}

#[test]
fn what_the_tokens_are(rt: HostRuntime) -> Result<(), Fail> {
    try_tables(
        &rt,
        rt.alloc(),
        &TokenRow,
        &[PLAIN, NUMBERS, STRINGS, FAULTS],
    )
}
