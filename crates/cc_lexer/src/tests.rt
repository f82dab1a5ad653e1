// Sources with their tokens, from the rules of the language.
use crate::lex;
use cc_base::Span;
use cc_tree::{Radix, SIGNS, Suffix, Token, TokenKind};
use std::alloc::{AllocError, Global};

fn radix_mark(radix: Radix) -> &'static str {
    match radix {
        Radix::Decimal => "d",
        Radix::Hexadecimal => "x",
        Radix::Octal => "o",
    }
}

fn suffix_mark(suffix: Suffix) -> &'static str {
    match suffix {
        Suffix::Plain => "",
        Suffix::U => "u",
        Suffix::Ll => "ll",
        Suffix::Ull => "ull",
    }
}

fn kind_shown(alloc: Global, kind: &TokenKind) -> Result<String, AllocError> {
    match kind {
        TokenKind::Word(name) => format!(in alloc; "word{}", name.len()),
        TokenKind::Number(value, suffix, radix) => {
            format!(in alloc; "{}{}{}", *value, radix_mark(*radix), suffix_mark(*suffix))
        }
        TokenKind::Character(unit) => format!(in alloc; "'{}", *unit),
        TokenKind::Literal(units) => {
            let mut text = String::from_str(alloc, "\"")?;
            for unit in units.as_slice() {
                text.push_str(format!(in alloc; "{},", *unit)?.as_str())?;
            }
            Ok(text)
        }
        TokenKind::Sign(number) => format!(in alloc; "#{}", *number),
    }
}

/// Each token with its span, or the refusal with its own.
fn shown(alloc: Global, source: &[u8]) -> Result<String, AllocError> {
    match lex(alloc, source) {
        Ok(tokens) => {
            let mut text = String::new(alloc);
            for token in tokens.as_slice() {
                let kind = kind_shown(alloc, &token.kind)?;
                let Span { first, past } = token.span;
                text.push_str(format!(in alloc;
                    "{}@{}-{} ",
                    kind.as_str(),
                    first,
                    past
                )?.as_str())?;
            }
            Ok(text)
        }
        Err(fault) => match fault.refusal() {
            Some((kind, span)) => format!(in alloc; "{}@{}-{}", kind.name(), span.first, span.past),
            None => Err(AllocError),
        },
    }
}

const NUMBERS: [(&[u8], &str); 40] = [
    (b"0 00 0u 0x0", "0o@0-1 0o@2-4 0ou@5-7 0x@8-11 "),
    (b"1.5", "BadLiteral@0-3"),
    (b"08", "BadLiteral@0-2"),
    (b"0x", "BadLiteral@0-2"),
    (b"0xu", "BadLiteral@0-3"),
    (b"1u1", "BadLiteral@0-3"),
    (b"1l", "BadLiteral@0-2"),
    (b"1lu", "BadLiteral@0-3"),
    (b"1_", "BadLiteral@0-2"),
    (b"99999999999999999999", "NumberTooWide@0-20"),
    (
        b"1u 1U 1ll 1LL 1lL",
        "1du@0-2 1du@3-5 1dll@6-9 1dll@10-13 1dll@14-17 ",
    ),
    (
        b"1ull 1ULL 1llu 1LLU",
        "1dull@0-4 1dull@5-9 1dull@10-14 1dull@15-19 ",
    ),
    (b"0XaBu 07ULL 0Xfll", "171xu@0-5 7oull@6-11 15xll@12-17 "),
    (
        b"2147483648 2147483648u",
        "2147483648d@0-10 2147483648du@11-22 ",
    ),
    (
        b"0x80000000 020000000000",
        "2147483648x@0-10 2147483648o@11-23 ",
    ),
    (
        b"4294967296 4294967296U",
        "4294967296d@0-10 4294967296du@11-22 ",
    ),
    (
        b"0x100000000 040000000000",
        "4294967296x@0-11 4294967296o@12-24 ",
    ),
    (b"9223372036854775807", "9223372036854775807d@0-19 "),
    (b"9223372036854775807LL", "9223372036854775807dll@0-21 "),
    (b"9223372036854775808", "NumberTooWide@0-19"),
    (b"9223372036854775808ll", "NumberTooWide@0-21"),
    (b"9223372036854775808u", "9223372036854775808du@0-20 "),
    (b"9223372036854775808Llu", "9223372036854775808dull@0-22 "),
    (b"0x8000000000000000", "9223372036854775808x@0-18 "),
    (b"0x8000000000000000ll", "9223372036854775808xll@0-20 "),
    (b"01000000000000000000000", "9223372036854775808o@0-23 "),
    (b"01000000000000000000000LL", "9223372036854775808oll@0-25 "),
    (b"18446744073709551615u", "18446744073709551615du@0-21 "),
    (b"0xFFFFFFFFFFFFFFFF", "18446744073709551615x@0-18 "),
    (b"01777777777777777777777", "18446744073709551615o@0-23 "),
    (b"18446744073709551616", "NumberTooWide@0-20"),
    (b"18446744073709551616u", "NumberTooWide@0-21"),
    (b"18446744073709551616ull", "NumberTooWide@0-23"),
    (b"0x10000000000000000", "NumberTooWide@0-19"),
    (b"0x10000000000000000u", "NumberTooWide@0-20"),
    (b"0x10000000000000000ull", "NumberTooWide@0-22"),
    (b"02000000000000000000000", "NumberTooWide@0-23"),
    (b"02000000000000000000000ll", "NumberTooWide@0-25"),
    (b"-1", "#23@0-1 1d@1-2 "),
    (b".5", "#12@0-1 5d@1-2 "),
];

const TEXTS: [(&[u8], &str); 34] = [
    (b"\"\"", "\"@0-2 "),
    (
        b"\"\\n\\t\\r\\a\\b\\f\\v\\\\\\'\\\"\\?\"",
        "\"10,9,13,7,8,12,11,92,39,34,63,@0-24 ",
    ),
    (
        b"'a' L'a' \"a\" L\"a\"",
        "'97@0-3 '97@4-8 \"97,@9-12 \"97,@13-17 ",
    ),
    (b"xL'a'", "word2@0-2 '97@2-5 "),
    (b"\"\\7\\77\\777\\7777\"", "\"7,63,511,511,55,@0-16 "),
    (b"\"\\8\"", "BadLiteral@1-3"),
    (b"\"\\xA\\xFFFF\"", "\"10,65535,@0-11 "),
    (b"\"\\x00000041\"", "\"65,@0-12 "),
    (b"\"\\x10000\"", "BadLiteral@1-8"),
    (b"\"\\x\"", "BadLiteral@1-3"),
    (b"\"\\xg\"", "BadLiteral@1-3"),
    (
        b"\"\\u20AC1\\uFFFF\\uD800\"",
        "\"8364,49,65535,55296,@0-21 ",
    ),
    (b"\"\\u12\"", "BadLiteral@1-5"),
    (b"\"\\u\"", "BadLiteral@1-3"),
    (
        b"\"\\U0000FFFF\\U00010000\\U0010FFFF\"",
        "\"65535,55296,56320,56319,57343,@0-32 ",
    ),
    (b"\"\\U00110000\"", "BadLiteral@1-11"),
    (b"\"\\U0011\"", "BadLiteral@1-7"),
    (b"x \"a\\q\"", "BadLiteral@4-6"),
    (b"\"\\\xC3\xA9\"", "BadLiteral@1-3"),
    (b"'ab'", "BadLiteral@0-4"),
    (b"''", "BadLiteral@0-2"),
    (b"L'ab'", "BadLiteral@1-5"),
    (b"'\\U00010000'", "BadLiteral@0-12"),
    (
        b"'\xE2\x82\xAC' '\"' \"'\"",
        "'8364@0-5 '34@6-9 \"39,@10-13 ",
    ),
    (b"\"\xF0\x9F\x98\x80\"", "\"55357,56832,@0-6 "),
    (b"\"a\xFF\\q\"", "BadByte@2-3"),
    (b"\"a\\q\xFF\"", "BadLiteral@2-4"),
    (b"\"\xED\xA0\x80\"", "BadByte@1-2"),
    (b"x \"a", "UnclosedText@2-3"),
    (b"\"a\n\"", "UnclosedText@0-1"),
    (b"\"\\q\xFF\n\"", "UnclosedText@0-1"),
    (b"\"a\\\n\"", "UnclosedText@0-1"),
    (b"L\"a", "UnclosedText@1-2"),
    (b"'\\'", "UnclosedText@0-1"),
];

const GAPS: [(&[u8], &str); 45] = [
    (b"", ""),
    (b" \t\r\n\x0B\x0Cx", "word1@6-7 "),
    (b"int _a1 A", "word3@0-3 word3@4-7 word1@8-9 "),
    (
        b"a>>b >>= >>=",
        "word1@0-1 #7@1-2 #7@2-3 word1@3-4 #43@5-8 #43@9-12 ",
    ),
    (b"\x00", "BadByte@0-1"),
    (b"a @", "BadByte@2-3"),
    (b"// a \xC3\xA9\nb", "word1@8-9 "),
    (b"a//", "word1@0-1 "),
    (b"/**/a/* * / */b", "word1@4-5 word1@14-15 "),
    (b"/* /* */ a", "word1@9-10 "),
    (b"/* a", "UnclosedComment@0-2"),
    (b"a /*/", "UnclosedComment@2-4"),
    (b"/* \xFF", "UnclosedComment@0-2"),
    (b"/* \xC3\xA9 \xFF */", "BadByte@6-7"),
    (b"// \xE2\x82\n", "BadByte@3-4"),
    (b"\xC3\xA9", "BadByte@0-1"),
    (b"a\xC3\xA9", "BadByte@1-2"),
    (b"\xEF\xBB\xBFx", "word1@3-4 "),
    (b"x\xEF\xBB\xBF", "BadByte@1-2"),
    (b"\xEF\xBB\xBF\xEF\xBB\xBF", "BadByte@3-4"),
    (b"#using <mscorlib.dll>", ""),
    (b"#using <mscorlib.dll>\r\nb", "word1@23-24 "),
    (
        b" \t# /* a */ using /**/<mscorlib.dll>/**/ // c\nb",
        "word1@46-47 ",
    ),
    (b"#using<mscorlib.dll>", ""),
    (b"#using <mscorlib.dll> // \xFF", "BadByte@25-26"),
    (b"#/*\xFF*/pragma", "BadByte@3-4"),
    (b"#using <mscorlib.dll> x", "Directive@0-23"),
    (b"#using <mscorlib.dll> /* a\n*/", "Directive@0-26"),
    (b"#using <System.dll>", "Directive@0-19"),
    (b"#pragma", ""),
    (b"# pragma x \xFF /* \"\nb", "word1@18-19 "),
    (b"/* a */ # /**/ pragma x\nb", "word1@24-25 "),
    (b"#pragmatic", "Directive@0-10"),
    (b"#define X\nb", "Directive@0-9"),
    (b"#define", "Directive@0-7"),
    (b"#define X\r\nb", "Directive@0-10"),
    (b"/* a */ #define", "Directive@8-15"),
    (b"/* a\n */ #define", "Directive@9-16"),
    (b"\xEF\xBB\xBF#define", "Directive@3-10"),
    (b"// a\n # a", "Directive@6-9"),
    (b"#", "Directive@0-1"),
    (b"##", "Directive@0-2"),
    (b"x # a", "word1@0-1 #46@2-3 word1@4-5 "),
    (b"x /*\n*/ # a", "Directive@8-11"),
    (b"# define \"", "Directive@0-10"),
];

#[test]
fn sources_have_these_tokens(rt: HostRuntime) {
    for table in [NUMBERS.as_slice(), TEXTS.as_slice(), GAPS.as_slice()] {
        for &(source, want) in table {
            let got = shown(rt.alloc(), source).expect(&rt, "memory");
            assert_eq!(rt; got.as_str(), want);
        }
    }
}

/// The longest sign that begins a text, by its number, and what stands behind it.
fn longest_sign(text: &[u8]) -> Option<(usize, &[u8])> {
    let mut longest: Option<(usize, &[u8])> = None;
    for (number, sign) in SIGNS.iter().enumerate() {
        if let Some(rest) = text.strip_prefix(*sign) {
            let is_longer = match longest {
                Some((_, other)) => rest.len() < other.len(),
                None => true,
            };
            if is_longer {
                longest = Some((number, rest));
            }
        }
    }
    longest
}

/// The signs of a text of at most eight, each with its span, where a byte stands before the text.
fn signs_shown(alloc: Global, text: &[u8]) -> Result<String, AllocError> {
    let mut shown = String::new(alloc);
    let mut rest = text;
    for _ in 0..8 {
        if let Some((number, more)) = longest_sign(rest) {
            let first = 1usize.wrapping_add(text.len().wrapping_sub(rest.len()));
            let past = 1usize.wrapping_add(text.len().wrapping_sub(more.len()));
            shown.push_str(format!(in alloc; "#{}@{}-{} ", number, first, past)?.as_str())?;
            rest = more;
        }
    }
    Ok(shown)
}

fn pair_is_read(alloc: Global, first: &[u8], second: &[u8]) -> Result<bool, AllocError> {
    let mut source = Vec::from_slice(alloc, b"a")?;
    source.extend_from_slice(first)?;
    source.extend_from_slice(second)?;
    let want = signs_shown(alloc, &source[1..])?;
    let got = shown(alloc, &source)?;
    Ok(got.as_str().strip_prefix("word1@0-1 ") == Some(want.as_str()))
}

#[test]
fn signs_that_touch_are_the_longest(rt: HostRuntime) {
    for first in &SIGNS {
        assert!(rt; pair_is_read(rt.alloc(), first, b" ").expect(&rt, "memory"));
        for second in &SIGNS {
            let is_comment = first.ends_with(b"/")
                && (second.starts_with(b"/") || second.starts_with(b"*"));
            if !is_comment {
                assert!(rt; pair_is_read(rt.alloc(), first, second).expect(&rt, "memory"));
            }
        }
    }
}

fn blanks_shown(alloc: Global, count: usize) -> Result<String, AllocError> {
    let blanks = vec![in alloc; b' '; count]?;
    shown(alloc, &blanks)
}

#[test]
fn sources_have_a_length(rt: HostRuntime) {
    for (count, want) in [
        (1_048_576, ""),
        (1_048_577, "SourceTooLong@1048576-1048577"),
    ] {
        let got = blanks_shown(rt.alloc(), count).expect(&rt, "memory");
        assert_eq!(rt; got.as_str(), want);
    }
}
