// Texts, numbers and lines, from the rules of the language and of the library.
use crate::{
    Line, Parsed, boolean_of, character_of, concat, decimal_of, line_of, parse_int, utf8_of,
};
use cc_base::{List, Text};
use std::alloc::{AllocError, Global};
use std::test::Fail;

const DECIMALS: [(i128, &str); 9] = [
    (0, "0"),
    (7, "7"),
    (-1, "-1"),
    (10, "10"),
    (-2_147_483_648, "-2147483648"),
    (9_223_372_036_854_775_807, "9223372036854775807"),
    (18_446_744_073_709_551_615, "18446744073709551615"),
    (i128::MAX, "170141183460469231731687303715884105727"),
    (i128::MIN, "-170141183460469231731687303715884105728"),
];

// A text of ASCII, a range, and what the text is in it.
const NUMBERS: [(&str, i128, i128, Parsed); 30] = [
    ("12", -128, 127, Parsed::Value(12)),
    ("+5", -128, 127, Parsed::Value(5)),
    ("-0", -128, 127, Parsed::Value(0)),
    ("007", 0, 255, Parsed::Value(7)),
    (
        " \t\r\n\x0B\x0C12\x0C\x0B\n\r\t ",
        0,
        255,
        Parsed::Value(12),
    ),
    ("\t-128 ", -128, 127, Parsed::Value(-128)),
    ("127", -128, 127, Parsed::Value(127)),
    ("128", -128, 127, Parsed::Wide),
    ("-129", -128, 127, Parsed::Wide),
    ("-1", 0, 255, Parsed::Wide),
    ("-0", 0, 255, Parsed::Value(0)),
    ("256", 0, 255, Parsed::Wide),
    (
        "0000000000000000000000000000000000000000000000001",
        0,
        255,
        Parsed::Value(1),
    ),
    ("", -128, 127, Parsed::Bad),
    (" ", -128, 127, Parsed::Bad),
    ("+", -128, 127, Parsed::Bad),
    ("-", -128, 127, Parsed::Bad),
    ("1 2", -128, 127, Parsed::Bad),
    ("- 1", -128, 127, Parsed::Bad),
    ("+-1", -128, 127, Parsed::Bad),
    ("--1", -128, 127, Parsed::Bad),
    ("1-", -128, 127, Parsed::Bad),
    ("0x1", -128, 127, Parsed::Bad),
    ("1.0", -128, 127, Parsed::Bad),
    ("x", -128, 127, Parsed::Bad),
    ("1\x0012", -128, 127, Parsed::Bad),
    (
        "170141183460469231731687303715884105727",
        i128::MIN,
        i128::MAX,
        Parsed::Value(i128::MAX),
    ),
    (
        "-170141183460469231731687303715884105728",
        i128::MIN,
        i128::MAX,
        Parsed::Value(i128::MIN),
    ),
    (
        "170141183460469231731687303715884105728",
        i128::MIN,
        i128::MAX,
        Parsed::Wide,
    ),
    (
        "-999999999999999999999999999999999999999999999999999999999999",
        i128::MIN,
        i128::MAX,
        Parsed::Wide,
    ),
];

// Units, and the bytes that they are printed as.
const PRINTED: [(&[u16], &[u8]); 9] = [
    (&[], b""),
    (&[0x31, 0x32], b"12"),
    (
        &[0x7F, 0x80, 0x7FF, 0x800],
        b"\x7F\xC2\x80\xDF\xBF\xE0\xA0\x80",
    ),
    (&[0x20AC, 0x0A], b"\xE2\x82\xAC\x0A"),
    (&[0xD800, 0x0A], b"\xEF\xBF\xBD\x0A"),
    (&[0xDC00, 0xD800], b"\xEF\xBF\xBD\xEF\xBF\xBD"),
    (&[0xD83D, 0xDE00, 0x21], b"\xF0\x9F\x98\x80\x21"),
    (&[0xD83D, 0xD83D, 0xDE00], b"\xEF\xBF\xBD\xF0\x9F\x98\x80"),
    (&[0xDBFF, 0xDFFF, 0xFFFF], b"\xF4\x8F\xBF\xBF\xEF\xBF\xBF"),
];

// An input, the units of its first line, and how many bytes that line takes.
const LINES: [(&[u8], &[u16], u32); 22] = [
    (b"12\n7\n", &[0x31, 0x32], 3),
    (b"7\n", &[0x37], 2),
    (b"7", &[0x37], 1),
    (b"\n7", &[], 1),
    (b"7\r\n8", &[0x37], 3),
    (b"7\r\r\n8", &[0x37, 0x0D], 4),
    (b"\r\n", &[], 2),
    (b"7\r", &[0x37, 0x0D], 2),
    (b"7\r8\n", &[0x37, 0x0D, 0x38], 4),
    (b"\xE2\x82\xAC\n", &[0x20AC], 4),
    (b"\xF0\x9F\x98\x80\x21\n", &[0xD83D, 0xDE00, 0x21], 6),
    (b"\xEF\xBB\xBF\x41", &[0xFEFF, 0x41], 4),
    (b"a\xFFb\n", &[0x61, 0xFFFD, 0x62], 4),
    (b"\x80\n", &[0xFFFD], 2),
    (b"\xC0\x80\n", &[0xFFFD, 0xFFFD], 3),
    (b"\xE2\x82a\n", &[0xFFFD, 0xFFFD, 0x61], 4),
    (b"\xE2\x82\n\xAC", &[0xFFFD, 0xFFFD], 3),
    (b"\xED\xA0\x80\n", &[0xFFFD, 0xFFFD, 0xFFFD], 4),
    (b"\xF4\x90\x80\x80\n", &[0xFFFD, 0xFFFD, 0xFFFD, 0xFFFD], 5),
    (
        b"\xF0\x9F\x98\xE2\x82\xAC\n",
        &[0xFFFD, 0xFFFD, 0xFFFD, 0x20AC],
        7,
    ),
    (b"\xE2\xE2\x82\xAC\n", &[0xFFFD, 0x20AC], 5),
    (
        b"\xEF\xBF\xBF\xF4\x8F\xBF\xBF",
        &[0xFFFF, 0xDBFF, 0xDFFF],
        7,
    ),
];

fn text_of(alloc: Global, ascii: &str) -> Result<Text, AllocError> {
    let mut units = List::new(alloc);
    for byte in ascii.as_bytes() {
        units.push(u16::from(*byte))?;
    }
    Ok(units)
}

#[test]
fn numbers_are_written_and_read(rt: HostRuntime) -> Result<(), Fail> {
    let alloc = rt.alloc();
    for (value, ascii) in DECIMALS {
        let text = decimal_of(alloc, value)?;
        assert_eq!(rt; text.as_slice(), text_of(alloc, ascii)?.as_slice());
        assert_eq!(rt;
            parse_int(&text, i128::MIN, i128::MAX),
            Parsed::Value(value)
        );
    }
    for (ascii, least, most, number) in NUMBERS {
        assert_eq!(rt;
            parse_int(&text_of(alloc, ascii)?, least, most),
            number,
            "{ascii}"
        );
    }
    let other_digit = character_of(alloc, 0x0661)?;
    assert_eq!(rt; parse_int(&other_digit, 0, 255), Parsed::Bad);
    let other_blank = concat(alloc, &character_of(alloc, 0xA0)?, &decimal_of(alloc, 1)?)?;
    assert_eq!(rt; parse_int(&other_blank, 0, 255), Parsed::Bad);
    Ok(())
}

#[test]
fn texts_are_made_joined_and_printed(rt: HostRuntime) -> Result<(), Fail> {
    let alloc = rt.alloc();
    for (value, ascii) in [(true, "True"), (false, "False")] {
        let text = boolean_of(alloc, value)?;
        assert_eq!(rt; text.as_slice(), text_of(alloc, ascii)?.as_slice());
    }
    assert_eq!(rt;
        character_of(alloc, 0xD800)?.as_slice(),
        [0xD800].as_slice()
    );
    let pair = concat(
        alloc,
        &character_of(alloc, 0xD83D)?,
        &character_of(alloc, 0xDE00)?,
    )?;
    assert_eq!(rt; pair.as_slice(), [0xD83D, 0xDE00].as_slice());
    let empty = List::new(alloc);
    assert_eq!(rt; concat(alloc, &empty, &pair)?.as_slice(), pair.as_slice());
    assert_eq!(rt; concat(alloc, &pair, &empty)?.as_slice(), pair.as_slice());
    for (units, bytes) in PRINTED {
        let text = List::from_slice(alloc, units)?;
        assert_eq!(rt; utf8_of(alloc, &text)?.as_slice(), bytes);
    }
    Ok(())
}

#[test]
fn lines_end_at_line_feeds_and_decode(rt: HostRuntime) -> Result<(), Fail> {
    let alloc = rt.alloc();
    assert!(rt; matches!(line_of(alloc, b"")?, Line::End));
    for (input, units, length) in LINES {
        assert!(rt; input.len() < 100);
        match line_of(alloc, input)? {
            Line::End => assert!(rt; false),
            Line::Read(text, used) => {
                assert_eq!(rt; text.as_slice(), units);
                assert_eq!(rt; used, length);
            }
        }
    }
    Ok(())
}
