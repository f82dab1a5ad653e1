// Numbers as texts, and texts as numbers.
ghost use Rattle.std.specs.Prelude.{◌≡◌, ◌<◌, ◌+◌, ◌-◌, ◌*◌, ◌^◌, ◌&&◌, nat_lt, length, IfOk, true, FitsSigned};
ghost use Rattle.std.specs.Int.{w128};
ghost use Rattle.std.specs.Fmt.{signed_decimal};
ghost use Rattle.std.specs.List.{list_all};
ghost use Rattle.std.specs.Char.{is_ascii_digit};
ghost use Rattle.std.specs.Option.{SomeIff};
ghost use Rattle.std.specs.Str.Parse.{digits_value, starts_with_minus, without_leading_sign};
ghost use Rattle.cc_library.specs.Numerals.{is_blank, number_of, without_blanks, without_leading_blanks, without_trailing_blanks};
ghost use Rattle.cc_library.specs.Parsing.{IsParsed, signed_value};

use crate::texts::units_of;
use cc_base::Text;
use std::alloc::{AllocError, Global};

/// What a text is as a number of a range.
#[derive(Clone, Copy, Debug, PartialEq, Eq)]
pub enum Parsed {
    /// The number, which lies in the range.
    Value(i128),
    /// The text writes no number.
    Bad,
    /// The text writes a number outside the range.
    Wide,
}

/// The number in decimal, with `-` before a negative one (ECMA-335, IV, `Int64.ToString`).
pub fn decimal_of(alloc: Global, value: i128) -> Result<Text, AllocError>
    ensures { IfOk result (λ text. text ≡ signed_decimal value) }
{
    let digits = value.to_string(alloc)?;
    units_of(alloc, digits.as_bytes())
}

/// The number that a text writes: an optional sign and one or more decimal digits, with blanks before and behind them (ECMA-335, IV, `Int64.Parse`).
/// It takes no memory.
pub fn parse_int(text: &Text, least: i128, most: i128) -> Parsed
    ensures { IsParsed result (number_of text.now) least most }
{
    let numeral = Numeral::of(without_blanks(text.as_slice()));
    if !numeral.has_digits_alone() {
        return Parsed::Bad;
    }
    let Some(value) = numeral.value() else {
        return Parsed::Wide;
    };
    if least <= value && value <= most {
        Parsed::Value(value)
    } else {
        Parsed::Wide
    }
}

const PLUS: u16 = b'+' as u16;

const MINUS: u16 = b'-' as u16;

/// A text in its parts: whether a minus stands before it, and what stands behind its sign.
#[derive(Clone, Copy)]
struct Numeral<'a> {
    is_negative: bool,
    digits: &'a [u16],
}

impl<'a> Numeral<'a> {
    fn of(text: &'a [u16]) -> Numeral<'a>
        ensures is_negative { result.is_negative ≡ starts_with_minus text.now }
        ensures digits { result.digits.now ≡ without_leading_sign text.now }
    {
        match text {
            [MINUS, digits @ ..] => Numeral {
                is_negative: true,
                digits,
            },
            [PLUS, digits @ ..] => Numeral {
                is_negative: false,
                digits,
            },
            digits => Numeral {
                is_negative: false,
                digits,
            },
        }
    }

    /// One digit or more stand behind the sign, and nothing else.
    fn has_digits_alone(&self) -> bool
        ensures { result ≡ (nat_lt 0 (length self.now.digits.now) && list_all is_ascii_digit self.now.digits.now) }
    {
        !self.digits.is_empty() && are_digits(self.digits)
    }

    /// The number, unless 128 bits don't hold it.
    fn value(&self) -> Option<i128>
        requires { list_all is_ascii_digit self.now.digits.now ≡ true }
        ensures { let value = signed_value self.now.is_negative self.now.digits.now in SomeIff result (FitsSigned w128 value) value }
    {
        let magnitude = magnitude(self.digits)?;
        if self.is_negative {
            0i128.checked_sub_unsigned(magnitude)
        } else {
            0i128.checked_add_unsigned(magnitude)
        }
    }
}

/// The number that digits write, unless 128 bits don't hold it.
fn magnitude(digits: &[u16]) -> Option<u128>
    requires { list_all is_ascii_digit digits.now ≡ true }
    ensures { SomeIff result (digits_value 10 digits.now < 2 ^ 128) (digits_value 10 digits.now) }
{
    let mut value = 0u128;
    for digit in digits {
        value = with_digit(value, *digit)?;
    }
    Some(value)
}

/// The number that a digit behind the digits of another number makes, unless 128 bits don't hold it.
fn with_digit(value: u128, digit: u16) -> Option<u128>
    requires { is_ascii_digit digit ≡ true }
    ensures { let more = value * 10 + (digit - 48) in SomeIff result (more < 2 ^ 128) more }
{
    value.checked_mul(10)?.checked_add(u128::from(digit - 0x30))
}

/// The text between the blanks at its start and those at its end.
fn without_blanks(text: &[u16]) -> &[u16]
    ensures { result.now ≡ without_blanks text.now }
{
    without_trailing_blanks(without_leading_blanks(text))
}

fn without_leading_blanks(text: &[u16]) -> &[u16]
    ensures { result.now ≡ without_leading_blanks text.now }
{
    let mut first = 0;
    while first < text.len() && is_blank(text[first]) {
        first += 1;
    }
    &text[first..]
}

fn without_trailing_blanks(text: &[u16]) -> &[u16]
    ensures { result.now ≡ without_trailing_blanks text.now }
{
    let mut past = text.len();
    while past > 0 && is_blank(text[past - 1]) {
        past -= 1;
    }
    &text[..past]
}

/// A space, tab, line feed, vertical tab, form feed or carriage return.
#[tactic(auto, unfolding(crate::specs::Numerals::is_blank))]
fn is_blank(unit: u16) -> bool
    ensures { result ≡ is_blank unit }
{
    matches!(unit, 0x20 | 0x09..=0x0D)
}

fn are_digits(units: &[u16]) -> bool
    ensures { result ≡ list_all is_ascii_digit units.now }
{
    units.iter().all(|unit| is_digit(*unit))
}

fn is_digit(unit: u16) -> bool
    ensures { result ≡ is_ascii_digit unit }
{
    matches!(unit, 0x30..=0x39)
}
