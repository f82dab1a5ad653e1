// The types of numbers (ECMA-372, 14 and 15; ISO/IEC 14882:2003, 2.13.1, 4.5 and 5).
ghost use Rattle.std.specs.Prelude.{◌≡◌, ◌==◌};
ghost use Rattle.cc_tree.specs.declared.token.Radix.TheVariants.{Decimal, Hexadecimal, Octal};
ghost use Rattle.cc_tree.specs.declared.token.Suffix.TheVariants.{Plain, Ll};
ghost use Rattle.cc_operations.specs.Numbers as spec;

use cc_core::CoreType;
use cc_tree::{FundamentalType, Radix, Suffix, TypeName};

/// A fundamental type, or `void`, as a type of typed terms.
pub fn core(of: FundamentalType) -> CoreType
    ensures { result ≡ spec.core_type of }
{
    match of {
        FundamentalType::Void => CoreType::Void,
        FundamentalType::Bool => CoreType::Bool,
        FundamentalType::WideChar => CoreType::Char,
        FundamentalType::SignedChar => CoreType::I8,
        FundamentalType::UnsignedChar => CoreType::U8,
        FundamentalType::Short => CoreType::I16,
        FundamentalType::UnsignedShort => CoreType::U16,
        FundamentalType::Int => CoreType::I32,
        FundamentalType::UnsignedInt => CoreType::U32,
        FundamentalType::LongLong => CoreType::I64,
        FundamentalType::UnsignedLongLong => CoreType::U64,
    }
}

/// Whether it is `void`.
pub fn is_void(of: FundamentalType) -> bool
    ensures { result ≡ spec.is_void of }
{
    matches!(of, FundamentalType::Void)
}

/// Whether it is `bool`.
pub fn is_bool(of: FundamentalType) -> bool
    ensures { result ≡ spec.is_bool of }
{
    matches!(of, FundamentalType::Bool)
}

/// The place of a type among those of numbers.
fn rank(of: FundamentalType) -> u8
    ensures { result ≡ spec.rank of }
{
    match of {
        FundamentalType::Void => 0,
        FundamentalType::Bool => 1,
        FundamentalType::WideChar => 2,
        FundamentalType::SignedChar => 3,
        FundamentalType::UnsignedChar => 4,
        FundamentalType::Short => 5,
        FundamentalType::UnsignedShort => 6,
        FundamentalType::Int => 7,
        FundamentalType::UnsignedInt => 8,
        FundamentalType::LongLong => 9,
        FundamentalType::UnsignedLongLong => 10,
    }
}

/// Whether two types are one.
pub fn is_same(one: FundamentalType, other: FundamentalType) -> bool
    ensures { result ≡ (spec.rank one == spec.rank other) }
{
    rank(one) == rank(other)
}

/// The type to which an operand is promoted.
pub fn promoted(of: FundamentalType) -> FundamentalType
    ensures { result ≡ spec.promoted of }
{
    match of {
        FundamentalType::Void => FundamentalType::Void,
        FundamentalType::Bool => FundamentalType::Int,
        FundamentalType::WideChar => FundamentalType::Int,
        FundamentalType::SignedChar => FundamentalType::Int,
        FundamentalType::UnsignedChar => FundamentalType::Int,
        FundamentalType::Short => FundamentalType::Int,
        FundamentalType::UnsignedShort => FundamentalType::Int,
        FundamentalType::Int => FundamentalType::Int,
        FundamentalType::UnsignedInt => FundamentalType::UnsignedInt,
        FundamentalType::LongLong => FundamentalType::LongLong,
        FundamentalType::UnsignedLongLong => FundamentalType::UnsignedLongLong,
    }
}

fn is_unsigned_int(of: FundamentalType) -> bool
    ensures { result ≡ spec.is_unsigned_int of }
{
    matches!(of, FundamentalType::UnsignedInt)
}

fn is_long_long(of: FundamentalType) -> bool
    ensures { result ≡ spec.is_long_long of }
{
    matches!(of, FundamentalType::LongLong)
}

fn is_unsigned_long_long(of: FundamentalType) -> bool
    ensures { result ≡ spec.is_unsigned_long_long of }
{
    matches!(of, FundamentalType::UnsignedLongLong)
}

/// The common type of two numbers.
pub fn common(one: FundamentalType, other: FundamentalType) -> FundamentalType
    ensures { result ≡ spec.common one other }
{
    if is_unsigned_long_long(one) || is_unsigned_long_long(other) {
        FundamentalType::UnsignedLongLong
    } else if is_long_long(one) || is_long_long(other) {
        FundamentalType::LongLong
    } else if is_unsigned_int(one) || is_unsigned_int(other) {
        FundamentalType::UnsignedInt
    } else {
        FundamentalType::Int
    }
}

/// The type of a decimal number without suffix.
fn decimal_type(value: u64) -> FundamentalType
    ensures { result ≡ spec.number_type value Plain Decimal }
{
    if value <= 0x7FFF_FFFF {
        FundamentalType::Int
    } else {
        FundamentalType::LongLong
    }
}

/// The type of a hexadecimal or octal number without suffix.
fn plain_type(value: u64) -> FundamentalType
    ensures hexadecimal { result ≡ spec.number_type value Plain Hexadecimal }
    ensures octal { result ≡ spec.number_type value Plain Octal }
{
    if value <= 0x7FFF_FFFF {
        FundamentalType::Int
    } else if value <= 0xFFFF_FFFF {
        FundamentalType::UnsignedInt
    } else if value <= 0x7FFF_FFFF_FFFF_FFFF {
        FundamentalType::LongLong
    } else {
        FundamentalType::UnsignedLongLong
    }
}

/// The type of a hexadecimal or octal number with the suffix `ll`.
fn long_type(value: u64) -> FundamentalType
    ensures hexadecimal { result ≡ spec.number_type value Ll Hexadecimal }
    ensures octal { result ≡ spec.number_type value Ll Octal }
{
    if value <= 0x7FFF_FFFF_FFFF_FFFF {
        FundamentalType::LongLong
    } else {
        FundamentalType::UnsignedLongLong
    }
}

/// The type of a number: the first that its suffix and its digits allow and that holds it.
pub fn number_type(value: u64, suffix: Suffix, radix: Radix) -> FundamentalType
    ensures { result ≡ spec.number_type value suffix radix }
{
    match suffix {
        Suffix::Plain => match radix {
            Radix::Decimal => decimal_type(value),
            Radix::Hexadecimal => plain_type(value),
            Radix::Octal => plain_type(value),
        },
        Suffix::U => {
            if value <= 0xFFFF_FFFF {
                FundamentalType::UnsignedInt
            } else {
                FundamentalType::UnsignedLongLong
            }
        }
        Suffix::Ll => match radix {
            Radix::Decimal => FundamentalType::LongLong,
            Radix::Hexadecimal => long_type(value),
            Radix::Octal => long_type(value),
        },
        Suffix::Ull => FundamentalType::UnsignedLongLong,
    }
}

/// The type that one of the library's names means, `void` for another name.
fn library_type(name: &[u8]) -> FundamentalType
    ensures { result ≡ spec.library_type name.now }
{
    if name == b"Boolean".as_slice() {
        FundamentalType::Bool
    } else if name == b"Char".as_slice() {
        FundamentalType::WideChar
    } else if name == b"SByte".as_slice() {
        FundamentalType::SignedChar
    } else if name == b"Byte".as_slice() {
        FundamentalType::UnsignedChar
    } else if name == b"Int16".as_slice() {
        FundamentalType::Short
    } else if name == b"UInt16".as_slice() {
        FundamentalType::UnsignedShort
    } else if name == b"Int32".as_slice() {
        FundamentalType::Int
    } else if name == b"UInt32".as_slice() {
        FundamentalType::UnsignedInt
    } else if name == b"Int64".as_slice() {
        FundamentalType::LongLong
    } else if name == b"UInt64".as_slice() {
        FundamentalType::UnsignedLongLong
    } else {
        FundamentalType::Void
    }
}

/// The fundamental type that a written type means, `void` for one that isn't built.
pub fn written(of: &TypeName) -> FundamentalType
    ensures { result ≡ spec.written of.now }
{
    match of {
        TypeName::Fundamental(of, _) => *of,
        TypeName::Named(_, name, _, _) => library_type(name.name.as_slice()),
        TypeName::Marked(_, _, _, _) => FundamentalType::Void,
    }
}
