// Which inputs a pattern is for.
ghost use Rattle.std.specs.Prelude.{◌≡◌};
ghost use Rattle.cc_table.specs.Choice as spec;

use crate::symbols::{Input, Pattern, Spelled};
use cc_tree::{ContextualWord, NameKind, ReservedWord, Sign, Terminal};

/// Whether a name is spelled so.
fn is_spelled(word: ContextualWord, spelled: Spelled) -> bool
    ensures { result ≡ spec.is_spelled word spelled }
{
    match spelled {
        Spelled::Anyhow => true,
        Spelled::Property => word == ContextualWord::Property,
        Spelled::NotProperty => word != ContextualWord::Property,
        Spelled::Key => matches!(
            word,
            ContextualWord::Ref | ContextualWord::Value | ContextualWord::Interface
        ),
    }
}

/// Whether a fundamental type begins with the word.
fn begins_fundamental(word: ReservedWord) -> bool
    ensures { result ≡ spec.begins_fundamental word }
{
    matches!(
        word,
        ReservedWord::Void
            | ReservedWord::Bool
            | ReservedWord::WideChar
            | ReservedWord::Signed
            | ReservedWord::Unsigned
            | ReservedWord::Short
            | ReservedWord::Int
            | ReservedWord::Long
    )
}

/// Whether the sign is an operator that assigns (ECMA-372, 15.20).
fn assigns(sign: Sign) -> bool
    ensures { result ≡ spec.assigns sign }
{
    matches!(
        sign,
        Sign::Assign
            | Sign::AssignSum
            | Sign::AssignDifference
            | Sign::AssignProduct
            | Sign::AssignQuotient
            | Sign::AssignRemainder
            | Sign::AssignExclusiveOr
            | Sign::AssignAnd
            | Sign::AssignOr
            | Sign::AssignShiftLeft
            | Sign::AssignShiftRight
    )
}

/// Whether the sign is an operator before its operand (ECMA-372, 15.4).
fn is_prefix(sign: Sign) -> bool
    ensures { result ≡ spec.is_prefix sign }
{
    matches!(
        sign,
        Sign::Exclamation
            | Sign::Tilde
            | Sign::Minus
            | Sign::Plus
            | Sign::Increment
            | Sign::Decrement
            | Sign::Percent
    )
}

fn accepts_name(pattern: Pattern, kind: NameKind, word: ContextualWord) -> bool
    ensures { result ≡ spec.accepts_name pattern kind word }
{
    match pattern {
        Pattern::Name(one) => kind == one,
        Pattern::Contextual(one) => word == one,
        Pattern::Id(spelled) => kind != NameKind::Type && is_spelled(word, spelled),
        Pattern::Type(spelled) => kind == NameKind::Type && is_spelled(word, spelled),
        Pattern::AnyName | Pattern::TypeOrName | Pattern::Any => true,
        _ => false,
    }
}

fn accepts_own(pattern: Pattern, kind: NameKind, word: ContextualWord) -> bool
    ensures { result ≡ spec.accepts_own pattern kind word }
{
    match pattern {
        Pattern::Own => true,
        Pattern::OwnId(spelled) => kind != NameKind::Type && is_spelled(word, spelled),
        Pattern::OwnType(spelled) => kind == NameKind::Type && is_spelled(word, spelled),
        _ => false,
    }
}

fn accepts_word(pattern: Pattern, word: ReservedWord) -> bool
    ensures { result ≡ spec.accepts_word pattern word }
{
    match pattern {
        Pattern::Word(one) => word == one,
        Pattern::Fundamental | Pattern::TypeOrName => begins_fundamental(word),
        Pattern::Any => true,
        _ => false,
    }
}

fn accepts_sign(pattern: Pattern, sign: Sign) -> bool
    ensures { result ≡ spec.accepts_sign pattern sign }
{
    match pattern {
        Pattern::Sign(one) => sign == one,
        Pattern::Assignment => assigns(sign),
        Pattern::Prefix => is_prefix(sign),
        Pattern::Any => true,
        _ => false,
    }
}

fn accepts_token(pattern: Pattern, terminal: Terminal) -> bool
    ensures { result ≡ spec.accepts_token pattern terminal }
{
    match terminal {
        Terminal::Name(kind, word) => accepts_name(pattern, kind, word),
        Terminal::Word(word) => accepts_word(pattern, word),
        Terminal::Sign(sign) => accepts_sign(pattern, sign),
        Terminal::Number => matches!(pattern, Pattern::Number | Pattern::Any),
        Terminal::Zero => matches!(pattern, Pattern::Zero | Pattern::Any),
        Terminal::Character => matches!(pattern, Pattern::Character | Pattern::Any),
        Terminal::Literal => matches!(pattern, Pattern::Literal | Pattern::Any),
        Terminal::Other => matches!(pattern, Pattern::Any),
    }
}

/// Whether a pattern is for an input.
pub fn accepts(pattern: Pattern, input: Input) -> bool
    ensures { result ≡ spec.accepts pattern input }
{
    match input {
        Input::Token(terminal) => accepts_token(pattern, terminal),
        Input::Own(kind, word) => accepts_own(pattern, kind, word),
        Input::TouchingGreater => matches!(pattern, Pattern::TouchingGreater),
        Input::CoreType => matches!(pattern, Pattern::CoreType),
        Input::OperandType => matches!(pattern, Pattern::OperandType),
        Input::QualifiedPlain => matches!(pattern, Pattern::QualifiedPlain),
        Input::QualifiedFunction => matches!(pattern, Pattern::QualifiedFunction),
        Input::PropertyType => matches!(pattern, Pattern::PropertyType),
        Input::ConstructorName => matches!(pattern, Pattern::ConstructorName),
        Input::DeclaredName => matches!(pattern, Pattern::DeclaredName),
        Input::ShiftRight | Input::RelationalGreater => false,
    }
}

/// Whether one of the patterns is for an input.
pub fn accepts_one(patterns: &[Pattern], input: Input) -> bool
    ensures { result ≡ spec.accepts_one patterns.now input }
{
    for pattern in patterns {
        if accepts(*pattern, input) {
            return true;
        }
    }
    false
}
