// What words and signs mean.
ghost use Rattle.std.specs.Prelude.{◌≡◌};
ghost use Rattle.cc_pushdown.specs.Words as spec;

use cc_tree::{
    AccessWord, AccessorWord, AggregateWord, AssignmentOperator, CastWord, ClassModifier,
    ClassWord, ContextualWord, ParameterWord, PostfixOperator, PrefixOperator, ReservedWord,
    Selector, Sign, Terminal, Visibility,
};

/// The operator that a sign is.
pub fn assignment_of(terminal: Terminal) -> AssignmentOperator
    ensures { result ≡ spec.assignment_of terminal }
{
    match terminal {
        Terminal::Sign(Sign::AssignSum) => AssignmentOperator::Add,
        Terminal::Sign(Sign::AssignDifference) => AssignmentOperator::Subtract,
        Terminal::Sign(Sign::AssignProduct) => AssignmentOperator::Multiply,
        Terminal::Sign(Sign::AssignQuotient) => AssignmentOperator::Divide,
        Terminal::Sign(Sign::AssignRemainder) => AssignmentOperator::Remainder,
        Terminal::Sign(Sign::AssignExclusiveOr) => AssignmentOperator::ExclusiveOr,
        Terminal::Sign(Sign::AssignAnd) => AssignmentOperator::And,
        Terminal::Sign(Sign::AssignOr) => AssignmentOperator::Or,
        Terminal::Sign(Sign::AssignShiftLeft) => AssignmentOperator::ShiftLeft,
        Terminal::Sign(Sign::AssignShiftRight) => AssignmentOperator::ShiftRight,
        _ => AssignmentOperator::Assign,
    }
}

/// The operator that a sign before an operand is.
pub fn prefix_of(terminal: Terminal) -> PrefixOperator
    ensures { result ≡ spec.prefix_of terminal }
{
    match terminal {
        Terminal::Sign(Sign::Tilde) => PrefixOperator::Complement,
        Terminal::Sign(Sign::Minus) => PrefixOperator::Negate,
        Terminal::Sign(Sign::Plus) => PrefixOperator::Plus,
        Terminal::Sign(Sign::Increment) => PrefixOperator::Increment,
        Terminal::Sign(Sign::Decrement) => PrefixOperator::Decrement,
        Terminal::Sign(Sign::Percent) => PrefixOperator::Handle,
        _ => PrefixOperator::Not,
    }
}

/// The operator that a sign after an operand is.
pub fn postfix_of(terminal: Terminal) -> PostfixOperator
    ensures { result ≡ spec.postfix_of terminal }
{
    match terminal {
        Terminal::Sign(Sign::Increment) => PostfixOperator::Increment,
        _ => PostfixOperator::Decrement,
    }
}

/// How a sign selects a member.
pub fn selector_of(terminal: Terminal) -> Selector
    ensures { result ≡ spec.selector_of terminal }
{
    match terminal {
        Terminal::Sign(Sign::Dot) => Selector::Dot,
        _ => Selector::Arrow,
    }
}

/// The cast that a word is.
pub fn cast_of(terminal: Terminal) -> CastWord
    ensures { result ≡ spec.cast_of terminal }
{
    match terminal {
        Terminal::Word(ReservedWord::SafeCast) => CastWord::Safe,
        Terminal::Word(ReservedWord::StaticCast) => CastWord::Static,
        _ => CastWord::Dynamic,
    }
}

/// The access that a word gives.
pub fn access_of(terminal: Terminal) -> AccessWord
    ensures { result ≡ spec.access_of terminal }
{
    match terminal {
        Terminal::Word(ReservedWord::Public) => AccessWord::Public,
        Terminal::Word(ReservedWord::Protected) => AccessWord::Protected,
        _ => AccessWord::Private,
    }
}

/// The second word of a key.
pub fn aggregate_of(terminal: Terminal) -> AggregateWord
    ensures { result ≡ spec.aggregate_of terminal }
{
    match terminal {
        Terminal::Word(ReservedWord::Class) => AggregateWord::Class,
        _ => AggregateWord::Struct,
    }
}

/// The visibility that a word gives.
pub fn visibility_of(terminal: Terminal) -> Visibility
    ensures { result ≡ spec.visibility_of terminal }
{
    match terminal {
        Terminal::Word(ReservedWord::Public) => Visibility::Public,
        _ => Visibility::Private,
    }
}

/// The word before a template parameter.
pub fn parameter_word_of(terminal: Terminal) -> ParameterWord
    ensures { result ≡ spec.parameter_word_of terminal }
{
    match terminal {
        Terminal::Word(ReservedWord::Typename) => ParameterWord::Typename,
        _ => ParameterWord::Class,
    }
}

/// The first word of a key.
pub fn class_word_of(word: ContextualWord) -> ClassWord
    ensures { result ≡ spec.class_word_of word }
{
    match word {
        ContextualWord::Ref => ClassWord::Ref,
        ContextualWord::Value => ClassWord::Value,
        _ => ClassWord::Interface,
    }
}

/// The modifier of a class.
pub fn class_modifier_of(word: ContextualWord) -> ClassModifier
    ensures { result ≡ spec.class_modifier_of word }
{
    match word {
        ContextualWord::Abstract => ClassModifier::Abstract,
        _ => ClassModifier::Sealed,
    }
}

/// The accessor that a word is.
pub fn accessor_of(word: ContextualWord) -> AccessorWord
    ensures { result ≡ spec.accessor_of word }
{
    match word {
        ContextualWord::Get => AccessorWord::Get,
        _ => AccessorWord::Set,
    }
}
