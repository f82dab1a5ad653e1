// The kinds of refusals of a source, with their numbers and names.
ghost use Rattle.std.specs.Prelude.{◌≡◌};
ghost use Rattle.cc_base.specs.Kinds.{kind_number, kind_name};

/// Why a source is refused. Numbers leave room between the phases that refuse.
#[derive(Clone, Copy, Debug, PartialEq, Eq)]
pub enum Kind {
    /// 1: a byte that begins no token, blank or comment.
    BadByte,
    /// 2: a number, escape or character that is none of the language.
    BadLiteral,
    /// 3: a comment without an end.
    UnclosedComment,
    /// 4: a string or character that meets the end of its line or of the text.
    UnclosedText,
    /// 5: a number that no type holds.
    NumberTooWide,
    /// 6: a directive line other than those that are skipped.
    Directive,
    /// 7: more than 1,048,576 bytes.
    SourceTooLong,
    /// 9: a form of the language that this version does not build.
    NotYet,
    /// 10: a token that cannot stand at its place.
    Syntax,
    /// 11: a construct nested over 256 deep.
    TooDeep,
    /// 12: a word of C++/CLI that the profile leaves out.
    OutsideProfile,
    /// 13: a native pointer, reference or array.
    NativePointer,
    /// 14: a floating-point type.
    FloatType,
    /// 15: a native class or an `extern` declaration.
    MixedMode,
    /// 20: a second declaration of a name.
    Duplicate,
    /// 21: a type, namespace or forward declaration that names nothing.
    UnknownName,
    /// 22: a type that cannot be formed there.
    NotAType,
    /// 23: a base through which a class reaches itself.
    CyclicBase,
    /// 24: a base that cannot be derived from.
    SealedBase,
    /// 25: a member that disposal reserves, or that cannot stand in such a class.
    ReservedMember,
    /// 26: no `main`, or one of another form.
    BadMain,
    /// 30: template arguments of a wrong count, or none.
    WrongArguments,
    /// 31: template arguments that nest instances over 64 deep.
    TemplateDepth,
    /// 32: more than 200,000 nodes, or 20,000 in a function.
    TooManyNodes,
    /// 40: an override without a function to override.
    NothingToOverride,
    /// 41: an override of a sealed function.
    SealedFunction,
    /// 42: a slot that two members of a class take.
    SlotTwice,
    /// 43: a function without the body that it needs, or a body that it must not have.
    MissingImplementation,
    /// 44: an override with another result or access.
    WrongResult,
    /// 50: an operand, value or term that does not fit its place.
    NoConversion,
    /// 51: a call without a viable function.
    NoOverload,
    /// 52: a call without a best function.
    AmbiguousCall,
    /// 53: a target that is no place.
    NotAssignable,
    /// 54: a member that is not accessible there.
    NotAccessible,
    /// 55: a `break`, `continue`, label or declaration that cannot stand there.
    BadBreak,
    /// 56: a function with a result whose end can be reached.
    MissingReturn,
    /// 57: a class that stack semantics cannot have.
    NotForStack,
    /// 58: an object of an abstract class, or a call of a function without a body.
    AbstractNew,
    /// 59: a catch or rethrow that cannot stand there.
    BadCatch,
    /// 60: a type argument that does not meet a constraint.
    ConstraintUnmet,
    /// 61: a format that is none, or does not fit its values.
    BadFormat,
    /// 62: over 250 arguments of a call.
    TooManyArguments,
    /// 63: a name that no scope or class declares.
    UnknownMember,
}

impl Kind {
    /// The number that a note shows, from 1 to 63.
    pub fn number(&self) -> u32
        ensures { result ≡ kind_number self.now }
    {
        match self {
            Kind::BadByte => 1,
            Kind::BadLiteral => 2,
            Kind::UnclosedComment => 3,
            Kind::UnclosedText => 4,
            Kind::NumberTooWide => 5,
            Kind::Directive => 6,
            Kind::SourceTooLong => 7,
            Kind::NotYet => 9,
            Kind::Syntax => 10,
            Kind::TooDeep => 11,
            Kind::OutsideProfile => 12,
            Kind::NativePointer => 13,
            Kind::FloatType => 14,
            Kind::MixedMode => 15,
            Kind::Duplicate => 20,
            Kind::UnknownName => 21,
            Kind::NotAType => 22,
            Kind::CyclicBase => 23,
            Kind::SealedBase => 24,
            Kind::ReservedMember => 25,
            Kind::BadMain => 26,
            Kind::WrongArguments => 30,
            Kind::TemplateDepth => 31,
            Kind::TooManyNodes => 32,
            Kind::NothingToOverride => 40,
            Kind::SealedFunction => 41,
            Kind::SlotTwice => 42,
            Kind::MissingImplementation => 43,
            Kind::WrongResult => 44,
            Kind::NoConversion => 50,
            Kind::NoOverload => 51,
            Kind::AmbiguousCall => 52,
            Kind::NotAssignable => 53,
            Kind::NotAccessible => 54,
            Kind::BadBreak => 55,
            Kind::MissingReturn => 56,
            Kind::NotForStack => 57,
            Kind::AbstractNew => 58,
            Kind::BadCatch => 59,
            Kind::ConstraintUnmet => 60,
            Kind::BadFormat => 61,
            Kind::TooManyArguments => 62,
            Kind::UnknownMember => 63,
        }
    }

    /// The name that a note shows.
    pub fn name(&self) -> &'static str
        ensures { result.now ≡ kind_name self.now }
    {
        match self {
            Kind::BadByte => "BadByte",
            Kind::BadLiteral => "BadLiteral",
            Kind::UnclosedComment => "UnclosedComment",
            Kind::UnclosedText => "UnclosedText",
            Kind::NumberTooWide => "NumberTooWide",
            Kind::Directive => "Directive",
            Kind::SourceTooLong => "SourceTooLong",
            Kind::NotYet => "NotYet",
            Kind::Syntax => "Syntax",
            Kind::TooDeep => "TooDeep",
            Kind::OutsideProfile => "OutsideProfile",
            Kind::NativePointer => "NativePointer",
            Kind::FloatType => "FloatType",
            Kind::MixedMode => "MixedMode",
            Kind::Duplicate => "Duplicate",
            Kind::UnknownName => "UnknownName",
            Kind::NotAType => "NotAType",
            Kind::CyclicBase => "CyclicBase",
            Kind::SealedBase => "SealedBase",
            Kind::ReservedMember => "ReservedMember",
            Kind::BadMain => "BadMain",
            Kind::WrongArguments => "WrongArguments",
            Kind::TemplateDepth => "TemplateDepth",
            Kind::TooManyNodes => "TooManyNodes",
            Kind::NothingToOverride => "NothingToOverride",
            Kind::SealedFunction => "SealedFunction",
            Kind::SlotTwice => "SlotTwice",
            Kind::MissingImplementation => "MissingImplementation",
            Kind::WrongResult => "WrongResult",
            Kind::NoConversion => "NoConversion",
            Kind::NoOverload => "NoOverload",
            Kind::AmbiguousCall => "AmbiguousCall",
            Kind::NotAssignable => "NotAssignable",
            Kind::NotAccessible => "NotAccessible",
            Kind::BadBreak => "BadBreak",
            Kind::MissingReturn => "MissingReturn",
            Kind::NotForStack => "NotForStack",
            Kind::AbstractNew => "AbstractNew",
            Kind::BadCatch => "BadCatch",
            Kind::ConstraintUnmet => "ConstraintUnmet",
            Kind::BadFormat => "BadFormat",
            Kind::TooManyArguments => "TooManyArguments",
            Kind::UnknownMember => "UnknownMember",
        }
    }
}
