// Parts of types and of names with their namespaces.
ghost use Rattle.cc_table.specs.Choice.{Chooses};
ghost use Rattle.cc_table.specs.Table.{rows};

use crate::choice::{Chosen, Row, choose};
use crate::symbols::Symbol::{Act, Back, Non};
use crate::symbols::{Action, Input, Pattern, Sort, Spelled, Take};
use cc_tree::{FundamentalType, NameKind, ReservedWord, Sign};

pub fn fundamental(input: Input) -> Option<Chosen>
    ensures { Chooses (rows Sort.Fundamental) input result }
{
    choose(
        &[
            Row {
                on: &[Pattern::Word(ReservedWord::Void)],
                take: Take::Keep,
                part: &[Act(Action::Fundamental(FundamentalType::Void))],
            },
            Row {
                on: &[Pattern::Word(ReservedWord::Bool)],
                take: Take::Keep,
                part: &[Act(Action::Fundamental(FundamentalType::Bool))],
            },
            Row {
                on: &[Pattern::Word(ReservedWord::WideChar)],
                take: Take::Keep,
                part: &[Act(Action::Fundamental(FundamentalType::WideChar))],
            },
            Row {
                on: &[Pattern::Word(ReservedWord::Int)],
                take: Take::Keep,
                part: &[Act(Action::Fundamental(FundamentalType::Int))],
            },
            Row {
                on: &[Pattern::Word(ReservedWord::Short)],
                take: Take::Keep,
                part: &[
                    Non(Sort::OptionalInt),
                    Act(Action::Fundamental(FundamentalType::Short)),
                ],
            },
            Row {
                on: &[Pattern::Word(ReservedWord::Signed)],
                take: Take::Keep,
                part: &[Non(Sort::SignedRest)],
            },
            Row {
                on: &[Pattern::Word(ReservedWord::Unsigned)],
                take: Take::Keep,
                part: &[Non(Sort::UnsignedRest)],
            },
            Row {
                on: &[Pattern::Word(ReservedWord::Long)],
                take: Take::Keep,
                part: &[
                    Non(Sort::LongWord),
                    Non(Sort::OptionalInt),
                    Act(Action::Fundamental(FundamentalType::LongLong)),
                ],
            },
        ],
        input,
    )
}

pub fn signed_rest(input: Input) -> Option<Chosen>
    ensures { Chooses (rows Sort.SignedRest) input result }
{
    choose(
        &[
            Row {
                on: &[Pattern::Word(ReservedWord::Char)],
                take: Take::Keep,
                part: &[
                    Act(Action::JoinMarks),
                    Act(Action::Fundamental(FundamentalType::SignedChar)),
                ],
            },
            Row {
                on: &[Pattern::Word(ReservedWord::Short)],
                take: Take::Keep,
                part: &[
                    Act(Action::JoinMarks),
                    Non(Sort::OptionalInt),
                    Act(Action::Fundamental(FundamentalType::Short)),
                ],
            },
            Row {
                on: &[Pattern::Word(ReservedWord::Int)],
                take: Take::Keep,
                part: &[
                    Act(Action::JoinMarks),
                    Act(Action::Fundamental(FundamentalType::Int)),
                ],
            },
            Row {
                on: &[Pattern::Word(ReservedWord::Long)],
                take: Take::Keep,
                part: &[
                    Act(Action::JoinMarks),
                    Non(Sort::LongWord),
                    Non(Sort::OptionalInt),
                    Act(Action::Fundamental(FundamentalType::LongLong)),
                ],
            },
        ],
        input,
    )
}

pub fn unsigned_rest(input: Input) -> Option<Chosen>
    ensures { Chooses (rows Sort.UnsignedRest) input result }
{
    choose(
        &[
            Row {
                on: &[Pattern::Word(ReservedWord::Char)],
                take: Take::Keep,
                part: &[
                    Act(Action::JoinMarks),
                    Act(Action::Fundamental(FundamentalType::UnsignedChar)),
                ],
            },
            Row {
                on: &[Pattern::Word(ReservedWord::Short)],
                take: Take::Keep,
                part: &[
                    Act(Action::JoinMarks),
                    Non(Sort::OptionalInt),
                    Act(Action::Fundamental(FundamentalType::UnsignedShort)),
                ],
            },
            Row {
                on: &[Pattern::Word(ReservedWord::Int)],
                take: Take::Keep,
                part: &[
                    Act(Action::JoinMarks),
                    Act(Action::Fundamental(FundamentalType::UnsignedInt)),
                ],
            },
            Row {
                on: &[Pattern::Word(ReservedWord::Long)],
                take: Take::Keep,
                part: &[
                    Act(Action::JoinMarks),
                    Non(Sort::LongWord),
                    Non(Sort::OptionalInt),
                    Act(Action::Fundamental(FundamentalType::UnsignedLongLong)),
                ],
            },
        ],
        input,
    )
}

pub fn optional_int(input: Input) -> Option<Chosen>
    ensures { Chooses (rows Sort.OptionalInt) input result }
{
    choose(
        &[Row {
            on: &[Pattern::Word(ReservedWord::Int)],
            take: Take::Keep,
            part: &[Act(Action::JoinMarks)],
        }],
        input,
    )
}

pub fn long_word(input: Input) -> Option<Chosen>
    ensures { Chooses (rows Sort.LongWord) input result }
{
    choose(
        &[Row {
            on: &[Pattern::Word(ReservedWord::Long)],
            take: Take::Keep,
            part: &[Act(Action::JoinMarks)],
        }],
        input,
    )
}

pub fn type_part(input: Input) -> Option<Chosen>
    ensures { Chooses (rows Sort.Type) input result }
{
    choose(
        &[Row {
            on: &[Pattern::Fundamental],
            take: Take::Look,
            part: &[Non(Sort::Fundamental), Non(Sort::TypeMarks)],
        }],
        input,
    )
}

pub fn type_marks(input: Input) -> Option<Chosen>
    ensures { Chooses (rows Sort.TypeMarks) input result }
{
    choose(
        &[
            Row {
                on: &[Pattern::Sign(Sign::Caret)],
                take: Take::Keep,
                part: &[Non(Sort::HandleRest)],
            },
            Row {
                on: &[Pattern::Sign(Sign::Percent)],
                take: Take::Keep,
                part: &[Act(Action::MakeTracking)],
            },
        ],
        input,
    )
}

pub fn handle_rest(input: Input) -> Option<Chosen>
    ensures { Chooses (rows Sort.HandleRest) input result }
{
    choose(
        &[Row {
            on: &[Pattern::Sign(Sign::Percent)],
            take: Take::Keep,
            part: &[Act(Action::MakeHandleTracking)],
        }],
        input,
    )
}

pub fn named_type(input: Input) -> Option<Chosen>
    ensures { Chooses (rows Sort.NamedType) input result }
{
    choose(
        &[
            Row {
                on: &[Pattern::Name(NameKind::Type)],
                take: Take::Keep,
                part: &[Act(Action::StartPath), Non(Sort::TemplateArguments)],
            },
            Row {
                on: &[Pattern::Id(Spelled::Anyhow)],
                take: Take::Keep,
                part: &[
                    Act(Action::StartPath),
                    Non(Sort::Scope),
                    Act(Action::AddToPath),
                    Non(Sort::TypePath),
                ],
            },
        ],
        input,
    )
}

pub fn type_path(input: Input) -> Option<Chosen>
    ensures { Chooses (rows Sort.TypePath) input result }
{
    choose(
        &[
            Row {
                on: &[Pattern::Name(NameKind::Type)],
                take: Take::Keep,
                part: &[Act(Action::EndPath), Non(Sort::TemplateArguments)],
            },
            Row {
                on: &[Pattern::Id(Spelled::Anyhow)],
                take: Take::Keep,
                part: &[
                    Act(Action::EndPath),
                    Non(Sort::Scope),
                    Act(Action::AddToPath),
                    Non(Sort::TypePath),
                ],
            },
        ],
        input,
    )
}

pub fn template_arguments(input: Input) -> Option<Chosen>
    ensures { Chooses (rows Sort.TemplateArguments) input result }
{
    choose(
        &[Row {
            on: &[Pattern::Sign(Sign::Less)],
            take: Take::Keep,
            part: &[
                Act(Action::StartTypes),
                Non(Sort::Type),
                Act(Action::AddType),
                Non(Sort::MoreTypes),
                Non(Sort::KeptGreater),
                Act(Action::MakeApplied),
            ],
        }],
        input,
    )
}

pub fn more_types(input: Input) -> Option<Chosen>
    ensures { Chooses (rows Sort.MoreTypes) input result }
{
    choose(
        &[Row {
            on: &[Pattern::Sign(Sign::Comma)],
            take: Take::Drop,
            part: &[Non(Sort::Type), Act(Action::AddType), Non(Sort::MoreTypes)],
        }],
        input,
    )
}

pub fn type_or_name(input: Input) -> Option<Chosen>
    ensures { Chooses (rows Sort.TypeOrName) input result }
{
    choose(
        &[
            Row {
                on: &[Pattern::Fundamental],
                take: Take::Look,
                part: &[Non(Sort::Fundamental), Non(Sort::CoreEnd)],
            },
            Row {
                on: &[Pattern::Name(NameKind::Type)],
                take: Take::Keep,
                part: &[
                    Act(Action::StartPath),
                    Non(Sort::TemplateArguments),
                    Non(Sort::CoreEnd),
                ],
            },
            Row {
                on: &[Pattern::Name(NameKind::Plain)],
                take: Take::Keep,
                part: &[Act(Action::StartPath), Non(Sort::NameEnd)],
            },
            Row {
                on: &[Pattern::Name(NameKind::Function)],
                take: Take::Keep,
                part: &[Act(Action::StartPath), Non(Sort::FunctionNameEnd)],
            },
        ],
        input,
    )
}

pub fn name_end(input: Input) -> Option<Chosen>
    ensures { Chooses (rows Sort.NameEnd) input result }
{
    choose(
        &[Row {
            on: &[Pattern::Sign(Sign::Scope)],
            take: Take::Drop,
            part: &[Act(Action::AddToPath), Non(Sort::PathRest)],
        }],
        input,
    )
}

pub fn function_name_end(input: Input) -> Option<Chosen>
    ensures { Chooses (rows Sort.FunctionNameEnd) input result }
{
    choose(
        &[Row {
            on: &[Pattern::Sign(Sign::Scope)],
            take: Take::Drop,
            part: &[Act(Action::AddToPath), Non(Sort::PathRest)],
        }],
        input,
    )
}

pub fn path_rest(input: Input) -> Option<Chosen>
    ensures { Chooses (rows Sort.PathRest) input result }
{
    choose(
        &[
            Row {
                on: &[Pattern::Name(NameKind::Type)],
                take: Take::Keep,
                part: &[
                    Act(Action::EndPath),
                    Non(Sort::TemplateArguments),
                    Non(Sort::CoreEnd),
                ],
            },
            Row {
                on: &[Pattern::Name(NameKind::Plain)],
                take: Take::Keep,
                part: &[Act(Action::EndPath), Non(Sort::NameEnd)],
            },
            Row {
                on: &[Pattern::Name(NameKind::Function)],
                take: Take::Keep,
                part: &[Act(Action::EndPath), Non(Sort::FunctionNameEnd)],
            },
        ],
        input,
    )
}

pub fn core_end(input: Input) -> Option<Chosen>
    ensures { Chooses (rows Sort.CoreEnd) input result }
{
    choose(
        &[Row {
            on: &[
                Pattern::Sign(Sign::Scope),
                Pattern::Sign(Sign::OpenParenthesis),
            ],
            take: Take::Look,
            part: &[Back(Input::OperandType)],
        }],
        input,
    )
}
