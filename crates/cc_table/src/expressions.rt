// Parts of expressions.
ghost use Rattle.cc_table.specs.Choice.{Chooses};
ghost use Rattle.cc_table.specs.Table.{rows};

use crate::choice::{Chosen, Row, choose};
use crate::symbols::Symbol::{Act, Back, Non};
use crate::symbols::{Action, Input, Pattern, Sort, Spelled, Take};
use cc_tree::{NameKind, ReservedWord, Sign};

pub fn after_unary(input: Input) -> Option<Chosen>
    ensures { Chooses (rows Sort.AfterUnary) input result }
{
    choose(
        &[Row {
            on: &[Pattern::Assignment],
            take: Take::Keep,
            part: &[Non(Sort::Expression), Act(Action::MakeAssignment)],
        }],
        input,
    )
}

pub fn conditional_rest(input: Input) -> Option<Chosen>
    ensures { Chooses (rows Sort.ConditionalRest) input result }
{
    choose(
        &[Row {
            on: &[Pattern::Sign(Sign::Question)],
            take: Take::Drop,
            part: &[
                Non(Sort::Expression),
                Non(Sort::Colon),
                Non(Sort::Expression),
                Act(Action::MakeConditional),
            ],
        }],
        input,
    )
}

pub fn greater_end(input: Input) -> Option<Chosen>
    ensures { Chooses (rows Sort.GreaterEnd) input result }
{
    choose(
        &[Row {
            on: &[Pattern::TouchingGreater],
            take: Take::Keep,
            part: &[Act(Action::JoinMarks), Back(Input::ShiftRight)],
        }],
        input,
    )
}

pub fn unary(input: Input) -> Option<Chosen>
    ensures { Chooses (rows Sort.Unary) input result }
{
    choose(
        &[
            Row {
                on: &[Pattern::Prefix],
                take: Take::Keep,
                part: &[Non(Sort::Unary), Act(Action::MakePrefix)],
            },
            Row {
                on: &[Pattern::Sign(Sign::OpenParenthesis)],
                take: Take::Keep,
                part: &[Non(Sort::AfterParenthesis)],
            },
            Row {
                on: &[Pattern::TypeOrName],
                take: Take::Look,
                part: &[
                    Non(Sort::TypeOrName),
                    Non(Sort::Operand),
                    Non(Sort::SuffixRest),
                ],
            },
            Row {
                on: &[
                    Pattern::QualifiedPlain,
                    Pattern::QualifiedFunction,
                    Pattern::OperandType,
                ],
                take: Take::Look,
                part: &[Non(Sort::Operand), Non(Sort::SuffixRest)],
            },
            Row {
                on: &[Pattern::Number, Pattern::Zero],
                take: Take::Keep,
                part: &[Act(Action::MakeNumber), Non(Sort::SuffixRest)],
            },
            Row {
                on: &[Pattern::Character],
                take: Take::Keep,
                part: &[Act(Action::MakeCharacter), Non(Sort::SuffixRest)],
            },
            Row {
                on: &[Pattern::Literal],
                take: Take::Keep,
                part: &[
                    Act(Action::StartTexts),
                    Non(Sort::StringsRest),
                    Act(Action::MakeStrings),
                    Non(Sort::SuffixRest),
                ],
            },
            Row {
                on: &[Pattern::Word(ReservedWord::True)],
                take: Take::Keep,
                part: &[Act(Action::MakeTrue), Non(Sort::SuffixRest)],
            },
            Row {
                on: &[Pattern::Word(ReservedWord::False)],
                take: Take::Keep,
                part: &[Act(Action::MakeFalse), Non(Sort::SuffixRest)],
            },
            Row {
                on: &[Pattern::Word(ReservedWord::Nullptr)],
                take: Take::Keep,
                part: &[Act(Action::MakeNullptr), Non(Sort::SuffixRest)],
            },
            Row {
                on: &[Pattern::Word(ReservedWord::This)],
                take: Take::Keep,
                part: &[Act(Action::MakeThis), Non(Sort::SuffixRest)],
            },
            Row {
                on: &[Pattern::Word(ReservedWord::Gcnew)],
                take: Take::Keep,
                part: &[Non(Sort::NewName), Non(Sort::SuffixRest)],
            },
            Row {
                on: &[
                    Pattern::Word(ReservedWord::SafeCast),
                    Pattern::Word(ReservedWord::StaticCast),
                    Pattern::Word(ReservedWord::DynamicCast),
                ],
                take: Take::Keep,
                part: &[
                    Non(Sort::Less),
                    Non(Sort::Type),
                    Non(Sort::Greater),
                    Non(Sort::OpenParenthesis),
                    Non(Sort::Expression),
                    Non(Sort::KeptCloseParenthesis),
                    Act(Action::MakeNamedCast),
                    Non(Sort::SuffixRest),
                ],
            },
        ],
        input,
    )
}

pub fn operand(input: Input) -> Option<Chosen>
    ensures { Chooses (rows Sort.Operand) input result }
{
    choose(
        &[
            Row {
                on: &[Pattern::QualifiedPlain],
                take: Take::Keep,
                part: &[Act(Action::MakeName)],
            },
            Row {
                on: &[Pattern::QualifiedFunction],
                take: Take::Keep,
                part: &[Non(Sort::FunctionNameRest)],
            },
            Row {
                on: &[Pattern::OperandType],
                take: Take::Keep,
                part: &[Non(Sort::TypeOperandRest)],
            },
        ],
        input,
    )
}

pub fn type_operand_rest(input: Input) -> Option<Chosen>
    ensures { Chooses (rows Sort.TypeOperandRest) input result }
{
    choose(
        &[
            Row {
                on: &[Pattern::Sign(Sign::Scope)],
                take: Take::Drop,
                part: &[Non(Sort::Identifier), Act(Action::MakeStaticMember)],
            },
            Row {
                on: &[Pattern::Sign(Sign::OpenParenthesis)],
                take: Take::Keep,
                part: &[
                    Act(Action::StartExpressions),
                    Non(Sort::Arguments),
                    Act(Action::MakeArguments),
                    Non(Sort::KeptCloseParenthesis),
                    Act(Action::MakeConstruct),
                ],
            },
        ],
        input,
    )
}

pub fn function_name_rest(input: Input) -> Option<Chosen>
    ensures { Chooses (rows Sort.FunctionNameRest) input result }
{
    choose(
        &[Row {
            on: &[Pattern::Sign(Sign::Less)],
            take: Take::Keep,
            part: &[Non(Sort::AfterNameLess)],
        }],
        input,
    )
}

pub fn after_name_less(input: Input) -> Option<Chosen>
    ensures { Chooses (rows Sort.AfterNameLess) input result }
{
    choose(
        &[Row {
            on: &[Pattern::TypeOrName],
            take: Take::Look,
            part: &[Non(Sort::TypeOrName), Non(Sort::NameTypes)],
        }],
        input,
    )
}

pub fn name_types(input: Input) -> Option<Chosen>
    ensures { Chooses (rows Sort.NameTypes) input result }
{
    choose(
        &[Row {
            on: &[Pattern::CoreType],
            take: Take::Keep,
            part: &[
                Non(Sort::TypeMarks),
                Act(Action::FirstType),
                Non(Sort::MoreTypes),
                Non(Sort::KeptGreater),
                Act(Action::MakeTypeArguments),
                Act(Action::MakeNameOf),
            ],
        }],
        input,
    )
}

pub fn strings_rest(input: Input) -> Option<Chosen>
    ensures { Chooses (rows Sort.StringsRest) input result }
{
    choose(
        &[Row {
            on: &[Pattern::Literal],
            take: Take::Keep,
            part: &[Act(Action::AddText), Non(Sort::StringsRest)],
        }],
        input,
    )
}

pub fn after_parenthesis(input: Input) -> Option<Chosen>
    ensures { Chooses (rows Sort.AfterParenthesis) input result }
{
    choose(
        &[Row {
            on: &[Pattern::TypeOrName],
            take: Take::Look,
            part: &[Non(Sort::TypeOrName), Non(Sort::CastOrGroup)],
        }],
        input,
    )
}

pub fn cast_or_group(input: Input) -> Option<Chosen>
    ensures { Chooses (rows Sort.CastOrGroup) input result }
{
    choose(
        &[Row {
            on: &[Pattern::CoreType],
            take: Take::Keep,
            part: &[
                Non(Sort::TypeMarks),
                Non(Sort::CloseParenthesis),
                Non(Sort::Unary),
                Act(Action::MakeCast),
            ],
        }],
        input,
    )
}

pub fn suffix_rest(input: Input) -> Option<Chosen>
    ensures { Chooses (rows Sort.SuffixRest) input result }
{
    choose(
        &[
            Row {
                on: &[Pattern::Sign(Sign::OpenBracket)],
                take: Take::Drop,
                part: &[
                    Non(Sort::Expression),
                    Non(Sort::KeptCloseBracket),
                    Act(Action::MakeIndex),
                    Non(Sort::SuffixRest),
                ],
            },
            Row {
                on: &[Pattern::Sign(Sign::OpenParenthesis)],
                take: Take::Keep,
                part: &[
                    Act(Action::StartExpressions),
                    Non(Sort::Arguments),
                    Act(Action::MakeArguments),
                    Non(Sort::KeptCloseParenthesis),
                    Act(Action::MakeCall),
                    Non(Sort::SuffixRest),
                ],
            },
            Row {
                on: &[Pattern::Sign(Sign::Dot), Pattern::Sign(Sign::Arrow)],
                take: Take::Keep,
                part: &[Non(Sort::Selected), Non(Sort::SuffixRest)],
            },
            Row {
                on: &[
                    Pattern::Sign(Sign::Increment),
                    Pattern::Sign(Sign::Decrement),
                ],
                take: Take::Keep,
                part: &[Act(Action::MakePostfix), Non(Sort::SuffixRest)],
            },
        ],
        input,
    )
}

pub fn selected(input: Input) -> Option<Chosen>
    ensures { Chooses (rows Sort.Selected) input result }
{
    choose(
        &[
            Row {
                on: &[Pattern::Name(NameKind::Plain)],
                take: Take::Keep,
                part: &[Act(Action::MakeMember)],
            },
            Row {
                on: &[Pattern::Name(NameKind::Function)],
                take: Take::Keep,
                part: &[Non(Sort::FunctionMemberRest)],
            },
            Row {
                on: &[Pattern::Sign(Sign::Exclamation)],
                take: Take::Drop,
                part: &[Non(Sort::AnyName), Act(Action::MakeFinaliserName)],
            },
        ],
        input,
    )
}

pub fn function_member_rest(input: Input) -> Option<Chosen>
    ensures { Chooses (rows Sort.FunctionMemberRest) input result }
{
    choose(
        &[Row {
            on: &[Pattern::Sign(Sign::Less)],
            take: Take::Keep,
            part: &[Non(Sort::AfterMemberLess)],
        }],
        input,
    )
}

pub fn after_member_less(input: Input) -> Option<Chosen>
    ensures { Chooses (rows Sort.AfterMemberLess) input result }
{
    choose(
        &[Row {
            on: &[Pattern::TypeOrName],
            take: Take::Look,
            part: &[Non(Sort::TypeOrName), Non(Sort::MemberTypes)],
        }],
        input,
    )
}

pub fn member_types(input: Input) -> Option<Chosen>
    ensures { Chooses (rows Sort.MemberTypes) input result }
{
    choose(
        &[Row {
            on: &[Pattern::CoreType],
            take: Take::Keep,
            part: &[
                Non(Sort::TypeMarks),
                Act(Action::FirstType),
                Non(Sort::MoreTypes),
                Non(Sort::KeptGreater),
                Act(Action::MakeTypeArguments),
                Act(Action::MakeMemberOf),
            ],
        }],
        input,
    )
}

pub fn arguments(input: Input) -> Option<Chosen>
    ensures { Chooses (rows Sort.Arguments) input result }
{
    choose(
        &[
            Row {
                on: &[Pattern::Sign(Sign::CloseParenthesis)],
                take: Take::Look,
                part: &[],
            },
            Row {
                on: &[Pattern::Sign(Sign::CloseBrace)],
                take: Take::Look,
                part: &[],
            },
        ],
        input,
    )
}

pub fn more_expressions(input: Input) -> Option<Chosen>
    ensures { Chooses (rows Sort.MoreExpressions) input result }
{
    choose(
        &[Row {
            on: &[Pattern::Sign(Sign::Comma)],
            take: Take::Drop,
            part: &[
                Non(Sort::Expression),
                Act(Action::AddExpression),
                Non(Sort::MoreExpressions),
            ],
        }],
        input,
    )
}

pub fn new_name(input: Input) -> Option<Chosen>
    ensures { Chooses (rows Sort.NewName) input result }
{
    choose(
        &[
            Row {
                on: &[Pattern::Name(NameKind::Type)],
                take: Take::Keep,
                part: &[Act(Action::StartPath), Non(Sort::NewTypeRest)],
            },
            Row {
                on: &[Pattern::Id(Spelled::Anyhow)],
                take: Take::Keep,
                part: &[
                    Act(Action::StartPath),
                    Non(Sort::Scope),
                    Act(Action::AddToPath),
                    Non(Sort::NewPath),
                ],
            },
        ],
        input,
    )
}

pub fn new_path(input: Input) -> Option<Chosen>
    ensures { Chooses (rows Sort.NewPath) input result }
{
    choose(
        &[
            Row {
                on: &[Pattern::Name(NameKind::Type)],
                take: Take::Keep,
                part: &[Act(Action::EndPath), Non(Sort::NewTypeRest)],
            },
            Row {
                on: &[Pattern::Id(Spelled::Anyhow)],
                take: Take::Keep,
                part: &[
                    Act(Action::EndPath),
                    Non(Sort::Scope),
                    Act(Action::AddToPath),
                    Non(Sort::NewPath),
                ],
            },
        ],
        input,
    )
}

pub fn new_type_rest(input: Input) -> Option<Chosen>
    ensures { Chooses (rows Sort.NewTypeRest) input result }
{
    choose(
        &[Row {
            on: &[Pattern::Sign(Sign::Less)],
            take: Take::Keep,
            part: &[Non(Sort::AfterNewLess)],
        }],
        input,
    )
}

pub fn after_new_less(input: Input) -> Option<Chosen>
    ensures { Chooses (rows Sort.AfterNewLess) input result }
{
    choose(
        &[Row {
            on: &[Pattern::TypeOrName],
            take: Take::Look,
            part: &[Non(Sort::TypeOrName), Non(Sort::NewTypes)],
        }],
        input,
    )
}

pub fn new_types(input: Input) -> Option<Chosen>
    ensures { Chooses (rows Sort.NewTypes) input result }
{
    choose(
        &[Row {
            on: &[Pattern::CoreType],
            take: Take::Keep,
            part: &[
                Non(Sort::TypeMarks),
                Act(Action::FirstType),
                Non(Sort::MoreTypes),
                Non(Sort::KeptGreater),
                Act(Action::MakeApplied),
                Non(Sort::NewArguments),
            ],
        }],
        input,
    )
}

pub fn new_arguments(input: Input) -> Option<Chosen>
    ensures { Chooses (rows Sort.NewArguments) input result }
{
    choose(
        &[
            Row {
                on: &[Pattern::Sign(Sign::OpenParenthesis)],
                take: Take::Keep,
                part: &[
                    Act(Action::StartExpressions),
                    Non(Sort::Arguments),
                    Act(Action::MakeArguments),
                    Non(Sort::KeptCloseParenthesis),
                    Non(Sort::NewElements),
                ],
            },
            Row {
                on: &[Pattern::Sign(Sign::OpenBrace)],
                take: Take::Keep,
                part: &[
                    Act(Action::StartExpressions),
                    Non(Sort::Arguments),
                    Act(Action::MakeArguments),
                    Non(Sort::KeptCloseBrace),
                    Act(Action::MakeNewOf),
                ],
            },
        ],
        input,
    )
}

pub fn new_elements(input: Input) -> Option<Chosen>
    ensures { Chooses (rows Sort.NewElements) input result }
{
    choose(
        &[Row {
            on: &[Pattern::Sign(Sign::OpenBrace)],
            take: Take::Keep,
            part: &[
                Act(Action::StartExpressions),
                Non(Sort::Arguments),
                Act(Action::MakeArguments),
                Non(Sort::KeptCloseBrace),
                Act(Action::MakeNewWithOf),
            ],
        }],
        input,
    )
}
