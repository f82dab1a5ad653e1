// Parts of statements.
ghost use Rattle.cc_table.specs.Choice.{Chooses};
ghost use Rattle.cc_table.specs.Table.{rows};

use crate::choice::{Chosen, Row, choose};
use crate::symbols::Symbol::{Act, Non};
use crate::symbols::{Action, Input, Pattern, Sort, Spelled, Take};
use cc_tree::{ContextualWord, ReservedWord, Sign};

pub fn statement(input: Input) -> Option<Chosen>
    ensures { Chooses (rows Sort.Statement) input result }
{
    choose(
        &[
            Row {
                on: &[Pattern::Sign(Sign::OpenBrace)],
                take: Take::Look,
                part: &[Non(Sort::Block), Act(Action::MakeBlockStatement)],
            },
            Row {
                on: &[Pattern::Sign(Sign::Semicolon)],
                take: Take::Keep,
                part: &[Act(Action::MakeEmpty)],
            },
            Row {
                on: &[Pattern::Word(ReservedWord::Delete)],
                take: Take::Keep,
                part: &[
                    Non(Sort::Expression),
                    Non(Sort::KeptSemicolon),
                    Act(Action::MakeDelete),
                ],
            },
            Row {
                on: &[Pattern::Word(ReservedWord::If)],
                take: Take::Keep,
                part: &[
                    Non(Sort::OpenParenthesis),
                    Non(Sort::Expression),
                    Non(Sort::CloseParenthesis),
                    Non(Sort::Statement),
                    Non(Sort::ElseRest),
                ],
            },
            Row {
                on: &[Pattern::Word(ReservedWord::While)],
                take: Take::Keep,
                part: &[
                    Non(Sort::OpenParenthesis),
                    Non(Sort::Expression),
                    Non(Sort::CloseParenthesis),
                    Non(Sort::Statement),
                    Act(Action::MakeWhile),
                ],
            },
            Row {
                on: &[Pattern::Word(ReservedWord::Do)],
                take: Take::Keep,
                part: &[
                    Non(Sort::Statement),
                    Non(Sort::WhileWord),
                    Non(Sort::OpenParenthesis),
                    Non(Sort::Expression),
                    Non(Sort::CloseParenthesis),
                    Non(Sort::KeptSemicolon),
                    Act(Action::MakeDo),
                ],
            },
            Row {
                on: &[Pattern::Word(ReservedWord::For)],
                take: Take::Keep,
                part: &[Non(Sort::ForRest)],
            },
            Row {
                on: &[Pattern::Word(ReservedWord::Switch)],
                take: Take::Keep,
                part: &[
                    Non(Sort::OpenParenthesis),
                    Non(Sort::Expression),
                    Non(Sort::CloseParenthesis),
                    Non(Sort::OpenBrace),
                    Act(Action::StartSections),
                    Non(Sort::Sections),
                    Non(Sort::KeptCloseBrace),
                    Act(Action::MakeSwitch),
                ],
            },
            Row {
                on: &[Pattern::Word(ReservedWord::Break)],
                take: Take::Keep,
                part: &[Non(Sort::KeptSemicolon), Act(Action::MakeBreak)],
            },
            Row {
                on: &[Pattern::Word(ReservedWord::Continue)],
                take: Take::Keep,
                part: &[Non(Sort::KeptSemicolon), Act(Action::MakeContinue)],
            },
            Row {
                on: &[Pattern::Word(ReservedWord::Return)],
                take: Take::Keep,
                part: &[Non(Sort::OptionalExpression), Act(Action::MakeReturn)],
            },
            Row {
                on: &[Pattern::Word(ReservedWord::Throw)],
                take: Take::Keep,
                part: &[Non(Sort::OptionalExpression), Act(Action::MakeThrow)],
            },
            Row {
                on: &[Pattern::Word(ReservedWord::Try)],
                take: Take::Keep,
                part: &[
                    Non(Sort::Block),
                    Act(Action::StartCatches),
                    Non(Sort::TryRest),
                ],
            },
            Row {
                on: &[Pattern::TypeOrName],
                take: Take::Look,
                part: &[Non(Sort::TypeOrName), Non(Sort::LocalOrExpression)],
            },
        ],
        input,
    )
}

pub fn local_or_expression(input: Input) -> Option<Chosen>
    ensures { Chooses (rows Sort.LocalOrExpression) input result }
{
    choose(
        &[Row {
            on: &[Pattern::CoreType],
            take: Take::Keep,
            part: &[
                Non(Sort::TypeMarks),
                Act(Action::StartDeclarators),
                Non(Sort::Declarator),
                Act(Action::AddDeclarator),
                Non(Sort::MoreDeclarators),
                Act(Action::MakeLocal),
                Non(Sort::KeptSemicolon),
                Act(Action::MakeLocalStatement),
            ],
        }],
        input,
    )
}

pub fn block_part(input: Input) -> Option<Chosen>
    ensures { Chooses (rows Sort.Block) input result }
{
    choose(
        &[Row {
            on: &[Pattern::Sign(Sign::OpenBrace)],
            take: Take::Keep,
            part: &[
                Act(Action::StartStatements),
                Non(Sort::Statements),
                Non(Sort::KeptCloseBrace),
                Act(Action::MakeBlock),
            ],
        }],
        input,
    )
}

pub fn statements(input: Input) -> Option<Chosen>
    ensures { Chooses (rows Sort.Statements) input result }
{
    choose(
        &[Row {
            on: &[Pattern::Sign(Sign::CloseBrace)],
            take: Take::Look,
            part: &[],
        }],
        input,
    )
}

pub fn else_rest(input: Input) -> Option<Chosen>
    ensures { Chooses (rows Sort.ElseRest) input result }
{
    choose(
        &[Row {
            on: &[Pattern::Word(ReservedWord::Else)],
            take: Take::Drop,
            part: &[Non(Sort::Statement), Act(Action::MakeIfElse)],
        }],
        input,
    )
}

pub fn for_rest(input: Input) -> Option<Chosen>
    ensures { Chooses (rows Sort.ForRest) input result }
{
    choose(
        &[
            Row {
                on: &[Pattern::Sign(Sign::OpenParenthesis)],
                take: Take::Drop,
                part: &[
                    Non(Sort::ForStart),
                    Non(Sort::OptionalExpression),
                    Non(Sort::ForAdvance),
                    Non(Sort::Statement),
                    Act(Action::MakeFor),
                ],
            },
            Row {
                on: &[Pattern::Contextual(ContextualWord::Each)],
                take: Take::Drop,
                part: &[
                    Non(Sort::OpenParenthesis),
                    Non(Sort::Type),
                    Non(Sort::Identifier),
                    Non(Sort::InWord),
                    Non(Sort::Expression),
                    Non(Sort::CloseParenthesis),
                    Non(Sort::Statement),
                    Act(Action::MakeForEach),
                ],
            },
        ],
        input,
    )
}

pub fn for_start(input: Input) -> Option<Chosen>
    ensures { Chooses (rows Sort.ForStart) input result }
{
    choose(
        &[
            Row {
                on: &[Pattern::Sign(Sign::Semicolon)],
                take: Take::Drop,
                part: &[Act(Action::StartNothing)],
            },
            Row {
                on: &[Pattern::TypeOrName],
                take: Take::Look,
                part: &[Non(Sort::TypeOrName), Non(Sort::LocalOrExpressionStart)],
            },
        ],
        input,
    )
}

pub fn local_or_expression_start(input: Input) -> Option<Chosen>
    ensures { Chooses (rows Sort.LocalOrExpressionStart) input result }
{
    choose(
        &[Row {
            on: &[Pattern::CoreType],
            take: Take::Keep,
            part: &[
                Non(Sort::TypeMarks),
                Act(Action::StartDeclarators),
                Non(Sort::Declarator),
                Act(Action::AddDeclarator),
                Non(Sort::MoreDeclarators),
                Act(Action::MakeLocal),
                Non(Sort::Semicolon),
                Act(Action::StartLocal),
            ],
        }],
        input,
    )
}

pub fn optional_expression(input: Input) -> Option<Chosen>
    ensures { Chooses (rows Sort.OptionalExpression) input result }
{
    choose(
        &[Row {
            on: &[Pattern::Sign(Sign::Semicolon)],
            take: Take::Keep,
            part: &[Act(Action::NoExpression)],
        }],
        input,
    )
}

pub fn for_advance(input: Input) -> Option<Chosen>
    ensures { Chooses (rows Sort.ForAdvance) input result }
{
    choose(
        &[Row {
            on: &[Pattern::Sign(Sign::CloseParenthesis)],
            take: Take::Keep,
            part: &[Act(Action::NoExpression)],
        }],
        input,
    )
}

pub fn sections(input: Input) -> Option<Chosen>
    ensures { Chooses (rows Sort.Sections) input result }
{
    choose(
        &[Row {
            on: &[Pattern::Sign(Sign::CloseBrace)],
            take: Take::Look,
            part: &[],
        }],
        input,
    )
}

pub fn label(input: Input) -> Option<Chosen>
    ensures { Chooses (rows Sort.Label) input result }
{
    choose(
        &[
            Row {
                on: &[Pattern::Word(ReservedWord::Case)],
                take: Take::Keep,
                part: &[
                    Non(Sort::Expression),
                    Non(Sort::KeptColon),
                    Act(Action::MakeCase),
                ],
            },
            Row {
                on: &[Pattern::Word(ReservedWord::Default)],
                take: Take::Keep,
                part: &[Non(Sort::KeptColon), Act(Action::MakeDefault)],
            },
        ],
        input,
    )
}

pub fn more_labels(input: Input) -> Option<Chosen>
    ensures { Chooses (rows Sort.MoreLabels) input result }
{
    choose(
        &[Row {
            on: &[
                Pattern::Word(ReservedWord::Case),
                Pattern::Word(ReservedWord::Default),
            ],
            take: Take::Look,
            part: &[
                Non(Sort::Label),
                Act(Action::AddLabel),
                Non(Sort::MoreLabels),
            ],
        }],
        input,
    )
}

pub fn section_statements(input: Input) -> Option<Chosen>
    ensures { Chooses (rows Sort.SectionStatements) input result }
{
    choose(
        &[Row {
            on: &[
                Pattern::Word(ReservedWord::Case),
                Pattern::Word(ReservedWord::Default),
                Pattern::Sign(Sign::CloseBrace),
            ],
            take: Take::Look,
            part: &[],
        }],
        input,
    )
}

pub fn try_rest(input: Input) -> Option<Chosen>
    ensures { Chooses (rows Sort.TryRest) input result }
{
    choose(
        &[
            Row {
                on: &[Pattern::Word(ReservedWord::Catch)],
                take: Take::Look,
                part: &[Non(Sort::Catch), Non(Sort::MoreCatches)],
            },
            Row {
                on: &[Pattern::Word(ReservedWord::Finally)],
                take: Take::Drop,
                part: &[Non(Sort::Block), Act(Action::MakeTryFinally)],
            },
        ],
        input,
    )
}

pub fn more_catches(input: Input) -> Option<Chosen>
    ensures { Chooses (rows Sort.MoreCatches) input result }
{
    choose(
        &[
            Row {
                on: &[Pattern::Word(ReservedWord::Catch)],
                take: Take::Look,
                part: &[Non(Sort::Catch), Non(Sort::MoreCatches)],
            },
            Row {
                on: &[Pattern::Word(ReservedWord::Finally)],
                take: Take::Drop,
                part: &[Non(Sort::Block), Act(Action::MakeTryFinally)],
            },
        ],
        input,
    )
}

pub fn catch(input: Input) -> Option<Chosen>
    ensures { Chooses (rows Sort.Catch) input result }
{
    choose(
        &[Row {
            on: &[Pattern::Word(ReservedWord::Catch)],
            take: Take::Drop,
            part: &[
                Non(Sort::OpenParenthesis),
                Non(Sort::Caught),
                Non(Sort::CloseParenthesis),
                Non(Sort::Block),
                Act(Action::AddCatch),
            ],
        }],
        input,
    )
}

pub fn caught(input: Input) -> Option<Chosen>
    ensures { Chooses (rows Sort.Caught) input result }
{
    choose(
        &[Row {
            on: &[Pattern::Sign(Sign::Ellipsis)],
            take: Take::Keep,
            part: &[Act(Action::CatchAll)],
        }],
        input,
    )
}

pub fn caught_name(input: Input) -> Option<Chosen>
    ensures { Chooses (rows Sort.CaughtName) input result }
{
    choose(
        &[Row {
            on: &[Pattern::Id(Spelled::Anyhow)],
            take: Take::Keep,
            part: &[Act(Action::CatchNamed)],
        }],
        input,
    )
}

pub fn declarator(input: Input) -> Option<Chosen>
    ensures { Chooses (rows Sort.Declarator) input result }
{
    choose(
        &[Row {
            on: &[Pattern::Id(Spelled::Anyhow)],
            take: Take::Keep,
            part: &[Non(Sort::DeclaratorRest)],
        }],
        input,
    )
}

pub fn declarator_rest(input: Input) -> Option<Chosen>
    ensures { Chooses (rows Sort.DeclaratorRest) input result }
{
    choose(
        &[
            Row {
                on: &[Pattern::Sign(Sign::Assign)],
                take: Take::Drop,
                part: &[Non(Sort::DeclaratorValue)],
            },
            Row {
                on: &[Pattern::Sign(Sign::OpenParenthesis)],
                take: Take::Drop,
                part: &[
                    Act(Action::StartExpressions),
                    Non(Sort::Expression),
                    Act(Action::AddExpression),
                    Non(Sort::MoreExpressions),
                    Non(Sort::KeptCloseParenthesis),
                    Act(Action::MakeDeclaratorArguments),
                ],
            },
        ],
        input,
    )
}

pub fn declarator_value(input: Input) -> Option<Chosen>
    ensures { Chooses (rows Sort.DeclaratorValue) input result }
{
    choose(
        &[Row {
            on: &[Pattern::Sign(Sign::OpenBrace)],
            take: Take::Keep,
            part: &[
                Act(Action::StartExpressions),
                Non(Sort::Arguments),
                Act(Action::MakeArguments),
                Non(Sort::KeptCloseBrace),
                Act(Action::MakeDeclaratorElements),
            ],
        }],
        input,
    )
}

pub fn more_declarators(input: Input) -> Option<Chosen>
    ensures { Chooses (rows Sort.MoreDeclarators) input result }
{
    choose(
        &[Row {
            on: &[Pattern::Sign(Sign::Comma)],
            take: Take::Drop,
            part: &[
                Non(Sort::Declarator),
                Act(Action::AddDeclarator),
                Non(Sort::MoreDeclarators),
            ],
        }],
        input,
    )
}
