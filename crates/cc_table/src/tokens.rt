// Parts that are one token.
ghost use Rattle.cc_table.specs.Choice.{Chooses};
ghost use Rattle.cc_table.specs.Table.{rows};

use crate::choice::{Chosen, Row, choose};
use crate::symbols::{Input, Pattern, Sort, Spelled, Take};
use cc_tree::{ContextualWord, ReservedWord, Sign};

pub fn open_parenthesis(input: Input) -> Option<Chosen>
    ensures { Chooses (rows Sort.OpenParenthesis) input result }
{
    choose(
        &[Row {
            on: &[Pattern::Sign(Sign::OpenParenthesis)],
            take: Take::Drop,
            part: &[],
        }],
        input,
    )
}

pub fn close_parenthesis(input: Input) -> Option<Chosen>
    ensures { Chooses (rows Sort.CloseParenthesis) input result }
{
    choose(
        &[Row {
            on: &[Pattern::Sign(Sign::CloseParenthesis)],
            take: Take::Drop,
            part: &[],
        }],
        input,
    )
}

pub fn open_brace(input: Input) -> Option<Chosen>
    ensures { Chooses (rows Sort.OpenBrace) input result }
{
    choose(
        &[Row {
            on: &[Pattern::Sign(Sign::OpenBrace)],
            take: Take::Drop,
            part: &[],
        }],
        input,
    )
}

pub fn open_bracket(input: Input) -> Option<Chosen>
    ensures { Chooses (rows Sort.OpenBracket) input result }
{
    choose(
        &[Row {
            on: &[Pattern::Sign(Sign::OpenBracket)],
            take: Take::Drop,
            part: &[],
        }],
        input,
    )
}

pub fn close_bracket(input: Input) -> Option<Chosen>
    ensures { Chooses (rows Sort.CloseBracket) input result }
{
    choose(
        &[Row {
            on: &[Pattern::Sign(Sign::CloseBracket)],
            take: Take::Drop,
            part: &[],
        }],
        input,
    )
}

pub fn close_brace(input: Input) -> Option<Chosen>
    ensures { Chooses (rows Sort.CloseBrace) input result }
{
    choose(
        &[Row {
            on: &[Pattern::Sign(Sign::CloseBrace)],
            take: Take::Drop,
            part: &[],
        }],
        input,
    )
}

pub fn less(input: Input) -> Option<Chosen>
    ensures { Chooses (rows Sort.Less) input result }
{
    choose(
        &[Row {
            on: &[Pattern::Sign(Sign::Less)],
            take: Take::Drop,
            part: &[],
        }],
        input,
    )
}

pub fn greater(input: Input) -> Option<Chosen>
    ensures { Chooses (rows Sort.Greater) input result }
{
    choose(
        &[Row {
            on: &[Pattern::Sign(Sign::Greater)],
            take: Take::Drop,
            part: &[],
        }],
        input,
    )
}

pub fn colon(input: Input) -> Option<Chosen>
    ensures { Chooses (rows Sort.Colon) input result }
{
    choose(
        &[Row {
            on: &[Pattern::Sign(Sign::Colon)],
            take: Take::Drop,
            part: &[],
        }],
        input,
    )
}

pub fn semicolon(input: Input) -> Option<Chosen>
    ensures { Chooses (rows Sort.Semicolon) input result }
{
    choose(
        &[Row {
            on: &[Pattern::Sign(Sign::Semicolon)],
            take: Take::Drop,
            part: &[],
        }],
        input,
    )
}

pub fn scope(input: Input) -> Option<Chosen>
    ensures { Chooses (rows Sort.Scope) input result }
{
    choose(
        &[Row {
            on: &[Pattern::Sign(Sign::Scope)],
            take: Take::Drop,
            part: &[],
        }],
        input,
    )
}

pub fn namespace_word(input: Input) -> Option<Chosen>
    ensures { Chooses (rows Sort.NamespaceWord) input result }
{
    choose(
        &[Row {
            on: &[Pattern::Word(ReservedWord::Namespace)],
            take: Take::Drop,
            part: &[],
        }],
        input,
    )
}

pub fn while_word(input: Input) -> Option<Chosen>
    ensures { Chooses (rows Sort.WhileWord) input result }
{
    choose(
        &[Row {
            on: &[Pattern::Word(ReservedWord::While)],
            take: Take::Drop,
            part: &[],
        }],
        input,
    )
}

pub fn in_word(input: Input) -> Option<Chosen>
    ensures { Chooses (rows Sort.InWord) input result }
{
    choose(
        &[Row {
            on: &[Pattern::Contextual(ContextualWord::In)],
            take: Take::Drop,
            part: &[],
        }],
        input,
    )
}

pub fn kept_open_parenthesis(input: Input) -> Option<Chosen>
    ensures { Chooses (rows Sort.KeptOpenParenthesis) input result }
{
    choose(
        &[Row {
            on: &[Pattern::Sign(Sign::OpenParenthesis)],
            take: Take::Keep,
            part: &[],
        }],
        input,
    )
}

pub fn kept_close_parenthesis(input: Input) -> Option<Chosen>
    ensures { Chooses (rows Sort.KeptCloseParenthesis) input result }
{
    choose(
        &[Row {
            on: &[Pattern::Sign(Sign::CloseParenthesis)],
            take: Take::Keep,
            part: &[],
        }],
        input,
    )
}

pub fn kept_close_brace(input: Input) -> Option<Chosen>
    ensures { Chooses (rows Sort.KeptCloseBrace) input result }
{
    choose(
        &[Row {
            on: &[Pattern::Sign(Sign::CloseBrace)],
            take: Take::Keep,
            part: &[],
        }],
        input,
    )
}

pub fn kept_close_bracket(input: Input) -> Option<Chosen>
    ensures { Chooses (rows Sort.KeptCloseBracket) input result }
{
    choose(
        &[Row {
            on: &[Pattern::Sign(Sign::CloseBracket)],
            take: Take::Keep,
            part: &[],
        }],
        input,
    )
}

pub fn kept_semicolon(input: Input) -> Option<Chosen>
    ensures { Chooses (rows Sort.KeptSemicolon) input result }
{
    choose(
        &[Row {
            on: &[Pattern::Sign(Sign::Semicolon)],
            take: Take::Keep,
            part: &[],
        }],
        input,
    )
}

pub fn kept_colon(input: Input) -> Option<Chosen>
    ensures { Chooses (rows Sort.KeptColon) input result }
{
    choose(
        &[Row {
            on: &[Pattern::Sign(Sign::Colon)],
            take: Take::Keep,
            part: &[],
        }],
        input,
    )
}

pub fn kept_greater(input: Input) -> Option<Chosen>
    ensures { Chooses (rows Sort.KeptGreater) input result }
{
    choose(
        &[Row {
            on: &[Pattern::Sign(Sign::Greater)],
            take: Take::Keep,
            part: &[],
        }],
        input,
    )
}

pub fn kept_less(input: Input) -> Option<Chosen>
    ensures { Chooses (rows Sort.KeptLess) input result }
{
    choose(
        &[Row {
            on: &[Pattern::Sign(Sign::Less)],
            take: Take::Keep,
            part: &[],
        }],
        input,
    )
}

pub fn identifier(input: Input) -> Option<Chosen>
    ensures { Chooses (rows Sort.Identifier) input result }
{
    choose(
        &[Row {
            on: &[Pattern::Id(Spelled::Anyhow)],
            take: Take::Keep,
            part: &[],
        }],
        input,
    )
}

pub fn any_name(input: Input) -> Option<Chosen>
    ensures { Chooses (rows Sort.AnyName) input result }
{
    choose(
        &[Row {
            on: &[Pattern::AnyName],
            take: Take::Keep,
            part: &[],
        }],
        input,
    )
}

pub fn own_name(input: Input) -> Option<Chosen>
    ensures { Chooses (rows Sort.OwnName) input result }
{
    choose(
        &[Row {
            on: &[Pattern::Own],
            take: Take::Keep,
            part: &[],
        }],
        input,
    )
}

pub fn number_token(input: Input) -> Option<Chosen>
    ensures { Chooses (rows Sort.NumberToken) input result }
{
    choose(
        &[Row {
            on: &[Pattern::Number, Pattern::Zero],
            take: Take::Keep,
            part: &[],
        }],
        input,
    )
}

pub fn aggregate_word(input: Input) -> Option<Chosen>
    ensures { Chooses (rows Sort.AggregateWord) input result }
{
    choose(
        &[Row {
            on: &[
                Pattern::Word(ReservedWord::Class),
                Pattern::Word(ReservedWord::Struct),
            ],
            take: Take::Keep,
            part: &[],
        }],
        input,
    )
}

pub fn accessor_word(input: Input) -> Option<Chosen>
    ensures { Chooses (rows Sort.AccessorWord) input result }
{
    choose(
        &[Row {
            on: &[
                Pattern::Contextual(ContextualWord::Get),
                Pattern::Contextual(ContextualWord::Set),
            ],
            take: Take::Keep,
            part: &[],
        }],
        input,
    )
}
