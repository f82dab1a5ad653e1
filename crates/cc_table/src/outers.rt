// Parts of what stands outside classes, and of classes and enums.
ghost use Rattle.cc_table.specs.Choice.{Chooses};
ghost use Rattle.cc_table.specs.Table.{rows};

use crate::choice::{Chosen, Row, choose};
use crate::symbols::Symbol::{Act, Non};
use crate::symbols::{Action, Input, Pattern, Sort, Spelled, Take};
use cc_tree::{ContextualWord, ReservedWord, Sign};

pub fn unit_rest(input: Input) -> Option<Chosen>
    ensures { Chooses (rows Sort.UnitRest) input result }
{
    choose(
        &[Row {
            on: &[Pattern::Any],
            take: Take::Look,
            part: &[Non(Sort::Outer), Act(Action::AddOuter), Non(Sort::UnitRest)],
        }],
        input,
    )
}

pub fn outers(input: Input) -> Option<Chosen>
    ensures { Chooses (rows Sort.Outers) input result }
{
    choose(
        &[Row {
            on: &[Pattern::Sign(Sign::CloseBrace)],
            take: Take::Look,
            part: &[],
        }],
        input,
    )
}

pub fn outer_part(input: Input) -> Option<Chosen>
    ensures { Chooses (rows Sort.Outer) input result }
{
    choose(
        &[
            Row {
                on: &[Pattern::Word(ReservedWord::Using)],
                take: Take::Keep,
                part: &[
                    Non(Sort::NamespaceWord),
                    Non(Sort::Identifier),
                    Act(Action::FirstName),
                    Non(Sort::NamespaceNames),
                    Non(Sort::KeptSemicolon),
                    Act(Action::MakeUsing),
                ],
            },
            Row {
                on: &[Pattern::Word(ReservedWord::Namespace)],
                take: Take::Keep,
                part: &[
                    Non(Sort::Identifier),
                    Non(Sort::OpenBrace),
                    Act(Action::StartOuters),
                    Non(Sort::Outers),
                    Non(Sort::KeptCloseBrace),
                    Act(Action::MakeNamespace),
                ],
            },
            Row {
                on: &[
                    Pattern::Word(ReservedWord::Public),
                    Pattern::Word(ReservedWord::Private),
                ],
                take: Take::Keep,
                part: &[Non(Sort::VisibleRest)],
            },
            Row {
                on: &[Pattern::Word(ReservedWord::Enum)],
                take: Take::Look,
                part: &[Non(Sort::Enumeration), Act(Action::MakeOuterEnumeration)],
            },
            Row {
                on: &[Pattern::Word(ReservedWord::Template)],
                take: Take::Keep,
                part: &[
                    Non(Sort::Less),
                    Act(Action::StartTemplateParameters),
                    Non(Sort::TemplateParameter),
                    Act(Action::AddTemplateParameter),
                    Non(Sort::MoreTemplateParameters),
                    Non(Sort::Greater),
                    Non(Sort::TemplateRest),
                ],
            },
            Row {
                on: &[Pattern::Id(Spelled::Key)],
                take: Take::Keep,
                part: &[Non(Sort::KeyOrNamespace)],
            },
            Row {
                on: &[Pattern::Type(Spelled::Key)],
                take: Take::Keep,
                part: &[Non(Sort::KeyOrType)],
            },
        ],
        input,
    )
}

pub fn namespace_names(input: Input) -> Option<Chosen>
    ensures { Chooses (rows Sort.NamespaceNames) input result }
{
    choose(
        &[Row {
            on: &[Pattern::Sign(Sign::Scope)],
            take: Take::Drop,
            part: &[
                Non(Sort::Identifier),
                Act(Action::AddName),
                Non(Sort::NamespaceNames),
            ],
        }],
        input,
    )
}

pub fn key_or_namespace(input: Input) -> Option<Chosen>
    ensures { Chooses (rows Sort.KeyOrNamespace) input result }
{
    choose(
        &[
            Row {
                on: &[
                    Pattern::Word(ReservedWord::Class),
                    Pattern::Word(ReservedWord::Struct),
                ],
                take: Take::Keep,
                part: &[
                    Act(Action::MakeKey),
                    Non(Sort::AnyName),
                    Non(Sort::ForwardOrClass),
                ],
            },
            Row {
                on: &[Pattern::Sign(Sign::Scope)],
                take: Take::Drop,
                part: &[
                    Act(Action::StartPath),
                    Act(Action::AddToPath),
                    Non(Sort::TypePath),
                    Non(Sort::TypeMarks),
                    Non(Sort::FunctionRest),
                    Act(Action::MakeOuterFunction),
                ],
            },
        ],
        input,
    )
}

pub fn key_or_type(input: Input) -> Option<Chosen>
    ensures { Chooses (rows Sort.KeyOrType) input result }
{
    choose(
        &[Row {
            on: &[
                Pattern::Word(ReservedWord::Class),
                Pattern::Word(ReservedWord::Struct),
            ],
            take: Take::Keep,
            part: &[
                Act(Action::MakeKey),
                Non(Sort::AnyName),
                Non(Sort::ForwardOrClass),
            ],
        }],
        input,
    )
}

pub fn forward_or_class(input: Input) -> Option<Chosen>
    ensures { Chooses (rows Sort.ForwardOrClass) input result }
{
    choose(
        &[Row {
            on: &[Pattern::Sign(Sign::Semicolon)],
            take: Take::Keep,
            part: &[Act(Action::MakeForward)],
        }],
        input,
    )
}

pub fn class_modifiers(input: Input) -> Option<Chosen>
    ensures { Chooses (rows Sort.ClassModifiers) input result }
{
    choose(
        &[Row {
            on: &[
                Pattern::Contextual(ContextualWord::Abstract),
                Pattern::Contextual(ContextualWord::Sealed),
            ],
            take: Take::Keep,
            part: &[Act(Action::AddClassModifier), Non(Sort::ClassModifiers)],
        }],
        input,
    )
}

pub fn bases(input: Input) -> Option<Chosen>
    ensures { Chooses (rows Sort.Bases) input result }
{
    choose(
        &[Row {
            on: &[Pattern::Sign(Sign::Colon)],
            take: Take::Drop,
            part: &[
                Act(Action::StartBases),
                Non(Sort::Base),
                Act(Action::AddBase),
                Non(Sort::MoreBases),
            ],
        }],
        input,
    )
}

pub fn base(input: Input) -> Option<Chosen>
    ensures { Chooses (rows Sort.Base) input result }
{
    choose(
        &[Row {
            on: &[Pattern::Word(ReservedWord::Public)],
            take: Take::Keep,
            part: &[Non(Sort::NamedType), Act(Action::MakePublicBase)],
        }],
        input,
    )
}

pub fn more_bases(input: Input) -> Option<Chosen>
    ensures { Chooses (rows Sort.MoreBases) input result }
{
    choose(
        &[Row {
            on: &[Pattern::Sign(Sign::Comma)],
            take: Take::Drop,
            part: &[Non(Sort::Base), Act(Action::AddBase), Non(Sort::MoreBases)],
        }],
        input,
    )
}

pub fn visible_rest(input: Input) -> Option<Chosen>
    ensures { Chooses (rows Sort.VisibleRest) input result }
{
    choose(
        &[
            Row {
                on: &[Pattern::Id(Spelled::Key), Pattern::Type(Spelled::Key)],
                take: Take::Keep,
                part: &[
                    Non(Sort::AggregateWord),
                    Act(Action::MakeKey),
                    Non(Sort::AnyName),
                    Non(Sort::ClassRest),
                    Act(Action::MakeVisibleClass),
                ],
            },
            Row {
                on: &[Pattern::Word(ReservedWord::Enum)],
                take: Take::Look,
                part: &[Non(Sort::Enumeration), Act(Action::MakeVisibleEnumeration)],
            },
        ],
        input,
    )
}

pub fn template_rest(input: Input) -> Option<Chosen>
    ensures { Chooses (rows Sort.TemplateRest) input result }
{
    choose(
        &[
            Row {
                on: &[Pattern::Id(Spelled::Key)],
                take: Take::Keep,
                part: &[Non(Sort::TemplateKeyOrNamespace)],
            },
            Row {
                on: &[Pattern::Type(Spelled::Key)],
                take: Take::Keep,
                part: &[Non(Sort::TemplateKeyOrType)],
            },
        ],
        input,
    )
}

pub fn template_key_or_namespace(input: Input) -> Option<Chosen>
    ensures { Chooses (rows Sort.TemplateKeyOrNamespace) input result }
{
    choose(
        &[
            Row {
                on: &[
                    Pattern::Word(ReservedWord::Class),
                    Pattern::Word(ReservedWord::Struct),
                ],
                take: Take::Keep,
                part: &[
                    Act(Action::MakeKey),
                    Non(Sort::AnyName),
                    Non(Sort::ClassRest),
                    Act(Action::MakeTemplateClass),
                    Act(Action::MakeOuterTemplate),
                ],
            },
            Row {
                on: &[Pattern::Sign(Sign::Scope)],
                take: Take::Drop,
                part: &[
                    Act(Action::StartPath),
                    Act(Action::AddToPath),
                    Non(Sort::TypePath),
                    Non(Sort::TypeMarks),
                    Non(Sort::FunctionRest),
                    Act(Action::MakeTemplateFunction),
                    Act(Action::MakeOuterTemplate),
                ],
            },
        ],
        input,
    )
}

pub fn template_key_or_type(input: Input) -> Option<Chosen>
    ensures { Chooses (rows Sort.TemplateKeyOrType) input result }
{
    choose(
        &[Row {
            on: &[
                Pattern::Word(ReservedWord::Class),
                Pattern::Word(ReservedWord::Struct),
            ],
            take: Take::Keep,
            part: &[
                Act(Action::MakeKey),
                Non(Sort::AnyName),
                Non(Sort::ClassRest),
                Act(Action::MakeTemplateClass),
                Act(Action::MakeOuterTemplate),
            ],
        }],
        input,
    )
}

pub fn enumeration(input: Input) -> Option<Chosen>
    ensures { Chooses (rows Sort.Enumeration) input result }
{
    choose(
        &[Row {
            on: &[Pattern::Word(ReservedWord::Enum)],
            take: Take::Keep,
            part: &[
                Non(Sort::AggregateWord),
                Non(Sort::AnyName),
                Non(Sort::OpenBrace),
                Act(Action::StartEnumerators),
                Non(Sort::Enumerators),
                Non(Sort::CloseBrace),
                Non(Sort::KeptSemicolon),
                Act(Action::MakeEnumeration),
            ],
        }],
        input,
    )
}

pub fn enumerators(input: Input) -> Option<Chosen>
    ensures { Chooses (rows Sort.Enumerators) input result }
{
    choose(
        &[Row {
            on: &[Pattern::Sign(Sign::CloseBrace)],
            take: Take::Look,
            part: &[],
        }],
        input,
    )
}

pub fn more_enumerators(input: Input) -> Option<Chosen>
    ensures { Chooses (rows Sort.MoreEnumerators) input result }
{
    choose(
        &[Row {
            on: &[Pattern::Sign(Sign::Comma)],
            take: Take::Drop,
            part: &[Non(Sort::Enumerators)],
        }],
        input,
    )
}

pub fn enumerator(input: Input) -> Option<Chosen>
    ensures { Chooses (rows Sort.Enumerator) input result }
{
    choose(
        &[Row {
            on: &[Pattern::Id(Spelled::Anyhow)],
            take: Take::Keep,
            part: &[Non(Sort::EnumeratorRest)],
        }],
        input,
    )
}

pub fn enumerator_rest(input: Input) -> Option<Chosen>
    ensures { Chooses (rows Sort.EnumeratorRest) input result }
{
    choose(
        &[Row {
            on: &[Pattern::Sign(Sign::Assign)],
            take: Take::Drop,
            part: &[Non(Sort::EnumeratorNumber)],
        }],
        input,
    )
}

pub fn enumerator_number(input: Input) -> Option<Chosen>
    ensures { Chooses (rows Sort.EnumeratorNumber) input result }
{
    choose(
        &[
            Row {
                on: &[Pattern::Sign(Sign::Minus)],
                take: Take::Keep,
                part: &[Non(Sort::NumberToken), Act(Action::MakeEnumeratorNegative)],
            },
            Row {
                on: &[Pattern::Number, Pattern::Zero],
                take: Take::Keep,
                part: &[Act(Action::MakeEnumeratorValue)],
            },
        ],
        input,
    )
}

pub fn template_parameter(input: Input) -> Option<Chosen>
    ensures { Chooses (rows Sort.TemplateParameter) input result }
{
    choose(
        &[Row {
            on: &[
                Pattern::Word(ReservedWord::Typename),
                Pattern::Word(ReservedWord::Class),
            ],
            take: Take::Keep,
            part: &[Non(Sort::AnyName), Act(Action::MakeTemplateParameter)],
        }],
        input,
    )
}

pub fn more_template_parameters(input: Input) -> Option<Chosen>
    ensures { Chooses (rows Sort.MoreTemplateParameters) input result }
{
    choose(
        &[Row {
            on: &[Pattern::Sign(Sign::Comma)],
            take: Take::Drop,
            part: &[
                Non(Sort::TemplateParameter),
                Act(Action::AddTemplateParameter),
                Non(Sort::MoreTemplateParameters),
            ],
        }],
        input,
    )
}
