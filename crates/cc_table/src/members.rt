// Parts of members.
ghost use Rattle.cc_table.specs.Choice.{Chooses};
ghost use Rattle.cc_table.specs.Table.{rows};

use crate::choice::{Chosen, Row, choose};
use crate::symbols::Symbol::{Act, Back, Non};
use crate::symbols::{Action, Input, Pattern, Sort, Spelled, Take};
use cc_tree::{ContextualWord, NameKind, ReservedWord, Sign};

pub fn parameters(input: Input) -> Option<Chosen>
    ensures { Chooses (rows Sort.Parameters) input result }
{
    choose(
        &[Row {
            on: &[Pattern::Sign(Sign::CloseParenthesis)],
            take: Take::Look,
            part: &[],
        }],
        input,
    )
}

pub fn parameter_name(input: Input) -> Option<Chosen>
    ensures { Chooses (rows Sort.ParameterName) input result }
{
    choose(
        &[Row {
            on: &[Pattern::Id(Spelled::Anyhow)],
            take: Take::Keep,
            part: &[Act(Action::AddNamedParameter)],
        }],
        input,
    )
}

pub fn more_parameters(input: Input) -> Option<Chosen>
    ensures { Chooses (rows Sort.MoreParameters) input result }
{
    choose(
        &[Row {
            on: &[Pattern::Sign(Sign::Comma)],
            take: Take::Drop,
            part: &[
                Non(Sort::Type),
                Non(Sort::ParameterName),
                Non(Sort::MoreParameters),
            ],
        }],
        input,
    )
}

pub fn modifiers(input: Input) -> Option<Chosen>
    ensures { Chooses (rows Sort.Modifiers) input result }
{
    choose(
        &[Row {
            on: &[
                Pattern::Contextual(ContextualWord::Abstract),
                Pattern::Contextual(ContextualWord::Override),
                Pattern::Contextual(ContextualWord::Sealed),
                Pattern::Word(ReservedWord::New),
            ],
            take: Take::Keep,
            part: &[Act(Action::AddModifier), Non(Sort::Modifiers)],
        }],
        input,
    )
}

pub fn overriding(input: Input) -> Option<Chosen>
    ensures { Chooses (rows Sort.Overriding) input result }
{
    choose(
        &[Row {
            on: &[Pattern::Sign(Sign::Assign)],
            take: Take::Drop,
            part: &[Non(Sort::Overridden)],
        }],
        input,
    )
}

pub fn overridden(input: Input) -> Option<Chosen>
    ensures { Chooses (rows Sort.Overridden) input result }
{
    choose(
        &[Row {
            on: &[Pattern::Zero],
            take: Take::Keep,
            part: &[Act(Action::MakePure)],
        }],
        input,
    )
}

pub fn named_accessor(input: Input) -> Option<Chosen>
    ensures { Chooses (rows Sort.NamedAccessor) input result }
{
    choose(
        &[Row {
            on: &[Pattern::Sign(Sign::Scope)],
            take: Take::Drop,
            part: &[Non(Sort::AccessorWord), Act(Action::MakeNamedAccessor)],
        }],
        input,
    )
}

pub fn more_named_functions(input: Input) -> Option<Chosen>
    ensures { Chooses (rows Sort.MoreNamedFunctions) input result }
{
    choose(
        &[Row {
            on: &[Pattern::Sign(Sign::Comma)],
            take: Take::Drop,
            part: &[
                Non(Sort::NamedFunction),
                Act(Action::AddNamedFunction),
                Non(Sort::MoreNamedFunctions),
            ],
        }],
        input,
    )
}

pub fn body(input: Input) -> Option<Chosen>
    ensures { Chooses (rows Sort.Body) input result }
{
    choose(
        &[Row {
            on: &[Pattern::Sign(Sign::Semicolon)],
            take: Take::Keep,
            part: &[Act(Action::NoBody)],
        }],
        input,
    )
}

pub fn accessor(input: Input) -> Option<Chosen>
    ensures { Chooses (rows Sort.Accessor) input result }
{
    choose(
        &[Row {
            on: &[Pattern::Word(ReservedWord::Virtual)],
            take: Take::Keep,
            part: &[
                Non(Sort::Type),
                Non(Sort::AccessorWord),
                Non(Sort::KeptOpenParenthesis),
                Act(Action::StartParameters),
                Non(Sort::Parameters),
                Act(Action::MakeParameters),
                Non(Sort::CloseParenthesis),
                Act(Action::StartModifiers),
                Non(Sort::Modifiers),
                Non(Sort::Overriding),
                Non(Sort::Body),
                Act(Action::MakeAccessor),
            ],
        }],
        input,
    )
}

pub fn accessors(input: Input) -> Option<Chosen>
    ensures { Chooses (rows Sort.Accessors) input result }
{
    choose(
        &[Row {
            on: &[Pattern::Sign(Sign::CloseBrace)],
            take: Take::Look,
            part: &[],
        }],
        input,
    )
}

pub fn initializers(input: Input) -> Option<Chosen>
    ensures { Chooses (rows Sort.Initializers) input result }
{
    choose(
        &[Row {
            on: &[Pattern::Sign(Sign::Colon)],
            take: Take::Drop,
            part: &[
                Act(Action::StartInitializers),
                Non(Sort::Initializer),
                Act(Action::AddInitializer),
                Non(Sort::MoreInitializers),
            ],
        }],
        input,
    )
}

pub fn more_initializers(input: Input) -> Option<Chosen>
    ensures { Chooses (rows Sort.MoreInitializers) input result }
{
    choose(
        &[Row {
            on: &[Pattern::Sign(Sign::Comma)],
            take: Take::Drop,
            part: &[
                Non(Sort::Initializer),
                Act(Action::AddInitializer),
                Non(Sort::MoreInitializers),
            ],
        }],
        input,
    )
}

pub fn initializer(input: Input) -> Option<Chosen>
    ensures { Chooses (rows Sort.Initializer) input result }
{
    choose(
        &[
            Row {
                on: &[Pattern::Name(NameKind::Type)],
                take: Take::Keep,
                part: &[
                    Act(Action::StartPath),
                    Non(Sort::TemplateArguments),
                    Non(Sort::KeptOpenParenthesis),
                    Act(Action::StartExpressions),
                    Non(Sort::Arguments),
                    Act(Action::MakeArguments),
                    Non(Sort::KeptCloseParenthesis),
                    Act(Action::MakeBaseInitializer),
                ],
            },
            Row {
                on: &[Pattern::Id(Spelled::Anyhow)],
                take: Take::Keep,
                part: &[Non(Sort::InitializerName)],
            },
        ],
        input,
    )
}

pub fn initializer_name(input: Input) -> Option<Chosen>
    ensures { Chooses (rows Sort.InitializerName) input result }
{
    choose(
        &[
            Row {
                on: &[Pattern::Sign(Sign::OpenParenthesis)],
                take: Take::Keep,
                part: &[
                    Act(Action::StartExpressions),
                    Non(Sort::Arguments),
                    Act(Action::MakeArguments),
                    Non(Sort::KeptCloseParenthesis),
                    Act(Action::MakeMemberInitializer),
                ],
            },
            Row {
                on: &[Pattern::Sign(Sign::Scope)],
                take: Take::Drop,
                part: &[
                    Act(Action::StartPath),
                    Act(Action::AddToPath),
                    Non(Sort::TypePath),
                    Non(Sort::KeptOpenParenthesis),
                    Act(Action::StartExpressions),
                    Non(Sort::Arguments),
                    Act(Action::MakeArguments),
                    Non(Sort::KeptCloseParenthesis),
                    Act(Action::MakeBaseInitializer),
                ],
            },
        ],
        input,
    )
}

pub fn member_part(input: Input) -> Option<Chosen>
    ensures { Chooses (rows Sort.Member) input result }
{
    choose(
        &[
            Row {
                on: &[
                    Pattern::Word(ReservedWord::Public),
                    Pattern::Word(ReservedWord::Protected),
                    Pattern::Word(ReservedWord::Private),
                ],
                take: Take::Keep,
                part: &[Non(Sort::KeptColon), Act(Action::MakeAccess)],
            },
            Row {
                on: &[Pattern::Word(ReservedWord::Static)],
                take: Take::Keep,
                part: &[Non(Sort::TypeOrProperty), Non(Sort::StaticMember)],
            },
            Row {
                on: &[Pattern::Word(ReservedWord::Virtual)],
                take: Take::Keep,
                part: &[Non(Sort::VirtualStart)],
            },
        ],
        input,
    )
}

pub fn virtual_start(input: Input) -> Option<Chosen>
    ensures { Chooses (rows Sort.VirtualStart) input result }
{
    choose(
        &[Row {
            on: &[Pattern::Sign(Sign::Tilde)],
            take: Take::Keep,
            part: &[
                Non(Sort::OwnName),
                Non(Sort::OpenParenthesis),
                Non(Sort::CloseParenthesis),
                Non(Sort::Block),
                Act(Action::MakeDestructor),
            ],
        }],
        input,
    )
}

pub fn member_start(input: Input) -> Option<Chosen>
    ensures { Chooses (rows Sort.MemberStart) input result }
{
    choose(
        &[
            Row {
                on: &[Pattern::OwnType(Spelled::NotProperty)],
                take: Take::Keep,
                part: &[Non(Sort::OwnTypeEnd), Non(Sort::MemberRest)],
            },
            Row {
                on: &[Pattern::OwnId(Spelled::NotProperty)],
                take: Take::Keep,
                part: &[Non(Sort::OwnNamespaceEnd), Non(Sort::MemberRest)],
            },
            Row {
                on: &[Pattern::OwnType(Spelled::Property)],
                take: Take::Keep,
                part: &[Non(Sort::OwnPropertyTypeEnd), Non(Sort::MemberRest)],
            },
            Row {
                on: &[Pattern::OwnId(Spelled::Property)],
                take: Take::Keep,
                part: &[Non(Sort::OwnPropertyNamespaceEnd), Non(Sort::MemberRest)],
            },
            Row {
                on: &[Pattern::Sign(Sign::Tilde)],
                take: Take::Keep,
                part: &[
                    Non(Sort::OwnName),
                    Non(Sort::OpenParenthesis),
                    Non(Sort::CloseParenthesis),
                    Non(Sort::Block),
                    Act(Action::MakeDestructor),
                ],
            },
            Row {
                on: &[Pattern::Sign(Sign::Exclamation)],
                take: Take::Keep,
                part: &[
                    Non(Sort::OwnName),
                    Non(Sort::OpenParenthesis),
                    Non(Sort::CloseParenthesis),
                    Non(Sort::Block),
                    Act(Action::MakeFinaliser),
                ],
            },
        ],
        input,
    )
}

pub fn own_type_end(input: Input) -> Option<Chosen>
    ensures { Chooses (rows Sort.OwnTypeEnd) input result }
{
    choose(
        &[Row {
            on: &[Pattern::Sign(Sign::OpenParenthesis)],
            take: Take::Look,
            part: &[Back(Input::ConstructorName)],
        }],
        input,
    )
}

pub fn own_namespace_end(input: Input) -> Option<Chosen>
    ensures { Chooses (rows Sort.OwnNamespaceEnd) input result }
{
    choose(
        &[
            Row {
                on: &[Pattern::Sign(Sign::OpenParenthesis)],
                take: Take::Look,
                part: &[Back(Input::ConstructorName)],
            },
            Row {
                on: &[Pattern::Sign(Sign::Scope)],
                take: Take::Drop,
                part: &[
                    Act(Action::StartPath),
                    Act(Action::AddToPath),
                    Non(Sort::TypePath),
                    Back(Input::CoreType),
                ],
            },
        ],
        input,
    )
}

pub fn own_property_type_end(input: Input) -> Option<Chosen>
    ensures { Chooses (rows Sort.OwnPropertyTypeEnd) input result }
{
    choose(
        &[Row {
            on: &[Pattern::Sign(Sign::OpenParenthesis)],
            take: Take::Look,
            part: &[Back(Input::ConstructorName)],
        }],
        input,
    )
}

pub fn own_property_namespace_end(input: Input) -> Option<Chosen>
    ensures { Chooses (rows Sort.OwnPropertyNamespaceEnd) input result }
{
    choose(
        &[Row {
            on: &[Pattern::Sign(Sign::OpenParenthesis)],
            take: Take::Look,
            part: &[Back(Input::ConstructorName)],
        }],
        input,
    )
}

pub fn type_or_property(input: Input) -> Option<Chosen>
    ensures { Chooses (rows Sort.TypeOrProperty) input result }
{
    choose(
        &[
            Row {
                on: &[Pattern::Fundamental],
                take: Take::Look,
                part: &[Non(Sort::Fundamental), Back(Input::CoreType)],
            },
            Row {
                on: &[Pattern::Type(Spelled::NotProperty)],
                take: Take::Keep,
                part: &[
                    Act(Action::StartPath),
                    Non(Sort::TemplateArguments),
                    Back(Input::CoreType),
                ],
            },
            Row {
                on: &[Pattern::Id(Spelled::NotProperty)],
                take: Take::Keep,
                part: &[
                    Act(Action::StartPath),
                    Non(Sort::Scope),
                    Act(Action::AddToPath),
                    Non(Sort::TypePath),
                    Back(Input::CoreType),
                ],
            },
            Row {
                on: &[Pattern::Type(Spelled::Property)],
                take: Take::Keep,
                part: &[Non(Sort::PropertyOrType)],
            },
            Row {
                on: &[Pattern::Id(Spelled::Property)],
                take: Take::Keep,
                part: &[Non(Sort::PropertyOrNamespace)],
            },
        ],
        input,
    )
}

pub fn property_or_type(input: Input) -> Option<Chosen>
    ensures { Chooses (rows Sort.PropertyOrType) input result }
{
    choose(
        &[
            Row {
                on: &[Pattern::Fundamental, Pattern::Name(NameKind::Type)],
                take: Take::Look,
                part: &[
                    Non(Sort::Type),
                    Act(Action::MakePropertyType),
                    Back(Input::PropertyType),
                ],
            },
            Row {
                on: &[Pattern::Id(Spelled::Anyhow)],
                take: Take::Keep,
                part: &[Non(Sort::PropertyTypeOrName)],
            },
        ],
        input,
    )
}

pub fn property_type_or_name(input: Input) -> Option<Chosen>
    ensures { Chooses (rows Sort.PropertyTypeOrName) input result }
{
    choose(
        &[Row {
            on: &[Pattern::Sign(Sign::Scope)],
            take: Take::Drop,
            part: &[
                Act(Action::StartPath),
                Act(Action::AddToPath),
                Non(Sort::TypePath),
                Non(Sort::TypeMarks),
                Act(Action::MakePropertyType),
                Back(Input::PropertyType),
            ],
        }],
        input,
    )
}

pub fn property_or_namespace(input: Input) -> Option<Chosen>
    ensures { Chooses (rows Sort.PropertyOrNamespace) input result }
{
    choose(
        &[Row {
            on: &[Pattern::Sign(Sign::Scope)],
            take: Take::Drop,
            part: &[
                Act(Action::StartPath),
                Act(Action::AddToPath),
                Non(Sort::TypePath),
                Back(Input::CoreType),
            ],
        }],
        input,
    )
}

pub fn member_rest(input: Input) -> Option<Chosen>
    ensures { Chooses (rows Sort.MemberRest) input result }
{
    choose(
        &[
            Row {
                on: &[Pattern::CoreType],
                take: Take::Keep,
                part: &[Non(Sort::TypeMarks), Non(Sort::MemberName)],
            },
            Row {
                on: &[Pattern::PropertyType],
                take: Take::Keep,
                part: &[Non(Sort::PropertyName), Non(Sort::PropertyBody)],
            },
            Row {
                on: &[Pattern::ConstructorName],
                take: Take::Keep,
                part: &[
                    Non(Sort::KeptOpenParenthesis),
                    Act(Action::StartParameters),
                    Non(Sort::Parameters),
                    Act(Action::MakeParameters),
                    Non(Sort::CloseParenthesis),
                    Non(Sort::Initializers),
                    Non(Sort::Block),
                    Act(Action::MakeConstructor),
                ],
            },
        ],
        input,
    )
}

pub fn static_member(input: Input) -> Option<Chosen>
    ensures { Chooses (rows Sort.StaticMember) input result }
{
    choose(
        &[
            Row {
                on: &[Pattern::CoreType],
                take: Take::Keep,
                part: &[Non(Sort::TypeMarks), Non(Sort::MemberName)],
            },
            Row {
                on: &[Pattern::PropertyType],
                take: Take::Keep,
                part: &[Non(Sort::PropertyName), Non(Sort::PropertyBody)],
            },
        ],
        input,
    )
}

pub fn virtual_member(input: Input) -> Option<Chosen>
    ensures { Chooses (rows Sort.VirtualMember) input result }
{
    choose(
        &[
            Row {
                on: &[Pattern::CoreType],
                take: Take::Keep,
                part: &[
                    Non(Sort::TypeMarks),
                    Non(Sort::VirtualName),
                    Non(Sort::KeptOpenParenthesis),
                    Act(Action::StartParameters),
                    Non(Sort::Parameters),
                    Act(Action::MakeParameters),
                    Non(Sort::CloseParenthesis),
                    Act(Action::StartModifiers),
                    Non(Sort::Modifiers),
                    Non(Sort::Overriding),
                    Non(Sort::Body),
                    Act(Action::MakeFunctionMember),
                ],
            },
            Row {
                on: &[Pattern::PropertyType],
                take: Take::Keep,
                part: &[Non(Sort::PropertyName), Non(Sort::PropertyBody)],
            },
        ],
        input,
    )
}

pub fn member_name(input: Input) -> Option<Chosen>
    ensures { Chooses (rows Sort.MemberName) input result }
{
    choose(
        &[Row {
            on: &[Pattern::Id(Spelled::Anyhow), Pattern::DeclaredName],
            take: Take::Keep,
            part: &[Non(Sort::FieldsOrFunction)],
        }],
        input,
    )
}

pub fn virtual_name(input: Input) -> Option<Chosen>
    ensures { Chooses (rows Sort.VirtualName) input result }
{
    choose(
        &[Row {
            on: &[Pattern::Id(Spelled::Anyhow), Pattern::DeclaredName],
            take: Take::Keep,
            part: &[],
        }],
        input,
    )
}

pub fn fields_or_function(input: Input) -> Option<Chosen>
    ensures { Chooses (rows Sort.FieldsOrFunction) input result }
{
    choose(
        &[Row {
            on: &[Pattern::Sign(Sign::OpenParenthesis)],
            take: Take::Look,
            part: &[
                Non(Sort::KeptOpenParenthesis),
                Act(Action::StartParameters),
                Non(Sort::Parameters),
                Act(Action::MakeParameters),
                Non(Sort::CloseParenthesis),
                Act(Action::StartModifiers),
                Non(Sort::Modifiers),
                Non(Sort::Overriding),
                Non(Sort::Body),
                Act(Action::MakeFunctionMember),
            ],
        }],
        input,
    )
}

pub fn field_names(input: Input) -> Option<Chosen>
    ensures { Chooses (rows Sort.FieldNames) input result }
{
    choose(
        &[Row {
            on: &[Pattern::Sign(Sign::Comma)],
            take: Take::Drop,
            part: &[
                Non(Sort::Identifier),
                Act(Action::AddName),
                Non(Sort::FieldNames),
            ],
        }],
        input,
    )
}

pub fn property_name(input: Input) -> Option<Chosen>
    ensures { Chooses (rows Sort.PropertyName) input result }
{
    choose(
        &[
            Row {
                on: &[Pattern::Id(Spelled::Anyhow)],
                take: Take::Keep,
                part: &[Act(Action::NameProperty)],
            },
            Row {
                on: &[Pattern::Word(ReservedWord::Default)],
                take: Take::Keep,
                part: &[
                    Non(Sort::OpenBracket),
                    Non(Sort::Type),
                    Non(Sort::CloseBracket),
                    Act(Action::IndexProperty),
                ],
            },
        ],
        input,
    )
}

pub fn property_body(input: Input) -> Option<Chosen>
    ensures { Chooses (rows Sort.PropertyBody) input result }
{
    choose(
        &[
            Row {
                on: &[Pattern::Sign(Sign::Semicolon)],
                take: Take::Keep,
                part: &[Act(Action::MakeTrivialProperty)],
            },
            Row {
                on: &[Pattern::Sign(Sign::OpenBrace)],
                take: Take::Drop,
                part: &[
                    Act(Action::StartAccessors),
                    Non(Sort::Accessor),
                    Act(Action::AddAccessor),
                    Non(Sort::Accessors),
                    Non(Sort::KeptCloseBrace),
                    Act(Action::MakeProperty),
                ],
            },
        ],
        input,
    )
}

pub fn members(input: Input) -> Option<Chosen>
    ensures { Chooses (rows Sort.Members) input result }
{
    choose(
        &[Row {
            on: &[Pattern::Sign(Sign::CloseBrace)],
            take: Take::Look,
            part: &[],
        }],
        input,
    )
}
