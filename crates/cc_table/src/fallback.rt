// What a part is at an input for which it has no row.
ghost use Rattle.std.specs.Prelude.{◌≡◌, MatchOption, Some, None};
ghost use Rattle.cc_table.specs.Table as spec;

use crate::symbols::Symbol::{Act, Back, Non};
use crate::symbols::{Action, Input, Sort, Symbol};
use cc_tree::{FundamentalType, Sign, Terminal};

/// What a part is at an input for which it has no row, and at the end. `None`: it must begin with one of its rows.
pub fn otherwise(sort: Sort) -> Option<&'static [Symbol]>
    ensures { MatchOption result (spec.otherwise sort ≡ None) (λ part. spec.otherwise sort ≡ Some part.now) }
{
    match sort {
        Sort::OptionalInt
        | Sort::TypeMarks
        | Sort::MoreTypes
        | Sort::ConditionalRest
        | Sort::BinaryRest(_)
        | Sort::StringsRest
        | Sort::SuffixRest
        | Sort::MoreExpressions
        | Sort::MoreLabels
        | Sort::MoreDeclarators
        | Sort::MoreParameters
        | Sort::Modifiers
        | Sort::MoreNamedFunctions
        | Sort::MoreInitializers
        | Sort::FieldNames
        | Sort::UnitRest
        | Sort::NamespaceNames
        | Sort::ClassModifiers
        | Sort::MoreBases
        | Sort::MoreEnumerators
        | Sort::MoreTemplateParameters => Some(&[]),
        Sort::UnsignedRest => Some(&[Act(Action::Fundamental(FundamentalType::UnsignedInt))]),
        Sort::Type => Some(&[Non(Sort::NamedType), Non(Sort::TypeMarks)]),
        Sort::HandleRest => Some(&[Act(Action::MakeHandle)]),
        Sort::TemplateArguments => Some(&[Act(Action::MakeNamed)]),
        Sort::NameEnd => Some(&[Back(Input::QualifiedPlain)]),
        Sort::FunctionNameEnd => Some(&[Back(Input::QualifiedFunction)]),
        Sort::CoreEnd => Some(&[Back(Input::CoreType)]),
        Sort::Expression => Some(&[Non(Sort::Unary), Non(Sort::AfterUnary)]),
        Sort::AfterUnary => Some(&[Non(Sort::BinaryRest(1)), Non(Sort::ConditionalRest)]),
        Sort::GreaterEnd => Some(&[Back(Input::RelationalGreater)]),
        Sort::FunctionNameRest => Some(&[Act(Action::MakeName)]),
        Sort::AfterNameLess => Some(&[
            Back(Input::Token(Terminal::Sign(Sign::Less))),
            Act(Action::MakeName),
        ]),
        Sort::NameTypes => Some(&[
            Back(Input::Token(Terminal::Sign(Sign::Less))),
            Act(Action::MakeName),
        ]),
        Sort::AfterParenthesis => Some(&[
            Non(Sort::Expression),
            Non(Sort::KeptCloseParenthesis),
            Act(Action::MakeGroup),
            Non(Sort::SuffixRest),
        ]),
        Sort::CastOrGroup => Some(&[
            Non(Sort::Expression),
            Non(Sort::KeptCloseParenthesis),
            Act(Action::MakeGroup),
            Non(Sort::SuffixRest),
        ]),
        Sort::FunctionMemberRest => Some(&[Act(Action::MakeMember)]),
        Sort::AfterMemberLess => Some(&[
            Back(Input::Token(Terminal::Sign(Sign::Less))),
            Act(Action::MakeMember),
        ]),
        Sort::MemberTypes => Some(&[
            Back(Input::Token(Terminal::Sign(Sign::Less))),
            Act(Action::MakeMember),
        ]),
        Sort::Arguments => Some(&[
            Non(Sort::Expression),
            Act(Action::AddExpression),
            Non(Sort::MoreExpressions),
        ]),
        Sort::NewTypeRest => Some(&[Act(Action::MakeNamed), Non(Sort::NewArguments)]),
        Sort::AfterNewLess => Some(&[
            Back(Input::Token(Terminal::Sign(Sign::Less))),
            Act(Action::MakeNamed),
            Act(Action::MakeNew),
        ]),
        Sort::NewTypes => Some(&[
            Back(Input::Token(Terminal::Sign(Sign::Less))),
            Act(Action::MakeNamed),
            Act(Action::MakeNew),
        ]),
        Sort::NewArguments => Some(&[Act(Action::MakeNew)]),
        Sort::NewElements => Some(&[Act(Action::MakeNewWith)]),
        Sort::Statement => Some(&[
            Non(Sort::Expression),
            Non(Sort::KeptSemicolon),
            Act(Action::MakeExpressionStatement),
        ]),
        Sort::LocalOrExpression => Some(&[
            Non(Sort::Expression),
            Non(Sort::KeptSemicolon),
            Act(Action::MakeExpressionStatement),
        ]),
        Sort::Statements => Some(&[
            Non(Sort::Statement),
            Act(Action::AddStatement),
            Non(Sort::Statements),
        ]),
        Sort::ElseRest => Some(&[Act(Action::MakeIf)]),
        Sort::ForStart => Some(&[
            Non(Sort::Expression),
            Non(Sort::Semicolon),
            Act(Action::StartExpression),
        ]),
        Sort::LocalOrExpressionStart => Some(&[
            Non(Sort::Expression),
            Non(Sort::Semicolon),
            Act(Action::StartExpression),
        ]),
        Sort::OptionalExpression => Some(&[
            Non(Sort::Expression),
            Non(Sort::KeptSemicolon),
            Act(Action::SomeExpression),
        ]),
        Sort::ForAdvance => Some(&[
            Non(Sort::Expression),
            Non(Sort::KeptCloseParenthesis),
            Act(Action::SomeExpression),
        ]),
        Sort::Sections => Some(&[
            Act(Action::StartLabels),
            Non(Sort::Label),
            Act(Action::AddLabel),
            Non(Sort::MoreLabels),
            Act(Action::StartStatements),
            Non(Sort::SectionStatements),
            Act(Action::AddSection),
            Non(Sort::Sections),
        ]),
        Sort::SectionStatements => Some(&[
            Non(Sort::Statement),
            Act(Action::AddStatement),
            Non(Sort::SectionStatements),
        ]),
        Sort::MoreCatches => Some(&[Act(Action::MakeTry)]),
        Sort::Caught => Some(&[Non(Sort::Type), Non(Sort::CaughtName)]),
        Sort::CaughtName => Some(&[Act(Action::CatchTyped)]),
        Sort::DeclaratorRest => Some(&[Act(Action::MakeDeclarator)]),
        Sort::DeclaratorValue => Some(&[Non(Sort::Expression), Act(Action::MakeDeclaratorValue)]),
        Sort::Parameters => Some(&[
            Non(Sort::Type),
            Non(Sort::ParameterName),
            Non(Sort::MoreParameters),
        ]),
        Sort::ParameterName => Some(&[Act(Action::AddParameter)]),
        Sort::Overriding => Some(&[Act(Action::NotOverridden)]),
        Sort::Overridden => Some(&[
            Act(Action::StartNamedFunctions),
            Non(Sort::NamedFunction),
            Act(Action::AddNamedFunction),
            Non(Sort::MoreNamedFunctions),
            Act(Action::MakeOverridden),
        ]),
        Sort::NamedFunction => Some(&[
            Non(Sort::NamedType),
            Non(Sort::Scope),
            Non(Sort::Identifier),
            Non(Sort::NamedAccessor),
        ]),
        Sort::NamedAccessor => Some(&[Act(Action::MakeNamedFunction)]),
        Sort::Body => Some(&[Non(Sort::Block), Act(Action::SomeBody)]),
        Sort::Accessor => Some(&[
            Act(Action::NoStorage),
            Non(Sort::Type),
            Non(Sort::AccessorWord),
            Non(Sort::KeptOpenParenthesis),
            Act(Action::StartParameters),
            Non(Sort::Parameters),
            Act(Action::MakeParameters),
            Non(Sort::CloseParenthesis),
            Act(Action::StartModifiers),
            Non(Sort::Modifiers),
            Non(Sort::Overriding),
            Non(Sort::Body),
            Act(Action::MakeAccessor),
        ]),
        Sort::Accessors => Some(&[
            Non(Sort::Accessor),
            Act(Action::AddAccessor),
            Non(Sort::Accessors),
        ]),
        Sort::Initializers => Some(&[Act(Action::StartInitializers)]),
        Sort::Member => Some(&[Act(Action::NoStorage), Non(Sort::MemberStart)]),
        Sort::VirtualStart => Some(&[Non(Sort::TypeOrProperty), Non(Sort::VirtualMember)]),
        Sort::MemberStart => Some(&[Non(Sort::TypeOrProperty), Non(Sort::MemberRest)]),
        Sort::OwnTypeEnd => Some(&[
            Act(Action::StartPath),
            Non(Sort::TemplateArguments),
            Back(Input::CoreType),
        ]),
        Sort::OwnPropertyTypeEnd => Some(&[Non(Sort::PropertyOrType)]),
        Sort::OwnPropertyNamespaceEnd => Some(&[Non(Sort::PropertyOrNamespace)]),
        Sort::PropertyOrType => Some(&[
            Act(Action::StartPath),
            Non(Sort::TemplateArguments),
            Back(Input::CoreType),
        ]),
        Sort::PropertyTypeOrName => Some(&[
            Back(Input::DeclaredName),
            Act(Action::StartPath),
            Act(Action::MakeNamed),
            Back(Input::CoreType),
        ]),
        Sort::PropertyOrNamespace => Some(&[
            Non(Sort::Type),
            Act(Action::MakePropertyType),
            Back(Input::PropertyType),
        ]),
        Sort::FieldsOrFunction => Some(&[
            Act(Action::FirstName),
            Non(Sort::FieldNames),
            Non(Sort::KeptSemicolon),
            Act(Action::MakeFields),
        ]),
        Sort::Members => Some(&[
            Non(Sort::Member),
            Act(Action::AddMember),
            Non(Sort::Members),
        ]),
        Sort::Outers => Some(&[Non(Sort::Outer), Act(Action::AddOuter), Non(Sort::Outers)]),
        Sort::Outer => Some(&[
            Non(Sort::Type),
            Non(Sort::FunctionRest),
            Act(Action::MakeOuterFunction),
        ]),
        Sort::FunctionRest => Some(&[
            Non(Sort::Identifier),
            Non(Sort::KeptOpenParenthesis),
            Act(Action::StartParameters),
            Non(Sort::Parameters),
            Act(Action::MakeParameters),
            Non(Sort::CloseParenthesis),
            Non(Sort::Body),
            Act(Action::MakeFunction),
        ]),
        Sort::KeyOrType => Some(&[
            Act(Action::StartPath),
            Non(Sort::TemplateArguments),
            Non(Sort::TypeMarks),
            Non(Sort::FunctionRest),
            Act(Action::MakeOuterFunction),
        ]),
        Sort::ForwardOrClass => Some(&[Non(Sort::ClassRest), Act(Action::MakeOuterClass)]),
        Sort::ClassRest => Some(&[
            Act(Action::StartClassModifiers),
            Non(Sort::ClassModifiers),
            Non(Sort::Bases),
            Act(Action::MakeHead),
            Non(Sort::OpenBrace),
            Act(Action::StartMembers),
            Non(Sort::Members),
            Non(Sort::CloseBrace),
            Non(Sort::KeptSemicolon),
            Act(Action::MakeClass),
        ]),
        Sort::Bases => Some(&[Act(Action::StartBases)]),
        Sort::Base => Some(&[Non(Sort::NamedType), Act(Action::MakeBase)]),
        Sort::TemplateRest => Some(&[
            Non(Sort::Type),
            Non(Sort::FunctionRest),
            Act(Action::MakeTemplateFunction),
            Act(Action::MakeOuterTemplate),
        ]),
        Sort::TemplateKeyOrType => Some(&[
            Act(Action::StartPath),
            Non(Sort::TemplateArguments),
            Non(Sort::TypeMarks),
            Non(Sort::FunctionRest),
            Act(Action::MakeTemplateFunction),
            Act(Action::MakeOuterTemplate),
        ]),
        Sort::Enumerators => Some(&[
            Non(Sort::Enumerator),
            Act(Action::AddEnumerator),
            Non(Sort::MoreEnumerators),
        ]),
        Sort::EnumeratorRest => Some(&[Act(Action::MakeEnumerator)]),
        _ => None,
    }
}
