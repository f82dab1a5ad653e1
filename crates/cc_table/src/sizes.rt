// How many values parts and actions take and give, and how deep the nodes are that they make.
ghost use Rattle.std.specs.Prelude.{◌≡◌};
ghost use Rattle.cc_table.specs.Sizes as spec;

use crate::symbols::{Action, Sort};

/// What a part leaves.
#[derive(Clone, Copy, Debug, PartialEq, Eq)]
pub enum Remains {
    Nothing,
    /// A value on the stack.
    OneValue,
    /// A value that it puts back to the input.
    OneInput,
}

/// What a part leaves.
pub fn leaves(sort: Sort) -> Remains
    ensures { result ≡ spec.leaves sort }
{
    match sort {
        Sort::OpenParenthesis
        | Sort::CloseParenthesis
        | Sort::OpenBrace
        | Sort::OpenBracket
        | Sort::CloseBracket
        | Sort::CloseBrace
        | Sort::Less
        | Sort::Greater
        | Sort::Colon
        | Sort::Semicolon
        | Sort::Scope
        | Sort::NamespaceWord => Remains::Nothing,
        Sort::WhileWord | Sort::InWord => Remains::Nothing,
        Sort::TypeOrName
        | Sort::NameEnd
        | Sort::FunctionNameEnd
        | Sort::PathRest
        | Sort::CoreEnd
        | Sort::GreaterEnd
        | Sort::OwnTypeEnd
        | Sort::OwnNamespaceEnd
        | Sort::OwnPropertyTypeEnd
        | Sort::OwnPropertyNamespaceEnd
        | Sort::TypeOrProperty
        | Sort::PropertyOrType => Remains::OneInput,
        Sort::PropertyTypeOrName | Sort::PropertyOrNamespace => Remains::OneInput,
        _ => Remains::OneValue,
    }
}

/// How many values a part takes from the stack.
pub fn takes(sort: Sort) -> usize
    ensures { result ≡ spec.takes sort }
{
    match sort {
        Sort::SignedRest
        | Sort::UnsignedRest
        | Sort::OptionalInt
        | Sort::LongWord
        | Sort::TypeMarks
        | Sort::TypePath
        | Sort::TemplateArguments
        | Sort::MoreTypes
        | Sort::NameEnd
        | Sort::FunctionNameEnd
        | Sort::PathRest
        | Sort::CoreEnd => 1,
        Sort::AfterUnary
        | Sort::ConditionalRest
        | Sort::BinaryRest(_)
        | Sort::GreaterEnd
        | Sort::TypeOperandRest
        | Sort::FunctionNameRest
        | Sort::StringsRest
        | Sort::AfterParenthesis
        | Sort::CastOrGroup
        | Sort::SuffixRest
        | Sort::Arguments
        | Sort::MoreExpressions => 1,
        Sort::NewName
        | Sort::Statements
        | Sort::ForRest
        | Sort::Sections
        | Sort::MoreLabels
        | Sort::SectionStatements
        | Sort::Catch
        | Sort::CaughtName
        | Sort::DeclaratorRest
        | Sort::DeclaratorValue
        | Sort::MoreDeclarators
        | Sort::Parameters => 1,
        Sort::MoreParameters
        | Sort::Modifiers
        | Sort::MoreNamedFunctions
        | Sort::Accessors
        | Sort::MoreInitializers
        | Sort::InitializerName
        | Sort::VirtualStart
        | Sort::MemberStart
        | Sort::OwnTypeEnd
        | Sort::OwnNamespaceEnd
        | Sort::OwnPropertyTypeEnd
        | Sort::OwnPropertyNamespaceEnd => 1,
        Sort::PropertyOrType
        | Sort::PropertyOrNamespace
        | Sort::MemberRest
        | Sort::StaticMember
        | Sort::VirtualMember
        | Sort::FieldNames
        | Sort::Members
        | Sort::UnitRest
        | Sort::Outers
        | Sort::NamespaceNames
        | Sort::FunctionRest
        | Sort::KeyOrNamespace => 1,
        Sort::KeyOrType
        | Sort::ClassModifiers
        | Sort::MoreBases
        | Sort::VisibleRest
        | Sort::Enumerators
        | Sort::MoreEnumerators
        | Sort::EnumeratorRest
        | Sort::EnumeratorNumber
        | Sort::MoreTemplateParameters => 1,
        Sort::HandleRest
        | Sort::AfterNameLess
        | Sort::NameTypes
        | Sort::Selected
        | Sort::NewPath
        | Sort::NewTypeRest
        | Sort::NewArguments
        | Sort::ParameterName
        | Sort::NamedAccessor
        | Sort::PropertyTypeOrName
        | Sort::MemberName
        | Sort::ForwardOrClass => 2,
        Sort::ClassRest | Sort::TemplateRest => 2,
        Sort::FunctionMemberRest
        | Sort::AfterNewLess
        | Sort::NewTypes
        | Sort::ElseRest
        | Sort::TryRest
        | Sort::MoreCatches
        | Sort::FieldsOrFunction
        | Sort::PropertyBody
        | Sort::TemplateKeyOrNamespace
        | Sort::TemplateKeyOrType => 3,
        Sort::AfterMemberLess | Sort::MemberTypes | Sort::NewElements => 4,
        Sort::OpenParenthesis
        | Sort::CloseParenthesis
        | Sort::OpenBrace
        | Sort::OpenBracket
        | Sort::CloseBracket
        | Sort::CloseBrace
        | Sort::Less
        | Sort::Greater
        | Sort::Colon
        | Sort::Semicolon
        | Sort::Scope
        | Sort::NamespaceWord => 0,
        Sort::WhileWord
        | Sort::InWord
        | Sort::KeptOpenParenthesis
        | Sort::KeptCloseParenthesis
        | Sort::KeptCloseBrace
        | Sort::KeptCloseBracket
        | Sort::KeptSemicolon
        | Sort::KeptColon
        | Sort::KeptGreater
        | Sort::KeptLess
        | Sort::Identifier
        | Sort::AnyName => 0,
        Sort::OwnName
        | Sort::NumberToken
        | Sort::AggregateWord
        | Sort::AccessorWord
        | Sort::Fundamental
        | Sort::Type
        | Sort::NamedType
        | Sort::TypeOrName
        | Sort::Expression
        | Sort::Unary
        | Sort::Operand
        | Sort::Statement => 0,
        Sort::LocalOrExpression
        | Sort::Block
        | Sort::ForStart
        | Sort::LocalOrExpressionStart
        | Sort::OptionalExpression
        | Sort::ForAdvance
        | Sort::Label
        | Sort::Caught
        | Sort::Declarator
        | Sort::Overriding
        | Sort::Overridden
        | Sort::NamedFunction => 0,
        Sort::Body
        | Sort::Accessor
        | Sort::Initializers
        | Sort::Initializer
        | Sort::Member
        | Sort::TypeOrProperty
        | Sort::VirtualName
        | Sort::PropertyName
        | Sort::Outer
        | Sort::Bases
        | Sort::Base
        | Sort::Enumeration => 0,
        Sort::Enumerator | Sort::TemplateParameter => 0,
    }
}

/// Whether a part takes the tree that waits in the input too.
pub fn receives(sort: Sort) -> bool
    ensures { result ≡ spec.receives sort }
{
    match sort {
        Sort::Expression
        | Sort::Unary
        | Sort::Operand
        | Sort::CastOrGroup
        | Sort::LocalOrExpression
        | Sort::LocalOrExpressionStart
        | Sort::MemberRest
        | Sort::StaticMember
        | Sort::VirtualMember => true,
        _ => false,
    }
}

/// How much deeper than what it takes a part's value is, at least.
pub fn adds(sort: Sort) -> u32
    ensures { result ≡ spec.adds sort }
{
    match sort {
        Sort::HandleRest
        | Sort::Expression
        | Sort::Unary
        | Sort::Operand
        | Sort::TypeOperandRest
        | Sort::CastOrGroup
        | Sort::Selected
        | Sort::FunctionMemberRest
        | Sort::AfterMemberLess
        | Sort::MemberTypes
        | Sort::NewArguments
        | Sort::NewElements => 1,
        Sort::ElseRest
        | Sort::LocalOrExpressionStart
        | Sort::TryRest
        | Sort::MoreCatches
        | Sort::NamedAccessor
        | Sort::MemberRest
        | Sort::StaticMember
        | Sort::VirtualMember
        | Sort::MemberName
        | Sort::FieldsOrFunction
        | Sort::PropertyBody
        | Sort::FunctionRest => 1,
        Sort::ForwardOrClass
        | Sort::ClassRest
        | Sort::TemplateRest
        | Sort::TemplateKeyOrNamespace
        | Sort::TemplateKeyOrType => 1,
        Sort::LocalOrExpression => 2,
        _ => 0,
    }
}

/// The least depth of a part's value.
pub fn least(sort: Sort) -> u32
    ensures { result ≡ spec.least sort }
{
    match sort {
        Sort::Fundamental
        | Sort::SignedRest
        | Sort::UnsignedRest
        | Sort::Type
        | Sort::HandleRest
        | Sort::NamedType
        | Sort::TypePath
        | Sort::TemplateArguments
        | Sort::Expression
        | Sort::Unary
        | Sort::Operand
        | Sort::TypeOperandRest => 1,
        Sort::FunctionNameRest
        | Sort::AfterNameLess
        | Sort::NameTypes
        | Sort::Selected
        | Sort::FunctionMemberRest
        | Sort::AfterMemberLess
        | Sort::MemberTypes
        | Sort::NewArguments
        | Sort::NewElements
        | Sort::Statement
        | Sort::Block
        | Sort::ElseRest => 1,
        Sort::LocalOrExpressionStart
        | Sort::Label
        | Sort::MoreCatches
        | Sort::Catch
        | Sort::Declarator
        | Sort::DeclaratorRest
        | Sort::Overridden
        | Sort::NamedAccessor
        | Sort::Member
        | Sort::MemberStart
        | Sort::TypeOrProperty
        | Sort::PropertyOrType => 1,
        Sort::PropertyTypeOrName
        | Sort::PropertyOrNamespace
        | Sort::MemberRest
        | Sort::StaticMember
        | Sort::VirtualMember
        | Sort::MemberName
        | Sort::FieldsOrFunction
        | Sort::PropertyBody
        | Sort::Outer
        | Sort::ForwardOrClass
        | Sort::ClassRest
        | Sort::Enumeration => 1,
        Sort::Enumerator
        | Sort::EnumeratorRest
        | Sort::EnumeratorNumber
        | Sort::TemplateParameter => 1,
        Sort::AfterParenthesis
        | Sort::CastOrGroup
        | Sort::NewName
        | Sort::NewPath
        | Sort::NewTypeRest
        | Sort::AfterNewLess
        | Sort::NewTypes
        | Sort::LocalOrExpression
        | Sort::ForRest
        | Sort::TryRest
        | Sort::DeclaratorValue
        | Sort::NamedFunction => 2,
        Sort::Accessor
        | Sort::Initializer
        | Sort::InitializerName
        | Sort::VirtualStart
        | Sort::FunctionRest
        | Sort::KeyOrNamespace
        | Sort::KeyOrType
        | Sort::Base
        | Sort::VisibleRest => 2,
        Sort::TemplateRest | Sort::TemplateKeyOrNamespace | Sort::TemplateKeyOrType => 3,
        _ => 0,
    }
}

/// How many values an action uses.
pub fn uses(action: Action) -> usize
    ensures { result ≡ spec.uses action }
{
    match action {
        Action::Fundamental(_)
        | Action::StartPath
        | Action::AddToPath
        | Action::MakeNamed
        | Action::FirstType
        | Action::MakeNumber
        | Action::MakeCharacter
        | Action::StartTexts
        | Action::MakeStrings
        | Action::MakeTrue
        | Action::MakeFalse
        | Action::MakeNullptr => 1,
        Action::MakeThis
        | Action::MakeName
        | Action::MakeBlockStatement
        | Action::MakeEmpty
        | Action::StartLocal
        | Action::StartExpression
        | Action::NoExpression
        | Action::CatchAll
        | Action::CatchTyped
        | Action::MakeDeclarator
        | Action::MakePure
        | Action::MakeOverridden => 1,
        Action::NoBody
        | Action::SomeBody
        | Action::NameProperty
        | Action::FirstName
        | Action::MakeBase
        | Action::MakeEnumerator
        | Action::MakeOuterClass
        | Action::MakeOuterEnumeration
        | Action::MakeOuterTemplate
        | Action::MakeOuterFunction
        | Action::MakeUnit => 1,
        Action::MakeApplied
        | Action::MakeMemberOf
        | Action::MakeNewWith
        | Action::MakeNewOf
        | Action::MakeNamedCast
        | Action::MakeIfElse
        | Action::MakeDo
        | Action::MakeSwitch
        | Action::MakeTryFinally
        | Action::MakeFields
        | Action::MakeDestructor
        | Action::MakeFinaliser => 4,
        Action::MakeTrivialProperty
        | Action::MakeHead
        | Action::MakeFunction
        | Action::MakeNamespace => 4,
        Action::MakeHandleTracking
        | Action::MakeAssignment
        | Action::MakeConditional
        | Action::MakeBinary
        | Action::MakeCast
        | Action::MakeIndex
        | Action::MakeCall
        | Action::MakeMember
        | Action::MakeFinaliserName
        | Action::MakeGroup
        | Action::MakeConstruct
        | Action::MakeTypeArguments => 3,
        Action::MakeBlock
        | Action::MakeDelete
        | Action::MakeIf
        | Action::MakeWhile
        | Action::AddSection
        | Action::MakeCase
        | Action::AddCatch
        | Action::MakeTry
        | Action::MakeDeclaratorElements
        | Action::MakeDeclaratorArguments
        | Action::AddNamedParameter
        | Action::MakeNamedAccessor => 3,
        Action::MakeMemberInitializer
        | Action::MakeBaseInitializer
        | Action::MakeClass
        | Action::MakeEnumeratorNegative
        | Action::MakeTemplateClass
        | Action::MakeTemplateFunction
        | Action::MakeUsing
        | Action::MakeForward => 3,
        Action::StartTypes
        | Action::StartExpressions
        | Action::StartStatements
        | Action::StartNothing
        | Action::StartSections
        | Action::StartLabels
        | Action::StartCatches
        | Action::StartDeclarators
        | Action::StartParameters
        | Action::StartModifiers
        | Action::NotOverridden
        | Action::StartNamedFunctions => 0,
        Action::NoStorage
        | Action::StartAccessors
        | Action::StartInitializers
        | Action::StartMembers
        | Action::StartClassModifiers
        | Action::StartBases
        | Action::StartEnumerators
        | Action::StartTemplateParameters
        | Action::StartOuters => 0,
        Action::MakeNewWithOf => 6,
        Action::MakeFor
        | Action::MakeForEach
        | Action::MakeConstructor
        | Action::MakeProperty
        | Action::MakeEnumeration => 5,
        Action::MakeAccessor | Action::MakeFunctionMember => 7,
        _ => 2,
    }
}

/// Whether an action makes a node around them: 1, else 0.
pub fn nests(action: Action) -> u32
    ensures { result ≡ spec.nests action }
{
    match action {
        Action::Fundamental(_)
        | Action::MakeNamed
        | Action::MakeApplied
        | Action::MakeHandle
        | Action::MakeTracking
        | Action::MakeHandleTracking
        | Action::MakeAssignment
        | Action::MakeConditional
        | Action::MakeBinary
        | Action::MakePrefix
        | Action::MakeCast
        | Action::MakeIndex => 1,
        Action::MakeCall
        | Action::MakeMember
        | Action::MakeMemberOf
        | Action::MakeFinaliserName
        | Action::MakePostfix
        | Action::MakeNumber
        | Action::MakeCharacter
        | Action::MakeStrings
        | Action::MakeTrue
        | Action::MakeFalse
        | Action::MakeNullptr
        | Action::MakeThis => 1,
        Action::MakeGroup
        | Action::MakeName
        | Action::MakeNameOf
        | Action::MakeStaticMember
        | Action::MakeConstruct
        | Action::MakeNew
        | Action::MakeNewWith
        | Action::MakeNewOf
        | Action::MakeNewWithOf
        | Action::MakeNamedCast
        | Action::MakeArguments
        | Action::MakeTypeArguments => 1,
        Action::MakeBlock
        | Action::MakeEmpty
        | Action::MakeExpressionStatement
        | Action::MakeDelete
        | Action::MakeIf
        | Action::MakeIfElse
        | Action::MakeWhile
        | Action::MakeDo
        | Action::MakeFor
        | Action::MakeForEach
        | Action::MakeSwitch
        | Action::MakeCase => 1,
        Action::MakeDefault
        | Action::MakeBreak
        | Action::MakeContinue
        | Action::MakeReturn
        | Action::MakeThrow
        | Action::MakeTry
        | Action::MakeTryFinally
        | Action::MakeDeclarator
        | Action::MakeDeclaratorValue
        | Action::MakeDeclaratorElements
        | Action::MakeDeclaratorArguments
        | Action::MakeLocal => 1,
        Action::MakeLocalStatement
        | Action::MakeParameters
        | Action::MakePure
        | Action::MakeNamedFunction
        | Action::MakeNamedAccessor
        | Action::MakeOverridden
        | Action::MakeAccessor
        | Action::MakeMemberInitializer
        | Action::MakeBaseInitializer
        | Action::MakeAccess
        | Action::MakeFields
        | Action::MakeFunctionMember => 1,
        Action::MakeConstructor
        | Action::MakeDestructor
        | Action::MakeFinaliser
        | Action::MakeProperty
        | Action::MakeTrivialProperty
        | Action::MakeKey
        | Action::MakeBase
        | Action::MakePublicBase
        | Action::MakeClass
        | Action::MakeEnumerator
        | Action::MakeEnumeratorValue
        | Action::MakeEnumeratorNegative => 1,
        Action::MakeEnumeration
        | Action::MakeFunction
        | Action::MakeTemplateParameter
        | Action::MakeTemplateClass
        | Action::MakeTemplateFunction
        | Action::MakeUsing
        | Action::MakeNamespace
        | Action::MakeVisibleClass
        | Action::MakeVisibleEnumeration
        | Action::MakeForward
        | Action::MakeUnit => 1,
        _ => 0,
    }
}
