// Members made of the parts that were read.
ghost use Rattle.std.specs.Prelude.{◌≡◌, ◌∷◌, List, IfOk};
ghost use Rattle.cc_pushdown.specs.Build.{build};
ghost use Rattle.cc_table.specs.declared.symbols.Action.TheVariants as action;

use cc_build::parts::{
    across, added, first_span, grown, is_static, is_virtual, list_span, nowhere, storage_of,
};
use cc_build::words::{access_of, accessor_of};
use cc_build::{Node, Stack, Value, take};
use cc_tree::{
    Accessor, Member, MemberInitializer, NamedFunction, Overridden, Parameter, Parameters,
    PropertyName,
};
use sqlite_items::Items;
use std::alloc::{AllocError, Global};

/// `Action::StartParameters`.
pub fn start_parameters(alloc: Global) -> Value
    ensures { (vs : List Value) → result ∷ vs ≡ build action.StartParameters vs }
{
    let span = nowhere();
    Value::ParameterList(Node {
        tree: Items::new(alloc),
        span,
    })
}

/// `Action::AddParameter`.
pub fn add_parameter(alloc: Global, values: &mut Stack<Value>) -> Result<Value, AllocError>
    ensures { IfOk result (λ v. v ∷ values.new ≡ build action.AddParameter values.old) }
{
    let of = take::type_name(values);
    let list = take::parameter_list(alloc, values);
    let span = grown(&list, of.span);
    Ok(Value::ParameterList(Node {
        tree: added(
            list.tree,
            Parameter {
                of: of.tree,
                name: None,
            },
        )?,
        span,
    }))
}

/// `Action::AddNamedParameter`.
pub fn add_named_parameter(alloc: Global, values: &mut Stack<Value>) -> Result<Value, AllocError>
    ensures { IfOk result (λ v. v ∷ values.new ≡ build action.AddNamedParameter values.old) }
{
    let name = take::name(alloc, values);
    let of = take::type_name(values);
    let list = take::parameter_list(alloc, values);
    let span = grown(&list, across(of.span, name.identifier.span));
    Ok(Value::ParameterList(Node {
        tree: added(
            list.tree,
            Parameter {
                of: of.tree,
                name: Some(name.identifier),
            },
        )?,
        span,
    }))
}

/// `Action::MakeParameters`.
pub fn make_parameters(alloc: Global, values: &mut Stack<Value>) -> Value
    ensures { result ∷ values.new ≡ build action.MakeParameters values.old }
{
    let list = take::parameter_list(alloc, values);
    let open = take::mark(values);
    Value::Parameters(Parameters {
        span: list_span(&list, open.span),
        items: list.tree,
    })
}

/// `Action::StartModifiers`.
pub fn start_modifiers(alloc: Global) -> Value
    ensures { (vs : List Value) → result ∷ vs ≡ build action.StartModifiers vs }
{
    Value::Modifiers(Items::new(alloc))
}

/// `Action::AddModifier`.
pub fn add_modifier(alloc: Global, values: &mut Stack<Value>) -> Result<Value, AllocError>
    ensures { IfOk result (λ v. v ∷ values.new ≡ build action.AddModifier values.old) }
{
    let one = take::modifier(values);
    let list = take::modifiers(alloc, values);
    Ok(Value::Modifiers(added(list, one)?))
}

/// `Action::NotOverridden`.
pub fn not_overridden() -> Value
    ensures { (vs : List Value) → result ∷ vs ≡ build action.NotOverridden vs }
{
    Value::Overridden(None)
}

/// `Action::MakePure`.
pub fn make_pure(values: &mut Stack<Value>) -> Value
    ensures { result ∷ values.new ≡ build action.MakePure values.old }
{
    let number = take::number(values);
    Value::Overridden(Some(Overridden::Pure(number.span)))
}

/// `Action::StartNamedFunctions`.
pub fn start_named_functions(alloc: Global) -> Value
    ensures { (vs : List Value) → result ∷ vs ≡ build action.StartNamedFunctions vs }
{
    let span = nowhere();
    Value::NamedFunctions(Node {
        tree: Items::new(alloc),
        span,
    })
}

/// `Action::MakeNamedFunction`.
pub fn make_named_function(alloc: Global, values: &mut Stack<Value>) -> Value
    ensures { result ∷ values.new ≡ build action.MakeNamedFunction values.old }
{
    let name = take::name(alloc, values);
    let class = take::type_name(values);
    Value::NamedFunction(NamedFunction {
        span: across(class.span, name.identifier.span),
        class: class.tree,
        name: name.identifier,
        accessor: None,
    })
}

/// `Action::MakeNamedAccessor`.
pub fn make_named_accessor(alloc: Global, values: &mut Stack<Value>) -> Value
    ensures { result ∷ values.new ≡ build action.MakeNamedAccessor values.old }
{
    let word = take::name(alloc, values);
    let name = take::name(alloc, values);
    let class = take::type_name(values);
    Value::NamedFunction(NamedFunction {
        span: across(class.span, word.identifier.span),
        class: class.tree,
        name: name.identifier,
        accessor: Some(accessor_of(word.word)),
    })
}

/// `Action::AddNamedFunction`.
pub fn add_named_function(alloc: Global, values: &mut Stack<Value>) -> Result<Value, AllocError>
    ensures { IfOk result (λ v. v ∷ values.new ≡ build action.AddNamedFunction values.old) }
{
    let one = take::named_function(alloc, values);
    let list = take::named_functions(alloc, values);
    let span = grown(&list, one.span);
    Ok(Value::NamedFunctions(Node {
        tree: added(list.tree, one)?,
        span,
    }))
}

/// `Action::MakeOverridden`.
pub fn make_overridden(alloc: Global, values: &mut Stack<Value>) -> Value
    ensures { result ∷ values.new ≡ build action.MakeOverridden values.old }
{
    let list = take::named_functions(alloc, values);
    Value::Overridden(Some(Overridden::Functions(list.tree, list.span)))
}

/// `Action::NoBody`.
pub fn no_body(values: &mut Stack<Value>) -> Value
    ensures { result ∷ values.new ≡ build action.NoBody values.old }
{
    let semicolon = take::mark(values);
    let span = semicolon.span;
    Value::Body(Node { tree: None, span })
}

/// `Action::SomeBody`.
pub fn some_body(alloc: Global, values: &mut Stack<Value>) -> Value
    ensures { result ∷ values.new ≡ build action.SomeBody values.old }
{
    let block = take::block(alloc, values);
    let span = block.span;
    Value::Body(Node {
        tree: Some(block.tree),
        span,
    })
}

/// `Action::NoStorage`.
pub fn no_storage() -> Value
    ensures { (vs : List Value) → result ∷ vs ≡ build action.NoStorage vs }
{
    Value::NoStorage
}

/// `Action::StartInitializers`.
pub fn start_initializers(alloc: Global) -> Value
    ensures { (vs : List Value) → result ∷ vs ≡ build action.StartInitializers vs }
{
    Value::Initializers(Items::new(alloc))
}

/// `Action::AddInitializer`.
pub fn add_initializer(alloc: Global, values: &mut Stack<Value>) -> Result<Value, AllocError>
    ensures { IfOk result (λ v. v ∷ values.new ≡ build action.AddInitializer values.old) }
{
    let one = take::initializer(alloc, values);
    let list = take::initializers(alloc, values);
    Ok(Value::Initializers(added(list, one)?))
}

/// `Action::MakeMemberInitializer`.
pub fn make_member_initializer(alloc: Global, values: &mut Stack<Value>) -> Value
    ensures { result ∷ values.new ≡ build action.MakeMemberInitializer values.old }
{
    let close = take::mark(values);
    let given = take::arguments(alloc, values);
    let name = take::name(alloc, values);
    let span = across(name.identifier.span, close.span);
    Value::Initializer(MemberInitializer::Member(name.identifier, given, span))
}

/// `Action::MakeBaseInitializer`.
pub fn make_base_initializer(alloc: Global, values: &mut Stack<Value>) -> Value
    ensures { result ∷ values.new ≡ build action.MakeBaseInitializer values.old }
{
    let close = take::mark(values);
    let given = take::arguments(alloc, values);
    let of = take::type_name(values);
    Value::Initializer(MemberInitializer::Base(of.tree, given, across(of.span, close.span)))
}

/// `Action::FirstName`.
pub fn first_name(alloc: Global, values: &mut Stack<Value>) -> Result<Value, AllocError>
    ensures { IfOk result (λ v. v ∷ values.new ≡ build action.FirstName values.old) }
{
    let name = take::name(alloc, values);
    Ok(Value::Names(added(Items::new(alloc), name.identifier)?))
}

/// `Action::AddName`.
pub fn add_name(alloc: Global, values: &mut Stack<Value>) -> Result<Value, AllocError>
    ensures { IfOk result (λ v. v ∷ values.new ≡ build action.AddName values.old) }
{
    let name = take::name(alloc, values);
    let list = take::names(alloc, values);
    Ok(Value::Names(added(list, name.identifier)?))
}

/// `Action::MakeAccess`.
pub fn make_access(values: &mut Stack<Value>) -> Value
    ensures { result ∷ values.new ≡ build action.MakeAccess values.old }
{
    let colon = take::mark(values);
    let word = take::mark(values);
    Value::Member(Member::Access(access_of(word.terminal), across(word.span, colon.span)))
}

/// `Action::MakeFields`.
pub fn make_fields(alloc: Global, values: &mut Stack<Value>) -> Value
    ensures { result ∷ values.new ≡ build action.MakeFields values.old }
{
    let semicolon = take::mark(values);
    let names = take::names(alloc, values);
    let of = take::type_name(values);
    let storage = take::storage(values);
    Value::Member(Member::Fields(
        is_static(storage),
        of.tree,
        names,
        across(first_span(storage, of.span), semicolon.span),
    ))
}

/// `Action::MakeFunctionMember`.
pub fn make_function_member(alloc: Global, values: &mut Stack<Value>) -> Value
    ensures { result ∷ values.new ≡ build action.MakeFunctionMember values.old }
{
    let body = take::body(values);
    let overridden = take::overridden(values);
    let modifiers = take::modifiers(alloc, values);
    let parameters = take::parameters(alloc, values);
    let name = take::name(alloc, values);
    let of = take::type_name(values);
    let storage = take::storage(values);
    Value::Member(Member::Function(
        storage_of(storage),
        of.tree,
        name.identifier,
        parameters,
        modifiers,
        overridden,
        body.tree,
        across(first_span(storage, of.span), body.span),
    ))
}

/// `Action::MakeConstructor`.
pub fn make_constructor(alloc: Global, values: &mut Stack<Value>) -> Value
    ensures { result ∷ values.new ≡ build action.MakeConstructor values.old }
{
    let block = take::block(alloc, values);
    let initializers = take::initializers(alloc, values);
    let parameters = take::parameters(alloc, values);
    let name = take::name(alloc, values);
    let _storage = take::storage(values);
    let span = across(name.identifier.span, block.span);
    Value::Member(Member::Constructor(name.identifier, parameters, initializers, block.tree, span))
}

/// `Action::MakeDestructor`.
pub fn make_destructor(alloc: Global, values: &mut Stack<Value>) -> Value
    ensures { result ∷ values.new ≡ build action.MakeDestructor values.old }
{
    let block = take::block(alloc, values);
    let name = take::name(alloc, values);
    let tilde = take::mark(values);
    let storage = take::storage(values);
    Value::Member(Member::Destructor(
        is_virtual(storage),
        name.identifier,
        block.tree,
        across(first_span(storage, tilde.span), block.span),
    ))
}

/// `Action::MakeFinaliser`.
pub fn make_finaliser(alloc: Global, values: &mut Stack<Value>) -> Value
    ensures { result ∷ values.new ≡ build action.MakeFinaliser values.old }
{
    let block = take::block(alloc, values);
    let name = take::name(alloc, values);
    let exclamation = take::mark(values);
    let _storage = take::storage(values);
    Value::Member(Member::Finaliser(
        name.identifier,
        block.tree,
        across(exclamation.span, block.span),
    ))
}

/// `Action::StartMembers`.
pub fn start_members(alloc: Global) -> Value
    ensures { (vs : List Value) → result ∷ vs ≡ build action.StartMembers vs }
{
    Value::Members(Items::new(alloc))
}

/// `Action::AddMember`.
pub fn add_member(alloc: Global, values: &mut Stack<Value>) -> Result<Value, AllocError>
    ensures { IfOk result (λ v. v ∷ values.new ≡ build action.AddMember values.old) }
{
    let one = take::member(values);
    let list = take::members(alloc, values);
    Ok(Value::Members(added(list, one)?))
}

/// `Action::MakeAccessor`.
pub fn make_accessor(alloc: Global, values: &mut Stack<Value>) -> Value
    ensures { result ∷ values.new ≡ build action.MakeAccessor values.old }
{
    let body = take::body(values);
    let overridden = take::overridden(values);
    let modifiers = take::modifiers(alloc, values);
    let parameters = take::parameters(alloc, values);
    let word = take::name(alloc, values);
    let of = take::type_name(values);
    let storage = take::storage(values);
    Value::Accessor(Accessor {
        span: across(first_span(storage, of.span), body.span),
        is_virtual: is_virtual(storage),
        of: of.tree,
        word: accessor_of(word.word),
        word_span: word.identifier.span,
        parameters: parameters,
        modifiers: modifiers,
        overridden: overridden,
        body: body.tree,
    })
}

/// `Action::StartAccessors`.
pub fn start_accessors(alloc: Global) -> Value
    ensures { (vs : List Value) → result ∷ vs ≡ build action.StartAccessors vs }
{
    Value::Accessors(Items::new(alloc))
}

/// `Action::AddAccessor`.
pub fn add_accessor(alloc: Global, values: &mut Stack<Value>) -> Result<Value, AllocError>
    ensures { IfOk result (λ v. v ∷ values.new ≡ build action.AddAccessor values.old) }
{
    let one = take::accessor(alloc, values);
    let list = take::accessors(alloc, values);
    Ok(Value::Accessors(added(list, one)?))
}

/// `Action::MakePropertyType`.
pub fn make_property_type(alloc: Global, values: &mut Stack<Value>) -> Value
    ensures { result ∷ values.new ≡ build action.MakePropertyType values.old }
{
    let of = take::type_name(values);
    let name = take::name(alloc, values);
    let span = name.identifier.span;
    Value::PropertyType(Node {
        tree: of.tree,
        span,
    })
}

/// `Action::NameProperty`.
pub fn name_property(alloc: Global, values: &mut Stack<Value>) -> Value
    ensures { result ∷ values.new ≡ build action.NameProperty values.old }
{
    let name = take::name(alloc, values);
    Value::PropertyName(PropertyName::Named(name.identifier))
}

/// `Action::IndexProperty`.
pub fn index_property(values: &mut Stack<Value>) -> Value
    ensures { result ∷ values.new ≡ build action.IndexProperty values.old }
{
    let of = take::type_name(values);
    let word = take::mark(values);
    Value::PropertyName(PropertyName::Indexed(word.span, of.tree))
}

/// `Action::MakeProperty`.
pub fn make_property(alloc: Global, values: &mut Stack<Value>) -> Value
    ensures { result ∷ values.new ≡ build action.MakeProperty values.old }
{
    let close = take::mark(values);
    let accessors = take::accessors(alloc, values);
    let name = take::property_name(alloc, values);
    let of = take::property_type(values);
    let storage = take::storage(values);
    Value::Member(Member::Property(
        storage_of(storage),
        of.tree,
        name,
        accessors,
        across(first_span(storage, of.span), close.span),
    ))
}

/// `Action::MakeTrivialProperty`.
pub fn make_trivial_property(alloc: Global, values: &mut Stack<Value>) -> Value
    ensures { result ∷ values.new ≡ build action.MakeTrivialProperty values.old }
{
    let semicolon = take::mark(values);
    let name = take::property_name(alloc, values);
    let of = take::property_type(values);
    let storage = take::storage(values);
    Value::Member(Member::Property(
        storage_of(storage),
        of.tree,
        name,
        Items::new(alloc),
        across(first_span(storage, of.span), semicolon.span),
    ))
}
