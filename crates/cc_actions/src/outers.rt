// Classes and what stands outside them made of the parts that were read.
ghost use Rattle.std.specs.Prelude.{◌≡◌, ◌∷◌, List, IfOk};
ghost use Rattle.cc_pushdown.specs.Build.{build};
ghost use Rattle.cc_table.specs.declared.symbols.Action.TheVariants as action;

use cc_build::parts::{across, added, grown, nowhere};
use cc_build::words::{
    aggregate_of, class_modifier_of, class_word_of, parameter_word_of, visibility_of,
};
use cc_build::{ClassHead, Node, Stack, Value, take};
use cc_tree::{
    Base, Class, ClassKey, Enumeration, Enumerator, EnumeratorValue, Function, Outer, Template,
    TemplateParameter, Unit,
};
use sqlite_items::Items;
use std::alloc::{AllocError, Global};

/// `Action::MakeKey`.
pub fn make_key(alloc: Global, values: &mut Stack<Value>) -> Value
    ensures { result ∷ values.new ≡ build action.MakeKey values.old }
{
    let second = take::mark(values);
    let first = take::name(alloc, values);
    Value::Key(ClassKey {
        word: class_word_of(first.word),
        aggregate: aggregate_of(second.terminal),
        span: across(first.identifier.span, second.span),
    })
}

/// `Action::StartClassModifiers`.
pub fn start_class_modifiers(alloc: Global) -> Value
    ensures { (vs : List Value) → result ∷ vs ≡ build action.StartClassModifiers vs }
{
    Value::ClassModifiers(Items::new(alloc))
}

/// `Action::AddClassModifier`.
pub fn add_class_modifier(alloc: Global, values: &mut Stack<Value>) -> Result<Value, AllocError>
    ensures { IfOk result (λ v. v ∷ values.new ≡ build action.AddClassModifier values.old) }
{
    let name = take::name(alloc, values);
    let list = take::class_modifiers(alloc, values);
    Ok(Value::ClassModifiers(added(list, class_modifier_of(name.word))?))
}

/// `Action::StartBases`.
pub fn start_bases(alloc: Global) -> Value
    ensures { (vs : List Value) → result ∷ vs ≡ build action.StartBases vs }
{
    Value::Bases(Items::new(alloc))
}

/// `Action::AddBase`.
pub fn add_base(alloc: Global, values: &mut Stack<Value>) -> Result<Value, AllocError>
    ensures { IfOk result (λ v. v ∷ values.new ≡ build action.AddBase values.old) }
{
    let one = take::base(values);
    let list = take::bases(alloc, values);
    Ok(Value::Bases(added(list, one)?))
}

/// `Action::MakeBase`.
pub fn make_base(values: &mut Stack<Value>) -> Value
    ensures { result ∷ values.new ≡ build action.MakeBase values.old }
{
    let of = take::type_name(values);
    Value::Base(Base {
        is_public: false,
        span: of.span,
        of: of.tree,
    })
}

/// `Action::MakePublicBase`.
pub fn make_public_base(values: &mut Stack<Value>) -> Value
    ensures { result ∷ values.new ≡ build action.MakePublicBase values.old }
{
    let of = take::type_name(values);
    let word = take::mark(values);
    Value::Base(Base {
        is_public: true,
        span: across(word.span, of.span),
        of: of.tree,
    })
}

/// `Action::MakeHead`.
pub fn make_head(alloc: Global, values: &mut Stack<Value>) -> Value
    ensures { result ∷ values.new ≡ build action.MakeHead values.old }
{
    let bases = take::bases(alloc, values);
    let modifiers = take::class_modifiers(alloc, values);
    let name = take::name(alloc, values);
    let key = take::key(values);
    Value::Head(ClassHead {
        key: key,
        name: name.identifier,
        modifiers: modifiers,
        bases: bases,
    })
}

/// `Action::MakeClass`.
pub fn make_class(alloc: Global, values: &mut Stack<Value>) -> Value
    ensures { result ∷ values.new ≡ build action.MakeClass values.old }
{
    let semicolon = take::mark(values);
    let members = take::members(alloc, values);
    let head = take::head(alloc, values);
    Value::Class(Class {
        span: across(head.key.span, semicolon.span),
        key: head.key,
        name: head.name,
        modifiers: head.modifiers,
        bases: head.bases,
        members: members,
    })
}

/// `Action::StartEnumerators`.
pub fn start_enumerators(alloc: Global) -> Value
    ensures { (vs : List Value) → result ∷ vs ≡ build action.StartEnumerators vs }
{
    Value::Enumerators(Items::new(alloc))
}

/// `Action::AddEnumerator`.
pub fn add_enumerator(alloc: Global, values: &mut Stack<Value>) -> Result<Value, AllocError>
    ensures { IfOk result (λ v. v ∷ values.new ≡ build action.AddEnumerator values.old) }
{
    let one = take::enumerator(alloc, values);
    let list = take::enumerators(alloc, values);
    Ok(Value::Enumerators(added(list, one)?))
}

/// `Action::MakeEnumerator`.
pub fn make_enumerator(alloc: Global, values: &mut Stack<Value>) -> Value
    ensures { result ∷ values.new ≡ build action.MakeEnumerator values.old }
{
    let name = take::name(alloc, values);
    Value::Enumerator(Enumerator {
        span: name.identifier.span,
        name: name.identifier,
        value: None,
    })
}

/// `Action::MakeEnumeratorValue`.
pub fn make_enumerator_value(alloc: Global, values: &mut Stack<Value>) -> Value
    ensures { result ∷ values.new ≡ build action.MakeEnumeratorValue values.old }
{
    let number = take::number(values);
    let name = take::name(alloc, values);
    Value::Enumerator(Enumerator {
        span: across(name.identifier.span, number.span),
        name: name.identifier,
        value: Some(EnumeratorValue {
            is_negative: false,
            number: number.value,
        }),
    })
}

/// `Action::MakeEnumeratorNegative`.
pub fn make_enumerator_negative(alloc: Global, values: &mut Stack<Value>) -> Value
    ensures { result ∷ values.new ≡ build action.MakeEnumeratorNegative values.old }
{
    let number = take::number(values);
    let _minus = take::mark(values);
    let name = take::name(alloc, values);
    Value::Enumerator(Enumerator {
        span: across(name.identifier.span, number.span),
        name: name.identifier,
        value: Some(EnumeratorValue {
            is_negative: true,
            number: number.value,
        }),
    })
}

/// `Action::MakeEnumeration`.
pub fn make_enumeration(alloc: Global, values: &mut Stack<Value>) -> Value
    ensures { result ∷ values.new ≡ build action.MakeEnumeration values.old }
{
    let semicolon = take::mark(values);
    let list = take::enumerators(alloc, values);
    let name = take::name(alloc, values);
    let second = take::mark(values);
    let first = take::mark(values);
    Value::Enumeration(Enumeration {
        aggregate: aggregate_of(second.terminal),
        name: name.identifier,
        items: list,
        span: across(first.span, semicolon.span),
    })
}

/// `Action::MakeFunction`.
pub fn make_function(alloc: Global, values: &mut Stack<Value>) -> Value
    ensures { result ∷ values.new ≡ build action.MakeFunction values.old }
{
    let body = take::body(values);
    let parameters = take::parameters(alloc, values);
    let name = take::name(alloc, values);
    let of = take::type_name(values);
    Value::Function(Function {
        span: across(of.span, body.span),
        result: of.tree,
        name: name.identifier,
        parameters: parameters,
        body: body.tree,
    })
}

/// `Action::StartTemplateParameters`.
pub fn start_template_parameters(alloc: Global) -> Value
    ensures { (vs : List Value) → result ∷ vs ≡ build action.StartTemplateParameters vs }
{
    Value::TemplateParameters(Items::new(alloc))
}

/// `Action::MakeTemplateParameter`.
pub fn make_template_parameter(alloc: Global, values: &mut Stack<Value>) -> Value
    ensures { result ∷ values.new ≡ build action.MakeTemplateParameter values.old }
{
    let name = take::name(alloc, values);
    let word = take::mark(values);
    Value::TemplateParameter(TemplateParameter {
        word: parameter_word_of(word.terminal),
        span: across(word.span, name.identifier.span),
        name: name.identifier,
    })
}

/// `Action::AddTemplateParameter`.
pub fn add_template_parameter(alloc: Global, values: &mut Stack<Value>) -> Result<Value, AllocError>
    ensures { IfOk result (λ v. v ∷ values.new ≡ build action.AddTemplateParameter values.old) }
{
    let one = take::template_parameter(alloc, values);
    let list = take::template_parameters(alloc, values);
    Ok(Value::TemplateParameters(added(list, one)?))
}

/// `Action::MakeTemplateClass`.
pub fn make_template_class(alloc: Global, values: &mut Stack<Value>) -> Value
    ensures { result ∷ values.new ≡ build action.MakeTemplateClass values.old }
{
    let class = take::class(alloc, values);
    let parameters = take::template_parameters(alloc, values);
    let word = take::mark(values);
    let span = across(word.span, class.span);
    Value::Template(Node {
        tree: Template::Class(parameters, class, span),
        span,
    })
}

/// `Action::MakeTemplateFunction`.
pub fn make_template_function(alloc: Global, values: &mut Stack<Value>) -> Value
    ensures { result ∷ values.new ≡ build action.MakeTemplateFunction values.old }
{
    let function = take::function(alloc, values);
    let parameters = take::template_parameters(alloc, values);
    let word = take::mark(values);
    let span = across(word.span, function.span);
    Value::Template(Node {
        tree: Template::Function(parameters, function, span),
        span,
    })
}

/// `Action::MakeUsing`.
pub fn make_using(alloc: Global, values: &mut Stack<Value>) -> Value
    ensures { result ∷ values.new ≡ build action.MakeUsing values.old }
{
    let semicolon = take::mark(values);
    let names = take::names(alloc, values);
    let word = take::mark(values);
    let span = across(word.span, semicolon.span);
    Value::Outer(Node {
        tree: Outer::Using(names, span),
        span,
    })
}

/// `Action::MakeNamespace`.
pub fn make_namespace(alloc: Global, values: &mut Stack<Value>) -> Value
    ensures { result ∷ values.new ≡ build action.MakeNamespace values.old }
{
    let close = take::mark(values);
    let outers = take::outers(alloc, values);
    let name = take::name(alloc, values);
    let word = take::mark(values);
    let span = across(word.span, close.span);
    Value::Outer(Node {
        tree: Outer::Namespace(name.identifier, outers.tree, span),
        span,
    })
}

/// `Action::MakeOuterClass`.
pub fn make_outer_class(alloc: Global, values: &mut Stack<Value>) -> Value
    ensures { result ∷ values.new ≡ build action.MakeOuterClass values.old }
{
    let class = take::class(alloc, values);
    let span = class.span;
    Value::Outer(Node {
        tree: Outer::Class(class),
        span,
    })
}

/// `Action::MakeOuterEnumeration`.
pub fn make_outer_enumeration(alloc: Global, values: &mut Stack<Value>) -> Value
    ensures { result ∷ values.new ≡ build action.MakeOuterEnumeration values.old }
{
    let enumeration = take::enumeration(alloc, values);
    let span = enumeration.span;
    Value::Outer(Node {
        tree: Outer::Enumeration(enumeration),
        span,
    })
}

/// `Action::MakeVisibleClass`.
pub fn make_visible_class(alloc: Global, values: &mut Stack<Value>) -> Value
    ensures { result ∷ values.new ≡ build action.MakeVisibleClass values.old }
{
    let class = take::class(alloc, values);
    let word = take::mark(values);
    let span = across(word.span, class.span);
    Value::Outer(Node {
        tree: Outer::VisibleClass(visibility_of(word.terminal), class, span),
        span,
    })
}

/// `Action::MakeVisibleEnumeration`.
pub fn make_visible_enumeration(alloc: Global, values: &mut Stack<Value>) -> Value
    ensures { result ∷ values.new ≡ build action.MakeVisibleEnumeration values.old }
{
    let enumeration = take::enumeration(alloc, values);
    let word = take::mark(values);
    let span = across(word.span, enumeration.span);
    Value::Outer(Node {
        tree: Outer::VisibleEnumeration(visibility_of(word.terminal), enumeration, span),
        span,
    })
}

/// `Action::MakeForward`.
pub fn make_forward(alloc: Global, values: &mut Stack<Value>) -> Value
    ensures { result ∷ values.new ≡ build action.MakeForward values.old }
{
    let semicolon = take::mark(values);
    let name = take::name(alloc, values);
    let key = take::key(values);
    let span = across(key.span, semicolon.span);
    Value::Outer(Node {
        tree: Outer::Forward(key, name.identifier, span),
        span,
    })
}

/// `Action::MakeOuterTemplate`.
pub fn make_outer_template(alloc: Global, values: &mut Stack<Value>) -> Value
    ensures { result ∷ values.new ≡ build action.MakeOuterTemplate values.old }
{
    let template = take::template(alloc, values);
    let span = template.span;
    Value::Outer(Node {
        tree: Outer::Template(template.tree),
        span,
    })
}

/// `Action::MakeOuterFunction`.
pub fn make_outer_function(alloc: Global, values: &mut Stack<Value>) -> Value
    ensures { result ∷ values.new ≡ build action.MakeOuterFunction values.old }
{
    let function = take::function(alloc, values);
    let span = function.span;
    Value::Outer(Node {
        tree: Outer::Function(function),
        span,
    })
}

/// `Action::StartOuters`.
pub fn start_outers(alloc: Global) -> Value
    ensures { (vs : List Value) → result ∷ vs ≡ build action.StartOuters vs }
{
    let span = nowhere();
    Value::Outers(Node {
        tree: Items::new(alloc),
        span,
    })
}

/// `Action::AddOuter`.
pub fn add_outer(alloc: Global, values: &mut Stack<Value>) -> Result<Value, AllocError>
    ensures { IfOk result (λ v. v ∷ values.new ≡ build action.AddOuter values.old) }
{
    let one = take::outer(alloc, values);
    let list = take::outers(alloc, values);
    let span = grown(&list, one.span);
    Ok(Value::Outers(Node {
        tree: added(list.tree, one.tree)?,
        span,
    }))
}

/// `Action::MakeUnit`.
pub fn make_unit(alloc: Global, values: &mut Stack<Value>) -> Value
    ensures { result ∷ values.new ≡ build action.MakeUnit values.old }
{
    let outers = take::outers(alloc, values);
    Value::Unit(Unit {
        outers: outers.tree,
        span: outers.span,
    })
}
