// Classes, functions and what else stands outside classes, taken off the stack. What isn't of the wanted kind stands for nothing of that kind.
ghost use Rattle.std.specs.Prelude.{◌≡◌};
ghost use Rattle.cc_pushdown.specs.Values as spec;

use crate::absent::{no_class, no_function, no_key, no_name, no_type};
use crate::parts::nowhere;
use crate::take::discard;
use cc_pushdown::{ClassHead, Node, Stack, Value};
use cc_tree::{
    AggregateWord, Base, Class, ClassKey, ClassModifier, Enumeration, Enumerator, Function, Outer,
    ParameterWord, Template, TemplateParameter, Unit,
};
use sqlite_items::Items;
use std::alloc::Global;

/// The topmost value, as a key.
pub fn key(values: &mut Stack<Value>) -> ClassKey
    ensures top { result ≡ spec.top_key values.old }
    ensures rest { values.new ≡ spec.below values.old }
{
    match values.pop() {
        Some(Value::Key(taken)) => taken,
        Some(other) => {
            discard(other);
            no_key()
        }
        None => no_key(),
    }
}

/// The topmost value, as a class modifiers.
pub fn class_modifiers(alloc: Global, values: &mut Stack<Value>) -> Items<ClassModifier>
    ensures top { result ≡ spec.top_class_modifiers values.old }
    ensures rest { values.new ≡ spec.below values.old }
{
    match values.pop() {
        Some(Value::ClassModifiers(taken)) => taken,
        Some(other) => {
            discard(other);
            Items::new(alloc)
        }
        None => Items::new(alloc),
    }
}

/// The topmost value, as a base.
pub fn base(values: &mut Stack<Value>) -> Base
    ensures top { result ≡ spec.top_base values.old }
    ensures rest { values.new ≡ spec.below values.old }
{
    match values.pop() {
        Some(Value::Base(taken)) => taken,
        Some(other) => {
            discard(other);
            Base {
                is_public: false,
                of: no_type(),
                span: nowhere(),
            }
        }
        None => Base {
            is_public: false,
            of: no_type(),
            span: nowhere(),
        },
    }
}

/// The topmost value, as a bases.
pub fn bases(alloc: Global, values: &mut Stack<Value>) -> Items<Base>
    ensures top { result ≡ spec.top_bases values.old }
    ensures rest { values.new ≡ spec.below values.old }
{
    match values.pop() {
        Some(Value::Bases(taken)) => taken,
        Some(other) => {
            discard(other);
            Items::new(alloc)
        }
        None => Items::new(alloc),
    }
}

/// The topmost value, as a head.
pub fn head(alloc: Global, values: &mut Stack<Value>) -> ClassHead
    ensures top { result ≡ spec.top_head values.old }
    ensures rest { values.new ≡ spec.below values.old }
{
    match values.pop() {
        Some(Value::Head(taken)) => taken,
        Some(other) => {
            discard(other);
            ClassHead {
                key: no_key(),
                name: no_name(alloc),
                modifiers: Items::new(alloc),
                bases: Items::new(alloc),
            }
        }
        None => ClassHead {
            key: no_key(),
            name: no_name(alloc),
            modifiers: Items::new(alloc),
            bases: Items::new(alloc),
        },
    }
}

/// The topmost value, as a class.
pub fn class(alloc: Global, values: &mut Stack<Value>) -> Class
    ensures top { result ≡ spec.top_class values.old }
    ensures rest { values.new ≡ spec.below values.old }
{
    match values.pop() {
        Some(Value::Class(taken)) => taken,
        Some(other) => {
            discard(other);
            no_class(alloc)
        }
        None => no_class(alloc),
    }
}

/// The topmost value, as an enumerator.
pub fn enumerator(alloc: Global, values: &mut Stack<Value>) -> Enumerator
    ensures top { result ≡ spec.top_enumerator values.old }
    ensures rest { values.new ≡ spec.below values.old }
{
    match values.pop() {
        Some(Value::Enumerator(taken)) => taken,
        Some(other) => {
            discard(other);
            Enumerator {
                name: no_name(alloc),
                value: None,
                span: nowhere(),
            }
        }
        None => Enumerator {
            name: no_name(alloc),
            value: None,
            span: nowhere(),
        },
    }
}

/// The topmost value, as an enumerators.
pub fn enumerators(alloc: Global, values: &mut Stack<Value>) -> Items<Enumerator>
    ensures top { result ≡ spec.top_enumerators values.old }
    ensures rest { values.new ≡ spec.below values.old }
{
    match values.pop() {
        Some(Value::Enumerators(taken)) => taken,
        Some(other) => {
            discard(other);
            Items::new(alloc)
        }
        None => Items::new(alloc),
    }
}

/// The topmost value, as an enumeration.
pub fn enumeration(alloc: Global, values: &mut Stack<Value>) -> Enumeration
    ensures top { result ≡ spec.top_enumeration values.old }
    ensures rest { values.new ≡ spec.below values.old }
{
    match values.pop() {
        Some(Value::Enumeration(taken)) => taken,
        Some(other) => {
            discard(other);
            Enumeration {
                aggregate: AggregateWord::Class,
                name: no_name(alloc),
                items: Items::new(alloc),
                span: nowhere(),
            }
        }
        None => Enumeration {
            aggregate: AggregateWord::Class,
            name: no_name(alloc),
            items: Items::new(alloc),
            span: nowhere(),
        },
    }
}

/// The topmost value, as a function.
pub fn function(alloc: Global, values: &mut Stack<Value>) -> Function
    ensures top { result ≡ spec.top_function values.old }
    ensures rest { values.new ≡ spec.below values.old }
{
    match values.pop() {
        Some(Value::Function(taken)) => taken,
        Some(other) => {
            discard(other);
            no_function(alloc)
        }
        None => no_function(alloc),
    }
}

/// The topmost value, as a template parameter.
pub fn template_parameter(alloc: Global, values: &mut Stack<Value>) -> TemplateParameter
    ensures top { result ≡ spec.top_template_parameter values.old }
    ensures rest { values.new ≡ spec.below values.old }
{
    match values.pop() {
        Some(Value::TemplateParameter(taken)) => taken,
        Some(other) => {
            discard(other);
            TemplateParameter {
                word: ParameterWord::Class,
                name: no_name(alloc),
                span: nowhere(),
            }
        }
        None => TemplateParameter {
            word: ParameterWord::Class,
            name: no_name(alloc),
            span: nowhere(),
        },
    }
}

/// The topmost value, as a template parameters.
pub fn template_parameters(alloc: Global, values: &mut Stack<Value>) -> Items<TemplateParameter>
    ensures top { result ≡ spec.top_template_parameters values.old }
    ensures rest { values.new ≡ spec.below values.old }
{
    match values.pop() {
        Some(Value::TemplateParameters(taken)) => taken,
        Some(other) => {
            discard(other);
            Items::new(alloc)
        }
        None => Items::new(alloc),
    }
}

/// The topmost value, as a template.
pub fn template(alloc: Global, values: &mut Stack<Value>) -> Node<Template>
    ensures top { result ≡ spec.top_template values.old }
    ensures rest { values.new ≡ spec.below values.old }
{
    match values.pop() {
        Some(Value::Template(taken)) => taken,
        Some(other) => {
            discard(other);
            Node {
                tree: Template::Function(Items::new(alloc), no_function(alloc), nowhere()),
                span: nowhere(),
            }
        }
        None => Node {
            tree: Template::Function(Items::new(alloc), no_function(alloc), nowhere()),
            span: nowhere(),
        },
    }
}

/// The topmost value, as an outer.
pub fn outer(alloc: Global, values: &mut Stack<Value>) -> Node<Outer>
    ensures top { result ≡ spec.top_outer values.old }
    ensures rest { values.new ≡ spec.below values.old }
{
    match values.pop() {
        Some(Value::Outer(taken)) => taken,
        Some(other) => {
            discard(other);
            Node {
                tree: Outer::Using(Items::new(alloc), nowhere()),
                span: nowhere(),
            }
        }
        None => Node {
            tree: Outer::Using(Items::new(alloc), nowhere()),
            span: nowhere(),
        },
    }
}

/// The topmost value, as an outers.
pub fn outers(alloc: Global, values: &mut Stack<Value>) -> Node<Items<Outer>>
    ensures top { result ≡ spec.top_outers values.old }
    ensures rest { values.new ≡ spec.below values.old }
{
    match values.pop() {
        Some(Value::Outers(taken)) => taken,
        Some(other) => {
            discard(other);
            Node {
                tree: Items::new(alloc),
                span: nowhere(),
            }
        }
        None => Node {
            tree: Items::new(alloc),
            span: nowhere(),
        },
    }
}

/// The topmost value, as an unit.
pub fn unit(alloc: Global, values: &mut Stack<Value>) -> Unit
    ensures top { result ≡ spec.top_unit values.old }
    ensures rest { values.new ≡ spec.below values.old }
{
    match values.pop() {
        Some(Value::Unit(taken)) => taken,
        Some(other) => {
            discard(other);
            Unit {
                outers: Items::new(alloc),
                span: nowhere(),
            }
        }
        None => Unit {
            outers: Items::new(alloc),
            span: nowhere(),
        },
    }
}
