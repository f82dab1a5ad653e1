// Members and what they are made of, taken off the stack. What isn't of the wanted kind stands for nothing of that kind.
ghost use Rattle.std.specs.Prelude.{◌≡◌};
ghost use Rattle.cc_pushdown.specs.Values as spec;

use crate::absent::{no_accessor, no_arguments, no_name, no_parameters, no_type};
use crate::parts::nowhere;
use crate::take::discard;
use cc_pushdown::{Node, Stack, Value};
use cc_tree::{
    AccessWord, Accessor, Block, Member, MemberInitializer, Modifier, NamedFunction, Overridden,
    Parameter, Parameters, PropertyName, TypeName,
};
use sqlite_items::Items;
use std::alloc::Global;

/// The topmost value, as a parameter list.
pub fn parameter_list(alloc: Global, values: &mut Stack<Value>) -> Node<Items<Parameter>>
    ensures top { result ≡ spec.top_parameter_list values.old }
    ensures rest { values.new ≡ spec.below values.old }
{
    match values.pop() {
        Some(Value::ParameterList(taken)) => taken,
        Some(other) => {
            discard(other);
            Node {
                tree: Items::new(alloc),
                span: nowhere(),
            }
        }
        None => Node {
            tree: Items::new(alloc),
            span: nowhere(),
        },
    }
}

/// The topmost value, as a parameters.
pub fn parameters(alloc: Global, values: &mut Stack<Value>) -> Parameters
    ensures top { result ≡ spec.top_parameters values.old }
    ensures rest { values.new ≡ spec.below values.old }
{
    match values.pop() {
        Some(Value::Parameters(taken)) => taken,
        Some(other) => {
            discard(other);
            no_parameters(alloc)
        }
        None => no_parameters(alloc),
    }
}

/// The topmost value, as a modifiers.
pub fn modifiers(alloc: Global, values: &mut Stack<Value>) -> Items<Modifier>
    ensures top { result ≡ spec.top_modifiers values.old }
    ensures rest { values.new ≡ spec.below values.old }
{
    match values.pop() {
        Some(Value::Modifiers(taken)) => taken,
        Some(other) => {
            discard(other);
            Items::new(alloc)
        }
        None => Items::new(alloc),
    }
}

/// The topmost value, as an overridden.
pub fn overridden(values: &mut Stack<Value>) -> Option<Overridden>
    ensures top { result ≡ spec.top_overridden values.old }
    ensures rest { values.new ≡ spec.below values.old }
{
    match values.pop() {
        Some(Value::Overridden(taken)) => taken,
        Some(other) => {
            discard(other);
            None
        }
        None => None,
    }
}

/// The topmost value, as a named function.
pub fn named_function(alloc: Global, values: &mut Stack<Value>) -> NamedFunction
    ensures top { result ≡ spec.top_named_function values.old }
    ensures rest { values.new ≡ spec.below values.old }
{
    match values.pop() {
        Some(Value::NamedFunction(taken)) => taken,
        Some(other) => {
            discard(other);
            NamedFunction {
                class: no_type(),
                name: no_name(alloc),
                accessor: None,
                span: nowhere(),
            }
        }
        None => NamedFunction {
            class: no_type(),
            name: no_name(alloc),
            accessor: None,
            span: nowhere(),
        },
    }
}

/// The topmost value, as a named functions.
pub fn named_functions(alloc: Global, values: &mut Stack<Value>) -> Node<Items<NamedFunction>>
    ensures top { result ≡ spec.top_named_functions values.old }
    ensures rest { values.new ≡ spec.below values.old }
{
    match values.pop() {
        Some(Value::NamedFunctions(taken)) => taken,
        Some(other) => {
            discard(other);
            Node {
                tree: Items::new(alloc),
                span: nowhere(),
            }
        }
        None => Node {
            tree: Items::new(alloc),
            span: nowhere(),
        },
    }
}

/// The topmost value, as a body.
pub fn body(values: &mut Stack<Value>) -> Node<Option<Block>>
    ensures top { result ≡ spec.top_body values.old }
    ensures rest { values.new ≡ spec.below values.old }
{
    match values.pop() {
        Some(Value::Body(taken)) => taken,
        Some(other) => {
            discard(other);
            Node {
                tree: None,
                span: nowhere(),
            }
        }
        None => Node {
            tree: None,
            span: nowhere(),
        },
    }
}

/// The topmost value, as an accessor.
pub fn accessor(alloc: Global, values: &mut Stack<Value>) -> Accessor
    ensures top { result ≡ spec.top_accessor values.old }
    ensures rest { values.new ≡ spec.below values.old }
{
    match values.pop() {
        Some(Value::Accessor(taken)) => taken,
        Some(other) => {
            discard(other);
            no_accessor(alloc)
        }
        None => no_accessor(alloc),
    }
}

/// The topmost value, as an accessors.
pub fn accessors(alloc: Global, values: &mut Stack<Value>) -> Items<Accessor>
    ensures top { result ≡ spec.top_accessors values.old }
    ensures rest { values.new ≡ spec.below values.old }
{
    match values.pop() {
        Some(Value::Accessors(taken)) => taken,
        Some(other) => {
            discard(other);
            Items::new(alloc)
        }
        None => Items::new(alloc),
    }
}

/// The topmost value, as an initializer.
pub fn initializer(alloc: Global, values: &mut Stack<Value>) -> MemberInitializer
    ensures top { result ≡ spec.top_initializer values.old }
    ensures rest { values.new ≡ spec.below values.old }
{
    match values.pop() {
        Some(Value::Initializer(taken)) => taken,
        Some(other) => {
            discard(other);
            MemberInitializer::Member(no_name(alloc), no_arguments(alloc), nowhere())
        }
        None => MemberInitializer::Member(no_name(alloc), no_arguments(alloc), nowhere()),
    }
}

/// The topmost value, as an initializers.
pub fn initializers(alloc: Global, values: &mut Stack<Value>) -> Items<MemberInitializer>
    ensures top { result ≡ spec.top_initializers values.old }
    ensures rest { values.new ≡ spec.below values.old }
{
    match values.pop() {
        Some(Value::Initializers(taken)) => taken,
        Some(other) => {
            discard(other);
            Items::new(alloc)
        }
        None => Items::new(alloc),
    }
}

/// The topmost value, as a property type.
pub fn property_type(values: &mut Stack<Value>) -> Node<TypeName>
    ensures top { result ≡ spec.top_property_type values.old }
    ensures rest { values.new ≡ spec.below values.old }
{
    match values.pop() {
        Some(Value::PropertyType(taken)) => taken,
        Some(other) => {
            discard(other);
            Node {
                tree: no_type(),
                span: nowhere(),
            }
        }
        None => Node {
            tree: no_type(),
            span: nowhere(),
        },
    }
}

/// The topmost value, as a property name.
pub fn property_name(alloc: Global, values: &mut Stack<Value>) -> PropertyName
    ensures top { result ≡ spec.top_property_name values.old }
    ensures rest { values.new ≡ spec.below values.old }
{
    match values.pop() {
        Some(Value::PropertyName(taken)) => taken,
        Some(other) => {
            discard(other);
            PropertyName::Named(no_name(alloc))
        }
        None => PropertyName::Named(no_name(alloc)),
    }
}

/// The topmost value, as a member.
pub fn member(values: &mut Stack<Value>) -> Member
    ensures top { result ≡ spec.top_member values.old }
    ensures rest { values.new ≡ spec.below values.old }
{
    match values.pop() {
        Some(Value::Member(taken)) => taken,
        Some(other) => {
            discard(other);
            Member::Access(AccessWord::Public, nowhere())
        }
        None => Member::Access(AccessWord::Public, nowhere()),
    }
}

/// The topmost value, as a members.
pub fn members(alloc: Global, values: &mut Stack<Value>) -> Items<Member>
    ensures top { result ≡ spec.top_members values.old }
    ensures rest { values.new ≡ spec.below values.old }
{
    match values.pop() {
        Some(Value::Members(taken)) => taken,
        Some(other) => {
            discard(other);
            Items::new(alloc)
        }
        None => Items::new(alloc),
    }
}
