// What stands for a value that is not there.
ghost use Rattle.std.specs.Prelude.{◌≡◌, []};
ghost use Rattle.cc_tree.specs.declared.expression.Arguments.{roll-Arguments};
ghost use Rattle.cc_pushdown.specs.Values as spec;

use crate::parts::nowhere;
use cc_base::List;
use cc_pushdown::Mark;
use cc_tree::{
    Accessor, AccessorWord, AggregateWord, Arguments, Class, ClassKey, ClassWord, Function,
    FundamentalType, Identifier, Parameters, Terminal, TypeName,
};
use sqlite_items::Items;
use std::alloc::Global;

pub fn no_mark() -> Mark
    ensures { result ≡ spec.no_mark }
{
    Mark {
        terminal: Terminal::Other,
        span: nowhere(),
    }
}

pub fn no_name(alloc: Global) -> Identifier
    ensures { result ≡ spec.no_name }
{
    Identifier {
        name: List::new(alloc),
        span: nowhere(),
    }
}

pub fn no_type() -> TypeName
    ensures { result ≡ spec.no_type }
{
    TypeName::Fundamental(FundamentalType::Void, nowhere())
}

pub fn no_arguments(alloc: Global) -> Arguments
    ensures { result ≡ spec.no_arguments }
{
    Arguments {
        items: Items::new(alloc),
        span: nowhere(),
    }
}

pub fn no_parameters(alloc: Global) -> Parameters
    ensures { result ≡ spec.no_parameters }
{
    Parameters {
        items: Items::new(alloc),
        span: nowhere(),
    }
}

pub fn no_accessor(alloc: Global) -> Accessor
    ensures { result ≡ spec.no_accessor }
{
    Accessor {
        is_virtual: false,
        of: no_type(),
        word: AccessorWord::Get,
        word_span: nowhere(),
        parameters: no_parameters(alloc),
        modifiers: Items::new(alloc),
        overridden: None,
        body: None,
        span: nowhere(),
    }
}

pub fn no_key() -> ClassKey
    ensures { result ≡ spec.no_key }
{
    ClassKey {
        word: ClassWord::Ref,
        aggregate: AggregateWord::Class,
        span: nowhere(),
    }
}

pub fn no_class(alloc: Global) -> Class
    ensures { result ≡ spec.no_class }
{
    Class {
        key: no_key(),
        name: no_name(alloc),
        modifiers: Items::new(alloc),
        bases: Items::new(alloc),
        members: Items::new(alloc),
        span: nowhere(),
    }
}

pub fn no_function(alloc: Global) -> Function
    ensures { result ≡ spec.no_function }
{
    Function {
        result: no_type(),
        name: no_name(alloc),
        parameters: no_parameters(alloc),
        body: None,
        span: nowhere(),
    }
}
