// Functions and namespaces that are built, and whole sources (ECMA-372, 10 and 25).
ghost use Rattle.std.specs.Prelude.{◌≡◌, map};
ghost use Rattle.cc_forms.specs.Forms.{found, first_of, optional_of, block_form, parameter_form, function_form, outer_form};
ghost use Rattle.cc_forms.specs.Forms as forms;

use crate::statements::block;
use crate::types::type_name;
use cc_base::Span;
use cc_tree::{Block, Function, Outer, Parameter, Template, Unit};

fn parameters(parameters: &[Parameter]) -> Result<(), Span>
    ensures { found result ≡ first_of (map parameter_form parameters.now) }
{
    'parameters: for parameter in parameters {
        type_name(&parameter.of)?;
    }
    Ok(())
}

fn optional_block(body: &Option<Block>) -> Result<(), Span>
    ensures { found result ≡ optional_of block_form body.now }
{
    match body {
        None => Ok(()),
        Some(body) => block(body),
    }
}

fn function(function: &Function) -> Result<(), Span>
    ensures { found result ≡ function_form function.now }
{
    type_name(&function.result)?;
    parameters(function.parameters.items.as_slice())?;
    optional_block(&function.body)
}

fn template_span(template: &Template) -> Span
    ensures { result ≡ forms.template_span template.now }
{
    match template {
        Template::Class(_, _, span) => *span,
        Template::Function(_, _, span) => *span,
    }
}

#[cycle(outer)]
fn outer(outer: &Outer) -> Result<(), Span>
    ensures { found result ≡ outer_form outer.now }
{
    match outer {
        Outer::Using(_, _) => Ok(()),
        Outer::Namespace(_, outers, _) => self::outers(outers.as_slice()),
        Outer::Class(class) => Err(class.span),
        Outer::Enumeration(enumeration) => Err(enumeration.span),
        Outer::VisibleClass(_, _, span) => Err(*span),
        Outer::VisibleEnumeration(_, _, span) => Err(*span),
        Outer::Forward(_, _, span) => Err(*span),
        Outer::Template(template) => Err(template_span(template)),
        Outer::Function(function) => self::function(function),
    }
}

#[cycle(outer)]
fn outers(outers: &[Outer]) -> Result<(), Span>
    ensures { found result ≡ first_of (map outer_form outers.now) }
{
    'outers: for outer in outers {
        self::outer(outer)?;
    }
    Ok(())
}

/// The first node of a source that is of no form that is built, in order of place and an outer node before an inner one;
/// `None` exactly where all are built. Built are using directives, namespaces, functions outside classes and their
/// prototypes, fundamental types under all their names, local variables with `=` or without, all statements but `delete`,
/// `for each`, `throw` and `try`, numbers, characters, `true`, `false`, all operators but the unary `%`, calls and casts
/// (ECMA-372, 12.1, 15 and 16). It takes no memory.
pub fn first_not_built(unit: &Unit) -> Option<Span>
    ensures { result ≡ forms.first_not_built unit.now }
{
    match outers(unit.outers.as_slice()) {
        Ok(()) => None,
        Err(span) => Some(span),
    }
}
