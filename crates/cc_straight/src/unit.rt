// The operations of a whole unit.
ghost use Rattle.std.specs.Prelude.{◌≡◌, map};
ghost use Rattle.cc_core.specs.StraightSource.{source_operations};
ghost use Rattle.cc_tree.specs.declared.type_name.TypeName.{out-TypeName};
ghost use Rattle.cc_tree.specs.declared.unit.Outer.{out-Outer};
ghost use Rattle.cc_straight.specs.Form as form;
ghost use Rattle.cc_straight.specs.Added.{IsAdded};

use crate::fault::{CompileFault, not_yet};
use crate::lines::add_block;
use crate::spans::{outer_span, type_span};
use cc_base::Span;
use cc_core::StraightOperation;
use cc_tree::{Block, Function, FundamentalType, Outer, TypeName, Unit};

const NOWHERE: Span = Span { first: 0, past: 0 };

fn is_int(of: &TypeName) -> bool
    ensures { result ≡ form.is_int (out-TypeName of.now) }
{
    match of {
        TypeName::Fundamental(FundamentalType::Int, _) => true,
        _ => false,
    }
}

fn is_main(function: &Function) -> bool
    ensures { result ≡ form.is_main function.now }
{
    function.name.name.as_slice() == b"main".as_slice()
}

fn outer_is_main(outer: &Outer) -> bool
    ensures { result ≡ form.layer_is_main (out-Outer outer.now) }
{
    match outer {
        Outer::Function(function) => is_main(function),
        _ => false,
    }
}

fn has_main(outers: &[Outer]) -> bool
    ensures { result ≡ form.has_main outers.now }
{
    for outer in outers {
        if outer_is_main(outer) {
            return true;
        }
    }
    false
}

// The operations of `int NAME()` and its block.
fn add_function(
    function: &Function,
    body: &Block,
    into: &mut Vec<StraightOperation>,
) -> Result<(), CompileFault>
    ensures { IsAdded source_operations result (form.function_source function.now body.now) into.old.items into.new.items }
{
    if !is_int(&function.result) {
        return Err(not_yet(type_span(&function.result)));
    }
    if !function.parameters.items.is_empty() {
        return Err(not_yet(function.parameters.span));
    }
    add_block(body, into)
}

// The operations of a function that nothing stands behind.
fn add_alone(
    function: &Function,
    body: &Block,
    outers: &[Outer],
    into: &mut Vec<StraightOperation>,
) -> Result<(), CompileFault>
    ensures { IsAdded source_operations result (form.alone (form.function_source function.now body.now) outers.now) into.old.items into.new.items }
{
    add_function(function, body, into)?;
    match outers {
        [outer, ..] => Err(not_yet(outer_span(outer))),
        [] => Ok(()),
    }
}

// The operations of a function, if it is the only `main`.
fn add_main(
    function: &Function,
    outers: &[Outer],
    into: &mut Vec<StraightOperation>,
) -> Result<(), CompileFault>
    ensures { IsAdded source_operations result (form.main_source function.now function.now.body outers.now) into.old.items into.new.items }
{
    let Some(body) = &function.body else {
        return Err(not_yet(function.span));
    };
    if is_main(function) && !has_main(outers) {
        add_alone(function, body, outers, into)
    } else {
        Err(not_yet(function.span))
    }
}

fn add_first(
    outer: &Outer,
    outers: &[Outer],
    into: &mut Vec<StraightOperation>,
) -> Result<(), CompileFault>
    ensures { IsAdded source_operations result (form.first_source (out-Outer outer.now) outers.now) into.old.items into.new.items }
{
    match outer {
        Outer::Function(function) => add_main(function, outers, into),
        other => Err(not_yet(outer_span(other))),
    }
}

// A function is declared, or stands in a namespace.
#[cycle(functions)]
fn has_function(outer: &Outer) -> bool
    ensures { result ≡ form.has_function outer.now }
{
    match outer {
        Outer::Function(_) => true,
        Outer::Namespace(_, outers, _) => have_function(outers.as_slice()),
        _ => false,
    }
}

#[cycle(functions)]
fn have_function(outers: &[Outer]) -> bool
    ensures { result ≡ form.is_any (map form.has_function outers.now) }
{
    for outer in outers {
        if has_function(outer) {
            return true;
        }
    }
    false
}

fn add_outers(outers: &[Outer], into: &mut Vec<StraightOperation>) -> Result<(), CompileFault>
    ensures { IsAdded source_operations result (form.outers_source outers.now) into.old.items into.new.items }
{
    match outers {
        [outer, outers @ ..] => add_first(outer, outers, into),
        [] => Err(not_yet(NOWHERE)),
    }
}

/// Adds the operations of the straight program that a unit is.
pub fn add_unit(unit: &Unit, into: &mut Vec<StraightOperation>) -> Result<(), CompileFault>
    ensures { IsAdded source_operations result (form.unit_source unit.now) into.old.items into.new.items }
{
    if have_function(unit.outers.as_slice()) {
        add_outers(unit.outers.as_slice(), into)
    } else {
        Err(not_yet(NOWHERE))
    }
}
