// Types made of the parts that were read.
ghost use Rattle.std.specs.Prelude.{◌≡◌, ◌∷◌, List, IfOk};
ghost use Rattle.cc_pushdown.specs.Build.{build};
ghost use Rattle.cc_table.specs.declared.symbols.Action.TheVariants as action;

use cc_build::parts::{across, added, boxed, joined, qualified_span};
use cc_build::{Node, QualifiedName, Stack, Value, take};
use cc_tree::{FundamentalType, TypeName};
use sqlite_items::Items;
use std::alloc::{AllocError, Global};

/// `Action::JoinMarks`.
pub fn join_marks(values: &mut Stack<Value>) -> Value
    ensures { result ∷ values.new ≡ build action.JoinMarks values.old }
{
    let second = take::mark(values);
    let first = take::mark(values);
    Value::Mark(joined(first, second))
}

/// `Action::Fundamental`.
pub fn fundamental(of: FundamentalType, values: &mut Stack<Value>) -> Value
    ensures { result ∷ values.new ≡ build (action.Fundamental of) values.old }
{
    let mark = take::mark(values);
    let span = mark.span;
    Value::Type(Node {
        tree: TypeName::Fundamental(of, span),
        span,
    })
}

/// `Action::StartPath`.
pub fn start_path(alloc: Global, values: &mut Stack<Value>) -> Value
    ensures { result ∷ values.new ≡ build action.StartPath values.old }
{
    let name = take::name(alloc, values);
    Value::Qualified(QualifiedName {
        path: Items::new(alloc),
        name: name.identifier,
    })
}

/// `Action::AddToPath`.
pub fn add_to_path(alloc: Global, values: &mut Stack<Value>) -> Result<Value, AllocError>
    ensures { IfOk result (λ v. v ∷ values.new ≡ build action.AddToPath values.old) }
{
    let name = take::qualified(alloc, values);
    Ok(Value::Path(added(name.path, name.name)?))
}

/// `Action::EndPath`.
pub fn end_path(alloc: Global, values: &mut Stack<Value>) -> Value
    ensures { result ∷ values.new ≡ build action.EndPath values.old }
{
    let name = take::name(alloc, values);
    let path = take::path(alloc, values);
    Value::Qualified(QualifiedName {
        path: path,
        name: name.identifier,
    })
}

/// `Action::MakeNamed`.
pub fn make_named(alloc: Global, values: &mut Stack<Value>) -> Value
    ensures { result ∷ values.new ≡ build action.MakeNamed values.old }
{
    let name = take::qualified(alloc, values);
    let span = qualified_span(&name.path, &name.name);
    Value::Type(Node {
        tree: TypeName::Named(name.path, name.name, Items::new(alloc), span),
        span,
    })
}

/// `Action::MakeApplied`.
pub fn make_applied(alloc: Global, values: &mut Stack<Value>) -> Value
    ensures { result ∷ values.new ≡ build action.MakeApplied values.old }
{
    let greater = take::mark(values);
    let types = take::types(alloc, values);
    let _less = take::mark(values);
    let name = take::qualified(alloc, values);
    let span = across(qualified_span(&name.path, &name.name), greater.span);
    Value::Type(Node {
        tree: TypeName::Named(name.path, name.name, types, span),
        span,
    })
}

/// `Action::MakeHandle`.
pub fn make_handle(alloc: Global, values: &mut Stack<Value>) -> Result<Value, AllocError>
    ensures { IfOk result (λ v. v ∷ values.new ≡ build action.MakeHandle values.old) }
{
    let hat = take::mark(values);
    let core = take::type_name(values);
    let span = across(core.span, hat.span);
    Ok(Value::Type(Node {
        tree: TypeName::Marked(boxed(alloc, core.tree)?, true, false, span),
        span,
    }))
}

/// `Action::MakeTracking`.
pub fn make_tracking(alloc: Global, values: &mut Stack<Value>) -> Result<Value, AllocError>
    ensures { IfOk result (λ v. v ∷ values.new ≡ build action.MakeTracking values.old) }
{
    let percent = take::mark(values);
    let core = take::type_name(values);
    let span = across(core.span, percent.span);
    Ok(Value::Type(Node {
        tree: TypeName::Marked(boxed(alloc, core.tree)?, false, true, span),
        span,
    }))
}

/// `Action::MakeHandleTracking`.
pub fn make_handle_tracking(alloc: Global, values: &mut Stack<Value>) -> Result<Value, AllocError>
    ensures { IfOk result (λ v. v ∷ values.new ≡ build action.MakeHandleTracking values.old) }
{
    let percent = take::mark(values);
    let _hat = take::mark(values);
    let core = take::type_name(values);
    let span = across(core.span, percent.span);
    Ok(Value::Type(Node {
        tree: TypeName::Marked(boxed(alloc, core.tree)?, true, true, span),
        span,
    }))
}

/// `Action::StartTypes`.
pub fn start_types(alloc: Global) -> Value
    ensures { (vs : List Value) → result ∷ vs ≡ build action.StartTypes vs }
{
    Value::Types(Items::new(alloc))
}

/// `Action::AddType`.
pub fn add_type(alloc: Global, values: &mut Stack<Value>) -> Result<Value, AllocError>
    ensures { IfOk result (λ v. v ∷ values.new ≡ build action.AddType values.old) }
{
    let of = take::type_name(values);
    let types = take::types(alloc, values);
    Ok(Value::Types(added(types, of.tree)?))
}

/// `Action::FirstType`.
pub fn first_type(alloc: Global, values: &mut Stack<Value>) -> Result<Value, AllocError>
    ensures { IfOk result (λ v. v ∷ values.new ≡ build action.FirstType values.old) }
{
    let of = take::type_name(values);
    Ok(Value::Types(added(Items::new(alloc), of.tree)?))
}
