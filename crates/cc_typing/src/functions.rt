// The typed bodies of the functions of a source (ECMA-372, 10 and 25; ISO/IEC 14882:2003, 6.6.3).
ghost use Rattle.std.specs.Prelude.{◌≡◌, ◌<◌, ◌^◌, [], length, map, slice_get, IfOk};
ghost use Rattle.std.specs.List.{list_any};
ghost use Rattle.cc_core.specs.Types.{bare};
ghost use Rattle.cc_core.specs.Bare.{step_of};
ghost use Rattle.cc_operations.specs.Choosing.{Pick, Chooses};
ghost use Rattle.cc_operations.specs.Judgements.{judged_by};
ghost use Rattle.cc_operations.specs.Numbers as numbers;
ghost use Rattle.cc_typing.specs.Told as held;
ghost use Rattle.cc_typing_laws.specs.Functions as spec;

use crate::contents::Placed;
use crate::known::{frame_of, number, number_at};
use cc_base::{Kind, List, MethodId};
use cc_core::{CoreType, FunctionBody, Statement};
use cc_names::Item;
use cc_operations::{Frame, Judged, Refusal, Source, core, is_void, no_conversion, written};
use cc_statements::{Stand, block};
use cc_terms::{Finder, block_way};
use cc_tree::{Function, FundamentalType};
use std::alloc::{AllocError, Global};

/// Around the body of a function.
const OUTERMOST: Stand = Stand {
    breaks: false,
    continues: false,
    declares: true,
};

/// Whether a parameter of a function is `void`.
fn takes_void(function: &Function) -> bool
    ensures { result ≡ list_any numbers.is_void (spec.parameter_types function.now) }
{
    let parameters = function.parameters.items.as_slice();
    for parameter in parameters {
        if is_void(written(&parameter.of)) {
            return true;
        }
    }
    false
}

/// Whether it is the function `main` outside namespaces.
pub(crate) fn is_main(one: &Placed<'_>) -> bool
    ensures { result ≡ spec.is_main (held.told one.now) }
{
    one.path.as_slice() == b"".as_slice() && one.function.name.name.as_slice() == b"main".as_slice()
}

/// Whether a function has a result, and is not `main`.
fn must_end(one: &Placed<'_>) -> bool
    ensures { result ≡ spec.must_end (held.told one.now) }
{
    !is_void(written(&one.function.result)) && !is_main(one)
}

/// Fundamental types as types of typed terms.
fn core_types(alloc: Global, types: &[FundamentalType]) -> Result<List<CoreType>, AllocError>
    ensures { IfOk result (λ made. map bare made ≡ map numbers.core types.now) }
{
    let mut made = List::new(alloc);
    for of in types {
        made.push(core(*of))?;
    }
    Ok(made)
}

/// The typed body of a function, which ends where it must.
fn ended(
    alloc: Global,
    one: &Placed<'_>,
    number: u32,
    body: Statement,
    frame: &Frame,
) -> Result<Judged<FunctionBody>, AllocError>
    ensures { IfOk result (λ judged. judged_by spec.told_body judged ≡ spec.ended (held.told one.now) number (step_of body) frame.now) }
{
    if must_end(one) && !block_way(one.body).ends {
        return Ok(Err(Refusal {
            kind: Kind::MissingReturn,
            span: one.function.span,
        }));
    }
    let locals = core_types(alloc, frame.locals.as_slice())?;
    Ok(Ok(FunctionBody {
        method: MethodId(number),
        result: core(written(&one.function.result)),
        locals,
        start: List::new(alloc),
        body,
    }))
}

/// The typed body of a function, or why it is refused.
fn function_typed<F: Finder>(
    alloc: Global,
    finder: &F,
    source: &Source,
    one: &Placed<'_>,
    number: u32,
    scope: u32,
) -> Result<Judged<FunctionBody>, AllocError>
    requires { length source.now.functions < 2 ^ 32 }
    ensures { IfOk result (λ judged. (choice : Pick) → Chooses source.now.classes choice → judged_by spec.told_body judged ≡ spec.function_typed choice (F.finds finder.now) source.now (held.told one.now) number scope) }
{
    if takes_void(one.function) {
        return Ok(Err(no_conversion(one.function.span)));
    }
    let mut frame = frame_of(alloc, one, scope)?;
    let body = judged!(block(alloc, finder, source, one.body, OUTERMOST, &mut frame)?);
    let typed = ended(alloc, one, number, body, &frame)?;
    Ok(typed)
}

/// The scope in which the function of a number is declared.
fn scope_of(items: &[Item], number: u32) -> u32
    ensures { result ≡ spec.scope_of (slice_get items.now number) }
{
    match items.get(number as usize) {
        None => 0,
        Some(one) => one.scope,
    }
}

/// The typed bodies of functions in order of their numbers, or why the first that is refused is so.
pub(crate) fn bodies<F: Finder>(
    alloc: Global,
    finder: &F,
    source: &Source,
    items: &[Item],
    numbers: &[u32],
    functions: &[Placed<'_>],
) -> Result<Judged<List<FunctionBody>>, AllocError>
    requires { length source.now.functions < 2 ^ 32 }
    ensures { IfOk result (λ judged. (choice : Pick) → Chooses source.now.classes choice → judged_by (map spec.told_body) judged ≡ spec.bodies_from choice (F.finds finder.now) source.now items.now numbers.now 0 (held.told_all functions.now) []) }
{
    let mut done = List::new(alloc);
    for at in 0..functions.len() {
        let scope = scope_of(items, number_at(numbers, at));
        let made = function_typed(alloc, finder, source, &functions[at], number(at)?, scope)?;
        let made = judged!(made);
        done.push(made)?;
    }
    Ok(Ok(done))
}
