// The typed program of a source, or why it is refused (ECMA-372, 10.9.1 and 20).
ghost use Rattle.std.specs.Prelude.{◌≡◌, ◌<◌, ◌^◌, length, None, Ok, IfOk, IfErr};
ghost use Rattle.cc_core.specs.Typed.{program_parts};
ghost use Rattle.cc_forms.specs.Forms.{first_not_built};
ghost use Rattle.cc_names.specs.Directives.{directives};
ghost use Rattle.cc_names.specs.Library.{declared};
ghost use Rattle.cc_operations.specs.Choosing.{Pick, Chooses};
ghost use Rattle.cc_operations.specs.Judgements.{judged_by};
ghost use Rattle.cc_typing.specs.Told as held;
ghost use Rattle.cc_typing.specs.Faults as faults;
ghost use Rattle.cc_typing_laws.specs.Finding.{finds_in};
ghost use Rattle.cc_typing_laws.specs.Contents as contents;
ghost use Rattle.cc_typing_laws.specs.Programs as spec;

use crate::classes::classes_of;
use crate::contents::{Placed, directed_in, functions_in};
use crate::fault::{TypeFault, fault_of};
use crate::finding::Names;
use crate::functions::{bodies, is_main};
use crate::known::{known, number, numbers_of};
use cc_base::{List, MethodId, Span};
use cc_core::{Classes, FunctionBody, Program};
use cc_names::Declarations;
use cc_operations::{Judged, Source, no_conversion, written};
use cc_tree::{FundamentalType, Unit};
use std::alloc::{AllocError, Global};

/// The parts of a typed program.
#[derive(Drop)]
struct Parts {
    classes: Classes,
    bodies: List<FunctionBody>,
    main: MethodId,
}

/// Whether a program may start at a function: `main` outside namespaces, which gives an `int` and takes nothing.
fn starts(one: &Placed<'_>) -> bool
    ensures { result ≡ spec.is_start (held.told one.now) }
{
    is_main(one)
        && matches!(written(&one.function.result), FundamentalType::Int)
        && one.function.parameters.items.is_empty()
}

/// The function at which a program starts; a source without one is refused at its span.
fn start_of(functions: &[Placed<'_>], span: Span) -> Result<Judged<MethodId>, AllocError>
    ensures { IfOk result (λ judged. judged ≡ spec.started_at span (spec.start_from 0 (held.told_all functions.now))) }
{
    for at in 0..functions.len() {
        if starts(&functions[at]) {
            return Ok(Ok(MethodId(number(at)?)));
        }
    }
    Ok(Err(no_conversion(span)))
}

/// The classes as those of a program. Those of a source are fewer than 2^32, as are their functions; more would want more memory
/// than there is.
fn all_classes(alloc: Global, functions: &[Placed<'_>]) -> Result<Classes, AllocError>
    ensures { IfOk result (λ classes. classes ≡ spec.classes_with spec.library_classes (held.told_all functions.now)) }
{
    match Classes::new(alloc, classes_of(alloc, functions)?) {
        Ok(classes) => Ok(classes),
        Err(_) => Err(AllocError),
    }
}

/// What typing knows of a source. It has fewer than 2^32 functions; more would want more memory than there is.
fn source_of(
    alloc: Global,
    unit: &Unit,
    numbers: &[u32],
    functions: &[Placed<'_>],
) -> Result<Source, AllocError>
    requires { held.told_all functions.now ≡ contents.functions unit.now }
    ensures few { IfOk result (λ source. length source.functions < 2 ^ 32) }
    ensures value { IfOk result (λ source. source ≡ spec.source_of spec.library_classes unit.now numbers.now) }
{
    let all = known(alloc, functions, numbers)?;
    let _count = number(all.len())?;
    Ok(Source {
        functions: all,
        directed: directed_in(alloc, unit)?,
        classes: all_classes(alloc, functions)?,
    })
}

/// The parts of the typed program of a source by what its declarations have, or why it is refused.
fn parts_by(
    alloc: Global,
    unit: &Unit,
    declarations: &Declarations,
) -> Result<Judged<Parts>, AllocError>
    ensures { IfOk result (λ judged. (choice : Pick) → Chooses (spec.classes_with spec.library_classes (contents.functions unit.now)) choice → judged_by held.told_parts judged ≡ spec.typed_with choice spec.library_classes (finds_in declarations.now.scopes declarations.now.items declarations.now.directives) declarations.now.items unit.now) }
{
    let functions = functions_in(alloc, unit)?;
    let items = declarations.items.as_slice();
    let numbers = numbers_of(alloc, items)?;
    let source = source_of(alloc, unit, numbers.as_slice(), &functions)?;
    let names = Names { declarations };
    let bodies = bodies(
        alloc,
        &names,
        &source,
        items,
        numbers.as_slice(),
        &functions,
    )?;
    let bodies = judged!(bodies);
    let main = judged!(start_of(&functions, unit.span)?);
    Ok(Ok(Parts {
        classes: source.classes,
        bodies,
        main,
    }))
}

/// The parts of the typed program of a source, or why it is refused.
fn typed_parts(
    alloc: Global,
    unit: &Unit,
    declarations: &Declarations,
) -> Result<Judged<Parts>, AllocError>
    requires scopes { declarations.now.scopes ≡ (declared unit.now).scopes }
    requires items { declarations.now.items ≡ (declared unit.now).items }
    requires directives { declarations.now.directives ≡ directives (declared unit.now).scopes (declared unit.now).items unit.now }
    ensures { IfOk result (λ judged. (choice : Pick) → Chooses (spec.classes_with spec.library_classes (contents.functions unit.now)) choice → judged_by held.told_parts judged ≡ spec.typed_program choice unit.now) }
{
    let made = parts_by(alloc, unit, declarations)?;
    Ok(made)
}

/// The program of the parts that typing makes of a source, of which each term is well typed.
fn program_of(unit: &Unit, parts: Parts) -> Program
    requires typed { (choice : Pick) → Chooses (spec.classes_with spec.library_classes (contents.functions unit.now)) choice → spec.typed_program choice unit.now ≡ Ok (held.told_parts parts) }
    ensures { result ≡ program_parts parts.classes parts.bodies parts.main }
{
    // what is typed is said of the unit
    let _unit = unit;
    Program::new(parts.classes, parts.bodies, parts.main)
}

/// The typed program of a source of the built forms, whose declarations are given (ECMA-372, 10 to 16). It errs at the first node,
/// functions in order of place and in one from the inside out, that no case of the language covers: with 50 where a conversion
/// is wanted that there is not, 51 and 52 where no function or no single one takes a call, 53 where what is assigned or counted
/// is no place, 55 where a `break`, a `continue`, a label or a declaration stands as it may not, 56 at a function with a result
/// that does not end, 62 at a call with more than 250 arguments, and 63 at a name of nothing.
pub fn elaborate(
    alloc: Global,
    unit: &Unit,
    declarations: &Declarations,
) -> Result<Program, TypeFault>
    requires built { first_not_built unit.now ≡ None }
    requires scopes { declarations.now.scopes ≡ (declared unit.now).scopes }
    requires items { declarations.now.items ≡ (declared unit.now).items }
    requires directives { declarations.now.directives ≡ directives (declared unit.now).scopes (declared unit.now).items unit.now }
    ensures ok { IfOk result (λ program. (choice : Pick) → Chooses (spec.classes_with spec.library_classes (contents.functions unit.now)) choice → spec.typed_program choice unit.now ≡ Ok (spec.program_bare program)) }
    ensures refused { IfErr result (λ fault. (choice : Pick) → Chooses (spec.classes_with spec.library_classes (contents.functions unit.now)) choice → faults.Refuses (faults.refusal fault) (spec.typed_program choice unit.now)) }
{
    let judged = typed_parts(alloc, unit, declarations)?;
    match judged {
        Ok(parts) => Ok(program_of(unit, parts)),
        Err(refusal) => Err(fault_of(refusal)),
    }
}
