// The function `main` (ECMA-372, 10.9.1; ISO/IEC 14882:2003, 3.6.1).
ghost use Rattle.std.specs.Prelude.{◌≡◌, List, [], ◌∷◌, false, IfOk};
ghost use Rattle.std.specs.List.{flat_map};
ghost use Rattle.std.specs.Option.{option_copied};
ghost use Rattle.cc_names.specs.Checks.{run};
ghost use Rattle.cc_names.specs.Refusals as spec;
ghost use Rattle.cc_names.specs.Told.{told_one, told_all};

use crate::refusal::{NameKind, Refusal, refused_if};
use crate::spelling::{signature, spelling};
use crate::standing::{Outermost, Standing};
use cc_base::Span;
use cc_tree::Function;
use std::alloc::{AllocError, Global};

/// Whether `main` has the result `int`, and no parameter or one array of strings.
fn is_main_form(alloc: Global, function: &Function) -> Result<bool, AllocError>
    ensures { IfOk result (λ holds. holds ≡ spec.is_main_form function.now) }
{
    let result = spelling(alloc, &function.result)?;
    let types = signature(alloc, &function.parameters)?;
    let types = types.as_slice();
    Ok(
        result.as_slice() == b"int".as_slice()
            && (types == b"".as_slice() || types == b"array<String^,>^,".as_slice()),
    )
}

/// The definition of `main` that something outside classes is.
fn main_of<'a>(one: &Standing<'a>) -> Option<&'a Function>
    ensures { spec.function_list (option_copied result) ≡ spec.main_of (told_one one.now) }
{
    if !one.path.is_empty() {
        return None;
    }
    match &one.what {
        Outermost::Directive(_, _) => None,
        Outermost::Part => None,
        Outermost::Class(_) => None,
        Outermost::Enumeration(_) => None,
        Outermost::Forward(_) => None,
        Outermost::Template(_) => None,
        Outermost::Function(function) => defined_main(function),
    }
}

/// The function, where it is named `main` and has a body.
fn defined_main(function: &Function) -> Option<&Function>
    ensures { spec.function_list (option_copied result) ≡ spec.defined_main function.now }
{
    match &function.body {
        None => None,
        Some(_) => {
            if function.name.name.as_slice() == b"main".as_slice() {
                Some(function)
            } else {
                None
            }
        }
    }
}

/// What the definitions of `main` are refused for.
pub(crate) fn main_functions(
    so_far: Option<Refusal>,
    alloc: Global,
    all: &[Standing<'_>],
) -> Result<Option<Refusal>, AllocError>
    ensures { IfOk result (λ first. first ≡ run (spec.main_checks false (flat_map spec.main_of (told_all all.now))) so_far) }
{
    let mut first = so_far;
    let mut found = false;
    for one in all {
        if let Some(function) = main_of(one) {
            let is_refused = found || !is_main_form(alloc, function)?;
            first = refused_if(first, is_refused, NameKind::BadMain, function.span);
            found = true;
        }
    }
    let nowhere = Span { first: 0, past: 0 };
    Ok(refused_if(first, !found, NameKind::BadMain, nowhere))
}
