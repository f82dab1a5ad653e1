// The declarations of a source, and what it is refused for as to names (ECMA-372, 10.3).
ghost use Rattle.std.specs.Prelude.{◌≡◌, None, OnOk, IfOk, IfErr};
ghost use Rattle.cc_names.specs.Checks.{run};
ghost use Rattle.cc_names.specs.Library.{declared};
ghost use Rattle.cc_names.specs.Directives.{directives};
ghost use Rattle.cc_names.specs.Faults as faults;
ghost use Rattle.cc_names.specs.Refusals.{refusal, unit_checks};

use crate::assemble::declarations_of;
use crate::declarations::Declarations;
use crate::fault::NameFault;
use crate::main_function::main_functions;
use crate::outermost::all_outermost;
use crate::refusal::Refusal;
use crate::space::space_of;
use crate::standing::standings;
use cc_tree::Unit;
use std::alloc::{AllocError, Global};

/// The refusal that decides of those of a unit, whose declarations are given.
fn first_refusal(
    alloc: Global,
    unit: &Unit,
    declarations: &Declarations,
) -> Result<Option<Refusal>, AllocError>
    requires scopes { declarations.now.scopes ≡ (declared unit.now).scopes }
    requires items { declarations.now.items ≡ (declared unit.now).items }
    ensures { IfOk result (λ first. first ≡ run (unit_checks unit.now) None) }
{
    let all = standings(alloc, unit)?;
    let space = space_of(alloc, &all)?;
    let first = declarations.duplicates(None);
    let first = all_outermost(first, alloc, &space, &all)?;
    main_functions(first, alloc, &all)
}

/// The declarations of a unit, with the library's: all scopes and declarations outside the bodies of templates, parameters and
/// local variables included (ECMA-372, 10.3). It errs where a name is declared twice (20), a type or namespace is not found or a
/// forward declaration or prototype is of nothing (21), a type is not formed (22), a class reaches itself by a base (23) or
/// has a base that it cannot have (24), a member is reserved or cannot stand in its class (25), or `main` is missing or of
/// another form (26): with the first of these in order of place, at one place with the lowest.
#[tactic(auto, using(crate::proofs::Firsts::refusal_run))]
pub fn declare(alloc: Global, unit: &Unit) -> Result<Declarations, NameFault>
    ensures accepted { OnOk result (refusal unit.now ≡ None) }
    ensures scopes { IfOk result (λ all. all.scopes ≡ (declared unit.now).scopes) }
    ensures items { IfOk result (λ all. all.items ≡ (declared unit.now).items) }
    ensures directives { IfOk result (λ all. all.directives ≡ directives (declared unit.now).scopes (declared unit.now).items unit.now) }
    ensures refused { IfErr result (λ fault. faults.Refuses (faults.refusal fault) (refusal unit.now)) }
{
    let declarations = declarations_of(alloc, unit)?;
    match first_refusal(alloc, unit, &declarations)? {
        None => Ok(declarations),
        Some(first) => Err(first.fault()),
    }
}
