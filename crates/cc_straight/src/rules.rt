// What the rules of the language say of a tree beyond its grammar: its names, and the number of its nodes.
ghost use Rattle.std.specs.Prelude.{◌≡◌};
ghost use Rattle.cc_names.specs.Faults as naming;
ghost use Rattle.cc_template.specs.Faults as templates;
ghost use Rattle.cc_straight.specs.Reading.{IsAllowed, refusal_of};

use crate::fault::CompileFault;
use cc_names::{NameFault, declare};
use cc_template::{TemplateFault, expand, has_templates};
use cc_tree::Unit;
use std::alloc::Global;

// Why names are refused, as a fault of compilation.
fn naming(fault: NameFault) -> CompileFault
    ensures { naming.refusal fault ≡ refusal_of result }
{
    match fault.refusal() {
        Some((kind, place)) => CompileFault::Refused(kind, place),
        None => CompileFault::Memory,
    }
}

// Why a unit is not expanded, as a fault of compilation.
fn expanding(fault: TemplateFault) -> CompileFault
    ensures { templates.refusal fault ≡ refusal_of result }
{
    match fault.refusal() {
        Some((kind, place)) => CompileFault::Refused(kind, place),
        None => CompileFault::Memory,
    }
}

/// Tells the first name that the rules refuse, or else the first node too many of a unit without templates. Such a unit
/// is its own expansion, so its names needn't be declared a second time.
pub fn allow(alloc: Global, tree: &Unit) -> Result<(), CompileFault>
    ensures { IsAllowed tree.now result }
{
    let names = match declare(alloc, tree) {
        Ok(names) => names,
        Err(fault) => return Err(naming(fault)),
    };
    if has_templates(tree) {
        return Ok(());
    }
    match expand(alloc, tree, &names) {
        Ok(_) => Ok(()),
        Err(fault) => Err(expanding(fault)),
    }
}
