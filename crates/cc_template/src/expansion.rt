// A unit with its templates replaced by their instances (ECMA-372, 30).
ghost use Rattle.std.specs.Prelude.{MatchResult};
ghost use Rattle.cc_template.specs.Expansion.{IsWithoutTemplates, AreOf, IsExpanded, IsExpandFault};

use crate::{TemplateFault, count_nodes};
use cc_copy::copy_unit;
use cc_names::Declarations;
use cc_tree::Unit;
use std::alloc::Global;

/// The unit that takes the place of a unit without templates: one that is equal to it. It errs with `TooManyNodes` exactly
/// where `count_nodes` does, at the same node, and with no other kind. It goes as deep into the native stack as the tree is deep.
pub fn expand(alloc: Global, unit: &Unit, names: &Declarations) -> Result<Unit, TemplateFault>
    requires plain { IsWithoutTemplates unit.now }
    requires declared { AreOf names.now unit.now }
    ensures { MatchResult result (λ expanded. IsExpanded unit.now expanded) (λ fault. IsExpandFault unit.now fault) }
{
    let _count = count_nodes(unit)?;
    let expanded = copy_unit(alloc, unit)?;
    Ok(expanded)
}
