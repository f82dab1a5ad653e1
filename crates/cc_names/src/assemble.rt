// The declarations of a whole source (ECMA-372, 10.3).
ghost use Rattle.std.specs.Prelude.{◌≡◌, ℕ, IfOk};
ghost use Rattle.cc_names.specs.Library.{declared};
ghost use Rattle.cc_names.specs.Directives.{directives};

use crate::declarations::Declarations;
use crate::index::index;
use crate::library::with_library;
use crate::units::collect;
use cc_base::List;
use cc_tree::Unit;
use std::alloc::{AllocError, Global};

/// The declarations of a unit, with the library's, whether or not the unit is refused. Its only error is want of memory.
pub fn declarations_of(alloc: Global, unit: &Unit) -> Result<Declarations, AllocError>
    ensures scopes { IfOk result (λ all. all.scopes ≡ (declared unit.now).scopes) }
    ensures items { IfOk result (λ all. all.items ≡ (declared unit.now).items) }
    ensures directives { IfOk result (λ all. all.directives ≡ directives (declared unit.now).scopes (declared unit.now).items unit.now) }
{
    let own = collect(alloc, unit)?;
    let all = with_library(alloc, own)?;
    let numbers = index(alloc, all.items.as_slice())?;
    let mut declarations = Declarations {
        scopes: all.scopes,
        items: all.items,
        directives: List::new(alloc),
        numbers,
    };
    let mut directives = List::new(alloc);
    declarations.add_directives(&mut directives, unit.outers.as_slice())?;
    declarations.directives = directives;
    Ok(declarations)
}
