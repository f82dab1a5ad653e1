// The order of sorted tables (ECMA-335, II.22).
ghost use Rattle.std.specs.Prelude.{◌≡◌, ◌≤◌, ℕ, true, false, Some, IfSome, IfNone};
ghost use Rattle.std.specs.Ordering.{is_lt};
ghost use Rattle.std.specs.List.Sorted.{IsNonDecreasingBy, IsSorted};
ghost use Rattle.cc_module.specs.Indexes.{constant_code, semantics_code};
ghost use Rattle.cc_module.specs.Storable.{generic_param_cmp, IsSortedModule};
ghost use Rattle.cc_tables.specs.Reading.{OrderFault};

use crate::fault::TableFault;
use cc_module::{
    ConstantRow, GenericParamConstraintRow, GenericParamRow, InterfaceImplRow, MethodImplRow,
    MethodSemanticsRow, Module,
};

/// A row that is sorted by what stands in one column.
trait Keyed {
    /// What stands there.
    ghost key_of: { Self → ℕ };

    fn key(&self) -> u64
        ensures { result ≡ key_of self.now };
}

impl Keyed for InterfaceImplRow {
    ghost key_of = { λ r. r.class.0 };

    fn key(&self) -> u64 {
        self.class.0 as u64
    }
}

impl Keyed for ConstantRow {
    ghost key_of = { λ r. constant_code r.parent };

    fn key(&self) -> u64 {
        self.parent.code()
    }
}

impl Keyed for MethodSemanticsRow {
    ghost key_of = { λ r. semantics_code r.association };

    fn key(&self) -> u64 {
        self.association.code()
    }
}

impl Keyed for MethodImplRow {
    ghost key_of = { λ r. r.class.0 };

    fn key(&self) -> u64 {
        self.class.0 as u64
    }
}

impl Keyed for GenericParamConstraintRow {
    ghost key_of = { λ r. r.owner.0 };

    fn key(&self) -> u64 {
        self.owner.0 as u64
    }
}

// Whether what stands in that column does not fall from row to row.
fn is_sorted<R: Keyed>(rows: &[R]) -> bool
    ensures yes { result ≡ true → IsNonDecreasingBy R.key_of rows.now }
    ensures no { result ≡ false → IsNonDecreasingBy R.key_of rows.now → ⊥ }
{
    for i in 1..rows.len() {
        if rows[i].key() < rows[i - 1].key() {
            return false;
        }
    }
    true
}

// Whether a row of GenericParam may not follow another: by owner, and then by number.
fn precedes(row: &GenericParamRow, before: &GenericParamRow) -> bool
    ensures { result ≡ is_lt (generic_param_cmp row.now before.now) }
{
    let (owner, other) = (row.owner.code(), before.owner.code());
    owner < other || (owner == other && row.number < before.number)
}

fn are_generic_params_sorted(rows: &[GenericParamRow]) -> bool
    ensures yes { result ≡ true → IsSorted generic_param_cmp rows.now }
    ensures no { result ≡ false → IsSorted generic_param_cmp rows.now → ⊥ }
{
    for i in 1..rows.len() {
        if precedes(&rows[i], &rows[i - 1]) {
            return false;
        }
    }
    true
}

/// The first table of a module whose rows are not in order, by its number (II.22).
pub fn order_fault(source: &Module) -> Option<TableFault>
    ensures sorted { IfNone result (IsSortedModule source.now) }
    ensures fault { IfSome result (OrderFault source.now) }
{
    if !is_sorted(source.interface_impls.as_slice()) {
        return Some(TableFault::NotSorted(0x09));
    }
    if !is_sorted(source.constants.as_slice()) {
        return Some(TableFault::NotSorted(0x0B));
    }
    if !is_sorted(source.method_semantics.as_slice()) {
        return Some(TableFault::NotSorted(0x18));
    }
    if !is_sorted(source.method_impls.as_slice()) {
        return Some(TableFault::NotSorted(0x19));
    }
    if !are_generic_params_sorted(source.generic_params.as_slice()) {
        return Some(TableFault::NotSorted(0x2A));
    }
    if !is_sorted(source.generic_param_constraints.as_slice()) {
        return Some(TableFault::NotSorted(0x2C));
    }
    None
}
