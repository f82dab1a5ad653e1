// The operations and the methods of a module, laid out for the machine.
ghost use Rattle.std.specs.Prelude.{◌≡◌, ◌≤◌, [], ◌∷◌, ◌++◌, Some, ℕ, length, take, slice_get, OnOk, IfOk};
ghost use Rattle.cc_execution.specs.Operations.{loaded};
ghost use Rattle.cc_execution.specs.Step.{placed_in};
ghost use Rattle.cc_machine_next.specs.Tables.{IsTable, IsMethodEntry, AreEntries, entry_of};
ghost use Rattle.cc_execution.specs.declared.executable.PlacedOperation.{PlacedOperation};

use cc_base::List;
use cc_execution::{Executable, FundamentalType, Method, Operation, PlacedOperation};
use std::alloc::{AllocError, Global};

/// An operation, and the offset behind its instruction.
#[derive(Clone, Copy)]
pub struct Entry {
    pub operation: Operation,
    pub next: u32,
}

/// A method: its operations, each at the offset of its instruction, and what its frames have.
#[derive(Drop)]
pub struct MethodEntry {
    pub entries: List<Entry>,
    /// The types of its parameters that operations load.
    pub parameters: List<FundamentalType>,
    pub locals: List<FundamentalType>,
    pub result: Option<FundamentalType>,
    /// The greatest number of values on its stack.
    pub max_stack: u16,
}

/// The methods, in order.
#[derive(Drop)]
pub struct Tables {
    pub methods: List<MethodEntry>,
}

// What stands at an offset at which no instruction begins.
const NOTHING: Entry = Entry {
    operation: Operation::Nothing,
    next: 0,
};

// Room for so many entries.
fn reach(entries: &mut Vec<Entry>, count: usize) -> Result<(), AllocError>
    ensures kept { take (length entries.old.items) entries.new.items ≡ entries.old.items }
    ensures reaches { OnOk result (count ≤ length entries.new.items) }
{
    if entries.len() < count {
        entries.resize(count, NOTHING)?;
    }
    Ok(())
}

// Puts an entry at an offset.
fn put(entries: &mut Vec<Entry>, at: u32, entry: Entry) -> Result<(), AllocError>
    ensures there { OnOk result (slice_get entries.new.items at ≡ Some entry) }
    ensures others { OnOk result ((k : ℕ) (e : Entry) → (k ≡ at → ⊥) → slice_get entries.old.items k ≡ Some e → slice_get entries.new.items k ≡ Some e) }
{
    let place = at as usize;
    reach(entries, place + 1)?;
    entries[place] = entry;
    Ok(())
}

// The entries of operations. Of two at one offset the first counts, so that they are put from the last to the first.
fn entries_of(alloc: Global, operations: &[PlacedOperation]) -> Result<Vec<Entry>, AllocError>
    ensures { IfOk result (λ entries. AreEntries operations.now entries.items) }
{
    let mut entries = Vec::new(alloc);
    let count = operations.len();
    for k in 0..count {
        let placed = operations[count - 1 - k];
        put(
            &mut entries,
            placed.at,
            Entry {
                operation: placed.operation,
                next: placed.next,
            },
        )?;
    }
    Ok(entries)
}

// The type of a parameter, where operations load it.
fn add_loaded(
    types: &mut Vec<FundamentalType>,
    parameter: Option<FundamentalType>,
) -> Result<(), AllocError>
    ensures { OnOk result (types.new.items ≡ types.old.items ++ loaded (parameter ∷ [])) }
{
    match parameter {
        None => Ok(()),
        Some(of) => {
            types.push(of)?;
            Ok(())
        }
    }
}

// The types of the parameters that operations load.
fn loaded_types(
    alloc: Global,
    parameters: &[Option<FundamentalType>],
) -> Result<Vec<FundamentalType>, AllocError>
    ensures { IfOk result (λ types. types.items ≡ loaded parameters.now) }
{
    let mut types = Vec::new(alloc);
    for i in 0..parameters.len() {
        add_loaded(&mut types, parameters[i])?;
    }
    Ok(types)
}

impl MethodEntry {
    /// The entry of a method.
    pub fn of(alloc: Global, method: &Method) -> Result<MethodEntry, AllocError>
        ensures { IfOk result (λ e. IsMethodEntry method.now e) }
    {
        let entries = entries_of(alloc, method.operations.as_slice())?;
        let parameters = loaded_types(alloc, method.parameters.as_slice())?;
        let locals = List::from_slice(alloc, method.locals.as_slice())?;
        Ok(MethodEntry {
            entries: List::from_vec(entries),
            parameters: List::from_vec(parameters),
            locals,
            result: method.result,
            max_stack: method.max_stack,
        })
    }
}

impl Tables {
    /// The tables of a module.
    pub fn of(alloc: Global, code: &Executable) -> Result<Tables, AllocError>
        ensures { IfOk result (λ tables. IsTable code.now tables) }
    {
        let mut methods = Vec::new(alloc);
        for method in code.methods.as_slice() {
            let entry = MethodEntry::of(alloc, method)?;
            methods.push(entry)?;
        }
        Ok(Tables {
            methods: List::from_vec(methods),
        })
    }
}

impl Tables {
    /// The entry of a method, by its place.
    #[inline]
    pub fn method_at(&self, method: usize) -> &MethodEntry
        requires { (e : MethodEntry) × (slice_get self.now.methods method ≡ Some e) }
        ensures { slice_get self.now.methods method ≡ Some result.now }
    {
        &self.methods.as_slice()[method]
    }

    /// The entry of the operation that a method has at an offset.
    #[inline]
    pub fn entry_at(&self, code: &Executable, method: usize, at: u32) -> Entry
        requires table { IsTable code.now self.now }
        requires there { (p : PlacedOperation) × (placed_in code.now method at ≡ Some p) }
        ensures { (p : PlacedOperation) → placed_in code.now method at ≡ Some p → result ≡ entry_of p }
    {
        let of = self.method_at(method);
        of.entries.as_slice()[at as usize]
    }
}
