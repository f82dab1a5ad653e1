// The module of a straight program.
ghost use Rattle.std.specs.Prelude.{◌≡◌, ◌≤◌, length, IfOk};
ghost use Rattle.cc_module.specs.Storable.{IsStorable, IsInRange, image_size};
ghost use Rattle.cc_emit.specs.Program.{module_of, code_limit, image_limit};

use crate::bodies::bodies;
use crate::rows::{assemblies, assembly_refs, member_refs, methods, modules, type_defs, type_refs};
use cc_base::List;
use cc_module::Module;
use std::alloc::{AllocError, Global};

/// The token of the entry, `<start>`.
const ENTRY: u32 = 0x0600_0002;

// The module, list by list.
fn module_with(alloc: Global, code: &[u8]) -> Result<Module, AllocError>
    requires { length code.now ≤ code_limit }
    ensures { IfOk result (λ m. m ≡ module_of code.now) }
{
    let modules = modules(alloc)?;
    let type_refs = type_refs(alloc)?;
    let type_defs = type_defs(alloc)?;
    let methods = methods(alloc, code)?;
    let member_refs = member_refs(alloc)?;
    let assemblies = assemblies(alloc)?;
    let assembly_refs = assembly_refs(alloc)?;
    let bodies = bodies(alloc, code)?;
    Ok(Module {
        modules,
        type_refs,
        type_defs,
        fields: List::new(alloc),
        methods,
        params: List::new(alloc),
        interface_impls: List::new(alloc),
        member_refs,
        constants: List::new(alloc),
        stand_alone_sigs: List::new(alloc),
        property_maps: List::new(alloc),
        properties: List::new(alloc),
        method_semantics: List::new(alloc),
        method_impls: List::new(alloc),
        type_specs: List::new(alloc),
        assemblies,
        assembly_refs,
        generic_params: List::new(alloc),
        method_specs: List::new(alloc),
        generic_param_constraints: List::new(alloc),
        bodies,
        texts: List::new(alloc),
        entry: ENTRY,
    })
}

/// The module of a program whose `main` has this code, which prints by `Console.WriteLine(int32)` and returns an `int32`:
/// the functions `main` and `<start>` of `<Module>`, of which the second is the entry and calls the first. A file of at
/// most 268,435,456 bytes can hold it. The code has at most 51,200,000 bytes.
pub fn emit(alloc: Global, code: &[u8]) -> Result<Module, AllocError>
    requires { length code.now ≤ code_limit }
    ensures exact { IfOk result (λ m. m ≡ module_of code.now) }
    ensures storable { IfOk result (λ m. IsStorable m) }
    ensures in_range { IfOk result (λ m. IsInRange m) }
    ensures within { IfOk result (λ m. image_size m ≤ image_limit) }
{
    module_with(alloc, code)
}
