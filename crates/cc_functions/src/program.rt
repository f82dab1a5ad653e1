// The module of a program of functions.
ghost use Rattle.std.specs.Prelude.{◌≡◌, ◌+◌, ◌<◌, ◌≤◌, ◌^◌, length, IfOk};
ghost use Rattle.std.specs.List.{AllByRecursion};
ghost use Rattle.cc_emit.specs.Program.{start_signature, image_limit};
ghost use Rattle.cc_module.specs.Storable.{IsStorable, IsInRange, image_size};
ghost use Rattle.cc_functions.specs.Program as spec;
ghost use Rattle.cc_functions.specs.Fits.{Fits, HasRange};

use crate::console::console_members;
use crate::function::Function;
use crate::methods::{Methods, methods_of};
use crate::rows::{assemblies, assembly_refs, modules, type_defs, type_refs};
use crate::signatures::{one_type, static_method, type_of};
use cc_base::List;
use cc_cil::{Instruction, encode_one};
use cc_module::{Element, Module, Signature};
use std::alloc::{AllocError, Global};

/// The number of MethodDef, in the highest byte of a token (III.1.9).
const METHOD: u32 = 0x0600_0000;

// The signature of `<start>`: one array of strings, and an int32 (II.15.4.1.2).
fn start_signature(alloc: Global) -> Result<Signature, AllocError>
    ensures { IfOk result (λ signature. signature ≡ start_signature) }
{
    let int = type_of(alloc, &[Element::I4])?;
    let strings = one_type(alloc, &[Element::Array, Element::String])?;
    Ok(static_method(int, strings))
}

// The function `<start>`, which calls the function at this place and returns its result.
fn start(alloc: Global, main: u32) -> Result<Function, AllocError>
    requires { main < 2 ^ 24 }
    ensures { IfOk result (λ start. start ≡ spec.start main) }
{
    let name = List::from_slice(alloc, b"<start>")?;
    let signature = start_signature(alloc)?;
    let mut code = Vec::new(alloc);
    let method = METHOD + main + 1;
    encode_one(&Instruction::Call { method }, &mut code)?;
    encode_one(&Instruction::Return, &mut code)?;
    Ok(Function {
        name,
        signature,
        locals: None,
        max_stack: 8,
        code: List::from_vec(code),
    })
}

// The token of `<start>`, which stands behind these functions.
fn entry_token(functions: &[Function]) -> u32
    requires { length functions.now < 2 ^ 23 }
    ensures { result ≡ spec.METHOD + length functions.now + 1 }
{
    METHOD + functions.len() as u32 + 1
}

// The methods: these functions, and `<start>` behind them.
fn all_methods(alloc: Global, functions: &[Function], main: u32) -> Result<Methods, AllocError>
    requires functions { Fits functions.now }
    requires main { main < 2 ^ 23 }
    ensures rows { IfOk result (λ made. made.rows ≡ spec.method_rows (spec.methods_of functions.now main)) }
    ensures locals { IfOk result (λ made. made.locals ≡ spec.local_rows (spec.methods_of functions.now main)) }
    ensures bodies { IfOk result (λ made. made.bodies ≡ spec.bodies 1 (spec.methods_of functions.now main)) }
{
    let start = start(alloc, main)?;
    let made = methods_of(alloc, functions, &start)?;
    Ok(made)
}

// The module, list by list.
fn module_with(alloc: Global, functions: &[Function], main: u32) -> Result<Module, AllocError>
    requires functions { Fits functions.now }
    requires count { length functions.now < 2 ^ 23 }
    requires main { main < 2 ^ 23 }
    ensures { IfOk result (λ m. m ≡ spec.functions_module functions.now main) }
{
    let modules = modules(alloc)?;
    let type_refs = type_refs(alloc)?;
    let type_defs = type_defs(alloc)?;
    let made = all_methods(alloc, functions, main)?;
    let member_refs = console_members(alloc)?;
    let assemblies = assemblies(alloc)?;
    let assembly_refs = assembly_refs(alloc)?;
    let entry = entry_token(functions);
    Ok(Module {
        modules,
        type_refs,
        type_defs,
        fields: List::new(alloc),
        methods: made.rows,
        params: List::new(alloc),
        interface_impls: List::new(alloc),
        member_refs,
        constants: List::new(alloc),
        stand_alone_sigs: made.locals,
        property_maps: List::new(alloc),
        properties: List::new(alloc),
        method_semantics: List::new(alloc),
        method_impls: List::new(alloc),
        type_specs: List::new(alloc),
        assemblies,
        assembly_refs,
        generic_params: List::new(alloc),
        method_specs: List::new(alloc),
        generic_param_constraints: List::new(alloc),
        bodies: made.bodies,
        texts: List::new(alloc),
        entry,
    })
}

/// The module of a program of functions, of which `main` is the one at this place, counted from 0: it takes nothing and
/// gives an `int32` (ECMA-335, II.22). The functions are the methods of `<Module>`, in their order; the entry, `<start>`,
/// stands behind them, calls `main` and returns its result. The methods of `System.Console` stand in rows 1 to 13 of
/// MemberRef: `Write` and then `WriteLine` of `bool`, `wchar_t`, `int`, `unsigned int`, `long long` and `unsigned long
/// long`, and `WriteLine` without a value. A file of at most 268,435,456 bytes can hold it, and its numbers are of their
/// types where those of the functions are.
pub fn emit_functions(
    alloc: Global,
    functions: &[Function],
    main: u32,
) -> Result<Module, AllocError>
    requires functions { Fits functions.now }
    requires main { main < length functions.now }
    ensures exact { IfOk result (λ m. m ≡ spec.functions_module functions.now main) }
    ensures storable { IfOk result (λ m. IsStorable m) }
    ensures in_range { AllByRecursion HasRange functions.now → IfOk result (λ m. IsInRange m) }
    ensures within { IfOk result (λ m. image_size m ≤ image_limit) }
{
    module_with(alloc, functions, main)
}
