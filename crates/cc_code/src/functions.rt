// The code of a function.
ghost use Rattle.std.specs.Prelude.{◌≡◌, ◌<◌, ◌^◌, ◌++◌, ◌∷◌, [], drop, OnOk, IfOk, MatchOption};
ghost use Rattle.std.specs.List.{flat_map};
ghost use Rattle.cc_cil.specs.declared.instruction.Instruction.TheVariants as the;
ghost use Rattle.cc_cil.specs.Instructions.{spelling};
ghost use Rattle.cc_core.specs.Types.{bare};
ghost use Rattle.cc_code.specs.Functions as spec;

use crate::heights::{region_height, values_of};
use crate::operators::zero;
use crate::regions::append_region;
use crate::tokens::Tokens;
use cc_base::List;
use cc_cil::{Instruction, encode_one};
use cc_core::CoreType;
use cc_module::{Element, TypeSignature};
use cc_region::RegionFunction;
use std::alloc::{AllocError, Global};

/// The code of a function.
#[derive(Debug, Drop)]
pub struct FunctionCode {
    pub instructions: List<Instruction>,
    /// The instructions as bytes.
    pub bytes: List<u8>,
    /// The greatest number of values on the evaluation stack.
    pub max_stack: u16,
    /// The types of the local variables, which are the function's variables without its parameters.
    pub locals: List<TypeSignature>,
}

/// Returns what an instruction loads.
fn append_returned(code: &mut Vec<Instruction>, load: Instruction) -> Result<(), AllocError>
    ensures { OnOk result (code.new.items ≡ code.old.items ++ (load ∷ the.Return ∷ [])) }
{
    code.push(load)?;
    code.push(Instruction::Return)?;
    Ok(())
}

/// Returns zero of a type, or nothing.
fn append_end(code: &mut Vec<Instruction>, of: &CoreType) -> Result<(), AllocError>
    ensures { OnOk result (code.new.items ≡ code.old.items ++ spec.end_code (bare of.now)) }
{
    if matches!(of, CoreType::Void) {
        code.push(Instruction::Return)?;
    } else {
        append_returned(code, zero(of))?;
    }
    Ok(())
}

/// The instructions of a function.
fn instructions_of(
    alloc: Global,
    tokens: &Tokens,
    parameters: u32,
    function: &RegionFunction,
) -> Result<Vec<Instruction>, AllocError>
    requires { spec.function_size function.now < 2 ^ 31 }
    ensures { IfOk result (λ code. code.items ≡ spec.function_instructions tokens.now parameters function.now) }
{
    let mut code = Vec::new(alloc);
    append_region(alloc, &mut code, tokens, parameters, &[], 0, &function.body)?;
    append_end(&mut code, &function.result)?;
    Ok(code)
}

/// Instructions as bytes.
fn spelled(alloc: Global, code: &[Instruction]) -> Result<Vec<u8>, AllocError>
    ensures { IfOk result (λ bytes. bytes.items ≡ flat_map spelling code.now) }
{
    let mut bytes = Vec::new(alloc);
    for instruction in code {
        encode_one(instruction, &mut bytes)?;
    }
    Ok(bytes)
}

/// The element of a type that is built.
fn element_of(of: &CoreType) -> Option<Element>
    ensures { MatchOption result (spec.elements_of (bare of.now) ≡ []) (λ element. spec.elements_of (bare of.now) ≡ element ∷ []) }
{
    match of {
        CoreType::Void => Some(Element::Void),
        CoreType::Bool => Some(Element::Boolean),
        CoreType::Char => Some(Element::Char),
        CoreType::I8 => Some(Element::I1),
        CoreType::U8 => Some(Element::U1),
        CoreType::I16 => Some(Element::I2),
        CoreType::U16 => Some(Element::U2),
        CoreType::I32 => Some(Element::I4),
        CoreType::U32 => Some(Element::U4),
        CoreType::I64 => Some(Element::I8),
        CoreType::U64 => Some(Element::U8),
        CoreType::Null
        | CoreType::Enum(_)
        | CoreType::Value(_)
        | CoreType::Handle(_)
        | CoreType::Array(_)
        | CoreType::Track(_) => None,
    }
}

/// A type in a signature.
fn signature_of(alloc: Global, of: &CoreType) -> Result<TypeSignature, AllocError>
    ensures { IfOk result (λ signature. signature ≡ spec.signature_of (bare of.now)) }
{
    let mut elements = List::new(alloc);
    if let Some(element) = element_of(of) {
        elements.push(element)?;
    }
    Ok(TypeSignature { elements })
}

/// Types in signatures.
pub fn signatures_of(alloc: Global, types: &[CoreType]) -> Result<List<TypeSignature>, AllocError>
    ensures { IfOk result (λ made. made ≡ spec.signatures_of types.now) }
{
    let mut made = Vec::new(alloc);
    for of in types {
        made.push(signature_of(alloc, of)?)?;
    }
    Ok(List::from_vec(made))
}

/// The types of the variables behind so many parameters.
fn behind(types: &[CoreType], parameters: u32) -> &[CoreType]
    ensures { result.now ≡ drop parameters types.now }
{
    let parameters = parameters as usize;
    if parameters < types.len() {
        &types[parameters..]
    } else {
        &[]
    }
}

/// The code of a function of a program whose members have these tokens (ECMA-335, III): its first variables are so many
/// parameters. The code has fewer than 2^31 bytes, and the evaluation stack holds fewer than 2^16 values.
pub fn function_code(
    alloc: Global,
    tokens: &Tokens,
    parameters: u32,
    function: &RegionFunction,
) -> Result<FunctionCode, AllocError>
    requires size { spec.function_size function.now < 2 ^ 31 }
    requires height { spec.function_height function.now < 2 ^ 16 }
    ensures instructions { IfOk result (λ code. code.instructions ≡ spec.function_instructions tokens.now parameters function.now) }
    ensures bytes { IfOk result (λ code. code.bytes ≡ flat_map spelling (spec.function_instructions tokens.now parameters function.now)) }
    ensures max_stack { IfOk result (λ code. code.max_stack ≡ spec.function_height function.now) }
    ensures locals { IfOk result (λ code. code.locals ≡ spec.local_types parameters function.now) }
{
    let code = instructions_of(alloc, tokens, parameters, function)?;
    let bytes = spelled(alloc, &code)?;
    let locals = signatures_of(alloc, behind(function.locals.as_slice(), parameters))?;
    let max_stack = region_height(&function.body).max(values_of(&function.result));
    Ok(FunctionCode {
        instructions: List::from_vec(code),
        bytes: List::from_vec(bytes),
        max_stack,
        locals,
    })
}
