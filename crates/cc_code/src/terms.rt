// The code of expressions.
ghost use Rattle.std.specs.Prelude.{◌≡◌, ◌<◌, ◌^◌, ◌+◌, ◌++◌, ◌∷◌, [], OnOk, slice_index};
ghost use Rattle.cc_core.specs.Types as type;
ghost use Rattle.cc_core.specs.Types.{bare};
ghost use Rattle.cc_core.specs.Term.{type_of};
ghost use Rattle.cc_core.specs.Bare.{term_of};
ghost use Rattle.cc_core.specs.Lists.{terms_of};
ghost use Rattle.cc_cil.specs.declared.instruction.Instruction.TheVariants as the;
ghost use Rattle.cc_code.specs.Instructions.{branches};
ghost use Rattle.cc_code.specs.Operators as operators;
ghost use Rattle.cc_code.specs.Sizes as sizes;
ghost use Rattle.cc_code.specs.Terms as spec;

use crate::operators::{
    constant, convert, cut_count, drop_value, keep_new, keep_old, load, operate, operate_alone,
    store,
};
use crate::sizes::{term_size, truth_size, type_of};
use crate::targets::{branch, branch_if_true};
use crate::tokens::{PrintedTokens, Tokens};
use cc_base::{LocalId, MethodId};
use cc_cil::Instruction;
use cc_core::{CoreType, Dispatch, Expression, LibraryCall, Operator, Printed, UpdateResult};
use std::alloc::AllocError;

/// The token of the overload with a parameter of a type.
fn printed_token(tokens: &PrintedTokens, of: Printed) -> u32
    ensures { result ≡ spec.printed_token tokens.now of }
{
    match of {
        Printed::Bool => tokens.boolean,
        Printed::Char => tokens.character,
        Printed::I32 => tokens.int32,
        Printed::U32 => tokens.uint32,
        Printed::I64 => tokens.int64,
        Printed::U64 => tokens.uint64,
    }
}

/// The token of a member of the library.
fn library_token(tokens: &Tokens, call: LibraryCall) -> u32
    ensures { result ≡ spec.library_token tokens.now call }
{
    match call {
        LibraryCall::Write(of) => printed_token(&tokens.console.write, of),
        LibraryCall::WriteLine(of) => printed_token(&tokens.console.write_line, of),
        LibraryCall::WriteEmptyLine => tokens.console.write_empty_line,
    }
}

/// The token of a function of the program.
fn function_token(tokens: &Tokens, method: MethodId) -> u32
    ensures { result ≡ slice_index tokens.now.functions method.0 }
{
    match tokens.functions.as_slice().get(method.0 as usize) {
        Some(token) => *token,
        None => 0,
    }
}

/// A call of a function of the program.
fn call(tokens: &Tokens, dispatch: Dispatch, method: MethodId) -> Instruction
    ensures { result ≡ spec.call tokens.now dispatch method.0 }
{
    let method = function_token(tokens, method);
    match dispatch {
        Dispatch::Direct => Instruction::Call { method },
        Dispatch::Virtual => Instruction::CallVirtual { method },
    }
}

/// The variable that an expression names.
fn variable_of(e: &Expression) -> Option<LocalId>
    ensures { result ≡ spec.variable_of (term_of e.now) }
{
    match e {
        Expression::Local(_, local) => Some(*local),
        _ => None,
    }
}

/// Loads a variable, where there is one.
fn load_variable(
    code: &mut Vec<Instruction>,
    parameters: u32,
    variable: Option<LocalId>,
) -> Result<(), AllocError>
    ensures { OnOk result (code.new.items ≡ code.old.items ++ spec.load_variable parameters variable) }
{
    if let Some(local) = variable {
        code.push(load(parameters, local.0))?;
    }
    Ok(())
}

/// Stores to a variable, where there is one.
fn store_variable(
    code: &mut Vec<Instruction>,
    parameters: u32,
    variable: Option<LocalId>,
) -> Result<(), AllocError>
    ensures { OnOk result (code.new.items ≡ code.old.items ++ spec.store_variable parameters variable) }
{
    if let Some(local) = variable {
        code.push(store(parameters, local.0))?;
    }
    Ok(())
}

/// Appends the code of an expression: in a program whose members have these tokens, in a function with so many parameters.
#[cycle(term)]
pub(crate) fn append(
    code: &mut Vec<Instruction>,
    tokens: &Tokens,
    parameters: u32,
    e: &Expression,
) -> Result<(), AllocError>
    requires { sizes.term_size (term_of e.now) < 2 ^ 31 }
    ensures { OnOk result (code.new.items ≡ code.old.items ++ spec.term_code tokens.now parameters (term_of e.now)) }
{
    match e {
        Expression::Number(of, bits) => {
            code.push(constant(of, *bits))?;
            Ok(())
        }
        Expression::Local(_, local) => {
            code.push(load(parameters, local.0))?;
            Ok(())
        }
        Expression::Convert(of, operand) => {
            append(code, tokens, parameters, operand)?;
            convert(code, type_of(operand), of)?;
            Ok(())
        }
        Expression::Unary(_, operator, operand) => {
            append(code, tokens, parameters, operand)?;
            operate_alone(code, *operator, type_of(operand))?;
            Ok(())
        }
        Expression::Binary(_, operator, left, right) => {
            append(code, tokens, parameters, left)?;
            append_right(code, tokens, parameters, right, type_of(left), *operator)?;
            Ok(())
        }
        Expression::And(_, first, second) => {
            append(code, tokens, parameters, first)?;
            append_and(code, tokens, parameters, second)?;
            Ok(())
        }
        Expression::Or(_, first, second) => {
            append(code, tokens, parameters, first)?;
            append_or(code, tokens, parameters, second)?;
            Ok(())
        }
        Expression::Choose(_, condition, first, second) => {
            append(code, tokens, parameters, condition)?;
            code.push(branch_if_true(term_size(second) + 5))?;
            append(code, tokens, parameters, second)?;
            code.push(branch(term_size(first)))?;
            append(code, tokens, parameters, first)?;
            Ok(())
        }
        Expression::Assign(_, place, value) => {
            append(code, tokens, parameters, value)?;
            code.push(Instruction::Duplicate)?;
            store_variable(code, parameters, variable_of(place))?;
            Ok(())
        }
        Expression::Update(of, operator, common, result, place, operand) => {
            load_variable(code, parameters, variable_of(place))?;
            append_changed(
                code, tokens, parameters, operand, of, *operator, common, *result,
            )?;
            store_variable(code, parameters, variable_of(place))?;
            Ok(())
        }
        Expression::Call(_, method, dispatch, arguments) => {
            append_all(code, tokens, parameters, arguments.as_slice())?;
            code.push(call(tokens, *dispatch, *method))?;
            Ok(())
        }
        Expression::Library(_, member, arguments) => {
            append_all(code, tokens, parameters, arguments.as_slice())?;
            code.push(Instruction::Call {
                method: library_token(tokens, *member),
            })?;
            Ok(())
        }
        Expression::Let(_, local, first, second) => {
            append(code, tokens, parameters, first)?;
            code.push(store(parameters, local.0))?;
            append(code, tokens, parameters, second)?;
            Ok(())
        }
        Expression::Then(_, first, second) => {
            append(code, tokens, parameters, first)?;
            drop_value(code, type_of(first))?;
            append(code, tokens, parameters, second)?;
            Ok(())
        }
        Expression::Literal(_, _)
        | Expression::Null(_)
        | Expression::This(_)
        | Expression::Field(_, _, _)
        | Expression::StaticField(_, _)
        | Expression::Element(_, _, _)
        | Expression::New(_, _, _, _)
        | Expression::NewArray(_, _, _)
        | Expression::ArrayOf(_, _, _)
        | Expression::Cast(_, _, _)
        | Expression::PlaceOf(_, _)
        | Expression::HandleOf(_, _) => Ok(()),
    }
}

/// The right operand of an operator whose left one has this type, and the operator.
#[cycle(term)]
fn append_right(
    code: &mut Vec<Instruction>,
    tokens: &Tokens,
    parameters: u32,
    right: &Expression,
    of: &CoreType,
    operator: Operator,
) -> Result<(), AllocError>
    requires { sizes.term_size (term_of right.now) < 2 ^ 31 }
    ensures { OnOk result (code.new.items ≡ code.old.items ++ operators.operated operator (bare of.now) (type_of (term_of right.now)) (spec.term_code tokens.now parameters (term_of right.now))) }
{
    append(code, tokens, parameters, right)?;
    cut_count(code, operator, type_of(right))?;
    operate(code, of, operator)?;
    Ok(())
}

/// The truth of an expression.
#[cycle(term)]
fn append_truth(
    code: &mut Vec<Instruction>,
    tokens: &Tokens,
    parameters: u32,
    e: &Expression,
) -> Result<(), AllocError>
    requires { sizes.term_size (term_of e.now) < 2 ^ 31 }
    ensures { OnOk result (code.new.items ≡ code.old.items ++ (spec.term_code tokens.now parameters (term_of e.now) ++ operators.conversion (type_of (term_of e.now)) type.Bool)) }
{
    append(code, tokens, parameters, e)?;
    convert(code, type_of(e), &CoreType::Bool)?;
    Ok(())
}

/// Behind a first operand: where it is true the truth of the second, and else false.
#[cycle(term)]
fn append_and(
    code: &mut Vec<Instruction>,
    tokens: &Tokens,
    parameters: u32,
    second: &Expression,
) -> Result<(), AllocError>
    requires { sizes.term_size (term_of second.now) + sizes.truth_size (type_of (term_of second.now)) + 11 < 2 ^ 31 }
    ensures { OnOk result (code.new.items ≡ code.old.items ++ branches (sizes.term_size (term_of second.now) + sizes.truth_size (type_of (term_of second.now))) (spec.term_code tokens.now parameters (term_of second.now) ++ operators.conversion (type_of (term_of second.now)) type.Bool) 1 (the.LoadInt0 ∷ [])) }
{
    code.push(branch_if_true(6))?;
    code.push(Instruction::LoadInt0)?;
    code.push(branch(term_size(second) + truth_size(second)))?;
    append_truth(code, tokens, parameters, second)?;
    Ok(())
}

/// Behind a first operand: where it is true that, and else the truth of the second.
#[cycle(term)]
fn append_or(
    code: &mut Vec<Instruction>,
    tokens: &Tokens,
    parameters: u32,
    second: &Expression,
) -> Result<(), AllocError>
    requires { sizes.term_size (term_of second.now) + sizes.truth_size (type_of (term_of second.now)) + 11 < 2 ^ 31 }
    ensures { OnOk result (code.new.items ≡ code.old.items ++ branches 1 (the.LoadInt1 ∷ []) (sizes.term_size (term_of second.now) + sizes.truth_size (type_of (term_of second.now))) (spec.term_code tokens.now parameters (term_of second.now) ++ operators.conversion (type_of (term_of second.now)) type.Bool)) }
{
    code.push(branch_if_true(term_size(second) + truth_size(second) + 5))?;
    append_truth(code, tokens, parameters, second)?;
    code.push(branch(1))?;
    code.push(Instruction::LoadInt1)?;
    Ok(())
}

/// What an update stores, behind the value that stands at its place.
#[cycle(term)]
fn append_changed(
    code: &mut Vec<Instruction>,
    tokens: &Tokens,
    parameters: u32,
    operand: &Expression,
    of: &CoreType,
    operator: Operator,
    common: &CoreType,
    kept: UpdateResult,
) -> Result<(), AllocError>
    requires { sizes.term_size (term_of operand.now) < 2 ^ 31 }
    ensures { OnOk result (code.new.items ≡ code.old.items ++ operators.changed (bare of.now) operator (bare common.now) kept (type_of (term_of operand.now)) (spec.term_code tokens.now parameters (term_of operand.now))) }
{
    keep_old(code, kept)?;
    convert(code, of, common)?;
    append_right(code, tokens, parameters, operand, common, operator)?;
    convert(code, common, of)?;
    keep_new(code, kept)?;
    Ok(())
}

/// Arguments, from left to right.
#[cycle(term)]
fn append_all(
    code: &mut Vec<Instruction>,
    tokens: &Tokens,
    parameters: u32,
    items: &[Expression],
) -> Result<(), AllocError>
    requires { sizes.terms_size (terms_of items.now) < 2 ^ 31 }
    ensures { OnOk result (code.new.items ≡ code.old.items ++ spec.terms_code tokens.now parameters (terms_of items.now)) }
{
    for item in items {
        append(code, tokens, parameters, item)?;
    }
    Ok(())
}
