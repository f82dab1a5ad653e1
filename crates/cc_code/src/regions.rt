// The code of regions.
ghost use Rattle.std.specs.Prelude.{◌≡◌, ◌<◌, ◌^◌, ◌+◌, ◌++◌, ◌∷◌, [], OnOk, IfOk, option_map};
ghost use Rattle.cc_core.specs.Types.{bare};
ghost use Rattle.cc_core.specs.Term.{type_of};
ghost use Rattle.cc_core.specs.Bare.{term_of};
ghost use Rattle.cc_region.specs.Bare.{exit_of, region_of};
ghost use Rattle.cc_region.specs.Lists.{regions_of, sections_of};
ghost use Rattle.cc_region.specs.Region as region;
ghost use Rattle.cc_code.specs.Regions as spec;
ghost use Rattle.cc_code.specs.Sizes as sizes;

use crate::operators::{drop_value, store, zero};
use crate::sizes::{
    entry_size, region_size, regions_size, sections_size, step_size, term_size, tests_size, type_of,
};
use crate::switches::{append_tests, default_place};
use crate::targets::{
    Target, branch, branch_back_if_true, branch_if_true, break_at, continue_at, leave, within,
};
use crate::terms::append;
use crate::tokens::Tokens;
use cc_base::LocalId;
use cc_cil::Instruction;
use cc_core::{CoreType, Expression, LoopKind};
use cc_region::{RegionExit, RegionSection, RegionStatement};
use std::alloc::{AllocError, Global};

/// Appends the code of an expression whose value is dropped.
fn append_do(
    code: &mut Vec<Instruction>,
    tokens: &Tokens,
    parameters: u32,
    e: &Expression,
) -> Result<(), AllocError>
    requires { sizes.do_size (term_of e.now) < 2 ^ 31 }
    ensures { OnOk result (code.new.items ≡ code.old.items ++ spec.do_code tokens.now parameters (term_of e.now)) }
{
    append(code, tokens, parameters, e)?;
    drop_value(code, type_of(e))?;
    Ok(())
}

/// What a loop does after each turn.
fn append_step(
    code: &mut Vec<Instruction>,
    tokens: &Tokens,
    parameters: u32,
    kind: LoopKind,
    after: &Option<Expression>,
) -> Result<(), AllocError>
    requires { sizes.do_if_size (sizes.step_of kind (option_map term_of after.now)) < 2 ^ 31 }
    ensures { OnOk result (code.new.items ≡ code.old.items ++ spec.do_if_code tokens.now parameters (sizes.step_of kind (option_map term_of after.now))) }
{
    match (kind, after) {
        (LoopKind::TestFirst, Some(e)) => {
            append_do(code, tokens, parameters, e)?;
            Ok(())
        }
        (LoopKind::TestFirst, None) => Ok(()),
        (LoopKind::BodyFirst, _) => Ok(()),
    }
}

/// The branch over so many bytes to the test, with which a loop begins that tests first.
fn append_entry(code: &mut Vec<Instruction>, kind: LoopKind, bytes: u32) -> Result<(), AllocError>
    requires { bytes < 2 ^ 31 }
    ensures { OnOk result (code.new.items ≡ code.old.items ++ spec.entry_code kind bytes) }
{
    match kind {
        LoopKind::TestFirst => code.push(branch(bytes))?,
        LoopKind::BodyFirst => {}
    }
    Ok(())
}

/// Sets a variable of a type.
fn append_declare(
    code: &mut Vec<Instruction>,
    tokens: &Tokens,
    parameters: u32,
    local: LocalId,
    of: &CoreType,
    initial: &Option<Expression>,
) -> Result<(), AllocError>
    requires { sizes.initial_size (bare of.now) (option_map term_of initial.now) < 2 ^ 31 }
    ensures { OnOk result (code.new.items ≡ code.old.items ++ spec.declare_code tokens.now parameters local (bare of.now) (option_map term_of initial.now)) }
{
    match initial {
        Some(e) => append(code, tokens, parameters, e)?,
        None => code.push(zero(of))?,
    }
    code.push(store(parameters, local.0))?;
    Ok(())
}

/// An exit at an offset, where these targets are around it, the innermost first.
fn append_exit(
    code: &mut Vec<Instruction>,
    tokens: &Tokens,
    parameters: u32,
    around: &[Target],
    at: u32,
    exit: &RegionExit,
) -> Result<(), AllocError>
    requires { at + sizes.region_size (exit_of exit.now) < 2 ^ 31 }
    ensures { OnOk result (code.new.items ≡ code.old.items ++ spec.region_code tokens.now parameters (exit_of exit.now) at around.now) }
{
    match exit {
        RegionExit::Break(number) => {
            code.push(leave(at, break_at(around, *number)))?;
            Ok(())
        }
        RegionExit::Continue(number) => {
            code.push(leave(at, continue_at(around, *number)))?;
            Ok(())
        }
        RegionExit::Return(None) => {
            code.push(Instruction::Return)?;
            Ok(())
        }
        RegionExit::Return(Some(e)) => {
            append(code, tokens, parameters, e)?;
            code.push(Instruction::Return)?;
            Ok(())
        }
    }
}

/// Appends the code of a region that begins at an offset, where these targets are around it, the innermost first: in a
/// program whose members have these tokens, in a function with so many parameters.
#[cycle(region)]
pub(crate) fn append_region(
    alloc: Global,
    code: &mut Vec<Instruction>,
    tokens: &Tokens,
    parameters: u32,
    around: &[Target],
    at: u32,
    region: &RegionStatement,
) -> Result<(), AllocError>
    requires { at + sizes.region_size (region_of region.now) < 2 ^ 31 }
    ensures { OnOk result (code.new.items ≡ code.old.items ++ spec.region_code tokens.now parameters (region_of region.now) at around.now) }
{
    match region {
        RegionStatement::Sequence(regions) => {
            let regions = regions.as_slice();
            append_regions(alloc, code, tokens, parameters, around, at, regions)?;
            Ok(())
        }
        RegionStatement::Do(e) => {
            append_do(code, tokens, parameters, e)?;
            Ok(())
        }
        RegionStatement::Declare(local, of, initial) => {
            append_declare(code, tokens, parameters, *local, of, initial)?;
            Ok(())
        }
        RegionStatement::If(condition, first, second) => {
            append(code, tokens, parameters, condition)?;
            let second_at = at + term_size(condition) + 5;
            let first_at = at + term_size(condition) + region_size(second) + 10;
            code.push(branch_if_true(region_size(second) + 5))?;
            append_region(alloc, code, tokens, parameters, around, second_at, second)?;
            code.push(branch(region_size(first)))?;
            append_region(alloc, code, tokens, parameters, around, first_at, first)?;
            code.push(Instruction::Nop)?;
            Ok(())
        }
        RegionStatement::Block(body) => {
            append_block(alloc, code, tokens, parameters, around, at, body)?;
            Ok(())
        }
        RegionStatement::Switch(local, e, sections) => {
            let sections = sections.as_slice();
            append_switch(
                alloc, code, tokens, parameters, around, at, sections, *local, e,
            )?;
            Ok(())
        }
        RegionStatement::Loop(kind, condition, after, body) => {
            append_loop(
                alloc, code, tokens, parameters, around, at, body, *kind, condition, after,
            )?;
            Ok(())
        }
        RegionStatement::Exit(exit) => {
            append_exit(code, tokens, parameters, around, at, exit)?;
            Ok(())
        }
        RegionStatement::Guard(_, _)
        | RegionStatement::OnThrow(_, _)
        | RegionStatement::Catch(_, _)
        | RegionStatement::Finally(_, _)
        | RegionStatement::Throw(_)
        | RegionStatement::Rethrow => Ok(()),
    }
}

/// A body that a Break ends.
#[cycle(region)]
fn append_block(
    alloc: Global,
    code: &mut Vec<Instruction>,
    tokens: &Tokens,
    parameters: u32,
    around: &[Target],
    at: u32,
    body: &RegionStatement,
) -> Result<(), AllocError>
    requires { at + sizes.region_size (region.Block (region_of body.now)) < 2 ^ 31 }
    ensures { OnOk result (code.new.items ≡ code.old.items ++ spec.region_code tokens.now parameters (region.Block (region_of body.now)) at around.now) }
{
    let past = at + region_size(body);
    let inner = within(alloc, around, past, past)?;
    append_region(alloc, code, tokens, parameters, &inner, at, body)?;
    code.push(Instruction::Nop)?;
    Ok(())
}

/// A switch: its operand, the tests of its labels, and its sections.
#[cycle(region)]
fn append_switch(
    alloc: Global,
    code: &mut Vec<Instruction>,
    tokens: &Tokens,
    parameters: u32,
    around: &[Target],
    at: u32,
    sections: &[RegionSection],
    local: LocalId,
    e: &Expression,
) -> Result<(), AllocError>
    requires { at + sizes.region_size (region.Switch local (term_of e.now) (sections_of sections.now)) < 2 ^ 31 }
    ensures { OnOk result (code.new.items ≡ code.old.items ++ spec.region_code tokens.now parameters (region.Switch local (term_of e.now) (sections_of sections.now)) at around.now) }
{
    append(code, tokens, parameters, e)?;
    code.push(store(parameters, local.0))?;
    append_tests(code, parameters, local, type_of(e), sections, 5)?;
    code.push(branch(default_place(sections)))?;
    let sections_at = at + term_size(e) + 4 + tests_size(type_of(e), sections) + 5;
    let past = sections_at + sections_size(sections);
    let inner = within(alloc, around, past, past)?;
    append_sections(
        alloc,
        code,
        tokens,
        parameters,
        &inner,
        sections_at,
        sections,
    )?;
    code.push(Instruction::Nop)?;
    Ok(())
}

/// A loop: its body, what is done after each turn, and its test, which leads back to the body.
#[cycle(region)]
fn append_loop(
    alloc: Global,
    code: &mut Vec<Instruction>,
    tokens: &Tokens,
    parameters: u32,
    around: &[Target],
    at: u32,
    body: &RegionStatement,
    kind: LoopKind,
    condition: &Expression,
    after: &Option<Expression>,
) -> Result<(), AllocError>
    requires { at + sizes.region_size (region.Loop kind (term_of condition.now) (option_map term_of after.now) (region_of body.now)) < 2 ^ 31 }
    ensures { OnOk result (code.new.items ≡ code.old.items ++ spec.region_code tokens.now parameters (region.Loop kind (term_of condition.now) (option_map term_of after.now) (region_of body.now)) at around.now) }
{
    let body_at = at + entry_size(kind);
    let step_at = body_at + region_size(body);
    let turn_size = region_size(body) + step_size(kind, after);
    let past = body_at + turn_size + term_size(condition) + 5;
    let inner = within(alloc, around, past, step_at)?;
    append_entry(code, kind, turn_size)?;
    append_region(alloc, code, tokens, parameters, &inner, body_at, body)?;
    append_step(code, tokens, parameters, kind, after)?;
    append(code, tokens, parameters, condition)?;
    code.push(branch_back_if_true(turn_size + term_size(condition) + 5))?;
    code.push(Instruction::Nop)?;
    Ok(())
}

/// Regions one after another, the first of which begins at an offset.
#[cycle(region)]
fn append_regions(
    alloc: Global,
    code: &mut Vec<Instruction>,
    tokens: &Tokens,
    parameters: u32,
    around: &[Target],
    at: u32,
    regions: &[RegionStatement],
) -> Result<(), AllocError>
    requires { at + sizes.regions_size (regions_of regions.now) < 2 ^ 31 }
    ensures { OnOk result (code.new.items ≡ code.old.items ++ spec.regions_code tokens.now parameters (regions_of regions.now) at around.now) }
{
    let mut next = at;
    for region in regions {
        append_region(alloc, code, tokens, parameters, around, next, region)?;
        next += region_size(region);
    }
    Ok(())
}

/// Sections one after another, the first of which begins at an offset.
#[cycle(region)]
fn append_sections(
    alloc: Global,
    code: &mut Vec<Instruction>,
    tokens: &Tokens,
    parameters: u32,
    around: &[Target],
    at: u32,
    sections: &[RegionSection],
) -> Result<(), AllocError>
    requires { at + sizes.sections_size (sections_of sections.now) < 2 ^ 31 }
    ensures { OnOk result (code.new.items ≡ code.old.items ++ spec.sections_code tokens.now parameters (sections_of sections.now) at around.now) }
{
    let mut next = at;
    for section in sections {
        let body = section.body.as_slice();
        append_regions(alloc, code, tokens, parameters, around, next, body)?;
        next += regions_size(body);
    }
    Ok(())
}
