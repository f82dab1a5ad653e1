// Bodies whose evaluation stack is right at each offset.
ghost use Rattle.std.specs.Prelude.{◌≡◌, ◌==◌, ◌&&◌, ◌<◌, ◌^◌, None, length};
ghost use Rattle.cc_cil.specs.Steps.{Checks, height_at, height_behind, is_return, action_of};

use cc_cil::{Action, Body, Instruction, decode_one};
use std::alloc::Global;
use std::marker::Model;

/// Why a body is refused.
#[derive(Clone, Copy, Debug, PartialEq, Eq)]
pub enum CheckFault {
    /// Memory did not suffice.
    Memory,
    /// The first offset at which the height of the stack is wrong, the machine does not have the instruction, or the
    /// code ends without a return.
    Bad(u32),
}

/// A body that is refused, and why.
#[derive(Debug, Drop)]
pub struct CheckRefusal {
    pub body: Body,
    pub fault: CheckFault,
}

/// A body of which each offset is right: its code can be executed to its end.
#[derive(Debug, Drop)]
pub struct Checked {
    body: Body,
}

impl Model for Checked {
    ghost use Rattle.std.specs.Prelude.{None, ◌<◌, ◌^◌, length};
    ghost use Rattle.cc_cil.specs.declared.body.Body.{Body};
    ghost use Rattle.cc_cil.specs.contracts.body.Body as body_row;
    ghost use Rattle.cc_cil.specs.Steps.{Checks};

    ghost Value = { Body };

    ghost coded = { body_row.the_row.coded };

    ghost view = { λ checked. checked.body };

    ghost invariant = { λ checked. Checks checked.body.code checked.body.max_stack 0 0 None × (length checked.body.code < 2 ^ 32) };
}

fn height_behind(most: u32, action: Action, height: u32) -> Option<u32>
    requires { most < 2 ^ 16 }
    ensures { result ≡ height_behind most action height }
{
    match action {
        Action::Push(_) => {
            if height < most {
                Some(height + 1)
            } else {
                None
            }
        }
        Action::Add | Action::Subtract | Action::Multiply => {
            if height < 2 { None } else { Some(height - 1) }
        }
        Action::WriteLine => { if height < 1 { None } else { Some(height - 1) } }
        Action::Return => { if height == 1 { Some(0) } else { None } }
    }
}

fn height_at(most: u32, action: Option<Action>, height: u32) -> Option<u32>
    requires { most < 2 ^ 16 }
    ensures { result ≡ height_at most action height }
{
    match action {
        Some(action) => height_behind(most, action, height),
        None => None,
    }
}

fn is_return(action: Option<Action>) -> bool
    ensures { result ≡ is_return action }
{
    matches!(action, Some(Action::Return))
}

// The code ends behind a return.
fn is_last(action: Option<Action>, next: u32, length: usize) -> bool
    ensures { result ≡ (is_return action && (next == length)) }
{
    is_return(action) && next as usize == length
}

// The first wrong offset.
fn first_wrong(body: &Body) -> Option<u32>
    requires { length body.now.code < 2 ^ 32 }
    ensures { Checks body.now.code body.now.max_stack 0 0 result }
{
    let code = body.code.as_slice();
    let most = u32::from(body.max_stack);
    let mut at = 0;
    let mut height = 0;
    while (at as usize) < code.len() {
        let Ok((instruction, next)) = decode_one(code, at) else {
            return Some(at);
        };
        let action = Action::of(&instruction);
        let Some(behind) = height_at(most, action, height) else {
            return Some(at);
        };
        if is_last(action, next, code.len()) {
            return None;
        }
        at = next;
        height = behind;
    }
    Some(at)
}

impl Checked {
    ghost use Rattle.cc_machine.specs.Checked.{IsChecked};

    /// Checks a body. `Bad` comes exactly with the first wrong offset, and the body comes back.
    pub fn of(_alloc: Global, body: Body) -> Result<Checked, CheckRefusal>
        requires { length body.code < 2 ^ 32 }
        ensures { IsChecked body result }
    {
        match first_wrong(&body) {
            Some(at) => Err(CheckRefusal {
                body,
                fault: CheckFault::Bad(at),
            }),
            None => Ok(Checked { body }),
        }
    }

    /// The body that was checked.
    pub fn body(&self) -> &Body
        ensures same { result.now ≡ self.now }
        ensures fine { Checks result.now.code result.now.max_stack 0 0 None }
        ensures long { length result.now.code < 2 ^ 32 }
    {
        &self.body
    }
}
