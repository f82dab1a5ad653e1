// What a throw or a leave comes to in a frame on its way out.
ghost use Rattle.std.specs.Prelude.{◌≡◌};
ghost use Rattle.cc_handlers.specs.Ways.{thrown_turn, leave_turn, protected_turn, handling_turn, turn_at, way_out};

use crate::classes::is_of;
use crate::search::in_range;
use cc_base::ClassId;
use cc_cil::{Clause, ClauseKind};
use cc_execution::ClassRow;

/// Why control leaves protected code or a handler.
#[derive(Clone, Copy)]
pub enum Departure {
    /// An exception of a class is on its way out.
    Exception(Option<ClassId>),
    /// A leave is on its way to an offset.
    Leave(u32),
}

/// A handler that is entered: the first offset of its code, and whether it catches the exception.
#[derive(Clone, Copy)]
pub struct Entrance {
    pub first: u32,
    pub catches: bool,
}

/// What a departure comes to: how many handlers that run are left, and the handler that is entered; none where the
/// exception leaves the frame or the leave reaches its target.
#[derive(Clone, Copy)]
pub struct Way {
    pub left: usize,
    pub into: Option<Entrance>,
}

// What a departure comes to at one clause.
#[derive(Clone, Copy)]
enum Turn {
    // It goes on.
    On,
    // It leaves the handler.
    Out,
    // It has reached its target.
    Stop,
    // It enters the handler.
    Into(Entrance),
}

// At protected code that an exception leaves, where the clause's class matches or not.
fn thrown_turn(kind: ClauseKind, matching: bool, first: u32) -> Turn
    ensures { result ≡ thrown_turn kind matching first }
{
    match kind {
        ClauseKind::Catch => {
            if matching {
                Turn::Into(Entrance {
                    first,
                    catches: true,
                })
            } else {
                Turn::On
            }
        }
        ClauseKind::Finally => Turn::Into(Entrance {
            first,
            catches: false,
        }),
        ClauseKind::Fault => Turn::Into(Entrance {
            first,
            catches: false,
        }),
    }
}

// At protected code that a leave leaves: a fault handler runs for exceptions alone.
fn leave_turn(kind: ClauseKind, first: u32) -> Turn
    ensures { result ≡ leave_turn kind first }
{
    match kind {
        ClauseKind::Catch => Turn::On,
        ClauseKind::Finally => Turn::Into(Entrance {
            first,
            catches: false,
        }),
        ClauseKind::Fault => Turn::On,
    }
}

// At protected code around the offset.
fn protected_turn(classes: &[ClassRow], departure: Departure, clause: &Clause) -> Turn
    ensures { result ≡ protected_turn classes.now departure clause.now }
{
    match departure {
        Departure::Exception(thrown) => {
            let matching = is_of(classes, thrown, clause.class);
            thrown_turn(clause.kind, matching, clause.handler_first)
        }
        Departure::Leave(to) => {
            if in_range(clause.try_first, clause.try_length, to) {
                Turn::Stop
            } else {
                leave_turn(clause.kind, clause.handler_first)
            }
        }
    }
}

// At a handler around the offset.
fn handling_turn(departure: Departure, clause: &Clause) -> Turn
    ensures { result ≡ handling_turn departure clause.now }
{
    match departure {
        Departure::Exception(_) => Turn::Out,
        Departure::Leave(to) => {
            if in_range(clause.handler_first, clause.handler_length, to) {
                Turn::Stop
            } else {
                Turn::Out
            }
        }
    }
}

// At a clause.
fn turn_at(classes: &[ClassRow], departure: Departure, clause: &Clause, at: u32) -> Turn
    ensures { result ≡ turn_at classes.now departure at clause.now }
{
    if in_range(clause.try_first, clause.try_length, at) {
        protected_turn(classes, departure, clause)
    } else if in_range(clause.handler_first, clause.handler_length, at) {
        handling_turn(departure, clause)
    } else {
        Turn::On
    }
}

/// What a departure from an offset comes to among the clauses of a method, from the inside out (ECMA-335, I.12.4.2.5 and
/// III.3.46).
pub fn way_out(classes: &[ClassRow], departure: Departure, clauses: &[Clause], at: u32) -> Way
    ensures { result ≡ way_out classes.now departure at clauses.now }
{
    let mut left = 0;
    for clause in clauses {
        match turn_at(classes, departure, clause, at) {
            Turn::On => {}
            Turn::Out => left += 1,
            Turn::Stop => return Way { left, into: None },
            Turn::Into(entrance) => {
                return Way {
                    left,
                    into: Some(entrance),
                };
            }
        }
    }
    Way { left, into: None }
}
