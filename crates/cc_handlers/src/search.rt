// Which catch of a method takes an exception.
ghost use Rattle.std.specs.Prelude.{◌≡◌};
ghost use Rattle.cc_execution.specs.Handlers.{derives};
ghost use Rattle.cc_execution.specs.Links.{in_range};
ghost use Rattle.cc_handlers.specs.Search.{takes, catch_from};

use crate::classes::derives;
use cc_base::ClassId;
use cc_cil::{Clause, ClauseKind};
use cc_execution::ClassRow;

/// A handler: the place of its clause among those of the method, and the first offset of its code.
#[derive(Clone, Copy)]
pub struct HandlerPlace {
    pub clause: usize,
    pub first: u32,
}

// The offset is one of so many from the first on.
pub fn in_range(first: u32, count: u32, at: u32) -> bool
    ensures { result ≡ in_range first count at }
{
    first <= at && u64::from(at) < u64::from(first) + u64::from(count)
}

// The clause is a catch around the offset for exceptions of the class.
fn takes(classes: &[ClassRow], thrown: ClassId, at: u32, clause: &Clause) -> bool
    ensures { result ≡ takes (λ token. derives classes.now thrown token) at clause.now }
{
    match clause.kind {
        ClauseKind::Catch => {
            in_range(clause.try_first, clause.try_length, at)
                && derives(classes, thrown, clause.class)
        }
        ClauseKind::Finally => false,
        ClauseKind::Fault => false,
    }
}

/// The innermost catch around an offset that takes exceptions of a class, by the order of the clauses, in which inner ones
/// come first; none exactly where no catch around the offset names the class or one that it reaches through its bases
/// (ECMA-335, I.12.4.2.5).
pub fn find_handler(
    clauses: &[Clause],
    at: u32,
    thrown: ClassId,
    classes: &[ClassRow],
) -> Option<HandlerPlace>
    ensures { result ≡ catch_from (λ token. derives classes.now thrown token) at 0 clauses.now }
{
    for place in 0..clauses.len() {
        let clause = &clauses[place];
        if takes(classes, thrown, at, clause) {
            return Some(HandlerPlace {
                clause: place,
                first: clause.handler_first,
            });
        }
    }
    None
}
