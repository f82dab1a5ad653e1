// The rules on a method's body: clauses, then code (ECMA-335, II.19, III.1.7 and III.1.8).
ghost use Rattle.std.specs.Prelude.{◌≡◌, ◌<◌, ◌^◌, length, IfOk, true, false, get_or, []};
ghost use Rattle.cc_verify.specs.Places.{Decodes};
ghost use Rattle.cc_verify.specs.Rules.{is_start, is_end, has_edges, is_nested, ClauseVerdict, CodeVerdict, Verdict, MethodVerdict, method_with};
ghost use Rattle.cc_verify.specs.Passes.{AreStarts};

use crate::decode::{decode, starts_of};
use crate::environment::{Environment, Frame};
use crate::method::Method;
use crate::pass::{code_verdict, is_start};
use crate::places::Broken;
use crate::regions::{each_nests, handler_past, is_clause, try_past};
use cc_base::List;
use cc_cil::{Body, Clause};
use std::alloc::{AllocError, Global};

fn is_end(method: &Method, starts: &[bool], at: u64) -> bool
    requires { AreStarts starts.now method.now.places }
    ensures { result ≡ is_end method.now at }
{
    at == u64::from(method.size) || is_start(starts, at)
}

fn has_edges(method: &Method, starts: &[bool], clause: &Clause) -> bool
    requires { AreStarts starts.now method.now.places }
    ensures { result ≡ has_edges method.now clause.now }
{
    (is_start(starts, u64::from(clause.try_first)) && is_end(method, starts, try_past(clause)))
        && (is_start(starts, u64::from(clause.handler_first))
            && is_end(method, starts, handler_past(clause)))
}

fn is_nested(before: &[Clause], clause: &Clause) -> bool
    ensures { result ≡ is_nested before.now clause.now }
{
    is_clause(clause) && each_nests(before, clause)
}

// The first rule that a clause breaks.
fn clause_verdict(method: &Method, starts: &[bool], clauses: &[Clause]) -> Option<Broken>
    requires { AreStarts starts.now method.now.places }
    ensures { ClauseVerdict method.now [] clauses.now result }
{
    for at in 0..clauses.len() {
        let clause = &clauses[at];
        if !has_edges(method, starts, clause) {
            return Some(Broken {
                at: clause.try_first,
                rule: 1,
            });
        }
        if !is_nested(&clauses[..at], clause) {
            return Some(Broken {
                at: clause.try_first,
                rule: 6,
            });
        }
    }
    None
}

// The first rule that a method with a body breaks.
fn verdict(
    alloc: Global,
    method: &Method,
    starts: &[bool],
    end: u32,
) -> Result<Option<Broken>, AllocError>
    requires starts { AreStarts starts.now method.now.places }
    requires long { length starts.now ≡ method.now.size }
    ensures { IfOk result (λ verdict. Verdict method.now end verdict) }
{
    match clause_verdict(method, starts, method.clauses.as_slice()) {
        Some(broken) => return Ok(Some(broken)),
        None => {}
    }
    if method.size == 0 {
        return Ok(Some(Broken { at: 0, rule: 5 }));
    }
    let found = code_verdict(alloc, method, starts, end)?;
    Ok(found)
}

/// The first rule that a method's body breaks, `None` exactly where it breaks none (ECMA-335, III.1.7 and III.1.8):
/// first the clauses in their order, each at the first offset of its protected code, then the instructions by offset,
/// and at one offset by the number of the rule. The types around the method come back.
pub fn body_verdict(
    alloc: Global,
    environment: Environment,
    frame: Frame,
    body: &Body,
) -> Result<(Environment, Option<Broken>), AllocError>
    requires { length body.now.code < 2 ^ 32 }
    ensures same { IfOk result (λ r. r.0 ≡ environment) }
    ensures verdict { IfOk result (λ r. MethodVerdict environment frame body.now r.1) }
{
    let code = body.code.as_slice();
    let size = code.len() as u32;
    let decoded = decode(alloc, code)?;
    let end = decoded.end;
    let starts = starts_of(alloc, decoded.places.as_slice(), size)?;
    let clauses = List::from_slice(alloc, body.clauses.as_slice())?;
    let method = Method {
        environment,
        frame,
        clauses,
        places: decoded.places,
        most: body.max_stack,
        size,
    };
    let found = verdict(alloc, &method, starts.as_slice(), end)?;
    let Method { environment, .. } = method;
    Ok((environment, found))
}
