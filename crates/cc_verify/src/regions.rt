// Protected regions and their handlers (ECMA-335, II.19 and III.1.7.5).
ghost use Rattle.std.specs.Prelude.{◌≡◌, ◌+◌, ◌<◌, ◌^◌, true, false, length};
ghost use Rattle.cc_verify.specs.Regions.{try_past, handler_past, in_range, in_try, in_handler, are_apart, is_within, is_clause, is_outside, stand_apart, share_try, lies_in, nests, is_catch, may_enter, may_stay, may_leave, may_pass, may_exit, is_out, handles_not, begins_try, innermost_handler, ends_handler, is_cleanup, is_catch_handler, each_clause, some_clause};

use cc_cil::{Clause, ClauseKind};

// ---- ranges of offsets

/// The offset behind the protected code.
pub fn try_past(clause: &Clause) -> u64
    ensures { result ≡ try_past clause.now }
{
    u64::from(clause.try_first) + u64::from(clause.try_length)
}

/// The offset behind the handler.
pub fn handler_past(clause: &Clause) -> u64
    ensures { result ≡ handler_past clause.now }
{
    u64::from(clause.handler_first) + u64::from(clause.handler_length)
}

fn in_try(clause: &Clause, at: u64) -> bool
    ensures { result ≡ in_try clause.now at }
{
    u64::from(clause.try_first) <= at && at < try_past(clause)
}

fn in_handler(clause: &Clause, at: u64) -> bool
    ensures { result ≡ in_handler clause.now at }
{
    u64::from(clause.handler_first) <= at && at < handler_past(clause)
}

fn are_apart(first: u32, past: u64, other_first: u32, other_past: u64) -> bool
    ensures { result ≡ are_apart first past other_first other_past }
{
    past <= u64::from(other_first) || other_past <= u64::from(first)
}

fn is_within(first: u32, past: u64, other_first: u32, other_past: u64) -> bool
    ensures { result ≡ is_within first past other_first other_past }
{
    other_first <= first && past <= other_past
}

// ---- how clauses nest

/// Whether neither range is empty and they are apart.
pub fn is_clause(clause: &Clause) -> bool
    ensures { result ≡ is_clause clause.now }
{
    0 < clause.try_length
        && (0 < clause.handler_length
            && are_apart(
                clause.try_first,
                try_past(clause),
                clause.handler_first,
                handler_past(clause),
            ))
}

fn is_outside(first: u32, past: u64, clause: &Clause) -> bool
    ensures { result ≡ is_outside first past clause.now }
{
    are_apart(first, past, clause.try_first, try_past(clause))
        && are_apart(first, past, clause.handler_first, handler_past(clause))
}

fn stand_apart(inner: &Clause, outer: &Clause) -> bool
    ensures { result ≡ stand_apart inner.now outer.now }
{
    is_outside(inner.try_first, try_past(inner), outer)
        && is_outside(inner.handler_first, handler_past(inner), outer)
}

fn share_try(inner: &Clause, outer: &Clause) -> bool
    ensures { result ≡ share_try inner.now outer.now }
{
    inner.try_first == outer.try_first
        && (inner.try_length == outer.try_length
            && are_apart(
                inner.handler_first,
                handler_past(inner),
                outer.handler_first,
                handler_past(outer),
            ))
}

fn lies_in(inner: &Clause, first: u32, past: u64) -> bool
    ensures { result ≡ lies_in inner.now first past }
{
    is_within(inner.try_first, try_past(inner), first, past)
        && is_within(inner.handler_first, handler_past(inner), first, past)
}

fn nests(inner: &Clause, outer: &Clause) -> bool
    ensures { result ≡ nests inner.now outer.now }
{
    inner.handler_first != outer.handler_first
        && (stand_apart(inner, outer)
            || (share_try(inner, outer)
                || (lies_in(inner, outer.try_first, try_past(outer))
                    || lies_in(inner, outer.handler_first, handler_past(outer)))))
}

/// Whether each clause before one stands beside it or within it, as a whole.
pub fn each_nests(before: &[Clause], clause: &Clause) -> bool
    ensures { result ≡ each_clause (λ d. nests d clause.now) before.now }
{
    for inner in before {
        if !nests(inner, clause) {
            return false;
        }
    }
    true
}

// ---- passing from one place to another

/// Whether the clause is a catch.
pub fn is_catch(kind: ClauseKind) -> bool
    ensures { result ≡ is_catch kind }
{
    match kind {
        ClauseKind::Catch => true,
        ClauseKind::Finally => false,
        ClauseKind::Fault => false,
    }
}

fn may_enter(from: u64, to: u64, clause: &Clause) -> bool
    ensures { result ≡ may_enter from to clause.now }
{
    (!in_try(clause, to) || (in_try(clause, from) || to == u64::from(clause.try_first)))
        && (!in_handler(clause, to) || in_handler(clause, from))
}

fn may_stay(from: u64, to: u64, clause: &Clause) -> bool
    ensures { result ≡ may_stay from to clause.now }
{
    (!in_try(clause, from) || in_try(clause, to))
        && (!in_handler(clause, from) || in_handler(clause, to))
}

fn may_leave(from: u64, to: u64, clause: &Clause) -> bool
    ensures { result ≡ may_leave from to clause.now }
{
    is_catch(clause.kind) || (!in_handler(clause, from) || in_handler(clause, to))
}

/// Whether a branch or a fall may pass from one offset to another.
pub fn each_passes(from: u64, to: u64, clauses: &[Clause]) -> bool
    ensures { result ≡ each_clause (may_pass from to) clauses.now }
{
    for clause in clauses {
        if !(may_enter(from, to, clause) && may_stay(from, to, clause)) {
            return false;
        }
    }
    true
}

/// Whether a leave may pass from one offset to another.
pub fn each_exits(from: u64, to: u64, clauses: &[Clause]) -> bool
    ensures { result ≡ each_clause (may_exit from to) clauses.now }
{
    for clause in clauses {
        if !(may_enter(from, to, clause) && may_leave(from, to, clause)) {
            return false;
        }
    }
    true
}

/// Whether the offset lies in no region.
pub fn is_out_of_each(at: u64, clauses: &[Clause]) -> bool
    ensures { result ≡ each_clause (is_out at) clauses.now }
{
    for clause in clauses {
        if in_try(clause, at) || in_handler(clause, at) {
            return false;
        }
    }
    true
}

/// Whether no handler has the offset.
pub fn no_handler_has(at: u64, clauses: &[Clause]) -> bool
    ensures { result ≡ each_clause (handles_not at) clauses.now }
{
    for clause in clauses {
        if in_handler(clause, at) {
            return false;
        }
    }
    true
}

/// Whether the protected code of a clause begins at the offset.
pub fn some_try_begins(at: u64, clauses: &[Clause]) -> bool
    ensures { result ≡ some_clause (begins_try at) clauses.now }
{
    for clause in clauses {
        if u64::from(clause.try_first) == at {
            return true;
        }
    }
    false
}

// ---- the innermost region

/// The kind of the innermost handler around an offset.
pub fn innermost_handler(clauses: &[Clause], at: u64) -> Option<ClauseKind>
    ensures { result ≡ innermost_handler clauses.now at }
{
    for clause in clauses {
        if in_handler(clause, at) {
            return Some(clause.kind);
        }
    }
    None
}

/// Whether the innermost region around an offset is a finally or fault handler, or there is none.
pub fn ends_handler(clauses: &[Clause], at: u64) -> bool
    ensures { result ≡ ends_handler clauses.now at }
{
    for clause in clauses {
        if in_try(clause, at) {
            return false;
        }
        if in_handler(clause, at) {
            return !is_catch(clause.kind);
        }
    }
    true
}

/// Whether it is the handler of a finally or fault clause.
pub fn is_cleanup(kind: Option<ClauseKind>) -> bool
    ensures { result ≡ is_cleanup kind }
{
    match kind {
        None => false,
        Some(kind) => !is_catch(kind),
    }
}

/// Whether it is the handler of a catch.
pub fn is_catch_handler(kind: Option<ClauseKind>) -> bool
    ensures { result ≡ is_catch_handler kind }
{
    match kind {
        None => false,
        Some(kind) => is_catch(kind),
    }
}
