// Whether two scopes are one namespace (ECMA-372, 10.3; ISO/IEC 14882:2003, 7.3.1).
ghost use Rattle.std.specs.Prelude.{◌≡◌, ℕ, Option, Some, slice_get};
ghost use Rattle.std.specs.Option.{option_copied};
ghost use Rattle.cc_names.specs.Lookup as spec;

use crate::scope::{Scope, ScopeKind};

/// Whether two scopes are parts of namespaces of one name.
fn have_one_name(one: &ScopeKind, other: &ScopeKind) -> bool
    ensures { result ≡ spec.same_part_name (spec.part_name one.now) (spec.part_name other.now) }
{
    match one {
        ScopeKind::Namespace(name) => match other {
            ScopeKind::Namespace(second) => name.as_slice() == second.as_slice(),
            ScopeKind::Unit => false,
            ScopeKind::Class(_) => false,
            ScopeKind::Enumeration => false,
            ScopeKind::Template => false,
            ScopeKind::Parameters => false,
            ScopeKind::Local => false,
        },
        ScopeKind::Unit => false,
        ScopeKind::Class(_) => false,
        ScopeKind::Enumeration => false,
        ScopeKind::Template => false,
        ScopeKind::Parameters => false,
        ScopeKind::Local => false,
    }
}

/// The scopes around two parts of namespaces of one name.
fn around_parts(one: &Scope, other: &Scope) -> Option<(u32, u32)>
    ensures { result ≡ spec.around_parts (Some one.now) (Some other.now) }
{
    if !have_one_name(&one.kind, &other.kind) {
        return None;
    }
    match one.parent {
        None => None,
        Some(first) => match other.parent {
            None => None,
            Some(second) => Some((first, second)),
        },
    }
}

/// The scopes around two parts of namespaces of one name, by their numbers.
fn around_scopes(scopes: &[Scope], first: u32, second: u32) -> Option<(u32, u32)>
    ensures { result ≡ spec.around_parts (slice_get scopes.now first) (slice_get scopes.now second) }
{
    match scopes.get(first as usize) {
        None => None,
        Some(one) => match scopes.get(second as usize) {
            None => None,
            Some(other) => around_parts(one, other),
        },
    }
}

/// Whether two scopes are one, or parts of one namespace, with at most so many scopes around them.
#[tactic(auto, using(crate::proofs::Chains::same_next))]
fn same_within(left: usize, scopes: &[Scope], first: u32, second: u32) -> bool
    ensures { result ≡ spec.same_within left scopes.now first second }
{
    if first == second {
        return true;
    }
    if left == 0 {
        return false;
    }
    match around_scopes(scopes, first, second) {
        None => false,
        Some((first, second)) => same_within(left - 1, scopes, first, second),
    }
}

/// Whether two scopes are one, or parts of one namespace.
pub(crate) fn is_same_scope(scopes: &[Scope], first: u32, second: u32) -> bool
    ensures { result ≡ spec.is_same_scope scopes.now first second }
{
    same_within(scopes.len(), scopes, first, second)
}
