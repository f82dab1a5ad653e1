// What a plain name means at a place (ECMA-372, 10.4; ISO/IEC 14882:2003, 3.4.1).
ghost use Rattle.std.specs.Prelude.{◌≡◌, ℕ, Some, length};
ghost use Rattle.cc_names.specs.Lookup as spec;

use crate::declarations::Declarations;
use crate::lookup::{Found, Place};
use crate::scope::ScopeKind;
use cc_base::Name;

impl Declarations {
    /// What a scope has of a name at a place.
    fn in_scope(&self, at: u32, scope: u32, kind: &ScopeKind, numbers: &[u32]) -> Option<u32>
        ensures { result ≡ spec.in_scope self.now.scopes self.now.items numbers.now at scope kind.now }
    {
        match kind {
            ScopeKind::Unit => self.first_in(numbers, scope),
            ScopeKind::Namespace(_) => self.first_in(numbers, scope),
            ScopeKind::Class(name) => self.in_class(self.class_named(name.as_slice()), numbers),
            ScopeKind::Enumeration => self.first_in(numbers, scope),
            ScopeKind::Template => self.first_in(numbers, scope),
            ScopeKind::Parameters => self.first_in(numbers, scope),
            ScopeKind::Local => self.first_before(numbers, scope, at),
        }
    }

    /// What a scope and those around it have of a name at a place, the nearest first.
    #[tactic(auto, using(crate::proofs::Chains::outwards_rules))]
    fn outwards(&self, left: usize, at: u32, scope: Option<u32>, numbers: &[u32]) -> Option<u32>
        ensures { result ≡ spec.outwards self.now.scopes self.now.items numbers.now left at scope }
    {
        if left == 0 {
            return None;
        }
        let scope = match scope {
            None => return None,
            Some(scope) => scope,
        };
        match self.scopes.get(scope as usize) {
            None => None,
            Some(one) => match self.in_scope(at, scope, &one.kind, numbers) {
                Some(number) => Some(number),
                None => self.outwards(left - 1, at, one.parent, numbers),
            },
        }
    }

    /// The number of what a name means at a place, by the numbers of its declarations.
    fn number_at(&self, from: Place, numbers: &[u32]) -> Option<u32>
        ensures { result ≡ spec.or_else self.now.scopes self.now.items numbers.now (spec.outwards self.now.scopes self.now.items numbers.now (length self.now.scopes) from.at (Some from.scope)) (spec.by_directives self.now.scopes self.now.items numbers.now self.now.directives from.at) }
    {
        match self.outwards(self.scopes.len(), from.at, Some(from.scope), numbers) {
            Some(number) => Some(number),
            None => self.first_directed(numbers, from.at),
        }
    }

    /// What a name means at a place: the nearest scope that declares it decides, and last the namespaces of the using
    /// directives together. `None` exactly where none declares it. It takes no memory.
    pub fn look_up(&self, from: Place, name: &Name) -> Option<Found>
        ensures { result ≡ spec.looked_up self.now.scopes self.now.items self.now.directives from name.now }
    {
        self.found(self.number_at(from, self.named(name.as_slice())))
    }
}
