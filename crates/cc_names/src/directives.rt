// The using directives of a source, and the namespaces that they name (ISO/IEC 14882:2003, 7.3.4).
ghost use Rattle.std.specs.Prelude.{◌≡◌, ℕ, List, ◌++◌, map, find, ◌&&◌, slice_get, Some, OnOk, IfOk};
ghost use Rattle.cc_names.specs.Directives as spec;
ghost use Rattle.cc_names.specs.Lookup as lookup;

use crate::declarations::Declarations;
use crate::lookup::Directive;
use crate::scope::ItemKind;
use cc_base::{List, Span};
use cc_tree::{Identifier, Outer};
use std::alloc::AllocError;

/// The number of the scope of a part of a namespace.
fn part_scope(kind: &ItemKind) -> Option<u32>
    ensures { result ≡ spec.part_scope kind.now }
{
    match kind {
        ItemKind::Namespace(scope) => Some(*scope),
        _ => None,
    }
}

pub(crate) fn is_part(kind: &ItemKind) -> bool
    ensures { result ≡ spec.is_part kind.now }
{
    matches!(kind, ItemKind::Namespace(_))
}

impl Declarations {
    fn is_part_number(&self, number: u32) -> bool
        ensures { result ≡ lookup.is_item (λ item. spec.is_part item.kind) (slice_get self.now.items number) }
    {
        match self.item(number) {
            None => false,
            Some(item) => is_part(&item.kind),
        }
    }

    /// The first part of a name in the namespace of a scope.
    fn first_part(&self, scope: u32, name: &[u8]) -> Option<u32>
        ensures { result ≡ spec.first_part self.now.scopes self.now.items scope name.now }
    {
        for number in self.named(name) {
            if self.is_part_number(*number) && self.stands_in(scope, *number) {
                return Some(*number);
            }
        }
        None
    }

    fn scope_of_number(&self, number: Option<u32>) -> Option<u32>
        ensures { result ≡ spec.scope_of_number self.now.items number }
    {
        match number {
            None => None,
            Some(number) => match self.item(number) {
                None => None,
                Some(item) => part_scope(&item.kind),
            },
        }
    }

    fn next_part(&self, scope: Option<u32>, name: &Identifier) -> Option<u32>
        ensures { result ≡ spec.next_part self.now.scopes self.now.items scope name.now }
    {
        match scope {
            None => None,
            Some(scope) => self.scope_of_number(self.first_part(scope, name.name.as_slice())),
        }
    }

    /// The scope of the first part of the namespace that names lead to from a scope.
    fn namespace_from(&self, scope: Option<u32>, path: &[Identifier]) -> Option<u32>
        ensures { result ≡ spec.namespace_from self.now.scopes self.now.items scope path.now }
    {
        let mut around = scope;
        for name in path {
            around = self.next_part(around, name);
        }
        around
    }

    /// Adds a directive where it names a namespace.
    fn add_directive(
        &self,
        directives: &mut List<Directive>,
        path: &[Identifier],
        span: Span,
    ) -> Result<(), AllocError>
        ensures { OnOk result (directives.new ≡ directives.old ++ spec.or_nothing self.now.scopes self.now.items (spec.directive_of self.now.scopes self.now.items path.now span)) }
    {
        match self.namespace_from(Some(0), path) {
            None => Ok(()),
            Some(scope) => {
                directives.push(Directive {
                    past: span.past,
                    scope,
                })?;
                Ok(())
            }
        }
    }

    /// Adds the directives in what stands outside classes.
    #[cycle(directives)]
    #[tactic(auto, using(crate::proofs::Directed::directed))]
    fn add_of_outer(
        &self,
        directives: &mut List<Directive>,
        outer: &Outer,
    ) -> Result<(), AllocError>
        ensures { OnOk result (directives.new ≡ directives.old ++ spec.outer_directives self.now.scopes self.now.items outer.now) }
    {
        match outer {
            Outer::Using(path, span) => self.add_directive(directives, path.as_slice(), *span),
            Outer::Namespace(_, outers, _) => self.add_directives(directives, outers.as_slice()),
            Outer::Class(_) => Ok(()),
            Outer::Enumeration(_) => Ok(()),
            Outer::VisibleClass(_, _, _) => Ok(()),
            Outer::VisibleEnumeration(_, _, _) => Ok(()),
            Outer::Forward(_, _, _) => Ok(()),
            Outer::Template(_) => Ok(()),
            Outer::Function(_) => Ok(()),
        }
    }

    /// Adds the directives in what stands outside classes, in a row.
    #[cycle(directives)]
    pub(crate) fn add_directives(
        &self,
        directives: &mut List<Directive>,
        outers: &[Outer],
    ) -> Result<(), AllocError>
        ensures { OnOk result (directives.new ≡ directives.old ++ spec.all_directives self.now.scopes self.now.items (map (spec.outer_directives self.now.scopes self.now.items) outers.now)) }
    {
        for outer in outers {
            self.add_of_outer(directives, outer)?;
        }
        Ok(())
    }
}
