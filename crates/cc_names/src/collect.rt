// One scope or one declaration after another.
ghost use Rattle.std.specs.Prelude.{◌≡◌, ℕ, Some, length, OnOk, IfOk};
ghost use Rattle.cc_names.specs.Collected as collected;

use crate::index::number_of;
use crate::scope::{Declared, Item, ItemKind, Scope, ScopeKind};
use cc_base::{List, Span};
use cc_tree::Identifier;
use std::alloc::{AllocError, Global};

impl Declared {
    /// The number that the next scope has.
    pub(crate) fn next_scope(&self) -> Result<u32, AllocError>
        ensures { IfOk result (λ number. number ≡ length self.now.scopes) }
    {
        number_of(self.scopes.len())
    }

    /// Adds a scope and gives its number.
    #[tactic(auto, unfolding(crate::specs::Collected::with_scope))]
    pub(crate) fn open(
        &mut self,
        kind: ScopeKind,
        around: u32,
        span: Span,
    ) -> Result<u32, AllocError>
        ensures number { IfOk result (λ number. number ≡ length self.old.scopes) }
        ensures added { OnOk result (self.new ≡ collected.with_scope kind (Some around) span self.old) }
    {
        let number = self.next_scope()?;
        self.scopes.push(Scope {
            kind,
            parent: Some(around),
            span,
        })?;
        Ok(number)
    }

    /// Adds a declaration of a name in a scope.
    #[tactic(auto, unfolding(crate::specs::Collected::with_item))]
    pub(crate) fn declare(
        &mut self,
        alloc: Global,
        kind: ItemKind,
        name: &[u8],
        span: Span,
        scope: u32,
    ) -> Result<(), AllocError>
        ensures { OnOk result (self.new ≡ collected.with_item kind name.now span scope self.old) }
    {
        let name = List::from_slice(alloc, name)?;
        self.items.push(Item {
            kind,
            name,
            span,
            scope,
        })?;
        Ok(())
    }

    /// Adds a variable.
    pub(crate) fn declare_variable(
        &mut self,
        alloc: Global,
        identifier: &Identifier,
        scope: u32,
    ) -> Result<(), AllocError>
        ensures { OnOk result (self.new ≡ collected.with_item ItemKind.Variable identifier.now.name identifier.now.span scope self.old) }
    {
        self.declare(
            alloc,
            ItemKind::Variable,
            identifier.name.as_slice(),
            identifier.span,
            scope,
        )
    }
}
