// What declarations are, and which of some stand in a scope or a class (ECMA-372, 10.4 and 20).
ghost use Rattle.std.specs.Prelude.{◌≡◌, ℕ, List, [], ◌∷◌, find, nat_le, ◌&&◌, Some, None, codes, slice_get};
ghost use Rattle.std.specs.Option.{option_copied};
ghost use Rattle.std.specs.List.{list_any, filter_map};
ghost use Rattle.cc_names.specs.Lookup as spec;

use crate::declarations::Declarations;
use crate::lookup::{Directive, Found};
use crate::same_scope::is_same_scope;
use crate::scope::{Item, ItemKind};
use cc_base::Name;
use cc_tree::ClassWord;

/// What a declaration is found as, by its number.
fn found_as(kind: &ItemKind, number: u32) -> Found
    ensures { result ≡ spec.found_as kind.now number }
{
    match kind {
        ItemKind::Namespace(_) => Found::Namespace(number),
        ItemKind::Class(_, _, _) => Found::TypeNamed(number),
        ItemKind::Enumeration(_) => Found::TypeNamed(number),
        ItemKind::ClassTemplate(_) => Found::TypeNamed(number),
        ItemKind::TemplateParameter => Found::TypeNamed(number),
        ItemKind::Function(_) => Found::Functions(number),
        ItemKind::FunctionTemplate => Found::Functions(number),
        ItemKind::Enumerator => Found::Item(number),
        ItemKind::Property => Found::Item(number),
        ItemKind::Field => Found::Item(number),
        ItemKind::Parameter => Found::Item(number),
        ItemKind::Variable => Found::Item(number),
    }
}

/// Whether a declaration is a class or an interface.
fn is_class(kind: &ItemKind) -> bool
    ensures { result ≡ spec.is_class kind.now }
{
    matches!(kind, ItemKind::Class(_, _, _))
}

fn is_interface(kind: &ItemKind) -> bool
    ensures { result ≡ spec.is_interface kind.now }
{
    match kind {
        ItemKind::Class(word, _, _) => match word {
            ClassWord::Ref => false,
            ClassWord::Value => false,
            ClassWord::Interface => true,
        },
        _ => false,
    }
}

pub(crate) fn is_function(kind: &ItemKind) -> bool
    ensures { result ≡ spec.is_function kind.now }
{
    matches!(kind, ItemKind::Function(_))
}

/// Whether two declarations are functions with equal parameter types.
pub(crate) fn have_same_types(one: &ItemKind, other: &ItemKind) -> bool
    ensures { result ≡ spec.same_types one.now other.now }
{
    match one {
        ItemKind::Function(types) => match other {
            ItemKind::Function(others) => types.as_slice() == others.as_slice(),
            _ => false,
        },
        _ => false,
    }
}

/// The number of the scope of a class.
fn class_scope(kind: &ItemKind) -> Option<u32>
    ensures { result ≡ spec.class_scope kind.now }
{
    match kind {
        ItemKind::Class(_, scope, _) => Some(*scope),
        _ => None,
    }
}

impl Declarations {
    /// What the declaration of a number is found as.
    pub(crate) fn found(&self, number: Option<u32>) -> Option<Found>
        ensures { result ≡ spec.found_number self.now.items number }
    {
        match number {
            None => None,
            Some(number) => match self.item(number) {
                None => None,
                Some(item) => Some(found_as(&item.kind, number)),
            },
        }
    }

    /// Whether a declaration stands in a scope.
    pub(crate) fn stands_in(&self, scope: u32, number: u32) -> bool
        ensures { result ≡ spec.stands_in self.now.scopes self.now.items scope number }
    {
        match self.item(number) {
            None => false,
            Some(item) => is_same_scope(self.scopes.as_slice(), item.scope, scope),
        }
    }

    /// Whether a declaration ends before a place.
    fn is_before(&self, at: u32, number: u32) -> bool
        ensures { result ≡ spec.is_before self.now.scopes self.now.items at number }
    {
        match self.item(number) {
            None => false,
            Some(item) => item.span.past <= at,
        }
    }

    /// The first of some declarations that stands in a scope.
    pub(crate) fn first_in(&self, numbers: &[u32], scope: u32) -> Option<u32>
        ensures { result ≡ find (spec.stands_in self.now.scopes self.now.items scope) numbers.now }
    {
        for number in numbers {
            if self.stands_in(scope, *number) {
                return Some(*number);
            }
        }
        None
    }

    /// The first of some declarations that stands in a local scope before a place.
    pub(crate) fn first_before(&self, numbers: &[u32], scope: u32, at: u32) -> Option<u32>
        ensures { result ≡ find (λ number. spec.stands_in self.now.scopes self.now.items scope number && spec.is_before self.now.scopes self.now.items at number) numbers.now }
    {
        for number in numbers {
            if self.stands_in(scope, *number) && self.is_before(at, *number) {
                return Some(*number);
            }
        }
        None
    }

    /// Whether a declaration stands in the namespace of a directive before a place.
    fn is_directed(&self, at: u32, number: u32) -> bool
        ensures { result ≡ list_any (λ directive. nat_le directive.past at && spec.stands_in self.now.scopes self.now.items directive.scope number) self.now.directives }
    {
        for directive in self.directives.as_slice() {
            if directive.past <= at && self.stands_in(directive.scope, number) {
                return true;
            }
        }
        false
    }

    /// The first of some declarations that stands in the namespace of a directive before a place.
    pub(crate) fn first_directed(&self, numbers: &[u32], at: u32) -> Option<u32>
        ensures { result ≡ spec.by_directives self.now.scopes self.now.items numbers.now self.now.directives at }
    {
        for number in numbers {
            if self.is_directed(at, *number) {
                return Some(*number);
            }
        }
        None
    }

    /// The class of a name.
    pub(crate) fn class_named(&self, name: &[u8]) -> Option<u32>
        ensures { result ≡ spec.class_named self.now.scopes self.now.items name.now }
    {
        for number in self.named(name) {
            if self.is_class_number(*number) {
                return Some(*number);
            }
        }
        None
    }

    fn is_class_number(&self, number: u32) -> bool
        ensures { result ≡ spec.is_item (λ item. spec.is_class item.kind) (slice_get self.now.items number) }
    {
        match self.item(number) {
            None => false,
            Some(item) => is_class(&item.kind),
        }
    }

    fn is_interface_number(&self, number: u32) -> bool
        ensures { result ≡ spec.is_item (λ item. spec.is_interface item.kind) (slice_get self.now.items number) }
    {
        match self.item(number) {
            None => false,
            Some(item) => is_interface(&item.kind),
        }
    }

    pub(crate) fn is_function_number(&self, number: u32) -> bool
        ensures { result ≡ spec.is_function_number self.now.scopes self.now.items number }
    {
        match self.item(number) {
            None => false,
            Some(item) => is_function(&item.kind),
        }
    }

    /// Whether a declaration is a member of a class.
    pub(crate) fn is_member(&self, class: u32, number: u32) -> bool
        ensures { result ≡ spec.is_member self.now.scopes self.now.items class number }
    {
        match self.item(class) {
            None => false,
            Some(item) => match class_scope(&item.kind) {
                None => false,
                Some(scope) => self.stands_in(scope, number),
            },
        }
    }

    /// The first of some declarations that is a member of a class.
    pub(crate) fn first_member(&self, numbers: &[u32], class: u32) -> Option<u32>
        ensures { result ≡ find (spec.is_member self.now.scopes self.now.items class) numbers.now }
    {
        for number in numbers {
            if self.is_member(class, *number) {
                return Some(*number);
            }
        }
        None
    }

    /// Whether two declarations are functions with equal parameter types.
    fn are_equal(&self, one: u32, other: u32) -> bool
        ensures { result ≡ spec.equal_items self.now.scopes self.now.items (slice_get self.now.items one) (slice_get self.now.items other) }
    {
        match self.item(one) {
            None => false,
            Some(first) => match self.item(other) {
                None => false,
                Some(second) => have_same_types(&first.kind, &second.kind),
            },
        }
    }

    /// Whether a member of a class hides a function from its base classes.
    pub(crate) fn hides(&self, numbers: &[u32], class: u32, number: u32) -> bool
        ensures { result ≡ spec.hides self.now.scopes self.now.items numbers.now class number }
    {
        for member in numbers {
            if self.is_member(class, *member) && self.are_equal(*member, number) {
                return true;
            }
        }
        false
    }

    /// The first of some bases that is no interface, or else a class of the library.
    pub(crate) fn class_base(&self, bases: &[Name], otherwise: &[u8]) -> Option<u32>
        ensures { spec.or_none result ≡ spec.class_base self.now.scopes self.now.items otherwise.now (filter_map (spec.class_named self.now.scopes self.now.items) bases.now) }
    {
        for base in bases {
            if let Some(number) = self.class_named(base.as_slice()) {
                if !self.is_interface_number(number) {
                    return Some(number);
                }
            }
        }
        self.class_named(otherwise)
    }
}
