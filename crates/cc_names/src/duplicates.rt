// Second declarations (ECMA-372, 10.3).
ghost use Rattle.std.specs.Prelude.{◌≡◌, ◌||◌, ◌<◌, ◌^◌, map, slice_get, length};
ghost use Rattle.std.specs.List.{list_any, enumerate_from};
ghost use Rattle.cc_names.specs.Checks.{run, joined};
ghost use Rattle.cc_names.specs.Duplicates as spec;
ghost use Rattle.cc_names.specs.Lookup as lookup;

use crate::declarations::Declarations;
use crate::directives::is_part;
use crate::refusal::{NameKind, Refusal, refused_if};
use crate::same_scope::is_same_scope;
use crate::scope::{Item, ItemKind};
use crate::search::{have_same_types, is_function};

/// Whether a declaration is of a class, an enum or a template, whose name is declared once in the source.
fn is_unique_name(kind: &ItemKind) -> bool
    ensures { result ≡ spec.is_unique_name kind.now }
{
    match kind {
        ItemKind::Namespace(_) => false,
        ItemKind::Class(_, _, _) => true,
        ItemKind::Enumeration(_) => true,
        ItemKind::Enumerator => false,
        ItemKind::ClassTemplate(_) => true,
        ItemKind::FunctionTemplate => true,
        ItemKind::TemplateParameter => false,
        ItemKind::Function(_) => false,
        ItemKind::Property => false,
        ItemKind::Field => false,
        ItemKind::Parameter => false,
        ItemKind::Variable => false,
    }
}

fn is_template_parameter(kind: &ItemKind) -> bool
    ensures { result ≡ spec.is_template_parameter kind.now }
{
    matches!(kind, ItemKind::TemplateParameter)
}

/// Whether two declarations are parts of a namespace, or functions with different parameter types.
fn go_together(one: &ItemKind, other: &ItemKind) -> bool
    ensures { result ≡ spec.go_together one.now other.now }
{
    (is_part(one) && is_part(other))
        || (is_function(one) && is_function(other) && !have_same_types(one, other))
}

/// Whether a declaration bears the name `array`, which names a type that nothing declares.
fn is_array_name(one: &Item) -> bool
    ensures { result ≡ spec.is_array_name one.now }
{
    (is_unique_name(&one.kind) || is_template_parameter(&one.kind))
        && one.name.as_slice() == b"array".as_slice()
}

impl Declarations {
    /// Whether two declarations of a name are one too many.
    fn clash(&self, earlier: &Item, one: &Item) -> bool
        ensures { result ≡ spec.clash self.now.scopes earlier.now one.now }
    {
        (is_same_scope(self.scopes.as_slice(), earlier.scope, one.scope)
            && !go_together(&earlier.kind, &one.kind))
            || (is_unique_name(&earlier.kind) && is_unique_name(&one.kind))
    }

    /// Whether a declaration repeats the earlier one of a number.
    fn repeats(&self, number: usize, one: &Item, other: u32) -> bool
        ensures { result ≡ spec.repeats self.now.scopes self.now.items number one.now other }
    {
        if other as usize >= number {
            return false;
        }
        match self.item(other) {
            None => false,
            Some(earlier) => self.clash(earlier, one),
        }
    }

    /// Whether a parameter of a template bears the name of the class, enum or template of a number.
    fn takes_name(&self, one: &Item, other: u32) -> bool
        ensures { result ≡ spec.takes_name self.now.scopes self.now.items one.now other }
    {
        if !is_template_parameter(&one.kind) {
            return false;
        }
        match self.item(other) {
            None => false,
            Some(item) => is_unique_name(&item.kind),
        }
    }

    /// Whether a declaration of a number is one too many.
    fn is_duplicate(&self, number: usize, one: &Item) -> bool
        ensures { result ≡ spec.is_duplicate self.now.scopes self.now.items number one.now }
    {
        if is_array_name(one) {
            return true;
        }
        for other in self.named(one.name.as_slice()) {
            if self.repeats(number, one, *other) || self.takes_name(one, *other) {
                return true;
            }
        }
        false
    }

    /// What second declarations are refused for.
    pub(crate) fn duplicates(&self, so_far: Option<Refusal>) -> Option<Refusal>
        ensures { result ≡ run (spec.duplicate_checks self.now.scopes self.now.items) so_far }
    {
        let mut first = so_far;
        for (number, one) in self.items.as_slice().iter().enumerate() {
            first = refused_if(
                first,
                self.is_duplicate(number, one),
                NameKind::Duplicate,
                one.span,
            );
        }
        first
    }
}
