// Whether a unit declares a template.
ghost use Rattle.std.specs.Prelude.{◌≡◌, map};
ghost use Rattle.std.specs.List.{list_any};
ghost use Rattle.cc_template.specs.Expansion as spec;

use cc_tree::{Outer, Unit};

// A template is declared, or stands in a namespace.
#[cycle(templates)]
fn has_template(outer: &Outer) -> bool
    ensures { result ≡ spec.has_template outer.now }
{
    match outer {
        Outer::Template(_) => true,
        Outer::Namespace(_, outers, _) => have_template(outers.as_slice()),
        _ => false,
    }
}

// A template is declared in a row, or stands in a namespace there.
#[cycle(templates)]
fn have_template(outers: &[Outer]) -> bool
    ensures { result ≡ list_any (λ has. has) (map spec.has_template outers.now) }
{
    for outer in outers {
        if has_template(outer) {
            return true;
        }
    }
    false
}

/// Whether a unit declares a template, also in its namespaces (ECMA-372, 30).
pub fn has_templates(unit: &Unit) -> bool
    ensures { result ≡ list_any spec.has_template unit.now.outers }
{
    have_template(unit.outers.as_slice())
}
