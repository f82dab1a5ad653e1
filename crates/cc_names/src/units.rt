// The scopes and the declarations of a whole source (ECMA-372, 10 and 25).
ghost use Rattle.std.specs.Prelude.{◌≡◌, ℕ, map, OnOk, IfOk};
ghost use Rattle.cc_names.specs.Parts.{added, in_order};
ghost use Rattle.cc_names.specs.Units as spec;

use crate::members::{collect_class, collect_enumeration, collect_free_function};
use crate::scope::{Declared, ItemKind, Scope, ScopeKind};
use cc_base::List;
use cc_tree::{Identifier, Outer, Template, TemplateParameter, Unit};
use std::alloc::{AllocError, Global};

/// Adds the parameters of a template.
#[tactic(auto, using(crate::proofs::Adding::adding))]
fn collect_template_parameters(
    declared: &mut Declared,
    alloc: Global,
    parameters: &[TemplateParameter],
    around: u32,
) -> Result<(), AllocError>
    ensures { OnOk result (declared.new ≡ added (in_order (map spec.template_parameter_declares parameters.now)) around declared.old) }
{
    for one in parameters {
        let name = &one.name;
        declared.declare(
            alloc,
            ItemKind::TemplateParameter,
            name.name.as_slice(),
            name.span,
            around,
        )?;
    }
    Ok(())
}

/// Adds a template, whose body declares nothing.
#[tactic(auto, using(crate::proofs::Adding::adding))]
fn collect_template(
    declared: &mut Declared,
    alloc: Global,
    template: &Template,
    around: u32,
) -> Result<(), AllocError>
    ensures { OnOk result (declared.new ≡ added (spec.template_declares template.now) around declared.old) }
{
    match template {
        Template::Class(parameters, class, span) => {
            let scope = declared.open(ScopeKind::Template, around, *span)?;
            collect_template_parameters(declared, alloc, parameters.as_slice(), scope)?;
            let name = &class.name;
            let kind = ItemKind::ClassTemplate(class.key.word);
            declared.declare(alloc, kind, name.name.as_slice(), name.span, around)
        }
        Template::Function(parameters, function, span) => {
            let scope = declared.open(ScopeKind::Template, around, *span)?;
            collect_template_parameters(declared, alloc, parameters.as_slice(), scope)?;
            let name = &function.name;
            declared.declare(
                alloc,
                ItemKind::FunctionTemplate,
                name.name.as_slice(),
                name.span,
                around,
            )
        }
    }
}

/// Adds what stands outside classes.
#[cycle(outers)]
#[tactic(auto, using(crate::proofs::Adding::adding, crate::proofs::Outers::outers))]
fn collect_outer(
    declared: &mut Declared,
    alloc: Global,
    outer: &Outer,
    around: u32,
) -> Result<(), AllocError>
    ensures { OnOk result (declared.new ≡ added (spec.outer_declares outer.now) around declared.old) }
{
    match outer {
        Outer::Using(_, _) => Ok(()),
        Outer::Namespace(name, outers, span) => {
            let kind = ItemKind::Namespace(declared.next_scope()?);
            declared.declare(alloc, kind, name.name.as_slice(), name.span, around)?;
            let kind = ScopeKind::Namespace(List::from_slice(alloc, name.name.as_slice())?);
            let scope = declared.open(kind, around, *span)?;
            collect_outers(declared, alloc, outers.as_slice(), scope)
        }
        Outer::Class(class) => collect_class(declared, alloc, class, around),
        Outer::Enumeration(enumeration) => collect_enumeration(
            declared,
            alloc,
            enumeration,
            around,
        ),
        Outer::VisibleClass(_, class, _) => collect_class(declared, alloc, class, around),
        Outer::VisibleEnumeration(_, enumeration, _) => {
            collect_enumeration(declared, alloc, enumeration, around)
        }
        Outer::Forward(_, _, _) => Ok(()),
        Outer::Template(template) => collect_template(declared, alloc, template, around),
        Outer::Function(function) => collect_free_function(declared, alloc, function, around),
    }
}

/// Adds what stands outside classes, in a row.
#[cycle(outers)]
#[tactic(auto, using(crate::proofs::Adding::adding, crate::proofs::Outers::outers))]
fn collect_outers(
    declared: &mut Declared,
    alloc: Global,
    outers: &[Outer],
    around: u32,
) -> Result<(), AllocError>
    ensures { OnOk result (declared.new ≡ added (in_order (map spec.outer_declares outers.now)) around declared.old) }
{
    for outer in outers {
        collect_outer(declared, alloc, outer, around)?;
    }
    Ok(())
}

/// The scopes and the declarations of a unit, without the library's.
pub(crate) fn collect(alloc: Global, unit: &Unit) -> Result<Declared, AllocError>
    ensures { IfOk result (λ declared. declared ≡ spec.collected unit.now) }
{
    let mut scopes = List::new(alloc);
    scopes.push(Scope {
        kind: ScopeKind::Unit,
        parent: None,
        span: unit.span,
    })?;
    let mut declared = Declared {
        scopes,
        items: List::new(alloc),
    };
    collect_outers(&mut declared, alloc, unit.outers.as_slice(), 0)?;
    Ok(declared)
}
