// A whole source, its namespaces, functions and templates (ECMA-372, 10, 25 and 30).
ghost use Rattle.std.specs.Prelude.{◌≡◌, IfOk};

use crate::copied::{Copied, copied_items, copied_option};
use cc_tree::{Function, Outer, Template, TemplateParameter, Unit};
use sqlite_items::Items;
use std::alloc::{AllocError, Global};

impl Copied for Function {
    fn copied(&self, alloc: Global) -> Result<Function, AllocError>
        ensures { IfOk result (λ copy. copy ≡ self.now) }
    {
        let of = self.result.copied(alloc)?;
        let name = self.name.copied(alloc)?;
        let parameters = self.parameters.copied(alloc)?;
        let body = copied_option(alloc, &self.body)?;
        Ok(Function {
            result: of,
            name,
            parameters,
            body,
            span: self.span,
        })
    }
}

impl Copied for TemplateParameter {
    fn copied(&self, alloc: Global) -> Result<TemplateParameter, AllocError>
        ensures { IfOk result (λ copy. copy ≡ self.now) }
    {
        let name = self.name.copied(alloc)?;
        Ok(TemplateParameter {
            word: self.word,
            name,
            span: self.span,
        })
    }
}

impl Copied for Template {
    fn copied(&self, alloc: Global) -> Result<Template, AllocError>
        ensures { IfOk result (λ copy. copy ≡ self.now) }
    {
        match self {
            Template::Class(parameters, class, span) => {
                let parameters = copied_items(alloc, parameters.as_slice())?;
                let class = class.copied(alloc)?;
                Ok(Template::Class(parameters, class, *span))
            }
            Template::Function(parameters, function, span) => {
                let parameters = copied_items(alloc, parameters.as_slice())?;
                let function = function.copied(alloc)?;
                Ok(Template::Function(parameters, function, *span))
            }
        }
    }
}

#[cycle(outers)]
fn copied_outer(alloc: Global, outer: &Outer) -> Result<Outer, AllocError>
    ensures { IfOk result (λ copy. copy ≡ outer.now) }
{
    match outer {
        Outer::Using(path, span) => {
            let path = copied_items(alloc, path.as_slice())?;
            Ok(Outer::Using(path, *span))
        }
        Outer::Namespace(name, outers, span) => {
            let name = name.copied(alloc)?;
            let outers = copied_outers(alloc, outers.as_slice())?;
            Ok(Outer::Namespace(name, outers, *span))
        }
        Outer::Class(class) => {
            let class = class.copied(alloc)?;
            Ok(Outer::Class(class))
        }
        Outer::Enumeration(enumeration) => {
            let enumeration = enumeration.copied(alloc)?;
            Ok(Outer::Enumeration(enumeration))
        }
        Outer::VisibleClass(visibility, class, span) => {
            let class = class.copied(alloc)?;
            Ok(Outer::VisibleClass(*visibility, class, *span))
        }
        Outer::VisibleEnumeration(visibility, enumeration, span) => {
            let enumeration = enumeration.copied(alloc)?;
            Ok(Outer::VisibleEnumeration(*visibility, enumeration, *span))
        }
        Outer::Forward(key, name, span) => {
            let key = key.copied(alloc)?;
            let name = name.copied(alloc)?;
            Ok(Outer::Forward(key, name, *span))
        }
        Outer::Template(template) => {
            let template = template.copied(alloc)?;
            Ok(Outer::Template(template))
        }
        Outer::Function(function) => {
            let function = function.copied(alloc)?;
            Ok(Outer::Function(function))
        }
    }
}

#[cycle(outers)]
fn copied_outers(alloc: Global, outers: &[Outer]) -> Result<Items<Outer>, AllocError>
    ensures { IfOk result (λ copy. copy ≡ outers.now) }
{
    let mut copies = Items::new(alloc);
    for outer in outers {
        copies.push(copied_outer(alloc, outer)?)?;
    }
    Ok(copies)
}

/// A unit that is equal to another. Its only error is want of memory. It goes as deep into the native stack as the tree is deep.
pub fn copy_unit(alloc: Global, unit: &Unit) -> Result<Unit, AllocError>
    ensures { IfOk result (λ copy. copy ≡ unit.now) }
{
    let outers = copied_outers(alloc, unit.outers.as_slice())?;
    Ok(Unit {
        outers,
        span: unit.span,
    })
}
