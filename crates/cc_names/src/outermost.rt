// What is refused of what stands outside classes (ECMA-372, 10.4, 10.9.1 and 25).
ghost use Rattle.std.specs.Prelude.{◌≡◌, List, [], ◌∷◌, map, cond, IfOk};
ghost use Rattle.std.specs.List.{flat_map};
ghost use Rattle.cc_names.specs.Checks.{run, joined};
ghost use Rattle.cc_names.specs.Refusals as spec;
ghost use Rattle.cc_names.specs.Spaces as spaces;
ghost use Rattle.cc_names.specs.Spaces.{space};
ghost use Rattle.cc_names.specs.Told.{told, told_one, told_all};

use crate::find_type::Here;
use crate::known::Space;
use crate::refusal::{NameKind, Refusal, refused_if};
use crate::space::function_key;
use crate::spelling::{signature, spelling};
use crate::standing::{Outermost, Standing, within};
use cc_base::Span;
use cc_tree::{Block, Class, Function, Identifier};
use std::alloc::{AllocError, Global};

fn has_body(body: &Option<Block>) -> bool
    ensures { result ≡ spec.has_body body.now }
{
    match body {
        None => false,
        Some(_) => true,
    }
}

impl Here<'_> {
    /// Whether a function is a prototype of one that the source does not define.
    fn is_unknown_prototype(&self, alloc: Global, function: &Function) -> Result<bool, AllocError>
        ensures { IfOk result (λ holds. holds ≡ spec.is_unknown_prototype (space self.now.space.now) self.now.path.now function.now) }
    {
        if has_body(&function.body) {
            return Ok(false);
        }
        let key = function_key(alloc, self.path, function)?;
        Ok(!self.space.functions.has(key.as_slice()))
    }

    fn outer_function(
        &self,
        so_far: Option<Refusal>,
        alloc: Global,
        function: &Function,
    ) -> Result<Option<Refusal>, AllocError>
        ensures { IfOk result (λ first. first ≡ run (spec.function_checks (space self.now.space.now) self.now.path.now function.now) so_far) }
    {
        let is_unknown = self.is_unknown_prototype(alloc, function)?;
        let first = refused_if(
            so_far,
            is_unknown,
            NameKind::UnknownName,
            function.name.span,
        );
        Ok(self.function(first, function))
    }

    fn outer_class(
        &self,
        so_far: Option<Refusal>,
        alloc: Global,
        class: &Class,
    ) -> Result<Option<Refusal>, AllocError>
        ensures { IfOk result (λ first. first ≡ run (spec.class_checks (space self.now.space.now) self.now.path.now «class».now) so_far) }
    {
        let first = self.class(so_far, class);
        let first = self.base_classes(first, alloc, class)?;
        self.class_members(first, alloc, class)
    }

    fn forward(
        &self,
        so_far: Option<Refusal>,
        alloc: Global,
        name: &Identifier,
    ) -> Result<Option<Refusal>, AllocError>
        ensures { IfOk result (λ first. first ≡ run (spec.forward_checks (space self.now.space.now) self.now.path.now name.now) so_far) }
    {
        let key = within(alloc, self.path, name.name.as_slice())?;
        Ok(refused_if(
            so_far,
            !self.space.classes.has(key.as_slice()),
            NameKind::UnknownName,
            name.span,
        ))
    }

    /// What something outside classes is refused for.
    fn outermost(
        &self,
        so_far: Option<Refusal>,
        alloc: Global,
        what: &Outermost<'_>,
    ) -> Result<Option<Refusal>, AllocError>
        ensures { IfOk result (λ first. first ≡ run (spec.outermost_checks (space self.now.space.now) self.now.path.now (told what.now)) so_far) }
    {
        match what {
            Outermost::Directive(names, _) => Ok(self.path(so_far, names)),
            Outermost::Part => Ok(so_far),
            Outermost::Class(class) => self.outer_class(so_far, alloc, class),
            Outermost::Enumeration(_) => Ok(so_far),
            Outermost::Forward(name) => self.forward(so_far, alloc, name),
            Outermost::Template(_) => Ok(so_far),
            Outermost::Function(function) => self.outer_function(so_far, alloc, function),
        }
    }
}

/// What all that stands outside classes is refused for.
pub(crate) fn all_outermost(
    so_far: Option<Refusal>,
    alloc: Global,
    space: &Space,
    all: &[Standing<'_>],
) -> Result<Option<Refusal>, AllocError>
    ensures { IfOk result (λ first. first ≡ run (joined (map (spec.standing_checks (spaces.space space.now)) (told_all all.now))) so_far) }
{
    let mut first = so_far;
    for one in all {
        let here = Here {
            space,
            path: one.path.as_slice(),
        };
        first = here.outermost(first, alloc, &one.what)?;
    }
    Ok(first)
}
