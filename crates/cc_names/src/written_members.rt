// What the types and namespaces in functions and classes are refused for (ECMA-372, 18 to 25).
ghost use Rattle.std.specs.Prelude.{◌≡◌, map};
ghost use Rattle.cc_names.specs.Checks.{run, joined};
ghost use Rattle.cc_names.specs.Mentions as spec;
ghost use Rattle.cc_names.specs.Spaces.{space};

use crate::find_type::Here;
use crate::forming::Purpose;
use crate::refusal::Refusal;
use cc_tree::{
    Accessor, Base, Block, Class, Function, Member, MemberInitializer, NamedFunction, Overridden,
    Parameters, PropertyName,
};

impl Here<'_> {
    fn parameters(&self, so_far: Option<Refusal>, parameters: &Parameters) -> Option<Refusal>
        ensures { result ≡ run (spec.parameters_checks (space self.now.space.now) self.now.path.now parameters.now) so_far }
    {
        let mut first = so_far;
        for parameter in parameters.items.as_slice() {
            first = self.written(first, Purpose::Parameter, &parameter.of);
        }
        first
    }

    fn named_functions(
        &self,
        so_far: Option<Refusal>,
        functions: &[NamedFunction],
    ) -> Option<Refusal>
        ensures { result ≡ run (joined (map (spec.named_function_checks (space self.now.space.now) self.now.path.now) functions.now)) so_far }
    {
        let mut first = so_far;
        for function in functions {
            first = self.written(first, Purpose::NamedOnly, &function.class);
        }
        first
    }

    /// What is written after a function's `=`.
    fn overridden(
        &self,
        so_far: Option<Refusal>,
        overridden: &Option<Overridden>,
    ) -> Option<Refusal>
        ensures { result ≡ run (spec.optional_of (spec.overridden_checks (space self.now.space.now) self.now.path.now) overridden.now) so_far }
    {
        match overridden {
            None => so_far,
            Some(Overridden::Pure(_)) => so_far,
            Some(Overridden::Functions(functions, _)) => {
                self.named_functions(so_far, functions.as_slice())
            }
        }
    }

    /// A function's parameters and what follows them.
    fn rest(
        &self,
        so_far: Option<Refusal>,
        parameters: &Parameters,
        overridden: &Option<Overridden>,
        body: &Option<Block>,
    ) -> Option<Refusal>
        ensures { result ≡ run (spec.rest_checks (space self.now.space.now) self.now.path.now parameters.now overridden.now body.now) so_far }
    {
        let first = self.parameters(so_far, parameters);
        let first = self.overridden(first, overridden);
        self.optional_block(first, body)
    }

    fn member_initializer(
        &self,
        so_far: Option<Refusal>,
        initializer: &MemberInitializer,
    ) -> Option<Refusal>
        ensures { result ≡ run (spec.member_initializer_checks (space self.now.space.now) self.now.path.now initializer.now) so_far }
    {
        match initializer {
            MemberInitializer::Member(_, arguments, _) => self.call_arguments(so_far, arguments),
            MemberInitializer::Base(of, arguments, _) => {
                let first = self.written(so_far, Purpose::NamedOnly, of);
                self.call_arguments(first, arguments)
            }
        }
    }

    fn member_initializers(
        &self,
        so_far: Option<Refusal>,
        initializers: &[MemberInitializer],
    ) -> Option<Refusal>
        ensures { result ≡ run (joined (map (spec.member_initializer_checks (space self.now.space.now) self.now.path.now) initializers.now)) so_far }
    {
        let mut first = so_far;
        for initializer in initializers {
            first = self.member_initializer(first, initializer);
        }
        first
    }

    fn accessor(&self, so_far: Option<Refusal>, accessor: &Accessor) -> Option<Refusal>
        ensures { result ≡ run (spec.accessor_checks (space self.now.space.now) self.now.path.now accessor.now) so_far }
    {
        let first = self.written(so_far, Purpose::Result, &accessor.of);
        self.rest(
            first,
            &accessor.parameters,
            &accessor.overridden,
            &accessor.body,
        )
    }

    fn accessors(&self, so_far: Option<Refusal>, accessors: &[Accessor]) -> Option<Refusal>
        ensures { result ≡ run (joined (map (spec.accessor_checks (space self.now.space.now) self.now.path.now) accessors.now)) so_far }
    {
        let mut first = so_far;
        for accessor in accessors {
            first = self.accessor(first, accessor);
        }
        first
    }

    /// The type of a property's index, where it has one.
    fn index_type(&self, so_far: Option<Refusal>, name: &PropertyName) -> Option<Refusal>
        ensures { result ≡ run (spec.index_checks (space self.now.space.now) self.now.path.now name.now) so_far }
    {
        match name {
            PropertyName::Named(_) => so_far,
            PropertyName::Indexed(_, of) => self.written(so_far, Purpose::Value, of),
        }
    }

    fn member(&self, so_far: Option<Refusal>, member: &Member) -> Option<Refusal>
        ensures { result ≡ run (spec.member_checks (space self.now.space.now) self.now.path.now member.now) so_far }
    {
        match member {
            Member::Access(_, _) => so_far,
            Member::Fields(is_static, of, _, _) => {
                self.written(so_far, Purpose::Field(*is_static), of)
            }
            Member::Function(_, of, _, parameters, _, overridden, body, _) => {
                let first = self.written(so_far, Purpose::Result, of);
                self.rest(first, parameters, overridden, body)
            }
            Member::Constructor(_, parameters, initializers, body, _) => {
                let first = self.parameters(so_far, parameters);
                let first = self.member_initializers(first, initializers.as_slice());
                self.block(first, body)
            }
            Member::Destructor(_, _, body, _) => self.block(so_far, body),
            Member::Finaliser(_, body, _) => self.block(so_far, body),
            Member::Property(_, of, name, accessors, _) => {
                let first = self.written(so_far, Purpose::Value, of);
                let first = self.index_type(first, name);
                self.accessors(first, accessors.as_slice())
            }
        }
    }

    fn members(&self, so_far: Option<Refusal>, members: &[Member]) -> Option<Refusal>
        ensures { result ≡ run (joined (map (spec.member_checks (space self.now.space.now) self.now.path.now) members.now)) so_far }
    {
        let mut first = so_far;
        for member in members {
            first = self.member(first, member);
        }
        first
    }

    fn bases(&self, so_far: Option<Refusal>, bases: &[Base]) -> Option<Refusal>
        ensures { result ≡ run (joined (map (spec.base_checks (space self.now.space.now) self.now.path.now) bases.now)) so_far }
    {
        let mut first = so_far;
        for base in bases {
            first = self.written(first, Purpose::NamedOnly, &base.of);
        }
        first
    }

    /// What the types and namespaces in a class are refused for.
    pub(crate) fn class(&self, so_far: Option<Refusal>, class: &Class) -> Option<Refusal>
        ensures { result ≡ run (spec.class_checks (space self.now.space.now) self.now.path.now «class».now) so_far }
    {
        let first = self.bases(so_far, class.bases.as_slice());
        self.members(first, class.members.as_slice())
    }

    /// What the types and namespaces in a function outside classes are refused for, also in a prototype.
    pub(crate) fn function(&self, so_far: Option<Refusal>, function: &Function) -> Option<Refusal>
        ensures { result ≡ run (spec.function_checks (space self.now.space.now) self.now.path.now function.now) so_far }
    {
        let first = self.written(so_far, Purpose::Result, &function.result);
        let first = self.parameters(first, &function.parameters);
        self.optional_block(first, &function.body)
    }
}
