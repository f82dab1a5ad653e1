// Parts of members and their nodes (ECMA-372, 18 and 19).
ghost use Rattle.std.specs.Prelude.{ℕ, ◌≡◌, ◌+◌, ◌-◌, ◌^◌, min, map, length};
ghost use Rattle.cc_template.specs.Counting.{counting, run};
ghost use Rattle.cc_template.specs.Nodes as nodes;
ghost use Rattle.cc_template.specs.Nodes.{joined, optional_of};

use crate::room::Room;
use cc_base::Span;
use cc_tree::{
    Accessor, Base, Block, Enumerator, Identifier, Member, MemberInitializer, Modifier,
    NamedFunction, Overridden, Parameter, Parameters, PropertyName,
};
use sqlite_items::Items;

/// How many data members a member declares.
fn data_members_of(member: &Member) -> usize
    ensures { result ≡ nodes.data_members_of member.now }
{
    match member {
        Member::Fields(_, _, names, _) => names.len(),
        _ => 0,
    }
}

/// How many data members some members declare, or the greatest number of its type where they declare more.
pub(crate) fn data_members(members: &[Member]) -> usize
    ensures { result ≡ min (nodes.data_members members.now) (2 ^ 64 - 1) }
{
    let mut sum = 0usize;
    'members: for member in members {
        sum = sum.saturating_add(data_members_of(member));
    }
    sum
}

impl Room {
    pub(crate) fn optional_block(self, block: &Option<Block>) -> Result<Room, Span>
        ensures { result ≡ run (optional_of nodes.block_nodes block.now) self }
    {
        match block {
            None => Ok(self),
            Some(block) => self.block(block),
        }
    }

    fn parameter_names(self, span: Span, parameters: &[Parameter]) -> Result<Room, Span>
        ensures { result ≡ counting span (nodes.parameters_count parameters.now) self }
    {
        let mut room = self;
        'parameters: for parameter in parameters {
            room = room.optional_name(span, &parameter.name)?;
        }
        Ok(room)
    }

    fn parameter_types(self, parameters: &[Parameter]) -> Result<Room, Span>
        ensures { result ≡ run (joined (map nodes.parameter_nodes parameters.now)) self }
    {
        let mut room = self;
        'parameters: for parameter in parameters {
            room = room.type_name(&parameter.of)?;
        }
        Ok(room)
    }

    pub(crate) fn parameters(self, parameters: &Parameters) -> Result<Room, Span>
        ensures { result ≡ run (nodes.parameters_nodes parameters.now) self }
    {
        self.node(parameters.span)?
            .parameter_names(parameters.span, parameters.items.as_slice())?
            .parameter_types(parameters.items.as_slice())
    }

    fn modifier(self, modifier: &Modifier) -> Result<Room, Span>
        ensures { result ≡ run (nodes.modifier_nodes modifier.now) self }
    {
        match modifier {
            Modifier::Abstract(span)
            | Modifier::Override(span)
            | Modifier::Sealed(span)
            | Modifier::New(span) => self.node(*span),
        }
    }

    fn modifiers(self, modifiers: &[Modifier]) -> Result<Room, Span>
        ensures { result ≡ run (joined (map nodes.modifier_nodes modifiers.now)) self }
    {
        let mut room = self;
        'modifiers: for modifier in modifiers {
            room = room.modifier(modifier)?;
        }
        Ok(room)
    }

    fn named_function(self, named: &NamedFunction) -> Result<Room, Span>
        ensures { result ≡ run (nodes.named_function_nodes named.now) self }
    {
        self.named_node(named.span, &named.name)?
            .type_name(&named.class)
    }

    fn named_functions(self, functions: &[NamedFunction]) -> Result<Room, Span>
        ensures { result ≡ run (joined (map nodes.named_function_nodes functions.now)) self }
    {
        let mut room = self;
        'functions: for named in functions {
            room = room.named_function(named)?;
        }
        Ok(room)
    }

    fn overridden(self, overridden: &Option<Overridden>) -> Result<Room, Span>
        ensures { result ≡ run (optional_of nodes.overridden_nodes overridden.now) self }
    {
        match overridden {
            None => Ok(self),
            Some(Overridden::Pure(span)) => self.node(*span),
            Some(Overridden::Functions(functions, span)) => {
                self.node(*span)?.named_functions(functions.as_slice())
            }
        }
    }

    /// Counts the parameters of a function, what follows them, and its body.
    fn rest(
        self,
        parameters: &Parameters,
        modifiers: &Items<Modifier>,
        overridden: &Option<Overridden>,
        body: &Option<Block>,
    ) -> Result<Room, Span>
        ensures { result ≡ run (nodes.rest_nodes parameters.now modifiers.now overridden.now body.now) self }
    {
        self.parameters(parameters)?
            .modifiers(modifiers.as_slice())?
            .overridden(overridden)?
            .optional_block(body)
    }

    fn accessor(self, accessor: &Accessor) -> Result<Room, Span>
        ensures { result ≡ run (nodes.accessor_nodes accessor.now) self }
    {
        let room = self
            .entered()
            .node(accessor.span)?
            .type_name(&accessor.of)?
            .rest(
                &accessor.parameters,
                &accessor.modifiers,
                &accessor.overridden,
                &accessor.body,
            )?;
        Ok(room.ended(self))
    }

    fn accessors(self, accessors: &[Accessor]) -> Result<Room, Span>
        ensures { result ≡ run (joined (map nodes.accessor_nodes accessors.now)) self }
    {
        let mut room = self;
        'accessors: for accessor in accessors {
            room = room.accessor(accessor)?;
        }
        Ok(room)
    }

    fn member_initializer(self, initializer: &MemberInitializer) -> Result<Room, Span>
        ensures { result ≡ run (nodes.member_initializer_nodes initializer.now) self }
    {
        match initializer {
            MemberInitializer::Member(name, arguments, span) => {
                self.named_node(*span, name)?.arguments(arguments)
            }
            MemberInitializer::Base(of, arguments, span) => {
                self.node(*span)?.type_name(of)?.arguments(arguments)
            }
        }
    }

    fn member_initializers(self, initializers: &[MemberInitializer]) -> Result<Room, Span>
        ensures { result ≡ run (joined (map nodes.member_initializer_nodes initializers.now)) self }
    {
        let mut room = self;
        'initializers: for initializer in initializers {
            room = room.member_initializer(initializer)?;
        }
        Ok(room)
    }

    fn property_name(self, name: &PropertyName) -> Result<Room, Span>
        ensures { result ≡ run (nodes.property_name_nodes name.now) self }
    {
        match name {
            PropertyName::Named(_) => Ok(self),
            PropertyName::Indexed(_, of) => self.type_name(of),
        }
    }

    fn property_node(self, span: Span, name: &PropertyName) -> Result<Room, Span>
        ensures { result ≡ counting span (1 + nodes.property_name_counts name.now) self }
    {
        match name {
            PropertyName::Named(name) => self.named_node(span, name),
            PropertyName::Indexed(_, _) => self.node(span),
        }
    }

    /// Counts a member that declares fields, with their names and one more for each after the first.
    fn fields_node(self, span: Span, names: &[Identifier]) -> Result<Room, Span>
        ensures { result ≡ counting span (1 + (nodes.names_count names.now + (length names.now - 1))) self }
    {
        self.node(span)?
            .names(span, names)?
            .count(span, names.len().saturating_sub(1))
    }

    /// Counts a constructor of a class that declares so many data members.
    fn constructor_node(
        self,
        span: Span,
        name: &Identifier,
        data_members: usize,
    ) -> Result<Room, Span>
        ensures { (number : ℕ) → data_members ≡ min number (2 ^ 64 - 1) → result ≡ counting span (1 + (nodes.name_counts name.now + number)) self }
    {
        self.named_node(span, name)?.count(span, data_members)
    }

    /// Counts a member, in the room of a function, of a class that declares so many data members.
    fn member_node(self, data_members: usize, member: &Member) -> Result<Room, Span>
        ensures { (number : ℕ) → data_members ≡ min number (2 ^ 64 - 1) → result ≡ run (nodes.member_node number member.now) self }
    {
        match member {
            Member::Access(_, span) => self.node(*span),
            Member::Fields(_, of, names, span) => {
                self.fields_node(*span, names.as_slice())?.type_name(of)
            }
            Member::Function(_, of, name, parameters, modifiers, overridden, body, span) => self
                .named_node(*span, name)?
                .type_name(of)?
                .rest(parameters, modifiers, overridden, body),
            Member::Constructor(name, parameters, initializers, body, span) => self
                .constructor_node(*span, name, data_members)?
                .parameters(parameters)?
                .member_initializers(initializers.as_slice())?
                .block(body),
            Member::Destructor(_, name, body, span) | Member::Finaliser(name, body, span) => {
                self.named_node(*span, name)?.block(body)
            }
            Member::Property(_, of, name, accessors, span) => self
                .property_node(*span, name)?
                .type_name(of)?
                .property_name(name)?
                .accessors(accessors.as_slice()),
        }
    }

    fn member(self, data_members: usize, member: &Member) -> Result<Room, Span>
        ensures { (number : ℕ) → data_members ≡ min number (2 ^ 64 - 1) → result ≡ run (nodes.member_nodes number member.now) self }
    {
        let room = self.entered().member_node(data_members, member)?;
        Ok(room.ended(self))
    }

    /// Counts members of a class that declares so many data members.
    pub(crate) fn members(self, data_members: usize, members: &[Member]) -> Result<Room, Span>
        ensures { (number : ℕ) → data_members ≡ min number (2 ^ 64 - 1) → result ≡ run (joined (map (nodes.member_nodes number) members.now)) self }
    {
        let mut room = self;
        'members: for member in members {
            room = room.member(data_members, member)?;
        }
        Ok(room)
    }

    fn base(self, base: &Base) -> Result<Room, Span>
        ensures { result ≡ run (nodes.base_nodes base.now) self }
    {
        self.node(base.span)?.type_name(&base.of)
    }

    pub(crate) fn bases(self, bases: &[Base]) -> Result<Room, Span>
        ensures { result ≡ run (joined (map nodes.base_nodes bases.now)) self }
    {
        let mut room = self;
        'bases: for base in bases {
            room = room.base(base)?;
        }
        Ok(room)
    }

    fn enumerator(self, enumerator: &Enumerator) -> Result<Room, Span>
        ensures { result ≡ run (nodes.enumerator_nodes enumerator.now) self }
    {
        self.named_node(enumerator.span, &enumerator.name)
    }

    pub(crate) fn enumerators(self, enumerators: &[Enumerator]) -> Result<Room, Span>
        ensures { result ≡ run (joined (map nodes.enumerator_nodes enumerators.now)) self }
    {
        let mut room = self;
        'enumerators: for enumerator in enumerators {
            room = room.enumerator(enumerator)?;
        }
        Ok(room)
    }
}
