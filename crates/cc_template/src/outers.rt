// Classes, enums, functions and namespaces and their nodes (ECMA-372, 10, 20 to 24).
ghost use Rattle.std.specs.Prelude.{ℕ, ◌≡◌, ◌+◌, ◌-◌, ◌^◌, min, map};
ghost use Rattle.cc_template.specs.Counting.{counting, run};
ghost use Rattle.cc_template.specs.Nodes as nodes;
ghost use Rattle.cc_template.specs.Nodes.{joined};

use crate::members::data_members;
use crate::room::Room;
use cc_base::Span;
use cc_tree::{Class, Enumeration, Function, Identifier, Outer};

impl Room {
    /// Counts a class or an enum by its name, and by its full name, in which so many bytes stand before the name.
    fn aggregate_node(self, span: Span, before: usize, name: &Identifier) -> Result<Room, Span>
        ensures { (number : ℕ) → before ≡ min number (2 ^ 64 - 1) → result ≡ counting span (1 + (nodes.name_counts name.now + nodes.full_name_counts number name.now)) self }
    {
        self.named_node(span, name)?
            .count(span, before.saturating_add(name.name.len()) / 64)
    }

    fn class(self, before: usize, class: &Class) -> Result<Room, Span>
        ensures { (number : ℕ) → before ≡ min number (2 ^ 64 - 1) → result ≡ run (nodes.class_nodes number «class».now) self }
    {
        let members = class.members.as_slice();
        self.aggregate_node(class.span, before, &class.name)?
            .node(class.key.span)?
            .bases(class.bases.as_slice())?
            .members(data_members(members), members)
    }

    fn enumeration(self, before: usize, enumeration: &Enumeration) -> Result<Room, Span>
        ensures { (number : ℕ) → before ≡ min number (2 ^ 64 - 1) → result ≡ run (nodes.enumeration_nodes number enumeration.now) self }
    {
        self.aggregate_node(enumeration.span, before, &enumeration.name)?
            .enumerators(enumeration.items.as_slice())
    }

    fn function(self, function: &Function) -> Result<Room, Span>
        ensures { result ≡ run (nodes.function_nodes function.now) self }
    {
        let room = self
            .entered()
            .named_node(function.span, &function.name)?
            .type_name(&function.result)?
            .parameters(&function.parameters)?
            .optional_block(&function.body)?;
        Ok(room.ended(self))
    }

    /// Counts a declaration in namespaces whose names, each with a `.` behind it, have so many bytes.
    #[cycle(outer)]
    fn outer(self, before: usize, outer: &Outer) -> Result<Room, Span>
        ensures { (number : ℕ) → before ≡ min number (2 ^ 64 - 1) → result ≡ run (nodes.outer_nodes outer.now number) self }
    {
        match outer {
            Outer::Using(names, span) => self.node(*span)?.names(*span, names.as_slice()),
            Outer::Namespace(name, outers, span) => {
                let behind = before.saturating_add(name.name.len()).saturating_add(1);
                self.named_node(*span, name)?
                    .outers(behind, outers.as_slice())
            }
            Outer::Class(class) => self.class(before, class),
            Outer::Enumeration(enumeration) => self.enumeration(before, enumeration),
            Outer::VisibleClass(_, class, span) => self.node(*span)?.class(before, class),
            Outer::VisibleEnumeration(_, enumeration, span) => {
                self.node(*span)?.enumeration(before, enumeration)
            }
            Outer::Forward(key, name, span) => self.named_node(*span, name)?.node(key.span),
            Outer::Template(_) => Ok(self),
            Outer::Function(function) => self.function(function),
        }
    }

    #[cycle(outer)]
    pub(crate) fn outers(self, before: usize, outers: &[Outer]) -> Result<Room, Span>
        ensures { (number : ℕ) → before ≡ min number (2 ^ 64 - 1) → result ≡ run (joined (nodes.each_behind number (map nodes.outer_nodes outers.now))) self }
    {
        let mut room = self;
        'outers: for outer in outers {
            room = room.outer(before, outer)?;
        }
        Ok(room)
    }
}
