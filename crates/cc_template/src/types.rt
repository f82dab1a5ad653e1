// Types and their nodes (ECMA-372, 12).
ghost use Rattle.std.specs.Prelude.{◌≡◌, map};
ghost use Rattle.cc_template.specs.Counting.{run};
ghost use Rattle.cc_template.specs.Nodes.{joined, optional_of, type_nodes, type_arguments_nodes};

use crate::room::Room;
use cc_base::Span;
use cc_tree::{TypeArguments, TypeName};

impl Room {
    #[cycle(types)]
    pub(crate) fn type_name(self, of: &TypeName) -> Result<Room, Span>
        ensures { result ≡ run (type_nodes of.now) self }
    {
        match of {
            TypeName::Fundamental(_, span) => self.node(*span),
            TypeName::Named(path, name, arguments, span) => self
                .qualified_node(*span, path.as_slice(), name)?
                .type_names(arguments.as_slice()),
            TypeName::Marked(core, _, _, span) => self.node(*span)?.type_name(core.get()),
        }
    }

    #[cycle(types)]
    pub(crate) fn type_names(self, types: &[TypeName]) -> Result<Room, Span>
        ensures { result ≡ run (joined (map type_nodes types.now)) self }
    {
        let mut room = self;
        'types: for of in types {
            room = room.type_name(of)?;
        }
        Ok(room)
    }

    /// The arguments after the name of a function template, where they stand.
    pub(crate) fn type_arguments(self, arguments: &Option<TypeArguments>) -> Result<Room, Span>
        ensures { result ≡ run (optional_of type_arguments_nodes arguments.now) self }
    {
        match arguments {
            None => Ok(self),
            Some(arguments) => self
                .node(arguments.span)?
                .type_names(arguments.types.as_slice()),
        }
    }
}
