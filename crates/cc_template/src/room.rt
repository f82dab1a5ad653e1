// How much may still be counted.
ghost use Rattle.std.specs.Prelude.{◌≡◌, ◌+◌, ◌-◌, ◌≤◌, None};
ghost use Rattle.cc_template.specs.Counting.{counting, entered, ended};
ghost use Rattle.cc_template.specs.Nodes.{name_counts, names_count, optional_name_counts};

use cc_base::Span;
use cc_tree::Identifier;

/// How much may still be counted in all, and in the function that is being counted where there is one.
#[derive(Clone, Copy)]
pub(crate) struct Room {
    pub(crate) in_all: u32,
    pub(crate) in_function: Option<u32>,
}

/// How many nodes a unit may have.
const MOST_NODES: u32 = 200_000;

/// How many nodes a function may have with all its parts.
const MOST_NODES_IN_FUNCTION: u32 = 20_000;

impl Room {
    /// The room of a unit.
    pub(crate) fn of_unit() -> Room
        ensures { result ≡ record { in_all = 200_000; in_function = None } }
    {
        Room {
            in_all: MOST_NODES,
            in_function: None,
        }
    }

    /// The room of a function that begins here. In a function in a function that of the outer one decides, since all that the
    /// inner one counts is counted there.
    pub(crate) fn entered(self) -> Room
        ensures { result ≡ entered self }
    {
        let in_function = match self.in_function {
            None => MOST_NODES_IN_FUNCTION,
            Some(left) => left,
        };
        Room {
            in_all: self.in_all,
            in_function: Some(in_function),
        }
    }

    /// The room behind a function that was entered from another room.
    pub(crate) fn ended(self, before: Room) -> Room
        ensures { result ≡ ended before.in_function self }
    {
        match before.in_function {
            None => Room {
                in_all: self.in_all,
                in_function: None,
            },
            Some(_) => self,
        }
    }

    /// How many nodes of a unit have been counted.
    pub(crate) fn counted(self) -> u32
        requires { self.in_all ≤ 200_000 }
        ensures { result ≡ 200_000 - self.in_all }
    {
        MOST_NODES - self.in_all
    }

    /// Counts more at a node, whose place it answers where there is no room for that.
    pub(crate) fn count(self, span: Span, more: usize) -> Result<Room, Span>
        ensures { result ≡ counting span more self }
    {
        if more > self.in_all as usize {
            return Err(span);
        }
        let in_all = self.in_all - more as u32;
        match self.in_function {
            None => Ok(Room {
                in_all,
                in_function: None,
            }),
            Some(left) if more > left as usize => Err(span),
            Some(left) => Ok(Room {
                in_all,
                in_function: Some(left - more as u32),
            }),
        }
    }

    /// Counts a name, which counts one for each whole 32 bytes.
    pub(crate) fn name(self, span: Span, name: &Identifier) -> Result<Room, Span>
        ensures { result ≡ counting span (name_counts name.now) self }
    {
        self.count(span, name.name.len() / 32)
    }

    /// Counts a name where there is one.
    pub(crate) fn optional_name(self, span: Span, name: &Option<Identifier>) -> Result<Room, Span>
        ensures { result ≡ counting span (optional_name_counts name.now) self }
    {
        match name {
            None => self.count(span, 0),
            Some(name) => self.name(span, name),
        }
    }

    pub(crate) fn names(self, span: Span, names: &[Identifier]) -> Result<Room, Span>
        ensures { result ≡ counting span (names_count names.now) self }
    {
        let mut room = self;
        'names: for name in names {
            room = room.name(span, name)?;
        }
        Ok(room)
    }

    /// Counts a node without a name.
    pub(crate) fn node(self, span: Span) -> Result<Room, Span>
        ensures { result ≡ counting span 1 self }
    {
        self.count(span, 1)
    }

    /// Counts a node with its name.
    pub(crate) fn named_node(self, span: Span, name: &Identifier) -> Result<Room, Span>
        ensures { result ≡ counting span (1 + name_counts name.now) self }
    {
        self.node(span)?.name(span, name)
    }

    /// Counts a node with its name and the namespaces before it.
    pub(crate) fn qualified_node(
        self,
        span: Span,
        path: &[Identifier],
        name: &Identifier,
    ) -> Result<Room, Span>
        ensures { result ≡ counting span (1 + (names_count path.now + name_counts name.now)) self }
    {
        self.node(span)?.names(span, path)?.name(span, name)
    }
}
