// Statements and their nodes (ECMA-372, 16).
ghost use Rattle.std.specs.Prelude.{◌≡◌, ◌+◌, map};
ghost use Rattle.cc_template.specs.Counting.{counting, run};
ghost use Rattle.cc_template.specs.Nodes as nodes;
ghost use Rattle.cc_template.specs.Nodes.{joined, optional_of};

use crate::room::Room;
use cc_base::Span;
use cc_tree::{
    Block, Catch, Caught, Declarator, ForStart, Initializer, Label, Local, Section, Statement,
};
use sqlite_items::{Boxed, Items};

impl Room {
    fn initializer(self, initializer: &Initializer) -> Result<Room, Span>
        ensures { result ≡ run (nodes.initializer_nodes initializer.now) self }
    {
        match initializer {
            Initializer::Nothing => Ok(self),
            Initializer::Value(value) => self.expression(value),
            Initializer::Elements(elements) => self.arguments(elements),
            Initializer::Arguments(arguments) => self.expressions(arguments.as_slice()),
        }
    }

    fn declarator(self, declarator: &Declarator) -> Result<Room, Span>
        ensures { result ≡ run (nodes.declarator_nodes declarator.now) self }
    {
        self.named_node(declarator.span, &declarator.name)?
            .initializer(&declarator.initializer)
    }

    fn declarators(self, declarators: &[Declarator]) -> Result<Room, Span>
        ensures { result ≡ run (joined (map nodes.declarator_nodes declarators.now)) self }
    {
        let mut room = self;
        'declarators: for declarator in declarators {
            room = room.declarator(declarator)?;
        }
        Ok(room)
    }

    fn local(self, local: &Local) -> Result<Room, Span>
        ensures { result ≡ run (nodes.local_nodes local.now) self }
    {
        self.node(local.span)?
            .type_name(&local.of)?
            .declarators(local.declarators.as_slice())
    }

    fn label(self, label: &Label) -> Result<Room, Span>
        ensures { result ≡ run (nodes.label_nodes label.now) self }
    {
        match label {
            Label::Case(value, span) => self.node(*span)?.expression(value),
            Label::Default(span) => self.node(*span),
        }
    }

    fn labels(self, labels: &[Label]) -> Result<Room, Span>
        ensures { result ≡ run (joined (map nodes.label_nodes labels.now)) self }
    {
        let mut room = self;
        'labels: for label in labels {
            room = room.label(label)?;
        }
        Ok(room)
    }

    fn for_start(self, start: &ForStart) -> Result<Room, Span>
        ensures { result ≡ run (nodes.start_nodes start.now) self }
    {
        match start {
            ForStart::Nothing => Ok(self),
            ForStart::Local(local) => self.local(local),
            ForStart::Expression(value) => self.expression(value),
        }
    }

    fn caught(self, caught: &Caught) -> Result<Room, Span>
        ensures { result ≡ run (nodes.caught_nodes caught.now) self }
    {
        match caught {
            Caught::All => Ok(self),
            Caught::Typed(of, _) => self.type_name(of),
        }
    }

    /// Counts the name of a variable that holds what is caught.
    fn caught_name(self, span: Span, one: &Catch) -> Result<Room, Span>
        ensures { result ≡ counting span (nodes.catch_parts one.now).counts self }
    {
        match &one.caught {
            Caught::All => self.count(span, 0),
            Caught::Typed(_, name) => self.optional_name(span, name),
        }
    }

    fn caught_names(self, span: Span, catches: &[Catch]) -> Result<Room, Span>
        ensures { result ≡ counting span (nodes.catches_count (map nodes.catch_parts catches.now)) self }
    {
        let mut room = self;
        'catches: for one in catches {
            room = room.caught_name(span, one)?;
        }
        Ok(room)
    }

    fn try_node(self, span: Span, catches: &[Catch]) -> Result<Room, Span>
        ensures { result ≡ counting span (1 + nodes.catches_count (map nodes.catch_parts catches.now)) self }
    {
        self.node(span)?.caught_names(span, catches)
    }

    #[cycle(statement)]
    fn statement(self, statement: &Statement) -> Result<Room, Span>
        ensures { result ≡ run (nodes.statement_nodes statement.now) self }
    {
        match statement {
            Statement::Block(block) => self.block(block),
            Statement::Empty(span) | Statement::Break(span) | Statement::Continue(span) => {
                self.node(*span)
            }
            Statement::Local(local, span) => self.node(*span)?.local(local),
            Statement::Expression(value, span) | Statement::Delete(value, span) => {
                self.node(*span)?.expression(value)
            }
            Statement::If(condition, first, second, span) => self
                .node(*span)?
                .expression(condition)?
                .statement(first.get())?
                .optional_statement(second),
            Statement::While(condition, body, span) => self
                .node(*span)?
                .expression(condition)?
                .statement(body.get()),
            Statement::Do(body, condition, span) => self
                .node(*span)?
                .statement(body.get())?
                .expression(condition),
            Statement::For(start, condition, step, body, span) => self
                .node(*span)?
                .for_start(start)?
                .optional_expression(condition)?
                .optional_expression(step)?
                .statement(body.get()),
            Statement::ForEach(of, name, items, body, span) => self
                .named_node(*span, name)?
                .type_name(of)?
                .expression(items)?
                .statement(body.get()),
            Statement::Switch(value, sections, span) => {
                self.node(*span)?.expression(value)?.sections(sections)
            }
            Statement::Return(value, span) | Statement::Throw(value, span) => {
                self.node(*span)?.optional_expression(value)
            }
            Statement::Try(block, catches, at_last, span) => self
                .try_node(*span, catches.as_slice())?
                .block(block)?
                .catches(catches.as_slice())?
                .nested_block(at_last),
        }
    }

    #[cycle(statement)]
    fn optional_statement(self, statement: &Option<Boxed<Statement>>) -> Result<Room, Span>
        ensures { result ≡ run (optional_of nodes.statement_nodes statement.now) self }
    {
        match statement {
            None => Ok(self),
            Some(statement) => self.statement(statement.get()),
        }
    }

    #[cycle(statement)]
    fn statements(self, statements: &[Statement]) -> Result<Room, Span>
        ensures { result ≡ run (joined (map nodes.statement_nodes statements.now)) self }
    {
        let mut room = self;
        'statements: for statement in statements {
            room = room.statement(statement)?;
        }
        Ok(room)
    }

    #[cycle(statement)]
    pub(crate) fn block(self, block: &Block) -> Result<Room, Span>
        ensures { result ≡ run (nodes.block_nodes block.now) self }
    {
        self.node(block.span)?
            .statements(block.statements.as_slice())
    }

    #[cycle(statement)]
    fn nested_block(self, block: &Option<Block>) -> Result<Room, Span>
        ensures { result ≡ run (optional_of nodes.block_nodes block.now) self }
    {
        match block {
            None => Ok(self),
            Some(block) => self.block(block),
        }
    }

    #[cycle(statement)]
    fn section(self, section: &Section) -> Result<Room, Span>
        ensures { result ≡ run (nodes.section_nodes section.now) self }
    {
        self.labels(section.labels.as_slice())?
            .statements(section.statements.as_slice())
    }

    #[cycle(statement)]
    fn sections(self, sections: &Items<Section>) -> Result<Room, Span>
        ensures { result ≡ run (joined (map nodes.section_nodes sections.now)) self }
    {
        let mut room = self;
        let items = sections.as_slice();
        'sections: for section in items {
            room = room.section(section)?;
        }
        Ok(room)
    }

    #[cycle(statement)]
    fn catch_parts(self, one: &Catch) -> Result<Room, Span>
        ensures { result ≡ run (nodes.catch_parts one.now).nodes self }
    {
        self.caught(&one.caught)?.block(&one.block)
    }

    #[cycle(statement)]
    fn catches(self, catches: &[Catch]) -> Result<Room, Span>
        ensures { result ≡ run (nodes.catches_nodes (map nodes.catch_parts catches.now)) self }
    {
        let mut room = self;
        'catches: for one in catches {
            room = room.catch_parts(one)?;
        }
        Ok(room)
    }
}
