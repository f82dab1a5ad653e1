// What the types and namespaces in statements are refused for (ECMA-372, 16).
ghost use Rattle.std.specs.Prelude.{◌≡◌, map};
ghost use Rattle.std.specs.List.{list_all};
ghost use Rattle.cc_names.specs.Checks.{run, joined};
ghost use Rattle.cc_names.specs.Mentions as spec;
ghost use Rattle.cc_names.specs.Spaces.{space};

use crate::find_type::Here;
use crate::forming::Purpose;
use crate::refusal::Refusal;
use cc_tree::{
    Block, Catch, Caught, Declarator, ForStart, Initializer, Label, Local, Section, Statement,
};
use sqlite_items::Items;

fn has_initializer(initializer: &Initializer) -> bool
    ensures { result ≡ spec.has_initializer initializer.now }
{
    match initializer {
        Initializer::Nothing => false,
        Initializer::Value(_) => true,
        Initializer::Elements(_) => true,
        Initializer::Arguments(_) => true,
    }
}

/// Whether each of some variables has an initialiser.
fn are_initialised(declarators: &[Declarator]) -> bool
    ensures { result ≡ list_all (λ declarator. spec.has_initializer declarator.initializer) declarators.now }
{
    'declarators: for declarator in declarators {
        if !has_initializer(&declarator.initializer) {
            return false;
        }
    }
    true
}

impl Here<'_> {
    fn initializer(&self, so_far: Option<Refusal>, initializer: &Initializer) -> Option<Refusal>
        ensures { result ≡ run (spec.initializer_checks (space self.now.space.now) self.now.path.now initializer.now) so_far }
    {
        match initializer {
            Initializer::Nothing => so_far,
            Initializer::Value(value) => self.expression(so_far, value),
            Initializer::Elements(elements) => self.call_arguments(so_far, elements),
            Initializer::Arguments(arguments) => self.expressions(so_far, arguments.as_slice()),
        }
    }

    fn declarators(&self, so_far: Option<Refusal>, declarators: &[Declarator]) -> Option<Refusal>
        ensures { result ≡ run (joined (map (spec.declarator_checks (space self.now.space.now) self.now.path.now) declarators.now)) so_far }
    {
        let mut first = so_far;
        'declarators: for declarator in declarators {
            first = self.initializer(first, &declarator.initializer);
        }
        first
    }

    fn local(&self, so_far: Option<Refusal>, local: &Local) -> Option<Refusal>
        ensures { result ≡ run (spec.local_checks (space self.now.space.now) self.now.path.now local.now) so_far }
    {
        let declarators = local.declarators.as_slice();
        let purpose = Purpose::Local(are_initialised(declarators));
        let first = self.written(so_far, purpose, &local.of);
        self.declarators(first, declarators)
    }

    fn for_start(&self, so_far: Option<Refusal>, start: &ForStart) -> Option<Refusal>
        ensures { result ≡ run (spec.start_checks (space self.now.space.now) self.now.path.now start.now) so_far }
    {
        match start {
            ForStart::Nothing => so_far,
            ForStart::Local(local) => self.local(so_far, local),
            ForStart::Expression(value) => self.expression(so_far, value),
        }
    }

    fn caught(&self, so_far: Option<Refusal>, caught: &Caught) -> Option<Refusal>
        ensures { result ≡ run (spec.caught_checks (space self.now.space.now) self.now.path.now caught.now) so_far }
    {
        match caught {
            Caught::All => so_far,
            Caught::Typed(of, _) => self.written(so_far, Purpose::Value, of),
        }
    }

    fn label(&self, so_far: Option<Refusal>, label: &Label) -> Option<Refusal>
        ensures { result ≡ run (spec.label_checks (space self.now.space.now) self.now.path.now label.now) so_far }
    {
        match label {
            Label::Case(value, _) => self.expression(so_far, value),
            Label::Default(_) => so_far,
        }
    }

    fn labels(&self, so_far: Option<Refusal>, labels: &[Label]) -> Option<Refusal>
        ensures { result ≡ run (joined (map (spec.label_checks (space self.now.space.now) self.now.path.now) labels.now)) so_far }
    {
        let mut first = so_far;
        'labels: for label in labels {
            first = self.label(first, label);
        }
        first
    }

    #[cycle(statement)]
    fn statement(&self, so_far: Option<Refusal>, statement: &Statement) -> Option<Refusal>
        ensures { result ≡ run (spec.statement_checks (space self.now.space.now) self.now.path.now statement.now) so_far }
    {
        match statement {
            Statement::Block(block) => self.block(so_far, block),
            Statement::Empty(_) | Statement::Break(_) | Statement::Continue(_) => so_far,
            Statement::Local(local, _) => self.local(so_far, local),
            Statement::Expression(value, _) | Statement::Delete(value, _) => {
                self.expression(so_far, value)
            }
            Statement::If(condition, one, other, _) => {
                let first = self.expression(so_far, condition);
                let first = self.statement(first, one.get());
                match other {
                    None => first,
                    Some(other) => self.statement(first, other.get()),
                }
            }
            Statement::While(condition, body, _) => {
                let first = self.expression(so_far, condition);
                self.statement(first, body.get())
            }
            Statement::Do(body, condition, _) => {
                let first = self.statement(so_far, body.get());
                self.expression(first, condition)
            }
            Statement::For(start, condition, advance, body, _) => {
                let first = self.for_start(so_far, start);
                let first = self.optional_expression(first, condition);
                let first = self.optional_expression(first, advance);
                self.statement(first, body.get())
            }
            Statement::ForEach(of, _, over, body, _) => {
                let first = self.written(so_far, Purpose::Value, of);
                let first = self.expression(first, over);
                self.statement(first, body.get())
            }
            Statement::Switch(value, sections, _) => {
                let first = self.expression(so_far, value);
                self.sections(first, sections)
            }
            Statement::Return(value, _) | Statement::Throw(value, _) => {
                self.optional_expression(so_far, value)
            }
            Statement::Try(body, catches, at_last, _) => {
                let first = self.block(so_far, body);
                let first = self.catches(first, catches.as_slice());
                match at_last {
                    None => first,
                    Some(block) => self.block(first, block),
                }
            }
        }
    }

    #[cycle(statement)]
    fn statements(&self, so_far: Option<Refusal>, statements: &[Statement]) -> Option<Refusal>
        ensures { result ≡ run (joined (map (spec.statement_checks (space self.now.space.now) self.now.path.now) statements.now)) so_far }
    {
        let mut first = so_far;
        'statements: for statement in statements {
            first = self.statement(first, statement);
        }
        first
    }

    #[cycle(statement)]
    pub(crate) fn block(&self, so_far: Option<Refusal>, block: &Block) -> Option<Refusal>
        ensures { result ≡ run (spec.block_checks (space self.now.space.now) self.now.path.now block.now) so_far }
    {
        self.statements(so_far, block.statements.as_slice())
    }

    #[cycle(statement)]
    fn catches(&self, so_far: Option<Refusal>, catches: &[Catch]) -> Option<Refusal>
        ensures { result ≡ run (joined (map (spec.catch_checks (space self.now.space.now) self.now.path.now) catches.now)) so_far }
    {
        let mut first = so_far;
        'catches: for one in catches {
            first = self.catch(first, one);
        }
        first
    }

    #[cycle(statement)]
    fn catch(&self, so_far: Option<Refusal>, one: &Catch) -> Option<Refusal>
        ensures { result ≡ run (spec.catch_checks (space self.now.space.now) self.now.path.now one.now) so_far }
    {
        let first = self.caught(so_far, &one.caught);
        self.block(first, &one.block)
    }

    #[cycle(statement)]
    fn sections(&self, so_far: Option<Refusal>, sections: &Items<Section>) -> Option<Refusal>
        ensures { result ≡ run (joined (map (spec.section_checks (space self.now.space.now) self.now.path.now) sections.now)) so_far }
    {
        let mut first = so_far;
        let items = sections.as_slice();
        'sections: for section in items {
            first = self.section(first, section);
        }
        first
    }

    #[cycle(statement)]
    fn section(&self, so_far: Option<Refusal>, section: &Section) -> Option<Refusal>
        ensures { result ≡ run (spec.section_checks (space self.now.space.now) self.now.path.now section.now) so_far }
    {
        let first = self.labels(so_far, section.labels.as_slice());
        self.statements(first, section.statements.as_slice())
    }

    pub(crate) fn optional_block(
        &self,
        so_far: Option<Refusal>,
        block: &Option<Block>,
    ) -> Option<Refusal>
        ensures { result ≡ run (spec.optional_of (spec.block_checks (space self.now.space.now) self.now.path.now) block.now) so_far }
    {
        match block {
            None => so_far,
            Some(block) => self.block(so_far, block),
        }
    }
}
