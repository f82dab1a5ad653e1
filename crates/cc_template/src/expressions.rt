// Expressions and their nodes (ECMA-372, 15).
ghost use Rattle.std.specs.Prelude.{◌≡◌, ◌+◌, ◌-◌, ◌^◌, min, map};
ghost use Rattle.cc_template.specs.Counting.{counting, run};
ghost use Rattle.cc_template.specs.Nodes.{joined, optional_of, expression_nodes, arguments_nodes};
ghost use Rattle.cc_template.specs.Nodes as nodes;

use crate::room::Room;
use cc_base::{Span, Text};
use cc_tree::{Arguments, Expression};

/// How many units adjacent strings have, or the greatest number of its type where they have more.
fn units(texts: &[Text]) -> usize
    ensures { result ≡ min (nodes.units texts.now) (2 ^ 64 - 1) }
{
    let mut sum = 0usize;
    'texts: for text in texts {
        sum = sum.saturating_add(text.len());
    }
    sum
}

impl Room {
    /// Counts one for each `{` in strings.
    fn braces(self, span: Span, texts: &[Text]) -> Result<Room, Span>
        ensures { result ≡ counting span (nodes.braces texts.now) self }
    {
        let mut room = self;
        'texts: for text in texts {
            let braces = text.as_slice().iter().filter(|unit| **unit == 123).count();
            room = room.count(span, braces)?;
        }
        Ok(room)
    }

    /// Counts adjacent strings, which make one: one, one more for each whole 32 units, and one for each `{`.
    fn strings(self, span: Span, texts: &[Text]) -> Result<Room, Span>
        ensures { result ≡ counting span (1 + nodes.strings_count texts.now) self }
    {
        self.node(span)?
            .count(span, units(texts) / 32)?
            .braces(span, texts)
    }

    #[cycle(expression)]
    pub(crate) fn expression(self, expression: &Expression) -> Result<Room, Span>
        ensures { result ≡ run (expression_nodes expression.now) self }
    {
        match expression {
            Expression::Assign(left, _, right, span)
            | Expression::Binary(left, _, right, span)
            | Expression::Index(left, right, span) => self
                .node(*span)?
                .expression(left.get())?
                .expression(right.get()),
            Expression::Conditional(condition, first, second, span) => self
                .node(*span)?
                .expression(condition.get())?
                .expression(first.get())?
                .expression(second.get()),
            Expression::Prefix(_, operand, span)
            | Expression::Postfix(operand, _, span)
            | Expression::Group(operand, span) => self.node(*span)?.expression(operand.get()),
            Expression::Cast(of, operand, span) | Expression::NamedCast(_, of, operand, span) => {
                self.node(*span)?.type_name(of)?.expression(operand.get())
            }
            Expression::Call(function, arguments, span) => self
                .node(*span)?
                .expression(function.get())?
                .arguments(arguments),
            Expression::Member(object, _, name, types, span) => self
                .named_node(*span, name)?
                .expression(object.get())?
                .type_arguments(types),
            Expression::Finaliser(object, _, name, span) => {
                self.named_node(*span, name)?.expression(object.get())
            }
            Expression::Number(_, _, _, span)
            | Expression::Character(_, span)
            | Expression::True(span)
            | Expression::False(span)
            | Expression::Nullptr(span)
            | Expression::This(span) => self.node(*span),
            Expression::Strings(texts, span) => self.strings(*span, texts.as_slice()),
            Expression::Name(path, name, types, span) => self
                .qualified_node(*span, path.as_slice(), name)?
                .type_arguments(types),
            Expression::StaticMember(of, name, span) => self.named_node(*span, name)?.type_name(of),
            Expression::Construct(of, arguments, span) => {
                self.node(*span)?.type_name(of)?.arguments(arguments)
            }
            Expression::New(of, arguments, elements, span) => self
                .node(*span)?
                .type_name(of)?
                .optional_arguments(arguments)?
                .optional_arguments(elements),
        }
    }

    #[cycle(expression)]
    pub(crate) fn expressions(self, expressions: &[Expression]) -> Result<Room, Span>
        ensures { result ≡ run (joined (map expression_nodes expressions.now)) self }
    {
        let mut room = self;
        'expressions: for expression in expressions {
            room = room.expression(expression)?;
        }
        Ok(room)
    }

    #[cycle(expression)]
    pub(crate) fn arguments(self, arguments: &Arguments) -> Result<Room, Span>
        ensures { result ≡ run (arguments_nodes arguments.now) self }
    {
        self.node(arguments.span)?
            .expressions(arguments.items.as_slice())
    }

    #[cycle(expression)]
    fn optional_arguments(self, arguments: &Option<Arguments>) -> Result<Room, Span>
        ensures { result ≡ run (optional_of arguments_nodes arguments.now) self }
    {
        match arguments {
            None => Ok(self),
            Some(arguments) => self.arguments(arguments),
        }
    }

    pub(crate) fn optional_expression(self, expression: &Option<Expression>) -> Result<Room, Span>
        ensures { result ≡ run (optional_of expression_nodes expression.now) self }
    {
        match expression {
            None => Ok(self),
            Some(expression) => self.expression(expression),
        }
    }
}
