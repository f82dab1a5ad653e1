// Types, expressions and statements, taken off the stack. What isn't of the wanted kind stands for nothing of that kind.
ghost use Rattle.std.specs.Prelude.{◌≡◌};
ghost use Rattle.cc_pushdown.specs.Values as spec;

use crate::absent::{no_arguments, no_name, no_type};
use crate::parts::nowhere;
use crate::take::discard;
use cc_base::Text;
use cc_pushdown::{Node, Stack, Value};
use cc_tree::{
    Arguments, Block, Catch, Caught, Declarator, Expression, ForStart, Initializer, Label, Local,
    Section, Statement, TypeArguments, TypeName,
};
use sqlite_items::Items;
use std::alloc::Global;

/// The topmost value, as a type name.
pub fn type_name(values: &mut Stack<Value>) -> Node<TypeName>
    ensures top { result ≡ spec.top_type_name values.old }
    ensures rest { values.new ≡ spec.below values.old }
{
    match values.pop() {
        Some(Value::Type(taken)) => taken,
        Some(other) => {
            discard(other);
            Node {
                tree: no_type(),
                span: nowhere(),
            }
        }
        None => Node {
            tree: no_type(),
            span: nowhere(),
        },
    }
}

/// The topmost value, as a types.
pub fn types(alloc: Global, values: &mut Stack<Value>) -> Items<TypeName>
    ensures top { result ≡ spec.top_types values.old }
    ensures rest { values.new ≡ spec.below values.old }
{
    match values.pop() {
        Some(Value::Types(taken)) => taken,
        Some(other) => {
            discard(other);
            Items::new(alloc)
        }
        None => Items::new(alloc),
    }
}

/// The topmost value, as a type arguments.
pub fn type_arguments(alloc: Global, values: &mut Stack<Value>) -> TypeArguments
    ensures top { result ≡ spec.top_type_arguments values.old }
    ensures rest { values.new ≡ spec.below values.old }
{
    match values.pop() {
        Some(Value::TypeArguments(taken)) => taken,
        Some(other) => {
            discard(other);
            TypeArguments {
                types: Items::new(alloc),
                span: nowhere(),
            }
        }
        None => TypeArguments {
            types: Items::new(alloc),
            span: nowhere(),
        },
    }
}

/// The topmost value, as an expression.
pub fn expression(values: &mut Stack<Value>) -> Node<Expression>
    ensures top { result ≡ spec.top_expression values.old }
    ensures rest { values.new ≡ spec.below values.old }
{
    match values.pop() {
        Some(Value::Expression(taken)) => taken,
        Some(other) => {
            discard(other);
            Node {
                tree: Expression::This(nowhere()),
                span: nowhere(),
            }
        }
        None => Node {
            tree: Expression::This(nowhere()),
            span: nowhere(),
        },
    }
}

/// The topmost value, as an expressions.
pub fn expressions(alloc: Global, values: &mut Stack<Value>) -> Node<Items<Expression>>
    ensures top { result ≡ spec.top_expressions values.old }
    ensures rest { values.new ≡ spec.below values.old }
{
    match values.pop() {
        Some(Value::Expressions(taken)) => taken,
        Some(other) => {
            discard(other);
            Node {
                tree: Items::new(alloc),
                span: nowhere(),
            }
        }
        None => Node {
            tree: Items::new(alloc),
            span: nowhere(),
        },
    }
}

/// The topmost value, as an arguments.
pub fn arguments(alloc: Global, values: &mut Stack<Value>) -> Arguments
    ensures top { result ≡ spec.top_arguments values.old }
    ensures rest { values.new ≡ spec.below values.old }
{
    match values.pop() {
        Some(Value::Arguments(taken)) => taken,
        Some(other) => {
            discard(other);
            no_arguments(alloc)
        }
        None => no_arguments(alloc),
    }
}

/// The topmost value, as a texts.
pub fn texts(alloc: Global, values: &mut Stack<Value>) -> Node<Items<Text>>
    ensures top { result ≡ spec.top_texts values.old }
    ensures rest { values.new ≡ spec.below values.old }
{
    match values.pop() {
        Some(Value::Texts(taken)) => taken,
        Some(other) => {
            discard(other);
            Node {
                tree: Items::new(alloc),
                span: nowhere(),
            }
        }
        None => Node {
            tree: Items::new(alloc),
            span: nowhere(),
        },
    }
}

/// The topmost value, as a statement.
pub fn statement(values: &mut Stack<Value>) -> Node<Statement>
    ensures top { result ≡ spec.top_statement values.old }
    ensures rest { values.new ≡ spec.below values.old }
{
    match values.pop() {
        Some(Value::Statement(taken)) => taken,
        Some(other) => {
            discard(other);
            Node {
                tree: Statement::Empty(nowhere()),
                span: nowhere(),
            }
        }
        None => Node {
            tree: Statement::Empty(nowhere()),
            span: nowhere(),
        },
    }
}

/// The topmost value, as a statements.
pub fn statements(alloc: Global, values: &mut Stack<Value>) -> Items<Statement>
    ensures top { result ≡ spec.top_statements values.old }
    ensures rest { values.new ≡ spec.below values.old }
{
    match values.pop() {
        Some(Value::Statements(taken)) => taken,
        Some(other) => {
            discard(other);
            Items::new(alloc)
        }
        None => Items::new(alloc),
    }
}

/// The topmost value, as a block.
pub fn block(alloc: Global, values: &mut Stack<Value>) -> Node<Block>
    ensures top { result ≡ spec.top_block values.old }
    ensures rest { values.new ≡ spec.below values.old }
{
    match values.pop() {
        Some(Value::Block(taken)) => taken,
        Some(other) => {
            discard(other);
            Node {
                tree: Block {
                    statements: Items::new(alloc),
                    span: nowhere(),
                },
                span: nowhere(),
            }
        }
        None => Node {
            tree: Block {
                statements: Items::new(alloc),
                span: nowhere(),
            },
            span: nowhere(),
        },
    }
}

/// The topmost value, as a label.
pub fn label(values: &mut Stack<Value>) -> Label
    ensures top { result ≡ spec.top_label values.old }
    ensures rest { values.new ≡ spec.below values.old }
{
    match values.pop() {
        Some(Value::Label(taken)) => taken,
        Some(other) => {
            discard(other);
            Label::Default(nowhere())
        }
        None => Label::Default(nowhere()),
    }
}

/// The topmost value, as a labels.
pub fn labels(alloc: Global, values: &mut Stack<Value>) -> Items<Label>
    ensures top { result ≡ spec.top_labels values.old }
    ensures rest { values.new ≡ spec.below values.old }
{
    match values.pop() {
        Some(Value::Labels(taken)) => taken,
        Some(other) => {
            discard(other);
            Items::new(alloc)
        }
        None => Items::new(alloc),
    }
}

/// The topmost value, as a sections.
pub fn sections(alloc: Global, values: &mut Stack<Value>) -> Items<Section>
    ensures top { result ≡ spec.top_sections values.old }
    ensures rest { values.new ≡ spec.below values.old }
{
    match values.pop() {
        Some(Value::Sections(taken)) => taken,
        Some(other) => {
            discard(other);
            Items::new(alloc)
        }
        None => Items::new(alloc),
    }
}

/// The topmost value, as a local.
pub fn local(alloc: Global, values: &mut Stack<Value>) -> Local
    ensures top { result ≡ spec.top_local values.old }
    ensures rest { values.new ≡ spec.below values.old }
{
    match values.pop() {
        Some(Value::Local(taken)) => taken,
        Some(other) => {
            discard(other);
            Local {
                of: no_type(),
                declarators: Items::new(alloc),
                span: nowhere(),
            }
        }
        None => Local {
            of: no_type(),
            declarators: Items::new(alloc),
            span: nowhere(),
        },
    }
}

/// The topmost value, as a declarator.
pub fn declarator(alloc: Global, values: &mut Stack<Value>) -> Declarator
    ensures top { result ≡ spec.top_declarator values.old }
    ensures rest { values.new ≡ spec.below values.old }
{
    match values.pop() {
        Some(Value::Declarator(taken)) => taken,
        Some(other) => {
            discard(other);
            Declarator {
                name: no_name(alloc),
                initializer: Initializer::Nothing,
                span: nowhere(),
            }
        }
        None => Declarator {
            name: no_name(alloc),
            initializer: Initializer::Nothing,
            span: nowhere(),
        },
    }
}

/// The topmost value, as a declarators.
pub fn declarators(alloc: Global, values: &mut Stack<Value>) -> Node<Items<Declarator>>
    ensures top { result ≡ spec.top_declarators values.old }
    ensures rest { values.new ≡ spec.below values.old }
{
    match values.pop() {
        Some(Value::Declarators(taken)) => taken,
        Some(other) => {
            discard(other);
            Node {
                tree: Items::new(alloc),
                span: nowhere(),
            }
        }
        None => Node {
            tree: Items::new(alloc),
            span: nowhere(),
        },
    }
}

/// The topmost value, as a for start.
pub fn for_start(values: &mut Stack<Value>) -> ForStart
    ensures top { result ≡ spec.top_for_start values.old }
    ensures rest { values.new ≡ spec.below values.old }
{
    match values.pop() {
        Some(Value::ForStart(taken)) => taken,
        Some(other) => {
            discard(other);
            ForStart::Nothing
        }
        None => ForStart::Nothing,
    }
}

/// The topmost value, as an optional.
pub fn optional(values: &mut Stack<Value>) -> Node<Option<Expression>>
    ensures top { result ≡ spec.top_optional values.old }
    ensures rest { values.new ≡ spec.below values.old }
{
    match values.pop() {
        Some(Value::Optional(taken)) => taken,
        Some(other) => {
            discard(other);
            Node {
                tree: None,
                span: nowhere(),
            }
        }
        None => Node {
            tree: None,
            span: nowhere(),
        },
    }
}

/// The topmost value, as a caught.
pub fn caught(values: &mut Stack<Value>) -> Caught
    ensures top { result ≡ spec.top_caught values.old }
    ensures rest { values.new ≡ spec.below values.old }
{
    match values.pop() {
        Some(Value::Caught(taken)) => taken,
        Some(other) => {
            discard(other);
            Caught::All
        }
        None => Caught::All,
    }
}

/// The topmost value, as a catches.
pub fn catches(alloc: Global, values: &mut Stack<Value>) -> Node<Items<Catch>>
    ensures top { result ≡ spec.top_catches values.old }
    ensures rest { values.new ≡ spec.below values.old }
{
    match values.pop() {
        Some(Value::Catches(taken)) => taken,
        Some(other) => {
            discard(other);
            Node {
                tree: Items::new(alloc),
                span: nowhere(),
            }
        }
        None => Node {
            tree: Items::new(alloc),
            span: nowhere(),
        },
    }
}
