// The places of nodes.
ghost use Rattle.std.specs.Prelude.{◌≡◌};
ghost use Rattle.cc_tree.specs.declared.statement.Statement.{out-Statement};
ghost use Rattle.cc_tree.specs.declared.type_name.TypeName.{out-TypeName};
ghost use Rattle.cc_straight.specs.Form as form;

use cc_base::Span;
use cc_tree::{Expression, Outer, Statement, Template, TypeName};

pub fn expression_span(expression: &Expression) -> Span
    ensures { result ≡ form.expression_span expression.now }
{
    match expression {
        Expression::Assign(_, _, _, span) => *span,
        Expression::Conditional(_, _, _, span) => *span,
        Expression::Binary(_, _, _, span) => *span,
        Expression::Prefix(_, _, span) => *span,
        Expression::Cast(_, _, span) => *span,
        Expression::Index(_, _, span) => *span,
        Expression::Call(_, _, span) => *span,
        Expression::Member(_, _, _, _, span) => *span,
        Expression::Finaliser(_, _, _, span) => *span,
        Expression::Postfix(_, _, span) => *span,
        Expression::Number(_, _, _, span) => *span,
        Expression::Character(_, span) => *span,
        Expression::Strings(_, span) => *span,
        Expression::True(span) => *span,
        Expression::False(span) => *span,
        Expression::Nullptr(span) => *span,
        Expression::This(span) => *span,
        Expression::Group(_, span) => *span,
        Expression::Name(_, _, _, span) => *span,
        Expression::StaticMember(_, _, span) => *span,
        Expression::Construct(_, _, span) => *span,
        Expression::New(_, _, _, span) => *span,
        Expression::NamedCast(_, _, _, span) => *span,
    }
}

pub fn statement_span(statement: &Statement) -> Span
    ensures { result ≡ form.statement_span (out-Statement statement.now) }
{
    match statement {
        Statement::Block(block) => block.span,
        Statement::Empty(span) => *span,
        Statement::Local(_, span) => *span,
        Statement::Expression(_, span) => *span,
        Statement::Delete(_, span) => *span,
        Statement::If(_, _, _, span) => *span,
        Statement::While(_, _, span) => *span,
        Statement::Do(_, _, span) => *span,
        Statement::For(_, _, _, _, span) => *span,
        Statement::ForEach(_, _, _, _, span) => *span,
        Statement::Switch(_, _, span) => *span,
        Statement::Break(span) => *span,
        Statement::Continue(span) => *span,
        Statement::Return(_, span) => *span,
        Statement::Throw(_, span) => *span,
        Statement::Try(_, _, _, span) => *span,
    }
}

pub fn type_span(of: &TypeName) -> Span
    ensures { result ≡ form.type_layer_span (out-TypeName of.now) }
{
    match of {
        TypeName::Fundamental(_, span) => *span,
        TypeName::Named(_, _, _, span) => *span,
        TypeName::Marked(_, _, _, span) => *span,
    }
}

fn template_span(template: &Template) -> Span
    ensures { result ≡ form.template_span template.now }
{
    match template {
        Template::Class(_, _, span) => *span,
        Template::Function(_, _, span) => *span,
    }
}

pub fn outer_span(outer: &Outer) -> Span
    ensures { result ≡ form.outer_span outer.now }
{
    match outer {
        Outer::Using(_, span) => *span,
        Outer::Namespace(_, _, span) => *span,
        Outer::Class(class) => class.span,
        Outer::Enumeration(enumeration) => enumeration.span,
        Outer::VisibleClass(_, _, span) => *span,
        Outer::VisibleEnumeration(_, _, span) => *span,
        Outer::Forward(_, _, span) => *span,
        Outer::Template(template) => template_span(template),
        Outer::Function(function) => function.span,
    }
}
