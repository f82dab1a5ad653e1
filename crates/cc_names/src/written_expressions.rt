// What the types and namespaces in expressions are refused for (ECMA-372, 15).
ghost use Rattle.std.specs.Prelude.{◌≡◌, map};
ghost use Rattle.std.specs.List.{list_any};
ghost use Rattle.cc_names.specs.Checks.{run, joined};
ghost use Rattle.cc_names.specs.declared.forming.Purpose.TheVariants as Purpose;
ghost use Rattle.cc_names.specs.Outermost as outermost;
ghost use Rattle.cc_names.specs.Mentions as spec;
ghost use Rattle.cc_names.specs.Spaces.{space};

use crate::find_type::Here;
use crate::forming::Purpose;
use crate::paths::is_path;
use crate::refusal::{NameKind, Refusal, refused_if};
use cc_base::Span;
use cc_tree::{Arguments, Expression, Identifier, TypeArguments, TypeName};

/// The place of some names.
fn path_span(names: &[Identifier]) -> Span
    ensures { result ≡ spec.path_span names.now }
{
    match names {
        [] => Span { first: 0, past: 0 },
        [name, ..] => name.span,
    }
}

impl Here<'_> {
    /// Whether there is a namespace of some names from the outermost in.
    fn has_path(&self, names: &[Identifier]) -> bool
        ensures { result ≡ list_any (λ path. outermost.is_path path names.now) (space self.now.space.now).paths }
    {
        for path in self.space.paths.as_slice() {
            if is_path(path.as_slice(), names) {
                return true;
            }
        }
        false
    }

    /// What names of namespaces are refused for.
    pub(crate) fn path(&self, so_far: Option<Refusal>, names: &[Identifier]) -> Option<Refusal>
        ensures { result ≡ run (spec.path_checks (space self.now.space.now) names.now) so_far }
    {
        refused_if(
            so_far,
            !self.has_path(names),
            NameKind::UnknownName,
            path_span(names),
        )
    }

    /// What the namespaces before a name are refused for.
    fn qualifier(&self, so_far: Option<Refusal>, names: &[Identifier]) -> Option<Refusal>
        ensures { result ≡ run (spec.qualifier_checks (space self.now.space.now) names.now) so_far }
    {
        match names {
            [] => so_far,
            [_, ..] => self.path(so_far, names),
        }
    }

    fn types(&self, so_far: Option<Refusal>, types: &[TypeName]) -> Option<Refusal>
        ensures { result ≡ run (joined (map (spec.written (space self.now.space.now) self.now.path.now Purpose.Value) types.now)) so_far }
    {
        let mut first = so_far;
        'types: for of in types {
            first = self.written(first, Purpose::Value, of);
        }
        first
    }

    fn type_arguments(
        &self,
        so_far: Option<Refusal>,
        arguments: &Option<TypeArguments>,
    ) -> Option<Refusal>
        ensures { result ≡ run (spec.optional_of (spec.type_arguments_checks (space self.now.space.now) self.now.path.now) arguments.now) so_far }
    {
        match arguments {
            None => so_far,
            Some(arguments) => self.types(so_far, arguments.types.as_slice()),
        }
    }

    #[cycle(expression)]
    pub(crate) fn expression(
        &self,
        so_far: Option<Refusal>,
        expression: &Expression,
    ) -> Option<Refusal>
        ensures { result ≡ run (spec.expression_checks (space self.now.space.now) self.now.path.now expression.now) so_far }
    {
        match expression {
            Expression::Assign(left, _, right, _)
            | Expression::Binary(left, _, right, _)
            | Expression::Index(left, right, _) => {
                let first = self.expression(so_far, left.get());
                self.expression(first, right.get())
            }
            Expression::Conditional(condition, one, other, _) => {
                let first = self.expression(so_far, condition.get());
                let first = self.expression(first, one.get());
                self.expression(first, other.get())
            }
            Expression::Prefix(_, operand, _)
            | Expression::Postfix(operand, _, _)
            | Expression::Finaliser(operand, _, _, _)
            | Expression::Group(operand, _) => self.expression(so_far, operand.get()),
            Expression::Cast(of, operand, _) | Expression::NamedCast(_, of, operand, _) => {
                let first = self.written(so_far, Purpose::Value, of);
                self.expression(first, operand.get())
            }
            Expression::Call(function, arguments, _) => {
                let first = self.expression(so_far, function.get());
                self.call_arguments(first, arguments)
            }
            Expression::Member(object, _, _, types, _) => {
                let first = self.expression(so_far, object.get());
                self.type_arguments(first, types)
            }
            Expression::Number(_, _, _, _)
            | Expression::Character(_, _)
            | Expression::Strings(_, _)
            | Expression::True(_)
            | Expression::False(_)
            | Expression::Nullptr(_)
            | Expression::This(_) => so_far,
            Expression::Name(names, _, types, _) => {
                let first = self.qualifier(so_far, names.as_slice());
                self.type_arguments(first, types)
            }
            Expression::StaticMember(of, _, _) => self.written(so_far, Purpose::NamedOnly, of),
            Expression::Construct(of, arguments, _) => {
                let first = self.written(so_far, Purpose::Value, of);
                self.call_arguments(first, arguments)
            }
            Expression::New(of, arguments, elements, _) => {
                let first = self.written(so_far, Purpose::NamedOnly, of);
                let first = self.optional_arguments(first, arguments);
                self.optional_arguments(first, elements)
            }
        }
    }

    #[cycle(expression)]
    pub(crate) fn expressions(
        &self,
        so_far: Option<Refusal>,
        expressions: &[Expression],
    ) -> Option<Refusal>
        ensures { result ≡ run (joined (map (spec.expression_checks (space self.now.space.now) self.now.path.now) expressions.now)) so_far }
    {
        let mut first = so_far;
        'expressions: for expression in expressions {
            first = self.expression(first, expression);
        }
        first
    }

    #[cycle(expression)]
    pub(crate) fn call_arguments(
        &self,
        so_far: Option<Refusal>,
        arguments: &Arguments,
    ) -> Option<Refusal>
        ensures { result ≡ run (spec.arguments_checks (space self.now.space.now) self.now.path.now arguments.now) so_far }
    {
        self.expressions(so_far, arguments.items.as_slice())
    }

    #[cycle(expression)]
    fn optional_arguments(
        &self,
        so_far: Option<Refusal>,
        arguments: &Option<Arguments>,
    ) -> Option<Refusal>
        ensures { result ≡ run (spec.optional_of (spec.arguments_checks (space self.now.space.now) self.now.path.now) arguments.now) so_far }
    {
        match arguments {
            None => so_far,
            Some(arguments) => self.call_arguments(so_far, arguments),
        }
    }

    pub(crate) fn optional_expression(
        &self,
        so_far: Option<Refusal>,
        expression: &Option<Expression>,
    ) -> Option<Refusal>
        ensures { result ≡ run (spec.optional_of (spec.expression_checks (space self.now.space.now) self.now.path.now) expression.now) so_far }
    {
        match expression {
            None => so_far,
            Some(expression) => self.expression(so_far, expression),
        }
    }
}
