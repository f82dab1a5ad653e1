// Expressions made of the parts that were read.
ghost use Rattle.std.specs.Prelude.{◌≡◌, ◌∷◌, List, IfOk};
ghost use Rattle.cc_pushdown.specs.Build.{build};
ghost use Rattle.cc_table.specs.declared.symbols.Action.TheVariants as action;

use cc_build::parts::{across, added, boxed, grown, list_span, nowhere, qualified_span};
use cc_build::words::{assignment_of, cast_of, postfix_of, prefix_of, selector_of};
use cc_build::{Node, Stack, Value, take};
use cc_tree::{Arguments, Expression, TypeArguments};
use sqlite_items::{Boxed, Items};
use std::alloc::{AllocError, Global};

/// `Action::MakeAssignment`.
pub fn make_assignment(alloc: Global, values: &mut Stack<Value>) -> Result<Value, AllocError>
    ensures { IfOk result (λ v. v ∷ values.new ≡ build action.MakeAssignment values.old) }
{
    let right = take::expression(values);
    let sign = take::mark(values);
    let left = take::expression(values);
    let span = across(left.span, right.span);
    Ok(Value::Expression(Node {
        tree: Expression::Assign(
            boxed(alloc, left.tree)?,
            assignment_of(sign.terminal),
            boxed(alloc, right.tree)?,
            span,
        ),
        span,
    }))
}

/// `Action::MakeConditional`.
pub fn make_conditional(alloc: Global, values: &mut Stack<Value>) -> Result<Value, AllocError>
    ensures { IfOk result (λ v. v ∷ values.new ≡ build action.MakeConditional values.old) }
{
    let other = take::expression(values);
    let chosen = take::expression(values);
    let condition = take::expression(values);
    let span = across(condition.span, other.span);
    let (chosen, other) = both(alloc, chosen.tree, other.tree)?;
    Ok(Value::Expression(Node {
        tree: Expression::Conditional(boxed(alloc, condition.tree)?, chosen, other, span),
        span,
    }))
}

fn both(
    alloc: Global,
    first: Expression,
    second: Expression,
) -> Result<(Boxed<Expression>, Boxed<Expression>), AllocError>
    ensures { IfOk result (λ made. (made.0 ≡ first) × (made.1 ≡ second)) }
{
    let first = boxed(alloc, first)?;
    Ok((first, boxed(alloc, second)?))
}

/// `Action::MakeBinary`.
pub fn make_binary(alloc: Global, values: &mut Stack<Value>) -> Result<Value, AllocError>
    ensures { IfOk result (λ v. v ∷ values.new ≡ build action.MakeBinary values.old) }
{
    let right = take::expression(values);
    let operator = take::operator(values);
    let left = take::expression(values);
    let span = across(left.span, right.span);
    Ok(Value::Expression(Node {
        tree: Expression::Binary(
            boxed(alloc, left.tree)?,
            operator,
            boxed(alloc, right.tree)?,
            span,
        ),
        span,
    }))
}

/// `Action::MakePrefix`.
pub fn make_prefix(alloc: Global, values: &mut Stack<Value>) -> Result<Value, AllocError>
    ensures { IfOk result (λ v. v ∷ values.new ≡ build action.MakePrefix values.old) }
{
    let x = take::expression(values);
    let sign = take::mark(values);
    let span = across(sign.span, x.span);
    Ok(Value::Expression(Node {
        tree: Expression::Prefix(prefix_of(sign.terminal), boxed(alloc, x.tree)?, span),
        span,
    }))
}

/// `Action::MakeCast`.
pub fn make_cast(alloc: Global, values: &mut Stack<Value>) -> Result<Value, AllocError>
    ensures { IfOk result (λ v. v ∷ values.new ≡ build action.MakeCast values.old) }
{
    let x = take::expression(values);
    let of = take::type_name(values);
    let open = take::mark(values);
    let span = across(open.span, x.span);
    Ok(Value::Expression(Node {
        tree: Expression::Cast(of.tree, boxed(alloc, x.tree)?, span),
        span,
    }))
}

/// `Action::MakeIndex`.
pub fn make_index(alloc: Global, values: &mut Stack<Value>) -> Result<Value, AllocError>
    ensures { IfOk result (λ v. v ∷ values.new ≡ build action.MakeIndex values.old) }
{
    let close = take::mark(values);
    let index = take::expression(values);
    let x = take::expression(values);
    let span = across(x.span, close.span);
    Ok(Value::Expression(Node {
        tree: Expression::Index(boxed(alloc, x.tree)?, boxed(alloc, index.tree)?, span),
        span,
    }))
}

/// `Action::MakeCall`.
pub fn make_call(alloc: Global, values: &mut Stack<Value>) -> Result<Value, AllocError>
    ensures { IfOk result (λ v. v ∷ values.new ≡ build action.MakeCall values.old) }
{
    let close = take::mark(values);
    let given = take::arguments(alloc, values);
    let x = take::expression(values);
    let span = across(x.span, close.span);
    Ok(Value::Expression(Node {
        tree: Expression::Call(boxed(alloc, x.tree)?, given, span),
        span,
    }))
}

/// `Action::MakeMember`.
pub fn make_member(alloc: Global, values: &mut Stack<Value>) -> Result<Value, AllocError>
    ensures { IfOk result (λ v. v ∷ values.new ≡ build action.MakeMember values.old) }
{
    let name = take::name(alloc, values);
    let sign = take::mark(values);
    let x = take::expression(values);
    let span = across(x.span, name.identifier.span);
    Ok(Value::Expression(Node {
        tree: Expression::Member(
            boxed(alloc, x.tree)?,
            selector_of(sign.terminal),
            name.identifier,
            None,
            span,
        ),
        span,
    }))
}

/// `Action::MakeMemberOf`.
pub fn make_member_of(alloc: Global, values: &mut Stack<Value>) -> Result<Value, AllocError>
    ensures { IfOk result (λ v. v ∷ values.new ≡ build action.MakeMemberOf values.old) }
{
    let types = take::type_arguments(alloc, values);
    let name = take::name(alloc, values);
    let sign = take::mark(values);
    let x = take::expression(values);
    let span = across(x.span, types.span);
    Ok(Value::Expression(Node {
        tree: Expression::Member(
            boxed(alloc, x.tree)?,
            selector_of(sign.terminal),
            name.identifier,
            Some(types),
            span,
        ),
        span,
    }))
}

/// `Action::MakeFinaliserName`.
pub fn make_finaliser_name(alloc: Global, values: &mut Stack<Value>) -> Result<Value, AllocError>
    ensures { IfOk result (λ v. v ∷ values.new ≡ build action.MakeFinaliserName values.old) }
{
    let name = take::name(alloc, values);
    let sign = take::mark(values);
    let x = take::expression(values);
    let span = across(x.span, name.identifier.span);
    Ok(Value::Expression(Node {
        tree: Expression::Finaliser(
            boxed(alloc, x.tree)?,
            selector_of(sign.terminal),
            name.identifier,
            span,
        ),
        span,
    }))
}

/// `Action::MakePostfix`.
pub fn make_postfix(alloc: Global, values: &mut Stack<Value>) -> Result<Value, AllocError>
    ensures { IfOk result (λ v. v ∷ values.new ≡ build action.MakePostfix values.old) }
{
    let sign = take::mark(values);
    let x = take::expression(values);
    let span = across(x.span, sign.span);
    Ok(Value::Expression(Node {
        tree: Expression::Postfix(boxed(alloc, x.tree)?, postfix_of(sign.terminal), span),
        span,
    }))
}

/// `Action::MakeNumber`.
pub fn make_number(values: &mut Stack<Value>) -> Value
    ensures { result ∷ values.new ≡ build action.MakeNumber values.old }
{
    let number = take::number(values);
    let span = number.span;
    Value::Expression(Node {
        tree: Expression::Number(number.value, number.suffix, number.radix, span),
        span,
    })
}

/// `Action::MakeCharacter`.
pub fn make_character(values: &mut Stack<Value>) -> Value
    ensures { result ∷ values.new ≡ build action.MakeCharacter values.old }
{
    let unit = take::character(values);
    let span = unit.span;
    Value::Expression(Node {
        tree: Expression::Character(unit.tree, span),
        span,
    })
}

/// `Action::StartTexts`.
pub fn start_texts(alloc: Global, values: &mut Stack<Value>) -> Result<Value, AllocError>
    ensures { IfOk result (λ v. v ∷ values.new ≡ build action.StartTexts values.old) }
{
    let text = take::literal(alloc, values);
    let span = text.span;
    Ok(Value::Texts(Node {
        tree: added(Items::new(alloc), text.tree)?,
        span,
    }))
}

/// `Action::AddText`.
pub fn add_text(alloc: Global, values: &mut Stack<Value>) -> Result<Value, AllocError>
    ensures { IfOk result (λ v. v ∷ values.new ≡ build action.AddText values.old) }
{
    let text = take::literal(alloc, values);
    let texts = take::texts(alloc, values);
    let span = across(texts.span, text.span);
    Ok(Value::Texts(Node {
        tree: added(texts.tree, text.tree)?,
        span,
    }))
}

/// `Action::MakeStrings`.
pub fn make_strings(alloc: Global, values: &mut Stack<Value>) -> Value
    ensures { result ∷ values.new ≡ build action.MakeStrings values.old }
{
    let texts = take::texts(alloc, values);
    let span = texts.span;
    Value::Expression(Node {
        tree: Expression::Strings(texts.tree, span),
        span,
    })
}

/// `Action::MakeTrue`.
pub fn make_true(values: &mut Stack<Value>) -> Value
    ensures { result ∷ values.new ≡ build action.MakeTrue values.old }
{
    let word = take::mark(values);
    let span = word.span;
    Value::Expression(Node {
        tree: Expression::True(span),
        span,
    })
}

/// `Action::MakeFalse`.
pub fn make_false(values: &mut Stack<Value>) -> Value
    ensures { result ∷ values.new ≡ build action.MakeFalse values.old }
{
    let word = take::mark(values);
    let span = word.span;
    Value::Expression(Node {
        tree: Expression::False(span),
        span,
    })
}

/// `Action::MakeNullptr`.
pub fn make_nullptr(values: &mut Stack<Value>) -> Value
    ensures { result ∷ values.new ≡ build action.MakeNullptr values.old }
{
    let word = take::mark(values);
    let span = word.span;
    Value::Expression(Node {
        tree: Expression::Nullptr(span),
        span,
    })
}

/// `Action::MakeThis`.
pub fn make_this(values: &mut Stack<Value>) -> Value
    ensures { result ∷ values.new ≡ build action.MakeThis values.old }
{
    let word = take::mark(values);
    let span = word.span;
    Value::Expression(Node {
        tree: Expression::This(span),
        span,
    })
}

/// `Action::StartExpressions`.
pub fn start_expressions(alloc: Global) -> Value
    ensures { (vs : List Value) → result ∷ vs ≡ build action.StartExpressions vs }
{
    let span = nowhere();
    Value::Expressions(Node {
        tree: Items::new(alloc),
        span,
    })
}

/// `Action::AddExpression`.
pub fn add_expression(alloc: Global, values: &mut Stack<Value>) -> Result<Value, AllocError>
    ensures { IfOk result (λ v. v ∷ values.new ≡ build action.AddExpression values.old) }
{
    let x = take::expression(values);
    let list = take::expressions(alloc, values);
    let span = grown(&list, x.span);
    Ok(Value::Expressions(Node {
        tree: added(list.tree, x.tree)?,
        span,
    }))
}

/// `Action::MakeArguments`.
pub fn make_arguments(alloc: Global, values: &mut Stack<Value>) -> Value
    ensures { result ∷ values.new ≡ build action.MakeArguments values.old }
{
    let list = take::expressions(alloc, values);
    let open = take::mark(values);
    Value::Arguments(Arguments {
        span: list_span(&list, open.span),
        items: list.tree,
    })
}

/// `Action::MakeTypeArguments`.
pub fn make_type_arguments(alloc: Global, values: &mut Stack<Value>) -> Value
    ensures { result ∷ values.new ≡ build action.MakeTypeArguments values.old }
{
    let greater = take::mark(values);
    let types = take::types(alloc, values);
    let less = take::mark(values);
    Value::TypeArguments(TypeArguments {
        types: types,
        span: across(less.span, greater.span),
    })
}

/// `Action::MakeGroup`.
pub fn make_group(alloc: Global, values: &mut Stack<Value>) -> Result<Value, AllocError>
    ensures { IfOk result (λ v. v ∷ values.new ≡ build action.MakeGroup values.old) }
{
    let close = take::mark(values);
    let x = take::expression(values);
    let open = take::mark(values);
    let span = across(open.span, close.span);
    Ok(Value::Expression(Node {
        tree: Expression::Group(boxed(alloc, x.tree)?, span),
        span,
    }))
}

/// `Action::MakeName`.
pub fn make_name(alloc: Global, values: &mut Stack<Value>) -> Value
    ensures { result ∷ values.new ≡ build action.MakeName values.old }
{
    let name = take::qualified(alloc, values);
    let span = qualified_span(&name.path, &name.name);
    Value::Expression(Node {
        tree: Expression::Name(name.path, name.name, None, span),
        span,
    })
}

/// `Action::MakeNameOf`.
pub fn make_name_of(alloc: Global, values: &mut Stack<Value>) -> Value
    ensures { result ∷ values.new ≡ build action.MakeNameOf values.old }
{
    let types = take::type_arguments(alloc, values);
    let name = take::qualified(alloc, values);
    let span = across(qualified_span(&name.path, &name.name), types.span);
    Value::Expression(Node {
        tree: Expression::Name(name.path, name.name, Some(types), span),
        span,
    })
}

/// `Action::MakeStaticMember`.
pub fn make_static_member(alloc: Global, values: &mut Stack<Value>) -> Value
    ensures { result ∷ values.new ≡ build action.MakeStaticMember values.old }
{
    let name = take::name(alloc, values);
    let of = take::type_name(values);
    let span = across(of.span, name.identifier.span);
    Value::Expression(Node {
        tree: Expression::StaticMember(of.tree, name.identifier, span),
        span,
    })
}

/// `Action::MakeConstruct`.
pub fn make_construct(alloc: Global, values: &mut Stack<Value>) -> Value
    ensures { result ∷ values.new ≡ build action.MakeConstruct values.old }
{
    let close = take::mark(values);
    let given = take::arguments(alloc, values);
    let of = take::type_name(values);
    let span = across(of.span, close.span);
    Value::Expression(Node {
        tree: Expression::Construct(of.tree, given, span),
        span,
    })
}

/// `Action::MakeNew`.
pub fn make_new(values: &mut Stack<Value>) -> Value
    ensures { result ∷ values.new ≡ build action.MakeNew values.old }
{
    let of = take::type_name(values);
    let gcnew = take::mark(values);
    let span = across(gcnew.span, of.span);
    Value::Expression(Node {
        tree: Expression::New(of.tree, None, None, span),
        span,
    })
}

/// `Action::MakeNewWith`.
pub fn make_new_with(alloc: Global, values: &mut Stack<Value>) -> Value
    ensures { result ∷ values.new ≡ build action.MakeNewWith values.old }
{
    let close = take::mark(values);
    let given = take::arguments(alloc, values);
    let of = take::type_name(values);
    let gcnew = take::mark(values);
    let span = across(gcnew.span, close.span);
    Value::Expression(Node {
        tree: Expression::New(of.tree, Some(given), None, span),
        span,
    })
}

/// `Action::MakeNewOf`.
pub fn make_new_of(alloc: Global, values: &mut Stack<Value>) -> Value
    ensures { result ∷ values.new ≡ build action.MakeNewOf values.old }
{
    let close = take::mark(values);
    let elements = take::arguments(alloc, values);
    let of = take::type_name(values);
    let gcnew = take::mark(values);
    let span = across(gcnew.span, close.span);
    Value::Expression(Node {
        tree: Expression::New(of.tree, None, Some(elements), span),
        span,
    })
}

/// `Action::MakeNewWithOf`.
pub fn make_new_with_of(alloc: Global, values: &mut Stack<Value>) -> Value
    ensures { result ∷ values.new ≡ build action.MakeNewWithOf values.old }
{
    let close = take::mark(values);
    let elements = take::arguments(alloc, values);
    let _middle = take::mark(values);
    let given = take::arguments(alloc, values);
    let of = take::type_name(values);
    let gcnew = take::mark(values);
    let span = across(gcnew.span, close.span);
    Value::Expression(Node {
        tree: Expression::New(of.tree, Some(given), Some(elements), span),
        span,
    })
}

/// `Action::MakeNamedCast`.
pub fn make_named_cast(alloc: Global, values: &mut Stack<Value>) -> Result<Value, AllocError>
    ensures { IfOk result (λ v. v ∷ values.new ≡ build action.MakeNamedCast values.old) }
{
    let close = take::mark(values);
    let x = take::expression(values);
    let of = take::type_name(values);
    let word = take::mark(values);
    let span = across(word.span, close.span);
    Ok(Value::Expression(Node {
        tree: Expression::NamedCast(cast_of(word.terminal), of.tree, boxed(alloc, x.tree)?, span),
        span,
    }))
}
