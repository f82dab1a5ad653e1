// Statements made of the parts that were read.
ghost use Rattle.std.specs.Prelude.{◌≡◌, ◌∷◌, List, IfOk};
ghost use Rattle.cc_pushdown.specs.Build.{build};
ghost use Rattle.cc_table.specs.declared.symbols.Action.TheVariants as action;

use cc_build::parts::{across, added, boxed, nowhere};
use cc_build::{Node, Stack, Value, take};
use cc_tree::{
    Block, Catch, Caught, Declarator, ForStart, Initializer, Label, Local, Section, Statement,
};
use sqlite_items::Items;
use std::alloc::{AllocError, Global};

/// `Action::StartStatements`.
pub fn start_statements(alloc: Global) -> Value
    ensures { (vs : List Value) → result ∷ vs ≡ build action.StartStatements vs }
{
    Value::Statements(Items::new(alloc))
}

/// `Action::AddStatement`.
pub fn add_statement(alloc: Global, values: &mut Stack<Value>) -> Result<Value, AllocError>
    ensures { IfOk result (λ v. v ∷ values.new ≡ build action.AddStatement values.old) }
{
    let statement = take::statement(values);
    let list = take::statements(alloc, values);
    Ok(Value::Statements(added(list, statement.tree)?))
}

/// `Action::MakeBlock`.
pub fn make_block(alloc: Global, values: &mut Stack<Value>) -> Value
    ensures { result ∷ values.new ≡ build action.MakeBlock values.old }
{
    let close = take::mark(values);
    let list = take::statements(alloc, values);
    let open = take::mark(values);
    let span = across(open.span, close.span);
    Value::Block(Node {
        tree: Block {
            statements: list,
            span: span,
        },
        span,
    })
}

/// `Action::MakeBlockStatement`.
pub fn make_block_statement(alloc: Global, values: &mut Stack<Value>) -> Value
    ensures { result ∷ values.new ≡ build action.MakeBlockStatement values.old }
{
    let block = take::block(alloc, values);
    let span = block.span;
    Value::Statement(Node {
        tree: Statement::Block(block.tree),
        span,
    })
}

/// `Action::MakeEmpty`.
pub fn make_empty(values: &mut Stack<Value>) -> Value
    ensures { result ∷ values.new ≡ build action.MakeEmpty values.old }
{
    let semicolon = take::mark(values);
    let span = semicolon.span;
    Value::Statement(Node {
        tree: Statement::Empty(span),
        span,
    })
}

/// `Action::MakeExpressionStatement`.
pub fn make_expression_statement(values: &mut Stack<Value>) -> Value
    ensures { result ∷ values.new ≡ build action.MakeExpressionStatement values.old }
{
    let semicolon = take::mark(values);
    let x = take::expression(values);
    let span = across(x.span, semicolon.span);
    Value::Statement(Node {
        tree: Statement::Expression(x.tree, span),
        span,
    })
}

/// `Action::MakeDelete`.
pub fn make_delete(values: &mut Stack<Value>) -> Value
    ensures { result ∷ values.new ≡ build action.MakeDelete values.old }
{
    let semicolon = take::mark(values);
    let x = take::expression(values);
    let word = take::mark(values);
    let span = across(word.span, semicolon.span);
    Value::Statement(Node {
        tree: Statement::Delete(x.tree, span),
        span,
    })
}

/// `Action::MakeBreak`.
pub fn make_break(values: &mut Stack<Value>) -> Value
    ensures { result ∷ values.new ≡ build action.MakeBreak values.old }
{
    let semicolon = take::mark(values);
    let word = take::mark(values);
    let span = across(word.span, semicolon.span);
    Value::Statement(Node {
        tree: Statement::Break(span),
        span,
    })
}

/// `Action::MakeContinue`.
pub fn make_continue(values: &mut Stack<Value>) -> Value
    ensures { result ∷ values.new ≡ build action.MakeContinue values.old }
{
    let semicolon = take::mark(values);
    let word = take::mark(values);
    let span = across(word.span, semicolon.span);
    Value::Statement(Node {
        tree: Statement::Continue(span),
        span,
    })
}

/// `Action::MakeReturn`.
pub fn make_return(values: &mut Stack<Value>) -> Value
    ensures { result ∷ values.new ≡ build action.MakeReturn values.old }
{
    let x = take::optional(values);
    let word = take::mark(values);
    let span = across(word.span, x.span);
    Value::Statement(Node {
        tree: Statement::Return(x.tree, span),
        span,
    })
}

/// `Action::MakeThrow`.
pub fn make_throw(values: &mut Stack<Value>) -> Value
    ensures { result ∷ values.new ≡ build action.MakeThrow values.old }
{
    let x = take::optional(values);
    let word = take::mark(values);
    let span = across(word.span, x.span);
    Value::Statement(Node {
        tree: Statement::Throw(x.tree, span),
        span,
    })
}

/// `Action::NoExpression`.
pub fn no_expression(values: &mut Stack<Value>) -> Value
    ensures { result ∷ values.new ≡ build action.NoExpression values.old }
{
    let sign = take::mark(values);
    let span = sign.span;
    Value::Optional(Node { tree: None, span })
}

/// `Action::SomeExpression`.
pub fn some_expression(values: &mut Stack<Value>) -> Value
    ensures { result ∷ values.new ≡ build action.SomeExpression values.old }
{
    let sign = take::mark(values);
    let x = take::expression(values);
    let span = sign.span;
    Value::Optional(Node {
        tree: Some(x.tree),
        span,
    })
}

/// `Action::MakeIf`.
pub fn make_if(alloc: Global, values: &mut Stack<Value>) -> Result<Value, AllocError>
    ensures { IfOk result (λ v. v ∷ values.new ≡ build action.MakeIf values.old) }
{
    let chosen = take::statement(values);
    let x = take::expression(values);
    let word = take::mark(values);
    let span = across(word.span, chosen.span);
    Ok(Value::Statement(Node {
        tree: Statement::If(x.tree, boxed(alloc, chosen.tree)?, None, span),
        span,
    }))
}

/// `Action::MakeIfElse`.
pub fn make_if_else(alloc: Global, values: &mut Stack<Value>) -> Result<Value, AllocError>
    ensures { IfOk result (λ v. v ∷ values.new ≡ build action.MakeIfElse values.old) }
{
    let other = take::statement(values);
    let chosen = take::statement(values);
    let x = take::expression(values);
    let word = take::mark(values);
    let span = across(word.span, other.span);
    Ok(Value::Statement(Node {
        tree: Statement::If(
            x.tree,
            boxed(alloc, chosen.tree)?,
            Some(boxed(alloc, other.tree)?),
            span,
        ),
        span,
    }))
}

/// `Action::StartSections`.
pub fn start_sections(alloc: Global) -> Value
    ensures { (vs : List Value) → result ∷ vs ≡ build action.StartSections vs }
{
    Value::Sections(Items::new(alloc))
}

/// `Action::StartLabels`.
pub fn start_labels(alloc: Global) -> Value
    ensures { (vs : List Value) → result ∷ vs ≡ build action.StartLabels vs }
{
    Value::Labels(Items::new(alloc))
}

/// `Action::AddLabel`.
pub fn add_label(alloc: Global, values: &mut Stack<Value>) -> Result<Value, AllocError>
    ensures { IfOk result (λ v. v ∷ values.new ≡ build action.AddLabel values.old) }
{
    let label = take::label(values);
    let list = take::labels(alloc, values);
    Ok(Value::Labels(added(list, label)?))
}

/// `Action::AddSection`.
pub fn add_section(alloc: Global, values: &mut Stack<Value>) -> Result<Value, AllocError>
    ensures { IfOk result (λ v. v ∷ values.new ≡ build action.AddSection values.old) }
{
    let list = take::statements(alloc, values);
    let labels = take::labels(alloc, values);
    let sections = take::sections(alloc, values);
    Ok(Value::Sections(added(
        sections,
        Section {
            labels: labels,
            statements: list,
        },
    )?))
}

/// `Action::MakeSwitch`.
pub fn make_switch(alloc: Global, values: &mut Stack<Value>) -> Value
    ensures { result ∷ values.new ≡ build action.MakeSwitch values.old }
{
    let close = take::mark(values);
    let sections = take::sections(alloc, values);
    let x = take::expression(values);
    let word = take::mark(values);
    let span = across(word.span, close.span);
    Value::Statement(Node {
        tree: Statement::Switch(x.tree, sections, span),
        span,
    })
}

/// `Action::MakeCase`.
pub fn make_case(values: &mut Stack<Value>) -> Value
    ensures { result ∷ values.new ≡ build action.MakeCase values.old }
{
    let colon = take::mark(values);
    let x = take::expression(values);
    let word = take::mark(values);
    Value::Label(Label::Case(x.tree, across(word.span, colon.span)))
}

/// `Action::MakeDefault`.
pub fn make_default(values: &mut Stack<Value>) -> Value
    ensures { result ∷ values.new ≡ build action.MakeDefault values.old }
{
    let colon = take::mark(values);
    let word = take::mark(values);
    Value::Label(Label::Default(across(word.span, colon.span)))
}

/// `Action::MakeWhile`.
pub fn make_while(alloc: Global, values: &mut Stack<Value>) -> Result<Value, AllocError>
    ensures { IfOk result (λ v. v ∷ values.new ≡ build action.MakeWhile values.old) }
{
    let body = take::statement(values);
    let x = take::expression(values);
    let word = take::mark(values);
    let span = across(word.span, body.span);
    Ok(Value::Statement(Node {
        tree: Statement::While(x.tree, boxed(alloc, body.tree)?, span),
        span,
    }))
}

/// `Action::MakeDo`.
pub fn make_do(alloc: Global, values: &mut Stack<Value>) -> Result<Value, AllocError>
    ensures { IfOk result (λ v. v ∷ values.new ≡ build action.MakeDo values.old) }
{
    let semicolon = take::mark(values);
    let x = take::expression(values);
    let body = take::statement(values);
    let word = take::mark(values);
    let span = across(word.span, semicolon.span);
    Ok(Value::Statement(Node {
        tree: Statement::Do(boxed(alloc, body.tree)?, x.tree, span),
        span,
    }))
}

/// `Action::StartNothing`.
pub fn start_nothing() -> Value
    ensures { (vs : List Value) → result ∷ vs ≡ build action.StartNothing vs }
{
    Value::ForStart(ForStart::Nothing)
}

/// `Action::StartLocal`.
pub fn start_local(alloc: Global, values: &mut Stack<Value>) -> Value
    ensures { result ∷ values.new ≡ build action.StartLocal values.old }
{
    let local = take::local(alloc, values);
    Value::ForStart(ForStart::Local(local))
}

/// `Action::StartExpression`.
pub fn start_expression(values: &mut Stack<Value>) -> Value
    ensures { result ∷ values.new ≡ build action.StartExpression values.old }
{
    let x = take::expression(values);
    Value::ForStart(ForStart::Expression(x.tree))
}

/// `Action::MakeFor`.
pub fn make_for(alloc: Global, values: &mut Stack<Value>) -> Result<Value, AllocError>
    ensures { IfOk result (λ v. v ∷ values.new ≡ build action.MakeFor values.old) }
{
    let body = take::statement(values);
    let advance = take::optional(values);
    let condition = take::optional(values);
    let start = take::for_start(values);
    let word = take::mark(values);
    let span = across(word.span, body.span);
    Ok(Value::Statement(Node {
        tree: Statement::For(
            start,
            condition.tree,
            advance.tree,
            boxed(alloc, body.tree)?,
            span,
        ),
        span,
    }))
}

/// `Action::MakeForEach`.
pub fn make_for_each(alloc: Global, values: &mut Stack<Value>) -> Result<Value, AllocError>
    ensures { IfOk result (λ v. v ∷ values.new ≡ build action.MakeForEach values.old) }
{
    let body = take::statement(values);
    let x = take::expression(values);
    let name = take::name(alloc, values);
    let of = take::type_name(values);
    let word = take::mark(values);
    let span = across(word.span, body.span);
    Ok(Value::Statement(Node {
        tree: Statement::ForEach(
            of.tree,
            name.identifier,
            x.tree,
            boxed(alloc, body.tree)?,
            span,
        ),
        span,
    }))
}

/// `Action::StartCatches`.
pub fn start_catches(alloc: Global) -> Value
    ensures { (vs : List Value) → result ∷ vs ≡ build action.StartCatches vs }
{
    let span = nowhere();
    Value::Catches(Node {
        tree: Items::new(alloc),
        span,
    })
}

/// `Action::CatchAll`.
pub fn catch_all(values: &mut Stack<Value>) -> Value
    ensures { result ∷ values.new ≡ build action.CatchAll values.old }
{
    let _ellipsis = take::mark(values);
    Value::Caught(Caught::All)
}

/// `Action::CatchTyped`.
pub fn catch_typed(values: &mut Stack<Value>) -> Value
    ensures { result ∷ values.new ≡ build action.CatchTyped values.old }
{
    let of = take::type_name(values);
    Value::Caught(Caught::Typed(of.tree, None))
}

/// `Action::CatchNamed`.
pub fn catch_named(alloc: Global, values: &mut Stack<Value>) -> Value
    ensures { result ∷ values.new ≡ build action.CatchNamed values.old }
{
    let name = take::name(alloc, values);
    let of = take::type_name(values);
    Value::Caught(Caught::Typed(of.tree, Some(name.identifier)))
}

/// `Action::AddCatch`.
pub fn add_catch(alloc: Global, values: &mut Stack<Value>) -> Result<Value, AllocError>
    ensures { IfOk result (λ v. v ∷ values.new ≡ build action.AddCatch values.old) }
{
    let block = take::block(alloc, values);
    let caught = take::caught(values);
    let catches = take::catches(alloc, values);
    let span = block.span;
    Ok(Value::Catches(Node {
        tree: added(
            catches.tree,
            Catch {
                caught: caught,
                block: block.tree,
            },
        )?,
        span,
    }))
}

/// `Action::MakeTry`.
pub fn make_try(alloc: Global, values: &mut Stack<Value>) -> Value
    ensures { result ∷ values.new ≡ build action.MakeTry values.old }
{
    let catches = take::catches(alloc, values);
    let block = take::block(alloc, values);
    let word = take::mark(values);
    let span = across(word.span, catches.span);
    Value::Statement(Node {
        tree: Statement::Try(block.tree, catches.tree, None, span),
        span,
    })
}

/// `Action::MakeTryFinally`.
pub fn make_try_finally(alloc: Global, values: &mut Stack<Value>) -> Value
    ensures { result ∷ values.new ≡ build action.MakeTryFinally values.old }
{
    let last = take::block(alloc, values);
    let catches = take::catches(alloc, values);
    let block = take::block(alloc, values);
    let word = take::mark(values);
    let span = across(word.span, last.span);
    Value::Statement(Node {
        tree: Statement::Try(block.tree, catches.tree, Some(last.tree), span),
        span,
    })
}

/// `Action::StartDeclarators`.
pub fn start_declarators(alloc: Global) -> Value
    ensures { (vs : List Value) → result ∷ vs ≡ build action.StartDeclarators vs }
{
    let span = nowhere();
    Value::Declarators(Node {
        tree: Items::new(alloc),
        span,
    })
}

/// `Action::AddDeclarator`.
pub fn add_declarator(alloc: Global, values: &mut Stack<Value>) -> Result<Value, AllocError>
    ensures { IfOk result (λ v. v ∷ values.new ≡ build action.AddDeclarator values.old) }
{
    let one = take::declarator(alloc, values);
    let list = take::declarators(alloc, values);
    let span = one.span;
    Ok(Value::Declarators(Node {
        tree: added(list.tree, one)?,
        span,
    }))
}

/// `Action::MakeDeclarator`.
pub fn make_declarator(alloc: Global, values: &mut Stack<Value>) -> Value
    ensures { result ∷ values.new ≡ build action.MakeDeclarator values.old }
{
    let name = take::name(alloc, values);
    Value::Declarator(Declarator {
        span: name.identifier.span,
        name: name.identifier,
        initializer: Initializer::Nothing,
    })
}

/// `Action::MakeDeclaratorValue`.
pub fn make_declarator_value(alloc: Global, values: &mut Stack<Value>) -> Value
    ensures { result ∷ values.new ≡ build action.MakeDeclaratorValue values.old }
{
    let x = take::expression(values);
    let name = take::name(alloc, values);
    Value::Declarator(Declarator {
        span: across(name.identifier.span, x.span),
        name: name.identifier,
        initializer: Initializer::Value(x.tree),
    })
}

/// `Action::MakeDeclaratorElements`.
pub fn make_declarator_elements(alloc: Global, values: &mut Stack<Value>) -> Value
    ensures { result ∷ values.new ≡ build action.MakeDeclaratorElements values.old }
{
    let close = take::mark(values);
    let given = take::arguments(alloc, values);
    let name = take::name(alloc, values);
    Value::Declarator(Declarator {
        span: across(name.identifier.span, close.span),
        name: name.identifier,
        initializer: Initializer::Elements(given),
    })
}

/// `Action::MakeDeclaratorArguments`.
pub fn make_declarator_arguments(alloc: Global, values: &mut Stack<Value>) -> Value
    ensures { result ∷ values.new ≡ build action.MakeDeclaratorArguments values.old }
{
    let close = take::mark(values);
    let list = take::expressions(alloc, values);
    let name = take::name(alloc, values);
    Value::Declarator(Declarator {
        span: across(name.identifier.span, close.span),
        name: name.identifier,
        initializer: Initializer::Arguments(list.tree),
    })
}

/// `Action::MakeLocal`.
pub fn make_local(alloc: Global, values: &mut Stack<Value>) -> Value
    ensures { result ∷ values.new ≡ build action.MakeLocal values.old }
{
    let list = take::declarators(alloc, values);
    let of = take::type_name(values);
    Value::Local(Local {
        span: across(of.span, list.span),
        of: of.tree,
        declarators: list.tree,
    })
}

/// `Action::MakeLocalStatement`.
pub fn make_local_statement(alloc: Global, values: &mut Stack<Value>) -> Value
    ensures { result ∷ values.new ≡ build action.MakeLocalStatement values.old }
{
    let semicolon = take::mark(values);
    let local = take::local(alloc, values);
    let span = across(local.span, semicolon.span);
    Value::Statement(Node {
        tree: Statement::Local(local, span),
        span,
    })
}
