// The operations of a block: its lines and its result.
ghost use Rattle.std.specs.Prelude.{◌≡◌, option_map};
ghost use Rattle.std.specs.List.{flat_map};
ghost use Rattle.cc_core.specs.StraightSource.{operations_of, line_operations, source_operations};
ghost use Rattle.cc_tree.specs.declared.expression.Expression.{out-Expression};
ghost use Rattle.cc_tree.specs.declared.expression.Arguments.{out-Arguments};
ghost use Rattle.cc_tree.specs.declared.type_name.TypeName.{out-TypeName};
ghost use Rattle.cc_straight.specs.Form as form;
ghost use Rattle.cc_straight.specs.Added.{IsAdded};

use crate::fault::{CompileFault, not_yet};
use crate::spans::{expression_span, statement_span};
use crate::term::{add_term, push};
use cc_core::StraightOperation;
use cc_tree::{Arguments, Block, Expression, Statement, TypeName};

fn is_console(of: &TypeName) -> bool
    ensures { result ≡ form.is_console (out-TypeName of.now) }
{
    match of {
        TypeName::Named(path, console, arguments, _) => {
            match (path.as_slice(), arguments.as_slice()) {
                ([system], []) => {
                    system.name.as_slice() == b"System".as_slice()
                        && console.name.as_slice() == b"Console".as_slice()
                }
                _ => false,
            }
        }
        _ => false,
    }
}

fn is_write_line(callee: &Expression) -> bool
    ensures { result ≡ form.is_write_line (out-Expression callee.now) }
{
    match callee {
        Expression::StaticMember(of, name, _) => {
            is_console(of) && name.name.as_slice() == b"WriteLine".as_slice()
        }
        _ => false,
    }
}

fn add_argument(
    arguments: &Arguments,
    into: &mut Vec<StraightOperation>,
) -> Result<(), CompileFault>
    ensures { IsAdded operations_of result (form.argument_term (out-Arguments arguments.now).items (out-Arguments arguments.now).span) into.old.items into.new.items }
{
    match arguments.items.as_slice() {
        [argument] => add_term(argument, into),
        _ => Err(not_yet(arguments.span)),
    }
}

// The term that a call of `WriteLine` prints.
fn add_printed(
    expression: &Expression,
    into: &mut Vec<StraightOperation>,
) -> Result<(), CompileFault>
    ensures { IsAdded operations_of result (form.printed_term expression.now) into.old.items into.new.items }
{
    match expression {
        Expression::Call(callee, arguments, _) => {
            if is_write_line(callee.get()) {
                add_argument(arguments, into)
            } else {
                Err(not_yet(expression_span(callee.get())))
            }
        }
        other => Err(not_yet(expression_span(other))),
    }
}

fn add_line(statement: &Statement, into: &mut Vec<StraightOperation>) -> Result<(), CompileFault>
    ensures { IsAdded line_operations result (form.line_term statement.now) into.old.items into.new.items }
{
    match statement {
        Statement::Expression(expression, _) => {
            add_printed(expression, into)?;
            push(StraightOperation::WriteLine, into)
        }
        other => Err(not_yet(statement_span(other))),
    }
}

fn add_lines(
    statements: &[Statement],
    into: &mut Vec<StraightOperation>,
) -> Result<(), CompileFault>
    ensures { IsAdded (λ terms. flat_map line_operations terms) result (form.line_terms statements.now) into.old.items into.new.items }
{
    for statement in statements {
        add_line(statement, into)?;
    }
    Ok(())
}

fn returned(statement: &Statement) -> Option<&Expression>
    ensures { option_map (λ value. value.now) result ≡ form.returned statement.now }
{
    match statement {
        Statement::Return(value, _) => value.as_ref(),
        _ => None,
    }
}

// The operations of the lines and of the value that is returned.
fn add_result(
    lines: &[Statement],
    value: &Expression,
    into: &mut Vec<StraightOperation>,
) -> Result<(), CompileFault>
    ensures { IsAdded source_operations result (form.source (form.line_terms lines.now) (form.term_of value.now)) into.old.items into.new.items }
{
    add_lines(lines, into)?;
    add_term(value, into)?;
    push(StraightOperation::Return, into)
}

/// Adds the operations of a block of lines and a return.
pub fn add_block(block: &Block, into: &mut Vec<StraightOperation>) -> Result<(), CompileFault>
    ensures { IsAdded source_operations result (form.block_source block.now) into.old.items into.new.items }
{
    let [lines @ .., last] = block.statements.as_slice() else {
        return Err(not_yet(block.span));
    };
    match returned(last) {
        Some(value) => add_result(lines, value, into),
        None => Err(not_yet(block.span)),
    }
}
