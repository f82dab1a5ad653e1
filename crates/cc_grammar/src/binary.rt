// Operators between two operands, and how tight they are (ECMA-372, 15.7 to 15.18).
ghost use Rattle.std.specs.Prelude.{◌≡◌, ◌≤◌};
ghost use Rattle.cc_tree.specs.Operators as operators;
ghost use Rattle.cc_pushdown.specs.Machine as machine;

use cc_table::Input;
use cc_tree::{BinaryOperator, Sign, Terminal};

/// The operator that an input is. A `>` is one once it is known not to begin a shift.
pub fn operator(input: Input) -> Option<BinaryOperator>
    ensures { result ≡ machine.operator input }
{
    match input {
        Input::ShiftRight => Some(BinaryOperator::ShiftRight),
        Input::RelationalGreater => Some(BinaryOperator::Greater),
        Input::Token(Terminal::Sign(Sign::Greater)) => None,
        Input::Token(Terminal::Sign(sign)) => sign_operator(sign),
        _ => None,
    }
}

fn sign_operator(sign: Sign) -> Option<BinaryOperator>
    ensures { result ≡ operators.binary_operator sign }
{
    match sign {
        Sign::LogicalOr => Some(BinaryOperator::LogicalOr),
        Sign::LogicalAnd => Some(BinaryOperator::LogicalAnd),
        Sign::Bar => Some(BinaryOperator::Or),
        Sign::Caret => Some(BinaryOperator::ExclusiveOr),
        Sign::Ampersand => Some(BinaryOperator::And),
        Sign::Equal => Some(BinaryOperator::Equal),
        Sign::NotEqual => Some(BinaryOperator::NotEqual),
        Sign::Less => Some(BinaryOperator::Less),
        Sign::Greater => Some(BinaryOperator::Greater),
        Sign::LessOrEqual => Some(BinaryOperator::LessOrEqual),
        Sign::GreaterOrEqual => Some(BinaryOperator::GreaterOrEqual),
        Sign::ShiftLeft => Some(BinaryOperator::ShiftLeft),
        Sign::Plus => Some(BinaryOperator::Add),
        Sign::Minus => Some(BinaryOperator::Subtract),
        Sign::Star => Some(BinaryOperator::Multiply),
        Sign::Slash => Some(BinaryOperator::Divide),
        Sign::Percent => Some(BinaryOperator::Remainder),
        _ => None,
    }
}

/// How tight an operator is, from 1 to 10.
pub fn level(operator: BinaryOperator) -> u8
    ensures exact { result ≡ operators.level operator }
    ensures within { result ≤ 10 }
{
    match operator {
        BinaryOperator::LogicalOr => 1,
        BinaryOperator::LogicalAnd => 2,
        BinaryOperator::Or => 3,
        BinaryOperator::ExclusiveOr => 4,
        BinaryOperator::And => 5,
        BinaryOperator::Equal | BinaryOperator::NotEqual => 6,
        BinaryOperator::Less
        | BinaryOperator::Greater
        | BinaryOperator::LessOrEqual
        | BinaryOperator::GreaterOrEqual => 7,
        BinaryOperator::ShiftLeft | BinaryOperator::ShiftRight => 8,
        BinaryOperator::Add | BinaryOperator::Subtract => 9,
        BinaryOperator::Multiply | BinaryOperator::Divide | BinaryOperator::Remainder => 10,
    }
}
