//! Numbers and truth values, and which numbers are settled.
ghost use Rattle.std.specs.Prelude.{◌≡◌};
ghost use Rattle.bm_rules.specs.Kinds.{gives_number, is_number, is_truth, is_literal, is_settled, are_settled, operands_settled, is_value, is_settled_value, is_condition};

use bm_records::raw::{BinaryOperator, Expression, Node, UnaryOperator};

fn gives_number(operator: BinaryOperator) -> bool
    ensures { result ≡ gives_number operator }
{
    matches!(
        operator,
        BinaryOperator::Add
            | BinaryOperator::Subtract
            | BinaryOperator::Multiply
            | BinaryOperator::ShiftLeft
            | BinaryOperator::ShiftRight
            | BinaryOperator::BitAnd
            | BinaryOperator::BitOr
            | BinaryOperator::BitXor
    )
}

#[cycle(kinds)]
fn is_number(expression: &Expression) -> bool
    ensures { result ≡ is_number expression.now }
{
    match &expression.node {
        Node::Field(_) | Node::Literal(_) | Node::Datum(_) => true,
        Node::Unary(UnaryOperator::BitNot, x) => is_number(x),
        Node::Unary(UnaryOperator::ToNumber, x) => is_truth(x),
        Node::Binary(operator, x, y) => gives_number(*operator) && is_number(x) && is_number(y),
        Node::Choice(condition, x, y) => is_truth(condition) && is_number(x) && is_number(y),
        _ => false,
    }
}

#[cycle(kinds)]
fn is_truth(expression: &Expression) -> bool
    ensures { result ≡ is_truth expression.now }
{
    match &expression.node {
        Node::Truth(_) | Node::Valid(_) => true,
        Node::Unary(UnaryOperator::Not, x) => is_truth(x),
        Node::Unary(UnaryOperator::ToTruth, x) => is_number(x),
        Node::Binary(operator, x, y) => match operator {
            BinaryOperator::And | BinaryOperator::Or => is_truth(x) && is_truth(y),
            BinaryOperator::Equal
            | BinaryOperator::NotEqual
            | BinaryOperator::Less
            | BinaryOperator::LessOrEqual
            | BinaryOperator::Greater
            | BinaryOperator::GreaterOrEqual => is_number(x) && is_number(y),
            _ => false,
        },
        Node::Choice(condition, x, y) => is_truth(condition) && is_truth(x) && is_truth(y),
        _ => false,
    }
}

fn is_literal(expression: &Expression) -> bool
    ensures { result ≡ is_literal expression.now }
{
    matches!(&expression.node, Node::Literal(_))
}

/// Whether a number is settled: cutting it to 128 bits changes nothing.
fn is_settled(expression: &Expression) -> bool
    ensures { result ≡ is_settled expression.now }
{
    match &expression.node {
        Node::Field(_) | Node::Literal(_) | Node::Datum(_) => true,
        Node::Unary(UnaryOperator::ToNumber, _) => true,
        Node::Binary(BinaryOperator::ShiftRight, x, _) => is_settled(x),
        Node::Binary(BinaryOperator::BitAnd, x, y) => {
            (is_settled(x) && is_settled(y)) || is_literal(x) || is_literal(y)
        }
        Node::Binary(BinaryOperator::BitOr, x, y) => is_settled(x) && is_settled(y),
        Node::Binary(BinaryOperator::BitXor, x, y) => is_settled(x) && is_settled(y),
        Node::Choice(_, x, y) => is_settled(x) && is_settled(y),
        _ => false,
    }
}

fn are_settled(operator: BinaryOperator, x: &Expression, y: &Expression) -> bool
    ensures { result ≡ are_settled operator x.now y.now }
{
    match operator {
        BinaryOperator::ShiftLeft => is_settled(y),
        BinaryOperator::ShiftRight
        | BinaryOperator::Equal
        | BinaryOperator::NotEqual
        | BinaryOperator::Less
        | BinaryOperator::LessOrEqual
        | BinaryOperator::Greater
        | BinaryOperator::GreaterOrEqual => is_settled(x) && is_settled(y),
        _ => true,
    }
}

fn operands_settled(expression: &Expression) -> bool
    ensures { result ≡ operands_settled expression.now }
{
    match &expression.node {
        Node::Unary(UnaryOperator::ToTruth, x) => is_settled(x) && operands_settled(x),
        Node::Unary(_, x) => operands_settled(x),
        Node::Binary(operator, x, y) => {
            are_settled(*operator, x, y) && operands_settled(x) && operands_settled(y)
        }
        Node::Choice(condition, x, y) => {
            operands_settled(condition) && operands_settled(x) && operands_settled(y)
        }
        _ => true,
    }
}

/// Whether an expression is a number that may be assigned, or a truth constant, which stands for `b2d` of it.
pub fn is_value(expression: &Expression) -> bool
    ensures { result ≡ is_value expression.now }
{
    match &expression.node {
        Node::Truth(_) => true,
        _ => is_number(expression) && operands_settled(expression),
    }
}

/// Whether a value is settled too.
pub fn is_settled_value(expression: &Expression) -> bool
    ensures { result ≡ is_settled_value expression.now }
{
    match &expression.node {
        Node::Truth(_) => true,
        _ => is_number(expression) && operands_settled(expression) && is_settled(expression),
    }
}

/// Whether an expression is a truth value.
pub fn is_condition(expression: &Expression) -> bool
    ensures { result ≡ is_condition expression.now }
{
    is_truth(expression) && operands_settled(expression)
}
