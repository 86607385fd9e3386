//! Which expressions mean the same as on whole numbers.
ghost use Rattle.std.specs.Prelude.{◌≡◌};
ghost use Rattle.bm_expr.specs.Settled as spec;

use crate::expression::{Number, NumberNode, Truth, TruthNode};

fn is_literal(number: &Number) -> bool
    ensures { result ≡ spec.is_literal number.now }
{
    matches!(&number.node, NumberNode::Literal(_))
}

/// Whether a number is settled: cutting it to 128 bits changes nothing.
pub fn is_settled(number: &Number) -> bool
    ensures { result ≡ spec.is_settled number.now }
{
    match &number.node {
        NumberNode::Field(_)
        | NumberNode::Literal(_)
        | NumberNode::Datum(_)
        | NumberNode::OfTruth(_) => true,
        NumberNode::ShiftRight(left, _) => is_settled(left),
        NumberNode::BitAnd(left, right) => {
            (is_settled(left) && is_settled(right)) || is_literal(left) || is_literal(right)
        }
        NumberNode::BitOr(left, right) => is_settled(left) && is_settled(right),
        NumberNode::BitXor(left, right) => is_settled(left) && is_settled(right),
        NumberNode::Choose(_, yes, no) => is_settled(yes) && is_settled(no),
        _ => false,
    }
}

/// Whether every operand within a number that must be settled is: those of comparisons and of `d2b`, the left of `>>`
/// and the amounts of shifts. The number itself need not be.
#[cycle(settled)]
pub fn settled(number: &Number) -> bool
    ensures { result ≡ spec.number_operands_settled number.now }
{
    match &number.node {
        NumberNode::Field(_) | NumberNode::Literal(_) | NumberNode::Datum(_) => true,
        NumberNode::Add(left, right) => settled(left) && settled(right),
        NumberNode::Subtract(left, right) => settled(left) && settled(right),
        NumberNode::Multiply(left, right) => settled(left) && settled(right),
        NumberNode::ShiftLeft(left, right) => settled(left) && settled(right) && is_settled(right),
        NumberNode::ShiftRight(left, right) => settled(left)
            && settled(right)
            && is_settled(left)
            && is_settled(right),
        NumberNode::BitAnd(left, right) => settled(left) && settled(right),
        NumberNode::BitOr(left, right) => settled(left) && settled(right),
        NumberNode::BitXor(left, right) => settled(left) && settled(right),
        NumberNode::BitNot(operand) => settled(operand),
        NumberNode::Choose(condition, yes, no) => settled_truth(condition)
            && settled(yes)
            && settled(no),
        NumberNode::OfTruth(operand) => settled_truth(operand),
    }
}

// Whether every operand within a truth value that must be settled is.
#[cycle(settled)]
fn settled_truth(truth: &Truth) -> bool
    ensures { result ≡ spec.truth_operands_settled truth.now }
{
    match &truth.node {
        TruthNode::Constant(_) | TruthNode::IsValid(_) => true,
        TruthNode::Equal(left, right) => settled(left)
            && settled(right)
            && is_settled(left)
            && is_settled(right),
        TruthNode::NotEqual(left, right) => settled(left)
            && settled(right)
            && is_settled(left)
            && is_settled(right),
        TruthNode::Less(left, right) => settled(left)
            && settled(right)
            && is_settled(left)
            && is_settled(right),
        TruthNode::LessOrEqual(left, right) => settled(left)
            && settled(right)
            && is_settled(left)
            && is_settled(right),
        TruthNode::Greater(left, right) => settled(left)
            && settled(right)
            && is_settled(left)
            && is_settled(right),
        TruthNode::GreaterOrEqual(left, right) => settled(left)
            && settled(right)
            && is_settled(left)
            && is_settled(right),
        TruthNode::And(left, right) => settled_truth(left) && settled_truth(right),
        TruthNode::Or(left, right) => settled_truth(left) && settled_truth(right),
        TruthNode::Not(operand) => settled_truth(operand),
        TruthNode::Select(condition, yes, no) => settled_truth(condition)
            && settled_truth(yes)
            && settled_truth(no),
        TruthNode::OfNumber(operand) => settled(operand) && is_settled(operand),
    }
}
