//! The value of an expression.
ghost use Rattle.std.specs.Prelude.{◌≡◌};
ghost use Rattle.bm_expr.specs.Meaning.{number_value, truth_value, NumberInStore, TruthInStore};

use crate::expression::{Number, NumberNode, Truth, TruthNode};
use crate::operators::{shifted_left, shifted_right};
use crate::store::Store;

/// The value of a number, modulo 2^128, over a packet's fields and an action's data. It takes no memory, and recurses
/// as deep as the expression, whose depth whoever builds it bounds.
#[cycle(meaning)]
pub fn value(number: &Number, store: &Store, args: &[u128]) -> u128
    requires in_store { NumberInStore store.now args.now number.now }
    ensures { result ≡ number_value store.now args.now number.now }
{
    match &number.node {
        NumberNode::Field(place) => store.field(*place),
        NumberNode::Literal(literal) => *literal,
        NumberNode::Datum(index) => args[*index],
        NumberNode::Add(a, b) => value(a, store, args).wrapping_add(value(b, store, args)),
        NumberNode::Subtract(a, b) => value(a, store, args).wrapping_sub(value(b, store, args)),
        NumberNode::Multiply(a, b) => value(a, store, args).wrapping_mul(value(b, store, args)),
        NumberNode::ShiftLeft(a, by) => shifted_left(value(a, store, args), value(by, store, args)),
        NumberNode::ShiftRight(a, by) => shifted_right(
            value(a, store, args),
            value(by, store, args),
        ),
        NumberNode::BitAnd(a, b) => value(a, store, args) & value(b, store, args),
        NumberNode::BitOr(a, b) => value(a, store, args) | value(b, store, args),
        NumberNode::BitXor(a, b) => value(a, store, args) ^ value(b, store, args),
        NumberNode::BitNot(a) => !value(a, store, args),
        NumberNode::Choose(condition, yes, no) => {
            if truth(condition, store, args) {
                value(yes, store, args)
            } else {
                value(no, store, args)
            }
        }
        NumberNode::OfTruth(a) => u128::from(truth(a, store, args)),
    }
}

/// The value of a truth value, as [`value`] for numbers. Numbers are compared without a sign.
#[cycle(meaning)]
pub fn truth(truth_of: &Truth, store: &Store, args: &[u128]) -> bool
    requires in_store { TruthInStore store.now args.now truth_of.now }
    ensures { result ≡ truth_value store.now args.now truth_of.now }
{
    match &truth_of.node {
        TruthNode::Constant(constant) => *constant,
        TruthNode::Equal(a, b) => value(a, store, args) == value(b, store, args),
        TruthNode::NotEqual(a, b) => value(a, store, args) != value(b, store, args),
        TruthNode::Less(a, b) => value(a, store, args) < value(b, store, args),
        TruthNode::LessOrEqual(a, b) => value(a, store, args) <= value(b, store, args),
        TruthNode::Greater(a, b) => value(a, store, args) > value(b, store, args),
        TruthNode::GreaterOrEqual(a, b) => value(a, store, args) >= value(b, store, args),
        TruthNode::And(a, b) => truth(a, store, args) && truth(b, store, args),
        TruthNode::Or(a, b) => truth(a, store, args) || truth(b, store, args),
        TruthNode::Not(a) => !truth(a, store, args),
        TruthNode::Select(condition, yes, no) => {
            if truth(condition, store, args) {
                truth(yes, store, args)
            } else {
                truth(no, store, args)
            }
        }
        TruthNode::IsValid(header) => store.is_valid(*header),
        TruthNode::OfNumber(a) => value(a, store, args) != 0,
    }
}
