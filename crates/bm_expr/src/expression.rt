//! Expressions: numbers modulo 2^128, and truth values.
ghost use Rattle.std.specs.Prelude.{◌≡◌};
ghost use Rattle.bm_expr.specs.Nodes.{number_of_node, truth_of_node};

use crate::store::FieldPlace;
use std::marker::Model;

/// An expression whose value is a number. Contracts see it as a `Number` of specs/Trees.antt.
#[cycle(expression)]
#[derive(Drop)]
pub struct Number {
    pub node: NumberNode,
}

/// The root of a number, with a variant for each operator.
#[cycle(expression)]
#[derive(Drop)]
pub enum NumberNode {
    /// A field, which is 0 where its header is invalid.
    Field(FieldPlace),
    Literal(u128),
    /// The action's datum with this index.
    Datum(usize),
    /// `+`
    Add(Box<Number>, Box<Number>),
    /// `-`
    Subtract(Box<Number>, Box<Number>),
    /// `*`
    Multiply(Box<Number>, Box<Number>),
    /// `<<`
    ShiftLeft(Box<Number>, Box<Number>),
    /// `>>`
    ShiftRight(Box<Number>, Box<Number>),
    /// `&`
    BitAnd(Box<Number>, Box<Number>),
    /// `|`
    BitOr(Box<Number>, Box<Number>),
    /// `^`
    BitXor(Box<Number>, Box<Number>),
    /// `~`
    BitNot(Box<Number>),
    /// `?` of numbers: the first where the condition holds, else the second.
    Choose(Box<Truth>, Box<Number>, Box<Number>),
    /// `b2d`: 1 for true and 0 for false.
    OfTruth(Box<Truth>),
}

/// An expression whose value is a truth value. Contracts see it as a `Truth` of specs/Trees.antt.
#[cycle(expression)]
#[derive(Drop)]
pub struct Truth {
    pub node: TruthNode,
}

/// The root of a truth value, with a variant for each operator.
#[cycle(expression)]
#[derive(Drop)]
pub enum TruthNode {
    Constant(bool),
    /// `==`
    Equal(Box<Number>, Box<Number>),
    /// `!=`
    NotEqual(Box<Number>, Box<Number>),
    /// `<`
    Less(Box<Number>, Box<Number>),
    /// `<=`
    LessOrEqual(Box<Number>, Box<Number>),
    /// `>`
    Greater(Box<Number>, Box<Number>),
    /// `>=`
    GreaterOrEqual(Box<Number>, Box<Number>),
    /// `and`
    And(Box<Truth>, Box<Truth>),
    /// `or`
    Or(Box<Truth>, Box<Truth>),
    /// `not`
    Not(Box<Truth>),
    /// `?` of truth values: the first where the condition holds, else the second.
    Select(Box<Truth>, Box<Truth>, Box<Truth>),
    /// `valid`: whether the header with this index is valid.
    IsValid(usize),
    /// `d2b`: whether the number is not 0.
    OfNumber(Box<Number>),
}

impl Model for Number {
    ghost use Rattle.bm_expr.specs.Trees as trees;
    ghost use Rattle.bm_expr.specs.TreeCode.{number_code};

    ghost Value = { trees.Number };

    ghost coded = { number_code };

    ghost use Rattle.bm_expr.specs.Nodes.{number_of_node};

    ghost view = { λ number. number_of_node number.node };

    ghost use Rattle.bm_expr.specs.Trees.{number_height};

    ghost size = { number_height };

    ghost use Rattle.bm_expr.specs.TreesFall.{number_falls};

    ghost size_decreases = { λ number h. number_falls number.node };
}

impl Number {
    /// The number of which a node is the root.
    pub fn new(node: NumberNode) -> Number
        ensures { result ≡ number_of_node node }
    {
        Number { node }
    }
}

impl Model for Truth {
    ghost use Rattle.bm_expr.specs.Trees as trees;
    ghost use Rattle.bm_expr.specs.TreeCode.{truth_code};

    ghost Value = { trees.Truth };

    ghost coded = { truth_code };

    ghost use Rattle.bm_expr.specs.Nodes.{truth_of_node};

    ghost view = { λ truth. truth_of_node truth.node };

    ghost use Rattle.bm_expr.specs.Trees.{truth_height};

    ghost size = { truth_height };

    ghost use Rattle.bm_expr.specs.TreesFall.{truth_falls};

    ghost size_decreases = { λ truth h. truth_falls truth.node };
}

impl Truth {
    /// The truth value of which a node is the root.
    pub fn new(node: TruthNode) -> Truth
        ensures { result ≡ truth_of_node node }
    {
        Truth { node }
    }
}

unsafe impl Send for Number {}

unsafe impl Sync for Number {}

unsafe impl Send for NumberNode {}

unsafe impl Sync for NumberNode {}

unsafe impl Send for Truth {}

unsafe impl Sync for Truth {}

unsafe impl Send for TruthNode {}

unsafe impl Sync for TruthNode {}
