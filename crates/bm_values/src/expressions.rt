//! Expressions, read as trees.
ghost use Rattle.std.specs.Prelude.{◌≡◌, Some};
ghost use Rattle.json_tree.specs.View.{view};
ghost use Rattle.json_shapes.specs.Shapes.{Reads};
ghost use Rattle.bm_values.specs.Kinds.{operation_of};
ghost use Rattle.bm_values.specs.Expressions.{inside, operand, unary_of, binary_of, choice_of, valid_of, not_served, operation_with, operation, value_with, tree_with, tree_of, IsRecursion, expression_of};

use crate::kinds::{self, Operation, ValueKind};
use crate::raw::{BinaryOperator, Expression, Node, UnaryOperator};
use crate::values;
use json_shapes::shapes::{self, FromJson};
use json_shapes::{Name, OtherShape};
use json_tree::Element;
use list_types::Refusal;
use std::alloc::Global;

fn not_served(op: &str) -> Expression<'_>
    ensures { result ≡ not_served op.now }
{
    if kinds::is_left_out_operator(op) {
        return Expression {
            node: Node::LeftOut,
        };
    }
    Expression {
        node: Node::Unknown(Name::of(op)),
    }
}

#[tactic(auto, unfolding(crate::specs::Expressions::valid_of))]
fn valid<'a>(alloc: Global, value: &Element<'a>) -> Result<Expression<'a>, Refusal<OtherShape>>
    ensures { Reads result (valid_of (view value.now)) }
{
    shapes::null(value, "left")?;
    let header = shapes::required(alloc, value, "right")?;
    Ok(Expression {
        node: Node::Valid(header),
    })
}

#[cycle(trees)]
#[tactic(auto, using(crate::proofs::Recursion::lower))]
fn member<'a>(
    alloc: Global,
    value: &Element<'a>,
    name: &str,
) -> Result<Expression<'a>, Refusal<OtherShape>>
    ensures { Reads result (inside (view value.now) name.now) }
{
    match value.get(name) {
        Some(member) => tree(alloc, &member),
        None => Err(Refusal::For(OtherShape)),
    }
}

#[cycle(trees)]
#[tactic(auto, unfolding(crate::specs::Expressions::operand, json_shapes::specs::Shapes::required), using(crate::proofs::Recursion::lower))]
fn operand<'a>(
    alloc: Global,
    value: &Element<'a>,
    name: &str,
) -> Result<Expression<'a>, Refusal<OtherShape>>
    ensures { Reads result (operand (inside (view value.now)) name.now (view value.now)) }
{
    let Some(inside) = value.get(name) else {
        return Err(Refusal::For(OtherShape));
    };
    values::kind_of(&inside)?;
    tree(alloc, &inside)
}

#[cycle(trees)]
#[tactic(auto, unfolding(crate::specs::Expressions::unary_of))]
fn unary<'a>(
    alloc: Global,
    operator: UnaryOperator,
    value: &Element<'a>,
) -> Result<Expression<'a>, Refusal<OtherShape>>
    ensures { Reads result (unary_of (inside (view value.now)) operator (view value.now)) }
{
    shapes::null(value, "left")?;
    let operand = Box::new(alloc, operand(alloc, value, "right")?)?;
    Ok(Expression {
        node: Node::Unary(operator, operand),
    })
}

#[cycle(trees)]
#[tactic(auto, unfolding(crate::specs::Expressions::binary_of))]
fn binary<'a>(
    alloc: Global,
    operator: BinaryOperator,
    value: &Element<'a>,
) -> Result<Expression<'a>, Refusal<OtherShape>>
    ensures { Reads result (binary_of (inside (view value.now)) operator (view value.now)) }
{
    let left = Box::new(alloc, operand(alloc, value, "left")?)?;
    let right = Box::new(alloc, operand(alloc, value, "right")?)?;
    Ok(Expression {
        node: Node::Binary(operator, left, right),
    })
}

#[cycle(trees)]
#[tactic(auto, unfolding(crate::specs::Expressions::choice_of))]
fn choice<'a>(alloc: Global, value: &Element<'a>) -> Result<Expression<'a>, Refusal<OtherShape>>
    ensures { Reads result (choice_of (inside (view value.now)) (view value.now)) }
{
    let condition = Box::new(alloc, operand(alloc, value, "cond")?)?;
    let left = Box::new(alloc, operand(alloc, value, "left")?)?;
    let right = Box::new(alloc, operand(alloc, value, "right")?)?;
    Ok(Expression {
        node: Node::Choice(condition, left, right),
    })
}

#[cycle(trees)]
fn operation_with<'a>(
    alloc: Global,
    op: &'a str,
    value: &Element<'a>,
) -> Result<Expression<'a>, Refusal<OtherShape>>
    ensures { Reads result (operation_with (inside (view value.now)) (operation_of op.now) op.now (view value.now)) }
{
    match kinds::operation_of(op) {
        Some(Operation::Unary(operator)) => unary(alloc, operator, value),
        Some(Operation::Binary(operator)) => binary(alloc, operator, value),
        Some(Operation::Valid) => valid(alloc, value),
        Some(Operation::Choice) => choice(alloc, value),
        None => Ok(not_served(op)),
    }
}

#[cycle(trees)]
#[tactic(auto, unfolding(crate::specs::Expressions::operation, json_shapes::specs::Shapes::required))]
fn operation<'a>(alloc: Global, value: &Element<'a>) -> Result<Expression<'a>, Refusal<OtherShape>>
    ensures { Reads result (operation (inside (view value.now)) (view value.now)) }
{
    let Some(op) = value.get("op") else {
        return Err(Refusal::For(OtherShape));
    };
    match op.as_str() {
        Some(op) => operation_with(alloc, op, value),
        None => Err(Refusal::For(OtherShape)),
    }
}

#[cycle(trees)]
fn value_with<'a>(
    alloc: Global,
    kind: ValueKind,
    value: &Element<'a>,
) -> Result<Expression<'a>, Refusal<OtherShape>>
    ensures { Reads result (value_with (inside (view value.now)) kind (view value.now)) }
{
    let node = match kind {
        ValueKind::Field => Node::Field(shapes::required(alloc, value, "value")?),
        ValueKind::Literal => Node::Literal(shapes::required(alloc, value, "value")?),
        ValueKind::Truth => Node::Truth(shapes::required(alloc, value, "value")?),
        ValueKind::Datum => Node::Datum(shapes::required(alloc, value, "value")?),
        ValueKind::LeftOut => Node::LeftOut,
        ValueKind::Expression => return member(alloc, value, "value"),
        _ => return Err(Refusal::For(OtherShape)),
    };
    Ok(Expression { node })
}

#[cycle(trees)]
#[tactic(auto, unfolding(crate::specs::Expressions::tree_with), using(crate::proofs::Recursion::recursion))]
fn tree<'a>(alloc: Global, value: &Element<'a>) -> Result<Expression<'a>, Refusal<OtherShape>>
    ensures { Reads result (tree_of (view value.now)) }
{
    if value.get("type").is_some() {
        let kind = values::kind_of(value)?;
        value_with(alloc, kind, value)
    } else {
        operation(alloc, value)
    }
}

impl<'a> FromJson<'a> for Expression<'a> {
    ghost shape = { expression_of };

    #[tactic(auto, unfolding(crate::specs::Expressions::expression_of))]
    fn from_json(
        alloc: Global,
        value: &Element<'a>,
    ) -> Result<Expression<'a>, Refusal<OtherShape>> {
        values::kind_of(value)?;
        tree(alloc, value)
    }

    fn may_be(value: &Element<'a>) -> bool {
        shapes::has(value, "type")
    }
}

/// The tree of a value is defined by the trees of the values in it.
#[tactic(auto, using(crate::proofs::Recursion::recursion))]
pub fn trees_are_of_their_parts()
    ensures { IsRecursion }
{}
