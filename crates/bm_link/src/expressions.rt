//! Expressions over places.
ghost use Rattle.std.specs.Prelude.{◌≡◌, false, IfOk};
ghost use Rattle.bm_expr.specs.Nodes.{number_of_node, truth_of_node};
ghost use Rattle.bm_expr.specs.Trees as to;
ghost use Rattle.link_spec.specs.Fields.{header_at, of_part};
ghost use Rattle.link_spec.specs.Expressions.{field_number, number_by, number_of, truth_of, value_of};
ghost use Rattle.bm_link.specs.Operations.{compared_by, joined_by};

use crate::fields::{self, Fields};
use bm_expr::{Number, NumberNode, Truth, TruthNode};
use bm_records::raw::{
    BinaryOperator, Expression, FieldName, Node, Part, RawLiteral, UnaryOperator,
};
use bm_rules::fields::is_validity;
use list_types::NoMemory;
use name_index::Name;
use std::alloc::Global;

fn number(alloc: Global, node: NumberNode) -> Result<Box<Number>, NoMemory>
    ensures { IfOk result (λ number. number.value ≡ number_of_node node) }
{
    Ok(Box::new(alloc, Number::new(node))?)
}

fn truth(alloc: Global, node: TruthNode) -> Result<Box<Truth>, NoMemory>
    ensures { IfOk result (λ truth. truth.value ≡ truth_of_node node) }
{
    Ok(Box::new(alloc, Truth::new(node))?)
}

fn field(alloc: Global, fields: &Fields, name: &FieldName) -> Result<Box<Number>, NoMemory>
    ensures { IfOk result (λ number. number.value ≡ field_number fields.now.raw.now name.now) }
{
    if is_validity(name) {
        let header = fields::header_of(fields, &name.header);
        let valid = truth(alloc, TruthNode::IsValid(header))?;
        number(alloc, NumberNode::OfTruth(valid))
    } else {
        number(alloc, NumberNode::Field(fields::field_at(fields, name)))
    }
}

fn literal(value: &RawLiteral) -> NumberNode
    ensures { number_of_node result ≡ of_part (to.Literal 0) to.Literal value.now }
{
    match value {
        Part::Served(value) => NumberNode::Literal(*value),
        Part::LeftOut => NumberNode::Literal(0),
    }
}

fn validity(fields: &Fields, header: &Part<Name>) -> TruthNode
    ensures { truth_of_node result ≡ of_part (to.Constant false) (λ name. to.IsValid (header_at fields.now.raw.now name)) header.now }
{
    match header {
        Part::Served(name) => TruthNode::IsValid(fields::header_of(fields, name)),
        Part::LeftOut => TruthNode::Constant(false),
    }
}

fn number_by(operator: BinaryOperator, x: Box<Number>, y: Box<Number>) -> NumberNode
    ensures { number_of_node result ≡ number_by operator x.value y.value }
{
    match operator {
        BinaryOperator::Add => NumberNode::Add(x, y),
        BinaryOperator::Subtract => NumberNode::Subtract(x, y),
        BinaryOperator::Multiply => NumberNode::Multiply(x, y),
        BinaryOperator::ShiftLeft => NumberNode::ShiftLeft(x, y),
        BinaryOperator::ShiftRight => NumberNode::ShiftRight(x, y),
        BinaryOperator::BitAnd => NumberNode::BitAnd(x, y),
        BinaryOperator::BitOr => NumberNode::BitOr(x, y),
        BinaryOperator::BitXor => NumberNode::BitXor(x, y),
        _ => NumberNode::Literal(0),
    }
}

fn compared_by(operator: BinaryOperator, x: Box<Number>, y: Box<Number>) -> TruthNode
    ensures { truth_of_node result ≡ compared_by operator x.value y.value }
{
    match operator {
        BinaryOperator::Equal => TruthNode::Equal(x, y),
        BinaryOperator::NotEqual => TruthNode::NotEqual(x, y),
        BinaryOperator::Less => TruthNode::Less(x, y),
        BinaryOperator::LessOrEqual => TruthNode::LessOrEqual(x, y),
        BinaryOperator::Greater => TruthNode::Greater(x, y),
        BinaryOperator::GreaterOrEqual => TruthNode::GreaterOrEqual(x, y),
        _ => TruthNode::Constant(false),
    }
}

fn joined_by(operator: BinaryOperator, x: Box<Truth>, y: Box<Truth>) -> TruthNode
    ensures { truth_of_node result ≡ joined_by operator x.value y.value }
{
    match operator {
        BinaryOperator::And => TruthNode::And(x, y),
        BinaryOperator::Or => TruthNode::Or(x, y),
        _ => TruthNode::Constant(false),
    }
}

#[cycle(linking)]
fn number_of(
    alloc: Global,
    fields: &Fields,
    expression: &Expression,
) -> Result<Box<Number>, NoMemory>
    ensures { IfOk result (λ number. number.value ≡ number_of fields.now.raw.now expression.now) }
{
    match &expression.node {
        Node::Field(name) => field(alloc, fields, name),
        Node::Literal(value) => number(alloc, literal(value)),
        Node::Datum(index) => number(alloc, NumberNode::Datum(*index as usize)),
        Node::Unary(UnaryOperator::BitNot, x) => {
            let x = number_of(alloc, fields, x)?;
            number(alloc, NumberNode::BitNot(x))
        }
        Node::Unary(UnaryOperator::ToNumber, x) => {
            let x = truth_of(alloc, fields, x)?;
            number(alloc, NumberNode::OfTruth(x))
        }
        Node::Binary(operator, x, y) => {
            let x = number_of(alloc, fields, x)?;
            let y = number_of(alloc, fields, y)?;
            number(alloc, number_by(*operator, x, y))
        }
        Node::Choice(condition, x, y) => {
            let condition = truth_of(alloc, fields, condition)?;
            let x = number_of(alloc, fields, x)?;
            let y = number_of(alloc, fields, y)?;
            number(alloc, NumberNode::Choose(condition, x, y))
        }
        _ => number(alloc, NumberNode::Literal(0)),
    }
}

#[cycle(linking)]
fn truth_of(alloc: Global, fields: &Fields, expression: &Expression) -> Result<Box<Truth>, NoMemory>
    ensures { IfOk result (λ truth. truth.value ≡ truth_of fields.now.raw.now expression.now) }
{
    match &expression.node {
        Node::Truth(value) => truth(alloc, TruthNode::Constant(*value)),
        Node::Valid(header) => truth(alloc, validity(fields, header)),
        Node::Unary(UnaryOperator::Not, x) => {
            let x = truth_of(alloc, fields, x)?;
            truth(alloc, TruthNode::Not(x))
        }
        Node::Unary(UnaryOperator::ToTruth, x) => {
            let x = number_of(alloc, fields, x)?;
            truth(alloc, TruthNode::OfNumber(x))
        }
        Node::Binary(operator, x, y) => match operator {
            BinaryOperator::And | BinaryOperator::Or => {
                let x = truth_of(alloc, fields, x)?;
                let y = truth_of(alloc, fields, y)?;
                truth(alloc, joined_by(*operator, x, y))
            }
            BinaryOperator::Equal
            | BinaryOperator::NotEqual
            | BinaryOperator::Less
            | BinaryOperator::LessOrEqual
            | BinaryOperator::Greater
            | BinaryOperator::GreaterOrEqual => {
                let x = number_of(alloc, fields, x)?;
                let y = number_of(alloc, fields, y)?;
                truth(alloc, compared_by(*operator, x, y))
            }
            _ => truth(alloc, TruthNode::Constant(false)),
        },
        Node::Choice(condition, x, y) => {
            let condition = truth_of(alloc, fields, condition)?;
            let x = truth_of(alloc, fields, x)?;
            let y = truth_of(alloc, fields, y)?;
            truth(alloc, TruthNode::Select(condition, x, y))
        }
        _ => truth(alloc, TruthNode::Constant(false)),
    }
}

/// A value that is assigned or counted.
pub(crate) fn value(
    alloc: Global,
    fields: &Fields,
    expression: &Expression,
) -> Result<Number, NoMemory>
    ensures { IfOk result (λ number. number ≡ value_of fields.now.raw.now expression.now) }
{
    match &expression.node {
        Node::Truth(value) => {
            let value = truth(alloc, TruthNode::Constant(*value))?;
            Ok(Number::new(NumberNode::OfTruth(value)))
        }
        _ => Ok(Box::into_inner(number_of(alloc, fields, expression)?)),
    }
}

/// A condition.
pub(crate) fn condition(
    alloc: Global,
    fields: &Fields,
    expression: &Expression,
) -> Result<Truth, NoMemory>
    ensures { IfOk result (λ truth. truth ≡ truth_of fields.now.raw.now expression.now) }
{
    Ok(Box::into_inner(truth_of(alloc, fields, expression)?))
}
