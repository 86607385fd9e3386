//! Operations that the profile does not know, and expressions of the wrong kind.
ghost use Rattle.std.specs.Prelude.{◌≡◌, Bool, true, not, codes};
ghost use Rattle.std.specs.List.{list_any, list_all};
ghost use Rattle.std.specs.Str.{bytes_eq};
ghost use Rattle.bm_rules.specs.Kinds.{is_condition};
ghost use Rattle.bm_rules.specs.Operations.{tree_unknown, condition_unknown, primitive_unknown, parser_op_unknown, operations_unknown, primitive_typed, parser_op_typed, condition_typed, expressions_typed};

use crate::kinds;
use bm_records::raw::{
    Action, Calculation, Checksum, Conditional, Expression, Node, ParseState, ParserOp, Primitive,
    RawProgram,
};

fn tree_unknown(expression: &Expression) -> bool
    ensures { result ≡ tree_unknown expression.now }
{
    match &expression.node {
        Node::Unary(_, x) => tree_unknown(x),
        Node::Binary(_, x, y) => tree_unknown(x) || tree_unknown(y),
        Node::Choice(condition, x, y) => {
            tree_unknown(condition) || tree_unknown(x) || tree_unknown(y)
        }
        Node::Unknown(_) => true,
        _ => false,
    }
}

fn condition_unknown(condition: &Option<Expression>) -> bool
    ensures { result ≡ condition_unknown condition.now }
{
    match condition {
        None => false,
        Some(condition) => tree_unknown(condition),
    }
}

fn condition_typed(condition: &Option<Expression>) -> bool
    ensures { result ≡ condition_typed condition.now }
{
    match condition {
        None => true,
        Some(condition) => kinds::is_condition(condition),
    }
}

/// What operations and expressions stand in.
trait Operations {
    ghost unknown: { Self → Bool };

    ghost typed: { Self → Bool };

    /// Whether one of the operations is not known.
    fn has_unknown(&self) -> bool
        ensures { result ≡ unknown self.now };

    /// Whether the expressions are of the right kinds, and settled where they must be.
    fn is_typed(&self) -> bool
        ensures { result ≡ typed self.now };
}

fn any_unknown<T: Operations>(items: &[T]) -> bool
    ensures { result ≡ list_any T.unknown items.now }
{
    items.iter().any(|item| item.has_unknown())
}

fn all_typed<T: Operations>(items: &[T]) -> bool
    ensures { result ≡ list_all T.typed items.now }
{
    items.iter().all(|item| item.is_typed())
}

impl<'a> Operations for ParserOp<'a> {
    ghost unknown = { parser_op_unknown };

    ghost typed = { parser_op_typed };

    fn has_unknown(&self) -> bool {
        match self {
            ParserOp::Set { value, .. } => tree_unknown(value),
            ParserOp::Unknown(_) => true,
            _ => false,
        }
    }

    fn is_typed(&self) -> bool {
        match self {
            ParserOp::Set { value, .. } => kinds::is_value(value),
            _ => true,
        }
    }
}

impl<'a> Operations for ParseState<'a> {
    ghost unknown = { λ state. list_any parser_op_unknown state.parser_ops };

    ghost typed = { λ state. list_all parser_op_typed state.parser_ops };

    fn has_unknown(&self) -> bool {
        any_unknown(self.parser_ops.as_slice())
    }

    fn is_typed(&self) -> bool {
        all_typed(self.parser_ops.as_slice())
    }
}

impl<'a> Operations for Calculation<'a> {
    ghost unknown = { λ x. not (bytes_eq x.algo (codes "csum16")) };

    ghost typed = { λ _. true };

    fn has_unknown(&self) -> bool {
        self.algo.as_str() != "csum16"
    }

    fn is_typed(&self) -> bool {
        true
    }
}

impl<'a> Operations for Checksum<'a> {
    ghost unknown = { λ x. condition_unknown x.if_cond };

    ghost typed = { λ x. condition_typed x.if_cond };

    fn has_unknown(&self) -> bool {
        condition_unknown(&self.if_cond)
    }

    fn is_typed(&self) -> bool {
        condition_typed(&self.if_cond)
    }
}

impl<'a> Operations for Primitive<'a> {
    ghost unknown = { primitive_unknown };

    ghost typed = { primitive_typed };

    fn has_unknown(&self) -> bool {
        match self {
            Primitive::Assign { value, .. } => tree_unknown(value),
            Primitive::Count { index, .. } => tree_unknown(index),
            Primitive::Unknown(_) => true,
            _ => false,
        }
    }

    fn is_typed(&self) -> bool {
        match self {
            Primitive::Assign { value, .. } => kinds::is_value(value),
            Primitive::Count { index, .. } => kinds::is_settled_value(index),
            _ => true,
        }
    }
}

impl<'a> Operations for Action<'a> {
    ghost unknown = { λ action. list_any primitive_unknown action.primitives };

    ghost typed = { λ action. list_all primitive_typed action.primitives };

    fn has_unknown(&self) -> bool {
        any_unknown(self.primitives.as_slice())
    }

    fn is_typed(&self) -> bool {
        all_typed(self.primitives.as_slice())
    }
}

impl<'a> Operations for Conditional<'a> {
    ghost unknown = { λ x. tree_unknown x.expression };

    ghost typed = { λ x. is_condition x.expression };

    fn has_unknown(&self) -> bool {
        tree_unknown(&self.expression)
    }

    fn is_typed(&self) -> bool {
        kinds::is_condition(&self.expression)
    }
}

/// Whether a primitive, an operation of the parser, an operator or an algorithm is not known.
pub(crate) fn operations_unknown(raw: &RawProgram) -> bool
    ensures { result ≡ operations_unknown raw.now }
{
    any_unknown(raw.parser.parse_states.as_slice())
        || any_unknown(raw.calculations.as_slice())
        || any_unknown(raw.checksums.as_slice())
        || any_unknown(raw.actions.as_slice())
        || any_unknown(raw.pipelines.ingress.conditionals.as_slice())
        || any_unknown(raw.pipelines.egress.conditionals.as_slice())
}

/// Whether expressions are settled where they must be, and mix no truth values and numbers.
pub(crate) fn expressions_typed(raw: &RawProgram) -> bool
    ensures { result ≡ expressions_typed raw.now }
{
    all_typed(raw.parser.parse_states.as_slice())
        && all_typed(raw.checksums.as_slice())
        && all_typed(raw.actions.as_slice())
        && all_typed(raw.pipelines.ingress.conditionals.as_slice())
        && all_typed(raw.pipelines.egress.conditionals.as_slice())
}
