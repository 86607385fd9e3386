//! Kinds of values and operators, by their names in JSON.
ghost use Rattle.std.specs.Prelude.{◌≡◌};
ghost use Rattle.std.specs.Str.{bytes_eq};
ghost use Rattle.bm_values.specs.Kinds.{is_left_out_kind, value_kind, sum_operator, bit_operator, comparison, connective, binary_operator, unary_operator, operation_of, is_left_out_operator};

use crate::raw::{BinaryOperator, UnaryOperator};

/// The kind of a value, by its `type` (BMv2 JSON form, "The type value object").
#[derive(Clone, Copy)]
pub enum ValueKind {
    Field,
    Literal,
    Truth,
    Datum,
    Expression,
    Header,
    Regular,
    CounterArray,
    LearnList,
    LeftOut,
    Other,
}

/// An operation that is served.
#[derive(Clone, Copy)]
pub enum Operation {
    Unary(UnaryOperator),
    Binary(BinaryOperator),
    /// `valid`
    Valid,
    /// `?`
    Choice,
}

// For many names cheaper to check than `==`, which borrows both texts once more.
fn is(text: &str, name: &str) -> bool
    ensures { result ≡ bytes_eq text.now name.now }
{
    text == name
}

fn is_left_out_kind(kind: &str) -> bool
    ensures { result ≡ is_left_out_kind kind.now }
{
    is(kind, "header_stack")
        || is(kind, "stack")
        || is(kind, "stack_field")
        || is(kind, "header_union")
        || is(kind, "union")
        || is(kind, "union_stack")
        || is(kind, "union_stack_field")
        || is(kind, "header_union_stack")
        || is(kind, "register_array")
        || is(kind, "register")
        || is(kind, "meter_array")
        || is(kind, "extern")
        || is(kind, "lookahead")
}

/// The kind that a value's `type` names.
#[tactic(auto, unfolding(crate::specs::Kinds::value_kind))]
pub fn value_kind(kind: &str) -> ValueKind
    ensures { result ≡ value_kind kind.now }
{
    if is(kind, "field") {
        ValueKind::Field
    } else if is(kind, "hexstr") {
        ValueKind::Literal
    } else if is(kind, "bool") {
        ValueKind::Truth
    } else if is(kind, "runtime_data") || is(kind, "local") {
        ValueKind::Datum
    } else if is(kind, "expression") {
        ValueKind::Expression
    } else if is(kind, "header") {
        ValueKind::Header
    } else if is(kind, "regular") {
        ValueKind::Regular
    } else if is(kind, "counter_array") {
        ValueKind::CounterArray
    } else if is(kind, "learn_list") {
        ValueKind::LearnList
    } else if is_left_out_kind(kind) {
        ValueKind::LeftOut
    } else {
        ValueKind::Other
    }
}

fn sum_operator(op: &str) -> Option<BinaryOperator>
    ensures { result ≡ sum_operator op.now }
{
    if is(op, "+") {
        Some(BinaryOperator::Add)
    } else if is(op, "-") {
        Some(BinaryOperator::Subtract)
    } else if is(op, "*") {
        Some(BinaryOperator::Multiply)
    } else if is(op, "<<") {
        Some(BinaryOperator::ShiftLeft)
    } else if is(op, ">>") {
        Some(BinaryOperator::ShiftRight)
    } else {
        None
    }
}

fn bit_operator(op: &str) -> Option<BinaryOperator>
    ensures { result ≡ bit_operator op.now }
{
    if is(op, "&") {
        Some(BinaryOperator::BitAnd)
    } else if is(op, "|") {
        Some(BinaryOperator::BitOr)
    } else if is(op, "^") {
        Some(BinaryOperator::BitXor)
    } else {
        None
    }
}

fn comparison(op: &str) -> Option<BinaryOperator>
    ensures { result ≡ comparison op.now }
{
    if is(op, "==") {
        Some(BinaryOperator::Equal)
    } else if is(op, "!=") {
        Some(BinaryOperator::NotEqual)
    } else if is(op, "<") {
        Some(BinaryOperator::Less)
    } else if is(op, "<=") {
        Some(BinaryOperator::LessOrEqual)
    } else if is(op, ">") {
        Some(BinaryOperator::Greater)
    } else if is(op, ">=") {
        Some(BinaryOperator::GreaterOrEqual)
    } else {
        None
    }
}

fn connective(op: &str) -> Option<BinaryOperator>
    ensures { result ≡ connective op.now }
{
    if is(op, "and") {
        Some(BinaryOperator::And)
    } else if is(op, "or") {
        Some(BinaryOperator::Or)
    } else {
        None
    }
}

#[tactic(auto, unfolding(crate::specs::Kinds::binary_operator))]
fn binary_operator(op: &str) -> Option<BinaryOperator>
    ensures { result ≡ binary_operator op.now }
{
    if let Some(operator) = sum_operator(op) {
        return Some(operator);
    }
    if let Some(operator) = bit_operator(op) {
        return Some(operator);
    }
    if let Some(operator) = comparison(op) {
        return Some(operator);
    }
    connective(op)
}

fn unary_operator(op: &str) -> Option<UnaryOperator>
    ensures { result ≡ unary_operator op.now }
{
    if is(op, "~") {
        Some(UnaryOperator::BitNot)
    } else if is(op, "not") {
        Some(UnaryOperator::Not)
    } else if is(op, "d2b") {
        Some(UnaryOperator::ToTruth)
    } else if is(op, "b2d") {
        Some(UnaryOperator::ToNumber)
    } else {
        None
    }
}

/// The operation of a name, if it is one that is served.
#[tactic(auto, unfolding(crate::specs::Kinds::operation_of))]
pub fn operation_of(op: &str) -> Option<Operation>
    ensures { result ≡ operation_of op.now }
{
    if is(op, "valid") {
        return Some(Operation::Valid);
    }
    if is(op, "?") {
        return Some(Operation::Choice);
    }
    if let Some(operator) = unary_operator(op) {
        return Some(Operation::Unary(operator));
    }
    match binary_operator(op) {
        Some(operator) => Some(Operation::Binary(operator)),
        None => None,
    }
}

/// Whether the operator of a name is one that is left out.
#[tactic(auto, unfolding(crate::specs::Kinds::is_left_out_operator))]
pub fn is_left_out_operator(op: &str) -> bool
    ensures { result ≡ is_left_out_operator op.now }
{
    is(op, "sat_cast")
        || is(op, "usat_cast")
        || is(op, "two_comp_mod")
        || is(op, "dereference_header_stack")
        || is(op, "dereference_union_stack")
        || is(op, "last_stack_index")
        || is(op, "size_stack")
        || is(op, "access_field")
        || is(op, "access_union_header")
        || is(op, "valid_union")
}
