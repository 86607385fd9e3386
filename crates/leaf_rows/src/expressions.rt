//! Operators of expressions.
ghost use Rattle.std.specs.Prelude.{◌≡◌, [], IfOk};
ghost use Rattle.bm_expr.specs.Meaning.{NumberInStore, TruthInStore};
ghost use Rattle.bm_expr.specs.Trees.{Literal};

use bm_expr::{Number, NumberNode, Store, Truth, TruthNode, truth, value};
use row_lines::{NoAnswer, tell};
use std::alloc::Global;

fn literal(alloc: Global, value: u128) -> Result<Box<Number>, NoAnswer>
    ensures { IfOk result (λ number. number.value ≡ Literal value) }
{
    Ok(Box::new(alloc, Number::new(NumberNode::Literal(value)))?)
}

fn operation(alloc: Global, operator: &str, left: u128, right: u128) -> Result<Number, NoAnswer>
    ensures { IfOk result (λ number. NumberInStore (record { fields = []; valid = [] }) [] number) }
{
    let a = literal(alloc, left)?;
    let b = literal(alloc, right)?;
    Ok(match operator {
        "+" => Number::new(NumberNode::Add(a, b)),
        "-" => Number::new(NumberNode::Subtract(a, b)),
        "*" => Number::new(NumberNode::Multiply(a, b)),
        "<<" => Number::new(NumberNode::ShiftLeft(a, b)),
        ">>" => Number::new(NumberNode::ShiftRight(a, b)),
        "&" => Number::new(NumberNode::BitAnd(a, b)),
        "|" => Number::new(NumberNode::BitOr(a, b)),
        "^" => Number::new(NumberNode::BitXor(a, b)),
        _ => return Err(NoAnswer),
    })
}

/// Of two numbers with an operator between them: the value.
pub fn operator(alloc: Global, asked: &[&str], told: &mut String) -> Result<(), NoAnswer> {
    let [left, operator, right] = asked else {
        return Err(NoAnswer);
    };
    let store = Store::open(alloc, 0, 0)?;
    let number = operation(
        alloc,
        operator,
        left.parse::<u128>()?,
        right.parse::<u128>()?,
    )?;
    tell(told, value(&number, &store, &[]));
    Ok(())
}

fn comparison(alloc: Global, operator: u8, left: u128, right: u128) -> Result<Truth, NoAnswer>
    ensures { IfOk result (λ truth. TruthInStore (record { fields = []; valid = [] }) [] truth) }
{
    let a = literal(alloc, left)?;
    let b = literal(alloc, right)?;
    Ok(match operator {
        0 => Truth::new(TruthNode::Equal(a, b)),
        1 => Truth::new(TruthNode::NotEqual(a, b)),
        2 => Truth::new(TruthNode::Less(a, b)),
        3 => Truth::new(TruthNode::LessOrEqual(a, b)),
        4 => Truth::new(TruthNode::Greater(a, b)),
        _ => Truth::new(TruthNode::GreaterOrEqual(a, b)),
    })
}

/// Of two numbers: `==`, `!=`, `<`, `<=`, `>` and `>=`.
pub fn comparisons(alloc: Global, asked: &[&str], told: &mut String) -> Result<(), NoAnswer> {
    let [left, right] = asked else {
        return Err(NoAnswer);
    };
    let left = left.parse::<u128>()?;
    let right = right.parse::<u128>()?;
    let store = Store::open(alloc, 0, 0)?;
    for operator in 0..6u8 {
        let compared = comparison(alloc, operator, left, right)?;
        tell(told, truth(&compared, &store, &[]));
    }
    Ok(())
}
