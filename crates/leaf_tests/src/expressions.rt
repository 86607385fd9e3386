// Stores, and expressions over them.
ghost use Rattle.std.specs.Prelude.{◌≡◌, IfOk};
ghost use Rattle.bm_expr.specs.Trees.{Literal};

use bm_expr::{
    FieldPlace, Number, NumberNode, Store, Truth, TruthNode, is_settled, settled, value,
};
use list_types::NoMemory;
use std::alloc::Global;
use std::test::Fail;

fn literal(alloc: Global, value: u128) -> Result<Box<Number>, NoMemory>
    ensures { IfOk result (λ number. number.value ≡ Literal value) }
{
    Ok(Box::new(alloc, Number::new(NumberNode::Literal(value)))?)
}

// A field is 0 while its header is invalid, is cut to its width, and keeps its number.
#[test]
fn fields_of_a_store(rt: HostRuntime) -> Result<(), Fail> {
    let mut store = Store::open(rt.alloc(), 2, 1)?;
    let place = FieldPlace {
        index: 1,
        header: 0,
        width: 9,
    };
    store.set_field(place, 0xffff);
    assert!(rt; store.field(place) == 0 && !store.is_valid(0));
    store.set_valid(0, true);
    assert!(rt; store.field(place) == 0x1ff && store.is_valid(0));
    Ok(())
}

// `1 - 2`.
fn difference(alloc: Global) -> Result<Number, NoMemory> {
    let one = literal(alloc, 1)?;
    Ok(Number::new(NumberNode::Subtract(one, literal(alloc, 2)?)))
}

// `1 - 2 & 15`.
fn cut(alloc: Global) -> Result<Number, NoMemory> {
    let difference = Box::new(alloc, difference(alloc)?)?;
    Ok(Number::new(NumberNode::BitAnd(difference, literal(alloc, 15)?)))
}

// `1 + 2`.
fn sum(alloc: Global) -> Result<Number, NoMemory> {
    let one = literal(alloc, 1)?;
    Ok(Number::new(NumberNode::Add(one, literal(alloc, 2)?)))
}

// Whether the comparison of a number with 3 is settled.
fn is_compared(alloc: Global, number: Number) -> Result<bool, NoMemory> {
    let number = Box::new(alloc, number)?;
    let less = Truth::new(TruthNode::Less(number, literal(alloc, 3)?));
    let less = Number::new(NumberNode::OfTruth(Box::new(alloc, less)?));
    let is_compared = settled(&less);
    drop(less);
    Ok(is_compared)
}

// `1 - 2 & 15` is settled, `1 - 2` is not; a comparison of `1 + 2` with 3 is refused, one of the settled number is not.
#[test]
fn settled_expressions(rt: HostRuntime) -> Result<(), Fail> {
    let alloc = rt.alloc();
    let difference = difference(alloc)?;
    assert!(rt; settled(&difference) && !is_settled(&difference));
    drop(difference);
    let cut = cut(alloc)?;
    assert!(rt; settled(&cut) && is_settled(&cut));
    assert!(rt; is_compared(alloc, cut)?);
    let sum = sum(alloc)?;
    assert!(rt; !is_compared(alloc, sum)?);
    Ok(())
}

// `valid(0) ? 7 : 8`, and the truth values of it.
#[test]
fn choices(rt: HostRuntime) -> Result<(), Fail> {
    let alloc = rt.alloc();
    let mut store = Store::open(alloc, 0, 1)?;
    let condition = Box::new(alloc, Truth::new(TruthNode::IsValid(0)))?;
    let choice = Number::new(NumberNode::Choose(condition, literal(alloc, 7)?, literal(alloc, 8)?));
    assert!(rt; value(&choice, &store, &[]) == 8);
    store.set_valid(0, true);
    assert!(rt; value(&choice, &store, &[]) == 7);
    Ok(())
}
