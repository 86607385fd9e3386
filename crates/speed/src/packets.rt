// Fields of a packet, and expressions.
ghost use Rattle.std.specs.Prelude.{◌≡◌, ◌<◌, ◌≤◌, List, length, ℕ, IfOk};
ghost use Rattle.bm_expr.specs.Meaning.{NumberInStore};
ghost use Rattle.bm_expr.specs.Store.{Contents};

use crate::moments::nanoseconds;
use bm_expr::{Number, NumberNode, Store, value};
use pkt_bits::take;
use std::alloc::{AllocError, Global};
use std::io;
use std::time::Clock;

const TIMES: u32 = 4_000_000;

/// What reading or computing took, each time, in hundredths of a nanosecond, and the sum of what came, which keeps the
/// work from being left out.
#[derive(Drop)]
pub struct Measured {
    pub hundredths: u128,
    pub sum: u128,
}

fn hundredths(before: u128, after: u128) -> u128 {
    after.saturating_sub(before).saturating_mul(100) / u128::from(TIMES)
}

/// Reads a field of 48 bits, at one of eight offsets, again and again.
pub fn fields<R: Clock>(rt: &R, packet: &[u8]) -> Measured
    requires packet { 16 ≤ length packet.now }
{
    let before = nanoseconds(rt);
    let mut sum = 0u128;
    for number in 0..TIMES {
        sum = sum.wrapping_add(take(packet, (number % 8) as usize, 48));
    }
    let after = nanoseconds(rt);
    Measured {
        hundredths: hundredths(before, after),
        sum,
    }
}

// The two that an operator takes.
fn both(
    alloc: Global,
    left: Number,
    right: Number,
) -> Result<(Box<Number>, Box<Number>), AllocError>
    ensures left { IfOk result (λ pair. pair.0.value ≡ left) }
    ensures right { IfOk result (λ pair. pair.1.value ≡ right) }
{
    // a number that ends with its scope would be let go part by part in this proof
    let left = match Box::new(alloc, left) {
        Ok(left) => left,
        Err(error) => {
            drop(right);
            return Err(error.into());
        }
    };
    match Box::new(alloc, right) {
        Ok(right) => Ok((left, right)),
        Err(error) => {
            drop(left);
            Err(error.into())
        }
    }
}

// ((datum 0 + 3) * 5) ^ datum 0
fn expression(alloc: Global) -> Result<Number, AllocError>
    ensures { (store : Contents) → (args : List ℕ) → 0 < length args → IfOk result (λ number. NumberInStore store args number) }
{
    let three = Number::new(NumberNode::Literal(3));
    let (left, right) = both(alloc, Number::new(NumberNode::Datum(0)), three)?;
    let sum = Number::new(NumberNode::Add(left, right));
    let (left, right) = both(alloc, sum, Number::new(NumberNode::Literal(5)))?;
    let product = Number::new(NumberNode::Multiply(left, right));
    let (left, right) = both(alloc, product, Number::new(NumberNode::Datum(0)))?;
    Ok(Number::new(NumberNode::BitXor(left, right)))
}

// Computes a number of one datum again and again.
fn computed<R: Clock>(rt: &R, number: &Number, store: &Store) -> Measured
    requires in_store { (args : List ℕ) → 0 < length args → NumberInStore store.now args number.now }
{
    let before = nanoseconds(rt);
    let mut sum = 0u128;
    for datum in 0..TIMES {
        sum = sum.wrapping_add(value(number, store, &[u128::from(datum)]));
    }
    let after = nanoseconds(rt);
    Measured {
        hundredths: hundredths(before, after),
        sum,
    }
}

/// Computes an expression of three operators again and again.
pub fn expressions<R: Clock + AllocGlobal>(rt: &R) -> io::Result<Measured> {
    let alloc = rt.alloc();
    let Ok(store) = Store::open(alloc, 0, 0) else {
        return Err(io::Error::from(io::ErrorKind::OutOfMemory));
    };
    let measured = match expression(alloc) {
        Ok(number) => {
            let measured = computed(rt, &number, &store);
            drop(number);
            Ok(measured)
        }
        Err(_) => Err(io::Error::from(io::ErrorKind::OutOfMemory)),
    };
    drop(store);
    measured
}
