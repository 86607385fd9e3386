//! Which expressions fit a program.
ghost use Rattle.std.specs.Prelude.{◌≡◌, ◌↔◌, IsTrue};
ghost use Rattle.bm_expr.specs.Fits as spec;
ghost use Rattle.bm_expr.specs.Fits.{NumberFits, TruthFits};

use crate::expression::{Number, NumberNode, Truth, TruthNode};
use crate::store::FieldPlace;

/// How many fields and headers a program has, and how many data an action.
#[derive(Clone, Copy)]
pub struct Counts {
    pub fields: usize,
    pub headers: usize,
    pub args: usize,
}

fn field_fits(place: FieldPlace, counts: &Counts) -> bool
    ensures { result ≡ spec.field_fits counts.now place }
{
    place.index < counts.fields && place.header < counts.headers && place.width <= 128
}

#[cycle(fitting)]
fn number_fits(number: &Number, counts: &Counts) -> bool
    ensures { result ≡ spec.number_fits counts.now number.now }
{
    match &number.node {
        NumberNode::Field(place) => field_fits(*place, counts),
        NumberNode::Literal(literal) => *literal <= u128::MAX,
        NumberNode::Datum(index) => *index < counts.args,
        NumberNode::Add(a, b) => number_fits(a, counts) && number_fits(b, counts),
        NumberNode::Subtract(a, b) => number_fits(a, counts) && number_fits(b, counts),
        NumberNode::Multiply(a, b) => number_fits(a, counts) && number_fits(b, counts),
        NumberNode::ShiftLeft(a, b) => number_fits(a, counts) && number_fits(b, counts),
        NumberNode::ShiftRight(a, b) => number_fits(a, counts) && number_fits(b, counts),
        NumberNode::BitAnd(a, b) => number_fits(a, counts) && number_fits(b, counts),
        NumberNode::BitOr(a, b) => number_fits(a, counts) && number_fits(b, counts),
        NumberNode::BitXor(a, b) => number_fits(a, counts) && number_fits(b, counts),
        NumberNode::BitNot(a) => number_fits(a, counts),
        NumberNode::Choose(condition, yes, no) => truth_fits(condition, counts)
            && number_fits(yes, counts)
            && number_fits(no, counts),
        NumberNode::OfTruth(a) => truth_fits(a, counts),
    }
}

#[cycle(fitting)]
fn truth_fits(truth: &Truth, counts: &Counts) -> bool
    ensures { result ≡ spec.truth_fits counts.now truth.now }
{
    match &truth.node {
        TruthNode::Constant(_) => true,
        TruthNode::Equal(a, b) => number_fits(a, counts) && number_fits(b, counts),
        TruthNode::NotEqual(a, b) => number_fits(a, counts) && number_fits(b, counts),
        TruthNode::Less(a, b) => number_fits(a, counts) && number_fits(b, counts),
        TruthNode::LessOrEqual(a, b) => number_fits(a, counts) && number_fits(b, counts),
        TruthNode::Greater(a, b) => number_fits(a, counts) && number_fits(b, counts),
        TruthNode::GreaterOrEqual(a, b) => number_fits(a, counts) && number_fits(b, counts),
        TruthNode::And(a, b) => truth_fits(a, counts) && truth_fits(b, counts),
        TruthNode::Or(a, b) => truth_fits(a, counts) && truth_fits(b, counts),
        TruthNode::Not(a) => truth_fits(a, counts),
        TruthNode::Select(condition, yes, no) => truth_fits(condition, counts)
            && truth_fits(yes, counts)
            && truth_fits(no, counts),
        TruthNode::IsValid(header) => *header < counts.headers,
        TruthNode::OfNumber(a) => number_fits(a, counts),
    }
}

/// Whether a number fits these counts: it may be asked of each store of so many fields and headers, with so many data.
#[tactic(auto, using(crate::proofs::FittingLemmas::number_decided))]
pub fn fits(number: &Number, counts: &Counts) -> bool
    ensures { IsTrue result ↔ NumberFits counts.now number.now }
{
    number_fits(number, counts)
}

/// Whether a truth value fits these counts.
#[tactic(auto, using(crate::proofs::FittingLemmas::truth_decided))]
pub fn fits_truth(truth: &Truth, counts: &Counts) -> bool
    ensures { IsTrue result ↔ TruthFits counts.now truth.now }
{
    truth_fits(truth, counts)
}
