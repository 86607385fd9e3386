//! Checksums.
ghost use Rattle.std.specs.Prelude.{◌≡◌, [], length, IfSome};
ghost use Rattle.bm_expr.specs.Meaning.{TruthInStore};
ghost use Rattle.bm_pipeline.specs.Validity.{IsValid, IsChecksum};
ghost use Rattle.program_spec.specs.Checksums as spec;
ghost use Rattle.pkt_codec.specs.Room.{HasRoom, AreAsLarge};

use crate::ones::csum16;
use crate::parsing::assign_if;
use bm_expr::{Store, Truth, truth};
use bm_pipeline::Pipeline;
use bm_pipeline::checksums::Checksum;
use bm_pipeline::program::Program;

// Whether a condition holds; without one it does.
fn condition_holds(condition: &Option<Truth>, store: &Store) -> bool
    requires in_store { IfSome condition.now (TruthInStore store.now []) }
    ensures { result ≡ spec.condition_holds store.now condition.now }
{
    match condition {
        None => true,
        Some(condition) => truth(condition, store, &[]),
    }
}

// What a checksum should be.
fn sum_of(program: &Program, checksum: &Checksum, store: &Store) -> u128
    requires valid { IsValid program.now }
    requires checksum { IsChecksum program.now checksum.now }
    requires room { HasRoom program.now store.now }
    ensures { result ≡ spec.sum_of program.now store.now checksum.now }
{
    let calculation = &program.calculations.as_slice()[checksum.calculation];
    u128::from(csum16(store, calculation.input.as_slice()))
}

// Verifies a checksum.
fn verify(program: &Program, checksum: &Checksum, store: &mut Store)
    requires valid { IsValid program.now }
    requires checksum { IsChecksum program.now checksum.now }
    requires room { HasRoom program.now store.old }
    ensures done { store.new ≡ spec.verified program.now store.old checksum.now }
    ensures as_large { AreAsLarge store.old store.new }
{
    if !checksum.verify || !condition_holds(&checksum.if_cond, store) {
        return;
    }
    if store.field(checksum.target) != sum_of(program, checksum, store) {
        assign_if(program.standard_metadata.checksum_error, 1, store);
    }
}

// Updates a checksum.
fn update(program: &Program, checksum: &Checksum, store: &mut Store)
    requires valid { IsValid program.now }
    requires checksum { IsChecksum program.now checksum.now }
    requires room { HasRoom program.now store.old }
    ensures done { store.new ≡ spec.updated program.now store.old checksum.now }
    ensures as_large { AreAsLarge store.old store.new }
{
    if !checksum.update || !condition_holds(&checksum.if_cond, store) {
        return;
    }
    let sum = sum_of(program, checksum, store);
    store.assign(checksum.target, sum);
}

/// Verifies the checksums of a packet that was parsed, in order: each that differs sets `checksum_error` to 1. It takes
/// no memory.
pub fn verify_sums(pipeline: &Pipeline, store: &mut Store)
    requires room { HasRoom pipeline.now store.old }
    ensures done { store.new ≡ spec.sums_verified pipeline.now store.old }
    ensures as_large { AreAsLarge store.old store.new }
{
    let program = pipeline.program();
    for checksum in program.checksums.as_slice() {
        verify(program, checksum, store);
    }
}

/// Writes the checksums of a packet that leaves, in order. It takes no memory.
pub fn update_sums(pipeline: &Pipeline, store: &mut Store)
    requires room { HasRoom pipeline.now store.old }
    ensures done { store.new ≡ spec.sums_updated pipeline.now store.old }
    ensures as_large { AreAsLarge store.old store.new }
{
    let program = pipeline.program();
    for checksum in program.checksums.as_slice() {
        update(program, checksum, store);
    }
}
