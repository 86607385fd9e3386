//! The parser.
ghost use Rattle.std.specs.Prelude.{◌≡◌, ◌≤◌, ◌<◌, [], All, length, drop, IfSome, slice_get};
ghost use Rattle.canon_bytes.specs.Bits.{bits};
ghost use Rattle.bm_expr.specs.Fits.{FieldFits};
ghost use Rattle.bm_expr.specs.Meaning.{counts_of};
ghost use Rattle.bm_expr.specs.Store.{Contents};
ghost use Rattle.bm_pipeline.specs.Validity.{IsValid, IsParserOp, IsParseState};
ghost use Rattle.bm_pipeline.specs.declared.parser.ParserOp.TheVariants as ops;
ghost use Rattle.program_spec.specs.Parsing as spec;
ghost use Rattle.program_spec.specs.Stores as stores;
ghost use Rattle.pkt_codec.specs.Room.{HasRoom, AreAsLarge};
ghost use Rattle.pkt_codec.specs.Steps.{reading_at, went_on, outcome_of, GoesWithin};

use crate::fields::read_fields;
use crate::headers::header_at;
use crate::reading::taken;
use bm_expr::{FieldPlace, Store, value};
use bm_pipeline::Pipeline;
use bm_pipeline::parser::{ParseState, ParserOp};
use bm_pipeline::program::Program;

/// What follows a state of the parser.
#[derive(Clone, Copy)]
pub(crate) enum Step {
    /// The parse ends with this error.
    Stopped(u64),
    /// The parse ends without one.
    Accepted,
    /// It goes on in the state with this place.
    Goes(usize),
}

/// Assigns to a field that the program may lack.
pub(crate) fn assign_if(place: Option<FieldPlace>, value: u128, store: &mut Store)
    requires in_store { IfSome place (FieldFits (counts_of store.old [])) }
    ensures assigned { store.new ≡ stores.assigned_if place value store.old }
    ensures as_large { AreAsLarge store.old store.new }
{
    if let Some(place) = place {
        store.assign(place, value);
    }
}

// Extracts a header behind the bytes that were used, or makes it invalid where too few are left.
fn extract(
    program: &Program,
    place: usize,
    packet: &[u8],
    used: &mut usize,
    store: &mut Store,
) -> bool
    requires valid { IsValid program.now }
    requires op { IsParserOp program.now (ops.Extract place) }
    requires room { HasRoom program.now store.old }
    requires used { used.old ≤ length packet.now }
    ensures done { spec.extracted (slice_get program.now.headers place) (reading_at packet.now used.old store.old) ≡ went_on result (reading_at packet.now used.new store.new) }
    ensures used { used.new ≤ length packet.now }
    ensures as_large { AreAsLarge store.old store.new }
{
    let header = header_at(program, place);
    let size = header.bits / 8;
    let rest = &packet[*used..];
    if rest.len() < size {
        store.set_valid(header.place.header, false);
        return false;
    }
    read_fields(header, rest, store);
    store.set_valid(header.place.header, true);
    *used += size;
    true
}

// Does an operation of a state. It answers whether the parse goes on.
fn run_op(
    program: &Program,
    op: &ParserOp,
    packet: &[u8],
    used: &mut usize,
    store: &mut Store,
) -> bool
    requires valid { IsValid program.now }
    requires op { IsParserOp program.now op.now }
    requires room { HasRoom program.now store.old }
    requires used { used.old ≤ length packet.now }
    ensures done { spec.op_done program.now (reading_at packet.now used.old store.old) op.now ≡ went_on result (reading_at packet.now used.new store.new) }
    ensures used { used.new ≤ length packet.now }
    ensures as_large { AreAsLarge store.old store.new }
{
    match op {
        ParserOp::Extract(place) => extract(program, *place, packet, used, store),
        ParserOp::Set {
            target,
            value: number,
        } => {
            let assigned = value(number, store, &[]);
            store.assign(*target, assigned);
            true
        }
    }
}

// Does a state's operations in order, up to the first that stops the parse.
fn run_ops(
    program: &Program,
    ops: &[ParserOp],
    packet: &[u8],
    used: &mut usize,
    store: &mut Store,
) -> bool
    requires valid { IsValid program.now }
    requires ops_in { All (IsParserOp program.now) ops.now }
    requires room { HasRoom program.now store.old }
    requires used { used.old ≤ length packet.now }
    ensures done { spec.ops_done program.now ops.now (reading_at packet.now used.old store.old) ≡ went_on result (reading_at packet.now used.new store.new) }
    ensures used { used.new ≤ length packet.now }
    ensures as_large { AreAsLarge store.old store.new }
{
    for op in ops {
        if !run_op(program, op, packet, used, store) {
            return false;
        }
    }
    true
}

// Does what a state does: its operations, then the transition that its key takes.
fn run_state(
    program: &Program,
    place: usize,
    packet: &[u8],
    used: &mut usize,
    store: &mut Store,
) -> Step
    requires valid { IsValid program.now }
    requires place { place < length program.now.parser.parse_states }
    requires room { HasRoom program.now store.old }
    requires used { used.old ≤ length packet.now }
    ensures done { spec.state_done program.now (spec.state_at program.now place) (reading_at packet.now used.old store.old)
        ≡ record { reading = reading_at packet.now used.new store.new; outcome = outcome_of result } }
    ensures next { GoesWithin (length program.now.parser.parse_states) result }
    ensures used { used.new ≤ length packet.now }
    ensures as_large { AreAsLarge store.old store.new }
{
    let state = &program.parser.parse_states.as_slice()[place];
    if !run_ops(program, state.parser_ops.as_slice(), packet, used, store) {
        return Step::Stopped(program.errors.packet_too_short);
    }
    match taken(state, store) {
        None => Step::Stopped(program.errors.no_match),
        Some(transition) => match transition.next_state {
            None => Step::Accepted,
            Some(next) => Step::Goes(next),
        },
    }
}

// Parses from the first state on. It answers the error's number.
fn run_states(program: &Program, packet: &[u8], used: &mut usize, store: &mut Store) -> u64
    requires valid { IsValid program.now }
    requires room { HasRoom program.now store.old }
    requires used { used.old ≤ length packet.now }
    ensures done { spec.parse_from program.now (length program.now.parser.parse_states) program.now.parser.init_state (reading_at packet.now used.old store.old)
        ≡ spec.with_error (reading_at packet.now used.new store.new) result }
    ensures used { used.new ≤ length packet.now }
    ensures as_large { AreAsLarge store.old store.new }
{
    let mut state = program.parser.init_state;
    for _ in 0..program.parser.parse_states.len() {
        match run_state(program, state, packet, used, store) {
            Step::Stopped(error) => return error,
            Step::Accepted => return program.errors.no_error,
            Step::Goes(next) => state = next,
        }
    }
    program.errors.no_error
}

/// What came of a parse.
#[derive(Clone, Copy)]
pub struct Parsed {
    /// How many bytes were extracted.
    pub used: usize,
    /// The number of the error, of those that the program gives.
    pub error: u64,
}

/// Parses a packet into the store, and sets `parser_error`. An extract that does not fit leaves its header invalid and
/// its bytes where they are, and ends the parse with PacketTooShort; a key that no transition takes ends it with NoMatch.
/// It takes no memory.
pub fn parse(pipeline: &Pipeline, packet: &[u8], store: &mut Store) -> Parsed
    requires room { HasRoom pipeline.now store.old }
    ensures store { store.new ≡ (spec.parse pipeline.now (bits packet.now) store.old).store }
    ensures rest { bits (drop result.used packet.now) ≡ (spec.parse pipeline.now (bits packet.now) store.old).rest }
    ensures error { result.error ≡ (spec.parse pipeline.now (bits packet.now) store.old).error }
    ensures used { result.used ≤ length packet.now }
    ensures as_large { AreAsLarge store.old store.new }
{
    let program = pipeline.program();
    let mut used = 0;
    let error = run_states(program, packet, &mut used, store);
    assign_if(
        program.standard_metadata.parser_error,
        u128::from(error),
        store,
    );
    Parsed { used, error }
}
