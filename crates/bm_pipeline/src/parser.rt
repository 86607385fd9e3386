//! The parser.
use crate::headers::FieldRef;
use bm_expr::{FieldPlace, Number};
use list_types::List;

/// The numbers by which `parser_error` tells how a parse ended.
#[derive(Clone, Copy)]
pub struct ErrorNumbers {
    pub no_error: u64,
    pub packet_too_short: u64,
    pub no_match: u64,
}

/// An operation of a parser's state.
#[derive(Drop)]
pub enum ParserOp {
    /// `extract` of the header with this place among the headers.
    Extract(usize),
    /// `set`: the value is cut to the field's width.
    Set { target: FieldPlace, value: Number },
}

/// What a transition asks of the key.
#[derive(Clone, Copy)]
pub enum KeyTest {
    /// `default`: every key.
    Default,
    /// The bits of the mask are those of the value. A transition without a mask has one of 128 one-bits.
    Masked { value: u128, mask: u128 },
}

/// A transition, by the place of the state that it leads to; without one the packet is accepted.
#[derive(Clone, Copy)]
pub struct Transition {
    pub test: KeyTest,
    pub next_state: Option<usize>,
}

#[derive(Drop)]
pub struct ParseState {
    pub parser_ops: List<ParserOp>,
    /// The fields of the key, each in whole bytes, at most 16 bytes together.
    pub transition_key: List<FieldRef>,
    /// The first that the key passes is taken.
    pub transitions: List<Transition>,
}

#[derive(Drop)]
pub struct Parser {
    /// The place of the first state.
    pub init_state: usize,
    pub parse_states: List<ParseState>,
}
