//! The bridge's pipeline.
ghost use Rattle.std.specs.Prelude.{◌≡◌, ◌∷◌, [], IfOk, OnOk};
ghost use Rattle.plane_spec.specs.Bridge.{bridge_program, bridge_parser, metadata_header, eth_header, metadata_field, destination, forward_body, drop_body, dropping, bridge_table_body};

use crate::objects::{DROP, FORWARD, TABLE, only};
use bm_expr::{FieldPlace, HeaderPlace, Number, NumberNode};
use bm_pipeline::Pipeline;
use bm_pipeline::actions::{Action, Primitive};
use bm_pipeline::headers::{FieldRef, Header, StandardMetadata};
use bm_pipeline::parser::{ErrorNumbers, KeyTest, ParseState, Parser, ParserOp, Transition};
use bm_pipeline::program::Program;
use bm_pipeline::tables::{DefaultEntry, Next, Node, Table, TableAction};
use list_types::{List, NoMemory};
use p4_types::keys::Arguments;
use std::alloc::Global;

// The places of the headers.
const METADATA: usize = 0;

const ETH: usize = 1;

// `drop` as an action of the table, which ends ingress.
const DROPPING: TableAction = TableAction {
    action: 1,
    reference: Some(DROP),
    next: Next::End,
};

// A field of `standard_metadata`.
fn metadata_field(index: usize, width: u32) -> FieldPlace
    ensures { result ≡ metadata_field index width }
{
    FieldPlace {
        index,
        header: METADATA,
        width,
    }
}

fn metadata_header(alloc: Global) -> Result<Header, NoMemory>
    ensures { IfOk result (λ header. header ≡ metadata_header) }
{
    let mut widths = List::new(alloc);
    widths.push(9)?;
    widths.push(9)?;
    widths.push(9)?;
    widths.push(32)?;
    widths.push(32)?;
    widths.push(1)?;
    Ok(Header {
        place: HeaderPlace {
            header: METADATA,
            first: 0,
            count: 6,
        },
        metadata: true,
        widths,
        bits: 92,
    })
}

fn eth_header(alloc: Global) -> Result<Header, NoMemory>
    ensures { IfOk result (λ header. header ≡ eth_header) }
{
    let mut widths = List::new(alloc);
    widths.push(48)?;
    widths.push(48)?;
    widths.push(16)?;
    Ok(Header {
        place: HeaderPlace {
            header: ETH,
            first: 6,
            count: 3,
        },
        metadata: false,
        widths,
        bits: 112,
    })
}

fn headers(alloc: Global) -> Result<List<Header>, NoMemory>
    ensures { IfOk result (λ headers. headers ≡ metadata_header ∷ eth_header ∷ []) }
{
    let mut headers = only(alloc, metadata_header(alloc)?)?;
    headers.push(eth_header(alloc)?)?;
    Ok(headers)
}

#[tactic(auto, unfolding(plane_spec::specs::Bridge::bridge_program))]
fn standard_metadata() -> StandardMetadata
    ensures { result ≡ bridge_program.standard_metadata }
{
    StandardMetadata {
        ingress_port: Some(metadata_field(0, 9)),
        packet_length: Some(metadata_field(3, 32)),
        egress_spec: metadata_field(1, 9),
        egress_port: Some(metadata_field(2, 9)),
        egress_rid: None,
        mcast_grp: None,
        parser_error: Some(metadata_field(4, 32)),
        checksum_error: Some(metadata_field(5, 1)),
    }
}

fn parser(alloc: Global) -> Result<Parser, NoMemory>
    ensures { IfOk result (λ parser. parser ≡ bridge_parser) }
{
    let parser_ops = only(alloc, ParserOp::Extract(ETH))?;
    let accepted = Transition {
        test: KeyTest::Default,
        next_state: None,
    };
    let state = ParseState {
        parser_ops,
        transition_key: List::new(alloc),
        transitions: only(alloc, accepted)?,
    };
    Ok(Parser {
        init_state: 0,
        parse_states: only(alloc, state)?,
    })
}

fn forward(alloc: Global) -> Result<Action, NoMemory>
    ensures { IfOk result (λ action. action ≡ forward_body) }
{
    let runtime_data = only(alloc, 9)?;
    let primitives = only(
        alloc,
        Primitive::Assign {
            target: metadata_field(1, 9),
            value: Number::new(NumberNode::Datum(0)),
        },
    )?;
    Ok(Action {
        runtime_data,
        primitives,
    })
}

fn actions(alloc: Global) -> Result<List<Action>, NoMemory>
    ensures { IfOk result (λ actions. actions ≡ forward_body ∷ drop_body ∷ []) }
{
    let mut actions = only(alloc, forward(alloc)?)?;
    let primitives = only(alloc, Primitive::MarkToDrop)?;
    actions.push(Action {
        runtime_data: List::new(alloc),
        primitives,
    })?;
    Ok(actions)
}

fn table(alloc: Global) -> Result<Table, NoMemory>
    ensures { IfOk result (λ table. table ≡ bridge_table_body) }
{
    let destination = FieldPlace {
        index: 6,
        header: ETH,
        width: 48,
    };
    let key = only(alloc, FieldRef::Field(destination))?;
    let forwarding = TableAction {
        action: 0,
        reference: Some(FORWARD),
        next: Next::End,
    };
    let mut actions = only(alloc, forwarding)?;
    actions.push(DROPPING)?;
    Ok(Table {
        id: Some(TABLE),
        key,
        actions,
        hit: Next::NotNamed,
        miss: Next::NotNamed,
        base_default_next: None,
        default_entry: Some(DefaultEntry {
            action: DROPPING,
            action_data: Arguments::new(),
        }),
        selector: List::new(alloc),
    })
}

#[tactic(auto, unfolding(plane_spec::specs::Bridge::bridge_program))]
fn program(alloc: Global) -> Result<Program, NoMemory>
    ensures { IfOk result (λ program. program ≡ bridge_program) }
{
    let headers = headers(alloc)?;
    let parser = parser(alloc)?;
    let deparser = only(alloc, ETH)?;
    let actions = actions(alloc)?;
    let tables = only(alloc, table(alloc)?)?;
    Ok(Program {
        headers,
        fields: 9,
        standard_metadata: standard_metadata(),
        errors: ErrorNumbers {
            no_error: 0,
            packet_too_short: 1,
            no_match: 2,
        },
        parser,
        deparser,
        calculations: List::new(alloc),
        checksums: List::new(alloc),
        learn_lists: List::new(alloc),
        actions,
        tables,
        conditionals: List::new(alloc),
        ingress: Some(Node::Table(0)),
        egress: None,
    })
}

/// The bridge's pipeline: one table between the parser and the deparser, and an empty egress.
#[tactic(auto, using(plane_spec::proofs::ValidBridge::bridge_is_valid))]
pub(crate) fn pipeline(alloc: Global) -> Result<Pipeline, NoMemory>
    ensures { IfOk result (λ pipeline. pipeline ≡ bridge_program) }
{
    Ok(Pipeline::new(program(alloc)?))
}
