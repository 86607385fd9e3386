//! A pipeline of nothing: no update asks for what becomes of a packet.
ghost use Rattle.std.specs.Prelude.{◌≡◌, ◌∷◌, [], IfOk};
ghost use Rattle.update_rows.specs.Nothing.{one_field, no_parser, no_program};

use bm_expr::{FieldPlace, HeaderPlace};
use bm_pipeline::Pipeline;
use bm_pipeline::headers::{Header, StandardMetadata};
use bm_pipeline::parser::{ErrorNumbers, ParseState, Parser};
use bm_pipeline::program::Program;
use list_types::{List, NoMemory};
use std::alloc::Global;

// `egress_spec`, which is all that each program has.
const EGRESS_SPEC: FieldPlace = FieldPlace {
    index: 0,
    header: 0,
    width: 9,
};

fn headers(alloc: Global) -> Result<List<Header>, NoMemory>
    ensures { IfOk result (λ headers. headers ≡ one_field ∷ []) }
{
    let mut widths = List::new(alloc);
    widths.push(9)?;
    let mut headers = List::new(alloc);
    headers.push(Header {
        place: HeaderPlace {
            header: 0,
            first: 0,
            count: 1,
        },
        metadata: true,
        widths,
        bits: 9,
    })?;
    Ok(headers)
}

fn parser(alloc: Global) -> Result<Parser, NoMemory>
    ensures { IfOk result (λ parser. parser ≡ no_parser) }
{
    let mut parse_states = List::new(alloc);
    parse_states.push(ParseState {
        parser_ops: List::new(alloc),
        transition_key: List::new(alloc),
        transitions: List::new(alloc),
    })?;
    Ok(Parser {
        init_state: 0,
        parse_states,
    })
}

#[tactic(auto, unfolding(crate::specs::Nothing::no_program))]
fn program(alloc: Global) -> Result<Program, NoMemory>
    ensures { IfOk result (λ program. program ≡ no_program) }
{
    let headers = headers(alloc)?;
    let parser = parser(alloc)?;
    Ok(Program {
        headers,
        fields: 1,
        standard_metadata: StandardMetadata {
            ingress_port: None,
            packet_length: None,
            egress_spec: EGRESS_SPEC,
            egress_port: None,
            egress_rid: None,
            mcast_grp: None,
            parser_error: None,
            checksum_error: None,
        },
        errors: ErrorNumbers {
            no_error: 0,
            packet_too_short: 1,
            no_match: 2,
        },
        parser,
        deparser: List::new(alloc),
        calculations: List::new(alloc),
        checksums: List::new(alloc),
        learn_lists: List::new(alloc),
        actions: List::new(alloc),
        tables: List::new(alloc),
        conditionals: List::new(alloc),
        ingress: None,
        egress: None,
    })
}

/// The pipeline that does nothing with a packet.
#[tactic(auto, using(crate::proofs::ValidNothing::no_program_is_valid))]
pub(crate) fn pipeline(alloc: Global) -> Result<Pipeline, NoMemory> {
    Ok(Pipeline::new(program(alloc)?))
}
