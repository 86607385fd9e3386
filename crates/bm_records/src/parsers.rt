//! The parser and the deparser.
ghost use Rattle.std.specs.Prelude.{◌≡◌};
ghost use Rattle.std.specs.Prelude as spec;
ghost use Rattle.json_tree.specs.View.{view};
ghost use Rattle.json_shapes.specs.Shapes.{ReadsExactly, Reads};
ghost use Rattle.bm_records.specs.Parsers.{extracted_by, extracted, set_of, parser_op_by, parser_op_of, match_text, match_by, match_of, transition_of, state_of, parser_of, deparser_of};

use crate::operations::{self, ParserOpKind, is};
use crate::raw::{Deparser, MatchValue, ParseState, Parser, ParserOp, Part, Transition};
use bm_values::kinds::ValueKind;
use bm_values::{literals, values};
use json_shapes::shapes::{self, FromJson};
use json_shapes::{Name, OtherShape, arrays};
use json_tree::Element;
use list_types::Refusal;
use std::alloc::Global;

fn extracted_by<'a>(
    alloc: Global,
    kind: ValueKind,
    value: &Element<'a>,
) -> Result<Part<Name<'a>>, Refusal<OtherShape>>
    ensures { Reads result (extracted_by kind (view value.now)) }
{
    match kind {
        ValueKind::Regular => {
            let header = shapes::required(alloc, value, "value")?;
            Ok(Part::Served(header))
        }
        ValueKind::LeftOut => Ok(Part::LeftOut),
        _ => Err(Refusal::For(OtherShape)),
    }
}

#[tactic(auto, unfolding(crate::specs::Parsers::extracted, json_shapes::specs::Arrays::item_at))]
fn extracted<'a>(
    alloc: Global,
    parameters: &Element<'a>,
) -> Result<Part<Name<'a>>, Refusal<OtherShape>>
    ensures { Reads result (extracted (view parameters.now)) }
{
    let Some(value) = parameters.at(0) else {
        return Err(Refusal::For(OtherShape));
    };
    let kind = values::kind_of(&value)?;
    extracted_by(alloc, kind, &value)
}

#[tactic(auto, unfolding(crate::specs::Parsers::set_of))]
fn set<'a>(alloc: Global, parameters: &Element<'a>) -> Result<ParserOp<'a>, Refusal<OtherShape>>
    ensures { Reads result (set_of (view parameters.now)) }
{
    let target = arrays::item_at(alloc, parameters, 0)?;
    let value = arrays::item_at(alloc, parameters, 1)?;
    Ok(ParserOp::Set { target, value })
}

fn parser_op_by<'a>(
    alloc: Global,
    kind: ParserOpKind,
    op: Name<'a>,
    count: usize,
    parameters: &Element<'a>,
) -> Result<ParserOp<'a>, Refusal<OtherShape>>
    ensures { Reads result (parser_op_by kind op.entry count (view parameters.now)) }
{
    match kind {
        ParserOpKind::Extract => {
            arrays::of_count(1, count)?;
            let header = extracted(alloc, parameters)?;
            Ok(ParserOp::Extract(header))
        }
        ParserOpKind::Set => {
            arrays::of_count(2, count)?;
            set(alloc, parameters)
        }
        ParserOpKind::LeftOut => Ok(ParserOp::LeftOut),
        ParserOpKind::Unknown => Ok(ParserOp::Unknown(op)),
    }
}

impl<'a> FromJson<'a> for ParserOp<'a> {
    ghost shape = { parser_op_of };

    #[tactic(auto, unfolding(crate::specs::Parsers::parser_op_of))]
    fn from_json(alloc: Global, value: &Element<'a>) -> Result<ParserOp<'a>, Refusal<OtherShape>> {
        let op: Name = shapes::required(alloc, value, "op")?;
        let Some(parameters) = value.get("parameters") else {
            return Err(Refusal::For(OtherShape));
        };
        let count = arrays::item_count(&parameters)?;
        let kind = operations::parser_op_kind(op.as_str());
        parser_op_by(alloc, kind, op, count, &parameters)
    }

    fn may_be(value: &Element<'a>) -> bool {
        shapes::has(value, "parameters") && shapes::has(value, "op")
    }
}

fn match_text(text: &str) -> Result<MatchValue, OtherShape>
    ensures { ReadsExactly result (match_text text.now) }
{
    if is(text, "default") {
        return Ok(MatchValue::Default);
    }
    match literals::literal_text(text.as_bytes()) {
        Some(literal) => Ok(MatchValue::Literal(literal)),
        None => Err(OtherShape),
    }
}

#[tactic(auto, unfolding(json_shapes::specs::Shapes::required))]
fn match_value(value: &Element<'_>) -> Result<MatchValue, OtherShape>
    ensures { ReadsExactly result (match_by spec.None (view value.now)) }
{
    let Some(inside) = value.get("value") else {
        return Err(OtherShape);
    };
    match inside.as_str() {
        Some(text) => match_text(text),
        None => Err(OtherShape),
    }
}

fn match_by<'a>(kind: &Option<Name<'a>>, value: &Element<'a>) -> Result<MatchValue, OtherShape>
    ensures { ReadsExactly result (match_by kind.now (view value.now)) }
{
    match kind {
        None => match_value(value),
        Some(kind) => {
            if is(kind.as_str(), "default") {
                Ok(MatchValue::Default)
            } else if is(kind.as_str(), "hexstr") {
                match_value(value)
            } else if is(kind.as_str(), "parse_vset") {
                Ok(MatchValue::LeftOut)
            } else {
                Err(OtherShape)
            }
        }
    }
}

#[tactic(auto, unfolding(crate::specs::Parsers::match_of))]
fn match_of(alloc: Global, value: &Element<'_>) -> Result<MatchValue, Refusal<OtherShape>>
    ensures { Reads result (match_of (view value.now)) }
{
    let kind = shapes::unless_absent(alloc, value, "type")?;
    Ok(match_by(&kind, value)?)
}

impl<'a> FromJson<'a> for Transition<'a> {
    ghost shape = { transition_of };

    #[tactic(auto, unfolding(crate::specs::Parsers::transition_of))]
    fn from_json(
        alloc: Global,
        value: &Element<'a>,
    ) -> Result<Transition<'a>, Refusal<OtherShape>> {
        let matched = match_of(alloc, value)?;
        let mask = shapes::required(alloc, value, "mask")?;
        let next_state = shapes::required(alloc, value, "next_state")?;
        Ok(Transition {
            value: matched,
            mask,
            next_state,
        })
    }

    fn may_be(value: &Element<'a>) -> bool {
        shapes::has(value, "next_state") && shapes::has(value, "mask")
    }
}

impl<'a> FromJson<'a> for ParseState<'a> {
    ghost shape = { state_of };

    #[tactic(auto, unfolding(crate::specs::Parsers::state_of))]
    fn from_json(
        alloc: Global,
        value: &Element<'a>,
    ) -> Result<ParseState<'a>, Refusal<OtherShape>> {
        let name = shapes::required(alloc, value, "name")?;
        let parser_ops = shapes::required(alloc, value, "parser_ops")?;
        let transition_key = shapes::required(alloc, value, "transition_key")?;
        let transitions = shapes::required(alloc, value, "transitions")?;
        Ok(ParseState {
            name,
            parser_ops,
            transition_key,
            transitions,
        })
    }

    fn may_be(value: &Element<'a>) -> bool {
        shapes::has(value, "transition_key") && shapes::has(value, "transitions")
    }
}

impl<'a> FromJson<'a> for Parser<'a> {
    ghost shape = { parser_of };

    #[tactic(auto, unfolding(crate::specs::Parsers::parser_of))]
    fn from_json(alloc: Global, value: &Element<'a>) -> Result<Parser<'a>, Refusal<OtherShape>> {
        let init_state = shapes::required(alloc, value, "init_state")?;
        let parse_states = shapes::required(alloc, value, "parse_states")?;
        Ok(Parser {
            init_state,
            parse_states,
        })
    }

    fn may_be(value: &Element<'a>) -> bool {
        shapes::has(value, "parse_states")
    }
}

impl<'a> FromJson<'a> for Deparser<'a> {
    ghost shape = { deparser_of };

    #[tactic(auto, unfolding(crate::specs::Parsers::deparser_of))]
    fn from_json(alloc: Global, value: &Element<'a>) -> Result<Deparser<'a>, Refusal<OtherShape>> {
        let order = shapes::required(alloc, value, "order")?;
        shapes::nothing_in(value, "primitives")?;
        Ok(Deparser { order })
    }

    fn may_be(value: &Element<'a>) -> bool {
        shapes::has(value, "order")
    }
}
