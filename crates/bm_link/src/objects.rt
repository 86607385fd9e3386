//! The parser, actions, digests and checksums, by places.
ghost use Rattle.std.specs.Prelude.{◌≡◌, ◌==◌, [], option_map, option_and_then, IfOk};
ghost use Rattle.std.specs.List.{position};
ghost use Rattle.bm_rules.specs.Names.{named};
ghost use Rattle.bm_pipeline.specs.declared.actions.Primitive.TheVariants as primitives;
ghost use Rattle.bm_values.specs.Literals.{width_bits};
ghost use Rattle.link_spec.specs.Fields.{header_at, header_place, part_ref, of_part};
ghost use Rattle.link_spec.specs.Expressions.{truth_of};
ghost use Rattle.link_spec.specs.Objects.{error_number, errors_of, parser_op_of, mask_of, test_of, state_at, transition_of, state_of, parser_of, counter_at, list_at, primitive_of, action_of, learn_list_of, input_of, calculation_of, checksum_of};

use crate::expressions;
use crate::fields::{self, Fields};
use crate::scope::{Link, Scope, all};
use bm_expr::{HeaderPlace, Truth};
use bm_pipeline::actions::{Action, LearnList, Primitive};
use bm_pipeline::checksums::{Calculation, CalculationInput, Checksum};
use bm_pipeline::headers::FieldRef;
use bm_pipeline::parser::{ErrorNumbers, KeyTest, ParseState, Parser, ParserOp, Transition};
use bm_records::raw::{
    self, Datum, Expression, FieldName, LearnListName, MatchValue, Part, RawLiteral, RawProgram,
};
use bm_rules::names;
use bm_values::literals::width_bits;
use list_types::NoMemory;
use name_index::Name;
use std::alloc::Global;

fn error_number(raw: &RawProgram, name: &str, other: u64) -> u64
    ensures { result ≡ error_number raw.now name.now other }
{
    match names::named(raw.errors.as_slice(), name) {
        Some(error) => error.number,
        None => other,
    }
}

/// The numbers of the three errors.
pub(crate) fn errors_of(raw: &RawProgram) -> ErrorNumbers
    ensures { result ≡ errors_of raw.now }
{
    ErrorNumbers {
        no_error: error_number(raw, "NoError", 0),
        packet_too_short: error_number(raw, "PacketTooShort", 1),
        no_match: error_number(raw, "NoMatch", 2),
    }
}

fn header_at(fields: &Fields, header: &Part<Name>) -> usize
    ensures { result ≡ of_part 0 (header_at fields.now.raw.now) header.now }
{
    match header {
        Part::Served(name) => fields::header_of(fields, name),
        Part::LeftOut => 0,
    }
}

fn header_place(fields: &Fields, header: &Part<Name>) -> HeaderPlace
    ensures { result ≡ header_place fields.now.raw.now (of_part [] (λ name. name) header.now) }
{
    match header {
        Part::Served(name) => fields::place_of(fields, name),
        Part::LeftOut => fields::header_place(fields, ""),
    }
}

/// The bits of a literal; one that is left out counts as 0.
pub(crate) fn bits(literal: &RawLiteral) -> u128
    ensures { result ≡ of_part 0 (λ bits. bits) literal.now }
{
    match literal {
        Part::Served(bits) => *bits,
        Part::LeftOut => 0,
    }
}

impl<'a> Link<FieldRef> for Part<FieldName<'a>> {
    ghost meaning = { λ raw _. part_ref raw };

    fn link(&self, _: Global, scope: &Scope) -> Result<FieldRef, NoMemory> {
        Ok(fields::part_ref(&scope.fields, self))
    }
}

impl<'a> Link<usize> for Name<'a> {
    ghost meaning = { λ raw _. header_at raw };

    fn link(&self, _: Global, scope: &Scope) -> Result<usize, NoMemory> {
        Ok(fields::header_of(&scope.fields, self))
    }
}

impl<'a> Link<ParserOp> for raw::ParserOp<'a> {
    ghost meaning = { λ raw _. parser_op_of raw };

    fn link(&self, alloc: Global, scope: &Scope) -> Result<ParserOp, NoMemory> {
        match self {
            raw::ParserOp::Extract(header) => {
                Ok(ParserOp::Extract(header_at(&scope.fields, header)))
            }
            raw::ParserOp::Set { target, value } => Ok(ParserOp::Set {
                target: fields::target_at(&scope.fields, target),
                value: expressions::value(alloc, &scope.fields, value)?,
            }),
            _ => Ok(ParserOp::Extract(0)),
        }
    }
}

fn mask_of(mask: &Option<RawLiteral>) -> u128
    ensures { result ≡ mask_of mask.now }
{
    match mask {
        Some(mask) => bits(mask),
        None => u128::MAX,
    }
}

fn test_of(value: &MatchValue, mask: &Option<RawLiteral>) -> KeyTest
    ensures { result ≡ test_of value.now mask.now }
{
    match value {
        MatchValue::Literal(value) => KeyTest::Masked {
            value: bits(value),
            mask: mask_of(mask),
        },
        MatchValue::Default | MatchValue::LeftOut => KeyTest::Default,
    }
}

fn state_at(scope: &Scope, name: &Option<Name>) -> Option<usize>
    ensures { result ≡ option_and_then (state_at scope.now.fields.raw.now) name.now }
{
    match name {
        Some(name) => scope.states.place(name),
        None => None,
    }
}

impl<'a> Link<Transition> for raw::Transition<'a> {
    ghost meaning = { λ raw _. transition_of raw };

    fn link(&self, _: Global, scope: &Scope) -> Result<Transition, NoMemory> {
        Ok(Transition {
            test: test_of(&self.value, &self.mask),
            next_state: state_at(scope, &self.next_state),
        })
    }
}

impl<'a> Link<ParseState> for raw::ParseState<'a> {
    ghost meaning = { λ raw _. state_of raw };

    fn link(&self, alloc: Global, scope: &Scope) -> Result<ParseState, NoMemory> {
        Ok(ParseState {
            parser_ops: all(alloc, scope, self.parser_ops.as_slice())?,
            transition_key: all(alloc, scope, self.transition_key.as_slice())?,
            transitions: all(alloc, scope, self.transitions.as_slice())?,
        })
    }
}

/// The parser.
pub(crate) fn parser_of(alloc: Global, scope: &Scope) -> Result<Parser, NoMemory>
    ensures { IfOk result (λ parser. parser ≡ parser_of scope.now.fields.raw.now) }
{
    let parser = &scope.fields.raw.parser;
    Ok(Parser {
        init_state: scope.states.place(&parser.init_state).unwrap_or(0),
        parse_states: all(alloc, scope, parser.parse_states.as_slice())?,
    })
}

fn counter_at(scope: &Scope, name: &Part<Name>) -> Option<usize>
    ensures { result ≡ of_part None (counter_at scope.now.fields.raw.now scope.now.info.now) name.now }
{
    let Part::Served(name) = name else {
        return None;
    };
    match scope.counter_arrays.named(name) {
        None => None,
        Some(array) => {
            if array.is_direct {
                None
            } else {
                scope.counters.place(name)
            }
        }
    }
}

fn list_of_id(raw: &RawProgram, id: u128) -> Option<usize>
    ensures { result ≡ position (λ list. list.id == id) raw.now.learn_lists }
{
    let lists = raw.learn_lists.as_slice();
    lists.iter().position(|list| u128::from(list.id) == id)
}

fn list_at(scope: &Scope, name: &LearnListName) -> usize
    ensures { result ≡ list_at scope.now.fields.raw.now name.now }
{
    match name {
        LearnListName::Name(name) => scope.learn_lists.place(name).unwrap_or(0),
        LearnListName::Id(Part::Served(id)) => { list_of_id(scope.fields.raw, *id).unwrap_or(0) }
        LearnListName::Id(Part::LeftOut) | LearnListName::LeftOut => 0,
    }
}

fn assign_header(fields: &Fields, target: &Part<Name>, source: &Part<Name>) -> Primitive
    ensures { result ≡ primitives.AssignHeader (header_place fields.now.raw.now (of_part [] (λ name. name) target.now)) (header_place fields.now.raw.now (of_part [] (λ name. name) source.now)) }
{
    let to = header_place(fields, target);
    let from = header_place(fields, source);
    Primitive::AssignHeader {
        target: to,
        source: from,
    }
}

impl<'a> Link<Primitive> for raw::Primitive<'a> {
    ghost meaning = { primitive_of };

    fn link(&self, alloc: Global, scope: &Scope) -> Result<Primitive, NoMemory> {
        let fields = &scope.fields;
        match self {
            raw::Primitive::Assign { target, value } => Ok(Primitive::Assign {
                target: fields::target_at(fields, target),
                value: expressions::value(alloc, fields, value)?,
            }),
            raw::Primitive::AddHeader(header) => {
                Ok(Primitive::AddHeader(header_place(fields, header)))
            }
            raw::Primitive::RemoveHeader(header) => {
                Ok(Primitive::RemoveHeader(header_at(fields, header)))
            }
            raw::Primitive::AssignHeader { target, source } => {
                Ok(assign_header(fields, target, source))
            }
            raw::Primitive::Drop => Ok(Primitive::MarkToDrop),
            raw::Primitive::Count { counter, index } => Ok(Primitive::Count {
                counter: counter_at(scope, counter),
                index: expressions::value(alloc, fields, index)?,
            }),
            raw::Primitive::GenerateDigest(list) => {
                Ok(Primitive::GenerateDigest(list_at(scope, list)))
            }
            raw::Primitive::NoOp | raw::Primitive::LeftOut | raw::Primitive::Unknown(_) => {
                Ok(Primitive::NoOp)
            }
        }
    }
}

impl Link<u32> for Datum {
    ghost meaning = { λ _ _ datum. width_bits datum.width };

    fn link(&self, _: Global, _: &Scope) -> Result<u32, NoMemory> {
        Ok(width_bits(&self.width))
    }
}

impl<'a> Link<Action> for raw::Action<'a> {
    ghost meaning = { action_of };

    fn link(&self, alloc: Global, scope: &Scope) -> Result<Action, NoMemory> {
        Ok(Action {
            runtime_data: all(alloc, scope, self.runtime_data.as_slice())?,
            primitives: all(alloc, scope, self.primitives.as_slice())?,
        })
    }
}

fn digest_of(scope: &Scope, name: &Name) -> Option<u32>
    ensures { result ≡ option_map (λ digest. digest.preamble.id) (named (λ digest. digest.preamble.name) name.now scope.now.info.now.digests) }
{
    match scope.digests.named(name) {
        Some(digest) => Some(digest.preamble.id),
        None => None,
    }
}

impl<'a> Link<LearnList> for raw::LearnList<'a> {
    ghost meaning = { learn_list_of };

    fn link(&self, alloc: Global, scope: &Scope) -> Result<LearnList, NoMemory> {
        Ok(LearnList {
            digest: digest_of(scope, &self.name),
            elements: all(alloc, scope, self.elements.as_slice())?,
        })
    }
}

impl<'a> Link<CalculationInput> for raw::CalculationInput<'a> {
    ghost meaning = { λ raw _. input_of raw };

    fn link(&self, _: Global, scope: &Scope) -> Result<CalculationInput, NoMemory> {
        match self {
            raw::CalculationInput::Field(name) => {
                Ok(CalculationInput::Field(fields::field_ref(&scope.fields, name)))
            }
            raw::CalculationInput::Literal { value, width } => Ok(CalculationInput::Literal {
                value: bits(value),
                width: width_bits(width),
            }),
            raw::CalculationInput::LeftOut => Ok(CalculationInput::Literal { value: 0, width: 0 }),
        }
    }
}

impl<'a> Link<Calculation> for raw::Calculation<'a> {
    ghost meaning = { λ raw _. calculation_of raw };

    fn link(&self, alloc: Global, scope: &Scope) -> Result<Calculation, NoMemory> {
        Ok(Calculation {
            input: all(alloc, scope, self.input.as_slice())?,
        })
    }
}

fn condition_of(
    alloc: Global,
    fields: &Fields,
    condition: &Option<Expression>,
) -> Result<Option<Truth>, NoMemory>
    ensures { IfOk result (λ truth. truth ≡ option_map (truth_of fields.now.raw.now) condition.now) }
{
    match condition {
        Some(condition) => Ok(Some(expressions::condition(alloc, fields, condition)?)),
        None => Ok(None),
    }
}

impl<'a> Link<Checksum> for raw::Checksum<'a> {
    ghost meaning = { λ raw _. checksum_of raw };

    fn link(&self, alloc: Global, scope: &Scope) -> Result<Checksum, NoMemory> {
        let calculation = scope.calculations.place(&self.calculation);
        Ok(Checksum {
            target: fields::field_at(&scope.fields, &self.target),
            calculation: calculation.unwrap_or(0),
            update: self.update,
            verify: self.verify,
            if_cond: condition_of(alloc, &scope.fields, &self.if_cond)?,
        })
    }
}
