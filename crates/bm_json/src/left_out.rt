//! Forms of a program that are left out.
ghost use Rattle.std.specs.Prelude.{◌≡◌, Bool};
ghost use Rattle.std.specs.List.{list_any};
ghost use Rattle.std.specs.Option.{option_copied};
ghost use Rattle.bm_records.specs.declared.raw.RawProgram.{RawProgram};
ghost use Rattle.bm_json.specs.LeftOut.{is_left_out, type_left_out, expression_left_out, condition_left_out, name_left_out, primitive_left_out, action_left_out, parser_op_left_out, match_left_out, mask_left_out, transition_left_out, state_left_out, input_left_out, calculation_left_out, checksum_left_out, learn_list_left_out, default_left_out, table_left_out, selector_left_out, pipeline_left_out, bits_over, type_named, has_ragged_type, is_ragged, names_ragged, extracts_ragged, packets_left_out, headers_left_out, objects_left_out, steps_left_out, has_left_out};

use crate::scope::Scope;
use bm_records::raw::{
    Action, ActionProfile, Calculation, CalculationInput, Checksum, Conditional, Datum,
    DefaultEntry, Expression, Header, HeaderType, LearnList, LearnListName, MatchValue, Node,
    ParseState, ParserOp, Part, Pipeline, Primitive, RawLiteral, RawProgram, Selector, Table,
    Transition, TypeField,
};
use bm_values::literals::width_bits;
use json_shapes::Name;

/// What may have a form that is left out.
trait Formed {
    ghost left_out: { Self → Bool };

    /// Whether it is left out, or a part of it is.
    fn is_left_out(&self) -> bool
        ensures { result ≡ left_out self.now };
}

fn any_left_out<T: Formed>(items: &[T]) -> bool
    ensures { result ≡ list_any T.left_out items.now }
{
    items.iter().any(|item| item.is_left_out())
}

impl<T> Formed for Part<T> {
    ghost left_out = { is_left_out };

    fn is_left_out(&self) -> bool {
        match self {
            Part::Served(_) => false,
            Part::LeftOut => true,
        }
    }
}

impl<'a> Formed for TypeField<'a> {
    ghost left_out = { λ field. is_left_out field.width };

    fn is_left_out(&self) -> bool {
        self.width.is_left_out()
    }
}

impl<'a> Formed for HeaderType<'a> {
    ghost left_out = { type_left_out };

    fn is_left_out(&self) -> bool {
        any_left_out(self.fields.as_slice())
    }
}

fn expression_left_out(expression: &Expression<'_>) -> bool
    ensures { result ≡ expression_left_out expression.now }
{
    match &expression.node {
        Node::Literal(literal) => literal.is_left_out(),
        Node::Valid(header) => header.is_left_out(),
        Node::Unary(_, x) => expression_left_out(x),
        Node::Binary(_, x, y) => expression_left_out(x) || expression_left_out(y),
        Node::Choice(condition, x, y) => {
            expression_left_out(condition) || expression_left_out(x) || expression_left_out(y)
        }
        Node::LeftOut => true,
        _ => false,
    }
}

fn condition_left_out(condition: &Option<Expression<'_>>) -> bool
    ensures { result ≡ condition_left_out condition.now }
{
    match condition {
        None => false,
        Some(condition) => expression_left_out(condition),
    }
}

fn name_left_out(name: &LearnListName<'_>) -> bool
    ensures { result ≡ name_left_out name.now }
{
    match name {
        LearnListName::Name(_) => false,
        LearnListName::Id(id) => id.is_left_out(),
        LearnListName::LeftOut => true,
    }
}

impl<'a> Formed for Primitive<'a> {
    ghost left_out = { primitive_left_out };

    fn is_left_out(&self) -> bool {
        match self {
            Primitive::Assign { target, value } => target.is_left_out()
                || expression_left_out(value),
            Primitive::AddHeader(header) => header.is_left_out(),
            Primitive::RemoveHeader(header) => header.is_left_out(),
            Primitive::AssignHeader { target, source } => target.is_left_out()
                || source.is_left_out(),
            Primitive::Drop => false,
            Primitive::Count { counter, index } => counter.is_left_out()
                || expression_left_out(index),
            Primitive::GenerateDigest(name) => name_left_out(name),
            Primitive::NoOp => false,
            Primitive::LeftOut => true,
            Primitive::Unknown(_) => false,
        }
    }
}

impl Formed for Datum {
    ghost left_out = { λ datum. is_left_out datum.width };

    fn is_left_out(&self) -> bool {
        self.width.is_left_out()
    }
}

impl<'a> Formed for Action<'a> {
    ghost left_out = { action_left_out };

    fn is_left_out(&self) -> bool {
        any_left_out(self.runtime_data.as_slice()) || any_left_out(self.primitives.as_slice())
    }
}

impl<'a> Formed for ParserOp<'a> {
    ghost left_out = { parser_op_left_out };

    fn is_left_out(&self) -> bool {
        match self {
            ParserOp::Extract(header) => header.is_left_out(),
            ParserOp::Set { target, value } => target.is_left_out() || expression_left_out(value),
            ParserOp::LeftOut => true,
            ParserOp::Unknown(_) => false,
        }
    }
}

fn match_left_out(value: &MatchValue) -> bool
    ensures { result ≡ match_left_out value.now }
{
    match value {
        MatchValue::Default => false,
        MatchValue::Literal(literal) => literal.is_left_out(),
        MatchValue::LeftOut => true,
    }
}

fn mask_left_out(mask: &Option<RawLiteral>) -> bool
    ensures { result ≡ mask_left_out mask.now }
{
    match mask {
        None => false,
        Some(mask) => mask.is_left_out(),
    }
}

impl<'a> Formed for Transition<'a> {
    ghost left_out = { transition_left_out };

    fn is_left_out(&self) -> bool {
        match_left_out(&self.value) || mask_left_out(&self.mask)
    }
}

impl<'a> Formed for ParseState<'a> {
    ghost left_out = { state_left_out };

    fn is_left_out(&self) -> bool {
        any_left_out(self.parser_ops.as_slice())
            || any_left_out(self.transition_key.as_slice())
            || any_left_out(self.transitions.as_slice())
    }
}

impl<'a> Formed for CalculationInput<'a> {
    ghost left_out = { input_left_out };

    fn is_left_out(&self) -> bool {
        match self {
            CalculationInput::Field(_) => false,
            CalculationInput::Literal { value, width } => value.is_left_out()
                || width.is_left_out(),
            CalculationInput::LeftOut => true,
        }
    }
}

impl<'a> Formed for Calculation<'a> {
    ghost left_out = { calculation_left_out };

    fn is_left_out(&self) -> bool {
        any_left_out(self.input.as_slice())
    }
}

impl<'a> Formed for Checksum<'a> {
    ghost left_out = { checksum_left_out };

    fn is_left_out(&self) -> bool {
        condition_left_out(&self.if_cond)
    }
}

impl<'a> Formed for LearnList<'a> {
    ghost left_out = { learn_list_left_out };

    fn is_left_out(&self) -> bool {
        any_left_out(self.elements.as_slice())
    }
}

fn default_left_out(entry: &Option<DefaultEntry>) -> bool
    ensures { result ≡ default_left_out entry.now }
{
    match entry {
        None => false,
        Some(entry) => any_left_out(entry.action_data.as_slice()),
    }
}

impl<'a> Formed for Table<'a> {
    ghost left_out = { table_left_out };

    fn is_left_out(&self) -> bool {
        self.has_entries || default_left_out(&self.default_entry)
    }
}

fn selector_left_out(selector: &Option<Selector<'_>>) -> bool
    ensures { result ≡ selector_left_out selector.now }
{
    match selector {
        None => false,
        Some(selector) => any_left_out(selector.input.as_slice()),
    }
}

impl<'a> Formed for ActionProfile<'a> {
    ghost left_out = { λ profile. selector_left_out profile.selector };

    fn is_left_out(&self) -> bool {
        selector_left_out(&self.selector)
    }
}

impl<'a> Formed for Conditional<'a> {
    ghost left_out = { λ conditional. expression_left_out conditional.expression };

    fn is_left_out(&self) -> bool {
        expression_left_out(&self.expression)
    }
}

fn pipeline_left_out(pipeline: &Pipeline<'_>) -> bool
    ensures { result ≡ pipeline_left_out pipeline.now }
{
    any_left_out(pipeline.tables.as_slice())
        || any_left_out(pipeline.action_profiles.as_slice())
        || any_left_out(pipeline.conditionals.as_slice())
}

#[tactic(auto, using(bm_records::proofs::Together::over_more))]
fn bits_over(fields: &[TypeField<'_>]) -> u64
    ensures { result ≡ bits_over fields.now }
{
    let mut bits = 0u64;
    for field in fields {
        bits = (bits + u64::from(width_bits(&field.width))) % 8;
    }
    bits
}

/// The header type of a header.
pub(crate) fn type_of<'p, 'a>(
    scope: &Scope<'p, 'a>,
    header: &Header<'_>,
) -> Option<&'p HeaderType<'a>>
    ensures { option_copied result ≡ type_named scope.now.raw.now.header_types header.now.header_type }
{
    scope.types.named_at(header.header_type.as_str())
}

fn has_ragged_type(scope: &Scope, header: &Header) -> bool
    ensures { result ≡ has_ragged_type scope.now.raw.now.header_types header.now }
{
    match type_of(scope, header) {
        None => false,
        Some(header_type) => bits_over(header_type.fields.as_slice()) != 0,
    }
}

/// What may stand for headers that are not whole bytes.
trait Packed {
    ghost ragged: { RawProgram → Self → Bool };

    /// Whether it stands for one.
    fn is_ragged(&self, scope: &Scope) -> bool
        ensures { result ≡ ragged scope.now.raw.now self.now };
}

fn any_ragged<T: Packed>(scope: &Scope, items: &[T]) -> bool
    ensures { result ≡ list_any (T.ragged scope.now.raw.now) items.now }
{
    items.iter().any(|item| item.is_ragged(scope))
}

impl<'a> Packed for Header<'a> {
    ghost ragged = { λ raw header. is_ragged raw.header_types header };

    fn is_ragged(&self, scope: &Scope) -> bool {
        !self.metadata && has_ragged_type(scope, self)
    }
}

impl<'a> Packed for Name<'a> {
    ghost ragged = { λ raw name. names_ragged raw.header_types raw.headers name };

    fn is_ragged(&self, scope: &Scope) -> bool {
        match scope.headers.named_at(self.as_str()) {
            None => false,
            Some(header) => has_ragged_type(scope, header),
        }
    }
}

impl<'a> Packed for ParserOp<'a> {
    ghost ragged = { λ raw op. extracts_ragged raw.header_types raw.headers op };

    fn is_ragged(&self, scope: &Scope) -> bool {
        match self {
            ParserOp::Extract(Part::Served(name)) => name.is_ragged(scope),
            _ => false,
        }
    }
}

impl<'a> Packed for ParseState<'a> {
    ghost ragged = { λ raw state. list_any (extracts_ragged raw.header_types raw.headers) state.parser_ops };

    fn is_ragged(&self, scope: &Scope) -> bool {
        any_ragged(scope, self.parser_ops.as_slice())
    }
}

fn packets_left_out(scope: &Scope) -> bool
    ensures { result ≡ packets_left_out scope.now.raw.now }
{
    any_ragged(scope, scope.raw.deparser.order.as_slice())
        || any_ragged(scope, scope.raw.parser.parse_states.as_slice())
}

fn headers_left_out(scope: &Scope) -> bool
    ensures { result ≡ headers_left_out scope.now.raw.now }
{
    scope.raw.lists_left_out
        || any_left_out(scope.raw.header_types.as_slice())
        || any_ragged(scope, scope.raw.headers.as_slice())
}

fn objects_left_out(program: &RawProgram) -> bool
    ensures { result ≡ objects_left_out program.now }
{
    any_left_out(program.calculations.as_slice())
        || any_left_out(program.checksums.as_slice())
        || any_left_out(program.learn_lists.as_slice())
        || any_left_out(program.actions.as_slice())
}

fn steps_left_out(program: &RawProgram) -> bool
    ensures { result ≡ steps_left_out program.now }
{
    any_left_out(program.parser.parse_states.as_slice())
        || pipeline_left_out(&program.pipelines.ingress)
        || pipeline_left_out(&program.pipelines.egress)
}

/// Whether the program has a form that is left out.
#[tactic(auto, unfolding(crate::specs::LeftOut::has_left_out))]
pub(crate) fn has_left_out(scope: &Scope) -> bool
    ensures { result ≡ has_left_out scope.now.raw.now }
{
    headers_left_out(scope)
        || packets_left_out(scope)
        || objects_left_out(scope.raw)
        || steps_left_out(scope.raw)
}
