//! What the names and ids in a program stand for: L5.
ghost use Rattle.std.specs.Prelude.{◌≡◌, ◌==◌, length, not, is_some, option_copied, IfOk};
ghost use Rattle.std.specs.List.{list_all, find};
ghost use Rattle.bm_rules.specs.Names.{named};
ghost use Rattle.bm_rules.specs.Fields.{has_header, header_named, is_readable, is_part};
ghost use Rattle.bm_rules.specs.References.{is_known, have_one_type, are_of_one_type, has_counter, has_list_id, has_list, primitive_known, action_known, parser_op_known, next_state_known, state_known, input_known, condition_known, checksum_known, action_by_id, has_name, has_data, pairs_known, default_known, profile_known, table_known, selector_known, headers_known, packets_known, pipeline_known, references_known};

use crate::scope::{Scope, Standing, all_stand};
use crate::{fields, names, nexts};
use bm_records::raw::{
    Action, ActionProfile, Calculation, CalculationInput, Checksum, Conditional, DefaultEntry,
    Expression, Header, KeyField, LearnList, LearnListName, Node, ParseState, ParserOp, Part,
    Pipeline, Primitive, RawField, RawProgram, Selector, Table, Transition,
};
use list_types::NoMemory;
use name_index::Name;
use std::alloc::Global;

fn is_known(scope: &Scope, args: usize, expression: &Expression) -> bool
    ensures { result ≡ is_known scope.now.raw.now args expression.now }
{
    match &expression.node {
        Node::Field(name) => fields::is_readable(scope, name),
        Node::Datum(index) => *index < args as u64,
        Node::Valid(header) => fields::is_header(scope, header),
        Node::Unary(_, x) => is_known(scope, args, x),
        Node::Binary(_, x, y) => is_known(scope, args, x) && is_known(scope, args, y),
        Node::Choice(condition, x, y) => {
            is_known(scope, args, condition) && is_known(scope, args, x) && is_known(scope, args, y)
        }
        _ => true,
    }
}

fn have_one_type(target: Option<&Header>, source: Option<&Header>) -> bool
    ensures { result ≡ have_one_type (option_copied target.entry) (option_copied source.entry) }
{
    match (target, source) {
        (Some(target), Some(source)) => target.header_type.as_str() == source.header_type.as_str(),
        _ => false,
    }
}

fn are_of_one_type(scope: &Scope, target: &Part<Name>, source: &Part<Name>) -> bool
    ensures { result ≡ are_of_one_type scope.now.raw.now target.now source.now }
{
    match (target, source) {
        (Part::Served(target), Part::Served(source)) => {
            let target = fields::header_named(scope, target.as_str());
            let source = fields::header_named(scope, source.as_str());
            have_one_type(target, source)
        }
        _ => true,
    }
}

fn has_counter(scope: &Scope, name: &Part<Name>) -> bool
    ensures { result ≡ is_part (has_counter scope.now.raw.now) name.now }
{
    match name {
        Part::Served(name) => {
            names::named(scope.raw.counter_arrays.as_slice(), name.as_str()).is_some()
        }
        Part::LeftOut => true,
    }
}

fn has_list_id(scope: &Scope, id: u128) -> bool
    ensures { result ≡ has_list_id scope.now.raw.now id }
{
    let lists = scope.raw.learn_lists.as_slice();
    lists.iter().any(|list| u128::from(list.id) == id)
}

fn has_list(scope: &Scope, name: &LearnListName) -> bool
    ensures { result ≡ has_list scope.now.raw.now name.now }
{
    match name {
        LearnListName::Name(name) => {
            names::named(scope.raw.learn_lists.as_slice(), name.as_str()).is_some()
        }
        LearnListName::Id(Part::Served(id)) => has_list_id(scope, *id),
        LearnListName::Id(Part::LeftOut) => true,
        LearnListName::LeftOut => true,
    }
}

fn primitive_known(scope: &Scope, args: usize, primitive: &Primitive) -> bool
    ensures { result ≡ primitive_known scope.now.raw.now args primitive.now }
{
    match primitive {
        Primitive::Assign { target, value } => {
            fields::is_target(scope, target) && is_known(scope, args, value)
        }
        Primitive::AddHeader(header) => fields::is_header(scope, header),
        Primitive::RemoveHeader(header) => fields::is_header(scope, header),
        Primitive::AssignHeader { target, source } => are_of_one_type(scope, target, source),
        Primitive::Count { counter, index } => {
            has_counter(scope, counter) && is_known(scope, args, index)
        }
        Primitive::GenerateDigest(list) => has_list(scope, list),
        _ => true,
    }
}

fn primitives_known(scope: &Scope, args: usize, primitives: &[Primitive]) -> bool
    ensures { result ≡ list_all (primitive_known scope.now.raw.now args) primitives.now }
{
    primitives
        .iter()
        .all(|primitive| primitive_known(scope, args, primitive))
}

impl<'a> Standing for Action<'a> {
    ghost meaning = { action_known };

    fn stands(&self, scope: &Scope) -> bool {
        primitives_known(scope, self.runtime_data.len(), self.primitives.as_slice())
    }
}

impl<'a> Standing for ParserOp<'a> {
    ghost meaning = { parser_op_known };

    fn stands(&self, scope: &Scope) -> bool {
        match self {
            ParserOp::Extract(header) => fields::is_header(scope, header),
            ParserOp::Set { target, value } => {
                fields::is_target(scope, target) && is_known(scope, 0, value)
            }
            _ => true,
        }
    }
}

impl<'a> Standing for RawField<'a> {
    ghost meaning = { λ raw name. is_part (is_readable raw) name };

    fn stands(&self, scope: &Scope) -> bool {
        fields::is_read(scope, self)
    }
}

fn next_state_known(scope: &Scope, name: &Option<Name>) -> bool
    ensures { result ≡ next_state_known scope.now.raw.now name.now }
{
    match name {
        None => true,
        Some(name) => {
            names::named(scope.raw.parser.parse_states.as_slice(), name.as_str()).is_some()
        }
    }
}

impl<'a> Standing for Transition<'a> {
    ghost meaning = { λ raw x. next_state_known raw x.next_state };

    fn stands(&self, scope: &Scope) -> bool {
        next_state_known(scope, &self.next_state)
    }
}

impl<'a> Standing for ParseState<'a> {
    ghost meaning = { state_known };

    fn stands(&self, scope: &Scope) -> bool {
        all_stand(scope, self.parser_ops.as_slice())
            && all_stand(scope, self.transition_key.as_slice())
            && all_stand(scope, self.transitions.as_slice())
    }
}

impl<'a> Standing for CalculationInput<'a> {
    ghost meaning = { input_known };

    fn stands(&self, scope: &Scope) -> bool {
        match self {
            CalculationInput::Field(name) => fields::is_readable(scope, name),
            _ => true,
        }
    }
}

impl<'a> Standing for Calculation<'a> {
    ghost meaning = { λ raw x. list_all (input_known raw) x.input };

    fn stands(&self, scope: &Scope) -> bool {
        all_stand(scope, self.input.as_slice())
    }
}

fn condition_known(scope: &Scope, condition: &Option<Expression>) -> bool
    ensures { result ≡ condition_known scope.now.raw.now condition.now }
{
    match condition {
        None => true,
        Some(condition) => is_known(scope, 0, condition),
    }
}

impl<'a> Standing for Checksum<'a> {
    ghost meaning = { checksum_known };

    fn stands(&self, scope: &Scope) -> bool {
        fields::is_writable(scope, &self.target) && condition_known(scope, &self.if_cond)
    }
}

impl<'a> Standing for LearnList<'a> {
    ghost meaning = { λ raw x. list_all (is_part (is_readable raw)) x.elements };

    fn stands(&self, scope: &Scope) -> bool {
        all_stand(scope, self.elements.as_slice())
    }
}

/// The action of an id.
pub(crate) fn action_by_id<'p, 'a>(raw: &'p RawProgram<'a>, id: u64) -> Option<&'p Action<'a>>
    ensures { option_copied result ≡ action_by_id raw.now id }
{
    raw.actions.as_slice().iter().find(|action| action.id == id)
}

fn has_name(raw: &RawProgram, id: u64, name: &str) -> bool
    ensures { result ≡ has_name name.now (action_by_id raw.now id) }
{
    match action_by_id(raw, id) {
        None => false,
        Some(action) => action.name.as_str() == name,
    }
}

fn pairs_known(raw: &RawProgram, ids: &[u64], names: &[Name]) -> bool
    ensures { result ≡ pairs_known raw.now ids.now names.now }
{
    ids.iter()
        .zip(names)
        .all(|(id, name)| has_name(raw, *id, name.as_str()))
}

fn default_known(raw: &RawProgram, entry: &Option<DefaultEntry>) -> bool
    ensures { result ≡ default_known raw.now entry.now }
{
    match entry {
        None => true,
        Some(entry) => match action_by_id(raw, entry.action_id) {
            None => false,
            Some(action) => action.runtime_data.len() == entry.action_data.len(),
        },
    }
}

fn profile_known(raw: &RawProgram, name: &Option<Name>) -> bool
    ensures { result ≡ profile_known raw.now name.now }
{
    match name {
        None => true,
        Some(name) => names::named_in_both(
            raw.pipelines.ingress.action_profiles.as_slice(),
            raw.pipelines.egress.action_profiles.as_slice(),
            name.as_str(),
        )
        .is_some(),
    }
}

impl<'a> Standing for KeyField<'a> {
    ghost meaning = { λ raw key. is_readable raw key.target };

    fn stands(&self, scope: &Scope) -> bool {
        fields::is_readable(scope, &self.target)
    }
}

impl<'a> Standing for Table<'a> {
    ghost meaning = { table_known };

    fn stands(&self, scope: &Scope) -> bool {
        let raw = scope.raw;
        all_stand(scope, self.key.as_slice())
            && pairs_known(raw, self.action_ids.as_slice(), self.actions.as_slice())
            && profile_known(raw, &self.action_profile)
            && default_known(raw, &self.default_entry)
    }
}

fn selector_known(scope: &Scope, selector: &Option<Selector>) -> bool
    ensures { result ≡ selector_known scope.now.raw.now selector.now }
{
    match selector {
        None => true,
        Some(selector) => all_stand(scope, selector.input.as_slice()),
    }
}

impl<'a> Standing for ActionProfile<'a> {
    ghost meaning = { λ raw x. selector_known raw x.selector };

    fn stands(&self, scope: &Scope) -> bool {
        selector_known(scope, &self.selector)
    }
}

impl<'a> Standing for Conditional<'a> {
    ghost meaning = { λ raw x. is_known raw 0 x.expression };

    fn stands(&self, scope: &Scope) -> bool {
        is_known(scope, 0, &self.expression)
    }
}

fn pipeline_known(scope: &Scope, pipeline: &Pipeline) -> bool
    ensures { result ≡ pipeline_known scope.now.raw.now pipeline.now }
{
    all_stand(scope, pipeline.tables.as_slice())
        && all_stand(scope, pipeline.action_profiles.as_slice())
        && all_stand(scope, pipeline.conditionals.as_slice())
}

impl<'a> Standing for Header<'a> {
    ghost meaning = { λ raw header. is_some (named (λ x. x.name) header.header_type raw.header_types) };

    fn stands(&self, scope: &Scope) -> bool {
        names::named(scope.raw.header_types.as_slice(), self.header_type.as_str()).is_some()
    }
}

// A name in the order of the deparser, which stands for a header.
impl<'a> Standing for Name<'a> {
    ghost meaning = { has_header };

    fn stands(&self, scope: &Scope) -> bool {
        fields::has_header(scope, self.as_str())
    }
}

fn headers_known(scope: &Scope) -> bool
    ensures { result ≡ headers_known scope.now.raw.now }
{
    let parser = &scope.raw.parser;
    all_stand(scope, scope.raw.headers.as_slice())
        && all_stand(scope, scope.raw.deparser.order.as_slice())
        && names::named(parser.parse_states.as_slice(), parser.init_state.as_str()).is_some()
}

fn packets_known(scope: &Scope) -> bool
    ensures { result ≡ packets_known scope.now.raw.now }
{
    all_stand(scope, scope.raw.parser.parse_states.as_slice())
        && all_stand(scope, scope.raw.calculations.as_slice())
        && all_stand(scope, scope.raw.checksums.as_slice())
        && all_stand(scope, scope.raw.learn_lists.as_slice())
}

/// Whether each name and each id stands for what there is.
pub(crate) fn references_known(alloc: Global, scope: &Scope) -> Result<bool, NoMemory>
    ensures { IfOk result (λ answer. answer ≡ references_known scope.now.raw.now) }
{
    let raw = scope.raw;
    if !headers_known(scope)
        || !packets_known(scope)
        || !all_stand(scope, raw.actions.as_slice())
        || !pipeline_known(scope, &raw.pipelines.ingress)
        || !pipeline_known(scope, &raw.pipelines.egress)
    {
        return Ok(false);
    }
    Ok(!nexts::list_names_nothing(alloc, raw)?)
}
