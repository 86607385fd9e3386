//! A program, and the bytes that it stands in.
ghost use Rattle.std.specs.Prelude.{◌≡◌, codes, IfOk};
ghost use Rattle.json_tree.specs.View.{view};
ghost use Rattle.json_shapes.specs.Shapes.{required, list_or_empty, list_unless_absent};
ghost use Rattle.bm_records.specs.Objects.{error_of};
ghost use Rattle.bm_json.specs.Program.{lists_state, lists_stacks, lists_left_out, program_of, json_in, program_in, flaw_of, Answers, Finds, IsOfRule};

use crate::faults::JsonFault;
use crate::scope::Scope;
use crate::{left_out, limits};
use bm_records::raw::{Deparser, ErrorNumber, Parser, RawProgram};
use json_shapes::arrays::Only;
use json_shapes::shapes::{self, FromJson};
use json_tree::{Element, Tree};
use list_types::{List, NoMemory, Refusal, Text};
use name_index::Index;
use std::alloc::Global;

/// The greatest device configuration, in bytes.
const LONGEST: usize = 4_194_304;

fn lists_state(value: &Element<'_>) -> bool
    ensures { result ≡ lists_state (view value.now) }
{
    shapes::has_items(value, "register_arrays")
        || shapes::has_items(value, "meter_arrays")
        || shapes::has_items(value, "extern_instances")
}

fn lists_stacks(value: &Element<'_>) -> bool
    ensures { result ≡ lists_stacks (view value.now) }
{
    shapes::has_items(value, "parse_vsets")
        || shapes::has_items(value, "header_stacks")
        || shapes::has_items(value, "header_unions")
        || shapes::has_items(value, "header_union_types")
        || shapes::has_items(value, "header_union_stacks")
}

#[tactic(auto, unfolding(crate::specs::Program::lists_left_out))]
fn lists_left_out(value: &Element<'_>) -> bool
    ensures { result ≡ lists_left_out (view value.now) }
{
    lists_state(value) || lists_stacks(value)
}

fn at_rule(alloc: Global, rule: u8, place: &str) -> Refusal<JsonFault>
    ensures { IsOfRule result rule }
{
    match String::from_str(alloc, place) {
        Ok(place) => Refusal::For(JsonFault {
            rule,
            at: Text::from_string(place),
        }),
        Err(_) => Refusal::NoMemory,
    }
}

#[tactic(auto, using(crate::proofs::Refusals::refuses))]
fn member<'a, T: FromJson<'a>>(
    alloc: Global,
    value: &Element<'a>,
    name: &str,
) -> Result<T, Refusal<JsonFault>>
    ensures { Finds (λ x. x) result (required T.shape name.now (view value.now)) }
{
    match shapes::required(alloc, value, name) {
        Ok(member) => Ok(member),
        Err(Refusal::NoMemory) => Err(Refusal::NoMemory),
        Err(Refusal::For(_)) => Err(at_rule(alloc, 1, name)),
    }
}

#[tactic(auto, using(crate::proofs::Refusals::refuses))]
fn list<'a, T: FromJson<'a>>(
    alloc: Global,
    value: &Element<'a>,
    name: &str,
) -> Result<List<T>, Refusal<JsonFault>>
    ensures { Finds (λ x. x) result (list_or_empty T.shape name.now (view value.now)) }
{
    match shapes::list_or_empty(alloc, value, name) {
        Ok(list) => Ok(list),
        Err(Refusal::NoMemory) => Err(Refusal::NoMemory),
        Err(Refusal::For(_)) => Err(at_rule(alloc, 1, name)),
    }
}

#[tactic(auto, using(crate::proofs::Refusals::refuses))]
fn errors<'a>(
    alloc: Global,
    value: &Element<'a>,
) -> Result<List<ErrorNumber<'a>>, Refusal<JsonFault>>
    ensures { Finds (λ x. x) result (list_unless_absent error_of (codes "errors") (view value.now)) }
{
    match shapes::list_unless_absent(alloc, value, "errors") {
        Ok(errors) => Ok(errors),
        Err(Refusal::NoMemory) => Err(Refusal::NoMemory),
        Err(Refusal::For(_)) => Err(at_rule(alloc, 1, "errors")),
    }
}

#[tactic(auto, unfolding(crate::specs::Program::program_of))]
fn program_of<'a>(alloc: Global, value: &Element<'a>) -> Result<RawProgram<'a>, Refusal<JsonFault>>
    ensures { Finds (λ x. x) result (program_of (view value.now)) }
{
    let header_types = member(alloc, value, "header_types")?;
    let headers = member(alloc, value, "headers")?;
    let errors = errors(alloc, value)?;
    let parser: Only<Parser<'a>> = member(alloc, value, "parsers")?;
    let deparser: Only<Deparser<'a>> = member(alloc, value, "deparsers")?;
    let counter_arrays = list(alloc, value, "counter_arrays")?;
    let calculations = list(alloc, value, "calculations")?;
    let checksums = list(alloc, value, "checksums")?;
    let learn_lists = list(alloc, value, "learn_lists")?;
    let actions = member(alloc, value, "actions")?;
    let pipelines = member(alloc, value, "pipelines")?;
    let lists_left_out = lists_left_out(value);
    Ok(RawProgram {
        header_types,
        headers,
        errors,
        parser: parser.only,
        deparser: deparser.only,
        counter_arrays,
        calculations,
        checksums,
        learn_lists,
        actions,
        pipelines,
        lists_left_out,
    })
}

#[tactic(auto, using(crate::proofs::Refusals::refuses))]
fn json_in(alloc: Global, bytes: &[u8]) -> Result<Tree, Refusal<JsonFault>>
    ensures { Finds view result (json_in bytes.now) }
{
    match str::from_utf8(bytes) {
        Err(_) => Err(at_rule(alloc, 1, "UTF-8")),
        Ok(text) => match Tree::read(alloc, text) {
            Ok(tree) => Ok(tree),
            Err(Refusal::NoMemory) => Err(Refusal::NoMemory),
            Err(Refusal::For(_)) => Err(at_rule(alloc, 1, "JSON")),
        },
    }
}

#[tactic(auto, unfolding(crate::specs::Program::program_in), using(crate::proofs::Refusals::refuses))]
fn program_in<'a>(
    alloc: Global,
    bytes: &[u8],
    place: &'a mut Option<Tree>,
) -> Result<RawProgram<'a>, Refusal<JsonFault>>
    ensures { Finds (λ x. x) result (program_in bytes.now) }
{
    if bytes.len() > LONGEST {
        return Err(at_rule(alloc, 1, "length"));
    }
    let tree: &'a Tree = place.insert(json_in(alloc, bytes)?);
    program_of(alloc, &tree.root())
}

fn flaw_of(alloc: Global, program: &RawProgram<'_>) -> Result<Option<u8>, NoMemory>
    ensures { IfOk result (λ rule. rule ≡ flaw_of program.now) }
{
    let types = Index::of(alloc, program.header_types.as_slice())?;
    let headers = Index::of(alloc, program.headers.as_slice())?;
    let scope = Scope {
        raw: program,
        types,
        headers,
    };
    if left_out::has_left_out(&scope) {
        return Ok(Some(2));
    }
    if limits::exceeds(&scope) {
        return Ok(Some(3));
    }
    Ok(None)
}

/// The raw records of a program in BMv2's JSON form, or the first rule of L1 to L3 that it breaks: it
/// is not JSON of the profile's shapes, it has a form that is left out, or it exceeds a limit. The names in the records are
/// those of the tree that is put at the place.
#[tactic(auto, using(crate::proofs::Refusals::breaks, crate::proofs::Refusals::is_first))]
pub fn read_json<'a>(
    alloc: Global,
    bytes: &[u8],
    place: &'a mut Option<Tree>,
) -> Result<RawProgram<'a>, Refusal<JsonFault>>
    ensures { Answers bytes.now result }
{
    let program = program_in(alloc, bytes, place)?;
    match flaw_of(alloc, &program)? {
        None => Ok(program),
        Some(rule) => Err(at_rule(alloc, rule, "program")),
    }
}
