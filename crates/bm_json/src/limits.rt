//! The limits of a program.
ghost use Rattle.std.specs.Prelude.{◌≡◌, ◌+◌, Bool, nat_lt, count_by, not, length};
ghost use Rattle.std.specs.List.{list_any};
ghost use Rattle.bm_json.specs.Limits.{fields_of, has_more_fields, action_exceeds, counters_exceed, pipelines_exceed, headers_exceed, learn_lists_exceed, objects_exceed, exceeds};

use crate::left_out;
use crate::scope::Scope;
use bm_records::raw::{Action, CounterArray, Header, LearnList, Pipelines, RawProgram, Table};

fn fields_of(scope: &Scope, header: &Header) -> usize
    ensures { result ≡ fields_of scope.now.raw.now.header_types header.now }
{
    match left_out::type_of(scope, header) {
        None => 0,
        Some(header_type) => header_type.fields.len(),
    }
}

#[tactic(auto, using(bm_records::proofs::Together::exceeds_most))]
fn has_more_fields(most: usize, scope: &Scope, headers: &[Header]) -> bool
    ensures { result ≡ has_more_fields most scope.now.raw.now.header_types headers.now }
{
    let mut room = most;
    for header in headers {
        let count = fields_of(scope, header);
        if count > room {
            return true;
        }
        room -= count;
    }
    false
}

/// What has limits of its own.
trait Limited {
    ghost exceeding: { Self → Bool };

    /// Whether it exceeds one.
    fn exceeds(&self) -> bool
        ensures { result ≡ exceeding self.now };
}

fn any_exceeds<T: Limited>(items: &[T]) -> bool
    ensures { result ≡ list_any T.exceeding items.now }
{
    items.iter().any(|item| item.exceeds())
}

impl<'a> Limited for Action<'a> {
    ghost exceeding = { action_exceeds };

    fn exceeds(&self) -> bool {
        self.runtime_data.len() > 8 || self.primitives.len() > 64
    }
}

impl<'a> Limited for LearnList<'a> {
    ghost exceeding = { λ list. nat_lt 128 (length list.elements) };

    fn exceeds(&self) -> bool {
        self.elements.len() > 128
    }
}

impl<'a> Limited for Table<'a> {
    ghost exceeding = { λ table. nat_lt 16 (length table.key) };

    fn exceeds(&self) -> bool {
        self.key.len() > 16
    }
}

fn direct(counters: &[CounterArray<'_>]) -> usize
    ensures { result ≡ count_by (λ counter. counter.is_direct) counters.now }
{
    counters.iter().filter(|counter| counter.is_direct).count()
}

fn indirect(counters: &[CounterArray<'_>]) -> usize
    ensures { result ≡ count_by (λ counter. not counter.is_direct) counters.now }
{
    counters.iter().filter(|counter| !counter.is_direct).count()
}

fn counters_exceed(counters: &[CounterArray<'_>]) -> bool
    ensures { result ≡ counters_exceed counters.now }
{
    direct(counters) > 128 || indirect(counters) > 128
}

fn together_exceed(most: usize, first: usize, second: usize) -> bool
    ensures { result ≡ nat_lt most (first + second) }
{
    if first > most {
        return true;
    }
    second > most - first
}

fn pipelines_exceed(pipelines: &Pipelines<'_>) -> bool
    ensures { result ≡ pipelines_exceed pipelines.now }
{
    let ingress = &pipelines.ingress;
    let egress = &pipelines.egress;
    together_exceed(128, ingress.tables.len(), egress.tables.len())
        || together_exceed(
            128,
            ingress.action_profiles.len(),
            egress.action_profiles.len(),
        )
        || any_exceeds(ingress.tables.as_slice())
        || any_exceeds(egress.tables.as_slice())
}

fn headers_exceed(scope: &Scope) -> bool
    ensures { result ≡ headers_exceed scope.now.raw.now }
{
    let headers = scope.raw.headers.as_slice();
    headers.len() > 128 || has_more_fields(1024, scope, headers)
}

fn learn_lists_exceed(lists: &[LearnList<'_>]) -> bool
    ensures { result ≡ learn_lists_exceed lists.now }
{
    lists.len() > 128 || any_exceeds(lists)
}

fn objects_exceed(program: &RawProgram<'_>) -> bool
    ensures { result ≡ objects_exceed program.now }
{
    program.actions.len() > 512
        || any_exceeds(program.actions.as_slice())
        || program.parser.parse_states.len() > 256
}

/// Whether the program exceeds a limit.
#[tactic(auto, unfolding(crate::specs::Limits::exceeds))]
pub(crate) fn exceeds(scope: &Scope) -> bool
    ensures { result ≡ exceeds scope.now.raw.now }
{
    let program = scope.raw;
    headers_exceed(scope)
        || counters_exceed(program.counter_arrays.as_slice())
        || pipelines_exceed(&program.pipelines)
        || learn_lists_exceed(program.learn_lists.as_slice())
        || objects_exceed(program)
}
