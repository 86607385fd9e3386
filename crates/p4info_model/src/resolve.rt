//! The objects of a P4Info from its message.
ghost use Rattle.std.specs.Prelude.{◌≡◌, ◌<◌, ◌^◌, All, map, IfOk};
ghost use Rattle.info_rules.specs.Objects.{preamble_of};
ghost use Rattle.p4info_model.specs.Valid.{AreSizesSmall};
ghost use Rattle.p4info_model.specs.Resolved.{field_of, ref_of, table_of, param_of, action_of, profile_of, unit_of, counter_of, direct_counter_of, header_field_of, header_of, carried, digest_of, info_of};

use info_rules::numbers;
use list_types::{ByteList, List, NoMemory, Text};
use p4_types::info::{Info, MatchKind, Scope};
use p4_types::p4info::{CounterSpec, P4Info, Preamble};
use p4_types::{info, p4info};
use std::alloc::Global;
use text_lists::TextList;

/// A message that stands for an object or a part of one.
trait Resolve<T> {
    ghost meaning: { Self → T };

    ghost sizes: { T → Type 0 };

    fn resolve(self, alloc: Global) -> Result<T, NoMemory>
        ensures meaning { IfOk result (λ object. object ≡ meaning self) }
        ensures sizes { IfOk result sizes };
}

fn all<M: Resolve<T> + Drop, T: Drop>(alloc: Global, messages: List<M>) -> Result<List<T>, NoMemory>
    ensures meaning { IfOk result (λ objects. objects ≡ map M.meaning messages) }
    ensures sizes { IfOk result (All M.sizes) }
{
    let mut objects = List::new(alloc);
    for message in messages.into_vec() {
        objects.push(message.resolve(alloc)?)?;
    }
    Ok(objects)
}

fn preamble_of(alloc: Global, given: Option<Preamble>) -> Preamble
    ensures { result ≡ preamble_of given }
{
    match given {
        Some(preamble) => preamble,
        None => Preamble {
            id: 0,
            name: Text::from_string(String::new(alloc)),
            alias: Text::from_string(String::new(alloc)),
            annotations: TextList::new(alloc),
        },
    }
}

impl Resolve<info::MatchField> for p4info::MatchField {
    ghost meaning = { field_of };

    ghost sizes = { λ _. Unit {0} };

    fn resolve(self, _: Global) -> Result<info::MatchField, NoMemory> {
        Ok(info::MatchField {
            id: self.id,
            name: self.name,
            bitwidth: numbers::width_of(self.bitwidth).unwrap_or(1),
            kind: numbers::kind_of(self.match_type).unwrap_or(MatchKind::Exact),
        })
    }
}

impl Resolve<info::ActionRef> for p4info::ActionRef {
    ghost meaning = { ref_of };

    ghost sizes = { λ _. Unit {0} };

    fn resolve(self, _: Global) -> Result<info::ActionRef, NoMemory> {
        Ok(info::ActionRef {
            id: self.id,
            scope: numbers::scope_of(self.scope).unwrap_or(Scope::TableAndDefault),
        })
    }
}

impl Resolve<info::Table> for p4info::Table {
    ghost meaning = { table_of };

    ghost sizes = { λ t. t.size < 2 ^ 63 };

    fn resolve(self, alloc: Global) -> Result<info::Table, NoMemory> {
        Ok(info::Table {
            preamble: preamble_of(alloc, self.preamble),
            match_fields: all(alloc, self.match_fields)?,
            action_refs: all(alloc, self.action_refs)?,
            const_default_action: numbers::named(self.const_default_action_id),
            action_profile: numbers::named(self.implementation_id),
            direct_counters: self.direct_resource_ids,
            size: numbers::size_of(self.size).unwrap_or(0),
            idle_timeout_behavior: self.idle_timeout_behavior,
            is_const_table: self.is_const_table,
        })
    }
}

impl Resolve<info::Param> for p4info::Param {
    ghost meaning = { param_of };

    ghost sizes = { λ _. Unit {0} };

    fn resolve(self, _: Global) -> Result<info::Param, NoMemory> {
        Ok(info::Param {
            id: self.id,
            name: self.name,
            bitwidth: numbers::width_of(self.bitwidth).unwrap_or(1),
        })
    }
}

impl Resolve<info::Action> for p4info::Action {
    ghost meaning = { action_of };

    ghost sizes = { λ _. Unit {0} };

    fn resolve(self, alloc: Global) -> Result<info::Action, NoMemory> {
        Ok(info::Action {
            preamble: preamble_of(alloc, self.preamble),
            params: all(alloc, self.params)?,
        })
    }
}

impl Resolve<info::ActionProfile> for p4info::ActionProfile {
    ghost meaning = { profile_of };

    ghost sizes = { λ p. (p.size < 2 ^ 63) × (p.max_group_size < 2 ^ 31) };

    fn resolve(self, alloc: Global) -> Result<info::ActionProfile, NoMemory> {
        Ok(info::ActionProfile {
            preamble: preamble_of(alloc, self.preamble),
            table_ids: self.table_ids,
            with_selector: self.with_selector,
            size: numbers::size_of(self.size).unwrap_or(0),
            max_group_size: numbers::small_size_of(self.max_group_size).unwrap_or(0),
        })
    }
}

fn unit_of(given: Option<CounterSpec>) -> i32
    ensures { result ≡ unit_of given }
{
    match given {
        Some(spec) => spec.unit,
        None => 0,
    }
}

impl Resolve<info::Counter> for p4info::Counter {
    ghost meaning = { counter_of };

    ghost sizes = { λ c. c.size < 2 ^ 63 };

    fn resolve(self, alloc: Global) -> Result<info::Counter, NoMemory> {
        Ok(info::Counter {
            preamble: preamble_of(alloc, self.preamble),
            unit: unit_of(self.spec),
            size: numbers::size_of(self.size).unwrap_or(0),
        })
    }
}

impl Resolve<info::DirectCounter> for p4info::DirectCounter {
    ghost meaning = { direct_counter_of };

    ghost sizes = { λ _. Unit {0} };

    fn resolve(self, alloc: Global) -> Result<info::DirectCounter, NoMemory> {
        Ok(info::DirectCounter {
            preamble: preamble_of(alloc, self.preamble),
            unit: unit_of(self.spec),
            table: self.direct_table_id,
        })
    }
}

impl Resolve<info::HeaderField> for p4info::Metadata {
    ghost meaning = { header_field_of };

    ghost sizes = { λ _. Unit {0} };

    fn resolve(self, _: Global) -> Result<info::HeaderField, NoMemory> {
        Ok(info::HeaderField {
            id: self.id,
            name: self.name,
            bitwidth: numbers::width_of(self.bitwidth).unwrap_or(1),
        })
    }
}

impl Resolve<info::ControllerHeader> for p4info::ControllerPacketMetadata {
    ghost meaning = { header_of };

    ghost sizes = { λ _. Unit {0} };

    fn resolve(self, alloc: Global) -> Result<info::ControllerHeader, NoMemory> {
        Ok(info::ControllerHeader {
            preamble: preamble_of(alloc, self.preamble),
            fields: all(alloc, self.metadata)?,
        })
    }
}

// A message that is carried unread, which counts as not given where it is empty.
fn carried(given: Option<ByteList>) -> Option<ByteList>
    ensures { result ≡ carried given }
{
    match given {
        Some(bytes) => {
            if bytes.is_empty() {
                return None;
            }
            Some(bytes)
        }
        None => None,
    }
}

impl Resolve<info::Digest> for p4info::Digest {
    ghost meaning = { digest_of };

    ghost sizes = { λ _. Unit {0} };

    fn resolve(self, alloc: Global) -> Result<info::Digest, NoMemory> {
        Ok(info::Digest {
            preamble: preamble_of(alloc, self.preamble),
            type_spec: carried(self.type_spec),
        })
    }
}

/// The objects of a P4Info, in its order.
pub(crate) fn info_of(alloc: Global, message: P4Info) -> Result<Info, NoMemory>
    ensures meaning { IfOk result (λ info. info ≡ info_of message) }
    ensures sizes { IfOk result AreSizesSmall }
{
    Ok(Info {
        tables: all(alloc, message.tables)?,
        actions: all(alloc, message.actions)?,
        action_profiles: all(alloc, message.action_profiles)?,
        counters: all(alloc, message.counters)?,
        direct_counters: all(alloc, message.direct_counters)?,
        controller_packet_metadata: all(alloc, message.controller_packet_metadata)?,
        digests: all(alloc, message.digests)?,
    })
}
