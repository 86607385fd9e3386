//! A valid P4Info, written by the rows of its messages (p4.config.v1).
ghost use Rattle.std.specs.Prelude.{◌≡◌};
ghost use Rattle.p4v1_wire.specs.InfoRows.{ActionInRange, ActionProfileInRange, ActionRefInRange, ControllerHeaderInRange, CounterInRange, CounterSpecInRange, DigestInRange, DirectCounterInRange, HeaderFieldInRange, InfoInRange, MatchFieldInRange, ParamInRange, PreambleInRange, TableInRange, action_profile_rows, action_ref_rows, action_rows, controller_header_rows, counter_rows, counter_spec_rows, digest_rows, direct_counter_rows, header_field_rows, info_rows, match_field_rows, param_rows, preamble_rows, table_rows};
ghost use Rattle.p4v1_wire.specs.InfoRows.{kind_number, scope_number};

use crate::writing;
use crate::writing::Writable;
use list_types::NoMemory;
use p4_types::info::{
    Action, ActionProfile, ActionRef, ControllerHeader, Counter, Digest, DirectCounter,
    HeaderField, Info, MatchField, MatchKind, Param, Scope, Table,
};
use p4_types::p4info::{CounterSpec, Preamble};
use std::alloc::Global;
use wire_fields::Writer;
use wire_messages::write;

impl Writable for Preamble {
    ghost rows = { preamble_rows };

    ghost in_range = { PreambleInRange };

    #[tactic(auto, unfolding(crate::specs::InfoRows::preamble_rows, crate::specs::InfoRows::PreambleInRange))]
    fn write(&self, alloc: Global, writer: &mut Writer) -> Result<(), NoMemory> {
        write::uint32(writer, 1, self.id)?;
        write::text(writer, 2, self.name.as_str())?;
        write::text(writer, 3, self.alias.as_str())?;
        write::texts(writer, 4, &self.annotations)?;
        Ok(())
    }
}

fn kind_number(kind: MatchKind) -> u32
    ensures { result ≡ kind_number kind }
{
    match kind {
        MatchKind::Exact => 2,
        MatchKind::Lpm => 3,
        MatchKind::Ternary => 4,
        MatchKind::Range => 5,
        MatchKind::Optional => 6,
    }
}

fn scope_number(scope: Scope) -> u32
    ensures { result ≡ scope_number scope }
{
    match scope {
        Scope::TableAndDefault => 0,
        Scope::TableOnly => 1,
        Scope::DefaultOnly => 2,
    }
}

impl Writable for MatchField {
    ghost rows = { match_field_rows };

    ghost in_range = { MatchFieldInRange };

    #[tactic(auto, unfolding(crate::specs::InfoRows::match_field_rows, crate::specs::InfoRows::MatchFieldInRange))]
    fn write(&self, alloc: Global, writer: &mut Writer) -> Result<(), NoMemory> {
        write::uint32(writer, 1, self.id)?;
        write::text(writer, 2, self.name.as_str())?;
        write::uint32(writer, 4, self.bitwidth)?;
        write::uint32(writer, 5, kind_number(self.kind))?;
        Ok(())
    }
}

impl Writable for ActionRef {
    ghost rows = { action_ref_rows };

    ghost in_range = { ActionRefInRange };

    #[tactic(auto, unfolding(crate::specs::InfoRows::action_ref_rows, crate::specs::InfoRows::ActionRefInRange))]
    fn write(&self, alloc: Global, writer: &mut Writer) -> Result<(), NoMemory> {
        write::uint32(writer, 1, self.id)?;
        write::uint32(writer, 3, scope_number(self.scope))?;
        Ok(())
    }
}

impl Writable for Table {
    ghost rows = { table_rows };

    ghost in_range = { TableInRange };

    #[tactic(auto, unfolding(crate::specs::InfoRows::table_rows, crate::specs::InfoRows::TableInRange))]
    fn write(&self, alloc: Global, writer: &mut Writer) -> Result<(), NoMemory> {
        writing::message(alloc, writer, 1, &self.preamble)?;
        writing::messages(alloc, writer, 2, self.match_fields.as_slice())?;
        writing::messages(alloc, writer, 3, self.action_refs.as_slice())?;
        write::uint32(writer, 4, self.const_default_action.unwrap_or(0))?;
        write::uint32(writer, 6, self.action_profile.unwrap_or(0))?;
        write::packed(alloc, writer, 7, self.direct_counters.as_slice())?;
        write::uint64(writer, 8, self.size)?;
        write::int32(writer, 9, self.idle_timeout_behavior)?;
        write::boolean(writer, 10, self.is_const_table)?;
        Ok(())
    }
}

impl Writable for Param {
    ghost rows = { param_rows };

    ghost in_range = { ParamInRange };

    #[tactic(auto, unfolding(crate::specs::InfoRows::param_rows, crate::specs::InfoRows::ParamInRange))]
    fn write(&self, alloc: Global, writer: &mut Writer) -> Result<(), NoMemory> {
        write::uint32(writer, 1, self.id)?;
        write::text(writer, 2, self.name.as_str())?;
        write::uint32(writer, 4, self.bitwidth)?;
        Ok(())
    }
}

impl Writable for Action {
    ghost rows = { action_rows };

    ghost in_range = { ActionInRange };

    #[tactic(auto, unfolding(crate::specs::InfoRows::action_rows, crate::specs::InfoRows::ActionInRange))]
    fn write(&self, alloc: Global, writer: &mut Writer) -> Result<(), NoMemory> {
        writing::message(alloc, writer, 1, &self.preamble)?;
        writing::messages(alloc, writer, 2, self.params.as_slice())?;
        Ok(())
    }
}

impl Writable for ActionProfile {
    ghost rows = { action_profile_rows };

    ghost in_range = { ActionProfileInRange };

    #[tactic(auto, unfolding(crate::specs::InfoRows::action_profile_rows, crate::specs::InfoRows::ActionProfileInRange))]
    fn write(&self, alloc: Global, writer: &mut Writer) -> Result<(), NoMemory> {
        writing::message(alloc, writer, 1, &self.preamble)?;
        write::packed(alloc, writer, 2, self.table_ids.as_slice())?;
        write::boolean(writer, 3, self.with_selector)?;
        write::uint64(writer, 4, self.size)?;
        write::uint32(writer, 5, self.max_group_size)?;
        Ok(())
    }
}

impl Writable for CounterSpec {
    ghost rows = { counter_spec_rows };

    ghost in_range = { CounterSpecInRange };

    #[tactic(auto, unfolding(crate::specs::InfoRows::counter_spec_rows, crate::specs::InfoRows::CounterSpecInRange))]
    fn write(&self, alloc: Global, writer: &mut Writer) -> Result<(), NoMemory> {
        write::int32(writer, 1, self.unit)?;
        Ok(())
    }
}

impl Writable for Counter {
    ghost rows = { counter_rows };

    ghost in_range = { CounterInRange };

    #[tactic(auto, unfolding(crate::specs::InfoRows::counter_rows, crate::specs::InfoRows::CounterInRange))]
    fn write(&self, alloc: Global, writer: &mut Writer) -> Result<(), NoMemory> {
        writing::message(alloc, writer, 1, &self.preamble)?;
        writing::message(alloc, writer, 2, &CounterSpec { unit: self.unit })?;
        write::uint64(writer, 3, self.size)?;
        Ok(())
    }
}

impl Writable for DirectCounter {
    ghost rows = { direct_counter_rows };

    ghost in_range = { DirectCounterInRange };

    #[tactic(auto, unfolding(crate::specs::InfoRows::direct_counter_rows, crate::specs::InfoRows::DirectCounterInRange))]
    fn write(&self, alloc: Global, writer: &mut Writer) -> Result<(), NoMemory> {
        writing::message(alloc, writer, 1, &self.preamble)?;
        writing::message(alloc, writer, 2, &CounterSpec { unit: self.unit })?;
        write::uint32(writer, 3, self.table)?;
        Ok(())
    }
}

impl Writable for HeaderField {
    ghost rows = { header_field_rows };

    ghost in_range = { HeaderFieldInRange };

    #[tactic(auto, unfolding(crate::specs::InfoRows::header_field_rows, crate::specs::InfoRows::HeaderFieldInRange))]
    fn write(&self, alloc: Global, writer: &mut Writer) -> Result<(), NoMemory> {
        write::uint32(writer, 1, self.id)?;
        write::text(writer, 2, self.name.as_str())?;
        write::uint32(writer, 4, self.bitwidth)?;
        Ok(())
    }
}

impl Writable for ControllerHeader {
    ghost rows = { controller_header_rows };

    ghost in_range = { ControllerHeaderInRange };

    #[tactic(auto, unfolding(crate::specs::InfoRows::controller_header_rows, crate::specs::InfoRows::ControllerHeaderInRange))]
    fn write(&self, alloc: Global, writer: &mut Writer) -> Result<(), NoMemory> {
        writing::message(alloc, writer, 1, &self.preamble)?;
        writing::messages(alloc, writer, 2, self.fields.as_slice())?;
        Ok(())
    }
}

impl Writable for Digest {
    ghost rows = { digest_rows };

    ghost in_range = { DigestInRange };

    #[tactic(auto, unfolding(crate::specs::InfoRows::digest_rows, crate::specs::InfoRows::DigestInRange))]
    fn write(&self, alloc: Global, writer: &mut Writer) -> Result<(), NoMemory> {
        writing::message(alloc, writer, 1, &self.preamble)?;
        writing::carried(writer, 2, &self.type_spec)?;
        Ok(())
    }
}

impl Writable for Info {
    ghost rows = { info_rows };

    ghost in_range = { InfoInRange };

    #[tactic(auto, unfolding(crate::specs::InfoRows::info_rows, crate::specs::InfoRows::InfoInRange))]
    fn write(&self, alloc: Global, writer: &mut Writer) -> Result<(), NoMemory> {
        writing::messages(alloc, writer, 2, self.tables.as_slice())?;
        writing::messages(alloc, writer, 3, self.actions.as_slice())?;
        writing::messages(alloc, writer, 4, self.action_profiles.as_slice())?;
        writing::messages(alloc, writer, 5, self.counters.as_slice())?;
        writing::messages(alloc, writer, 6, self.direct_counters.as_slice())?;
        writing::messages(alloc, writer, 9, self.controller_packet_metadata.as_slice())?;
        writing::messages(alloc, writer, 12, self.digests.as_slice())?;
        Ok(())
    }
}
