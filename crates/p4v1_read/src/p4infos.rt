//! The messages of a P4Info, each read by its fields.
ghost use Rattle.std.specs.Prelude.{◌≡◌};
ghost use Rattle.p4v1_read.specs.Nested.{read};
ghost use Rattle.p4v1_read.specs.P4Infos.{preamble_of, match_field_of, action_ref_of, table_of, param_of, action_of, action_profile_of, counter_spec_of, counter_of, direct_counter_of, metadata_of, controller_packet_metadata_of, digest_of, p4info_of};
ghost use Rattle.wire_messages.specs.Answers.{ReadsInMemory};

use crate::reading;
use crate::reading::Readable;
use list_types::Refusal;
use p4_types::p4info::{
    Action, ActionProfile, ActionRef, ControllerPacketMetadata, Counter, CounterSpec, Digest,
    DirectCounter, MatchField, Metadata, P4Info, Param, Preamble, Table,
};
use std::alloc::Global;
use wire_messages::{Message, Unreadable};

impl Readable for Preamble {
    ghost meaning = { preamble_of };

    #[tactic(auto, unfolding(crate::specs::P4Infos::preamble_of))]
    fn read(alloc: Global, message: &Message<'_>) -> Result<Preamble, Refusal<Unreadable>> {
        let id = message.uint32(1)?;
        let name = reading::text(alloc, message, 2)?;
        let alias = reading::text(alloc, message, 3)?;
        let annotations = message.texts(alloc, 4)?;
        Ok(Preamble {
            id,
            name,
            alias,
            annotations,
        })
    }
}

impl Readable for MatchField {
    ghost meaning = { match_field_of };

    #[tactic(auto, unfolding(crate::specs::P4Infos::match_field_of))]
    fn read(alloc: Global, message: &Message<'_>) -> Result<MatchField, Refusal<Unreadable>> {
        let id = message.uint32(1)?;
        let name = reading::text(alloc, message, 2)?;
        let bitwidth = message.int32(4)?;
        let match_type = message.int32(5)?;
        Ok(MatchField {
            id,
            name,
            bitwidth,
            match_type,
        })
    }
}

impl Readable for ActionRef {
    ghost meaning = { action_ref_of };

    #[tactic(auto, unfolding(crate::specs::P4Infos::action_ref_of))]
    fn read(alloc: Global, message: &Message<'_>) -> Result<ActionRef, Refusal<Unreadable>> {
        let id = message.uint32(1)?;
        let scope = message.int32(3)?;
        Ok(ActionRef { id, scope })
    }
}

impl Readable for Table {
    ghost meaning = { table_of };

    #[tactic(auto, unfolding(crate::specs::P4Infos::table_of))]
    fn read(alloc: Global, message: &Message<'_>) -> Result<Table, Refusal<Unreadable>> {
        let preamble = reading::one(alloc, message, 1)?;
        let match_fields = reading::all(alloc, message, 2)?;
        let action_refs = reading::all(alloc, message, 3)?;
        let const_default_action_id = message.uint32(4)?;
        let implementation_id = message.uint32(6)?;
        let direct_resource_ids = reading::uint32s(alloc, message, 7)?;
        let size = message.int64(8)?;
        let idle_timeout_behavior = message.int32(9)?;
        let is_const_table = message.boolean(10)?;
        Ok(Table {
            preamble,
            match_fields,
            action_refs,
            const_default_action_id,
            implementation_id,
            direct_resource_ids,
            size,
            idle_timeout_behavior,
            is_const_table,
        })
    }
}

impl Readable for Param {
    ghost meaning = { param_of };

    #[tactic(auto, unfolding(crate::specs::P4Infos::param_of))]
    fn read(alloc: Global, message: &Message<'_>) -> Result<Param, Refusal<Unreadable>> {
        let id = message.uint32(1)?;
        let name = reading::text(alloc, message, 2)?;
        let bitwidth = message.int32(4)?;
        Ok(Param { id, name, bitwidth })
    }
}

impl Readable for Action {
    ghost meaning = { action_of };

    #[tactic(auto, unfolding(crate::specs::P4Infos::action_of))]
    fn read(alloc: Global, message: &Message<'_>) -> Result<Action, Refusal<Unreadable>> {
        let preamble = reading::one(alloc, message, 1)?;
        let params = reading::all(alloc, message, 2)?;
        Ok(Action { preamble, params })
    }
}

impl Readable for ActionProfile {
    ghost meaning = { action_profile_of };

    #[tactic(auto, unfolding(crate::specs::P4Infos::action_profile_of))]
    fn read(alloc: Global, message: &Message<'_>) -> Result<ActionProfile, Refusal<Unreadable>> {
        let preamble = reading::one(alloc, message, 1)?;
        let table_ids = reading::uint32s(alloc, message, 2)?;
        let with_selector = message.boolean(3)?;
        let size = message.int64(4)?;
        let max_group_size = message.int32(5)?;
        Ok(ActionProfile {
            preamble,
            table_ids,
            with_selector,
            size,
            max_group_size,
        })
    }
}

impl Readable for CounterSpec {
    ghost meaning = { counter_spec_of };

    #[tactic(auto, unfolding(crate::specs::P4Infos::counter_spec_of))]
    fn read(alloc: Global, message: &Message<'_>) -> Result<CounterSpec, Refusal<Unreadable>> {
        let unit = message.int32(1)?;
        Ok(CounterSpec { unit })
    }
}

impl Readable for Counter {
    ghost meaning = { counter_of };

    #[tactic(auto, unfolding(crate::specs::P4Infos::counter_of))]
    fn read(alloc: Global, message: &Message<'_>) -> Result<Counter, Refusal<Unreadable>> {
        let preamble = reading::one(alloc, message, 1)?;
        let spec = reading::one(alloc, message, 2)?;
        let size = message.int64(3)?;
        Ok(Counter {
            preamble,
            spec,
            size,
        })
    }
}

impl Readable for DirectCounter {
    ghost meaning = { direct_counter_of };

    #[tactic(auto, unfolding(crate::specs::P4Infos::direct_counter_of))]
    fn read(alloc: Global, message: &Message<'_>) -> Result<DirectCounter, Refusal<Unreadable>> {
        let preamble = reading::one(alloc, message, 1)?;
        let spec = reading::one(alloc, message, 2)?;
        let direct_table_id = message.uint32(3)?;
        Ok(DirectCounter {
            preamble,
            spec,
            direct_table_id,
        })
    }
}

impl Readable for Metadata {
    ghost meaning = { metadata_of };

    #[tactic(auto, unfolding(crate::specs::P4Infos::metadata_of))]
    fn read(alloc: Global, message: &Message<'_>) -> Result<Metadata, Refusal<Unreadable>> {
        let id = message.uint32(1)?;
        let name = reading::text(alloc, message, 2)?;
        let bitwidth = message.int32(4)?;
        Ok(Metadata { id, name, bitwidth })
    }
}

impl Readable for ControllerPacketMetadata {
    ghost meaning = { controller_packet_metadata_of };

    #[tactic(auto, unfolding(crate::specs::P4Infos::controller_packet_metadata_of))]
    fn read(
        alloc: Global,
        message: &Message<'_>,
    ) -> Result<ControllerPacketMetadata, Refusal<Unreadable>> {
        let preamble = reading::one(alloc, message, 1)?;
        let metadata = reading::all(alloc, message, 2)?;
        Ok(ControllerPacketMetadata { preamble, metadata })
    }
}

impl Readable for Digest {
    ghost meaning = { digest_of };

    #[tactic(auto, unfolding(crate::specs::P4Infos::digest_of))]
    fn read(alloc: Global, message: &Message<'_>) -> Result<Digest, Refusal<Unreadable>> {
        let preamble = reading::one(alloc, message, 1)?;
        let type_spec = reading::carried(alloc, message, 2)?;
        Ok(Digest {
            preamble,
            type_spec,
        })
    }
}

impl Readable for P4Info {
    ghost meaning = { p4info_of };

    #[tactic(auto, unfolding(crate::specs::P4Infos::p4info_of))]
    fn read(alloc: Global, message: &Message<'_>) -> Result<P4Info, Refusal<Unreadable>> {
        let tables = reading::all(alloc, message, 2)?;
        let actions = reading::all(alloc, message, 3)?;
        let action_profiles = reading::all(alloc, message, 4)?;
        let counters = reading::all(alloc, message, 5)?;
        let direct_counters = reading::all(alloc, message, 6)?;
        let controller_packet_metadata = reading::all(alloc, message, 9)?;
        let digests = reading::all(alloc, message, 12)?;
        Ok(P4Info {
            tables,
            actions,
            action_profiles,
            counters,
            direct_counters,
            controller_packet_metadata,
            digests,
        })
    }
}

/// The P4Info that the bytes are (p4.config.v1). It copies the texts and bytes that it keeps.
pub fn read_p4info(alloc: Global, bytes: &[u8]) -> Result<P4Info, Refusal<Unreadable>>
    ensures { ReadsInMemory (λ x. x) result (read p4info_of bytes.now) }
{
    reading::from_bytes(alloc, bytes)
}
