//! Responses, each written by the rows of its message.
ghost use Rattle.std.specs.Prelude.{◌≡◌};
ghost use Rattle.p4v1_wire.specs.ResponseRows.{CapabilitiesResponseInRange, ConfigInRange, CookieInRange, GetResponseInRange, ReadResponseInRange, capabilities_response_rows, config_rows, cookie_rows, get_response_rows, read_response_rows};

use crate::writing;
use crate::writing::Writable;
use list_types::NoMemory;
use p4_types::messages::{
    CapabilitiesResponse, Cookie, ForwardingPipelineConfig, GetForwardingPipelineConfigResponse,
    ReadResponse,
};
use std::alloc::Global;
use wire_fields::Writer;
use wire_messages::write;

impl Writable for ReadResponse {
    ghost rows = { read_response_rows };

    ghost in_range = { ReadResponseInRange };

    #[tactic(auto, unfolding(crate::specs::ResponseRows::read_response_rows, crate::specs::ResponseRows::ReadResponseInRange))]
    fn write(&self, alloc: Global, writer: &mut Writer) -> Result<(), NoMemory> {
        writing::messages(alloc, writer, 1, self.entities.as_slice())?;
        Ok(())
    }
}

impl Writable for Cookie {
    ghost rows = { cookie_rows };

    ghost in_range = { CookieInRange };

    #[tactic(auto, unfolding(crate::specs::ResponseRows::cookie_rows, crate::specs::ResponseRows::CookieInRange))]
    fn write(&self, alloc: Global, writer: &mut Writer) -> Result<(), NoMemory> {
        write::uint64(writer, 1, self.cookie)?;
        Ok(())
    }
}

impl Writable for ForwardingPipelineConfig {
    ghost rows = { config_rows };

    ghost in_range = { ConfigInRange };

    #[tactic(auto, unfolding(crate::specs::ResponseRows::config_rows, crate::specs::ResponseRows::ConfigInRange))]
    fn write(&self, alloc: Global, writer: &mut Writer) -> Result<(), NoMemory> {
        writing::carried(writer, 1, &self.p4info)?;
        write::bytes(writer, 2, self.p4_device_config.as_slice())?;
        writing::optional(alloc, writer, 3, &self.cookie)?;
        Ok(())
    }
}

impl Writable for GetForwardingPipelineConfigResponse {
    ghost rows = { get_response_rows };

    ghost in_range = { GetResponseInRange };

    #[tactic(auto, unfolding(crate::specs::ResponseRows::get_response_rows, crate::specs::ResponseRows::GetResponseInRange))]
    fn write(&self, alloc: Global, writer: &mut Writer) -> Result<(), NoMemory> {
        writing::present(alloc, writer, 1, &self.config)?;
        Ok(())
    }
}

impl Writable for CapabilitiesResponse {
    ghost rows = { capabilities_response_rows };

    ghost in_range = { CapabilitiesResponseInRange };

    #[tactic(auto, unfolding(crate::specs::ResponseRows::capabilities_response_rows, crate::specs::ResponseRows::CapabilitiesResponseInRange))]
    fn write(&self, alloc: Global, writer: &mut Writer) -> Result<(), NoMemory> {
        write::text(writer, 1, self.p4runtime_api_version.as_str())?;
        Ok(())
    }
}
