//! Laws of messages, each the contract of a function that does nothing: what is written is read back. An
//! optional message whose fields are all defaults is left out, and counts as not given.
ghost use Rattle.p4v1_wire.specs.Laws.{AnyIsReadBack, StatusIsReadBack, ErrorIsReadBack, TableEntryIsReadBack, EntityIsReadBack, ArbitrationIsReadBack, PacketInIsReadBack, PacketOutIsReadBack, DigestAckIsReadBack, IdleTimeoutIsReadBack, ReadResponseIsReadBack, ConfigIsReadBack, GetResponseIsReadBack, CapabilitiesResponseIsReadBack, InfoIsReadBack, DigestListIsReadBack, StreamErrorIsReadBack, StreamResponseIsReadBack};
ghost use Rattle.p4v1_wire.specs.Worked.{WorkedMessages};

/// An Any is read back.
pub fn any_is_read_back()
    ensures { AnyIsReadBack }
{}

/// A Status is read back.
pub fn status_is_read_back()
    ensures { StatusIsReadBack }
{}

/// An Error is read back.
pub fn error_is_read_back()
    ensures { ErrorIsReadBack }
{}

/// A TableEntry is read back.
pub fn table_entry_is_read_back()
    ensures { TableEntryIsReadBack }
{}

/// An Entity is read back.
pub fn entity_is_read_back()
    ensures { EntityIsReadBack }
{}

/// A MasterArbitrationUpdate is read back.
pub fn arbitration_is_read_back()
    ensures { ArbitrationIsReadBack }
{}

/// A PacketIn is read back.
pub fn packet_in_is_read_back()
    ensures { PacketInIsReadBack }
{}

/// A PacketOut is read back.
pub fn packet_out_is_read_back()
    ensures { PacketOutIsReadBack }
{}

/// A DigestListAck is read back.
pub fn digest_ack_is_read_back()
    ensures { DigestAckIsReadBack }
{}

/// An IdleTimeoutNotification is read back.
pub fn idle_timeout_is_read_back()
    ensures { IdleTimeoutIsReadBack }
{}

/// A ReadResponse is read back.
pub fn read_response_is_read_back()
    ensures { ReadResponseIsReadBack }
{}

/// A ForwardingPipelineConfig is read back.
pub fn config_is_read_back()
    ensures { ConfigIsReadBack }
{}

/// A GetForwardingPipelineConfigResponse is read back.
pub fn get_response_is_read_back()
    ensures { GetResponseIsReadBack }
{}

/// A CapabilitiesResponse is read back.
pub fn capabilities_response_is_read_back()
    ensures { CapabilitiesResponseIsReadBack }
{}

/// The objects of a P4Info are read back, as the message that they stand for.
pub fn info_is_read_back()
    ensures { InfoIsReadBack }
{}

/// A DigestList is read back.
pub fn digest_list_is_read_back()
    ensures { DigestListIsReadBack }
{}

/// A StreamError is read back.
pub fn stream_error_is_read_back()
    ensures { StreamErrorIsReadBack }
{}

/// A StreamMessageResponse is read back.
pub fn stream_response_is_read_back()
    ensures { StreamResponseIsReadBack }
{}

/// The canonical bytes of worked messages.
pub fn worked_messages()
    ensures { WorkedMessages }
{}
