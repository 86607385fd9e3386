//! A lane that brings bytes.
ghost use Rattle.std.specs.Prelude.{◌≡◌, [], IfOk, OnOk};
ghost use Rattle.byte_lanes.specs.Filling.{greeted};
ghost use Rattle.byte_lanes.specs.Lane.{IsLane, FeedsLane, TellsLane};

use list_types::{ByteList, NoMemory};
use p4_types::messages::StreamMessageResponse;
use p4rt_service::{Desk, Service};
use std::alloc::Global;
use std::marker::Model;

/// A lane that brings bytes: P4Runtime for its client, and the bytes that the client was sent.
#[derive(Drop)]
pub struct ByteLane {
    service: Service,
    sent: ByteList,
}

impl Model for ByteLane {
    ghost use Rattle.byte_lanes.specs.Lane.{LaneState};

    ghost Value = { LaneState };

    ghost view = { λ lane. record { standing = lane.service; sent = lane.sent } };
}

impl ByteLane {
    /// The lane of a pass, of which nothing has come; the server's SETTINGS are sent.
    pub fn open<D: Desk>(alloc: Global, desk: &D, pass: &mut D::Pass) -> Result<ByteLane, NoMemory>
        requires { D.is_of desk.now pass.old }
        ensures lane { IfOk result (λ lane. IsLane lane (greeted (D.lane_of pass.old))) }
        ensures pass { OnOk result (pass.new ≡ pass.old) }
    {
        let mut service = Service::open(alloc, desk, pass)?;
        let (sent, _breach) = service.feed(alloc, desk, pass, &[])?;
        Ok(ByteLane { service, sent })
    }

    /// The next bytes of the client, however they are cut: the calls that they make are asked of the desk, and what is sent for them
    /// stands behind what was sent.
    pub fn feed<D: Desk>(
        &mut self,
        alloc: Global,
        desk: &D,
        pass: &mut D::Pass,
        piece: &[u8],
    ) -> Result<(), NoMemory>
        requires { D.is_of desk.now pass.old }
        ensures of { D.is_of desk.now pass.new }
        ensures fed { OnOk result (FeedsLane D.answers pass.old pass.new piece.now self.old self.new) }
    {
        let (bytes, _breach) = self.service.feed(alloc, desk, pass, piece)?;
        self.sent.extend_from_slice(bytes.as_slice())?;
        Ok(())
    }

    /// A message for the client, which is sent where its channel is open.
    pub fn tell(&mut self, alloc: Global, message: &StreamMessageResponse) -> Result<(), NoMemory>
        ensures { OnOk result (TellsLane message.now self.old self.new) }
    {
        let bytes = self.service.deliver(alloc, message)?;
        self.sent.extend_from_slice(bytes.as_slice())?;
        Ok(())
    }

    /// What the client was sent, which the lane no longer keeps.
    pub fn take_sent(&mut self, alloc: Global) -> ByteList
        ensures sent { result ≡ self.old.sent }
        ensures lane { self.new ≡ record self.old { sent = [] } }
    {
        std::mem::replace(&mut self.sent, ByteList::new(alloc))
    }
}
