//! Runs the connections and services of its standard input, a line each, and prints what comes of them.
//!
//! A row is its kind, a name, and what happens in turn, between blanks. `feed=HEX` are bytes that come, and `each=HEX` bytes that
//! come one by one. Messages stand in hex between commas, `-` are none.
//!
//! - `grpc` is a connection with calls of gRPC over it: `reply=STREAM:CODE:MESSAGES`, `refuse=STREAM:CODE` (or 415),
//!   `end=STREAM`, `message=HEX`. The answer is the events in their order, the stream of the open channel, and all bytes that are
//!   sent.
//! - `service` is a service of lane 3 over a desk that answers what the row says: `reply=CODE:MESSAGES:NOTICES` (what a later call
//!   is answered; a call without one is answered OK and nothing), `packet=HEX` (a PacketIn of this payload is delivered),
//!   `overflow`. Notices are `LANE+HEX`, a PacketIn of this payload to a lane. The answer is the calls as they are made and the
//!   bytes as they are sent, and whether the channel is open at the end.
#![tactic(auto)]

mod connection;
mod desk;
mod kinds;
mod parts;
mod serving;
mod text;

use std::io;

fn main(rt: HostRuntime) -> io::Result<()> {
    row_lines::answer_lines(&rt, kinds::answer)
}
