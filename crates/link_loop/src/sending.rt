//! What a link is sent.
ghost use Rattle.std.specs.Prelude.{◌≡◌, ◌≢◌, [], Some};
ghost use Rattle.sw_edge.specs.Answers.{Sends};
ghost use Rattle.sw_edge.specs.Counts.{HasCause, StaysUnless};
ghost use Rattle.sw_edge.specs.Told.{Keeps};
ghost use Rattle.link_loop.specs.Courses.{SaysGoodbye};
ghost use Rattle.link_loop.specs.Steps.{Pushes, PushesPiece};

use crate::ends::LinkEnd;
use h2_frames::H2Code;
use list_types::{ByteList, NoMemory};
use sw_edge::{Link, Sent};

// Pushes bytes, if there are any.
fn push_some<L: Link>(link: &mut L, bytes: &[u8]) -> Sent
    ensures sends { Sends (L.sent link.old) (L.sent link.new) result bytes.now }
    ensures keeps_left { Keeps (L.left link.old) (L.left link.new) }
    ensures failed { HasCause (L.faults link.old) (L.faults link.new) (result ≡ Sent.Failed) }
    ensures no_fault { StaysUnless (L.faults link.old) (L.faults link.new) (result ≡ Sent.Failed) }
    ensures quiet { L.quiets link.new ≡ L.quiets link.old }
    ensures end { L.ends link.new ≡ L.ends link.old }
{
    if bytes.is_empty() {
        return Sent::All;
    }
    link.push(bytes)
}

/// Pushes what a turn served, if there was memory for it.
pub(crate) fn push_served<L: Link>(
    link: &mut L,
    served: Result<ByteList, NoMemory>,
) -> Option<LinkEnd>
    ensures pushes { Pushes result (L.sent link.old) (L.sent link.new) served }
    ensures not_closed { result ≢ Some LinkEnd.Closed }
    ensures keeps_left { Keeps (L.left link.old) (L.left link.new) }
    ensures failed { HasCause (L.faults link.old) (L.faults link.new) (result ≡ Some LinkEnd.Fault) }
    ensures no_fault { StaysUnless (L.faults link.old) (L.faults link.new) (result ≡ Some LinkEnd.Fault) }
    ensures quiet { L.quiets link.new ≡ L.quiets link.old }
    ensures end { L.ends link.new ≡ L.ends link.old }
{
    match served {
        Err(NoMemory) => Some(LinkEnd::Memory),
        Ok(sent) => match push_some(link, sent.as_slice()) {
            Sent::All => None,
            Sent::Failed => Some(LinkEnd::Fault),
        },
    }
}

/// Pushes what a piece served, before a breach's code ends the link.
pub(crate) fn push_piece<L: Link>(
    link: &mut L,
    served: Result<(ByteList, Option<H2Code>), NoMemory>,
) -> Option<LinkEnd>
    ensures pushes { PushesPiece result (L.sent link.old) (L.sent link.new) served }
    ensures not_closed { result ≢ Some LinkEnd.Closed }
    ensures keeps_left { Keeps (L.left link.old) (L.left link.new) }
    ensures failed { HasCause (L.faults link.old) (L.faults link.new) (result ≡ Some LinkEnd.Fault) }
    ensures no_fault { StaysUnless (L.faults link.old) (L.faults link.new) (result ≡ Some LinkEnd.Fault) }
    ensures quiet { L.quiets link.new ≡ L.quiets link.old }
    ensures end { L.ends link.new ≡ L.ends link.old }
{
    match served {
        Err(NoMemory) => Some(LinkEnd::Memory),
        Ok((sent, code)) => match push_some(link, sent.as_slice()) {
            Sent::Failed => Some(LinkEnd::Fault),
            Sent::All => match code {
                None => None,
                Some(code) => Some(LinkEnd::Refused(code)),
            },
        },
    }
}

// GOAWAY of stream 0 without an error, and with the greatest number as the last stream.
const GOODBYE: [u8; 17] = [0, 0, 8, 7, 0, 0, 0, 0, 0, 127, 255, 255, 255, 0, 0, 0, 0];

/// Pushes GOAWAY to a client that was quiet for too long.
pub(crate) fn say_goodbye<L: Link>(link: &mut L) -> LinkEnd
    ensures says { SaysGoodbye result (L.sent link.old) (L.sent link.new) [] }
    ensures not_closed { result ≢ LinkEnd.Closed }
    ensures keeps_left { Keeps (L.left link.old) (L.left link.new) }
    ensures failed { HasCause (L.faults link.old) (L.faults link.new) (result ≡ LinkEnd.Fault) }
    ensures no_fault { StaysUnless (L.faults link.old) (L.faults link.new) (result ≡ LinkEnd.Fault) }
    ensures quiet { L.quiets link.new ≡ L.quiets link.old }
    ensures end { L.ends link.new ≡ L.ends link.old }
{
    match link.push(&GOODBYE) {
        Sent::All => LinkEnd::Quiet,
        Sent::Failed => LinkEnd::Fault,
    }
}
