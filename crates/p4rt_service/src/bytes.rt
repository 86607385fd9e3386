//! What pieces of a client's bytes do, and what is sent meanwhile.
ghost use Rattle.std.specs.Prelude.{◌≤◌, ◌<◌, length, IfOk};
ghost use Rattle.p4rt_service.specs.Dialogues.{each, Notes};
ghost use Rattle.p4rt_service.specs.Turns.{byte_served, piece_served, NotesSome};

use crate::desk::Desk;
use crate::events::{read_some, take_events};
use crate::link::{Link, flush};
use list_types::{ByteList, NoMemory};
use std::alloc::Global;

// The next bytes of a piece, of which only the last causes anything: they are read once all that earlier ones
// caused has gone out.
fn serve_some<D: Desk>(
    alloc: Global,
    piece: &[u8],
    link: &mut Link,
    sent: &mut ByteList,
    desk: &D,
    pass: &mut D::Pass,
    due: &mut bool,
) -> Result<usize, NoMemory>
    requires of { D.is_of desk.now pass.old }
    requires some { 0 < length piece.now }
    ensures of { D.is_of desk.now pass.new }
    ensures within { IfOk result (λ used. (0 < used) × (used ≤ length piece.now)) }
    ensures held { NotesSome D.answers pass.old pass.new due.old due.new result piece.now (record { link = link.old; sent = sent.old }) (record { link = link.new; sent = sent.new }) }
{
    flush(alloc, link, sent)?;
    let (used, events) = read_some(alloc, piece, link)?;
    take_events(alloc, events, link, desk, pass, due)?;
    Ok(used)
}

fn serve_bytes<D: Desk>(
    alloc: Global,
    piece: &[u8],
    link: &mut Link,
    sent: &mut ByteList,
    desk: &D,
    pass: &mut D::Pass,
    due: &mut bool,
) -> Result<(), NoMemory>
    requires { D.is_of desk.now pass.old }
    ensures of { D.is_of desk.now pass.new }
    ensures held { Notes D.answers pass.old pass.new due.old due.new result (each byte_served piece.now (record { link = link.old; sent = sent.old })) (record { link = link.new; sent = sent.new }) }
{
    let mut rest = piece;
    for _ in 0..piece.len() {
        if rest.is_empty() {
            return Ok(());
        }
        let used = serve_some(alloc, rest, link, sent, desk, pass, due)?;
        let (_, after) = rest.split_at(used);
        rest = after;
    }
    Ok(())
}

/// What a piece of the client's bytes does, where this was sent.
pub(crate) fn serve_piece<D: Desk>(
    alloc: Global,
    piece: &[u8],
    link: &mut Link,
    sent: &mut ByteList,
    desk: &D,
    pass: &mut D::Pass,
    due: &mut bool,
) -> Result<(), NoMemory>
    requires { D.is_of desk.now pass.old }
    ensures of { D.is_of desk.now pass.new }
    ensures held { Notes D.answers pass.old pass.new due.old due.new result (piece_served piece.now (record { link = link.old; sent = sent.old })) (record { link = link.new; sent = sent.new }) }
{
    serve_bytes(alloc, piece, link, sent, desk, pass, due)?;
    flush(alloc, link, sent)
}
