//! What a link gives.
ghost use Rattle.std.specs.Prelude.{◌≡◌, ◌≢◌, ◌∷◌, ◌<◌, [], length, Some};
ghost use Rattle.sw_edge.specs.Counts.{HasCause, StaysUnless};
ghost use Rattle.sw_edge.specs.Told.{Keeps};
ghost use Rattle.p4rt_service.specs.Turns.{Piece};
ghost use Rattle.link_loop.specs.Steps.{PullsOn, TakesOn};

use crate::ends::LinkEnd;
use crate::sending::push_piece;
use crate::watch::Watch;
use p4rt_service::{Desk, Service};
use std::alloc::Global;
use sw_edge::{Link, Pulled};

/// Serves a piece of the client's bytes, and pushes what is to be sent.
pub(crate) fn serve_piece<L: Link, D: Desk>(
    alloc: Global,
    piece: &[u8],
    link: &mut L,
    desk: &D,
    pass: &mut D::Pass,
    service: &mut Service,
) -> Option<LinkEnd>
    requires { D.is_of desk.now pass.old }
    ensures of { D.is_of desk.now pass.new }
    ensures takes { TakesOn D.answers result pass.old pass.new (L.sent link.old) (L.sent link.new) service.old service.new (Piece piece.now ∷ []) }
    ensures not_closed { result ≢ Some LinkEnd.Closed }
    ensures keeps_left { Keeps (L.left link.old) (L.left link.new) }
    ensures failed { HasCause (L.faults link.old) (L.faults link.new) (result ≡ Some LinkEnd.Fault) }
    ensures no_fault { StaysUnless (L.faults link.old) (L.faults link.new) (result ≡ Some LinkEnd.Fault) }
    ensures quiet { L.quiets link.new ≡ L.quiets link.old }
    ensures end { L.ends link.new ≡ L.ends link.old }
{
    let served = service.feed(alloc, desk, pass, piece);
    push_piece(link, served)
}

// Pulls once, and serves what comes.
pub(crate) fn pull_once<L: Link, D: Desk>(
    alloc: Global,
    link: &mut L,
    desk: &D,
    pass: &mut D::Pass,
    service: &mut Service,
    buffer: &mut [u8],
    watch: &mut Watch,
) -> Option<LinkEnd>
    requires of { D.is_of desk.now pass.old }
    requires room { 0 < length buffer.old }
    ensures of { D.is_of desk.now pass.new }
    ensures steps { PullsOn D.answers result pass.old pass.new (L.left link.old) (L.left link.new) (L.quiets link.old) (L.quiets link.new) (L.sent link.old) (L.sent link.new) service.old service.new watch.old watch.new }
    ensures failed { HasCause (L.faults link.old) (L.faults link.new) (result ≡ Some LinkEnd.Fault) }
    ensures no_fault { StaysUnless (L.faults link.old) (L.faults link.new) (result ≡ Some LinkEnd.Fault) }
    ensures end { HasCause (L.ends link.old) (L.ends link.new) (result ≡ Some LinkEnd.Closed) }
    ensures no_end { StaysUnless (L.ends link.old) (L.ends link.new) (result ≡ Some LinkEnd.Closed) }
{
    match link.pull(buffer) {
        Pulled::Bytes(count) => {
            let piece = &buffer[..count];
            watch.see(piece);
            serve_piece(alloc, piece, link, desk, pass, service)
        }
        Pulled::Quiet => None,
        Pulled::End => Some(LinkEnd::Closed),
        Pulled::Failed => Some(LinkEnd::Fault),
    }
}
