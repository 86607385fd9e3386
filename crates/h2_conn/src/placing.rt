//! Where a frame may stand.
ghost use Rattle.std.specs.Prelude.{◌≡◌};
ghost use Rattle.h2_conn.specs.Frames.{is_idle, was_skipped, breaks_block, breaks_order, breaks_idle, is_misplaced, judged, Judges};

use crate::state::{HeaderBlock, Skipped, State};
use h2_frames::{Frame, H2Code, Head};
use list_types::Refusal;

fn was_skipped(stream: u32, skipped: &[Skipped]) -> bool
    ensures { result ≡ was_skipped stream skipped.now }
{
    skipped
        .iter()
        .any(|run| run.first <= stream && stream <= run.last)
}

fn is_idle(stream: u32, conn: &State) -> bool
    ensures { result ≡ is_idle stream conn.now }
{
    stream % 2 == 0 || conn.greatest < stream
}

/// A frame of this head may not stand where this header block is not whole.
pub(crate) fn breaks_block(head: &Head, block: &Option<HeaderBlock>) -> bool
    ensures { result ≡ breaks_block head.now block.now }
{
    match block {
        None => head.kind == 9,
        Some(block) => !(head.kind == 9 && head.stream == block.stream),
    }
}

fn breaks_order(head: &Head, conn: &State) -> bool
    ensures { result ≡ breaks_order head.now conn.now }
{
    head.kind == 1 && (head.stream % 2 == 0 || was_skipped(head.stream, conn.skipped.as_slice()))
}

fn breaks_idle(head: &Head, conn: &State) -> bool
    ensures { result ≡ breaks_idle head.now conn.now }
{
    (head.kind == 0 || head.kind == 3 || head.kind == 8)
        && (head.stream != 0 && is_idle(head.stream, conn))
}

/// A frame of this head may not stand here.
pub(crate) fn is_misplaced(head: &Head, conn: &State) -> bool
    ensures { result ≡ is_misplaced head.now conn.now }
{
    (!conn.settled && head.kind != 4)
        || head.kind == 5
        || breaks_block(head, &conn.block)
        || breaks_order(head, conn)
        || breaks_idle(head, conn)
}

/// A frame, or the first of the rules that it breaks by itself or by its place.
#[tactic(auto, unfolding(crate::specs::Frames::judged))]
pub(crate) fn judged(
    misplaced: bool,
    read: Result<Frame, Refusal<H2Code>>,
) -> Result<Frame, Refusal<H2Code>>
    ensures { Judges result misplaced read }
{
    match read {
        Ok(frame) => {
            if misplaced {
                return Err(Refusal::For(H2Code::ProtocolError));
            }
            Ok(frame)
        }
        Err(Refusal::NoMemory) => Err(Refusal::NoMemory),
        Err(Refusal::For(H2Code::FlowControlError)) => {
            if misplaced {
                return Err(Refusal::For(H2Code::ProtocolError));
            }
            Err(Refusal::For(H2Code::FlowControlError))
        }
        Err(Refusal::For(code)) => Err(Refusal::For(code)),
    }
}
