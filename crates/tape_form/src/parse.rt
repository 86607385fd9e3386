// A tape's records from its bytes.
ghost use Rattle.std.specs.Prelude.{◌≡◌, ◌<◌, ◌≤◌, ◌^◌, ◌∷◌, ℕ, false, true, IfOk, IfErr};
ghost use Rattle.run_spec.specs.TapeReading.{method_of, number_at, bytes_at, packet_at, meet_at, end_at, text_at};
ghost use Rattle.tape_spec.specs.Items.{ItemLanes, no_item_lanes};
ghost use Rattle.tape_spec.specs.Reading.{call_at, piece_at, leave_at, item_at, items_at, tape_at};
ghost use Rattle.tape_form.specs.Calls.{lanes_of};
ghost use Rattle.tape_form.specs.Parsed.{item_of, item_if_any, as_record, Finds, Grows, GivesAll, IsEmptied, EndsAlone, behind_kind};
ghost use Rattle.tape_form.specs.declared.parse.Flaw.TheVariants as flaws;

use crate::lanes::{SeenLanes, Taking};
use list_types::ByteList;
use p4_types::calls::Method;
use p4_types::tape::TapeRecord;
use std::alloc::{AllocError, Global};
use tape_spec::TapeItem;

/// The first bad byte, as the number of bytes left from it on; 0 where bytes are missing.
#[derive(Clone, Copy)]
pub struct BadByte {
    pub left: usize,
}

/// Why bytes are no tape; a place is given by the number of bytes left from it on.
#[derive(Clone, Copy)]
pub enum Flaw {
    /// The first bad byte; 0 where bytes are missing.
    Bad(usize),
    /// The first byte of a record past the limit.
    TooMany(usize),
}

/// An item as it stands on a tape: its message, packet or bytes lie there still.
#[derive(Clone, Copy)]
pub enum Seen<'a> {
    Call {
        lane: u16,
        method: Method,
        message: &'a [u8],
    },
    Packet {
        lane: u16,
        port: u16,
        packet: &'a [u8],
    },
    Bytes {
        lane: u16,
        bytes: &'a [u8],
    },
    Leave {
        lane: u16,
    },
    Meet {
        lane: u16,
        controller: u16,
        call: u32,
    },
}

impl From<BadByte> for Flaw {
    ghost from_gives = { λ bad e. e ≡ flaws.Bad bad.left };

    fn from(bad: BadByte) -> Flaw {
        Flaw::Bad(bad.left)
    }
}

/// A big-endian number of so many bytes, from `low` to `high`, and the bytes after it.
pub fn number_at(count: u32, low: u32, high: u32, bytes: &[u8]) -> Result<(u32, &[u8]), BadByte>
    requires few { count ≤ 4 }
    requires order { low ≤ high }
    requires fits { high < 256 ^ count }
    ensures gives { Finds (λ x. (x.0, x.1.now)) result (number_at count low high bytes.now) }
    ensures within { IfOk result (λ x. (low ≤ x.0) × (x.0 ≤ high)) }
{
    if count == 0 {
        return Ok((0, bytes));
    }
    let [first, rest @ ..] = bytes else {
        return Err(BadByte { left: 0 });
    };
    let unit = 256u32.pow(count - 1);
    let start = u32::from(*first) * unit;
    if high < start || start + (unit - 1) < low {
        return Err(BadByte { left: bytes.len() });
    }
    let (digits, rest) = number_at(
        count - 1,
        low.saturating_sub(start),
        (high - start).min(unit - 1),
        rest,
    )?;
    Ok((start + digits, rest))
}

/// So many bytes, and the bytes after them.
#[tactic(auto, unfolding(run_spec::specs::TapeReading::bytes_at))]
fn front_at(count: usize, bytes: &[u8]) -> Result<(&[u8], &[u8]), BadByte>
    ensures { Finds (λ x. (x.0.now, x.1.now)) result (bytes_at count bytes.now) }
{
    if bytes.len() < count {
        return Err(BadByte { left: 0 });
    }
    Ok(bytes.split_at(count))
}

/// The method of this number, 1 to 6.
fn method_of(number: u8) -> Method
    ensures { result ≡ method_of number }
{
    match number {
        1 => Method::Write,
        2 => Method::Read,
        3 => Method::SetForwardingPipelineConfig,
        4 => Method::GetForwardingPipelineConfig,
        5 => Method::StreamChannel,
        _ => Method::Capabilities,
    }
}

/// What stands behind the kind of a call.
#[tactic(auto, unfolding(tape_spec::specs::Reading::call_at))]
fn call_at<'a>(lanes: &SeenLanes, bytes: &'a [u8]) -> Result<(Seen<'a>, &'a [u8]), BadByte>
    ensures { Finds (λ x. (item_of x.0, x.1.now)) result (call_at (lanes_of lanes.now) bytes.now) }
{
    let (lane, rest) = lanes.lane_at(Taking::Call, bytes)?;
    let (size, rest) = number_at(4, 1, 8_388_609, rest)?;
    let (method, rest) = number_at(1, 1, 6, rest)?;
    let (message, rest) = front_at(size as usize - 1, rest)?;
    let seen = Seen::Call {
        lane,
        method: method_of(method as u8),
        message,
    };
    Ok((seen, rest))
}

/// What stands behind the kind of a client's bytes.
#[tactic(auto, unfolding(tape_spec::specs::Reading::piece_at))]
fn piece_at<'a>(lanes: &SeenLanes, bytes: &'a [u8]) -> Result<(Seen<'a>, &'a [u8]), BadByte>
    ensures { Finds (λ x. (item_of x.0, x.1.now)) result (piece_at (lanes_of lanes.now) bytes.now) }
{
    let (lane, rest) = lanes.lane_at(Taking::Bytes, bytes)?;
    let (size, rest) = number_at(4, 1, 65_536, rest)?;
    let (bytes, rest) = front_at(size as usize, rest)?;
    Ok((Seen::Bytes { lane, bytes }, rest))
}

/// What stands behind the kind of a packet.
#[tactic(auto, unfolding(run_spec::specs::TapeReading::packet_at))]
fn packet_at(bytes: &[u8]) -> Result<(Seen<'_>, &[u8]), BadByte>
    ensures { Finds (λ x. (item_of x.0, x.1.now)) result (as_record (packet_at bytes.now)) }
{
    let (lane, rest) = number_at(2, 0, 15, bytes)?;
    let (size, rest) = number_at(4, 2, 9218, rest)?;
    let (port, rest) = number_at(2, 0, 510, rest)?;
    let (packet, rest) = front_at(size as usize - 2, rest)?;
    let seen = Seen::Packet {
        lane: lane as u16,
        port: port as u16,
        packet,
    };
    Ok((seen, rest))
}

/// What stands behind the kind of a stream's end.
#[tactic(auto, unfolding(tape_spec::specs::Reading::leave_at))]
fn leave_at<'a>(lanes: &SeenLanes, bytes: &'a [u8]) -> Result<(Seen<'a>, &'a [u8]), BadByte>
    ensures { Finds (λ x. (item_of x.0, x.1.now)) result (leave_at (lanes_of lanes.now) bytes.now) }
{
    let (lane, rest) = lanes.lane_at(Taking::Leave, bytes)?;
    let (_, rest) = number_at(4, 0, 0, rest)?;
    Ok((Seen::Leave { lane }, rest))
}

/// What stands behind the kind of a meet.
#[tactic(auto, unfolding(run_spec::specs::TapeReading::meet_at))]
fn meet_at<'a>(lanes: &SeenLanes, bytes: &'a [u8]) -> Result<(Seen<'a>, &'a [u8]), BadByte>
    ensures { Finds (λ x. (item_of x.0, x.1.now)) result (as_record (meet_at (lanes_of lanes.now).lanes bytes.now)) }
{
    let (lane, rest) = number_at(2, 0, 15, bytes)?;
    let (_, rest) = number_at(4, 6, 6, rest)?;
    let (_, rest) = number_at(1, 0, 0, rest)?;
    let (controller, rest) = lanes.called_at(rest)?;
    let (call, rest) = number_at(4, 1, lanes.last_call(controller), rest)?;
    let seen = Seen::Meet {
        lane: lane as u16,
        controller,
        call,
    };
    Ok((seen, rest))
}

/// What stands behind the kind of the end record.
#[tactic(auto, unfolding(run_spec::specs::TapeReading::end_at))]
fn end_at(bytes: &[u8]) -> Result<&[u8], BadByte>
    ensures { Finds (λ x. x.now) result (end_at bytes.now) }
{
    let (_, rest) = number_at(2, 0, 0, bytes)?;
    let (_, rest) = number_at(4, 0, 0, rest)?;
    Ok(rest)
}

/// What a record is by its first byte.
#[derive(Clone, Copy)]
pub enum Kind {
    End,
    Call,
    Packet,
    Bytes,
    Leave,
    Meet,
}

/// A kind that may stand where some lane takes it, and the bytes after it.
fn kind_if(may_stand: bool, kind: Kind, left: usize, rest: &[u8]) -> Result<(Kind, &[u8]), BadByte>
    ensures kind { IfOk result (λ x. (x.0 ≡ kind) × (x.1.now ≡ rest.now) × (may_stand ≡ true)) }
    ensures bad { IfErr result (λ bad. (bad.left ≡ left) × (may_stand ≡ false)) }
{
    if may_stand {
        return Ok((kind, rest));
    }
    Err(BadByte { left })
}

/// The kind of the item that begins with this byte, where the lanes are so.
#[tactic(auto, unfolding(tape_spec::specs::Reading::item_at), using(crate::proofs::Callers::past_kind))]
fn kind_of<'a>(lanes: &SeenLanes, first: u8, rest: &'a [u8]) -> Result<(Kind, &'a [u8]), BadByte>
    ensures kind { IfOk result (λ x. item_at (lanes_of lanes.now) (first ∷ rest.now) ≡ behind_kind x.0 (lanes_of lanes.now) x.1.now) }
    ensures bad { IfErr result (λ bad. item_at (lanes_of lanes.now) (first ∷ rest.now) ≡ Err bad.left) }
{
    let left = rest.len() + 1;
    match first {
        0 => Ok((Kind::End, rest)),
        1 => kind_if(lanes.some_takes(Taking::Call), Kind::Call, left, rest),
        2 => Ok((Kind::Packet, rest)),
        3 => kind_if(lanes.some_takes(Taking::Bytes), Kind::Bytes, left, rest),
        4 => kind_if(lanes.some_takes(Taking::Leave), Kind::Leave, left, rest),
        5 => kind_if(lanes.some_called(), Kind::Meet, left, rest),
        _ => Err(BadByte { left }),
    }
}

/// The kind of the item that begins, where the lanes are so, and the bytes after it.
#[tactic(auto, unfolding(tape_spec::specs::Reading::item_at))]
fn kind_at<'a>(lanes: &SeenLanes, bytes: &'a [u8]) -> Result<(Kind, &'a [u8]), BadByte>
    ensures kind { IfOk result (λ x. item_at (lanes_of lanes.now) bytes.now ≡ behind_kind x.0 (lanes_of lanes.now) x.1.now) }
    ensures bad { IfErr result (λ bad. item_at (lanes_of lanes.now) bytes.now ≡ Err bad.left) }
{
    let [first, rest @ ..] = bytes else {
        return Err(BadByte { left: 0 });
    };
    kind_of(lanes, *first, rest)
}

/// What stands behind a kind.
fn behind_kind<'a>(
    kind: Kind,
    lanes: &SeenLanes,
    rest: &'a [u8],
) -> Result<(Option<Seen<'a>>, &'a [u8]), BadByte>
    ensures { Finds (λ x. (item_if_any x.0, x.1.now)) result (behind_kind kind (lanes_of lanes.now) rest.now) }
{
    match kind {
        Kind::End => {
            let rest = end_at(rest)?;
            Ok((None, rest))
        }
        Kind::Call => {
            let (call, rest) = call_at(lanes, rest)?;
            Ok((Some(call), rest))
        }
        Kind::Packet => {
            let (packet, rest) = packet_at(rest)?;
            Ok((Some(packet), rest))
        }
        Kind::Bytes => {
            let (piece, rest) = piece_at(lanes, rest)?;
            Ok((Some(piece), rest))
        }
        Kind::Leave => {
            let (leave, rest) = leave_at(lanes, rest)?;
            Ok((Some(leave), rest))
        }
        Kind::Meet => {
            let (meet, rest) = meet_at(lanes, rest)?;
            Ok((Some(meet), rest))
        }
    }
}

/// An item, or none for the end record, and the bytes after it, where the lanes are so.
fn item_at<'a>(lanes: &SeenLanes, bytes: &'a [u8]) -> Result<(Option<Seen<'a>>, &'a [u8]), BadByte>
    ensures { Finds (λ x. (item_if_any x.0, x.1.now)) result (item_at (lanes_of lanes.now) bytes.now) }
{
    let (kind, rest) = kind_at(lanes, bytes)?;
    behind_kind(kind, lanes, rest)
}

/// The bytes behind this text.
#[tactic(auto, unfolding(run_spec::specs::TapeReading::text_at))]
fn text_at<'a>(text: &[u8], bytes: &'a [u8]) -> Result<&'a [u8], BadByte>
    ensures { Finds (λ x. x.now) result (text_at text.now bytes.now) }
{
    let mut rest = bytes;
    for wanted in text {
        match rest {
            [] => return Err(BadByte { left: 0 }),
            [first, after @ ..] => {
                if *first != *wanted {
                    return Err(BadByte { left: rest.len() });
                }
                rest = after;
            }
        }
    }
    Ok(rest)
}

/// These bytes, in memory of their own.
fn kept(alloc: Global, bytes: &[u8]) -> Result<ByteList, AllocError>
    ensures { IfOk result (λ kept. kept ≡ bytes.now) }
{
    Ok(ByteList::from_vec(Vec::from_slice(alloc, bytes)?))
}

/// An item with its message, packet or bytes in memory of its own.
fn owned(alloc: Global, seen: Seen<'_>) -> Result<TapeItem, AllocError>
    ensures { IfOk result (λ x. x ≡ item_of seen.entry) }
{
    match seen {
        Seen::Call {
            lane,
            method,
            message,
        } => {
            let message = kept(alloc, message)?;
            Ok(TapeItem::Record(TapeRecord::Call {
                lane,
                method,
                message,
            }))
        }
        Seen::Packet { lane, port, packet } => {
            let packet = kept(alloc, packet)?;
            Ok(TapeItem::Record(TapeRecord::Packet { lane, port, packet }))
        }
        Seen::Bytes { lane, bytes } => {
            let bytes = kept(alloc, bytes)?;
            Ok(TapeItem::Bytes { lane, bytes })
        }
        Seen::Leave { lane } => Ok(TapeItem::Record(TapeRecord::Leave { lane })),
        Seen::Meet {
            lane,
            controller,
            call,
        } => Ok(TapeItem::Record(TapeRecord::Meet {
            lane,
            controller,
            call,
        })),
    }
}

/// One more item behind those that are kept, unless there was no memory for one of them.
fn with_next(
    alloc: Global,
    items: Result<Vec<TapeItem>, AllocError>,
    seen: Seen<'_>,
) -> Result<Vec<TapeItem>, AllocError>
    ensures { Grows (λ x. x.items) items result (item_of seen.entry) }
{
    let mut items = items?;
    items.push(owned(alloc, seen)?)?;
    Ok(items)
}

/// The items, up to the end record, behind which nothing stands. Where there is no memory to keep them, the rest
/// is read all the same, so that no flaw is hidden.
fn items_at(
    alloc: Global,
    limit: u32,
    bytes: &[u8],
) -> Result<Result<Vec<TapeItem>, AllocError>, Flaw>
    ensures { GivesAll (λ x. x.items) result (items_at limit no_item_lanes bytes.now) }
{
    let mut items = Ok(Vec::new(alloc));
    let mut lanes = SeenLanes::new();
    let mut rest = bytes;
    for _ in 0..limit {
        let (item, after) = item_at(&lanes, rest)?;
        match item {
            Some(seen) => {
                lanes.note(seen);
                items = with_next(alloc, items, seen);
            }
            None => {
                nothing_in(after)?;
                return Ok(items);
            }
        }
        rest = after;
    }
    end_alone(rest)?;
    Ok(items)
}

/// No bytes are left.
fn nothing_in(rest: &[u8]) -> Result<(), BadByte>
    ensures { IsEmptied result rest.now }
{
    if !rest.is_empty() {
        return Err(BadByte { left: rest.len() });
    }
    Ok(())
}

/// The end record alone is left: behind the last record that may stand on a tape.
#[tactic(auto, unfolding(tape_spec::specs::Reading::items_at, tape_spec::specs::Reading::item_at))]
fn end_alone(rest: &[u8]) -> Result<(), Flaw>
    ensures { (lanes : ItemLanes) → EndsAlone result (items_at 0 lanes rest.now) }
{
    match rest {
        [0, after @ ..] => Ok(nothing_in(end_at(after)?)?),
        [1..=5, ..] => Err(Flaw::TooMany(rest.len())),
        _ => Err(Flaw::Bad(rest.len())),
    }
}

/// The items of the tape that the bytes are, or that there was no memory to keep them.
#[tactic(auto, unfolding(tape_spec::specs::Reading::tape_at))]
pub(crate) fn tape_at(
    alloc: Global,
    limit: u32,
    bytes: &[u8],
) -> Result<Result<Vec<TapeItem>, AllocError>, Flaw>
    ensures { GivesAll (λ x. x.items) result (tape_at limit bytes.now) }
{
    let rest = text_at(b"P4TAPE1\n", bytes)?;
    items_at(alloc, limit, rest)
}
