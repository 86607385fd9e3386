// What waits for controllers.
ghost use Rattle.std.specs.Prelude.{◌<◌};

use list_types::{ByteList, List};
use mail_room::{Mail, Next};
use p4_types::messages::{DigestConfig, P4Data, PacketIn, StreamMessageResponse};
use std::alloc::Global;
use std::test::Fail;

fn packet(alloc: Global) -> PacketIn {
    PacketIn {
        payload: ByteList::new(alloc),
        metadata: List::new(alloc),
    }
}

fn packets(alloc: Global) -> Result<List<PacketIn>, Fail> {
    let mut packets = List::new(alloc);
    packets.push(packet(alloc))?;
    Ok(packets)
}

fn notify(alloc: Global, mail: &mut Mail<u32>, lane: u16, count: u32)
    requires { lane < 32 }
{
    for number in 0..count {
        mail.notice(lane, StreamMessageResponse::Packet(packet(alloc)), number);
    }
}

type Given = Option<(Next, Option<u32>)>;

// What was told with the notice that was given, if it is one.
fn told_with(given: &Given) -> Option<u32> {
    match given {
        Some((Next::Message(_), told)) => *told,
        _ => None,
    }
}

// The id of the digest list that was given, if it is one.
fn id_of(given: &Given) -> Option<u64> {
    match given {
        Some((Next::Message(StreamMessageResponse::Digest(list)), None)) => Some(list.list_id),
        _ => None,
    }
}

// What was told with the notice that the lane is given next, if it is given one.
fn next_told(mail: &mut Mail<u32>, lane: u16) -> Option<u32>
    requires { lane < 32 }
{
    let given = mail.next(lane, None, 0);
    let told = told_with(&given);
    drop(given);
    told
}

// How many notices the lane is given in the order in which they were put, before something else.
fn notices(mail: &mut Mail<u32>, lane: u16) -> u32
    requires { lane < 32 }
{
    for number in 0..1_000u32 {
        if next_told(mail, lane) != Some(number) {
            return number;
        }
    }
    1_000
}

// The id of the digest list that the lane is given next, if it is given one.
fn list_id(mail: &mut Mail<u32>, lane: u16, now: u64) -> Option<u64>
    requires { lane < 32 }
{
    let given = mail.next(lane, Some(lane), now);
    let id = id_of(&given);
    drop(given);
    id
}

// Whether the lane is given an overflow next.
fn is_overflow(mail: &mut Mail<u32>, lane: u16) -> bool
    requires { lane < 32 }
{
    let given = mail.next(lane, None, 0);
    let overflow = matches!(&given, Some((Next::Overflow, None)));
    drop(given);
    overflow
}

// Whether the lane is given nothing.
fn is_empty(mail: &mut Mail<u32>, lane: u16, now: u64) -> bool
    requires { lane < 32 }
{
    let given = mail.next(lane, None, now);
    let empty = given.is_none();
    drop(given);
    empty
}

#[test]
fn an_overflow_is_said_once(rt: HostRuntime) -> Result<(), Fail> {
    let mut mail = Mail::<u32>::open(rt.alloc())?;
    notify(rt.alloc(), &mut mail, 31, 255);
    mail.deliver_packets(31, packets(rt.alloc())?);
    notify(rt.alloc(), &mut mail, 31, 1);
    notify(rt.alloc(), &mut mail, 31, 1);
    assert!(rt; notices(&mut mail, 31) == 255);
    assert!(rt; is_overflow(&mut mail, 31));
    assert!(rt; is_empty(&mut mail, 31, 0));
    notify(rt.alloc(), &mut mail, 31, 300);
    notify(rt.alloc(), &mut mail, 0, 2);
    mail.clear(31);
    assert!(rt; is_empty(&mut mail, 31, 0) && notices(&mut mail, 0) == 2);
    Ok(())
}

// Gives three samples of digest 7 to a primary at lane 4.
fn deliver_samples(alloc: Global, mail: &mut Mail<u32>) {
    for now in [10, 20, 30] {
        let sample = P4Data::Bitstring(ByteList::new(alloc));
        mail.deliver_sample(7, sample, Some(4), now);
    }
}

#[test]
fn the_primary_gets_digest_lists(rt: HostRuntime) -> Result<(), Fail> {
    let mut mail = Mail::<u32>::open(rt.alloc())?;
    let config = DigestConfig {
        max_timeout_ns: 100,
        max_list_size: 2,
        ack_timeout_ns: 0,
    };
    mail.set_digest(7, Some(&config));
    deliver_samples(rt.alloc(), &mut mail);
    assert!(rt; is_empty(&mut mail, 3, 100) && mail.unstored() == 0);
    assert!(rt; list_id(&mut mail, 4, 129) == Some(1) && list_id(&mut mail, 4, 129).is_none());
    assert!(rt; list_id(&mut mail, 4, 130) == Some(2) && list_id(&mut mail, 4, 500).is_none());
    Ok(())
}
