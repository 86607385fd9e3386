//! Samples, acknowledgements and ticks, and the lists that are sent.
use digest_lists::Lists;
use list_types::List;
use p4_types::messages::{DigestConfig, DigestList, P4Data};
use row_lines::{NoAnswer, Step, say, steps, tell, tell_hex};
use std::alloc::Global;

fn config(size: u64, timeout: u64) -> DigestConfig {
    DigestConfig {
        max_timeout_ns: i64::try_from(timeout).unwrap_or(0),
        max_list_size: i32::try_from(size).unwrap_or(0),
        ack_timeout_ns: 32,
    }
}

fn low_byte(number: u64) -> u8 {
    (number % 256) as u8
}

fn bitstring(alloc: Global, byte: u64) -> Result<P4Data, NoAnswer> {
    let bytes = Vec::from_slice(alloc, &[low_byte(byte)])?;
    Ok(P4Data::Bitstring(List::from_vec(bytes)))
}

fn structure(alloc: Global, first: u64, second: u64) -> Result<P4Data, NoAnswer> {
    let mut members = List::new(alloc);
    members.push(List::from_vec(Vec::from_slice(alloc, &[low_byte(first)])?))?;
    members.push(List::from_vec(Vec::from_slice(alloc, &[low_byte(second)])?))?;
    Ok(P4Data::Struct(members))
}

fn tell_content(alloc: Global, told: &mut String, content: &P4Data) {
    match content {
        P4Data::Bitstring(bytes) => tell_hex(alloc, told, bytes.as_slice()),
        P4Data::Struct(members) => {
            for member in members.as_slice() {
                tell_hex(alloc, told, member.as_slice());
            }
        }
    }
}

fn tell_list(alloc: Global, told: &mut String, list: Option<DigestList>) {
    let Some(list) = list else {
        say(told, ".");
        return;
    };
    say(told, "list");
    tell(told, list.digest_id);
    tell(told, list.list_id);
    tell(told, list.timestamp);
    tell(told, list.content.len());
    for content in list.content.as_slice() {
        tell_content(alloc, told, content);
    }
}

#[tactic(auto, using(digest_lists::proofs::Places::config_adds_one))]
fn set(lists: &mut Lists, digest: u32, config: &DigestConfig) {
    if lists.len() < 128 {
        lists.set(digest, Some(config));
    }
}

fn step_of(
    alloc: Global,
    told: &mut String,
    lists: &mut Lists,
    step: Step<'_>,
) -> Result<(), NoAnswer> {
    let [digest, a, b, c] = step.numbers;
    let digest = u32::try_from(digest).unwrap_or(0);
    match step.verb {
        "set" => set(lists, digest, &config(a, b)),
        "forget" => lists.set(digest, None),
        "sample" => {
            let sent = lists.sample(digest, bitstring(alloc, a)?, b)?;
            tell_list(alloc, told, sent);
        }
        "pair" => {
            let sent = lists.sample(digest, structure(alloc, a, b)?, c)?;
            tell_list(alloc, told, sent);
        }
        "ack" => lists.ack(digest, a),
        "tick" => {
            let sent = lists.tick(a)?;
            tell_list(alloc, told, sent);
        }
        "count" => tell(told, lists.len()),
        _ => return Err(NoAnswer),
    }
    Ok(())
}

/// Of steps on lists that are held for 32 ns: `set` a digest with the size and the timeout of its lists, `forget` it,
/// `sample` a byte or `pair` two bytes at a moment, `ack` a list, `tick` at a moment behind a 0, `count` the digests that
/// are set. What is sent at a sample or a tick: a dot, or the list's digest, its id, its timestamp, how many samples it
/// has, and their bytes.
pub fn samples(alloc: Global, asked: &[&str], told: &mut String) -> Result<(), NoAnswer> {
    let [part] = asked else {
        return Err(NoAnswer);
    };
    let mut lists = Lists::open(alloc)?;
    for step in steps(alloc, part)? {
        step_of(alloc, told, &mut lists, step)?;
    }
    Ok(())
}
