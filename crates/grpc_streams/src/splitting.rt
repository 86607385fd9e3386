//! The messages that the data of a stream spell.
ghost use Rattle.std.specs.Prelude.{◌≡◌, ◌+◌, ◌≤◌, ◌++◌, ◌∷◌, [], length, IfOk, IfSome, OnOk, Ok};
ghost use Rattle.grpc_streams.specs.Messages.{size_at, front_at, split_of, framed};

use list_types::{ByteList, List, NoMemory};
use p4_types::code::Code;
use std::alloc::Global;

// The longest message that is read, in bytes.
const MAX_MESSAGE: u32 = 8_388_608;

/// Whole messages, and what is behind them: the front of one more, or the code with which it is
/// refused.
#[derive(Drop)]
pub(crate) struct Split {
    pub messages: List<ByteList>,
    pub rest: Result<ByteList, Code>,
}

fn size_at(bytes: &[u8]) -> u32
    requires { 4 ≤ length bytes.now }
    ensures { result ≡ size_at bytes.now }
{
    u32::from_be_bytes([bytes[0], bytes[1], bytes[2], bytes[3]])
}

// How long the message is with which bytes begin, where it is whole.
#[tactic(auto, unfolding(crate::specs::Messages::front_at))]
fn front_at(bytes: &[u8]) -> Result<Option<usize>, Code>
    ensures front { result ≡ front_at bytes.now }
    ensures fits { IfOk result (λ found. IfSome found (λ size. 5 + size ≤ length bytes.now)) }
{
    let [flag, rest @ ..] = bytes else {
        return Ok(None);
    };
    if *flag == 1 {
        return Err(Code::Unimplemented);
    }
    if *flag > 1 {
        return Err(Code::InvalidArgument);
    }
    if rest.len() < 4 {
        return Ok(None);
    }
    let size = size_at(rest);
    if size > MAX_MESSAGE {
        return Err(Code::ResourceExhausted);
    }
    if rest.len() < 4 + size as usize {
        return Ok(None);
    }
    Ok(Some(size as usize))
}

fn copied(alloc: Global, bytes: &[u8]) -> Result<ByteList, NoMemory>
    ensures { IfOk result (λ list. list ≡ bytes.now) }
{
    let mut list = ByteList::new(alloc);
    list.extend_from_slice(bytes)?;
    Ok(list)
}

// The last bytes are no whole message yet.
fn with_rest(alloc: Global, messages: List<ByteList>, rest: &[u8]) -> Result<Split, NoMemory>
    ensures { IfOk result (λ split. split ≡ record { messages = messages; rest = Ok rest.now }) }
{
    let rest = copied(alloc, rest)?;
    Ok(Split {
        messages,
        rest: Ok(rest),
    })
}

fn push_message(
    alloc: Global,
    messages: &mut List<ByteList>,
    message: &[u8],
) -> Result<(), NoMemory>
    ensures { OnOk result (messages.new ≡ messages.old ++ message.now ∷ []) }
{
    let message = copied(alloc, message)?;
    messages.push(message)?;
    Ok(())
}

fn split_slice(alloc: Global, bytes: &[u8]) -> Result<Split, NoMemory>
    ensures { IfOk result (λ split. split ≡ split_of bytes.now) }
{
    let mut messages = List::new(alloc);
    let mut rest = bytes;
    for _ in 0..bytes.len() {
        match front_at(rest) {
            Err(code) => {
                return Ok(Split {
                    messages,
                    rest: Err(code),
                });
            }
            Ok(None) => return with_rest(alloc, messages, rest),
            Ok(Some(size)) => {
                let (_, behind) = rest.split_at(5);
                let (message, after) = behind.split_at(size);
                push_message(alloc, &mut messages, message)?;
                rest = after;
            }
        }
    }
    with_rest(alloc, messages, rest)
}

/// The messages of bytes. Where there is none yet, the bytes are not copied.
pub(crate) fn split_bytes(alloc: Global, bytes: ByteList) -> Result<Split, NoMemory>
    ensures { IfOk result (λ split. split ≡ split_of bytes) }
{
    if let Ok(None) = front_at(bytes.as_slice()) {
        return Ok(Split {
            messages: List::new(alloc),
            rest: Ok(bytes),
        });
    }
    split_slice(alloc, bytes.as_slice())
}

/// A message as it is sent, behind its prefix of five bytes.
pub(crate) fn framed(alloc: Global, message: &[u8]) -> Result<ByteList, NoMemory>
    ensures { IfOk result (λ bytes. bytes ≡ framed message.now) }
{
    let [_, _, _, _, a, b, c, d] = (message.len() as u64).to_be_bytes();
    let mut bytes = ByteList::new(alloc);
    bytes.extend_from_slice(&[0, a, b, c, d])?;
    bytes.extend_from_slice(message)?;
    Ok(bytes)
}
