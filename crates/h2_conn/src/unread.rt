//! The bytes of a frame that is not whole.
ghost use Rattle.std.specs.Prelude.{◌≡◌, ◌==◌, ◌+◌, ◌≤◌, ◌<◌, ◌⊎◌, ◌++◌, [], length, take, drop, MatchOption, OnOk, IfOk};
ghost use Rattle.list_types.specs.Results.{Gives};
ghost use Rattle.h2_frames.specs.Reading.{head_at, frame_at};

use h2_frames::{Frame, H2Code, Head, is_padded_data, read_gathered, read_head, read_padded_data};
use list_types::{ByteList, NoMemory, Refusal};
use std::alloc::Global;
use std::marker::Model;

/// The head at the front, if it is whole.
pub(crate) fn head_of(bytes: &[u8]) -> Option<Head>
    ensures { MatchOption result (length bytes.now < 9) (λ head. (9 ≤ length bytes.now) × (head ≡ head_at (take 9 bytes.now))) }
{
    match bytes {
        [a, b, c, d, e, f, g, h, i, ..] => {
            Some(read_head(&[*a, *b, *c, *d, *e, *f, *g, *h, *i]))
        }
        _ => None,
    }
}

/// Bytes that wait for more. The first nine, the head of a frame, stand apart from its payload, which
/// is handed on as it is once it is whole; so does the byte behind the head of DATA with padding, which
/// tells how long that is. A contract sees the bytes.
#[derive(Drop)]
pub struct Unread {
    head: ByteList,
    padding: Option<u8>,
    payload: ByteList,
}

impl Model for Unread {
    ghost use Rattle.std.specs.Prelude.{List, ℕ, ◌++◌};
    ghost use Rattle.h2_conn.specs.Apart.{IsApart, padding_byte};

    ghost Value = { List ℕ };

    ghost view = { λ unread. unread.head ++ (padding_byte unread.padding ++ unread.payload) };

    ghost invariant = { λ unread. IsApart unread.head unread.padding unread.payload };
}

impl Unread {
    /// No byte. It takes no memory.
    pub fn new(alloc: Global) -> Unread
        ensures { result ≡ [] }
    {
        Unread {
            head: ByteList::new(alloc),
            padding: None,
            payload: ByteList::new(alloc),
        }
    }

    /// How many bytes were kept: of a head, the length of a padding and a payload.
    pub fn len(&self) -> usize
        ensures { result ≡ length self.now }
    {
        let behind = match self.padding {
            Some(_) => self.payload.as_slice().len() + 1,
            None => self.payload.as_slice().len(),
        };
        self.head.as_slice().len() + behind
    }

    /// Whether no byte of a next frame was kept.
    pub fn is_empty(&self) -> bool
        ensures { result ≡ (length self.now == 0) }
    {
        self.len() == 0
    }

    // Adds bytes to the head; what is behind it is left.
    fn fill_head<'a>(&mut self, bytes: &'a [u8]) -> Result<&'a [u8], NoMemory>
        ensures all { IfOk result (λ rest. self.new ++ rest.now ≡ self.old ++ bytes.now) }
        ensures full { IfOk result (λ rest. (9 ≤ length self.new) ⊎ (rest.now ≡ [])) }
    {
        let missing = 9 - self.head.len();
        let (front, rest) = bytes.split_at(missing.min(bytes.len()));
        self.head.extend_from_slice(front)?;
        Ok(rest)
    }

    // Adds the byte that stands apart, if it is the next; what is behind it is left.
    fn fill_padding<'a>(&mut self, bytes: &'a [u8]) -> &'a [u8]
        ensures all { self.new ++ result.now ≡ self.old ++ bytes.now }
        ensures longer { length self.old ≤ length self.new }
    {
        if self.padding.is_some() || !self.payload.is_empty() {
            return bytes;
        }
        let Some(head) = self.head() else {
            return bytes;
        };
        let Some((padding, rest)) = bytes.split_first() else {
            return bytes;
        };
        if !is_padded_data(&head) {
            return bytes;
        }
        self.padding = Some(*padding);
        rest
    }

    /// Adds bytes at the end.
    pub fn extend_from_slice(&mut self, bytes: &[u8]) -> Result<(), NoMemory>
        ensures { OnOk result (self.new ≡ self.old ++ bytes.now) }
    {
        let behind_head = self.fill_head(bytes)?;
        let rest = self.fill_padding(behind_head);
        self.payload.extend_from_slice(rest)?;
        Ok(())
    }

    /// The head at the front, if it is whole.
    pub fn head(&self) -> Option<Head>
        ensures { MatchOption result (length self.now < 9) (λ head. (9 ≤ length self.now) × (head ≡ head_at (take 9 self.now))) }
    {
        head_of(self.head.as_slice())
    }

    /// The bytes in one list.
    pub fn joined(&self, alloc: Global) -> Result<ByteList, NoMemory>
        ensures { IfOk result (λ list. list ≡ self.now) }
    {
        let mut list = ByteList::new(alloc);
        list.extend_from_slice(self.head.as_slice())?;
        if let Some(padding) = self.padding {
            list.push(padding)?;
        }
        list.extend_from_slice(self.payload.as_slice())?;
        Ok(list)
    }

    /// The frame of this head, which is whole. Its payload is not copied.
    pub fn into_frame(self, alloc: Global, head: &Head) -> Result<Frame, Refusal<H2Code>>
        requires first { head.now ≡ head_at (take 9 self) }
        requires whole { 9 + head.now.length ≤ length self }
        ensures { Gives (λ x. x) result (frame_at head.now (take head.now.length (drop 9 self))) }
    {
        let count = head.length as usize;
        let mut payload = self.payload.into_vec();
        match self.padding {
            Some(padding) if count > 0 => {
                payload.truncate(count - 1);
                match read_padded_data(head, padding, ByteList::from_vec(payload)) {
                    Ok(frame) => Ok(frame),
                    Err(code) => Err(Refusal::For(code)),
                }
            }
            _ => {
                payload.truncate(count);
                read_gathered(alloc, head, ByteList::from_vec(payload))
            }
        }
    }
}
