//! A message by the numbers of its fields.
ghost use Rattle.std.specs.Prelude.{◌≡◌, List, true, Err, IfOk, OnErr};
ghost use Rattle.std.specs.Option.{option_map};
ghost use Rattle.wire_fields.specs.Fields.{WireField, Spells};
ghost use Rattle.wire_messages.specs.Answers.{Reads, ReadsInMemory, first_is_read, first_number_is_read};
ghost use Rattle.wire_messages.specs.Message.{uint32_at, uint64_at, int32_at, int64_at, bool_at, bytes_at, text_at, message_at, texts_at, uint32s_at, given, is_given, choice_at, only_known};
ghost use Rattle.wire_messages.specs.Scans.{text_of};

use crate::errors::Unreadable;
use crate::messages::Messages;
use crate::walk::Walk;
use crate::{steps, values};
use list_types::Refusal;
use std::alloc::Global;
use std::marker::Model;
use text_lists::TextList;
use wire_fields::Fields;

/// The fields of a message, to be read by their numbers. They are walked over in its bytes for each number that is asked
/// for. A contract sees the list of the fields.
#[derive(Drop)]
pub struct Message<'a> {
    bytes: &'a [u8],
}

impl<'a> Model for Message<'a> {
    ghost use Rattle.std.specs.Prelude.{List};
    ghost use Rattle.wire_fields.specs.Fields.{WireField};
    ghost use Rattle.wire_messages.specs.Walk.{walked};

    ghost Value = { List WireField };

    ghost view = { λ message. walked message.bytes.now };
}

impl<'a> Message<'a> {
    /// The message that the bytes are. It takes no memory, and copies no bytes.
    pub fn read(bytes: &'a [u8]) -> Result<Message<'a>, Unreadable>
        ensures ok { IfOk result (λ message. Spells message bytes.now) }
        ensures unreadable { OnErr result ((fields : List WireField) → Spells fields bytes.now → ⊥) }
    {
        let mut left = Fields::new(bytes);
        loop {
            match left.next() {
                Ok(Some(_)) => {}
                Ok(None) => return Ok(Message { bytes }),
                Err(_) => return Err(Unreadable),
            }
        }
    }

    fn fields(&self) -> Walk<'a>
        ensures { result ≡ self.now }
    {
        Walk::new(self.bytes)
    }

    /// A `uint32` field: the last that is given, or 0.
    pub fn uint32(&self, number: u32) -> Result<u32, Unreadable>
        ensures { Reads (λ x. x) result (uint32_at number self.now) }
    {
        let mut value = 0;
        let mut left = self.fields();
        'fields: while let Some(field) = left.next() {
            value = steps::next_uint32(value, field, number)?;
        }
        Ok(value)
    }

    /// A `uint64` field: the last that is given, or 0.
    pub fn uint64(&self, number: u32) -> Result<u64, Unreadable>
        ensures { Reads (λ x. x) result (uint64_at number self.now) }
    {
        let mut value = 0;
        let mut left = self.fields();
        'fields: while let Some(field) = left.next() {
            value = steps::next_uint64(value, field, number)?;
        }
        Ok(value)
    }

    /// An `int32` or `enum` field: the last that is given, or 0.
    pub fn int32(&self, number: u32) -> Result<i32, Unreadable>
        ensures { Reads (λ x. x) result (int32_at number self.now) }
    {
        let mut value = 0;
        let mut left = self.fields();
        'fields: while let Some(field) = left.next() {
            value = steps::next_int32(value, field, number)?;
        }
        Ok(value)
    }

    /// An `int64` field: the last that is given, or 0.
    pub fn int64(&self, number: u32) -> Result<i64, Unreadable>
        ensures { Reads (λ x. x) result (int64_at number self.now) }
    {
        let mut value = 0;
        let mut left = self.fields();
        'fields: while let Some(field) = left.next() {
            value = steps::next_int64(value, field, number)?;
        }
        Ok(value)
    }

    /// A `bool` field: the last that is given, or false.
    pub fn boolean(&self, number: u32) -> Result<bool, Unreadable>
        ensures { Reads (λ x. x) result (bool_at number self.now) }
    {
        let mut value = false;
        let mut left = self.fields();
        'fields: while let Some(field) = left.next() {
            value = steps::next_boolean(value, field, number)?;
        }
        Ok(value)
    }

    /// A `bytes` field: the last that is given, or no bytes.
    pub fn bytes(&self, number: u32) -> Result<&'a [u8], Unreadable>
        ensures { Reads (λ x. x.now) result (bytes_at number self.now) }
    {
        let mut value: &'a [u8] = &[];
        let mut left = self.fields();
        'fields: while let Some(field) = left.next() {
            value = steps::next_bytes(value, field, number)?;
        }
        Ok(value)
    }

    /// A `string` field, in UTF-8: the last that is given, or the empty text.
    pub fn text(&self, number: u32) -> Result<&'a str, Unreadable>
        ensures { Reads (λ x. x.now) result (text_at number self.now) }
    {
        let mut value: &'a str = "";
        let mut left = self.fields();
        'fields: while let Some(field) = left.next() {
            value = steps::next_text(value, field, number)?;
        }
        Ok(value)
    }

    /// The bytes of a message in a field, which is given at most once.
    pub fn message(&self, number: u32) -> Result<Option<&'a [u8]>, Unreadable>
        ensures { Reads (option_map (λ x. x.now)) result (message_at number self.now) }
    {
        let mut value: Option<&'a [u8]> = None;
        let mut left = self.fields();
        'fields: while let Some(field) = left.next() {
            value = steps::next_message(value, field, number)?;
        }
        Ok(value)
    }

    /// The bytes of each message, or each `bytes`, in a repeated field, one after another. It takes no memory.
    pub fn messages(&self, number: u32) -> Messages<'a>
        ensures { result ≡ given number self.now }
    {
        Messages::new(self.fields(), number)
    }

    /// Each `string` in a repeated field, in UTF-8, copied.
    pub fn texts(&self, alloc: Global, number: u32) -> Result<TextList, Refusal<Unreadable>>
        ensures exact { ReadsInMemory (λ list. list) result (texts_at number self.now) }
        ensures memory { result ≡ Err Refusal.NoMemory → first_is_read text_of (given number self.now) ≡ true }
    {
        let mut found = TextList::new(alloc);
        let mut left = self.fields();
        'fields: while let Some(field) = left.next() {
            steps::push_text(&mut found, field, number)?;
        }
        Ok(found)
    }

    /// Each `uint32` in a repeated field, singly or packed.
    pub fn uint32s(&self, alloc: Global, number: u32) -> Result<Vec<u32>, Refusal<Unreadable>>
        ensures exact { ReadsInMemory (λ list. list.items) result (uint32s_at number self.now) }
        ensures memory { result ≡ Err Refusal.NoMemory → first_number_is_read (given number self.now) ≡ true }
    {
        let mut found = Vec::new(alloc);
        let mut left = self.fields();
        'fields: while let Some(field) = left.next() {
            steps::push_numbers(&mut found, field, number)?;
        }
        Ok(found)
    }

    /// Whether the field is given, even with its default value.
    pub fn is_given(&self, number: u32) -> bool
        ensures { result ≡ is_given number self.now }
    {
        let mut left = self.fields();
        'fields: while let Some(field) = left.next() {
            if values::number_of(field) == number {
                return true;
            }
        }
        false
    }

    /// The number of the member of a choice that is given. Two different ones are not read; what the
    /// member holds is not looked at.
    #[tactic(auto, unfolding(crate::specs::Message::choice_at))]
    pub fn choice(&self, members: &[u32]) -> Result<Option<u32>, Unreadable>
        ensures { Reads (λ x. x) result (choice_at members.now self.now) }
    {
        let mut found = None;
        for member in members {
            if !self.is_given(*member) {
                continue;
            }
            if found.is_some() {
                return Err(Unreadable);
            }
            found = Some(*member);
        }
        Ok(found)
    }

    /// Whether the message has fields of these numbers alone.
    pub fn has_only(&self, known: &[u32]) -> bool
        ensures { result ≡ only_known known.now self.now }
    {
        let mut left = self.fields();
        'fields: while let Some(field) = left.next() {
            if !known.contains(&values::number_of(field)) {
                return false;
            }
        }
        true
    }
}
