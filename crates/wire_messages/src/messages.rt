//! The messages of a repeated field, one after another.
ghost use Rattle.std.specs.Prelude.{◌≡◌, [], ◌∷◌, None, IfOk, OnErr, IfSome, IfNone};
ghost use Rattle.wire_fields.specs.Fields.{Bytes};
ghost use Rattle.wire_messages.specs.Message.{each, bytes_of, given};

use crate::errors::Unreadable;
use crate::values;
use crate::walk::Walk;
use std::marker::Model;

/// The messages, or `bytes`, that are left in a repeated field. A contract sees the list of what is given.
#[derive(Drop)]
pub struct Messages<'a> {
    left: Walk<'a>,
    number: u32,
}

impl<'a> Model for Messages<'a> {
    ghost use Rattle.std.specs.Prelude.{List};
    ghost use Rattle.wire_fields.specs.Fields.{Payload};
    ghost use Rattle.wire_messages.specs.Message.{given};

    ghost Value = { List Payload };

    ghost view = { λ messages. given messages.number messages.left };
}

impl<'a> Messages<'a> {
    pub(crate) fn new(left: Walk<'a>, number: u32) -> Messages<'a>
        ensures { result ≡ given number left.entry }
    {
        Messages { left, number }
    }

    /// The bytes of the next one, or `None` at the end. What is given and has another type is not read.
    pub fn next(&mut self) -> Result<Option<&'a [u8]>, Unreadable>
        ensures message { IfOk result (λ next. IfSome next (λ bytes. self.old ≡ Bytes bytes.now ∷ self.new)) }
        ensures end { IfOk result (λ next. IfNone next (self.old ≡ [])) }
        ensures unreadable { OnErr result (each bytes_of self.old ≡ None) }
    {
        'fields: while let Some(field) = self.left.next() {
            if values::number_of(field) == self.number {
                return Ok(Some(values::bytes(field)?));
            }
        }
        Ok(None)
    }
}
