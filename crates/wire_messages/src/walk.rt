//! The fields of a message, one after another.
ghost use Rattle.std.specs.Prelude.{◌≡◌, [], ◌∷◌, IfSome, IfNone};
ghost use Rattle.wire_fields.specs.Field.{field_of};
ghost use Rattle.wire_messages.specs.Walk.{walked};

use std::marker::Model;
use wire_fields::{Field, Fields};

/// The fields that are left, up to the end or to the first fault. A contract sees their list.
#[derive(Drop)]
pub(crate) struct Walk<'a> {
    left: Fields<'a>,
}

impl<'a> Model for Walk<'a> {
    ghost use Rattle.std.specs.Prelude.{List};
    ghost use Rattle.wire_fields.specs.Fields.{WireField};
    ghost use Rattle.wire_messages.specs.Walk.{walked};

    ghost Value = { List WireField };

    ghost view = { λ walk. walked walk.left };
}

impl<'a> Walk<'a> {
    pub(crate) fn new(bytes: &'a [u8]) -> Walk<'a>
        ensures { result ≡ walked bytes.now }
    {
        Walk {
            left: Fields::new(bytes),
        }
    }

    pub(crate) fn next(&mut self) -> Option<Field<'a>>
        ensures some { IfSome result (λ field. self.old ≡ field_of field ∷ self.new) }
        ensures none { IfNone result (self.old ≡ []) }
    {
        match self.left.next() {
            Ok(field) => field,
            Err(_) => None,
        }
    }
}
