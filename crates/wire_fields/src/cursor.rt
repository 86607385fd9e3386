//! Reading a message field by field.
ghost use Rattle.std.specs.Prelude.{◌≡◌, ◌↔◌, ◌<◌, [], length, IfOk, IfErr, OnErr, IfSome, OnSome, IfNone};
ghost use Rattle.wire_fields.specs.Field.{field_of, Begins};
ghost use Rattle.wire_fields.specs.Reading.{fault_at};

use crate::reading::field;
use crate::wire::{Field, WireFault};
use std::marker::Model;

/// The fields of a message, one after another. A contract sees the bytes that are left.
#[derive(Drop)]
pub struct Fields<'a> {
    left: &'a [u8],
}

impl<'a> Model for Fields<'a> {
    ghost use Rattle.std.specs.Prelude.{List, ℕ};

    ghost Value = { List ℕ };

    ghost view = { λ fields. fields.left.now };
}

impl<'a> Fields<'a> {
    /// The fields of these bytes. It takes no memory.
    pub fn new(bytes: &'a [u8]) -> Fields<'a>
        ensures { result ≡ bytes.now }
    {
        Fields { left: bytes }
    }

    /// The next field, or `None` at the end. At a fault nothing moves, so each later call answers
    /// it again. It takes no memory, and copies no bytes.
    pub fn next(&mut self) -> Result<Option<Field<'a>>, WireFault>
        ensures field { IfOk result (λ next. IfSome next (λ field. Begins (field_of field) self.old self.new)) }
        ensures shorter { IfOk result (λ next. OnSome next (length self.new < length self.old)) }
        ensures end { (result ≡ Ok None) ↔ (self.old ≡ []) }
        ensures at_end { IfOk result (λ next. IfNone next (self.new ≡ self.old)) }
        ensures fault { IfErr result (λ fault. fault_at self.old ≡ Some fault) }
        ensures at_fault { OnErr result (self.new ≡ self.old) }
    {
        if self.left.is_empty() {
            return Ok(None);
        }
        let (field, rest) = field(self.left)?;
        self.left = rest;
        Ok(Some(field))
    }
}
