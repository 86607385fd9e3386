//! A header's fields in bytes.
ghost use Rattle.std.specs.Prelude.{◌≡◌, ◌+◌, ◌*◌, ◌/◌, ◌%◌, ◌<◌, ◌≤◌, ◌++◌, true, take, length};
ghost use Rattle.std.specs.List.{splice};
ghost use Rattle.canon_bytes.specs.Bits.{bits};
ghost use Rattle.bm_expr.specs.Store.{header_valid};
ghost use Rattle.bm_pipeline.specs.Validity.{IsHeader};
ghost use Rattle.program_spec.specs.Numbers.{runs};
ghost use Rattle.program_spec.specs.Deparsing.{laid, numbers_of};

use crate::eights::take_near;
use crate::laying;
use bm_expr::{FieldPlace, Store};
use bm_pipeline::headers::Header;

/// Reads a header's fields from the first bits of these bytes.
pub(crate) fn read_fields(header: &Header, bytes: &[u8], store: &mut Store)
    requires header { IsHeader header.now.place.header header.now.place.first header.now }
    requires few { header.now.place.first + header.now.place.count ≤ 1024 }
    requires in_bytes { header.now.bits ≤ 8 * length bytes.now }
    requires in_store { header.now.place.first + header.now.place.count ≤ length store.old.fields }
    ensures fields { store.new.fields ≡ splice store.old.fields header.now.place.first (header.now.place.first + header.now.place.count) (runs header.now.widths (bits bytes.now)) }
    ensures valid { store.new.valid ≡ store.old.valid }
    ensures as_large { length store.new.fields ≡ length store.old.fields }
{
    // Its number bounds that of each bit.
    let _bits = header.bits;
    let mut bit = 0;
    let mut index = header.place.first;
    for width in header.widths.as_slice() {
        // A field of 128 bits has room for each number: what is read needs no cut.
        let place = FieldPlace {
            index,
            header: header.place.header,
            width: 128,
        };
        store.set_field(place, take_near(bytes, bit, *width));
        index += 1;
        bit += *width as usize;
    }
}

/// Writes the fields of a valid header into bytes, which they fill.
pub(crate) fn write_fields(header: &Header, store: &Store, bytes: &mut [u8])
    requires header { IsHeader header.now.place.header header.now.place.first header.now }
    requires few { header.now.place.first + header.now.place.count ≤ 1024 }
    requires filled { header.now.bits ≡ 8 * length bytes.old }
    requires fields_in_store { header.now.place.first + header.now.place.count ≤ length store.now.fields }
    requires header_in_store { header.now.place.header < length store.now.valid }
    requires valid { header_valid store.now header.now.place.header ≡ true }
    ensures { bits bytes.new ≡ laid header.now.widths (numbers_of header.now store.now) }
{
    // Its number bounds that of each bit.
    let _bits = header.bits;
    let mut laid = laying::begun();
    let mut index = header.place.first;
    for width in header.widths.as_slice() {
        let place = FieldPlace {
            index,
            header: header.place.header,
            width: *width,
        };
        laid = laying::lay(laid, *width, store.field(place), bytes);
        index += 1;
    }
    laying::write(laid, bytes);
}

/// Writes a valid header of whole bytes behind the first `at` bytes, which stay.
pub(crate) fn write_header_at(header: &Header, store: &Store, bytes: &mut [u8], at: usize)
    requires header { IsHeader header.now.place.header header.now.place.first header.now }
    requires few { header.now.place.first + header.now.place.count ≤ 1024 }
    requires whole { header.now.bits % 8 ≡ 0 }
    requires room { at + header.now.bits / 8 ≤ length bytes.old }
    requires fields_in_store { header.now.place.first + header.now.place.count ≤ length store.now.fields }
    requires header_in_store { header.now.place.header < length store.now.valid }
    requires valid { header_valid store.now header.now.place.header ≡ true }
    ensures { bits (take (at + header.now.bits / 8) bytes.new) ≡ bits (take at bytes.old) ++ laid header.now.widths (numbers_of header.now store.now) }
{
    let end = at + header.bits / 8;
    write_fields(header, store, &mut bytes[at..end]);
}
