//! The bytes of a packet that leaves.
ghost use Rattle.std.specs.Prelude.{◌≡◌, ◌+◌, ◌*◌, ◌%◌, ◌<◌, ◌≤◌, true, [], ◌++◌, length, IfOk};
ghost use Rattle.std.specs.Bool.{OnTrue, OnFalse};
ghost use Rattle.canon_bytes.specs.Bits.{bits};
ghost use Rattle.bm_expr.specs.Store.{header_valid};
ghost use Rattle.bm_pipeline.specs.Validity.{IsHeader};
ghost use Rattle.program_spec.specs.Deparsing.{laid, numbers_of, longest};

use crate::fields::write_header_at;
use bm_expr::Store;
use bm_pipeline::headers::Header;
use list_types::NoMemory;
use std::alloc::Global;
use std::marker::Model;

/// How many bytes a packet that leaves may have.
const LONGEST: usize = 10_240;

/// A packet that leaves, with room for 10,240 bytes, which a contract sees as its bytes.
#[derive(Drop)]
pub struct PacketBuf {
    bytes: Vec<u8>,
    used: usize,
}

impl Model for PacketBuf {
    ghost use Rattle.std.specs.Prelude.{◌≡◌, ◌≤◌, ℕ, List, take, length};

    ghost Value = { List ℕ };

    ghost view = { λ packet. take packet.used packet.bytes.items };

    ghost invariant = { λ packet. (length packet.bytes.items ≡ 10240) × (packet.used ≤ 10240) };
}

impl PacketBuf {
    /// A packet of no bytes. All its memory is taken here.
    pub fn open(alloc: Global) -> Result<PacketBuf, NoMemory>
        ensures { IfOk result (λ packet. packet ≡ []) }
    {
        let bytes = vec![in alloc; 0u8; LONGEST]?;
        Ok(PacketBuf { bytes, used: 0 })
    }

    /// The bytes that were written, in order.
    pub fn as_slice(&self) -> &[u8]
        ensures { result.now ≡ self.now }
    {
        &self.bytes[..self.used]
    }

    /// Takes all bytes away.
    pub fn clear(&mut self)
        ensures { self.new ≡ [] }
    {
        self.used = 0;
    }

    /// Adds bytes, or none where there is no room for all of them.
    pub(crate) fn extend(&mut self, bytes: &[u8]) -> bool
        ensures added { OnTrue result (self.new ≡ self.old ++ bytes.now) }
        ensures within { OnTrue result (length self.new ≤ longest) }
        ensures too_long { OnFalse result (longest < length self.old + length bytes.now) }
    {
        if bytes.len() > LONGEST - self.used {
            return false;
        }
        let end = self.used + bytes.len();
        self.bytes[self.used..end].copy_from_slice(bytes);
        self.used = end;
        true
    }

    /// Adds a valid header, or nothing where there is no room for it.
    pub(crate) fn write_header(&mut self, header: &Header, store: &Store) -> bool
        requires header { IsHeader header.now.place.header header.now.place.first header.now }
        requires whole { header.now.bits % 8 ≡ 0 }
        requires few { header.now.place.first + header.now.place.count ≤ 1024 }
        requires fields_in_store { header.now.place.first + header.now.place.count ≤ length store.now.fields }
        requires header_in_store { header.now.place.header < length store.now.valid }
        requires valid { header_valid store.now header.now.place.header ≡ true }
        ensures added { OnTrue result (bits self.new ≡ bits self.old ++ laid header.now.widths (numbers_of header.now store.now)) }
        ensures too_long { OnFalse result (8 * longest < length (bits self.old) + length (laid header.now.widths (numbers_of header.now store.now))) }
    {
        let size = header.bits / 8;
        if size > LONGEST - self.used {
            return false;
        }
        let end = self.used + size;
        write_header_at(header, store, &mut self.bytes, self.used);
        self.used = end;
        true
    }
}
