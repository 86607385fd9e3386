//! A decoder of header blocks.
ghost use Rattle.std.specs.Prelude.{◌≡◌, [], length, None, Err, IfOk};
ghost use Rattle.hpack_tables.specs.Blocks.{IsAnswer, updates_in};

use crate::fault::HpackFault;
use crate::header::Header;
use crate::reading::block;
use crate::table::DynamicTable;
use list_types::{List, NoMemory, Refusal};
use std::alloc::Global;
use std::marker::Model;

/// Reads the header blocks of a connection, one after another, with the dynamic table that they
/// share. A contract sees the table, and why the decoder reads no more, if it does not.
#[derive(Drop)]
pub struct Decoder {
    alloc: Global,
    table: DynamicTable,
    broken: Option<Refusal<HpackFault>>,
}

impl Model for Decoder {
    ghost use Rattle.hpack_tables.specs.Blocks.{DecoderState};

    ghost Value = { DecoderState };

    ghost view = { λ decoder. record { table = decoder.table; broken = decoder.broken } };
}

impl Decoder {
    /// A decoder with an empty table of at most 4,096 bytes. It takes no memory.
    pub fn new(alloc: Global) -> Decoder
        ensures { result ≡ record { table = record { entries = []; max_size = 4096 }; broken = None } }
    {
        Decoder {
            alloc,
            table: DynamicTable::new(alloc),
            broken: None,
        }
    }

    /// The headers of a whole block, or the first fault in its order. What was read before a fault
    /// is lost, so a fault is answered again to each later block, and so is want of memory.
    pub fn block(&mut self, bytes: &[u8]) -> Result<List<Header>, Refusal<HpackFault>>
        ensures answer { IsAnswer self.old.broken self.old self.new bytes.now result }
        ensures updates { (fault : HpackFault) → self.old.broken ≡ None → updates_in (length bytes.now) self.old.table bytes.now ≡ Err fault → result ≡ Err (Refusal.For fault) }
    {
        if let Some(error) = self.broken {
            return Err(error);
        }
        let read = block(self.alloc, &mut self.table, bytes);
        if let Err(error) = &read {
            self.broken = Some(*error);
        }
        read
    }

    /// The entries of the dynamic table, the newest first. After a fault, or want of memory, they are
    /// of no use.
    pub fn entries(&self) -> Result<List<Header>, NoMemory>
        ensures { IfOk result (λ entries. entries ≡ self.now.table.entries) }
    {
        self.table.copies(self.alloc)
    }
}
