//! The decoder of a connection that no breach has ended.
ghost use Rattle.std.specs.Prelude.{◌≡◌, []};
ghost use Rattle.list_types.specs.Results.{Gives};
ghost use Rattle.hpack_tables.specs.Blocks.{block_at};

use hpack_tables::{Decoder, Header, HpackFault};
use list_types::{List, Refusal};
use std::alloc::Global;
use std::marker::Model;

/// A decoder that has met no fault; a contract sees its table.
#[derive(Drop)]
pub struct BlockDecoder {
    decoder: Decoder,
}

impl Model for BlockDecoder {
    ghost use Rattle.std.specs.Prelude.{◌≡◌, None};
    ghost use Rattle.hpack_tables.specs.Tables.{Table};

    ghost Value = { Table };

    ghost view = { λ decoder. decoder.decoder.table };

    ghost invariant = { λ decoder. decoder.decoder.broken ≡ None };
}

impl BlockDecoder {
    /// A decoder with an empty table of at most 4,096 bytes.
    pub fn new(alloc: Global) -> BlockDecoder
        ensures { result ≡ record { entries = []; max_size = 4096 } }
    {
        BlockDecoder {
            decoder: Decoder::new(alloc),
        }
    }

    /// The headers of a whole block. After a fault, or want of memory, the table is lost.
    pub fn block(
        &mut self,
        alloc: Global,
        bytes: &[u8],
    ) -> Result<List<Header>, Refusal<HpackFault>>
        ensures { Gives (λ headers. (headers, self.new)) result (block_at self.old bytes.now) }
    {
        match self.decoder.block(bytes) {
            Ok(headers) => Ok(headers),
            Err(error) => {
                self.decoder = Decoder::new(alloc);
                Err(error)
            }
        }
    }
}
