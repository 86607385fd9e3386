//! The deparser.
ghost use Rattle.std.specs.Prelude.{◌≡◌, ◌+◌, ◌*◌, ◌<◌, ◌≤◌, ◌↔◌, ◌++◌, [], length, slice_get, slice_index, ℕ, IsTrue};
ghost use Rattle.std.specs.Bool.{OnTrue, OnFalse};
ghost use Rattle.canon_bytes.specs.Bits.{bits};
ghost use Rattle.bm_pipeline.specs.Validity.{IsValid, IsInPackets};
ghost use Rattle.program_spec.specs.Deparsing.{header_bits, headers_bits, deparsed, longest};
ghost use Rattle.pkt_codec.specs.Room.{HasRoom};

use crate::headers::header_at;
use crate::packet_buf::PacketBuf;
use bm_expr::Store;
use bm_pipeline::Pipeline;
use bm_pipeline::program::Program;

// Adds the header at a place where it is valid, or says that there is no room for it.
fn write_place(program: &Program, place: usize, store: &Store, out: &mut PacketBuf) -> bool
    requires valid { IsValid program.now }
    requires in_packets { IsInPackets program.now place }
    requires room { HasRoom program.now store.now }
    ensures added { OnTrue result (bits out.new ≡ bits out.old ++ header_bits store.now (slice_get program.now.headers place)) }
    ensures too_long { OnFalse result (8 * longest < length (bits out.old) + length (header_bits store.now (slice_get program.now.headers place))) }
{
    let header = header_at(program, place);
    !store.is_valid(header.place.header) || out.write_header(header, store)
}

// Adds all valid headers in the deparser's order, or says that there is no room for them.
fn write_headers(program: &Program, store: &Store, out: &mut PacketBuf) -> bool
    requires valid { IsValid program.now }
    requires room { HasRoom program.now store.now }
    requires empty { out.old ≡ [] }
    ensures added { OnTrue result (bits out.new ≡ headers_bits program.now store.now) }
    ensures too_long { OnFalse result (8 * longest < length (headers_bits program.now store.now)) }
{
    for place in program.deparser.as_slice() {
        if !write_place(program, *place, store, out) {
            return false;
        }
    }
    true
}

// What a slice of bytes has are bytes.
fn are_bytes(bytes: &[u8])
    ensures { (i : ℕ) → slice_index bytes.now i < 256 }
{
    let _first = bytes.first();
}

// Adds the valid headers and these bytes, or says that there is no room for all of them.
fn write_packet(program: &Program, store: &Store, rest: &[u8], out: &mut PacketBuf) -> bool
    requires valid { IsValid program.now }
    requires room { HasRoom program.now store.now }
    requires empty { out.old ≡ [] }
    ensures fits { IsTrue result ↔ (length (deparsed program.now store.now (bits rest.now)) ≤ longest) }
    ensures packet { OnTrue result (out.new ≡ deparsed program.now store.now (bits rest.now)) }
{
    if !write_headers(program, store, out) {
        return false;
    }
    if !out.extend(rest) {
        return false;
    }
    are_bytes(out.as_slice());
    true
}

/// Writes a packet: the valid headers in the deparser's order, then the bytes that were not extracted. It answers false
/// exactly where the packet has more than 10,240 bytes, and leaves no byte then. It takes no memory.
pub fn deparse(pipeline: &Pipeline, store: &Store, rest: &[u8], out: &mut PacketBuf) -> bool
    requires room { HasRoom pipeline.now store.now }
    ensures fits { IsTrue result ↔ (length (deparsed pipeline.now store.now (bits rest.now)) ≤ longest) }
    ensures packet { OnTrue result (out.new ≡ deparsed pipeline.now store.now (bits rest.now)) }
    ensures too_long { OnFalse result (out.new ≡ []) }
{
    out.clear();
    let written = write_packet(pipeline.program(), store, rest, out);
    if !written {
        out.clear();
    }
    written
}
