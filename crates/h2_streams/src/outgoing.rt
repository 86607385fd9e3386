//! What the peer lets a connection send, and the bytes that are to be sent.
ghost use Rattle.std.specs.Prelude.{◌≡◌, ◌+◌, ◌-◌, ◌*◌, ◌≤◌, ◌<◌, ◌^◌, [], ◌∷◌, ◌++◌, min, nat_lt, length, OnOk, IsErr, Ok, Err, true, false, if◌then◌else◌};
ghost use Rattle.h2_frames.specs.declared.frame.Frame.TheVariants as frames;
ghost use Rattle.h2_frames.specs.Layout.{payload_of};
ghost use Rattle.h2_frames.specs.Laws.{NumbersFit};
ghost use Rattle.h2_streams.specs.Streams.{max_window};
ghost use Rattle.h2_streams.specs.Sending.{fresh, spellings, with_frames, data_frames, continuations, header_frames, told, with_block, with_data};

use h2_frames::{
    Frame, H2Code, write_continuation, write_data, write_frame, write_headers, write_rst_stream,
    write_window_update,
};
use hpack_tables::encode_size_update;
use list_types::{ByteList, NoMemory};
use std::alloc::Global;
use std::marker::Model;

/// What the peer lets a connection send, and the bytes that are to be sent.
#[derive(Drop)]
pub struct Outgoing {
    window: u32,
    initial_window: u32,
    max_frame: u32,
    table_size: u32,
    update_due: bool,
    output: ByteList,
}

impl Model for Outgoing {
    ghost use Rattle.std.specs.Prelude.{◌≤◌, ◌<◌, ◌^◌};
    ghost use Rattle.h2_streams.specs.Sending.{Sending};

    ghost Value = { Sending };

    ghost view = { λ outgoing. record { window = outgoing.window; initial_window = outgoing.initial_window; max_frame = outgoing.max_frame; table_size = outgoing.table_size; update_due = outgoing.update_due; output = outgoing.output } };

    ghost invariant = { λ outgoing. (16384 ≤ outgoing.max_frame) × (outgoing.max_frame < 2 ^ 24) × (outgoing.table_size ≤ 4096) };
}

fn write_data_frames(
    alloc: Global,
    size: usize,
    stream: u32,
    bytes: &[u8],
    out: &mut ByteList,
) -> Result<(), NoMemory>
    requires { (0 < size) × (size < 2 ^ 24) }
    ensures { OnOk result (out.new ≡ out.old ++ spellings (data_frames (length bytes.now) size stream bytes.now)) }
{
    let mut rest = bytes;
    for _ in 0..bytes.len() {
        if rest.len() <= size {
            return write_data(alloc, stream, false, rest, out);
        }
        let (front, after) = rest.split_at(size);
        write_data(alloc, stream, false, front, out)?;
        rest = after;
    }
    write_data(alloc, stream, false, rest, out)
}

fn write_continuations(
    alloc: Global,
    size: usize,
    stream: u32,
    block: &[u8],
    count: usize,
    out: &mut ByteList,
) -> Result<(), NoMemory>
    requires { (0 < size) × (size < 2 ^ 24) × (length block.now ≤ count) }
    ensures { OnOk result (out.new ≡ out.old ++ spellings (continuations count size stream block.now)) }
{
    let mut rest = block;
    for _ in 0..count {
        if rest.len() <= size {
            return write_continuation(alloc, stream, true, rest, out);
        }
        let (front, after) = rest.split_at(size);
        write_continuation(alloc, stream, false, front, out)?;
        rest = after;
    }
    write_continuation(alloc, stream, true, rest, out)
}

fn write_header_frames(
    alloc: Global,
    size: usize,
    stream: u32,
    end_stream: bool,
    block: &[u8],
    out: &mut ByteList,
) -> Result<(), NoMemory>
    requires { (0 < size) × (size < 2 ^ 24) }
    ensures { OnOk result (out.new ≡ out.old ++ spellings (header_frames size stream end_stream block.now)) }
{
    if block.len() <= size {
        return write_headers(alloc, stream, end_stream, true, block, out);
    }
    let (front, rest) = block.split_at(size);
    write_headers(alloc, stream, end_stream, false, front, out)?;
    write_continuations(alloc, size, stream, rest, block.len(), out)
}

impl Outgoing {
    /// Nothing is to be sent, and the settings of the peer are the initial ones.
    pub fn new(alloc: Global) -> Outgoing
        ensures { result ≡ fresh }
    {
        Outgoing {
            window: 65_535,
            initial_window: 65_535,
            max_frame: 16_384,
            table_size: 4_096,
            update_due: false,
            output: ByteList::new(alloc),
        }
    }

    /// The connection's window, in bytes.
    pub fn window(&self) -> u32
        ensures { result ≡ self.now.window }
    {
        self.window
    }

    /// The initial size of a stream's window, in bytes.
    pub fn initial_window(&self) -> u32
        ensures { result ≡ self.now.initial_window }
    {
        self.initial_window
    }

    /// Adds a frame to the bytes that are to be sent.
    pub fn send_frame(&mut self, alloc: Global, frame: &Frame) -> Result<(), NoMemory>
        requires short { length (payload_of frame.now) < 2 ^ 24 }
        requires fits { NumbersFit frame.now }
        ensures { OnOk result (self.new ≡ with_frames (frame.now ∷ []) self.old) }
    {
        write_frame(alloc, frame, &mut self.output)
    }

    /// Resets a stream.
    pub fn send_reset(
        &mut self,
        alloc: Global,
        stream: u32,
        error_code: u32,
    ) -> Result<(), NoMemory>
        ensures { OnOk result (self.new ≡ with_frames (frames.RstStream stream error_code ∷ []) self.old) }
    {
        write_rst_stream(alloc, stream, error_code, &mut self.output)
    }

    /// Gives the peer so many bytes more, on a stream or, where that is 0, on the connection.
    pub fn send_window_update(
        &mut self,
        alloc: Global,
        stream: u32,
        count: u32,
    ) -> Result<(), NoMemory>
        ensures { OnOk result (self.new ≡ with_frames (frames.WindowUpdate stream count ∷ []) self.old) }
    {
        write_window_update(alloc, stream, count, &mut self.output)
    }

    /// Sends data on a stream, in frames of the peer's size. No byte sends no frame.
    pub fn send_data(&mut self, alloc: Global, stream: u32, bytes: &[u8]) -> Result<(), NoMemory>
        requires { length bytes.now ≤ self.old.window }
        ensures { OnOk result (self.new ≡ with_data stream bytes.now self.old) }
    {
        if bytes.is_empty() {
            return Ok(());
        }
        write_data_frames(
            alloc,
            self.max_frame as usize,
            stream,
            bytes,
            &mut self.output,
        )?;
        self.window -= bytes.len() as u32;
        Ok(())
    }

    /// Sends a header block on a stream, in frames of the peer's size. Where the peer lowered the
    /// size of the dynamic table, the block begins with an update of it (RFC 9113, section 4.3.1).
    pub fn send_block(
        &mut self,
        alloc: Global,
        stream: u32,
        end_stream: bool,
        block: &[u8],
    ) -> Result<(), NoMemory>
        ensures { OnOk result (self.new ≡ with_block stream end_stream block.now self.old) }
    {
        let size = self.max_frame as usize;
        if !self.update_due {
            return write_header_frames(alloc, size, stream, end_stream, block, &mut self.output);
        }
        let mut told = encode_size_update(alloc, self.table_size)?;
        told.extend_from_slice(block)?;
        write_header_frames(
            alloc,
            size,
            stream,
            end_stream,
            told.as_slice(),
            &mut self.output,
        )?;
        self.update_due = false;
        Ok(())
    }

    /// The peer gives the connection so many bytes more, or breaks the window's limit with
    /// FLOW_CONTROL_ERROR.
    pub fn grant(&mut self, count: u32) -> Result<(), H2Code>
        ensures ok { OnOk result (self.new ≡ record self.old { window = self.old.window + count }) }
        ensures within { (result ≡ Ok tt) → nat_lt max_window (self.old.window + count) ≡ false }
        ensures too_wide { IsErr result → (result ≡ Err H2Code.FlowControlError) × (self.new ≡ self.old) × (nat_lt max_window (self.old.window + count) ≡ true) }
    {
        let sum = u64::from(self.window) + u64::from(count);
        if sum > 0x7fff_ffff {
            return Err(H2Code::FlowControlError);
        }
        self.window = sum as u32;
        Ok(())
    }

    /// The peer sets the initial size of a stream's window.
    pub fn set_initial_window(&mut self, size: u32)
        ensures { self.new ≡ record self.old { initial_window = size } }
    {
        self.initial_window = size;
    }

    /// The peer sets the longest payload.
    pub fn set_max_frame(&mut self, size: u32)
        requires { (16384 ≤ size) × (size < 2 ^ 24) }
        ensures { self.new ≡ record self.old { max_frame = size } }
    {
        self.max_frame = size;
    }

    /// The peer sets the size of the dynamic table. A smaller one than before is told to it with the
    /// next header block; a larger one is not made use of (RFC 7541, section 4.2).
    pub fn set_table_size(&mut self, size: u32)
        ensures { self.new ≡ (if nat_lt size self.old.table_size then record self.old { table_size = size; update_due = true } else self.old) }
    {
        if size < self.table_size {
            self.table_size = size;
            self.update_due = true;
        }
    }

    /// Takes the bytes that are to be sent. It takes no memory.
    pub fn take_output(&mut self, alloc: Global) -> ByteList
        ensures taken { result ≡ self.old.output }
        ensures kept { self.new ≡ record self.old { output = [] } }
    {
        std::mem::replace(&mut self.output, ByteList::new(alloc))
    }
}
