//! Sources, sinks, links, ports and nets.
use row_lines::{NoAnswer, bytes, numbers, say, tell, tell_hex};
use std::alloc::Global;
use sw_edge::{
    Accepted, Arrival, Got, Link, MAX_OUTPUT, MAX_PACKET, MemoryLink, MemoryNet, MemoryPorts,
    MemorySink, MemorySource, Net, Opened, Ports, Pulled, RealSink, RealSource, Sent, Sink, Source,
    Taken,
};

// What six reads answer in turn, with room for four bytes each.
fn six_reads<S: Source>(alloc: Global, told: &mut String, source: &mut S) {
    let mut buf = [0; 4];
    for _ in 0..6u32 {
        match source.read(&mut buf) {
            Got::Bytes(n) => tell_hex(alloc, told, &buf[..n]),
            Got::End => say(told, "End"),
            Got::Failed => say(told, "Failed"),
        }
    }
}

fn say_sent(told: &mut String, sent: Sent) {
    match sent {
        Sent::All => say(told, "All"),
        Sent::Failed => say(told, "Failed"),
    }
}

// What writes of three bytes each answer.
fn writes<S: Sink>(told: &mut String, sink: &mut S, bytes: &[u8]) {
    for part in bytes.chunks(3) {
        say_sent(told, sink.write(part));
    }
}

// What four pulls answer in turn, with room for four bytes each.
fn four_pulls<L: Link>(alloc: Global, told: &mut String, link: &mut L) {
    let mut buf = [0; 4];
    for _ in 0..4u32 {
        match link.pull(&mut buf) {
            Pulled::Bytes(n) => tell_hex(alloc, told, &buf[..n]),
            Pulled::Quiet => say(told, "Quiet"),
            Pulled::End => say(told, "End"),
            Pulled::Failed => say(told, "Failed"),
        }
    }
}

// A link that gives the bytes by three, and has room for five.
fn link_of(alloc: Global, bytes: &[u8], quiet: Vec<u64>) -> Result<MemoryLink, NoAnswer> {
    let bytes = Vec::from_slice(alloc, bytes)?;
    Ok(MemoryLink::new(alloc, bytes, 3, 5, Vec::new(alloc), quiet)?)
}

/// Of the piece and the failing calls of a source in memory, and its bytes: what six reads answer.
pub fn source(alloc: Global, asked: &[&str], told: &mut String) -> Result<(), NoAnswer> {
    let [piece, failing, hex] = asked else {
        return Err(NoAnswer);
    };
    let piece = piece.parse::<usize>()?;
    let failing = numbers(alloc, failing)?;
    if piece == 0 {
        return Err(NoAnswer);
    }
    let mut source = MemorySource::in_pieces(bytes(alloc, hex)?, piece, failing);
    six_reads(alloc, told, &mut source);
    Ok(())
}

/// Of bytes: what six reads of a reader answer.
pub fn reader(alloc: Global, asked: &[&str], told: &mut String) -> Result<(), NoAnswer> {
    let [hex] = asked else {
        return Err(NoAnswer);
    };
    let bytes = bytes(alloc, hex)?;
    six_reads(alloc, told, &mut RealSource::new(bytes.as_slice()));
    Ok(())
}

/// Of the room and the failing calls of a sink in memory, and bytes: what writes of three each answer, and what came.
pub fn sink(alloc: Global, asked: &[&str], told: &mut String) -> Result<(), NoAnswer> {
    let [room, failing, hex] = asked else {
        return Err(NoAnswer);
    };
    let failing = numbers(alloc, failing)?;
    let mut sink = MemorySink::new(alloc, room.parse::<usize>()?, failing)?;
    writes(told, &mut sink, &bytes(alloc, hex)?);
    tell_hex(alloc, told, sink.sent());
    Ok(())
}

/// Of bytes: what writes of three each to a vector answer and to an array of five bytes, and what came to each.
pub fn writers(alloc: Global, asked: &[&str], told: &mut String) -> Result<(), NoAnswer> {
    let [hex] = asked else {
        return Err(NoAnswer);
    };
    let bytes = bytes(alloc, hex)?;
    let mut written = Vec::new(alloc);
    writes(told, &mut RealSink::new(&mut written), &bytes);
    tell_hex(alloc, told, &written);
    let mut room = [0; 5];
    writes(told, &mut RealSink::new(room.as_mut_slice()), &bytes);
    tell_hex(alloc, told, &room);
    Ok(())
}

/// Of the quiet calls of a link, and bytes: what four pulls and two pushes of them answer, and what came.
pub fn link(alloc: Global, asked: &[&str], told: &mut String) -> Result<(), NoAnswer> {
    let [quiet, hex] = asked else {
        return Err(NoAnswer);
    };
    let bytes = bytes(alloc, hex)?;
    let mut link = link_of(alloc, &bytes, numbers(alloc, quiet)?)?;
    four_pulls(alloc, told, &mut link);
    say_sent(told, link.push(&bytes));
    say_sent(told, link.push(&bytes));
    tell_hex(alloc, told, link.sent());
    Ok(())
}

// What puts of a byte too many and of the most bytes answer.
fn two_puts<P: Ports>(alloc: Global, told: &mut String, ports: &mut P) -> Result<(), NoAnswer> {
    let mut packet = vec![in alloc; 0; MAX_OUTPUT + 1]?;
    say_sent(told, ports.put(1, &packet));
    packet.truncate(MAX_OUTPUT);
    say_sent(told, ports.put(2, &packet));
    Ok(())
}

// What three takes answer in turn.
fn three_takes<P: Ports>(alloc: Global, told: &mut String, ports: &mut P) {
    let mut buf = [0; MAX_PACKET];
    for _ in 0..3u32 {
        match ports.take(&mut buf) {
            Taken::Packet { port, len } => {
                tell(told, port);
                tell_hex(alloc, told, &buf[..len]);
            }
            Taken::Quiet => say(told, "Quiet"),
            Taken::End => say(told, "End"),
            Taken::Failed => say(told, "Failed"),
        }
    }
}

/// Of bytes, of which the first 9,216 come at port 510: what puts of 10,241 and 10,240 bytes answer, what was put, and
/// what three takes answer.
pub fn ports(alloc: Global, asked: &[&str], told: &mut String) -> Result<(), NoAnswer> {
    let [hex] = asked else {
        return Err(NoAnswer);
    };
    let mut packet = bytes(alloc, hex)?;
    packet.truncate(MAX_PACKET);
    let mut arrivals = Vec::new(alloc);
    arrivals.push(Arrival::new(510, packet))?;
    let mut ports = MemoryPorts::new(alloc, arrivals, 2, Vec::new(alloc), Vec::new(alloc))?;
    two_puts(alloc, told, &mut ports)?;
    for departure in ports.sent() {
        tell(told, (departure.port(), departure.bytes().len()));
    }
    three_takes(alloc, told, &mut ports);
    Ok(())
}

// What three accepts and a call for ports answer.
fn three_accepts<N: Net>(alloc: Global, told: &mut String, net: &mut N) {
    say_sent(told, net.listen(9559, 9560));
    for _ in 0..3u32 {
        match net.accept() {
            Accepted::Link(mut link) => four_pulls(alloc, told, &mut link),
            Accepted::Quiet => say(told, "Quiet"),
            Accepted::End => say(told, "End"),
            Accepted::Failed => say(told, "Failed"),
        }
    }
    match net.ports() {
        Opened::Ports(_) => say(told, "Ports"),
        Opened::Failed => say(told, "Failed"),
    }
}

/// Of bytes: what a net with a link for each of them answers to `listen`, three accepts and `ports`.
pub fn net(alloc: Global, asked: &[&str], told: &mut String) -> Result<(), NoAnswer> {
    let [hex] = asked else {
        return Err(NoAnswer);
    };
    let bytes = bytes(alloc, hex)?;
    let mut links = Vec::new(alloc);
    for byte in bytes.chunks(1) {
        links.push(link_of(alloc, byte, Vec::new(alloc))?)?;
    }
    let mut net = MemoryNet::new(links, Vec::new(alloc), Vec::new(alloc), Vec::new(alloc));
    three_accepts(alloc, told, &mut net);
    Ok(())
}
