// Tapes in files, and the switch that they are for.
use crate::moments::nanoseconds;
use p4_types::events::Start;
use std::env::Args;
use std::fs::{self, File};
use std::io;
use sw_edge::RealSource;
use tape_form::Tape;

/// A switch that starts without a program.
pub const START: Start = Start {
    device: 1,
    cpu: 255,
    rows: 16_384,
    slots: 1_048_576,
    bridge: false,
};

// The file that the next of the words names.
fn named_file(rt: &HostRuntime, words: &mut Args) -> io::Result<File> {
    match words.next() {
        Some(name) => fs::open(rt, name.as_str()),
        None => Err(io::Error::from(io::ErrorKind::NotFound)),
    }
}

/// The tape in the file that the next of the words names, if it is one, and the nanoseconds that its reading took.
pub fn read_tape(rt: &HostRuntime, words: &mut Args) -> io::Result<(Option<Tape>, u128)> {
    let mut source = RealSource::new(named_file(rt, words)?);
    let before = nanoseconds(rt);
    let tape = Tape::read(rt.alloc(), &mut source);
    let took = nanoseconds(rt).saturating_sub(before);
    Ok((tape.ok(), took))
}
