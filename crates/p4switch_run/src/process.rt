//! What the program does with the words and the streams of its process.
ghost use Rattle.std.specs.Prelude.{◌≡◌, ◌≢◌, ◌≤◌, drop, map, string_bytes, IfOk};
ghost use Rattle.std.specs.Process.{exit_status};
ghost use Rattle.std.specs.Vec.Iter.{into_iter_items};
ghost use Rattle.p4switch_run.specs.Command.{IsCommand};

use crate::program::{end_without_memory, run};
use real_net::{Loopback, RealNet};
use std::alloc::{AllocError, Global};
use std::env::{self, Args};
use std::io::ErrorKind;
use std::process::ExitCode;
use std::sync::Wait;
use std::thread::Threads;
use sw_edge::{RealClock, RealSink, RealSource};

// The words behind the program's name.
fn words_of(alloc: Global, args: Args) -> Result<Vec<String>, AllocError>
    ensures { IfOk result (λ words. words.items ≡ drop 1 (into_iter_items args)) }
{
    let mut args = args;
    let _program = args.next();
    let mut words = Vec::new(alloc);
    for word in args {
        words.push(word)?;
    }
    Ok(words)
}

// The words as texts.
fn texts_of(alloc: Global, words: &[String]) -> Result<Vec<&str>, AllocError>
    ensures { IfOk result (λ texts. map (λ text. text.now) texts.items ≡ map (λ word. string_bytes word) words.now) }
{
    let mut texts = Vec::new(alloc);
    for word in words {
        texts.push(word.as_str())?;
    }
    Ok(texts)
}

// The exit status of the program with these words.
fn status_of<T: Threads + Wait + Sync>(threads: &T, rt: HostRuntime, words: &[String]) -> u8
    ensures refused { result ≡ 2 → IsCommand (map (λ word. string_bytes word) words.now) → ⊥ }
    ensures command { result ≢ 2 → result ≢ 3 → IsCommand (map (λ word. string_bytes word) words.now) }
    ensures statuses { result ≤ 8 }
{
    let alloc = rt.alloc();
    let mut err = RealSink::new(rt.stderr());
    let Ok(texts) = texts_of(alloc, words) else {
        return end_without_memory(&mut err);
    };
    let mut tape = RealSource::new(rt.stdin());
    let mut out = RealSink::new(rt.stdout());
    let mut net = RealNet::new(Loopback::new(&rt, alloc));
    let mut clock = RealClock::new(rt);
    run(
        threads,
        alloc,
        texts.as_slice(),
        &mut tape,
        &mut out,
        &mut err,
        &mut net,
        &mut clock,
    )
}

/// Runs the program with the words and the streams of the process, and gives the status with which the process is to end.
pub fn exit_of<T: Threads + Wait + Sync>(threads: &T, rt: HostRuntime) -> ExitCode
    ensures statuses { exit_status result ≤ 8 }
{
    let words = match env::args(&rt) {
        Ok(args) => words_of(rt.alloc(), args),
        Err(error) if error.kind() == ErrorKind::OutOfMemory => Err(AllocError),
        // Words that are no text are refused like any others that are not in the grammar.
        Err(_) => Ok(Vec::new(rt.alloc())),
    };
    let Ok(words) = words else {
        let mut err = RealSink::new(rt.stderr());
        return ExitCode::from(end_without_memory(&mut err));
    };
    ExitCode::from(status_of(threads, rt, words.as_slice()))
}
