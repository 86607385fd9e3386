//! The top call of the program.
ghost use Rattle.std.specs.Prelude.{◌≡◌, ◌≢◌, ◌≤◌, ◌⊎◌, ℕ, map};
ghost use Rattle.sw_edge.specs.Counts.{Rose};
ghost use Rattle.sw_edge.specs.Told.{Keeps};
ghost use Rattle.tape_form.specs.TapeRead.{IsTooLong, IsUnfinished, HidesNothing};
ghost use Rattle.p4switch_run.specs.Command.{IsCommand, IsReplay, IsCheck, IsServe, IsGen};
ghost use Rattle.p4_types.specs.declared.events.Start.{Start};
ghost use Rattle.command_words.specs.declared.words.Mode.{Mode};
ghost use Rattle.p4switch_run.specs.Replay.{streams};
ghost use Rattle.p4switch_run.specs.Run.{Ends, NetEnds, IsUnused, Reports, Breaks, Approves, Serves, SumsUp, BreaksLine, BreaksSummary, ReadsNothing, IsUnread, Misreads, Stops, Rejects, HoldsTape, HoldsBytes, NamesPlace, SaysStatus, lines};

use crate::check::check;
use crate::load::run_load;
use crate::replay::replay;
use crate::status::Status;
use crate::tell::tell;
use crate::words::{Job, job_of};
use list_types::NoMemory;
use serve_run::serve;
use std::alloc::Global;
use std::sync::Wait;
use std::thread::Threads;
use sw_edge::{Clock, Net, Sink, Source};

// What the words ask for is done, if they are a command.
fn status_of<T: Threads + Wait + Sync, S: Source, O: Sink, N: Net + Drop, K: Clock + Send>(
    rt: &T,
    alloc: Global,
    words: &[&str],
    tape: &mut S,
    out: &mut O,
    net: &mut N,
    clock: &mut K,
) -> Status
    ensures ends { Ends result (map (λ word. word.now) words.now)
        (streams (S.left tape.old) (O.sent out.old) (S.faults tape.old) (O.faults out.old) (S.ends tape.old))
        (streams (S.left tape.new) (O.sent out.new) (S.faults tape.new) (O.faults out.new) (S.ends tape.new)) }
    ensures reads { S.faults tape.old ≤ S.faults tape.new }
    ensures writes { O.faults out.old ≤ O.faults out.new }
    ensures net_ends { NetEnds result (map (λ word. word.now) words.now) (N.ends net.old) (N.ends net.new) (N.faults net.old) (N.faults net.new) }
    ensures net { IsUnused (map (λ word. word.now) words.now) net.old net.new }
    ensures clock { IsUnused (map (λ word. word.now) words.now) clock.old clock.new }
{
    match job_of(alloc, words) {
        Ok(job) => match job {
            Some(Job::Replay(mode, start)) => replay(rt, alloc, mode, start, tape, out),
            Some(Job::Check) => check(alloc, tape, out),
            Some(Job::Serve(serving)) => Status::of_end(serve(rt, alloc, serving, net, clock)),
            Some(Job::Gen(number)) => run_load(alloc, number, out),
            None => Status::WordsRefused,
        },
        Err(NoMemory) => Status::NoMemory,
    }
}

/// Runs the program with the words behind its name, and answers its exit status: `replay` reads a tape from `tape`, runs
/// it without a program or with `--bridge` over the built-in bridge, on the device, with the CPU port and the rows that its
/// other options name, and writes its report to `out`, which is made whole before its first byte is written. With
/// `--lockstep` the records of the tape run one after the other, and else each lane on a thread of its own; the lanes of a
/// thread that cannot be started run on the caller's. `check` reads a configuration from `tape`, and writes `ok`, or `refused` with the first rule that it
/// breaks. `gen` makes the tape of its number, runs it in lockstep without a program on device 1, and writes the summary of the report.
/// `serve` listens on the net, and serves controllers and packets until the net ends or fails: which calls a controller's bytes
/// make and what it is sent is said by `link_loop::serve_link`, what becomes of packets by `serve_run::serve_ports`. A status other
/// than 0 and 8 has its line on `err`.
pub fn run<T: Threads + Wait + Sync, S: Source, O: Sink, E: Sink, N: Net + Drop, K: Clock + Send>(
    rt: &T,
    alloc: Global,
    words: &[&str],
    tape: &mut S,
    out: &mut O,
    err: &mut E,
    net: &mut N,
    clock: &mut K,
) -> u8
    // 0, of a replay: the tape is read to its end, and what is written is its report. With `--lockstep` it is that of the run that
    // follows the tape, else of a run in some interleaving of the lanes. Of a made tape what is written is the summary of the report of
    // the run that follows it.
    ensures report { result ≡ 0 → (Reports (map (λ word. word.now) words.now)
        (streams (S.left tape.old) (O.sent out.old) (S.faults tape.old) (O.faults out.old) (S.ends tape.old))
        (streams (S.left tape.new) (O.sent out.new) (S.faults tape.new) (O.faults out.new) (S.ends tape.new)))
        ⊎ ((Approves (map (λ word. word.now) words.now)
        (streams (S.left tape.old) (O.sent out.old) (S.faults tape.old) (O.faults out.old) (S.ends tape.old))
        (streams (S.left tape.new) (O.sent out.new) (S.faults tape.new) (O.faults out.new) (S.ends tape.new)))
        ⊎ ((Serves (map (λ word. word.now) words.now) (N.ends net.old) (N.ends net.new))
        ⊎ SumsUp (map (λ word. word.now) words.now)
        (streams (S.left tape.old) (O.sent out.old) (S.faults tape.old) (O.faults out.old) (S.ends tape.old))
        (streams (S.left tape.new) (O.sent out.new) (S.faults tape.new) (O.faults out.new) (S.ends tape.new)))) }

    // 1: the bytes are no tape, and the line names the place behind which they are none.
    ensures not_a_tape { result ≡ 1 → NamesPlace (S.left tape.old) (S.left tape.new)
        (lines (E.sent err.old) (E.sent err.new) (E.faults err.old) (E.faults err.new)) }

    // 2: the words are no command, and only then.
    ensures refused { result ≡ 2 → IsCommand (map (λ word. word.now) words.now) → ⊥ }
    ensures command { result ≢ 2 → IsCommand (map (λ word. word.now) words.now) }
    ensures untouched { result ≡ 2 → streams (S.left tape.new) (O.sent out.new) (S.faults tape.new) (O.faults out.new) (S.ends tape.new)
        ≡ streams (S.left tape.old) (O.sent out.old) (S.faults tape.old) (O.faults out.old) (S.ends tape.old) }

    // 3: there was no memory. The source has not failed, and no more was taken of it than a tape or a configuration may have; and where
    // the source of a tape was read to its end, what was taken is a tape.
    ensures no_memory { result ≡ 3 → IsUnfinished (S.left tape.old) (S.left tape.new) (S.faults tape.old) (S.faults tape.new) }
    ensures hides_nothing { result ≡ 3 → (IsCheck (map (λ word. word.now) words.now)) ⊎ HidesNothing (S.left tape.old) (S.left tape.new) (S.ends tape.old) (S.ends tape.new) }

    // 4: the source failed.
    ensures read_fault { result ≡ 4 → Rose (S.faults tape.old) (S.faults tape.new) }

    // 5: the sink failed, and some first bytes of the report, of the line or of the summary were written. With any other status it has
    // not failed.
    ensures no_write_fault { result ≢ 5 → O.faults out.new ≡ O.faults out.old }
    ensures write_fault { result ≡ 5 → (Breaks (map (λ word. word.now) words.now)
        (streams (S.left tape.old) (O.sent out.old) (S.faults tape.old) (O.faults out.old) (S.ends tape.old))
        (streams (S.left tape.new) (O.sent out.new) (S.faults tape.new) (O.faults out.new) (S.ends tape.new)))
        ⊎ ((BreaksLine (map (λ word. word.now) words.now)
        (streams (S.left tape.old) (O.sent out.old) (S.faults tape.old) (O.faults out.old) (S.ends tape.old))
        (streams (S.left tape.new) (O.sent out.new) (S.faults tape.new) (O.faults out.new) (S.ends tape.new)))
        ⊎ (BreaksSummary (map (λ word. word.now) words.now)
        (streams (S.left tape.old) (O.sent out.old) (S.faults tape.old) (O.faults out.old) (S.ends tape.old))
        (streams (S.left tape.new) (O.sent out.new) (S.faults tape.new) (O.faults out.new) (S.ends tape.new)))) }

    // 6: there are more bytes or records than a tape may have.
    ensures too_long { result ≡ 6 → IsTooLong (S.left tape.old) (S.left tape.new) }

    // 1, 4 and 6: which of them comes is said by what was taken of the source, and by how the taking ended.
    ensures first { IsUnread result → (Misreads result (map (λ word. word.now) words.now)
        (streams (S.left tape.old) (O.sent out.old) (S.faults tape.old) (O.faults out.old) (S.ends tape.old))
        (streams (S.left tape.new) (O.sent out.new) (S.faults tape.new) (O.faults out.new) (S.ends tape.new)))
        ⊎ (Stops result (map (λ word. word.now) words.now)
        (streams (S.left tape.old) (O.sent out.old) (S.faults tape.old) (O.faults out.old) (S.ends tape.old))
        (streams (S.left tape.new) (O.sent out.new) (S.faults tape.new) (O.faults out.new) (S.ends tape.new))) }

    // 8: the configuration is read to its end, and the first rule that it breaks is written.
    ensures flawed { result ≡ 8 → Rejects (map (λ word. word.now) words.now)
        (streams (S.left tape.old) (O.sent out.old) (S.faults tape.old) (O.faults out.old) (S.ends tape.old))
        (streams (S.left tape.new) (O.sent out.new) (S.faults tape.new) (O.faults out.new) (S.ends tape.new)) }

    // 0, of serving: the net ended. With any other status it has not ended.
    ensures no_net_end { result ≢ 0 → N.ends net.new ≡ N.ends net.old }

    // 7: the net failed. With any other status it has not failed.
    ensures net_fault { result ≡ 7 → Rose (N.faults net.old) (N.faults net.new) }
    ensures no_net_fault { result ≢ 7 → N.faults net.new ≡ N.faults net.old }

    // Serving reads and writes nothing beside the net, and nothing else uses net or clock.
    ensures left_alone { IsServe (map (λ word. word.now) words.now) → streams (S.left tape.new) (O.sent out.new) (S.faults tape.new) (O.faults out.new) (S.ends tape.new)
        ≡ streams (S.left tape.old) (O.sent out.old) (S.faults tape.old) (O.faults out.old) (S.ends tape.old) }
    ensures net { (IsServe (map (λ word. word.now) words.now) → ⊥) → net.new ≡ net.old }
    ensures clock { (IsServe (map (λ word. word.now) words.now) → ⊥) → clock.new ≡ clock.old }

    // A made tape is not read.
    ensures unread { (number : ℕ) → IsGen number (map (λ word. word.now) words.now) → ReadsNothing
        (streams (S.left tape.old) (O.sent out.old) (S.faults tape.old) (O.faults out.old) (S.ends tape.old))
        (streams (S.left tape.new) (O.sent out.new) (S.faults tape.new) (O.faults out.new) (S.ends tape.new)) }

    // There is no other status.
    ensures statuses { result ≤ 8 }
    ensures nothing { result ≢ 0 → result ≢ 5 → result ≢ 8 → Keeps (O.sent out.old) (O.sent out.new) }
    ensures told { SaysStatus result (lines (E.sent err.old) (E.sent err.new) (E.faults err.old) (E.faults err.new)) }

    // A tape within the limits is reported, unless source or sink fails or memory is out.
    ensures complete { (mode : Mode) (start : Start) → IsReplay mode start (map (λ word. word.now) words.now) → HoldsTape (S.left tape.old)
        → (Rose (S.faults tape.old) (S.faults tape.new) → ⊥) → (Rose (O.faults out.old) (O.faults out.new) → ⊥)
        → (result ≡ 0) ⊎ (result ≡ 3) }

    // A configuration within the limit is judged, unless source or sink fails or memory is out.
    ensures judged { IsCheck (map (λ word. word.now) words.now) → HoldsBytes (S.left tape.old)
        → (Rose (S.faults tape.old) (S.faults tape.new) → ⊥) → (Rose (O.faults out.old) (O.faults out.new) → ⊥)
        → (result ≡ 0) ⊎ ((result ≡ 3) ⊎ (result ≡ 8)) }

    // The report of a made tape is summed up, unless the sink fails or memory is out. There is no other status.
    ensures summed { (number : ℕ) → IsGen number (map (λ word. word.now) words.now)
        → (result ≡ 0) ⊎ ((result ≡ 3) ⊎ ((result ≡ 5) × Rose (O.faults out.old) (O.faults out.new))) }

    // Serving ends with the net, unless this fails or memory is out.
    ensures served { IsServe (map (λ word. word.now) words.now) → (Rose (N.faults net.old) (N.faults net.new) → ⊥) → (result ≡ 0) ⊎ (result ≡ 3) }
{
    let status = status_of(rt, alloc, words, tape, out, net, clock);
    let _ = tell(err, status);
    status.number()
}

/// Ends the program where there was no memory for its words.
pub(crate) fn end_without_memory<E: Sink>(err: &mut E) -> u8
    ensures status { result ≡ 3 }
    ensures told { SaysStatus result (lines (E.sent err.old) (E.sent err.new) (E.faults err.old) (E.faults err.new)) }
{
    let _ = tell(err, Status::NoMemory);
    Status::NoMemory.number()
}
