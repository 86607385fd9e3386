//! What the words of the command line ask for.
ghost use Rattle.std.specs.Prelude.{◌≡◌, IfErr, IfOk, is_some, map, true};
ghost use Rattle.command_words.specs.Words.{command_of};
ghost use Rattle.p4switch_run.specs.Words.{job_for, HasNumber, HasSlots};

use command_words::command_of;
use command_words::words::{Command, Mode, tested};
use list_types::NoMemory;
use p4_types::events::Start;
use serve_run::Serving;
use std::alloc::Global;

/// What the program does.
#[derive(Clone, Copy)]
pub enum Job {
    /// Runs a tape, from this start.
    Replay(Mode, Start),
    /// Judges a configuration.
    Check,
    /// Serves controllers and packets.
    Serve(Serving),
    /// Runs the tape of a number, 1 to 64, and sums up its report.
    Gen(u64),
}

/// What a command asks for, if there is one.
pub fn job_for(command: Option<Command>) -> Option<Job>
    ensures { result ≡ job_for command }
{
    match command {
        Some(Command::Replay { mode, start }) => Some(Job::Replay(mode, start)),
        Some(Command::Check) => Some(Job::Check),
        Some(
            Command::Serve {
                port,
                packets,
                workers,
                start,
            },
        ) => Some(Job::Serve(Serving {
            port,
            packets,
            workers,
            start,
        })),
        Some(Command::Gen(number)) => Some(Job::Gen(number)),
        None => None,
    }
}

/// What the words ask for, if they are a command. Other words are refused also where memory is out.
#[tactic(auto, using(crate::proofs::Slots::has_slots, crate::proofs::Numbers::has_number))]
pub fn job_of(alloc: Global, words: &[&str]) -> Result<Option<Job>, NoMemory>
    ensures job { IfOk result (λ job. job ≡ job_for (command_of (map (λ word. word.now) words.now))) }
    ensures slots { IfOk result HasSlots }
    ensures number { IfOk result HasNumber }
    ensures memory { IfErr result (λ _. is_some (job_for (command_of (map (λ word. word.now) words.now))) ≡ true) }
{
    if job_for(tested(words)).is_none() {
        return Ok(None);
    }
    match command_of(alloc, words) {
        Ok(command) => Ok(job_for(command)),
        Err(NoMemory) => Err(NoMemory),
    }
}
