//! A configuration is read and judged.
ghost use Rattle.std.specs.Prelude.{◌≡◌, ◌≤◌, IfOk, IfErr, OnOk, None, string_bytes};
ghost use Rattle.p4switch_run.specs.Check.{Checks, HasFlaw, Unread, ended_status, verdict_line, status_of};
ghost use Rattle.p4switch_run.specs.Replay.{streams};

use crate::status::Status;
use config_rules::config_flaw;
use p4_types::code::ConfigRule;
use std::alloc::{AllocError, Global};
use sw_edge::{Sent, Sink, Source};
use tape_form::{Ended, take_bytes};

// How a check ends whose configuration was not taken up to its end.
fn ended_status(ended: Ended) -> Option<Status>
    ensures { result ≡ ended_status ended }
{
    match ended {
        Ended::AtEnd => None,
        Ended::AtFault => Some(Status::ReadFault),
        Ended::AtLimit => Some(Status::TooLong),
    }
}

// The first rule that the configuration breaks which the source gives, if it breaks one.
#[tactic(auto, using(crate::proofs::Unfinished::taken_unfinished))]
fn flaw_from<S: Source>(alloc: Global, source: &mut S) -> Result<Option<ConfigRule>, Status>
    ensures ok { IfOk result (λ flaw. HasFlaw flaw (S.left source.old) (S.left source.new)) }
    ensures sound { OnOk result (S.faults source.new ≡ S.faults source.old) }
    ensures err { IfErr result (λ status. Unread status (S.left source.old) (S.left source.new) (S.faults source.old) (S.faults source.new)) }
    ensures reads { S.faults source.old ≤ S.faults source.new }
{
    let Ok((bytes, ended)) = take_bytes(alloc, source) else {
        return Err(Status::NoMemory);
    };
    if let Some(status) = ended_status(ended) {
        return Err(status);
    }
    match config_flaw(alloc, bytes.as_slice()) {
        Ok(flaw) => Ok(flaw),
        Err(_) => Err(Status::NoMemory),
    }
}

// The line that says which rule is broken first, if one is.
fn verdict_line(alloc: Global, flaw: Option<ConfigRule>) -> Result<String, AllocError>
    ensures { IfOk result (λ line. string_bytes line ≡ verdict_line flaw) }
{
    match flaw {
        None => String::from_str(alloc, "ok\n"),
        Some(ConfigRule::Info(rule)) => format!(in alloc; "refused I{rule}\n"),
        Some(ConfigRule::Program(rule)) => format!(in alloc; "refused L{rule}\n"),
    }
}

// How a check ends whose line was written.
fn status_of(flaw: Option<ConfigRule>) -> Status
    ensures { result ≡ status_of flaw }
{
    match flaw {
        None => Status::Done,
        Some(_) => Status::Refused,
    }
}

/// Reads a configuration up to its end, and writes whether it breaks a rule, and which one first.
#[tactic(auto, using(crate::proofs::Unfinished::flaw_unfinished))]
pub fn check<S: Source, O: Sink>(alloc: Global, source: &mut S, out: &mut O) -> Status
    ensures checks { Checks result
        (streams (S.left source.old) (O.sent out.old) (S.faults source.old) (O.faults out.old) (S.ends source.old))
        (streams (S.left source.new) (O.sent out.new) (S.faults source.new) (O.faults out.new) (S.ends source.new)) }
    ensures reads { S.faults source.old ≤ S.faults source.new }
    ensures writes { O.faults out.old ≤ O.faults out.new }
{
    let flaw = match flaw_from(alloc, source) {
        Ok(flaw) => flaw,
        Err(status) => return status,
    };
    let Ok(line) = verdict_line(alloc, flaw) else {
        return Status::NoMemory;
    };
    match out.write(line.as_bytes()) {
        Sent::All => status_of(flaw),
        Sent::Failed => Status::WriteFault,
    }
}
