// The journal's lines of a report, call by call.
ghost use Rattle.std.specs.Prelude.{◌≡◌, ◌<◌, ◌+◌, ◌-◌, ◌^◌, ◌++◌, ℕ, List, IfOk, OnOk, length, sum_by, string_bytes};
ghost use Rattle.std.specs.List.{flat_map};
ghost use Rattle.run_spec.specs.ReportText.{notice_line, reply_line, step_line, step_lines, entry_lines, journal_lines};

use crate::report::words::{kind_name, push_list, push_message};
use p4_types::calls::Notice;
use p4_types::journal::{Entry, Step};
use std::alloc::{AllocError, Global};

/// Adds the line of a notice.
fn push_notice(alloc: Global, out: &mut String, notice: &Notice) -> Result<(), AllocError>
    ensures { OnOk result (string_bytes out.new ≡ string_bytes out.old ++ notice_line notice.now) }
{
    let lane = notice.lane;
    write!(out, "notice {lane} ")?;
    push_message(alloc, out, &notice.message)?;
    out.push_str("\n")
}

/// Adds the lines of a call's notices.
fn push_notices(alloc: Global, out: &mut String, notices: &[Notice]) -> Result<(), AllocError>
    ensures { OnOk result (string_bytes out.new ≡ string_bytes out.old ++ flat_map notice_line notices.now) }
{
    for notice in notices {
        push_notice(alloc, out, notice)?;
    }
    Ok(())
}

/// Adds the line of the step of this number, of the lane's call.
fn push_step(
    out: &mut String,
    number: u128,
    lane: u16,
    call: u64,
    step: Step,
) -> Result<(), AllocError>
    ensures { OnOk result (string_bytes out.new ≡ string_bytes out.old ++ step_line number lane call step) }
{
    let kind = kind_name(step.kind);
    let changes = step.changes;
    write!(out, "step {number} {lane} {call} {kind} {changes}\n")
}

/// Adds the lines of a call's steps, which come after so many; answers how many there are then.
fn push_steps(
    out: &mut String,
    before: u128,
    lane: u16,
    call: u64,
    steps: &[Step],
) -> Result<u128, AllocError>
    requires { before < 2 ^ 128 - 2 ^ 64 }
    ensures text { OnOk result (string_bytes out.new ≡ string_bytes out.old ++ step_lines before lane call steps.now) }
    ensures count { IfOk result (λ after. after ≡ before + length steps.now) }
{
    let mut number = before;
    for step in steps {
        number += 1;
        push_step(out, number, lane, call, *step)?;
    }
    Ok(number)
}

/// Adds the line of a call's reply.
fn push_reply(alloc: Global, out: &mut String, entry: &Entry) -> Result<(), AllocError>
    ensures { OnOk result (string_bytes out.new ≡ string_bytes out.old ++ reply_line entry.now) }
{
    let lane = entry.lane;
    let call = entry.call;
    let steps = entry.reply.steps;
    let code = entry.reply.code.number();
    write!(out, "reply {lane} {call} {steps} {code} ")?;
    push_list(alloc, out, entry.reply.messages.as_slice())?;
    out.push_str("\n")
}

/// Adds the lines of a call whose steps come after so many; answers how many there are then.
fn push_entry(
    alloc: Global,
    out: &mut String,
    before: u128,
    entry: &Entry,
) -> Result<u128, AllocError>
    requires { before < 2 ^ 128 - 2 ^ 64 }
    ensures text { OnOk result (string_bytes out.new ≡ string_bytes out.old ++ entry_lines before entry.now) }
    ensures count { IfOk result (λ after. after ≡ before + length entry.now.steps) }
    ensures few { length entry.now.steps < 2 ^ 64 }
{
    let after = push_steps(out, before, entry.lane, entry.call, entry.steps.as_slice())?;
    push_notices(alloc, out, entry.reply.notices.as_slice())?;
    push_reply(alloc, out, entry)?;
    Ok(after)
}

/// Adds the journal's lines; answers how many steps it has. They are less than 2^64 calls of less than 2^64 steps.
pub(crate) fn push_journal(
    alloc: Global,
    out: &mut String,
    journal: &[Entry],
) -> Result<u128, AllocError>
    ensures text { OnOk result (string_bytes out.new ≡ string_bytes out.old ++ journal_lines 0 journal.now) }
    ensures count { IfOk result (λ steps. steps ≡ sum_by (λ entry. length entry.steps) journal.now) }
{
    let mut steps = 0;
    for entry in journal {
        steps = push_entry(alloc, out, steps, entry)?;
    }
    Ok(steps)
}
