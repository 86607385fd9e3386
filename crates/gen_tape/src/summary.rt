//! The summary of a report.
ghost use Rattle.std.specs.Prelude.{◌≡◌, ◌∷◌, ◌++◌, [], if◌then◌else◌, IfOk, OnOk, count_by, not, string_bytes};
ghost use Rattle.std.specs.Fmt.{decimal};
ghost use Rattle.run_spec.specs.Text.{line};
ghost use Rattle.gen_tape.specs.Summary.{is_sent, steps_of, summary, summary_lines};

use list_types::{ByteList, NoMemory};
use p4_types::journal::{Entry, Report};
use p4_types::records::{Fate, Record};
use std::alloc::{AllocError, Global};

// Whether a packet was sent.
fn is_sent(fate: Fate) -> bool
    ensures { result ≡ is_sent fate }
{
    match fate {
        Fate::Sent => true,
        Fate::Dropped(_) => false,
    }
}

// The steps of all calls, which are less than 2^64 calls of less than 2^64 steps.
fn steps_of(journal: &[Entry]) -> u128
    ensures { result ≡ steps_of journal.now }
{
    let mut steps = 0;
    for entry in journal {
        steps += entry.steps.len() as u128;
    }
    steps
}

fn one_if(is: bool) -> usize
    ensures { result ≡ (if is then 1 else 0) }
{
    if is { 1 } else { 0 }
}

// How many packets were sent.
fn sent_of(records: &[Record]) -> usize
    ensures { result ≡ count_by (λ one. is_sent one.fate) records.now }
{
    let mut count = 0;
    for one in records {
        count += one_if(is_sent(one.fate));
    }
    count
}

// How many were dropped.
fn dropped_of(records: &[Record]) -> usize
    ensures { result ≡ count_by (λ one. not (is_sent one.fate)) records.now }
{
    let mut count = 0;
    for one in records {
        count += one_if(!is_sent(one.fate));
    }
    count
}

// Adds a line of a word and a number.
fn push_line(out: &mut String, word: &str, number: u128) -> Result<(), AllocError>
    ensures { OnOk result (string_bytes out.new ≡ string_bytes out.old ++ line (word.now ∷ decimal number ∷ [])) }
{
    write!(out, "{word} {number}\n")
}

// The lines of a summary.
#[tactic(auto, unfolding(crate::specs::Summary::summary_lines))]
fn lines_of(
    alloc: Global,
    calls: u128,
    steps: u128,
    packets: u128,
    sent: u128,
    dropped: u128,
) -> Result<String, AllocError>
    ensures { IfOk result (λ text. string_bytes text ≡ summary_lines calls steps packets sent dropped) }
{
    let mut out = String::new(alloc);
    push_line(&mut out, "calls", calls)?;
    push_line(&mut out, "steps", steps)?;
    push_line(&mut out, "packets", packets)?;
    push_line(&mut out, "sent", sent)?;
    push_line(&mut out, "dropped", dropped)?;
    Ok(out)
}

/// How many calls, steps and packets a report has, and how many of the packets were sent and dropped: five lines, each a word, a number
/// and LF.
pub fn summary_text(alloc: Global, report: &Report) -> Result<ByteList, NoMemory>
    ensures { IfOk result (λ text. text ≡ summary report.now) }
{
    let records = report.records.as_slice();
    let calls = report.journal.len();
    let steps = steps_of(report.journal.as_slice());
    let sent = sent_of(records);
    let dropped = dropped_of(records);
    let text = lines_of(
        alloc,
        calls as u128,
        steps,
        records.len() as u128,
        sent as u128,
        dropped as u128,
    )?;
    Ok(ByteList::from_vec(text.into_bytes()))
}
