// The words of a report's lines.
ghost use Rattle.std.specs.Prelude.{◌≡◌, ◌++◌, ℕ, List, OnOk, string_bytes};
ghost use Rattle.run_spec.specs.Text.{hex_word, list_word, option_word};
ghost use Rattle.run_spec.specs.ReportText.{kind_word, who_word, reason_number, fate_word, output_word, cpu_word, sample_word, mark_word};
ghost use Rattle.p4v1_wire.specs.Rows.{fields_by};
ghost use Rattle.wire_fields.specs.Spelling.{spelling};

use list_types::ByteList;
use p4_types::journal::StepKind;
use p4_types::records::{CpuMessage, DropReason, Fate, HitMark, Output, Sample};
use p4_types::tape::Who;
use p4v1_wire::{Writable, write_message};
use std::alloc::{AllocError, Global};

/// What a report shows as a word.
pub(crate) trait AsWord {
    ghost word: { Self → List ℕ };

    /// Adds the word.
    fn push_word(&self, alloc: Global, out: &mut String) -> Result<(), AllocError>
        ensures { OnOk result (string_bytes out.new ≡ string_bytes out.old ++ word self.now) };
}

impl AsWord for ByteList {
    ghost word = { hex_word };

    fn push_word(&self, alloc: Global, out: &mut String) -> Result<(), AllocError> {
        push_hex(alloc, out, self.as_slice())
    }
}

impl AsWord for Output {
    ghost word = { output_word };

    fn push_word(&self, alloc: Global, out: &mut String) -> Result<(), AllocError> {
        let port = self.port;
        write!(out, "{port}:")?;
        push_hex(alloc, out, self.bytes.as_slice())
    }
}

impl AsWord for CpuMessage {
    ghost word = { cpu_word };

    fn push_word(&self, alloc: Global, out: &mut String) -> Result<(), AllocError> {
        match self.lane {
            Some(lane) => write!(out, "{lane}:")?,
            None => out.push_str("-:")?,
        }
        push_message(alloc, out, &self.packet)
    }
}

impl AsWord for Sample {
    ghost word = { sample_word };

    fn push_word(&self, alloc: Global, out: &mut String) -> Result<(), AllocError> {
        let digest = self.digest;
        write!(out, "{digest}:")?;
        push_message(alloc, out, &self.content)
    }
}

impl AsWord for HitMark {
    ghost word = { mark_word };

    fn push_word(&self, _alloc: Global, out: &mut String) -> Result<(), AllocError> {
        match *self {
            HitMark::Entry { table, seq, .. } => write!(out, "{table}:{seq}"),
            HitMark::Cell { slot } => write!(out, "@{slot}"),
        }
    }
}

/// Adds bytes in hex, or a dot for none.
pub(crate) fn push_hex(alloc: Global, out: &mut String, bytes: &[u8]) -> Result<(), AllocError>
    ensures { OnOk result (string_bytes out.new ≡ string_bytes out.old ++ hex_word bytes.now) }
{
    if bytes.is_empty() {
        return out.push_str(".");
    }
    let digits = hex::encode(alloc, bytes)?;
    out.push_str(digits.as_str())
}

/// Adds the canonical bytes of a message in hex, or a dot for none.
pub(crate) fn push_message<M: Writable>(
    alloc: Global,
    out: &mut String,
    message: &M,
) -> Result<(), AllocError>
    ensures { OnOk result (string_bytes out.new ≡ string_bytes out.old ++ hex_word (spelling (fields_by M.rows message.now))) }
{
    let Ok(bytes) = write_message(alloc, message) else {
        return Err(AllocError);
    };
    push_hex(alloc, out, bytes.as_slice())
}

/// Adds the items' words, joined by commas, or a dash for none.
pub(crate) fn push_list<T: AsWord>(
    alloc: Global,
    out: &mut String,
    items: &[T],
) -> Result<(), AllocError>
    ensures { OnOk result (string_bytes out.new ≡ string_bytes out.old ++ list_word T.word items.now) }
{
    let [first, rest @ ..] = items else {
        return out.push_str("-");
    };
    first.push_word(alloc, out)?;
    for item in rest {
        out.push_str(",")?;
        item.push_word(alloc, out)?;
    }
    Ok(())
}

/// Adds the item's word, or a dash for none.
pub(crate) fn push_option<T: AsWord>(
    alloc: Global,
    out: &mut String,
    item: &Option<T>,
) -> Result<(), AllocError>
    ensures { OnOk result (string_bytes out.new ≡ string_bytes out.old ++ option_word T.word item.now) }
{
    match item {
        Some(item) => item.push_word(alloc, out),
        None => out.push_str("-"),
    }
}

/// The word of a kind of step.
pub(crate) fn kind_name(kind: StepKind) -> &'static str
    ensures { result.now ≡ kind_word kind }
{
    match kind {
        StepKind::Arbitrate => "arbitrate",
        StepKind::Leave => "leave",
        StepKind::Change => "change",
        StepKind::Batch => "batch",
        StepKind::Save => "save",
        StepKind::Commit => "commit",
    }
}

/// Adds the word of a lane.
pub(crate) fn push_who(out: &mut String, who: Who) -> Result<(), AllocError>
    ensures { OnOk result (string_bytes out.new ≡ string_bytes out.old ++ who_word who) }
{
    match who {
        Who::Controller(lane) => write!(out, "c{lane}"),
        Who::Worker(lane) => write!(out, "w{lane}"),
    }
}

/// The number of a reason for which a packet was dropped.
fn reason_number(reason: DropReason) -> u8
    ensures { result ≡ reason_number reason }
{
    reason as u8
}

/// Adds the word of a packet's fate.
pub(crate) fn push_fate(out: &mut String, fate: Fate) -> Result<(), AllocError>
    ensures { OnOk result (string_bytes out.new ≡ string_bytes out.old ++ fate_word fate) }
{
    match fate {
        Fate::Sent => out.push_str("sent"),
        Fate::Dropped(reason) => {
            let number = reason_number(reason);
            write!(out, "drop{number}")
        }
    }
}
