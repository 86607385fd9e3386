// The lines of a report that stand alone.
ghost use Rattle.std.specs.Prelude.{◌≡◌, ◌++◌, ◌∷◌, [], ℕ, List, OnOk, codes, string_bytes};
ghost use Rattle.std.specs.List.{flat_map};
ghost use Rattle.std.specs.Fmt.{decimal};
ghost use Rattle.run_spec.specs.Text.{line};
ghost use Rattle.run_spec.specs.ReportText.{sent_line, count_line, cell_line};

use crate::report::words::push_hex;
use list_types::ByteList;
use p4_types::journal::{CellLine, CountLine};
use std::alloc::{AllocError, Global};

/// What a report shows as a line.
pub(crate) trait AsLine {
    ghost text: { Self → List ℕ };

    /// Adds the line.
    fn push_line(&self, alloc: Global, out: &mut String) -> Result<(), AllocError>
        ensures { OnOk result (string_bytes out.new ≡ string_bytes out.old ++ text self.now) };
}

impl AsLine for CountLine {
    ghost text = { count_line };

    fn push_line(&self, _alloc: Global, out: &mut String) -> Result<(), AllocError> {
        let CountLine {
            seq,
            table,
            packets,
            bytes,
        } = *self;
        write!(out, "count {seq} {table} {packets} {bytes}\n")
    }
}

impl AsLine for CellLine {
    ghost text = { cell_line };

    fn push_line(&self, _alloc: Global, out: &mut String) -> Result<(), AllocError> {
        let CellLine {
            slot,
            counter,
            index,
            packets,
            bytes,
        } = *self;
        write!(out, "cell {slot} {counter} {index} {packets} {bytes}\n")
    }
}

impl AsLine for (u16, ByteList) {
    ghost text = { sent_line };

    fn push_line(&self, alloc: Global, out: &mut String) -> Result<(), AllocError> {
        let lane = self.0;
        write!(out, "sent {lane} ")?;
        push_hex(alloc, out, self.1.as_slice())?;
        out.push_str("\n")
    }
}

/// Adds the lines of the items in their order.
pub(crate) fn push_lines<T: AsLine>(
    alloc: Global,
    out: &mut String,
    items: &[T],
) -> Result<(), AllocError>
    ensures { OnOk result (string_bytes out.new ≡ string_bytes out.old ++ flat_map T.text items.now) }
{
    for item in items {
        item.push_line(alloc, out)?;
    }
    Ok(())
}

/// Adds the last line, of so many steps and packets.
pub(crate) fn push_end(out: &mut String, steps: u128, packets: usize) -> Result<(), AllocError>
    ensures { OnOk result (string_bytes out.new ≡ string_bytes out.old ++ line (codes "end" ∷ decimal steps ∷ decimal packets ∷ [])) }
{
    write!(out, "end {steps} {packets}\n")
}
