// The packets' lines of a report, lane by lane.
ghost use Rattle.std.specs.Prelude.{◌≡◌, ◌<◌, ◌∷◌, ◌++◌, [], OnOk, codes, string_bytes};
ghost use Rattle.std.specs.List.{flat_map, join_with_byte};
ghost use Rattle.std.specs.Fmt.{decimal};
ghost use Rattle.p4_types.specs.declared.tape.Who.TheVariants as who;
ghost use Rattle.switch_spec.specs.Carrying.{is_who, records_of};
ghost use Rattle.run_spec.specs.ReportText.{who_word, fate_word, packet_line, packet_lines};
ghost use Rattle.tape_form.specs.LaneLines.{AreMarked, lane_lines, mark_place};

use crate::report::lines::AsLine;
use crate::report::marks::{LANES, lanes_of, mark_place};
use crate::report::words::{push_fate, push_list, push_option, push_who};
use p4_types::records::Record;
use p4_types::tape::Who;
use std::alloc::{AllocError, Global};

impl AsLine for Record {
    ghost text = { packet_line };

    fn push_line(&self, alloc: Global, out: &mut String) -> Result<(), AllocError> {
        push_front(out, self)?;
        push_list(alloc, out, self.outputs.as_slice())?;
        out.push_str(" ")?;
        push_list(alloc, out, self.cpu.as_slice())?;
        out.push_str(" ")?;
        push_option(alloc, out, &self.digest)?;
        out.push_str(" ")?;
        push_list(alloc, out, self.hits.as_slice())?;
        out.push_str("\n")?;
        Ok(())
    }
}

/// Adds the front of a packet's line, up to its outputs.
fn push_front(out: &mut String, packet: &Record) -> Result<(), AllocError>
    ensures { OnOk result (string_bytes out.new ≡ string_bytes out.old ++ join_with_byte 32 (codes "packet" ∷ who_word packet.now.who ∷ decimal packet.now.index ∷ decimal packet.now.steps ∷ fate_word packet.now.fate ∷ [] ∷ [])) }
{
    out.push_str("packet ")?;
    push_who(out, packet.who)?;
    let index = packet.index;
    let steps = packet.steps;
    write!(out, " {index} {steps} ")?;
    push_fate(out, packet.fate)?;
    out.push_str(" ")
}

/// Whether the two are one lane.
fn is_lane(lane: Who, who: Who) -> bool
    ensures { result ≡ is_who lane who }
{
    match (lane, who) {
        (Who::Controller(a), Who::Controller(b)) => a == b,
        (Who::Worker(a), Who::Worker(b)) => a == b,
        _ => false,
    }
}

/// Adds the lines of a lane's packets.
fn push_lane(
    alloc: Global,
    out: &mut String,
    lane: Who,
    records: &[Record],
) -> Result<(), AllocError>
    ensures { OnOk result (string_bytes out.new ≡ string_bytes out.old ++ flat_map packet_line (records_of lane records.now)) }
{
    for packet in records {
        if is_lane(lane, packet.who) {
            packet.push_line(alloc, out)?;
        }
    }
    Ok(())
}

/// Adds the lines of a lane's packets; a lane without a mark has none.
fn push_marked(
    alloc: Global,
    out: &mut String,
    marks: &[bool; LANES],
    lane: Who,
    records: &[Record],
) -> Result<(), AllocError>
    requires place { mark_place lane < 48 }
    requires marked { AreMarked marks.now records.now }
    ensures { OnOk result (string_bytes out.new ≡ string_bytes out.old ++ flat_map packet_line (records_of lane records.now)) }
{
    if !marks[mark_place(lane)] {
        return Ok(());
    }
    push_lane(alloc, out, lane, records)
}

/// Adds the lines of the packets of the workers' lanes.
fn push_workers(
    alloc: Global,
    out: &mut String,
    marks: &[bool; LANES],
    records: &[Record],
) -> Result<(), AllocError>
    requires { AreMarked marks.now records.now }
    ensures { OnOk result (string_bytes out.new ≡ string_bytes out.old ++ lane_lines who.Worker 0 16 records.now) }
{
    for lane in 0..16u16 {
        push_marked(alloc, out, marks, Who::Worker(lane), records)?;
    }
    Ok(())
}

/// Adds the lines of the packets of the controllers' lanes.
fn push_controllers(
    alloc: Global,
    out: &mut String,
    marks: &[bool; LANES],
    records: &[Record],
) -> Result<(), AllocError>
    requires { AreMarked marks.now records.now }
    ensures { OnOk result (string_bytes out.new ≡ string_bytes out.old ++ lane_lines who.Controller 0 32 records.now) }
{
    for lane in 0..32u16 {
        push_marked(alloc, out, marks, Who::Controller(lane), records)?;
    }
    Ok(())
}

/// Adds the lines of the packets.
pub(crate) fn push_packets(
    alloc: Global,
    out: &mut String,
    records: &[Record],
) -> Result<(), AllocError>
    ensures { OnOk result (string_bytes out.new ≡ string_bytes out.old ++ packet_lines records.now) }
{
    let marks = lanes_of(records);
    push_workers(alloc, out, &marks, records)?;
    push_controllers(alloc, out, &marks, records)?;
    Ok(())
}
