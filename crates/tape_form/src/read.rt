// A tape from a source.
ghost use Rattle.std.specs.Prelude.{◌≡◌, ◌≤◌, ℕ, List, Ok, Err, IfOk, IfErr, OnOk, OnErr, IsErrOf, All, length, [], ◌∷◌, ◌++◌};
ghost use Rattle.std.specs.List.{filter_map, list_any, AllByRecursion};
ghost use Rattle.tape_spec.specs.Items.{IsItem, bytes_of, is_piece, record_in};
ghost use Rattle.run_spec.specs.Tape.{IsRecord};
ghost use Rattle.sw_edge.specs.Counts.{HasCause};
ghost use Rattle.tape_form.specs.TapeRead.{InLimits, outcome, kept_answer, when_short, when_bad, answer_of, IsDue, EndsWithin, EndsSo, EndsSoundly, EndsMet, IsTakenFrom, IsReadFrom, IsWholeTape, IsUnfinished, HidesNothing, IsBadAt, IsTooLong, IsAnswerToTape};

use crate::fault::{Ended, TapeFault};
use crate::limits::{MAX_RECORDS, MAX_TAPE};
use crate::parse::{Flaw, tape_at};
use list_types::{List, NoMemory, Refusal};
use p4_types::tape::TapeRecord;
use std::alloc::{AllocError, Global};
use std::marker::Model;
use sw_edge::{Got, Source};
use tape_spec::TapeItem;

/// How many bytes are read at once.
const PIECE: usize = 65_536;

/// A tape: its items in their order, in the grammar and within the limits.
#[derive(Drop)]
pub struct Tape {
    items: Vec<TapeItem>,
}

impl Model for Tape {
    ghost use Rattle.std.specs.Prelude.{List};
    ghost use Rattle.tape_spec.specs.declared.item.TapeItem.{TapeItem};
    ghost use Rattle.tape_form.specs.TapeRead.{InLimits};

    ghost Value = { List TapeItem };

    ghost view = { λ tape. tape.items.items };

    ghost invariant = { λ tape. InLimits tape.items.items };
}

impl Tape {
    /// Reads a tape from a source, up to its end, or one byte more than a tape may have. Answered is
    /// the first of a bad byte, a limit and a fault, in the order of the bytes.
    pub fn read<S: Source>(alloc: Global, source: &mut S) -> Result<Tape, Refusal<TapeFault>>
        ensures exact { IsReadFrom (S.left source.old) (S.left source.new) (S.faults source.old) (S.faults source.new) result }
        ensures tape { IfOk result (λ tape. IsWholeTape (S.left source.old) (S.left source.new) tape) }
        ensures bad { (place : ℕ) → IsErrOf result (Refusal.For (TapeFault.Bad place)) → IsBadAt (S.left source.old) (S.left source.new) place }
        ensures too_long { IsErrOf result (Refusal.For TapeFault.TooLong) → IsTooLong (S.left source.old) (S.left source.new) }
        ensures sound { OnOk result (S.faults source.new ≡ S.faults source.old) }
        ensures no_memory { IsErrOf result Refusal.NoMemory → IsUnfinished (S.left source.old) (S.left source.new) (S.faults source.old) (S.faults source.new) }
        ensures hides_nothing { IsErrOf result Refusal.NoMemory → HidesNothing (S.left source.old) (S.left source.new) (S.ends source.old) (S.ends source.new) }
        ensures fault { HasCause (S.faults source.old) (S.faults source.new) (IsErrOf result (Refusal.For TapeFault.Fault)) }
        ensures complete { (records : List TapeItem) → InLimits records → S.left source.old ≡ Some (bytes_of records) → IsAnswerToTape records result }
    {
        read_from(alloc, source)
    }

    /// The items in their order, the end record left out.
    #[tactic(auto, using(crate::proofs::Standing::all_of))]
    pub fn items(&self) -> &[TapeItem]
        ensures value { result.now ≡ self.now }
        ensures limits { InLimits self.now }
        ensures each { All IsItem self.now }
    {
        self.items.as_slice()
    }

    /// Whether a lane of it brings bytes.
    pub fn brings_bytes(&self) -> bool
        ensures { result ≡ list_any is_piece self.now }
    {
        self.items
            .as_slice()
            .iter()
            .any(|item| matches!(item, TapeItem::Bytes { .. }))
    }

    /// The records of a tape of which no lane brings bytes, and of another those of its items that are records. They are not copied.
    #[tactic(auto, using(crate::proofs::Standing::kept_more, crate::proofs::Standing::records_each, crate::proofs::Standing::records_few))]
    pub fn into_records(self, alloc: Global) -> Result<List<TapeRecord>, NoMemory>
        ensures kept { IfOk result (λ records. records ≡ filter_map record_in self) }
        ensures each { IfOk result (AllByRecursion IsRecord) }
        ensures number { IfOk result (λ records. length records ≤ MAX_RECORDS) }
    {
        let mut records = Vec::new(alloc);
        for item in self.items {
            keep_record(&mut records, item)?;
        }
        Ok(List::from_vec(records))
    }
}

/// Keeps an item, if it is a record.
fn keep_record(records: &mut Vec<TapeRecord>, item: TapeItem) -> Result<(), AllocError>
    ensures { OnOk result (records.new.items ≡ records.old.items ++ filter_map record_in (item ∷ [])) }
{
    if let TapeItem::Record(record) = item {
        records.push(record)?;
    }
    Ok(())
}

/// Room for what is read at once.
fn piece_of(alloc: Global) -> Result<Vec<u8>, AllocError>
    ensures { IfOk result (λ piece. length piece.items ≡ PIECE) }
{
    vec![in alloc; 0u8; PIECE]
}

/// All bytes that are left, up to one more than a tape may have, and how their reading ended.
pub fn take_bytes<S: Source>(alloc: Global, source: &mut S) -> Result<(Vec<u8>, Ended), AllocError>
    ensures ok { IfOk result (λ x. IsTakenFrom (S.left source.old) (S.left source.new) x.0.items) }
    ensures ended { IfOk result (λ x. EndsSo x.1 (S.left source.new) (S.faults source.old) (S.faults source.new)) }
    ensures soundly { IfOk result (λ x. EndsSoundly x.1 (S.left source.new) (S.faults source.old) (S.faults source.new)) }
    ensures within { IfOk result (λ x. EndsWithin x.1 x.0.items) }
    ensures no_memory { IfErr result (λ _. IsUnfinished (S.left source.old) (S.left source.new) (S.faults source.old) (S.faults source.new)) }
    ensures met { IfOk result (λ x. EndsMet x.1 (S.ends source.old) (S.ends source.new)) }
    ensures unmet { OnErr result (S.ends source.new ≡ S.ends source.old) }
    ensures later { S.faults source.old ≤ S.faults source.new }
{
    let mut bytes = Vec::new(alloc);
    let mut piece = piece_of(alloc)?;
    let buffer = piece.as_mut_slice();
    while bytes.len() <= MAX_TAPE {
        let room = PIECE.min(MAX_TAPE + 1 - bytes.len());
        // before the read, so that nothing that was read is lost
        bytes.reserve(room)?;
        match source.read(&mut buffer[..room]) {
            Got::Bytes(count) => bytes.extend_from_slice(&buffer[..count]).unwrap(),
            Got::End => return Ok((bytes, Ended::AtEnd)),
            Got::Failed => return Ok((bytes, Ended::AtFault)),
        }
    }
    Ok((bytes, Ended::AtLimit))
}

/// The answer where the bytes are a tape, whose records are kept, unless there was no memory for them.
fn whole(kept: Result<Vec<TapeItem>, AllocError>, ended: Ended) -> Result<Tape, Refusal<TapeFault>>
    requires { ended ≡ Ended.AtEnd → IfOk kept (λ records. InLimits records.items) }
    ensures { kept_answer (λ records. records.items) ended kept ≡ result }
{
    match ended {
        Ended::AtEnd => Ok(Tape { items: kept? }),
        Ended::AtFault => Err(Refusal::For(TapeFault::Fault)),
        Ended::AtLimit => Err(Refusal::For(TapeFault::TooLong)),
    }
}

/// The answer where the bytes begin a tape, but are none.
fn short(taken: usize, ended: Ended) -> Result<Tape, Refusal<TapeFault>>
    ensures { when_short taken ended ≡ result }
{
    match ended {
        Ended::AtEnd => Err(Refusal::For(TapeFault::Bad(taken as u64))),
        Ended::AtFault => Err(Refusal::For(TapeFault::Fault)),
        Ended::AtLimit => Err(Refusal::For(TapeFault::TooLong)),
    }
}

/// The answer to a bad byte.
fn bad(place: usize, ended: Ended) -> Result<Tape, Refusal<TapeFault>>
    ensures { when_bad place ended ≡ result }
{
    match ended {
        Ended::AtLimit if place == MAX_TAPE => Err(Refusal::For(TapeFault::TooLong)),
        _ => Err(Refusal::For(TapeFault::Bad(place as u64))),
    }
}

/// The answer to what so many bytes were read as, and to whether the records are kept.
fn answer_of(
    taken: usize,
    ended: Ended,
    read: Result<Result<Vec<TapeItem>, AllocError>, Flaw>,
) -> Result<Tape, Refusal<TapeFault>>
    requires whole { ended ≡ Ended.AtEnd → IfOk read (λ kept. IfOk kept (λ records. InLimits records.items)) }
    requires within { (left : ℕ) → IsErrOf read (Flaw.Bad left) → left ≤ taken }
    ensures { answer_of (λ records. records.items) taken ended read ≡ result }
{
    match read {
        Ok(kept) => whole(kept, ended),
        Err(Flaw::TooMany(_)) => Err(Refusal::For(TapeFault::TooLong)),
        Err(Flaw::Bad(0)) => short(taken, ended),
        Err(Flaw::Bad(left)) => bad(taken - left, ended),
    }
}

/// The tape that the bytes are, or the answer to them.
fn judge(alloc: Global, bytes: &[u8], ended: Ended) -> Result<Tape, Refusal<TapeFault>>
    requires { EndsWithin ended bytes.now }
    ensures { IsDue result (outcome bytes.now ended) }
{
    answer_of(bytes.len(), ended, tape_at(alloc, MAX_RECORDS, bytes))
}

/// The tape that the source gives, or the answer to what it gives.
fn read_from<S: Source>(alloc: Global, source: &mut S) -> Result<Tape, Refusal<TapeFault>>
    ensures hides_nothing { IsErrOf result Refusal.NoMemory → HidesNothing (S.left source.old) (S.left source.new) (S.ends source.old) (S.ends source.new) }
    ensures exact { IsReadFrom (S.left source.old) (S.left source.new) (S.faults source.old) (S.faults source.new) result }
    ensures later { S.faults source.old ≤ S.faults source.new }
{
    let (bytes, ended) = take_bytes(alloc, source)?;
    judge(alloc, bytes.as_slice(), ended)
}
