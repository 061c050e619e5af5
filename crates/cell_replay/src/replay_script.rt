//! Replays a script.

ghost use Rattle.std.specs.Prelude.{◌≡◌, ℕ, List, None, Some, IfOk, IfErr, IfSome, OnOk};
ghost use Rattle.std.specs.Io.KnownBytes.{Appends};
ghost use Rattle.cell_replay.specs.Faults.{Leaves};
ghost use Rattle.text_io.specs.Input.{TakesAtMost};
ghost use Rattle.cell_replay.specs.FirstVersion as first;
ghost use Rattle.cell_replay.specs.FirstVersion.{IsOfFirstVersion};
ghost use Rattle.cell_replay.specs.Held.{contents_of, note_of, output_of, taken_by};
ghost use Rattle.cell_replay.specs.Script.{max_bytes_read, script_outcome, script_text};
ghost use Rattle.cell_replay.specs.ScriptRecords.{ArePlain, HasRecords, records_used};
ghost use Rattle.cell_replay.specs.Writing.{WritesEnd, WritesScript};

use crate::answers::answer_rows;
use crate::buffered::BufferedWriter;
use crate::fault::ReplayFault;
use crate::lent::{LentReader, LentWriter, Origin};
use crate::limited::LimitedReader;
use crate::records::Records;
use csv_rows::{Outcome, push_end};
use std::alloc::Global;
use std::io::{Read, Write};
use std::marker::Brand;
use text_io::write_bytes;

/// Reads a script from the reader, makes its calls in order, and writes a line for each. If the
/// script is refused, a last line says why. The script is read record by record: a line is written
/// when the next record is read, and before the reader is waited for.
///
/// After `Read` or `Memory`, what was written is some first lines of the text, each whole; after
/// `Write`, a prefix of the text. At most 4,194,305 bytes are taken from the reader.
pub fn replay<R: Read, W: Write>(
    alloc: Global,
    reader: &mut R,
    writer: &mut W,
) -> Result<Outcome, ReplayFault>
    // The answer to the script was written, and nothing else.
    ensures text { OnOk result (IfSome (R.remaining reader.old) (λ bytes.
        Appends (W.contents writer.old) (W.contents writer.new) (script_text bytes))) }
    // If record 0 doesn't begin with `start2`, that text is the first version's.
    ensures first_version { OnOk result (IfSome (R.remaining reader.old) (λ bytes.
        IsOfFirstVersion bytes →
        Appends (W.contents writer.old) (W.contents writer.new) (first.script_text bytes))) }
    // The outcome is the one in that text.
    ensures outcome { IfOk result
        (λ o. IfSome (R.remaining reader.old) (λ bytes. o ≡ script_outcome bytes)) }

    // After a failed read, or out of memory: some first lines, each whole. After a failed write: a
    // prefix.
    ensures failed { IfErr result (λ fault. IfSome (R.remaining reader.old) (λ bytes.
        Leaves fault bytes (W.contents writer.old) (W.contents writer.new))) }

    // Reading stops one byte after the limit, however the replay ends.
    ensures taken { TakesAtMost (R.remaining reader.old) (R.remaining reader.new) max_bytes_read }
{
    let Replayed {
        input: _,
        output: _,
        ended,
    } = replay_lent::<&mut R, &mut W, Brand>(alloc, reader, writer);
    ended
}

/// A reader and a writer after a replay, and how it ended.
#[derive(Drop)]
struct Replayed<L, O> {
    pub input: L,
    pub output: O,
    pub ended: Result<Outcome, ReplayFault>,
}

/// Replays a script. `K` identifies the reader and the writer, which are returned.
fn replay_lent<L: LentReader, O: LentWriter, K: Origin>(
    alloc: Global,
    input: L,
    output: O,
) -> Replayed<L, O>
    requires bytes { L.left input ≡ K.bytes }
    requires reader { L.loan_of input ≡ K.reader_loan }
    requires written { O.contents output ≡ K.written }
    requires writer { O.loan_of output ≡ K.writer_loan }
    ensures reader { L.loan_of result.input ≡ L.loan_of input }
    ensures writer { O.loan_of result.output ≡ O.loan_of output }
    ensures taken { TakesAtMost (L.left input) (L.left result.input) max_bytes_read }
    ensures script { (bytes : List ℕ) → L.left input ≡ Some bytes →
        WritesScript bytes (O.contents output) (O.contents result.output) result.ended }
{
    let mut reader = LimitedReader::<L, K>::new(input);
    let mut writer = BufferedWriter::<O, K>::new(output);
    let answered = answer_script(alloc, &mut reader, &mut writer);
    let ended = finish(answered, &mut writer);
    Replayed {
        input: reader.into_input(),
        output: writer.into_output(),
        ended,
    }
}

/// Writes the lines that wait after a replay, unless the writer failed before.
fn finish<O: LentWriter, K: Origin>(
    answered: Result<Outcome, ReplayFault>,
    writer: &mut BufferedWriter<O, K>,
) -> Result<Outcome, ReplayFault>
    ensures script { (bytes : List ℕ) →
        WritesScript bytes K.written (contents_of O.contents writer.old) answered →
        WritesScript bytes K.written (O.contents (output_of writer.new)) result }
{
    if answered == Err(ReplayFault::Write) {
        return Err(ReplayFault::Write);
    }
    match writer.flush_out() {
        Ok(()) => answered,
        Err(_) => Err(ReplayFault::Write),
    }
}

/// Reads a script and writes its text.
fn answer_script<L: LentReader, K: Origin, W: Write>(
    alloc: Global,
    input: &mut LimitedReader<L, K>,
    writer: &mut W,
) -> Result<Outcome, ReplayFault>
    requires taken { taken_by input.old ≡ 0 }
    requires unnoted { note_of input.old ≡ None }
    ensures written { (bytes : List ℕ) → K.bytes ≡ Some bytes →
        WritesScript bytes (W.contents writer.old) (W.contents writer.new) result }
{
    let mut records = Records::new(alloc, input);
    answer_records(alloc, &mut records, writer)
}

/// Writes the text of the records that a reader has.
fn answer_records<L: LentReader, K: Origin, W: Write>(
    alloc: Global,
    records: &mut Records<'_, L, K>,
    writer: &mut W,
) -> Result<Outcome, ReplayFault>
    requires plain { ArePlain records.old }
    ensures written { (bytes : List ℕ) → K.bytes ≡ Some bytes →
        HasRecords L.left records.old (records_used bytes) →
        WritesScript bytes (W.contents writer.old) (W.contents writer.new) result }
{
    records.begin()?;
    match answer_rows(alloc, records, writer) {
        Ok(outcome) => write_end(alloc, outcome, writer),
        Err(fault) => Err(fault),
    }
}

/// Writes the last line of a script that is refused.
fn write_end<W: Write>(
    alloc: Global,
    outcome: Outcome,
    writer: &mut W,
) -> Result<Outcome, ReplayFault>
    ensures written { WritesEnd outcome (W.contents writer.old) (W.contents writer.new) result }
{
    let mut line = String::new(alloc);
    push_end(&mut line, outcome)?;
    match write_bytes(writer, line.as_str().as_bytes()) {
        Ok(()) => Ok(outcome),
        Err(_) => Err(ReplayFault::Write),
    }
}
