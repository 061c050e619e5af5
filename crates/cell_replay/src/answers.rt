//! Writes the line of each record of a script as soon as it is known.

ghost use Rattle.std.specs.Prelude.{◌≡◌, ◌++◌, ℕ, List, Some, IfOk, OnOk, if◌then◌else◌, string_bytes};
ghost use Rattle.std.specs.Io.KnownBytes.{Keeps};
ghost use Rattle.cell_types.specs.Answers.{answer_text};
ghost use Rattle.cell_replay.specs.Script as script;
ghost use Rattle.cell_replay.specs.Script.{line_of, start_line};
ghost use Rattle.cell_replay.specs.ScriptRecords.{ArePlain, ForLeft, GivesNext, HasLeft};
ghost use Rattle.cell_replay.specs.ScriptRecords.{WritesLater, WritesRows};
ghost use Rattle.cell_replay.specs.Writing.{WritesLine};

use crate::fault::ReplayFault;
use crate::lent::{LentReader, Origin};
use crate::records::Records;
use crate::request::read_request;
use crate::script_start::{Start, read_start};
use cell_rules::apply;
use cell_types::Answer;
use csv_rows::{MAX_RECORDS, Outcome, ScriptFault};
use std::alloc::{AllocError, Global};
use std::io::Write;
use text_io::{flush, write_bytes};

/// Writes the lines of the records that are left, the first of which is record 0. Returns how the
/// script ends.
pub fn answer_rows<L: LentReader, K: Origin, W: Write>(
    alloc: Global,
    records: &mut Records<'_, L, K>,
    writer: &mut W,
) -> Result<Outcome, ReplayFault>
    requires { ArePlain records.old }
    ensures written { ForLeft K.bytes L.left records.old (λ bytes left.
        WritesRows bytes left (W.contents writer.old) (W.contents writer.new) result) }
{
    if !records.next()? {
        return Ok(Outcome::Refused(if records.is_cut() {
            ScriptFault::Long
        } else {
            ScriptFault::NoStart
        }));
    }
    match read_start(records.row()) {
        Ok(start) => match write_start(alloc, &start, writer) {
            Ok(()) => answer_later(alloc, records, start, writer),
            Err(fault) => Err(fault),
        },
        Err(fault) => Ok(Outcome::Refused(fault)),
    }
}

/// Writes the line of record 0.
fn write_start<W: Write>(alloc: Global, start: &Start, writer: &mut W) -> Result<(), ReplayFault>
    ensures written { WritesLine (start_line start.now) (W.contents writer.old) (W.contents writer.new) result }
{
    let mut text = String::new(alloc);
    push_start(&mut text, start)?;
    match write_bytes(writer, text.as_str().as_bytes()) {
        Ok(()) => Ok(()),
        Err(_) => Err(ReplayFault::Write),
    }
}

/// Writes the lines of the records after record 0. Returns how the script ends.
fn answer_later<L: LentReader, K: Origin, W: Write>(
    alloc: Global,
    records: &mut Records<'_, L, K>,
    start: Start,
    writer: &mut W,
) -> Result<Outcome, ReplayFault>
    requires { ArePlain records.old }
    ensures written { ForLeft K.bytes L.left records.old (λ bytes left.
        WritesLater start.version start.state bytes left
        (W.contents writer.old) (W.contents writer.new) result) }
{
    let mut state = start.state;
    let mut line = String::new(alloc);
    'rows: for done in 0..MAX_RECORDS {
        if !next_record(records, writer)? {
            return Ok(end(records.is_cut()));
        }
        let Some(request) = read_request(start.version, records.row()) else {
            return Ok(Outcome::Refused(ScriptFault::BadRow(done + 1)));
        };
        let answer = apply(&mut state, request.machine, request.call);
        write_answer(&mut line, done + 1, state.stamp(), answer, writer)?;
    }
    if next_record(records, writer)? {
        return Ok(Outcome::Refused(ScriptFault::Long));
    }
    Ok(end(records.is_cut()))
}

/// Reads on to the next record. Returns whether there is one. Writes the lines that wait before,
/// unless a further line was read already.
fn next_record<L: LentReader, K: Origin, W: Write>(
    records: &mut Records<'_, L, K>,
    writer: &mut W,
) -> Result<bool, ReplayFault>
    requires { ArePlain records.old }
    ensures kept { Keeps (W.contents writer.old) (W.contents writer.new) }
    ensures plain { OnOk result (ArePlain records.new) }
    ensures gives { IfOk result (λ found. ForLeft K.bytes L.left records.old (λ bytes left.
        GivesNext found records.new bytes left (HasLeft L.left bytes records.new))) }
{
    if !records.has_line() && flush(writer).is_err() {
        return Err(ReplayFault::Write);
    }
    let found = records.next()?;
    Ok(found)
}

/// Writes the line of a record after record 0. `line` is room for it.
fn write_answer<W: Write>(
    line: &mut String,
    number: u32,
    stamp: u32,
    answer: Answer,
    writer: &mut W,
) -> Result<(), ReplayFault>
    ensures written { WritesLine (line_of number stamp (answer_text answer))
        (W.contents writer.old) (W.contents writer.new) result }
{
    line.clear();
    push_line(line, number, stamp, answer)?;
    match write_bytes(writer, line.as_str().as_bytes()) {
        Ok(()) => Ok(()),
        Err(_) => Err(ReplayFault::Write),
    }
}

/// How a script ends if each of its records is answered.
fn end(is_cut: bool) -> Outcome
    ensures { result ≡ script.end_of is_cut 0 0 }
{
    if is_cut {
        Outcome::Refused(ScriptFault::Long)
    } else {
        Outcome::Clean
    }
}

/// Adds the line of record 0.
fn push_start(text: &mut String, start: &Start) -> Result<(), AllocError>
    ensures { OnOk result (string_bytes text.new ≡ string_bytes text.old ++ start_line start.now) }
{
    let number = 0u32;
    let stamp = start.state.stamp();
    let word = start.version.word();
    let plates = start.state.plates();
    writeln!(text, "{number} {stamp} {word} {plates}")
}

/// Adds the line of a later record.
fn push_line(text: &mut String, number: u32, stamp: u32, answer: Answer) -> Result<(), AllocError>
    ensures { OnOk result (string_bytes text.new
        ≡ string_bytes text.old ++ line_of number stamp (answer_text answer)) }
{
    writeln!(text, "{number} {stamp} {answer}")
}
