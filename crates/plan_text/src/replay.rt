//! Answers a script.
ghost use Rattle.std.specs.Prelude.{◌≡◌, ◌++◌, ◌<◌, List, OnOk, IfOk, string_bytes};
ghost use Rattle.csv.specs.Records.{fields_of};
ghost use Rattle.csv_rows.specs.Rows.{HasRows, IsPlain, Row};
ghost use Rattle.plan_text.specs.Answers.{answer_text};
ghost use Rattle.plan_text.specs.Script as spec;

use crate::NamedPlan;
use crate::reason::why_no_call;
use crate::request::read_request;
use crate::script::ScriptAnswers;
use crate::start::{plates, read_start};
use csv::{ByteRecord, Reader, ReaderBuilder};
use csv_rows::{MAX_RECORDS, Outcome, ScriptFault, push_end, read_row};
use plan_rules::{State, apply};
use plan_types::Answer;
use std::alloc::{AllocError, Global};
use std::io::Read;
use text_io::InputFault;

/// Answers a script: a line for each record, and if the script is refused, the line of the fault. Before the fault of a
/// record that is no call stands a line that says why.
///
/// `Read` or `Memory`: there is no answer.
pub fn answer_script(
    alloc: Global,
    named: &NamedPlan,
    script: &[u8],
) -> Result<ScriptAnswers, InputFault>
    ensures { IfOk result (λ answered. answered ≡ spec.script_answers named.now script.now) }
{
    let mut reader = ReaderBuilder::new()
        .has_headers(false)
        .flexible(true)
        .from_reader(alloc, script);
    answer_rows(alloc, named, &mut reader)
}

/// Answers the records that a reader has left, the first of which is record 0.
fn answer_rows<R: Read>(
    alloc: Global,
    named: &NamedPlan,
    reader: &mut Reader<R>,
) -> Result<ScriptAnswers, InputFault>
    requires { IsPlain reader.old }
    ensures { IfOk result (λ answered. (rows : List Row) → HasRows R.remaining reader.old rows →
        answered ≡ spec.rows_answers named.now rows) }
{
    let mut row = ByteRecord::new(alloc);
    let mut text = String::new(alloc);
    if !read_row(reader, &mut row)? {
        return end(text, Outcome::Refused(ScriptFault::NoStart));
    }
    match read_start(named, &row) {
        Ok(state) => {
            push_start(&mut text, &state)?;
            answer_later(alloc, named, reader, state, text)
        }
        Err(fault) => end(text, Outcome::Refused(fault)),
    }
}

/// Answers the records after record 0, from a state, after the lines in `text`.
fn answer_later<R: Read>(
    alloc: Global,
    named: &NamedPlan,
    reader: &mut Reader<R>,
    start: State,
    before: String,
) -> Result<ScriptAnswers, InputFault>
    requires { IsPlain reader.old }
    ensures { IfOk result (λ answered. (rows : List Row) → HasRows R.remaining reader.old rows →
        answered ≡ spec.with_text (string_bytes before) (spec.answers_of named.now 0 start rows)) }
{
    let mut state = start;
    let mut text = before;
    let mut row = ByteRecord::new(alloc);
    'rows: for done in 0..MAX_RECORDS {
        if !read_row(reader, &mut row)? {
            return end(text, Outcome::Clean);
        }
        let Some(request) = read_request(named, &row) else {
            return end_at(text, named, &row, done + 1);
        };
        let answer = apply(named.plan(), &mut state, request.machine, request.call);
        push_line(&mut text, named, done + 1, state.stamp, answer)?;
    }
    if read_row(reader, &mut row)? {
        return end(text, Outcome::Refused(ScriptFault::Long));
    }
    end(text, Outcome::Clean)
}

/// The answers with the line of a fault, if the script is refused.
fn end(before: String, outcome: Outcome) -> Result<ScriptAnswers, InputFault>
    ensures { IfOk result (λ answered. answered
        ≡ spec.with_text (string_bytes before) (spec.ends outcome)) }
{
    let mut text = before;
    push_end(&mut text, outcome)?;
    Ok(ScriptAnswers { text, outcome })
}

/// The answers with why a record is no call, and the line of that fault.
fn end_at(
    before: String,
    named: &NamedPlan,
    row: &ByteRecord,
    number: u32,
) -> Result<ScriptAnswers, InputFault>
    ensures { IfOk result (λ answered. answered ≡ spec.with_text (string_bytes before)
        (spec.row_refused named.now number (fields_of row.now))) }
{
    let mut text = before;
    let why = why_no_call(named, row);
    writeln!(text, "record {number}, {why}")?;
    end(text, Outcome::Refused(ScriptFault::BadRow(number)))
}

/// Adds the line of record 0.
fn push_start(text: &mut String, state: &State) -> Result<(), AllocError>
    ensures { OnOk result
        (string_bytes text.new ≡ string_bytes text.old ++ spec.start_line state.now) }
{
    let stamp = state.stamp;
    let plates = plates(state);
    writeln!(text, "0 {stamp} start {plates}")
}

/// Adds the line of a later record.
fn push_line(
    text: &mut String,
    named: &NamedPlan,
    number: u32,
    stamp: u32,
    answer: Answer,
) -> Result<(), AllocError>
    ensures { OnOk result (string_bytes text.new
        ≡ string_bytes text.old ++ spec.line_of number stamp (answer_text named.now answer)) }
{
    write!(text, "{number} {stamp} ")?;
    named.push_answer(text, answer)?;
    text.push_str("\n")
}
