//! The program with given arguments, and tables of what it answers.
//!
//! A table is one text, so a row costs the prover nothing. A line of dashes stands between two rows. A row has lines,
//! each with a status, a colon and words; after arrows the input, and the text that each of these lines is answered
//! with; and perhaps, after another arrow, what the row shows.
//!
//! In such a text `[..]` stands for any text. Between two `@` stand a number, a blank and a part of an input or of a
//! text: the part is there N times, where N is the number, and `#` in it is the number of each, from 1 on.

use plan_app::serve::start;
use std::alloc::{AllocError, Global};
use std::io::{Read, Write};
use std::process::Abort;
use std::str;
use std::sync::Wait;
use std::thread::Threads;
use std::time::Clock;
use test_doubles::{Given, arguments_in, count_parts, part};

/// The exit status of the program that is started with these arguments. It has no clauses, so the rows don't carry
/// those of `start`.
pub fn run<T: Threads + Wait + Clock + Sync, R: Read, W: Write>(
    rt: &T,
    alloc: Global,
    arguments: &[&[u8]],
    reader: &mut R,
    writer: &mut W,
) -> u8 {
    start(rt, alloc, &Given { arguments }, reader, writer)
}

/// The status and the text of a line of words and an input.
pub fn print_run<T: Threads + Wait + Clock + Sync>(
    rt: &T,
    alloc: Global,
    line: &str,
    input: &str,
) -> Result<(u8, Vec<u8>), AllocError> {
    let arguments = arguments_in(alloc, line)?;
    let mut written = Vec::new(alloc);
    let mut reader = input.as_bytes();
    let status = run(rt, alloc, arguments.as_slice(), &mut reader, &mut written);
    Ok((status, written))
}

/// Stands for any text.
const ANY: &str = "[..]";

/// Whether a text is the wanted one.
fn is_like(text: &str, wanted: &str) -> bool {
    let Some(mut rest) = text.strip_prefix(part(wanted, ANY, 0)) else {
        return false;
    };
    let count = count_parts(wanted, ANY);
    for number in 2..count {
        let Some((_, after)) = rest.split_once(part(wanted, ANY, number - 1)) else {
            return false;
        };
        rest = after;
    }
    if count < 2 {
        return rest.is_empty();
    }
    rest.ends_with(part(wanted, ANY, count - 1))
}

/// Whether the program answers a line, which has a status, a colon and words, with the wanted text.
fn is_line<T: Threads + Wait + Clock + Sync>(
    rt: &T,
    alloc: Global,
    line: &str,
    input: &str,
    wanted: &str,
) -> bool {
    let Ok((status, written)) = print_run(rt, alloc, part(line, ": ", 1), input) else {
        return false;
    };
    match str::from_utf8(written.as_slice()) {
        Ok(text) => part(line, ": ", 0).parse().unwrap_or(9) == status && is_like(text, wanted),
        Err(_) => false,
    }
}

/// Adds rows, with this number for `#`.
fn push_numbered(text: &mut String, rows: &str, row: u32) -> Result<(), AllocError> {
    text.push_str(part(rows, "#", 0))?;
    for number in 1..count_parts(rows, "#") {
        write!(text, "{row}{}", part(rows, "#", number))?;
    }
    Ok(())
}

/// Adds rows as often as the number before them says, with the number of each for `#`.
fn push_times(text: &mut String, block: &str) -> Result<(), AllocError> {
    let Some((times, rows)) = block.split_once(" ") else {
        return Ok(());
    };
    for row in 1..=times.parse::<u32>().unwrap_or(0) {
        push_numbered(text, rows, row)?;
    }
    Ok(())
}

/// Adds the part of a text with this number; each other one stands between two `@`.
fn push_part(text: &mut String, added: &str, number: usize) -> Result<(), AllocError> {
    if number % 2 == 0 {
        text.push_str(added)
    } else {
        push_times(text, added)
    }
}

/// A text after its head, with all that is there several times.
fn written_out(alloc: Global, head: &str, text: &str) -> Result<String, AllocError> {
    let mut whole = String::from_str(alloc, head)?;
    for number in 0..count_parts(text, "@") {
        push_part(&mut whole, part(text, "@", number), number)?;
    }
    Ok(whole)
}

/// Stands between the parts of a row.
const ARROW: &str = "=>\n";

/// Whether the program answers each of these lines and an input with the wanted text.
fn are_lines<T: Threads + Wait + Clock + Sync>(
    rt: &T,
    alloc: Global,
    lines: &str,
    input: &str,
    wanted: &str,
) -> bool {
    let mut are_lines = lines.ends_with("\n");
    for number in 1..count_parts(lines, "\n") {
        let line = part(lines, "\n", number - 1);
        are_lines = are_lines && is_line(rt, alloc, line, input, wanted);
    }
    are_lines
}

/// Whether the program answers each line of a row with the row's text, if this stands before the row's input.
fn is_row<T: Threads + Wait + Clock + Sync>(
    rt: &T,
    alloc: Global,
    head: &str,
    row: &str,
) -> Result<bool, AllocError> {
    let wanted = written_out(alloc, "", part(row, ARROW, 2))?;
    let input = written_out(alloc, head, part(row, ARROW, 1))?;
    let lines = part(row, ARROW, 0);
    Ok(are_lines(rt, alloc, lines, input.as_str(), wanted.as_str()))
}

/// Checks what the program answers to each row of a table, if this stands before the row's input.
pub fn are_answered<T: Abort + Threads + Wait + Clock + Sync>(
    rt: &T,
    alloc: Global,
    head: &str,
    rows: &str,
) {
    for number in 0..count_parts(rows, "--\n") {
        let row = part(rows, "--\n", number);
        assert!(rt; matches!(is_row(rt, alloc, head, row), Ok(true)), "{row}");
    }
}
