//! What the program `explain` answers: the explanations of its inputs, and what it says of its words.

use super::explain_configurations::CONFIGURATIONS;
use super::explain_keys::KEYS;
use super::explain_scripts::SCRIPTS;
use super::explain_sections::SECTIONS;
use explain_app::serve::start;
use std::alloc::Global;
use std::io::{Read, Write};
use test_doubles::{
    FailingReader, FailingWriter, Given, arguments_in, bytes_in, count_parts, part,
};

/// The exit status of the program that is started by a line of words; 255 if there is no memory for them. It has no
/// clauses, so the rows don't carry those of `start`.
fn run<R: Read, W: Write>(alloc: Global, line: &str, reader: &mut R, writer: &mut W) -> u8 {
    match arguments_in(alloc, line) {
        Ok(arguments) => {
            let env = Given {
                arguments: arguments.as_slice(),
            };
            start(alloc, &env, reader, writer)
        }
        Err(_) => 255,
    }
}

/// Whether a line of words and an input, in three parts, are answered with this status, a digit, and this text; or with
/// one that begins so if the text is no whole line.
pub fn is_told(
    alloc: Global,
    line: &str,
    input: (&str, &[u8], &str),
    status: &str,
    text: &str,
) -> bool {
    let (begin, middle, end) = input;
    let mut reader = begin.as_bytes().chain(middle).chain(end.as_bytes());
    let mut written = Vec::new(alloc);
    let digit = [b'0'.wrapping_add(run(alloc, line, &mut reader, &mut written))];
    let may_go_on = !text.is_empty() && !text.ends_with("\n");
    digit.as_slice() == status.as_bytes()
        && written.as_slice().starts_with(text.as_bytes())
        && (may_go_on || written.len() == text.len())
}

/// Words, the status, an input, and what is written; or only what it begins with if that is no whole line. A script
/// that is taken is no TOML as a configuration, and a configuration that is taken has no start as a script.
const ROWS: &str = "\
    explain => 0 => start,0000000000\npress,claim,z3\n => |\
    explain replay => 0 => start,0000000000\npress,claim,z3\n => |\
    explain => 1 => start,0000000000\npress,clam,z3\n \
        => record 1, line 2, field 2: \"clam\" is no verb; did you mean \"claim\"?\n|\
    explain replay => 1 => start,0000000000\npress,clam,z3\n \
        => record 1, line 2, field 2: \"clam\" is no verb; did you mean \"claim\"?\n|\
    explain => 1 => start = \"0100000000\"\n \
        => record 0, line 1, field 1: \"start = \\\"0100000000\\\"\" is no word that begins a script: it has a \
        quote; known are: start start2; a script begins with a start, such as start,0000000000\n|\
    explain sim => 0 => start = \"0100000000\"\n => |\
    explain run => 0 => start = \"0100000000\"\n => |\
    explain sim => 1 => start = \"0100000000\"\nstamp = -1\n \
        => config range: line 2: stamp is out of range: it takes 0 to 1048575\n|\
    explain run => 1 => start = \"0100000000\"\nstamp = -1\n \
        => config range: line 2: stamp is out of range: it takes 0 to 1048575\n|\
    explain run --turns 3 => 1 => start = \"0100000000\"\nstamp = -1\n \
        => config range: line 2: stamp is out of range: it takes 0 to 1048575\n|\
    explain sim => 1 => start,0000000000\npress,claim,z3\n \
        => config text: line 1: it is no TOML: key with no value, expected `=`\n|\
    explain --help => 0 =>  => Says what is wrong with an input that `cell` refuses|\
    explain sim --help => 0 =>  => Says what is wrong with an input that `cell` refuses|\
    explain -h => 0 =>  => Says what is wrong with an input that `cell` refuses|\
    explain help => 0 =>  => Says what is wrong with an input that `cell` refuses|\
    explain --version => 0 =>  => explain |\
    explain -V => 2 =>  \
        => error: the only arguments are replay, sim, run, --turns N, --tries N, --help and --version\n|\
    explain sim --version => 2 =>  => error: the only arguments are |\
    explain --version --help => 2 =>  => error: the only arguments are |\
    explain simulate => 2 =>  => error: the only arguments are |\
    explain simulate --help => 2 =>  => error: the only arguments are |\
    explain replay replay => 2 =>  => error: the only arguments are |\
    explain run --turns 0 => 2 =>  => error: the only arguments are ";

/// Whether a row's words are answered so.
fn is_row(alloc: Global, row: &str) -> bool {
    let input = (part(row, " => ", 2), b"".as_slice(), "");
    is_told(
        alloc,
        part(row, " => ", 0),
        input,
        part(row, " => ", 1),
        part(row, " => ", 3),
    )
}

#[test]
fn serves(rt: HostRuntime) {
    for number in 0..count_parts(ROWS, "|") {
        let row = part(ROWS, "|", number);
        assert!(rt; is_row(rt.alloc(), row), "{row}");
    }
}

/// Tables of inputs and their explanations: the words, and what stands before each input.
const TABLES: &[(&str, &str, &str)] = &[
    ("explain", "", SCRIPTS),
    ("explain sim", "", CONFIGURATIONS),
    ("explain sim", "", KEYS),
    ("explain sim", "start = \"0100000000\"\n", SECTIONS),
];

/// Whether the input of a row, in which each character stands for a byte, gets the row's explanation; empty for one
/// that isn't refused.
fn is_explained(alloc: Global, line: &str, begin: &str, row: &str) -> bool {
    let text = part(row, " => ", 1);
    let status = if text.is_empty() { "0" } else { "1" };
    match bytes_in(alloc, part(row, " => ", 0)) {
        Ok(bytes) => is_told(alloc, line, (begin, bytes.as_slice(), ""), status, text),
        Err(_) => false,
    }
}

#[test]
fn explains(rt: HostRuntime) {
    for (line, begin, rows) in TABLES {
        for number in 0..count_parts(rows, "|") {
            let row = part(rows, "|", number);
            assert!(rt; is_explained(rt.alloc(), line, begin, row), "{row}");
        }
    }
}

/// Arguments, the status and the text. The program's own name may be any bytes, or missing; a word may not.
const STARTED: &[(&[&[u8]], u8, &str)] = &[
    (&[b"bad\xff", b"\xff"], 2, "error: a word isn't UTF-8\n"),
    (
        &[b"bad\xff", b"sim"],
        1,
        "config missing: there is no key start, such as start = \"0000000000\"\n",
    ),
    (
        &[],
        1,
        "record 0, line 1: there is none; a script begins with a start, such as start,0000000000\n",
    ),
];

/// Whether the program, started with these arguments, answers an empty input with this status and text.
fn is_started_by(alloc: Global, arguments: &[&[u8]], status: u8, text: &str) -> bool {
    let mut written = Vec::new(alloc);
    let env = Given { arguments };
    let answered = start(alloc, &env, &mut "".as_bytes(), &mut written);
    answered == status && written.as_slice() == text.as_bytes()
}

#[test]
fn starts(rt: HostRuntime) {
    for (arguments, status, text) in STARTED {
        let is_started = is_started_by(rt.alloc(), arguments, *status, text);
        assert!(rt; is_started, "{} arguments", arguments.len());
    }
}

/// Whether a writer that fails after this number of bytes leads to the status of a failure, or of refused words, and
/// has taken as many bytes of the text.
fn is_cut(alloc: Global, line: &str, input: &str, left: usize) -> bool {
    let mut whole = Vec::new(alloc);
    let mut writer = FailingWriter::new(alloc, left);
    let status = run(alloc, line, &mut input.as_bytes(), &mut whole);
    let answered = run(alloc, line, &mut input.as_bytes(), &mut writer);
    let taken = writer.taken.as_slice();
    answered == (if status == 2 { 2 } else { 3 })
        && taken.len() == left
        && whole.as_slice().starts_with(taken)
}

/// Whether a read that fails when these bytes are read leads to the status of a failure, and nothing is written.
fn is_silent(alloc: Global, line: &str, input: &str) -> bool {
    let mut reader = FailingReader::new(input.as_bytes(), input.len());
    let mut written = Vec::new(alloc);
    run(alloc, line, &mut reader, &mut written) == 3 && written.is_empty()
}

/// Lines of words, and an input for those that read one.
const WRITTEN: &str = "\
    explain => start,0000000000\npress,clam,z3\n|\
    explain sim => start = \"0100000000\"\nstamp = -1\n|\
    explain --help => |\
    explain --version => |\
    explain simulate => ";

#[test]
fn fails_with_reader_and_writer(rt: HostRuntime) {
    for number in 0..count_parts(WRITTEN, "|") {
        let row = part(WRITTEN, "|", number);
        let (line, input) = (part(row, " => ", 0), part(row, " => ", 1));
        let is_failed = is_cut(rt.alloc(), line, input, 0)
            && is_cut(rt.alloc(), line, input, 7)
            && (input.is_empty() || is_silent(rt.alloc(), line, input));
        assert!(rt; is_failed, "{row}");
    }
}
