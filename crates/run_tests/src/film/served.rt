//! What the program answers to its words and its input: exit statuses, help, fault lines; and where
//! reading or writing fails.

use super::doubles::run;
use film_app::serve::start;
use std::alloc::Global;
use test_doubles::{FailingReader, FailingWriter, Given, count_parts, part};

/// Words, the status, an input and the text; or only what it begins with if that is no whole line. Bars separate the
/// rows. Without status 1 the input isn't read. That help and version are written whole is what clauses of `serve` say.
const ROWS: &str = "\
    ./film => 1 => start = \"0000000000\"\nschedule = \"x\"\n => fault config letter\n|\
    ./film --loop => 1 => start = \"0000000000\"\nschedule = \"x\"\n => fault config letter\n|\
    --help => 1 =>  => fault config missing\n|\
    ./film => 1 => start = 5\n => fault config kind\n|\
    ./film --version => 0 => start = 5\n => film |\
    ./film --help => 0 => start = 5\n => Reads a configuration, as `cell sim` does, and writes a page|\
    \u{20}-h => 0 => start = 5\n => Reads a configuration, as `cell sim` does, and writes a page|\
    ./film --help --help => 0 => start = 5\n => Reads a configuration|\
    ./film -h film --version => 0 => start = 5\n => Reads a configuration|\
    ./film --loop --help => 0 => start = 5\n => Reads a configuration|\
    ./film --loop -h film => 0 => start = 5\n => Reads a configuration|\
    ./film film --help => 2 => start = 5\n => error: the only argument is --help, --loop or --version\n|\
    ./film --loop --loop --help => 2 => start = 5\n => error: the only argument is |\
    ./film --version --help => 2 => start = 5\n => error: the only argument is |\
    ./film --loop --version => 2 => start = 5\n => error: the only argument is |\
    ./film --version --version => 2 => start = 5\n => error: the only argument is |\
    ./film -V => 2 => start = 5\n => error: the only argument is |\
    ./film help => 2 => start = 5\n => error: the only argument is |\
    ./film  => 2 => start = 5\n => error: the only argument is |\
    ./film film => 2 => start = 5\n => error: the only argument is ";

/// Whether the program answers a row so.
fn is_row(alloc: Global, row: &str) -> bool {
    let (line, input) = (part(row, " => ", 0), part(row, " => ", 2));
    let (status, text) = (part(row, " => ", 1), part(row, " => ", 3));
    let mut reader = input.as_bytes();
    let mut written = Vec::new(alloc);
    let digit = [b'0'.wrapping_add(run(alloc, line, &mut reader, &mut written))];
    let may_read = status == "1";
    digit.as_slice() == status.as_bytes()
        && (may_read || reader.len() == input.len())
        && written.as_slice().starts_with(text.as_bytes())
        && (written.len() == text.len() || !text.ends_with("\n"))
}

#[test]
fn serves(rt: HostRuntime) {
    for number in 0..count_parts(ROWS, "|") {
        let row = part(ROWS, "|", number);
        assert!(rt; is_row(rt.alloc(), row), "{row}");
    }
}

/// Arguments, the status, the text, and how many bytes of the input are left. The program's own name may be any bytes,
/// or missing; a word may not.
const STARTED: &[(&[&[u8]], u8, &str, usize)] = &[
    (
        &[b"bad\xff", b"--help", b"\xff"],
        2,
        "error: a word isn't UTF-8\n",
        10,
    ),
    (&[b"bad\xff"], 1, "fault config kind\n", 0),
    (&[], 1, "fault config kind\n", 0),
];

/// Whether the program, started with these arguments, answers a configuration so.
fn is_started_by(alloc: Global, arguments: &[&[u8]], status: u8, text: &str, left: usize) -> bool {
    let mut reader = "start = 5\n".as_bytes();
    let mut written = Vec::new(alloc);
    let env = Given { arguments };
    let answered = start(alloc, &env, &mut reader, &mut written);
    answered == status && written.as_slice() == text.as_bytes() && reader.len() == left
}

#[test]
fn starts(rt: HostRuntime) {
    for (arguments, status, text, left) in STARTED {
        let is_started = is_started_by(rt.alloc(), arguments, *status, text, *left);
        assert!(rt; is_started, "{} arguments", arguments.len());
    }
}

/// A configuration.
const PRESS: &str = "start = \"0000000000\"\nschedule = \"ppppppp\"\n";

/// Whether a reader that fails after `left` bytes leads to status 1 and the line of a failed read.
fn is_failed_read(alloc: Global, left: usize) -> bool {
    let mut reader = FailingReader::new(PRESS.as_bytes(), left);
    let mut written = Vec::new(alloc);
    let status = run(alloc, "./film", &mut reader, &mut written);
    status == 1 && written.as_slice() == "fault read\n".as_bytes()
}

#[test]
fn tells_a_failed_read(rt: HostRuntime) {
    for left in 0..PRESS.len() {
        assert!(rt; is_failed_read(rt.alloc(), left), "after {left}");
    }
}

/// Whether a writer that fails after `left` bytes leads to this status, and has taken as many of
/// this text.
fn is_cut(alloc: Global, row: &str, status: u8, text: &[u8], left: usize) -> bool {
    let (line, input) = (part(row, " => ", 0), part(row, " => ", 1));
    let mut writer = FailingWriter::new(alloc, left);
    let found = run(alloc, line, &mut input.as_bytes(), &mut writer);
    let taken = writer.taken.as_slice();
    found == status && taken.len() == left && text.starts_with(taken)
}

/// Whether a writer that fails leads to status 1, or to that of refused words, wherever it fails; of a page, after each
/// 97th byte and each of the last ones.
fn are_cut(alloc: Global, row: &str) -> bool {
    let (line, input) = (part(row, " => ", 0), part(row, " => ", 1));
    let mut whole = Vec::new(alloc);
    let found = run(alloc, line, &mut input.as_bytes(), &mut whole);
    let status = if found == 2 { 2 } else { 1 };
    let step = if whole.len() < 1_000 { 1 } else { 97 };
    let mut are_all = true;
    for left in 0..whole.len().saturating_add(1) {
        let is_tried = left % step == 0 || left.saturating_add(step) > whole.len();
        are_all = are_all && (!is_tried || is_cut(alloc, row, status, whole.as_slice(), left));
    }
    are_all
}

/// Words and an input.
const WRITTEN: &str = "\
    ./film --help => |\
    ./film -h => |\
    ./film --version => |\
    ./film -V => |\
    ./film => start = \"0000000000\"\nschedule = \"x\"\n|\
    ./film => start = \"0000000000\"\n";

// A writer that fails after the last byte fails at its flush.
#[test]
fn writes_a_prefix(rt: HostRuntime) {
    for number in 0..count_parts(WRITTEN, "|") {
        let row = part(WRITTEN, "|", number);
        assert!(rt; are_cut(rt.alloc(), row), "{row}");
    }
}
