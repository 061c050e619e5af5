//! Runs of the program in which one allocation fails, whichever it is.

use super::doubles::{EMPTY, LineReader, RUN, SCRIPT, TEXT, run};
use std::alloc::Global;
use std::sync::Wait;
use std::thread::Threads;

// Whether a text is a report that memory ran out, for a machine or for the audit.
fn tells_want(written: &str) -> bool {
    written.starts_with("version 2\nstart 0000000000 0\n")
        && (written.contains(" memory\n") && written.contains("\naudit "))
}

// Whether a text has some first lines of an answer, each whole, and not fewer than these, before the line of a
// fault. Only a run by workers may say that a worker couldn't be started.
fn is_cut(written: &str, answer: &str, least: usize, may_spawn: bool) -> bool {
    let before = match written.strip_suffix("fault memory\n") {
        None if may_spawn => written.strip_suffix("fault spawn\n"),
        before => before,
    };
    match before {
        Some(lines) => {
            answer.starts_with(lines)
                && (lines.is_empty() || lines.ends_with("\n"))
                && lines.lines().count() >= least
        }
        None => false,
    }
}

/// A line of words, an input, the status, the lines of its answer if they are written as they are known, and the end of
/// its text.
type Row = (&'static str, &'static str, u8, &'static str, &'static str);

/// A configuration within whose turns every machine asks.
const SCHEDULED: &str = "start = \"0000000000\"\nschedule = \"ftrpdcftrpdcftrpdc\"\narm1.tol = 2\n";

/// A configuration that is refused.
const REFUSED: &str = "start = \"0100000000\"\nschedule = \"pPx\"\n";

// Within three turns every machine asks. If a word were left out, the refused words would be answered otherwise.
const ROWS: &[Row] = &[
    ("cell", SCRIPT, 0, TEXT, TEXT),
    ("cell sim", SCHEDULED, 0, "", "audit ok\n"),
    ("cell sim", REFUSED, 1, "", "fault config letter\n"),
    (RUN, EMPTY, 0, "", "audit ok\n"),
    (
        "cell sim other.csv",
        SCHEDULED,
        2,
        "",
        "\n\nUsage: cell sim\n\nFor more information, try '--help'.\n",
    ),
];

// Whether a run writes a whole text, which ends so, or says that memory ran out, perhaps after some lines of an
// answer. A script gives a record at a time, and before the next one is read the lines of all but the last one are
// written: they aren't lost. With status 255 there was no memory for the words.
fn is_right<T: Threads + Wait + Sync>(rt: &T, alloc: Global, row: &Row) -> bool {
    let (line, input, wanted, answer, end) = *row;
    let mut reader = LineReader {
        bytes: input.as_bytes(),
        given: 0,
    };
    let mut room = [0u8; 2000];
    let mut writer = &mut room[..];
    let status = run(rt, alloc, line, &mut reader, &mut writer);
    let left = writer.len();
    let Ok(written) = str::from_utf8(&room[..2000usize.saturating_sub(left)]) else {
        return false;
    };
    let least = reader.given.saturating_sub(2).min(answer.lines().count());
    match status {
        255 => written.is_empty(),
        1 if tells_want(written) || is_cut(written, answer, least, line == RUN) => true,
        _ => status == wanted && written.ends_with(end),
    }
}

#[test]
fn serves_without_memory(rt: HostRuntime) {
    for row in ROWS {
        assert!(rt; is_right(&rt, rt.alloc(), row), "{}", row.0);
    }
}
