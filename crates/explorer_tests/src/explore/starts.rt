//! Starts by their plates, explored in two threads. The numbers are those that plain Rust finds, written apart from the
//! proved program.

use super::doubles::GivenClock;
use explore_app::every_start::starts_with;
use explore_app::serve::serve_all;
use std::alloc::Global;
use std::thread::Threads;
use test_doubles::FailingWriter;

/// The lines of the starts with no plate and with one.
const LINES: &str = "\
plates 0 starts 1: 1 stand still after 21 to 21 turns
plates 1 starts 10: no standstill before the last stamp; at most 61176 situations; each machine moves a plate within k * 97 + k * k * 2 steps
";

/// The number of bytes of the first one, and of both.
const FIRST: usize = 54;

const BOTH: usize = 196;

const SIX_PLATES: &str = "plates 6 starts 140: 140 stand still after 16 to 105 turns\n";

/// Whether the starts with a number of plates have this line.
fn has_line<T: Threads + Sync>(rt: &T, alloc: Global, plates: u32, wanted: &str) -> bool {
    match starts_with(rt, alloc, plates) {
        Ok(starts) => match starts.line(alloc, plates) {
            Ok(line) => line.as_str() == wanted,
            Err(_) => false,
        },
        Err(_) => false,
    }
}

#[test]
fn explores_all_starts_with_six_plates(rt: HostRuntime) {
    assert!(rt; has_line(&rt, rt.alloc(), 6, SIX_PLATES));
}

/// The most plates, the number of bytes of their lines, after how many bytes the writer and the progress fail, and the
/// status.
type Row = (u32, usize, usize, usize, u8);

const ROWS: &[Row] = &[
    (1, BOTH, 1_000, 1_000, 0),
    (0, FIRST, 1_000, 1_000, 0),
    (0, FIRST, 1_000, 54, 0),
    (0, FIRST, 1_000, 20, 0),
    (0, FIRST, 1_000, 0, 0),
    (0, FIRST, 54, 1_000, 1),
    (0, FIRST, 53, 1_000, 1),
    (0, FIRST, 1, 0, 1),
    (0, FIRST, 0, 1_000, 1),
];

/// Whether the lines are written up to where the writer fails, told as far as the progress takes them, and the status
/// is right.
fn is_served<T: Threads + Sync>(rt: &T, alloc: Global, row: &Row) -> bool {
    let (plates, bytes, left, progress_left, wanted) = *row;
    let clock = GivenClock::new(None, None);
    let mut writer = FailingWriter::new(alloc, left);
    let mut progress = FailingWriter::new(alloc, progress_left);
    let status = serve_all(rt, &clock, alloc, plates, &mut writer, &mut progress);
    status == wanted
        && has_lines(&writer, left.min(bytes))
        && has_lines(&progress, progress_left.min(bytes))
}

/// Whether a writer has taken this number of bytes of the lines.
fn has_lines(writer: &FailingWriter, bytes: usize) -> bool {
    writer.taken.len() == bytes && LINES.as_bytes().starts_with(writer.taken.as_slice())
}

// What can't be told as progress is written all the same. A writer that fails after the last byte fails at its flush.
#[test]
fn serves_writers_that_fail(rt: HostRuntime) {
    for row in ROWS {
        assert!(rt; is_served(&rt, rt.alloc(), row), "{} bytes", row.2);
    }
}
