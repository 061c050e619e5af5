//! Readers and writers that are interrupted or fail, and refused memory.

use super::count_lines;
use super::doubles::EndlessReader;
use cell_replay::{Outcome, ReplayFault, ScriptFault, replay};
use std::alloc::Global;
use std::io::Read;
use test_doubles::{Failure, InterruptedReader, InterruptedWriter};

const SCRIPT: &str =
    "start,0000000000\npress,claim,z3\nrobot,claim,z3\npress,release,z3\nrobot,claim,z3\nwatch,inquire,z3\n";

const TEXT: &str =
    "0 0 start 0\n1 1 done\n2 1 held press\n3 2 done\n4 2 shut closed\n5 2 zone free 0 closed\n";

/// Whether a text is some first lines of `TEXT`.
fn is_whole_lines(written: &[u8]) -> bool {
    TEXT.as_bytes().starts_with(written) && (written.is_empty() || written.ends_with(b"\n"))
}

/// Whether the replay fails to read if the reader, which gives at most `at_once` bytes at a time,
/// fails after `left` bytes of the script, and has written the lines of all records that it has
/// read, except the last one.
fn fails_to_read(alloc: Global, left: usize, at_once: usize) -> bool {
    let mut reader = InterruptedReader::new(SCRIPT.as_bytes(), left, at_once);
    let mut written = Vec::new(alloc);
    let got = replay(alloc, &mut reader, &mut written);
    let records = count_lines(&SCRIPT.as_bytes()[..left.min(SCRIPT.len())]);
    got == Err(ReplayFault::Read)
        && is_whole_lines(written.as_slice())
        && count_lines(written.as_slice()) == records.saturating_sub(1)
}

/// Whether the replay has this result with a writer for `room` bytes, and has written that many of
/// its text, or all if it is shorter. The script is read at once, and then a byte at a time.
fn is_written(
    alloc: Global,
    room: usize,
    failure: Failure,
    wanted: Result<Outcome, ReplayFault>,
) -> bool {
    let mut at_once = InterruptedWriter::new(alloc, room, 3, failure);
    let mut bytewise = InterruptedWriter::new(alloc, room, 3, failure);
    let mut reader = InterruptedReader::new(SCRIPT.as_bytes(), usize::MAX, 1);
    replay(alloc, &mut SCRIPT.as_bytes(), &mut at_once) == wanted
        && replay(alloc, &mut reader, &mut bytewise) == wanted
        && at_once.taken.len() == room.min(TEXT.len())
        && TEXT.as_bytes().starts_with(at_once.taken.as_slice())
        && bytewise.taken.as_slice() == at_once.taken.as_slice()
}

/// Whether a flush that fails leads to a failed write, after this many first lines of the text.
fn fails_to_flush<R: Read>(alloc: Global, reader: &mut R, lines: usize) -> bool {
    let mut writer = InterruptedWriter::new(alloc, usize::MAX, 3, Failure::Flush);
    let got = replay(alloc, reader, &mut writer);
    let written = writer.taken.as_slice();
    got == Err(ReplayFault::Write) && is_whole_lines(written) && count_lines(written) == lines
}

/// Whether the replay is as ever if its reader and its writer are interrupted this number of times before
/// each byte.
fn goes_on(alloc: Global, times: u32) -> bool {
    let mut reader = InterruptedReader::new(SCRIPT.as_bytes(), usize::MAX, 1);
    let mut writer = InterruptedWriter::new(alloc, usize::MAX, 1, Failure::Write);
    reader.times = times;
    writer.times = times;
    replay(alloc, &mut reader, &mut writer) == Ok(Outcome::Clean)
        && writer.taken.as_slice() == TEXT.as_bytes()
}

// A reader gives a byte, seven or all at a time.
const AT_ONCE: &[usize] = &[1, 7, usize::MAX];

#[test]
fn fails_with_its_reader(rt: HostRuntime) {
    for at_once in AT_ONCE {
        for left in 0..SCRIPT.len().saturating_add(1) {
            assert!(rt; fails_to_read(rt.alloc(), left, *at_once), "{left}");
        }
    }
}

/// Whether a writer that fails after these bytes is reported, however it fails.
fn is_reported(alloc: Global, room: usize) -> bool {
    let failed = Err(ReplayFault::Write);
    is_written(alloc, room, Failure::Write, failed)
        && is_written(alloc, room, Failure::Full, failed)
}

#[test]
fn fails_with_its_writer(rt: HostRuntime) {
    for room in 0..TEXT.len() {
        assert!(rt; is_reported(rt.alloc(), room), "{room}");
    }
    assert!(rt; is_written(rt.alloc(), usize::MAX, Failure::Write, Ok(Outcome::Clean)));
}

const TIMES: &[u32] = &[0, 1, 1_000, 100_000];

// An interruption isn't a failure.
#[test]
fn goes_on_after_interruptions(rt: HostRuntime) {
    for times in TIMES {
        assert!(rt; goes_on(rt.alloc(), *times), "{times}");
    }
}

// The writer is flushed when no further line is at hand: of a script that is read at once, when all
// lines but the last are known; of one that is read a byte at a time, after each line.
#[test]
fn fails_with_its_flush(rt: HostRuntime) {
    let alloc = rt.alloc();
    let mut bytewise = InterruptedReader::new(SCRIPT.as_bytes(), usize::MAX, 1);
    assert!(rt; fails_to_flush(alloc, &mut SCRIPT.as_bytes(), 5));
    assert!(rt; fails_to_flush(alloc, &mut bytewise, 1));
}

// The run chooses which allocation is refused. The writer allocates nothing.
#[test]
fn runs_out_of_memory(rt: HostRuntime) {
    let mut room = [0u8; 200];
    let mut writer = &mut room[..];
    let got = replay(rt.alloc(), &mut SCRIPT.as_bytes(), &mut writer);
    let left = writer.len();
    let written = &room[..200usize.saturating_sub(left)];
    let is_right = match got {
        Ok(outcome) => outcome == Outcome::Clean && written == TEXT.as_bytes(),
        Err(fault) => fault == ReplayFault::Memory && is_whole_lines(written),
    };
    assert!(rt; is_right);
}

#[test]
fn stops_reading(rt: HostRuntime) {
    let mut reader = EndlessReader { given: 0 };
    let mut written = Vec::new(rt.alloc());
    let got = replay(rt.alloc(), &mut reader, &mut written);
    let is_long = got == Ok(Outcome::Refused(ScriptFault::Long));
    let is_told = written.as_slice() == b"fault long\n".as_slice();
    assert!(rt; is_long && is_told && reader.given == 4_194_305);
}
