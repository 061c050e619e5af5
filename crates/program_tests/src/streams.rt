//! Input and output that fail, are interrupted, or come in small parts.

use super::doubles::{RUN, UnflushedWriter, input_of, is_answered, print_run, run};
use program_shell::{Exit, refuse_bytes};
use std::alloc::Global;
use std::sync::Wait;
use std::thread::Threads;
use test_doubles::{
    FailingReader, Failure, InterruptedReader, InterruptedWriter, count_parts, part,
};

/// Whether a reader that fails after it has given `left` bytes leads to status 1 and the line of a failed read.
fn is_failed_read<T: Threads + Wait + Sync>(
    rt: &T,
    alloc: Global,
    line: &str,
    left: usize,
) -> bool {
    let mut reader = FailingReader::new(input_of(line).as_bytes(), left);
    is_answered(rt, alloc, line, &mut reader, "1", "fault read\n")
}

#[test]
fn tells_a_failed_read(rt: HostRuntime) {
    assert!(rt;
        is_failed_read(&rt, rt.alloc(), "cell", 20) && is_failed_read(&rt, rt.alloc(), RUN, 7)
    );
    for left in 0..input_of("cell sim").len() {
        assert!(rt;
            is_failed_read(&rt, rt.alloc(), "cell sim", left),
            "after {left}"
        );
    }
}

/// How bytes are given and taken: how many the writer takes before it fails, how many are given or taken at a time, how
/// often each part is interrupted before, and how the writer fails.
type Way = (usize, usize, u32, Failure);

const WAYS: &[Way] = &[
    (0, 3, 0, Failure::Write),
    (1, 3, 0, Failure::Write),
    (5, 3, 0, Failure::Write),
    (18, 3, 0, Failure::Write),
    (19, 3, 0, Failure::Write),
    (20, 3, 0, Failure::Write),
    (300, 3, 0, Failure::Full),
    (560, 3, 0, Failure::Write),
    (usize::MAX, 7, 1_000, Failure::Write),
];

/// Whether a line of words and an input are answered in such a way as they are at once, or a writer that fails before
/// the end of the text leads to status 1, and has taken a prefix of it.
fn is_written<T: Threads + Wait + Sync>(
    rt: &T,
    alloc: Global,
    line: &str,
    input: &str,
    way: Way,
) -> bool {
    let (left, at_once, times, failure) = way;
    let (status, whole) = print_run(rt, alloc, line, input);
    let mut reader = InterruptedReader::new(input.as_bytes(), usize::MAX, at_once);
    let mut writer = InterruptedWriter::new(alloc, left, at_once, failure);
    reader.times = times;
    writer.times = times;
    let answered = run(rt, alloc, line, &mut reader, &mut writer);
    let taken = writer.taken.as_slice();
    answered == (if left < whole.len() { 1 } else { status })
        && taken.len() == left.min(whole.len())
        && whole.as_slice().starts_with(taken)
}

/// Lines of words.
const LINES: &str = "\
    cell replay|\
    cell sim --help|\
    cell --help|\
    cell go|\
    cell sim|\
    cell run --turns 3 --tries 64";

#[test]
fn writes_all_or_a_prefix(rt: HostRuntime) {
    for number in 0..count_parts(LINES, "|") {
        let line = part(LINES, "|", number);
        for way in WAYS {
            let are_written = is_written(&rt, rt.alloc(), line, input_of(line), *way)
                && is_written(&rt, rt.alloc(), line, "", *way);
            assert!(rt; are_written, "{line} {way:?}");
        }
    }
}

/// Whether a writer that fails at its flush leads to status 1, and was flushed after the whole text. A replay flushes
/// it before the last line is known, and has written some first lines.
fn is_lost<T: Threads + Wait + Sync>(rt: &T, alloc: Global, line: &str, input: &str) -> bool {
    let mut writer = UnflushedWriter {
        taken: Vec::new(alloc),
        flushed: 0,
    };
    let (_, whole) = print_run(rt, alloc, line, input);
    let status = run(rt, alloc, line, &mut input.as_bytes(), &mut writer);
    let taken = writer.taken.as_slice();
    let is_prefix = whole.as_slice().starts_with(taken) && taken.ends_with(b"\n");
    let is_whole = taken.len() == whole.len() || line == "cell replay";
    status == 1 && is_prefix && is_whole && writer.flushed == taken.len()
}

#[test]
fn tells_a_failed_flush(rt: HostRuntime) {
    for number in 0..count_parts(LINES, "|") {
        let line = part(LINES, "|", number);
        assert!(rt; is_lost(&rt, rt.alloc(), line, input_of(line)), "{line}");
    }
    assert!(rt; is_lost(&rt, rt.alloc(), "cell sim", ""));
    let mut writer = UnflushedWriter {
        taken: Vec::new(rt.alloc()),
        flushed: 0,
    };
    let exit = refuse_bytes(&mut writer);
    assert!(rt; exit == Exit::Refused && writer.flushed == 26);
}
