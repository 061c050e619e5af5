//! Scripts of the most records and bytes, or of more. What the answer to a cut script is, the clauses of `replay` say,
//! with figures in the law `scripts_are_met`.

use super::count_lines;
use cell_replay::{Outcome, ReplayFault, ScriptFault, replay};
use std::alloc::Global;
use std::process::Abort;
use test_doubles::{Failure, InterruptedReader, InterruptedWriter};

const TWO: &str = "start,0000000000\nwatch,inquire,z1\nwatch,inquire,z2\n";

const LONG: Outcome = Outcome::Refused(ScriptFault::Long);

/// These records, which blank lines fill to a length.
fn fill_with_blanks(rt: &impl Abort, alloc: Global, records: &str, length: usize) -> Vec<u8> {
    let mut script = Vec::new(alloc);
    script
        .extend_from_slice(records.as_bytes())
        .expect(rt, "memory");
    script.resize(length, b'\n').expect(rt, "memory");
    script
}

/// Record 0, a number of inquiries, and a last record.
fn inquiries(rt: &impl Abort, alloc: Global, count: u32, last: &str) -> String {
    let mut script = String::from_str(alloc, "start,0000000000\n").expect(rt, "memory");
    for _ in 0..count {
        script.push_str("watch,inquire,z1\n").expect(rt, "memory");
    }
    script.push_str(last).expect(rt, "memory");
    script
}

/// The text for 65,536 inquiries and a last record. Which outcome it has, the clauses of `replay` say.
fn text_after(rt: &impl Abort, alloc: Global, last: &str) -> Vec<u8> {
    let script = inquiries(rt, alloc, 65_536, last);
    let mut written = Vec::new(alloc);
    let _ = replay(alloc, &mut script.as_bytes(), &mut written).expect(rt, "an answer");
    written
}

/// Whether the text has 65,537 lines, with the right first and last ones.
fn has_most_lines(text: &[u8]) -> bool {
    let first = b"0 0 start 0\n1 0 zone free 0 closed\n2 0 zone free 0 closed\n".as_slice();
    let last = b"\n65536 0 zone free 0 closed\n".as_slice();
    text.starts_with(first) && text.ends_with(last) && count_lines(text) == 65_537
}

/// Whether the largest script has this text, if it is read and written a byte at a time, with
/// interruptions before each.
fn is_told_bytewise(rt: &impl Abort, alloc: Global, text: &[u8]) -> bool {
    let script = fill_with_blanks(
        rt,
        alloc,
        inquiries(rt, alloc, 65_536, "").as_str(),
        4_194_304,
    );
    let mut reader = InterruptedReader::new(script.as_slice(), usize::MAX, 1);
    let mut writer = InterruptedWriter::new(alloc, usize::MAX, 1, Failure::Write);
    replay(alloc, &mut reader, &mut writer) == Ok(Outcome::Clean) && writer.taken.as_slice() == text
}

const TOO_MANY: &[&str] = &["watch,inquire,z1\n", "nothing\n"];

// As many records as may be answered are clean, of as many bytes as may be read. One more record may
// hold anything.
#[test]
fn answers_most_records(rt: HostRuntime) {
    let alloc = rt.alloc();
    let mut text = text_after(&rt, alloc, "");
    assert!(rt; has_most_lines(text.as_slice()));
    assert!(rt; is_told_bytewise(&rt, alloc, text.as_slice()));
    text.extend_from_slice("fault long\n".as_bytes())
        .expect(&rt, "memory");
    for last in TOO_MANY {
        let long = text_after(&rt, alloc, last);
        assert!(rt; long.as_slice() == text.as_slice(), "{last}");
    }
}

// A reader fails at the last byte of a script with one record too many. The lines that are known
// are written; the record before the one that failed is still held back.
#[test]
fn writes_before_its_reader_fails(rt: HostRuntime) {
    let alloc = rt.alloc();
    let script = inquiries(&rt, alloc, 65_537, "");
    let last_byte = script.len().saturating_sub(1);
    let mut reader = InterruptedReader::new(script.as_bytes(), last_byte, 1);
    let mut written = Vec::new(alloc);
    let got = replay(alloc, &mut reader, &mut written);
    assert!(rt; got == Err(ReplayFault::Read));
    let last = b"\n65535 0 zone free 0 closed\n".as_slice();
    assert!(rt; written.as_slice().ends_with(last));
}

/// After how many bytes a reader of `TWO` and blank lines fails, and what follows.
const FAILS_AT_LIMIT: &[(usize, &str, Result<Outcome, ReplayFault>)] = &[
    (
        4_194_303,
        "0 0 start 0\n1 0 zone free 0 closed\n",
        Err(ReplayFault::Read),
    ),
    // The byte past the limit is asked for.
    (
        4_194_304,
        "0 0 start 0\n1 0 zone free 0 closed\n",
        Err(ReplayFault::Read),
    ),
    // No further one is.
    (
        4_194_305,
        "0 0 start 0\n1 0 zone free 0 closed\nfault long\n",
        Ok(LONG),
    ),
];

/// After how many bytes of a long text a writer fails: the text is written in blocks of 8,192.
const ROOMS: &[usize] = &[
    0, 1, 8_170, 8_191, 8_192, 8_193, 16_383, 16_384, 16_385, 20_000,
];

/// Whether a reader that fails after these bytes of a script leads to this text and result.
fn is_read(
    alloc: Global,
    script: &[u8],
    left: usize,
    text: &str,
    wanted: Result<Outcome, ReplayFault>,
) -> bool {
    let mut reader = InterruptedReader::new(script, left, usize::MAX);
    let mut written = Vec::new(alloc);
    let got = replay(alloc, &mut reader, &mut written);
    got == wanted && written.as_slice() == text.as_bytes()
}

#[test]
fn fails_at_limits(rt: HostRuntime) {
    let script = fill_with_blanks(&rt, rt.alloc(), TWO, 4_194_310);
    for (left, text, wanted) in FAILS_AT_LIMIT {
        let is_right = is_read(rt.alloc(), script.as_slice(), *left, text, *wanted);
        assert!(rt; is_right, "{left}");
    }
}

/// Whether a writer that fails after these bytes has taken as many of this text.
fn is_cut(alloc: Global, script: &[u8], text: &[u8], room: usize) -> bool {
    let mut writer = InterruptedWriter::new(alloc, room, 1_000, Failure::Write);
    let got = replay(alloc, &mut &*script, &mut writer);
    let taken = writer.taken.as_slice();
    got == Err(ReplayFault::Write) && taken.len() == room && text.starts_with(taken)
}

// A writer fails between the blocks of a long text.
#[test]
fn fails_between_blocks(rt: HostRuntime) {
    let long = inquiries(&rt, rt.alloc(), 1_000, "");
    let mut text = Vec::new(rt.alloc());
    assert!(rt; replay(rt.alloc(), &mut long.as_bytes(), &mut text) == Ok(Outcome::Clean));
    for room in ROOMS {
        assert!(rt;
            is_cut(rt.alloc(), long.as_bytes(), text.as_slice(), *room),
            "{room}"
        );
    }
}
