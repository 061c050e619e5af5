//! The longest report, which a page has room for. What a report says of other runs is what the clause `text` of
//! `write_report` says, with whole reports in the law `reports_are_met`.

use super::{EMPTY, start_at};
use cell_notes::{Counts, RunRecord, Status};
use cell_report::{AuditFault, WriteFault, write_report};
use cell_rules::apply;
use cell_types::{Call, Journals, Machine, Pose, Zone};
use std::alloc::Global;
use std::process::Abort;
use test_doubles::{Failure, InterruptedWriter};

const MOST: Counts = Counts {
    turns: u64::MAX,
    done: u64::MAX,
    read: u64::MAX,
    refused: u64::MAX,
    busy: u64::MAX,
};

/// Calls after which no line of a zone can be longer, and the cell is stopped.
const LONGEST_LINES: &[(Machine, Call)] = &[
    (Machine::Table, Call::Claim(Zone::Z1)),
    (Machine::Table, Call::Claim(Zone::Z2)),
    (Machine::Table, Call::SetPose(Pose::Turning)),
    (Machine::Table, Call::SetPose(Pose::Unloading)),
    (Machine::Press, Call::Claim(Zone::Z3)),
    (Machine::Press, Call::SetPose(Pose::Travelling)),
    (Machine::Press, Call::SetPose(Pose::Low)),
    (Machine::Deposit, Call::Claim(Zone::Z4)),
    (Machine::Deposit, Call::Claim(Zone::Z5)),
    (Machine::Deposit, Call::SetPose(Pose::Offering)),
    (Machine::Feed, Call::Claim(Zone::Z6)),
    (Machine::Feed, Call::SetPose(Pose::Landing)),
    (Machine::Feed, Call::Release(Zone::Z6)),
    (Machine::Crane, Call::Claim(Zone::Z6)),
    (Machine::Watch, Call::Stop),
];

/// A run with the longest numbers and words, up to the last stamp.
fn largest(rt: &impl Abort, alloc: Global) -> RunRecord {
    let start = start_at(rt, EMPTY, 1_048_560);
    let mut end = start;
    for (machine, call) in LONGEST_LINES {
        apply(&mut end, *machine, *call);
    }
    RunRecord {
        start,
        counts: [MOST; 7],
        status: [Status::GateLimit; 7],
        journals: Journals::new(alloc),
        end: Some(end),
        axes: [i32::MIN; 8],
    }
}

/// Its report, with the longest line of an audit.
const LARGEST: &str = "version 2
start 0000000000 1048560
feed turns 18446744073709551615 done 18446744073709551615 read 18446744073709551615 refused 18446744073709551615 busy \
18446744073709551615 gatelimit
table turns 18446744073709551615 done 18446744073709551615 read 18446744073709551615 refused 18446744073709551615 busy \
18446744073709551615 gatelimit
robot turns 18446744073709551615 done 18446744073709551615 read 18446744073709551615 refused 18446744073709551615 busy \
18446744073709551615 gatelimit
press turns 18446744073709551615 done 18446744073709551615 read 18446744073709551615 refused 18446744073709551615 busy \
18446744073709551615 gatelimit
deposit turns 18446744073709551615 done 18446744073709551615 read 18446744073709551615 refused 18446744073709551615 \
busy 18446744073709551615 gatelimit
crane turns 18446744073709551615 done 18446744073709551615 read 18446744073709551615 refused 18446744073709551615 busy \
18446744073709551615 gatelimit
watch turns 18446744073709551615 done 18446744073709551615 read 18446744073709551615 refused 18446744073709551615 busy \
18446744073709551615 gatelimit
zone z1 table 0 closed
zone z2 table 0 openout
zone z3 press 0 openout
zone z4 deposit 0 closed
zone z5 deposit 0 openout
zone z6 crane 0 openin
places 0000000000
axes press -2147483648 arm1 -2147483648 arm2 -2147483648 rotation -2147483648 lift -2147483648 turn -2147483648 crane \
-2147483648 gripper -2147483648
stamp 1048575 plates 0 stopped 1
audit differs 4294967295
";

/// Whether the report has this result with a writer for `room` bytes, `at_once` at a time, and that
/// many bytes of its text were written, or all if it is shorter.
fn is_written(
    alloc: Global,
    run: &RunRecord,
    room: usize,
    at_once: usize,
    failure: Failure,
    wanted: Result<(), WriteFault>,
) -> bool {
    let mut writer = InterruptedWriter::new(alloc, room, at_once, failure);
    let got = write_report(run, Some(AuditFault::Differs(u32::MAX)), &mut writer);
    got == wanted
        && writer.taken.len() == room.min(LARGEST.len())
        && LARGEST.as_bytes().starts_with(writer.taken.as_slice())
}

const FAILED: Result<(), WriteFault> = Err(WriteFault::Write);

/// Rooms of a writer, how many bytes it takes at a time, how it fails, and the result.
const ROWS: &[(usize, usize, Failure, Result<(), WriteFault>)] = &[
    (1_457, 100, Failure::Write, Ok(())),
    (1_457, 1, Failure::Full, Ok(())),
    (usize::MAX, 100, Failure::Write, Ok(())),
    (usize::MAX, 100, Failure::Flush, FAILED),
];

#[test]
fn longest_reports_are_written(rt: HostRuntime) {
    let run = largest(&rt, rt.alloc());
    for (room, at_once, failure, wanted) in ROWS {
        let is_right = is_written(rt.alloc(), &run, *room, *at_once, *failure, *wanted);
        assert!(rt; is_right, "{room}");
    }
}

/// Whether a writer that fails after these bytes is reported, however it fails.
fn is_reported(alloc: Global, run: &RunRecord, room: usize) -> bool {
    is_written(alloc, run, room, 100, Failure::Write, FAILED)
        && is_written(alloc, run, room, 100, Failure::Full, FAILED)
}

#[test]
fn fails_with_its_writer(rt: HostRuntime) {
    let run = largest(&rt, rt.alloc());
    assert!(rt; LARGEST.len() == 1_457);
    for room in 0..1_457 {
        assert!(rt; is_reported(rt.alloc(), &run, room), "{room}");
    }
}
