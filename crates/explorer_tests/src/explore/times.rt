//! How long the program says that it took.

use super::doubles::{GivenClock, run};
use explore_app::timing::tell_time;
use std::alloc::Global;
use std::thread::Threads;
use std::time::Instant;
use test_doubles::{FailingWriter, count_parts, part};

/// What the clock shows at the beginning and at the end, in thousandths of a second, and what is told. The last ones
/// are a clock that goes back, and clocks that can't be read.
const ROWS: &str = "\
    0 0 => took 0.000 s\n|\
    1000 1007 => took 0.007 s\n|\
    250 3391 => took 3.141 s\n|\
    5 3600055 => took 3600.050 s\n|\
    9 4 => took 0.000 s\n|\
    none 4 => |\
    4 none => |\
    none none => ";

/// Whether a row's time is told so.
fn is_told(alloc: Global, row: &str) -> bool {
    let times = part(row, " => ", 0);
    let clock = GivenClock::new(
        part(times, " ", 0).parse().ok(),
        part(times, " ", 1).parse().ok(),
    );
    let mut told = Vec::new(alloc);
    let begun = Instant::now(&clock);
    tell_time(&clock, begun, &mut told);
    told.as_slice() == part(row, " => ", 1).as_bytes()
}

#[test]
fn tells_how_long_it_took(rt: HostRuntime) {
    for number in 0..count_parts(ROWS, "|") {
        let row = part(ROWS, "|", number);
        assert!(rt; is_told(rt.alloc(), row), "{row}");
    }
}

/// Words, the status, an input, what the text begins with, and what is told.
const RUNS: &str = "\
    ./explore => 1 => start = 5\n => fault config kind\n => took 2.500 s\n|\
    ./explore => 1 => start = \"0000000000\"\n => # plates 0\n => took 2.500 s\n|\
    ./explore --help => 0 =>  => Reads a configuration => |\
    ./explore --version => 0 =>  => explore  => |\
    ./explore -V => 2 =>  => error:  => ";

/// Whether a run that takes 2.5 s answers so, and tells its time up to where the progress fails, and not the writer.
fn is_timed<T: Threads + Sync>(rt: &T, alloc: Global, row: &str, left: usize) -> bool {
    let clock = GivenClock::new(Some(100), Some(2_600));
    let mut reader = part(row, " => ", 2).as_bytes();
    let mut written = Vec::new(alloc);
    let mut progress = FailingWriter::new(alloc, left);
    let line = part(row, " => ", 0);
    let status = run(
        rt,
        &clock,
        alloc,
        line,
        &mut reader,
        &mut written,
        &mut progress,
    );
    let digit = [b'0'.wrapping_add(status)];
    let told = part(row, " => ", 4).as_bytes();
    digit.as_slice() == part(row, " => ", 1).as_bytes()
        && written
            .as_slice()
            .starts_with(part(row, " => ", 3).as_bytes())
        && progress.taken.len() == left.min(told.len())
        && told.starts_with(progress.taken.as_slice())
}

// What can't be told changes neither the text nor the status.
#[test]
fn tells_progress_and_not_the_writer(rt: HostRuntime) {
    for number in 0..count_parts(RUNS, "|") {
        let row = part(RUNS, "|", number);
        assert!(rt; is_timed(&rt, rt.alloc(), row, 100), "{row}");
    }
    for left in 0..12usize {
        assert!(rt;
            is_timed(&rt, rt.alloc(), part(RUNS, "|", 0), left),
            "after {left}"
        );
    }
}
