//! The program's words, exit statuses and fault lines.

use history_app::serve::start;
use std::alloc::Global;
use std::sync::Wait;
use std::thread::Threads;
use test_doubles::{Given, arguments_in, count_parts, part};

/// Words, the status as a digit, a configuration, and what is written; or only what it begins with if that is no whole
/// line.
///
/// With the last stamp each claim is worn, whichever thread comes first. Four machines stop in their first turn. The
/// others go on: the robot looks three times, the crane twice.
const ROWS: &str = "\
    history --turns 4 => 1 => start = \"0000000000\"\nstamp = 1048575\n \
        => start,0000000000,1048575\nfeed,claim,z6\ntable,claim,z1\n\
        robot,inquire,z2\nrobot,inquire,z2\nrobot,inquire,z2\npress,claim,z3\ndeposit,claim,z4\n\
        crane,inquire,z5\ncrane,inquire,z5\n|\
    history => 1 =>  => fault config missing\n|\
    history --turns=30000 --tries=64 => 1 => start = \"0000000000\"\n => fault long\n|\
    history --turns 1 => 0 => start = \"0000000000\"\n => start,0000000000|\
    history --help => 0 => start = \"0000000000\"\n => Runs the six machines|\
    history -h => 0 => start = \"0000000000\"\n => Runs the six machines|\
    history --turns 1 --help => 0 => start = \"0000000000\"\n => Runs the six machines|\
    history --version => 0 => start = \"0000000000\"\n => history |\
    history run => 2 => start = \"0000000000\"\n \
        => error: the only arguments are --turns N, --tries N, --help and --version\n|\
    history --version --help => 2 =>  => error: |\
    history help => 2 =>  => error: |\
    history -V => 2 =>  => error: |\
    history --version --turns=1 => 2 =>  => error: |\
    history --turns 0 => 2 =>  => error: |\
    history --tries 65 => 2 =>  => error: ";

/// Whether the program, started by these arguments, answers a row so.
fn is_started_by<T: Threads + Wait + Sync>(
    rt: &T,
    alloc: Global,
    arguments: &[&[u8]],
    row: &str,
) -> bool {
    let mut reader = part(row, " => ", 2).as_bytes();
    let mut written = Vec::new(alloc);
    let digit = [b'0'.wrapping_add(start(
        rt,
        alloc,
        &Given { arguments },
        &mut reader,
        &mut written,
    ))];
    let text = part(row, " => ", 3);
    digit.as_slice() == part(row, " => ", 1).as_bytes()
        && written.as_slice().starts_with(text.as_bytes())
        && (written.len() == text.len() || !text.ends_with("\n"))
}

/// Whether it does so started by the words of the row.
fn is_row<T: Threads + Wait + Sync>(rt: &T, alloc: Global, row: &str) -> bool {
    match arguments_in(alloc, part(row, " => ", 0)) {
        Ok(arguments) => is_started_by(rt, alloc, arguments.as_slice(), row),
        Err(_) => false,
    }
}

/// Arguments, and a row that is answered to them. The program's own name may be any bytes, or missing; a word may not.
const STARTED: &[(&[&[u8]], &str)] = &[
    (
        &[b"bad\xff", b"\xff"],
        " => 2 =>  => error: a word isn't UTF-8\n",
    ),
    (&[b"bad\xff"], " => 1 =>  => fault config missing\n"),
    (&[], " => 1 =>  => fault config missing\n"),
];

#[test]
fn is_served_as_cell_serves(rt: HostRuntime) {
    for number in 0..count_parts(ROWS, "|") {
        let row = part(ROWS, "|", number);
        assert!(rt; is_row(&rt, rt.alloc(), row), "{row}");
    }
    for (arguments, row) in STARTED {
        assert!(rt; is_started_by(&rt, rt.alloc(), arguments, row), "{row}");
    }
}
