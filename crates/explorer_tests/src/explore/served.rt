//! What the program answers to its words and its input: screens, exit statuses, help, fault lines; and where reading or
//! writing fails. The numbers of turns are those that plain Rust finds, written apart from the proved program.

use super::doubles::{GivenClock, run_unseen};
use explore_app::serve::start;
use std::alloc::Global;
use std::thread::Threads;
use test_doubles::{FailingReader, FailingWriter, Given, count_parts, part};

/// Words, the status, an input and the text; or only what it begins with if that is no whole line. Bars separate the
/// rows. That help and version are written whole, and then nothing is read, is what clauses of `serve` say.
const ROWS: &str = "\
./explore => 1 => start = \"0000000000\"\n => \
# plates 0
# a standstill after 21 turns, and no fewer
# feed waits for crane: take z6: notowner free
# table waits for feed: take z1: notowner free
# robot waits for table: inquire z2: zone table 0 closed
# press waits for robot: take z3: notowner free
# deposit waits for robot: take z4: notowner free
# crane waits for deposit: inquire z5: zone deposit 0 closed
start = \"0000000000\"
schedule = \"fffttttttppppppppppppppppppppppppppppppddddftrrpdccc\"
|\
./explore --starve => 1 => start = \"0000000000\"\n => \
# plates 0
# a standstill after 21 turns, and no fewer
# feed waits for crane: take z6: notowner free
# table waits for feed: take z1: notowner free
# robot waits for table: inquire z2: zone table 0 closed
# press waits for robot: take z3: notowner free
# deposit waits for robot: take z4: notowner free
# crane waits for deposit: inquire z5: zone deposit 0 closed
start = \"0000000000\"
schedule = \"fffttttttppppppppppppppppppppppppppppppddddftrrpdccc\"
|\
./explore => 0 => start = \"1000000000\"\n => \
# plates 1
# no standstill in any schedule before the last stamp: 49902 situations
# plates go on: a plate moves within k * 26 + k * k * 2 steps of a fair schedule
# each machine moves a plate within k * 96 + k * k * 2 steps
start = \"1000000000\"
|\
./explore => 0 => stamp = 1048575\nstart = \"0000000001\"\n => \
# plates 1
# no standstill in any schedule before the last stamp: 53918 situations
# plates go on: a plate moves within k * 26 + k * k * 2 steps of a fair schedule
# each machine moves a plate within k * 96 + k * k * 2 steps
start = \"0000000001\"
|\
./explore => 1 => start = \"0000000000\"\nschedule = \"x\"\n => fault config letter\n|\
./explore --starve => 1 => start = \"0000000000\"\nschedule = \"x\"\n => fault config letter\n|\
--all => 1 =>  => fault config missing\n|\
./explore => 1 => start = 5\n => fault config kind\n|\
./explore --version => 0 =>  => explore |\
./explore --help => 0 =>  => Reads a configuration, as `cell sim` does, and explores every schedule|\
\u{20}-h => 0 =>  => Reads a configuration, as `cell sim` does, and explores every schedule|\
./explore --help --help => 0 =>  => Reads a configuration|\
./explore --all --help => 0 =>  => Reads a configuration|\
./explore explore --help => 2 =>  => error: the only argument is --all, --starve, --help or --version\n|\
./explore --version --help => 2 =>  => error: the only argument is |\
./explore --version --version => 2 =>  => error: the only argument is |\
./explore --all --all => 2 =>  => error: the only argument is |\
./explore -V => 2 =>  => error: the only argument is |\
./explore help => 2 =>  => error: the only argument is |\
./explore  => 2 =>  => error: the only argument is |\
./explore explore => 2 =>  => error: the only argument is ";

/// Whether the program answers a row so, reads all its input, and tells no progress.
fn is_row<T: Threads + Sync>(rt: &T, alloc: Global, row: &str) -> bool {
    let (line, input) = (part(row, " => ", 0), part(row, " => ", 2));
    let (status, text) = (part(row, " => ", 1), part(row, " => ", 3));
    let mut reader = input.as_bytes();
    let mut written = Vec::new(alloc);
    let found = run_unseen(rt, alloc, line, &mut reader, &mut written);
    let digit = [b'0'.wrapping_add(found)];
    digit.as_slice() == status.as_bytes()
        && written.as_slice().starts_with(text.as_bytes())
        && (written.len() == text.len() || !text.ends_with("\n"))
        && reader.is_empty()
}

#[test]
fn serves(rt: HostRuntime) {
    for number in 0..count_parts(ROWS, "|") {
        let row = part(ROWS, "|", number);
        assert!(rt; is_row(&rt, rt.alloc(), row), "{row}");
    }
}

/// Starts with six plates that come to a standstill.
const RINGS: &str = "\
./explore => 1 => start = \"1011101010\"\n => \
# plates 6
# a standstill after 59 turns, and no fewer
# feed waits for table: claim z1: held table
# table waits for robot: give z2: placefull
# robot waits for deposit: claim z4: held deposit
# press waits for robot: take z3: notowner free
# deposit waits for crane: give z5: placefull
# crane waits for feed: claim z6: held feed
start = \"1011101010\"
schedule = \"f|\
./explore => 1 => start = \"0111001011\"\nturn = { raw = [100, 3800] }\n => \
# plates 6
# a standstill after 16 turns, and no fewer
# feed waits for table: claim z1: held table
# table waits for robot: give z2: placefull
# robot waits for deposit: claim z4: held deposit
# press waits for robot: take z3: notowner free
# deposit waits for crane: give z5: placefull
# crane waits for feed: claim z6: held feed
start = \"0111001011\"
schedule = \"f";

#[test]
fn shows_rings(rt: HostRuntime) {
    for number in 0..count_parts(RINGS, "|") {
        let row = part(RINGS, "|", number);
        assert!(rt; is_row(&rt, rt.alloc(), row), "{row}");
    }
}

/// The help. No clause has its text.
const HELP: &str = "\
Reads a configuration, as `cell sim` does, and explores every schedule from its start: whether
the six machines can come to a standstill, in which no machine can go on. Its schedule isn't used.
It prints a configuration whose comments say what was found: the number of situations, or the ring of
those who wait, and a schedule that leads there: explore < examples/standstill.toml | cell sim
Where there is no standstill, it says within how many steps plates move. A step is a turn that
changes something. A schedule is fair with bound k if the press is passed over fewer than k times
while it could go on, and each other machine waits for fewer than k steps on end.
--starve shows a round of turns that move no plate, though each machine waits for few steps on end,
and a schedule that goes round: explore --starve < examples/four_plates.toml | cell sim
--all explores all 685 starts in two threads, by their plates.
--version prints the version.
Standard error says how long it took.
Exit status: 0 on success and for help; 2 for bad arguments; otherwise 1: a standstill, a fair
schedule in which a machine starves, a refused configuration, a failed read or write, or no memory.
With --all it is 0 whatever was found of the starts.
";

/// Arguments, the status and the text. The name is no word: it may be any bytes, or absent.
const STARTED: &[(&[&[u8]], u8, &str)] = &[
    (&[], 1, "fault config letter\n"),
    (&[b"bad\xff", b"--help"], 0, HELP),
    (&[b"./explore", b"\xff"], 2, "error: a word isn't UTF-8\n"),
    (
        &[b"bad\xff", b"--all", b"\xff"],
        2,
        "error: a word isn't UTF-8\n",
    ),
];

/// Whether the program that is started with these arguments answers so. It reads its input and tells its time only if
/// it is asked of a start.
fn is_started_by<T: Threads + Sync>(
    rt: &T,
    alloc: Global,
    arguments: &[&[u8]],
    status: u8,
    text: &str,
) -> bool {
    let clock = GivenClock::new(Some(100), Some(2_600));
    let env = Given { arguments };
    let mut reader = "start = \"0000000000\"\nschedule = \"x\"\n".as_bytes();
    let mut written = Vec::new(alloc);
    let mut progress = Vec::new(alloc);
    let found = start(
        rt,
        &clock,
        alloc,
        &env,
        &mut reader,
        &mut written,
        &mut progress,
    );
    found == status
        && written.as_slice() == text.as_bytes()
        && reader.is_empty() == (status == 1)
        && progress.is_empty() != (status == 1)
}

#[test]
fn starts(rt: HostRuntime) {
    for (arguments, status, text) in STARTED {
        let is_started = is_started_by(&rt, rt.alloc(), arguments, *status, text);
        assert!(rt; is_started, "{} arguments", arguments.len());
    }
}

const EMPTY: &str = "start = \"0000000000\"\n";

/// Whether a reader that fails after `left` bytes leads to status 1 and the line of a failed read.
fn is_failed_read<T: Threads + Sync>(rt: &T, alloc: Global, left: usize) -> bool {
    let mut reader = FailingReader::new(EMPTY.as_bytes(), left);
    let mut written = Vec::new(alloc);
    let status = run_unseen(rt, alloc, "./explore", &mut reader, &mut written);
    status == 1 && written.as_slice() == "fault read\n".as_bytes()
}

#[test]
fn tells_a_failed_read(rt: HostRuntime) {
    for left in 0..EMPTY.len().saturating_add(1) {
        assert!(rt; is_failed_read(&rt, rt.alloc(), left), "after {left}");
    }
}

/// Whether a writer that fails after `left` bytes leads to this status, and has taken as many of a text.
fn is_cut<T: Threads + Sync>(
    rt: &T,
    alloc: Global,
    row: &str,
    status: u8,
    text: &[u8],
    left: usize,
) -> bool {
    let (line, input) = (part(row, " => ", 0), part(row, " => ", 1));
    let mut writer = FailingWriter::new(alloc, left);
    let found = run_unseen(rt, alloc, line, &mut input.as_bytes(), &mut writer);
    let taken = writer.taken.as_slice();
    found == status && taken.len() == left && text.starts_with(taken)
}

/// Whether a writer that fails leads to this status wherever it fails; of a screen, after each 97th byte and each of
/// the last ones.
fn are_all_cut<T: Threads + Sync>(
    rt: &T,
    alloc: Global,
    row: &str,
    status: u8,
    text: &[u8],
) -> bool {
    let step = if part(row, " => ", 1) == EMPTY { 97 } else { 1 };
    let mut are_all = true;
    for left in 0..text.len().saturating_add(1) {
        let is_tried = left % step == 0 || left.saturating_add(4) > text.len();
        are_all = are_all && (!is_tried || is_cut(rt, alloc, row, status, text, left));
    }
    are_all
}

/// Whether a writer that fails leads to status 1, or to that of refused words.
fn are_cut<T: Threads + Sync>(rt: &T, alloc: Global, row: &str) -> bool {
    let (line, input) = (part(row, " => ", 0), part(row, " => ", 1));
    let mut whole = Vec::new(alloc);
    let found = run_unseen(rt, alloc, line, &mut input.as_bytes(), &mut whole);
    let status = if found == 2 { 2 } else { 1 };
    are_all_cut(rt, alloc, row, status, whole.as_slice())
}

/// Words and an input.
const WRITTEN: &str = "\
    ./explore --help => |\
    ./explore -h => |\
    ./explore --version => |\
    ./explore -V => |\
    ./explore => start = \"0000000000\"\nschedule = \"x\"\n|\
    ./explore => start = \"0000000000\"\n";

// A writer that fails after the last byte fails at its flush.
#[test]
fn writes_a_prefix(rt: HostRuntime) {
    for number in 0..count_parts(WRITTEN, "|") {
        let row = part(WRITTEN, "|", number);
        assert!(rt; are_cut(&rt, rt.alloc(), row), "{row}");
    }
}
