//! Configurations: what they give, and why they are refused.

use super::hostile_configurations::SENT;
use cell_config::{Config, ConfigFault, read_config};
use cell_types::Place;
use std::alloc::{AllocError, Global};
use std::io::Read;
use test_doubles::{FailingReader, bytes_in, count_parts, part};

/// Whole texts, each with its judgement. It is the text of the fault; or `well`, the places with plates, the stamp, the
/// turns, with a mark those that get Busy, and of each potentiometer both raw values, both positions and the tolerance,
/// and then a dot. A row may have the beginning alone. Bars separate the rows; in a row arrows separate the text, in
/// which each character stands for a byte, and the judgement. The last ones are the defaults, also after a byte order
/// mark; values; letters.
const TEXTS: &str = "\
    \u{20}=> config missing|\
    stamp = -1 => config missing|\
    colour = 1 => config unknown|\
    Start = \"0000000000\" => config unknown|\
    start = 5\ncolour = 1 => config unknown|\
    start = 5\narm1.colour = 1 => config unknown|\
    start = \"00 => config text|\
    start = \"0000000000\"\nstart = \"0000000000\" => config text|\
    start = 5 => config kind|\
    start = 5\nstamp = -1 => config kind|\
    start = \"000\" => config start|\
    start = \"00000000000\" => config start|\
    start = \"000000000 \" => config start|\
    start = \"0000000002\" => config start|\
    start = \"0000110000\" => config start|\
    start = \"1111100110\" => config start|\
    start = \"000\"\nstamp = \"0\" => config start|\
    start = \"000\"\narm1 = 3 => config start|\
    start = \"0000110000\"\nstamp = -1 => config range|\
    start = \"0000110000\"\nstamp = \"0\" => config kind|\
    schedule = 5\nstart = \"0000110000\" => config start|\
    start = \"0000000000\" => well 0000000000 0, 0 to 4000 0 to 1000 5, 0 to 4000 0 to 1000 5, \
        0 to 4000 0 to 2000 5, 0 to 4000 0 to 500 5, 0 to 4000 0 to 1000 5.|\
    \u{ef}\u{bb}\u{bf}start = \"0000000000\"\n => well 0000000000 0, 0 to 4000 0 to 1000 5, 0 to 4000 0 to 1000 5, \
        0 to 4000 0 to 2000 5, 0 to 4000 0 to 500 5, 0 to 4000 0 to 1000 5.|\
    gripper.tol = 9\nschedule = \"pTf\"\nstamp = 7\nstart = \"0100000001\"\n\
        [arm1]\nraw = [10, 1010]\n[arm2]\ntol = 2\n[rotation]\nraw = [0, 65535]\ntol = 3\n\
        [turn]\ntol = 4\nraw = [100, 600]\n \
        => well 0100000001 7 press table! feed, 10 to 1010 0 to 1000 5, 0 to 4000 0 to 1000 2, \
        0 to 65535 0 to 2000 3, 100 to 600 0 to 500 4, 0 to 4000 0 to 1000 9.|\
    start = \"0000000000\"\nschedule = \"ftrpdcwFTRPDCW\" \
        => well 0000000000 0 feed table robot press deposit crane watch \
        feed! table! robot! press! deposit! crane! watch!, 0 to 4000 0 to 1000 5, 0 to 4000 0 to 1000 5, \
        0 to 4000 0 to 2000 5, 0 to 4000 0 to 500 5, 0 to 4000 0 to 1000 5.";

const START: &str = "start = \"0000000000\"\n";

/// What stands beside a start: values that are refused, where arrays may be 80 deep, and not 81; values that are
/// accepted; the forms of TOML 1.1, and their limits.
const BESIDE_START: &str = "\
    stamp = 9223372036854775808 => config text|\
    stamp = 1e400 => config text|\
    stamp = 1.0 => config kind|\
    stamp = true => config kind|\
    stamp = -1 => config range|\
    stamp = 1048576 => config range|\
    schedule = 5 => config kind|\
    schedule = [\"p\"] => config kind|\
    schedule = \"x\" => config letter|\
    schedule = \"v\" => config letter|\
    schedule = \"wV\" => config letter|\
    schedule = \"p p\" => config letter|\
    schedule = \"p\u{c3}\u{a9}\" => config letter|\
    arm1 = 3 => config kind|\
    arm1 = [0, 4000] => config kind|\
    [[arm2]]\ntol = 5 => config kind|\
    arm1.raw = 4000 => config kind|\
    arm1.raw = [] => config kind|\
    arm1.raw = [0] => config kind|\
    arm1.raw = [0, 2000, 4000] => config kind|\
    arm1.raw = [0, 4000.0] => config kind|\
    arm1.raw = [\"0\", 4000] => config kind|\
    arm1.raw = [[0, 4000]] => config kind|\
    arm1.raw = [-1, \"4000\"] => config kind|\
    arm1.raw = [0, 999] => config range|\
    arm2.raw = [3000, 3999] => config range|\
    rotation.raw = [0, 1999] => config range|\
    turn.raw = [0, 499] => config range|\
    gripper.raw = [0, 999] => config range|\
    arm1.raw = [4000, 0] => config range|\
    arm1.raw = [-1, 4000] => config range|\
    arm1.raw = [0, 65536] => config range|\
    arm1.raw = [-9223372036854775808, 9223372036854775807] => config range|\
    turn.tol = 11 => config range|\
    turn.tol = 0 => config range|\
    turn.tol = 5.0 => config kind|\
    arm1.points = 5 => config kind|\
    arm1.points = [0, 1000] => config kind|\
    arm1.points = [[0, 0]] => config range|\
    arm1.points = [[0, 0], [3999, 1000]] => config range|\
    arm1.points = [[0, 0], [2000, 505], [4000, 1000]] => config range|\
    arm1.points = [[0, 0], [4, 1], [8, 2], [12, 3], [16, 4], [20, 5], [24, 6], [28, 7], [32, 8], [36, 9], \
        [40, 10], [44, 11], [48, 12], [52, 13], [56, 14], [60, 15], [64, 16], [68, 17], [72, 18], [76, 19], \
        [80, 20], [84, 21], [88, 22], [92, 23], [96, 24], [100, 25], [104, 26], [108, 27], [112, 28], [116, \
        29], [120, 30], [124, 31], [4000, 1000]] \
        => config range|\
    arm1.raw = [[[[[[[[[[[[[[[[[[[[[[[[[[[[[[[[[[[[[[[[[[[[[[[[[[[[[[[[[[[[[[[[[[[[[[[[[[[[[[[[\
        ]]]]]]]]]]]]]]]]]]]]]]]]]]]]]]]]]]]]]]]]]]]]]]]]]]]]]]]]]]]]]]]]]]]]]]]]]]]]]]]] => config kind|\
    arm1.raw = [[[[[[[[[[[[[[[[[[[[[[[[[[[[[[[[[[[[[[[[[[[[[[[[[[[[[[[[[[[[[[[[[[[[[[[[[[[[[[[[[\
        ]]]]]]]]]]]]]]]]]]]]]]]]]]]]]]]]]]]]]]]]]]]]]]]]]]]]]]]]]]]]]]]]]]]]]]]]]]]]]]]]] => config text|\
    \u{20}=> well|\
    stamp = 1048575 => well|\
    schedule = \"\" => well|\
    turn.raw = [0, 500] => well|\
    arm1.raw = [0, 1000] => well|\
    arm2.raw = [64535, 65535] => well|\
    rotation = { raw = [1, 2001], tol = 1 } => well|\
    [gripper]\ntol = 10 => well|\
    [gripper] => well|\
    arm1.points = [[0, 0], [4000, 1000]] => well|\
    arm1.points = [[0, 0], [2000, 504], [4000, 1000]] => well|\
    arm1.points = [[0, 0], [4, 1], [8, 2], [12, 3], [16, 4], [20, 5], [24, 6], [28, 7], [32, 8], [36, 9], \
        [40, 10], [44, 11], [48, 12], [52, 13], [56, 14], [60, 15], [64, 16], [68, 17], [72, 18], [76, 19], \
        [80, 20], [84, 21], [88, 22], [92, 23], [96, 24], [100, 25], [104, 26], [108, 27], [112, 28], [116, \
        29], [120, 30], [4000, 1000]] \
        => well|\
    stamp = 0x_7 => config text|\
    stamp = 0xF_F => well|\
    stamp = 0o17 => well|\
    stamp = 0b1 => well|\
    stamp = +1_000 => well|\
    stamp = 01 => config text|\
    \"stamp\" = 1 => well|\
    'stamp' = 1 => well|\
    stamp = 1\r\nschedule = 'p' => well|\
    schedule = 'ftrpdcw' => well|\
    schedule = \"\"\"\nft\\\n  rp\"\"\" => well|\
    schedule = '''\nft''' => well|\
    schedule = '''f\nt''' => config letter|\
    schedule = \"\\u0070\\x70\" => well|\
    schedule = \"\\p\" => config text|\
    arm1 = { raw = [\n  0, # at the near end\n  4000,\n], tol = 5 } => well|\
    arm1 = {\n  raw = [0, 4000],\n  tol = 5,\n} => well|\
    arm1.raw = [0, 4000]\narm1.tol = 5 => well|\
    [ arm1 ]\nraw = [0, 4000]\n[ 'arm2' ]\ntol = 5 => well|\
    [arm1]\ntol = 5\n[arm1]\nraw = [0, 4000] => config text|\
    arm1 = {}\narm1.tol = 5 => config text|\
    stamp = 1 schedule = \"p\" => config text|\
    stamp = 2026-11-22 => config kind|\
    stamp = inf => config kind|\
    arm1.raw = [[[[0]]]] => config kind|\
    # only a comment => well";

/// Adds what a configuration says.
fn push_summary(text: &mut String, config: &Config) -> Result<(), AllocError> {
    text.push_str("well ")?;
    for place in &Place::ALL {
        text.push_str(if config.start.is_full(*place) {
            "1"
        } else {
            "0"
        })?;
    }
    write!(text, " {}", config.start.stamp())?;
    for turn in &config.schedule {
        let mark = if turn.busy { "!" } else { "" };
        write!(text, " {}{mark}", turn.machine.word())?;
    }
    for points in &config.points {
        let (raw_lo, raw_hi, at_lo, at_hi) = (
            points.raw_lo(),
            points.raw_hi(),
            points.at_lo(),
            points.at_hi(),
        );
        write!(
            text,
            ", {raw_lo} to {raw_hi} {at_lo} to {at_hi} {}",
            points.tol()
        )?;
    }
    text.push_str(".")
}

/// Whether what a configuration says begins so.
fn says(alloc: Global, config: &Config, wanted: &str) -> bool {
    let mut text = String::new(alloc);
    push_summary(&mut text, config).is_ok() && text.as_str().starts_with(wanted)
}

/// Whether a text in three parts is judged so.
fn is_judged(alloc: Global, text: (&str, &[u8], &str), wanted: &str) -> bool {
    let (begin, middle, end) = text;
    let mut reader = begin.as_bytes().chain(middle).chain(end.as_bytes());
    match read_config(alloc, &mut reader) {
        Ok(config) => says(alloc, &config, wanted),
        Err(fault) => fault.text() == wanted,
    }
}

/// Tables of texts, and what stands before each text.
const TABLES: &[(&str, &str)] = &[("", TEXTS), (START, BESIDE_START), ("", SENT)];

/// Whether the text of a row is judged so after this beginning.
fn is_row(alloc: Global, begin: &str, row: &str) -> bool {
    match bytes_in(alloc, part(row, " => ", 0)) {
        Ok(bytes) => is_judged(alloc, (begin, bytes.as_slice(), ""), part(row, " => ", 1)),
        Err(_) => false,
    }
}

#[test]
fn judges_texts(rt: HostRuntime) {
    for (begin, rows) in TABLES {
        for number in 0..count_parts(rows, "|") {
            let row = part(rows, "|", number);
            assert!(rt; is_row(rt.alloc(), begin, row), "{row}");
        }
    }
}

/// Texts with a part that is repeated: the beginning, that part, the end, and the judgement. The part is a letter of a
/// schedule, of one byte or two, or a space.
const LONG: &str = "\
    start = \"0000000000\"\nschedule = ' => p => ' => well 0000000000 0 press press |\
    start = \"0000000000\"\nschedule = ' => p => ' => config range|\
    start = \"0000000000\"\nschedule = ' => x => ' => config range|\
    start = \"0000000000\"\nschedule = ' => \u{e9} => ' => config letter|\
    start = \"0000000000\"\nschedule = ' => \u{e9} => ' => config range|\
    start = \"0000000000\"\n => \u{20} =>  => well 0000000000 0,|\
    start = \"0000000000\"\n => \u{20} =>  => config long";

/// How often each part comes.
const COUNTS: [usize; 7] = [
    1_000_000, 1_000_001, 1_000_001, 1_000_000, 1_000_001, 2_097_131, 2_097_132,
];

/// Whether a row's text, in which its part comes this number of times, is judged so.
fn is_long_row(alloc: Global, row: &str, count: usize) -> bool {
    match part(row, " => ", 1).repeat(alloc, count) {
        Ok(middle) => {
            let text = (
                part(row, " => ", 0),
                middle.as_str().as_bytes(),
                part(row, " => ", 2),
            );
            is_judged(alloc, text, part(row, " => ", 3))
        }
        Err(_) => false,
    }
}

#[test]
fn judges_long_texts(rt: HostRuntime) {
    for number in 0..7usize {
        let row = part(LONG, "|", number);
        assert!(rt; is_long_row(rt.alloc(), row, COUNTS[number]), "{row}");
    }
    assert!(rt; is_read_bytewise(rt.alloc()));
}

/// Whether the longest text is read a byte at a time.
fn is_read_bytewise(alloc: Global) -> bool {
    match " ".repeat(alloc, 2_097_131) {
        Ok(mut text) => {
            let is_made = text.insert_str(0, START).is_ok() && text.len() == 2_097_152;
            let mut reader = FailingReader::new(text.as_str().as_bytes(), usize::MAX);
            is_made && read_config(alloc, &mut reader).is_ok()
        }
        Err(_) => false,
    }
}

/// All faults, in the order of their texts.
const FAULTS: [ConfigFault; 10] = [
    ConfigFault::Read,
    ConfigFault::Long,
    ConfigFault::Text,
    ConfigFault::Unknown,
    ConfigFault::Missing,
    ConfigFault::Kind,
    ConfigFault::Start,
    ConfigFault::Range,
    ConfigFault::Letter,
    ConfigFault::Memory,
];

const FAULT_TEXTS: &str = "\
read|config long|config text|config unknown|config missing|config kind|config start|config range|config letter|memory";

#[test]
fn prints_faults(rt: HostRuntime) -> Result<(), AllocError> {
    for number in 0..10usize {
        let printed = FAULTS[number].to_string(rt.alloc())?;
        assert!(rt;
            printed.as_str() == part(FAULT_TEXTS, "|", number),
            "{printed}"
        );
    }
    Ok(())
}
