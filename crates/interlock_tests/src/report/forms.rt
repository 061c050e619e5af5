//! How records are separated, quoted and spelled. Bars separate the scripts of a text.

use cell_replay::replay;
use std::alloc::Global;
use std::process::Abort;
use test_doubles::{bytes_in, count_parts, part};

/// Record 0 and a claim of the press's zone, with other line ends, quotes and a byte order mark.
const FORMS: &str = "\
    start,0000000000\npress,claim,z3\n|\
    start,0000000000\npress,claim,z3|\
    start,0000000000\r\npress,claim,z3\r\n|\
    start,0000000000\rpress,claim,z3\r|\
    \n\r\n\nstart,0000000000\n\n\rpress,claim,z3\n\n|\
    \u{feff}start,0000000000\npress,claim,z3\n|\
    \"start\",\"0000000000\"\n\"press\",claim,\"z3\"\n|\
    start,0000000000\n\"pre\"ss,claim,z3\n|\
    start,0000000000\npress,claim,\"z3|\
    start,0000000000,0\npress,claim,z3\n";

/// As other systems save a text: a byte order mark, Windows line ends, no line end at the end.
const SAVED: &str = "\
    \u{feff}start,0000000000\r\npress,claim,z3|\
    \u{feff}\r\nstart,0000000000\r\n\r\npress,claim,z3\r\n\r\n|\
    \u{feff}\"start\",0000000000\npress,claim,z3\n|\
    start,0000000000\n\"press\",\"claim\",\"z3\"\r\n|\
    start,0000000000\r\n\"press\",claim,z3\n";

/// Records that are no requests.
const NO_REQUESTS: &str = "\
    start,0000000000\npress,cla|\
    start,0000000000\npress,claim,z3,\n|\
    start,0000000000\npress,claim\n|\
    start,0000000000\npress\n|\
    start,0000000000\npress,advance,\n|\
    start,0000000000\npress,pose,z3\n|\
    start,0000000000\npress,claim,middle\n|\
    start,0000000000\npress,Claim,z3\n|\
    start,0000000000\nPress,claim,z3\n|\
    start,0000000000\npress,claim,Z3\n|\
    start,0000000000\n press,claim,z3\n|\
    start,0000000000\npress,claim,z0\n|\
    start,0000000000\npr\"ess,claim,z3\n|\
    start,0000000000\npress,claim,\"z\"\"3\"\n|\
    start,0000000000\npress,claim,\"z3\npress,claim,z3\n|\
    start,0000000000\n\u{feff}press,claim,z3\n|\
    start,0000000000\nstart,0000000000\n";

/// Blanks, tabs and zero bytes are part of a field, and so is a quote that doesn't begin it.
const ODD_FIELDS: &str = "\
    start,0000000000\r\npress, claim, z3\r\n|\
    start,0000000000\r\npress,claim,z3 \r\n|\
    start,0000000000\n \npress,claim,z3\n|\
    start,0000000000\npress,claim,\tz3\n|\
    start,0000000000\npress,claim,z3\u{0}\n|\
    start,0000000000\n\u{0}\n|\
    start,0000000000\npress,claim,z3\"\"\n|\
    start,0000000000\npress, \"claim\",z3\n|\
    start,0000000000\npress,claim,\"z3\" \n|\
    start,0000000000\n\"press,claim,z3\"\n|\
    start,0000000000\npress,claim,\u{feff}z3\n";

/// Other separators, a header, a remark, empty fields.
const OTHER_FORMATS: &str = "\
    start,0000000000\npress;claim;z3\n|\
    start,0000000000\npress\tclaim\tz3\n|\
    start,0000000000\nmachine,verb,zone\n|\
    start,0000000000\n# press,claim,z3\n|\
    start,0000000000\n,,\n|\
    start,0000000000\n\"\"\n|\
    start,0000000000\nPRESS,CLAIM,Z3\n";

/// Blank lines aren't numbered; a record in quotes has one number.
const NUMBERED: &str = "\
    start,0000000000\n\n\r\n\npress\n|\
    start,0000000000\n\"press\n\n\",claim,z3\n";

/// Scripts without a start.
const NO_STARTS: &str = "\
    \n\n|\
    \u{feff}|\
    press,claim,z3\n|\
    Start,0000000000\n|\
    start \n|\
    ,0000000000\n|\
    start3,0000000000\n|\
    start22,0000000000\n|\
    start 2,0000000000\n|\
    START2,0000000000\n";

/// Quotes aren't part of a field, and a field is compared whole.
const OTHER_STARTS: &str = "\
    \"start,0000000000\"\n|\
    \"start2,0000000000\"\n|\
    \"start\"3,0000000000\n|\
    \r\n\r\n\r\n|\
    \u{feff}\u{feff}start,0000000000\n|\
    \n\u{feff}start,0000000000\n|\
    machine,verb,zone\nstart,0000000000\n|\
    \u{20}\nstart,0000000000\n|\
    \"\"\nstart,0000000000\n|\
    start;0000000000\n|\
    start\t0000000000\n|\
    START,0000000000\n|\
    \u{0}start,0000000000\n|\
    # start,0000000000\n";

/// Starts that are none.
const BAD_STARTS: &str = "\
    start\n|\
    start,\n|\
    start,000000000\n|\
    start,00000000000\n|\
    start,0000000002\n|\
    start,000000000 \n|\
    start,0000110000\n|\
    start,0000000000,\n|\
    start,0000000000,1048576\n|\
    start,0000000000,01048575\n|\
    start,0000000000,-1\n|\
    start,0000000000,+1\n|\
    start,0000000000, 1\n|\
    start,0000000000,1/\n|\
    start,0000000000,1:\n|\
    start,0000000000,1a\n|\
    start,0000000000,5,\n|\
    \"start\"\n|\
    start, 0000000000\n|\
    start,0000000000 \r\n|\
    start,000000000\u{0}\n|\
    start,0000000000\u{2028}press,claim,z3\n|\
    start,0000000000,9999999\n|\
    start,0000000000,00000000\n|\
    start,0000000000,\u{665}\n|\
    start,\"0000000000\npress,claim,z3\n";

/// In the second version as in the first.
const SECOND_STARTS: &str = "\
    start2\n|\
    start2,\n|\
    start2,000000000\n|\
    start2,0000000002\n|\
    start2,0000110000\n|\
    start2,0000000000,\n|\
    start2,0000000000,1048576\n|\
    start2,0000000000,00000000\n|\
    start2,0000000000,5,\n|\
    start2,start,0000000000\n";

const CLAIMED: &str = "0 0 start 0\n1 1 done\n";

const BAD_ROW: &str = "0 0 start 0\nfault badrow 1\n";

/// Groups of scripts with the same answer.
const GROUPS: &[(&str, &str)] = &[
    (FORMS, CLAIMED),
    (SAVED, CLAIMED),
    (NO_REQUESTS, BAD_ROW),
    (ODD_FIELDS, BAD_ROW),
    (OTHER_FORMATS, BAD_ROW),
    (NUMBERED, BAD_ROW),
    (NO_STARTS, "fault nostart\n"),
    (OTHER_STARTS, "fault nostart\n"),
    (BAD_STARTS, "fault badstart\n"),
    (SECOND_STARTS, "fault badstart\n"),
];

/// Whether a script is answered with this text. Which outcome has which text, the clauses of `replay` say.
fn is_told(alloc: Global, script: &[u8], text: &str) -> bool {
    let mut written = Vec::new(alloc);
    let got = replay(alloc, &mut &*script, &mut written);
    got.is_ok() && written.as_slice() == text.as_bytes()
}

/// Each of these scripts is answered with this text.
fn expect_told(rt: &impl Abort, alloc: Global, scripts: &str, text: &str) {
    for number in 0..count_parts(scripts, "|") {
        let script = part(scripts, "|", number);
        assert!(rt; is_told(alloc, script.as_bytes(), text), "{script}");
    }
}

#[test]
fn reads_records(rt: HostRuntime) {
    for (scripts, text) in GROUPS {
        expect_told(&rt, rt.alloc(), scripts, text);
    }
}

/// Scripts, in which each character stands for a byte, each with its answer: starts with a stamp or of the second
/// version; bytes that aren't UTF-8, and what other systems put at the end of a text; a part of a byte order mark, and
/// the one of UTF-16.
const ROWS: &str = "\
    start,0000000000,0000005\n => 0 5 start 0\n|\
    start,0000010001,1048575\n => 0 1048575 start 2\n|\
    start,0000000000,0000000\r\n => 0 0 start 0\n|\
    start,0000000000,\"0000005 => 0 5 start 0\n|\
    start2,0000000000\n => 0 0 start2 0\n|\
    \"start\"2,0000000000\n => 0 0 start2 0\n|\
    \u{ef}\u{bb}\u{bf}start2,0000010001,1048575\r\n => 0 1048575 start2 2\n|\
    start,0000000000\npress,claim,z3\u{ff}\n => 0 0 start 0\nfault badrow 1\n|\
    start,0000000000\r\npress,claim,z3\r\n\u{1a} => 0 0 start 0\n1 1 done\nfault badrow 2\n|\
    start,0000000000\npress,claim,z3\n\u{ff} => 0 0 start 0\n1 1 done\nfault badrow 2\n|\
    start,000000000\u{ff}\n => fault badstart\n|\
    \u{ef}\u{bb}start,0000000000\n => fault nostart\n|\
    \u{ff}\u{fe}s\0t\0a\0r\0t\0 => fault nostart\n";

/// Whether a row's script is answered with the row's text.
fn is_row(alloc: Global, row: &str) -> bool {
    match bytes_in(alloc, part(row, " => ", 0)) {
        Ok(script) => is_told(alloc, script.as_slice(), part(row, " => ", 1)),
        Err(_) => false,
    }
}

#[test]
fn reads_stamps_and_bytes(rt: HostRuntime) {
    for number in 0..count_parts(ROWS, "|") {
        let row = part(ROWS, "|", number);
        assert!(rt; is_row(rt.alloc(), row), "{row}");
    }
}
