//! What the program answers: to scripts and configurations, and to words that ask for help or are refused.

use super::doubles::{SCRIPT, is_answered, is_row, run};
use super::reports::{LONGEST, REPORTS};
use std::alloc::{AllocError, Global};
use std::sync::Wait;
use std::thread::Threads;
use test_doubles::{count_parts, part};

/// Words, the status, an input and the text. The words that are refused have the whole text, as `clap` writes it of any
/// program: an unknown option, a number out of range, a number that is none, a second script, and an unknown command.
/// The last ones are configurations that are refused.
const ROWS: &str = "\
    cell => 0 => start,0000000000\npress,claim,z3\nrobot,claim,z3\npress,release,z3\nrobot,claim,z3\n\
        watch,inquire,z3\n \
        => 0 0 start 0\n1 1 done\n2 1 held press\n3 2 done\n4 2 shut closed\n5 2 zone free 0 closed\n|\
    cell replay => 0 => start,0000000000\npress,claim,z3\nrobot,claim,z3\n \
        => 0 0 start 0\n1 1 done\n2 1 held press\n|\
    cell -- => 0 => start,0000000000\npress,claim,z3\nrobot,claim,z3\n \
        => 0 0 start 0\n1 1 done\n2 1 held press\n|\
    cell => 1 =>  => fault nostart\n|\
    cell replay => 1 => start,1\n => fault badstart\n|\
    cell => 0 => start2,0000000000\nwatch,stop\n => 0 0 start2 0\n1 1 done\n|\
    cell --nope => 2 =>  => error: unexpected argument '--nope' found\n\nUsage: cell [COMMAND]\n\n\
        For more information, try '--help'.\n|\
    cell run --turns 0 => 2 =>  => error: invalid value '0' for '--turns <N>': 0 is not in 1..=100000\n\n\
        For more information, try '--help'.\n|\
    cell run --tries=x => 2 =>  => error: invalid value 'x' for '--tries <N>': invalid digit found in string\n\n\
        For more information, try '--help'.\n|\
    cell replay other.csv => 2 =>  => error: unexpected argument 'other.csv' found\n\nUsage: cell replay\n\n\
        For more information, try '--help'.\n|\
    cell go => 2 =>  => error: unrecognized subcommand 'go'\n\nUsage: cell [COMMAND]\n\n\
        For more information, try '--help'.\n|\
    cell sim => 1 =>  => fault config missing\n|\
    cell sim => 1 => colour = 1 => fault config unknown\n|\
    cell sim => 1 => start = \"00 => fault config text\n|\
    cell sim => 1 => start = 5 => fault config kind\n|\
    cell sim => 1 => start = \"0000110000\" => fault config start\n|\
    cell sim => 1 => start = \"0000000000\"\nstamp = -1 => fault config range\n|\
    cell sim => 1 => start = \"0000000000\"\nschedule = \"x\" => fault config letter\n|\
    cell run --turns 3 --tries 64 => 1 =>  => fault config missing\n|\
    cell run --turns 3 --tries 64 => 1 => colour = 1 => fault config unknown\n|\
    cell run --turns 3 --tries 64 => 1 => start = \"0000000000\"\nschedule = \"x\" => fault config letter\n|\
    cell run => 1 => start = 5 => fault config kind\n";

const TABLES: &[&str] = &[ROWS, REPORTS];

#[test]
fn serves(rt: HostRuntime) {
    for rows in TABLES {
        for number in 0..count_parts(rows, "|") {
            let row = part(rows, "|", number);
            assert!(rt; is_row(&rt, rt.alloc(), row), "{row}");
        }
    }
}

/// Whether a configuration with one byte too many is refused as too long.
fn is_too_long<T: Threads + Wait + Sync>(rt: &T, alloc: Global) -> bool {
    match vec![in alloc; b' '; 2_097_153] {
        Ok(long) => is_answered(
            rt,
            alloc,
            "cell sim",
            &mut long.as_slice(),
            "1",
            "fault config long\n",
        ),
        Err(_) => false,
    }
}

#[test]
fn tells_a_long_configuration(rt: HostRuntime) {
    assert!(rt; is_too_long(&rt, rt.alloc()));
}

// A schedule as long as one may be. Nearly every turn asks, so nearly as many entries are audited.
#[test]
fn simulates_the_longest_schedule(rt: HostRuntime) -> Result<(), AllocError> {
    let schedule = "tp".repeat(rt.alloc(), 500_000)?;
    let config = format!(in rt.alloc(); "start = \"0010000000\"\nschedule = \"{schedule}\"\n")?;
    let mut reader = config.as_bytes();
    assert!(rt; is_answered(&rt, rt.alloc(), "cell sim", &mut reader, "0", LONGEST));
    Ok(())
}

/// Words that ask for help, for the version, or for nothing that there is; the status; and what the text has, in this
/// order. Semicolons separate its parts. Help says what is read, what is written, what explains a refusal, where the
/// formats are described, and an example.
const WORDS: &str = "\
    cell --help => 0 => Usage: cell [COMMAND];replay;sim;run;docs/FORMATS.md;`explain`;\
        cell replay < examples/interior.csv;cell sim < examples/press.toml;\
        cell run --turns 3 --tries 64 < examples/six_workers.toml|\
    cell -h => 0 => Usage: cell [COMMAND];replay;sim;run;docs/FORMATS.md;`explain`;\
        cell replay < examples/interior.csv;cell sim < examples/press.toml;\
        cell run --turns 3 --tries 64 < examples/six_workers.toml|\
    cell replay --help => 0 => Usage: cell replay;Reads a script;Writes a line for each record;\
        `explain replay < FILE`;docs/FORMATS.md;cell replay < examples/interior.csv|\
    cell sim --help => 0 => Usage: cell sim;Reads a configuration;Writes a report;\
        `explain sim < FILE`;docs/FORMATS.md;cell sim < examples/press.toml|\
    cell run --help => 0 => Usage: cell run [OPTIONS];--turns <N>;[default: 1000];--tries <N>;[default: 8];\
        Reads a configuration;Writes a;docs/FORMATS.md;cell run --turns 3 --tries 64 < examples/six_workers.toml|\
    cell help => 0 => cell|\
    cell --help go --version => 0 => cell|\
    cell run --turns 3 --help => 0 => cell|\
    cell --version => 0 => cell|\
    cell go --help => 2 => error: |\
    cell sim run --help => 2 => error: |\
    cell --version --help => 2 => error: |\
    cell -V => 2 => error: |\
    cell version => 2 => error: |\
    cell --version sim => 2 => error: |\
    cell sim --version => 2 => error: |\
    cell go => 2 => error: |\
    cell sim sim => 2 => error: |\
    cell run run => 2 => error: |\
    cell run --turns => 2 => error: |\
    cell run --turns 0 => 2 => error: |\
    cell run --turns 100001 => 2 => error: |\
    cell run --turns x => 2 => error: |\
    cell run --turns -1 => 2 => error: |\
    cell run --turns= => 2 => error: |\
    cell run --turns 3 4 => 2 => error: |\
    cell run --turns 3 --turns 3 => 2 => error: |\
    cell run --tries => 2 => error: |\
    cell run --tries 0 => 2 => error: |\
    cell run --tries 65 => 2 => error: |\
    cell run --tries 18446744073709551617 => 2 => error: |\
    cell run --tries 1.0 => 2 => error: |\
    cell run --tries=3 --tries=3 => 2 => error: |\
    cell run -t 3 => 2 => error: |\
    cell sim --turns 3 => 2 => error: |\
    cell --turns 3 run => 2 => error: |\
    cell replay replay => 2 => error: |\
    cell --turns 3 => 2 => error: |\
    cell --nope => 2 => error: |\
    cell run --tries=x => 2 => error: |\
    cell replay other.csv => 2 => error: |\
    cell simulate => 2 => error: |\
    cell run 3 => 2 => error: |\
    cell Replay => 2 => error: |\
    cell  => 2 => error: ";

/// Whether a text has these parts, in this order. Semicolons separate them.
fn has_in_order(text: &str, parts: &str) -> bool {
    let mut rest = text;
    for number in 0..count_parts(parts, ";") {
        match rest.split_once(part(parts, ";", number)) {
            Some((_, after)) => rest = after,
            None => return false,
        }
    }
    true
}

/// Whether the words of a row are answered so, and the script isn't read. For status 2, and only then, the text begins
/// with `error: `.
fn is_told<T: Threads + Wait + Sync>(rt: &T, alloc: Global, row: &str) -> bool {
    let mut script = SCRIPT.as_bytes();
    let mut written = Vec::new(alloc);
    let digit = [b'0'.wrapping_add(run(
        rt,
        alloc,
        part(row, " => ", 0),
        &mut script,
        &mut written,
    ))];
    let status = part(row, " => ", 1);
    let is_unread = script.len() == SCRIPT.len();
    match str::from_utf8(written.as_slice()) {
        Ok(text) => {
            is_unread
                && digit.as_slice() == status.as_bytes()
                && text.starts_with("error: ") == (status == "2")
                && has_in_order(text, part(row, " => ", 2))
        }
        Err(_) => false,
    }
}

#[test]
fn serves_other_words(rt: HostRuntime) {
    for number in 0..count_parts(WORDS, "|") {
        let row = part(WORDS, "|", number);
        assert!(rt; is_told(&rt, rt.alloc(), row), "{row}");
    }
}
