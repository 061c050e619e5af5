//! Which words the program was started with.

use super::doubles::{SCRIPT, TEXT};
use cell_app::start::start;
use program_shell::{Exit, fail, words_of};
use std::alloc::{AllocError, Global};
use std::sync::Wait;
use std::thread::Threads;
use test_doubles::{Given, arguments_between, count_parts, part};

/// Arguments with a semicolon between each two of them; bars separate the rows. The first is the program's own name:
/// whatever it is, the first word is `cell`. No later one is left out or changed, whatever it is to `clap`.
const ROWS: &str = "\
    ./cell;sim|\
    ;sim|\
    replay;sim|\
    cell;;\u{e9}|\
    cell;--|\
    cell;-|\
    cell;|\
    cell; \t  |\
    cell;--;run;-;--turns=3;;--;   ;\n;--|\
    cell;run;--turns;3;--tries;64;a;b;c|\
    cell;run;--turns;3;--tries;64;a;b;c;d";

/// Whether words are `cell` and the later ones of these arguments.
fn are_words(words: &[String], arguments: &str) -> bool {
    if words.len() != count_parts(arguments, ";") {
        return false;
    }
    for at in 0..words.len() {
        let wanted = if at == 0 {
            "cell"
        } else {
            part(arguments, ";", at)
        };
        if words[at].as_str() != wanted {
            return false;
        }
    }
    true
}

/// Whether a row's arguments are read as its words.
fn is_read(alloc: Global, row: &str) -> bool {
    let Ok(arguments) = arguments_between(alloc, row, ";") else {
        return false;
    };
    let env = Given {
        arguments: arguments.as_slice(),
    };
    match words_of(alloc, &env) {
        Ok(words) => are_words(words.as_slice(), row),
        Err(_) => false,
    }
}

#[test]
fn reads_the_words_after_the_name(rt: HostRuntime) {
    for number in 0..count_parts(ROWS, "|") {
        let row = part(ROWS, "|", number);
        assert!(rt; is_read(rt.alloc(), row), "{row}");
    }
}

/// Adds a word of 6,000 bytes, one with blanks, and a thousand short ones.
fn push_words(row: &mut String) -> Result<(), AllocError> {
    row.push_str("cell;")?;
    for _ in 0..2_000u32 {
        row.push_str("ab ")?;
    }
    row.push_str("; a\t")?;
    for _ in 0..100u32 {
        row.push_str(";a;b;c;d;e;f;g;h;i;j")?;
    }
    Ok(())
}

#[test]
fn reads_a_thousand_words(rt: HostRuntime) {
    let mut row = String::new(rt.alloc());
    let is_made = push_words(&mut row).is_ok();
    assert!(rt; is_made && is_read(rt.alloc(), row.as_str()));
}

// A fault of five thousand bytes.
#[test]
fn writes_a_long_fault_whole(rt: HostRuntime) -> Result<(), AllocError> {
    let fault = "long ".repeat(rt.alloc(), 1_000)?;
    let mut written = Vec::new(rt.alloc());
    let exit = fail(&mut written, fault.as_str());
    let line = written.as_slice();
    let is_whole = line.len() == 5_007
        && line.starts_with(b"fault long ")
        && line.ends_with(b"long \n");
    assert!(rt; exit == Exit::Failed && is_whole);
    Ok(())
}

/// Whether the program, started with these arguments, answers the script with this status and text.
fn is_started_by<T: Threads + Wait + Sync>(
    rt: &T,
    alloc: Global,
    arguments: &[&[u8]],
    status: u8,
    text: &str,
) -> bool {
    let mut written = Vec::new(alloc);
    let env = Given { arguments };
    let answered = start(rt, alloc, &env, &mut SCRIPT.as_bytes(), &mut written);
    answered == status && written.as_slice() == text.as_bytes()
}

/// Arguments, the status and the text. The last ones have no name.
const STARTED: &[(&[&[u8]], u8, &str)] = &[
    (&[b"bad\xff", b"replay"], 0, TEXT),
    (&[b""], 0, TEXT),
    (&[b"cell", b"\xff"], 2, "error: a word isn't UTF-8\n"),
    (&[], 0, TEXT),
];

#[test]
fn starts(rt: HostRuntime) {
    for (arguments, status, text) in STARTED {
        let is_started = is_started_by(&rt, rt.alloc(), arguments, *status, text);
        assert!(rt; is_started, "{} arguments", arguments.len());
    }
}
