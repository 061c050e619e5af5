//! What the program answers to its words: exit statuses and texts; and where reading or writing fails.

use super::answered_examples::PRESS;
use super::doubles::{are_answered, print_run, run};
use std::alloc::{AllocError, Global};
use std::sync::Wait;
use std::thread::Threads;
use std::time::Clock;
use test_doubles::{FailingReader, FailingWriter, arguments_in, count_parts, part};

/// Lines of words that are refused, that ask for help and for the version; and a document without bytes.
const WORDS: &str = "\
2: ./plan
2: ./plan sim
2: ./plan check check
2: ./plan checks --help
2: ./plan check replay --help
2: ./plan --version --help
2: ./plan check --version
2: ./plan help
2: ./plan header --rust
2: ./plan check --python
2: ./plan draw --python
2: ./plan check --page
2: ./plan explore --pages
2: ./plan explore --page --page
2: ./plan --page
2: ./plan run
2: ./plan run 5
2: ./plan run --turns
2: ./plan run --turns 0
2: ./plan run --turns 1000001
2: ./plan run --turns -5
2: ./plan run --turns=5
2: ./plan run --turns five
2: ./plan run --tries 5
2: ./plan run --turns 5 5
2: ./plan run --page
2: ./plan run --page --turns 5
2: ./plan run --turns 5 --pages
2: ./plan run --turns 0 --page
2: ./plan check --turns 5
2: ./plan words --word 0
2: ./plan words --page
2: ./plan words words
2: ./plan --word 0
2: ./plan check --word
2: ./plan check --word one
2: ./plan check --word -1
2: ./plan check --word 00000001
2: ./plan check --word=1
2: ./plan check --word 1 --word 1
2: ./plan check --memory 5 --word 1
2: ./plan explore --page --word 1
2: ./plan run --word 1
2: ./plan check --word 1 --help
2: ./plan 
=>
=>
error: the first argument is check, replay, explore, header, draw, run, words, --help or --version
--
0: ./plan --help
0: ./plan -h checks
0: ./plan check --help
0: ./plan replay -h
0: ./plan explore --help --version
0: ./plan header --help
0: ./plan draw --help
0: ./plan run --help
0: ./plan words --help
=>
=>
Reads a plan of a plant, in TOML[..]
--
0: ./plan --version
=>
=>
plan [..].[..].[..]
--
1: ./plan check
1: ./plan check --word 0
1: ./plan words
=>
=>
fault plan the document: there is no [[machine]]
";

/// Whether the program refuses these arguments with this text.
fn are_refused<T: Threads + Wait + Clock + Sync>(
    rt: &T,
    alloc: Global,
    arguments: &[&[u8]],
    text: &str,
) -> bool {
    let mut written = Vec::new(alloc);
    let found = run(rt, alloc, arguments, &mut "".as_bytes(), &mut written);
    found == 2 && written.as_slice() == text.as_bytes()
}

#[test]
fn serves(rt: HostRuntime) {
    are_answered(&rt, rt.alloc(), "", WORDS);
    let other =
        "error: the first argument is check, replay, explore, header, draw, run, words, --help or --version\n";
    let no_text = "error: a word isn't UTF-8\n";
    assert!(rt;
        are_refused(&rt, rt.alloc(), &[], other)
            && are_refused(&rt, rt.alloc(), &[b"bad\xff", b"checks"], other)
            && are_refused(&rt, rt.alloc(), &[b"./plan", b"\xff"], no_text)
    );
}

/// Whether it is told that reading has failed, after `left` bytes.
fn is_failed_read<T: Threads + Wait + Clock + Sync>(
    rt: &T,
    alloc: Global,
    word: &[u8],
    left: usize,
) -> bool {
    let mut reader = FailingReader::new(PRESS.as_bytes(), left);
    let mut written = Vec::new(alloc);
    let status = run(rt, alloc, &[b"./plan", word], &mut reader, &mut written);
    status == 1 && written.as_slice() == b"fault read\n".as_slice()
}

#[test]
fn tells_a_failed_read(rt: HostRuntime) {
    for left in 0..=PRESS.len() {
        let is_told = is_failed_read(&rt, rt.alloc(), b"check", left)
            && is_failed_read(&rt, rt.alloc(), b"replay", left)
            && is_failed_read(&rt, rt.alloc(), b"words", left);
        assert!(rt; is_told, "after {left}");
    }
}

/// Lines of words that ask for help or for the version.
const ASKED: &str = "\
    ./plan --help|\
    ./plan -h checks|\
    ./plan check --help|\
    ./plan replay -h|\
    ./plan explore --help --version|\
    ./plan header --help|\
    ./plan draw --help|\
    ./plan run --help|\
    ./plan words -h|\
    ./plan --version";

/// Whether these words end well, and nothing of the input is read.
fn is_left_alone<T: Threads + Wait + Clock + Sync>(
    rt: &T,
    alloc: Global,
    line: &str,
) -> Result<bool, AllocError> {
    let arguments = arguments_in(alloc, line)?;
    let mut reader = PRESS.as_bytes();
    let mut written = Vec::new(alloc);
    let status = run(rt, alloc, arguments.as_slice(), &mut reader, &mut written);
    Ok(status == 0 && reader.len() == PRESS.len())
}

// No clause says so: a program that waits for input before its help would meet them all.
#[test]
fn leaves_the_input_alone(rt: HostRuntime) {
    for number in 0..count_parts(ASKED, "|") {
        let line = part(ASKED, "|", number);
        assert!(rt;
            matches!(is_left_alone(&rt, rt.alloc(), line), Ok(true)),
            "{line}"
        );
    }
}

/// Lines of words, and an input for each. The plan is small: it is read again for each byte that is written of it.
const WRITTEN: &str = "\
    ./plan check => [[machine]]\nname = \"a\"\n|\
    ./plan check => [[machine]]\n|\
    ./plan check --word 0 => [[machine]]\nname = \"a\"\n|\
    ./plan check --word 1 => [[machine]]\nname = \"a\"\n|\
    ./plan words => [[machine]]\nname = \"a\"\n|\
    ./plan words => [[machine]]\n|\
    ./plan draw --words => [[machine]]\nname = \"a\"\n|\
    ./plan header => [[machine]]\nname = \"a\"\n|\
    ./plan replay => [[machine]]\nname = \"a\"\nstart,\n|\
    ./plan explore => [[machine]]\nname = \"a\"\nstart,\n|\
    ./plan --help => ";

/// Whether a writer that fails after `left` bytes of a text leads to status 1, and has taken these.
fn is_cut<T: Threads + Wait + Clock + Sync>(
    rt: &T,
    alloc: Global,
    arguments: &[&[u8]],
    input: &str,
    whole: &[u8],
    left: usize,
) -> bool {
    let mut writer = FailingWriter::new(alloc, left);
    let status = run(rt, alloc, arguments, &mut input.as_bytes(), &mut writer);
    let taken = writer.taken.as_slice();
    status == 1 && taken.len() == left && whole.starts_with(taken)
}

/// The same after each number of bytes of a row's text. After the last byte the writer fails at its flush.
fn are_cut<T: Threads + Wait + Clock + Sync>(
    rt: &T,
    alloc: Global,
    row: &str,
) -> Result<bool, AllocError> {
    let line = part(row, " => ", 0);
    let input = part(row, " => ", 1);
    let arguments = arguments_in(alloc, line)?;
    let (_, whole) = print_run(rt, alloc, line, input)?;
    let mut are_cut = true;
    for left in 0..=whole.len() {
        are_cut = are_cut && is_cut(rt, alloc, &arguments, input, &whole, left);
    }
    Ok(are_cut)
}

#[test]
fn writes_a_prefix(rt: HostRuntime) -> Result<(), AllocError> {
    for number in 0..count_parts(WRITTEN, "|") {
        let row = part(WRITTEN, "|", number);
        assert!(rt; are_cut(&rt, rt.alloc(), row)?, "{row}");
    }
    Ok(())
}
