//! The calls of the rows, the inputs of the program, a reader that counts lines, and a writer that fails at a flush.

use cell_app::start::start;
use std::alloc::Global;
use std::io;
use std::io::{ErrorKind, Read, Write};
use std::sync::Wait;
use std::thread::Threads;
use test_doubles::{Given, arguments_in, part};

/// A script.
pub const SCRIPT: &str =
    "start,0000000000\npress,claim,z3\nrobot,claim,z3\npress,release,z3\nrobot,claim,z3\nwatch,inquire,z3\n";

/// What is answered to the script.
pub const TEXT: &str =
    "0 0 start 0\n1 1 done\n2 1 held press\n3 2 done\n4 2 shut closed\n5 2 zone free 0 closed\n";

/// The configuration of a run of the press alone.
pub const PRESS: &str = "start = \"0000000000\"\nschedule = \"ppppppppppppppppppppppppppppppp\"\n";

/// A configuration without plates.
pub const EMPTY: &str = "start = \"0000000000\"\n";

/// The line of words of a run whose report doesn't depend on the order of the workers' turns: no call can lose 64
/// exchanges in three turns.
pub const RUN: &str = "cell run --turns 3 --tries 64";

/// An input that is taken for a line of words: the press's schedule is simulated, an empty cell is run, and a script is
/// replayed.
pub fn input_of(line: &str) -> &'static str {
    if line.starts_with("cell sim") {
        PRESS
    } else if line == RUN {
        EMPTY
    } else {
        SCRIPT
    }
}

/// The exit status of the program that is started by a line of words, with a blank between each two of them; 255 if
/// there is no memory for them. It has no clauses, so the rows don't carry those of `start`.
pub fn run<T: Threads + Wait + Sync, R: Read, W: Write>(
    rt: &T,
    alloc: Global,
    line: &str,
    reader: &mut R,
    writer: &mut W,
) -> u8 {
    match arguments_in(alloc, line) {
        Ok(arguments) => {
            let env = Given {
                arguments: arguments.as_slice(),
            };
            start(rt, alloc, &env, reader, writer)
        }
        Err(_) => 255,
    }
}

/// The status and the text of a line of words and an input.
pub fn print_run<T: Threads + Wait + Sync>(
    rt: &T,
    alloc: Global,
    line: &str,
    input: &str,
) -> (u8, Vec<u8>) {
    let mut written = Vec::new(alloc);
    let status = run(rt, alloc, line, &mut input.as_bytes(), &mut written);
    (status, written)
}

/// Whether the program answers a line of words and what a reader gives with this status, a digit, and this text.
pub fn is_answered<T: Threads + Wait + Sync, R: Read>(
    rt: &T,
    alloc: Global,
    line: &str,
    reader: &mut R,
    status: &str,
    text: &str,
) -> bool {
    let mut written = Vec::new(alloc);
    let digit = [b'0'.wrapping_add(run(rt, alloc, line, reader, &mut written))];
    digit.as_slice() == status.as_bytes() && written.as_slice() == text.as_bytes()
}

/// Whether the program answers a row: a line of words, the status, an input, and the text, with arrows between them.
pub fn is_row<T: Threads + Wait + Sync>(rt: &T, alloc: Global, row: &str) -> bool {
    let mut reader = part(row, " => ", 2).as_bytes();
    is_answered(
        rt,
        alloc,
        part(row, " => ", 0),
        &mut reader,
        part(row, " => ", 1),
        part(row, " => ", 3),
    )
}

/// Gives a text, a line at a time, and counts the lines that it has given whole.
#[derive(Drop)]
pub struct LineReader<'a> {
    pub bytes: &'a [u8],
    pub given: usize,
}

impl Read for LineReader<'_> {
    fn read(&mut self, buf: &mut [u8]) -> io::Result<usize> {
        let line = match self.bytes.iter().position(|byte| *byte == b'\n') {
            Some(end) => end.saturating_add(1),
            None => self.bytes.len(),
        };
        let count = line.min(buf.len()).min(self.bytes.len());
        let (part, rest) = self.bytes.split_at(count);
        buf[..count].copy_from_slice(part);
        self.bytes = rest;
        if count > 0 && count == line {
            self.given = self.given.saturating_add(1);
        }
        Ok(count)
    }
}

/// Takes all bytes, and fails at a flush. Keeps how many bytes it had taken at the last flush.
#[derive(Drop)]
pub struct UnflushedWriter {
    pub taken: Vec<u8>,
    pub flushed: usize,
}

impl Write for UnflushedWriter {
    fn write(&mut self, buf: &[u8]) -> io::Result<usize> {
        self.taken.extend_from_slice(buf)?;
        Ok(buf.len())
    }

    fn flush(&mut self) -> io::Result<()> {
        self.flushed = self.taken.len();
        Err(io::Error::from(ErrorKind::Other))
    }
}
