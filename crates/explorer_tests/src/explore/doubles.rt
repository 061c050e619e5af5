//! The program with given arguments, and a clock with given times.

use explore_app::serve::start;
use std::alloc::Global;
use std::cell::Cell;
use std::io;
use std::io::{ErrorKind, Read, Write};
use std::thread::Threads;
use std::time::{Clock, Duration};
use test_doubles::{Given, arguments_in};

/// The exit status of the program that is started by a line of words, with this clock; 255 if there is no memory for
/// them. It has no clauses, so the rows don't carry those of `start`.
pub fn run<T: Threads + Sync, R: Read, W: Write, P: Write>(
    rt: &T,
    clock: &GivenClock,
    alloc: Global,
    line: &str,
    reader: &mut R,
    writer: &mut W,
    progress: &mut P,
) -> u8 {
    match arguments_in(alloc, line) {
        Ok(arguments) => {
            let env = Given {
                arguments: arguments.as_slice(),
            };
            start(rt, clock, alloc, &env, reader, writer, progress)
        }
        Err(_) => 255,
    }
}

/// The exit status of the program that is started by a line of words, with a clock that can't be read; 254 if it tells
/// any progress.
pub fn run_unseen<T: Threads + Sync, R: Read, W: Write>(
    rt: &T,
    alloc: Global,
    line: &str,
    reader: &mut R,
    writer: &mut W,
) -> u8 {
    let clock = GivenClock::new(None, None);
    let mut progress = Vec::new(alloc);
    let status = run(rt, &clock, alloc, line, reader, writer, &mut progress);
    if progress.is_empty() { status } else { 254 }
}

/// A clock that shows these times one after another, in thousandths of a second. At `None` it can't
/// be read.
#[derive(Drop)]
pub struct GivenClock {
    is_begun: Cell<bool>,
    first: Option<u64>,
    second: Option<u64>,
}

impl GivenClock {
    pub fn new(first: Option<u64>, second: Option<u64>) -> GivenClock {
        GivenClock {
            is_begun: Cell::new(false),
            first,
            second,
        }
    }
}

impl Clock for GivenClock {
    fn monotonic(&self) -> io::Result<Duration> {
        let time = if self.is_begun.replace(true) {
            self.second
        } else {
            self.first
        };
        match time {
            Some(time) => Ok(Duration::from_millis(time)),
            None => Err(io::Error::from(ErrorKind::Other)),
        }
    }

    fn since_1970(&self) -> io::Result<Duration> {
        Err(io::Error::from(ErrorKind::Other))
    }
}
