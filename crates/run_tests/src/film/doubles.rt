//! The program with given arguments.

use film_app::serve::start;
use std::alloc::Global;
use std::io::{Read, Write};
use test_doubles::{Given, arguments_in};

/// The exit status of the program that is started by a line of words; 255 if there is no memory for them. It has no
/// clauses, so the rows don't carry those of `start`.
pub fn run<R: Read, W: Write>(alloc: Global, line: &str, reader: &mut R, writer: &mut W) -> u8 {
    match arguments_in(alloc, line) {
        Ok(arguments) => {
            let env = Given {
                arguments: arguments.as_slice(),
            };
            start(alloc, &env, reader, writer)
        }
        Err(_) => 255,
    }
}
