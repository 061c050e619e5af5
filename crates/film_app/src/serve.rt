//! What the program `film` does.

ghost use Rattle.std.specs.Prelude.{◌≡◌, ◌≤◌, Some, None, codes};
ghost use Rattle.text_io.specs.Input.{TakesAtMost};
ghost use Rattle.text_io.specs.Output.{WrotePrefix};
ghost use Rattle.program_shell.specs.Printed.{Prints};
ghost use Rattle.program_shell.specs.Versions.{version_line};
ghost use Rattle.program_shell.specs.Words.{texts_of};
ghost use Rattle.cell_config.specs.Settings.{max_bytes_read};
ghost use Rattle.film_app.specs.Served.{Films, Loops, request_of};

use crate::configured::film_configured;
use crate::looped::loop_configured;
use crate::request;
use crate::request::Request;
use cell_config::read_config;
use program_shell::{Exit, fail, print, print_version, refuse_words, with_texts};
use std::alloc::Global;
use std::env::Env;
use std::io::{Read, Write};

/// The help.
const HELP: &str = "\
Reads a configuration, as `cell sim` does, and writes a page on which the cell moves.
Open it in a browser: film < examples/four_plates.toml > film.html
The page shows the first 100,000 turns.
--loop writes a picture that loops instead, from one plate that the feed belt takes to the next:
film --loop < examples/three_plates.toml > cell.svg
--version prints the version.
Exit status: 0 on success and for help; 2 for bad arguments; otherwise 1: a refused
configuration, a failed read or write, or no memory.
";

/// What is printed for other words.
const OTHER_WORDS: &str = "error: the only argument is --help, --loop or --version\n";

/// Writes the page of a film of the configuration that it reads, or prints a fault. The page is
/// made whole before any of it is written. Returns the exit status: 0 if it was written, 1
/// otherwise.
pub fn serve_film<R: Read, W: Write>(alloc: Global, reader: &mut R, writer: &mut W) -> u8
    ensures { Films result (R.remaining reader.old) (R.remaining reader.new)
        (W.contents writer.old) (W.contents writer.new) }
{
    let config = match read_config(alloc, reader) {
        Ok(config) => config,
        Err(fault) => return fail(writer, fault.text()).status(),
    };
    let Ok(page) = film_configured(alloc, &config) else {
        return fail(writer, "memory").status();
    };
    print(writer, page.as_bytes()).status()
}

/// Writes the picture that loops, of the configuration that it reads, or prints a fault. The picture
/// is made whole before any of it is written. Returns the exit status: 0 if it was written, 1
/// otherwise.
pub fn serve_loop<R: Read, W: Write>(alloc: Global, reader: &mut R, writer: &mut W) -> u8
    ensures { Loops result (R.remaining reader.old) (R.remaining reader.new)
        (W.contents writer.old) (W.contents writer.new) }
{
    let config = match read_config(alloc, reader) {
        Ok(config) => config,
        Err(fault) => return fail(writer, fault.text()).status(),
    };
    let Ok(picture) = loop_configured(alloc, &config) else {
        return fail(writer, "memory").status();
    };
    print(writer, picture.as_bytes()).status()
}

/// Does what the words ask for, and returns the exit status: 0 if the page or the picture was
/// written, for help, and for the version; 1 for a refused configuration, a failed read or write, and if memory ran
/// out; 2 for other words.
pub fn serve<R: Read, W: Write>(alloc: Global, words: &[&str], reader: &mut R, writer: &mut W) -> u8
    ensures status { result ≤ 2 }

    // With the program's name alone: status 0 says that the page was written, status 1 what was.
    ensures film { request_of (texts_of words.now) ≡ Some Request.Film →
        Films result (R.remaining reader.old) (R.remaining reader.new)
        (W.contents writer.old) (W.contents writer.new) }

    // With `--loop` after it: status 0 says that the picture was written, status 1 what was.
    ensures looped { request_of (texts_of words.now) ≡ Some Request.Loop →
        Loops result (R.remaining reader.old) (R.remaining reader.new)
        (W.contents writer.old) (W.contents writer.new) }

    // If they ask for help, status 0 says that help was printed, status 1 that a prefix was. For the
    // version it says the same.
    ensures help { request_of (texts_of words.now) ≡ Some Request.Help →
        Prints result (W.contents writer.old) (W.contents writer.new) HELP.now }
    ensures version { request_of (texts_of words.now) ≡ Some Request.Version →
        Prints result (W.contents writer.old) (W.contents writer.new)
        (version_line (codes "film")) }

    // Status 2 comes exactly for other words, of which a line was printed, or a prefix of it.
    ensures refused { result ≡ 2 → request_of (texts_of words.now) ≡ None }
    ensures other { request_of (texts_of words.now) ≡ None → result ≡ 2 }
    ensures line { request_of (texts_of words.now) ≡ None →
        WrotePrefix (W.contents writer.old) (W.contents writer.new) OTHER_WORDS.now }

    // At most one byte more is read than a configuration may have.
    ensures read { TakesAtMost (R.remaining reader.old) (R.remaining reader.new) max_bytes_read }
{
    match request::request_of(words) {
        Some(Request::Film) => serve_film(alloc, reader, writer),
        Some(Request::Loop) => serve_loop(alloc, reader, writer),
        Some(Request::Help) => print(writer, HELP.as_bytes()).status(),
        Some(Request::Version) => print_version(writer, "film").status(),
        None => refuse_words(writer, OTHER_WORDS).status(),
    }
}

/// Runs the program with the words that it was started with, its input and its output, and returns
/// the exit status.
pub fn start<E: Env, R: Read, W: Write>(
    alloc: Global,
    env: &E,
    reader: &mut R,
    writer: &mut W,
) -> u8
    ensures status { result ≤ 2 }
    ensures read { TakesAtMost (R.remaining reader.old) (R.remaining reader.new) max_bytes_read }
{
    with_texts!(
        alloc,
        env,
        writer,
        Exit::status,
        |texts| serve(alloc, texts, reader, writer)
    )
}
