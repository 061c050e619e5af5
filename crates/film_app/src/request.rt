//! The words of the program, and what they ask for.

ghost use Rattle.std.specs.Prelude.{◌≡◌};
ghost use Rattle.program_shell.specs.Words.{texts_of};
ghost use Rattle.film_app.specs.Served as served;

use program_shell::{Asked, asked_of};

/// What the program does.
#[derive(Clone, Copy)]
pub enum Request {
    /// Writes the page of a film.
    Film,
    /// Writes the picture that loops.
    Loop,
    /// Prints help.
    Help,
    /// Prints the version.
    Version,
}

/// The words of this program alone that may follow its name.
const OWN: &[&str] = &["--loop"];

/// What the words ask for. The first is the program's name. Alone it asks for a film, with `--loop`
/// after it for the picture that loops; which words ask for help and for the version is that of every
/// program (`asked_of`). `None` for other words.
pub fn request_of(words: &[&str]) -> Option<Request>
    ensures { result ≡ served.request_of (texts_of words.now) }
{
    match (asked_of(words, OWN), words) {
        (Asked::Help, _) => Some(Request::Help),
        (Asked::Version, _) => Some(Request::Version),
        (Asked::Other, [_]) => Some(Request::Film),
        (Asked::Other, [_, word]) => request_by(word),
        (Asked::Other, _) => None,
    }
}

/// What a word of this program alone asks for.
fn request_by(word: &str) -> Option<Request>
    ensures { result ≡ served.request_by word.now }
{
    match word {
        "--loop" => Some(Request::Loop),
        _ => None,
    }
}
