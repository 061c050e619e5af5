//! The words of the program, and what they ask for.

ghost use Rattle.std.specs.Prelude.{◌≡◌};
ghost use Rattle.program_shell.specs.Words.{texts_of};
ghost use Rattle.explore_app.specs.Requests as requests;

use program_shell::{Asked, asked_of};

/// What the program does.
#[derive(Clone, Copy, PartialEq, Eq, Debug)]
pub enum Request {
    /// Explores the start of a configuration.
    Start,
    /// Explores all starts.
    All,
    /// Shows how plates starve from the start of a configuration.
    Starve,
    /// Prints help.
    Help,
    /// Prints the version.
    Version,
}

/// What is asked of a configuration's start.
#[derive(Clone, Copy)]
pub enum Question {
    /// Whether the machines can come to a standstill, and within how many steps plates move.
    Standstill,
    /// How plates starve.
    Starving,
}

/// The words of this program alone that may follow its name.
const OWN: &[&str] = &["--all", "--starve"];

/// What the words ask for. The first is the program's name. Alone it asks for the start of a
/// configuration, with `--all` after it for all starts, with `--starve` for how plates starve; which
/// words ask for help and for the version is that of every program (`asked_of`). `None` for other
/// words.
pub fn request_of(words: &[&str]) -> Option<Request>
    ensures { result ≡ requests.request_of (texts_of words.now) }
{
    match (asked_of(words, OWN), words) {
        (Asked::Help, _) => Some(Request::Help),
        (Asked::Version, _) => Some(Request::Version),
        (Asked::Other, [_]) => Some(Request::Start),
        (Asked::Other, [_, word]) => request_by(word),
        (Asked::Other, _) => None,
    }
}

/// What a word of this program alone asks for.
fn request_by(word: &str) -> Option<Request>
    ensures { result ≡ requests.request_by word.now }
{
    match word {
        "--all" => Some(Request::All),
        "--starve" => Some(Request::Starve),
        _ => None,
    }
}
