//! What words ask for of every program: its help and its version.

ghost use Rattle.std.specs.Prelude.{◌≡◌};
ghost use Rattle.program_shell.specs.Asked as spec;
ghost use Rattle.program_shell.specs.Words.{texts_of};

use crate::version::asks_for_version;

/// What words ask for of every program.
#[derive(Clone, Copy, PartialEq, Eq, Debug)]
pub enum Asked {
    /// Its help.
    Help,
    /// Its version.
    Version,
    /// Neither: the words are the program's own, or no one's.
    Other,
}

/// What words ask for. The first is the program's name, and `own` are the words that may follow it.
/// As in words that `clap` reads, `--help` or `-h` asks for help after the name or one own word,
/// whatever follows, and `--version` asks for the version only alone.
pub fn asked_of(words: &[&str], own: &[&str]) -> Asked
    ensures { result ≡ spec.asked_of (texts_of own.now) (texts_of words.now) }
{
    if asks_for_version(words) {
        Asked::Version
    } else if asks_for_help(words, own) {
        Asked::Help
    } else {
        Asked::Other
    }
}

/// Whether they ask for help.
fn asks_for_help(words: &[&str], own: &[&str]) -> bool
    ensures { result ≡ spec.asks_for_help (texts_of own.now) (texts_of words.now) }
{
    match words {
        [_, word] => is_help(word),
        [_, word, next, ..] => is_help(word) || is_among(own, word) && is_help(next),
        _ => false,
    }
}

/// Whether a word is `--help` or `-h`.
fn is_help(word: &str) -> bool
    ensures { result ≡ spec.is_help word.now }
{
    matches!(word, "--help" | "-h")
}

/// Whether a word is one of these.
fn is_among(own: &[&str], word: &str) -> bool
    ensures { result ≡ spec.is_among (texts_of own.now) word.now }
{
    own.contains(&word)
}
