//! The words of the program, and what they ask for.
ghost use Rattle.std.specs.Prelude.{◌≡◌};
ghost use Rattle.program_shell.specs.Words.{texts_of};
ghost use Rattle.plan_app.specs.Requests as requests;

use csv_rows::read_number;
use program_shell::{Asked, asked_of};

/// How many situations are explored at most, unless it is said: what 500 megabytes hold.
pub const USUAL_MOST: usize = 1_000_000;

/// The most megabytes of an exploration.
const MAX_MEGABYTES: u32 = 1_000_000;

/// How many situations are explored for each megabyte. In 500 bytes there is room for one, by its charts of who goes on
/// too; `plan check` and a search for standstills take a fifth of that.
const FOR_MEGABYTE: usize = 2_000;

/// The most turns of a run.
pub const MAX_TURNS: u32 = 1_000_000;

/// What the program does with a plan.
#[derive(Clone, Copy, PartialEq, Eq, Debug)]
pub enum Request {
    /// Says what a plan is, and the layout of its word; and of hazards what it finds among at most this many
    /// situations.
    Check(usize),
    /// Answers a script by a plan.
    Replay,
    /// Explores the machines' programs: for standstills, and whether each machine goes on for ever. At most this
    /// many situations are explored.
    Explore(usize),
    /// Prints the page of what it explored so: a standstill, or an order in which a machine starves.
    Page(usize),
    /// Prints a header for C.
    Header,
    /// Prints a module for Python.
    Module,
    /// Prints a picture.
    Draw,
    /// Lets the machines take this many turns each, in threads, and prints what they did.
    Run(u32),
    /// The same, and prints the page of what they did.
    RunPage(u32),
}

/// What the program prints of the words of a plant.
#[derive(Clone, Copy, PartialEq, Eq, Debug)]
pub enum PlantRequest {
    /// Says what they have, and which of them keeps the motors of each hazard apart.
    Listing,
    /// Prints one header for C of all of them.
    Header,
    /// Prints one picture of all of them.
    Draw,
}

/// What the program does with all words of a plant together, from the start of a script.
#[derive(Clone, Copy, PartialEq, Eq, Debug)]
pub enum Together {
    /// Explores the machines' programs: for standstills, and whether each machine goes on for ever. At most this many
    /// situations are explored.
    Explore(usize),
    /// Lets the machines take this many turns each, in threads, and prints what they did.
    Run(u32),
}

/// What the program does.
#[derive(Clone, Copy, PartialEq, Eq, Debug)]
pub enum Wanted {
    /// Prints help.
    Help,
    /// Prints the version.
    Version,
    /// Prints this of all words of a plant.
    Words(PlantRequest),
    /// Explores the programs of a plant's machines on all words together: for standstills. At most this many situations
    /// are explored.
    ExploreWords(usize),
    /// Lets a plant's machines take this many turns each, in threads, on all words together, and prints what they did.
    RunWords(u32),
    /// Takes a plan.
    Plan {
        /// The word of the plant whose plan it is; `None` for the plan of the whole document.
        word: Option<u32>,
        /// What is done with it.
        request: Request,
    },
}

/// The words of this program alone that may follow its name.
const OWN: &[&str] = &[
    "check", "replay", "explore", "header", "draw", "run", "words",
];

/// What the words ask for. The first is the program's name, and one of its own words follows; which words ask for help
/// and for the version is that of every program (`asked_of`). `None` for other words.
pub fn wanted_of(words: &[&str]) -> Option<Wanted>
    ensures { result ≡ requests.wanted_of (texts_of words.now) }
{
    match asked_of(words, OWN) {
        Asked::Help => Some(Wanted::Help),
        Asked::Version => Some(Wanted::Version),
        Asked::Other => wanted_by(words),
    }
}

/// What the program's name, one of its own words and those after it ask for.
fn wanted_by(words: &[&str]) -> Option<Wanted>
    ensures { result ≡ requests.wanted_by (texts_of words.now) }
{
    match words {
        [_, word, rest @ ..] => wanted_after(word, rest),
        _ => None,
    }
}

/// What a word of this program alone asks for with these words after it.
fn wanted_after(word: &str, rest: &[&str]) -> Option<Wanted>
    ensures { result ≡ requests.wanted_after word.now (texts_of rest.now) }
{
    match rest {
        [] => wanted_alone(word),
        [flag] => wanted_for(word, flag),
        [flag, number, more @ ..] => wanted_with(word, flag, number, more),
    }
}

/// What it asks for alone.
fn wanted_alone(word: &str) -> Option<Wanted>
    ensures { result ≡ requests.wanted_alone word.now }
{
    match word {
        "words" => Some(Wanted::Words(PlantRequest::Listing)),
        _ => of_document(request_by(word)),
    }
}

/// What it asks for with a flag after it.
fn wanted_for(word: &str, flag: &str) -> Option<Wanted>
    ensures { result ≡ requests.wanted_for word.now flag.now }
{
    match (word, flag) {
        ("explore", "--words") => Some(Wanted::ExploreWords(USUAL_MOST)),
        ("header", "--words") => Some(Wanted::Words(PlantRequest::Header)),
        ("draw", "--words") => Some(Wanted::Words(PlantRequest::Draw)),
        _ => of_document(request_for(word, flag)),
    }
}

/// What it asks for with at least two words after it, of which the first may say that it is of one word of a plant, or
/// of all.
fn wanted_with(word: &str, flag: &str, number: &str, more: &[&str]) -> Option<Wanted>
    ensures { result ≡ requests.wanted_with word.now flag.now number.now (texts_of more.now) }
{
    match flag {
        "--word" => wanted_on(number, request_after(word, more)),
        "--words" => words_with(word, number, more),
        _ => wanted_by_number(word, flag, number, more),
    }
}

/// What it asks for of all words, with another flag after that, and a number.
fn words_with(word: &str, flag: &str, more: &[&str]) -> Option<Wanted>
    ensures { result ≡ requests.words_with word.now flag.now (texts_of more.now) }
{
    match more {
        [number] => Some(Wanted::RunWords(turns_of_run(word, flag, number)?)),
        _ => None,
    }
}

/// What it asks for with a number after a flag, and perhaps another flag after that.
fn wanted_by_number(word: &str, flag: &str, number: &str, more: &[&str]) -> Option<Wanted>
    ensures { result ≡ requests.wanted_by_number word.now flag.now number.now (texts_of more.now) }
{
    match more {
        [] => of_document(request_of_number(word, flag, number)),
        [last] => wanted_by_last(word, flag, number, last),
        _ => None,
    }
}

/// The same with another flag after that.
fn wanted_by_last(word: &str, flag: &str, number: &str, last: &str) -> Option<Wanted>
    ensures { result ≡ requests.wanted_by_last word.now flag.now number.now last.now }
{
    match last {
        "--words" => words_of_number(word, flag, number),
        _ => of_document(request_of_page(word, flag, number, last)),
    }
}

/// What it asks for of all words, with a number after a flag.
fn words_of_number(word: &str, flag: &str, number: &str) -> Option<Wanted>
    ensures { result ≡ requests.words_of_number word.now flag.now number.now }
{
    match word {
        "explore" => Some(Wanted::ExploreWords(most_after(flag, number)?)),
        _ => None,
    }
}

/// What is asked of the plan of the word with this number.
fn wanted_on(number: &str, request: Option<Request>) -> Option<Wanted>
    ensures { result ≡ requests.wanted_on number.now request }
{
    let word = read_number(number.as_bytes())?;
    Some(Wanted::Plan {
        word: Some(word),
        request: request?,
    })
}

/// What is asked of the plan of the whole document.
fn of_document(request: Option<Request>) -> Option<Wanted>
    ensures { result ≡ requests.of_document request }
{
    Some(Wanted::Plan {
        word: None,
        request: request?,
    })
}

/// What a word of this program alone asks of a plan, with these words after it.
fn request_after(word: &str, rest: &[&str]) -> Option<Request>
    ensures { result ≡ requests.request_after word.now (texts_of rest.now) }
{
    match rest {
        [] => request_by(word),
        [flag] => request_for(word, flag),
        [flag, number] => request_of_number(word, flag, number),
        [flag, number, last] => request_of_page(word, flag, number, last),
        _ => None,
    }
}

/// What a word of this program alone asks for with a number after a flag.
fn request_of_number(word: &str, flag: &str, number: &str) -> Option<Request>
    ensures { result ≡ requests.request_of_number word.now flag.now number.now }
{
    match word {
        "check" => Some(Request::Check(most_after(flag, number)?)),
        "explore" => Some(Request::Explore(most_after(flag, number)?)),
        _ => Some(Request::Run(turns_of_run(word, flag, number)?)),
    }
}

/// The same with `--page` after that.
fn page_of_number(word: &str, flag: &str, number: &str) -> Option<Request>
    ensures { result ≡ requests.page_of_number word.now flag.now number.now }
{
    match word {
        "explore" => Some(Request::Page(most_after(flag, number)?)),
        _ => Some(Request::RunPage(turns_of_run(word, flag, number)?)),
    }
}

/// How many situations are explored at most, after its flag.
fn most_after(flag: &str, number: &str) -> Option<usize>
    ensures { result ≡ requests.most_after flag.now number.now }
{
    match flag {
        "--memory" => situations_in(number),
        _ => None,
    }
}

/// How many situations the megabytes in a word hold.
fn situations_in(number: &str) -> Option<usize>
    ensures { result ≡ requests.situations_in number.now }
{
    let megabytes = read_number(number.as_bytes())?;
    if 1 <= megabytes && megabytes <= MAX_MEGABYTES {
        Some(megabytes as usize * FOR_MEGABYTE)
    } else {
        None
    }
}

/// The same with another flag after that.
fn request_of_page(word: &str, flag: &str, number: &str, last: &str) -> Option<Request>
    ensures { result ≡ requests.request_of_page word.now flag.now number.now last.now }
{
    match last {
        "--page" => page_of_number(word, flag, number),
        _ => None,
    }
}

/// The number of turns of a run, after its flag.
fn turns_of_run(word: &str, flag: &str, number: &str) -> Option<u32>
    ensures { result ≡ requests.turns_of_run word.now flag.now number.now }
{
    match (word, flag) {
        ("run", "--turns") => turns_in(number),
        _ => None,
    }
}

/// The number of turns in a word.
fn turns_in(word: &str) -> Option<u32>
    ensures { result ≡ requests.turns_in word.now }
{
    let turns = read_number(word.as_bytes())?;
    (1 <= turns && turns <= MAX_TURNS).then_some(turns)
}

/// What a word of this program alone asks for with a flag after it.
fn request_for(word: &str, flag: &str) -> Option<Request>
    ensures { result ≡ requests.request_for word.now flag.now }
{
    match (word, flag) {
        ("header", "--python") => Some(Request::Module),
        ("explore", "--page") => Some(Request::Page(USUAL_MOST)),
        _ => None,
    }
}

/// What a word of this program alone asks for.
fn request_by(word: &str) -> Option<Request>
    ensures { result ≡ requests.request_by word.now }
{
    match word {
        "check" => Some(Request::Check(USUAL_MOST)),
        "replay" => Some(Request::Replay),
        "explore" => Some(Request::Explore(USUAL_MOST)),
        "header" => Some(Request::Header),
        "draw" => Some(Request::Draw),
        _ => None,
    }
}
