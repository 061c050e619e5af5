//! What the program `explore` does.

ghost use Rattle.std.specs.Prelude.{◌≡◌, ◌≢◌, ◌≤◌, ◌+◌, min, Some, None};
ghost use Rattle.std.specs.Prelude.{IfOk, codes};
ghost use Rattle.cell_rules.specs.Start.{IsStartState};
ghost use Rattle.text_io.specs.Input.{TakesAtMost};
ghost use Rattle.text_io.specs.Output.{WrotePrefix};
ghost use Rattle.program_shell.specs.Printed.{Prints};
ghost use Rattle.program_shell.specs.Versions.{version_line};
ghost use Rattle.program_shell.specs.Words.{texts_of};
ghost use Rattle.cell_config.specs.Configured.{AreAxisScales, AreCurvesOf, shown};
ghost use Rattle.cell_config.specs.Settings.{max_bytes_read};
ghost use Rattle.explore_app.specs.Requests.{request_of};
ghost use Rattle.explore_app.specs.Screens.{screen_text};
ghost use Rattle.explore_app.specs.Served.{Answers, IsAnswerTo, WereListed, WroteFree};

use crate::every_start::every_start;
use crate::request;
use crate::request::{Question, Request};
use crate::schedule::ScheduleFault;
use crate::screen::{Screen, screen_of};
use crate::starve::starving_screen;
use crate::timing::tell_time;
use cell_config::{Config, read_config};
use cell_rules::MAX_PLATES;
use program_shell::{Exit, fail, print, print_version, refuse_words, with_texts};
use std::alloc::{AllocError, Global};
use std::env::Env;
use std::io::{Read, Write};
use std::thread::Threads;
use std::time::{Clock, Instant};

/// The help.
const HELP: &str = "\
Reads a configuration, as `cell sim` does, and explores every schedule from its start: whether
the six machines can come to a standstill, in which no machine can go on. Its schedule isn't used.
It prints a configuration whose comments say what was found: the number of situations, or the ring of
those who wait, and a schedule that leads there: explore < examples/standstill.toml | cell sim
Where there is no standstill, it says within how many steps plates move. A step is a turn that
changes something. A schedule is fair with bound k if the press is passed over fewer than k times
while it could go on, and each other machine waits for fewer than k steps on end.
--starve shows a round of turns that move no plate, though each machine waits for few steps on end,
and a schedule that goes round: explore --starve < examples/four_plates.toml | cell sim
--all explores all 685 starts in two threads, by their plates.
--version prints the version.
Standard error says how long it took.
Exit status: 0 on success and for help; 2 for bad arguments; otherwise 1: a standstill, a fair
schedule in which a machine starves, a refused configuration, a failed read or write, or no memory.
With --all it is 0 whatever was found of the starts.
";

/// What is printed for other words.
const OTHER_WORDS: &str = "error: the only argument is --all, --starve, --help or --version\n";

/// Explores the start of the configuration that it reads, and prints the screen, or a fault. Then it
/// tells `progress` how long it took, by the clock. Returns the exit status: 0 if the screen was
/// written and nothing stands still or starves by it, 1 otherwise.
pub fn serve_start<C: Clock, R: Read, W: Write, P: Write>(
    clock: &C,
    alloc: Global,
    question: Question,
    reader: &mut R,
    writer: &mut W,
    progress: &mut P,
) -> u8
    ensures { Answers question result (R.remaining reader.old) (R.remaining reader.new)
        (W.contents writer.old) (W.contents writer.new) }
{
    let begun = Instant::now(clock);
    let status = print_answer(alloc, question, reader, writer);
    tell_time(clock, begun, progress);
    status
}

// Prints the screen of the configuration that it reads, or a fault, and returns the exit status.
fn print_answer<R: Read, W: Write>(
    alloc: Global,
    question: Question,
    reader: &mut R,
    writer: &mut W,
) -> u8
    ensures { Answers question result (R.remaining reader.old) (R.remaining reader.new)
        (W.contents writer.old) (W.contents writer.new) }
{
    let config = match read_config(alloc, reader) {
        Ok(config) => config,
        Err(fault) => return fail(writer, fault.text()).status(),
    };
    match screen_for(alloc, question, &config) {
        Ok(screen) => print_screen(writer, &screen).status(),
        Err(ScheduleFault::Memory) => fail(writer, "memory").status(),
        Err(ScheduleFault::Apart) => fail(writer, "the simulated cell doesn't come to it").status(),
    }
}

// Prints a screen. A warning isn't well, whatever was written.
fn print_screen<W: Write>(writer: &mut W, screen: &Screen) -> Exit
    ensures status { result ≢ Exit.Refused }
    ensures well { result ≡ Exit.Well →
        WroteFree screen.now (W.contents writer.old) (W.contents writer.new) }
    ensures failed { result ≡ Exit.Failed →
        WrotePrefix (W.contents writer.old) (W.contents writer.new) (screen_text screen.now) }
{
    let printed = print(writer, screen.text().as_bytes());
    match screen {
        Screen::Free(_) => printed,
        Screen::Warning(_) => Exit::Failed,
    }
}

// The screen that answers a question of a configuration's start.
fn screen_for(alloc: Global, question: Question, config: &Config) -> Result<Screen, ScheduleFault>
    requires start { IsStartState config.now.start }
    requires points { AreAxisScales config.now.points }
    requires curves { AreCurvesOf config.now.points config.now.curves }
    ensures { IfOk result (IsAnswerTo question (shown config.now)) }
{
    match question {
        Question::Standstill => screen_of(alloc, config),
        Question::Starving => starving_screen(alloc, config),
    }
}

/// Explores all starts with at most `most_plates` plates in two threads, and prints a line for each
/// number of plates, to `progress` too once it is known. Then it tells `progress` how long it took, by the
/// clock. Returns the exit status: 0 if the lines were written, 1 otherwise.
pub fn serve_all<T: Threads + Sync, C: Clock, W: Write, P: Write>(
    rt: &T,
    clock: &C,
    alloc: Global,
    most_plates: u32,
    writer: &mut W,
    progress: &mut P,
) -> u8
    ensures status { result ≤ 1 }
    ensures listed { result ≡ 0 → WereListed (min most_plates MAX_PLATES + 1)
        (W.contents writer.old) (W.contents writer.new) }
{
    let begun = Instant::now(clock);
    let status = match every_start(rt, alloc, most_plates, progress) {
        Ok(text) => print(writer, text.as_bytes()).status(),
        Err(AllocError) => fail(writer, "memory").status(),
    };
    tell_time(clock, begun, progress);
    status
}

/// Does what the words ask for, and returns the exit status: 0 on success, and for help; 1 for a
/// standstill, a fair schedule in which a machine starves, a refused configuration, a failed read or
/// write, and if memory ran out; 2 for other words. Of an exploration it tells `progress` how long it
/// took, by the clock.
pub fn serve<T: Threads + Sync, C: Clock, R: Read, W: Write, P: Write>(
    rt: &T,
    clock: &C,
    alloc: Global,
    words: &[&str],
    reader: &mut R,
    writer: &mut W,
    progress: &mut P,
) -> u8
    ensures status { result ≤ 2 }

    // If they ask for help, status 0 says that help was printed, status 1 that a prefix was. For the
    // version it says the same.
    ensures help { request_of (texts_of words.now) ≡ Some Request.Help →
        Prints result (W.contents writer.old) (W.contents writer.new) HELP.now }
    ensures version { request_of (texts_of words.now) ≡ Some Request.Version →
        Prints result (W.contents writer.old) (W.contents writer.new)
        (version_line (codes "explore")) }

    // With the program's name alone: status 0 says that no turns lead from the configuration's start to a standstill,
    // that no machine and no plates starve by what explorations answer, and that this was written; status 1 says what
    // was written else. With `--starve` it says so of schedules that are weakly fair to each machine.
    ensures explored { request_of (texts_of words.now) ≡ Some Request.Start →
        Answers Question.Standstill result (R.remaining reader.old) (R.remaining reader.new)
        (W.contents writer.old) (W.contents writer.new) }
    ensures starved { request_of (texts_of words.now) ≡ Some Request.Starve →
        Answers Question.Starving result (R.remaining reader.old) (R.remaining reader.new)
        (W.contents writer.old) (W.contents writer.new) }

    // With `--all` status 0 says that the lines of all starts were written.
    ensures listed { request_of (texts_of words.now) ≡ Some Request.All → result ≡ 0 →
        WereListed 7 (W.contents writer.old) (W.contents writer.new) }

    // Status 2 comes exactly for other words, of which a line was printed, or a prefix of it.
    ensures refused { result ≡ 2 → request_of (texts_of words.now) ≡ None }
    ensures other { request_of (texts_of words.now) ≡ None → result ≡ 2 }
    ensures line { request_of (texts_of words.now) ≡ None →
        WrotePrefix (W.contents writer.old) (W.contents writer.new) OTHER_WORDS.now }

    // At most one byte more is read than a configuration may have, and nothing but for the start of one.
    ensures read { TakesAtMost (R.remaining reader.old) (R.remaining reader.new) max_bytes_read }
    ensures unread { request_of (texts_of words.now) ≢ Some Request.Start
        → request_of (texts_of words.now) ≢ Some Request.Starve → reader.new ≡ reader.old }
{
    match request::request_of(words) {
        Some(Request::Start) => {
            serve_start(clock, alloc, Question::Standstill, reader, writer, progress)
        }
        Some(Request::Starve) => {
            serve_start(clock, alloc, Question::Starving, reader, writer, progress)
        }
        Some(Request::All) => serve_all(rt, clock, alloc, MAX_PLATES, writer, progress),
        Some(Request::Help) => print(writer, HELP.as_bytes()).status(),
        Some(Request::Version) => print_version(writer, "explore").status(),
        None => refuse_words(writer, OTHER_WORDS).status(),
    }
}

/// Runs the program with the words that it was started with, a clock, its input and its outputs, and
/// returns the exit status.
pub fn start<T, C: Clock, E: Env, R: Read, W: Write, P: Write>(
    rt: &T,
    clock: &C,
    alloc: Global,
    env: &E,
    reader: &mut R,
    writer: &mut W,
    progress: &mut P,
) -> u8
where
    T: Threads + Sync,
    ensures status { result ≤ 2 }
    ensures read { TakesAtMost (R.remaining reader.old) (R.remaining reader.new) max_bytes_read }
{
    with_texts!(
        alloc,
        env,
        writer,
        Exit::status,
        |texts| serve(rt, clock, alloc, texts, reader, writer, progress)
    )
}
