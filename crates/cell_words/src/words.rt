//! The program's words.

ghost use Rattle.std.specs.Prelude.{◌≡◌, ◌<◌, ◌^◌, [], ◌∷◌, ℕ, List, codes, false, IfErr, IfOk, OnOk};
ghost use Rattle.clap.specs.Words.{app_of, fault_of, found_of, kind_of, new_app, rows_of, rule_of};
ghost use Rattle.clap.specs.Words.{subcommand_rows_of, HasKind};
ghost use Rattle.clap.specs.declared.builder.command.Command.TheViews.{out-Command as fields_of};
ghost use Rattle.cell_words.specs.Words as words;
ghost use Rattle.cell_words.specs.Words.{AreBare, AreTaken, AreTakenAsFlags, HasNumber, HasNumbers};
ghost use Rattle.cell_words.specs.Words.{HaveNumbers, IsWithin, flags_of, mode_of, number_in, program};
ghost use Rattle.cell_words.specs.Words.{run_command, texts_of};
ghost use Rattle.cell_words.specs.declared.words.Mode.TheVariants.{Run};

use crate::help;
use clap::builder::ValueParser;
use clap::error::ErrorKind;
use clap::{Arg, ArgMatches, Command, Error};
use std::alloc::{AllocError, Global};

/// What the program does.
#[derive(Clone, Copy, PartialEq, Eq)]
pub enum Mode {
    /// Replays a script.
    Replay,
    /// Simulates the cell.
    Sim,
    /// Runs the cell. Each machine has a worker of its own and this number of turns; a call is Busy
    /// after this number of failed tries.
    Run { turns: u32, tries: u8 },
}

/// The numbers of a run, by its flags.
#[derive(Clone, Copy, PartialEq, Eq)]
pub struct RunFlags {
    /// The turns of each worker.
    pub turns: u32,
    /// After this number of failed tries a call is Busy.
    pub tries: u8,
}

/// The most turns of a run.
const MAX_TURNS: u64 = 100_000;

/// The most tries of a call.
const MAX_TRIES: u64 = 64;

/// What the words ask for. The first is the program's name. After it `replay`, or nothing, asks for
/// a replay, `sim` for a simulation, and `run` with the flags `--turns` and `--tries` for a run.
/// Other words are an error of `clap`. So are words that ask for help, and out of memory.
pub fn read_words(alloc: Global, words: &[&str]) -> Result<Mode, Error>
    // The mode is that of the word after the name, with the numbers of its flags, as `clap` finds
    // them.
    ensures mode { IfOk result (λ mode. mode ≡ mode_of (texts_of words.now)) }
    // A run has 1 to 100,000 turns and 1 to 64 tries.
    ensures within { IfOk result IsWithin }
    // `clap` accepts the words.
    ensures taken { OnOk result (AreTaken (texts_of words.now)) }
    // `clap` refuses the words for this, or memory ran out.
    ensures refused { IfErr result (HasKind (fault_of program (texts_of words.now))) }

    // With the program's name alone, or with one word after it, the only error is out of memory.
    ensures bare { AreBare (texts_of words.now) →
        IfErr result (λ e. kind_of e ≡ ErrorKind.OutOfMemory) }

    // Without flags a run has 1,000 turns and 8 tries.
    ensures defaults { (name : List ℕ) → texts_of words.now ≡ name ∷ codes "run" ∷ [] →
        IfOk result (λ mode. mode ≡ Run 1000 8) }
{
    let command = command(alloc)?;
    match command.try_get_matches_from(words) {
        Ok(matches) => Ok(mode_of(&matches)),
        Err(error) => Err(error),
    }
}

/// The numbers of the flags that follow the name of a program which has no other words. The flags are
/// those of `run`. Other words are an error of `clap`. So are words that ask for help, and out of
/// memory.
pub fn read_flags(alloc: Global, words: &[&str]) -> Result<RunFlags, Error>
    // The numbers are those of the flags, as `clap` finds them, or their defaults.
    ensures flags { IfOk result (λ flags. flags ≡ flags_of (texts_of words.now)) }
    // They are 1 to 100,000 turns and 1 to 64 tries.
    ensures within { IfOk result (λ flags. IsWithin (Run flags.turns flags.tries)) }
    // `clap` accepts the words.
    ensures taken { OnOk result (AreTakenAsFlags (texts_of words.now)) }
    // `clap` refuses the words for this, or memory ran out.
    ensures refused { IfErr result (HasKind (fault_of run_command (texts_of words.now))) }
{
    let command = run_command(alloc)?;
    match command.try_get_matches_from(words) {
        Ok(matches) => Ok(flags_in(&matches)),
        Err(error) => Err(error),
    }
}

/// The program's words, as `clap` is given them.
fn command<'a>(alloc: Global) -> Result<Command<'a>, AllocError>
    ensures { IfOk result (λ command. app_of command ≡ program) }
{
    let run = run_command(alloc)?;
    let replay = command_with_help(alloc, "replay", help::REPLAY, help::REPLAY_DETAILS);
    let sim = command_with_help(alloc, "sim", help::SIM, help::SIM_DETAILS);
    let words = vec![in alloc; replay, sim, run]?;
    command_with_help(alloc, "cell", help::CELL, help::CELL_DETAILS).subcommands(words)
}

/// The word `run` with its flags.
fn run_command<'a>(alloc: Global) -> Result<Command<'a>, AllocError>
    ensures app { IfOk result (λ command. app_of command ≡ run_command) }
    ensures local { IfOk result (λ command. (fields_of command).has_globals ≡ false) }
{
    let run = command_with_help(alloc, "run", help::RUN, help::RUN_DETAILS);
    let turns = number_flag(alloc, "turns", MAX_TURNS, "1000", help::TURNS);
    let run = run.arg(turns)?;
    run.arg(number_flag(alloc, "tries", MAX_TRIES, "8", help::TRIES))
}

/// A flag that takes a number from 1 to the most.
fn number_flag<'a>(
    alloc: Global,
    name: &'a str,
    most: u64,
    default: &'a str,
    help: &'a str,
) -> Arg<'a>
    ensures rule { rule_of result ≡ words.number_flag name.now most default.now }
    ensures local { result.global ≡ false }
{
    Arg::new(alloc, name)
        .long(name)
        .value_name("N")
        .value_parser(ValueParser::unsigned(1, most))
        .default_value(default)
        .help(help)
}

/// A command with this name, and with help before and after its usage.
fn command_with_help<'a>(
    alloc: Global,
    name: &'a str,
    before: &'a str,
    after: &'a str,
) -> Command<'a>
    ensures app { app_of result ≡ new_app name.now }
    ensures local { (fields_of result).has_globals ≡ false }
{
    Command::new(alloc, name).about(before).after_help(after)
}

/// What the word after the program's name asks for.
fn mode_of(matches: &ArgMatches<'_>) -> Mode
    requires { HasNumbers (subcommand_rows_of matches.now) }
    ensures mode { result ≡ words.mode_named (subcommand_rows_of matches.now) }
    ensures within { IsWithin result }
{
    match matches.subcommand() {
        Some(("sim", _)) => Mode::Sim,
        Some(("run", matches)) => {
            let RunFlags { turns, tries } = flags_in(matches);
            Mode::Run { turns, tries }
        }
        _ => Mode::Replay,
    }
}

/// The numbers of the flags of `run`, or their defaults.
fn flags_in(matches: &ArgMatches<'_>) -> RunFlags
    requires { HaveNumbers (rows_of (found_of matches.now)) }
    ensures flags { result ≡ words.flags_in (rows_of (found_of matches.now)) }
    ensures within { IsWithin (Run result.turns result.tries) }
{
    RunFlags {
        turns: number_in(matches, "turns"),
        tries: number_in(matches, "tries") as u8,
    }
}

/// The number of a flag, or its default.
fn number_in(flags: &ArgMatches<'_>, flag: &str) -> u32
    requires { (most : ℕ) × (most < 2 ^ 32)
        × HasNumber flag.now most (rows_of (found_of flags.now)) }
    ensures { result ≡ words.number_in flag.now (rows_of (found_of flags.now)) }
{
    let Some(number) = flags.get_one::<u32>(flag) else {
        unreachable!()
    };
    number
}
