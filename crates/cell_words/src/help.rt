//! The texts of the help besides usage: a line before it, and details after it.

/// The help of the program.
pub const CELL: &str =
    "Replays scripts of calls to the production cell's interlock, and simulates and runs the cell.";

pub const CELL_DETAILS: &str = "\
Reads standard input, writes standard output. Without a command, replays a script.
`cell --version` prints the version.
Exit status: 0 on success and for help; 2 for bad arguments; otherwise 1: a refused
input, a machine stopped by a fault, a failed audit, read, write or start of a thread,
or no memory.

docs/FORMATS.md describes scripts, answers and exit statuses, and what `sim` and `run`
read and write.
The program `explain` says why an input is refused.

Examples:
  cell replay < examples/interior.csv
  cell sim < examples/press.toml
  cell run --turns 3 --tries 64 < examples/six_workers.toml";

/// The help of `replay`.
pub const REPLAY: &str =
    "Replays a script of calls to the interlock, and writes the answer to each.";

pub const REPLAY_DETAILS: &str = "\
Reads a script in CSV. Record 0 says which places are full at the start; each later
record is a call of a machine.
Writes a line for each record: its number, the stamp (the number of changes) after it,
and the answer. If the script is refused, the last line begins with `fault`.
`explain replay < FILE` says why a script is refused.
docs/FORMATS.md describes scripts and answers.

Example:
  cell replay < examples/interior.csv";

/// The help of `sim`.
pub const SIM: &str = "Simulates the cell along a schedule of turns, and writes a report.";

pub const SIM_DETAILS: &str = "\
Reads a configuration in TOML: which places are full at the start, the schedule of
turns, and the calibrations of the five potentiometers. Writes a report: what each
machine did, the cell at the end, and what an audit of the machines' journals (their
logs of calls) found. If the configuration is refused, writes one line that begins
with `fault`; `explain sim < FILE` says why.
docs/FORMATS.md describes what is read and what is written.

Example:
  cell sim < examples/press.toml";

/// The help of `run`.
pub const RUN: &str = "Runs the six machines in six threads, and writes a report.";

pub const RUN_DETAILS: &str = "\
Reads a configuration, as `sim` does. Its schedule is checked but not used. Each
machine has a thread of its own, and all share the interlock. Writes a report or, if
there can be none, a line that begins with `fault`. docs/FORMATS.md describes
what is read and what is written.

Example:
  cell run --turns 3 --tries 64 < examples/six_workers.toml";

/// The help of the flags of `run`.
pub const TURNS: &str = "Maximum of turns per machine, 1 to 100000";

pub const TRIES: &str = "Maximum of compare-exchanges per call, 1 to 64";
