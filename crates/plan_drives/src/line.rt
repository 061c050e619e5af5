//! Lines of programs.
use plan_types::Call;

/// A line of a machine's program.
#[derive(Clone, Copy, Debug, PartialEq, Eq)]
pub enum Line {
    /// To make a call, until it is done.
    Do(Call),
    /// To wait until the machine owns a zone, which another machine hands over.
    Await(u8),
    /// To run motors: those of the plan that have a bit here, by their numbers.
    Run(u64),
}
