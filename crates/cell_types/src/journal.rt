//! What each machine notes of its settled calls.
ghost use Rattle.std.specs.Prelude.{◌≡◌, []};
ghost use Rattle.cell_types.specs.declared.machine.Machine.{Machine};
ghost use Rattle.cell_types.specs.Journals.{journal_of};

use crate::answer::Answer;
use crate::call::Call;
use std::alloc::Global;

/// A machine's note of a settled call: the call, its answer, and the stamp of the state after it.
#[derive(Clone, Copy, Debug, PartialEq, Eq)]
pub struct Entry {
    /// The call.
    pub call: Call,
    /// What was answered.
    pub answer: Answer,
    /// The stamp of the state after it.
    pub stamp: u32,
}

/// The journal of each machine, its oldest entry first.
#[derive(Debug, Drop)]
pub struct Journals {
    /// The feed belt's.
    pub feed: Vec<Entry>,
    /// The table's.
    pub table: Vec<Entry>,
    /// The robot's.
    pub robot: Vec<Entry>,
    /// The press's.
    pub press: Vec<Entry>,
    /// The deposit belt's.
    pub deposit: Vec<Entry>,
    /// The crane's.
    pub crane: Vec<Entry>,
    /// The watch's.
    pub watch: Vec<Entry>,
}

impl Journals {
    /// Seven empty journals. It allocates nothing: each journal keeps the allocator for its
    /// entries.
    pub fn new(alloc: Global) -> Journals
        ensures { (machine : Machine) → journal_of result machine ≡ [] }
    {
        Journals {
            feed: Vec::new(alloc),
            table: Vec::new(alloc),
            robot: Vec::new(alloc),
            press: Vec::new(alloc),
            deposit: Vec::new(alloc),
            crane: Vec::new(alloc),
            watch: Vec::new(alloc),
        }
    }
}
