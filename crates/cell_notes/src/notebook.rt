//! The notebook of a machine, for whoever gives the machine its turns.
ghost use Rattle.std.specs.Prelude.{◌≡◌, IsOk, OnOk, OnErr};
ghost use Rattle.cell_notes.specs.Notes.{HasRoom, HasSpare, no_notes, notes_of, notes_with};

use crate::counts::Counts;
use crate::turn_call::{TurnCall, entry_of};
use cell_types::Entry;
use std::alloc::{AllocError, Global};

/// What a machine keeps of its turns: its counts, and its calls that were settled.
#[derive(Drop)]
pub struct Notebook {
    pub counts: Counts,
    /// The settled calls, the oldest first.
    pub journal: Vec<Entry>,
}

impl Notebook {
    /// An empty notebook. It allocates nothing.
    pub fn new(alloc: Global) -> Notebook
        ensures { notes_of result ≡ no_notes }
    {
        Notebook {
            counts: Counts::none(),
            journal: Vec::new(alloc),
        }
    }

    /// Makes room for one entry if there is none. The notebook's content stays, also if out of
    /// memory.
    pub fn make_room(&mut self) -> Result<(), AllocError>
        ensures same { notes_of self.new ≡ notes_of self.old }
        ensures room { OnOk result (HasSpare self.new) }
        ensures succeeds { HasSpare self.old → IsOk result }
    {
        self.journal.reserve(1)
    }

    /// Notes a turn of its machine, in which this was asked: counts the turn, and appends a settled
    /// call to the journal. If out of memory for the entry, it notes nothing.
    #[inline(always)]
    pub fn note(&mut self, asked: TurnCall) -> Result<(), AllocError>
        requires { HasRoom self.old.counts }
        ensures noted { OnOk result (notes_of self.new ≡ notes_with (notes_of self.old) asked) }
        ensures failed { OnErr result (notes_of self.new ≡ notes_of self.old) }
        ensures succeeds { HasSpare self.old → IsOk result }
    {
        if let Some(entry) = entry_of(asked) {
            self.journal.push(entry)?;
        }
        self.counts.add(asked);
        Ok(())
    }
}
