//! The notebooks of the machines in a run.
ghost use Rattle.std.specs.Prelude.{◌≡◌, map};
ghost use Rattle.cell_types.specs.declared.machine.Machine.{Machine};
ghost use Rattle.cell_types.specs.Everything.{all_machines};
ghost use Rattle.cell_types.specs.Journals.{journal_of};
ghost use Rattle.cell_notes.specs.ByMachine.{at_machine};
ghost use Rattle.cell_plant.specs.Moments.{first_notes};
ghost use Rattle.cell_plant.specs.Notebooks.{all_notes};

use cell_notes::{ByMachine, Counts, Notebook};
use cell_types::Journals;
use std::alloc::Global;

/// A notebook for each machine.
pub(crate) type Notebooks = ByMachine<Notebook>;

/// Notebooks before the first turn. They allocate nothing.
pub(crate) fn empty_notebooks(alloc: Global) -> Notebooks
    ensures { all_notes result ≡ first_notes }
{
    ByMachine::each(alloc).map(Notebook::new)
}

/// The counts of each machine, in the order of `Machine::ALL`.
pub(crate) fn counts_in(notebooks: &Notebooks) -> [Counts; 7]
    ensures { result ≡ map (λ m. (at_machine (all_notes notebooks.now) m).counts) all_machines }
{
    [
        notebooks.feed.counts,
        notebooks.table.counts,
        notebooks.robot.counts,
        notebooks.press.counts,
        notebooks.deposit.counts,
        notebooks.crane.counts,
        notebooks.watch.counts,
    ]
}

/// Each machine's journal.
pub(crate) fn journals_of(notebooks: Notebooks) -> Journals
    ensures { (m : Machine) → journal_of result m ≡ (at_machine (all_notes notebooks) m).journal }
{
    Journals {
        feed: notebooks.feed.journal,
        table: notebooks.table.journal,
        robot: notebooks.robot.journal,
        press: notebooks.press.journal,
        deposit: notebooks.deposit.journal,
        crane: notebooks.crane.journal,
        watch: notebooks.watch.journal,
    }
}
