//! A gate that keeps the machines at one pace.
ghost use Rattle.std.specs.Prelude.{◌≡◌, ◌↔◌, IsTrue};
ghost use Rattle.cell_threads.specs.Paces as paces;
ghost use Rattle.cell_threads.specs.Paces.{HasHad, HaveHad};

use crate::gate::Gate;
use cell_notes::ByMachine;
use cell_types::Machine;
use std::sync::{Condvar, Mutex, Wait};

/// How far a machine has come.
#[derive(Clone, Copy)]
pub(crate) enum Pace {
    /// It has had this number of turns.
    Had(u32),
    /// It takes no more turns.
    Ended,
}

impl Pace {
    /// Whether it has had this number of turns, or takes no more.
    fn has_had(self, turns: u32) -> bool
        ensures { IsTrue result ↔ HasHad turns self }
    {
        match self {
            Pace::Had(had) => turns <= had,
            Pace::Ended => true,
        }
    }
}

/// How far each machine has come.
type Paces = ByMachine<Pace>;

/// Before any turn. The watch takes none.
fn first_paces() -> Paces
    ensures { result ≡ paces.first_paces }
{
    let mut paces = ByMachine::each(Pace::Had(0));
    paces.put(Machine::Watch, Pace::Ended);
    paces
}

/// Whether each machine has had this number of turns, or takes no more.
fn have_had(paces: &Paces, turns: u32) -> bool
    ensures { IsTrue result ↔ HaveHad turns paces.now }
{
    paces.feed.has_had(turns)
        && paces.table.has_had(turns)
        && paces.robot.has_had(turns)
        && paces.press.has_had(turns)
        && paces.deposit.has_had(turns)
        && paces.crane.has_had(turns)
        && paces.watch.has_had(turns)
}

/// Lets a machine begin its turn k once each of the six has had its turn k - 1 or takes no more
/// turns. Until then it waits. So no machine uses its turns up while another waits for a processor,
/// and a plate gets round.
///
/// A gate is for one run, or for the rounds of one, one after another. It waits for ever for a machine that has no
/// worker.
#[derive(Drop)]
pub struct PacedGate<'r, R: Wait> {
    rt: &'r R,
    paces: Mutex<Paces>,
    // Told when a machine has come so far that others may go on.
    moved: Condvar,
}

impl<'r, R: Wait> PacedGate<'r, R> {
    /// A gate for a run that hasn't begun.
    pub fn new(rt: &'r R) -> PacedGate<'r, R> {
        PacedGate {
            rt,
            paces: Mutex::new(first_paces()),
            moved: Condvar::new(),
        }
    }
}

impl<R: Wait> Gate for PacedGate<'_, R> {
    ghost use Rattle.std.specs.Prelude.{◌≡◌, true};

    ghost may_answer = { λ _ _ _ answer. answer ≡ true };

    fn pass(&self, machine: Machine, turn: u32) -> bool {
        let mut paces = self.paces.lock(self.rt);
        paces.put(machine, Pace::Had(turn));
        if have_had(&paces, turn) {
            self.moved.notify_all();
            return true;
        }
        self.moved
            .wait_while(self.rt, paces, |paces| !have_had(paces, turn));
        true
    }

    fn begin(&self) {
        *self.paces.lock(self.rt) = first_paces();
    }

    fn end(&self, machine: Machine) {
        self.paces.lock(self.rt).put(machine, Pace::Ended);
        self.moved.notify_all();
    }
}
