//! A gate that keeps the machines of a run at one pace.
ghost use Rattle.std.specs.Prelude.{◌≡◌, ◌⊎◌, ◌↔◌, IsTrue, slice_set};
ghost use Rattle.plan_workers.specs.Paces.{HaveHad};

use crate::gate::PlanGate;
use std::sync::{Condvar, CondvarTimeouts, Mutex, Wait};
use std::time::{Clock, Duration};

/// The most callers of a plan: 30 machines, and the watch.
const CALLERS: usize = 31;

/// How far machines have come.
#[derive(Drop)]
struct Paces {
    /// How many turns each has had.
    turns: [u32; CALLERS],
    /// Whether a machine has waited in vain: then none waits any more.
    is_open: bool,
}

/// Lets a machine begin its turn k once each machine of the run has had its turn k - 1. Until then it waits.
///
/// A gate is for one run, or for the rounds of one, of all machines with a number below `machines`, at most 31. A
/// machine that has waited for `patience` opens it: from then on none waits. So a run ends also where machines get no
/// thread and work one after another, or where one isn't there.
#[derive(Drop)]
pub struct PacedPlanGate<'r, R: Wait + Clock> {
    rt: &'r R,
    machines: u8,
    patience: Duration,
    paces: Mutex<Paces>,
    // Told when a machine has come so far that others may go on.
    moved: Condvar,
}

impl Paces {
    /// A machine has had this number of turns. A number above 30 is no machine's.
    fn put(&mut self, machine: u8, turns: u32)
        ensures { self.new ≡ record self.old { turns = slice_set self.old.turns machine turns } }
    {
        let machine = usize::from(machine);
        if machine < CALLERS {
            self.turns[machine] = turns;
        }
    }

    /// Whether each machine of a run has had this number of turns.
    fn have_had(&self, machines: u8, turns: u32) -> bool
        ensures { IsTrue result ↔ HaveHad machines turns self.now.turns }
    {
        for machine in 0..CALLERS {
            if machine < usize::from(machines) && self.turns[machine] < turns {
                return false;
            }
        }
        true
    }

    /// Whether a machine may begin its turn of this number.
    fn may_begin(&self, machines: u8, turn: u32) -> bool
        ensures { IsTrue result
            ↔ (IsTrue self.now.is_open ⊎ HaveHad machines turn self.now.turns) }
    {
        self.is_open || self.have_had(machines, turn)
    }
}

impl<'r, R: Wait + Clock> PacedPlanGate<'r, R> {
    /// A gate for a run that hasn't begun, of the machines with a number below `machines`.
    pub fn new(rt: &'r R, machines: u8, patience: Duration) -> PacedPlanGate<'r, R> {
        let paces = Paces {
            turns: [0; CALLERS],
            is_open: false,
        };
        PacedPlanGate {
            rt,
            machines,
            patience,
            paces: Mutex::new(paces),
            moved: Condvar::new(),
        }
    }
}

impl<R: Wait + Clock> PlanGate for PacedPlanGate<'_, R> {
    ghost use Rattle.std.specs.Prelude.{◌≡◌, true};

    ghost may_answer = { λ _ _ _ answer. answer ≡ true };

    fn pass(&self, machine: u8, turn: u32) -> bool {
        let mut paces = self.paces.lock(self.rt);
        paces.put(machine, turn);
        if paces.may_begin(self.machines, turn) {
            self.moved.notify_all();
            return true;
        }
        let (mut paces, wait) = self
            .moved
            .wait_timeout_while(self.rt, paces, self.patience, |paces| {
                !paces.may_begin(self.machines, turn)
            });
        if wait.timed_out() {
            paces.is_open = true;
            self.moved.notify_all();
        }
        true
    }

    fn begin(&self) {
        self.paces.lock(self.rt).turns = [0; CALLERS];
    }
}
