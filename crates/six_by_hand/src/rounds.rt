//! A number of rounds, each over an interlock of its own, at one pace and audited.

ghost use Rattle.std.specs.Prelude.{◌≡◌, None};

use cell_renewal::{Round, RoundSink};
use cell_report::{AuditFault, audit};
use cell_rules::State;
use cell_threads::{Gate, PacedGate};
use cell_types::{Answer, Call, Entry, Machine, Zone};
use std::alloc::Global;
use std::sync::{Mutex, Wait};

/// Keeps the machines at one pace, and shuts after a number of rounds.
#[derive(Drop)]
pub struct RoundsGate<'r, R: Wait> {
    rt: &'r R,
    paced: PacedGate<'r, R>,
    // How many rounds have begun, and the most in which a machine may begin a turn.
    begun: Mutex<u32>,
    most: u32,
}

impl<'r, R: Wait> RoundsGate<'r, R> {
    /// A gate for this number of rounds, of which none has begun.
    pub fn new(rt: &'r R, most: u32) -> RoundsGate<'r, R> {
        RoundsGate {
            rt,
            paced: PacedGate::new(rt),
            begun: Mutex::new(0),
            most,
        }
    }
}

impl<R: Wait> Gate for RoundsGate<'_, R> {
    fn pass(&self, machine: Machine, turn: u32) -> bool {
        let begun = *self.begun.lock(self.rt);
        begun <= self.most && self.paced.pass(machine, turn)
    }

    fn begin(&self) {
        let mut begun = self.begun.lock(self.rt);
        *begun = (*begun).saturating_add(1);
        self.paced.begin();
    }

    fn end(&self, machine: Machine) {
        self.paced.end(machine);
    }
}

/// Audits each round from its opening to its end, and keeps no entry.
#[derive(Drop)]
pub struct Audits {
    alloc: Global,
    /// The state that the last round left; `None` before the first.
    pub left: Option<State>,
    /// How many rounds were audited.
    pub rounds: u32,
    /// How often the crane gave a plate back to the feed belt.
    pub plates: usize,
    /// How many calls were done.
    pub done: u64,
    /// In how many rounds the interlock opened with the stamp 0.
    pub renewed: u32,
}

impl Audits {
    /// Before the first round.
    pub fn new(alloc: Global) -> Audits
        ensures first { result.left ≡ None }
    {
        Audits {
            alloc,
            left: None,
            rounds: 0,
            plates: 0,
            done: 0,
            renewed: 0,
        }
    }
}

impl RoundSink for Audits {
    ghost use Rattle.std.specs.Prelude.{◌≡◌, Result};
    ghost use Rattle.six_by_hand.specs.Rounds.{IsNext, IsTaken};

    type Fault = AuditFault;

    // Each round goes on from the one before it, and a legal history explains it.
    ghost may_take = { λ audits round. IsNext audits.left round };

    // So the audit fails only if memory runs out.
    ghost takes = { λ _ round result audits. IsTaken round result audits.left };

    fn take(&mut self, round: Round) -> Result<(), AuditFault> {
        let Round {
            start,
            journals,
            end,
        } = round;
        audit(self.alloc, &journals, &start, Some(&end))?;
        let crane = journals.crane.as_slice();
        let done = end.stamp().saturating_sub(start.stamp());
        self.left = Some(end);
        self.rounds = self.rounds.saturating_add(1);
        self.plates = self.plates.saturating_add(given_back(crane));
        self.done = self.done.saturating_add(u64::from(done));
        if start.stamp() == 0 {
            self.renewed = self.renewed.saturating_add(1);
        }
        Ok(())
    }
}

// How often the crane gave a plate back to the feed belt.
fn given_back(journal: &[Entry]) -> usize {
    journal
        .iter()
        .filter(|entry| entry.call == Call::Give(Zone::Z6) && entry.answer == Answer::Done)
        .count()
}
