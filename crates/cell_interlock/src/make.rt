//! Makes an interlock.
ghost use Rattle.std.specs.Prelude.{◌≡◌, ◌<◌, IfOk, Err, ◌⊎◌, ◌↔◌};
ghost use Rattle.cell_types.specs.Everything.{all_machines};
ghost use Rattle.word_interlock.specs.Bunches.{fresh_passes};
ghost use Rattle.cell_interlock.specs.Engine.{interlock_from};
ghost use Rattle.cell_interlock.specs.Fresh.{AreFresh};

use crate::interlock::Interlock;
use crate::pass::{Pass, Passes};
use crate::rules::CellRules;
use cell_rules::State;
use cell_rules::laws::states_are_sound;
use cell_types::Machine;
use std::alloc::Global;
use word_interlock as engine;

/// Why an interlock wasn't made.
#[derive(Clone, Copy, PartialEq, Eq, Debug)]
pub enum MakeFault {
    /// The number of exchanges that a call may lose isn't 1 to 64.
    Tries,
    /// There was no memory for the word.
    Memory,
}

impl Interlock {
    /// Makes an interlock that opens with a state, and its only pass for each machine. A call is
    /// Busy once it has lost `tries` exchanges.
    ///
    /// Errors: `Tries` if `tries` isn't 1 to 64, which is checked first; `Memory` if there is no
    /// memory for the word. No later call allocates memory.
    pub fn new(alloc: Global, opening: State, tries: u8) -> Result<(Interlock, Passes), MakeFault>
        ensures tries { (result ≡ Err MakeFault.Tries) ↔ ((tries < 1) ⊎ (64 < tries)) }
        ensures opening { IfOk result (λ made. made.0.opening ≡ opening) }
        ensures limit { IfOk result (λ made. made.0.tries ≡ tries) }
        ensures passes { IfOk result (λ made. AreFresh made.0 made.1) }
    {
        states_are_sound(&opening);
        match engine::Interlock::new(alloc, CellRules, opening, tries) {
            Ok((inner, mut all)) => {
                let passes = take_passes(&inner, &mut all);
                Ok((Interlock { inner }, passes))
            }
            Err(engine::MakeFault::Tries) => Err(MakeFault::Tries),
            Err(engine::MakeFault::Memory) => Err(MakeFault::Memory),
        }
    }
}

// The passes of a new interlock, out of the value that has them all.
fn take_passes(inner: &engine::Interlock<CellRules>, all: &mut engine::Passes<CellRules>) -> Passes
    requires fresh { all.old ≡ fresh_passes inner.now all_machines }
    ensures { AreFresh (interlock_from inner.now) result }
{
    Passes {
        feed: Pass {
            inner: inner.take_pass(all, Machine::Feed),
        },
        table: Pass {
            inner: inner.take_pass(all, Machine::Table),
        },
        robot: Pass {
            inner: inner.take_pass(all, Machine::Robot),
        },
        press: Pass {
            inner: inner.take_pass(all, Machine::Press),
        },
        deposit: Pass {
            inner: inner.take_pass(all, Machine::Deposit),
        },
        crane: Pass {
            inner: inner.take_pass(all, Machine::Crane),
        },
        watch: Pass {
            inner: inner.take_pass(all, Machine::Watch),
        },
    }
}
