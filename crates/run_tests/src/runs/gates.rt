//! A gate that counts.
ghost use Rattle.std.specs.Prelude.{◌<◌};

use cell_threads::Gate;
use cell_types::Machine;
use std::sync::atomic::{AtomicU64, Ordering};

/// Lets each machine begin a number of turns, and counts how often each asks.
#[derive(Drop)]
pub struct CountingGate {
    // How often it lets the six machines in, in the order of reports.
    lets: [u32; 6],
    // How often each machine has asked, and the watch.
    asked: [AtomicU64; 7],
    // How many asks had another number than that of the machine's asks before.
    astray: AtomicU64,
}

impl CountingGate {
    pub fn new(lets: [u32; 6]) -> CountingGate {
        CountingGate {
            lets,
            asked: [zero(), zero(), zero(), zero(), zero(), zero(), zero()],
            astray: zero(),
        }
    }

    /// Whether the six machines have asked this number of times, each by the numbers from 0 on, and the watch never.
    pub fn was_asked(&self, times: [u32; 6]) -> bool {
        for machine in 0..6usize {
            if self.asked[machine].load(Ordering::SeqCst) != u64::from(times[machine]) {
                return false;
            }
        }
        self.asked[6].load(Ordering::SeqCst) == 0 && self.astray.load(Ordering::SeqCst) == 0
    }
}

fn zero() -> AtomicU64 {
    AtomicU64::new(0)
}

// A machine's place in the order of reports.
fn place_of(machine: Machine) -> usize
    ensures { result < 7 }
{
    match machine {
        Machine::Feed => 0,
        Machine::Table => 1,
        Machine::Robot => 2,
        Machine::Press => 3,
        Machine::Deposit => 4,
        Machine::Crane => 5,
        Machine::Watch => 6,
    }
}

impl Gate for CountingGate {
    fn pass(&self, machine: Machine, turn: u32) -> bool {
        let at = place_of(machine);
        let before = self.asked[at].fetch_add(1, Ordering::SeqCst);
        if before != u64::from(turn) {
            self.astray.fetch_add(1, Ordering::SeqCst);
        }
        at < self.lets.len() && before < u64::from(self.lets[at])
    }
}
