//! A gate that counts how often machines ask it, and may have them wait for each other. It has counters for the calls
//! of their potentiometers' closures.
ghost use Rattle.std.specs.Prelude.{◌<◌};

use cell_threads::Gate;
use cell_types::Machine;
use std::sync::atomic::{AtomicU64, Ordering};

/// How machines wait for each other at a gate. They wait for a bounded time.
#[derive(Clone, Copy, PartialEq, Eq)]
pub enum Waits {
    /// They don't.
    Nobody,
    /// From this turn up to that one, a machine begins once all six have asked for the turn.
    ForAll(u32, u32),
    /// The robot begins once the table has asked for its third turn, and the table begins that once the robot has
    /// ended. So the robot finds all that the table has done in its first two turns, if it asks for each turn after the
    /// one before.
    InOrder,
}

/// Lets each of six machines begin its turns but for one, and counts how often each has asked.
#[derive(Drop)]
pub struct Doorkeeper {
    // The one turn that each may not begin. It may begin later ones, but a machine that was shut out asks no more.
    lets: [u32; 6],
    waits: Waits,
    // How often each machine has asked, and the watch.
    asked: [AtomicU64; 7],
    // How often `end` said that each takes no more turns.
    ended: [AtomicU64; 7],
    /// How often the closures were called: of the first arm, the second arm and the robot's rotation, of the table's
    /// rotation, and of the gripper's height.
    pub calls: [AtomicU64; 5],
    // How many asks had another number than that of the machine's asks before, came before or after another number of
    // calls of its closures, or waited in vain.
    astray: AtomicU64,
}

impl Doorkeeper {
    pub fn new(lets: [u32; 6], waits: Waits) -> Doorkeeper {
        Doorkeeper {
            lets,
            waits,
            asked: [zero(), zero(), zero(), zero(), zero(), zero(), zero()],
            ended: [zero(), zero(), zero(), zero(), zero(), zero(), zero()],
            calls: [zero(), zero(), zero(), zero(), zero()],
            astray: zero(),
        }
    }

    /// Whether the six machines have asked this number of times, each by the numbers from 0 on, and the watch never;
    /// and `end` was called once for each of the six.
    pub fn was_asked(&self, times: &[u32; 6]) -> bool {
        for machine in 0..6usize {
            let asked = self.asked[machine].load(Ordering::SeqCst);
            let ended = self.ended[machine].load(Ordering::SeqCst);
            if asked != u64::from(times[machine]) || ended != 1 {
                return false;
            }
        }
        let of_watch = self.asked[6].load(Ordering::SeqCst) | self.ended[6].load(Ordering::SeqCst);
        of_watch == 0 && self.astray.load(Ordering::SeqCst) == 0
    }

    /// Whether each closure was called once in each of its machine's turns, if the six machines took this number.
    pub fn was_called(&self, turns: &[u32; 6]) -> bool {
        let [_, table, robot, _, _, crane] = *turns;
        self.is_called(Machine::Robot, u64::from(robot))
            && self.is_called(Machine::Table, u64::from(table))
            && self.is_called(Machine::Crane, u64::from(crane))
    }

    // Whether each closure of a machine was called this number of times.
    fn is_called(&self, machine: Machine, times: u64) -> bool {
        let [arm1, arm2, rotation, turn, gripper] = &self.calls;
        match machine {
            Machine::Robot => is_at(arm1, times) && is_at(arm2, times) && is_at(rotation, times),
            Machine::Table => is_at(turn, times),
            Machine::Crane => is_at(gripper, times),
            Machine::Feed | Machine::Press | Machine::Deposit | Machine::Watch => true,
        }
    }

    /// Whether some first machines have asked this number of times, and the others never.
    pub fn has_let_in_the_first(&self, times: u64) -> bool {
        let mut wanted = times;
        for machine in 0..7usize {
            let asked = self.asked[machine].load(Ordering::SeqCst);
            if asked != wanted {
                wanted = 0;
            }
            if asked != wanted {
                return false;
            }
        }
        true
    }

    // Whether what a machine waits for at a turn comes.
    fn may_begin(&self, machine: Machine, turn: u32) -> bool {
        match self.waits {
            Waits::Nobody => true,
            Waits::ForAll(first, end) => {
                turn < first || end <= turn || self.do_all_meet(u64::from(turn) + 1)
            }
            Waits::InOrder => match (machine, turn) {
                (Machine::Robot, 0) => does_come(&self.asked[1], 3),
                (Machine::Table, 2) => does_come(&self.ended[2], 1),
                _ => true,
            },
        }
    }

    // Whether all six come to ask this number of times.
    fn do_all_meet(&self, times: u64) -> bool {
        for machine in 0..6usize {
            if !does_come(&self.asked[machine], times) {
                return false;
            }
        }
        true
    }
}

// Whether a number is this.
fn is_at(number: &AtomicU64, wanted: u64) -> bool {
    number.load(Ordering::SeqCst) == wanted
}

// Whether a number comes to be this or more, at one of many looks.
fn does_come(number: &AtomicU64, wanted: u64) -> bool {
    for _ in 0..200_000_000u32 {
        if number.load(Ordering::SeqCst) >= wanted {
            return true;
        }
    }
    false
}

fn zero() -> AtomicU64 {
    AtomicU64::new(0)
}

// A machine's place in the order of reports.
fn place_of(machine: Machine) -> usize
    ensures { result < 7 }
{
    match machine {
        Machine::Feed => 0,
        Machine::Table => 1,
        Machine::Robot => 2,
        Machine::Press => 3,
        Machine::Deposit => 4,
        Machine::Crane => 5,
        Machine::Watch => 6,
    }
}

impl Gate for Doorkeeper {
    fn pass(&self, machine: Machine, turn: u32) -> bool {
        let at = place_of(machine);
        let before = self.asked[at].fetch_add(1, Ordering::SeqCst);
        let is_called = self.is_called(machine, before);
        if before != u64::from(turn) || !is_called || !self.may_begin(machine, turn) {
            self.astray.fetch_add(1, Ordering::SeqCst);
        }
        at < self.lets.len() && turn != self.lets[at]
    }

    fn end(&self, machine: Machine) {
        self.ended[place_of(machine)].fetch_add(1, Ordering::SeqCst);
    }
}
