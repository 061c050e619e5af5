//! Threads that share one interlock, each with its own line. The audit has to accept the journals
//! of their lines: there is one legal history with exactly these calls, answers and stamps.
ghost use Rattle.std.specs.Prelude.{◌<◌};
ghost use Rattle.cell_interlock.specs.Fresh.{AreFresh};

use cell_interlock::{Interlock, PassLine, Passes};
use cell_report::audit;
use cell_rules::{Line, State};
use cell_types::{Answer, Call, Entry, Event, Journals, Machine, Pose, Zone};
use std::alloc::Global;
use std::process::Abort;
use std::thread::{Threads, for_each_mut};

/// Numbers that look random, from a seed.
#[derive(Drop)]
struct Numbers(u32);

impl Numbers {
    fn below(&mut self, end: u32) -> usize
        requires { 0 < end }
        ensures { result < end }
    {
        self.0 = self.0.wrapping_mul(1_664_525).wrapping_add(1_013_904_223);
        ((self.0 >> 8) % end) as usize
    }

    /// A claim, a handover, a pose, work or an inquiry, in one of three zones.
    fn call(&mut self, zones: [Zone; 3]) -> Call {
        let zone = zones[self.below(3)];
        match self.below(10) {
            0 | 1 => Call::Claim(zone),
            2 => Call::Give(zone),
            3 => Call::Yield(zone),
            4 => Call::Take(zone),
            5 => Call::Release(zone),
            6 | 7 => Call::SetPose(Pose::ALL[self.below(12)]),
            8 => Call::Advance,
            _ => Call::Inquire(zone),
        }
    }
}

/// The zones in which a machine meets others.
fn zones_of(machine: Machine) -> [Zone; 3] {
    match machine {
        Machine::Feed => [Zone::Z1, Zone::Z6, Zone::Z6],
        Machine::Table => [Zone::Z1, Zone::Z2, Zone::Z2],
        Machine::Robot => [Zone::Z2, Zone::Z3, Zone::Z4],
        Machine::Press | Machine::Watch => [Zone::Z3; 3],
        Machine::Deposit => [Zone::Z4, Zone::Z5, Zone::Z5],
        Machine::Crane => [Zone::Z5, Zone::Z6, Zone::Z6],
    }
}

/// The number of calls of each thread, and of exchanges that each call may lose.
#[derive(Clone, Copy)]
struct Load {
    calls: u32,
    tries: u8,
}

/// Makes calls that look random.
fn work(line: &mut PassLine<'_>, load: Load) {
    let machine = line.machine();
    let zones = zones_of(machine);
    let mut numbers = Numbers(machine as u32);
    for _ in 0..load.calls {
        let _ = line.ask(numbers.call(zones));
    }
}

/// The watch inquires about every zone.
fn inquire(watch: &mut PassLine<'_>) {
    for zone in Zone::ALL {
        let _ = watch.ask(Call::Inquire(zone));
    }
}

/// Keeps the journal of a line as its machine's.
fn keep(journals: &mut Journals, line: PassLine<'_>) {
    let (pass, journal) = line.into_parts();
    match pass.machine() {
        Machine::Feed => journals.feed = journal,
        Machine::Table => journals.table = journal,
        Machine::Robot => journals.robot = journal,
        Machine::Press => journals.press = journal,
        Machine::Deposit => journals.deposit = journal,
        Machine::Crane => journals.crane = journal,
        Machine::Watch => journals.watch = journal,
    }
}

/// Six machines at once, and then the watch.
fn seven<R: Threads + Sync>(
    rt: &R,
    interlock: &Interlock,
    passes: Passes,
    alloc: Global,
    load: Load,
) -> Journals
    requires { AreFresh interlock.now passes }
{
    let mut lines = [
        PassLine::new(alloc, interlock, passes.feed),
        PassLine::new(alloc, interlock, passes.table),
        PassLine::new(alloc, interlock, passes.robot),
        PassLine::new(alloc, interlock, passes.press),
        PassLine::new(alloc, interlock, passes.deposit),
        PassLine::new(alloc, interlock, passes.crane),
    ];
    for_each_mut(rt, &mut lines, 6, &|_, line| work(line, load));
    let mut watch = PassLine::new(alloc, interlock, passes.watch);
    inquire(&mut watch);
    let mut journals = Journals::new(alloc);
    for line in lines {
        keep(&mut journals, line);
    }
    keep(&mut journals, watch);
    journals
}

/// Whether many calls were done: journals with only refusals would be accepted, too.
fn many_are_done(events: &[Event]) -> bool {
    let mut done = 0u32;
    for event in events {
        if event.answer == Answer::Done {
            done = done.saturating_add(1);
        }
    }
    done >= 1000
}

/// Whether the audit accepts what six threads have noted.
fn is_accepted<R: Threads + Sync + Abort>(
    rt: &R,
    alloc: Global,
    opening: State,
    load: Load,
) -> bool {
    let (interlock, passes) = Interlock::new(alloc, opening, load.tries).expect(rt, "an interlock");
    let journals = seven(rt, &interlock, passes, alloc, load);
    match audit(alloc, &journals, &opening, None) {
        Ok(events) => many_are_done(&events),
        Err(_) => false,
    }
}

// Plates at FeedEnd, Table and PressIn.
const PLATES: [bool; 10] = [
    false, true, true, false, true, false, false, false, false, false,
];

const LOADS: &[Load] = &[
    Load {
        calls: 20_000,
        tries: 1,
    },
    Load {
        calls: 20_000,
        tries: 64,
    },
    Load {
        calls: 100_000,
        tries: 8,
    },
];

#[test]
fn six_threads_make_one_legal_history(rt: HostRuntime) {
    let opening = State::start(PLATES, 0).expect(&rt, "a start with three plates");
    for load in LOADS {
        assert!(rt;
            is_accepted(&rt, rt.alloc(), opening, *load),
            "{}",
            load.tries
        );
    }
}
