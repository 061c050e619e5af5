//! A machine with sensors and actuators of your own, as a worker.
ghost use Rattle.std.specs.Prelude.{◌≡◌, ◌≢◌, ◌+◌, ◌<◌, None, true};
ghost use Rattle.cell_interlock.specs.Lines.{PassAsks};
ghost use Rattle.cell_interlock.specs.Seen.{IsSamePass};
ghost use Rattle.cell_control.specs.Turns.{Turns};
ghost use Rattle.cell_control.specs.Turns.{answered};
ghost use Rattle.cell_threads.specs.Workers.{ComesBy, Ends};
ghost use Rattle.cell_renewal.specs.WiredWorkers.{TakesCycle, wired_moment};

use cell_control::{Commands, Program, Wired};
use cell_interlock::{Interlock, Pass, PassLine};
use cell_notes::Status;
use cell_rules::{Line, State};
use cell_threads::{Gate, Worker, WorkerResult};
use cell_unit::status_of;
use std::alloc::Global;

/// The sensors and actuators of a machine.
pub trait Devices: Drop {
    ghost use Rattle.std.specs.Prelude.{⊤, Option};
    ghost use Rattle.cell_control.specs.declared.commands.Commands.{Commands};

    /// What the sensors show.
    type Sense;

    /// The commands to the actuators.
    type Act;

    // What the sensors may show, if anything, and the devices after they are read. The default is
    // anything.
    ghost shows: { Self → Option Self.Sense → Self → Type 0 } = { λ _ _ _. ⊤ };

    // The devices after their actuators are set as told. The default is anything.
    ghost sets: { Self → Commands Self.Act → Self → Type 0 } = { λ _ _ _. ⊤ };

    /// What the sensors show now; `None` if one of them doesn't answer. Then the actuators are told
    /// to rest, and the machine has no turn.
    fn read(&mut self) -> Option<Self::Sense>
        ensures { shows self.old result self.new };

    /// Sets the actuators as they are told, each time. After a fault, and without a reading, motors
    /// are off.
    fn set(&mut self, told: &Commands<Self::Act>)
        ensures { sets self.old told.now self.new };
}

/// A machine at the start of its program, with devices of your own.
#[derive(Drop)]
pub struct WiredWorker<P, D> {
    /// The machine's program.
    pub program: P,
    /// The state that the interlock opens with.
    pub opening: State,
    /// The machine's sensors and actuators.
    pub devices: D,
}

/// What is left of such a machine after its turns.
#[derive(Drop)]
pub struct WiredOutput<D> {
    /// How many turns it took.
    pub turns: u32,
    /// In how many cycles its sensors showed nothing.
    pub missed: u32,
    /// How its worker ended.
    pub status: Status,
    /// Its sensors and actuators.
    pub devices: D,
}

// How many turns a worker has had, and how many cycles in which its sensors showed nothing.
#[derive(Clone, Copy, Debug)]
struct CycleCounts {
    turns: u32,
    missed: u32,
}

impl CycleCounts {
    // The ending with this status.
    fn ending(self, status: Status) -> WiredEnding
        ensures turns { result.turns ≡ self.turns }
        ensures missed { result.missed ≡ self.missed }
        ensures status { result.status ≡ status }
    {
        WiredEnding {
            turns: self.turns,
            missed: self.missed,
            status,
        }
    }
}

/// How a worker with devices ended.
#[derive(Clone, Copy, Debug)]
pub(crate) struct WiredEnding {
    pub(crate) turns: u32,
    pub(crate) missed: u32,
    pub(crate) status: Status,
}

impl<P: Program, D: Devices<Sense = P::Sense, Act = P::Act>> Worker for WiredWorker<P, D> {
    ghost use Rattle.std.specs.Prelude.{◌≡◌, None};
    ghost use Rattle.cell_renewal.specs.WiredWorkers.{IsWiredResult, wired_moment};

    type Output = WiredOutput<D>;

    ghost is_ready = { λ w pass. (pass.machine ≡ (P.steps w.program).machine) × (pass.opening ≡ w.opening) };

    ghost gives_back = { λ w pass tries gate limit r.
        IsWiredResult tries (P.steps w.program) D.shows D.sets gate limit
        (wired_moment pass ((P.steps w.program).start w.opening) None w.devices 0 0)
        r.pass r.output.turns r.output.missed r.output.status r.output.devices };

    fn take_turns<G: Gate>(
        self,
        alloc: Global,
        interlock: &Interlock,
        pass: Pass,
        gate: &G,
        turns: u32,
    ) -> WorkerResult<WiredOutput<D>> {
        let WiredWorker {
            program,
            opening,
            mut devices,
        } = self;
        let line = PassLine::new(alloc, interlock, pass);
        let mut wired = Wired::new(program, &opening, line);
        let ending = take_wired_turns(&mut wired, &mut devices, gate, turns);
        let (pass, journal) = wired.into_line().into_parts();
        WorkerResult {
            pass,
            journal,
            output: WiredOutput {
                turns: ending.turns,
                missed: ending.missed,
                status: ending.status,
                devices,
            },
        }
    }
}

/// Goes through cycles, at most `cycles`, and none after a turn that has stopped the machine. In each,
/// once the gate lets it begin, the devices are read and set once. It is a turn if the sensors show
/// something; else the devices are told to rest. The line's pass stays the same.
pub(crate) fn take_wired_turns<'a, P: Program, D: Devices<Sense = P::Sense, Act = P::Act>, G: Gate>(
    wired: &mut Wired<P, PassLine<'a>>,
    devices: &mut D,
    gate: &G,
    cycles: u32,
) -> WiredEnding
    ensures same { IsSamePass wired.old.line.pass wired.new.line.pass }
    ensures come { ComesBy (TakesCycle wired.old.line.tries (P.steps wired.old.program) D.shows D.sets
        (G.may_answer gate.now wired.old.line.pass.machine))
        (wired_moment wired.old.line.pass wired.old.progress wired.old.stopped devices.old 0 0)
        (wired_moment wired.new.line.pass wired.new.progress wired.new.stopped devices.new result.turns result.missed) }
    ensures ends { Ends (G.may_answer gate.now wired.old.line.pass.machine) cycles wired.new.stopped
        (result.turns + result.missed) result.status }
    ensures program { wired.new.program ≡ wired.old.program }
{
    let machine = wired.line().machine();
    let mut done = CycleCounts {
        turns: 0,
        missed: 0,
    };
    for cycle in 0..cycles {
        if wired.stopped_by().is_some() {
            return done.ending(status_of(wired.stopped_by()));
        }
        if !gate.pass(machine, cycle) {
            return done.ending(Status::GateLimit);
        }
        done = take_cycle(wired, devices, gate, done);
    }
    done.ending(status_of(wired.stopped_by()))
}

/// One cycle of a machine that runs, once its gate has let it begin: a turn if the sensors show
/// something, else a rest. Gives the counts after it.
fn take_cycle<'a, P: Program, D: Devices<Sense = P::Sense, Act = P::Act>, G: Gate>(
    wired: &mut Wired<P, PassLine<'a>>,
    devices: &mut D,
    _gate: &G,
    done: CycleCounts,
) -> CycleCounts
    requires runs { wired.old.stopped ≡ None }
    requires let_in { G.may_answer _gate.now wired.old.line.pass.machine (done.turns + done.missed) true }
    requires room { done.turns + done.missed < 4294967295 }
    ensures same { IsSamePass wired.old.line.pass wired.new.line.pass }
    ensures cycle { TakesCycle wired.old.line.tries (P.steps wired.old.program) D.shows D.sets
        (G.may_answer _gate.now wired.old.line.pass.machine)
        (wired_moment wired.old.line.pass wired.old.progress wired.old.stopped devices.old done.turns done.missed)
        (wired_moment wired.new.line.pass wired.new.progress wired.new.stopped devices.new result.turns result.missed) }
    ensures one_more { result.turns + result.missed ≡ done.turns + done.missed + 1 }
    ensures tries { wired.new.line.tries ≡ wired.old.line.tries }
    ensures program { wired.new.program ≡ wired.old.program }
{
    let CycleCounts { turns, missed } = done;
    match devices.read() {
        Some(sense) => {
            let told = turn_by_line(wired, &sense);
            devices.set(&told);
            CycleCounts {
                turns: turns + 1,
                missed,
            }
        }
        None => {
            devices.set(&wired.at_rest());
            CycleCounts {
                turns,
                missed: missed + 1,
            }
        }
    }
}

/// One turn. The line's pass stays the same.
fn turn_by_line<'a, P: Program>(
    wired: &mut Wired<P, PassLine<'a>>,
    sense: &P::Sense,
) -> Commands<P::Act>
    ensures same { IsSamePass wired.old.line.pass wired.new.line.pass }
    ensures row { Turns (P.steps wired.old.program) (wired.new.line.pass ≡ wired.old.line.pass)
        (λ c r. PassAsks wired.old.line.tries wired.old.line.pass c r wired.new.line.pass)
        wired.old.stopped wired.old.progress sense.now
        (record {
          result = answered result.act result.fault;
          progress = wired.new.progress;
          stopped = wired.new.stopped;
        }) }
    ensures rest { result.fault ≢ None
        → result.act ≡ (P.steps wired.old.program).rest wired.old.progress }
    ensures motor_demands { result.fault ≡ None → (P.steps wired.old.program).motor_demands
        wired.old.progress result.act wired.new.line.pass.opening wired.new.line.pass.seen }
    ensures tries { wired.new.line.tries ≡ wired.old.line.tries }
    ensures program { wired.new.program ≡ wired.old.program }
{
    wired.turn(sense)
}
