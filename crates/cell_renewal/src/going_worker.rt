//! A machine that goes on in the middle of its program, as a worker.
ghost use Rattle.std.specs.Prelude.{◌≡◌, None};
ghost use Rattle.cell_rules.specs.Restamping.{IsSameFor};

use crate::renewed_worker::RenewedWorker;
use crate::wired_worker::{Devices, take_wired_turns};
use cell_control::{Program, Unwired};
use cell_interlock::{Interlock, Pass, PassLine};
use cell_notes::Status;
use cell_rules::State;
use cell_threads::{Gate, Worker, WorkerResult};
use cell_types::Machine;
use std::alloc::Global;
use std::marker::Model;

/// A machine that may go on where it was, with devices of your own.
#[derive(Drop)]
pub struct GoingWorker<P: Program, D> {
    machine: Unwired<P>,
    opening: State,
    devices: D,
}

impl<P: Program, D> Model for GoingWorker<P, D> {
    ghost use Rattle.cell_rules.specs.Restamping.{IsSameFor};
    ghost use Rattle.cell_renewal.specs.Going.{GoingOn};

    ghost Value = { GoingOn P P.Progress D };

    ghost view = { λ w. record { machine = w.machine; opening = w.opening; devices = w.devices } };

    ghost invariant = { λ w. IsSameFor (P.steps w.machine.program).machine w.machine.left w.opening };
}

/// What is left of such a machine after its turns.
#[derive(Drop)]
pub struct GoingOutput<P: Program, D> {
    /// How many turns it took.
    pub turns: u32,
    /// In how many cycles its sensors showed nothing.
    pub missed: u32,
    /// How its worker ended.
    pub status: Status,
    /// Its sensors and actuators.
    pub devices: D,
    /// The machine, which may go on by another interlock.
    pub machine: Unwired<P>,
}

impl<P: Program, D> Model for GoingOutput<P, D> {
    ghost use Rattle.cell_renewal.specs.Going.{GoingLeft};

    ghost Value = { GoingLeft P P.Progress D };

    ghost view = { λ o. record {
      turns = o.turns;
      missed = o.missed;
      status = o.status;
      devices = o.devices;
      machine = o.machine;
    } };
}

impl<P: Program, D> GoingWorker<P, D> {
    /// A machine at the start of its program, with its devices, where the interlock opens with this
    /// state.
    pub fn at_start(program: P, machine: Machine, opening: State, devices: D) -> GoingWorker<P, D>
        requires own { machine ≡ (P.steps program).machine }
        ensures program { result.machine.program ≡ program }
        ensures progress { result.machine.progress ≡ (P.steps program).start opening }
        ensures running { result.machine.stopped ≡ None }
        ensures left { result.machine.left ≡ opening }
        ensures opening { result.opening ≡ opening }
        ensures devices { result.devices ≡ devices }
    {
        let unwired = Unwired::at_start(program, machine, &opening);
        let worker = GoingWorker::new(unwired, &opening, devices);
        worker
    }

    /// A machine that goes on where the interlock opens with this state, with its devices.
    pub fn new(machine: Unwired<P>, opening: &State, devices: D) -> GoingWorker<P, D>
        requires same { IsSameFor (P.steps machine.program).machine machine.left opening.now }
        ensures machine { result.machine ≡ machine }
        ensures opening { result.opening ≡ opening.now }
        ensures devices { result.devices ≡ devices }
    {
        GoingWorker {
            machine,
            opening: *opening,
            devices,
        }
    }
}

impl<P: Program, D: Devices<Sense = P::Sense, Act = P::Act>> Worker for GoingWorker<P, D> {
    ghost use Rattle.std.specs.Prelude.{◌≡◌};
    ghost use Rattle.cell_renewal.specs.WiredWorkers.{IsGoingResult, wired_moment};

    type Output = GoingOutput<P, D>;

    ghost is_ready = { λ w pass. (pass.machine ≡ (P.steps w.machine.program).machine) × (pass.opening ≡ w.opening) };

    ghost gives_back = { λ w pass tries gate limit r.
        (r.output.machine.program ≡ w.machine.program) × IsGoingResult tries (P.steps w.machine.program)
        D.shows D.sets gate limit
        (wired_moment pass w.machine.progress w.machine.stopped w.devices 0 0)
        r.pass r.output.turns r.output.missed r.output.status r.output.devices
        r.output.machine.progress r.output.machine.stopped r.output.machine.left };

    fn take_turns<G: Gate>(
        self,
        alloc: Global,
        interlock: &Interlock,
        pass: Pass,
        gate: &G,
        turns: u32,
    ) -> WorkerResult<GoingOutput<P, D>> {
        let GoingWorker {
            machine,
            opening: _,
            mut devices,
        } = self;
        let mut wired = machine.wire(PassLine::new(alloc, interlock, pass));
        let ending = take_wired_turns(&mut wired, &mut devices, gate, turns);
        let (machine, line) = wired.unwire();
        let (pass, journal) = line.into_parts();
        WorkerResult {
            pass,
            journal,
            output: GoingOutput {
                turns: ending.turns,
                missed: ending.missed,
                status: ending.status,
                devices,
                machine,
            },
        }
    }
}

impl<P: Program, D: Devices<Sense = P::Sense, Act = P::Act>> RenewedWorker for GoingWorker<P, D> {
    ghost use Rattle.cell_renewal.specs.Going.{GoesOnFrom};

    ghost machine = { λ o. (P.steps o.machine.program).machine };

    ghost left = { λ o. o.machine.left };

    ghost ended = { λ o. o.status };

    // The same machine, at its step, with its devices.
    ghost goes_on = { λ o opening w. GoesOnFrom o.machine o.devices opening w };

    fn leaves<G: Gate>(_gate: &G) {}

    fn status(output: &GoingOutput<P, D>) -> Status {
        output.status
    }

    fn go_on(output: GoingOutput<P, D>, opening: &State) -> GoingWorker<P, D> {
        let GoingOutput {
            turns: _,
            missed: _,
            status: _,
            devices,
            machine,
        } = output;
        GoingWorker::new(machine, opening, devices)
    }
}
