//! A machine at work: its controller, its line and its devices.
ghost use Rattle.std.specs.Prelude.{◌≡◌, None, Some};
ghost use Rattle.plan_controller.specs.Turns as turns;
ghost use Rattle.plan_controller.specs.Turns.{Turns, IsAtPlace, IsCareful, ArePermitted, AreRunning};
ghost use Rattle.plan_workers.specs.Works.{ReadsThenDrives};
ghost use Rattle.plan_workers.specs.Turning.{HasWorked};

use crate::devices::PlanDevices;
use crate::gate::PlanGate;
use plan_controller::laws::rounds_begin_anywhere;
use plan_controller::{PlanController, PlanLine, Step, TakenTurn};
use std::marker::Model;

/// A machine at work: its controller at the end of its line, and its devices.
///
/// The line is the controller's machine's, which is at the controller's place in its program by all that the line has
/// seen. So it stays.
#[derive(Drop)]
pub struct PlanWorker<L: PlanLine, D: PlanDevices> {
    controller: PlanController,
    line: L,
    devices: D,
}

impl<L: PlanLine, D: PlanDevices> Model for PlanWorker<L, D> {
    ghost use Rattle.plan_controller.specs.Wiring.{IsWired};
    ghost use Rattle.plan_workers.specs.Works.{AtWork, at_work};

    ghost Value = { AtWork L D };

    ghost view = { λ w. at_work w.controller w.line w.devices };

    ghost invariant = { λ w. IsWired w.controller (L.machine w.line) (L.table w.line)
        (L.opening w.line) (L.seen w.line) };
}

/// A turn of a machine at work.
#[derive(Clone, Copy, Debug, PartialEq, Eq)]
pub struct WorkTurn {
    /// What the sensors showed: a bit for each. `None` if they couldn't be read.
    pub sensors: Option<u32>,
    /// The turn that the controller took, with the motors that were given.
    pub taken: TakenTurn,
}

impl<L: PlanLine, D: PlanDevices> PlanWorker<L, D> {
    /// The machine of a line at the beginning of its program, with its devices.
    pub fn new(steps: Vec<Step>, line: L, devices: D) -> PlanWorker<L, D>
        ensures control { result.control ≡ turns.control (L.machine line) steps.items 0 None }
        ensures line { result.line ≡ line }
        ensures devices { result.devices ≡ devices }
    {
        rounds_begin_anywhere();
        let controller = PlanController::new(line.machine(), steps);
        PlanWorker::going_on(controller, line, devices)
    }

    /// The machine of a line that goes on where its controller is, with its devices. By all that the line has seen it
    /// is at that place in its program.
    pub fn going_on(controller: PlanController, line: L, devices: D) -> PlanWorker<L, D>
        requires own { L.machine line ≡ controller.machine }
        requires at { IsAtPlace L.table L.opening L.seen line controller controller.place }
        ensures control { result.control ≡ controller }
        ensures line { result.line ≡ line }
        ensures devices { result.devices ≡ devices }
    {
        PlanWorker {
            controller,
            line,
            devices,
        }
    }

    /// One turn: it reads the sensors once, takes one turn of the controller by what they show, and gives its motors
    /// once. See [`PlanController::turn`].
    pub fn work_turn(&mut self) -> WorkTurn
        ensures devices { ReadsThenDrives D.reads D.drives self.old.devices result.sensors
            result.taken.motors self.new.devices }
        ensures turn { Turns self.old.control
            ((self.new.line ≡ self.old.line) × (result.taken.asked ≡ None))
            (λ call answer. L.asks self.old.line call answer self.new.line
            × (result.taken.asked ≡ Some (call, answer)))
            result.sensors result.taken.motors self.new.control }
        ensures careful { IsCareful self.old.control result.sensors result.taken.motors
            self.new.control }
        ensures stopped { result.taken.stopped_by ≡ self.new.control.stopped }
        ensures own { L.machine self.new.line ≡ L.machine self.old.line }
        ensures table { L.table self.new.line ≡ L.table self.old.line }
        ensures opening { L.opening self.new.line ≡ L.opening self.old.line }
        ensures running { AreRunning (L.table self.new.line) (L.opening self.new.line)
            (L.seen self.new.line) self.new.control result.taken.motors }
        ensures permitted { ArePermitted (L.table self.new.line) (L.opening self.new.line)
            (L.seen self.new.line) self.new.control result.taken.motors }
    {
        let sensors = self.devices.sensors();
        let taken = self.controller.turn(&mut self.line, sensors);
        self.devices.drive(taken.motors);
        WorkTurn { sensors, taken }
    }

    /// Takes at most `turns` turns, each once the gate lets it begin. Gives the number of turns that it took.
    pub fn work<G: PlanGate>(&mut self, gate: &G, turns: u32) -> u32
        ensures worked { HasWorked (record {
          table = L.table;
          machine = L.machine;
          opening = L.opening;
          seen = L.seen;
          asks = L.asks;
          reads = D.reads;
          drives = D.drives;
        })
            (G.may_answer gate.now (L.machine self.old.line)) turns self.old self.new result }
        ensures own { L.machine self.new.line ≡ L.machine self.old.line }
        ensures table { L.table self.new.line ≡ L.table self.old.line }
        ensures opening { L.opening self.new.line ≡ L.opening self.old.line }
    {
        let machine = self.line.machine();
        for turn in 0..turns {
            if !gate.pass(machine, turn) {
                return turn;
            }
            let _ = self.work_turn();
        }
        turns
    }

    /// Its controller, to be read.
    pub fn controller(&self) -> &PlanController
        ensures { result.now ≡ self.now.control }
    {
        &self.controller
    }

    /// Its devices, to be read.
    pub fn devices(&self) -> &D
        ensures { result.now ≡ self.now.devices }
    {
        &self.devices
    }

    /// Ends the machine's turns with all motors off, and gives back its controller, its line and its devices. It may go
    /// on where it is.
    pub fn into_parts(self) -> (PlanController, L, D)
        ensures control { result.0 ≡ self.control }
        ensures line { result.1 ≡ self.line }
        ensures off { D.drives self.devices 0 result.2 }
        ensures own { L.machine result.1 ≡ result.0.machine }
        ensures at { IsAtPlace L.table L.opening L.seen result.1 result.0 result.0.place }
    {
        let PlanWorker {
            controller,
            line,
            mut devices,
        } = self;
        devices.drive(0);
        (controller, line, devices)
    }
}
