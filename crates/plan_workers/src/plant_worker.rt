//! A machine at work in a plant on several words: its controller, a line for each word, and its devices.
ghost use Rattle.std.specs.Prelude.{◌≡◌, None, Some, All, length};
ghost use Rattle.plan_controller.specs.Turns.{Turns, IsAtPlace, IsCareful, ArePermitted, AreRunning};
ghost use Rattle.plan_workers.specs.PlantTurns.{AsksOneWord, IsSameProgram, OnEachLine, OnEachWord};
ghost use Rattle.plan_workers.specs.PlantTurns.{asked_on, control_on, sensors_on, whole};
ghost use Rattle.plan_workers.specs.PlantTurning.{HasWorkedOnWords};
ghost use Rattle.plan_workers.specs.PlantWorks.{IsPlantWired};
ghost use Rattle.plan_workers.specs.Works.{ReadsThenDrives};

use crate::devices::PlanDevices;
use crate::gate::PlanGate;
use crate::plant_controller::{PlantController, PlantTurn};
use plan_controller::PlanLine;
use plan_controller::laws::rounds_begin_anywhere;
use std::marker::Model;

/// A machine at work in a plant on several words: its controller, the line of each word, and its devices.
///
/// Each line is the controller's machine's, which is at its place in the word's program by all that the line has seen.
/// So it stays.
#[derive(Drop)]
pub struct PlantWorker<L: PlanLine, D: PlanDevices> {
    controller: PlantController,
    lines: Vec<L>,
    devices: D,
}

impl<L: PlanLine, D: PlanDevices> Model for PlantWorker<L, D> {
    ghost use Rattle.plan_workers.specs.PlantWorks.{AtPlantWork, IsPlantWired, at_plant_work};

    ghost Value = { AtPlantWork L D };

    ghost view = { λ w. at_plant_work w.controller w.lines.items w.devices };

    ghost invariant = { λ w. IsPlantWired L.table L.machine L.opening L.seen w.controller
        w.lines.items };
}

/// A turn of a machine at work in a plant on several words.
#[derive(Clone, Copy, Debug, PartialEq, Eq)]
pub struct PlantWorkTurn {
    /// What the sensors showed: a bit for each. `None` if they couldn't be read.
    pub sensors: Option<u32>,
    /// The turn that the controller took, with the motors that were given.
    pub taken: PlantTurn,
}

impl<L: PlanLine, D: PlanDevices> PlantWorker<L, D> {
    /// The machine of these lines, one for each word, at the beginning of its program, with its devices.
    pub fn new(controller: PlantController, lines: Vec<L>, devices: D) -> PlantWorker<L, D>
        requires begins { controller.place ≡ 0 }
        requires each_word { length lines.items ≡ controller.words }
        requires own { All (λ l. L.machine l ≡ controller.machine) lines.items }
        ensures control { result.control ≡ controller }
        ensures lines { result.lines ≡ lines.items }
        ensures devices { result.devices ≡ devices }
    {
        rounds_begin_anywhere();
        PlantWorker::going_on(controller, lines, devices)
    }

    /// The machine of these lines, one for each word, that goes on where its controller is, with its devices. By all
    /// that each line has seen it is at its place in the word's program.
    pub fn going_on(controller: PlantController, lines: Vec<L>, devices: D) -> PlantWorker<L, D>
        requires wired { IsPlantWired L.table L.machine L.opening L.seen controller lines.items }
        ensures control { result.control ≡ controller }
        ensures lines { result.lines ≡ lines.items }
        ensures devices { result.devices ≡ devices }
    {
        PlantWorker {
            controller,
            lines,
            devices,
        }
    }

    /// One turn: it reads the sensors once, takes one turn of the controller by what they show, and gives its motors
    /// once. See [`PlantController::turn`].
    pub fn work_turn(&mut self) -> PlantWorkTurn
        ensures devices { ReadsThenDrives D.reads D.drives self.old.devices result.sensors
            result.taken.motors self.new.devices }
        ensures turn { Turns (whole self.old.control)
            ((self.new.lines ≡ self.old.lines) × (result.taken.asked ≡ None))
            (λ call answer. AsksOneWord L.asks self.old.lines self.new.lines self.old.control
            call answer result.taken.asked)
            result.sensors result.taken.motors (whole self.new.control) }
        ensures on_words { OnEachWord self.old.lines self.new.lines (λ w before now.
            Turns (control_on w self.old.control)
            ((now ≡ before) × (asked_on w result.taken.asked ≡ None))
            (λ call answer. L.asks before call answer now
            × (asked_on w result.taken.asked ≡ Some (call, answer)))
            (sensors_on w self.old.control result.sensors) result.taken.motors
            (control_on w self.new.control)) }
        ensures program { IsSameProgram self.old.control self.new.control }
        ensures careful { IsCareful (whole self.old.control) result.sensors result.taken.motors
            (whole self.new.control) }
        ensures stopped { result.taken.stopped_by ≡ self.new.control.stopped }
        ensures each_word { length self.new.lines ≡ length self.old.lines }
        ensures own { OnEachWord self.old.lines self.new.lines (λ _ before now.
            L.machine now ≡ L.machine before) }
        ensures table { OnEachWord self.old.lines self.new.lines (λ _ before now.
            L.table now ≡ L.table before) }
        ensures opening { OnEachWord self.old.lines self.new.lines (λ _ before now.
            L.opening now ≡ L.opening before) }
        ensures running { OnEachLine self.new.lines (λ w l. AreRunning (L.table l) (L.opening l)
            (L.seen l) (control_on w self.new.control) result.taken.motors) }
        ensures permitted { OnEachLine self.new.lines (λ w l. ArePermitted (L.table l)
            (L.opening l) (L.seen l) (control_on w self.new.control) result.taken.motors) }
    {
        let sensors = self.devices.sensors();
        let taken = self.controller.turn(&mut self.lines, sensors);
        self.devices.drive(taken.motors);
        PlantWorkTurn { sensors, taken }
    }

    /// Takes at most `turns` turns, each once the gate lets it begin. Gives the number of turns that it took.
    pub fn work<G: PlanGate>(&mut self, gate: &G, turns: u32) -> u32
        ensures worked { HasWorkedOnWords (record {
          table = L.table;
          machine = L.machine;
          opening = L.opening;
          seen = L.seen;
          asks = L.asks;
          reads = D.reads;
          drives = D.drives;
        })
            (G.may_answer gate.now self.old.control.machine) turns self.old self.new result }
        ensures program { IsSameProgram self.old.control self.new.control }
        ensures each_word { length self.new.lines ≡ length self.old.lines }
        ensures own { OnEachWord self.old.lines self.new.lines (λ _ before now.
            L.machine now ≡ L.machine before) }
        ensures table { OnEachWord self.old.lines self.new.lines (λ _ before now.
            L.table now ≡ L.table before) }
        ensures opening { OnEachWord self.old.lines self.new.lines (λ _ before now.
            L.opening now ≡ L.opening before) }
    {
        let machine = self.controller.machine();
        for turn in 0..turns {
            if !gate.pass(machine, turn) {
                return turn;
            }
            let _ = self.work_turn();
        }
        turns
    }

    /// Its controller, to be read.
    pub fn controller(&self) -> &PlantController
        ensures { result.now ≡ self.now.control }
    {
        &self.controller
    }

    /// Its devices, to be read.
    pub fn devices(&self) -> &D
        ensures { result.now ≡ self.now.devices }
    {
        &self.devices
    }

    /// Ends the machine's turns with all motors off, and gives back its controller, its lines and its devices. It may
    /// go on where it is.
    pub fn into_parts(self) -> (PlantController, Vec<L>, D)
        ensures control { result.0 ≡ self.control }
        ensures lines { result.1.items ≡ self.lines }
        ensures off { D.drives self.devices 0 result.2 }
        ensures wired { IsPlantWired L.table L.machine L.opening L.seen result.0 result.1.items }
    {
        let PlantWorker {
            controller,
            lines,
            mut devices,
        } = self;
        devices.drive(0);
        (controller, lines, devices)
    }
}
