//! A controller at the end of its line.
ghost use Rattle.std.specs.Prelude.{◌≡◌, None, Some, [], map};
ghost use Rattle.plan_drives.specs.InStep.{IsInStep};
ghost use Rattle.plan_controller.specs.Steps.{line_of};
ghost use Rattle.plan_controller.specs.Turns as turns;
ghost use Rattle.plan_controller.specs.Turns.{Turns, IsCareful, ArePermitted, AreRunning};

use crate::controller::{PlanController, TakenTurn};
use crate::laws::{rounds_begin_anywhere, who_is_in_step_goes_on};
use crate::line::PlanLine;
use crate::step::Step;
use plan_types::Refusal;
use std::marker::Model;

/// A machine's controller at the end of its line.
///
/// The line is its machine's, which is at the controller's place in its program by all that the line has seen. Both
/// stay so, so a turn asks nothing of its caller.
#[derive(Drop)]
pub struct PlanWired<L: PlanLine> {
    controller: PlanController,
    line: L,
}

impl<L: PlanLine> Model for PlanWired<L> {
    ghost use Rattle.plan_controller.specs.Wiring.{Wiring, IsWired, wiring};

    ghost Value = { Wiring L };

    ghost view = { λ w. wiring w.controller w.line };

    ghost invariant = { λ w. IsWired w.controller (L.machine w.line) (L.table w.line)
        (L.opening w.line) (L.seen w.line) };
}

impl<L: PlanLine> PlanWired<L> {
    /// The machine of a line at the beginning of its program, whatever the line has seen.
    pub fn new(steps: Vec<Step>, line: L) -> PlanWired<L>
        ensures control { result.control ≡ turns.control (L.machine line) steps.items 0 None }
        ensures line { result.line ≡ line }
    {
        rounds_begin_anywhere();
        let machine = line.machine();
        PlanWired {
            controller: PlanController::new(machine, steps),
            line,
        }
    }

    /// The machine of a line that goes on at a place in its program, as after a power cut: it is in step with the state
    /// that its line opened with, and the line has seen nothing yet.
    pub fn at(steps: Vec<Step>, place: usize, stopped: Option<Refusal>, line: L) -> PlanWired<L>
        requires in_step { IsInStep (L.table line) (L.opening line) (L.machine line)
            (map line_of steps.items) place }
        requires unseen { L.seen line ≡ [] }
        ensures control { result.control
            ≡ turns.control (L.machine line) steps.items place stopped }
        ensures line { result.line ≡ line }
    {
        who_is_in_step_goes_on();
        let machine = line.machine();
        PlanWired {
            controller: PlanController::at(machine, steps, place, stopped),
            line,
        }
    }

    /// One turn, by what the sensors show now: a bit for each; `None` if they couldn't be read. See
    /// [`PlanController::turn`].
    pub fn turn(&mut self, sensors: Option<u32>) -> TakenTurn
        ensures turn { Turns self.old.control
            ((self.new.line ≡ self.old.line) × (result.asked ≡ None))
            (λ call answer. L.asks self.old.line call answer self.new.line
            × (result.asked ≡ Some (call, answer)))
            sensors result.motors self.new.control }
        ensures careful { IsCareful self.old.control sensors result.motors self.new.control }
        ensures stopped { result.stopped_by ≡ self.new.control.stopped }
        ensures own { L.machine self.new.line ≡ L.machine self.old.line }
        ensures table { L.table self.new.line ≡ L.table self.old.line }
        ensures opening { L.opening self.new.line ≡ L.opening self.old.line }
        ensures running { AreRunning (L.table self.new.line) (L.opening self.new.line)
            (L.seen self.new.line) self.new.control result.motors }
        ensures permitted { ArePermitted (L.table self.new.line) (L.opening self.new.line)
            (L.seen self.new.line) self.new.control result.motors }
    {
        self.controller.turn(&mut self.line, sensors)
    }

    /// Its controller, to be read.
    pub fn controller(&self) -> &PlanController
        ensures { result.now ≡ self.now.control }
    {
        &self.controller
    }

    /// Ends the machine's turns, and gives back its line.
    pub fn into_line(self) -> L
        ensures { result ≡ self.line }
    {
        let PlanWired {
            controller: _,
            line,
        } = self;
        line
    }
}
