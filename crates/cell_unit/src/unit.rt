//! One machine in a run, over any line: its controller, its part, and a turn of both.
ghost use Rattle.std.specs.Prelude.{◌≡◌, None};
ghost use Rattle.cell_unit.specs.Sides.{ActsAndMoves, DemandsHold, UnitIsReady, noting};
ghost use Rattle.cell_unit.specs.Sides.{unit_program, unit_rig, unit_side, unit_table};
ghost use Rattle.cell_unit.specs.Statuses.{status_of as status_by};

use crate::status::status_of;
use cell_control::{Controller, Part, PartSensors, Program};
use cell_notes::{Status, TurnCall, done_event};
use cell_rules::Line;
use cell_types::Event;

/// A machine in a run: its controller and its part.
#[derive(Drop)]
pub struct MachineUnit<P: Program, B: Part<Sense = P::Sense, Act = P::Act>> {
    /// Its program, its progress in it, and what has stopped it.
    pub controller: Controller<P>,
    /// What it moves, and what its sensors show.
    pub part: B,
}

impl<P: Program, B: Part<Sense = P::Sense, Act = P::Act>> MachineUnit<P, B> {
    /// One turn. The controller has its turn, by what the sensors show. Then the part notes a call
    /// that was done, and moves for a tick. After an error of the controller the motors are off.
    /// Answers what was asked.
    pub fn turn<L: Line>(&mut self, line: &mut L) -> TurnCall
        requires own { (unit_side B.state self.old).stopped ≡ None
            → L.machine line.old ≡ (unit_table P.steps self.old).machine }
        requires ready { UnitIsReady P.steps self.old (L.opening line.old) (L.seen line.old) }
        ensures row { ActsAndMoves (unit_table P.steps self.old) (unit_rig B.rig B.make self.old)
            (line.new ≡ line.old) (λ c r. L.asks line.old c r line.new)
            (unit_side B.state self.old) result (unit_side B.state self.new) }
        ensures motor_demands { DemandsHold (unit_table P.steps self.old) (unit_rig B.rig B.make self.old)
            (unit_side B.state self.old) result (unit_side B.state self.new) (L.opening line.new) (L.seen line.new) }
        ensures own { L.machine line.new ≡ L.machine line.old }
        ensures opening { L.opening line.new ≡ L.opening line.old }
        ensures program { unit_program self.new ≡ unit_program self.old }
        ensures make { B.make self.new.part ≡ B.make self.old.part }
        ensures ready { UnitIsReady P.steps self.new (L.opening line.new) (L.seen line.new) }
    {
        let machine = line.machine();
        let sensors = PartSensors { part: &self.part };
        let taken = self.controller.take_turn(line, &sensors);
        let event = done_event(machine, taken.asked);
        note_and_tick(&mut self.part, event, &taken.told.act);
        taken.asked
    }

    /// Its status, by what has stopped its controller.
    pub fn status(&self) -> Status
        ensures { result ≡ status_by (unit_side B.state self.now).stopped }
    {
        status_of(self.controller.stopped_by())
    }
}

// The part notes a call that was done, and moves for a tick.
fn note_and_tick<B: Part>(part: &mut B, event: Option<Event>, act: &B::Act)
    ensures state { B.state part.new
        ≡ (B.rig (B.make part.old)).moves ((B.rig (B.make part.old)).set
        (noting (B.rig (B.make part.old)) (B.state part.old) event) act.now) }
    ensures make { B.make part.new ≡ B.make part.old }
{
    if let Some(event) = event {
        part.note(&event);
    }
    part.tick(act);
}
