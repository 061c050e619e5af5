//! A controller at the end of its line.
ghost use Rattle.std.specs.Prelude.{◌≡◌, ◌≢◌, [], None};
ghost use Rattle.cell_rules.specs.History.{after, own_events};
ghost use Rattle.cell_rules.specs.Seen.{Waits};
ghost use Rattle.cell_control.specs.Controllers.{HasReached, program_in, step_in, stopped_in};
ghost use Rattle.cell_control.specs.Wiring.{GoesOnWired, TurnsWired};

use crate::commands::Commands;
use crate::controller::Controller;
use crate::fault::CtlFault;
use crate::part::Values;
use crate::program::Program;
use crate::unwired::Unwired;
use cell_rules::{Line, State, Survey};
use std::marker::Model;

/// A machine's controller at the end of its line.
///
/// The line is its machine's, and the controller has come so far by what the line has seen. Both
/// stay so, so a turn asks nothing of its caller.
#[derive(Drop)]
pub struct Wired<P: Program, L: Line> {
    controller: Controller<P>,
    line: L,
}

impl<P: Program, L: Line> Model for Wired<P, L> {
    ghost use Rattle.cell_control.specs.Wiring.{Wiring, IsWired, wiring_of};

    ghost Value = { Wiring P P.Progress L };

    ghost view = { λ w. wiring_of w.controller.program w.controller.progress w.controller.stopped w.line };

    ghost invariant = { λ w. IsWired (P.steps w.controller.program) (L.machine w.line)
        (L.opening w.line) (L.seen w.line) w.controller.stopped w.controller.progress };
}

impl<P: Program, L: Line> Wired<P, L> {
    /// A machine at the start of its program, by its full places. The line is the machine's, opened
    /// with this state, and has settled no call yet.
    pub fn new(program: P, opening: &State, line: L) -> Wired<P, L>
        requires own { L.machine line ≡ (P.steps program).machine }
        requires opening { L.opening line ≡ opening.now }
        requires settled_none { own_events (L.seen line) (L.machine line) ≡ [] }
        ensures program { result.program ≡ program }
        ensures progress { result.progress ≡ (P.steps program).start opening.now }
        ensures running { result.stopped ≡ None }
        ensures line { result.line ≡ line }
    {
        Wired {
            controller: Controller::new(opening, program),
            line,
        }
    }

    // A controller that has come so far by what this line has seen.
    pub(crate) fn of(controller: Controller<P>, line: L) -> Wired<P, L>
        requires own { L.machine line ≡ (P.steps (program_in controller)).machine }
        requires reached { HasReached P.steps controller (L.opening line) (L.seen line) }
        ensures program { result.program ≡ program_in controller }
        ensures progress { result.progress ≡ step_in controller }
        ensures stopped { result.stopped ≡ stopped_in controller }
        ensures line { result.line ≡ line }
    {
        Wired { controller, line }
    }

    /// One turn, by what the sensors show: checks them and performs one step of the program. It
    /// asks the line once or drives. Answers what the actuators are told, also after a fault.
    ///
    /// After any fault the machine has stopped: its motors are off, and in each later turn too.
    pub fn turn(&mut self, sense: &P::Sense) -> Commands<P::Act>
        ensures row { TurnsWired (P.steps self.old.program) L.asks L.heard
            self.old sense.now result self.new }
        ensures rest { result.fault ≢ None
            → result.act ≡ (P.steps self.old.program).rest self.old.progress }
        ensures motor_demands { result.fault ≡ None → (P.steps self.old.program).motor_demands
            self.old.progress result.act (L.opening self.new.line) (L.seen self.new.line) }
        ensures program { self.new.program ≡ self.old.program }
        ensures opening { L.opening self.new.line ≡ L.opening self.old.line }
        ensures goes_on { GoesOnWired (P.steps self.old.program) L.seen self.old self.new }
    {
        let sensors = Values { sense: *sense };
        let taken = self.controller.take_turn(&mut self.line, &sensors);
        taken.told
    }

    /// What the actuators are told while nothing is known of the sensors: motors and belts are off,
    /// and magnets stay as the program has noted them.
    pub fn at_rest(&self) -> Commands<P::Act>
        ensures act { result.act ≡ (P.steps self.now.program).rest self.now.progress }
        ensures no_fault { result.fault ≡ None }
    {
        Commands::well(self.controller.rest())
    }

    /// What has stopped the machine; `None` while it runs.
    pub fn stopped_by(&self) -> Option<CtlFault>
        ensures { result ≡ self.now.stopped }
    {
        self.controller.stopped_by()
    }

    /// Its step in its program, with its notes.
    pub fn progress(&self) -> P::Progress
        ensures { result ≡ self.now.progress }
    {
        self.controller.progress()
    }

    /// The line, to be read: its machine, and what it has heard.
    pub fn line(&self) -> &L
        ensures { result.now ≡ self.now.line }
    {
        &self.line
    }

    /// Takes the machine off its line in the middle of its program, and gives back the line. The
    /// machine has left the state after all that the line has now seen.
    pub fn unwire(self) -> (Unwired<P>, L)
    where
        L: Survey,
        ensures program { result.0.program ≡ self.program }
        ensures progress { result.0.progress ≡ self.progress }
        ensures stopped { result.0.stopped ≡ self.stopped }
        ensures surveys { L.surveys self.line result.1 }
        ensures own { L.machine result.1 ≡ L.machine self.line }
        ensures opening { L.opening result.1 ≡ L.opening self.line }
        ensures seen { Waits (L.machine self.line) (L.seen self.line) (L.seen result.1) }
        ensures left { result.0.left ≡ after (L.opening result.1) (L.seen result.1) }
    {
        let Wired {
            controller,
            mut line,
        } = self;
        let left = line.survey();
        let machine = line.machine();
        (
            Unwired {
                controller,
                machine,
                left,
            },
            line,
        )
    }

    /// Ends the machine's turns, and gives back its line.
    pub fn into_line(self) -> L
        ensures { result ≡ self.line }
    {
        let Wired {
            controller: _,
            line,
        } = self;
        line
    }
}
