//! A program that goes on at a step where it stood.

use cell_control::{Program, Row};
use cell_rules::State;
use cell_sensors::SensorFault;
use cell_types::{Machine, Posture};

/// A program that may go on at any of its steps, in a state that is in step with it.
pub trait Resumable: Program {
    ghost use Rattle.std.specs.Prelude.{◌≡◌, Bool};
    ghost use Rattle.cell_rules.specs.ModelState.{ModelState};
    ghost use Rattle.cell_resume.specs.Resuming.{IsResumable};

    // Whether a step with its notes is in step with a state.
    ghost in_step: { Self.Progress → ModelState → Bool };

    // What a step knows of a state, whatever others do.
    ghost knows: { Self.Progress → ModelState → Type 0 };

    /// Whether a step with its notes is in step with a state: the machine's zones and places there
    /// are as the step has them.
    fn is_in_step(progress: Self::Progress, state: &State) -> bool
        ensures { result ≡ in_step progress state.now };

    /// Does nothing. Its contract is a law: from each step that is in step with a state, turns keep
    /// what the motors demand.
    fn meets_demands(&self)
        ensures { IsResumable (Self.steps self.now) in_step knows };
}

/// A program that begins at the step where it stood, if that is in step with the state; else at its
/// start. All turns are those of the program.
#[derive(Drop)]
pub struct Resumed<P: Resumable> {
    /// The program.
    pub program: P,
    /// The step where it stood, with its notes.
    pub progress: P::Progress,
}

impl<P: Resumable> Program for Resumed<P> {
    ghost use Rattle.cell_resume.specs.Resuming.{resumed_steps};

    type Progress = P::Progress;

    type Sense = P::Sense;

    type Reading = P::Reading;

    type Act = P::Act;

    ghost steps = { λ r. resumed_steps (P.steps r.program) P.in_step r.progress };

    fn start(&self, state: &State) -> P::Progress {
        if P::is_in_step(self.progress, state) {
            self.progress
        } else {
            self.program.start(state)
        }
    }

    fn row(&self, progress: P::Progress) -> Row<P::Progress> {
        self.program.row(progress)
    }

    fn after_inquiry(
        &self,
        progress: P::Progress,
        owner: Option<Machine>,
        flag: bool,
        posture: Posture,
    ) -> P::Progress {
        self.program.after_inquiry(progress, owner, flag, posture)
    }

    fn check(&self, sense: &P::Sense) -> Result<P::Reading, SensorFault> {
        self.program.check(sense)
    }

    fn drive(&self, progress: P::Progress, reading: P::Reading) -> P::Act {
        self.program.meets_demands();
        self.program.drive(progress, reading)
    }

    fn after_drive(&self, progress: P::Progress, reading: P::Reading, act: P::Act) -> P::Progress {
        self.program.after_drive(progress, reading, act)
    }

    fn rest(&self, progress: P::Progress) -> P::Act {
        self.program.rest(progress)
    }
}
