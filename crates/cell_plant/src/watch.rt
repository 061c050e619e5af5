//! The watch: it stops the cell and resumes it, in turn.
ghost use Rattle.std.specs.Prelude.{◌≡◌};
ghost use Rattle.cell_unit.specs.Sides.{side_of};
ghost use Rattle.cell_plant.specs.Watch as watch;

use cell_control::{Controller, Part, Program, Row};
use cell_rules::State;
use cell_sensors::SensorFault;
use cell_types::{Call, Event, Machine, Posture};
use cell_unit::MachineUnit;

/// The watch's note.
#[derive(Clone, Copy)]
pub struct WatchProgress {
    /// Whether its last call that was done was Stop.
    pub has_stopped: bool,
}

impl WatchProgress {
    // The row of its one step.
    #[inline(always)]
    fn row(self) -> Row<WatchProgress>
        ensures { result ≡ watch.row_of self }
    {
        let call = if self.has_stopped {
            Call::Resume
        } else {
            Call::Stop
        };
        let next = WatchProgress {
            has_stopped: !self.has_stopped,
        };
        Row::asks(call, next)
    }
}

/// The watch's program.
#[derive(Clone, Copy)]
pub struct WatchProgram;

impl Program for WatchProgram {
    type Progress = WatchProgress;

    type Sense = ();

    type Reading = ();

    type Act = ();

    ghost steps = { λ _. watch.watch_steps };

    fn start(&self, _state: &State) -> WatchProgress {
        WatchProgress { has_stopped: false }
    }

    #[inline(always)]
    fn row(&self, progress: WatchProgress) -> Row<WatchProgress> {
        progress.row()
    }

    fn after_inquiry(
        &self,
        progress: WatchProgress,
        _owner: Option<Machine>,
        _flag: bool,
        _posture: Posture,
    ) -> WatchProgress {
        progress
    }

    fn check(&self, _sense: &()) -> Result<(), SensorFault> {
        Ok(())
    }

    fn drive(&self, _progress: WatchProgress, _reading: ()) {}

    fn after_drive(&self, progress: WatchProgress, _reading: (), _act: ()) -> WatchProgress {
        progress
    }

    fn rest(&self, _progress: WatchProgress) {}
}

/// The watch's part, which has nothing.
#[derive(Clone, Copy)]
pub struct WatchPart;

impl Part for WatchPart {
    ghost use Rattle.cell_plant.specs.Watch.{watch_rig};

    type Sense = ();

    type Act = ();

    ghost State = { Unit {0} };

    ghost Make = { Unit {0} };

    ghost rig = { λ _. watch_rig };

    ghost make = { λ _. tt };

    ghost state = { λ _. tt };

    fn sensors(&self) {}

    fn note(&mut self, _event: &Event) {}

    fn tick(&mut self, _act: &()) {}
}

/// The watch.
pub type WatchUnit = MachineUnit<WatchProgram, WatchPart>;

/// The watch at its start.
pub(crate) fn watch_at_start(state: &State) -> WatchUnit
    ensures { side_of result.controller.progress result.controller.stopped tt ≡ watch.watch_at_start }
{
    MachineUnit {
        controller: Controller::new(state, WatchProgram),
        part: WatchPart,
    }
}
