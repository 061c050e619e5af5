//! The deposit belt's program: its steps, a row for each, and when the belt runs.
ghost use Rattle.std.specs.Prelude.{◌≡◌, slice_get};
ghost use Rattle.cell_belts_crane.specs.DepositProgram as program;

use crate::belt_share::{BeltPlates, BeltShare};
use cell_control::{Controller, Program, Row, Share, Waits, are_kept};
use cell_devices::DepositAct;
use cell_rules::State;
use cell_sensors::{DepositSense, SensorFault};
use cell_types::{Call, Machine, Place, Pose, Posture, Zone};

/// A step of the deposit belt's program.
#[derive(Clone, Copy, Debug, PartialEq, Eq)]
pub enum DepositStep {
    /// Claims the zone shared with the robot for the first time.
    ClaimEntry,
    /// Claims the zone shared with the crane for the first time.
    ClaimExit,
    /// Gets ready for a plate.
    PoseLanding,
    /// Lets the robot in with a plate.
    ReleaseEntry,
    /// Waits for the plate and takes it.
    TakePlate,
    /// Sets out to bring the plate to its end.
    StartRun,
    /// Runs until the plate is in the barrier.
    RunIn,
    /// Runs until the plate is out of the barrier.
    RunOut,
    /// Notes the plate at its end.
    MoveOn,
    /// Gets ready for the crane.
    PoseOffering,
    /// Hands the plate to the crane, when the crane has room.
    GivePlate,
    /// Waits until the crane has left.
    ClaimBack,
}

/// The deposit belt's step in its program, with its notes.
#[derive(Clone, Copy)]
pub struct DepositProgress {
    pub step: DepositStep,
    /// Whether a plate is at its entry.
    pub entry: bool,
    /// Whether a plate is at its end.
    pub last: bool,
}

impl DepositProgress {
    /// Whether the step is in step with a state: the zones, plates and notes are as it keeps them.
    pub fn is_in_step(self, state: &State) -> bool
        ensures { result ≡ program.in_step self state.now }
    {
        let keeps = self.step.keeps();
        let zones = [(Zone::Z4, keeps.entry), (Zone::Z5, keeps.exit)];
        are_kept(&zones, Machine::Deposit, state)
            && keeps.plates.are_there(self.entry, self.last)
            && state.is_full(Place::DepEntry) == self.entry
            && state.is_full(Place::DepEnd) == self.last
    }

    // The row of its step.
    #[inline(always)]
    fn row(self) -> Row<DepositProgress>
        ensures { result ≡ program.row_of self }
    {
        match self.step {
            DepositStep::ClaimEntry => self.asks(Call::Claim(Zone::Z4), DepositStep::ClaimExit),
            DepositStep::ClaimExit => self.asks_by_plates(Call::Claim(Zone::Z5)),
            DepositStep::PoseLanding => self.poses(Pose::Landing, DepositStep::ReleaseEntry),
            DepositStep::ReleaseEntry => self.asks(Call::Release(Zone::Z4), DepositStep::TakePlate),
            DepositStep::TakePlate => self
                .with_plates(true, self.last)
                .asks(Call::Take(Zone::Z4), DepositStep::StartRun)
                .waits(Waits::UntilOwner),
            DepositStep::StartRun => self.poses(Pose::Running, DepositStep::RunIn),
            DepositStep::RunIn => self.drives(DepositStep::RunOut),
            DepositStep::RunOut => self.drives(DepositStep::MoveOn),
            DepositStep::MoveOn => self
                .with_plates(false, true)
                .asks(Call::Advance, DepositStep::PoseOffering),
            DepositStep::PoseOffering => self.poses(Pose::Offering, DepositStep::GivePlate),
            DepositStep::GivePlate => self
                .with_plates(self.entry, false)
                .asks(Call::Give(Zone::Z5), DepositStep::ClaimBack)
                .waits(Waits::UntilRoom),
            DepositStep::ClaimBack => self
                .asks_by_plates(Call::Claim(Zone::Z5))
                .waits(Waits::UntilFree),
        }
    }

    // The row of a step that asks, with its next step.
    #[inline(always)]
    fn asks(self, call: Call, next: DepositStep) -> Row<DepositProgress>
        ensures { result ≡ program.asks self call next }
    {
        Row::asks(call, DepositProgress { step: next, ..self })
    }

    // The row of a step that asks, and leads to the next group.
    #[inline(always)]
    fn asks_by_plates(self, call: Call) -> Row<DepositProgress>
        ensures { result ≡ program.asks_by_plates self call }
    {
        self.asks(call, self.by_plates())
    }

    // The row of a step that sets a pose.
    #[inline(always)]
    fn poses(self, pose: Pose, next: DepositStep) -> Row<DepositProgress>
        ensures { result ≡ program.poses self pose next }
    {
        self.asks(Call::SetPose(pose), next)
    }

    // The row of a step that drives.
    #[inline(always)]
    fn drives(self, next: DepositStep) -> Row<DepositProgress>
        ensures { result ≡ program.drives self next }
    {
        Row::drives(DepositProgress { step: next, ..self })
    }

    // The same step with other notes of its plates.
    #[inline(always)]
    fn with_plates(self, entry: bool, last: bool) -> DepositProgress
        ensures { result ≡ program.with_plates self entry last }
    {
        DepositProgress {
            entry,
            last,
            ..self
        }
    }

    // The first step of the next group, by the plates on the belt.
    #[inline(always)]
    fn by_plates(self) -> DepositStep
        ensures { result ≡ program.by_plates self }
    {
        if self.last {
            DepositStep::PoseOffering
        } else if self.entry {
            DepositStep::StartRun
        } else {
            DepositStep::PoseLanding
        }
    }
}

impl DepositStep {
    /// The steps, in the order of their numbers.
    pub const ALL: [DepositStep; 12] = [
        DepositStep::ClaimEntry,
        DepositStep::ClaimExit,
        DepositStep::PoseLanding,
        DepositStep::ReleaseEntry,
        DepositStep::TakePlate,
        DepositStep::StartRun,
        DepositStep::RunIn,
        DepositStep::RunOut,
        DepositStep::MoveOn,
        DepositStep::PoseOffering,
        DepositStep::GivePlate,
        DepositStep::ClaimBack,
    ];

    /// The step with this number; `None` if no step has it.
    pub fn with_number(number: u8) -> Option<DepositStep>
        ensures { result ≡ slice_get program.steps number }
    {
        DepositStep::ALL.get(usize::from(number)).copied()
    }

    /// The number of the step.
    pub fn number(self) -> u8
        ensures { result ≡ program.number_at self }
    {
        self as u8
    }

    /// The word of the step, as films show it.
    pub fn word(self) -> &'static str
        ensures { result.now ≡ program.word_at self }
    {
        match self {
            DepositStep::ClaimEntry => "claim entry",
            DepositStep::ClaimExit => "claim exit",
            DepositStep::PoseLanding => "pose landing",
            DepositStep::ReleaseEntry => "release entry",
            DepositStep::TakePlate => "take plate",
            DepositStep::StartRun => "start run",
            DepositStep::RunIn => "run in",
            DepositStep::RunOut => "run out",
            DepositStep::MoveOn => "move on",
            DepositStep::PoseOffering => "pose offering",
            DepositStep::GivePlate => "give plate",
            DepositStep::ClaimBack => "claim back",
        }
    }

    /// What the belt keeps at the step.
    pub fn keeps(self) -> BeltShare
        ensures { result ≡ program.keeps_at self }
    {
        let unclaimed = Share::Unclaimed.in_posture(Posture::Closed);
        let clear = Share::Clear.in_any_posture();
        let shut = Share::Clear.in_posture(Posture::Closed);
        let moving = Share::Clear.in_posture(Posture::Moving);
        match self {
            DepositStep::ClaimEntry => BeltShare::new(unclaimed, unclaimed, BeltPlates::Any),
            DepositStep::ClaimExit => BeltShare::new(clear, unclaimed, BeltPlates::Any),
            DepositStep::PoseLanding => BeltShare::new(clear, clear, BeltPlates::Empty),
            DepositStep::ReleaseEntry => BeltShare::new(
                Share::Clear.in_posture(Posture::OpenIn),
                shut,
                BeltPlates::Empty,
            ),
            DepositStep::TakePlate => BeltShare::new(
                Share::Lent.in_posture(Posture::OpenIn),
                shut,
                BeltPlates::Empty,
            ),
            DepositStep::StartRun => BeltShare::new(clear, clear, BeltPlates::AtEntry),
            DepositStep::RunIn | DepositStep::RunOut | DepositStep::MoveOn => BeltShare::new(
                moving,
                moving,
                BeltPlates::AtEntry,
            ),
            DepositStep::PoseOffering => BeltShare::new(clear, clear, BeltPlates::AtEnd),
            DepositStep::GivePlate => BeltShare::new(
                shut,
                Share::Clear.in_posture(Posture::OpenOut),
                BeltPlates::AtEnd,
            ),
            DepositStep::ClaimBack => BeltShare::new(
                shut,
                Share::Lent.in_posture(Posture::OpenOut),
                BeltPlates::NoneAtEnd,
            ),
        }
    }

    // Whether the belt runs in a step that drives.
    fn runs(self, barrier: bool) -> bool
        ensures { result ≡ program.runs_at self barrier }
    {
        match self {
            DepositStep::RunIn => !barrier,
            DepositStep::RunOut => barrier,
            _ => false,
        }
    }
}

/// The deposit belt's program.
#[derive(Clone, Copy)]
pub struct DepositProgram;

/// The deposit belt's controller.
pub type DepositCtl = Controller<DepositProgram>;

impl Program for DepositProgram {
    type Progress = DepositProgress;

    type Sense = DepositSense;

    type Reading = DepositSense;

    type Act = DepositAct;

    ghost steps = { λ _. program.deposit_steps };

    fn start(&self, state: &State) -> DepositProgress {
        DepositProgress {
            step: DepositStep::ClaimEntry,
            entry: state.is_full(Place::DepEntry),
            last: state.is_full(Place::DepEnd),
        }
    }

    #[inline(always)]
    fn row(&self, progress: DepositProgress) -> Row<DepositProgress> {
        progress.row()
    }

    fn after_inquiry(
        &self,
        progress: DepositProgress,
        _owner: Option<Machine>,
        _flag: bool,
        _posture: Posture,
    ) -> DepositProgress {
        progress
    }

    fn check(&self, sense: &DepositSense) -> Result<DepositSense, SensorFault> {
        Ok(*sense)
    }

    fn drive(&self, progress: DepositProgress, reading: DepositSense) -> DepositAct {
        DepositAct {
            belt: progress.step.runs(reading.barrier),
        }
    }

    fn after_drive(
        &self,
        progress: DepositProgress,
        _reading: DepositSense,
        act: DepositAct,
    ) -> DepositProgress {
        if act.belt {
            progress
        } else {
            progress.row().next
        }
    }

    fn rest(&self, _progress: DepositProgress) -> DepositAct {
        DepositAct::at_rest()
    }
}
