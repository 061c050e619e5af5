//! The feed belt's program: its steps, a row for each, and when the belt runs.
ghost use Rattle.std.specs.Prelude.{◌≡◌, slice_get};
ghost use Rattle.cell_belts_crane.specs.FeedProgram as program;

use crate::belt_share::{BeltPlates, BeltShare};
use cell_control::{Controller, Program, Row, Share, Waits, are_kept};
use cell_devices::FeedAct;
use cell_rules::State;
use cell_sensors::{FeedSense, SensorFault};
use cell_types::{Call, Machine, Place, Pose, Posture, Zone};

/// A step of the feed belt's program.
#[derive(Clone, Copy, Debug, PartialEq, Eq)]
pub enum FeedStep {
    /// Claims the zone shared with the crane for the first time.
    ClaimEntry,
    /// Gets ready for a plate.
    PoseLanding,
    /// Lets the crane in with a plate.
    ReleaseEntry,
    /// Waits for the plate and takes it.
    TakePlate,
    /// Sets out to bring the plate to its end.
    StartIn,
    /// Runs until the plate is in the barrier.
    RunIn,
    /// Notes the plate at its end.
    MoveOn,
    /// Waits until the table lets it in.
    ClaimExit,
    /// Sets out to bring the plate to the table.
    StartOut,
    /// Runs until the plate is out of the barrier.
    RunOut,
    /// Has stopped the belt.
    Halt,
    /// Hands the plate to the table.
    GivePlate,
}

/// The feed belt's step in its program, with its notes.
#[derive(Clone, Copy)]
pub struct FeedProgress {
    pub step: FeedStep,
    /// Whether a plate is at its entry.
    pub entry: bool,
    /// Whether a plate is at its end.
    pub last: bool,
}

impl FeedProgress {
    /// Whether the step is in step with a state: the zones, plates and notes are as it keeps them.
    pub fn is_in_step(self, state: &State) -> bool
        ensures { result ≡ program.in_step self state.now }
    {
        let keeps = self.step.keeps();
        let zones = [(Zone::Z6, keeps.entry), (Zone::Z1, keeps.exit)];
        are_kept(&zones, Machine::Feed, state)
            && keeps.plates.are_there(self.entry, self.last)
            && state.is_full(Place::FeedEntry) == self.entry
            && state.is_full(Place::FeedEnd) == self.last
    }

    // The row of its step.
    #[inline(always)]
    fn row(self) -> Row<FeedProgress>
        ensures { result ≡ program.row_of self }
    {
        match self.step {
            FeedStep::ClaimEntry => self.asks_by_plates(Call::Claim(Zone::Z6)),
            FeedStep::PoseLanding => self.poses(Pose::Landing, FeedStep::ReleaseEntry),
            FeedStep::ReleaseEntry => self.asks(Call::Release(Zone::Z6), FeedStep::TakePlate),
            FeedStep::TakePlate => self
                .with_plates(true, self.last)
                .asks(Call::Take(Zone::Z6), FeedStep::StartIn)
                .waits(Waits::UntilOwner),
            FeedStep::StartIn => self.poses(Pose::Running, FeedStep::RunIn),
            FeedStep::RunIn => self.drives(FeedStep::MoveOn),
            FeedStep::MoveOn => self
                .with_plates(false, true)
                .asks(Call::Advance, FeedStep::ClaimExit),
            FeedStep::ClaimExit => self
                .asks(Call::Claim(Zone::Z1), FeedStep::StartOut)
                .waits(Waits::UntilFreeAndOpen),
            FeedStep::StartOut => self.poses(Pose::Running, FeedStep::RunOut),
            FeedStep::RunOut => self.drives(FeedStep::Halt),
            FeedStep::Halt => self.poses(Pose::Halted, FeedStep::GivePlate),
            FeedStep::GivePlate => self
                .with_plates(self.entry, false)
                .asks_by_plates(Call::Give(Zone::Z1)),
        }
    }

    // The row of a step that asks, with its next step.
    #[inline(always)]
    fn asks(self, call: Call, next: FeedStep) -> Row<FeedProgress>
        ensures { result ≡ program.asks self call next }
    {
        Row::asks(call, FeedProgress { step: next, ..self })
    }

    // The row of a step that asks, and leads to the next group.
    #[inline(always)]
    fn asks_by_plates(self, call: Call) -> Row<FeedProgress>
        ensures { result ≡ program.asks_by_plates self call }
    {
        self.asks(call, self.by_plates())
    }

    // The row of a step that sets a pose.
    #[inline(always)]
    fn poses(self, pose: Pose, next: FeedStep) -> Row<FeedProgress>
        ensures { result ≡ program.poses self pose next }
    {
        self.asks(Call::SetPose(pose), next)
    }

    // The row of a step that drives.
    #[inline(always)]
    fn drives(self, next: FeedStep) -> Row<FeedProgress>
        ensures { result ≡ program.drives self next }
    {
        Row::drives(FeedProgress { step: next, ..self })
    }

    // The same step with other notes of its plates.
    #[inline(always)]
    fn with_plates(self, entry: bool, last: bool) -> FeedProgress
        ensures { result ≡ program.with_plates self entry last }
    {
        FeedProgress {
            entry,
            last,
            ..self
        }
    }

    // The first step of the next group, by the plates on the belt.
    #[inline(always)]
    fn by_plates(self) -> FeedStep
        ensures { result ≡ program.by_plates self }
    {
        if self.last {
            FeedStep::ClaimExit
        } else if self.entry {
            FeedStep::StartIn
        } else {
            FeedStep::PoseLanding
        }
    }
}

impl FeedStep {
    /// The steps, in the order of their numbers.
    pub const ALL: [FeedStep; 12] = [
        FeedStep::ClaimEntry,
        FeedStep::PoseLanding,
        FeedStep::ReleaseEntry,
        FeedStep::TakePlate,
        FeedStep::StartIn,
        FeedStep::RunIn,
        FeedStep::MoveOn,
        FeedStep::ClaimExit,
        FeedStep::StartOut,
        FeedStep::RunOut,
        FeedStep::Halt,
        FeedStep::GivePlate,
    ];

    /// The step with this number; `None` if no step has it.
    pub fn with_number(number: u8) -> Option<FeedStep>
        ensures { result ≡ slice_get program.steps number }
    {
        FeedStep::ALL.get(usize::from(number)).copied()
    }

    /// The number of the step.
    pub fn number(self) -> u8
        ensures { result ≡ program.number_at self }
    {
        self as u8
    }

    /// The word of the step, as films show it.
    pub fn word(self) -> &'static str
        ensures { result.now ≡ program.word_at self }
    {
        match self {
            FeedStep::ClaimEntry => "claim entry",
            FeedStep::PoseLanding => "pose landing",
            FeedStep::ReleaseEntry => "release entry",
            FeedStep::TakePlate => "take plate",
            FeedStep::StartIn => "start in",
            FeedStep::RunIn => "run in",
            FeedStep::MoveOn => "move on",
            FeedStep::ClaimExit => "claim exit",
            FeedStep::StartOut => "start out",
            FeedStep::RunOut => "run out",
            FeedStep::Halt => "halt",
            FeedStep::GivePlate => "give plate",
        }
    }

    /// What the belt keeps at the step.
    pub fn keeps(self) -> BeltShare
        ensures { result ≡ program.keeps_at self }
    {
        let clear = Share::Clear.in_any_posture();
        let moving = Share::Clear.in_posture(Posture::Moving);
        let lent = Share::Lent.in_any_posture();
        let open = Share::Held.in_posture(Posture::OpenIn);
        match self {
            FeedStep::ClaimEntry => BeltShare::new(
                Share::Unclaimed.in_posture(Posture::Closed),
                lent,
                BeltPlates::Any,
            ),
            FeedStep::PoseLanding => BeltShare::new(clear, lent, BeltPlates::Empty),
            FeedStep::ReleaseEntry => BeltShare::new(
                Share::Clear.in_posture(Posture::OpenIn),
                lent,
                BeltPlates::Empty,
            ),
            FeedStep::TakePlate => BeltShare::new(
                Share::Lent.in_posture(Posture::OpenIn),
                lent,
                BeltPlates::Empty,
            ),
            FeedStep::StartIn => BeltShare::new(clear, lent, BeltPlates::AtEntry),
            FeedStep::RunIn | FeedStep::MoveOn => BeltShare::new(moving, lent, BeltPlates::AtEntry),
            FeedStep::ClaimExit => BeltShare::new(clear, lent, BeltPlates::AtEnd),
            FeedStep::StartOut => BeltShare::new(clear, open, BeltPlates::AtEnd),
            FeedStep::RunOut | FeedStep::Halt => BeltShare::new(moving, open, BeltPlates::AtEnd),
            FeedStep::GivePlate => BeltShare::new(
                Share::Clear.in_posture(Posture::Closed),
                open,
                BeltPlates::AtEnd,
            ),
        }
    }

    // Whether the belt runs in a step that drives.
    fn runs(self, barrier: bool) -> bool
        ensures { result ≡ program.runs_at self barrier }
    {
        match self {
            FeedStep::RunIn => !barrier,
            FeedStep::RunOut => barrier,
            _ => false,
        }
    }
}

/// The feed belt's program.
#[derive(Clone, Copy)]
pub struct FeedProgram;

/// The feed belt's controller.
pub type FeedCtl = Controller<FeedProgram>;

impl Program for FeedProgram {
    type Progress = FeedProgress;

    type Sense = FeedSense;

    type Reading = FeedSense;

    type Act = FeedAct;

    ghost steps = { λ _. program.feed_steps };

    fn start(&self, state: &State) -> FeedProgress {
        FeedProgress {
            step: FeedStep::ClaimEntry,
            entry: state.is_full(Place::FeedEntry),
            last: state.is_full(Place::FeedEnd),
        }
    }

    #[inline(always)]
    fn row(&self, progress: FeedProgress) -> Row<FeedProgress> {
        progress.row()
    }

    fn after_inquiry(
        &self,
        progress: FeedProgress,
        _owner: Option<Machine>,
        _flag: bool,
        _posture: Posture,
    ) -> FeedProgress {
        progress
    }

    fn check(&self, sense: &FeedSense) -> Result<FeedSense, SensorFault> {
        Ok(*sense)
    }

    fn drive(&self, progress: FeedProgress, reading: FeedSense) -> FeedAct {
        FeedAct {
            belt: progress.step.runs(reading.barrier),
        }
    }

    fn after_drive(
        &self,
        progress: FeedProgress,
        _reading: FeedSense,
        act: FeedAct,
    ) -> FeedProgress {
        if act.belt {
            progress
        } else {
            progress.row().next
        }
    }

    fn rest(&self, _progress: FeedProgress) -> FeedAct {
        FeedAct::at_rest()
    }
}
