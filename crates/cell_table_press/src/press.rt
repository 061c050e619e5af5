//! The press's program: its steps, a row for each, and what its motor does.
ghost use Rattle.std.specs.Prelude.{◌≡◌, ◌≤◌, slice_get};
ghost use Rattle.cell_table_press.specs.PressProgram as program;

use cell_control::{Controller, Program, Row, Share, Waits, ZoneShare, are_kept};
use cell_devices::{Direction, Motor, PressAct, press_to_bottom, press_to_middle, press_to_top};
use cell_rules::State;
use cell_sensors::{PressSense, SensorFault};
use cell_types::{Call, Machine, Place, Pose, Posture, Zone};

/// A step of the press's program.
#[derive(Clone, Copy, Debug, PartialEq, Eq)]
pub enum PressStep {
    /// Claims its interior for the first time.
    ClaimFirst,
    /// Sets out for the middle.
    LeaveForMiddle,
    /// Travels to the middle.
    MoveToMiddle,
    /// Has arrived at the middle.
    PoseMiddle,
    /// Lets the robot in with a plate.
    ReleaseInterior,
    /// Waits for the plate and takes it.
    TakePlate,
    /// Sets out for the top.
    LeaveForTop,
    /// Travels to the top.
    MoveToTop,
    /// Has arrived at the top.
    PoseTop,
    /// Forges the plate.
    Forge,
    /// Sets out for the bottom.
    LeaveForBottom,
    /// Travels to the bottom.
    MoveToBottom,
    /// Has arrived at the bottom.
    PoseLow,
    /// Lets the robot in for the plate, when its arm has room.
    GivePlate,
    /// Waits until the robot has left.
    ClaimBack,
}

/// The press's step in its program, with its notes.
#[derive(Clone, Copy)]
pub struct PressProgress {
    pub step: PressStep,
    /// Whether a plate that isn't forged is in the press.
    pub loaded: bool,
    /// Whether a forged plate is in the press.
    pub forged: bool,
    /// The last direction of its motor.
    pub direction: Direction,
}

/// What the press keeps at a step.
#[derive(Clone, Copy, Debug, PartialEq, Eq)]
pub struct PressShare {
    /// Its share of its interior.
    pub interior: ZoneShare,
    /// Its plates.
    pub plates: PressPlates,
}

/// The plates in the press.
#[derive(Clone, Copy, Debug, PartialEq, Eq)]
pub enum PressPlates {
    /// One at most, unforged or forged.
    OneAtMost,
    /// None.
    Empty,
    /// An unforged one.
    Unforged,
    /// A forged one.
    Forged,
}

impl PressShare {
    fn new(interior: ZoneShare, plates: PressPlates) -> PressShare
        ensures { result ≡ program.keeps interior plates }
    {
        PressShare { interior, plates }
    }
}

impl PressPlates {
    /// Whether the press has these plates, by whether it has an unforged and a forged one.
    pub fn are_there(self, unforged: bool, forged: bool) -> bool
        ensures { result ≡ program.are_there self unforged forged }
    {
        match self {
            PressPlates::OneAtMost => !(unforged && forged),
            PressPlates::Empty => !unforged && !forged,
            PressPlates::Unforged => unforged && !forged,
            PressPlates::Forged => !unforged && forged,
        }
    }
}

impl PressStep {
    /// The steps, in the order of their numbers.
    pub const ALL: [PressStep; 15] = [
        PressStep::ClaimFirst,
        PressStep::LeaveForMiddle,
        PressStep::MoveToMiddle,
        PressStep::PoseMiddle,
        PressStep::ReleaseInterior,
        PressStep::TakePlate,
        PressStep::LeaveForTop,
        PressStep::MoveToTop,
        PressStep::PoseTop,
        PressStep::Forge,
        PressStep::LeaveForBottom,
        PressStep::MoveToBottom,
        PressStep::PoseLow,
        PressStep::GivePlate,
        PressStep::ClaimBack,
    ];

    /// The step with this number; `None` if no step has it.
    pub fn with_number(number: u8) -> Option<PressStep>
        ensures { result ≡ slice_get program.steps number }
    {
        PressStep::ALL.get(usize::from(number)).copied()
    }

    /// The number of the step.
    pub fn number(self) -> u8
        ensures number { result ≡ program.number_at self }
        ensures small { result ≤ 14 }
    {
        self as u8
    }

    /// The word of the step, as films show it.
    pub fn word(self) -> &'static str
        ensures { result.now ≡ program.word_at self }
    {
        match self {
            PressStep::ClaimFirst => "claim first",
            PressStep::LeaveForMiddle => "leave for middle",
            PressStep::MoveToMiddle => "move to middle",
            PressStep::PoseMiddle => "pose middle",
            PressStep::ReleaseInterior => "release interior",
            PressStep::TakePlate => "take plate",
            PressStep::LeaveForTop => "leave for top",
            PressStep::MoveToTop => "move to top",
            PressStep::PoseTop => "pose top",
            PressStep::Forge => "forge",
            PressStep::LeaveForBottom => "leave for bottom",
            PressStep::MoveToBottom => "move to bottom",
            PressStep::PoseLow => "pose low",
            PressStep::GivePlate => "give plate",
            PressStep::ClaimBack => "claim back",
        }
    }

    /// What the press keeps at the step.
    pub fn keeps(self) -> PressShare
        ensures { result ≡ program.keeps_at self }
    {
        let unclaimed = Share::Unclaimed.in_posture(Posture::Closed);
        let clear = Share::Clear.in_any_posture();
        let shut = Share::Clear.in_posture(Posture::Closed);
        let moving = Share::Clear.in_posture(Posture::Moving);
        let opened = Share::Clear.in_posture(Posture::OpenIn);
        let lent = Share::Lent.in_posture(Posture::OpenIn);
        let offered = Share::Clear.in_posture(Posture::OpenOut);
        let emptied = Share::Lent.in_posture(Posture::OpenOut);
        match self {
            PressStep::ClaimFirst => PressShare::new(unclaimed, PressPlates::OneAtMost),
            PressStep::LeaveForMiddle => PressShare::new(clear, PressPlates::Empty),
            PressStep::MoveToMiddle | PressStep::PoseMiddle => {
                PressShare::new(moving, PressPlates::Empty)
            }
            PressStep::ReleaseInterior => PressShare::new(opened, PressPlates::Empty),
            PressStep::TakePlate => PressShare::new(lent, PressPlates::Empty),
            PressStep::LeaveForTop => PressShare::new(clear, PressPlates::Unforged),
            PressStep::MoveToTop | PressStep::PoseTop => {
                PressShare::new(moving, PressPlates::Unforged)
            }
            PressStep::Forge => PressShare::new(shut, PressPlates::Unforged),
            PressStep::LeaveForBottom => PressShare::new(clear, PressPlates::Forged),
            PressStep::MoveToBottom | PressStep::PoseLow => {
                PressShare::new(moving, PressPlates::Forged)
            }
            PressStep::GivePlate => PressShare::new(offered, PressPlates::Forged),
            PressStep::ClaimBack => PressShare::new(emptied, PressPlates::Empty),
        }
    }
}

impl PressProgress {
    /// Whether the step is in step with a state: the zone, the plates and the notes are as it keeps
    /// them.
    pub fn is_in_step(self, state: &State) -> bool
        ensures { result ≡ program.in_step self state.now }
    {
        let keeps = self.step.keeps();
        are_kept(&[(Zone::Z3, keeps.interior)], Machine::Press, state)
            && keeps.plates.are_there(self.loaded, self.forged)
            && state.is_full(Place::PressIn) == self.loaded
            && state.is_full(Place::PressOut) == self.forged
    }

    // The row of its step.
    #[inline(always)]
    fn row(self) -> Row<PressProgress>
        ensures { result ≡ program.row_of self }
    {
        match self.step {
            PressStep::ClaimFirst => self.asks(Call::Claim(Zone::Z3), self.by_plates()),
            PressStep::LeaveForMiddle => self.poses(Pose::Travelling, PressStep::MoveToMiddle),
            PressStep::MoveToMiddle => self.drives(PressStep::PoseMiddle),
            PressStep::PoseMiddle => self.poses(Pose::Middle, PressStep::ReleaseInterior),
            PressStep::ReleaseInterior => self.asks(Call::Release(Zone::Z3), PressStep::TakePlate),
            PressStep::TakePlate => self
                .with_plates(true, self.forged)
                .asks(Call::Take(Zone::Z3), PressStep::LeaveForTop)
                .waits(Waits::UntilOwner),
            PressStep::LeaveForTop => self.poses(Pose::Travelling, PressStep::MoveToTop),
            PressStep::MoveToTop => self.drives(PressStep::PoseTop),
            PressStep::PoseTop => self.poses(Pose::Top, PressStep::Forge),
            PressStep::Forge => self
                .with_plates(false, true)
                .asks(Call::Advance, PressStep::LeaveForBottom),
            PressStep::LeaveForBottom => self.poses(Pose::Travelling, PressStep::MoveToBottom),
            PressStep::MoveToBottom => self.drives(PressStep::PoseLow),
            PressStep::PoseLow => self.poses(Pose::Low, PressStep::GivePlate),
            PressStep::GivePlate => self
                .with_plates(self.loaded, false)
                .asks(Call::Give(Zone::Z3), PressStep::ClaimBack)
                .waits(Waits::UntilRoom),
            PressStep::ClaimBack => self
                .asks(Call::Claim(Zone::Z3), PressStep::LeaveForMiddle)
                .waits(Waits::UntilFree),
        }
    }

    // The row of a step that asks, with its next step.
    #[inline(always)]
    fn asks(self, call: Call, next: PressStep) -> Row<PressProgress>
        ensures { result ≡ program.asks self call next }
    {
        Row::asks(call, PressProgress { step: next, ..self })
    }

    // The row of a step that sets a pose.
    #[inline(always)]
    fn poses(self, pose: Pose, next: PressStep) -> Row<PressProgress>
        ensures { result ≡ program.poses self pose next }
    {
        self.asks(Call::SetPose(pose), next)
    }

    // The row of a step that drives.
    #[inline(always)]
    fn drives(self, next: PressStep) -> Row<PressProgress>
        ensures { result ≡ program.drives self next }
    {
        Row::drives(PressProgress { step: next, ..self })
    }

    // The same step with other notes of its plates.
    #[inline(always)]
    fn with_plates(self, loaded: bool, forged: bool) -> PressProgress
        ensures { result ≡ program.with_plates self loaded forged }
    {
        PressProgress {
            loaded,
            forged,
            ..self
        }
    }

    // The step after the first claim, by the plates in the press.
    #[inline(always)]
    fn by_plates(self) -> PressStep
        ensures { result ≡ program.by_plates self }
    {
        if self.forged {
            PressStep::LeaveForBottom
        } else if self.loaded {
            PressStep::LeaveForTop
        } else {
            PressStep::LeaveForMiddle
        }
    }
}

/// The press's program.
#[derive(Clone, Copy)]
pub struct PressProgram;

/// The press's controller.
pub type PressCtl = Controller<PressProgram>;

impl Program for PressProgram {
    type Progress = PressProgress;

    type Sense = PressSense;

    type Reading = PressSense;

    type Act = PressAct;

    ghost steps = { λ _. program.press_steps };

    fn start(&self, state: &State) -> PressProgress {
        PressProgress {
            step: PressStep::ClaimFirst,
            loaded: state.is_full(Place::PressIn),
            forged: state.is_full(Place::PressOut),
            direction: Direction::Minus,
        }
    }

    #[inline(always)]
    fn row(&self, progress: PressProgress) -> Row<PressProgress> {
        progress.row()
    }

    fn after_inquiry(
        &self,
        progress: PressProgress,
        _owner: Option<Machine>,
        _flag: bool,
        _posture: Posture,
    ) -> PressProgress {
        progress
    }

    fn check(&self, sense: &PressSense) -> Result<PressSense, SensorFault> {
        match sense.agree() {
            Ok(()) => Ok(*sense),
            Err(fault) => Err(fault),
        }
    }

    fn drive(&self, progress: PressProgress, reading: PressSense) -> PressAct {
        PressAct {
            press: motor(progress, reading),
        }
    }

    fn after_drive(
        &self,
        progress: PressProgress,
        _reading: PressSense,
        act: PressAct,
    ) -> PressProgress {
        match act.press {
            Motor::Off => progress.row().next,
            motor => PressProgress {
                direction: progress.direction.after(motor),
                ..progress
            },
        }
    }

    fn rest(&self, _progress: PressProgress) -> PressAct {
        PressAct::at_rest()
    }
}

// The motor's command in a step.
fn motor(progress: PressProgress, press: PressSense) -> Motor
    ensures { result ≡ program.step_motor progress.step progress.direction press }
{
    match progress.step {
        PressStep::MoveToMiddle => press_to_middle(&press, progress.direction),
        PressStep::MoveToTop => press_to_top(&press),
        PressStep::MoveToBottom => press_to_bottom(&press),
        _ => Motor::Off,
    }
}
