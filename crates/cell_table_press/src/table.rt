//! The table's program: its steps, a row for each, and what its motors do.
ghost use Rattle.std.specs.Prelude.{◌≡◌, ◌≤◌, IfSome, slice_get};
ghost use Rattle.cell_devices.specs.Drives.{DrivesTo, narrowest_half};
ghost use Rattle.cell_table_press.specs.TableProgram as program;
ghost use Rattle.cell_table_press.specs.Calibrations.{turn_in};

use cell_control::{Controller, Program, Row, Share, Waits, ZoneShare, are_kept};
use cell_devices::stops::{TURN_LOADING, TURN_UNLOADING};
use cell_devices::{Motor, Stop, TableAct, drive_to, table_to_bottom, table_to_top};
use cell_rules::State;
use cell_sensors::{Calibration, Gauge, SensorFault, TableSense};
use cell_types::{Call, Machine, Place, Pose, Posture, Zone};

/// A step of the table's program.
#[derive(Clone, Copy, Debug, PartialEq, Eq)]
pub enum TableStep {
    /// Claims the zone shared with the feed belt for the first time.
    ClaimEntry,
    /// Claims the zone shared with the robot for the first time.
    ClaimExit,
    /// Sets out for the feed belt.
    LeaveForLoading,
    /// Goes down and turns to the feed belt.
    MoveToLoading,
    /// Has arrived at the feed belt.
    PoseLoading,
    /// Lets the feed belt give a plate.
    ReleaseEntry,
    /// Waits for the plate and takes it.
    TakePlate,
    /// Sets out for the robot.
    LeaveForUnloading,
    /// Goes up and turns to the robot.
    MoveToUnloading,
    /// Has arrived at the robot.
    PoseUnloading,
    /// Hands the plate to the robot, when its arm has room.
    GivePlate,
    /// Waits until the robot has left.
    ClaimBack,
}

/// The table's step in its program, with its note.
#[derive(Clone, Copy)]
pub struct TableProgress {
    pub step: TableStep,
    /// Whether a plate is on the table.
    pub loaded: bool,
}

/// What the table's sensors say after the check.
#[derive(Clone, Copy)]
pub struct TableReading {
    /// The switches, which don't clash, and the raw value.
    pub sense: TableSense,
    /// The position of the rotation, in tenths of a degree.
    pub turn: i32,
}

/// What the table keeps at a step.
#[derive(Clone, Copy, Debug, PartialEq, Eq)]
pub struct TableShare {
    /// Its share of the zone of the feed belt.
    pub entry: ZoneShare,
    /// Its share of the zone of the robot.
    pub exit: ZoneShare,
    /// Its plate.
    pub plate: TablePlate,
}

/// The plate on the table.
#[derive(Clone, Copy, Debug, PartialEq, Eq)]
pub enum TablePlate {
    /// Perhaps one.
    Any,
    /// None.
    Empty,
    /// One.
    Full,
}

impl TableShare {
    fn new(entry: ZoneShare, exit: ZoneShare, plate: TablePlate) -> TableShare
        ensures { result ≡ program.keeps entry exit plate }
    {
        TableShare { entry, exit, plate }
    }
}

impl TablePlate {
    /// Whether this is so, by the table's note.
    pub fn is_there(self, loaded: bool) -> bool
        ensures { result ≡ program.is_there self loaded }
    {
        match self {
            TablePlate::Any => true,
            TablePlate::Empty => !loaded,
            TablePlate::Full => loaded,
        }
    }
}

impl TableProgress {
    /// Whether the step is in step with a state: the zones, the plate and the note are as it keeps
    /// them.
    pub fn is_in_step(self, state: &State) -> bool
        ensures { result ≡ program.in_step self state.now }
    {
        let keeps = self.step.keeps();
        let zones = [(Zone::Z1, keeps.entry), (Zone::Z2, keeps.exit)];
        are_kept(&zones, Machine::Table, state)
            && keeps.plate.is_there(self.loaded)
            && state.is_full(Place::Table) == self.loaded
    }

    // The row of its step.
    #[inline(always)]
    fn row(self) -> Row<TableProgress>
        ensures { result ≡ program.row_of self }
    {
        match self.step {
            TableStep::ClaimEntry => self.asks(Call::Claim(Zone::Z1), TableStep::ClaimExit),
            TableStep::ClaimExit => self.asks(Call::Claim(Zone::Z2), self.by_plate()),
            TableStep::LeaveForLoading => self.poses(Pose::Turning, TableStep::MoveToLoading),
            TableStep::MoveToLoading => self.drives(TableStep::PoseLoading),
            TableStep::PoseLoading => self.poses(Pose::Loading, TableStep::ReleaseEntry),
            TableStep::ReleaseEntry => self.asks(Call::Release(Zone::Z1), TableStep::TakePlate),
            TableStep::TakePlate => self
                .with_plate(true)
                .asks(Call::Take(Zone::Z1), TableStep::LeaveForUnloading)
                .waits(Waits::UntilOwner),
            TableStep::LeaveForUnloading => self.poses(Pose::Turning, TableStep::MoveToUnloading),
            TableStep::MoveToUnloading => self.drives(TableStep::PoseUnloading),
            TableStep::PoseUnloading => self.poses(Pose::Unloading, TableStep::GivePlate),
            TableStep::GivePlate => self
                .with_plate(false)
                .asks(Call::Give(Zone::Z2), TableStep::ClaimBack)
                .waits(Waits::UntilRoom),
            TableStep::ClaimBack => self
                .asks(Call::Claim(Zone::Z2), TableStep::LeaveForLoading)
                .waits(Waits::UntilFree),
        }
    }

    // The row of a step that asks, with its next step.
    #[inline(always)]
    fn asks(self, call: Call, next: TableStep) -> Row<TableProgress>
        ensures { result ≡ program.asks self call next }
    {
        Row::asks(call, TableProgress { step: next, ..self })
    }

    // The row of a step that sets a pose.
    #[inline(always)]
    fn poses(self, pose: Pose, next: TableStep) -> Row<TableProgress>
        ensures { result ≡ program.poses self pose next }
    {
        self.asks(Call::SetPose(pose), next)
    }

    // The row of a step that drives.
    #[inline(always)]
    fn drives(self, next: TableStep) -> Row<TableProgress>
        ensures { result ≡ program.drives self next }
    {
        Row::drives(TableProgress { step: next, ..self })
    }

    // The same step with another note of its plate.
    #[inline(always)]
    fn with_plate(self, loaded: bool) -> TableProgress
        ensures { result ≡ program.with_plate self loaded }
    {
        TableProgress { loaded, ..self }
    }

    // The step after the first claims, by the plate on the table.
    #[inline(always)]
    fn by_plate(self) -> TableStep
        ensures { result ≡ program.by_plate self }
    {
        if self.loaded {
            TableStep::LeaveForUnloading
        } else {
            TableStep::LeaveForLoading
        }
    }
}

impl TableStep {
    /// The steps, in the order of their numbers.
    pub const ALL: [TableStep; 12] = [
        TableStep::ClaimEntry,
        TableStep::ClaimExit,
        TableStep::LeaveForLoading,
        TableStep::MoveToLoading,
        TableStep::PoseLoading,
        TableStep::ReleaseEntry,
        TableStep::TakePlate,
        TableStep::LeaveForUnloading,
        TableStep::MoveToUnloading,
        TableStep::PoseUnloading,
        TableStep::GivePlate,
        TableStep::ClaimBack,
    ];

    /// The step with this number; `None` if no step has it.
    pub fn with_number(number: u8) -> Option<TableStep>
        ensures { result ≡ slice_get program.steps number }
    {
        TableStep::ALL.get(usize::from(number)).copied()
    }

    /// The number of the step.
    pub fn number(self) -> u8
        ensures { result ≡ program.number_at self }
    {
        self as u8
    }

    /// The word of the step, as films show it.
    pub fn word(self) -> &'static str
        ensures { result.now ≡ program.word_at self }
    {
        match self {
            TableStep::ClaimEntry => "claim entry",
            TableStep::ClaimExit => "claim exit",
            TableStep::LeaveForLoading => "leave for loading",
            TableStep::MoveToLoading => "move to loading",
            TableStep::PoseLoading => "pose loading",
            TableStep::ReleaseEntry => "release entry",
            TableStep::TakePlate => "take plate",
            TableStep::LeaveForUnloading => "leave for unloading",
            TableStep::MoveToUnloading => "move to unloading",
            TableStep::PoseUnloading => "pose unloading",
            TableStep::GivePlate => "give plate",
            TableStep::ClaimBack => "claim back",
        }
    }

    /// What the table keeps at the step.
    pub fn keeps(self) -> TableShare
        ensures { result ≡ program.keeps_at self }
    {
        let unclaimed = Share::Unclaimed.in_posture(Posture::Closed);
        let clear = Share::Clear.in_any_posture();
        let shut = Share::Clear.in_posture(Posture::Closed);
        let moving = Share::Clear.in_posture(Posture::Moving);
        let opened = Share::Clear.in_posture(Posture::OpenIn);
        let lent = Share::Lent.in_posture(Posture::OpenIn);
        let offered = Share::Clear.in_posture(Posture::OpenOut);
        let emptied = Share::Lent.in_posture(Posture::OpenOut);
        match self {
            TableStep::ClaimEntry => TableShare::new(unclaimed, unclaimed, TablePlate::Any),
            TableStep::ClaimExit => TableShare::new(clear, unclaimed, TablePlate::Any),
            TableStep::LeaveForLoading => TableShare::new(clear, clear, TablePlate::Empty),
            TableStep::MoveToLoading | TableStep::PoseLoading => {
                TableShare::new(moving, moving, TablePlate::Empty)
            }
            TableStep::ReleaseEntry => TableShare::new(opened, shut, TablePlate::Empty),
            TableStep::TakePlate => TableShare::new(lent, shut, TablePlate::Empty),
            TableStep::LeaveForUnloading => TableShare::new(clear, clear, TablePlate::Full),
            TableStep::MoveToUnloading | TableStep::PoseUnloading => {
                TableShare::new(moving, moving, TablePlate::Full)
            }
            TableStep::GivePlate => TableShare::new(shut, offered, TablePlate::Full),
            TableStep::ClaimBack => TableShare::new(shut, emptied, TablePlate::Empty),
        }
    }

    // The height motor's command in the step.
    fn height(self, table: &TableSense) -> Motor
        ensures { result ≡ program.height_for self table.now }
    {
        match self {
            TableStep::MoveToLoading => table_to_bottom(table),
            TableStep::MoveToUnloading => table_to_top(table),
            _ => Motor::Off,
        }
    }

    // The rotation that the step turns to.
    fn stop(self) -> Option<Stop>
        ensures stop { result ≡ program.rotation_stop self }
        ensures half { IfSome result (λ s. narrowest_half ≤ s.half) }
    {
        match self {
            TableStep::MoveToLoading => Some(TURN_LOADING),
            TableStep::MoveToUnloading => Some(TURN_UNLOADING),
            _ => None,
        }
    }
}

/// The table's program, with the calibration of its rotation.
#[derive(Drop)]
pub struct TableProgram<F: Gauge> {
    turn: Calibration<F>,
}

/// The table's controller.
pub type TableCtl<F> = Controller<TableProgram<F>>;

impl<F: Gauge> TableProgram<F> {
    /// The program with this calibration.
    pub fn new(turn: Calibration<F>) -> TableProgram<F>
        ensures { turn_in result ≡ turn }
    {
        TableProgram { turn }
    }
}

impl<F: Gauge> Program for TableProgram<F> {
    type Progress = TableProgress;

    type Sense = TableSense;

    type Reading = TableReading;

    type Act = TableAct;

    ghost steps = { λ t. program.table_steps t.turn.points (λ raw v. F.gives t.turn.gauge raw v) };

    fn start(&self, state: &State) -> TableProgress {
        TableProgress {
            step: TableStep::ClaimEntry,
            loaded: state.is_full(Place::Table),
        }
    }

    #[inline(always)]
    fn row(&self, progress: TableProgress) -> Row<TableProgress> {
        progress.row()
    }

    fn after_inquiry(
        &self,
        progress: TableProgress,
        _owner: Option<Machine>,
        _flag: bool,
        _posture: Posture,
    ) -> TableProgress {
        progress
    }

    // inline, so that a turn that asks computes no reading
    #[inline(always)]
    fn check(&self, sense: &TableSense) -> Result<TableReading, SensorFault> {
        if let Err(fault) = sense.agree() {
            return Err(fault);
        }
        match self.turn.read(sense.turn) {
            Ok(turn) => Ok(TableReading {
                sense: *sense,
                turn,
            }),
            Err(fault) => Err(fault),
        }
    }

    fn drive(&self, progress: TableProgress, reading: TableReading) -> TableAct {
        TableAct {
            height: progress.step.height(&reading.sense),
            rotation: rotation(&self.turn, progress.step, reading.turn),
        }
    }

    fn after_drive(
        &self,
        progress: TableProgress,
        _reading: TableReading,
        act: TableAct,
    ) -> TableProgress {
        match (act.height, act.rotation) {
            (Motor::Off, Motor::Off) => progress.row().next,
            _ => progress,
        }
    }

    fn rest(&self, _progress: TableProgress) -> TableAct {
        TableAct::at_rest()
    }
}

// The rotation motor's command in a step.
fn rotation<F: Gauge>(turn: &Calibration<F>, step: TableStep, read: i32) -> Motor
    ensures { DrivesTo (program.rotation_stop step) turn.now.points.tol read result }
{
    drive_to(step.stop(), turn.tol(), read)
}
