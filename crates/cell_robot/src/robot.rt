//! The robot's program: its steps, a row for each, and what its motors and magnets do.
ghost use Rattle.std.specs.Prelude.{◌≡◌, ◌↔◌, ◌≤◌, IfSome, IsTrue, ◌-ℤ◌, ◌≤ℤ◌};
ghost use Rattle.cell_devices.specs.Drives.{DrivesTo, narrowest_half};
ghost use Rattle.cell_devices.specs.Limits.{retracted_to};
ghost use Rattle.cell_robot.specs.RobotProgram as program;
ghost use Rattle.cell_robot.specs.Calibrations.{arm1_in, arm2_in, rotation_in};

use cell_control::{Controller, Program, Row, Waits};
use cell_devices::stops::{
    ARM1_PRESS, ARM1_TABLE, ARM2_DEPOSIT, ARM2_PRESS, RETRACTED, ROTATION_ARM1_PRESS,
    ROTATION_ARM1_TABLE, ROTATION_ARM2_DEPOSIT, ROTATION_ARM2_PRESS,
};
use cell_devices::{Motor, RobotAct, Stop, drive_to, is_retracted};
use cell_rules::State;
use cell_sensors::{Calibration, Gauge, RobotSense, SensorFault};
use cell_types::{Call, Machine, Place, Posture, Zone};

/// A step of the robot's program.
#[derive(Clone, Copy, Debug, PartialEq, Eq)]
pub enum RobotStep {
    /// Turns the first arm to the table.
    TurnToTable,
    /// Waits for the table to hand a plate over.
    AwaitPlate,
    /// Puts the first arm out to the table.
    ReachTable,
    /// Switches the first magnet on.
    GripPlate,
    /// Draws the first arm back with the plate.
    LeaveTable,
    /// Takes the plate onto the first arm.
    TakePlate,
    /// Leaves the table.
    ReleaseTable,
    /// Turns the first arm to the press.
    TurnToLoad,
    /// Waits until the press lets it in.
    ClaimPress,
    /// Inquires whether the press is open for a plate.
    InspectPress,
    /// Leaves the press, which isn't open for a plate.
    ReleasePress,
    /// Puts the first arm out into the press.
    ReachToLoad,
    /// Switches the first magnet off.
    DropInPress,
    /// Draws the empty first arm back.
    LeaveLoaded,
    /// Hands the plate to the press.
    GiveToPress,
    /// Turns the second arm to the press.
    TurnToUnload,
    /// Waits for the press to hand a forged plate over.
    AwaitForged,
    /// Puts the second arm out into the press.
    ReachToUnload,
    /// Switches the second magnet on.
    GripForged,
    /// Draws the second arm back with the forged plate.
    LeaveUnloaded,
    /// Takes the forged plate onto the second arm.
    TakeForged,
    /// Leaves the press, which is empty.
    ReleaseUnloaded,
    /// Turns the second arm to the deposit belt.
    TurnToDeposit,
    /// Waits until the deposit belt lets it in.
    ClaimDeposit,
    /// Puts the second arm out over the deposit belt.
    ReachDeposit,
    /// Switches the second magnet off.
    DropOnDeposit,
    /// Draws the empty second arm back.
    LeaveDeposit,
    /// Hands the forged plate to the deposit belt.
    GiveToDeposit,
}

/// The robot's notes of plates.
#[derive(Clone, Copy)]
pub struct RobotNotes {
    /// Whether a plate is on the first arm.
    pub arm1: bool,
    /// Whether a forged plate is on the second arm.
    pub arm2: bool,
    /// Whether a plate is in the press.
    pub fed: bool,
}

/// The robot's last commands to its magnets: whether each is on.
#[derive(Clone, Copy)]
pub struct RobotMagnets {
    pub arm1: bool,
    pub arm2: bool,
}

/// The robot's step in its program, with its notes.
#[derive(Clone, Copy)]
pub struct RobotProgress {
    pub step: RobotStep,
    pub notes: RobotNotes,
    pub magnets: RobotMagnets,
}

/// What the robot's sensors say after the check.
#[derive(Clone, Copy)]
pub struct RobotReading {
    /// How far the first arm is out, in tenths of a millimetre.
    pub arm1: i32,
    /// How far the second arm is out, in tenths of a millimetre.
    pub arm2: i32,
    /// How far the robot is turned, in tenths of a degree.
    pub rotation: i32,
    /// Whether both arms are surely retracted, so that it may turn.
    pub retracted: bool,
}

impl RobotNotes {
    // The first step of the next group, by the notes.
    #[inline(always)]
    fn choice(self) -> RobotStep
        ensures { result ≡ program.choice self }
    {
        if self.arm2 {
            RobotStep::TurnToDeposit
        } else if self.fed {
            RobotStep::TurnToUnload
        } else if self.arm1 {
            RobotStep::TurnToLoad
        } else {
            RobotStep::TurnToTable
        }
    }
}

impl RobotProgress {
    // The row of its step. An inquiry isn't done: it leads on by what it shows.
    #[inline(always)]
    fn row(self) -> Row<RobotProgress>
        ensures { result ≡ program.row_of self }
    {
        match self.step {
            RobotStep::TurnToTable => self.drives(RobotStep::AwaitPlate),
            RobotStep::AwaitPlate => self.asks(Call::Inquire(Zone::Z2), RobotStep::AwaitPlate),
            RobotStep::ReachTable => self.drives(RobotStep::GripPlate),
            RobotStep::GripPlate => self.with_magnet1(true).drives(RobotStep::LeaveTable),
            RobotStep::LeaveTable => self.drives(RobotStep::TakePlate),
            RobotStep::TakePlate => self
                .with_arm1(true)
                .asks(Call::Take(Zone::Z2), RobotStep::ReleaseTable),
            RobotStep::ReleaseTable => self.asks_by_notes(Call::Release(Zone::Z2)),
            RobotStep::TurnToLoad => self.drives(RobotStep::ClaimPress),
            RobotStep::ClaimPress => self.claims(Zone::Z3, RobotStep::InspectPress),
            RobotStep::InspectPress => self.asks(Call::Inquire(Zone::Z3), RobotStep::InspectPress),
            RobotStep::ReleasePress => self.asks(Call::Release(Zone::Z3), RobotStep::ClaimPress),
            RobotStep::ReachToLoad => self.drives(RobotStep::DropInPress),
            RobotStep::DropInPress => self.with_magnet1(false).drives(RobotStep::LeaveLoaded),
            RobotStep::LeaveLoaded => self.drives(RobotStep::GiveToPress),
            RobotStep::GiveToPress => self
                .with_arm1(false)
                .with_fed(true)
                .asks_by_notes(Call::Give(Zone::Z3)),
            _ => self.row_of_arm2(),
        }
    }

    // The row of a step of the second arm. A step of the first arm has its row above.
    #[inline(always)]
    fn row_of_arm2(self) -> Row<RobotProgress>
        ensures { result ≡ program.row_of_arm2 self.step self }
    {
        match self.step {
            RobotStep::TurnToUnload => self.drives(RobotStep::AwaitForged),
            RobotStep::AwaitForged => self.asks(Call::Inquire(Zone::Z3), RobotStep::AwaitForged),
            RobotStep::ReachToUnload => self.drives(RobotStep::GripForged),
            RobotStep::GripForged => self.with_magnet2(true).drives(RobotStep::LeaveUnloaded),
            RobotStep::LeaveUnloaded => self.drives(RobotStep::TakeForged),
            RobotStep::TakeForged => self
                .with_arm2(true)
                .with_fed(false)
                .asks(Call::Take(Zone::Z3), RobotStep::ReleaseUnloaded),
            RobotStep::ReleaseUnloaded => self.asks_by_notes(Call::Release(Zone::Z3)),
            RobotStep::TurnToDeposit => self.drives(RobotStep::ClaimDeposit),
            RobotStep::ClaimDeposit => self.claims(Zone::Z4, RobotStep::ReachDeposit),
            RobotStep::ReachDeposit => self.drives(RobotStep::DropOnDeposit),
            RobotStep::DropOnDeposit => self.with_magnet2(false).drives(RobotStep::LeaveDeposit),
            RobotStep::LeaveDeposit => self.drives(RobotStep::GiveToDeposit),
            RobotStep::GiveToDeposit => self.with_arm2(false).asks_by_notes(Call::Give(Zone::Z4)),
            _ => self.drives(self.step),
        }
    }

    // The row of a step that asks, with its next step.
    #[inline(always)]
    fn asks(self, call: Call, next: RobotStep) -> Row<RobotProgress>
        ensures { result ≡ program.asks self call next }
    {
        Row::asks(call, RobotProgress { step: next, ..self })
    }

    // The row of a step that asks, and leads to the next group.
    #[inline(always)]
    fn asks_by_notes(self, call: Call) -> Row<RobotProgress>
        ensures { result ≡ program.asks_by_notes self call }
    {
        self.asks(call, self.notes.choice())
    }

    // The row of a step that claims a zone, and waits until the zone lets it in.
    #[inline(always)]
    fn claims(self, zone: Zone, next: RobotStep) -> Row<RobotProgress>
        ensures { result ≡ program.claims self zone next }
    {
        self.asks(Call::Claim(zone), next)
            .waits(Waits::UntilFreeAndOpen)
    }

    // The row of a step that drives, or switches a magnet.
    #[inline(always)]
    fn drives(self, next: RobotStep) -> Row<RobotProgress>
        ensures { result ≡ program.drives self next }
    {
        Row::drives(RobotProgress { step: next, ..self })
    }

    // The same step with another note of the first arm's plate.
    #[inline(always)]
    fn with_arm1(self, arm1: bool) -> RobotProgress
        ensures { result ≡ program.with_arm1 self arm1 }
    {
        RobotProgress {
            notes: RobotNotes { arm1, ..self.notes },
            ..self
        }
    }

    // The same step with another note of the second arm's plate.
    #[inline(always)]
    fn with_arm2(self, arm2: bool) -> RobotProgress
        ensures { result ≡ program.with_arm2 self arm2 }
    {
        RobotProgress {
            notes: RobotNotes { arm2, ..self.notes },
            ..self
        }
    }

    // The same step with another note of the press's plate.
    #[inline(always)]
    fn with_fed(self, fed: bool) -> RobotProgress
        ensures { result ≡ program.with_fed self fed }
    {
        RobotProgress {
            notes: RobotNotes { fed, ..self.notes },
            ..self
        }
    }

    // The same step with another command to the first magnet.
    #[inline(always)]
    fn with_magnet1(self, on: bool) -> RobotProgress
        ensures { result ≡ program.with_magnet1 self on }
    {
        RobotProgress {
            magnets: RobotMagnets {
                arm1: on,
                ..self.magnets
            },
            ..self
        }
    }

    // The same step with another command to the second magnet.
    #[inline(always)]
    fn with_magnet2(self, on: bool) -> RobotProgress
        ensures { result ≡ program.with_magnet2 self on }
    {
        RobotProgress {
            magnets: RobotMagnets {
                arm2: on,
                ..self.magnets
            },
            ..self
        }
    }
}

impl RobotStep {
    // The next step after an inquiry that showed this of a zone.
    fn after_inquiry(self, owner: Option<Machine>, flag: bool, posture: Posture) -> RobotStep
        ensures { result ≡ program.step_after_inquiry self owner flag posture }
    {
        match (self, owner, flag, posture) {
            (RobotStep::AwaitPlate, Some(Machine::Robot), true, _) => RobotStep::ReachTable,
            (RobotStep::InspectPress, _, _, Posture::OpenIn) => RobotStep::ReachToLoad,
            (RobotStep::InspectPress, _, _, _) => RobotStep::ReleasePress,
            (RobotStep::AwaitForged, Some(Machine::Robot), true, _) => RobotStep::ReachToUnload,
            _ => self,
        }
    }

    // The rotation that the step turns to.
    fn rotation_stop(self) -> Option<Stop>
        ensures stop { result ≡ program.rotation_stop self }
        ensures half { IfSome result (λ s. narrowest_half ≤ s.half) }
    {
        match self {
            RobotStep::TurnToTable => Some(ROTATION_ARM1_TABLE),
            RobotStep::TurnToLoad => Some(ROTATION_ARM1_PRESS),
            RobotStep::TurnToUnload => Some(ROTATION_ARM2_PRESS),
            RobotStep::TurnToDeposit => Some(ROTATION_ARM2_DEPOSIT),
            _ => None,
        }
    }

    // The extension that the step drives the first arm to.
    fn arm1_stop(self) -> Option<Stop>
        ensures stop { result ≡ program.arm1_stop self }
        ensures half { IfSome result (λ s. narrowest_half ≤ s.half) }
    {
        match self {
            RobotStep::ReachTable => Some(ARM1_TABLE),
            RobotStep::ReachToLoad => Some(ARM1_PRESS),
            RobotStep::LeaveTable | RobotStep::LeaveLoaded => Some(RETRACTED),
            _ => None,
        }
    }

    // The extension that the step drives the second arm to.
    fn arm2_stop(self) -> Option<Stop>
        ensures stop { result ≡ program.arm2_stop self }
        ensures half { IfSome result (λ s. narrowest_half ≤ s.half) }
    {
        match self {
            RobotStep::ReachToUnload => Some(ARM2_PRESS),
            RobotStep::ReachDeposit => Some(ARM2_DEPOSIT),
            RobotStep::LeaveUnloaded | RobotStep::LeaveDeposit => Some(RETRACTED),
            _ => None,
        }
    }

    // Whether the robot turns in the step.
    fn turns(self) -> bool
        ensures { result ≡ program.turns self }
    {
        matches!(
            self,
            RobotStep::TurnToTable
                | RobotStep::TurnToLoad
                | RobotStep::TurnToUnload
                | RobotStep::TurnToDeposit
        )
    }
}

/// The robot's program, with the calibrations of its two arms and of its rotation.
#[derive(Drop)]
pub struct RobotProgram<F1: Gauge, F2: Gauge, F3: Gauge> {
    arm1: Calibration<F1>,
    arm2: Calibration<F2>,
    rotation: Calibration<F3>,
}

/// The robot's controller.
pub type RobotCtl<F1, F2, F3> = Controller<RobotProgram<F1, F2, F3>>;

impl<F1: Gauge, F2: Gauge, F3: Gauge> RobotProgram<F1, F2, F3> {
    /// The program with these calibrations.
    pub fn new(
        arm1: Calibration<F1>,
        arm2: Calibration<F2>,
        rotation: Calibration<F3>,
    ) -> RobotProgram<F1, F2, F3>
        ensures arm1 { arm1_in result ≡ arm1 }
        ensures arm2 { arm2_in result ≡ arm2 }
        ensures rotation { rotation_in result ≡ rotation }
    {
        RobotProgram {
            arm1,
            arm2,
            rotation,
        }
    }
}

impl<F1: Gauge, F2: Gauge, F3: Gauge> Program for RobotProgram<F1, F2, F3> {
    type Progress = RobotProgress;

    type Sense = RobotSense;

    type Reading = RobotReading;

    type Act = RobotAct;

    ghost steps = { λ r. program.robot_steps (program.robot_scales r.arm1.points r.arm2.points r.rotation.points)
        (program.gauges_of (λ raw v. F1.gives r.arm1.gauge raw v) (λ raw v. F2.gives r.arm2.gauge raw v)
        (λ raw v. F3.gives r.rotation.gauge raw v)) };

    fn start(&self, state: &State) -> RobotProgress {
        let notes = RobotNotes {
            arm1: state.is_full(Place::Arm1),
            arm2: state.is_full(Place::Arm2),
            fed: state.is_full(Place::PressIn) || state.is_full(Place::PressOut),
        };
        RobotProgress {
            step: notes.choice(),
            notes,
            magnets: RobotMagnets {
                arm1: notes.arm1,
                arm2: notes.arm2,
            },
        }
    }

    #[inline(always)]
    fn row(&self, progress: RobotProgress) -> Row<RobotProgress> {
        progress.row()
    }

    fn after_inquiry(
        &self,
        progress: RobotProgress,
        owner: Option<Machine>,
        flag: bool,
        posture: Posture,
    ) -> RobotProgress {
        RobotProgress {
            step: progress.step.after_inquiry(owner, flag, posture),
            ..progress
        }
    }

    // inline, so that a turn that asks computes no reading
    #[inline(always)]
    fn check(&self, sense: &RobotSense) -> Result<RobotReading, SensorFault> {
        let arm1 = read(&self.arm1, sense.arm1)?;
        let arm2 = read(&self.arm2, sense.arm2)?;
        let rotation = read(&self.rotation, sense.rotation)?;
        Ok(RobotReading {
            arm1,
            arm2,
            rotation,
            retracted: are_drawn_back(&self.arm1, &self.arm2, arm1, arm2),
        })
    }

    fn drive(&self, progress: RobotProgress, reading: RobotReading) -> RobotAct {
        let step = progress.step;
        let magnets = progress.row().next.magnets;
        RobotAct {
            arm1: first_arm(&self.arm1, step, reading.arm1),
            arm2: second_arm(&self.arm2, step, reading.arm2),
            rotation: rotation(&self.rotation, step, reading.retracted, reading.rotation),
            magnet1: magnets.arm1,
            magnet2: magnets.arm2,
        }
    }

    fn after_drive(
        &self,
        progress: RobotProgress,
        reading: RobotReading,
        act: RobotAct,
    ) -> RobotProgress {
        let waits = progress.step.turns() && !reading.retracted;
        match (act.arm1, act.arm2, act.rotation) {
            (Motor::Off, Motor::Off, Motor::Off) if !waits => progress.row().next,
            _ => progress,
        }
    }

    fn rest(&self, progress: RobotProgress) -> RobotAct {
        RobotAct::at_rest(progress.magnets.arm1, progress.magnets.arm2)
    }
}

// The position at a raw value.
fn read<F: Gauge>(calibration: &Calibration<F>, raw: u16) -> Result<i32, SensorFault>
    ensures { program.ReadsAs calibration.now.points (λ at v. F.gives calibration.now.gauge at v) raw result }
{
    calibration.read(raw)
}

// Whether both arms are surely retracted.
fn are_drawn_back<F1: Gauge, F2: Gauge>(
    first: &Calibration<F1>,
    second: &Calibration<F2>,
    arm1: i32,
    arm2: i32,
) -> bool
    ensures { IsTrue result ↔ ((arm1 ≤ℤ (retracted_to -ℤ first.now.points.tol))
        × (arm2 ≤ℤ (retracted_to -ℤ second.now.points.tol))) }
{
    is_drawn_back(first, arm1) && is_drawn_back(second, arm2)
}

// Whether an arm is surely retracted.
fn is_drawn_back<F: Gauge>(arm: &Calibration<F>, read: i32) -> bool
    ensures { IsTrue result ↔ (read ≤ℤ (retracted_to -ℤ arm.now.points.tol)) }
{
    is_retracted(read, arm.tol())
}

// The first arm motor's command in a step.
fn first_arm<F: Gauge>(arm: &Calibration<F>, step: RobotStep, read: i32) -> Motor
    ensures { DrivesTo (program.arm1_stop step) arm.now.points.tol read result }
{
    drive_to(step.arm1_stop(), arm.tol(), read)
}

// The second arm motor's command in a step.
fn second_arm<F: Gauge>(arm: &Calibration<F>, step: RobotStep, read: i32) -> Motor
    ensures { DrivesTo (program.arm2_stop step) arm.now.points.tol read result }
{
    drive_to(step.arm2_stop(), arm.tol(), read)
}

// The rotation motor's command in a step.
fn rotation<F: Gauge>(turn: &Calibration<F>, step: RobotStep, retracted: bool, read: i32) -> Motor
    ensures { DrivesTo (program.turns_to step retracted) turn.now.points.tol read result }
{
    if retracted {
        drive_to(step.rotation_stop(), turn.tol(), read)
    } else {
        Motor::Off
    }
}
