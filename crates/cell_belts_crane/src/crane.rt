//! The crane's program: its steps, a row for each, and what its motors and its magnet do.
ghost use Rattle.std.specs.Prelude.{◌≡◌, ◌↔◌, ◌≤◌, true, false, IfSome, IsTrue, ◌+ℤ◌, ◌≤ℤ◌, slice_get};
ghost use Rattle.cell_devices.specs.Drives.{DrivesTo, narrowest_half};
ghost use Rattle.cell_devices.specs.Limits.{travel_from};
ghost use Rattle.cell_belts_crane.specs.CraneProgram as program;
ghost use Rattle.cell_belts_crane.specs.Calibrations.{gripper_in};

use cell_control::{Controller, Program, Row, Share, Waits, ZoneShare, are_kept};
use cell_devices::stops::{GRIPPER_DEPOSIT, GRIPPER_FEED, GRIPPER_TRAVEL};
use cell_devices::{
    CraneAct, Motor, Stop, crane_to_deposit, crane_to_feed, drive_to, is_travel_high,
};
use cell_rules::State;
use cell_sensors::{Calibration, CraneSense, Gauge, SensorFault};
use cell_types::{Call, Machine, Place, Posture, Zone};

/// A step of the crane's program.
#[derive(Clone, Copy, Debug, PartialEq, Eq)]
pub enum CraneStep {
    /// Raises the empty gripper to travel.
    RaiseToFetch,
    /// Travels to the deposit belt.
    TravelToDeposit,
    /// Waits for the deposit belt to hand a plate over.
    AwaitPlate,
    /// Lowers the gripper to the plate.
    LowerToPlate,
    /// Switches the magnet on.
    GripPlate,
    /// Raises the gripper with the plate.
    RaiseWithPlate,
    /// Takes the plate.
    TakePlate,
    /// Leaves the deposit belt.
    ReleaseDeposit,
    /// Travels to the feed belt.
    TravelToFeed,
    /// Waits until the feed belt lets it in.
    ClaimFeed,
    /// Lowers the plate to the feed belt.
    LowerToFeed,
    /// Switches the magnet off.
    DropPlate,
    /// Raises the empty gripper from the feed belt.
    RaiseFromFeed,
    /// Hands the plate to the feed belt.
    GivePlate,
}

/// The crane's step in its program, with its note.
#[derive(Clone, Copy)]
pub struct CraneProgress {
    pub step: CraneStep,
    /// Whether the gripper's magnet is on.
    pub magnet: bool,
}

/// What the crane keeps at a step.
#[derive(Clone, Copy, Debug, PartialEq, Eq)]
pub struct CraneShare {
    /// Its share of the zone of the deposit belt.
    pub deposit: ZoneShare,
    /// Its share of the zone of the feed belt.
    pub feed: ZoneShare,
    /// Whether it has a plate; else it may have one.
    pub plate: bool,
    /// Whether its magnet is on.
    pub magnet: bool,
}

impl CraneShare {
    // These shares of its zones, perhaps without a plate, and with the magnet off.
    fn new(deposit: ZoneShare, feed: ZoneShare) -> CraneShare
        ensures { result ≡ program.keeps deposit feed false false }
    {
        CraneShare {
            deposit,
            feed,
            plate: false,
            magnet: false,
        }
    }

    // The same with a plate.
    fn with_plate(self) -> CraneShare
        ensures { result ≡ record self { plate = true } }
    {
        CraneShare {
            plate: true,
            ..self
        }
    }

    // The same with the magnet on.
    fn with_magnet(self) -> CraneShare
        ensures { result ≡ record self { magnet = true } }
    {
        CraneShare {
            magnet: true,
            ..self
        }
    }
}

/// What the crane's sensors say after the check.
#[derive(Clone, Copy)]
pub struct CraneReading {
    /// The switches, which don't clash, and the raw value.
    pub sense: CraneSense,
    /// The height of the gripper, in tenths of a millimetre.
    pub gripper: i32,
    /// Whether the gripper is surely high enough to travel.
    pub high: bool,
}

impl CraneProgress {
    /// Whether the step is in step with a state: the zones, the plate and the magnet are as it keeps
    /// them.
    pub fn is_in_step(self, state: &State) -> bool
        ensures { result ≡ program.in_step self state.now }
    {
        let keeps = self.step.keeps();
        let zones = [(Zone::Z5, keeps.deposit), (Zone::Z6, keeps.feed)];
        are_kept(&zones, Machine::Crane, state)
            && (!keeps.plate || state.is_full(Place::Crane))
            && keeps.magnet == self.magnet
    }

    // The row of its step. An inquiry isn't done: it leads on by what it shows.
    #[inline(always)]
    fn row(self) -> Row<CraneProgress>
        ensures { result ≡ program.row_of self }
    {
        match self.step {
            CraneStep::RaiseToFetch => self.drives(CraneStep::TravelToDeposit),
            CraneStep::TravelToDeposit => self.drives(CraneStep::AwaitPlate),
            CraneStep::AwaitPlate => self.asks(Call::Inquire(Zone::Z5), CraneStep::AwaitPlate),
            CraneStep::LowerToPlate => self.drives(CraneStep::GripPlate),
            CraneStep::GripPlate => self.with_magnet(true).drives(CraneStep::RaiseWithPlate),
            CraneStep::RaiseWithPlate => self.drives(CraneStep::TakePlate),
            CraneStep::TakePlate => self.asks(Call::Take(Zone::Z5), CraneStep::ReleaseDeposit),
            CraneStep::ReleaseDeposit => {
                self.asks(Call::Release(Zone::Z5), CraneStep::TravelToFeed)
            }
            CraneStep::TravelToFeed => self.drives(CraneStep::ClaimFeed),
            CraneStep::ClaimFeed => self
                .asks(Call::Claim(Zone::Z6), CraneStep::LowerToFeed)
                .waits(Waits::UntilFreeAndOpen),
            CraneStep::LowerToFeed => self.drives(CraneStep::DropPlate),
            CraneStep::DropPlate => self.with_magnet(false).drives(CraneStep::RaiseFromFeed),
            CraneStep::RaiseFromFeed => self.drives(CraneStep::GivePlate),
            CraneStep::GivePlate => self.asks(Call::Give(Zone::Z6), CraneStep::RaiseToFetch),
        }
    }

    // The row of a step that asks, with its next step.
    #[inline(always)]
    fn asks(self, call: Call, next: CraneStep) -> Row<CraneProgress>
        ensures { result ≡ program.asks self call next }
    {
        Row::asks(call, CraneProgress { step: next, ..self })
    }

    // The row of a step that drives, or switches the magnet.
    #[inline(always)]
    fn drives(self, next: CraneStep) -> Row<CraneProgress>
        ensures { result ≡ program.drives self next }
    {
        Row::drives(CraneProgress { step: next, ..self })
    }

    // The same step with another note of its magnet.
    #[inline(always)]
    fn with_magnet(self, magnet: bool) -> CraneProgress
        ensures { result ≡ program.with_magnet self magnet }
    {
        CraneProgress { magnet, ..self }
    }
}

impl CraneStep {
    /// The steps, in the order of their numbers.
    pub const ALL: [CraneStep; 14] = [
        CraneStep::RaiseToFetch,
        CraneStep::TravelToDeposit,
        CraneStep::AwaitPlate,
        CraneStep::LowerToPlate,
        CraneStep::GripPlate,
        CraneStep::RaiseWithPlate,
        CraneStep::TakePlate,
        CraneStep::ReleaseDeposit,
        CraneStep::TravelToFeed,
        CraneStep::ClaimFeed,
        CraneStep::LowerToFeed,
        CraneStep::DropPlate,
        CraneStep::RaiseFromFeed,
        CraneStep::GivePlate,
    ];

    /// The step with this number; `None` if no step has it.
    pub fn with_number(number: u8) -> Option<CraneStep>
        ensures { result ≡ slice_get program.steps number }
    {
        CraneStep::ALL.get(usize::from(number)).copied()
    }

    /// The number of the step.
    pub fn number(self) -> u8
        ensures { result ≡ program.number_at self }
    {
        self as u8
    }

    /// The word of the step, as films show it.
    pub fn word(self) -> &'static str
        ensures { result.now ≡ program.word_at self }
    {
        match self {
            CraneStep::RaiseToFetch => "raise to fetch",
            CraneStep::TravelToDeposit => "travel to deposit",
            CraneStep::AwaitPlate => "await plate",
            CraneStep::LowerToPlate => "lower to plate",
            CraneStep::GripPlate => "grip plate",
            CraneStep::RaiseWithPlate => "raise with plate",
            CraneStep::TakePlate => "take plate",
            CraneStep::ReleaseDeposit => "release deposit",
            CraneStep::TravelToFeed => "travel to feed",
            CraneStep::ClaimFeed => "claim feed",
            CraneStep::LowerToFeed => "lower to feed",
            CraneStep::DropPlate => "drop plate",
            CraneStep::RaiseFromFeed => "raise from feed",
            CraneStep::GivePlate => "give plate",
        }
    }

    /// What the crane keeps at the step.
    pub fn keeps(self) -> CraneShare
        ensures { result ≡ program.keeps_at self }
    {
        let any = Share::Any.in_any_posture();
        let loaded = Share::Loaded.in_posture(Posture::OpenOut);
        let clear = Share::Clear.in_posture(Posture::OpenOut);
        let lent = Share::Lent.in_any_posture();
        let held = Share::Held.in_posture(Posture::OpenIn);
        match self {
            CraneStep::RaiseToFetch | CraneStep::TravelToDeposit | CraneStep::AwaitPlate => {
                CraneShare::new(any, lent)
            }
            CraneStep::LowerToPlate | CraneStep::GripPlate => CraneShare::new(loaded, lent),
            CraneStep::RaiseWithPlate | CraneStep::TakePlate => {
                CraneShare::new(loaded, lent).with_magnet()
            }
            CraneStep::ReleaseDeposit => { CraneShare::new(clear, lent).with_plate().with_magnet() }
            CraneStep::TravelToFeed | CraneStep::ClaimFeed => {
                CraneShare::new(any, lent).with_plate().with_magnet()
            }
            CraneStep::LowerToFeed | CraneStep::DropPlate => {
                CraneShare::new(any, held).with_plate().with_magnet()
            }
            CraneStep::RaiseFromFeed | CraneStep::GivePlate => {
                CraneShare::new(any, held).with_plate()
            }
        }
    }

    // The next step after an inquiry that showed this owner and this flag.
    fn after_inquiry(self, owner: Option<Machine>, flag: bool) -> CraneStep
        ensures { result ≡ program.step_after_inquiry self owner flag }
    {
        match (self, owner, flag) {
            (CraneStep::AwaitPlate, Some(Machine::Crane), true) => CraneStep::LowerToPlate,
            _ => self,
        }
    }

    // The height that the step drives the gripper to.
    fn gripper_stop(self) -> Option<Stop>
        ensures stop { result ≡ program.gripper_stop self }
        ensures half { IfSome result (λ s. narrowest_half ≤ s.half) }
    {
        match self {
            CraneStep::LowerToPlate => Some(GRIPPER_DEPOSIT),
            CraneStep::LowerToFeed => Some(GRIPPER_FEED),
            CraneStep::RaiseToFetch | CraneStep::RaiseWithPlate | CraneStep::RaiseFromFeed => {
                Some(GRIPPER_TRAVEL)
            }
            _ => None,
        }
    }

    // Whether the crane travels in the step.
    fn travels(self) -> bool
        ensures { result ≡ program.travels self }
    {
        matches!(self, CraneStep::TravelToDeposit | CraneStep::TravelToFeed)
    }

    // The travel motor's command in the step, by whether the gripper is high.
    fn travel(self, high: bool, crane: &CraneSense) -> Motor
        ensures { result ≡ program.travel_for self high crane.now }
    {
        match self {
            CraneStep::TravelToDeposit if high => crane_to_deposit(crane),
            CraneStep::TravelToFeed if high => crane_to_feed(crane),
            _ => Motor::Off,
        }
    }
}

/// The crane's program, with the calibration of its gripper's height.
#[derive(Drop)]
pub struct CraneProgram<F: Gauge> {
    gripper: Calibration<F>,
}

/// The crane's controller.
pub type CraneCtl<F> = Controller<CraneProgram<F>>;

impl<F: Gauge> CraneProgram<F> {
    /// The program with this calibration.
    pub fn new(gripper: Calibration<F>) -> CraneProgram<F>
        ensures { gripper_in result ≡ gripper }
    {
        CraneProgram { gripper }
    }
}

impl<F: Gauge> Program for CraneProgram<F> {
    type Progress = CraneProgress;

    type Sense = CraneSense;

    type Reading = CraneReading;

    type Act = CraneAct;

    ghost steps = { λ c. program.crane_steps c.gripper.points (λ raw v. F.gives c.gripper.gauge raw v) };

    fn start(&self, state: &State) -> CraneProgress {
        let loaded = state.is_full(Place::Crane);
        CraneProgress {
            step: if loaded {
                CraneStep::TravelToFeed
            } else {
                CraneStep::RaiseToFetch
            },
            magnet: loaded,
        }
    }

    #[inline(always)]
    fn row(&self, progress: CraneProgress) -> Row<CraneProgress> {
        progress.row()
    }

    fn after_inquiry(
        &self,
        progress: CraneProgress,
        owner: Option<Machine>,
        flag: bool,
        _posture: Posture,
    ) -> CraneProgress {
        CraneProgress {
            step: progress.step.after_inquiry(owner, flag),
            ..progress
        }
    }

    // inline, so that a turn that asks computes no reading
    #[inline(always)]
    fn check(&self, sense: &CraneSense) -> Result<CraneReading, SensorFault> {
        if let Err(fault) = sense.agree() {
            return Err(fault);
        }
        match self.gripper.read(sense.gripper) {
            Ok(gripper) => Ok(CraneReading {
                sense: *sense,
                gripper,
                high: is_high(&self.gripper, gripper),
            }),
            Err(fault) => Err(fault),
        }
    }

    fn drive(&self, progress: CraneProgress, reading: CraneReading) -> CraneAct {
        let step = progress.step;
        CraneAct {
            travel: step.travel(reading.high, &reading.sense),
            height: height(&self.gripper, step, reading.gripper),
            magnet: progress.row().next.magnet,
        }
    }

    fn after_drive(
        &self,
        progress: CraneProgress,
        reading: CraneReading,
        act: CraneAct,
    ) -> CraneProgress {
        let waits = progress.step.travels() && !reading.high;
        match (act.travel, act.height) {
            (Motor::Off, Motor::Off) if !waits => progress.row().next,
            _ => progress,
        }
    }

    fn rest(&self, progress: CraneProgress) -> CraneAct {
        CraneAct::at_rest(progress.magnet)
    }
}

// The height motor's command in a step.
fn height<F: Gauge>(gripper: &Calibration<F>, step: CraneStep, read: i32) -> Motor
    ensures { DrivesTo (program.gripper_stop step) gripper.now.points.tol read result }
{
    drive_to(step.gripper_stop(), gripper.tol(), read)
}

// Whether the gripper is surely high enough to travel.
fn is_high<F: Gauge>(gripper: &Calibration<F>, read: i32) -> bool
    ensures { IsTrue result ↔ ((travel_from +ℤ gripper.now.points.tol) ≤ℤ read) }
{
    is_travel_high(read, gripper.tol())
}
