//! What the robot keeps at each step of its program, and the numbers of its steps.

ghost use Rattle.std.specs.Prelude.{◌≡◌, slice_get};
ghost use Rattle.cell_robot.specs.RobotKeeps as program;

use crate::robot::{RobotMagnets, RobotNotes, RobotProgress, RobotStep};
use cell_control::{Share, ZoneShare, are_kept};
use cell_rules::State;
use cell_types::{Machine, Place, Posture, Zone};

/// What the robot keeps at a step.
#[derive(Clone, Copy, Debug, PartialEq, Eq)]
pub struct RobotShare {
    /// Its share of the zone of the table.
    pub table: ZoneShare,
    /// Its share of the press's interior.
    pub interior: ZoneShare,
    /// Its share of the zone of the deposit belt.
    pub deposit: ZoneShare,
    /// Its plates.
    pub plates: RobotPlates,
    /// The magnet of its first arm.
    pub arm1: Grip,
    /// The magnet of its second arm.
    pub arm2: Grip,
}

/// The plates on the robot's arms and in the press.
#[derive(Clone, Copy, Debug, PartialEq, Eq)]
pub enum RobotPlates {
    /// Any.
    Any,
    /// One on its first arm, and none that it brought in the press.
    Unforged,
    /// One that it brought in the press.
    InPress,
    /// One on its second arm.
    Forged,
}

/// The magnet of an arm.
#[derive(Clone, Copy, Debug, PartialEq, Eq)]
pub enum Grip {
    /// It is on.
    On,
    /// It is off.
    Off,
    /// It is on while the arm has a plate.
    WithPlate,
}

impl RobotShare {
    // Where it shares no zone.
    fn away(plates: RobotPlates) -> RobotShare
        ensures { result ≡ program.away plates }
    {
        RobotShare {
            table: Share::Any.in_any_posture(),
            interior: Share::Lent.in_any_posture(),
            deposit: Share::Lent.in_any_posture(),
            plates,
            arm1: Grip::WithPlate,
            arm2: Grip::WithPlate,
        }
    }

    // At the table.
    fn at_table(table: ZoneShare) -> RobotShare
        ensures { result ≡ program.at_table table }
    {
        RobotShare {
            table,
            ..RobotShare::away(RobotPlates::Any)
        }
    }

    // In the press.
    fn in_press(interior: ZoneShare, plates: RobotPlates) -> RobotShare
        ensures { result ≡ program.in_press interior plates }
    {
        RobotShare {
            interior,
            ..RobotShare::away(plates)
        }
    }

    // At the deposit belt.
    fn at_deposit(deposit: ZoneShare) -> RobotShare
        ensures { result ≡ program.at_deposit deposit }
    {
        RobotShare {
            deposit,
            ..RobotShare::away(RobotPlates::Forged)
        }
    }

    // The same with the first magnet on or off.
    fn with_arm1(self, arm1: Grip) -> RobotShare
        ensures { result ≡ program.with_arm1 arm1 self }
    {
        RobotShare { arm1, ..self }
    }

    // The same with the second magnet on or off.
    fn with_arm2(self, arm2: Grip) -> RobotShare
        ensures { result ≡ program.with_arm2 arm2 self }
    {
        RobotShare { arm2, ..self }
    }
}

impl RobotPlates {
    /// Whether there are these plates, by the robot's notes.
    pub fn are_there(self, notes: RobotNotes) -> bool
        ensures { result ≡ program.are_there self notes.arm1 notes.arm2 notes.fed }
    {
        match self {
            RobotPlates::Any => true,
            RobotPlates::Unforged => notes.arm1 && !notes.fed,
            RobotPlates::InPress => notes.fed,
            RobotPlates::Forged => notes.arm2,
        }
    }
}

impl Grip {
    /// Whether the magnet is on, by whether the arm has a plate.
    pub fn is_on(self, loaded: bool) -> bool
        ensures { result ≡ program.is_on self loaded }
    {
        match self {
            Grip::On => true,
            Grip::Off => false,
            Grip::WithPlate => loaded,
        }
    }
}

impl RobotStep {
    /// The steps, in the order of their numbers.
    pub const ALL: [RobotStep; 28] = [
        RobotStep::TurnToTable,
        RobotStep::AwaitPlate,
        RobotStep::ReachTable,
        RobotStep::GripPlate,
        RobotStep::LeaveTable,
        RobotStep::TakePlate,
        RobotStep::ReleaseTable,
        RobotStep::TurnToLoad,
        RobotStep::ClaimPress,
        RobotStep::InspectPress,
        RobotStep::ReleasePress,
        RobotStep::ReachToLoad,
        RobotStep::DropInPress,
        RobotStep::LeaveLoaded,
        RobotStep::GiveToPress,
        RobotStep::TurnToUnload,
        RobotStep::AwaitForged,
        RobotStep::ReachToUnload,
        RobotStep::GripForged,
        RobotStep::LeaveUnloaded,
        RobotStep::TakeForged,
        RobotStep::ReleaseUnloaded,
        RobotStep::TurnToDeposit,
        RobotStep::ClaimDeposit,
        RobotStep::ReachDeposit,
        RobotStep::DropOnDeposit,
        RobotStep::LeaveDeposit,
        RobotStep::GiveToDeposit,
    ];

    /// The step with this number; `None` if no step has it.
    pub fn with_number(number: u8) -> Option<RobotStep>
        ensures { result ≡ slice_get program.steps number }
    {
        pick(&RobotStep::ALL, number)
    }

    /// The number of the step.
    pub fn number(self) -> u8
        ensures { result ≡ program.number_at self }
    {
        self as u8
    }

    /// The word of the step, as films show it.
    pub fn word(self) -> &'static str
        ensures { result.now ≡ program.word_at self }
    {
        match self {
            RobotStep::TurnToTable => "turn to table",
            RobotStep::AwaitPlate => "await plate",
            RobotStep::ReachTable => "reach table",
            RobotStep::GripPlate => "grip plate",
            RobotStep::LeaveTable => "leave table",
            RobotStep::TakePlate => "take plate",
            RobotStep::ReleaseTable => "release table",
            RobotStep::TurnToLoad => "turn to load",
            RobotStep::ClaimPress => "claim press",
            RobotStep::InspectPress => "inspect press",
            RobotStep::ReleasePress => "release press",
            RobotStep::ReachToLoad => "reach to load",
            RobotStep::DropInPress => "drop in press",
            RobotStep::LeaveLoaded => "leave loaded",
            RobotStep::GiveToPress => "give to press",
            RobotStep::TurnToUnload => "turn to unload",
            RobotStep::AwaitForged => "await forged",
            RobotStep::ReachToUnload => "reach to unload",
            RobotStep::GripForged => "grip forged",
            RobotStep::LeaveUnloaded => "leave unloaded",
            RobotStep::TakeForged => "take forged",
            RobotStep::ReleaseUnloaded => "release unloaded",
            RobotStep::TurnToDeposit => "turn to deposit",
            RobotStep::ClaimDeposit => "claim deposit",
            RobotStep::ReachDeposit => "reach deposit",
            RobotStep::DropOnDeposit => "drop on deposit",
            RobotStep::LeaveDeposit => "leave deposit",
            RobotStep::GiveToDeposit => "give to deposit",
        }
    }

    /// What the robot keeps at the step.
    pub fn keeps(self) -> RobotShare
        ensures { result ≡ program.keeps_at self }
    {
        let loaded = Share::Loaded.in_posture(Posture::OpenOut);
        let clear = Share::Clear.in_posture(Posture::OpenOut);
        let held = Share::Held.in_posture(Posture::OpenIn);
        let claimed = Share::Held.in_any_posture();
        let with_plate = RobotShare::away(RobotPlates::Unforged);
        let while_fed = RobotShare::away(RobotPlates::InPress);
        let with_forged = RobotShare::away(RobotPlates::Forged);
        let at_table = RobotShare::at_table(loaded);
        let inspecting = RobotShare::in_press(claimed, RobotPlates::Unforged);
        let loading = RobotShare::in_press(held, RobotPlates::Unforged);
        let unloading = RobotShare::in_press(loaded, RobotPlates::InPress);
        let at_deposit = RobotShare::at_deposit(held);
        match self {
            RobotStep::TurnToTable | RobotStep::AwaitPlate => RobotShare::away(RobotPlates::Any),
            RobotStep::ReachTable | RobotStep::GripPlate => at_table,
            RobotStep::LeaveTable | RobotStep::TakePlate => at_table.with_arm1(Grip::On),
            RobotStep::ReleaseTable => RobotShare::at_table(clear),
            RobotStep::TurnToLoad | RobotStep::ClaimPress => with_plate,
            RobotStep::InspectPress | RobotStep::ReleasePress => inspecting,
            RobotStep::ReachToLoad | RobotStep::DropInPress => loading,
            RobotStep::LeaveLoaded | RobotStep::GiveToPress => loading.with_arm1(Grip::Off),
            RobotStep::TurnToUnload | RobotStep::AwaitForged => while_fed,
            RobotStep::ReachToUnload | RobotStep::GripForged => unloading,
            RobotStep::LeaveUnloaded | RobotStep::TakeForged => unloading.with_arm2(Grip::On),
            RobotStep::ReleaseUnloaded => RobotShare::in_press(clear, RobotPlates::Any),
            RobotStep::TurnToDeposit | RobotStep::ClaimDeposit => with_forged,
            RobotStep::ReachDeposit | RobotStep::DropOnDeposit => at_deposit,
            RobotStep::LeaveDeposit | RobotStep::GiveToDeposit => at_deposit.with_arm2(Grip::Off),
        }
    }

    /// The step, with the notes and the magnets that it has in a state.
    pub fn standing(self, state: &State) -> RobotProgress
        ensures { result ≡ program.standing self state.now }
    {
        let notes = notes_of(state);
        let keeps = self.keeps();
        RobotProgress {
            step: self,
            notes,
            magnets: RobotMagnets {
                arm1: keeps.arm1.is_on(notes.arm1),
                arm2: keeps.arm2.is_on(notes.arm2),
            },
        }
    }
}

impl RobotProgress {
    /// Whether the step is in step with a state: the zones, plates, notes and magnets are as it keeps
    /// them.
    pub fn is_in_step(self, state: &State) -> bool
        ensures { result ≡ program.in_step self state.now }
    {
        let keeps = self.step.keeps();
        let zones = [
            (Zone::Z2, keeps.table),
            (Zone::Z3, keeps.interior),
            (Zone::Z4, keeps.deposit),
        ];
        are_kept(&zones, Machine::Robot, state)
            && keeps.plates.are_there(self.notes)
            && is_noted(self.notes, state)
            && keeps.arm1.is_on(self.notes.arm1) == self.magnets.arm1
            && keeps.arm2.is_on(self.notes.arm2) == self.magnets.arm2
    }
}

// Whether the notes agree with the arms and with the press.
fn is_noted(notes: RobotNotes, state: &State) -> bool
    ensures { result ≡ program.is_noted notes state.now }
{
    state.is_full(Place::Arm1) == notes.arm1
        && state.is_full(Place::Arm2) == notes.arm2
        && plates_inside(state) == u8::from(notes.fed)
}

// What the state says of the robot's notes.
fn notes_of(state: &State) -> RobotNotes
    ensures { result ≡ program.notes_of state.now }
{
    RobotNotes {
        arm1: state.is_full(Place::Arm1),
        arm2: state.is_full(Place::Arm2),
        fed: plates_inside(state) == 1,
    }
}

// The plates in the press, and in its zone on their way into it or out of it.
fn plates_inside(state: &State) -> u8
    ensures { result ≡ program.inside state.now }
{
    u8::from(state.is_full(Place::PressIn))
        + u8::from(state.is_full(Place::PressOut))
        + u8::from(state.flag(Zone::Z3))
}

// The item with this number.
fn pick<T: Copy>(items: &[T], number: u8) -> Option<T>
    ensures { result ≡ slice_get items.now number }
{
    items.get(usize::from(number)).copied()
}
