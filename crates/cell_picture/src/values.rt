//! What an animated attribute has of a frame.

ghost use Rattle.std.specs.Prelude.{◌≡◌, Some};
ghost use Rattle.cell_picture.specs.Values as values;

use crate::plates::{Spot, arm1_angle, crane_way, plate_spot};
use crate::ramp::Ramp;
use cell_plant::Frame;
use cell_types::{Machine, Zone};
use std::fmt;

/// The table's rotation, in degrees.
const TABLE_TURN: Ramp = Ramp { base: 0, rise: 120 };

/// The table's height.
const TABLE_HEIGHT: Ramp = Ramp {
    base: 124,
    rise: -40,
};

/// The press's height.
const PRESS_HEIGHT: Ramp = Ramp {
    base: 444,
    rise: -38,
};

/// How far an arm is extended.
const ARM: Ramp = Ramp { base: 0, rise: 55 };

/// The gripper's height.
const GRIPPER_HEIGHT: Ramp = Ramp {
    base: 312,
    rise: -70,
};

/// What an animated attribute has of a frame.
#[derive(Clone, Copy)]
pub(crate) enum Value {
    /// How wide the feed belt's edge is: wide while it runs.
    FeedEdge,
    /// How wide the deposit belt's edge is: wide while it runs.
    DepositEdge,
    /// The colour of a zone's owner.
    OwnerColour(Zone),
    /// The table's rotation.
    TableTurn,
    /// The table's height.
    TableHeight,
    /// The press's height.
    PressHeight,
    /// The robot's rotation.
    RobotTurn,
    /// The first arm's extension.
    Arm1,
    /// The second arm's extension.
    Arm2,
    /// The crane's travel.
    CraneWay,
    /// The gripper's height.
    GripperHeight,
    /// How far the plate is from where its direction and reach lead.
    PlateShift,
    /// The direction from the robot's axis to the plate.
    PlateAngle,
    /// How far the plate is in this direction.
    PlateReach,
    /// 1 if the plate is forged.
    PlateForged,
}

/// A value of an animated attribute.
#[derive(Clone, Copy)]
pub(crate) enum Shown {
    /// No value: there is no such plate.
    Nothing,
    /// A colour.
    Word(&'static str),
    /// A number.
    Number(i32),
    /// A way to the right and down.
    Shift(i32, i32),
}

impl Value {
    /// The value at a frame; that of a plate, of the plate with this number.
    #[tactic(auto, unfolding(crate::specs::Values::value_text))]
    pub(crate) fn of(self, number: u32, frame: &Frame) -> Shown
        ensures { values.shown_text result ≡ values.value_text self number frame.now }
    {
        let plant = &frame.plant;
        match self {
            Value::FeedEdge => Shown::Number(edge(plant.feed.runs)),
            Value::DepositEdge => Shown::Number(edge(plant.deposit.runs)),
            Value::OwnerColour(zone) => Shown::Word(colour(frame.state.owner(zone))),
            Value::TableTurn => Shown::Number(TABLE_TURN.at(plant.table.turn.position)),
            Value::TableHeight => Shown::Number(TABLE_HEIGHT.at(plant.table.lift.position)),
            Value::PressHeight => Shown::Number(PRESS_HEIGHT.at(plant.press.position)),
            Value::RobotTurn => Shown::Number(arm1_angle(&plant.robot)),
            Value::Arm1 => Shown::Number(ARM.at(plant.robot.arm1.position)),
            Value::Arm2 => Shown::Number(ARM.at(plant.robot.arm2.position)),
            Value::CraneWay => Shown::Shift(0, crane_way(frame)),
            Value::GripperHeight => Shown::Number(GRIPPER_HEIGHT.at(plant.crane.gripper.position)),
            Value::PlateShift | Value::PlateAngle | Value::PlateReach | Value::PlateForged =>
                match plate_spot(frame, number) {
                    Some(spot) => self.of_plate(spot),
                    None => Shown::Nothing,
                },
        }
    }

    /// The value of a plate that is here.
    fn of_plate(self, spot: Spot) -> Shown
        ensures { values.shown_text result ≡ values.spot_text self spot }
    {
        match self {
            Value::PlateShift => Shown::Shift(spot.right, spot.down),
            Value::PlateAngle => Shown::Number(spot.angle),
            Value::PlateReach => Shown::Number(spot.reach),
            Value::PlateForged => Shown::Number(one_if(spot.is_forged)),
            _ => Shown::Nothing,
        }
    }
}

impl fmt::Display for Shown {
    ghost output = { λ shown. Some (values.shown_text shown) };

    fn fmt<W: fmt::Write>(&self, f: &mut fmt::Formatter<W>) -> fmt::Result {
        match self {
            Shown::Nothing => f.write_str(""),
            Shown::Word(word) => f.write_str(word),
            Shown::Number(number) => write!(f, "{number}"),
            Shown::Shift(right, down) => write!(f, "{right} {down}"),
        }
    }
}

/// How wide a belt's edge is.
fn edge(runs: bool) -> i32
    ensures { result ≡ values.edge runs }
{
    if runs { 5 } else { 1 }
}

/// 1 for true.
fn one_if(holds: bool) -> i32
    ensures { result ≡ values.one_if holds }
{
    if holds { 1 } else { 0 }
}

/// The colour of an owner; grey if there is none.
fn colour(owner: Option<Machine>) -> &'static str
    ensures { result.now ≡ values.colour owner }
{
    match owner {
        None => "#ccc",
        Some(Machine::Feed) => "#07b",
        Some(Machine::Table) => "#0a7",
        Some(Machine::Robot) => "#ea0",
        Some(Machine::Press) => "#d50",
        Some(Machine::Deposit) => "#c7a",
        Some(Machine::Crane) => "#5be",
        Some(Machine::Watch) => "#999",
    }
}
