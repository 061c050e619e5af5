//! Where plates are in the picture.

ghost use Rattle.std.specs.Prelude.{◌≡◌};
ghost use Rattle.cell_picture.specs.Spots as spots;

use crate::ramp::Ramp;
use cell_parts::RobotPlant;
use cell_plant::Frame;
use cell_rules::State;
use cell_types::{Place, Posture, Zone};

/// The number of stages on a plate's way.
const STAGES: usize = 17;

/// The position at which the light barrier of a belt begins.
const BARRIER: i32 = 900;

/// The position at which a plate leaves a belt.
const OFF: i32 = 1000;

/// How far right of the table a plate on the feed belt is, up to the light barrier.
const UP_TO_BARRIER: Ramp = Ramp {
    base: 350,
    rise: -160,
};

/// The same in the light barrier, by the position from there on.
const PAST_BARRIER: Ramp = Ramp {
    base: 62,
    rise: -310,
};

/// How far right of its entry a plate on the deposit belt is.
const ALONG_DEPOSIT: Ramp = Ramp { base: 0, rise: 175 };

/// How far from the robot's axis an arm's magnet is.
const ARM: Ramp = Ramp { base: 70, rise: 55 };

/// The direction of the first arm, in degrees.
const ROBOT_TURN: Ramp = Ramp {
    base: -30,
    rise: -50,
};

/// How far down the crane is from the deposit belt.
const CRANE_WAY: Ramp = Ramp { base: 0, rise: -59 };

/// Where a plate is: a way from the robot's axis in a direction, clockwise from the right, and then
/// a way to the right and down.
#[derive(Clone, Copy)]
pub(crate) struct Spot {
    /// The direction, in degrees.
    pub angle: i32,
    /// The way in this direction.
    pub reach: i32,
    /// The way to the right.
    pub right: i32,
    /// The way down.
    pub down: i32,
    /// Whether the plate is forged.
    pub is_forged: bool,
}

/// The direction of the first arm, in degrees.
pub(crate) fn arm1_angle(robot: &RobotPlant) -> i32
    ensures { result ≡ spots.arm1_angle robot.now }
{
    ROBOT_TURN.at(robot.rotation.position)
}

/// How far down the crane is from the deposit belt.
pub(crate) fn crane_way(frame: &Frame) -> i32
    ensures { result ≡ spots.crane_way frame.now }
{
    CRANE_WAY.at(frame.plant.crane.travel.position)
}

/// At the table, or this far right of it on the feed belt.
fn at_table(right: i32) -> Spot
    ensures { result ≡ spots.at_table right }
{
    Spot {
        angle: -60,
        reach: 136,
        right,
        down: 0,
        is_forged: false,
    }
}

/// At the deposit belt's entry, or from there this far right and down.
fn at_deposit(right: i32, down: i32) -> Spot
    ensures { result ≡ spots.at_deposit right down }
{
    Spot {
        angle: -300,
        reach: 136,
        right,
        down,
        is_forged: true,
    }
}

/// In the press.
fn in_press(is_forged: bool) -> Spot
    ensures { result ≡ spots.in_press is_forged }
{
    Spot {
        angle: -180,
        reach: 158,
        right: 0,
        down: 0,
        is_forged,
    }
}

/// The position of a plate on a belt; the entry if there is none.
fn or_entry(plate: Option<i32>) -> i32
    ensures { result ≡ spots.or_entry plate }
{
    plate.unwrap_or(0)
}

/// Whether a zone is open for a plate of the host.
fn is_open_out(posture: Posture) -> bool
    ensures { result ≡ spots.is_open_out posture }
{
    match posture {
        Posture::OpenOut => true,
        Posture::Closed | Posture::Moving | Posture::OpenIn => false,
    }
}

/// On the feed belt.
#[tactic(auto, unfolding(crate::specs::Spots::on_feed))]
fn on_feed(plate: Option<i32>) -> Spot
    ensures { result ≡ spots.on_feed plate }
{
    let position = or_entry(plate);
    let right = if position < BARRIER {
        UP_TO_BARRIER.at(position)
    } else {
        PAST_BARRIER.at(position.min(OFF).saturating_sub(BARRIER))
    };
    at_table(right)
}

/// On the deposit belt.
#[tactic(auto, unfolding(crate::specs::Spots::on_deposit))]
fn on_deposit(plate: Option<i32>) -> Spot
    ensures { result ≡ spots.on_deposit plate }
{
    let position = or_entry(plate);
    at_deposit(ALONG_DEPOSIT.at(position.min(OFF)), 0)
}

/// On the first arm while its magnet is on, else where it was put.
#[tactic(auto, unfolding(crate::specs::Spots::on_arm1))]
fn on_arm1(robot: &RobotPlant, put: Spot) -> Spot
    ensures { result ≡ spots.on_arm1 robot.now put }
{
    if !robot.magnet1 {
        return put;
    }
    Spot {
        angle: arm1_angle(robot),
        reach: ARM.at(robot.arm1.position),
        right: 0,
        down: 0,
        is_forged: false,
    }
}

/// On the second arm while its magnet is on, else where it was put.
#[tactic(auto, unfolding(crate::specs::Spots::on_arm2))]
fn on_arm2(robot: &RobotPlant, put: Spot) -> Spot
    ensures { result ≡ spots.on_arm2 robot.now put }
{
    if !robot.magnet2 {
        return put;
    }
    Spot {
        angle: arm1_angle(robot).saturating_sub(90),
        reach: ARM.at(robot.arm2.position),
        right: 0,
        down: 0,
        is_forged: true,
    }
}

/// At the gripper while its magnet is on, else where it was put.
#[tactic(auto, unfolding(crate::specs::Spots::at_gripper))]
fn at_gripper(frame: &Frame, put: Spot) -> Spot
    ensures { result ≡ spots.at_gripper frame.now put }
{
    if frame.plant.crane.magnet {
        at_deposit(350, crane_way(frame))
    } else {
        put
    }
}

/// At the feed belt's entry, where the gripper puts a plate, a blank again.
fn put_on_feed() -> Spot
    ensures { result ≡ spots.put_on_feed }
{
    Spot {
        is_forged: false,
        ..at_deposit(350, -236)
    }
}

/// Whether a plate is in the press that isn't on its way out.
#[tactic(auto, unfolding(crate::specs::Spots::comes_in))]
fn comes_in(state: &State) -> bool
    ensures { result ≡ spots.comes_in state.now }
{
    state.flag(Zone::Z3) && !is_open_out(state.posture(Zone::Z3))
}

/// Whether a plate is in the press that is on its way out.
#[tactic(auto, unfolding(crate::specs::Spots::goes_out))]
fn goes_out(state: &State) -> bool
    ensures { result ≡ spots.goes_out state.now }
{
    state.flag(Zone::Z3) && is_open_out(state.posture(Zone::Z3))
}

/// The stages of a plate's way from the feed belt's entry: whether a plate is there, and where that
/// is in the picture.
#[tactic(auto, unfolding(crate::specs::Spots::stages))]
fn stages(frame: &Frame) -> [(bool, Spot); STAGES]
    ensures { result ≡ spots.stages frame.now }
{
    let state = &frame.state;
    let plant = &frame.plant;
    let robot = &plant.robot;
    [
        (state.is_full(Place::FeedEntry), on_feed(plant.feed.entry)),
        (state.is_full(Place::FeedEnd), on_feed(plant.feed.last)),
        (state.flag(Zone::Z1), at_table(0)),
        (state.is_full(Place::Table), at_table(0)),
        (state.flag(Zone::Z2), on_arm1(robot, at_table(0))),
        (state.is_full(Place::Arm1), on_arm1(robot, in_press(false))),
        (comes_in(state), in_press(false)),
        (state.is_full(Place::PressIn), in_press(false)),
        (state.is_full(Place::PressOut), in_press(true)),
        (goes_out(state), on_arm2(robot, in_press(true))),
        (state.is_full(Place::Arm2), on_arm2(robot, at_deposit(0, 0))),
        (state.flag(Zone::Z4), at_deposit(0, 0)),
        (
            state.is_full(Place::DepEntry),
            on_deposit(plant.deposit.entry),
        ),
        (state.is_full(Place::DepEnd), on_deposit(plant.deposit.last)),
        (
            state.flag(Zone::Z5),
            at_gripper(frame, on_deposit(Some(OFF))),
        ),
        (
            state.is_full(Place::Crane),
            at_gripper(frame, put_on_feed()),
        ),
        (state.flag(Zone::Z6), put_on_feed()),
    ]
}

/// Where the plate with this number is, in the order of their way; `None` if there are fewer plates.
#[tactic(auto, unfolding(crate::specs::Spots::plate_spot))]
pub(crate) fn plate_spot(frame: &Frame, number: u32) -> Option<Spot>
    ensures { result ≡ spots.plate_spot frame.now number }
{
    nth_there(&stages(frame), number)
}

/// The spot of the stage with this number, of those with a plate.
fn nth_there(stages: &[(bool, Spot)], number: u32) -> Option<Spot>
    ensures { result ≡ spots.nth_there stages.now number }
{
    let mut rest = stages;
    let mut left = number;
    while let Some((stage, others)) = rest.split_first() {
        if stage.0 {
            if left == 0 {
                return Some(stage.1);
            }
            left -= 1;
        }
        rest = others;
    }
    None
}
