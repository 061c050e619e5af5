//! A drive to a stop, the tests of arms and gripper, and the positions of the stops.

use cell_devices::stops::*;
use cell_devices::{Motor, drive, is_retracted, is_travel_high};

const STOP: Stop = Stop {
    target: 600,
    half: 40,
};

// Readings, and the motor's command.
const TOWARDS: &[(i32, Motor)] = &[
    (564, Motor::Plus),
    (565, Motor::Off),
    (635, Motor::Off),
    (636, Motor::Minus),
    (i32::MIN, Motor::Plus),
    (i32::MAX, Motor::Minus),
];

#[test]
fn drives_stop_at_their_windows(rt: HostRuntime) {
    for (read, motor) in TOWARDS {
        assert!(rt; drive(STOP, 5, *read) == *motor, "at {read}");
    }
    let is_at_ends = is_retracted(45, 5) && !is_retracted(46, 5);
    assert!(rt; is_at_ends && is_travel_high(805, 5) && !is_travel_high(804, 5));
}

const STOPS: &[(Stop, i32, u16)] = &[
    (ROTATION_ARM1_TABLE, 300, 40),
    (ROTATION_ARM2_PRESS, 600, 40),
    (ROTATION_ARM1_PRESS, 1500, 40),
    (ROTATION_ARM2_DEPOSIT, 1800, 40),
    (ARM1_TABLE, 600, 40),
    (ARM1_PRESS, 800, 40),
    (ARM2_PRESS, 800, 40),
    (ARM2_DEPOSIT, 600, 40),
    (RETRACTED, 0, 40),
    (TURN_LOADING, 0, 20),
    (TURN_UNLOADING, 500, 20),
    (GRIPPER_DEPOSIT, 100, 50),
    (GRIPPER_FEED, 300, 50),
    (GRIPPER_TRAVEL, 900, 50),
];

#[test]
fn stops_at_the_tables_positions(rt: HostRuntime) {
    for (stop, target, half) in STOPS {
        assert!(rt; stop.target == *target && stop.half == *half, "{target}");
    }
}
