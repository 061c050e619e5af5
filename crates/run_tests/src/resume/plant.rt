//! Six simulated machines: axes, belts, and what their sensors show. They keep their positions
//! while the power is off.

use cell_devices::{CraneAct, DepositAct, FeedAct, Motor, PressAct, RobotAct, TableAct};
use cell_sensors::{CraneSense, DepositSense, FeedSense, PressSense, RobotSense, TableSense};

/// How far an axis goes in a turn.
const STEP: u16 = 20;

/// An axis that goes from 0 to its end.
#[derive(Clone, Copy)]
struct Axis {
    at: u16,
    end: u16,
}

impl Axis {
    fn new(at: u16, end: u16) -> Axis {
        Axis { at, end }
    }

    fn is_between(&self, first: u16, last: u16) -> bool {
        first <= self.at && self.at <= last
    }

    fn drive(&mut self, motor: Motor) {
        self.at = match motor {
            Motor::Off => self.at,
            Motor::Plus => self.at.saturating_add(STEP).min(self.end),
            Motor::Minus => self.at.saturating_sub(STEP),
        };
    }
}

/// A belt that carries one plate at a time past a light barrier.
#[derive(Clone, Copy)]
struct Belt {
    plate: u16,
}

impl Belt {
    fn barrier(&self) -> bool {
        (900..=999).contains(&self.plate)
    }

    fn run(&mut self, runs: bool) {
        if runs {
            self.plate = self.plate.saturating_add(STEP);
        } else if self.plate > 999 {
            self.plate = 0;
        }
    }
}

/// The positions of all parts.
#[derive(Clone, Copy)]
pub struct Plant {
    feed: Belt,
    deposit: Belt,
    height: Axis,
    turn: Axis,
    arm1: Axis,
    arm2: Axis,
    rotation: Axis,
    press: Axis,
    travel: Axis,
    gripper: Axis,
}

impl Plant {
    /// The plant where the programs begin.
    pub fn new() -> Plant {
        Plant {
            feed: Belt { plate: 0 },
            deposit: Belt { plate: 0 },
            height: Axis::new(0, 600),
            turn: Axis::new(0, 500),
            arm1: Axis::new(0, 1000),
            arm2: Axis::new(0, 1000),
            rotation: Axis::new(300, 2000),
            press: Axis::new(1000, 1000),
            travel: Axis::new(0, 2000),
            gripper: Axis::new(900, 1000),
        }
    }

    /// The positions of the axes, in the order of reports.
    pub fn axes(&self) -> [i32; 8] {
        [
            i32::from(self.press.at),
            i32::from(self.arm1.at),
            i32::from(self.arm2.at),
            i32::from(self.rotation.at),
            i32::from(self.height.at),
            i32::from(self.turn.at),
            i32::from(self.travel.at),
            i32::from(self.gripper.at),
        ]
    }

    pub fn feed_sense(&self) -> FeedSense {
        FeedSense {
            barrier: self.feed.barrier(),
        }
    }

    pub fn table_sense(&self) -> TableSense {
        TableSense {
            bottom: self.height.is_between(0, 10),
            top: self.height.is_between(590, 600),
            turn: self.turn.at,
        }
    }

    pub fn robot_sense(&self) -> RobotSense {
        RobotSense {
            arm1: self.arm1.at,
            arm2: self.arm2.at,
            rotation: self.rotation.at,
        }
    }

    pub fn press_sense(&self) -> PressSense {
        PressSense {
            bottom: self.press.is_between(0, 10),
            middle: self.press.is_between(490, 510),
            top: self.press.is_between(990, 1000),
        }
    }

    pub fn deposit_sense(&self) -> DepositSense {
        DepositSense {
            barrier: self.deposit.barrier(),
        }
    }

    pub fn crane_sense(&self) -> CraneSense {
        CraneSense {
            deposit: self.travel.is_between(0, 10),
            feed: self.travel.is_between(1990, 2000),
            gripper: self.gripper.at,
        }
    }

    pub fn set_feed(&mut self, act: FeedAct) {
        self.feed.run(act.belt);
    }

    pub fn set_table(&mut self, act: TableAct) {
        self.height.drive(act.height);
        self.turn.drive(act.rotation);
    }

    pub fn set_robot(&mut self, act: RobotAct) {
        self.arm1.drive(act.arm1);
        self.arm2.drive(act.arm2);
        self.rotation.drive(act.rotation);
    }

    pub fn set_press(&mut self, act: PressAct) {
        self.press.drive(act.press);
    }

    pub fn set_deposit(&mut self, act: DepositAct) {
        self.deposit.run(act.belt);
    }

    pub fn set_crane(&mut self, act: CraneAct) {
        self.travel.drive(act.travel);
        self.gripper.drive(act.height);
    }
}
