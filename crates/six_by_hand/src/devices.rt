//! The sensors and actuators of the six machines, as somebody built them who knows nothing of the
//! simulated plant.

ghost use Rattle.std.specs.Prelude.{◌≡◌};
ghost use Rattle.six_by_hand.specs.Devices as devices;

use crate::axis::{Axis, STEP};
use cell_control::Commands;
use cell_devices::{CraneAct, DepositAct, FeedAct, PressAct, RobotAct, TableAct};
use cell_renewal::Devices;
use cell_sensors::{CraneSense, DepositSense, FeedSense, PressSense, RobotSense, TableSense};

// Where a plate is when it enters its belt's light barrier, and where it is last in it.
const BARRIER_FIRST: u16 = 900;

const BARRIER_LAST: u16 = 999;

/// A belt that carries one plate at a time past a light barrier.
#[derive(Clone, Copy, Debug, Drop)]
pub struct Belt {
    // How far the belt has carried its plate, in tenths of a millimetre.
    plate: u16,
}

impl Belt {
    /// A belt with a plate at its entry, or one that waits for its plate.
    pub fn new() -> Belt {
        Belt { plate: 0 }
    }

    fn barrier(&self) -> bool
        ensures { result ≡ devices.is_in_barrier self.now }
    {
        (BARRIER_FIRST..=BARRIER_LAST).contains(&self.plate)
    }

    // Runs for a turn. When it stops after the barrier, its plate has left, and the next one comes.
    fn run(&mut self, runs: bool)
        ensures { self.new ≡ devices.carried runs self.old }
    {
        if runs {
            self.plate = self.plate.saturating_add(STEP);
        } else if self.plate > BARRIER_LAST {
            self.plate = 0;
        }
    }
}

/// The feed belt.
#[derive(Drop)]
pub struct FeedBelt(pub Belt);

impl Devices for FeedBelt {
    ghost use Rattle.std.specs.Prelude.{◌≡◌, Some};
    ghost use Rattle.six_by_hand.specs.Devices.{carried, feed_sense};

    type Sense = FeedSense;

    type Act = FeedAct;

    ghost shows = { λ old sense new. (sense ≡ Some (feed_sense old.0)) × (new ≡ old) };

    ghost sets = { λ old told new. new.0 ≡ carried told.act.belt old.0 };

    fn read(&mut self) -> Option<FeedSense> {
        Some(FeedSense {
            barrier: self.0.barrier(),
        })
    }

    fn set(&mut self, told: &Commands<FeedAct>) {
        self.0.run(told.act.belt);
    }
}

/// The deposit belt.
#[derive(Drop)]
pub struct DepositBelt(pub Belt);

impl Devices for DepositBelt {
    ghost use Rattle.std.specs.Prelude.{◌≡◌, Some};
    ghost use Rattle.six_by_hand.specs.Devices.{carried, deposit_sense};

    type Sense = DepositSense;

    type Act = DepositAct;

    ghost shows = { λ old sense new. (sense ≡ Some (deposit_sense old.0)) × (new ≡ old) };

    ghost sets = { λ old told new. new.0 ≡ carried told.act.belt old.0 };

    fn read(&mut self) -> Option<DepositSense> {
        Some(DepositSense {
            barrier: self.0.barrier(),
        })
    }

    fn set(&mut self, told: &Commands<DepositAct>) {
        self.0.run(told.act.belt);
    }
}

/// The elevating rotary table.
#[derive(Drop)]
pub struct Table {
    height: Axis,
    turn: Axis,
}

impl Table {
    /// The table where its program begins: at the bottom, turned to the feed belt.
    pub fn at_start() -> Table {
        Table {
            height: Axis::new(0, 600),
            turn: Axis::new(0, 500),
        }
    }
}

impl Devices for Table {
    ghost use Rattle.std.specs.Prelude.{◌≡◌, Some};
    ghost use Rattle.six_by_hand.specs.Devices.{table_after, table_sense};

    type Sense = TableSense;

    type Act = TableAct;

    ghost shows = { λ old sense new. (sense ≡ Some (table_sense old)) × (new ≡ old) };

    ghost sets = { λ old told new. new ≡ table_after told.act old };

    fn read(&mut self) -> Option<TableSense> {
        Some(TableSense {
            bottom: self.height.is_between(0, 10),
            top: self.height.is_between(590, 600),
            turn: self.turn.at(),
        })
    }

    fn set(&mut self, told: &Commands<TableAct>) {
        self.height.drive(told.act.height);
        self.turn.drive(told.act.rotation);
    }
}

/// The robot. Its magnets have no sensors.
#[derive(Drop)]
pub struct Robot {
    arm1: Axis,
    arm2: Axis,
    rotation: Axis,
}

impl Robot {
    /// The robot where its program begins: both arms in, turned to the table.
    pub fn at_start() -> Robot {
        Robot {
            arm1: Axis::new(0, 1000),
            arm2: Axis::new(0, 1000),
            rotation: Axis::new(300, 2000),
        }
    }
}

impl Devices for Robot {
    ghost use Rattle.std.specs.Prelude.{◌≡◌, Some};
    ghost use Rattle.six_by_hand.specs.Devices.{robot_after, robot_sense};

    type Sense = RobotSense;

    type Act = RobotAct;

    ghost shows = { λ old sense new. (sense ≡ Some (robot_sense old)) × (new ≡ old) };

    ghost sets = { λ old told new. new ≡ robot_after told.act old };

    fn read(&mut self) -> Option<RobotSense> {
        Some(RobotSense {
            arm1: self.arm1.at(),
            arm2: self.arm2.at(),
            rotation: self.rotation.at(),
        })
    }

    fn set(&mut self, told: &Commands<RobotAct>) {
        self.arm1.drive(told.act.arm1);
        self.arm2.drive(told.act.arm2);
        self.rotation.drive(told.act.rotation);
    }
}

/// The press.
#[derive(Drop)]
pub struct Press {
    height: Axis,
}

impl Press {
    /// The press where its program begins: at the top.
    pub fn at_start() -> Press {
        Press {
            height: Axis::new(1000, 1000),
        }
    }
}

impl Devices for Press {
    ghost use Rattle.std.specs.Prelude.{◌≡◌, Some};
    ghost use Rattle.six_by_hand.specs.Devices.{press_after, press_sense};

    type Sense = PressSense;

    type Act = PressAct;

    ghost shows = { λ old sense new. (sense ≡ Some (press_sense old)) × (new ≡ old) };

    ghost sets = { λ old told new. new ≡ press_after told.act old };

    fn read(&mut self) -> Option<PressSense> {
        Some(PressSense {
            bottom: self.height.is_between(0, 10),
            middle: self.height.is_between(490, 510),
            top: self.height.is_between(990, 1000),
        })
    }

    fn set(&mut self, told: &Commands<PressAct>) {
        self.height.drive(told.act.press);
    }
}

/// The travelling crane. Its magnet has no sensor.
#[derive(Drop)]
pub struct Crane {
    travel: Axis,
    gripper: Axis,
}

impl Crane {
    /// The crane where its program begins: over the deposit belt, its gripper up.
    pub fn at_start() -> Crane {
        Crane {
            travel: Axis::new(0, 2000),
            gripper: Axis::new(900, 1000),
        }
    }
}

impl Devices for Crane {
    ghost use Rattle.std.specs.Prelude.{◌≡◌, Some};
    ghost use Rattle.six_by_hand.specs.Devices.{crane_after, crane_sense};

    type Sense = CraneSense;

    type Act = CraneAct;

    ghost shows = { λ old sense new. (sense ≡ Some (crane_sense old)) × (new ≡ old) };

    ghost sets = { λ old told new. new ≡ crane_after told.act old };

    fn read(&mut self) -> Option<CraneSense> {
        Some(CraneSense {
            deposit: self.travel.is_between(0, 10),
            feed: self.travel.is_between(1990, 2000),
            gripper: self.gripper.at(),
        })
    }

    fn set(&mut self, told: &Commands<CraneAct>) {
        self.travel.drive(told.act.travel);
        self.gripper.drive(told.act.height);
    }
}
