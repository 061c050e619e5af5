//! The sensors of each machine and of the whole cell, and why they can't be used.
ghost use Rattle.std.specs.Prelude.{◌≡◌, ◌↔◌, IsOk, Some};
ghost use Rattle.cell_sensors.specs.Faults.{sensor_fault_text};
ghost use Rattle.cell_sensors.specs.Sensors.{TableClashes, PressClashes, CraneClashes, SwitchesClash};
ghost use Rattle.cell_sensors.specs.Sensors.{feed_sense, table_sense, robot_sense, press_sense, deposit_sense};
ghost use Rattle.cell_sensors.specs.Sensors.{crane_sense};

use std::fmt;

/// Why a machine's sensors can't be used.
#[derive(Clone, Copy, Debug, PartialEq, Eq)]
pub enum SensorFault {
    /// A raw value is below the least of its calibration.
    Low,
    /// A raw value is above the greatest of its calibration.
    High,
    /// Two switches are on that exclude each other.
    Clash,
}

impl SensorFault {
    /// What is wrong, in words.
    pub fn text(self) -> &'static str
        ensures { result.now ≡ sensor_fault_text self }
    {
        match self {
            SensorFault::Low => "a raw value is below the least of its calibration",
            SensorFault::High => "a raw value is above the greatest of its calibration",
            SensorFault::Clash => "two switches are on that exclude each other",
        }
    }
}

impl fmt::Display for SensorFault {
    ghost output = { λ fault. Some (sensor_fault_text fault) };

    fn fmt<W: fmt::Write>(&self, f: &mut fmt::Formatter<W>) -> fmt::Result {
        f.write_str(self.text())
    }
}

/// The feed belt's sensors.
#[derive(Clone, Copy, PartialEq, Eq, Default)]
pub struct FeedSense {
    /// A plate is in the light barrier at the belt's end.
    pub barrier: bool,
}

/// The table's sensors.
#[derive(Clone, Copy, PartialEq, Eq, Default)]
pub struct TableSense {
    /// The switch at the bottom.
    pub bottom: bool,
    /// The switch at the top.
    pub top: bool,
    /// The raw value of the rotation.
    pub turn: u16,
}

/// The robot's sensors, all raw values.
#[derive(Clone, Copy, PartialEq, Eq, Default)]
pub struct RobotSense {
    /// The extension of the first arm.
    pub arm1: u16,
    /// The extension of the second arm.
    pub arm2: u16,
    /// The rotation.
    pub rotation: u16,
}

/// The press's sensors, all switches.
#[derive(Clone, Copy, Debug, PartialEq, Eq, Default)]
pub struct PressSense {
    /// At the bottom, where the second arm unloads.
    pub bottom: bool,
    /// At the middle, where the first arm loads.
    pub middle: bool,
    /// At the top, where it forges.
    pub top: bool,
}

/// The deposit belt's sensors.
#[derive(Clone, Copy, PartialEq, Eq, Default)]
pub struct DepositSense {
    /// A plate is in the light barrier at the belt's end.
    pub barrier: bool,
}

/// The crane's sensors.
#[derive(Clone, Copy, PartialEq, Eq, Default)]
pub struct CraneSense {
    /// The switch over the deposit belt.
    pub deposit: bool,
    /// The switch over the feed belt.
    pub feed: bool,
    /// The raw value of the gripper's height.
    pub gripper: u16,
}

impl TableSense {
    /// Checks the switches: `Clash` exactly if both ends are on.
    pub fn agree(&self) -> Result<(), SensorFault>
        ensures ok { IsOk result ↔ ¬ (TableClashes self.now) }
        ensures clash { (result ≡ Err SensorFault.Clash) ↔ TableClashes self.now }
    {
        if self.bottom && self.top {
            return Err(SensorFault::Clash);
        }
        Ok(())
    }
}

impl PressSense {
    /// Checks the switches: `Clash` exactly if two positions are on.
    pub fn agree(&self) -> Result<(), SensorFault>
        ensures ok { IsOk result ↔ ¬ (PressClashes self.now) }
        ensures clash { (result ≡ Err SensorFault.Clash) ↔ PressClashes self.now }
    {
        if (self.bottom && self.middle) || (self.bottom && self.top) || (self.middle && self.top) {
            return Err(SensorFault::Clash);
        }
        Ok(())
    }
}

impl CraneSense {
    /// Checks the switches: `Clash` exactly if both ends are on.
    pub fn agree(&self) -> Result<(), SensorFault>
        ensures ok { IsOk result ↔ ¬ (CraneClashes self.now) }
        ensures clash { (result ≡ Err SensorFault.Clash) ↔ CraneClashes self.now }
    {
        if self.deposit && self.feed {
            return Err(SensorFault::Clash);
        }
        Ok(())
    }
}

/// The fourteen sensors of the cell.
#[derive(Clone, Copy, Default)]
pub struct SensorVector {
    /// The press at its bottom.
    pub press_bottom: bool,
    /// The press at its middle.
    pub press_middle: bool,
    /// The press at its top.
    pub press_top: bool,
    /// The raw value of the first arm's extension.
    pub arm1: u16,
    /// The raw value of the second arm's extension.
    pub arm2: u16,
    /// The raw value of the robot's rotation.
    pub rotation: u16,
    /// The table at its bottom.
    pub table_bottom: bool,
    /// The table at its top.
    pub table_top: bool,
    /// The raw value of the table's rotation.
    pub table_turn: u16,
    /// The crane over the deposit belt.
    pub crane_deposit: bool,
    /// The crane over the feed belt.
    pub crane_feed: bool,
    /// The raw value of the gripper's height.
    pub gripper: u16,
    /// A plate in the light barrier at the end of the deposit belt.
    pub deposit_barrier: bool,
    /// A plate in the light barrier at the end of the feed belt.
    pub feed_barrier: bool,
}

impl SensorVector {
    /// The feed belt's sensors, out of the fourteen.
    pub fn feed(&self) -> FeedSense
        ensures { result ≡ feed_sense self.now }
    {
        FeedSense {
            barrier: self.feed_barrier,
        }
    }

    /// The table's sensors, out of the fourteen.
    pub fn table(&self) -> TableSense
        ensures { result ≡ table_sense self.now }
    {
        TableSense {
            bottom: self.table_bottom,
            top: self.table_top,
            turn: self.table_turn,
        }
    }

    /// The robot's sensors, out of the fourteen.
    pub fn robot(&self) -> RobotSense
        ensures { result ≡ robot_sense self.now }
    {
        RobotSense {
            arm1: self.arm1,
            arm2: self.arm2,
            rotation: self.rotation,
        }
    }

    /// The press's sensors, out of the fourteen.
    pub fn press(&self) -> PressSense
        ensures { result ≡ press_sense self.now }
    {
        PressSense {
            bottom: self.press_bottom,
            middle: self.press_middle,
            top: self.press_top,
        }
    }

    /// The deposit belt's sensors, out of the fourteen.
    pub fn deposit(&self) -> DepositSense
        ensures { result ≡ deposit_sense self.now }
    {
        DepositSense {
            barrier: self.deposit_barrier,
        }
    }

    /// The crane's sensors, out of the fourteen.
    pub fn crane(&self) -> CraneSense
        ensures { result ≡ crane_sense self.now }
    {
        CraneSense {
            deposit: self.crane_deposit,
            feed: self.crane_feed,
            gripper: self.gripper,
        }
    }
}

/// Checks the switches of the whole cell: `Clash` exactly if those of the press, the table or the
/// crane clash.
pub fn switches_agree(sensors: &SensorVector) -> Result<(), SensorFault>
    ensures ok { IsOk result ↔ ¬ (SwitchesClash sensors.now) }
    ensures clash { (result ≡ Err SensorFault.Clash) ↔ SwitchesClash sensors.now }
{
    sensors.press().agree()?;
    sensors.table().agree()?;
    sensors.crane().agree()
}
