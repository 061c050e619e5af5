//! A plan with motors and hazards that were checked.
ghost use Rattle.std.specs.Prelude.{◌≡◌, ◌<◌, ◌↔◌, Some, IsOk, IfOk, IfErr, length};
ghost use Rattle.plan_motors.specs.OfPlan as of_plan;
ghost use Rattle.plan_motors.specs.OfPlan.{AreMotorsOf};
ghost use Rattle.plan_motors.specs.MotorPlan.{motor_plan};
ghost use Rattle.plan_motors.specs.Faults.{first_fault};

use crate::check::{motor_at, motors_and_hazards_fault};
use crate::fault::MotorFault;
use crate::motor::{Hazard, Motor};
use plan_types::Plan;
use std::marker::Model;

/// A plan with its motors and hazards. Each is one that [`MotorPlan::new`] has accepted.
#[derive(Debug, Drop)]
pub struct MotorPlan {
    plan: Plan,
    motors: Vec<Motor>,
    hazards: Vec<Hazard>,
}

impl Model for MotorPlan {
    ghost use Rattle.plan_motors.specs.MotorPlan.{MotorTables, motor_plan};
    ghost use Rattle.plan_motors.specs.OfPlan.{AreMotorsOf};

    ghost Value = { MotorTables };

    ghost view = { λ a. motor_plan a.plan a.motors.items a.hazards.items };

    ghost invariant = { λ a. AreMotorsOf a.plan a.motors.items a.hazards.items };
}

impl MotorPlan {
    /// A plan with these motors and hazards, or the first fault of them if they don't fit it.
    pub fn new(
        plan: Plan,
        motors: Vec<Motor>,
        hazards: Vec<Hazard>,
    ) -> Result<MotorPlan, MotorFault>
        ensures ok { IsOk result ↔ AreMotorsOf plan motors.items hazards.items }
        ensures same { IfOk result (λ made. made ≡ motor_plan plan motors.items hazards.items) }
        ensures fault { IfErr result (λ fault. first_fault plan motors.items hazards.items ≡ Some fault) }
    {
        match motors_and_hazards_fault(&plan, &motors, &hazards) {
            Some(fault) => Err(fault),
            None => Ok(MotorPlan {
                plan,
                motors,
                hazards,
            }),
        }
    }

    /// The plan.
    pub fn plan(&self) -> &Plan
        ensures plan { result.now ≡ self.now.plan }
        ensures fits { AreMotorsOf self.now.plan self.now.motors self.now.hazards }
    {
        &self.plan
    }

    /// The motors.
    pub fn motors(&self) -> &[Motor]
        ensures { result.now ≡ self.now.motors }
    {
        &self.motors
    }

    /// The hazards.
    pub fn hazards(&self) -> &[Hazard]
        ensures { result.now ≡ self.now.hazards }
    {
        &self.hazards
    }

    /// A motor by its number; one that needs nothing if there is no such motor.
    pub fn motor(&self, motor: usize) -> Motor
        ensures { result ≡ of_plan.motor_at self.now.motors motor }
    {
        motor_at(&self.motors, motor)
    }
}
