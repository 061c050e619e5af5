//! The faults of motors and hazards.
ghost use Rattle.std.specs.Prelude.{◌≡◌, ◌↔◌, ◌<◌, IsNone, length};
ghost use Rattle.plan_types.specs.Below.{first_below};
ghost use Rattle.plan_types.specs.Table as table;
ghost use Rattle.plan_motors.specs.Faults as faults;
ghost use Rattle.plan_motors.specs.OfPlan as of_plan;
ghost use Rattle.plan_motors.specs.OfPlan.{AreMotorsOf};

use crate::exclusion::first_cause;
use crate::fault::MotorFault;
use crate::motor::{Hazard, Motor, NO_NEED, ZoneNeed};
use plan_types::{MAX_PLACES, MAX_ZONES, Plan};

/// The most motors.
pub const MAX_MOTORS: usize = 64;

const NO_MOTOR: Motor = Motor {
    machine: 0,
    zones: [NO_NEED; MAX_ZONES],
    places: [None; MAX_PLACES],
};

const NO_HAZARD: Hazard = Hazard {
    first: 0,
    second: 0,
};

fn unless(holds: bool, fault: MotorFault) -> Option<MotorFault>
    ensures { result ≡ faults.unless holds fault }
{
    (!holds).then_some(fault)
}

/// A motor by its number; one that needs nothing if there is no such motor.
pub(crate) fn motor_at(motors: &[Motor], motor: usize) -> Motor
    ensures { result ≡ of_plan.motor_at motors.now motor }
{
    if motor < motors.len() {
        motors[motor]
    } else {
        NO_MOTOR
    }
}

pub(crate) fn hazard_at(hazards: &[Hazard], hazard: usize) -> Hazard
    ensures { result ≡ of_plan.hazard_at hazards.now hazard }
{
    if hazard < hazards.len() {
        hazards[hazard]
    } else {
        NO_HAZARD
    }
}

fn is_needed(need: ZoneNeed) -> bool
    ensures { result ≡ of_plan.is_needed need }
{
    need.holds || need.posture.is_some()
}

pub(crate) fn is_hosted(plan: &Plan, zone: u8, machine: u8) -> bool
    ensures { result ≡ table.is_hosted plan.now zone machine }
{
    zone < plan.zone_count() && plan.zone(zone).host == machine
}

fn is_place_of(plan: &Plan, place: u8, machine: u8) -> bool
    ensures { result ≡ table.is_place_of plan.now place machine }
{
    place < plan.place_count() && plan.keeper(place) == machine
}

fn need_fault(plan: &Plan, motor: &Motor, number: usize, zone: u8) -> Option<MotorFault>
    ensures { result ≡ faults.need_fault plan.now motor.now number zone }
{
    let need = motor.zone_need(zone);
    let shared = !is_needed(need) || plan.is_party(motor.machine, zone);
    let kept = need.posture.is_none() || need.holds || is_hosted(plan, zone, motor.machine);
    let at = usize::from(zone);
    unless(
        shared,
        MotorFault::ForeignZone {
            motor: number,
            zone: at,
        },
    )
    .or(unless(
        kept,
        MotorFault::NotHeld {
            motor: number,
            zone: at,
        },
    ))
}

#[tactic(auto, using(plan_types::proofs::lemmas::Below::first_below_more))]
fn needs_fault(plan: &Plan, motor: &Motor, number: usize) -> Option<MotorFault>
    ensures { result ≡ first_below (faults.need_fault plan.now motor.now number) 10 }
{
    let mut first = None;
    for zone in 0..10 {
        first = first.or(need_fault(plan, motor, number, zone));
    }
    first
}

fn place_fault(plan: &Plan, motor: &Motor, number: usize, place: u8) -> Option<MotorFault>
    ensures { result ≡ faults.place_fault plan.now motor.now number place }
{
    let own = motor.place_need(place).is_none() || is_place_of(plan, place, motor.machine);
    unless(
        own,
        MotorFault::ForeignPlace {
            motor: number,
            place: usize::from(place),
        },
    )
}

#[tactic(auto, using(plan_types::proofs::lemmas::Below::first_below_more))]
fn places_fault(plan: &Plan, motor: &Motor, number: usize) -> Option<MotorFault>
    ensures { result ≡ first_below (faults.place_fault plan.now motor.now number) 16 }
{
    let mut first = None;
    for place in 0..16 {
        first = first.or(place_fault(plan, motor, number, place));
    }
    first
}

fn motor_fault(plan: &Plan, motor: &Motor, number: usize) -> Option<MotorFault>
    ensures { result ≡ faults.motor_fault plan.now motor.now number }
{
    let known = motor.machine < plan.machines();
    let runs = first_cause(plan, motor, motor).is_none();
    unless(known, MotorFault::NoSuchMachine { motor: number })
        .or(needs_fault(plan, motor, number))
        .or(places_fault(plan, motor, number))
        .or(unless(runs, MotorFault::NeverPermitted { motor: number }))
}

#[tactic(auto, using(plan_types::proofs::lemmas::Below::first_below_more))]
fn motors_fault(plan: &Plan, motors: &[Motor]) -> Option<MotorFault>
    ensures { result
        ≡ first_below (λ k. faults.motor_fault plan.now (of_plan.motor_at motors.now k) k) (length motors.now) }
{
    let mut first = None;
    for motor in 0..motors.len() {
        first = first.or(motor_fault(plan, &motor_at(motors, motor), motor));
    }
    first
}

fn hazard_fault(motors: usize, hazard: Hazard, number: usize) -> Option<MotorFault>
    ensures { result ≡ faults.hazard_fault motors hazard number }
{
    let first = usize::from(hazard.first) < motors;
    let second = usize::from(hazard.second) < motors;
    unless(first, MotorFault::NoSuchFirst { hazard: number }).or(unless(
        second,
        MotorFault::NoSuchSecond { hazard: number },
    ))
}

#[tactic(auto, using(plan_types::proofs::lemmas::Below::first_below_more))]
fn hazards_fault(motors: usize, hazards: &[Hazard]) -> Option<MotorFault>
    ensures { result
        ≡ first_below (λ k. faults.hazard_fault motors (of_plan.hazard_at hazards.now k) k) (length hazards.now) }
{
    let mut first = None;
    for hazard in 0..hazards.len() {
        first = first.or(hazard_fault(motors, hazard_at(hazards, hazard), hazard));
    }
    first
}

/// The first fault of motors and hazards of a plan, or `None` if they fit it.
pub fn motors_and_hazards_fault(
    plan: &Plan,
    motors: &[Motor],
    hazards: &[Hazard],
) -> Option<MotorFault>
    ensures first { result ≡ faults.first_fault plan.now motors.now hazards.now }
    ensures none { IsNone result ↔ AreMotorsOf plan.now motors.now hazards.now }
{
    let _ = plan.machines();
    unless(motors.len() <= MAX_MOTORS, MotorFault::TooManyMotors)
        .or(motors_fault(plan, motors))
        .or(hazards_fault(motors.len(), hazards))
}
