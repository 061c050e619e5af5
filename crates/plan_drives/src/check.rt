//! Whether a program runs only motors of which its machine knows, by its own done calls, all that they need.
ghost use Rattle.std.specs.Prelude.{◌≡◌, ◌<◌, ◌↔◌, ℕ, IsNone, IfSome, Some};
ghost use Rattle.plan_drives.specs.Program as programs;
ghost use Rattle.plan_drives.specs.Program.{IsDriven, IsBackedAt};
ghost use Rattle.plan_drives.specs.Facts as knowledge;
ghost use Rattle.plan_drives.specs.declared.line.Line.TheVariants.{Run};
ghost use Rattle.plan_drives.specs.Lacking as lacking;
ghost use Rattle.plan_drives.specs.Lacking.{IsUndriven};

use crate::facts::{facts_after_line, no_facts};
use crate::line::Line;
use crate::undriven::{Lack, Undriven};
use plan_motors::{Motor, MotorPlan, ZoneNeed};
use plan_types::Posture;

fn posture_follows(known: Option<Posture>, needed: Option<Posture>) -> bool
    ensures { result ≡ programs.posture_follows known needed }
{
    match needed {
        None => true,
        Some(needed) => known == Some(needed),
    }
}

fn is_known_as(known: Option<bool>, full: bool) -> bool
    ensures { result ≡ programs.is_known_as known full }
{
    match known {
        None => false,
        Some(true) => full,
        Some(false) => !full,
    }
}

fn posture_lack(zone: u8, known: Option<Posture>, needed: Option<Posture>) -> Option<Lack>
    ensures { result ≡ lacking.posture_lack zone known needed }
{
    match needed {
        None => None,
        Some(needed) => {
            let lack = Lack::NotInPosture {
                zone,
                needed,
                known,
            };
            (!posture_follows(known, Some(needed))).then_some(lack)
        }
    }
}

fn zone_lack(zone: u8, known: ZoneNeed, need: ZoneNeed) -> Option<Lack>
    ensures { result ≡ lacking.zone_lack zone known need }
{
    (need.holds && !known.holds)
        .then_some(Lack::NotHeld(zone))
        .or(posture_lack(zone, known.posture, need.posture))
}

fn place_lack(place: u8, known: Option<bool>, needed: Option<bool>) -> Option<Lack>
    ensures { result ≡ lacking.place_lack place known needed }
{
    match needed {
        None => None,
        Some(needed) => {
            let lack = Lack::NotFilled {
                place,
                needed,
                known,
            };
            (!is_known_as(known, needed)).then_some(lack)
        }
    }
}

#[tactic(auto, using(plan_types::proofs::lemmas::Below::first_below_more))]
fn zones_lack(plan: &MotorPlan, known: &Motor, motor: &Motor) -> Option<Lack>
    ensures { result ≡ lacking.zones_lack plan.now known.now motor.now }
{
    let mut first = None;
    for zone in 0..plan.plan().zone_count() {
        first = first.or(zone_lack(zone, known.zone_need(zone), motor.zone_need(zone)));
    }
    first
}

#[tactic(auto, using(plan_types::proofs::lemmas::Below::first_below_more))]
fn places_lack(plan: &MotorPlan, known: &Motor, motor: &Motor) -> Option<Lack>
    ensures { result ≡ lacking.places_lack plan.now known.now motor.now }
{
    let mut first = None;
    for place in 0..plan.plan().place_count() {
        first = first.or(place_lack(place, known.place_need(place), motor.place_need(place)));
    }
    first
}

fn machine_lack(known: &Motor, motor: &Motor) -> Option<Lack>
    ensures { result ≡ lacking.machine_lack known.now motor.now }
{
    (motor.machine != known.machine).then_some(Lack::OtherMachine(motor.machine))
}

/// What a motor needs, by its number, and isn't known.
fn motor_lack(plan: &MotorPlan, known: &Motor, motor: u8) -> Option<Lack>
    ensures { result ≡ lacking.motor_lack plan.now known.now motor }
{
    let number = usize::from(motor);
    let motor = plan.motor(number);
    (number >= plan.motors().len())
        .then_some(Lack::NoSuchMotor)
        .or(machine_lack(known, &motor))
        .or(zones_lack(plan, known, &motor))
        .or(places_lack(plan, known, &motor))
}

fn has_bit(motors: u64, motor: u8) -> bool
    ensures { result ≡ programs.has_bit motors motor }
{
    motor < 64 && motors >> motor & 1 == 1
}

fn undriven_motor(
    plan: &MotorPlan,
    known: &Motor,
    line: usize,
    motors: u64,
    motor: u8,
) -> Option<Undriven>
    ensures { result ≡ lacking.undriven_motor plan.now known.now line motors motor }
{
    let lack = if has_bit(motors, motor) {
        motor_lack(plan, known, motor)
    } else {
        None
    };
    lack.map(|lack| Undriven { line, motor, lack })
}

/// The first of these motors that lacks something.
#[tactic(auto, using(plan_types::proofs::lemmas::Below::first_below_more))]
fn first_motor(plan: &MotorPlan, known: &Motor, line: usize, motors: u64) -> Option<Undriven>
    ensures { result ≡ lacking.undriven_line plan.now known.now line (Run motors) }
{
    let mut first = None;
    for motor in 0..64 {
        first = first.or(undriven_motor(plan, known, line, motors, motor));
    }
    first
}

/// The first motor of a line that lacks something.
fn undriven_line(plan: &MotorPlan, known: &Motor, number: usize, line: Line) -> Option<Undriven>
    ensures { result ≡ lacking.undriven_line plan.now known.now number line }
{
    match line {
        Line::Do(_) | Line::Await(_) => None,
        Line::Run(motors) => first_motor(plan, known, number, motors),
    }
}

/// The first line of a machine's program that runs a motor which isn't its own, or needs what the machine doesn't know
/// there; `None` if there is no such line. After a `None` the laws of `laws` hold of the program.
pub fn first_undriven(plan: &MotorPlan, machine: u8, program: &[Line]) -> Option<Undriven>
    ensures none { IsNone result ↔ IsDriven plan.now machine program.now }
    ensures why { IfSome result (λ found. IsUndriven plan.now machine program.now found) }
    ensures first { IfSome result
        (λ found. (k : ℕ) → k < found.line → IsBackedAt plan.now machine program.now k) }
{
    let mut known = no_facts(machine);
    for line in 0..program.len() {
        if let Some(found) = undriven_line(plan, &known, line, program[line]) {
            return Some(found);
        }
        known = facts_after_line(plan.plan(), &known, program[line]);
    }
    None
}
