//! The step in a line of a program.
ghost use Rattle.std.specs.Prelude.{◌≡◌, ◌<◌, ◌++◌, codes, is_none, Some, IfOk, IfSome};
ghost use Rattle.plan_text.specs.Calls.{verb_word};
ghost use Rattle.plan_document.specs.Saying as saying;

use crate::fault::{DocumentFault, Location, Never, WrongText};
use crate::motors::NamedMotors;
use crate::refusals::faults_in;
use plan_controller::{Faults, Step};
use plan_motors::MAX_MOTORS;
use plan_text::calls::Verb;
use plan_text::{NamedPlan, Names};
use plan_types::{Call, Plan, Posture, Transfer};
use std::alloc::Global;

/// How a line begins that waits.
const AWAIT: &str = "await ";

/// How a line begins that runs motors.
const RUN: &str = "run ";

/// What stands between the motors of a line and its sensor.
const UNTIL: &str = " until ";

/// What stands between a call and the refusals that stop its machine.
const OR_STOP_ON: &str = " or stop on ";

/// How a line ends that has none after it.
const OR_STOP: &str = " or stop on";

/// The step in a line of a program. Motors are looked up only if they are given; without them a step runs none.
pub fn step_in(
    alloc: Global,
    line: &str,
    machine: u8,
    named: &NamedPlan,
    sensors: &Names,
    motors: Option<&NamedMotors>,
    at: Location,
) -> Result<Step, DocumentFault>
    ensures { IfOk result (λ step. IfSome motors.entry (λ known.
        saying.IsStepOf named.now known.now sensors.now machine line.now step)) }
{
    if let Some(name) = line.strip_prefix(AWAIT) {
        return await_in(alloc, line, name, machine, named, sensors, at);
    }
    if let Some(words) = line.strip_prefix(RUN) {
        return run_in(alloc, line, words, machine, sensors, motors, at);
    }
    asks_in(alloc, line, machine, named, at)
}

// ---- waits and runs

/// The step of a line that waits: for a sensor, or for a zone of the machine.
fn await_in(
    alloc: Global,
    line: &str,
    name: &str,
    machine: u8,
    named: &NamedPlan,
    sensors: &Names,
    at: Location,
) -> Result<Step, DocumentFault>
    ensures { IfOk result (saying.Awaits named.now sensors.now machine name.now) }
{
    if let Some(until) = sensors.number_of(name.as_bytes()) {
        return Ok(Step::Run { motors: 0, until });
    }
    match named.zones().number_of(name.as_bytes()) {
        Some(zone) if named.plan().is_party(machine, zone) => Ok(Step::Await(zone)),
        Some(_) => Err(at.text_fault(alloc, WrongText::Never(Never::NoParty), line)),
        None if names_faults(name) => Err(at.text_fault(alloc, WrongText::NoCall, line)),
        None => Err(at.text_fault(alloc, WrongText::NoZoneOrSensor, name)),
    }
}

/// The step of a line that runs motors until a sensor shows.
fn run_in(
    alloc: Global,
    line: &str,
    words: &str,
    machine: u8,
    sensors: &Names,
    motors: Option<&NamedMotors>,
    at: Location,
) -> Result<Step, DocumentFault>
    ensures { IfOk result (λ step. IfSome motors.entry (λ known.
        saying.Runs known.now sensors.now machine words.now step)) }
{
    let Some((names, sensor)) = motors_and_sensor(words) else {
        return Err(at.text_fault(alloc, WrongText::NoStep, line));
    };
    let Some(until) = sensors.number_of(sensor.as_bytes()) else {
        return Err(no_sensor(alloc, line, sensor, at));
    };
    let motors = match motors {
        Some(motors) => motors_in(alloc, names, machine, motors, at)?,
        None => 0,
    };
    Ok(Step::Run { motors, until })
}

/// The fault of a line that runs motors until no sensor of the machine shows.
fn no_sensor(alloc: Global, line: &str, sensor: &str, at: Location) -> DocumentFault {
    if names_faults(sensor) {
        at.text_fault(alloc, WrongText::NoCall, line)
    } else {
        at.text_fault(alloc, WrongText::NoSensor, sensor)
    }
}

/// The motors that a line runs, and its sensor: what stands before the last `until` and after it.
fn motors_and_sensor(words: &str) -> Option<(&str, &str)>
    ensures { IfSome result (λ found. words.now ≡ found.0.now ++ codes " until " ++ found.1.now) }
{
    words.rsplit_once(UNTIL)
}

/// The motors with these names, each by its bit. A machine runs its own alone.
fn motors_in(
    alloc: Global,
    names: &str,
    machine: u8,
    motors: &NamedMotors,
    at: Location,
) -> Result<u64, DocumentFault>
    ensures { IfOk result (saying.AreMotorsIn motors.now machine names.now) }
{
    let mut bits = 0;
    let mut rest = names;
    'names: while let Some((name, more)) = rest.split_once(' ') {
        bits |= 1 << motor_in(alloc, name, machine, motors, at)?;
        rest = more;
    }
    Ok(bits | 1 << motor_in(alloc, rest, machine, motors, at)?)
}

/// The number of a motor of the machine by its name.
fn motor_in(
    alloc: Global,
    name: &str,
    machine: u8,
    motors: &NamedMotors,
    at: Location,
) -> Result<u8, DocumentFault>
    ensures number { IfOk result (λ motor.
        saying.own_motor motors.now machine name.now ≡ Some motor) }
    ensures few { IfOk result (λ motor. motor < 64) }
{
    match own_motor(motors, machine, name) {
        Some(motor) if usize::from(motor) < MAX_MOTORS => Ok(motor),
        _ => Err(at.text_fault(alloc, WrongText::NoOwnMotor, name)),
    }
}

/// The number of a motor by its name, if it is the machine's.
fn own_motor(motors: &NamedMotors, machine: u8, name: &str) -> Option<u8>
    ensures { result ≡ saying.own_motor motors.now machine name.now }
{
    let motor = motors.names.number_of(name.as_bytes())?;
    match motors.motors.get(usize::from(motor)) {
        Some(row) if row.machine == machine => Some(motor),
        _ => None,
    }
}

// ---- calls

/// The step of a line that asks: a call, and the refusals that stop its machine.
fn asks_in(
    alloc: Global,
    line: &str,
    machine: u8,
    named: &NamedPlan,
    at: Location,
) -> Result<Step, DocumentFault>
    ensures { IfOk result (saying.Asks named.now machine line.now) }
{
    if let Some((ask, words)) = ask_and_words(line) {
        let call = call_in(alloc, ask, machine, named, at)?;
        if words.is_empty() {
            return Err(at.text_fault(alloc, WrongText::NoRefusals, line));
        }
        let faults = faults_in(alloc, words, at)?;
        return Ok(Step::Do(call, faults));
    }
    if let Some(ask) = line.strip_suffix(OR_STOP) {
        call_in(alloc, ask, machine, named, at)?;
        return Err(at.text_fault(alloc, WrongText::NoRefusals, line));
    }
    let call = call_in(alloc, line, machine, named, at)?;
    Ok(Step::Do(call, Faults::none()))
}

/// What a line asks, and the words after that for the refusals that stop its machine.
fn ask_and_words(line: &str) -> Option<(&str, &str)>
    ensures { IfSome result (λ found. line.now
        ≡ found.0.now ++ codes " or stop on " ++ found.1.now) }
{
    line.split_once(OR_STOP_ON)
}

/// Whether a text says that refusals stop a machine.
fn names_faults(text: &str) -> bool {
    text.contains(OR_STOP_ON) || text.ends_with(OR_STOP)
}

/// The call that a line of a program asks. No program inquires.
fn call_in(
    alloc: Global,
    line: &str,
    machine: u8,
    named: &NamedPlan,
    at: Location,
) -> Result<Call, DocumentFault>
    ensures { IfOk result (saying.IsCallOf named.now machine line.now) }
{
    let Some((verb, name)) = verb_and_name(line) else {
        return Err(at.text_fault(alloc, WrongText::NoStep, line));
    };
    if verb == Verb::Inquire {
        return Err(at.text_fault(alloc, WrongText::NoStep, line));
    }
    match own_call(named, machine, verb, name) {
        Some(call) => match never(named.plan(), machine, call) {
            None => Ok(call),
            Some(why) => Err(at.text_fault(alloc, WrongText::Never(why), line)),
        },
        None => Err(at.text_fault(alloc, unknown(verb), name)),
    }
}

/// Why a machine's call is never done, if it never is.
fn never(plan: &Plan, machine: u8, call: Call) -> Option<Never>
    ensures { is_none result ≡ saying.may_be_done plan.now machine call }
{
    match call {
        Call::Claim(zone) | Call::Yield(zone) | Call::Release(zone) => {
            (!plan.is_party(machine, zone)).then_some(Never::NoParty)
        }
        Call::Give(zone) => (!gives_plates(plan, machine, zone)).then_some(Never::GivesNothing),
        Call::Take(zone) => (!takes_plates(plan, machine, zone)).then_some(Never::TakesNothing),
        Call::SetPose(pose) => (!plan.has_pose(machine, pose)).then_some(Never::NoPose),
        Call::Advance(place) => (!plan.has_end(machine, place)).then_some(Never::NoEnd),
        Call::Inquire(_) | Call::Stop | Call::Resume => None,
    }
}

/// Whether plates go through a zone from a machine.
fn gives_plates(plan: &Plan, machine: u8, zone: u8) -> bool
    ensures { result ≡ saying.gives_plates plan.now machine zone }
{
    is_from(machine, plan.transfer(zone, Posture::OpenIn))
        || is_from(machine, plan.transfer(zone, Posture::OpenOut))
}

fn is_from(machine: u8, way: Option<Transfer>) -> bool
    ensures { result ≡ saying.is_from machine way }
{
    match way {
        Some(way) => way.giver == machine,
        None => false,
    }
}

/// Whether plates go through a zone to a machine.
fn takes_plates(plan: &Plan, machine: u8, zone: u8) -> bool
    ensures { result ≡ saying.takes_plates plan.now machine zone }
{
    is_to(machine, plan.transfer(zone, Posture::OpenIn))
        || is_to(machine, plan.transfer(zone, Posture::OpenOut))
}

fn is_to(machine: u8, way: Option<Transfer>) -> bool
    ensures { result ≡ saying.is_to machine way }
{
    match way {
        Some(way) => way.receiver == machine,
        None => false,
    }
}

/// What is wrong with a name that no zone has, no place, or no pose of the machine.
fn unknown(verb: Verb) -> WrongText {
    match verb {
        Verb::Pose => WrongText::NoPose,
        Verb::Advance => WrongText::NoPlace,
        _ => WrongText::NoZone,
    }
}

/// The verb in a line of a program, and what it is about.
fn verb_and_name(line: &str) -> Option<(Verb, &str)>
    ensures { IfSome result (λ found.
        line.now ≡ verb_word found.0 ++ codes " " ++ found.1.now) }
{
    let (word, name) = line.split_once(' ')?;
    Some((Verb::read(word.as_bytes())?, name))
}

/// What a machine asks with a verb about a name: of poses its own alone.
fn own_call(named: &NamedPlan, machine: u8, verb: Verb, name: &str) -> Option<Call>
    ensures { result ≡ saying.own_call named.now machine verb name.now }
{
    match verb {
        Verb::Pose => Some(Call::SetPose(named.own_pose(machine, name.as_bytes())?)),
        verb => named.call(machine, verb, name.as_bytes()),
    }
}
