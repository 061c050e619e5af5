//! The machines' programs: the steps in their lines.
ghost use Rattle.std.specs.Prelude.{◌≡◌, map, IfOk, IfSome};
ghost use Rattle.std.specs.List.{AllZip, filter_map};
ghost use Rattle.plan_document.specs.Names.{AreDistinct, numbered, sensor_identifiers, sensor_names};
ghost use Rattle.plan_document.specs.Saying as saying;

use crate::document::{Document, MachineRow};
use crate::fault::{DocumentFault, Key, RowOf, Wrong, too_many};
use crate::lines::step_in;
use crate::motors::NamedMotors;
use crate::sensors::{all_sensors_of, sensors_of};
use crate::tables::number_of;
use plan_controller::Step;
use plan_explorer::{MAX_STEPS, ProgramFault, Programs};
use plan_text::{NamedPlan, Names};
use plan_types::{Call, MAX_MACHINES};
use std::alloc::{AllocError, Global};

/// Refuses sensors and lines of programs that are wrong whatever the motors are, and programs that are too long.
pub fn check_programs(
    alloc: Global,
    document: &Document,
    named: &NamedPlan,
) -> Result<(), DocumentFault> {
    steps_of(alloc, &document.machines, named, None)?;
    for machine in 0..document.machines.len() {
        if document.machines[machine].program.len() > MAX_STEPS {
            return Err(too_long(machine));
        }
    }
    Ok(())
}

/// The sensors of each machine, its steps, and what they ask, by the names of a plan and of its motors, or the first
/// fault.
pub fn programs_of(
    alloc: Global,
    document: &Document,
    named: &NamedPlan,
    motors: &NamedMotors,
) -> Result<(Vec<Names>, Vec<Vec<Step>>, Programs), DocumentFault>
    ensures sensors { IfOk result (λ all.
        all.0.items ≡ sensor_names document.now.machines.items) }
    ensures distinct { IfOk result (λ all.
        AreDistinct (sensor_identifiers document.now.machines.items)) }
    ensures steps { IfOk result (λ all. AllZip (saying.IsProgramOf named.now motors.now)
        (numbered document.now.machines.items) (map (λ steps. steps.items) all.1.items)) }
    ensures programs { IfOk result (λ all.
        all.2 ≡ map (λ steps. saying.calls_of steps.items) all.1.items) }
{
    let sensors = all_sensors_of(alloc, &document.machines, named.zones())?;
    let steps = steps_of(alloc, &document.machines, named, Some(motors))?;
    match Programs::new(all_calls_of(alloc, &steps)?) {
        Ok(programs) => Ok((sensors, steps, programs)),
        Err(fault) => Err(program_fault(sensors, steps, fault)),
    }
}

/// The steps in the lines of each machine's program.
fn steps_of(
    alloc: Global,
    machines: &[MachineRow],
    named: &NamedPlan,
    motors: Option<&NamedMotors>,
) -> Result<Vec<Vec<Step>>, DocumentFault>
    ensures { IfOk result (λ lists. IfSome motors.entry (λ known.
        AllZip (saying.IsProgramOf named.now known.now) (numbered machines.now)
        (map (λ list. list.items) lists.items))) }
{
    let mut lists = Vec::new(alloc);
    for i in 0..machines.len() {
        let steps = program_in(alloc, &machines[i], i, named, motors)?;
        lists.push(steps)?;
    }
    Ok(lists)
}

/// The steps of a machine's program.
fn program_in(
    alloc: Global,
    row: &MachineRow,
    machine: usize,
    named: &NamedPlan,
    motors: Option<&NamedMotors>,
) -> Result<Vec<Step>, DocumentFault>
    ensures { IfOk result (λ steps. IfSome motors.entry (λ known.
        saying.IsProgramOf named.now known.now (machine, row.now) steps.items)) }
{
    let sensors = sensors_of(alloc, row, machine, named.zones())?;
    steps_in(alloc, &row.program, machine, named, &sensors, motors)
}

/// The steps in the lines of a machine's program.
fn steps_in(
    alloc: Global,
    lines: &[String],
    machine: usize,
    named: &NamedPlan,
    sensors: &Names,
    motors: Option<&NamedMotors>,
) -> Result<Vec<Step>, DocumentFault>
    ensures { IfOk result (λ steps. IfSome motors.entry (λ known.
        saying.AreStepsOf named.now known.now sensors.now machine lines.now steps.items)) }
{
    let row_at = RowOf::Machine(machine);
    let number = number_of(machine, row_at.key(Key::Program))?;
    let mut steps = Vec::new(alloc);
    for item in 0..lines.len() {
        let at = row_at.item(Key::Program, item);
        let line = lines[item].as_str();
        let step = step_in(alloc, line, number, named, sensors, motors, at)?;
        steps.push(step)?;
    }
    Ok(steps)
}

/// What the steps of each machine ask.
fn all_calls_of(alloc: Global, programs: &[Vec<Step>]) -> Result<Vec<Vec<Call>>, AllocError>
    ensures { IfOk result (λ lists. map (λ list. list.items) lists.items
        ≡ map (λ steps. saying.calls_of steps.items) programs.now) }
{
    let mut lists = Vec::new(alloc);
    for i in 0..programs.len() {
        lists.push(calls_of(alloc, &programs[i])?)?;
    }
    Ok(lists)
}

/// What steps ask.
fn calls_of(alloc: Global, steps: &[Step]) -> Result<Vec<Call>, AllocError>
    ensures { IfOk result (λ calls. calls.items ≡ saying.calls_of steps.now) }
{
    steps
        .iter()
        .filter_map(|step| call_of_step(*step))
        .collect(alloc)
}

/// What a step asks: an inquiry if it waits for a zone, and nothing if it runs motors or waits for a sensor.
pub(crate) fn call_of_step(step: Step) -> Option<Call>
    ensures { result ≡ saying.asked step }
{
    match step {
        Step::Do(call, _) => Some(call),
        Step::Await(zone) => Some(Call::Inquire(zone)),
        Step::Run { .. } => None,
    }
}

/// The fault of programs in words of the document, without the sensors and the steps, which end here.
fn program_fault(
    _sensors: Vec<Names>,
    _steps: Vec<Vec<Step>>,
    fault: ProgramFault,
) -> DocumentFault {
    calls_fault(fault)
}

/// The fault of what machines ask, in words of the document.
pub(crate) fn calls_fault(fault: ProgramFault) -> DocumentFault {
    match fault {
        ProgramFault::TooManyPrograms => too_many(Key::Machine, usize::from(MAX_MACHINES)),
        ProgramFault::TooLong { machine } => too_long(machine),
        ProgramFault::ForeignCall { machine, .. } => RowOf::Machine(machine)
            .key(Key::Program)
            .fault(Wrong::NoLines),
    }
}

fn too_long(machine: usize) -> DocumentFault {
    RowOf::Machine(machine)
        .item(Key::Program, MAX_STEPS)
        .fault(Wrong::TooManyLines(MAX_STEPS))
}
