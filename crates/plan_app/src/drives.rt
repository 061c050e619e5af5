//! What `plan check` says of the motors that programs run: whether each is permitted where it runs.
ghost use Rattle.std.specs.Prelude.{◌≡◌, ◌≤◌, ◌++◌, IfOk, OnOk, is_none, length, string_bytes};
ghost use Rattle.std.specs.List.{AllZip, enumerate_from, list_all, list_any};
ghost use Rattle.plan_app.specs.Drives as spec;

use plan_controller::{Step, lines_of};
use plan_document::ProgrammedPlan;
use plan_drives::{Lack, Undriven, first_undriven};
use plan_motors::{Hazard, Motor, MotorPlan};
use plan_text::words::posture_word;
use plan_text::{NamedPlan, Names};
use plan_types::{MAX_MACHINES, Plan, Posture};
use std::alloc::{AllocError, Global};

/// What is said where each motor is permitted.
const ALL_DRIVEN: &str = "drives: each motor is permitted where its program runs it\n";

// ---- what is found

/// Of each machine the first line of its program that runs a motor which isn't permitted there, as far as the machine
/// knows. An error says that memory ran out.
pub(crate) fn drives_of(
    alloc: Global,
    plan: &ProgrammedPlan,
) -> Result<Vec<Option<Undriven>>, AllocError>
    ensures { IfOk result (λ drives. spec.AreDrives plan.now drives.items) }
{
    if plan.steps.len() > usize::from(MAX_MACHINES) {
        return Ok(Vec::new(alloc));
    }
    let plan_alone = plan.named.plan();
    match copy_of(alloc, plan_alone, &plan.motors.motors, &plan.motors.hazards)? {
        Some(copy) => drives_by(alloc, &copy, &plan.steps),
        None => Ok(Vec::new(alloc)),
    }
}

/// A plan with its motors; `None` if they don't fit it.
fn copy_of(
    alloc: Global,
    plan: &Plan,
    motors: &[Motor],
    hazards: &[Hazard],
) -> Result<Option<MotorPlan>, AllocError>
    ensures { IfOk result (spec.IsCopy plan.now motors.now hazards.now) }
{
    let motors = motors.iter().copied().collect(alloc)?;
    let hazards = hazards.iter().copied().collect(alloc)?;
    match MotorPlan::new(plan.clone()?, motors, hazards) {
        Ok(copy) => Ok(Some(copy)),
        Err(_) => Ok(None),
    }
}

fn drives_by(
    alloc: Global,
    plan: &MotorPlan,
    programs: &[Vec<Step>],
) -> Result<Vec<Option<Undriven>>, AllocError>
    requires { length programs.now ≤ 30 }
    ensures { IfOk result (λ drives.
        AllZip (spec.IsDriveOf plan.now) (enumerate_from 0 programs.now) drives.items) }
{
    let mut drives = Vec::new(alloc);
    for machine in 0..programs.len() {
        let drive = drive_of(alloc, plan, machine as u8, &programs[machine])?;
        drives.push(drive)?;
    }
    Ok(drives)
}

fn drive_of(
    alloc: Global,
    plan: &MotorPlan,
    machine: u8,
    program: &[Step],
) -> Result<Option<Undriven>, AllocError>
    ensures { IfOk result (spec.IsDrive plan.now machine program.now) }
{
    let lines = lines_of(alloc, program)?;
    Ok(first_undriven(plan, machine, &lines))
}

/// Whether each motor is permitted where it runs.
pub(crate) fn are_driven(drives: &[Option<Undriven>]) -> bool
    ensures { result ≡ list_all is_none drives.now }
{
    drives.iter().all(|drive| drive.is_none())
}

// ---- what is said

/// Adds what is said of the motors that programs run; nothing if none runs any.
#[tactic(auto, unfolding(crate::specs::Drives::drives_text))]
pub(crate) fn push_drives(
    text: &mut String,
    named: &NamedPlan,
    motors: &Names,
    programs: &[Vec<Step>],
    drives: &[Option<Undriven>],
) -> Result<(), AllocError>
    ensures { OnOk result (string_bytes text.new ≡ string_bytes text.old
        ++ spec.drives_text named.now motors.now programs.now drives.now) }
{
    if !any_runs(programs) {
        return Ok(());
    }
    if are_driven(drives) {
        return text.push_str(ALL_DRIVEN);
    }
    push_undriven(text, named, motors, drives)
}

fn any_runs(programs: &[Vec<Step>]) -> bool
    ensures { result ≡ list_any spec.runs_motors programs.now }
{
    programs.iter().any(|program| runs_motors(program))
}

/// Whether a program runs motors.
fn runs_motors(program: &Vec<Step>) -> bool
    ensures { result ≡ spec.runs_motors program.now }
{
    program.iter().any(|step| is_run(*step))
}

fn is_run(step: Step) -> bool
    ensures { result ≡ spec.is_run step }
{
    match step {
        Step::Run { motors, .. } => motors != 0,
        Step::Do(..) | Step::Await(_) => false,
    }
}

/// Adds the line of each machine that has one.
fn push_undriven(
    text: &mut String,
    named: &NamedPlan,
    motors: &Names,
    drives: &[Option<Undriven>],
) -> Result<(), AllocError>
    ensures { OnOk result
        (string_bytes text.new ≡ string_bytes text.old
        ++ spec.drive_lines named.now motors.now drives.now) }
{
    'machines: for machine in 0..named.machines().len() as u8 {
        push_drive(text, named, motors, drives, machine)?;
    }
    Ok(())
}

/// Adds the line of a machine that runs a motor which isn't permitted there, if it has one.
fn push_drive(
    text: &mut String,
    named: &NamedPlan,
    motors: &Names,
    drives: &[Option<Undriven>],
    machine: u8,
) -> Result<(), AllocError>
    ensures { OnOk result
        (string_bytes text.new ≡ string_bytes text.old
        ++ spec.drive_line named.now motors.now drives.now machine) }
{
    match drives.get(usize::from(machine)) {
        Some(Some(undriven)) => push_line(text, named, motors, machine, *undriven),
        _ => Ok(()),
    }
}

fn push_line(
    text: &mut String,
    named: &NamedPlan,
    motors: &Names,
    machine: u8,
    undriven: Undriven,
) -> Result<(), AllocError>
    ensures { OnOk result (string_bytes text.new ≡ string_bytes text.old
        ++ spec.undriven_line named.now motors.now machine undriven) }
{
    let machine = named.machines().name(machine);
    let motor = motors.name(undriven.motor);
    let number = undriven.line as u128 + 1;
    write!(text, "{machine}, line {number}: {motor} ")?;
    push_lack(text, named, undriven.lack)
}

/// Adds what a motor lacks.
fn push_lack(text: &mut String, named: &NamedPlan, lack: Lack) -> Result<(), AllocError>
    ensures { OnOk result (string_bytes text.new
        ≡ string_bytes text.old ++ spec.lack_text named.now lack) }
{
    match lack {
        Lack::NoSuchMotor => text.push_str("is no motor of the plan\n"),
        Lack::OtherMachine(machine) => {
            let owner = named.machines().name(machine);
            writeln!(text, "is a motor of {owner}")
        }
        Lack::NotHeld(zone) => {
            let zone = named.zones().name(zone);
            writeln!(text, "needs to hold {zone}; here it may be another's")
        }
        Lack::NotInPosture {
            zone,
            needed,
            known,
        } => push_posture(text, named.zones().name(zone), needed, known),
        Lack::NotFilled {
            place,
            needed,
            known,
        } => push_filling(text, named.places().name(place), needed, known.is_some()),
    }
}

/// Adds the posture that a motor needs of a zone, and the one that is known.
fn push_posture(
    text: &mut String,
    zone: &str,
    needed: Posture,
    known: Option<Posture>,
) -> Result<(), AllocError>
    ensures { OnOk result
        (string_bytes text.new ≡ string_bytes text.old
        ++ spec.posture_needed zone.now needed known) }
{
    let needed = posture_word(needed);
    match known {
        Some(known) => {
            let known = posture_word(known);
            writeln!(text, "needs {zone} {needed}; here it is {known}")
        }
        None => writeln!(text, "needs {zone} {needed}; here its posture isn't known"),
    }
}

/// Adds whether a motor needs a place full, and what is known of that.
fn push_filling(
    text: &mut String,
    place: &str,
    needed: bool,
    is_known: bool,
) -> Result<(), AllocError>
    ensures { OnOk result
        (string_bytes text.new ≡ string_bytes text.old
        ++ spec.filling_needed place.now needed is_known) }
{
    let here = if is_known { "is" } else { "may be" };
    let full = filling(needed);
    let other = filling(!needed);
    writeln!(text, "needs {place} {full}; here it {here} {other}")
}

fn filling(full: bool) -> &'static str
    ensures { result.now ≡ spec.filling full }
{
    if full { "full" } else { "empty" }
}
