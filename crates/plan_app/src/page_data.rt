//! What a page has of a plan, as JSON: its names, by the numbers of the plan's tables, its motors and its programs.
ghost use Rattle.std.specs.Prelude.{◌≡◌, ◌<◌, ◌++◌, [], Some, OnOk, flat_map, get_or, length, string_bytes};
ghost use Rattle.std.specs.List.{range_with_len};
ghost use Rattle.plan_motors.specs.Mask.{mask_of, pattern_of};
ghost use Rattle.plan_app.specs.PageData as spec;

use plan_controller::Step;
use plan_document::ProgrammedPlan;
use plan_header::motor_at;
use plan_motors::{Motor, MotorMask};
use plan_text::words::posture_word;
use plan_text::{NamedPlan, Names};
use plan_types::{Call, PlanZone, Postures, Way};
use std::alloc::AllocError;

/// What stands before the ways of a zone, inward and outward.
const INWARD: &str = ", \"inward\": ";

const OUTWARD: &str = ", \"outward\": ";

/// What a zone has that is of one space with the zone before it.
const JOINS: &str = ", \"joins\": true";

/// What stands before the postures of a zone.
const POSTURES: &str = ", \"postures\": [";

/// What stands before the bits of a motor: those that it looks at, and what they have to be.
const MASK: &str = ", \"mask\": \"";

const PATTERN: &str = "\", \"pattern\": \"";

/// What stands before each list but the first.
const PLACES: &str = "],\n\"places\": [";

const ZONES: &str = "],\n\"zones\": [";

const MOTORS: &str = "],\n\"motors\": [";

const PROGRAMS: &str = "],\n\"programs\": [";

/// Adds what a page has of a plan, with a note on what it shows.
#[tactic(auto, unfolding(crate::specs::PageData::data_of))]
pub(crate) fn push_data(
    text: &mut String,
    plan: &ProgrammedPlan,
    note: &str,
) -> Result<(), AllocError>
    ensures { OnOk result
        (string_bytes text.new ≡ string_bytes text.old ++ spec.data_of plan.now note.now) }
{
    push_machines_part(text, &plan.named, note)?;
    push_tables_part(text, &plan.named)?;
    push_motors_part(text, &plan.named, &plan.motors.names, &plan.motors.motors)?;
    push_programs_part(text, plan)
}

/// Adds a comma, but before the first item of a list.
fn push_gap(text: &mut String, number: usize) -> Result<(), AllocError>
    ensures { OnOk result (string_bytes text.new ≡ string_bytes text.old ++ spec.gap number) }
{
    text.push_str(if number == 0 { "" } else { ", " })
}

// ---- machines, places, zones

#[tactic(auto, unfolding(crate::specs::PageData::machines_part))]
fn push_machines_part(text: &mut String, named: &NamedPlan, note: &str) -> Result<(), AllocError>
    ensures { OnOk result
        (string_bytes text.new ≡ string_bytes text.old ++ spec.machines_part named.now note.now) }
{
    write!(text, "{{\"note\": \"{note}\",\n\"machines\": [")?;
    push_machines(text, named)
}

fn push_machines(text: &mut String, named: &NamedPlan) -> Result<(), AllocError>
    ensures { OnOk result (string_bytes text.new ≡ string_bytes text.old
        ++ flat_map (spec.next_item (spec.machine_item named.now))
        (range_with_len 0 (length named.now.machines))) }
{
    'machines: for machine in 0..named.machines().len() as u8 {
        push_machine(text, named, machine)?;
    }
    Ok(())
}

fn push_machine(text: &mut String, named: &NamedPlan, machine: u8) -> Result<(), AllocError>
    ensures { OnOk result (string_bytes text.new ≡ string_bytes text.old
        ++ spec.next_item (spec.machine_item named.now) machine) }
{
    push_gap(text, usize::from(machine))?;
    push_quoted(text, named.machines().name(machine))
}

fn push_quoted(text: &mut String, name: &str) -> Result<(), AllocError>
    ensures { OnOk result (string_bytes text.new ≡ string_bytes text.old ++ spec.quoted name.now) }
{
    write!(text, "\"{name}\"")
}

/// Adds places and zones.
#[tactic(auto, unfolding(crate::specs::PageData::tables_part))]
fn push_tables_part(text: &mut String, named: &NamedPlan) -> Result<(), AllocError>
    ensures { OnOk result
        (string_bytes text.new ≡ string_bytes text.old ++ spec.tables_part named.now) }
{
    text.push_str(PLACES)?;
    push_places(text, named)?;
    text.push_str(ZONES)?;
    push_zones(text, named)
}

fn push_places(text: &mut String, named: &NamedPlan) -> Result<(), AllocError>
    ensures { OnOk result (string_bytes text.new ≡ string_bytes text.old
        ++ flat_map (spec.next_item (spec.place_item named.now))
        (range_with_len 0 (length named.now.places))) }
{
    'places: for place in 0..named.places().len() as u8 {
        push_place(text, named, place)?;
    }
    Ok(())
}

fn push_place(text: &mut String, named: &NamedPlan, place: u8) -> Result<(), AllocError>
    ensures { OnOk result (string_bytes text.new ≡ string_bytes text.old
        ++ spec.next_item (spec.place_item named.now) place) }
{
    let keeper = named.plan().keeper(place);
    push_gap(text, usize::from(place))?;
    push_kept(text, named.places().name(place), keeper)
}

/// Adds a place by its name and its keeper.
fn push_kept(text: &mut String, name: &str, keeper: u8) -> Result<(), AllocError>
    ensures { OnOk result
        (string_bytes text.new ≡ string_bytes text.old ++ spec.kept_item name.now keeper) }
{
    write!(text, "{{\"name\": \"{name}\", \"keeper\": {keeper}}}")
}

fn push_zones(text: &mut String, named: &NamedPlan) -> Result<(), AllocError>
    ensures { OnOk result (string_bytes text.new ≡ string_bytes text.old
        ++ flat_map (spec.next_item (spec.zone_item named.now))
        (range_with_len 0 (length named.now.zones))) }
{
    'zones: for zone in 0..named.zones().len() as u8 {
        push_zone(text, named, zone)?;
    }
    Ok(())
}

fn push_zone(text: &mut String, named: &NamedPlan, zone: u8) -> Result<(), AllocError>
    ensures { OnOk result (string_bytes text.new ≡ string_bytes text.old
        ++ spec.next_item (spec.zone_item named.now) zone) }
{
    push_gap(text, usize::from(zone))?;
    push_joined(text, named, zone)?;
    push_ways(text, named.plan().zone(zone))?;
    push_postures(text, named.plan().zone_shape(zone).postures())
}

/// Adds the name and the parties of a zone, and whether it is of one space with the zone before it.
fn push_joined(text: &mut String, named: &NamedPlan, zone: u8) -> Result<(), AllocError>
    ensures { OnOk result
        (string_bytes text.new ≡ string_bytes text.old ++ spec.joined_text named.now zone) }
{
    push_parties(text, named, zone)?;
    push_joins(text, named, zone)
}

fn push_joins(text: &mut String, named: &NamedPlan, zone: u8) -> Result<(), AllocError>
    ensures { OnOk result
        (string_bytes text.new ≡ string_bytes text.old ++ spec.joins_text named.now zone) }
{
    if named.plan().zone(zone).joins {
        text.push_str(JOINS)
    } else {
        Ok(())
    }
}

#[tactic(auto, unfolding(crate::specs::PageData::parties_text))]
fn push_parties(text: &mut String, named: &NamedPlan, zone: u8) -> Result<(), AllocError>
    ensures { OnOk result
        (string_bytes text.new ≡ string_bytes text.old ++ spec.parties_text named.now zone) }
{
    let name = named.zones().name(zone);
    let host = named.plan().host(zone);
    let guest = named.plan().guest(zone);
    write!(
        text,
        "{{\"name\": \"{name}\", \"host\": {host}, \"guest\": {guest}"
    )
}

#[tactic(auto, unfolding(crate::specs::PageData::ways_text))]
fn push_ways(text: &mut String, row: PlanZone) -> Result<(), AllocError>
    ensures { OnOk result (string_bytes text.new ≡ string_bytes text.old ++ spec.ways_text row) }
{
    text.push_str(INWARD)?;
    push_way(text, row.inward)?;
    text.push_str(OUTWARD)?;
    push_way(text, row.outward)
}

fn push_way(text: &mut String, way: Option<Way>) -> Result<(), AllocError>
    ensures { OnOk result (string_bytes text.new ≡ string_bytes text.old ++ spec.way_text way) }
{
    match way {
        Some(Way { from, to }) => write!(text, "[{from}, {to}]"),
        None => text.push_str("null"),
    }
}

/// Adds the postures that a zone's field of the word tells, and ends the zone.
#[tactic(auto, unfolding(crate::specs::PageData::postures_text))]
fn push_postures(text: &mut String, postures: Postures) -> Result<(), AllocError>
    ensures { OnOk result (string_bytes text.new
        ≡ string_bytes text.old ++ spec.postures_text postures) }
{
    text.push_str(POSTURES)?;
    push_told(text, postures)?;
    text.push_str("]}")
}

fn push_told(text: &mut String, postures: Postures) -> Result<(), AllocError>
    ensures { OnOk result (string_bytes text.new
        ≡ string_bytes text.old ++ spec.told_text postures) }
{
    match postures {
        Postures::Shut => text.push_str("\"closed\""),
        Postures::Two(other) => {
            let other = posture_word(other);
            write!(text, "\"closed\", \"{other}\"")
        }
        Postures::All => { text.push_str("\"closed\", \"moving\", \"openin\", \"openout\"") }
    }
}

// ---- motors

#[tactic(auto, unfolding(crate::specs::PageData::motors_part))]
fn push_motors_part(
    text: &mut String,
    named: &NamedPlan,
    names: &Names,
    motors: &[Motor],
) -> Result<(), AllocError>
    ensures { OnOk result (string_bytes text.new
        ≡ string_bytes text.old ++ spec.motors_part named.now names.now motors.now) }
{
    text.push_str(MOTORS)?;
    push_motors(text, named, names, motors)
}

fn push_motors(
    text: &mut String,
    named: &NamedPlan,
    names: &Names,
    motors: &[Motor],
) -> Result<(), AllocError>
    ensures { OnOk result (string_bytes text.new ≡ string_bytes text.old
        ++ flat_map (spec.next_item (spec.motor_item named.now names.now motors.now))
        (range_with_len 0 (length names.now))) }
{
    'motors: for motor in 0..names.len() as u8 {
        push_motor(text, named, names, motors, motor)?;
    }
    Ok(())
}

fn push_motor(
    text: &mut String,
    named: &NamedPlan,
    names: &Names,
    motors: &[Motor],
    motor: u8,
) -> Result<(), AllocError>
    ensures { OnOk result (string_bytes text.new ≡ string_bytes text.old
        ++ spec.next_item (spec.motor_item named.now names.now motors.now) motor) }
{
    push_gap(text, usize::from(motor))?;
    push_motor_with(text, named, names.name(motor), &motor_at(motors, motor))
}

/// Adds a motor with its name.
#[tactic(auto, unfolding(crate::specs::PageData::motor_text))]
fn push_motor_with(
    text: &mut String,
    named: &NamedPlan,
    name: &str,
    motor: &Motor,
) -> Result<(), AllocError>
    ensures { OnOk result (string_bytes text.new
        ≡ string_bytes text.old ++ spec.motor_text named.now name.now motor.now) }
{
    let machine = motor.machine;
    write!(text, "{{\"name\": \"{name}\", \"machine\": {machine}")?;
    push_mask(text, named, motor)
}

/// Adds the bits of the plan's word that a motor looks at, and what they have to be.
fn push_mask(text: &mut String, named: &NamedPlan, motor: &Motor) -> Result<(), AllocError>
    ensures { OnOk result
        (string_bytes text.new ≡ string_bytes text.old ++ spec.mask_text named.now motor.now) }
{
    let MotorMask { mask, pattern } = mask_with(named, motor);
    push_bits(text, mask, pattern)
}

/// The bits of a motor.
fn mask_with(named: &NamedPlan, motor: &Motor) -> MotorMask
    ensures mask { result.mask ≡ mask_of named.now.plan motor.now }
    ensures pattern { result.pattern ≡ pattern_of named.now.plan motor.now }
{
    MotorMask::of(named.plan(), motor)
}

#[tactic(auto, unfolding(crate::specs::PageData::bits_text))]
fn push_bits(text: &mut String, mask: u64, pattern: u64) -> Result<(), AllocError>
    ensures { OnOk result
        (string_bytes text.new ≡ string_bytes text.old ++ spec.bits_text mask pattern) }
{
    text.push_str(MASK)?;
    push_hexadecimal(text, mask)?;
    text.push_str(PATTERN)?;
    push_hexadecimal(text, pattern)?;
    text.push_str("\"}")
}

fn push_hexadecimal(text: &mut String, number: u64) -> Result<(), AllocError>
    ensures { OnOk result (string_bytes text.new
        ≡ string_bytes text.old ++ spec.hexadecimal number) }
{
    write!(text, "{number:x}")
}

// ---- programs

#[tactic(auto, unfolding(crate::specs::PageData::programs_part))]
fn push_programs_part(text: &mut String, plan: &ProgrammedPlan) -> Result<(), AllocError>
    ensures { OnOk result (string_bytes text.new ≡ string_bytes text.old
        ++ spec.programs_part plan.now.named plan.now.motors.names plan.now.sensors.items
        (spec.programs_of plan.now)) }
{
    text.push_str(PROGRAMS)?;
    push_programs(text, plan)?;
    text.push_str("]}\n")
}

fn push_programs(text: &mut String, plan: &ProgrammedPlan) -> Result<(), AllocError>
    ensures { OnOk result (string_bytes text.new ≡ string_bytes text.old
        ++ flat_map (spec.next_item (spec.program_item plan.now.named plan.now.motors.names
        plan.now.sensors.items (spec.programs_of plan.now)))
        (range_with_len 0 (length (spec.programs_of plan.now)))) }
{
    'machines: for machine in 0..plan.steps.len() {
        push_program(text, plan, machine)?;
    }
    Ok(())
}

fn push_program(text: &mut String, plan: &ProgrammedPlan, machine: usize) -> Result<(), AllocError>
    ensures { OnOk result (string_bytes text.new ≡ string_bytes text.old
        ++ spec.next_item (spec.program_item plan.now.named plan.now.motors.names
        plan.now.sensors.items (spec.programs_of plan.now)) machine) }
{
    push_gap(text, machine)?;
    push_steps(text, plan, machine, steps_at(plan, machine))
}

/// The steps of a machine's program.
fn steps_at(plan: &ProgrammedPlan, machine: usize) -> &[Step]
    ensures { result.now ≡ get_or (spec.programs_of plan.now) machine [] }
{
    match plan.steps.get(machine) {
        Some(steps) => steps.as_slice(),
        None => &[],
    }
}

fn push_steps(
    text: &mut String,
    plan: &ProgrammedPlan,
    machine: usize,
    steps: &[Step],
) -> Result<(), AllocError>
    ensures { OnOk result (string_bytes text.new ≡ string_bytes text.old
        ++ spec.program_text plan.now.named plan.now.motors.names plan.now.sensors.items
        machine steps.now) }
{
    text.push_str("[")?;
    push_lines(text, plan, machine, steps)?;
    text.push_str("]")
}

fn push_lines(
    text: &mut String,
    plan: &ProgrammedPlan,
    machine: usize,
    steps: &[Step],
) -> Result<(), AllocError>
    ensures { OnOk result (string_bytes text.new ≡ string_bytes text.old
        ++ flat_map (spec.next_item (spec.line_item plan.now.named plan.now.motors.names
        plan.now.sensors.items machine steps.now)) (range_with_len 0 (length steps.now))) }
{
    'lines: for line in 0..steps.len() {
        push_line(text, plan, machine, steps, line)?;
    }
    Ok(())
}

fn push_line(
    text: &mut String,
    plan: &ProgrammedPlan,
    machine: usize,
    steps: &[Step],
    line: usize,
) -> Result<(), AllocError>
    ensures { OnOk result (string_bytes text.new ≡ string_bytes text.old
        ++ spec.next_item (spec.line_item plan.now.named plan.now.motors.names
        plan.now.sensors.items machine steps.now) line) }
{
    push_gap(text, line)?;
    match steps.get(line) {
        Some(step) => push_quoted_step(text, plan, machine, *step),
        None => Ok(()),
    }
}

/// Adds a line of a program in quotes.
fn push_quoted_step(
    text: &mut String,
    plan: &ProgrammedPlan,
    machine: usize,
    step: Step,
) -> Result<(), AllocError>
    ensures { OnOk result (string_bytes text.new ≡ string_bytes text.old
        ++ spec.line_if plan.now.named plan.now.motors.names plan.now.sensors.items machine
        (Some step)) }
{
    text.push_str("\"")?;
    push_step(text, plan, machine, step)?;
    text.push_str("\"")
}

/// Adds a line of a program.
fn push_step(
    text: &mut String,
    plan: &ProgrammedPlan,
    machine: usize,
    step: Step,
) -> Result<(), AllocError>
    ensures { OnOk result (string_bytes text.new ≡ string_bytes text.old
        ++ spec.line_text plan.now.named plan.now.motors.names plan.now.sensors.items machine
        step) }
{
    match step {
        Step::Do(call, _) => plan.named.push_call(text, call),
        Step::Await(zone) => plan.named.push_call(text, Call::Inquire(zone)),
        Step::Run { motors, until } => {
            let sensor = sensor_name(&plan.sensors, machine, until);
            push_run(text, &plan.motors.names, motors, sensor)
        }
    }
}

fn sensor_name(sensors: &[Names], machine: usize, sensor: u8) -> &str
    ensures { result.now ≡ spec.sensor_name sensors.now machine sensor }
{
    match sensors.get(machine) {
        Some(names) => names.name(sensor),
        None => "",
    }
}

/// Adds a run of motors until a sensor shows; without motors the wait for the sensor.
fn push_run(text: &mut String, names: &Names, motors: u64, sensor: &str) -> Result<(), AllocError>
    ensures { OnOk result (string_bytes text.new
        ≡ string_bytes text.old ++ spec.run_text names.now motors sensor.now) }
{
    if motors == 0 {
        text.push_str("await ")?;
        return text.push_str(sensor);
    }
    text.push_str("run")?;
    push_run_names(text, names, motors)?;
    text.push_str(" until ")?;
    text.push_str(sensor)
}

fn push_run_names(text: &mut String, names: &Names, motors: u64) -> Result<(), AllocError>
    ensures { OnOk result (string_bytes text.new ≡ string_bytes text.old
        ++ flat_map (spec.run_name names.now motors) (range_with_len 0 (length names.now))) }
{
    'motors: for motor in 0..names.len() as u8 {
        push_run_name(text, names, motors, motor)?;
    }
    Ok(())
}

/// Adds the name of a motor, if it has a bit.
fn push_run_name(text: &mut String, names: &Names, motors: u64, motor: u8) -> Result<(), AllocError>
    requires { motor < 64 }
    ensures { OnOk result
        (string_bytes text.new ≡ string_bytes text.old ++ spec.run_name names.now motors motor) }
{
    if motors >> motor & 1 == 1 {
        text.push_str(" ")?;
        text.push_str(names.name(motor))
    } else {
        Ok(())
    }
}
