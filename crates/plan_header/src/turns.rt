//! What `plan header` prints for turns: the bits of motors and sensors, and the machines' programs.
ghost use Rattle.std.specs.Prelude.{◌≡◌, ◌≤◌, ◌++◌, IfOk, OnOk, flat_map, length, map, string_bytes};
ghost use Rattle.std.specs.List.{range_with_len};
ghost use Rattle.plan_controller.specs.Faults.{all_mendable};
ghost use Rattle.plan_text.specs.Names.{name_in};
ghost use Rattle.plan_header.specs.Turns as spec;

use crate::header::{capitals_of, push_define, push_numbers};
use plan_controller::faults::ALL_MENDABLE;
use plan_controller::{Faults, Mendable, Step};
use plan_document::ProgrammedPlan;
use plan_text::{NamedPlan, Names};
use plan_types::Call;
use std::alloc::{AllocError, Global};

/// What stands before the bits of motors and sensors.
const BITS: &str = "
/* Motors and sensors, by machine and name: their bits in the lines of programs, and in what a turn gives and takes. */
";

/// What stands before the programs.
const PROGRAMS: &str = "
/* The programs, and how many lines each has, for bagunjoki_plan_take_turn. They are here only if bagunjoki_plan.h is
   included before this header. */
#ifdef BAGUNJOKI_PLAN_H
";

/// What stands between two faults of a line.
const BAR: &str = " | ";

/// How the programs end.
const END: &str = "#endif\n";

/// Adds the bits of motors and sensors, and the programs.
pub(crate) fn push_turns_part(
    alloc: Global,
    text: &mut String,
    plan: &ProgrammedPlan,
) -> Result<(), AllocError>
    ensures { OnOk result (string_bytes text.new ≡ string_bytes text.old
        ++ spec.turns_part plan.now.named plan.now.motors.names plan.now.sensors.items
        (map (λ steps. steps.items) plan.now.steps.items)) }
{
    push_turns(
        alloc,
        text,
        &plan.named,
        &plan.motors.names,
        &plan.sensors,
        &plan.steps,
    )
}

/// Adds the bits of these motors and sensors, and the programs by these steps.
fn push_turns(
    alloc: Global,
    text: &mut String,
    named: &NamedPlan,
    motors: &Names,
    sensors: &[Names],
    steps: &[Vec<Step>],
) -> Result<(), AllocError>
    ensures { OnOk result (string_bytes text.new ≡ string_bytes text.old
        ++ spec.turns_part named.now motors.now sensors.now (map (λ own. own.items) steps.now)) }
{
    push_motors(alloc, text, motors)?;
    push_all_sensors(alloc, text, named, sensors)?;
    push_all_programs(alloc, text, named, sensors, steps)
}

/// Adds the bits of motors.
fn push_motors(alloc: Global, text: &mut String, motors: &Names) -> Result<(), AllocError>
    ensures { OnOk result (string_bytes text.new
        ≡ string_bytes text.old ++ spec.motor_lines motors.now) }
{
    text.push_str(BITS)?;
    push_numbers(alloc, text, "motor", motors)
}

// ---- the bits of sensors

/// Adds the bits of the sensors of each machine.
fn push_all_sensors(
    alloc: Global,
    text: &mut String,
    named: &NamedPlan,
    sensors: &[Names],
) -> Result<(), AllocError>
    ensures { OnOk result (string_bytes text.new ≡ string_bytes text.old
        ++ flat_map (spec.sensor_lines named.now sensors.now)
        (range_with_len 0 (length named.now.machines))) }
{
    'machines: for machine in 0..named.machines().len() as u8 {
        push_sensors(alloc, text, named, sensors, machine)?;
    }
    Ok(())
}

/// How many sensors a machine has.
fn sensor_count(sensors: &[Names], machine: u8) -> usize
    ensures count { result ≡ length (spec.sensors_of sensors.now machine) }
    ensures few { result ≤ 64 }
{
    match sensors.get(usize::from(machine)) {
        Some(names) => names.len(),
        None => 0,
    }
}

/// The name of a machine's sensor, by its bit.
fn sensor_name(sensors: &[Names], machine: u8, sensor: u8) -> &str
    ensures { result.now ≡ name_in (spec.sensors_of sensors.now machine) sensor }
{
    match sensors.get(usize::from(machine)) {
        Some(names) => names.name(sensor),
        None => "",
    }
}

/// Adds the bits of a machine's sensors.
fn push_sensors(
    alloc: Global,
    text: &mut String,
    named: &NamedPlan,
    sensors: &[Names],
    machine: u8,
) -> Result<(), AllocError>
    ensures { OnOk result (string_bytes text.new ≡ string_bytes text.old
        ++ flat_map (spec.sensor_line named.now sensors.now machine)
        (range_with_len 0 (length (spec.sensors_of sensors.now machine)))) }
{
    'sensors: for sensor in 0..sensor_count(sensors, machine) as u8 {
        push_sensor(alloc, text, named, sensors, machine, sensor)?;
    }
    Ok(())
}

/// Adds the bit of a sensor.
fn push_sensor(
    alloc: Global,
    text: &mut String,
    named: &NamedPlan,
    sensors: &[Names],
    machine: u8,
    sensor: u8,
) -> Result<(), AllocError>
    ensures { OnOk result
        (string_bytes text.new ≡ string_bytes text.old
        ++ spec.sensor_line named.now sensors.now machine sensor) }
{
    let word = sensor_own(alloc, named, sensors, machine, sensor)?;
    push_define(alloc, text, word.as_str(), usize::from(sensor))
}

/// What a sensor is named: by its machine and its own name.
fn sensor_own(
    alloc: Global,
    named: &NamedPlan,
    sensors: &[Names],
    machine: u8,
    sensor: u8,
) -> Result<String, AllocError>
    ensures { IfOk result
        (λ word. string_bytes word ≡ spec.sensor_own named.now sensors.now machine sensor) }
{
    let owner = named.machines().name(machine);
    let name = sensor_name(sensors, machine, sensor);
    format!(in alloc; "sensor_{owner}_{name}")
}

// ---- the programs

/// Whether some machine has a program.
fn have_lines(steps: &[Vec<Step>]) -> bool
    ensures { result ≡ spec.have_lines (map (λ own. own.items) steps.now) }
{
    steps.iter().any(|own| own.len() > 0)
}

/// Adds the programs; nothing if no machine has one.
fn push_all_programs(
    alloc: Global,
    text: &mut String,
    named: &NamedPlan,
    sensors: &[Names],
    steps: &[Vec<Step>],
) -> Result<(), AllocError>
    ensures { OnOk result (string_bytes text.new ≡ string_bytes text.old
        ++ spec.all_programs named.now sensors.now (map (λ own. own.items) steps.now)) }
{
    if have_lines(steps) {
        push_some_programs(alloc, text, named, sensors, steps)
    } else {
        Ok(())
    }
}

/// Adds the programs, between what stands before them and how they end.
fn push_some_programs(
    alloc: Global,
    text: &mut String,
    named: &NamedPlan,
    sensors: &[Names],
    steps: &[Vec<Step>],
) -> Result<(), AllocError>
    ensures { OnOk result (string_bytes text.new ≡ string_bytes text.old
        ++ spec.some_programs named.now sensors.now (map (λ own. own.items) steps.now)) }
{
    text.push_str(PROGRAMS)?;
    push_each_program(alloc, text, named, sensors, steps)?;
    text.push_str(END)
}

/// Adds the program of each machine.
fn push_each_program(
    alloc: Global,
    text: &mut String,
    named: &NamedPlan,
    sensors: &[Names],
    steps: &[Vec<Step>],
) -> Result<(), AllocError>
    ensures { OnOk result (string_bytes text.new ≡ string_bytes text.old
        ++ flat_map (spec.own_program named.now sensors.now (map (λ own. own.items) steps.now))
        (range_with_len 0 (length named.now.machines))) }
{
    'machines: for machine in 0..named.machines().len() as u8 {
        push_program(
            alloc,
            text,
            named,
            sensors,
            machine,
            steps_at(steps, machine),
        )?;
    }
    Ok(())
}

/// The steps of a machine.
fn steps_at(steps: &[Vec<Step>], machine: u8) -> &[Step]
    ensures { result.now ≡ spec.steps_of (map (λ own. own.items) steps.now) machine }
{
    match steps.get(usize::from(machine)) {
        Some(own) => own.as_slice(),
        None => &[],
    }
}

/// Adds a machine's program; nothing if it has no lines.
fn push_program(
    alloc: Global,
    text: &mut String,
    named: &NamedPlan,
    sensors: &[Names],
    machine: u8,
    steps: &[Step],
) -> Result<(), AllocError>
    ensures { OnOk result (string_bytes text.new
        ≡ string_bytes text.old ++ spec.program_lines named.now sensors.now machine steps.now) }
{
    if steps.len() == 0 {
        Ok(())
    } else {
        push_lines(alloc, text, named, sensors, machine, steps)
    }
}

/// Adds the lines of a machine, and how many there are.
fn push_lines(
    alloc: Global,
    text: &mut String,
    named: &NamedPlan,
    sensors: &[Names],
    machine: u8,
    steps: &[Step],
) -> Result<(), AllocError>
    ensures { OnOk result (string_bytes text.new
        ≡ string_bytes text.old ++ spec.some_lines named.now sensors.now machine steps.now) }
{
    push_opened(alloc, text, named, machine)?;
    push_steps(alloc, text, named, sensors, machine, steps)?;
    push_closed(alloc, text, named, machine, steps.len())
}

/// Adds how a machine's program begins.
fn push_opened(
    alloc: Global,
    text: &mut String,
    named: &NamedPlan,
    machine: u8,
) -> Result<(), AllocError>
    ensures { OnOk result
        (string_bytes text.new ≡ string_bytes text.old ++ spec.program_opened named.now machine) }
{
    let word = program_word(alloc, named, machine)?;
    push_opened_by(alloc, text, word.as_str())
}

/// The name of a machine's program.
fn program_word(alloc: Global, named: &NamedPlan, machine: u8) -> Result<String, AllocError>
    ensures { IfOk result (λ word. string_bytes word ≡ spec.program_word named.now machine) }
{
    let name = named.machines().name(machine);
    format!(in alloc; "program_{name}")
}

/// Adds how a program begins, by its name.
fn push_opened_by(alloc: Global, text: &mut String, name: &str) -> Result<(), AllocError>
    ensures { OnOk result (string_bytes text.new
        ≡ string_bytes text.old ++ spec.program_opened_by name.now) }
{
    let capitals = capitals_of(alloc, name)?;
    push_opened_with(text, capitals.as_str())
}

/// Adds how a program begins, by its name in capitals.
fn push_opened_with(text: &mut String, capitals: &str) -> Result<(), AllocError>
    ensures { OnOk result
        (string_bytes text.new ≡ string_bytes text.old ++ spec.program_opened_with capitals.now) }
{
    writeln!(
        text,
        "static const bagunjoki_plan_line PLAN_{capitals}[] = {{"
    )
}

/// Adds how a machine's program ends.
fn push_closed(
    alloc: Global,
    text: &mut String,
    named: &NamedPlan,
    machine: u8,
    count: usize,
) -> Result<(), AllocError>
    ensures { OnOk result
        (string_bytes text.new ≡ string_bytes text.old
        ++ spec.program_closed named.now machine count) }
{
    text.push_str("};\n")?;
    push_count(alloc, text, named, machine, count)
}

/// Adds how many lines a machine's program has.
fn push_count(
    alloc: Global,
    text: &mut String,
    named: &NamedPlan,
    machine: u8,
    count: usize,
) -> Result<(), AllocError>
    ensures { OnOk result
        (string_bytes text.new ≡ string_bytes text.old ++ spec.count_line named.now machine count) }
{
    let name = named.machines().name(machine);
    let word = format!(in alloc; "lines_{name}")?;
    push_define(alloc, text, word.as_str(), count)
}

/// Adds the line of each step.
fn push_steps(
    alloc: Global,
    text: &mut String,
    named: &NamedPlan,
    sensors: &[Names],
    machine: u8,
    steps: &[Step],
) -> Result<(), AllocError>
    ensures { OnOk result (string_bytes text.new ≡ string_bytes text.old
        ++ flat_map (spec.step_row named.now sensors.now machine) steps.now) }
{
    'steps: for step in steps {
        push_step(alloc, text, named, sensors, machine, *step)?;
    }
    Ok(())
}

/// Adds the line of a step.
fn push_step(
    alloc: Global,
    text: &mut String,
    named: &NamedPlan,
    sensors: &[Names],
    machine: u8,
    step: Step,
) -> Result<(), AllocError>
    ensures { OnOk result (string_bytes text.new
        ≡ string_bytes text.old ++ spec.step_row named.now sensors.now machine step) }
{
    match step {
        Step::Do(call, faults) => push_call(alloc, text, named, call, faults),
        Step::Await(zone) => push_of_zone(alloc, text, named, "AWAIT", zone, "0"),
        Step::Run { motors, until } => push_run(
            alloc, text, named, sensors, machine, motors, until,
        ),
    }
}

/// Adds the line of a call.
fn push_call(
    alloc: Global,
    text: &mut String,
    named: &NamedPlan,
    call: Call,
    faults: Faults,
) -> Result<(), AllocError>
    ensures { OnOk result (string_bytes text.new
        ≡ string_bytes text.old ++ spec.call_row named.now call (spec.faults_word faults)) }
{
    let word = faults_word(alloc, faults)?;
    push_call_with(alloc, text, named, call, word.as_str())
}

/// Adds the line of a call, by the word for its faults.
fn push_call_with(
    alloc: Global,
    text: &mut String,
    named: &NamedPlan,
    call: Call,
    faults: &str,
) -> Result<(), AllocError>
    ensures { OnOk result (string_bytes text.new
        ≡ string_bytes text.old ++ spec.call_row named.now call faults.now) }
{
    match call {
        Call::Claim(zone) => push_of_zone(alloc, text, named, "CLAIM", zone, faults),
        Call::Give(zone) => push_of_zone(alloc, text, named, "GIVE", zone, faults),
        Call::Yield(zone) => push_of_zone(alloc, text, named, "YIELD", zone, faults),
        Call::Take(zone) => push_of_zone(alloc, text, named, "TAKE", zone, faults),
        Call::Release(zone) => push_of_zone(alloc, text, named, "RELEASE", zone, faults),
        Call::SetPose(pose) => push_of_pose(alloc, text, named, pose, faults),
        Call::Inquire(zone) => push_of_zone(alloc, text, named, "INQUIRE", zone, faults),
        Call::Stop => push_row(text, "0", "STOP", "0", "0", faults),
        Call::Resume => push_row(text, "0", "RESUME", "0", "0", faults),
        Call::Advance(place) => push_of_place(alloc, text, named, place, faults),
    }
}

/// The word for faults: the bits of their answers, or 0 for none.
fn faults_word(alloc: Global, faults: Faults) -> Result<String, AllocError>
    ensures { IfOk result (λ word. string_bytes word ≡ spec.faults_word faults) }
{
    let bits = barred_bits(alloc, faults)?;
    match bits.strip_prefix(BAR) {
        Some(bits) => String::from_str(alloc, bits),
        None => String::from_str(alloc, "0"),
    }
}

/// The bits of faults, one after the other, with a bar before each.
fn barred_bits(alloc: Global, faults: Faults) -> Result<String, AllocError>
    ensures { IfOk result (λ word. string_bytes word
        ≡ flat_map (spec.barred_bit faults) all_mendable) }
{
    let mut word = String::new(alloc);
    'faults: for fault in ALL_MENDABLE {
        push_barred(&mut word, faults, fault)?;
    }
    Ok(word)
}

/// Adds the bit of a refusal and a bar before it, if it is a fault.
fn push_barred(word: &mut String, faults: Faults, fault: Mendable) -> Result<(), AllocError>
    ensures { OnOk result
        (string_bytes word.new ≡ string_bytes word.old ++ spec.barred_bit faults fault) }
{
    if faults.has(fault) {
        word.push_str(BAR)?;
        word.push_str(fault_bit(fault))
    } else {
        Ok(())
    }
}

/// The bit of a fault, in C.
fn fault_bit(fault: Mendable) -> &'static str
    ensures { result.now ≡ spec.fault_bit fault }
{
    match fault {
        Mendable::Held => "1 << BAGUNJOKI_PLAN_HELD",
        Mendable::Shut => "1 << BAGUNJOKI_PLAN_SHUT",
        Mendable::NotOwner => "1 << BAGUNJOKI_PLAN_NOT_OWNER",
        Mendable::PlateInZone => "1 << BAGUNJOKI_PLAN_PLATE_IN_ZONE",
        Mendable::NoPlate => "1 << BAGUNJOKI_PLAN_NO_PLATE",
        Mendable::PlaceFull => "1 << BAGUNJOKI_PLAN_PLACE_FULL",
        Mendable::WrongWay => "1 << BAGUNJOKI_PLAN_WRONG_WAY",
        Mendable::Stopped => "1 << BAGUNJOKI_PLAN_STOPPED",
    }
}

/// Adds a line about a zone.
fn push_of_zone(
    alloc: Global,
    text: &mut String,
    named: &NamedPlan,
    kind: &str,
    zone: u8,
    faults: &str,
) -> Result<(), AllocError>
    ensures { OnOk result (string_bytes text.new ≡ string_bytes text.old
        ++ spec.bare kind.now (spec.zone_word named.now zone) faults.now) }
{
    let word = zone_word(alloc, named, zone)?;
    push_row(text, "0", kind, word.as_str(), "0", faults)
}

/// The word for a zone.
fn zone_word(alloc: Global, named: &NamedPlan, zone: u8) -> Result<String, AllocError>
    ensures { IfOk result (λ word. string_bytes word ≡ spec.zone_word named.now zone) }
{
    let name = named.zones().name(zone);
    let own = format!(in alloc; "zone_{name}")?;
    defined_word(alloc, own.as_str())
}

/// Adds a line about a place.
fn push_of_place(
    alloc: Global,
    text: &mut String,
    named: &NamedPlan,
    place: u8,
    faults: &str,
) -> Result<(), AllocError>
    ensures { OnOk result (string_bytes text.new
        ≡ string_bytes text.old ++ spec.place_row named.now place faults.now) }
{
    let word = place_word(alloc, named, place)?;
    push_row(text, "0", "ADVANCE", word.as_str(), "0", faults)
}

/// The word for a place.
fn place_word(alloc: Global, named: &NamedPlan, place: u8) -> Result<String, AllocError>
    ensures { IfOk result (λ word. string_bytes word ≡ spec.place_word named.now place) }
{
    let name = named.places().name(place);
    let own = format!(in alloc; "place_{name}")?;
    defined_word(alloc, own.as_str())
}

/// Adds a line about a pose.
fn push_of_pose(
    alloc: Global,
    text: &mut String,
    named: &NamedPlan,
    pose: u8,
    faults: &str,
) -> Result<(), AllocError>
    ensures { OnOk result (string_bytes text.new
        ≡ string_bytes text.old ++ spec.pose_row named.now pose faults.now) }
{
    let word = pose_word(alloc, named, pose)?;
    push_row(text, "0", "SET_POSE", word.as_str(), "0", faults)
}

/// The word for a pose.
fn pose_word(alloc: Global, named: &NamedPlan, pose: u8) -> Result<String, AllocError>
    ensures { IfOk result (λ word. string_bytes word ≡ spec.pose_word named.now pose) }
{
    let machine = named.machines().name(named.plan().pose(pose).machine);
    let name = named.poses().name(pose);
    let own = format!(in alloc; "pose_{machine}_{name}")?;
    defined_word(alloc, own.as_str())
}

/// Adds a line that runs motors.
fn push_run(
    alloc: Global,
    text: &mut String,
    named: &NamedPlan,
    sensors: &[Names],
    machine: u8,
    motors: u64,
    until: u8,
) -> Result<(), AllocError>
    ensures { OnOk result (string_bytes text.new
        ≡ string_bytes text.old ++ spec.run_row named.now sensors.now machine motors until) }
{
    let bits = bits_word(alloc, motors)?;
    let sensor = sensor_word(alloc, named, sensors, machine, until)?;
    push_row(text, bits.as_str(), "RUN", "0", sensor.as_str(), "0")
}

/// The word for motors: their bits.
fn bits_word(alloc: Global, motors: u64) -> Result<String, AllocError>
    ensures { IfOk result (λ word. string_bytes word ≡ spec.bits_word motors) }
{
    format!(in alloc; "UINT64_C({motors})")
}

/// The word for a machine's sensor.
fn sensor_word(
    alloc: Global,
    named: &NamedPlan,
    sensors: &[Names],
    machine: u8,
    sensor: u8,
) -> Result<String, AllocError>
    ensures { IfOk result
        (λ word. string_bytes word ≡ spec.sensor_word named.now sensors.now machine sensor) }
{
    let own = sensor_own(alloc, named, sensors, machine, sensor)?;
    defined_word(alloc, own.as_str())
}

/// A word that the header defines, by its name.
fn defined_word(alloc: Global, name: &str) -> Result<String, AllocError>
    ensures { IfOk result (λ word. string_bytes word ≡ spec.defined_word name.now) }
{
    let capitals = capitals_of(alloc, name)?;
    with_prefix(alloc, capitals.as_str())
}

/// A word that the header defines, by its name in capitals.
fn with_prefix(alloc: Global, capitals: &str) -> Result<String, AllocError>
    ensures { IfOk result (λ word. string_bytes word ≡ spec.prefixed capitals.now) }
{
    format!(in alloc; "PLAN_{capitals}")
}

/// Adds a line by its motors, its kind, its object, its sensor and its faults.
fn push_row(
    text: &mut String,
    motors: &str,
    kind: &str,
    object: &str,
    until: &str,
    faults: &str,
) -> Result<(), AllocError>
    ensures { OnOk result (string_bytes text.new ≡ string_bytes text.old
        ++ spec.row motors.now kind.now object.now until.now faults.now) }
{
    writeln!(
        text,
        "    {{{motors}, BAGUNJOKI_PLAN_{kind}, {object}, {until}, {faults}}},"
    )
}
