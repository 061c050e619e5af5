//! The document of one word of a plant.
ghost use Rattle.std.specs.Prelude.{◌≡◌, ◌+◌, ◌<◌, ◌++◌, ◌∷◌, [], filter, length, map, nat_eq, string_bytes};
ghost use Rattle.std.specs.Prelude.{if◌then◌else◌, IfOk, OnOk};
ghost use Rattle.std.specs.List.{range_with_len};
ghost use Rattle.plan_document.specs.OnWord as spec;
ghost use Rattle.plan_document.specs.Texts as texts;

use crate::copying::{copies, copies_of};
use crate::document::{Document, MachineRow, MotorRow, PoseRow, PostureRow};
use crate::fault::{DocumentFault, Key, too_many};
use crate::naming::{KindNames, stands_on};
use crate::tables::push_name;
use crate::values::copy;
use plan_text::{MAX_NAMES, Names};
use plan_types::MAX_POSES;
use std::alloc::{AllocError, Global};

/// Appends a number, if it is to be there.
fn push_if(numbers: &mut Vec<usize>, number: usize, there: bool) -> Result<(), AllocError>
    ensures { OnOk result (numbers.new.items
        ≡ numbers.old.items ++ (if there then number ∷ [] else [])) }
{
    if there {
        numbers.push(number)?;
    }
    Ok(())
}

// ---- texts that name the word's own

/// The numbers of the texts that name something of the word, or nothing of any word.
pub(crate) fn numbers_here(
    alloc: Global,
    texts: &[String],
    names: &KindNames,
) -> Result<Vec<usize>, AllocError>
    ensures { IfOk result (λ numbers. numbers.items
        ≡ spec.numbers_of (spec.is_here names.now) (map string_bytes texts.now)) }
{
    let mut numbers = Vec::new(alloc);
    'texts: for number in 0..texts.len() {
        let there = names.is_here(texts[number].as_bytes());
        push_if(&mut numbers, number, there)?;
    }
    Ok(numbers)
}

/// Copies of these texts.
fn texts_here(alloc: Global, texts: &[String], names: &KindNames) -> Result<Vec<String>, AllocError>
    ensures { IfOk result (λ here. map string_bytes here.items
        ≡ spec.texts_here names.now (map string_bytes texts.now)) }
{
    let numbers = numbers_here(alloc, texts, names)?;
    copies_of(alloc, texts, &numbers)
}

/// The numbers of the rows that are about zones of the word, or about none.
fn posture_numbers(
    alloc: Global,
    rows: &[PostureRow],
    zones: &KindNames,
) -> Result<Vec<usize>, AllocError>
    ensures { IfOk result (λ numbers. numbers.items ≡ spec.numbers_of (spec.is_here zones.now)
        (spec.zones_named (map texts.posture_texts rows.now))) }
{
    let mut numbers = Vec::new(alloc);
    'rows: for number in 0..rows.len() {
        let there = zones.is_here(rows[number].zone.as_bytes());
        push_if(&mut numbers, number, there)?;
    }
    Ok(numbers)
}

/// Copies of these rows.
fn postures_here(
    alloc: Global,
    rows: &[PostureRow],
    zones: &KindNames,
) -> Result<Vec<PostureRow>, AllocError>
    ensures { IfOk result (λ here. map texts.posture_texts here.items
        ≡ spec.postures_here zones.now (map texts.posture_texts rows.now)) }
{
    let numbers = posture_numbers(alloc, rows, zones)?;
    copies_of(alloc, rows, &numbers)
}

// ---- machines

/// The numbers of the lines that stand in the word's document.
pub(crate) fn line_numbers(
    alloc: Global,
    lines: &[String],
    zones: &KindNames,
    places: &KindNames,
    poses: &KindNames,
) -> Result<Vec<usize>, AllocError>
    ensures { IfOk result (λ numbers. numbers.items
        ≡ spec.numbers_of (spec.stands_on zones.now places.now poses.now)
        (map string_bytes lines.now)) }
{
    let mut numbers = Vec::new(alloc);
    'lines: for number in 0..lines.len() {
        let there = stands_on(zones, places, poses, lines[number].as_bytes());
        push_if(&mut numbers, number, there)?;
    }
    Ok(numbers)
}

/// Copies of these lines.
fn lines_here(
    alloc: Global,
    lines: &[String],
    zones: &KindNames,
    places: &KindNames,
    poses: &KindNames,
) -> Result<Vec<String>, AllocError>
    ensures { IfOk result (λ here. map string_bytes here.items
        ≡ spec.lines_here zones.now places.now poses.now (map string_bytes lines.now)) }
{
    let numbers = line_numbers(alloc, lines, zones, places, poses)?;
    copies_of(alloc, lines, &numbers)
}

/// Whether a number is that of a machine's pose, by the first of its poses.
fn is_nth(number: usize, first: usize, nth: usize) -> bool
    ensures { result ≡ nat_eq (first + nth) number }
{
    number >= first && number - first == nth
}

/// Whether a pose of a machine is one of these.
fn is_among(numbers: &[usize], first: usize, nth: usize) -> bool
    ensures { result ≡ spec.has_number numbers.now (first + nth) }
{
    numbers.iter().any(|number| is_nth(*number, first, nth))
}

/// Which of a machine's poses are on the word. The plant numbers its poses from `first`.
pub(crate) fn pose_numbers(
    alloc: Global,
    count: usize,
    first: usize,
    numbers: &[usize],
) -> Result<Vec<usize>, AllocError>
    ensures { IfOk result (λ own. own.items
        ≡ filter (λ k. spec.has_number numbers.now (first + k)) (range_with_len 0 count)) }
{
    let mut own = Vec::new(alloc);
    for nth in 0..count {
        push_if(&mut own, nth, is_among(numbers, first, nth))?;
    }
    Ok(own)
}

/// Copies of a machine's poses that are on the word.
fn poses_here(
    alloc: Global,
    poses: &[PoseRow],
    first: usize,
    numbers: &[usize],
) -> Result<Vec<PoseRow>, AllocError>
    ensures { IfOk result (λ here. map texts.pose_texts here.items
        ≡ spec.poses_here first numbers.now (map texts.pose_texts poses.now)) }
{
    let own = pose_numbers(alloc, poses.len(), first, numbers)?;
    copies_of(alloc, poses, &own)
}

/// The number of the first pose of the next machine.
fn number_after(first: usize, poses: &[PoseRow]) -> Result<usize, DocumentFault>
    ensures { IfOk result (λ next. next ≡ first + length poses.now) }
{
    match first.checked_add(poses.len()) {
        Some(next) => Ok(next),
        None => Err(too_many(Key::Poses, MAX_POSES)),
    }
}

/// The names of a machine's poses.
pub(crate) fn names_of_poses(alloc: Global, poses: &[PoseRow]) -> Result<Names, DocumentFault>
    ensures { IfOk result (λ names.
        names ≡ spec.names_of_poses (map texts.pose_texts poses.now)) }
{
    let mut names = Names::new(alloc);
    'poses: for pose in 0..poses.len() {
        if names.len() >= MAX_NAMES {
            return Err(too_many(Key::Poses, MAX_POSES));
        }
        push_name(alloc, &mut names, poses[pose].name.as_str())?;
    }
    Ok(names)
}

/// The row of a machine in the word's document, with these of its poses.
fn machine_with(
    alloc: Global,
    row: &MachineRow,
    poses: Vec<PoseRow>,
    zones: &KindNames,
    places: &KindNames,
) -> Result<MachineRow, DocumentFault>
    ensures { IfOk result (λ made. texts.machine_texts made ≡ spec.machine_with zones.now
        places.now (map texts.pose_texts poses.items) (texts.machine_texts row.now)) }
{
    let pose_names = KindNames {
        all: names_of_poses(alloc, &row.poses)?,
        own: names_of_poses(alloc, &poses)?,
    };
    let program = lines_here(alloc, &row.program, zones, places, &pose_names)?;
    Ok(MachineRow {
        name: copy(alloc, row.name.as_str())?,
        places: texts_here(alloc, &row.places, places)?,
        sources: texts_here(alloc, &row.sources, places)?,
        sinks: texts_here(alloc, &row.sinks, places)?,
        poses,
        sensors: copies(alloc, &row.sensors)?,
        program,
    })
}

/// The machines of the word's document.
fn machines_from(
    alloc: Global,
    rows: &[MachineRow],
    zones: &KindNames,
    places: &KindNames,
    poses: &[usize],
) -> Result<Vec<MachineRow>, DocumentFault>
    ensures { IfOk result (λ made. map texts.machine_texts made.items ≡ spec.machines_from zones.now
        places.now poses.now 0 (map texts.machine_texts rows.now)) }
{
    let mut made = Vec::new(alloc);
    let mut first = 0;
    'machines: for i in 0..rows.len() {
        let row = &rows[i];
        let own = poses_here(alloc, &row.poses, first, poses)?;
        let machine = machine_with(alloc, row, own, zones, places)?;
        made.push(machine)?;
        first = number_after(first, &row.poses)?;
    }
    Ok(made)
}

// ---- motors

/// The row of a motor in the word's document.
fn motor_with(
    alloc: Global,
    row: &MotorRow,
    zones: &KindNames,
    places: &KindNames,
) -> Result<MotorRow, AllocError>
    ensures { IfOk result (λ made. texts.motor_texts made
        ≡ spec.motor_with zones.now places.now (texts.motor_texts row.now)) }
{
    let name = copy(alloc, row.name.as_str())?;
    let machine = copy(alloc, row.machine.as_str())?;
    let holds = postures_here(alloc, &row.holds, zones)?;
    let stands = postures_here(alloc, &row.stands, zones)?;
    let full = texts_here(alloc, &row.full, places)?;
    let empty = texts_here(alloc, &row.empty, places)?;
    Ok(MotorRow {
        name,
        machine,
        holds,
        stands,
        full,
        empty,
    })
}

/// The motors of the word's document.
fn motors_with(
    alloc: Global,
    rows: &[MotorRow],
    zones: &KindNames,
    places: &KindNames,
) -> Result<Vec<MotorRow>, AllocError>
    ensures { IfOk result (λ made. map texts.motor_texts made.items
        ≡ map (spec.motor_with zones.now places.now) (map texts.motor_texts rows.now)) }
{
    let mut made = Vec::new(alloc);
    'motors: for motor in 0..rows.len() {
        let row = motor_with(alloc, &rows[motor], zones, places)?;
        made.push(row)?;
    }
    Ok(made)
}

// ---- the document

/// The document of a word with these zones, poses and places, by their numbers in the plant.
pub fn document_on(
    alloc: Global,
    document: &Document,
    zones: &KindNames,
    places: &KindNames,
    zone_numbers: &[usize],
    pose_numbers: &[usize],
) -> Result<Document, DocumentFault>
    ensures machines { IfOk result (λ made. map texts.machine_texts made.machines.items
        ≡ spec.machines_from zones.now places.now pose_numbers.now 0
        (map texts.machine_texts document.now.machines.items)) }
    ensures zones { IfOk result (λ made. map texts.zone_texts made.zones.items
        ≡ spec.picked (map texts.zone_texts document.now.zones.items) zone_numbers.now) }
    ensures motors { IfOk result (λ made. map texts.motor_texts made.motors.items
        ≡ map (spec.motor_with zones.now places.now)
        (map texts.motor_texts document.now.motors.items)) }
    ensures hazards { IfOk result (λ made. map texts.hazard_texts made.hazards.items
        ≡ map texts.hazard_texts document.now.hazards.items) }
{
    Ok(Document {
        machines: machines_from(alloc, &document.machines, zones, places, pose_numbers)?,
        zones: copies_of(alloc, &document.zones, zone_numbers)?,
        motors: motors_with(alloc, &document.motors, zones, places)?,
        hazards: copies(alloc, &document.hazards)?,
    })
}
