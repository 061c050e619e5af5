//! From the names in a document's rows to numbers: the tables of a plant on several words.
ghost use Rattle.std.specs.Prelude.{◌≡◌, ◌++◌, ℕ, List, [], length, IfOk, OnOk};
ghost use Rattle.std.specs.List.{AllZip};
ghost use Rattle.plan_text.specs.Answers.{posture_of};
ghost use Rattle.plan_document.specs.Names.{all_poses, numbered_poses, place_names, zone_names};
ghost use Rattle.plan_document.specs.Plants as spec;
ghost use Rattle.plan_document.specs.Postures.{AreGivenBelow};
ghost use Rattle.plan_document.specs.declared.document.PoseRow.{PoseRow as Pose};

use crate::document::{Document, MachineRow, PoseRow, PostureRow};
use crate::fault::{DocumentFault, Key, Location, RowOf, Wrong, too_many};
use crate::tables::{
    add_all_places, add_machine_names, add_name, add_zone_names, add_zone_rows, check_ends,
    given_by, number_of,
};
use plan_text::{MAX_NAMES, Names};
use plan_types::Posture;
use plan_words::{MAX_PLANT_POSES, MAX_PLANT_ZONES, PlantPose, PlantTables};
use std::alloc::Global;

/// The names of zones and places in a document, and the tables of its plant, by their numbers.
#[derive(Drop)]
pub struct PlantRows {
    pub zones: Names,
    pub places: Names,
    pub tables: PlantTables,
}

/// The names and the tables of a document, or the first fault of them.
pub fn plant_rows_of(alloc: Global, document: &Document) -> Result<PlantRows, DocumentFault>
    ensures zones { IfOk result (λ rows. rows.zones ≡ zone_names document.now.zones.items) }
    ensures places { IfOk result (λ rows. rows.places ≡ place_names document.now.machines.items) }
    ensures tables { IfOk result (λ rows. spec.IsPlantTableOf document.now rows.tables) }
{
    let mut machines = Names::new(alloc);
    let mut places = Names::new(alloc);
    let mut place_rows = Vec::new(alloc);
    let mut zones = Names::new(alloc);
    let mut taken = Names::new(alloc);
    let mut zone_rows = Vec::new(alloc);
    add_machine_names(alloc, &document.machines, &mut machines)?;
    add_all_places(
        alloc,
        &document.machines,
        MAX_NAMES,
        &mut places,
        &mut place_rows,
    )?;
    check_ends(alloc, &document.machines)?;
    add_zone_names(
        alloc,
        &document.zones,
        MAX_PLANT_ZONES,
        &mut zones,
        &mut taken,
    )?;
    add_zone_rows(alloc, &document.zones, &machines, &places, &mut zone_rows)?;
    let pose_rows = plant_poses_of(alloc, &document.machines, &zones)?;
    let tables = PlantTables {
        machines: machines.len() as u8,
        zones: zone_rows,
        poses: pose_rows,
        places: place_rows,
    };
    Ok(PlantRows {
        zones,
        places,
        tables,
    })
}

/// The poses of all machines.
fn plant_poses_of(
    alloc: Global,
    machines: &[MachineRow],
    zones: &Names,
) -> Result<Vec<PlantPose>, DocumentFault>
    ensures { IfOk result (λ rows.
        AllZip (spec.IsPlantPoseOf zones.now) (all_poses machines.now) rows.items) }
{
    let mut rows = Vec::new(alloc);
    for i in 0..machines.len() {
        add_plant_poses(alloc, &machines[i].poses, i, zones, &mut rows)?;
    }
    Ok(rows)
}

/// Adds the poses of a machine.
fn add_plant_poses(
    alloc: Global,
    poses: &[PoseRow],
    machine: usize,
    zones: &Names,
    rows: &mut Vec<PlantPose>,
) -> Result<(), DocumentFault>
    ensures { OnOk result ((before : List (ℕ × Pose))
        → AllZip (spec.IsPlantPoseOf zones.now) before rows.old.items
        → AllZip (spec.IsPlantPoseOf zones.now) (before ++ numbered_poses machine poses.now)
        rows.new.items) }
{
    let mut own = Names::new(alloc);
    for pose in 0..poses.len() {
        let at = RowOf::Pose { machine, pose };
        let said = &poses[pose];
        let name = said.name.as_str();
        add_name(alloc, &mut own, name, MAX_PLANT_POSES, at.key(Key::Name))?;
        let row = plant_pose_of(alloc, said, at, machine, zones)?;
        rows.push(row)?;
    }
    Ok(())
}

/// The pose of a row, by the names of zones.
fn plant_pose_of(
    alloc: Global,
    row: &PoseRow,
    at: RowOf,
    machine: usize,
    zones: &Names,
) -> Result<PlantPose, DocumentFault>
    ensures { IfOk result (spec.IsPlantPoseOf zones.now (machine, row.now)) }
{
    let gives = plant_gives_of(alloc, zones, &row.gives, at.key(Key::Gives))?;
    let machine = number_of(machine, at.key(Key::Name))?;
    Ok(PlantPose {
        machine,
        after_moving: row.after_moving,
        gives,
    })
}

/// What rows give each zone of a plant.
fn plant_gives_of(
    alloc: Global,
    zones: &Names,
    rows: &[PostureRow],
    at: Location,
) -> Result<[Option<Posture>; MAX_PLANT_ZONES], DocumentFault>
    ensures { IfOk result (AreGivenBelow 40 posture_of zones.now rows.now) }
{
    let mut gives = [None; MAX_PLANT_ZONES];
    for i in 0..rows.len() {
        let (zone, posture) = given_by(alloc, zones, &rows[i], at)?;
        if usize::from(zone) >= MAX_PLANT_ZONES {
            return Err(at.fault(Wrong::TooMany(MAX_PLANT_ZONES)));
        }
        gives[usize::from(zone)] = Some(posture);
    }
    Ok(gives)
}
