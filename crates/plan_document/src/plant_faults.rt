//! What is wrong with a plant, said of its own document: in the document of one of its words rows and texts have other
//! numbers.

use crate::document::Document;
use crate::fault::{DocumentFault, GroupTooWide, Key, Location, PlanTextFault, RowOf, too_many};
use crate::naming::KindNames;
use crate::parts::{line_numbers, names_of_poses, numbers_here, pose_numbers};
use crate::resolving::{table_fault, zone_name};
use plan_words::{
    Limit, MAX_PLANT_MACHINES, MAX_PLANT_PLACES, MAX_PLANT_POSES, MAX_PLANT_ZONES, PlantFault,
};
use std::alloc::{AllocError, Global};

// ---- faults of the plant's tables

/// The fault of a plant's tables in words of its document.
pub fn plant_fault(alloc: Global, document: &Document, fault: PlantFault) -> PlanTextFault {
    match fault {
        PlantFault::TooMany(Limit::Words) => PlanTextFault::TooManyWords,
        PlantFault::TooMany(limit) => too_many_of(limit).into(),
        PlantFault::OfRow(fault) => table_fault(alloc, document, fault),
        PlantFault::OfWord { zone, fault } => {
            let name = zone.map_or("", |zone| zone_name(document, zone));
            match String::from_str(alloc, name) {
                Ok(zone) => PlanTextFault::GroupTooWide(GroupTooWide { zone, fault }),
                Err(AllocError) => PlanTextFault::Memory,
            }
        }
        PlantFault::OutOfMemory => PlanTextFault::Memory,
    }
}

/// The fault that a plant has too many rows of a kind.
fn too_many_of(limit: Limit) -> DocumentFault {
    match limit {
        Limit::Machines => too_many(Key::Machine, usize::from(MAX_PLANT_MACHINES)),
        Limit::Zones => too_many(Key::Zone, MAX_PLANT_ZONES),
        Limit::Poses => too_many(Key::Poses, MAX_PLANT_POSES),
        Limit::Places | Limit::Words => too_many(Key::Places, MAX_PLANT_PLACES),
    }
}

// ---- faults in the document of a word

/// What a plant's document has on one word.
#[derive(Clone, Copy)]
pub struct OnWord<'a> {
    /// The plant's document.
    pub document: &'a Document,
    /// The names of zones.
    pub zones: &'a KindNames,
    /// The names of places.
    pub places: &'a KindNames,
    /// The numbers of the poses on the word, in the plant.
    pub poses: &'a [usize],
}

impl OnWord<'_> {
    /// A fault in the word's document, where it stands in the plant's.
    pub fn in_plant(&self, alloc: Global, fault: PlanTextFault) -> PlanTextFault {
        match fault {
            PlanTextFault::Row { fault, .. } => match self.location(alloc, fault.location) {
                Ok(location) => location.fault(fault.wrong).into(),
                Err(fault) => fault.into(),
            },
            other => other,
        }
    }

    fn location(&self, alloc: Global, location: Location) -> Result<Location, DocumentFault> {
        let Location { row, key, item } = location;
        let item = match (key, item) {
            (Some(key), Some(item)) => Some(self.item(alloc, row, key, item)?),
            _ => item,
        };
        let row = self.row(alloc, row)?;
        Ok(Location { row, key, item })
    }

    /// Where a row of the word's document stands: all but poses have the plant's numbers.
    fn row(&self, alloc: Global, row: RowOf) -> Result<RowOf, DocumentFault> {
        match row {
            RowOf::Pose { machine, pose } => {
                let poses = self.poses_of(alloc, machine)?;
                Ok(RowOf::Pose {
                    machine,
                    pose: nth(&poses, pose),
                })
            }
            _ => Ok(row),
        }
    }

    /// Which text of a list in the plant's document is this one of the list in the word's.
    fn item(
        &self,
        alloc: Global,
        row: RowOf,
        key: Key,
        item: usize,
    ) -> Result<usize, DocumentFault> {
        if let (RowOf::Machine(machine), Key::Program) = (row, key) {
            let lines = self.lines_of(alloc, machine)?;
            return Ok(nth(&lines, item));
        }
        match self.places_in(row, key) {
            Some(texts) => {
                let texts = numbers_here(alloc, texts, self.places)?;
                Ok(nth(&texts, item))
            }
            None => Ok(item),
        }
    }

    /// The places that a key of a row lists, of which the word's document has but its own.
    fn places_in(&self, row: RowOf, key: Key) -> Option<&[String]> {
        let document = self.document;
        match row {
            RowOf::Machine(machine) => {
                let row = document.machines.get(machine)?;
                match key {
                    Key::Places => Some(&row.places),
                    Key::Sources => Some(&row.sources),
                    Key::Sinks => Some(&row.sinks),
                    _ => None,
                }
            }
            RowOf::Motor(motor) => {
                let row = document.motors.get(motor)?;
                match key {
                    Key::Full => Some(&row.full),
                    Key::Empty => Some(&row.empty),
                    _ => None,
                }
            }
            _ => None,
        }
    }

    /// Which lines of a machine's program stand in the word's document.
    fn lines_of(&self, alloc: Global, machine: usize) -> Result<Vec<usize>, DocumentFault> {
        let Some(row) = self.document.machines.get(machine) else {
            return Ok(Vec::new(alloc));
        };
        let names = names_of_poses(alloc, &row.poses)?;
        let numbers = self.poses_of(alloc, machine)?;
        let poses = KindNames::new(alloc, &names, &numbers)?;
        let lines = line_numbers(alloc, &row.program, self.zones, self.places, &poses)?;
        Ok(lines)
    }

    /// Which poses of a machine are on the word.
    fn poses_of(&self, alloc: Global, machine: usize) -> Result<Vec<usize>, AllocError> {
        let mut first = 0usize;
        for row in self.document.machines.iter().take(machine) {
            first = first.saturating_add(row.poses.len());
        }
        let count = match self.document.machines.get(machine) {
            Some(row) => row.poses.len(),
            None => 0,
        };
        pose_numbers(alloc, count, first, self.poses)
    }
}

/// The number with this number in a list; if it has none, as it is.
fn nth(numbers: &[usize], number: usize) -> usize {
    numbers.get(number).copied().unwrap_or(number)
}
