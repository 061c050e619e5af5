//! A plan's document: its rows, in which machines, zones and places are texts.

use crate::fault::RowOf;

/// The posture that a pose gives a zone.
#[derive(Drop)]
pub struct PostureRow {
    /// The zone's name.
    pub zone: String,
    /// The posture's word.
    pub posture: String,
}

/// A pose of a machine.
#[derive(Drop)]
pub struct PoseRow {
    /// Its name.
    pub name: String,
    /// What it gives, by zones.
    pub gives: Vec<PostureRow>,
    /// Whether it can be taken only after moving.
    pub after_moving: bool,
}

/// A machine, `[[machine]]` in the document.
#[derive(Drop)]
pub struct MachineRow {
    /// Its name.
    pub name: String,
    /// The names of the places that it keeps.
    pub places: Vec<String>,
    /// The names of those of its places to which plates come from outside.
    pub sources: Vec<String>,
    /// The names of those from which they go there.
    pub sinks: Vec<String>,
    /// Its poses.
    pub poses: Vec<PoseRow>,
    /// The names of its sensors.
    pub sensors: Vec<String>,
    /// What it does in order, again and again: in each text the words of a step.
    pub program: Vec<String>,
}

/// The way of a plate, by the names of two places.
#[derive(Drop)]
pub struct WayRow {
    /// The place that it leaves.
    pub from: String,
    /// The place that it comes to.
    pub to: String,
}

/// A zone, `[[zone]]` in the document, or a side of one that lists its guests: each of these has a row.
#[derive(Drop)]
pub struct ZoneRow {
    /// Where the row stands.
    pub at: RowOf,
    /// The name of the zone that lists its guests, of which this is one.
    pub space: Option<String>,
    /// Whether it is a side of the same zone as the row before it.
    pub joins: bool,
    /// Its name.
    pub name: String,
    /// The machine to which it belongs, by name.
    pub host: String,
    /// The other machine, by name.
    pub guest: String,
    /// The way of a plate while the zone is open inward.
    pub inward: Option<WayRow>,
    /// The way of a plate while the zone is open outward.
    pub outward: Option<WayRow>,
}

/// A motor, or a part that stands somewhere, `[[motor]]` in the document.
#[derive(Drop)]
pub struct MotorRow {
    /// Its name.
    pub name: String,
    /// The machine whose motor or part it is, by name.
    pub machine: String,
    /// The zones that the machine has to hold, each with the word of the posture that it has to have, or `any`.
    pub holds: Vec<PostureRow>,
    /// The postures that zones of the machine have to have, held or not.
    pub stands: Vec<PostureRow>,
    /// The names of the places that have to be full.
    pub full: Vec<String>,
    /// The names of the places that have to be empty.
    pub empty: Vec<String>,
}

/// Two motors that are never to be permitted both, `[[hazard]]` in the document.
#[derive(Drop)]
pub struct HazardRow {
    /// Its name.
    pub name: String,
    /// The one motor, by name.
    pub first: String,
    /// The other, by name.
    pub second: String,
}

/// A document: its machines, zones, motors and hazards, in order.
#[derive(Drop)]
pub struct Document {
    /// The machines.
    pub machines: Vec<MachineRow>,
    /// The zones.
    pub zones: Vec<ZoneRow>,
    /// The motors.
    pub motors: Vec<MotorRow>,
    /// The hazards.
    pub hazards: Vec<HazardRow>,
}
