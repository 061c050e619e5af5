//! What joins zones: a pose joins those that it looks at, a place those whose ways touch it.
ghost use Rattle.std.specs.Prelude.{◌≡◌, ◌∷◌, ◌++◌, ◌<◌, ◌^◌, [], IfOk, OnOk, nat_eq, if◌then◌else◌};
ghost use Rattle.std.specs.List.{list_any};
ghost use Rattle.plan_words.specs.Groups as groups;
ghost use Rattle.plan_words.specs.Groups.{zones_of};

use crate::plant::PlantTables;
use plan_types::Way;
use std::alloc::{AllocError, Global};

/// Whether a way, if there is one, starts or ends at a place.
fn is_end(way: Option<Way>, place: usize) -> bool
    ensures { result ≡ groups.is_end way place }
{
    match way {
        Some(way) => usize::from(way.from) == place || usize::from(way.to) == place,
        None => false,
    }
}

/// Whether a number is one of these.
pub(crate) fn contains(numbers: &[usize], number: usize) -> bool
    ensures { result ≡ list_any (nat_eq number) numbers.now }
{
    numbers.iter().any(|other| number == *other)
}

/// Appends a number, if it is to be there.
pub(crate) fn push_if(
    numbers: &mut Vec<usize>,
    number: usize,
    there: bool,
) -> Result<(), AllocError>
    ensures { OnOk result (numbers.new.items
        ≡ numbers.old.items ++ (if there then number ∷ [] else [])) }
{
    if there {
        numbers.push(number)?;
    }
    Ok(())
}

impl PlantTables {
    /// Whether a pose looks at a zone: it gives it a posture; or it moves, or comes only after moving, and its machine
    /// hosts the zone.
    fn looks_at(&self, pose: usize, zone: usize) -> bool
        ensures { result ≡ groups.looks_at self.now pose zone }
    {
        self.posture(pose, zone).is_some()
            || (self.is_moving_pose(pose) || self.is_after_moving(pose))
                && self.host(zone) == self.machine(pose)
    }

    /// Whether a way through a zone starts or ends at a place.
    fn touches(&self, place: usize, zone: usize) -> bool
        ensures { result ≡ groups.touches self.now place zone }
    {
        let row = self.zone(zone);
        is_end(row.inward, place) || is_end(row.outward, place)
    }

    /// The zones that a pose looks at.
    #[tactic(auto, using(crate::proofs::Loops::filter_more))]
    pub(crate) fn zones_by_pose(&self, pose: usize, alloc: Global) -> Result<Vec<usize>, AllocError>
        ensures { let test = groups.looks_at self.now pose in
            IfOk result (λ zones. zones.items ≡ zones_of self.now test) }
    {
        let mut zones = Vec::new(alloc);
        for zone in 0..self.zone_count() {
            push_if(&mut zones, zone, self.looks_at(pose, zone))?;
        }
        Ok(zones)
    }

    /// The zones whose ways touch a place.
    #[tactic(auto, using(crate::proofs::Loops::filter_more))]
    pub(crate) fn zones_by_place(
        &self,
        place: usize,
        alloc: Global,
    ) -> Result<Vec<usize>, AllocError>
        ensures { let test = groups.touches self.now place in
            IfOk result (λ zones. zones.items ≡ zones_of self.now test) }
    {
        let mut zones = Vec::new(alloc);
        for zone in 0..self.zone_count() {
            push_if(&mut zones, zone, self.touches(place, zone))?;
        }
        Ok(zones)
    }

    /// A zone and the next one, if they are of one space.
    pub(crate) fn with_space(&self, zone: usize, alloc: Global) -> Result<Vec<usize>, AllocError>
        requires { zone < 2 ^ 63 }
        ensures { IfOk result (λ zones. zones.items ≡ groups.with_space self.now zone) }
    {
        if self.joins(zone + 1) {
            Ok(vec![in alloc; zone, zone + 1]?)
        } else {
            Ok(Vec::new(alloc))
        }
    }
}
