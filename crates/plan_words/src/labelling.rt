//! The label of each zone: zones of one label are one group.
ghost use Rattle.std.specs.Prelude.{◌≡◌, ◌-◌, ◌≤◌, IfOk, map, nat_eq, if◌then◌else◌};
ghost use Rattle.std.specs.List.{list_any, range_with_len};
ghost use Rattle.plan_types.specs.Table as table;
ghost use Rattle.plan_words.specs.Groups as groups;
ghost use Rattle.plan_words.specs.Groups.{all_merged, by_places, by_poses, by_spaces};
ghost use Rattle.plan_words.specs.Groups.{label_of, labels_of, label_for};
ghost use Rattle.plan_words.specs.Route.{group_of_place, group_of_pose};

use crate::plant::PlantTables;
use std::alloc::{AllocError, Global};

/// A number that no zone, pose or place has.
pub(crate) const PAST: usize = 255;

/// The label of a zone.
pub(crate) fn label_of(labels: &[usize], zone: usize) -> usize
    ensures { result ≡ label_of labels.now zone }
{
    match labels.get(zone) {
        Some(label) => *label,
        None => PAST,
    }
}

/// Whether one of some zones has a label.
fn is_among(labels: &[usize], zones: &[usize], label: usize) -> bool
    ensures { result ≡ list_any (λ y. nat_eq (label_of labels.now y) label) zones.now }
{
    zones.iter().any(|zone| label_of(labels, *zone) == label)
}

/// The label that a zone's label becomes, where some zones are joined.
fn joined_label(labels: &[usize], zones: &[usize], first: usize, label: usize) -> usize
    ensures { let any = list_any (λ y. nat_eq (label_of labels.now y) label) zones.now in
        result ≡ (if any then first else label) }
{
    if is_among(labels, zones, label) {
        first
    } else {
        label
    }
}

#[tactic(auto, using(crate::proofs::Loops::merged_by, crate::proofs::Loops::merged_none))]
/// The labels after some zones are joined: all labels among them become that of the first one.
pub(crate) fn merge_labels(
    labels: &[usize],
    zones: &[usize],
    alloc: Global,
) -> Result<Vec<usize>, AllocError>
    ensures { IfOk result (λ new. new.items ≡ groups.merged labels.now zones.now) }
{
    match zones.first() {
        None => labels.to_vec(alloc),
        Some(zone) => {
            let first = label_of(labels, *zone);
            labels
                .iter()
                .map(|label| joined_label(labels, zones, first, *label))
                .collect(alloc)
        }
    }
}

impl PlantTables {
    #[tactic(auto, using(crate::proofs::Loops::range_next))]
    /// Each zone's own number.
    fn own_labels(&self, alloc: Global) -> Result<Vec<usize>, AllocError>
        ensures { let count = table.zone_count self.now in
            IfOk result (λ labels. labels.items ≡ range_with_len 0 count) }
    {
        let mut labels = Vec::new(alloc);
        for zone in 0..self.zone_count() {
            labels.push(zone)?;
        }
        Ok(labels)
    }

    #[tactic(auto, using(crate::proofs::Loops::merged_more))]
    fn merged_by_poses(
        &self,
        mut labels: Vec<usize>,
        alloc: Global,
    ) -> Result<Vec<usize>, AllocError>
        ensures { IfOk result (λ new. new.items ≡ all_merged labels.items (by_poses self.now)) }
    {
        for pose in 0..self.pose_count() {
            let zones = self.zones_by_pose(pose, alloc)?;
            labels = merge_labels(&labels, &zones, alloc)?;
        }
        Ok(labels)
    }

    #[tactic(auto, using(crate::proofs::Loops::merged_more))]
    fn merged_by_places(
        &self,
        mut labels: Vec<usize>,
        alloc: Global,
    ) -> Result<Vec<usize>, AllocError>
        ensures { IfOk result (λ new. new.items ≡ all_merged labels.items (by_places self.now)) }
    {
        for place in 0..self.place_count() {
            let zones = self.zones_by_place(place, alloc)?;
            labels = merge_labels(&labels, &zones, alloc)?;
        }
        Ok(labels)
    }

    #[tactic(auto, using(crate::proofs::Loops::merged_more))]
    fn merged_by_spaces(
        &self,
        mut labels: Vec<usize>,
        alloc: Global,
    ) -> Result<Vec<usize>, AllocError>
        requires { table.zone_count self.now ≤ 40 }
        ensures { IfOk result (λ new. new.items ≡ all_merged labels.items (by_spaces self.now)) }
    {
        for zone in 0..self.zone_count().saturating_sub(1) {
            let zones = self.with_space(zone, alloc)?;
            labels = merge_labels(&labels, &zones, alloc)?;
        }
        Ok(labels)
    }

    #[tactic(auto, using(crate::proofs::Loops::three_merged))]
    /// The label of each zone, by its number.
    pub(crate) fn labels(&self, alloc: Global) -> Result<Vec<usize>, AllocError>
        requires { table.zone_count self.now ≤ 40 }
        ensures { IfOk result (λ labels. labels.items ≡ labels_of self.now) }
    {
        let labels = self.own_labels(alloc)?;
        let labels = self.merged_by_poses(labels, alloc)?;
        let labels = self.merged_by_places(labels, alloc)?;
        self.merged_by_spaces(labels, alloc)
    }

    #[tactic(auto, using(crate::proofs::Loops::label_by, crate::proofs::Loops::label_none))]
    /// The label of what joins some zones: the first one's; what joins none has the last label, which no zone has.
    fn label_for(&self, labels: &[usize], zones: &[usize]) -> usize
        requires { labels.now ≡ labels_of self.now }
        ensures { result ≡ label_for self.now zones.now }
    {
        match zones.first() {
            Some(zone) => label_of(labels, *zone),
            None => self.zone_count(),
        }
    }

    /// The label of a pose.
    pub(crate) fn pose_label(
        &self,
        labels: &[usize],
        pose: usize,
        alloc: Global,
    ) -> Result<usize, AllocError>
        requires { labels.now ≡ labels_of self.now }
        ensures { IfOk result (λ label. label ≡ group_of_pose self.now pose) }
    {
        let zones = self.zones_by_pose(pose, alloc)?;
        Ok(self.label_for(labels, &zones))
    }

    /// The label of a place.
    pub(crate) fn place_label(
        &self,
        labels: &[usize],
        place: usize,
        alloc: Global,
    ) -> Result<usize, AllocError>
        requires { labels.now ≡ labels_of self.now }
        ensures { IfOk result (λ label. label ≡ group_of_place self.now place) }
    {
        let zones = self.zones_by_place(place, alloc)?;
        Ok(self.label_for(labels, &zones))
    }
}
