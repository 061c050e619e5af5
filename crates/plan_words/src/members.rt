//! The zones, poses and places of one word, by their numbers in the plant.
ghost use Rattle.std.specs.Prelude.{◌≡◌, IfOk, slice_get};
ghost use Rattle.plan_words.specs.Groups.{labels_of, number_in};
ghost use Rattle.plan_words.specs.Plant.{together};

use crate::joining::{contains, push_if};
use crate::labelling::label_of;
use crate::plant::PlantTables;
use std::alloc::{AllocError, Global};
use std::marker::Model;

/// What a word has: a number of the word is a place in these rows.
#[derive(Debug, Drop)]
pub struct Members {
    pub(crate) zones: Vec<usize>,
    pub(crate) poses: Vec<usize>,
    pub(crate) places: Vec<usize>,
}

impl Model for Members {
    ghost use Rattle.plan_words.specs.Group.{Group};

    ghost Value = { Group };

    ghost view = { λ a.
        record { zones = a.zones.items; poses = a.poses.items; places = a.places.items } };
}

impl Members {
    /// The first zone, if there is one.
    pub(crate) fn first_zone(&self) -> Option<usize>
        ensures { result ≡ slice_get self.now.zones 0 }
    {
        self.zones.first().copied()
    }

    /// The zones.
    pub(crate) fn zones(&self) -> &[usize]
        ensures { result.now ≡ self.now.zones }
    {
        &self.zones
    }

    /// The poses.
    pub(crate) fn poses(&self) -> &[usize]
        ensures { result.now ≡ self.now.poses }
    {
        &self.poses
    }

    /// The places.
    pub(crate) fn places(&self) -> &[usize]
        ensures { result.now ≡ self.now.places }
    {
        &self.places
    }
}

/// The number in some numbers of one of them: how many come before it; how many there are, if it is none of them.
#[tactic(auto, using(crate::proofs::Loops::found_at, crate::proofs::Loops::not_at, crate::proofs::Loops::none_at))]
pub(crate) fn number_in(numbers: &[usize], number: usize) -> usize
    ensures { result ≡ number_in numbers.now number }
{
    let mut before = 0;
    for other in numbers {
        if *other == number {
            return before;
        }
        before += 1;
    }
    before
}

impl PlantTables {
    #[tactic(auto, using(crate::proofs::Loops::filter_more))]
    fn zones_labelled(
        &self,
        labels: &[usize],
        groups: &[usize],
        alloc: Global,
    ) -> Result<Vec<usize>, AllocError>
        requires { labels.now ≡ labels_of self.now }
        ensures { IfOk result (λ zones. zones.items ≡ (together self.now groups.now).zones) }
    {
        let mut zones = Vec::new(alloc);
        for zone in 0..self.zone_count() {
            push_if(&mut zones, zone, contains(groups, label_of(labels, zone)))?;
        }
        Ok(zones)
    }

    #[tactic(auto, using(crate::proofs::Loops::filter_more))]
    fn poses_labelled(
        &self,
        labels: &[usize],
        groups: &[usize],
        alloc: Global,
    ) -> Result<Vec<usize>, AllocError>
        requires { labels.now ≡ labels_of self.now }
        ensures { IfOk result (λ poses. poses.items ≡ (together self.now groups.now).poses) }
    {
        let mut poses = Vec::new(alloc);
        for pose in 0..self.pose_count() {
            let label = self.pose_label(labels, pose, alloc)?;
            push_if(&mut poses, pose, contains(groups, label))?;
        }
        Ok(poses)
    }

    #[tactic(auto, using(crate::proofs::Loops::filter_more))]
    fn places_labelled(
        &self,
        labels: &[usize],
        groups: &[usize],
        alloc: Global,
    ) -> Result<Vec<usize>, AllocError>
        requires { labels.now ≡ labels_of self.now }
        ensures { IfOk result (λ places. places.items ≡ (together self.now groups.now).places) }
    {
        let mut places = Vec::new(alloc);
        for place in 0..self.place_count() {
            let label = self.place_label(labels, place, alloc)?;
            push_if(&mut places, place, contains(groups, label))?;
        }
        Ok(places)
    }

    /// What groups that share a word have together, by their labels.
    pub(crate) fn members(
        &self,
        labels: &[usize],
        groups: &[usize],
        alloc: Global,
    ) -> Result<Members, AllocError>
        requires { labels.now ≡ labels_of self.now }
        ensures { IfOk result (λ members. members ≡ together self.now groups.now) }
    {
        let zones = self.zones_labelled(labels, groups, alloc)?;
        let poses = self.poses_labelled(labels, groups, alloc)?;
        let places = self.places_labelled(labels, groups, alloc)?;
        Ok(Members {
            zones,
            poses,
            places,
        })
    }
}
