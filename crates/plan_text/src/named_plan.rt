//! A plan with the names of its machines, zones, places and poses.
ghost use Rattle.std.specs.Prelude.{◌≡◌};
ghost use Rattle.plan_word.specs.Layout.{counts_of};
ghost use Rattle.plan_text.specs.Named.{named_in};

use crate::names::Names;
use plan_types::Plan;
use plan_word::Layout;
use std::marker::Model;

/// A plan with names.
#[derive(Debug, Drop)]
pub struct NamedPlan {
    pub(crate) plan: Plan,
    pub(crate) layout: Layout,
    pub(crate) machines: Names,
    pub(crate) zones: Names,
    pub(crate) spaces: Names,
    pub(crate) places: Names,
    pub(crate) poses: Names,
}

impl Model for NamedPlan {
    ghost use Rattle.std.specs.Prelude.{◌≡◌};
    ghost use Rattle.plan_word.specs.Layout.{counts_of};
    ghost use Rattle.plan_text.specs.Named.{Named};

    ghost Value = { Named };

    ghost view = { λ a. record {
      plan = a.plan;
      machines = a.machines;
      zones = a.zones;
      spaces = a.spaces;
      places = a.places;
      poses = a.poses;
    } };

    ghost invariant = { λ a. a.layout ≡ counts_of a.plan };
}

impl NamedPlan {
    /// A plan with the names of its machines, zones, places and poses, each in the order of the numbers, and of each
    /// zone the name of its space.
    pub fn new(
        plan: Plan,
        machines: Names,
        zones: Names,
        spaces: Names,
        places: Names,
        poses: Names,
    ) -> NamedPlan
        ensures { result ≡ named_in plan machines zones spaces places poses }
    {
        let layout = Layout::of(&plan);
        NamedPlan {
            plan,
            layout,
            machines,
            zones,
            spaces,
            places,
            poses,
        }
    }

    /// The plan.
    pub fn plan(&self) -> &Plan
        ensures { result.now ≡ self.now.plan }
    {
        &self.plan
    }

    /// The layout of the plan's word.
    pub fn layout(&self) -> Layout
        ensures { result ≡ counts_of self.now.plan }
    {
        self.layout
    }

    /// The names of the machines.
    pub fn machines(&self) -> &Names
        ensures { result.now ≡ self.now.machines }
    {
        &self.machines
    }

    /// The names of the zones.
    pub fn zones(&self) -> &Names
        ensures { result.now ≡ self.now.zones }
    {
        &self.zones
    }

    /// The name of each zone's space, by the zone's number: the zone's own, if it is a space by itself.
    pub fn spaces(&self) -> &Names
        ensures { result.now ≡ self.now.spaces }
    {
        &self.spaces
    }

    /// The names of the places.
    pub fn places(&self) -> &Names
        ensures { result.now ≡ self.now.places }
    {
        &self.places
    }

    /// The names of the poses of all machines. Poses of two machines may have the same name.
    pub fn poses(&self) -> &Names
        ensures { result.now ≡ self.now.poses }
    {
        &self.poses
    }
}
