//! Laws, each the contract of a function that does nothing: the map of the zones is a map, and the
//! set of the places is a set.
ghost use Rattle.cell_rules.specs.MapLaws as law;

/// Look-up after an update, at that zone and at another; two maps with the same value at each zone
/// are equal; and the values after mapping a function, or with one value everywhere.
#[tactic(auto, using(crate::proofs::MapsHold::zones_are_a_map))]
pub fn zones_are_a_map()
    ensures { law.ZonesAreAMap }
{}

/// Membership after an insertion and a removal, at that place and at another; two sets with the same
/// members are equal; and the empty set has none.
#[tactic(auto, using(crate::proofs::MapsHold::places_are_a_set))]
pub fn places_are_a_set()
    ensures { law.PlacesAreASet }
{}

/// The map of the zones has the look-ups and the updates of std's finite map.
#[tactic(auto, using(crate::proofs::MapsHold::zones_are_std_map))]
pub fn zones_are_std_map()
    ensures { law.ZonesAreStdMap }
{}

/// The set of the places has the membership, the insertions and the removals of std's finite set,
/// and its empty set.
#[tactic(auto, using(crate::proofs::MapsHold::places_are_std_set))]
pub fn places_are_std_set()
    ensures { law.PlacesAreStdSet }
{}
