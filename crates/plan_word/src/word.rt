//! The word of a state, and the state of a word.
ghost use Rattle.std.specs.Prelude.{◌≡◌, ◌≢◌, ◌≤◌, ◌↔◌, Some, IsNone, nat_eq};
ghost use Rattle.plan_types.specs.Table.{PlanTable};
ghost use Rattle.plan_rules.specs.declared.state.State.{State as PlanState};
ghost use Rattle.plan_rules.specs.State as states;
ghost use Rattle.plan_rules.specs.State.{last_stamp};
ghost use Rattle.plan_word.specs.declared.layout.Field.TheVariants.{Stamp, Stop};
ghost use Rattle.plan_word.specs.Layout.{counts_of};
ghost use Rattle.plan_word.specs.OfPlan.{IsOfPlan};
ghost use Rattle.plan_word.specs.Packed.{packed};
ghost use Rattle.plan_word.specs.Reading as reading;

use crate::codes::{zone_code, zone_of_code};
use crate::layout::{Field, Layout};
use crate::sound::is_sound;
use plan_rules::{State, ZoneState};
use plan_types::{MAX_PLACES, MAX_ZONES, Plan, Posture};

const FREE_ZONE: ZoneState = ZoneState {
    owner: None,
    flag: false,
    posture: Posture::Closed,
};

/// The word of a state: each field of the layout holds its part of the state, and the bits above are zero. A zone's
/// bits are those of `zone_code`. The word tells nothing of zones and places past the plan's tables, of a plate in a
/// zone through which no way goes, and of a posture that a zone's field doesn't tell: a state of the plan has none of
/// these.
pub fn pack(plan: &Plan, layout: &Layout, state: &State) -> u64
    requires layout { layout.now ≡ counts_of plan.now }
    requires stamp { state.now.stamp ≤ last_stamp }
    ensures { result ≡ packed plan.now state.now }
{
    let mut word = 0;
    for zone in 0..plan.zone_count() {
        let code = zone_code(plan, layout, zone, state.zone(zone));
        word = layout.with(word, Field::Zone(zone), code);
    }
    for place in 0..plan.place_count() {
        let full = u64::from(state.is_full(place));
        word = layout.with(word, Field::Place(place), full);
    }
    let word = layout.with(word, Field::Stamp, u64::from(state.stamp));
    layout.with(word, Field::Stop, u64::from(state.stopped))
}

/// What a word says about a zone: a free one past the end of the plan's table.
pub(crate) fn zone_in_word(plan: &Plan, layout: &Layout, word: u64, zone: u8) -> ZoneState
    requires { layout.now ≡ counts_of plan.now }
    ensures bits { result ≡ reading.zone_in_word plan.now word zone }
    ensures state { result ≡ states.zone_at (reading.state_told plan.now word) zone }
{
    if zone < plan.zone_count() {
        let first_code = layout.value_in(word, Field::Zone(plan.space(zone)));
        let code = layout.value_in(word, Field::Zone(zone));
        zone_of_code(plan, layout, zone, first_code, code)
    } else {
        FREE_ZONE
    }
}

/// Whether a word has a plate at a place.
pub(crate) fn is_full_in(plan: &Plan, layout: &Layout, word: u64, place: u8) -> bool
    requires { layout.now ≡ counts_of plan.now }
    ensures bit { result ≡ reading.place_told plan.now word place }
    ensures state { result ≡ states.is_full (reading.state_told plan.now word) place }
{
    place < plan.place_count() && layout.value_in(word, Field::Place(place)) == 1
}

fn zones_in_word(plan: &Plan, layout: &Layout, word: u64) -> [ZoneState; MAX_ZONES]
    requires { layout.now ≡ counts_of plan.now }
    ensures { result ≡ reading.zones_in_word plan.now word }
{
    let mut zones = [FREE_ZONE; MAX_ZONES];
    for zone in 0..MAX_ZONES {
        zones[zone] = zone_in_word(plan, layout, word, zone as u8);
    }
    zones
}

fn places_in_word(plan: &Plan, layout: &Layout, word: u64) -> [bool; MAX_PLACES]
    requires { layout.now ≡ counts_of plan.now }
    ensures { result ≡ reading.places_in_word plan.now word }
{
    let mut places = [false; MAX_PLACES];
    for place in 0..MAX_PLACES {
        places[place] = is_full_in(plan, layout, word, place as u8);
    }
    places
}

#[tactic(auto, unfolding(crate::specs::Reading::state_told))]
/// The stamp of a word, read without unpacking it. If the word is no state's, it is the number in the stamp's field.
pub fn stamp_of(layout: &Layout, word: u64) -> u32
    ensures told { result ≡ reading.told layout.now word Stamp }
    ensures stamp { (plan : PlanTable) (state : PlanState) → layout.now ≡ counts_of plan
        → IsOfPlan plan state → packed plan state ≡ word → result ≡ state.stamp }
    ensures state { (plan : PlanTable) → layout.now ≡ counts_of plan
        → result ≡ (reading.state_told plan word).stamp }
{
    layout.value_in(word, Field::Stamp) as u32
}

#[tactic(auto, unfolding(crate::specs::Reading::state_told))]
/// Whether a word tells that the plant is stopped.
pub(crate) fn is_stopped_in(layout: &Layout, word: u64) -> bool
    ensures told { result ≡ nat_eq (reading.told layout.now word Stop) 1 }
    ensures state { (plan : PlanTable) → layout.now ≡ counts_of plan
        → result ≡ (reading.state_told plan word).stopped }
{
    layout.value_in(word, Field::Stop) == 1
}

#[tactic(auto, unfolding(crate::specs::Reading::state_told))]
/// The state that the fields of a word tell, sound or not.
fn state_in(plan: &Plan, layout: &Layout, word: u64) -> State
    requires { layout.now ≡ counts_of plan.now }
    ensures { result ≡ reading.state_told plan.now word }
{
    State {
        zones: zones_in_word(plan, layout, word),
        full: places_in_word(plan, layout, word),
        stamp: stamp_of(layout, word),
        stopped: is_stopped_in(layout, word),
    }
}

/// The state of the plan that packs to a word, or `None` if there is none: a bit above the layout's width is set, an
/// owner has a spare code, or the state that the fields tell isn't sound. Fields tell no other posture than those
/// that the zone can have.
pub fn unpack(plan: &Plan, layout: &Layout, word: u64) -> Option<State>
    requires layout { layout.now ≡ counts_of plan.now }
    ensures some { (state : PlanState)
        → (result ≡ Some state) ↔ (IsOfPlan plan.now state × (packed plan.now state ≡ word)) }
    ensures none { IsNone result
        ↔ ((state : PlanState) → IsOfPlan plan.now state → packed plan.now state ≢ word) }
{
    let _ = plan.machines();
    let state = state_in(plan, layout, word);
    if is_sound(plan, state) && pack(plan, layout, &state) == word {
        Some(state)
    } else {
        None
    }
}
