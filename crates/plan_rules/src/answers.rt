//! The answer to a call, and the state that it leaves.
ghost use Rattle.std.specs.Prelude.{◌≡◌, set, Some, None, false};
ghost use Rattle.plan_types.specs.declared.answer.Answer.TheVariants.{Done};
ghost use Rattle.plan_rules.specs.Reply as replies;

use crate::refusals::inquire_refusal;
use crate::state::{State, ZoneState};
use plan_types::{Answer, Call, MAX_PLACES, MAX_ZONES, Plan, Refusal, Transfer};

/// The other party of a zone.
fn other_party(plan: &Plan, machine: u8, zone: u8) -> u8
    ensures { result ≡ replies.other_party plan.now machine zone }
{
    let row = plan.zone(zone);
    if machine == row.host {
        row.guest
    } else {
        row.host
    }
}

/// Who gets the space of a zone, and whether a plate comes into the zone.
#[derive(Clone, Copy)]
struct Handover {
    zone: u8,
    owner: Option<u8>,
    plate: bool,
}

impl Handover {
    fn to(zone: u8, machine: u8, plate: bool) -> Handover
        ensures { result ≡ record { zone = zone; owner = Some machine; plate = plate } }
    {
        Handover {
            zone,
            owner: Some(machine),
            plate,
        }
    }

    fn free(zone: u8) -> Handover
        ensures { result ≡ record { zone = zone; owner = None; plate = false } }
    {
        Handover {
            zone,
            owner: None,
            plate: false,
        }
    }
}

impl State {
    fn refusal(&self, plan: &Plan, machine: u8, call: Call) -> Option<Refusal>
        ensures { result ≡ replies.refusal plan.now self.now machine call }
    {
        match call {
            Call::Claim(zone) => self.claim_refusal(plan, machine, zone),
            Call::Give(zone) => self.give_refusal(plan, machine, zone),
            Call::Yield(zone) => self.yield_refusal(plan, machine, zone),
            Call::Take(zone) => self.take_refusal(plan, machine, zone),
            Call::Release(zone) => self.release_refusal(plan, machine, zone),
            Call::SetPose(pose) => self.pose_refusal(plan, machine, pose),
            Call::Inquire(zone) => inquire_refusal(plan, zone),
            Call::Stop => self.stop_refusal(machine),
            Call::Resume => self.resume_refusal(machine),
            Call::Advance(place) => self.advance_refusal(plan, machine, place),
        }
    }

    fn with_zone(&self, zone: u8, value: ZoneState) -> [ZoneState; MAX_ZONES]
        ensures { result ≡ set self.now.zones zone value }
    {
        let mut zones = self.zones;
        if usize::from(zone) < MAX_ZONES {
            zones[usize::from(zone)] = value;
        }
        zones
    }

    fn with_place(&self, place: u8, full: bool) -> [bool; MAX_PLACES]
        ensures { result ≡ set self.now.full place full }
    {
        let mut places = self.full;
        if usize::from(place) < MAX_PLACES {
            places[usize::from(place)] = full;
        }
        places
    }

    /// What a zone becomes if the space of a zone gets an owner, and that zone a plate or none more.
    fn zone_handed(&self, plan: &Plan, to: Handover, zone: u8) -> ZoneState
        ensures { result ≡ replies.handed plan.now self.now to.zone to.owner to.plate zone }
    {
        let before = self.zone(zone);
        let inside = plan.same_space(to.zone, zone);
        ZoneState {
            owner: if inside { to.owner } else { before.owner },
            flag: (to.plate && zone == to.zone) || before.flag,
            posture: before.posture,
        }
    }

    fn with_owner(&self, plan: &Plan, to: Handover) -> [ZoneState; MAX_ZONES]
        ensures { result ≡ replies.with_owner plan.now self.now to.zone to.owner to.plate }
    {
        [
            self.zone_handed(plan, to, 0),
            self.zone_handed(plan, to, 1),
            self.zone_handed(plan, to, 2),
            self.zone_handed(plan, to, 3),
            self.zone_handed(plan, to, 4),
            self.zone_handed(plan, to, 5),
            self.zone_handed(plan, to, 6),
            self.zone_handed(plan, to, 7),
            self.zone_handed(plan, to, 8),
            self.zone_handed(plan, to, 9),
        ]
    }

    fn zone_after_pose(&self, plan: &Plan, pose: u8, zone: u8) -> ZoneState
        ensures { result ≡ replies.posed plan.now self.now pose zone }
    {
        let at = self.zone(zone);
        let posture = plan.posture_of(pose, zone).unwrap_or(at.posture);
        ZoneState { posture, ..at }
    }

    fn zones_after_pose(&self, plan: &Plan, pose: u8) -> [ZoneState; MAX_ZONES]
        ensures { result ≡ replies.all_posed plan.now self.now pose }
    {
        [
            self.zone_after_pose(plan, pose, 0),
            self.zone_after_pose(plan, pose, 1),
            self.zone_after_pose(plan, pose, 2),
            self.zone_after_pose(plan, pose, 3),
            self.zone_after_pose(plan, pose, 4),
            self.zone_after_pose(plan, pose, 5),
            self.zone_after_pose(plan, pose, 6),
            self.zone_after_pose(plan, pose, 7),
            self.zone_after_pose(plan, pose, 8),
            self.zone_after_pose(plan, pose, 9),
        ]
    }

    fn zones_after(&self, plan: &Plan, machine: u8, call: Call) -> [ZoneState; MAX_ZONES]
        ensures { result ≡ replies.zones_after plan.now self.now machine call }
    {
        match call {
            Call::Claim(zone) => self.with_owner(plan, Handover::to(zone, machine, false)),
            Call::Give(zone) => {
                let other = other_party(plan, machine, zone);
                self.with_owner(plan, Handover::to(zone, other, true))
            }
            Call::Yield(zone) => {
                let other = other_party(plan, machine, zone);
                self.with_owner(plan, Handover::to(zone, other, false))
            }
            Call::Take(zone) => {
                let at = self.zone(zone);
                self.with_zone(zone, ZoneState { flag: false, ..at })
            }
            Call::Release(zone) => self.with_owner(plan, Handover::free(zone)),
            Call::SetPose(pose) => self.zones_after_pose(plan, pose),
            Call::Inquire(_) | Call::Stop | Call::Resume | Call::Advance(_) => self.zones,
        }
    }

    fn places_after_give(&self, way: Option<Transfer>) -> [bool; MAX_PLACES]
        ensures { result ≡ replies.emptied self.now.full way }
    {
        match way {
            Some(way) => self.with_place(way.from, false),
            None => self.full,
        }
    }

    fn places_after_take(&self, way: Option<Transfer>) -> [bool; MAX_PLACES]
        ensures { result ≡ replies.filled self.now.full way }
    {
        match way {
            Some(way) => self.with_place(way.to, true),
            None => self.full,
        }
    }

    fn places_after(&self, plan: &Plan, machine: u8, call: Call) -> [bool; MAX_PLACES]
        ensures { result ≡ replies.places_after plan.now self.now machine call }
    {
        match call {
            Call::Give(zone) => self.places_after_give(self.transfer_given(plan, machine, zone)),
            Call::Take(zone) => self.places_after_take(plan.transfer(
                zone,
                self.zone(zone).posture,
            )),
            Call::Advance(place) => self.with_place(place, !self.is_full(place)),
            _ => self.full,
        }
    }

    fn stopped_after(&self, call: Call) -> bool
        ensures { result ≡ replies.stopped_after self.now call }
    {
        match call {
            Call::Stop => true,
            Call::Resume => false,
            _ => self.stopped,
        }
    }

    fn after_call(&self, plan: &Plan, machine: u8, call: Call) -> State
        requires { replies.reply plan.now self.now machine call ≡ Done }
        ensures { result ≡ replies.changed plan.now self.now machine call }
    {
        State {
            zones: self.zones_after(plan, machine, call),
            full: self.places_after(plan, machine, call),
            stamp: self.stamp + 1,
            stopped: self.stopped_after(call),
        }
    }

    /// What a call is answered if nothing refuses it.
    fn answer_if_accepted(&self, call: Call) -> Answer
        ensures { result ≡ replies.accepted self.now call }
    {
        match call {
            Call::Inquire(zone) => {
                let at = self.zone(zone);
                Answer::Shown {
                    owner: at.owner,
                    flag: at.flag,
                    posture: at.posture,
                }
            }
            _ => Answer::Done,
        }
    }
}

/// What the interlock answers to a call.
pub fn answer(plan: &Plan, state: &State, machine: u8, call: Call) -> Answer
    ensures { result ≡ replies.reply plan.now state.now machine call }
{
    match state.refusal(plan, machine, call) {
        Some(refusal) => Answer::Refused(refusal),
        None => state.answer_if_accepted(call),
    }
}

/// Answers a call, and makes its change if it is done.
pub fn apply(plan: &Plan, state: &mut State, machine: u8, call: Call) -> Answer
    ensures answer { result ≡ replies.reply plan.now state.old machine call }
    ensures next { state.new ≡ replies.next plan.now state.old machine call }
{
    let answer = answer(plan, state, machine, call);
    if let Answer::Done = answer {
        *state = state.after_call(plan, machine, call);
    }
    answer
}
