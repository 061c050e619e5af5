//! Why a call is refused: each condition by itself, and for each call the order of its conditions.
ghost use Rattle.std.specs.Prelude.{◌≡◌, ◌&&◌};
ghost use Rattle.plan_types.specs.Table.{zone_count, same_space};
ghost use Rattle.plan_types.specs.Below.{any_below};
ghost use Rattle.plan_rules.specs.State as states;
ghost use Rattle.plan_rules.specs.Sound.{is_open as opens_way};
ghost use Rattle.plan_rules.specs.Refusals as refusals;

use crate::state::{LAST_STAMP, State};
use plan_types::{Plan, Posture, Refusal, Transfer, WATCH};

/// Whether a zone is open, inward or outward.
fn is_open(posture: Posture) -> bool
    ensures { result ≡ opens_way posture }
{
    matches!(posture, Posture::OpenIn | Posture::OpenOut)
}

fn not_party(plan: &Plan, machine: u8, zone: u8) -> Option<Refusal>
    ensures { result ≡ refusals.not_party plan.now machine zone }
{
    (!plan.is_party(machine, zone)).then_some(Refusal::NotParty)
}

fn not_watch(machine: u8) -> Option<Refusal>
    ensures { result ≡ refusals.not_watch machine }
{
    (machine != WATCH).then_some(Refusal::NotParty)
}

fn not_own_end(plan: &Plan, machine: u8, place: u8) -> Option<Refusal>
    ensures { result ≡ refusals.not_own_end plan.now machine place }
{
    (!plan.has_end(machine, place)).then_some(Refusal::NotParty)
}

fn held_refusal(owner: Option<u8>, machine: u8) -> Option<Refusal>
    ensures { result ≡ refusals.held_by owner machine }
{
    match owner {
        Some(owner) if owner != machine => Some(Refusal::Held(owner)),
        _ => None,
    }
}

fn wrong_way(way: Option<Transfer>) -> Option<Refusal>
    ensures { result ≡ refusals.wrong_way way }
{
    way.is_none().then_some(Refusal::WrongWay)
}

fn leads_to(way: Option<Transfer>, place: u8) -> bool
    ensures { result ≡ states.leads_to way place }
{
    match way {
        Some(way) => way.to == place,
        None => false,
    }
}

pub(crate) fn inquire_refusal(plan: &Plan, zone: u8) -> Option<Refusal>
    ensures { result ≡ refusals.inquire_refusal plan.now zone }
{
    (!(zone < plan.zone_count())).then_some(Refusal::NotParty)
}

impl State {
    fn owns(&self, machine: u8, zone: u8) -> bool
        ensures { result ≡ refusals.owns self.now machine zone }
    {
        self.zone(zone).owner == Some(machine)
    }

    fn already_mine(&self, machine: u8, zone: u8) -> Option<Refusal>
        ensures { result ≡ refusals.already_mine self.now machine zone }
    {
        self.owns(machine, zone).then_some(Refusal::AlreadyMine)
    }

    fn shut_to_guest(&self, plan: &Plan, machine: u8, zone: u8) -> Option<Refusal>
        ensures { result ≡ refusals.shut_to_guest plan.now self.now machine zone }
    {
        let posture = self.zone(zone).posture;
        let bars = machine == plan.zone(zone).guest && !is_open(posture);
        bars.then_some(Refusal::Shut(posture))
    }

    fn worn_refusal(&self) -> Option<Refusal>
        ensures { result ≡ refusals.worn self.now }
    {
        (!(self.stamp < LAST_STAMP)).then_some(Refusal::Worn)
    }

    fn while_stopped(&self) -> Option<Refusal>
        ensures { result ≡ refusals.while_stopped self.now }
    {
        self.stopped.then_some(Refusal::Stopped)
    }

    fn not_stopped(&self) -> Option<Refusal>
        ensures { result ≡ refusals.not_stopped self.now }
    {
        (!self.stopped).then_some(Refusal::NotStopped)
    }

    fn not_owner(&self, machine: u8, zone: u8) -> Option<Refusal>
        ensures { result ≡ refusals.not_owner self.now machine zone }
    {
        let owner = self.zone(zone).owner;
        (owner != Some(machine)).then_some(Refusal::NotOwner(owner))
    }

    fn has_plate_of(&self, plan: &Plan, zone: u8, other: u8) -> bool
        ensures { let at = states.zone_at self.now other in
            result ≡ (same_space plan.now other zone && at.flag) }
    {
        plan.same_space(other, zone) && self.zone(other).flag
    }

    /// Whether a plate is in the space of a zone.
    #[tactic(auto, using(plan_types::proofs::lemmas::Below::any_below_more))]
    fn space_has_plate(&self, plan: &Plan, zone: u8) -> bool
        ensures { result ≡ states.space_has_plate plan.now self.now zone }
    {
        let mut found = false;
        for other in 0..plan.zone_count() {
            found = found || self.has_plate_of(plan, zone, other);
        }
        found
    }

    fn plate_in_zone(&self, plan: &Plan, zone: u8) -> Option<Refusal>
        ensures { result ≡ refusals.plate_in_zone plan.now self.now zone }
    {
        self.space_has_plate(plan, zone)
            .then_some(Refusal::PlateInZone(zone))
    }

    fn no_plate_in_zone(&self, zone: u8) -> Option<Refusal>
        ensures { result ≡ refusals.no_plate_in_zone self.now zone }
    {
        (!self.zone(zone).flag).then_some(Refusal::NoPlate)
    }

    fn shut_while_moving(&self, zone: u8) -> Option<Refusal>
        ensures { result ≡ refusals.shut_while_moving self.now zone }
    {
        let moves = self.zone(zone).posture == Posture::Moving;
        moves.then_some(Refusal::Shut(Posture::Moving))
    }

    fn shut_refusal(&self, zone: u8) -> Option<Refusal>
        ensures { result ≡ refusals.shut self.now zone }
    {
        let posture = self.zone(zone).posture;
        (!is_open(posture)).then_some(Refusal::Shut(posture))
    }

    /// The way of a plate that a machine can give.
    pub(crate) fn transfer_given(&self, plan: &Plan, machine: u8, zone: u8) -> Option<Transfer>
        ensures { result ≡ refusals.transfer_given plan.now self.now machine zone }
    {
        match plan.transfer(zone, self.zone(zone).posture) {
            Some(way) if way.giver == machine => Some(way),
            _ => None,
        }
    }

    fn nothing_to_give(&self, way: Option<Transfer>) -> Option<Refusal>
        ensures { result ≡ refusals.nothing_to_give self.now way }
    {
        (!self.is_full(way?.from)).then_some(Refusal::NoPlate)
    }

    fn is_coming(&self, plan: &Plan, place: u8, zone: u8) -> bool
        ensures { result ≡ states.is_coming plan.now (states.zone_at self.now zone) place zone }
    {
        let at = self.zone(zone);
        at.flag && leads_to(plan.transfer(zone, at.posture), place)
    }

    /// How many plates are on their way to a place.
    #[tactic(auto, using(crate::proofs::lemmas::Below::sum_below_more))]
    fn plates_coming(&self, plan: &Plan, place: u8) -> u8
        ensures { result ≡ states.coming plan.now self.now place }
    {
        let mut coming = 0;
        for zone in 0..plan.zone_count() {
            coming += u8::from(self.is_coming(plan, place, zone));
        }
        coming
    }

    /// Whether a place has a plate, or one is on its way to it.
    fn is_taken(&self, plan: &Plan, place: u8) -> bool
        ensures { result ≡ refusals.is_taken plan.now self.now place }
    {
        self.is_full(place) || 0 < self.plates_coming(plan, place)
    }

    fn is_onto_taken(&self, plan: &Plan, way: Option<Transfer>) -> bool
        ensures { result ≡ refusals.is_onto_taken plan.now self.now way }
    {
        match way {
            Some(way) => self.is_taken(plan, way.to),
            None => false,
        }
    }

    fn no_room(&self, plan: &Plan, way: Option<Transfer>) -> Option<Refusal>
        ensures { result ≡ refusals.no_room plan.now self.now way }
    {
        self.is_onto_taken(plan, way).then_some(Refusal::PlaceFull)
    }

    pub(crate) fn claim_refusal(&self, plan: &Plan, machine: u8, zone: u8) -> Option<Refusal>
        ensures { result ≡ refusals.claim_refusal plan.now self.now machine zone }
    {
        let owner = self.zone(zone).owner;
        not_party(plan, machine, zone)
            .or(self.while_stopped())
            .or(self.already_mine(machine, zone))
            .or(held_refusal(owner, machine))
            .or(self.shut_to_guest(plan, machine, zone))
            .or(self.worn_refusal())
    }

    pub(crate) fn give_refusal(&self, plan: &Plan, machine: u8, zone: u8) -> Option<Refusal>
        ensures { result ≡ refusals.give_refusal plan.now self.now machine zone }
    {
        let way = self.transfer_given(plan, machine, zone);
        not_party(plan, machine, zone)
            .or(self.while_stopped())
            .or(self.not_owner(machine, zone))
            .or(self.plate_in_zone(plan, zone))
            .or(wrong_way(way))
            .or(self.nothing_to_give(way))
            .or(self.no_room(plan, way))
            .or(self.worn_refusal())
    }

    pub(crate) fn yield_refusal(&self, plan: &Plan, machine: u8, zone: u8) -> Option<Refusal>
        ensures { result ≡ refusals.yield_refusal plan.now self.now machine zone }
    {
        not_party(plan, machine, zone)
            .or(self.not_owner(machine, zone))
            .or(self.plate_in_zone(plan, zone))
            .or(self.shut_refusal(zone))
            .or(self.worn_refusal())
    }

    pub(crate) fn take_refusal(&self, plan: &Plan, machine: u8, zone: u8) -> Option<Refusal>
        ensures { result ≡ refusals.take_refusal plan.now self.now machine zone }
    {
        not_party(plan, machine, zone)
            .or(self.not_owner(machine, zone))
            .or(self.no_plate_in_zone(zone))
            .or(self.worn_refusal())
    }

    pub(crate) fn release_refusal(&self, plan: &Plan, machine: u8, zone: u8) -> Option<Refusal>
        ensures { result ≡ refusals.release_refusal plan.now self.now machine zone }
    {
        not_party(plan, machine, zone)
            .or(self.not_owner(machine, zone))
            .or(self.plate_in_zone(plan, zone))
            .or(self.shut_while_moving(zone))
            .or(self.worn_refusal())
    }

    fn can_go(&self, plan: &Plan, place: u8) -> bool
        ensures { result ≡ refusals.can_go plan.now self.now place }
    {
        plan.place(place).sink && self.is_full(place)
    }

    fn source_taken(&self, plan: &Plan, place: u8) -> Option<Refusal>
        ensures { result ≡ refusals.source_taken plan.now self.now place }
    {
        let source = plan.place(place).source;
        let bars = source && self.is_taken(plan, place) && !self.can_go(plan, place);
        bars.then_some(Refusal::PlaceFull)
    }

    fn sink_empty(&self, plan: &Plan, place: u8) -> Option<Refusal>
        ensures { result ≡ refusals.sink_empty plan.now self.now place }
    {
        let bars = !plan.place(place).source && !self.is_full(place);
        bars.then_some(Refusal::NoPlate)
    }

    pub(crate) fn advance_refusal(&self, plan: &Plan, machine: u8, place: u8) -> Option<Refusal>
        ensures { result ≡ refusals.advance_refusal plan.now self.now machine place }
    {
        not_own_end(plan, machine, place)
            .or(self.while_stopped())
            .or(self.source_taken(plan, place))
            .or(self.sink_empty(plan, place))
            .or(self.worn_refusal())
    }

    pub(crate) fn stop_refusal(&self, machine: u8) -> Option<Refusal>
        ensures { result ≡ refusals.stop_refusal self.now machine }
    {
        not_watch(machine)
            .or(self.while_stopped())
            .or(self.worn_refusal())
    }

    pub(crate) fn resume_refusal(&self, machine: u8) -> Option<Refusal>
        ensures { result ≡ refusals.resume_refusal self.now machine }
    {
        not_watch(machine)
            .or(self.not_stopped())
            .or(self.worn_refusal())
    }

    fn posture_with(&self, plan: &Plan, pose: u8, zone: u8) -> Posture
        ensures { result ≡ refusals.posture_with plan.now self.now pose zone }
    {
        plan.posture_of(pose, zone)
            .unwrap_or(self.zone(zone).posture)
    }

    fn is_concerned(&self, plan: &Plan, machine: u8, pose: u8, zone: u8) -> bool
        ensures { result ≡ refusals.is_concerned plan.now self.now machine pose zone }
    {
        plan.zone(zone).host == machine
            && (plan.is_moving_pose(pose)
                || self.posture_with(plan, pose, zone) != self.zone(zone).posture)
    }

    fn lacks_pose(&self, plan: &Plan, machine: u8, pose: u8) -> Option<Refusal>
        ensures { result ≡ refusals.lacks_pose plan.now machine pose }
    {
        (!plan.has_pose(machine, pose)).then_some(Refusal::NoPose)
    }

    fn moves_while_stopped(&self, plan: &Plan, pose: u8) -> Option<Refusal>
        ensures { result ≡ refusals.moves_while_stopped plan.now self.now pose }
    {
        (plan.is_moving_pose(pose) && self.stopped).then_some(Refusal::Stopped)
    }

    fn unowned_by_pose(&self, plan: &Plan, machine: u8, pose: u8, zone: u8) -> Option<Refusal>
        ensures { result ≡ refusals.unowned_by_pose plan.now self.now machine pose zone }
    {
        let unowned = self.is_concerned(plan, machine, pose, zone) && !self.owns(machine, zone);
        unowned.then_some(Refusal::NotOwner(self.zone(zone).owner))
    }

    #[tactic(auto, using(plan_types::proofs::lemmas::Below::first_below_more))]
    fn any_unowned_by_pose(&self, plan: &Plan, machine: u8, pose: u8) -> Option<Refusal>
        ensures { result
            ≡ refusals.first_zone plan.now (refusals.unowned_by_pose plan.now self.now machine pose) }
    {
        let mut first = None;
        for zone in 0..plan.zone_count() {
            first = first.or(self.unowned_by_pose(plan, machine, pose, zone));
        }
        first
    }

    fn plate_under_pose(&self, plan: &Plan, machine: u8, pose: u8, zone: u8) -> Option<Refusal>
        ensures { result ≡ refusals.plate_under_pose plan.now self.now machine pose zone }
    {
        let under = self.is_concerned(plan, machine, pose, zone)
            && self.space_has_plate(plan, zone);
        under.then_some(Refusal::PlateInZone(zone))
    }

    #[tactic(auto, using(plan_types::proofs::lemmas::Below::first_below_more))]
    fn any_plate_under_pose(&self, plan: &Plan, machine: u8, pose: u8) -> Option<Refusal>
        ensures { result
            ≡ refusals.first_zone plan.now (refusals.plate_under_pose plan.now self.now machine pose) }
    {
        let mut first = None;
        for zone in 0..plan.zone_count() {
            first = first.or(self.plate_under_pose(plan, machine, pose, zone));
        }
        first
    }

    fn stands_at(&self, plan: &Plan, machine: u8, zone: u8) -> bool
        ensures { result ≡ refusals.stands_at plan.now self.now machine zone }
    {
        plan.zone(zone).host == machine && self.zone(zone).posture != Posture::Moving
    }

    #[tactic(auto, using(crate::proofs::lemmas::Below::any_below_more))]
    fn stands_anywhere(&self, plan: &Plan, machine: u8) -> bool
        ensures { result
            ≡ any_below (refusals.stands_at plan.now self.now machine) (zone_count plan.now) }
    {
        let mut stands = false;
        for zone in 0..plan.zone_count() {
            stands = stands || self.stands_at(plan, machine, zone);
        }
        stands
    }

    fn jump(&self, plan: &Plan, machine: u8, pose: u8) -> Option<Refusal>
        ensures { result ≡ refusals.jump plan.now self.now machine pose }
    {
        let jumps = plan.pose(pose).after_moving && self.stands_anywhere(plan, machine);
        jumps.then_some(Refusal::Jump)
    }

    fn opens_onto_plate(&self, plan: &Plan, pose: u8, zone: u8) -> Option<Refusal>
        ensures { result ≡ refusals.opens_onto_plate plan.now self.now pose zone }
    {
        let opens = self.posture_with(plan, pose, zone) == Posture::OpenIn
            && self.zone(zone).posture != Posture::OpenIn
            && self.is_onto_taken(plan, plan.transfer(zone, Posture::OpenIn));
        opens.then_some(Refusal::PlaceFull)
    }

    #[tactic(auto, using(plan_types::proofs::lemmas::Below::first_below_more))]
    fn any_opens_onto_plate(&self, plan: &Plan, pose: u8) -> Option<Refusal>
        ensures { result
            ≡ refusals.first_zone plan.now (refusals.opens_onto_plate plan.now self.now pose) }
    {
        let mut first = None;
        for zone in 0..plan.zone_count() {
            first = first.or(self.opens_onto_plate(plan, pose, zone));
        }
        first
    }

    pub(crate) fn pose_refusal(&self, plan: &Plan, machine: u8, pose: u8) -> Option<Refusal>
        ensures { result ≡ refusals.pose_refusal plan.now self.now machine pose }
    {
        self.lacks_pose(plan, machine, pose)
            .or(self.moves_while_stopped(plan, pose))
            .or(self.any_unowned_by_pose(plan, machine, pose))
            .or(self.any_plate_under_pose(plan, machine, pose))
            .or(self.jump(plan, machine, pose))
            .or(self.any_opens_onto_plate(plan, pose))
            .or(self.worn_refusal())
    }
}
