//! Motors that the poses of a plan keep apart: from some postures of a host's zones its poses lead to none in which
//! both motors could be permitted.
ghost use Rattle.std.specs.Prelude.{◌≡◌, ◌↔◌, ◌<◌, ℕ, false, get_or, IsTrue, IsSome, IsNone, IfSome};
ghost use Rattle.plan_types.specs.Table.{pose_count};
ghost use Rattle.plan_rules.specs.State.{posture_at};
ghost use Rattle.plan_rules.specs.Sound.{implies};
ghost use Rattle.plan_motors.specs.Poses as together;
ghost use Rattle.plan_motors.specs.Poses.{LeadOn, GivesWell, LeavesAlone, MovingLeads, LeadToDanger, LeadsFurther};
ghost use Rattle.plan_motors.specs.Poses.{AreFound, LeadsByMoving, AreLeads, LeadSomewhere};
ghost use Rattle.plan_motors.specs.Poses.{IsApartByPoses, NeverFromPostures};

use crate::check::is_hosted;
use crate::exclusion::{is_shared, owner_for, owner_needed};
use crate::motor::Motor;
use plan_rules::laws::lawful_histories;
use plan_rules::{State, ZoneState};
use plan_types::{MAX_ZONES, Plan, Posture};

/// From which postures of a host's zones its poses lead to some in which two motors could both be permitted.
#[derive(Clone, Copy, Debug, PartialEq, Eq)]
pub struct Leads {
    /// The zones whose posture doesn't matter, since poses can give them one of these.
    pub any: [bool; MAX_ZONES],
    /// Whether zones that all move lead there, by a pose that comes only after moving.
    pub by_moving: bool,
    /// The zones whose posture then doesn't matter, since poses can make them move.
    pub any_moving: [bool; MAX_ZONES],
}

fn fits_in(plan: &Plan, first: &Motor, second: &Motor, zone: u8, posture: Posture) -> bool
    ensures { result ≡ together.fits_in plan.now first.now second.now zone posture }
{
    let owner = owner_for(plan, zone, owner_needed(first, second, zone), Some(posture));
    let at = ZoneState {
        owner,
        flag: false,
        posture,
    };
    is_shared(plan, first, second, zone, at)
}

fn leads_on(
    plan: &Plan,
    first: &Motor,
    second: &Motor,
    moving: bool,
    zone: u8,
    posture: Posture,
) -> bool
    ensures { result ≡ together.leads_on plan.now first.now second.now moving zone posture }
{
    if moving {
        posture == Posture::Moving
    } else {
        fits_in(plan, first, second, zone, posture)
    }
}

fn given_leads_on(
    plan: &Plan,
    first: &Motor,
    second: &Motor,
    moving: bool,
    zone: u8,
    given: Option<Posture>,
) -> bool
    ensures { result ≡ together.given_leads_on plan.now first.now second.now moving zone given }
{
    match given {
        Some(posture) => leads_on(plan, first, second, moving, zone, posture),
        None => true,
    }
}

fn matters(plan: &Plan, host: u8, any: &[bool; MAX_ZONES], zone: u8) -> bool
    ensures { result ≡ together.matters plan.now host any.now zone }
{
    let at = usize::from(zone);
    is_hosted(plan, zone, host) && !(at < MAX_ZONES && any[at])
}

/// Whether a zone is well, if it matters.
fn suits(plan: &Plan, host: u8, any: &[bool; MAX_ZONES], zone: u8, well: bool) -> bool
    ensures { result ≡ implies (together.matters plan.now host any.now zone) well }
{
    !matters(plan, host, any, zone) || well
}

fn gives_well(
    plan: &Plan,
    first: &Motor,
    second: &Motor,
    host: u8,
    any: &[bool; MAX_ZONES],
    moving: bool,
    pose: u8,
) -> bool
    ensures { IsTrue result ↔ GivesWell plan.now first.now second.now host any.now moving pose }
{
    for zone in 0..plan.zone_count() {
        let given = plan.posture_of(pose, zone);
        let well = given_leads_on(plan, first, second, moving, zone, given);
        if !suits(plan, host, any, zone, well) {
            return false;
        }
    }
    true
}

fn leaves_alone(plan: &Plan, host: u8, any: &[bool; MAX_ZONES], pose: u8) -> bool
    ensures { IsTrue result ↔ LeavesAlone plan.now host any.now pose }
{
    for zone in 0..plan.zone_count() {
        let given = plan.posture_of(pose, zone);
        if !(!matters(plan, host, any, zone) || given.is_none()) {
            return false;
        }
    }
    true
}

fn moving_leads(
    plan: &Plan,
    first: &Motor,
    second: &Motor,
    host: u8,
    any: &[bool; MAX_ZONES],
    pose: u8,
) -> bool
    ensures { IsTrue result ↔ MovingLeads plan.now first.now second.now host any.now pose }
{
    for zone in 0..plan.zone_count() {
        let after = plan.posture_of(pose, zone).unwrap_or(Posture::Moving);
        let well = leads_on(plan, first, second, false, zone, after);
        if !suits(plan, host, any, zone, well) {
            return false;
        }
    }
    true
}

/// Whether the postures of a state lead on.
fn lead_on(
    plan: &Plan,
    first: &Motor,
    second: &Motor,
    host: u8,
    any: &[bool; MAX_ZONES],
    moving: bool,
    state: &State,
) -> bool
    ensures { IsTrue result
        ↔ LeadOn plan.now first.now second.now host any.now moving (λ z. posture_at state.now z) }
{
    for zone in 0..plan.zone_count() {
        let posture = state.zone(zone).posture;
        let well = leads_on(plan, first, second, moving, zone, posture);
        if !suits(plan, host, any, zone, well) {
            return false;
        }
    }
    true
}

/// Whether a machine's pose that may be taken at any time gives only postures that lead on, and one of them to a zone
/// that matters.
fn leads_further(
    plan: &Plan,
    first: &Motor,
    second: &Motor,
    host: u8,
    any: &[bool; MAX_ZONES],
    moving: bool,
    pose: u8,
) -> bool
    ensures { IsTrue result ↔ LeadsFurther plan.now first.now second.now host any.now moving pose }
{
    let row = plan.pose(pose);
    row.machine == host
        && !row.after_moving
        && gives_well(plan, first, second, host, any, moving, pose)
        && !leaves_alone(plan, host, any, pose)
}

/// The first such pose.
fn next_pose(
    plan: &Plan,
    first: &Motor,
    second: &Motor,
    host: u8,
    any: &[bool; MAX_ZONES],
    moving: bool,
) -> Option<u8>
    ensures there { IfSome result (λ p. p < pose_count plan.now) }
    ensures further { IfSome result
        (λ p. LeadsFurther plan.now first.now second.now host any.now moving p) }
    ensures none { IsNone result → (p : ℕ) → p < pose_count plan.now
        → ¬ LeadsFurther plan.now first.now second.now host any.now moving p }
{
    for pose in 0..plan.pose_count() {
        if leads_further(plan, first, second, host, any, moving, pose) {
            return Some(pose);
        }
    }
    None
}

/// These zones, and those to which a pose gives postures.
fn with_given(plan: &Plan, any: &[bool; MAX_ZONES], pose: u8) -> [bool; MAX_ZONES]
    ensures { (z : ℕ) → z < 10 → get_or result z false ≡ together.is_any_before plan.now any.now pose z }
{
    let mut more = [false; MAX_ZONES];
    for zone in 0..MAX_ZONES {
        more[zone] = any[zone] || plan.posture_of(pose, zone as u8).is_some();
    }
    more
}

/// The zones of which any posture will do. Each round finds one more at least, so ten find all.
fn any_of(plan: &Plan, first: &Motor, second: &Motor, host: u8, moving: bool) -> [bool; MAX_ZONES]
    ensures { AreFound plan.now first.now second.now host moving result }
{
    let _ = plan.machines();
    let mut any = [false; MAX_ZONES];
    for found in 0..MAX_ZONES {
        match next_pose(plan, first, second, host, &any, moving) {
            Some(pose) => any = with_given(plan, &any, pose),
            None => return any,
        }
    }
    any
}

/// Whether a pose leads from zones that all move to danger.
fn leads_by_moving(
    plan: &Plan,
    first: &Motor,
    second: &Motor,
    host: u8,
    any: &[bool; MAX_ZONES],
    pose: u8,
) -> bool
    requires { pose < pose_count plan.now }
    ensures { IsTrue result ↔ LeadsByMoving plan.now first.now second.now host any.now pose }
{
    let row = plan.pose(pose);
    row.machine == host && row.after_moving && moving_leads(plan, first, second, host, any, pose)
}

/// The first such pose.
fn pose_by_moving(
    plan: &Plan,
    first: &Motor,
    second: &Motor,
    host: u8,
    any: &[bool; MAX_ZONES],
) -> Option<u8>
    ensures some { IfSome result (λ p. LeadsByMoving plan.now first.now second.now host any.now p) }
    ensures none { IsNone result → (p : ℕ) → p < pose_count plan.now
        → ¬ LeadsByMoving plan.now first.now second.now host any.now p }
{
    for pose in 0..plan.pose_count() {
        if leads_by_moving(plan, first, second, host, any, pose) {
            return Some(pose);
        }
    }
    None
}

fn leads_of(plan: &Plan, first: &Motor, second: &Motor, host: u8) -> Leads
    ensures { AreLeads plan.now first.now second.now host result }
{
    let any = any_of(plan, first, second, host, false);
    let by_moving = pose_by_moving(plan, first, second, host, &any).is_some();
    let any_moving = any_of(plan, first, second, host, true);
    Leads {
        any,
        by_moving,
        any_moving,
    }
}

fn lead_somewhere(
    plan: &Plan,
    first: &Motor,
    second: &Motor,
    host: u8,
    leads: &Leads,
    opening: &State,
) -> bool
    ensures { IsTrue result
        ↔ LeadSomewhere plan.now first.now second.now host leads.now (λ z. posture_at opening.now z) }
{
    lead_on(plan, first, second, host, &leads.any, false, opening)
        || leads.by_moving && lead_on(plan, first, second, host, &leads.any_moving, true, opening)
}

/// Whether the poses of a host keep two motors apart, from an opening on.
fn is_apart(plan: &Plan, first: &Motor, second: &Motor, host: u8, opening: &State) -> bool
    ensures apart { IsTrue result → IsApartByPoses plan.now first.now second.now opening.now host }
    ensures danger { result ≡ false
        → LeadToDanger plan.now first.now second.now host (λ z. posture_at opening.now z) }
{
    let _ = plan.machines();
    lawful_histories();
    let leads = leads_of(plan, first, second, host);
    let led = lead_somewhere(plan, first, second, host, &leads, opening);
    !led
}

fn first_apart(plan: &Plan, first: &Motor, second: &Motor, opening: &State) -> Option<u8>
    ensures shown { IfSome result (λ host. IsApartByPoses plan.now first.now second.now opening.now host) }
    ensures none { IsNone result → (m : ℕ) → m < plan.now.machines
        → LeadToDanger plan.now first.now second.now m (λ z. posture_at opening.now z) }
{
    for host in 0..plan.machines() {
        if is_apart(plan, first, second, host, opening) {
            return Some(host);
        }
    }
    None
}

/// The first machine whose poses keep two motors apart, from an opening on: from the postures of the opening they never
/// lead to postures in which both could be permitted, though a sound state may permit both. All zones that the machine
/// hosts count. If there is none, the poses of each machine lead from the opening's postures to such as both could
/// have.
pub fn apart_by_poses(plan: &Plan, first: &Motor, second: &Motor, opening: &State) -> Option<u8>
    ensures shown { IfSome result (λ host. IsApartByPoses plan.now first.now second.now opening.now host) }
    ensures never { IsSome result → NeverFromPostures plan.now opening.now first.now second.now }
    ensures none { IsNone result → (m : ℕ) → m < plan.now.machines
        → LeadToDanger plan.now first.now second.now m (λ z. posture_at opening.now z) }
{
    first_apart(plan, first, second, opening)
}
