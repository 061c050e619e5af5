//! Laws of every legal history from a sound opening, for every plan, each the contract of a function that does nothing.
//! A history is the list of the events since the opening, oldest first. `plan.machines()` reads the plan, so the prover
//! knows that it is one.
ghost use Rattle.std.specs.Prelude.{◌++◌};
ghost use Rattle.plan_rules.specs.Sound.{IsSound, IsStart};
ghost use Rattle.plan_rules.specs.BrokenLaws.{LawsCanBeBroken};
ghost use Rattle.plan_rules.specs.ChangeLaws.{ChangesAreThese};
ghost use Rattle.plan_rules.specs.DoneLaws.{CallsAreDoneExactly};
ghost use Rattle.plan_rules.specs.History.{IsLegal};
ghost use Rattle.plan_rules.specs.Laws as law;
ghost use Rattle.plan_rules.specs.Laws.{Throughout};
ghost use Rattle.plan_rules.specs.LiftLaws.{LawsOfLift};
ghost use Rattle.plan_rules.specs.PlaceLaws.{FullPlaces};
ghost use Rattle.plan_rules.specs.PlainLaws.{PlainPlansStay};
ghost use Rattle.plan_rules.specs.PoseLaws.{PosesAreRefusedExactly, PosesNameLowestZones};
ghost use Rattle.plan_rules.specs.RefusalLaws.{OrdersAreKept, RefusalsTell};
ghost use Rattle.plan_rules.specs.RefusedLaws.{CallsAreRefusedExactly};
ghost use Rattle.plan_rules.specs.SayLaws.{RefusalsAreTrue};

use crate::state::State;
use plan_types::{Event, Plan};

/// Two machines never hold the same zone. Only who enters its space can hold it, and exactly the holder owns it in the
/// state after the history.
pub fn one_holder(plan: &Plan, opening: &State, history: &[Event])
    requires sound { IsSound plan.now opening.now }
    requires legal { IsLegal plan.now opening.now history.now }
    ensures { Throughout (law.OneHolder plan.now opening.now) history.now }
{
    let _ = plan.machines();
}

/// A space has one machine at a time: two machines never hold zones of one space.
pub fn one_at_a_time(plan: &Plan, opening: &State, history: &[Event])
    requires sound { IsSound plan.now opening.now }
    requires legal { IsLegal plan.now opening.now history.now }
    ensures { Throughout (law.OneAtATime plan.now opening.now) history.now }
{
    let _ = plan.machines();
}

/// A zone that moves is held by its host. Only its host changes its posture, while it holds the zone.
pub fn mover_is_host(plan: &Plan, opening: &State, history: &[Event])
    requires sound { IsSound plan.now opening.now }
    requires legal { IsLegal plan.now opening.now history.now }
    ensures { Throughout (law.MoverIsHost plan.now opening.now) history.now }
{
    let _ = plan.machines();
}

/// If a zone's guest holds it, the zone is open, by the events.
pub fn guest_only_while_open(plan: &Plan, opening: &State, history: &[Event])
    requires sound { IsSound plan.now opening.now }
    requires legal { IsLegal plan.now opening.now history.now }
    ensures { Throughout (law.GuestOnlyWhileOpen plan.now opening.now) history.now }
{
    let _ = plan.machines();
}

/// The number of plates, in places and in zones, grows by those that have come from outside, and shrinks by those that
/// have gone there.
pub fn plates_are_counted(plan: &Plan, opening: &State, history: &[Event])
    requires sound { IsSound plan.now opening.now }
    requires legal { IsLegal plan.now opening.now history.now }
    ensures { Throughout (law.PlatesAreCounted plan.now opening.now) history.now }
{
    let _ = plan.machines();
}

/// Where no place is a source or a sink, the number of plates never changes.
pub fn plates_are_kept(plan: &Plan, opening: &State, history: &[Event])
    requires sound { IsSound plan.now opening.now }
    requires legal { IsLegal plan.now opening.now history.now }
    ensures { Throughout (law.PlatesAreKept plan.now opening.now) history.now }
{
    let _ = plan.machines();
}

/// The stamp counts the Done events.
pub fn stamp_counts_changes(plan: &Plan, opening: &State, history: &[Event])
    requires { IsLegal plan.now opening.now history.now }
    ensures { Throughout (law.StampCountsChanges plan.now opening.now) history.now }
{}

/// While other machines make the events, a machine keeps each zone that it holds, with posture and flag, its own
/// places, and the postures of the zones that it hosts.
pub fn right_lasts(plan: &Plan, opening: &State, before: &[Event], more: &[Event])
    requires sound { IsSound plan.now opening.now }
    requires legal { IsLegal plan.now opening.now (before.now ++ more.now) }
    ensures { law.RightLasts plan.now opening.now before.now more.now }
{
    let _ = plan.machines();
}

/// The posture by the events is the one in the state after them.
pub fn posture_by_events(plan: &Plan, opening: &State, history: &[Event])
    requires sound { IsSound plan.now opening.now }
    requires legal { IsLegal plan.now opening.now history.now }
    ensures { Throughout (law.PostureByEvents plan.now opening.now) history.now }
{
    let _ = plan.machines();
}

/// The state after is sound. So a place has at most one plate, or one on its way to it.
pub fn stays_sound(plan: &Plan, opening: &State, history: &[Event])
    requires sound { IsSound plan.now opening.now }
    requires legal { IsLegal plan.now opening.now history.now }
    ensures { Throughout (law.StaysSound plan.now opening.now) history.now }
{
    let _ = plan.machines();
}

/// After each prefix of a history the plant is stopped, in the state, exactly if it was stopped at first or by a Done
/// stop, with no Done resume since. While it is stopped, no claim, no handover of a plate, no advance and no movement
/// is Done, so no pose that gives any zone Moving. The watch alone stops and resumes, in turn.
pub fn stopped_until_resumed(plan: &Plan, opening: &State, history: &[Event])
    requires { IsLegal plan.now opening.now history.now }
    ensures { Throughout (law.StoppedUntilResumed plan.now opening.now) history.now }
{}

/// A stop bars no other calls: all but `Stop` and `Resume` are answered as if the plant weren't stopped.
pub fn stop_bars_no_others()
    ensures { law.StopBarsNoOthers }
{}

/// A machine takes only its own poses; one that may come only after moving only while all zones that the machine hosts
/// move; one that moves only while the machine owns all zones that it hosts, and no plate is in one; and one that opens
/// a zone inward only while the place that a plate would come to has none, and none coming.
pub fn poses_fit(plan: &Plan, opening: &State, history: &[Event])
    requires { IsLegal plan.now opening.now history.now }
    ensures { law.PosesFit plan.now opening.now history.now }
{}

/// A machine holds the zone in which it gives, or which it yields, takes from or releases.
pub fn handover_by_holder(plan: &Plan, opening: &State, history: &[Event])
    requires sound { IsSound plan.now opening.now }
    requires legal { IsLegal plan.now opening.now history.now }
    ensures { law.HandoverByHolder plan.now opening.now history.now }
{
    let _ = plan.machines();
}

/// A machine advances only its own places; a plate comes only to a source that has none, and none coming, and goes only
/// from a sink that has one.
pub fn advances_fit(plan: &Plan, opening: &State, history: &[Event])
    requires { IsLegal plan.now opening.now history.now }
    ensures { law.AdvancesFit plan.now opening.now history.now }
{}

/// On every sound state each refusal has its cause: its meaning in the table of causes holds of the state, with
/// whatever the refusal names. And if a cause holds, the call isn't Done: it is refused for this cause, or for one that
/// comes before it in the call's order.
pub fn refusals_tell_causes()
    ensures { RefusalsTell }
{}

/// In all tables and states each call is Done exactly if what its caller needs is there: the zones that it has to own
/// or find free, a plate in them or none, a plate's way and its places, the postures, the plant running, stamps left.
/// An inquiry about a zone of the plan shows the zone.
pub fn calls_are_done_exactly()
    ensures { CallsAreDoneExactly }
{}

/// In all tables and states what a refusal says is so, of the call's zone, or for a pose of a zone that its machine
/// hosts.
pub fn refusals_are_true()
    ensures { RefusalsAreTrue }
{}

/// In all tables and states each call but a pose is refused for this and nothing else: what the refusal says is so, and
/// nothing that the call looks for earlier.
pub fn calls_are_refused_exactly()
    ensures { CallsAreRefusedExactly }
{}

/// In all tables and states a refused pose names the lowest zone that bars it: of the zones that it needs, the owner of
/// the lowest that isn't its machine's, or the lowest with a plate in it.
pub fn poses_name_lowest_zones()
    ensures { PosesNameLowestZones }
{}

/// In all tables and states a pose is refused for this and nothing else: what the refusal says is so, and nothing that
/// comes earlier in its order.
pub fn poses_are_refused_exactly()
    ensures { PosesAreRefusedExactly }
{}

/// In an order one number comes no later than another exactly if it stands somewhere, and the other there or after it.
pub fn orders_are_kept()
    ensures { OrdersAreKept }
{}

/// On every sound state of every plan each Done call changes this and nothing else: the owner of its zone, the plate in
/// it and one place, or the postures that its pose gives, or the stop; and the stamp by one. What isn't Done changes
/// nothing.
pub fn changes_are_these()
    ensures { ChangesAreThese }
{}

/// In all tables and states a place counts as full exactly if it has a plate, or if a plate is in a zone of the plan
/// whose way ends at it. A refusal and its cause count alike.
pub fn full_places()
    ensures { FullPlaces }
{}

/// All these laws hold of each prefix of every legal history from any sound opening, for every plan, stored or not.
pub fn lawful_histories()
    ensures { law.EveryLegalHistoryIsLawful }
{}

/// Where no zone joins the one before it, each is a space by itself: its host and its guest enter it, a plate in it
/// bars it, and another owner is set at this zone alone.
pub fn plain_plans_stay()
    ensures { PlainPlansStay }
{}

/// A history of which every law holds keeps each of the laws. And what each law says of a lift, in literal numbers, of
/// every state and every history.
pub fn each_law_is_said()
    ensures each { law.EachLawIsSaid }
    ensures lift { LawsOfLift }
{}

/// What a test finds throughout a history it finds of each prefix of it.
pub fn throughout_is_of_prefixes()
    ensures { law.ThroughoutIsOfPrefixes }
{}

/// Each part of these laws says something: a literal history that isn't legal, or a state that isn't sound, breaks it.
pub fn laws_can_be_broken()
    ensures { LawsCanBeBroken }
{}

/// Every start is sound, for every plan.
pub fn starts_are_sound(plan: &Plan, opening: &State)
    requires { IsStart opening.now }
    ensures { IsSound plan.now opening.now }
{
    let _ = plan.machines();
}
