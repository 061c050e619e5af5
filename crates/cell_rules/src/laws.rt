//! Laws of every legal history from a sound opening, and of each prefix of it, each the contract of
//! a function that does nothing. A history is the list of the events since the opening, oldest
//! first. `let _ = &opening.stamp;` reads the opening, so the prover knows that it is sound.
ghost use Rattle.std.specs.Prelude.{◌++◌};
ghost use Rattle.cell_rules.specs.Sound.{IsSound};
ghost use Rattle.cell_rules.specs.Examples.{Examples};
ghost use Rattle.cell_rules.specs.ModelState.{ModelState};
ghost use Rattle.cell_rules.specs.History.{IsLegal};
ghost use Rattle.cell_rules.specs.Laws as law;
ghost use Rattle.cell_rules.specs.RefusalLaws.{RefusalsTell, RefusalsTellAlong};
ghost use Rattle.cell_rules.specs.TableLaws.{PosesThatMove, DigitsArePlaces};
ghost use Rattle.cell_rules.specs.Laws.{Throughout, RunsClear};
ghost use Rattle.cell_rules.specs.Start.{IsStartState};
ghost use Rattle.cell_rules.specs.FirstVersion.{FirstVersionStays};
ghost use Rattle.cell_rules.specs.StopLaws.{WhatMovesMayStop};
ghost use Rattle.cell_rules.specs.Restamping.{StampsOnlyWear, EndsAreSame};

use crate::state::State;
use cell_types::Event;

/// Every state is sound.
pub fn states_are_sound(state: &State)
    ensures sound { IsSound state.now }
{
    let _ = &state.stamp;
}

/// Two machines never hold the same zone. Only a zone's host or guest can hold it, and exactly the
/// holder owns it in the state after the history.
pub fn one_holder(opening: &State, history: &[Event])
    requires { IsLegal opening.now history.now }
    ensures { Throughout (law.OneHolder opening.now) history.now }
{
    let _ = &opening.stamp;
}

/// A moving zone is held by its host: while the press moves the robot doesn't hold its interior.
pub fn mover_is_host(opening: &State, history: &[Event])
    requires { IsLegal opening.now history.now }
    ensures { Throughout (law.MoverIsHost opening.now) history.now }
{
    let _ = &opening.stamp;
}

/// If a zone's guest holds it, the zone is open, by the events.
pub fn guest_only_while_open(opening: &State, history: &[Event])
    requires { IsLegal opening.now history.now }
    ensures { Throughout (law.GuestOnlyWhileOpen opening.now) history.now }
{
    let _ = &opening.stamp;
}

/// Each place and each zone has one plate or none, counted by the events, and the state after the
/// history says the same. The number of plates never changes.
pub fn plates_are_kept(opening: &State, history: &[Event])
    requires { IsLegal opening.now history.now }
    ensures { Throughout (law.PlatesAreKept opening.now) history.now }
{
    let _ = &opening.stamp;
}

/// The stamp counts the Done events.
pub fn stamp_counts_changes(opening: &State, history: &[Event])
    requires { IsLegal opening.now history.now }
    ensures { Throughout (law.StampCountsChanges opening.now) history.now }
{}

/// The feed belt runs with a plate at its end only while feed holds z1, and the deposit belt runs
/// only while its end is empty, if the opening satisfies this.
pub fn belts_run_clear(opening: &State, history: &[Event])
    requires legal { IsLegal opening.now history.now }
    requires clear { RunsClear opening.now }
    ensures { Throughout (law.BeltsRunClear opening.now) history.now }
{
    let _ = &opening.stamp;
}

/// Every start satisfies what `belts_run_clear` asks of its opening.
pub fn starts_run_clear(opening: &State)
    requires { IsStartState opening.now }
    ensures { RunsClear opening.now }
{}

/// While other machines make the events, a machine keeps each zone that it holds, with posture and
/// flag, its own places, and the postures of the zones that it hosts.
pub fn right_lasts(opening: &State, before: &[Event], more: &[Event])
    requires { IsLegal opening.now (before.now ++ more.now) }
    ensures { law.RightLasts opening.now before.now more.now }
{
    let _ = &opening.stamp;
}

/// The posture by the events is the one in the state after them.
pub fn posture_by_events(opening: &State, history: &[Event])
    requires { IsLegal opening.now history.now }
    ensures { Throughout (law.PostureByEvents opening.now) history.now }
{}

/// The state after is sound.
pub fn stays_sound(opening: &State, history: &[Event])
    requires { IsLegal opening.now history.now }
    ensures { Throughout (law.StaysSound opening.now) history.now }
{
    let _ = &opening.stamp;
}

/// Table and press don't jump to a pose, a zone opens inward only onto an empty place, a pose
/// changes only what its machine holds, a plate comes to a belt's end only while the belt runs, and
/// the press forges only while it holds its interior and is Closed.
#[tactic(auto, using(crate::proofs::lemmas::Assembly::events_fit))]
pub fn events_fit(opening: &State, history: &[Event])
    requires { IsLegal opening.now history.now }
    ensures { law.EventsFit opening.now history.now }
{}

/// The table takes any pose but turning only while z1 and z2 move, and the press any but travelling
/// only while z3 moves.
#[tactic(auto, using(crate::proofs::Handing::no_jump_along))]
pub fn no_jump(opening: &State, history: &[Event])
    requires { IsLegal opening.now history.now }
    ensures { law.NoJump opening.now history.now }
{}

/// A machine holds the zone in which it gives, or which it yields, takes from or releases.
#[tactic(auto, using(crate::proofs::lemmas::Assembly::handover_by_holder))]
pub fn handover_by_holder(opening: &State, history: &[Event])
    requires { IsLegal opening.now history.now }
    ensures { law.HandoverByHolder opening.now history.now }
{}

/// After each prefix of a history the cell is stopped, in the state, exactly if it was stopped at first
/// or by a Done stop, with no Done resume since. While it is stopped, no claim, no handover of a plate
/// and no movement is Done. The watch alone stops and resumes, in turn.
pub fn stopped_until_resumed(opening: &State, history: &[Event])
    requires { IsLegal opening.now history.now }
    ensures { Throughout (law.StoppedUntilResumed opening.now) history.now }
{}

/// While the cell isn't stopped, every call but stop and resume has the reply of the interlock that
/// couldn't be stopped, and leaves its state.
pub fn first_version_stays()
    ensures { FirstVersionStays }
{}

/// A call that isn't barred, stop and resume apart, is answered as if the cell weren't stopped. So what
/// moves may stop: a standing pose, a take, a release, a yield and an advance are never refused as stopped.
pub fn what_moves_may_stop()
    ensures { WhatMovesMayStop }
{}

/// The Done events of a history are a machine's own and those of the others, each counted once.
#[tactic(auto, using(crate::proofs::Handing::changes_counted))]
pub fn changes_are_counted(history: &[Event])
    ensures { law.ChangesAreCounted history.now }
{}

/// Each refusal in a history has its cause in the state at that point.
#[tactic(auto, using(crate::proofs::Handing::refusals_along))]
pub fn refusals_tell_along(opening: &State, history: &[Event])
    requires { IsLegal opening.now history.now }
    ensures { RefusalsTellAlong opening.now history.now }
{
    let _ = &opening.stamp;
}

/// On every sound state each refusal has its cause: its meaning in the table of refusals holds of
/// the state, with whatever the refusal names. And if a cause holds, the call isn't Done: it is
/// refused for this cause, or for one that comes before it in the call's order.
pub fn refusals_tell_causes()
    ensures { RefusalsTell }
{}

/// The poses that move are turning, travelling and running: exactly those that give some zone
/// Moving.
#[tactic(auto, using(crate::proofs::TablesHold::poses_that_move))]
pub fn poses_that_move()
    ensures { PosesThatMove }
{}

/// The digits of a start are the places in their order.
#[tactic(auto, using(crate::proofs::TablesHold::digits_are_places))]
pub fn digits_are_places()
    ensures { DigitsArePlaces }
{}

/// All these laws hold of every legal history from any sound opening, stored or not.
pub fn lawful_histories()
    ensures { law.EveryLegalHistoryIsLawful }
{}

/// All these laws hold of each prefix of the history.
pub fn lawful_throughout(opening: &State, history: &[Event])
    requires { IsLegal opening.now history.now }
    ensures { law.LawfulThroughout opening.now history.now }
{
    let _ = &opening.stamp;
}

/// All that a stamp does is to wear: with another stamp a state is as sound, and answers each call
/// that isn't worn alike.
pub fn stamps_only_wear()
    ensures { (s : ModelState) → StampsOnlyWear s }
{}

/// The state at the end of an interlock is the same for a machine that has seen all its own events,
/// also with another stamp.
#[tactic(auto, using(crate::proofs::lemmas::Restamps::same_after))]
pub fn ends_are_same()
    ensures { EndsAreSame }
{}

/// Examples of what a machine keeps, of refusals that it never gets, of an order of refusals, of
/// unsound states, and of histories that break a law.
#[tactic(auto, using(crate::proofs::ExamplesMet::examples_are_met))]
pub fn examples_are_met()
    ensures { Examples }
{}
