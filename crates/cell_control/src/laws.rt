//! Laws of a turn, of a motor's demands and of waiting. Each is the contract of a function with an empty body.
ghost use Rattle.std.specs.Prelude.{List};
ghost use Rattle.cell_types.specs.declared.machine.Machine.{Machine};
ghost use Rattle.cell_types.specs.declared.zone.Zone.{Zone};
ghost use Rattle.cell_types.specs.declared.posture.Posture.{Posture};
ghost use Rattle.cell_types.specs.declared.answer.Event.{Event};
ghost use Rattle.cell_rules.specs.ModelState.{ModelState};
ghost use Rattle.cell_control.specs.FormExamples.{FormsAreMet};
ghost use Rattle.cell_control.specs.KeepExamples.{SharesAreMet};
ghost use Rattle.cell_control.specs.TurnRows.{TurnRows, ZoneDemandRows};
ghost use Rattle.cell_control.specs.WaitRows.{WaitRows};

use crate::program::Program;

/// The effect of a turn, at any step of any program: after each answer, a refusal on which the step
/// stays, each refusal on which it doesn't, the refusal in a stopped cell, on which each step stays,
/// a Busy, and a call that is out of memory. Sensors that can't be used stop the controller, and a
/// stopped controller stays so. Also what each of these turns asks, and the machine's progress by
/// none of its events, and by one. A machine that has reached its step and goes on has reached the
/// next one.
pub fn turns_by_answers<P: Program>(program: &P, progress: P::Progress, sense: &P::Sense)
    ensures { TurnRows (P.steps program.now) progress sense.now }
{}

/// A motor that enters a zone demands that its machine holds the zone, and that the zone has the
/// posture, and no more. One that enters none demands nothing.
pub fn demands_of_a_zone()
    ensures { (m : Machine) (opening : ModelState) (seen : List Event) (zone : Zone) (posture : Posture)
        → ZoneDemandRows m opening seen zone posture }
{}

/// The refusals on which a step stays, for each thing that it may wait for.
pub fn waits_by_refusals()
    ensures { WaitRows }
{}

/// A small program, in figures: the rows of its steps, its checks and drives, the answers to its
/// calls, its turns, and a controller of it on its line and off it; where it goes on, what its line
/// hears, and what a step that was carried over needs.
#[tactic(auto, using(crate::proofs::FormFigures::forms))]
pub fn forms_are_met()
    ensures { FormsAreMet }
{}

/// What a share of a zone asks for, and when a machine keeps what it has of its zones.
#[tactic(auto, using(crate::proofs::ShareFigures::shares))]
pub fn shares_are_met()
    ensures { SharesAreMet }
{}
