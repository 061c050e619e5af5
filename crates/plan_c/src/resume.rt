//! Whether a machine may go on at its place, by the word alone.
ghost use Rattle.std.specs.Prelude.{◌≡◌, ◌≤◌, ◌↔◌, IsTrue, false, List, length, map};
ghost use Rattle.plan_rules.specs.declared.state.State.{State as PlanState};
ghost use Rattle.plan_controller.specs.declared.step.Step.{Step as PlanStep};
ghost use Rattle.plan_controller.specs.Steps.{line_of};
ghost use Rattle.plan_drives.specs.Facts as facts;
ghost use Rattle.plan_c.specs.Given.{IsWordOf, NoState};
ghost use Rattle.plan_c.specs.Lines.{row_of};
ghost use Rattle.plan_c.specs.Resuming.{AreSteps, IsInStepBy, IsStop, MayGoOn};

use crate::line::{MAX_LINES, ProgramLine, step_of};
use crate::turn::Place;
use plan_compiled::Compiled;
use plan_drives::facts::{facts_after_line, no_facts};
use plan_drives::{is_known_in, opens_by_poses};
use plan_motors::Motor;
use plan_rules::State;
use plan_types::Plan;
use plan_word::unpack;

/// Whether each line is a step's.
fn are_steps(program: &[ProgramLine]) -> bool
    ensures { IsTrue result ↔ AreSteps program.now }
{
    for line in 0..program.len() {
        if step_of(program[line]).is_none() {
            return false;
        }
    }
    true
}

/// What a machine knows once it has gone past a line.
fn known_after(plan: &Plan, known: &Motor, line: ProgramLine) -> Motor
    ensures { (step : PlanStep) → line ≡ row_of step
        → result ≡ facts.facts_after_line plan.now known.now (line_of step) }
{
    match step_of(line) {
        Some(step) => facts_after_line(plan, known, step.line()),
        None => *known,
    }
}

/// What it knows at a line of a program of steps.
fn known_at(plan: &Plan, machine: u8, program: &[ProgramLine], line: usize) -> Motor
    requires inside { line ≤ length program.now }
    ensures { (steps : List PlanStep) → program.now ≡ map row_of steps
        → result ≡ facts.facts_at plan.now machine (map line_of steps) line }
{
    let mut known = no_facts(machine);
    for before in 0..line {
        known = known_after(plan, &known, program[before]);
    }
    known
}

/// Whether a number is 0, or that of a refusal.
fn is_stop(number: u8) -> bool
    ensures { IsTrue result ↔ IsStop number }
{
    number <= 15 && number != 11
}

/// Whether a machine is in step with a state at a line of a program.
fn is_in_step_at(
    plan: &Plan,
    state: &State,
    machine: u8,
    program: &[ProgramLine],
    line: usize,
) -> bool
    ensures { IsTrue result ↔ IsInStepBy plan.now state.now machine program.now line }
{
    if line < program.len() && program.len() <= MAX_LINES && are_steps(program) {
        let known = known_at(plan, machine, program, line);
        is_known_in(plan, &known, state)
    } else {
        false
    }
}

/// Whether a machine may go on at its place in a state.
fn may_go_on(plan: &Plan, state: &State, machine: u8, program: &[ProgramLine], place: Place) -> bool
    ensures { IsTrue result ↔ MayGoOn plan.now state.now machine program.now place }
{
    is_stop(place.stopped)
        && opens_by_poses(plan, state)
        && is_in_step_at(plan, state, machine, program, usize::from(place.line))
}

/// Whether it may in the state of a word.
pub(crate) fn is_in_step_by(
    plan: &Compiled,
    word: u64,
    machine: u8,
    program: &[ProgramLine],
    place: Place,
) -> bool
    ensures in_step { (state : PlanState) → IsWordOf plan.now.table word state
        → (IsTrue result ↔ MayGoOn plan.now.table state machine program.now place) }
    ensures no_state { NoState plan.now.table word → result ≡ false }
{
    match unpack(plan.plan(), &plan.layout(), word) {
        Some(state) => may_go_on(plan.plan(), &state, machine, program, place),
        None => false,
    }
}
