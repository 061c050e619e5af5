//! Whether machines may go on at lines of their programs in a state, as after a power cut, by the state alone.
ghost use Rattle.std.specs.Prelude.{◌≡◌, ◌<◌, ◌↔◌, ℕ, IsNone, IfSome, IsTrue, get_or, map, []};
ghost use Rattle.plan_types.specs.Table as table;
ghost use Rattle.plan_rules.specs.Sound.{implies, is_open as opens_way};
ghost use Rattle.plan_motors.specs.Motor.{need_of, place_need};
ghost use Rattle.plan_drives.specs.Facts as facts;
ghost use Rattle.plan_drives.specs.Facts.{OpensByPoses};
ghost use Rattle.plan_drives.specs.InStep as steps;
ghost use Rattle.plan_drives.specs.InStep.{IsOwn, IsKnownIn, IsInStep, AreInStep};

use crate::facts::{facts_at, is_hosted, some_gives};
use crate::line::Line;
use plan_motors::Motor;
use plan_rules::State;
use plan_types::{Plan, Posture};

/// Whether a zone of this posture is open as some pose of the plan gives, if it is open.
fn opens_by_pose(plan: &Plan, zone: u8, posture: Posture) -> bool
    ensures { result ≡ implies (opens_way posture) (facts.some_gives plan.now zone posture) }
{
    match posture {
        Posture::Closed | Posture::Moving => true,
        Posture::OpenIn | Posture::OpenOut => some_gives(plan, zone, posture),
    }
}

/// Whether each open zone of a state is open as some pose of the plan gives. So it is from a start on.
pub fn opens_by_poses(plan: &Plan, state: &State) -> bool
    ensures { IsTrue result ↔ OpensByPoses plan.now state.now }
{
    for zone in 0..plan.zone_count() {
        if !opens_by_pose(plan, zone, state.zone(zone).posture) {
            return false;
        }
    }
    true
}

fn is_own_zone(plan: &Plan, known: &Motor, zone: u8) -> bool
    ensures { result ≡ steps.is_own_zone plan.now known.now zone }
{
    let need = known.zone_need(zone);
    need.posture.is_none() || need.holds || is_hosted(plan, zone, known.machine)
}

fn is_own_place(plan: &Plan, known: &Motor, place: u8) -> bool
    ensures { result ≡ steps.is_own_place plan.now known.now place }
{
    known.place_need(place).is_none()
        || place < plan.place_count() && plan.keeper(place) == known.machine
}

/// Whether no other machine can change what is known.
fn is_own(plan: &Plan, known: &Motor) -> bool
    ensures { IsTrue result ↔ IsOwn plan.now known.now }
{
    for zone in 0..plan.zone_count() {
        if !is_own_zone(plan, known, zone) {
            return false;
        }
    }
    for place in 0..plan.place_count() {
        if !is_own_place(plan, known, place) {
            return false;
        }
    }
    true
}

/// Whether what a machine knows is so in a state, and no other machine can change it.
pub fn is_known_in(plan: &Plan, known: &Motor, state: &State) -> bool
    ensures { IsTrue result ↔ IsKnownIn plan.now state.now known.now }
{
    known.is_permitted(plan, state) && is_own(plan, known)
}

/// Whether a machine is in step with a state at a line of its program: there is such a line, and what the lines before
/// tell is so. A machine that goes on there, as after a power cut, is permitted what it runs: laws of `laws`.
pub fn is_in_step(plan: &Plan, machine: u8, program: &[Line], line: usize, state: &State) -> bool
    ensures { IsTrue result ↔ IsInStep plan.now state.now machine program.now line }
{
    line < program.len() && is_known_in(plan, &facts_at(plan, machine, program, line), state)
}

/// The program of a machine, by its number; one past the last has none.
fn program_of(programs: &[Vec<Line>], machine: u8) -> &[Line]
    ensures { result.now ≡ get_or (map (λ program. program.items) programs.now) machine [] }
{
    match programs.get(usize::from(machine)) {
        Some(program) => program.as_slice(),
        None => &[],
    }
}

fn line_of(lines: &[usize], machine: u8) -> usize
    ensures { result ≡ get_or lines.now machine 0 }
{
    match lines.get(usize::from(machine)) {
        Some(line) => *line,
        None => 0,
    }
}

/// The first machine that isn't in step with a state, by the programs of all machines and the line of each; `None` if
/// all are.
pub fn first_out_of_step(
    plan: &Plan,
    programs: &[Vec<Line>],
    lines: &[usize],
    state: &State,
) -> Option<u8>
    ensures none { IsNone result ↔ AreInStep plan.now state.now
        (map (λ program. program.items) programs.now) lines.now }
    ensures first { IfSome result (λ found. steps.IsFirstOutOfStep plan.now state.now
        (map (λ program. program.items) programs.now) lines.now found) }
{
    for machine in 0..plan.machines() {
        let program = program_of(programs, machine);
        if !is_in_step(plan, machine, program, line_of(lines, machine), state) {
            return Some(machine);
        }
    }
    None
}
