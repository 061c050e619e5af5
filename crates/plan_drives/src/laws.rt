//! Laws of programs with drives, each the contract of a function that does nothing. A history is the list of the events
//! since the opening, oldest first. `plan.plan().machines()` reads the plan, so the prover knows that it is one.
ghost use Rattle.std.specs.Prelude.{◌≡◌, [], ◌∷◌, ◌++◌, ◌<◌, length, IsTrue, Some};
ghost use Rattle.plan_types.specs.declared.call.Call.TheVariants.{Inquire};
ghost use Rattle.plan_types.specs.declared.answer.Answer.TheVariants.{Shown};
ghost use Rattle.plan_rules.specs.Refusals.{owns};
ghost use Rattle.plan_rules.specs.Sound.{IsSound, IsStart};
ghost use Rattle.plan_rules.specs.History.{IsLegal, after};
ghost use Rattle.plan_motors.specs.Motor.{Permits};
ghost use Rattle.plan_motors.specs.OfPlan.{motor_at};
ghost use Rattle.plan_motors.specs.Decided.{NeverBoth};
ghost use Rattle.plan_motors.specs.Poses.{NeverFrom};
ghost use Rattle.plan_drives.specs.Facts.{OpensByPoses};
ghost use Rattle.plan_drives.specs.Program.{Runs, IsBackedAt, IsDriven};
ghost use Rattle.plan_drives.specs.InStep.{IsInStep};
ghost use Rattle.plan_drives.specs.Course.{IsInRound, IsAt, HasCome, HasComeFrom, IsRunning};
ghost use Rattle.plan_drives.specs.Course.{CoursesGoOn};
ghost use Rattle.plan_drives.specs.Lacking.{IsUndriven};

use crate::line::Line;
use crate::undriven::Undriven;
use plan_motors::MotorPlan;
use plan_rules::State;
use plan_rules::laws::lawful_histories;
use plan_types::{Event, Plan, Posture};

/// A machine at a line of an accepted program is permitted each motor that the line runs, whatever the others have
/// done, from a sound opening whose open zones are open as poses give.
pub fn drives_are_permitted(
    plan: &MotorPlan,
    machine: u8,
    program: &[Line],
    motor: usize,
    opening: &State,
    history: &[Event],
)
    requires driven { IsDriven plan.now machine program.now }
    requires sound { IsSound plan.now.plan opening.now }
    requires opens { OpensByPoses plan.now.plan opening.now }
    requires legal { IsLegal plan.now.plan opening.now history.now }
    requires runs { IsRunning plan.now.plan opening.now history.now machine program.now motor }
    ensures { Permits plan.now.plan (after plan.now.plan opening.now history.now)
        (motor_at plan.now.motors motor) }
{
    let _ = plan.plan().machines();
    lawful_histories();
}

/// So is one that has gone through whole rounds of its program since the opening, and then up to the line.
pub fn drives_are_permitted_in_each_round(
    plan: &MotorPlan,
    machine: u8,
    program: &[Line],
    line: usize,
    motor: usize,
    opening: &State,
    history: &[Event],
)
    requires driven { IsDriven plan.now machine program.now }
    requires sound { IsSound plan.now.plan opening.now }
    requires opens { OpensByPoses plan.now.plan opening.now }
    requires legal { IsLegal plan.now.plan opening.now history.now }
    requires come { HasCome plan.now.plan opening.now history.now machine program.now line }
    requires runs { Runs program.now line motor }
    ensures { Permits plan.now.plan (after plan.now.plan opening.now history.now)
        (motor_at plan.now.motors motor) }
{
    let _ = plan.plan().machines();
    lawful_histories();
}

/// So is one that was in step with the opening at a line, as after a power cut, and has come from there to its line by
/// its program, also in whole rounds of it.
pub fn resumed_drives_are_permitted(
    plan: &MotorPlan,
    machine: u8,
    program: &[Line],
    from: usize,
    line: usize,
    motor: usize,
    opening: &State,
    history: &[Event],
)
    requires driven { IsDriven plan.now machine program.now }
    requires sound { IsSound plan.now.plan opening.now }
    requires opens { OpensByPoses plan.now.plan opening.now }
    requires legal { IsLegal plan.now.plan opening.now history.now }
    requires in_step { IsInStep plan.now.plan opening.now machine program.now from }
    requires come { HasComeFrom plan.now.plan opening.now history.now machine program.now from
        line }
    requires runs { Runs program.now line motor }
    ensures { Permits plan.now.plan (after plan.now.plan opening.now history.now)
        (motor_at plan.now.motors motor) }
{
    let _ = plan.plan().machines();
    lawful_histories();
}

/// Who was in step with the opening at a line, and has come from there to a line by its program, is at it.
pub fn who_goes_on_is_there(
    plan: &Plan,
    machine: u8,
    program: &[Line],
    from: usize,
    line: usize,
    opening: &State,
    history: &[Event],
)
    requires in_step { IsInStep plan.now opening.now machine program.now from }
    requires come { HasComeFrom plan.now opening.now history.now machine program.now from line }
    ensures { IsAt plan.now opening.now history.now machine program.now line }
{}

/// Who is at a line of its program is in step there. So each place that was stored, with the state then, is taken back.
pub fn who_is_there_is_in_step(
    plan: &Plan,
    machine: u8,
    program: &[Line],
    line: usize,
    opening: &State,
    history: &[Event],
)
    requires sound { IsSound plan.now opening.now }
    requires opens { OpensByPoses plan.now opening.now }
    requires legal { IsLegal plan.now opening.now history.now }
    requires there { line < length program.now }
    requires at { IsAt plan.now opening.now history.now machine program.now line }
    ensures { IsInStep plan.now (after plan.now opening.now history.now) machine program.now line }
{
    let _ = plan.machines();
    lawful_histories();
}

/// Zones stay open as poses give: so the state of a history may be one to open with.
pub fn openings_by_poses_last(plan: &Plan, opening: &State, history: &[Event])
    requires sound { IsSound plan.now opening.now }
    requires opens { OpensByPoses plan.now opening.now }
    requires legal { IsLegal plan.now opening.now history.now }
    ensures { OpensByPoses plan.now (after plan.now opening.now history.now) }
{
    let _ = plan.machines();
    lawful_histories();
}

/// Who has come to a line by its program is at it, in a round.
pub fn who_has_come_is_there(
    plan: &Plan,
    machine: u8,
    program: &[Line],
    line: usize,
    opening: &State,
    history: &[Event],
)
    requires { HasCome plan.now opening.now history.now machine program.now line }
    ensures { IsInRound plan.now opening.now history.now machine program.now line }
{}

/// How a machine goes on in its program, event by event: what takes it to the next line, and what leaves it where it
/// is. So it is also in a round alone.
pub fn courses_go_on(plan: &Plan, machine: u8, program: &[Line], opening: &State, history: &[Event])
    ensures at { CoursesGoOn (λ h k. IsAt plan.now opening.now h machine program.now k) plan.now
        opening.now history.now machine program.now }
    ensures round { CoursesGoOn (λ h k. IsInRound plan.now opening.now h machine program.now k)
        plan.now opening.now history.now machine program.now }
{}

/// A machine that an inquiry shows as a zone's owner owns it: so it may go past a line that awaits the zone.
pub fn who_is_shown_owns(
    plan: &Plan,
    machine: u8,
    zone: u8,
    flag: bool,
    posture: Posture,
    opening: &State,
    before: &[Event],
    inquiry: Event,
)
    requires legal { IsLegal plan.now opening.now (before.now ++ inquiry ∷ []) }
    requires call { inquiry.call ≡ Inquire zone }
    requires answer { inquiry.answer ≡ Shown (Some machine) flag posture }
    ensures { IsTrue (owns (after plan.now opening.now before.now) machine zone) }
{}

/// Two machines never both run motors that exclude each other, by accepted programs and from such an opening.
pub fn hazards_are_never_driven(
    plan: &MotorPlan,
    machine: u8,
    program: &[Line],
    motor: usize,
    other: u8,
    other_program: &[Line],
    other_motor: usize,
    opening: &State,
    history: &[Event],
)
    requires driven { IsDriven plan.now machine program.now }
    requires other_driven { IsDriven plan.now other other_program.now }
    requires excluded { NeverBoth plan.now.plan (motor_at plan.now.motors motor)
        (motor_at plan.now.motors other_motor) }
    requires sound { IsSound plan.now.plan opening.now }
    requires opens { OpensByPoses plan.now.plan opening.now }
    requires legal { IsLegal plan.now.plan opening.now history.now }
    requires runs { IsRunning plan.now.plan opening.now history.now machine program.now motor }
    ensures { ¬ IsRunning plan.now.plan opening.now history.now other other_program.now
        other_motor }
{
    let _ = plan.plan().machines();
    lawful_histories();
}

/// The same from a start, also where only the poses of the plan keep the two motors apart.
pub fn hazards_are_never_driven_from_start(
    plan: &MotorPlan,
    machine: u8,
    program: &[Line],
    motor: usize,
    other: u8,
    other_program: &[Line],
    other_motor: usize,
    start: &State,
    history: &[Event],
)
    requires driven { IsDriven plan.now machine program.now }
    requires other_driven { IsDriven plan.now other other_program.now }
    requires excluded { NeverFrom plan.now.plan start.now (motor_at plan.now.motors motor)
        (motor_at plan.now.motors other_motor) }
    requires start { IsStart start.now }
    requires legal { IsLegal plan.now.plan start.now history.now }
    requires runs { IsRunning plan.now.plan start.now history.now machine program.now motor }
    ensures { ¬ IsRunning plan.now.plan start.now history.now other other_program.now other_motor }
{
    let _ = plan.plan().machines();
    lawful_histories();
}

/// At a start each open zone is open as a pose gives: none is open.
pub fn starts_open_by_poses(plan: &Plan, start: &State)
    requires { IsStart start.now }
    ensures { OpensByPoses plan.now start.now }
{}

/// A line that runs a motor which lacks something isn't backed.
pub fn undriven_lines_are_not_backed(
    plan: &MotorPlan,
    machine: u8,
    program: &[Line],
    found: &Undriven,
)
    requires { IsUndriven plan.now machine program.now found.now }
    ensures { ¬ IsBackedAt plan.now machine program.now found.now.line }
{}
