//! The schedule that leads a simulated cell into a standstill, or to a refusal: the turns that were found, with those
//! in which drives end.

ghost use Rattle.std.specs.Prelude.{◌≡◌, ◌↔◌, true, Some, IfOk, IsTrue, OnOk};
ghost use Rattle.cell_rules.specs.Names.{IsStartState, restamped};
ghost use Rattle.cell_config.specs.Configured.{AreAxisScales, AreCurvesOf, shown};
ghost use Rattle.explore_app.specs.Schedules.{EndsWith, IsAt, LeadsToEnding, NotesFrame};
ghost use Rattle.explore_app.specs.Schedules.{WasAsked, steps_of};

use crate::ending::Ending;
use cell_config::Config;
use cell_configured::simulate_configured_observed;
use cell_explorer::{Situation, Walk};
use cell_notes::Status;
use cell_plant::{Frame, MachineSteps, Observer, SeenFault, Turn};
use cell_rules::{State, answer};
use cell_types::{Answer, Call, Machine, Refusal, Reply};
use std::alloc::{AllocError, Global};

/// The most turns that one drive takes here.
const MAX_TURNS: usize = 8_192;

/// Why there is no schedule.
#[derive(Clone, Copy, PartialEq, Eq, Debug)]
pub enum ScheduleFault {
    /// Out of memory.
    Memory,
    /// The simulated cell didn't come to the standstill, or to the refusal.
    Apart,
}

impl From<AllocError> for ScheduleFault {
    fn from(_error: AllocError) -> ScheduleFault {
        ScheduleFault::Memory
    }
}

// Why a seeker stops.
#[derive(Clone, Copy)]
enum SeekEnd {
    // A machine has asked.
    Asked,
    // Out of memory.
    Memory,
}

// Passes over a number of frames, and then looks for the first with a call. It keeps the turns that it
// has seen, and the last frame.
#[derive(Drop)]
struct AskSeeker {
    skip: usize,
    turns: Vec<Turn>,
    last: Option<Frame>,
}

impl AskSeeker {
    // Keeps a frame.
    fn keep(&mut self, frame: &Frame) -> Result<(), AllocError>
        ensures { OnOk result
            (NotesFrame self.old.turns.items frame.now self.new.turns.items self.new.last) }
    {
        self.last = Some(*frame);
        if let Some(turn) = frame.turn {
            self.turns.push(turn)?;
        }
        Ok(())
    }

    // Its turns, which a cell has played, with the last frame.
    fn into_played(self) -> Result<Played, ScheduleFault>
        ensures turns { IfOk result (λ played. played.turns ≡ self.turns) }
        ensures last { IfOk result (λ played. self.last ≡ Some played.last) }
    {
        let AskSeeker { turns, last, .. } = self;
        match last {
            Some(last) => Ok(Played { turns, last }),
            None => Err(ScheduleFault::Apart),
        }
    }
}

impl Observer for AskSeeker {
    ghost use Rattle.std.specs.Prelude.{true};
    ghost use Rattle.std.proofs.Common.{sym};
    ghost use Rattle.std.proofs.lemmas.Bool.{false≢true};
    ghost use Rattle.explore_app.specs.Schedules.{IfNoted, NotesFrame};

    type Fault = SeekEnd;

    ghost LOOKS = { true };

    const LOOKS: bool = true;

    ghost sees = { λ old frame result new.
        IfNoted result (NotesFrame old.turns.items frame new.turns.items new.last) };

    ghost blind = { λ _ _ looks. absurd (false≢true (sym looks)) };

    fn see(&mut self, frame: &Frame) -> Result<(), SeekEnd> {
        let Ok(()) = self.keep(frame) else {
            return Err(SeekEnd::Memory);
        };
        if lacks_memory(frame) {
            return Err(SeekEnd::Memory);
        }
        if self.skip > 0 {
            self.skip -= 1;
            return Ok(());
        }
        if frame.asked.is_some() {
            Err(SeekEnd::Asked)
        } else {
            Ok(())
        }
    }
}

// Whether the machine whose turn it was has stopped, since there was no memory for its call.
fn lacks_memory(frame: &Frame) -> bool {
    match frame.turn {
        Some(turn) => matches!(*frame.status.at(turn.machine), Status::Memory),
        None => false,
    }
}

// Turns that a cell has played, and what is seen after the last.
#[derive(Drop)]
struct Played {
    turns: Vec<Turn>,
    last: Frame,
}

/// The turns that lead a simulated cell to the end of a walk. Each machine has turns until it asks,
/// once for each turn of the way that asks. At the end each that the ending is about asks again.
///
/// `Apart` if interlock and steps aren't those of the walk's end then, if a machine asked or was
/// answered something else there, and if the ending is about no machine; `Memory` if memory ran out.
pub fn schedule_into(
    alloc: Global,
    config: &Config,
    ending: Ending,
    way: &[Machine],
    walk: &Walk,
) -> Result<Vec<Turn>, ScheduleFault>
    requires start { IsStartState config.now.start }
    requires points { AreAxisScales config.now.points }
    requires curves { AreCurvesOf config.now.points config.now.curves }
    ensures { IfOk result (λ schedule.
        LeadsToEnding (shown config.now) ending walk.now schedule.items) }
{
    let mut schedule = way_into(alloc, config, way, walk)?;
    let mut end = None;
    'machines: for machine in Machine::ALL {
        let next = *walk.next.at(machine);
        if let Some(call) = next.call
            && ending.is_about(next.prospect)
        {
            let last = push_until_asked(alloc, config, &mut schedule, machine)?;
            if !is_answered(&last, machine, call, walk) {
                return Err(ScheduleFault::Apart);
            }
            end = Some(last);
        }
    }
    match end {
        Some(last) if is_at(&last, walk) => Ok(schedule),
        _ => Err(ScheduleFault::Apart),
    }
}

// The turns of a way, up to the last in which a machine asks. The errors are those of `schedule_into`.
pub(crate) fn way_into(
    alloc: Global,
    config: &Config,
    way: &[Machine],
    walk: &Walk,
) -> Result<Vec<Turn>, ScheduleFault>
    requires start { IsStartState config.now.start }
    requires points { AreAxisScales config.now.points }
    requires curves { AreCurvesOf config.now.points config.now.curves }
{
    let mut schedule = Vec::new(alloc);
    for (machine, asks) in way.iter().zip(&walk.asks) {
        if *asks {
            push_until_asked(alloc, config, &mut schedule, *machine)?;
        }
    }
    Ok(schedule)
}

// Adds a machine's turns up to the first in which it asks, and answers what is seen after that.
pub(crate) fn push_until_asked(
    alloc: Global,
    config: &Config,
    schedule: &mut Vec<Turn>,
    machine: Machine,
) -> Result<Frame, ScheduleFault>
    requires start { IsStartState config.now.start }
    requires points { AreAxisScales config.now.points }
    requires curves { AreCurvesOf config.now.points config.now.curves }
    ensures { IfOk result (λ last. EndsWith (shown config.now) schedule.new.items last) }
{
    let turn = Turn {
        machine,
        busy: false,
    };
    let trial = longer(alloc, schedule.as_slice(), turn)?;
    // the first frame shows the start
    let skip = schedule.len().saturating_add(1);
    let played = play_until_asked(alloc, config, trial.as_slice(), skip)?;
    *schedule = played.turns;
    Ok(played.last)
}

// Plays turns up to the first in which a machine asks, of those that are seen after a number of frames.
fn play_until_asked(
    alloc: Global,
    config: &Config,
    trial: &[Turn],
    skip: usize,
) -> Result<Played, ScheduleFault>
    requires start { IsStartState config.now.start }
    requires points { AreAxisScales config.now.points }
    requires curves { AreCurvesOf config.now.points config.now.curves }
    ensures { IfOk result (λ played. EndsWith (shown config.now) played.turns.items played.last) }
{
    let mut seeker = AskSeeker {
        skip,
        turns: Vec::new(alloc),
        last: None,
    };
    match simulate_configured_observed(alloc, config, trial, &mut seeker) {
        Ok(_) => Err(ScheduleFault::Apart),
        Err(SeenFault::Observer(SeekEnd::Asked)) => seeker.into_played(),
        Err(SeenFault::Observer(SeekEnd::Memory)) => Err(ScheduleFault::Memory),
        Err(SeenFault::Memory) => Err(ScheduleFault::Memory),
    }
}

// A schedule with as many further turns as one drive may take.
fn longer(alloc: Global, schedule: &[Turn], turn: Turn) -> Result<Vec<Turn>, AllocError> {
    let mut trial = Vec::new(alloc);
    for earlier in schedule {
        trial.push(*earlier)?;
    }
    push_turns(&mut trial, turn, MAX_TURNS)?;
    Ok(trial)
}

// Adds a turn a number of times.
fn push_turns(schedule: &mut Vec<Turn>, turn: Turn, count: usize) -> Result<(), AllocError> {
    for _ in 0..count {
        schedule.push(turn)?;
    }
    Ok(())
}

// Whether a simulated machine has asked this, and was answered as at the end of a walk.
pub(crate) fn is_answered(frame: &Frame, machine: Machine, call: Call, walk: &Walk) -> bool
    ensures { result ≡ true → WasAsked frame.now machine call walk.now.end }
{
    match frame.asked {
        Some((asked, Ok(Reply::Settled(given, _)))) => {
            is_same_call(asked, call)
                && is_same_answer(&given, &answer(&walk.end.state, machine, call))
        }
        _ => false,
    }
}

fn is_same_call(a: Call, b: Call) -> bool
    ensures { result ≡ true → a ≡ b }
{
    a == b
}

fn is_same_refusal(a: &Refusal, b: &Refusal) -> bool
    ensures { IsTrue result ↔ (a.now ≡ b.now) }
{
    *a == *b
}

fn is_same_answer(a: &Answer, b: &Answer) -> bool
    ensures { IsTrue result ↔ (a.now ≡ b.now) }
{
    match (a, b) {
        (Answer::Refused(a), Answer::Refused(b)) => is_same_refusal(a, b),
        _ => *a == *b,
    }
}

fn is_same_state(a: &State, b: &State) -> bool
    ensures { result ≡ true → a.now ≡ b.now }
{
    a == b
}

// Whether a simulated cell is at the end of a walk: its interlock and its machines' steps are so there.
pub(crate) fn is_at(frame: &Frame, walk: &Walk) -> bool
    ensures { result ≡ true → IsAt frame.now walk.now.end }
{
    has_steps(frame, &walk.end) && has_state(frame, &walk.end)
}

// Whether the machines are at their steps of a situation.
fn has_steps(frame: &Frame, at: &Situation) -> bool
    ensures { result ≡ true → frame.now.steps ≡ steps_of at.now }
{
    frame.steps
        == MachineSteps {
            feed: at.feed.step,
            table: at.table.step,
            robot: at.robot.step,
            press: at.press.step,
            deposit: at.deposit.step,
            crane: at.crane.step,
        }
}

// Whether the interlock is that of a situation, but for its stamp.
fn has_state(frame: &Frame, at: &Situation) -> bool
    ensures { result ≡ true → restamped frame.now.state 0 ≡ at.now.state }
{
    is_same_state(&frame.state.restamped(0), &at.state)
}
