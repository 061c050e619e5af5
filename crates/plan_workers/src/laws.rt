//! Laws of journals, each the contract of a function that does nothing.
ghost use Rattle.std.specs.Prelude.{◌≡◌, ◌≤◌, ℕ, List, false, length};
ghost use Rattle.plan_types.specs.Table.{place_count};
ghost use Rattle.plan_rules.specs.Sound.{IsStart};
ghost use Rattle.plan_rules.specs.State.{is_full};
ghost use Rattle.plan_workers.specs.AuditExamples.{AuditExamples, JournalExamples, OrderExamples, PaceExamples};
ghost use Rattle.plan_interlock.specs.Plant.{WordView};
ghost use Rattle.plan_interlock.specs.PlantMake.{new_pass};
ghost use Rattle.plan_workers.specs.Closing.{ClosedJournalsAreExplained};
ghost use Rattle.plan_workers.specs.PlantClosing.{EndedWordsAreAccepted, EndedWordsAreExplained};
ghost use Rattle.plan_workers.specs.PlantClosing.{PlantJournalsAreKept};
ghost use Rattle.plan_workers.specs.PlantJobs.{IsPlantJobOf};
ghost use Rattle.plan_workers.specs.PlantStepLaws.{PlantExamples, ProgramsAreSplit, WordsKeepPace};
ghost use Rattle.plan_workers.specs.PlantTurns.{PlantControl};
ghost use Rattle.plan_workers.specs.Renewing.{AreReadyAt, MayAllGoOn};
ghost use Rattle.plan_workers.specs.RenewalLaws.{RoundsAreExplained, TurnsLeaveRoom};
ghost use Rattle.plan_workers.specs.RenewalLaws.{UnwornEndsTell, WorkIsPermitted};
ghost use Rattle.plan_workers.specs.RenewalExamples.{RenewalExamples, RoundExamples};
ghost use Rattle.plan_workers.specs.TurningExamples.{TurningExamples, WordJournalExamples};

use crate::devices::PlanDevices;
use crate::gate::PlanGate;
use crate::rounds::{PlanMachine, PlanRoundSink};
use plan_drives::examples::resumes_are_right;
use plan_drives::laws::starts_open_by_poses;
use plan_rules::State;
use plan_rules::laws::refusals_are_true;
use plan_types::Plan;
use plan_word::laws::starts_are_of_plan;

/// What the press notes of literal histories, and journals that are wrong by one thing.
pub fn journal_examples_are_right()
    ensures { JournalExamples }
{}

/// Literal journals of two machines that an audit accepts, and others that are wrong by one thing: no history explains
/// them.
pub fn audit_examples_are_right()
    ensures audits { AuditExamples }
    ensures order { OrderExamples }
{}

/// Whether each machine of a run has had some turns, by literal numbers.
pub fn pace_examples_are_right()
    ensures { PaceExamples }
{}

/// The journals that machines kept over one interlock are explained by its history, once it has ended and all who
/// called have come back. So an audit accepts them, unless memory runs out.
pub fn closed_journals_are_explained()
    ensures { ClosedJournalsAreExplained }
{}

/// Over an interlock that ends below the last stamp no call was answered Worn.
pub fn unworn_ends_tell()
    ensures { UnwornEndsTell }
{
    refusals_are_true();
}

/// A machine that has worked by an accepted program, over an interlock that opened with its open zones as poses give,
/// was given only motors that were permitted, by the state after all that its line had seen; so also in each round of
/// [`crate::work_renewed`].
pub fn work_is_permitted<D: PlanDevices, G: PlanGate>(_devices: &D, _gate: &G)
    ensures { WorkIsPermitted D.reads D.drives (G.may_answer _gate.now) }
{}

/// A round from which the run goes on, and in which nobody but its machines has called, leaves a stamp of at most as
/// many as all their turns.
pub fn turns_leave_room<D: PlanDevices, G: PlanGate, S: PlanRoundSink>(
    _devices: &D,
    _gate: &G,
    _sink: &S,
)
    ensures { TurnsLeaveRoom D.reads D.drives S.takes (G.may_answer _gate.now) }
{}

/// The history of such a round explains the journals that were noted of it. So an audit of them accepts them, unless
/// memory runs out.
pub fn rounds_are_explained<D: PlanDevices, G: PlanGate, S: PlanRoundSink>(
    _devices: &D,
    _gate: &G,
    _sink: &S,
)
    ensures { RoundsAreExplained D.reads D.drives S.takes (G.may_answer _gate.now) }
{}

/// At a start the machines of a plan are ready, each at the beginning of its program, if only places of the plan are
/// full.
pub fn machines_are_ready_at_start<D>(plan: &Plan, start: &State, machines: &[PlanMachine<D>])
    requires start { IsStart start.now }
    requires places { (p : ℕ) → place_count plan.now ≤ p → is_full start.now p ≡ false }
    requires all { length machines.now ≡ plan.now.machines }
    requires each { MayAllGoOn plan.now start.now 0 machines.now }
    ensures { AreReadyAt plan.now start.now machines.now }
{
    let _plan = plan.machines();
    starts_are_of_plan(plan, start);
    starts_open_by_poses(plan, start);
}

/// Which states interlocks open with, who may go on, and what a round is, by literal examples.
pub fn renewal_examples_are_right()
    ensures renewal { RenewalExamples }
    ensures rounds { RoundExamples }
{
    resumes_are_right();
}

/// A word has of a program the calls and waits that are on it, and all runs, in their order.
pub fn programs_are_split()
    ensures { (w : ℕ) → ProgramsAreSplit w }
{}

/// At each step of a program on several words the controllers of the words on which it stands are at that step, and the
/// others rest.
pub fn words_keep_pace()
    ensures { (c : PlantControl) (w : ℕ) → WordsKeepPace c w }
{}

/// A literal program on two words: what each word has of it, who takes a turn, and what a refusal stops.
pub fn plant_examples_are_right()
    ensures { PlantExamples }
{}

/// Turns one after another, by literal numbers and two gates; and the journals of two words.
pub fn turning_examples_are_right()
    ensures turns { TurningExamples }
    ensures journals { WordJournalExamples }
{}

/// A new pass of a plant's interlock was made with it: it has a right on each word, by the word's plan. So by it a
/// machine at the beginning of its program may go to work (`PlantJob::new`: `ready`).
pub fn new_passes_may_work()
    ensures { (words : List WordView) (m : ℕ) → IsPlantJobOf words (new_pass words m) }
{}

/// The journals of a word that machines keep which work by new passes are of all that the rights which they give back
/// have seen there.
pub fn plant_journals_are_kept<D: PlanDevices, G: PlanGate>(_devices: &D, _gate: &G)
    ensures { PlantJournalsAreKept D.reads D.drives (G.may_answer _gate.now) }
{}

/// Where the interlock of each word of a plant has ended, and all who called have come back, the history of each word
/// explains its journals (`explained`). So an audit of the plant accepts them, unless memory runs out (`accepted`).
pub fn ended_words_are_explained()
    ensures explained { EndedWordsAreExplained }
    ensures accepted { EndedWordsAreAccepted }
{}
