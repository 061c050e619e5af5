//! Laws of every interlock by a plan, each the contract of a function that does nothing.
ghost use Rattle.std.specs.Prelude.{◌≡◌, ℕ, ◌≤◌, false};
ghost use Rattle.plan_types.specs.Table.{PlanTable, place_count};
ghost use Rattle.plan_rules.specs.State.{is_full};
ghost use Rattle.plan_rules.specs.Sound.{IsStart};
ghost use Rattle.plan_interlock.specs.Book.{plan_book, plan_of};
ghost use Rattle.plan_interlock.specs.Callers.{CallsInOrder, EveryMachineCalls, PassesInOrder};
ghost use Rattle.plan_interlock.specs.Laws.{EveryPassSeesLaws, RightsLast};
ghost use Rattle.plan_interlock.specs.Motors.{PermissionsLast, SurveysPermitTheSame};
ghost use Rattle.plan_interlock.specs.MotorExamples.{MotorExamples};
ghost use Rattle.plan_interlock.specs.Order.{BusyCallsAreFew, CallsKeepOrder, HistoryIsOne};
ghost use Rattle.plan_interlock.specs.PlantLaws.{WordsStayLawful};
ghost use Rattle.plan_interlock.specs.PlantRuns.{LoadsKeepApart};
ghost use Rattle.plan_interlock.specs.PlantStops.{StopsReachEachWord};
ghost use Rattle.plan_interlock.specs.SeenExamples.{SeenExamples};
ghost use Rattle.plan_interlock.specs.BookExamples.{BookExamples, OrderTells};

use crate::rules::PlanRules;
use plan_rules::State;
use plan_rules::laws::lawful_histories;
use plan_word::laws::words_are_laid_out;
use plan_words::laws::{hazards_never_run_between_words, one_word_keeps_motors_apart};

/// A start can open an interlock if only places of the plan are full.
pub fn starts_can_open(rules: &PlanRules, opening: &State)
    requires start { IsStart opening.now }
    requires places { (p : ℕ) → place_count (plan_of rules.now) ≤ p → is_full opening.now p ≡ false }
    ensures { (plan_book (plan_of rules.now)).is_sound opening.now }
{
    let _ = rules.plan().machines();
}

/// Each machine of the plan has one pass, the watch has one, and nobody else has any.
pub fn every_machine_calls(rules: &PlanRules)
    ensures { EveryMachineCalls (plan_of rules.now) }
{
    let _ = rules.plan().machines();
}

/// The passes come in the order of the machines' numbers, the watch's last: of any plan, and of literal ones.
pub fn passes_in_order()
    ensures any { (t : PlanTable) → t.machines ≤ 30 → CallsInOrder t }
    ensures literal { PassesInOrder }
{}

/// All that a pass sees keeps the laws of plans: no zone has two holders, plates are neither lost nor made, and so on.
pub fn passes_see_laws(rules: &PlanRules)
    ensures { EveryPassSeesLaws (plan_of rules.now) }
{
    let _ = rules;
}

/// At the point of its call a machine still has what it had: what it holds, its own places, and the postures of the
/// zones that it hosts.
pub fn rights_last(rules: &PlanRules)
    ensures { RightsLast (plan_of rules.now) }
{
    let _ = rules;
}

/// At the point of its call a machine may still run each motor of the plan that it has found permitted since its last
/// one, by a load or by a survey.
pub fn permissions_last(rules: &PlanRules)
    ensures { PermissionsLast (plan_of rules.now) }
{
    lawful_histories();
    let _ = rules;
}

/// A load of the word (`Interlock::survey_word`) permits the motors that a survey of the same moment permits.
pub fn surveys_permit_the_same(rules: &PlanRules)
    ensures { SurveysPermitTheSame (plan_of rules.now) }
{
    words_are_laid_out();
    let _ = rules;
}

/// Bits of literal numbers, literal words of the press, and a permission that lasts through literal events.
pub fn motor_examples_are_right()
    ensures { MotorExamples }
{}

/// A literal history that no pass sees, and literal rights that don't last.
pub fn seen_examples_are_right()
    ensures { SeenExamples }
{}

/// In a run (`close`) calls that don't overlap keep their order, and a call that is asked after a receipt (`ask_after`)
/// begins after each call that was answered before the receipt was taken.
pub fn calls_keep_order(rules: &PlanRules)
    ensures { CallsKeepOrder (plan_of rules.now) }
{
    let _ = rules;
}

/// At every time the history of the rule is empty, or one of the callers has seen it whole; likewise the moments. So
/// they are one, and grow as what callers have seen. By the rule what receipts tell comes before what later loads add.
pub fn history_is_one(rules: &PlanRules)
    ensures { HistoryIsOne rules.now }
{
    let _ = rules;
}

/// However many calls a pass makes: as often as one was Busy, other machines made `tries` changes, and raised the stamp
/// by as many. So over one interlock the Busy answers of a machine times `tries` are at most the last stamp.
pub fn busy_is_paid(rules: &PlanRules)
    ensures { (tries : ℕ) → BusyCallsAreFew (plan_of rules.now) tries }
{
    let _ = rules;
}

/// The rules of the press on literal states and calls; and what the laws of order say, each by itself.
pub fn book_examples_are_right()
    ensures book { BookExamples }
    ensures order { OrderTells }
{}

/// On each word of a plant, what a new pass has seen is a legal history, and so it stays by each of its calls, on
/// whichever word: each law of such histories holds of each word by itself.
pub fn words_stay_lawful()
    ensures { WordsStayLawful }
{}

/// The watch's stop (`PlantInterlock::stop`) reaches each word: its reply stands at the word's number. `Done` has
/// stopped the word, and `Stopped` found it stopped. `Worn` found it running; and where the call was Busy the word runs
/// still, after all that the pass has now seen there. Likewise `resume` lets each word go on.
pub fn stops_reach_each_word()
    ensures { StopsReachEachWord }
{}

/// What one load of each word told of a motor (`PlantInterlock::permitted_motors`) is a reading of its permission on
/// each word, at a moment of its own. So two motors never both run by such loads, whatever is done on any word, if one
/// zone or place keeps them apart, or the plan of one word.
pub fn permitted_motors_exclude_between_words()
    ensures { LoadsKeepApart }
{
    hazards_never_run_between_words();
    one_word_keeps_motors_apart();
}
