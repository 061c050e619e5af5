//! Laws, each the contract of a function that does nothing. `plan.machines()` reads the plan, so the prover knows that
//! it is one.
ghost use Rattle.std.specs.Prelude.{◌≡◌, ℕ, ◌≤◌, false};
ghost use Rattle.plan_types.specs.Table.{PlanTable, place_count};
ghost use Rattle.plan_rules.specs.State.{is_full};
ghost use Rattle.plan_rules.specs.declared.state.State.{State as PlanState};
ghost use Rattle.plan_rules.specs.Sound.{IsStart};
ghost use Rattle.plan_rules.specs.Reply.{next};
ghost use Rattle.plan_word.specs.Layout.{Counts, FieldsAreApart, FieldsFit, ExamplesFit};
ghost use Rattle.plan_word.specs.PlainLaws.{PlainWordsStay};
ghost use Rattle.plan_word.specs.SpaceExamples.{SpaceWords, SpacesTold};
ghost use Rattle.plan_word.specs.OfPlan.{IsOfPlan};
ghost use Rattle.plan_word.specs.Laws.{EveryWordIsLaidOut, LayoutsTell, WordsAreDistinct, LiftWords};
ghost use Rattle.plan_word.specs.Examples.{WordsAreRight, WordsTell, NotOfPress, StatesOfPlans};

use plan_rules::State;
use plan_types::{Call, Plan};

/// No two fields of a word overlap, and each ends within its width. And what this says of some fields.
pub fn fields_are_apart()
    ensures apart { FieldsAreApart }
    ensures fit { (c : Counts) (t : PlanTable) → FieldsFit c t }
{}

/// The words of a press, of a lift and of ten zones, with literal widths and places.
pub fn examples_fit()
    ensures { ExamplesFit }
{}

/// Each number of a state of a plan fits its field and reads back from the word, which has no bit above its width.
pub fn words_are_laid_out()
    ensures { EveryWordIsLaidOut }
{}

/// Such a word tells each zone, each place, the stamp and the stop in bits of its own, and no more.
pub fn layouts_tell()
    ensures { LayoutsTell }
{}

/// No two states of a plan have the same word: a state that is packed and unpacked is the same state. And what this law
/// and the two before it say of a lift.
pub fn words_are_distinct()
    ensures distinct { WordsAreDistinct }
    ensures lift { (s other : PlanState) → LiftWords s other }
{}

/// States of the press, of the lift and of two presses have these literal words, which tell them; and some states
/// aren't the press's.
pub fn words_are_right()
    ensures words { WordsAreRight }
    ensures states { WordsTell }
    ensures strangers { NotOfPress }
    ensures of_plans { StatesOfPlans }
{}

/// A start is a state of the plan if only places of the plan are full.
pub fn starts_are_of_plan(plan: &Plan, opening: &State)
    requires start { IsStart opening.now }
    requires places { (p : ℕ) → place_count plan.now ≤ p → is_full opening.now p ≡ false }
    ensures { IsOfPlan plan.now opening.now }
{
    let _ = plan.machines();
}

/// After a call on a state of a plan comes a state of the plan.
pub fn stays_of_plan(plan: &Plan, state: &State, machine: u8, call: Call)
    requires { IsOfPlan plan.now state.now }
    ensures { IsOfPlan plan.now (next plan.now state.now machine call) }
{
    let _ = plan.machines();
}

/// Where no zone joins the one before it, each has two bits for its owner, and then its flag's and its posture's, as if
/// there were no spaces.
pub fn plain_words_stay()
    ensures { PlainWordsStay }
{}

/// States of a press with two robots have these literal words, which tell them: the first zone of their space has its
/// owner, and each its flag and posture.
pub fn words_tell_spaces()
    ensures words { SpaceWords }
    ensures states { SpacesTold }
{}
