//! Laws, each the contract of a function that does nothing.
ghost use Rattle.std.specs.Prelude.{ℕ};
ghost use Rattle.plan_c.specs.Courses.{TurnsGoOn};
ghost use Rattle.plan_c.specs.Examples.{StartsAreJudged};
ghost use Rattle.plan_c.specs.Laws.{NoStateHasNoWord};
ghost use Rattle.plan_c.specs.LineExamples.{FaultsHaveNumbers, LinesAreMet};
ghost use Rattle.plan_c.specs.NumberExamples.{CallsAreMet, GivenIsMet};
ghost use Rattle.plan_c.specs.NumberExamples.{NumbersAreMet, RepliesAreMet};
ghost use Rattle.plan_c.specs.Resuming.{ResumesGoOn};

use plan_rules::laws::lawful_histories;
use plan_word::laws::words_are_laid_out;

/// No state of a plan has the word that says that there is none.
pub fn no_state_has_no_word()
    ensures { NoStateHasNoWord }
{
    words_are_laid_out();
}

/// Which texts and stamps are those of a start of two places, and of sixteen, and which places are full.
pub fn starts_are_judged()
    ensures { StartsAreJudged }
{}

/// The number of each posture, verb, object, refusal and answer.
pub fn numbers_are_met()
    ensures { NumbersAreMet }
{}

/// The numbers of each call, and numbers of none.
pub fn calls_are_met()
    ensures { CallsAreMet }
{}

/// The number of each fault and of all of them together; rows of literal steps, and rows of none.
pub fn lines_are_met()
    ensures faults { FaultsHaveNumbers }
    ensures rows { LinesAreMet }
{}

/// What C gets of each answer, whatever it names.
pub fn replies_are_met()
    ensures { (word : ℕ) → RepliesAreMet word }
{}

/// What the bytes of a plan and the word of a state have to be, in other words.
pub fn given_is_met()
    ensures { GivenIsMet }
{}

/// A turn on a word that a legal history leads to, by which the machine is at its place, makes one call of that history
/// at most. So it leads to a word, a history and a place of which the same is so. Where the program runs only what it
/// may, and the history began with zones open as poses give, each motor that is on is permitted, whatever others do,
/// until the machine's next call is done.
pub fn turns_go_on()
    ensures { TurnsGoOn }
{
    lawful_histories();
}

/// A machine that may go on at its place, by a word's state, is in place with that state as the opening: so
/// `turns_go_on` holds from there, whatever led to the word. And the place and the word to which turns have led are
/// taken back.
pub fn resumes_go_on()
    ensures { ResumesGoOn }
{
    lawful_histories();
}
