//! Which motors of a plant may run, by one load of its word.
ghost use Rattle.std.specs.Prelude.{◌≡◌, ◌↔◌, ◌+◌, ◌<◌, ◌≤◌, ◌^◌, ℕ, List, ◌++◌, length};
ghost use Rattle.plan_types.specs.declared.answer.Event.{Event};
ghost use Rattle.plan_rules.specs.History.{after};
ghost use Rattle.plan_motors.specs.declared.motor.Motor.{Motor};
ghost use Rattle.plan_motors.specs.Motor.{Permits};
ghost use Rattle.plan_motors.specs.Mask.{IsMaskOf, mask_at};
ghost use Rattle.plan_motors.specs.OfPlan.{IsMotorOf};
ghost use Rattle.plan_motors.specs.Laws.{KeepsPermission};
ghost use Rattle.word_interlock.specs.Seen.{HasSeenMore};
ghost use Rattle.plan_interlock.specs.Book.{plan_book, plan_of};
ghost use Rattle.plan_interlock.specs.Motors.{HasBit};

use crate::{PlanInterlock, PlanPass};
use plan_motors::MotorMask;
use plan_motors::mask::permitted_motors as permitted_in;
use plan_rules::laws::lawful_histories;
use plan_word::laws::words_are_laid_out;

/// Which of these motors, at most 64, may run now: bit k tells it of the motor with the k-th mask. This is one load of
/// the word, and one comparison for each motor. No call is made, and no memory is allocated.
///
/// The pass was made with this interlock. Whatever other threads do with the other passes:
/// - at the moment of the load the history is what the pass has now seen: it begins with all that the pass had seen,
///   and has no new event of its own machine (`more`);
/// - a motor's bit is set exactly if the state after that history permits the motor (`permitted`);
/// - a motor that fits the plan then stays permitted, whatever events follow, until a call of its own machine loses
///   the permission (`lasts`).
///
/// So by one load a machine may run its motors until its own next call that is done. Two machines whose motors exclude
/// each other never both do: `plan_motors::laws::hazards_never_run`.
pub fn permitted_motors(interlock: &PlanInterlock, pass: &mut PlanPass, masks: &[MotorMask]) -> u64
    requires same_interlock { pass.old.table ≡ interlock.now.table }
    requires few { length masks.now ≤ 64 }
    ensures more { HasSeenMore (plan_book (plan_of interlock.now.rules)) pass.old pass.new }
    ensures permitted { (k : ℕ) (motor : Motor) → k < length masks.now
        → IsMaskOf (plan_of interlock.now.rules) motor (mask_at masks.now k)
        → (HasBit result k ↔ Permits (plan_of interlock.now.rules)
        (after (plan_of interlock.now.rules) pass.new.opening pass.new.seen) motor) }
    ensures lasts { (k : ℕ) (motor : Motor) → k < length masks.now
        → IsMaskOf (plan_of interlock.now.rules) motor (mask_at masks.now k)
        → IsMotorOf (plan_of interlock.now.rules) motor → HasBit result k → (since : List Event)
        → KeepsPermission (plan_of interlock.now.rules)
        (after (plan_of interlock.now.rules) pass.new.opening pass.new.seen) since motor
        → Permits (plan_of interlock.now.rules)
        (after (plan_of interlock.now.rules) pass.new.opening (pass.new.seen ++ since)) motor }
    ensures no_other { result < 2 ^ length masks.now }
    ensures moments { pass.new.moments ≡ pass.old.moments }
    ensures one_load { pass.new.loads ≡ pass.old.loads + 1 }
    ensures no_exchange { pass.new.exchanges ≡ pass.old.exchanges }
{
    lawful_histories();
    words_are_laid_out();
    let word = interlock.survey_word(pass);
    permitted_in(masks, word)
}
