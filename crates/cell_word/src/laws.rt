//! Laws of the word of every state, each the contract of a function that does nothing.
ghost use Rattle.std.specs.Prelude.{◌≡◌, IsTrue};
ghost use Rattle.cell_types.specs.declared.machine.Machine.{Machine};
ghost use Rattle.cell_types.specs.declared.call.Call.{Call};
ghost use Rattle.cell_rules.specs.ModelState.{ModelState};
ghost use Rattle.cell_rules.specs.Sound.{IsSound};
ghost use Rattle.cell_rules.specs.Reply.{refusal};
ghost use Rattle.cell_rules.specs.Causes.{order_of};
ghost use Rattle.cell_word.specs.Layout.{packed};
ghost use Rattle.cell_word.specs.Guards.{first_refusal, guards_of, numbers_of, is_ordered};
ghost use Rattle.cell_word.specs.Laws.{IsLaidOut};
ghost use Rattle.cell_word.specs.WordExamples.{WordExamples};

/// The fields of a sound state fill the bits 0 to 60 of its word, side by side and without overlap.
/// Each value fits its width and reads back, and the word is below 2 to the 61.
pub fn word_is_laid_out()
    ensures { (state : ModelState) → IsSound state → IsLaidOut state }
{}

/// No two sound states have the same word: a state that is packed and unpacked is the same state.
pub fn words_are_distinct()
    ensures { (one other : ModelState) → IsSound one → IsSound other
        → packed one ≡ packed other → one ≡ other }
{}

/// The guards of a call are its refusals: the first of them that refuses a sound state's word has
/// the refusal that the interlock answers, and they are in the order of the call's refusals.
pub fn guards_are_refusals()
    ensures first { (state : ModelState) → IsSound state → (machine : Machine) (call : Call)
        → first_refusal (packed state) (guards_of machine call) ≡ refusal state machine call }
    ensures order { (machine : Machine) (call : Call)
        → IsTrue (is_ordered (order_of call) (numbers_of (guards_of machine call))) }
{}

/// Literal words: where each owner, plate, posture and place is, the word of a whole state, which
/// words are a state's, and what calls test and write.
#[tactic(auto, unfolding(crate::specs::Layout::packed))]
pub fn words_by_examples()
    ensures { WordExamples }
{}
