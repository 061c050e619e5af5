//! The states of a plant's words.
ghost use Rattle.std.specs.Prelude.{IfOk};
ghost use Rattle.plan_workers.specs.PlantJobs.{IsPlantJobOf};
ghost use Rattle.plan_workers.specs.PlantStates.{AreStates};

use plan_interlock::{PlantInterlock, PlantPass};
use plan_rules::State;
use std::alloc::{AllocError, Global};

/// The state of each word, in the order of the words, by one load of each, one after another: the one after all that
/// the pass's right there has then seen. No call is made. The words' states need not be of one moment.
///
/// It takes the pass. So it serves the end of a plant's run: by the watch's pass, once all machines have come back.
pub fn survey_words(
    alloc: Global,
    interlock: &PlantInterlock,
    pass: PlantPass,
) -> Result<Vec<State>, AllocError>
    requires own { IsPlantJobOf interlock.now pass }
    ensures states { IfOk result (λ states. AreStates interlock.now pass states.items) }
{
    let mut states = Vec::new(alloc);
    let mut word = 0;
    'rights: for right in pass.into_rights() {
        let mut right = right;
        states.push(interlock.word(word).survey(&mut right))?;
        word += 1;
    }
    Ok(states)
}
