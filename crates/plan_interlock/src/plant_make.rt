//! Makes the interlock of a plant.
ghost use Rattle.std.specs.Prelude.{◌≡◌, ◌≢◌, ◌≤◌, ◌↔◌, ℕ, List, All, Err, IfOk, IfErr};
ghost use Rattle.std.specs.Prelude.{Some, None, map, ◌∷◌, length, OnOk};
ghost use Rattle.plan_interlock.specs.declared.plant_make.PlantFault.{PlantFault};
ghost use Rattle.plan_interlock.specs.declared.plant_make.PlantFault.TheVariants.{Memory};
ghost use Rattle.plan_interlock.specs.Plant.{IsOfPlant};
ghost use Rattle.plan_interlock.specs.PlantMake as making;
ghost use Rattle.plan_interlock.specs.PlantMake.{OpensSoundly, AreOpened, plant_fault, machines_of};
ghost use Rattle.plan_interlock.specs.PlantMake.{all_passes, callers, new_pass, new_right};
ghost use Rattle.plan_interlock.specs.PlantMake.{passes_left};

use crate::plant::{MAX_WORDS, PlantInterlock, PlantPass};
use crate::rules::PlanRules;
use crate::{PlanInterlock, PlanPass};
use plan_rules::State;
use plan_types::WATCH;
use std::alloc::{AllocError, Global};
use word_interlock::{Interlock, Passes};

/// Why the interlock of a plant wasn't made.
#[derive(Clone, Copy, PartialEq, Eq, Debug)]
pub enum PlantFault {
    /// The number of exchanges that a call may lose isn't 1 to 64.
    Tries,
    /// The number of words isn't 1 to 16.
    Words,
    /// The plans of the words don't all have the same number of machines.
    Machines,
    /// There was no memory.
    Memory,
}

/// A word of a plant: its rules, and the state that it opens with.
#[derive(Drop)]
pub struct WordOpening {
    /// Its rules.
    pub rules: PlanRules,
    /// The state.
    pub state: State,
}

type PlanPasses = Passes<PlanRules>;

// How many machines each plan has, or why no interlock can be made of these words.
fn machines_in(words: &[WordOpening], tries: u8) -> Result<u8, PlantFault>
    ensures fault { IfErr result (λ fault. plant_fault words.now tries ≡ Some fault) }
    ensures ok { OnOk result (plant_fault words.now tries ≡ None) }
    ensures tries { OnOk result ((1 ≤ tries) × (tries ≤ 64)) }
    ensures words { OnOk result ((1 ≤ length words.now) × (length words.now ≤ 16)) }
    ensures few { IfOk result (λ machines. machines ≤ 30) }
    ensures machines { IfOk result (λ machines. All (λ w. machines_of w ≡ machines) words.now) }
{
    if tries < 1 || tries > 64 {
        return Err(PlantFault::Tries);
    }
    if words.is_empty() || words.len() > MAX_WORDS {
        return Err(PlantFault::Words);
    }
    let machines = words[0].rules.plan().machines();
    for word in words {
        if word.rules.plan().machines() != machines {
            return Err(PlantFault::Machines);
        }
    }
    Ok(machines)
}

// The interlock of each word, and its passes.
fn open_words(
    alloc: Global,
    words: Vec<WordOpening>,
    tries: u8,
) -> Result<(Vec<PlanInterlock>, Vec<PlanPasses>), AllocError>
    requires sound { All OpensSoundly words.items }
    ensures opened { IfOk result (λ made. AreOpened words.items tries made.0.items) }
    ensures passes { IfOk result (λ made. made.1.items ≡ map all_passes made.0.items) }
{
    let mut interlocks = Vec::new(alloc);
    let mut passes = Vec::new(alloc);
    'words: for word in words {
        let WordOpening { rules, state } = word;
        let Ok((interlock, all)) = Interlock::new(alloc, rules, state, tries) else {
            return Err(AllocError);
        };
        interlocks.push(interlock)?;
        passes.push(all)?;
    }
    Ok((interlocks, passes))
}

// Takes a machine's pass on each word, where it is that machine's turn.
fn take_rights(
    alloc: Global,
    interlocks: &[PlanInterlock],
    passes: &mut Vec<PlanPasses>,
    actor: u8,
) -> Result<Vec<PlanPass>, AllocError>
    requires next { (rest : List ℕ)
        × (passes.old.items ≡ passes_left interlocks.now (actor ∷ rest)) }
    ensures rights { IfOk result (λ rights. rights.items ≡ map (new_right actor) interlocks.now) }
    ensures left { (rest : List ℕ) → passes.old.items ≡ passes_left interlocks.now (actor ∷ rest)
        → OnOk result (passes.new.items ≡ passes_left interlocks.now rest) }
{
    let mut rights = Vec::new(alloc);
    for word in 0..interlocks.len() {
        let interlock = &interlocks[word];
        let right = interlock.take_pass(&mut passes[word], actor);
        rights.push(right)?;
    }
    Ok(rights)
}

// The pass of each machine, and the watch's.
fn take_passes(
    alloc: Global,
    interlocks: &[PlanInterlock],
    passes: &mut Vec<PlanPasses>,
    machines: u8,
) -> Result<Vec<PlantPass>, AllocError>
    requires few { machines ≤ 30 }
    requires all { passes.old.items ≡ passes_left interlocks.now (callers machines) }
    ensures { IfOk result
        (λ made. made.items ≡ map (new_pass interlocks.now) (callers machines)) }
{
    let mut made = Vec::new(alloc);
    for actor in 0..machines {
        let rights = take_rights(alloc, interlocks, passes, actor)?;
        made.push(PlantPass { actor, rights })?;
    }
    let rights = take_rights(alloc, interlocks, passes, WATCH)?;
    made.push(PlantPass {
        actor: WATCH,
        rights,
    })?;
    Ok(made)
}

impl PlantInterlock {
    /// Makes the interlock of a plant, and its only passes: one for each machine, in the order of their numbers, and
    /// the watch's last. Each word opens with its state. A call is Busy once it has lost `tries` exchanges.
    ///
    /// Each word's interlock is by its rules, opens with its state, and has this limit (`opened`). Each pass has one
    /// right on each word, before its first call (`passes`: `new_pass`), and is of this interlock (`own`).
    ///
    /// Errors: the first that applies of `Tries`, `Words` and `Machines` (`fault`: `plant_fault`), and `Memory` if none
    /// does and there is no memory. No later call allocates memory.
    pub fn new(
        alloc: Global,
        words: Vec<WordOpening>,
        tries: u8,
    ) -> Result<(PlantInterlock, Vec<PlantPass>), PlantFault>
        requires sound { All OpensSoundly words.items }
        ensures fault { (fault : PlantFault) → fault ≢ Memory
            → (result ≡ Err fault ↔ plant_fault words.items tries ≡ Some fault) }
        ensures opened { IfOk result (λ made. AreOpened words.items tries made.0) }
        ensures passes { IfOk result (λ made.
            made.1.items ≡ map (new_pass made.0) (callers (making.machines_in words.items))) }
        ensures own { IfOk result (λ made. All (IsOfPlant made.0) made.1.items) }
    {
        let machines = machines_in(words.as_slice(), tries)?;
        let Ok((words, mut left)) = open_words(alloc, words, tries) else {
            return Err(PlantFault::Memory);
        };
        let Ok(passes) = take_passes(alloc, words.as_slice(), &mut left, machines) else {
            return Err(PlantFault::Memory);
        };
        Ok((PlantInterlock { words }, passes))
    }
}
