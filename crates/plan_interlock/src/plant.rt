//! The interlock of a plant on several words, and the passes of its machines.
ghost use Rattle.std.specs.Prelude.{◌≡◌, ◌≤◌, ◌<◌, length, slice_index_or, All};
ghost use Rattle.plan_interlock.specs.Plant.{IsOfPlant, IsSamePlantPass, OnWord, OthersStay, WordView};
ghost use Rattle.plan_interlock.specs.PlantCalls.{AskedBy};

use crate::{PlanInterlock, PlanPass};
use plan_types::{Answer, Call};
use std::marker::Model;
use word_interlock::Reply;

/// The most words of a plant.
pub const MAX_WORDS: usize = 16;

/// The interlock of a plant: one on each of its 1 to 16 words, each by a plan of its own. Threads share it by
/// reference, each with its own passes.
#[derive(Drop)]
pub struct PlantInterlock {
    pub(crate) words: Vec<PlanInterlock>,
}

impl Model for PlantInterlock {
    ghost use Rattle.std.specs.Prelude.{List, ◌≤◌, length};
    ghost use Rattle.plan_interlock.specs.Plant.{WordView};

    ghost Value = { List WordView };

    ghost view = { λ plant. plant.words.items };

    ghost invariant = { λ plant. (1 ≤ length plant.words.items) × (length plant.words.items ≤ 16) };
}

/// The right to make the calls of one machine of a plant, on each of its words. It may go from thread to thread.
#[derive(Drop)]
pub struct PlantPass {
    pub(crate) actor: u8,
    pub(crate) rights: Vec<PlanPass>,
}

impl Model for PlantPass {
    ghost use Rattle.std.specs.Prelude.{◌≡◌, All};
    ghost use Rattle.plan_interlock.specs.Plant.{PlantPassView};

    ghost Value = { PlantPassView };

    ghost view = { λ pass. record { actor = pass.actor; rights = pass.rights.items } };

    ghost invariant = { λ pass. All (λ v. v.actor ≡ pass.actor) pass.rights.items };
}

impl PlantPass {
    /// The machine whose calls it makes, on each word; 30 is the watch.
    pub fn actor(&self) -> u8
        ensures machine { result ≡ self.now.actor }
        ensures rights { All (λ v. v.actor ≡ result) self.now.rights }
    {
        self.actor
    }

    /// Takes the pass apart: its right on each word, in the order of the words.
    pub fn into_rights(self) -> Vec<PlanPass>
        ensures rights { result.items ≡ self.rights }
        ensures own { All (λ v. v.actor ≡ self.actor) result.items }
    {
        let PlantPass { actor: _, rights } = self;
        rights
    }

    /// The pass of a machine that has these rights, each of this machine.
    pub fn of_rights(actor: u8, rights: Vec<PlanPass>) -> PlantPass
        requires own { All (λ v. v.actor ≡ actor) rights.items }
        ensures machine { result.actor ≡ actor }
        ensures rights { result.rights ≡ rights.items }
    {
        PlantPass { actor, rights }
    }
}

impl PlantInterlock {
    /// How many words there are.
    pub fn words(&self) -> usize
        ensures count { result ≡ length self.now }
        ensures some { 1 ≤ result }
        ensures few { result ≤ 16 }
    {
        self.words.len()
    }

    /// The interlock of a word. A line of a machine there has it, and the machine's right on that word
    /// ([`PlantPass::into_rights`]).
    pub fn word(&self, word: usize) -> &PlanInterlock
        requires word { word < length self.now }
        ensures { (i : WordView) → result.now ≡ slice_index_or self.now word i }
    {
        &self.words[word]
    }

    /// Makes a call on one word, by the plan of that word. It is a call as by `Interlock::ask` of that word's
    /// interlock, with the same clauses (`asked`: `Asked` of `word_interlock`). The pass's rights on all other words
    /// stay as they are (`other_words`).
    ///
    /// The pass was made with this interlock.
    pub fn ask(&self, pass: &mut PlantPass, word: usize, call: Call) -> Reply<Answer>
        requires same_plant { IsOfPlant self.now pass.old }
        requires word { word < length self.now }
        ensures asked { OnWord self.now pass.old pass.new word (AskedBy call result) }
        ensures other_words { OthersStay pass.old pass.new word }
        ensures pass { IsSamePlantPass self.now pass.old pass.new }
    {
        let interlock = &self.words[word];
        let right = &mut pass.rights[word];
        interlock.ask(right, call)
    }
}
