//! What a picture shows: the plan of a word, motors and hazards, and the plans of all words.
ghost use Rattle.std.specs.Prelude.{◌≡◌, ◌≤◌, ◌<◌, ◌++◌, ◌∷◌, [], false, true, IfOk, OnOk, flat_map, length, map};
ghost use Rattle.std.specs.List.{range_with_len};
ghost use Rattle.plan_motors.specs.OfPlan as of_plan;
ghost use Rattle.plan_picture.specs.Scenes as spec;
ghost use Rattle.plan_picture.specs.Scenes.{names_of_words, no_word, scene_by};

use plan_document::{NamedMotors, ProgrammedPlan};
use plan_motors::Hazard;
use plan_text::{NamedPlan, Names};
use plan_types::Plan;
use std::alloc::{AllocError, Global};
use std::marker::Model;

/// What a picture shows of a plan, or of one word of a plant.
#[derive(Drop)]
pub(crate) struct Shown<'a> {
    named: &'a NamedPlan,
    motors: &'a NamedMotors,
    plans: &'a [ProgrammedPlan],
    owners: &'a [u8],
    word: usize,
    says_word: bool,
}

impl<'a> Model for Shown<'a> {
    ghost use Rattle.std.specs.Prelude.{◌≡◌, ◌≤◌, length};
    ghost use Rattle.plan_picture.specs.Scenes.{Scene, names_of_words, scene_by, thing_owners};

    ghost Value = { Scene };

    ghost view = { λ a.
        scene_by a.named.now a.motors.now (names_of_words a.plans.now) a.word a.says_word };

    ghost invariant = { λ a. (length a.plans.now ≤ 16) × (a.word ≤ length a.plans.now)
        × (a.owners.now ≡ thing_owners
        (scene_by a.named.now a.motors.now (names_of_words a.plans.now) a.word a.says_word)) };
}

impl<'a> Shown<'a> {
    /// A plan, which is its only word.
    pub(crate) fn of_plan(
        plan: &'a ProgrammedPlan,
        plans: &'a [ProgrammedPlan],
        owners: &'a [u8],
    ) -> Shown<'a>
        requires plans { plans.now ≡ plan.now ∷ [] }
        requires owners { owners.now ≡ spec.thing_owners (spec.scene plan.now) }
        ensures { result ≡ spec.scene plan.now }
    {
        Shown {
            named: &plan.named,
            motors: &plan.motors,
            plans,
            owners,
            word: 0,
            says_word: false,
        }
    }

    /// A plant, by the plan of its first word and those of all.
    pub(crate) fn of_plant(
        first: &'a ProgrammedPlan,
        plans: &'a [ProgrammedPlan],
        owners: &'a [u8],
    ) -> Shown<'a>
        requires few { length plans.now ≤ 16 }
        requires owners { owners.now ≡ spec.thing_owners (spec.plant_scene first.now plans.now) }
        ensures { result ≡ spec.plant_scene first.now plans.now }
    {
        Shown {
            named: &first.named,
            motors: &first.motors,
            plans,
            owners,
            word: 0,
            says_word: true,
        }
    }

    /// The plan of the word.
    pub(crate) fn named_plan(&self) -> &'a NamedPlan
        ensures { result.now ≡ self.now.named }
    {
        self.named
    }

    /// The names of the motors.
    pub(crate) fn motor_names(&self) -> &'a Names
        ensures { result.now ≡ self.now.motor_names }
    {
        &self.motors.names
    }

    /// The names of the hazards.
    pub(crate) fn hazard_names(&self) -> &'a Names
        ensures { result.now ≡ self.now.hazard_names }
    {
        &self.motors.hazard_names
    }

    /// A hazard by its number; one of the first motor alone if there is no such hazard.
    pub(crate) fn hazard(&self, hazard: u8) -> Hazard
        ensures { result ≡ of_plan.hazard_at self.now.hazards hazard }
    {
        match self.motors.hazards.get(usize::from(hazard)) {
            Some(hazard) => *hazard,
            None => Hazard {
                first: 0,
                second: 0,
            },
        }
    }

    /// How many words there are.
    pub(crate) fn word_count(&self) -> usize
        ensures count { result ≡ length self.now.words }
        ensures few { result ≤ 16 }
    {
        self.plans.len()
    }

    /// The number of this word.
    pub(crate) fn word(&self) -> usize
        ensures number { result ≡ self.now.word }
        ensures there { result ≤ length self.now.words }
        ensures few { result ≤ 16 }
    {
        self.word
    }

    /// Whether columns say their word.
    pub(crate) fn says_word(&self) -> bool
        ensures { result ≡ self.now.says_word }
    {
        self.says_word
    }

    /// The plan of a word.
    pub(crate) fn word_at(&self, word: usize) -> &'a NamedPlan
        requires there { word < length self.now.words }
        requires few { word ≤ 16 }
        ensures { result.now ≡ spec.word_at self.now word }
    {
        &self.plans[word].named
    }

    /// The same plant, of which another word is shown.
    pub(crate) fn on_word(&self, word: usize) -> Shown<'a>
        requires there { word < length self.now.words }
        requires few { word ≤ 16 }
        ensures { result ≡ spec.on_word self.now word }
    {
        Shown {
            named: self.word_at(word),
            motors: self.motors,
            plans: self.plans,
            owners: self.owners,
            word,
            says_word: self.says_word,
        }
    }

    /// The machine of a thing: that which keeps a place, or that has a motor; the first one if there is no such thing.
    pub(crate) fn owner_of(&self, thing: usize) -> u8
        ensures { result ≡ spec.owner_of self.now thing }
    {
        match self.owners.get(thing) {
            Some(owner) => *owner,
            None => 0,
        }
    }
}

// ---- the machine of each thing

/// The machine of each place of all words, and then of each motor. An error says that memory ran out.
pub(crate) fn owners_of(
    alloc: Global,
    motors: &NamedMotors,
    plans: &[ProgrammedPlan],
) -> Result<Vec<u8>, AllocError>
    ensures { IfOk result (λ owners. owners.items
        ≡ spec.thing_owners (scene_by no_word motors.now (names_of_words plans.now) 0 false)) }
{
    let mut owners = Vec::new(alloc);
    push_keepers(&mut owners, plans)?;
    push_machines(&mut owners, motors)?;
    Ok(owners)
}

/// Adds the machine of each place, word by word.
fn push_keepers(owners: &mut Vec<u8>, plans: &[ProgrammedPlan]) -> Result<(), AllocError>
    ensures { OnOk result (owners.new.items ≡ owners.old.items
        ++ flat_map (spec.keepers_on (names_of_words plans.now))
        (range_with_len 0 (length (names_of_words plans.now)))) }
{
    'words: for word in 0..plans.len() {
        push_keepers_in(owners, plans[word].named.plan())?;
    }
    Ok(())
}

/// Adds the machine of each place of a plan.
fn push_keepers_in(owners: &mut Vec<u8>, plan: &Plan) -> Result<(), AllocError>
    ensures { OnOk result (owners.new.items ≡ owners.old.items ++ spec.keepers_in plan.now) }
{
    'places: for place in 0..plan.place_count() {
        owners.push(plan.keeper(place))?;
    }
    Ok(())
}

/// Adds the machine of each motor.
fn push_machines(owners: &mut Vec<u8>, motors: &NamedMotors) -> Result<(), AllocError>
    ensures { OnOk result (owners.new.items ≡ owners.old.items
        ++ map (spec.machine_with motors.now.motors.items)
        (range_with_len 0 (length motors.now.names))) }
{
    'motors: for motor in 0..motors.names.len() {
        owners.push(machine_with(motors, motor))?;
    }
    Ok(())
}

/// The machine of a motor; the first one if there is no such motor.
fn machine_with(motors: &NamedMotors, motor: usize) -> u8
    ensures { result ≡ spec.machine_with motors.now.motors.items motor }
{
    match motors.motors.get(motor) {
        Some(motor) => motor.machine,
        None => 0,
    }
}
