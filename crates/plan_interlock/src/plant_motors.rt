//! Which motors of a plant may run, by one load of each of its words.
ghost use Rattle.std.specs.Prelude.{◌≡◌, ◌↔◌, ◌<◌, ◌≤◌, ℕ, All, length, map};
ghost use Rattle.plan_motors.specs.declared.motor.Motor.{Motor};
ghost use Rattle.plan_interlock.specs.Motors.{HasBit};
ghost use Rattle.plan_interlock.specs.Plant.{IsOfPlant, IsSamePlantPass, OnWord, OthersStay};
ghost use Rattle.plan_interlock.specs.PlantMotors.{AreMasksOf, HasLooked, IsFound, OnEachWord};
ghost use Rattle.plan_interlock.specs.PlantMotors.{PermitsPart, PermitsPartLong};

use crate::motors::permitted_motors;
use crate::plant::{PlantInterlock, PlantPass};
use plan_motors::MotorMask;

impl PlantInterlock {
    // Which of these motors one word permits, by one load of it.
    fn permitted_on(&self, pass: &mut PlantPass, word: usize, masks: &[MotorMask]) -> u64
        requires same_plant { IsOfPlant self.now pass.old }
        requires word { word < length self.now }
        requires few { length masks.now ≤ 64 }
        ensures found { OnWord self.now pass.old pass.new word (IsFound masks.now result) }
        ensures other_words { OthersStay pass.old pass.new word }
        ensures pass { IsSamePlantPass self.now pass.old pass.new }
    {
        let interlock = &self.words[word];
        let right = &mut pass.rights[word];
        permitted_motors(interlock, right, masks)
    }

    /// Which of these motors, at most 64, may run now: bit k tells it of the motor with the k-th mask on each word. A
    /// motor needs its part on each word (`MotorMask::of` that word's plan). This is one load of each word, in the
    /// order of the words, and one comparison for each part. No call is made, and no memory is allocated.
    ///
    /// The pass was made with this interlock, and there are masks for each word. Whatever other threads do with the
    /// other passes:
    /// - on each word this is one load, at whose moment the word's history is what the pass has now seen there
    ///   (`looks`);
    /// - a motor's bit is set exactly if each word permits its part after that history (`permitted`);
    /// - each word then goes on permitting a part that fits its plan, whatever events follow there, until a call of the
    ///   motor's machine loses the permission (`lasts`).
    ///
    /// The words are loaded one after another: there is no one moment of all words. Yet two machines whose motors a
    /// zone, a place or one word's plan keeps apart never both run them by such loads: the law
    /// `permitted_motors_exclude_between_words`.
    pub fn permitted_motors(&self, pass: &mut PlantPass, masks: &[Vec<MotorMask>]) -> u64
        requires same_plant { IsOfPlant self.now pass.old }
        requires each_word { length masks.now ≡ length self.now }
        requires few { All (λ several. length several.items ≤ 64) masks.now }
        ensures looks { (word : ℕ) → word < length self.now
            → OnWord self.now pass.old pass.new word HasLooked }
        ensures permitted { (k : ℕ) (parts : ℕ → Motor)
            → AreMasksOf self.now (map (λ several. several.items) masks.now) k parts
            → (HasBit result k ↔ OnEachWord self.now pass.new parts PermitsPart) }
        ensures lasts { (k : ℕ) (parts : ℕ → Motor)
            → AreMasksOf self.now (map (λ several. several.items) masks.now) k parts
            → HasBit result k → OnEachWord self.now pass.new parts PermitsPartLong }
        ensures no_other { (k : ℕ) → HasBit result k
            → All (λ several. k < length several.items) masks.now }
        ensures pass { IsSamePlantPass self.now pass.old pass.new }
    {
        let mut permitted = u64::MAX;
        for word in 0..self.words() {
            permitted &= self.permitted_on(pass, word, masks[word].as_slice());
        }
        permitted
    }
}
