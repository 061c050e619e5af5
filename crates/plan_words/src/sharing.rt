//! Groups that share a word: each goes to the first word that has room for it.
ghost use Rattle.std.specs.Prelude.{◌≡◌, ◌∷◌, ◌++◌, ◌≤◌, [], IfOk, IfErr, OnOk};
ghost use Rattle.plan_words.specs.declared.fault.PlantFault.TheVariants.{OutOfMemory};
ghost use Rattle.plan_words.specs.Groups.{IsLargePlan, labels_of};
ghost use Rattle.plan_words.specs.Plant as plant;
ghost use Rattle.plan_words.specs.Plant.{all_put_on, first_room, together};

use crate::fault::PlantFault;
use crate::plant::PlantTables;
use std::alloc::{AllocError, Global};
use std::marker::Model;

/// The groups of one word, by their labels.
#[derive(Debug, Drop)]
pub(crate) struct Sharers {
    labels: Vec<usize>,
}

impl Model for Sharers {
    ghost use Rattle.std.specs.Prelude.{ℕ, List};

    ghost Value = { List ℕ };

    ghost view = { λ a. a.labels.items };
}

impl Sharers {
    /// One group alone.
    fn one(label: usize, alloc: Global) -> Result<Sharers, AllocError>
        ensures { IfOk result (λ sharers. sharers ≡ label ∷ []) }
    {
        Ok(Sharers {
            labels: vec![in alloc; label]?,
        })
    }

    /// Their labels.
    pub(crate) fn labels(&self) -> &[usize]
        ensures { result.now ≡ self.now }
    {
        &self.labels
    }

    /// Their labels, and one more.
    fn with(&self, label: usize, alloc: Global) -> Result<Vec<usize>, AllocError>
        ensures { IfOk result (λ labels. labels.items ≡ self.now ++ label ∷ []) }
    {
        let mut labels = self.labels.to_vec(alloc)?;
        labels.push(label)?;
        Ok(labels)
    }

    /// Appends a group.
    fn push(&mut self, label: usize) -> Result<(), AllocError>
        ensures { OnOk result (self.new ≡ self.old ++ label ∷ []) }
    {
        self.labels.push(label)?;
        Ok(())
    }
}

/// Puts a group on this word, or on a new one.
fn put_on(
    words: &mut Vec<Sharers>,
    label: usize,
    word: usize,
    alloc: Global,
) -> Result<(), AllocError>
    ensures { OnOk result (words.new.items ≡ plant.put_on label word words.old.items) }
{
    if word < words.len() {
        words[word].push(label)
    } else {
        let alone = Sharers::one(label, alloc)?;
        words.push(alone)?;
        Ok(())
    }
}

impl PlantTables {
    #[tactic(auto, using(crate::proofs::WordFaults::fits_a_word, crate::proofs::WordFaults::fits_none))]
    /// Whether groups fit a word together.
    fn fits(&self, labels: &[usize], groups: &[usize], alloc: Global) -> Result<bool, PlantFault>
        requires labels { labels.now ≡ labels_of self.now }
        requires large { IsLargePlan self.now }
        requires machines { self.now.machines ≤ 30 }
        ensures fits { let members = together self.now groups.now in
            IfOk result (λ fits. fits ≡ plant.fits self.now members) }
        ensures fault { IfErr result (λ fault. fault ≡ OutOfMemory) }
    {
        match self.word(labels, groups, alloc) {
            Ok(_) => Ok(true),
            Err(PlantFault::OfWord { .. }) => Ok(false),
            Err(fault) => Err(fault),
        }
    }

    /// Whether a word has room for one group more.
    fn has_room(
        &self,
        labels: &[usize],
        word: &Sharers,
        label: usize,
        alloc: Global,
    ) -> Result<bool, PlantFault>
        requires labels { labels.now ≡ labels_of self.now }
        requires large { IsLargePlan self.now }
        requires machines { self.now.machines ≤ 30 }
        ensures room { let members = together self.now (word.now ++ label ∷ []) in
            IfOk result (λ room. room ≡ plant.fits self.now members) }
        ensures fault { IfErr result (λ fault. fault ≡ OutOfMemory) }
    {
        let groups = word.with(label, alloc)?;
        self.fits(labels, &groups, alloc)
    }

    #[tactic(auto, using(crate::proofs::SharedWords::room_past))]
    /// The first word that has room for a group; how many words there are, if none has.
    fn first_room(
        &self,
        labels: &[usize],
        words: &[Sharers],
        label: usize,
        alloc: Global,
    ) -> Result<usize, PlantFault>
        requires labels { labels.now ≡ labels_of self.now }
        requires large { IsLargePlan self.now }
        requires machines { self.now.machines ≤ 30 }
        ensures first { IfOk result (λ word. word ≡ first_room self.now label words.now) }
        ensures fault { IfErr result (λ fault. fault ≡ OutOfMemory) }
    {
        let mut before = 0;
        for word in words {
            if self.has_room(labels, word, label, alloc)? {
                return Ok(before);
            }
            before += 1;
        }
        Ok(before)
    }

    #[tactic(auto, using(crate::proofs::SharedWords::put_more, crate::proofs::SharedWords::put_end))]
    /// The groups of each word: each group goes to the first word that has room for it.
    pub(crate) fn sharers(
        &self,
        labels: &[usize],
        groups: &[usize],
        alloc: Global,
    ) -> Result<Vec<Sharers>, PlantFault>
        requires labels { labels.now ≡ labels_of self.now }
        requires large { IsLargePlan self.now }
        requires machines { self.now.machines ≤ 30 }
        ensures words { IfOk result (λ words. words.items ≡ all_put_on self.now groups.now []) }
        ensures fault { IfErr result (λ fault. fault ≡ OutOfMemory) }
    {
        let mut words = Vec::new(alloc);
        for label in groups {
            let word = self.first_room(labels, &words, *label, alloc)?;
            put_on(&mut words, *label, word, alloc)?;
        }
        Ok(words)
    }
}
