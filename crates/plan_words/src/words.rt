//! A plant on several words: each word has a plan of its own.
ghost use Rattle.std.specs.Prelude.{◌≡◌, ◌≤◌, ◌<◌, IfOk, IfErr, IfSome, IsNone, IsOk, length, map};
ghost use Rattle.plan_types.specs.Plan.{IsPlan};
ghost use Rattle.plan_words.specs.declared.fault.PlantFault.TheVariants.{OutOfMemory};
ghost use Rattle.plan_words.specs.Groups.{IsLargePlan, label_of, labels_of, zones_of};
ghost use Rattle.plan_words.specs.Plant as plant;
ghost use Rattle.plan_words.specs.Plant.{AreAlonePlans, ArePlans, FitsPlant, IsOnWords};
ghost use Rattle.plan_words.specs.Plant.{group_labels, shared_word, word_at, words_of};
ghost use Rattle.plan_words.specs.PlantFaults as faults;
ghost use Rattle.plan_words.specs.PlantFaults.{FitsWord, IsFaultOfSome, IsWordFault, Says};

use crate::fault::{Limit, PlantFault};
use crate::joining::push_if;
use crate::labelling::label_of;
use crate::members::Members;
use crate::plant::{
    MAX_PLANT_MACHINES, MAX_PLANT_PLACES, MAX_PLANT_POSES, MAX_PLANT_ZONES, MAX_WORDS, PlantTables,
};
use crate::sharing::Sharers;
use plan_types::{MAX_PLACES, MAX_POSES, MAX_ZONES, Plan, PlanFault};
use std::alloc::{AllocError, Global};
use std::marker::Model;

/// One word: its zones, poses and places, and its plan, by its own numbers.
#[derive(Debug, Drop)]
pub struct PlantWord {
    members: Members,
    plan: Plan,
}

impl Model for PlantWord {
    ghost use Rattle.plan_words.specs.Run.{Word};

    ghost Value = { Word };

    ghost view = { λ a. record { group = a.members; table = a.plan } };

    ghost use Rattle.plan_words.specs.PlantFaults.{FitsWord};

    ghost invariant = { λ a. FitsWord a.members };
}

/// A plant on several words, as [`Words::new`] lays it out. No pose, no place and no space has zones on two words.
/// Groups share a word where they fit it: each is on the first word that had room for it.
#[derive(Debug, Drop)]
pub struct Words {
    plant: PlantTables,
    words: Vec<PlantWord>,
}

impl Model for Words {
    ghost use Rattle.plan_words.specs.Plant.{PlantWords};

    ghost Value = { PlantWords };

    ghost view = { λ a. record { plant = a.plant; words = a.words.items } };
}

impl PlantWord {
    fn zones(&self) -> &[usize]
        ensures zones { result.now ≡ self.now.group.zones }
        ensures few { length result.now ≤ 10 }
    {
        self.members.zones()
    }

    fn poses(&self) -> &[usize]
        ensures poses { result.now ≡ self.now.group.poses }
        ensures few { length result.now ≤ 64 }
    {
        self.members.poses()
    }

    fn places(&self) -> &[usize]
        ensures places { result.now ≡ self.now.group.places }
        ensures few { length result.now ≤ 16 }
    {
        self.members.places()
    }

    fn plan(&self) -> &Plan
        ensures { result.now ≡ self.now.table }
    {
        &self.plan
    }
}

impl Members {
    /// Why a word with these has more rows than it may have.
    fn count_fault(&self) -> Option<PlanFault>
        ensures fits { IsNone result → FitsWord self.now }
        ensures fault { result ≡ faults.count_fault self.now }
    {
        if self.zones.len() > MAX_ZONES {
            Some(PlanFault::TooManyZones)
        } else if self.poses.len() > MAX_POSES {
            Some(PlanFault::TooManyPoses)
        } else if self.places.len() > MAX_PLACES {
            Some(PlanFault::TooManyPlaces)
        } else {
            None
        }
    }
}

impl PlantTables {
    fn limit_fault(&self) -> Option<Limit>
        ensures fits { IsNone result → FitsPlant self.now }
        ensures exceeds { IfSome result (faults.Exceeds self.now) }
    {
        if self.machines > MAX_PLANT_MACHINES {
            Some(Limit::Machines)
        } else if self.zones.len() > MAX_PLANT_ZONES {
            Some(Limit::Zones)
        } else if self.poses.len() > MAX_PLANT_POSES {
            Some(Limit::Poses)
        } else if self.places.len() > MAX_PLANT_PLACES {
            Some(Limit::Places)
        } else {
            None
        }
    }

    /// The first fault of the limits and of the rows.
    fn fault(&self) -> Option<PlantFault>
        ensures says { IfSome result (Says self.now) }
        ensures fits { IsNone result → FitsPlant self.now }
        ensures large { IsNone result → IsLargePlan self.now }
    {
        match self.limit_fault() {
            Some(limit) => Some(PlantFault::TooMany(limit)),
            None => self.fault_of_row(),
        }
    }

    fn fault_of_row(&self) -> Option<PlantFault>
        requires { FitsPlant self.now }
        ensures says { IfSome result (Says self.now) }
        ensures large { IsNone result → IsLargePlan self.now }
    {
        match self.row_fault() {
            Some(fault) => Some(PlantFault::OfRow(fault)),
            None => None,
        }
    }

    #[tactic(auto, using(crate::proofs::WordFaults::count_first))]
    /// The word of these groups.
    pub(crate) fn word(
        &self,
        labels: &[usize],
        groups: &[usize],
        alloc: Global,
    ) -> Result<PlantWord, PlantFault>
        requires labels { labels.now ≡ labels_of self.now }
        requires machines { self.now.machines ≤ 30 }
        ensures word { IfOk result (λ word. word ≡ shared_word self.now groups.now) }
        ensures plan { IfOk result (λ word. IsPlan word.table) }
        ensures fault { IfErr result (IsWordFault self.now groups.now) }
    {
        let members = self.members(labels, groups, alloc)?;
        let zone = members.first_zone();
        if let Some(fault) = members.count_fault() {
            return Err(PlantFault::OfWord { zone, fault });
        }
        let tables = self.tables_of(&members, alloc)?;
        match Plan::new(tables) {
            Ok(plan) => Ok(PlantWord { members, plan }),
            Err(fault) => Err(PlantFault::OfWord { zone, fault }),
        }
    }
}

impl PlantTables {
    #[tactic(auto, using(plan_types::proofs::lemmas::Below::any_below_more))]
    /// Whether a zone is the first one of its group.
    fn is_first(&self, labels: &[usize], zone: usize) -> bool
        ensures { result ≡ plant.is_first labels.now zone }
    {
        let mut again = false;
        for other in 0..zone {
            again = again || label_of(labels, other) == label_of(labels, zone);
        }
        !again
    }

    #[tactic(auto, using(crate::proofs::Loops::map_filter_more))]
    /// The labels of the groups' first zones, in their order.
    fn first_labels(&self, labels: &[usize], alloc: Global) -> Result<Vec<usize>, AllocError>
        ensures { IfOk result (λ firsts. firsts.items
            ≡ map (label_of labels.now) (zones_of self.now (plant.is_first labels.now))) }
    {
        let mut firsts = Vec::new(alloc);
        for zone in 0..self.zone_count() {
            push_if(
                &mut firsts,
                label_of(labels, zone),
                self.is_first(labels, zone),
            )?;
        }
        Ok(firsts)
    }

    /// The labels of the groups, in their order.
    fn group_labels(&self, labels: &[usize], alloc: Global) -> Result<Vec<usize>, AllocError>
        requires { labels.now ≡ labels_of self.now }
        ensures { IfOk result (λ groups. groups.items ≡ group_labels self.now) }
    {
        let mut groups = self.first_labels(labels, alloc)?;
        groups.push(self.zone_count())?;
        Ok(groups)
    }

    /// Finds a group that doesn't fit a word of its own.
    fn check_groups(
        &self,
        labels: &[usize],
        groups: &[usize],
        alloc: Global,
    ) -> Result<(), PlantFault>
        requires labels { labels.now ≡ labels_of self.now }
        requires machines { self.now.machines ≤ 30 }
        ensures plans { IsOk result → AreAlonePlans self.now groups.now }
        ensures fault { IfErr result (IsFaultOfSome self.now groups.now) }
    {
        for label in groups {
            self.word(labels, &[*label], alloc)?;
        }
        Ok(())
    }

    /// The word of these groups, which fit it.
    #[tactic(auto, using(crate::proofs::WordFaults::only_memory))]
    fn word_of_plan(
        &self,
        labels: &[usize],
        groups: &[usize],
        alloc: Global,
    ) -> Result<PlantWord, PlantFault>
        requires labels { labels.now ≡ labels_of self.now }
        requires machines { self.now.machines ≤ 30 }
        requires plan { IsPlan (shared_word self.now groups.now).table }
        ensures word { IfOk result (λ word. word ≡ shared_word self.now groups.now) }
        ensures fault { IfErr result (λ fault. fault ≡ OutOfMemory) }
    {
        self.word(labels, groups, alloc)
    }

    #[tactic(auto, using(crate::proofs::WordFaults::plan_at))]
    /// The words of these groups.
    fn words(
        &self,
        labels: &[usize],
        sharers: &[Sharers],
        alloc: Global,
    ) -> Result<Vec<PlantWord>, PlantFault>
        requires labels { labels.now ≡ labels_of self.now }
        requires machines { self.now.machines ≤ 30 }
        requires plans { ArePlans (map (shared_word self.now) sharers.now) }
        ensures words { IfOk result (λ made. made.items ≡ map (shared_word self.now) sharers.now) }
        ensures fault { IfErr result (λ fault. fault ≡ OutOfMemory) }
    {
        let mut made = Vec::new(alloc);
        for groups in sharers {
            made.push(self.word_of_plan(labels, groups.labels(), alloc)?)?;
        }
        Ok(made)
    }
}

impl PlantTables {
    /// The words of these groups, or the first group that doesn't fit one.
    #[tactic(auto, using(crate::proofs::WordFaults::says_some))]
    fn share_words(
        &self,
        labels: &[usize],
        groups: &[usize],
        alloc: Global,
    ) -> Result<Vec<PlantWord>, PlantFault>
        requires labels { labels.now ≡ labels_of self.now }
        requires groups { groups.now ≡ group_labels self.now }
        requires fits { FitsPlant self.now }
        requires large { IsLargePlan self.now }
        ensures words { IfOk result (λ words. words.items ≡ words_of self.now) }
        ensures plans { IfOk result (λ words. ArePlans words.items) }
        ensures few { IfOk result (λ words. length words.items ≤ 16) }
        ensures fault { IfErr result (Says self.now) }
    {
        self.check_groups(labels, groups, alloc)?;
        let sharers = self.sharers(labels, groups, alloc)?;
        if sharers.len() > MAX_WORDS {
            return Err(PlantFault::TooMany(Limit::Words));
        }
        self.words(labels, &sharers, alloc)
    }

    /// The words of the plant, or the fault of its groups or words.
    fn laid_out(&self, alloc: Global) -> Result<Vec<PlantWord>, PlantFault>
        requires fits { FitsPlant self.now }
        requires large { IsLargePlan self.now }
        ensures words { IfOk result (λ words. words.items ≡ words_of self.now) }
        ensures plans { IfOk result (λ words. ArePlans words.items) }
        ensures few { IfOk result (λ words. length words.items ≤ 16) }
        ensures fault { IfErr result (Says self.now) }
    {
        let labels = self.labels(alloc)?;
        let groups = self.group_labels(&labels, alloc)?;
        self.share_words(&labels, &groups, alloc)
    }
}

impl Words {
    /// The plant on its words, or a fault of it.
    pub fn new(plant: PlantTables, alloc: Global) -> Result<Words, PlantFault>
        ensures plant { IfOk result (λ words. words.plant ≡ plant) }
        ensures words { IfOk result (λ words. words.words ≡ words_of plant) }
        ensures laid_out { IfOk result IsOnWords }
        ensures fault { IfErr result (Says plant) }
    {
        match plant.fault() {
            Some(fault) => Err(fault),
            None => Words::of(plant, alloc),
        }
    }

    /// The plant on its words, or the fault of its groups or words.
    #[tactic(auto, using(crate::proofs::WordOrder::on_words))]
    fn of(plant: PlantTables, alloc: Global) -> Result<Words, PlantFault>
        requires fits { FitsPlant plant }
        requires large { IsLargePlan plant }
        ensures plant { IfOk result (λ words. words.plant ≡ plant) }
        ensures words { IfOk result (λ words. words.words ≡ words_of plant) }
        ensures laid_out { IfOk result IsOnWords }
        ensures fault { IfErr result (Says plant) }
    {
        match plant.laid_out(alloc) {
            Ok(words) => Ok(Words { plant, words }),
            Err(fault) => Err(fault),
        }
    }

    /// How many words there are.
    pub fn count(&self) -> usize
        ensures { result ≡ length self.now.words }
    {
        self.words.len()
    }

    /// The plan of a word.
    pub fn plan(&self, word: usize) -> &Plan
        requires { word < length self.now.words }
        ensures { result.now ≡ (word_at self.now word).table }
    {
        self.words[word].plan()
    }

    /// The zones of a word, by their numbers in the plant. A zone's number on the word is its place here.
    pub fn zones(&self, word: usize) -> &[usize]
        requires { word < length self.now.words }
        ensures zones { result.now ≡ (word_at self.now word).group.zones }
        ensures few { length result.now ≤ 10 }
    {
        self.words[word].zones()
    }

    /// The poses of a word, by their numbers in the plant. A pose's number on the word is its place here.
    pub fn poses(&self, word: usize) -> &[usize]
        requires { word < length self.now.words }
        ensures poses { result.now ≡ (word_at self.now word).group.poses }
        ensures few { length result.now ≤ 64 }
    {
        self.words[word].poses()
    }

    /// The places of a word, by their numbers in the plant. A place's number on the word is its place here.
    pub fn places(&self, word: usize) -> &[usize]
        requires { word < length self.now.words }
        ensures places { result.now ≡ (word_at self.now word).group.places }
        ensures few { length result.now ≤ 16 }
    {
        self.words[word].places()
    }
}
