//! Calls by names, and back.
ghost use Rattle.std.specs.Prelude.{◌≡◌, ◌<◌, ◌++◌, OnOk, string_bytes};
ghost use Rattle.plan_text.specs.Calls as spec;

use crate::named_plan::NamedPlan;
use plan_types::{Call, WATCH};
use std::alloc::AllocError;

/// What a call does: the word with which it begins.
#[derive(Clone, Copy, Debug, PartialEq, Eq)]
pub enum Verb {
    /// `claim`
    Claim,
    /// `give`
    Give,
    /// `yield`
    Yield,
    /// `take`
    Take,
    /// `release`
    Release,
    /// `inquire`
    Inquire,
    /// `pose`
    Pose,
    /// `advance`
    Advance,
}

impl Verb {
    /// The word.
    pub fn word(self) -> &'static str
        ensures { result.now ≡ spec.verb_word self }
    {
        match self {
            Verb::Claim => "claim",
            Verb::Give => "give",
            Verb::Yield => "yield",
            Verb::Take => "take",
            Verb::Release => "release",
            Verb::Inquire => "inquire",
            Verb::Pose => "pose",
            Verb::Advance => "advance",
        }
    }

    /// The verb with this word, or `None` if none has it.
    pub fn read(word: &[u8]) -> Option<Verb>
        ensures { result ≡ spec.verb_of word.now }
    {
        if word == Verb::Claim.word().as_bytes() {
            return Some(Verb::Claim);
        }
        if word == Verb::Give.word().as_bytes() {
            return Some(Verb::Give);
        }
        if word == Verb::Yield.word().as_bytes() {
            return Some(Verb::Yield);
        }
        if word == Verb::Take.word().as_bytes() {
            return Some(Verb::Take);
        }
        if word == Verb::Release.word().as_bytes() {
            return Some(Verb::Release);
        }
        if word == Verb::Inquire.word().as_bytes() {
            return Some(Verb::Inquire);
        }
        if word == Verb::Pose.word().as_bytes() {
            return Some(Verb::Pose);
        }
        if word == Verb::Advance.word().as_bytes() {
            return Some(Verb::Advance);
        }
        None
    }
}

impl NamedPlan {
    /// The caller with this name: the watch for `watch`, else a machine. `None` if none has it.
    pub fn caller(&self, name: &[u8]) -> Option<u8>
        ensures { result ≡ spec.caller_of self.now name.now }
    {
        if name == "watch".as_bytes() {
            return Some(WATCH);
        }
        self.machines.number_of(name)
    }

    /// The number of a pose, if the machine has it and its name is this.
    fn pose_if(&self, machine: u8, name: &[u8], pose: usize) -> Option<u8>
        requires { pose < 64 }
        ensures { result ≡ spec.pose_if self.now machine name.now pose }
    {
        let pose = pose as u8;
        let own = self.plan.pose(pose).machine == machine;
        (own && self.poses.name(pose).as_bytes() == name).then_some(pose)
    }

    /// The pose that has this name among those of a machine, or `None` if none has it.
    #[tactic(auto, using(plan_types::proofs::lemmas::Below::first_below_more))]
    pub fn own_pose(&self, machine: u8, name: &[u8]) -> Option<u8>
        ensures { result ≡ spec.own_pose self.now machine name.now }
    {
        let mut found = None;
        for pose in 0..self.poses.len() {
            found = found.or(self.pose_if(machine, name, pose));
        }
        found
    }

    /// The pose that a machine means by this name: one of its own, or else the first of all that have the name. `None`
    /// if none has it.
    pub fn pose_named(&self, machine: u8, name: &[u8]) -> Option<u8>
        ensures { result ≡ spec.pose_named self.now machine name.now }
    {
        self.own_pose(machine, name).or(self.poses.number_of(name))
    }

    /// What a machine asks with this verb about the zone, the pose or the place that has this name. `None` if none has
    /// it.
    pub fn call(&self, machine: u8, verb: Verb, name: &[u8]) -> Option<Call>
        ensures { result ≡ spec.call_of self.now machine verb name.now }
    {
        match verb {
            Verb::Claim => Some(Call::Claim(self.zones.number_of(name)?)),
            Verb::Give => Some(Call::Give(self.zones.number_of(name)?)),
            Verb::Yield => Some(Call::Yield(self.zones.number_of(name)?)),
            Verb::Take => Some(Call::Take(self.zones.number_of(name)?)),
            Verb::Release => Some(Call::Release(self.zones.number_of(name)?)),
            Verb::Inquire => Some(Call::Inquire(self.zones.number_of(name)?)),
            Verb::Pose => Some(Call::SetPose(self.pose_named(machine, name)?)),
            Verb::Advance => Some(Call::Advance(self.places.number_of(name)?)),
        }
    }

    /// Appends the words of a call.
    pub fn push_call(&self, text: &mut String, call: Call) -> Result<(), AllocError>
        ensures { OnOk result
            (string_bytes text.new ≡ string_bytes text.old ++ spec.call_text self.now call) }
    {
        match call {
            Call::Claim(zone) => push_words(text, Verb::Claim, self.zones.name(zone)),
            Call::Give(zone) => push_words(text, Verb::Give, self.zones.name(zone)),
            Call::Yield(zone) => push_words(text, Verb::Yield, self.zones.name(zone)),
            Call::Take(zone) => push_words(text, Verb::Take, self.zones.name(zone)),
            Call::Release(zone) => push_words(text, Verb::Release, self.zones.name(zone)),
            Call::Inquire(zone) => push_words(text, Verb::Inquire, self.zones.name(zone)),
            Call::SetPose(pose) => push_words(text, Verb::Pose, self.poses.name(pose)),
            Call::Stop => text.push_str("stop"),
            Call::Resume => text.push_str("resume"),
            Call::Advance(place) => push_words(text, Verb::Advance, self.places.name(place)),
        }
    }
}

/// Appends the words of a call about a zone, a pose or a place.
fn push_words(text: &mut String, verb: Verb, name: &str) -> Result<(), AllocError>
    ensures { OnOk result
        (string_bytes text.new ≡ string_bytes text.old ++ spec.words verb name.now) }
{
    text.push_str(verb.word())?;
    text.push_str(" ")?;
    text.push_str(name)
}
