//! Calls of all words of a plant, one after another: the watch's.
ghost use Rattle.std.specs.Prelude.{◌≡◌};
ghost use Rattle.plan_types.specs.declared.call.Call.TheVariants.{Stop, Resume};
ghost use Rattle.plan_interlock.specs.Plant.{IsOfPlant, IsSamePlantPass};
ghost use Rattle.plan_interlock.specs.PlantCalls.{AskedOnEach};

use crate::plant::{MAX_WORDS, PlantInterlock, PlantPass};
use plan_types::{Answer, Call};
use word_interlock::Reply;

/// What comes back from a call of each word of a plant; nothing where there is no such word.
pub type WordReplies = [Option<Reply<Answer>>; MAX_WORDS];

impl PlantInterlock {
    // Makes a call on each word, in the order of the words.
    fn ask_each(&self, pass: &mut PlantPass, call: Call) -> WordReplies
        requires same_plant { IsOfPlant self.now pass.old }
        ensures asked { AskedOnEach call self.now pass.old pass.new result }
        ensures pass { IsSamePlantPass self.now pass.old pass.new }
    {
        let mut replies = [None; MAX_WORDS];
        for word in 0..self.words() {
            replies[word] = Some(self.ask(pass, word, call));
        }
        replies
    }

    /// Stops the plant: the watch asks each word to stop, word 0 first, then word 1, and so on. It goes on where a word
    /// doesn't stop, as one that is Busy. Word by word it is one call as by `ask`, whose reply stands at the word's
    /// number (`asked`): a word is stopped where this is `Done`, or refused as `Stopped`; where it is Busy, `ask` may
    /// ask that word again.
    ///
    /// There is no moment of all words: claims may be done on the later words while the first ones are stopped.
    ///
    /// The pass was made with this interlock. Any but the watch's is refused.
    pub fn stop(&self, pass: &mut PlantPass) -> WordReplies
        requires same_plant { IsOfPlant self.now pass.old }
        ensures asked { AskedOnEach Stop self.now pass.old pass.new result }
        ensures pass { IsSamePlantPass self.now pass.old pass.new }
    {
        self.ask_each(pass, Call::Stop)
    }

    /// Lets the plant go on: the watch asks each word to resume, in the same order. See [`PlantInterlock::stop`].
    ///
    /// The pass was made with this interlock.
    pub fn resume(&self, pass: &mut PlantPass) -> WordReplies
        requires same_plant { IsOfPlant self.now pass.old }
        ensures asked { AskedOnEach Resume self.now pass.old pass.new result }
        ensures pass { IsSamePlantPass self.now pass.old pass.new }
    {
        self.ask_each(pass, Call::Resume)
    }
}
