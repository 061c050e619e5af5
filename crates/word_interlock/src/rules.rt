//! The rules of an interlock.

/// How an interlock answers calls, and how its states lie in a word.
pub trait Rules {
    ghost use Rattle.std.specs.Prelude.{◌≡◌};
    ghost use Rattle.word_interlock.specs.RuleBook.{RuleBook, IsRuleBook};

    /// A state.
    type State: Copy;

    /// Who calls.
    type Actor: Copy;

    /// A call.
    type Call: Copy;

    /// An answer.
    type Answer: Copy;

    /// A call of an actor with its answer. No program makes a value of it.
    type Event;

    // What the rules say.
    ghost book: { Self → RuleBook Self.State Self.Actor Self.Call Self.Answer Self.Event };

    /// The answer in a word's state, and the word of the state after the call.
    fn step(&self, word: u64, actor: Self::Actor, call: Self::Call) -> (Self::Answer, u64)
        requires { (state : Self.State) × (book self.now).is_sound state
            × ((book self.now).packed state ≡ word) }
        ensures { (state : Self.State) → (book self.now).is_sound state
            → (book self.now).packed state ≡ word
            → (result.0 ≡ (book self.now).reply state actor call)
            × (result.1 ≡ (book self.now).packed ((book self.now).next state actor call)) };

    /// Whether a call with this answer has changed the state.
    fn is_done(&self, answer: Self::Answer) -> bool
        ensures { result ≡ (book self.now).is_done answer };

    /// The stamp in a word's state.
    fn stamp_of(&self, word: u64) -> u32
        ensures { (state : Self.State) → (book self.now).is_sound state
            → (book self.now).packed state ≡ word → result ≡ (book self.now).stamp state };

    /// The word of a sound state.
    fn pack(&self, state: &Self::State) -> u64
        requires { (book self.now).is_sound state.now }
        ensures { result ≡ (book self.now).packed state.now };

    /// The state of a word.
    fn unpack(&self, word: u64) -> Self::State
        requires { (state : Self.State) × (book self.now).is_sound state
            × ((book self.now).packed state ≡ word) }
        ensures { (state : Self.State) → (book self.now).is_sound state
            → (book self.now).packed state ≡ word → result ≡ state };

    ghost lawful: { (rules : Self) → IsRuleBook (book rules) };
}
