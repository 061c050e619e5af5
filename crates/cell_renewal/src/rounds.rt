//! A round of six workers and their watch: their turns over one interlock.
ghost use Rattle.std.specs.Prelude.{◌≡◌};

use cell_rules::State;
use cell_threads::SixOf;
use cell_types::Journals;

/// What six workers and their watch noted over one interlock.
#[derive(Drop)]
pub struct Round {
    /// The state that the interlock opened with.
    pub start: State,
    /// What each machine noted of its settled calls.
    pub journals: Journals,
    /// The state that the interlock closed with.
    pub end: State,
}

/// What six workers and their watch left.
#[derive(Drop)]
pub struct Leave<A, B, C, D, E, F, H> {
    /// The state that the interlock closed with.
    pub end: State,
    /// What each worker left.
    pub outputs: SixOf<A, B, C, D, E, F>,
    /// The watch.
    pub watch: H,
}

/// Takes what each round noted. A sink that keeps nothing needs no memory, however many rounds
/// there are.
pub trait RoundSink {
    ghost use Rattle.std.specs.Prelude.{Result, ⊤};
    ghost use Rattle.cell_renewal.specs.declared.rounds.Round.{Round};

    /// Why it fails.
    type Fault;

    // The sink, and a round that it may be handed then. The default is any round.
    ghost may_take: { Self → Round → Type 0 } = { λ _ _. ⊤ };

    // The sink before, the round, what came back, the sink after. The default is anything.
    ghost takes: { Self → Round → Result (Unit {0}) Self.Fault → Self → Type 0 } = { λ _ _ _ _. ⊤ };

    /// Takes what a round noted. An error ends the run.
    fn take(&mut self, round: Round) -> Result<(), Self::Fault>
        requires { may_take self.old round }
        ensures { takes self.old round result self.new };
}
