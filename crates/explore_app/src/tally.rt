//! What was found from the starts with one number of plates.

ghost use Rattle.std.specs.Prelude.{◌≡◌, ◌++◌, OnOk, IfOk, string_bytes};
ghost use Rattle.explore_app.specs.Tallies as tallies;

use crate::bound::Bound;
use crate::liveness::Liveness;
use cell_explorer::Explored;
use std::alloc::{AllocError, Global};

/// What was found from the starts with one number of plates.
#[derive(Clone, Copy, PartialEq, Eq)]
pub struct Tally {
    /// How many starts were explored.
    pub starts: u32,
    /// From how many of them no turns lead to a standstill or to a refusal.
    pub free: u32,
    /// From how many of them turns lead to a refusal.
    pub refused: u32,
    /// From how many of them each machine moves plates again and again, and within which bound.
    pub bounded: u32,
    /// The bound that holds for each of them.
    pub bound: Bound,
    /// From how many starts a machine may move no plate for ever.
    pub starving: u32,
    /// The most situations of a start that is free.
    pub most_situations: usize,
    /// The fewest turns to a standstill or to a refusal.
    pub fewest_turns: usize,
    /// The most turns that are the fewest from their start.
    pub most_turns: usize,
}

impl Tally {
    /// What was found from no start.
    pub const NONE: Tally = Tally {
        starts: 0,
        free: 0,
        refused: 0,
        bounded: 0,
        bound: Bound::NONE,
        starving: 0,
        most_situations: 0,
        fewest_turns: usize::MAX,
        most_turns: 0,
    };

    /// With what was found from one more start, and whether each machine moves plates for ever from there.
    pub fn with(self, found: &Explored, liveness: Liveness) -> Tally
        ensures { result ≡ tallies.both_tallies self (tallies.tally_of found.now liveness) }
    {
        self.and(Tally::of(found, liveness))
    }

    // What was found from one start, and whether each machine moves plates for ever from there.
    pub(crate) fn of(found: &Explored, liveness: Liveness) -> Tally
        ensures { result ≡ tallies.tally_of found.now liveness }
    {
        let one = Tally::of_found(found);
        match liveness {
            Liveness::Within(bound) => Tally {
                bounded: 1,
                bound,
                ..one
            },
            Liveness::Starves => Tally { starving: 1, ..one },
            Liveness::Unknown => one,
        }
    }

    // What was found from one start.
    fn of_found(found: &Explored) -> Tally
        ensures { result ≡ tallies.tally_found found.now }
    {
        match found {
            Explored::Free(situations) => Tally {
                starts: 1,
                free: 1,
                most_situations: *situations,
                ..Tally::NONE
            },
            Explored::Standstill(way) => Tally {
                starts: 1,
                fewest_turns: way.len(),
                most_turns: way.len(),
                ..Tally::NONE
            },
            Explored::Refusal(way) => Tally {
                starts: 1,
                refused: 1,
                fewest_turns: way.len(),
                most_turns: way.len(),
                ..Tally::NONE
            },
        }
    }

    /// With what was found from other starts.
    pub fn and(self, other: Tally) -> Tally
        ensures { result ≡ tallies.both_tallies self other }
    {
        Tally {
            starts: self.starts.saturating_add(other.starts),
            free: self.free.saturating_add(other.free),
            refused: self.refused.saturating_add(other.refused),
            bounded: self.bounded.saturating_add(other.bounded),
            bound: self.bound.or(other.bound),
            starving: self.starving.saturating_add(other.starving),
            most_situations: self.most_situations.max(other.most_situations),
            fewest_turns: self.fewest_turns.min(other.fewest_turns),
            most_turns: self.most_turns.max(other.most_turns),
        }
    }

    /// Its line, which names the number of plates.
    pub fn line(&self, alloc: Global, plates: u32) -> Result<String, AllocError>
        ensures { IfOk result (λ line. string_bytes line ≡ tallies.tally_line plates self.now) }
    {
        let mut line = String::new(alloc);
        self.push_line(&mut line, plates)?;
        Ok(line)
    }

    // Adds its line.
    #[tactic(auto, unfolding(crate::specs::Tallies::tally_line))]
    fn push_line(&self, text: &mut String, plates: u32) -> Result<(), AllocError>
        ensures { OnOk result
            (string_bytes text.new ≡ string_bytes text.old ++ tallies.tally_line plates self.now) }
    {
        let starts = self.starts;
        write!(text, "plates {plates} starts {starts}: ")?;
        self.push_found(text)?;
        text.push_str("\n")
    }

    // Adds what was found.
    #[tactic(auto, unfolding(crate::specs::Tallies::found_words))]
    fn push_found(&self, text: &mut String) -> Result<(), AllocError>
        ensures { OnOk result
            (string_bytes text.new ≡ string_bytes text.old ++ tallies.found_words self.now) }
    {
        if self.free == self.starts {
            self.push_free(text)
        } else {
            self.push_standing(text)?;
            self.push_refused(text)?;
            self.push_turns(text)
        }
    }

    // Adds what was found where all starts are free.
    #[tactic(auto, unfolding(crate::specs::Tallies::free_words))]
    fn push_free(&self, text: &mut String) -> Result<(), AllocError>
        ensures { OnOk result
            (string_bytes text.new ≡ string_bytes text.old ++ tallies.free_words self.now) }
    {
        self.push_situations(text)?;
        self.push_going(text)
    }

    // Adds that all starts are free, and how many situations one has.
    #[tactic(auto, unfolding(crate::specs::Tallies::situations_words))]
    fn push_situations(&self, text: &mut String) -> Result<(), AllocError>
        ensures { OnOk result
            (string_bytes text.new ≡ string_bytes text.old ++ tallies.situations_words self.now) }
    {
        let situations = self.most_situations;
        write!(
            text,
            "no standstill before the last stamp; at most {situations} situations"
        )
    }

    // Adds what is said of the plates where all starts are free.
    #[tactic(auto, unfolding(crate::specs::Tallies::going_words))]
    fn push_going(&self, text: &mut String) -> Result<(), AllocError>
        ensures { OnOk result
            (string_bytes text.new ≡ string_bytes text.old ++ tallies.going_words self.now) }
    {
        self.push_starving(text)?;
        self.push_unknown(text)?;
        self.push_bound(text)
    }

    // Adds from how many starts a machine may move no plate, if from some.
    #[tactic(auto, unfolding(crate::specs::Tallies::starving_words))]
    fn push_starving(&self, text: &mut String) -> Result<(), AllocError>
        ensures { OnOk result
            (string_bytes text.new ≡ string_bytes text.old ++ tallies.starving_words self.now) }
    {
        let starving = self.starving;
        if starving == 0 {
            Ok(())
        } else {
            write!(
                text,
                "; from {starving} a machine may move no plate for ever"
            )
        }
    }

    // Adds of how many starts it isn't known, if of some.
    #[tactic(auto, unfolding(crate::specs::Tallies::unknown_words))]
    fn push_unknown(&self, text: &mut String) -> Result<(), AllocError>
        ensures { OnOk result
            (string_bytes text.new ≡ string_bytes text.old ++ tallies.unknown_words self.now) }
    {
        let unknown = self.unknown();
        if unknown == 0 {
            Ok(())
        } else {
            write!(
                text,
                "; of {unknown} it isn't known whether each machine moves plates for ever"
            )
        }
    }

    // Of how many starts it isn't known whether each machine moves plates for ever.
    fn unknown(&self) -> u32
        ensures { result ≡ tallies.unknown self.now }
    {
        self.free
            .saturating_sub(self.bounded)
            .saturating_sub(self.starving)
    }

    // Adds the bound, if it holds for each start.
    #[tactic(auto, unfolding(crate::specs::Tallies::within_words))]
    fn push_bound(&self, text: &mut String) -> Result<(), AllocError>
        ensures { OnOk result
            (string_bytes text.new ≡ string_bytes text.old ++ tallies.within_words self.now) }
    {
        if self.bounded > 0 && self.bounded == self.free {
            text.push_str("; each machine moves a plate within ")?;
            self.bound.push_words(text)
        } else {
            Ok(())
        }
    }

    // Adds how many starts stand still.
    #[tactic(auto, unfolding(crate::specs::Tallies::standing_words))]
    fn push_standing(&self, text: &mut String) -> Result<(), AllocError>
        ensures { OnOk result
            (string_bytes text.new ≡ string_bytes text.old ++ tallies.standing_words self.now) }
    {
        let stuck = self
            .starts
            .saturating_sub(self.free)
            .saturating_sub(self.refused);
        write!(text, "{stuck} stand still")
    }

    // Adds in how many a machine is refused, if in some.
    #[tactic(auto, unfolding(crate::specs::Tallies::refused_words))]
    fn push_refused(&self, text: &mut String) -> Result<(), AllocError>
        ensures { OnOk result
            (string_bytes text.new ≡ string_bytes text.old ++ tallies.refused_words self.now) }
    {
        let refused = self.refused;
        if refused == 0 {
            Ok(())
        } else {
            write!(
                text,
                ", and in {refused} a machine is stopped by a refusal,"
            )
        }
    }

    // Adds how many turns lead to the endings.
    #[tactic(auto, unfolding(crate::specs::Tallies::turns_words))]
    fn push_turns(&self, text: &mut String) -> Result<(), AllocError>
        ensures { OnOk result
            (string_bytes text.new ≡ string_bytes text.old ++ tallies.turns_words self.now) }
    {
        let fewest = self.fewest_turns;
        let most = self.most_turns;
        write!(text, " after {fewest} to {most} turns")
    }
}
