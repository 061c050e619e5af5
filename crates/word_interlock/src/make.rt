//! Makes an interlock.
ghost use Rattle.std.specs.Prelude.{◌≡◌, ◌<◌, IfOk, IfSome, Err, [], ◌⊎◌, ◌↔◌};
ghost use Rattle.word_interlock.specs.Rule.{all_views};
ghost use Rattle.word_interlock.specs.Bunches.{fresh_passes};

use crate::interlock::Interlock;
use crate::passes::Passes;
use crate::rule::{OneHistory, Origin, View};
use crate::rules::Rules;
use atomic_table::{Seat, Table};
use std::alloc::Global;

/// Why an interlock wasn't made.
#[derive(Clone, Copy, PartialEq, Eq, Debug)]
pub enum MakeFault {
    /// The number of exchanges that a call may lose isn't 1 to 64.
    Tries,
    /// There was no memory for the word.
    Memory,
}

type TableOf<R> = Table<(), View<R>, Origin<R, <R as Rules>::State>, OneHistory<R>, Global>;

impl<R: Rules + Drop> Interlock<R> {
    /// Makes an interlock by these rules that opens with a state, and its only pass for each actor.
    /// A call is Busy once it has lost `tries` exchanges.
    ///
    /// Errors: `Tries` if `tries` isn't 1 to 64, which is checked first; `Memory` if there is no
    /// memory for the word. No later call allocates memory.
    pub fn new(
        alloc: Global,
        rules: R,
        opening: R::State,
        tries: u8,
    ) -> Result<(Interlock<R>, Passes<R>), MakeFault>
        requires sound { (R.book rules).is_sound opening }
        ensures tries { (result ≡ Err MakeFault.Tries) ↔ ((tries < 1) ⊎ (64 < tries)) }
        ensures rules { IfOk result (λ made. made.0.rules ≡ rules) }
        ensures opening { IfOk result (λ made. made.0.opening ≡ opening) }
        ensures limit { IfOk result (λ made. made.0.tries ≡ tries) }
        ensures passes { IfOk result (λ made.
            made.1 ≡ fresh_passes made.0 (R.book rules).actors) }
    {
        if tries < 1 || tries > 64 {
            return Err(MakeFault::Tries);
        }
        let origin = Origin { rules, opening };
        let Some((table, seat)) = open_table(alloc, &origin) else {
            return Err(MakeFault::Memory);
        };
        let Origin { rules, opening: _ } = origin;
        let interlock = Interlock {
            table,
            rules,
            tries,
        };
        Ok((interlock, Passes { seat }))
    }
}

// A table whose one word holds the opening, and its first seat, which has every actor. Or nothing, if
// there is no memory for it.
fn open_table<R: Rules>(
    alloc: Global,
    origin: &Origin<R, R::State>,
) -> Option<(TableOf<R>, Seat<(), View<R>>)>
    requires sound { (R.book origin.now.rules).is_sound origin.now.opening }
    ensures words { IfSome result (λ made. made.0.shared.table_id.words ≡ 1) }
    ensures slots { IfSome result (λ made. made.0.shared.table_id.slots ≡ 0) }
    ensures key { IfSome result (λ made. made.0.shared.key ≡ origin.now) }
    ensures same { IfSome result (λ made. made.1.table_id ≡ made.0.shared.table_id) }
    ensures own { IfSome result (λ made. made.1.me ≡ (
      all_views origin.now.rules
          origin.now.opening (R.book origin.now.rules).actors,
      [],
    )) }
{
    let words = [origin.rules.pack(&origin.opening)];
    Table::of_words(alloc, &words, origin).ok()
}
