//! What is left of the journals that are merged.
ghost use Rattle.std.specs.Prelude.{◌≡◌, ◌≤◌, length, map};
ghost use Rattle.std.specs.Option.{ForSome};
ghost use Rattle.cell_report.specs.InTurn as turn;

use crate::ordered::key;
use cell_types::{Entry, Machine};

/// An entry that a machine noted several times in a row, as it does while it waits.
#[derive(Clone, Copy)]
pub struct Run<'a> {
    /// Whose journal it is.
    pub machine: Machine,
    /// The entry.
    pub entry: &'a Entry,
    /// How often it comes.
    pub count: usize,
    /// Whether the entry after the run is in turn: it isn't earlier in the order.
    pub in_turn: bool,
}

/// What is left of a journal.
#[derive(Clone, Copy)]
pub struct Rest<'a> {
    /// Whose journal it is.
    pub machine: Machine,
    /// The entries that are left.
    pub entries: &'a [Entry],
    /// The key of the first entry; if none is left, a key that is greater than any entry's.
    pub key: u64,
    ghost first: { key ≡ turn.first_key entries.now },
    ghost none: { turn.last_key ≤ key → length entries.now ≡ 0 },
}

/// What is left of all journals.
#[derive(Clone, Copy)]
pub struct Merge<'a> {
    /// What is left of each journal, in the order of `Machine::ALL`.
    pub(crate) rests: [Rest<'a>; 7],
    /// The place of the rest whose first entry is the next in the order, if it is known.
    pub(crate) place: Option<usize>,
    ghost first: { ForSome place (λ p. turn.IsFirstLeast (map (λ r. r.key) rests) p) },
}

impl<'a> Rest<'a> {
    /// The whole of a journal, or what is left of it.
    pub fn new(machine: Machine, entries: &'a [Entry]) -> Rest<'a>
        ensures machine { result.machine ≡ machine }
        ensures entries { result.entries.now ≡ entries.now }
    {
        let key = match entries.first() {
            Some(entry) => key(entry),
            None => u64::MAX,
        };
        Rest {
            machine,
            entries,
            key,
        }
    }
}
