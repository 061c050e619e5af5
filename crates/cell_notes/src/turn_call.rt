//! The call of a machine's turn.
ghost use Rattle.std.specs.Prelude.{◌≡◌};
ghost use Rattle.std.specs.Option.{option_to_list};
ghost use Rattle.cell_notes.specs.Asks.{done_in, entries_in};

use cell_rules::Answered;
use cell_types::{Answer, Call, Entry, Event, Machine, Reply};

/// The call that a machine asked in a turn, and what came back. `None` if it asked nothing.
pub type TurnCall = Option<(Call, Answered)>;

/// The event of a machine's call, if the call was done.
pub fn done_event(machine: Machine, asked: TurnCall) -> Option<Event>
    ensures { result ≡ done_in machine asked }
{
    match asked {
        Some((call, Ok(Reply::Settled(Answer::Done, _)))) => Some(Event {
            machine,
            call,
            answer: Answer::Done,
        }),
        _ => None,
    }
}

// The journal's entry of a call that was settled.
pub(crate) fn entry_of(asked: TurnCall) -> Option<Entry>
    ensures { option_to_list result ≡ entries_in asked }
{
    match asked {
        Some((call, Ok(Reply::Settled(answer, stamp)))) => Some(Entry {
            call,
            answer,
            stamp,
        }),
        Some((_, Ok(Reply::Busy { .. }))) | Some((_, Err(_))) | None => None,
    }
}
