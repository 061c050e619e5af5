//! What an audit keeps of the history that it finds.
use cell_types::{Entry, Event, Machine};
use std::alloc::AllocError;

/// Keeps the events of a history, or as much of them as its caller needs.
pub trait EventSink {
    ghost use Rattle.std.specs.Prelude.{◌++◌, [], List, replicate, IfOk};
    ghost use Rattle.cell_types.specs.declared.answer.Event.{Event};
    ghost use Rattle.cell_rules.specs.Journal.{event_by};

    // What it has is what it keeps of these events.
    ghost holds: { Self → List Event → Type 0 };

    /// Forgets all events.
    fn clear(&mut self)
        ensures { holds self.new [] };

    /// Keeps the event of a machine's entry `count` times, after those that it has.
    fn keep(&mut self, machine: Machine, entry: &Entry, count: usize) -> Result<(), AllocError>
        ensures { IfOk result (λ _. (held : List Event) → holds self.old held
            → holds self.new (held ++ replicate count (event_by machine entry.now))) };
}

impl EventSink for Vec<Event> {
    ghost use Rattle.std.specs.Prelude.{◌≡◌};

    ghost holds = { λ kept events. kept.items ≡ events };

    fn clear(&mut self) {
        self.clear();
    }

    fn keep(&mut self, machine: Machine, entry: &Entry, count: usize) -> Result<(), AllocError> {
        let event = Event {
            machine,
            call: entry.call,
            answer: entry.answer,
        };
        for _ in 0..count {
            self.push(event)?;
        }
        Ok(())
    }
}

/// Keeps no event.
#[derive(Clone, Copy)]
pub struct NoEvents;

impl EventSink for NoEvents {
    ghost use Rattle.std.specs.Prelude.{⊤};

    ghost holds = { λ _ _. ⊤ };

    fn clear(&mut self) {}

    fn keep(&mut self, _machine: Machine, _entry: &Entry, _count: usize) -> Result<(), AllocError> {
        Ok(())
    }
}
