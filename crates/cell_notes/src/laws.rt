//! A law of what is kept of a turn. It is the contract of a function with an empty body.
ghost use Rattle.cell_notes.specs.NoteRows.{NotesAreMet};

/// What a notebook, a part and a run's events keep of a turn: for each answer, a busy call, a call
/// that is out of memory, and a turn that asked nothing. And the words of statuses, the values for
/// each machine, and the room of counts.
pub fn notes_by_answers()
    ensures { NotesAreMet }
{}
