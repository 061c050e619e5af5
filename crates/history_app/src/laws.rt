//! Laws of recordings, each the contract of a function that does nothing.

ghost use Rattle.std.specs.Prelude.{◌≡◌, ◌≤◌, ℕ, List, [], length, Some};
ghost use Rattle.cell_rules.specs.Types.{Event, Machine, journal_of};
ghost use Rattle.cell_rules.specs.Names.{IsLegal, IsStartState, ModelState, noted};
ghost use Rattle.cell_notes.specs.declared.run_record.RunRecord.{RunRecord};
ghost use Rattle.csv_rows.specs.declared.script_end.Outcome.TheVariants.{Clean};
ghost use Rattle.cell_replay.specs.Script.{script_events, script_outcome};
ghost use Rattle.history_app.specs.Recorded.{TellsPacedRun, WasRecorded};
ghost use Rattle.history_app.specs.Scripts.{script_of};
ghost use Rattle.history_app.specs.Laws.{RecordingsAreAnswered};
ghost use Rattle.history_app.specs.Answered.{HistoriesAreAnswered};
ghost use Rattle.history_app.specs.Statuses.{StatusesTell};
ghost use Rattle.history_app.specs.ScriptExamples.{ScriptExamples};

/// A replay answers what a recording has written as the threads were answered: its calls and
/// answers are the events of a legal history that gives each machine's journal.
pub fn recordings_are_answered()
    ensures law { RecordingsAreAnswered }
    ensures script { (turns tries : ℕ) (bytes script : List ℕ) →
        WasRecorded turns tries (Some bytes) (Some []) (Some script) →
        (r : RunRecord) × TellsPacedRun turns tries bytes r × (script_outcome script ≡ Clean) ×
        IsLegal r.start (script_events script) ×
        ((m : Machine) → noted r.start (script_events script) m ≡ journal_of r.journals m) }
{}

/// A replay answers the script of a legal history, of at most 65,536 events, as the history says:
/// its calls are those of the events, in order, and so are its answers.
pub fn histories_are_answered()
    ensures law { HistoriesAreAnswered }
    ensures script { (opening : ModelState) (history : List Event) →
        IsStartState opening → IsLegal opening history → length history ≤ 65536 →
        (script_outcome (script_of opening history) ≡ Clean) ×
        (script_events (script_of opening history) ≡ history) }
{}

/// Example histories with their scripts.
pub fn scripts_of_histories_are_met()
    ensures { ScriptExamples }
{}

/// What each exit status says of a recording, in other words; what may be written of a script; and
/// which words ask for a recording.
pub fn statuses_tell()
    ensures { StatusesTell }
{}
