//! Laws of scripts, each the contract of a function that does nothing.

ghost use Rattle.std.specs.Prelude.{◌≡◌, ◌≤◌, ℕ, length, min, IfOk};
ghost use Rattle.cell_rules.specs.History.{IsLegal};
ghost use Rattle.cell_rules.specs.Start.{IsStartState};
ghost use Rattle.cell_replay.specs.Script.{script_events, script_lines, script_outcome, script_rows, script_start};
ghost use Rattle.cell_replay.specs.Script.{script_text};
ghost use Rattle.cell_replay.specs.FaultExamples.{FaultsAreMet};
ghost use Rattle.cell_replay.specs.FirstVersion as first;
ghost use Rattle.cell_replay.specs.FirstVersion.{IsOfFirstVersion};
ghost use Rattle.cell_replay.specs.ScriptExamples.{ScriptsAreMet};
ghost use Rattle.cell_replay.specs.StepExamples.{StepsAreMet};

use csv_rows::{Outcome, ScriptFault};

/// A script's events are a legal history from the start in record 0, which is a valid start.
#[tactic(auto, using(crate::proofs::Scripts::script_laws))]
pub fn events_are_legal(script: &[u8])
    ensures legal { IfOk (script_start script.now)
        (λ start. IsLegal start.state (script_events script.now)) }
    ensures start { IfOk (script_start script.now) (λ start. IsStartState start.state) }
{}

/// The number of a script's lines is at most 65,537: one for record 0 and one for each event. If
/// record N is refused, it is N. If no record is refused, it is the number of records. With too
/// many records it is 65,537. With too many bytes it is the number of records that are used, or
/// 65,537 if there are more.
#[tactic(auto, using(crate::proofs::Scripts::script_laws))]
pub fn lines_are_counted(script: &[u8])
    ensures most { length (script_lines script.now) ≤ 65537 }
    ensures bad_row { (number : ℕ) →
        script_outcome script.now ≡ Outcome.Refused (ScriptFault.BadRow number) →
        length (script_lines script.now) ≡ number }
    ensures clean { script_outcome script.now ≡ Outcome.Clean →
        length (script_lines script.now) ≡ length (script_rows script.now) }
    ensures long { script_outcome script.now ≡ Outcome.Refused ScriptFault.Long →
        length script.now ≤ 4194304 → length (script_lines script.now) ≡ 65537 }
    ensures cut { script_outcome script.now ≡ Outcome.Refused ScriptFault.Long →
        length (script_lines script.now) ≡ min 65537 (length (script_rows script.now)) }
{}

/// A script whose record 0 doesn't begin with `start2` has the text of the first version.
#[tactic(auto, using(crate::proofs::FirstScripts::first_text_stays))]
pub fn first_version_stays(script: &[u8])
    ensures { IsOfFirstVersion script.now →
        script_text script.now ≡ first.script_text script.now }
{}

/// Example scripts with their whole answers: calls, each form of record 0, scripts that stop the
/// cell, and cut scripts. And the steps of an answer, one by one.
#[tactic(auto, using(crate::proofs::ScriptRows::scripts_are_met, crate::proofs::StepRows::steps_are_met))]
pub fn scripts_are_met()
    ensures scripts { ScriptsAreMet }
    ensures steps { StepsAreMet }
{}

/// What replays that failed may have written, and what they may not.
#[tactic(auto, using(crate::proofs::FaultRows::faults_are_met))]
pub fn faults_are_met()
    ensures { FaultsAreMet }
{}
