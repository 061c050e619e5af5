//! Laws of runs. Each is a function that does nothing: its contract is the law.
ghost use Rattle.cell_app.specs.Asked.{WordsAreServed};
ghost use Rattle.cell_app.specs.OneText.{ReportsAreOne};
ghost use Rattle.cell_app.specs.Statuses.{StatusesTell};
ghost use Rattle.cell_app.specs.Laws.{FaultLinesAreMet, StatusZeroIsWell, TurnsAreTold};

use cell_sensors::laws::one_position;

/// In a run by six workers a machine takes no more turns than it may, and all of them if its status
/// is `Fine`. Each turn has at most one answer, and no gate keeps a machine out.
pub fn turns_are_told()
    ensures { TurnsAreTold }
{}

/// Status 0 says that the script was clean; or that each machine's status is `Fine`, and the report
/// with `audit ok` was written. Of a run by six workers it also says that a history gives its
/// journals and leads to its end, and that each machine had all its turns.
pub fn status_zero_is_well()
    ensures { StatusZeroIsWell }
{}

/// Two simulations of one schedule from one start by the same curves have one report, if no machine
/// is stopped in them. What a configuration's bytes say is enough for that. So a simulation with
/// status 0 writes a text that the bytes alone decide.
pub fn reports_are_one()
    ensures { ReportsAreOne }
{
    one_position();
}

/// What is said of `serve` for words that ask for a replay or a simulation holds for the program's
/// name alone, and for the words `replay` and `sim` after it.
pub fn words_are_served()
    ensures { WordsAreServed }
{}

/// Examples of fault lines.
pub fn fault_lines_are_met()
    ensures { FaultLinesAreMet }
{}

/// What each exit status says of known bytes, in other words: of a replay, of a simulation and of a
/// run by six workers, and of their reports.
pub fn statuses_tell()
    ensures { StatusesTell }
{}
