//! Laws of documents. Each function's contract is one.
ghost use Rattle.plan_document.specs.FaultExamples.{FaultsAreMet};
ghost use Rattle.plan_document.specs.Laws as laws;
ghost use Rattle.plan_document.specs.MotorExamples.{MotorsAreMet};
ghost use Rattle.plan_document.specs.NameLaws.{NamedPlansHaveWords};
ghost use Rattle.plan_document.specs.OnWordExamples.{WordsHaveTheirRows};
ghost use Rattle.plan_document.specs.OnWordLaws as on_word;
ghost use Rattle.plan_document.specs.PlanExamples as plans;
ghost use Rattle.plan_document.specs.PlanLaws as plan_laws;
ghost use Rattle.plan_document.specs.PlantProgramLaws.{LinesGoToTheirWords};
ghost use Rattle.plan_document.specs.Reading as reading;
ghost use Rattle.plan_document.specs.ReadingExamples.{RowsAreRead};
ghost use Rattle.plan_document.specs.ReadingLaws as reading_laws;
ghost use Rattle.plan_document.specs.StepExamples.{StepsAreMet};
ghost use Rattle.plan_document.specs.TableLaws as table_laws;
ghost use Rattle.plan_document.specs.WordExamples as words;
ghost use Rattle.plan_document.specs.declared.document.PostureRow.{PostureRow};
ghost use Rattle.plan_document.specs.declared.document.WayRow.{WayRow};
ghost use Rattle.plan_document.specs.declared.fault.Key.{Key};
ghost use Rattle.plan_text.specs.Names.{Text};
ghost use Rattle.std.specs.Prelude.{Bool, List};
ghost use Rattle.toml.specs.Data.{Data, Items, Members};

use plan_rules::laws::refusals_tell_causes;
use plan_text::laws::{calls_are_told_as_read, own_poses_come_first};

/// A line that is refused because it is never done is done in no sound state of the plan.
pub fn refused_lines_are_never_done()
    ensures { laws.RefusedLinesAreNeverDone }
{}

/// A line that is accepted is never refused because its machine is no party of the zone, or has no such pose.
pub fn accepted_lines_are_theirs()
    ensures { laws.AcceptedLinesAreTheirs }
{
    refusals_tell_causes();
}

/// A line is accepted where the plan has a reason: a zone of the machine, a plate that it gives or takes, a pose of its
/// own, or an own place that is a source or a sink; and nowhere else.
pub fn accepted_lines_have_reasons()
    ensures { laws.AcceptedLinesHaveReasons }
{}

/// Each row of a document, wherever it stands, has its names in the plan: places their keepers, zones their machines
/// and places, poses their machines and postures, motors their needs, hazards their motors.
pub fn rows_have_names()
    ensures places { plan_laws.PlacesAreKept }
    ensures zones { plan_laws.ZonesHaveNames }
    ensures poses { plan_laws.PosesHaveNames }
    ensures motors { plan_laws.MotorsHaveNeeds }
    ensures hazards { plan_laws.HazardsHaveNames }
{}

/// Each table has the rows of the document and no others, and each row a name; all are names, and no two of one kind
/// are the same, of poses and of sensors no two for C.
pub fn plans_have_counts_and_names()
    ensures counts { table_laws.PlansHaveCounts }
    ensures names { table_laws.PlansHaveNames }
    ensures for_c { table_laws.PosesAreTwoForC }
    ensures sensors_for_c { table_laws.SensorsAreTwoForC }
{}

/// The program of each machine has a step for each line of its row: the text of a call is the line, up to the refusals
/// that stop the machine, and these are all that the line names; a wait names its zone or its sensor, and what runs is
/// the machine's and all that the line names. What the machine asks is what its steps do.
pub fn programs_have_lines()
    ensures lines { table_laws.ProgramsHaveLines }
    ensures asks { table_laws.AllStepsAsk }
{
    calls_are_told_as_read();
    own_poses_come_first();
}

/// Each item of a list is read as a row, and no other; of a table each member is looked at.
pub fn lists_are_read()
    ensures machines { reading_laws.ItemsAreRows reading.IsMachineIn }
    ensures poses { reading_laws.ItemsAreRows reading.IsPoseIn }
    ensures zones { reading_laws.ItemsAreRows reading.IsZoneIn }
    ensures motors { reading_laws.ItemsAreRows reading.IsMotorIn }
    ensures hazards { reading_laws.ItemsAreRows reading.IsHazardIn }
    ensures items { (value : Data) (items : Items) (rest : List Data)
        → reading_laws.ListsHaveItems value items rest }
    ensures keys { (keys : List Key) (key : Key) (name : Text) (value : Data) (members : Members)
        → reading_laws.KeysAreLookedAt keys key name value members }
    ensures postures { (row : PostureRow) (rows : List PostureRow) (value : Data)
        → reading_laws.PosturesAreWritten row rows value }
    ensures values { (value : Data) (truth : Bool) (row : WayRow)
        → reading_laws.ValuesAreWritten value truth row }
{}

/// Which lines of three machines at a zone with one way are accepted.
pub fn lines_are_judged()
    ensures { laws.LinesAreJudged }
{}

/// Each name of a document's plan is one word of a program's line, and one field of a script's record.
pub fn names_are_words()
    ensures { NamedPlansHaveWords }
{}

/// Examples: the words of keys, which keys a row may have, and the bytes of a document.
pub fn keys_are_met()
    ensures words { words.KeysHaveWords }
    ensures keys { words.RowsHaveKeys }
    ensures judged { words.KeysAreJudged }
    ensures limits { words.LimitsAreMet }
{}

/// Examples: bytes that part words, names for C, names that are free, and names of hazards.
pub fn words_are_met()
    ensures parted { words.WordsAreParted }
    ensures names { words.NamesAreMade }
    ensures titles { words.TitlesAreTold }
{}

/// Examples: what a machine means by a verb and a name, and which lines a lift and its floors may have.
pub fn lines_are_met()
    ensures own { words.OwnCalls }
    ensures calls { words.LinesAreCalls }
    ensures lift { words.LiftLines }
{}

/// Examples of what a document's plan is: its names, zones, poses and lines, of any plan and of a document of two
/// machines and two zones.
#[tactic(auto, using(crate::proofs::PlanRows::document_rows, crate::proofs::PlanRows::plan_rows))]
pub fn plans_are_met()
    ensures rows { plans.DocumentsAreMet }
    ensures plans { plans.PlansSayRows }
{}

/// Examples of what the lines of a lift and its floors say, by motors and sensors, and of what is asked by steps.
#[tactic(auto, using(crate::proofs::StepRows::step_rows))]
pub fn steps_are_met()
    ensures { StepsAreMet }
{}

/// Examples of the refusals that stop a machine at a line: their words, which are those of answers, and what they name.
#[tactic(auto, using(crate::proofs::FaultRows::fault_rows))]
pub fn faults_are_met()
    ensures { FaultsAreMet }
{}

/// Examples of what the rows of motors and hazards say, and of which TOML they are read.
#[tactic(auto, using(crate::proofs::MotorRows::motor_rows))]
pub fn motors_are_met()
    ensures { MotorsAreMet }
{}

/// What the laws say of a lift between two floors.
#[tactic(auto, using(crate::proofs::PlanRows::lift_rows))]
pub fn laws_of_lifts_are_met()
    ensures { plans.LawsOfLift }
{}

/// Examples of which TOML rows are read: the key of each field, and keys and values that no row has.
#[tactic(auto, using(crate::proofs::ReadingRows::reading_rows))]
pub fn rows_are_read()
    ensures { RowsAreRead }
{}

/// A name of a plant stands in the document of a word exactly if it has a number of the word, and a name that the plant
/// doesn't have in each. The document of a word that has all zones, poses and places is the plant's.
#[tactic(auto, using(crate::proofs::OnWordLaws::names_on_words, crate::proofs::OnWordLaws::whole_words_keep_all))]
pub fn words_have_their_names()
    ensures names { on_word.NamesAreOnWords }
    ensures whole { on_word.WholeWordsKeepAll }
{}

/// The documents of two literal words.
#[tactic(auto, using(crate::proofs::OnWordRows::word_rows))]
pub fn words_of_plants_are_met()
    ensures { WordsHaveTheirRows }
{}

/// Of a plant each line that asks is asked on a word where it stands, by the plan of that word, in the order of the
/// lines; a line that asks nothing in the plant asks nothing on any word. Each machine has a program.
#[tactic(auto, using(crate::proofs::PlantProgramLaws::lines_go_to_their_words))]
pub fn lines_go_to_their_words()
    ensures { LinesGoToTheirWords }
{}
