//! Laws of what is printed, each the contract of a function that does nothing.
ghost use Rattle.std.specs.Prelude.{◌≡◌, ◌<◌, ℕ, All, Bool, List, Option, length};
ghost use Rattle.plan_types.specs.Plan.{IsPlan};
ghost use Rattle.plan_rules.specs.declared.state.State.{State};
ghost use Rattle.plan_rules.specs.Sound.{IsSound, IsStart};
ghost use Rattle.plan_explorer.specs.PlantCommuting.{AreSound};
ghost use Rattle.plan_explorer.specs.Plants.{state_on};
ghost use Rattle.plan_text.specs.HistoryLaws.{IsStartOf};
ghost use Rattle.plan_document.specs.declared.resolving.ProgrammedPlan.{ProgrammedPlan};
ghost use Rattle.plan_app.specs.CountLaws.{CountsTell};
ghost use Rattle.plan_app.specs.DriveExamples.{DriveLines, RightDrivesArePermitted, RunsAreTold};
ghost use Rattle.plan_app.specs.DriveLaws.{DrivesTell};
ghost use Rattle.plan_app.specs.FailedExamples.{FailedIsMeant, FaultLines, NumbersAreRefused};
ghost use Rattle.plan_app.specs.GoingExamples.{EventLines, MachinesAreTold, WalksAreTold};
ghost use Rattle.plan_app.specs.GoingLaws.{EventsTell, GoingTells};
ghost use Rattle.plan_app.specs.HazardExamples.{AreKept, HazardLines, KeptMotorsAreNeverBoth, LeadLines};
ghost use Rattle.plan_app.specs.HazardLaws.{HazardsTell};
ghost use Rattle.plan_app.specs.InputExamples.{InputsAreSplit, RequestsAreRead, WordsAreMade};
ghost use Rattle.plan_app.specs.InputLaws.{ScriptsAreFound};
ghost use Rattle.plan_app.specs.JobLaws.{PlantRunsAreByPrograms, RunsAreByPrograms};
ghost use Rattle.plan_app.specs.LineExamples.{ReportLines, RowsAreTold, WholeReports};
ghost use Rattle.plan_app.specs.OnWordExamples.{WordLines, WordsTell};
ghost use Rattle.plan_app.specs.PageExamples.{DataIsTold, LinesAreShown, OrdersAreChosen, OrdersAreShown};
ghost use Rattle.plan_app.specs.PageLaws.{PagesTell};
ghost use Rattle.plan_app.specs.PartExamples.{PartsAreTold};
ghost use Rattle.plan_app.specs.PartLaws.{PartsSpeakOfAll};
ghost use Rattle.plan_app.specs.PlantPartLaws.{AreOfScript, PlantPartsSpeakOfAll};
ghost use Rattle.plan_app.specs.PlantPictureExamples.{PlantPicturesAreTold, PlantPicturesTell};
ghost use Rattle.plan_app.specs.PlantRunExamples.{OneWordRunsAsPlan, PlantRunTextsAreTold, StopsAreOfSteps};
ghost use Rattle.plan_app.specs.PlantRunLaws.{PlantRunsAreReplayed, PlantWritingsAreReplayed};
ghost use Rattle.plan_app.specs.PlantScreenExamples.{CrossingsAreTold, LinesAreTold};
ghost use Rattle.plan_app.specs.PlantScreenExamples.{PlantScreensAreMeant};
ghost use Rattle.plan_app.specs.PlantStarts.{HasWords, tables_of};
ghost use Rattle.plan_app.specs.PlantStartExamples.{StartsAreOfDigits, StartsOfThree};
ghost use Rattle.plan_app.specs.ReportLaws.{ReportsTell};
ghost use Rattle.plan_app.specs.RunExamples.{RunTextsAreTold};
ghost use Rattle.plan_app.specs.RunPageExamples.{RunNotes};
ghost use Rattle.plan_app.specs.RunLaws.{RunsAreReplayed, WritingsAreReplayed};
ghost use Rattle.plan_app.specs.ScreenExamples.{AnswersAreMeant, KindsOfScreens, ScreensAreMeant};
ghost use Rattle.plan_app.specs.ScreenExamples.{ServedIsMeant, StandstillLines};
ghost use Rattle.plan_app.specs.SimulatedExamples.{SimulationsAreMet};
ghost use Rattle.plan_app.specs.StarvingExamples.{StarvingIsKnown};
ghost use Rattle.plan_app.specs.WordExamples.{PlatesAreTold, WordsAreTold};

use plan_document::{ProgrammedPlan, ProgrammedPlant};
use plan_explorer::laws::groups_are_apart;
use plan_liveness::laws::{
    groups_go_on, groups_starve, one_word_has_plans_groups, plant_groups_are_apart,
};
use plan_liveness::plant_laws::{plant_groups_go_on, plant_groups_starve};
use plan_picture::laws::all_is_drawn;
use plan_rules::State;
use plan_rules::laws::starts_are_sound;
use plan_text::laws::histories_are_answered;

/// Examples: the whole line of each answer to whether a machine goes on for ever.
pub fn words_are_told()
    ensures { WordsAreTold }
{}

/// Examples: the whole text of each answer to whether plates move for ever, and what comes before a starving order.
pub fn plates_are_told()
    ensures { PlatesAreTold }
{}

/// Examples: by which answers a machine may starve, or plates may rest, so that `plan explore` ends with status 1.
pub fn starving_is_known()
    ensures { StarvingIsKnown }
{}

/// Examples: what is said of hazards, line by line and whole, what of turns that lead to one, and what is kept apart.
pub fn hazard_lines_are_met()
    ensures lines { HazardLines }
    ensures leads { LeadLines }
    ensures kept { AreKept }
{}

/// What each line says of hazards, for all zones, places, machines and states.
pub fn hazards_tell()
    ensures { HazardsTell }
{}

/// If the status of `check` says that all is well, the motors of each hazard are never permitted both, from a start on.
pub fn kept_motors_are_never_both()
    ensures { KeptMotorsAreNeverBoth }
{}

/// Examples: what is said of motors that programs run, line by line, and which steps run any.
pub fn drive_lines_are_met()
    ensures lines { DriveLines }
    ensures runs { RunsAreTold }
{}

/// What each line says of motors that programs run, for all machines, lines, motors, zones and places.
pub fn drives_tell()
    ensures { DrivesTell }
{}

/// If the status of `check` says that all is well, each machine's program runs its motors only where they are
/// permitted.
pub fn right_drives_are_permitted()
    ensures { RightDrivesArePermitted }
{}

/// Examples: lines of reports, whole.
pub fn report_lines_are_met()
    ensures { ReportLines }
{}

/// Each line of a report, for all names, zones and places.
pub fn reports_tell()
    ensures { ReportsTell }
{}

/// Examples: the report of a plan, whole.
pub fn reports_are_whole()
    ensures { WholeReports }
{}

/// Both lines of rows; and that each call that is done has its row is said only of a plan where that is so.
pub fn rows_are_told()
    ensures { RowsAreTold }
{}

/// Examples: the lines of what machines ask, and of why they wait.
pub fn events_are_told()
    ensures { EventLines }
{}

/// Each line of what machines ask, and of why they wait, for all machines, calls and answers.
pub fn events_tell()
    ensures { EventsTell }
{}

/// What each line says of machines that go on for ever, and how soon, for all machines and bounds.
pub fn going_tells()
    ensures { GoingTells }
{}

/// What each line says of how many things, turns and situations there are, for all numbers.
pub fn counts_tell()
    ensures { CountsTell }
{}

/// Examples: what the turns of a loader and a press ask, and orders in which one of them starves, whole.
pub fn walks_are_told()
    ensures { WalksAreTold }
{}

/// Examples: all that is said of machines that go on or starve, and of plates.
pub fn machines_are_told()
    ensures { MachinesAreTold }
{}

/// Examples: inputs of a document and a script, and where the script begins.
pub fn inputs_are_split()
    ensures { InputsAreSplit }
{}

/// Where the script begins, for all documents and scripts.
pub fn scripts_are_found()
    ensures { ScriptsAreFound }
{}

/// Examples: what words ask for.
pub fn requests_are_read()
    ensures { RequestsAreRead }
{}

/// Examples: numbers of things.
pub fn words_are_made()
    ensures { WordsAreMade }
{}

/// Examples: what is said of a standstill, line by line and whole.
pub fn standstills_are_told()
    ensures { StandstillLines }
{}

/// What a screen says is so: that no turns lead to a standstill, or that these do.
pub fn screens_are_meant()
    ensures { ScreensAreMeant }
{}

/// Of each kind of screen another text.
pub fn screens_differ()
    ensures { KindsOfScreens }
{}

/// Examples: which groups are told apart, the heads and texts of their parts, and by which answers not all is well.
pub fn parts_are_told()
    ensures { PartsAreTold }
{}

/// What is found of a group alone, from the start of a script, is so among all machines: the group never stands still,
/// or comes to a standstill by these turns, and by no fewer, and then stands still for ever; and each bound holds, and
/// each machine that may starve may starve, if all come to some number of situations. Each group has its part.
pub fn parts_speak_of_all(plan: &ProgrammedPlan, opening: &State)
    requires { IsStartOf plan.now.named opening.now }
    ensures { PartsSpeakOfAll plan.now.named plan.now.programs opening.now }
{
    starts_are_sound(plan.named.plan(), opening);
    groups_are_apart(plan.named.plan(), &plan.programs, opening);
    groups_go_on(plan.named.plan(), &plan.programs, opening);
    groups_starve(plan.named.plan(), &plan.programs, opening);
}

/// What is answered of machines and plates is so.
pub fn answers_are_meant()
    ensures { AnswersAreMeant }
{}

/// Of an input with a document and a script: what was written of them.
pub fn served_is_meant()
    ensures { ServedIsMeant }
{}

/// Examples: what was written of the line of a fault, and which words are of a document's fault; and that a plant has
/// no word with a number.
pub fn fault_lines_are_met()
    ensures lines { FaultLines }
    ensures numbers { NumbersAreRefused }
{}

/// Of a run that failed: what was written is a fault's line, or what was asked for, by the plan of the input.
pub fn failed_is_meant()
    ensures { FailedIsMeant }
{}

/// Examples: what is said of the words of a plant, line by line and whole.
pub fn word_lines_are_met()
    ensures { WordLines }
{}

/// If the status of `words` says that all is well, a word keeps the motors of each hazard apart; and else those of some
/// hazard are permitted both on each word.
pub fn words_tell()
    ensures { WordsTell }
{}

/// Examples: what the picture of a plant says of hazards.
pub fn plant_pictures_are_told()
    ensures { PlantPicturesAreTold }
{}

/// At each hazard the picture of a plant says which word keeps its motors apart, and by what; or that none does.
pub fn plant_pictures_tell()
    ensures { PlantPicturesTell }
{
    all_is_drawn();
}

/// Examples: starts of a plant on two words. And each word begins with the digits of its places, in any plant.
pub fn plant_starts_are_met()
    ensures examples { StartsOfThree }
    ensures digits { StartsAreOfDigits }
{}

/// Examples: what is said of a standstill of two words together, and of who goes on or starves, line by line and whole;
/// and the parts of two machines that share nothing, each on a word of its own.
pub fn plant_standstills_are_told()
    ensures crossings { CrossingsAreTold }
    ensures apart { LinesAreTold }
{}

/// What is said of all words of a plant together is so: that no turns lead to a standstill, and who goes on; or that
/// these do. Each line has the names of its word.
pub fn plant_screens_are_meant()
    ensures { PlantScreensAreMeant }
{}

/// What is found of a group of a plant's machines alone, from the start of a script, is so among all machines on all
/// words together: the group never stands still, or comes to a standstill by these turns, and by no fewer, and then
/// stands still for ever; and each bound holds, and each machine that may starve may starve, if all come to some number
/// of situations. Each group has its part.
pub fn plant_parts_speak_of_all(plant: &ProgrammedPlant, openings: &[State])
    requires words { HasWords plant.now }
    requires script { AreOfScript plant.now openings.now }
    ensures { PlantPartsSpeakOfAll plant.now.plans.items plant.now.programs.programs openings.now }
{
    are_sound(&plant.plans, openings);
    let _ = plant.programs.words();
    one_word_has_plans_groups();
    plant_groups_are_apart();
    plant_groups_go_on();
    plant_groups_starve();
}

/// Words that begin with starts begin soundly, and their tables are those of plans.
fn are_sound(plans: &[ProgrammedPlan], openings: &[State])
    requires openings { length openings.now ≡ length plans.now }
    requires starts { (word : ℕ) → word < length openings.now → IsStart (state_on openings.now word) }
    ensures plans { All IsPlan (tables_of plans.now) }
    ensures sound { AreSound (tables_of plans.now) openings.now }
{
    for word in 0..plans.len() {
        is_sound(&plans[word], &openings[word]);
    }
}

/// A word that begins with a start begins soundly, and its table is that of a plan.
fn is_sound(plan: &ProgrammedPlan, opening: &State)
    requires { IsStart opening.now }
    ensures plan { IsPlan plan.now.named.plan }
    ensures sound { IsSound plan.now.named.plan opening.now }
{
    let table = plan.named.plan();
    let _ = table.machines();
    starts_are_sound(table, opening);
}

/// Examples: what simulated sensors show, turn by turn.
pub fn simulations_are_met()
    ensures { SimulationsAreMet }
{}

/// A replay answers the script that a run has printed as the machines were answered.
pub fn runs_are_replayed()
    ensures runs { (word : Option ℕ) (document : List ℕ) (plan : ProgrammedPlan) (turns : ℕ)
        (start : State) (fine : Bool) (text : List ℕ) →
        RunsAreReplayed word document plan turns start fine text }
    ensures writings { WritingsAreReplayed }
{
    histories_are_answered();
}

/// Examples: the whole text of a run, and which calls are a machine's own.
#[tactic(auto, using(crate::proofs::RunRows::run_rows))]
pub fn run_texts_are_told()
    ensures { RunTextsAreTold }
{}

/// Examples: the whole text of a run of a plant, which calls are a machine's own on each word, and on which word a machine
/// stops.
pub fn plant_run_texts_are_told()
    ensures texts { PlantRunTextsAreTold }
    ensures stops { StopsAreOfSteps }
{}

/// A run of a plant on one word is told as one of its plan, but for the number of the word.
pub fn one_word_runs_as_plan()
    ensures { OneWordRunsAsPlan }
{}

/// In a run there is a job for each machine: it goes through its own program, from the beginning, by its own pass. In a
/// run of a plant that is its program on each word.
pub fn machines_run_their_programs()
    ensures runs { RunsAreByPrograms }
    ensures plant_runs { PlantRunsAreByPrograms }
{}

/// In what a run of a plant has printed each word has a script, and a replay of this by the word's plan answers it as the
/// machines were answered.
pub fn plant_runs_are_replayed()
    ensures runs { PlantRunsAreReplayed }
    ensures writings { PlantWritingsAreReplayed }
{
    histories_are_answered();
}

/// Examples: the data and the lines of pages, what is shown of a standstill and of an order in which a machine starves,
/// and which order is shown.
pub fn pages_are_shown()
    ensures told { DataIsTold }
    ensures lines { LinesAreShown }
    ensures orders { OrdersAreShown }
    ensures chosen { OrdersAreChosen }
{}

/// What a page has is so: its data and lines, each answer, and the turns that lead somewhere.
pub fn pages_tell()
    ensures { PagesTell }
{}

/// Examples: the notes on the pages of runs.
#[tactic(auto, using(crate::proofs::RunRows::run_notes))]
pub fn run_notes_are_told()
    ensures { RunNotes }
{}
