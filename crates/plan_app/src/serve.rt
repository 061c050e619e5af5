//! What the program `plan` does.
ghost use Rattle.std.specs.Prelude.{◌≡◌, ◌≢◌, ◌<◌, ◌≤◌, ◌⊎◌, ℕ, List, true, Some, None, IfOk, Option};
ghost use Rattle.std.specs.Prelude.{IfSome, codes, length};
ghost use Rattle.std.specs.Io.KnownBytes.{Appends};
ghost use Rattle.text_io.specs.Input.{TakesAtMost};
ghost use Rattle.text_io.specs.Output.{WrotePrefix};
ghost use Rattle.csv_rows.specs.ScriptEnd.{fault_text};
ghost use Rattle.program_shell.specs.Printed.{Prints};
ghost use Rattle.program_shell.specs.Versions.{version_line};
ghost use Rattle.program_shell.specs.Words.{texts_of};
ghost use Rattle.plan_app.specs.Hazards as hazards;
ghost use Rattle.plan_text.specs.HistoryLaws.{IsStartOf};
ghost use Rattle.plan_header.specs.Printed.{header_of as header_text};
ghost use Rattle.plan_header.specs.Modules.{module_text};
ghost use Rattle.plan_app.specs.Asked.{no_word_text as no_word_words};
ghost use Rattle.plan_app.specs.Failed.{Fails, FailsBy, FailsExploreWords, FailsIn, FailsRunWords};
ghost use Rattle.plan_app.specs.Failed.{FailsWords};
ghost use Rattle.plan_app.specs.Failed.{WroteAnswers};
ghost use Rattle.plan_app.specs.Failed.{WroteDocumentFault, WroteNoPlan};
ghost use Rattle.plan_app.specs.Failed.{WroteEnd, WroteEndFrom, WroteFault, WroteHeader};
ghost use Rattle.plan_app.specs.Failed.{WroteRun, WroteRunFrom};
ghost use Rattle.plan_app.specs.Failed.{WroteModule, WrotePicture, WroteReport, WroteReportFrom};
ghost use Rattle.plan_app.specs.Failed.{WroteUnread};
ghost use Rattle.plan_app.specs.Input.{byte_limit, max_bytes_read};
ghost use Rattle.plan_app.specs.Served.{AnswersIn, AnswersInput, AnswersScript, Draws, Explores};
ghost use Rattle.plan_app.specs.Served.{ExploresIn, ExploresInput, ExploresWords, FindsFree, FindsFreeIn};
ghost use Rattle.plan_app.specs.Served.{FindsInputFree, Reports, ReportsIn, RunsWords};
ghost use Rattle.plan_app.specs.Served.{WritesExploration};
ghost use Rattle.plan_app.specs.Served.{WritesHeader, WritesHeaderIn, WritesModule};
ghost use Rattle.plan_app.specs.Served.{WritesModuleIn, WritesPicture, WritesPictureIn};
ghost use Rattle.plan_app.specs.Served.{ShowsInputRun, TellsInputRun, WritesReport, WritesRun, WritesRunFrom};
ghost use Rattle.plan_app.specs.Served.{WritesRunIn, WritesRunPage, WritesRunPageIn, WritesWords};
ghost use Rattle.plan_app.specs.Requests.{Ask, AskWords, wanted_of};

use crate::apart::{Exploration, exploration_of};
use crate::asking::{NoPlan, asked_plan, no_word_text};
use crate::hazards::{Report, report_of};
use crate::input::{MAX_BYTES, plan_length};
use crate::request;
use crate::request::{MAX_TURNS, PlantRequest, Request, Together, USUAL_MOST, Wanted};
use crate::run::{RunFault, Told, run_and_tell};
use crate::serve_page::{page_script, run_page_script};
use crate::serve_plant::together_input;
use crate::serve_words::words_input;
use plan_document::{PlanTextFault, ProgrammedPlan};
use plan_header::{header_of, module_of};
use plan_picture::picture_of;
use plan_rules::State;
use plan_text::laws::histories_are_answered;
use plan_text::{NamedPlan, Outcome, ScriptAnswers, ScriptFault, answer_script, start_of_script};
use program_shell::{Exit, fail, print, print_version, refuse_words, with_texts};
use std::alloc::{AllocError, Global};
use std::env::Env;
use std::io::{Read, Write};
use std::sync::Wait;
use std::thread::Threads;
use std::time::Clock;
use text_io::{InputFault, read_up_to};

/// The help.
const HELP: &str = "\
Reads a plan of a plant, in TOML, from standard input.
  plan check      says what it is, the layout of its word, whether each call that is done has a
                  row of masks, what keeps the motors of each hazard apart, or which calls of its
                  programs permit both, and whether each line that runs motors may; or its first
                  fault
  plan replay     answers the script after it, which begins with the line start,..
  plan explore    says whether some order of turns of its programs leads from the start
                  after it, a line start,.., to a standstill; and else whether each machine
                  goes on for ever, or in which order it starves, and whether plates move; with
                  --page a page on which such a standstill, or the first such order, is played,
                  to open in a browser; with --words the same of a plant on all its words
                  together, after a start with a digit for each of its places
  plan header     prints its names and the layout of its word for C; with --python, a module
                  for Python; with --words one header for C of all words of a plant
  plan draw       draws it, as SVG: machines, their places and motors, zones, and hazards; with
                  --words a plant on all its words
  plan run --turns N
                  lets each machine take N turns, 1 to 1000000, in a thread of its own, from the
                  start after it, with simulated sensors; says what they did, and prints their
                  history as a script, which plan replay answers as they were answered; with
                  --page after N a page on which that history is played; with --words before
                  --turns the same of a plant on all its words together, with a script of each
  plan words      reads it as a plant on several words: says what each word has, and which
                  word keeps the motors of each hazard apart, or that none does
  plan --version  prints the version
With --word K directly after another word than words, the plan is that of word K, from 0. With
--memory N after check or explore, and before --page or --words, 2,000 situations are explored
for each of N megabytes, 1 to 1000000; else 1,000,000. More are fault large. A script may follow
the plan in each case. Exit status: 0 on success, and for help; 2 for bad arguments; otherwise
1: a fault, motors that aren't kept apart or may not run at their line, a standstill, an order
in which a machine starves or plates rest, a machine stopped in a run, or a failed write.

Example:
  cat examples/plans/press.toml examples/plans/press.csv | plan replay
";

// The help names these numbers.
const _: () = prove!(USUAL_MOST == 1_000_000);

const _: () = prove!(MAX_TURNS == 1_000_000);

/// What is printed for other words.
const OTHER_WORDS: &str =
    "error: the first argument is check, replay, explore, header, draw, run, words, --help or --version\n";

/// Reads a plan and a script after it: all bytes, unless there are too many.
pub(crate) fn read_input<R: Read>(alloc: Global, reader: &mut R) -> Result<Vec<u8>, InputFault>
    ensures whole { IfOk result (λ input. length input.items ≤ byte_limit →
        IfSome (R.remaining reader.old) (λ bytes. input.items ≡ bytes)) }
    ensures long { IfOk result (λ input. byte_limit < length input.items →
        IfSome (R.remaining reader.old) (λ bytes. byte_limit < length bytes)) }
    ensures read { TakesAtMost (R.remaining reader.old) (R.remaining reader.new) max_bytes_read }
{
    read_up_to(alloc, reader, MAX_BYTES + 1)
}

/// Prints that the input wasn't read.
pub(crate) fn fail_to_read<W: Write>(writer: &mut W, fault: InputFault) -> Exit
    ensures status { result ≡ Exit.Failed }
    ensures line { WroteUnread (W.contents writer.old) (W.contents writer.new) }
{
    match fault {
        InputFault::Read => fail(writer, "read"),
        InputFault::Memory => fail(writer, "memory"),
    }
}

/// Prints the line of a fault of a script's start.
pub(crate) fn refuse_start<W: Write>(alloc: Global, writer: &mut W, fault: ScriptFault) -> Exit
    ensures status { result ≡ Exit.Failed }
    ensures line { WroteUnread (W.contents writer.old) (W.contents writer.new)
        ⊎ WroteFault (fault_text fault) (W.contents writer.old) (W.contents writer.new) }
{
    match format!(in alloc; "{fault}") {
        Ok(words) => fail(writer, words.as_str()),
        Err(AllocError) => fail(writer, "memory"),
    }
}

/// What the words of a document's fault begin with.
const OF_DOCUMENT: &[u8] = b"plan ";

/// Prints the line of a document's fault, which says where it is. What isn't of the document is that memory ran out.
pub(crate) fn refuse_document<W: Write>(alloc: Global, writer: &mut W, fault: PlanTextFault) -> Exit
    ensures status { result ≡ Exit.Failed }
    ensures line { WroteUnread (W.contents writer.old) (W.contents writer.new)
        ⊎ WroteDocumentFault (W.contents writer.old) (W.contents writer.new) }
{
    match format!(in alloc; "{fault}") {
        Ok(words) if words.as_bytes().starts_with(OF_DOCUMENT) => fail(writer, words.as_str()),
        _ => fail(writer, "memory"),
    }
}

/// Prints the line that says why there is no plan that was asked for.
fn refuse_asked<W: Write>(alloc: Global, writer: &mut W, fault: NoPlan) -> Exit
    ensures status { result ≡ Exit.Failed }
    ensures line { WroteUnread (W.contents writer.old) (W.contents writer.new)
        ⊎ WroteNoPlan fault (W.contents writer.old) (W.contents writer.new) }
{
    match fault {
        NoPlan::OfDocument(fault) => refuse_document(alloc, writer, fault),
        NoPlan::OfWord { number, count } => refuse_number(alloc, writer, number, count),
    }
}

/// Prints the line that says that the plant in a document has no word with a number, and which words it has.
fn refuse_number<W: Write>(alloc: Global, writer: &mut W, number: u32, count: usize) -> Exit
    ensures status { result ≡ Exit.Failed }
    ensures line { WroteUnread (W.contents writer.old) (W.contents writer.new)
        ⊎ WroteFault (no_word_words number count) (W.contents writer.old) (W.contents writer.new) }
{
    match no_word_text(alloc, number, count) {
        Ok(words) => fail(writer, words.as_str()),
        Err(AllocError) => fail(writer, "memory"),
    }
}

/// Reads a plan and a script after it, and prints what the request asks of them: what the plan is, its header, the
/// answers to the script, or what the machines' programs come to from the start. The plan is that of one word, if one
/// is given.
fn serve_input<T, R: Read, W: Write>(
    rt: &T,
    alloc: Global,
    word: Option<u32>,
    request: Request,
    reader: &mut R,
    writer: &mut W,
) -> Exit
where
    T: Threads + Wait + Clock + Sync,
    ensures status { result ≢ Exit.Refused }
    ensures reported { (most : ℕ) → request ≡ Request.Check most → result ≡ Exit.Well →
        Reports word most (R.remaining reader.old) (W.contents writer.old) (W.contents writer.new) }
    ensures answered { request ≡ Request.Replay → result ≡ Exit.Well →
        AnswersInput word (R.remaining reader.old) (W.contents writer.old) (W.contents writer.new) }
    ensures free { (most : ℕ) → request ≡ Request.Explore most → result ≡ Exit.Well →
        ExploresInput word (R.remaining reader.old)
        (W.contents writer.old) (W.contents writer.new) }
    ensures paged { (most : ℕ) → request ≡ Request.Page most → result ≡ Exit.Well →
        FindsInputFree word (R.remaining reader.old)
        (W.contents writer.old) (W.contents writer.new) }
    ensures header { request ≡ Request.Header → result ≡ Exit.Well →
        WritesHeader word (R.remaining reader.old) (W.contents writer.old) (W.contents writer.new) }
    ensures python { request ≡ Request.Module → result ≡ Exit.Well →
        WritesModule word (R.remaining reader.old) (W.contents writer.old) (W.contents writer.new) }
    ensures picture { request ≡ Request.Draw → result ≡ Exit.Well →
        Draws word (R.remaining reader.old) (W.contents writer.old) (W.contents writer.new) }
    ensures ran { (turns : ℕ) → request ≡ Request.Run turns → result ≡ Exit.Well →
        TellsInputRun word turns (R.remaining reader.old)
        (W.contents writer.old) (W.contents writer.new) }
    ensures shown { (turns : ℕ) → request ≡ Request.RunPage turns → result ≡ Exit.Well →
        ShowsInputRun word turns (R.remaining reader.old)
        (W.contents writer.old) (W.contents writer.new) }
    ensures failed { result ≡ Exit.Failed → Fails word request
        (R.remaining reader.old) (W.contents writer.old) (W.contents writer.new) }
    ensures read { TakesAtMost (R.remaining reader.old) (R.remaining reader.new) max_bytes_read }
{
    match read_input(alloc, reader) {
        Ok(bytes) => serve_bytes(rt, alloc, word, request, bytes.as_slice(), writer),
        Err(fault) => fail_to_read(writer, fault),
    }
}

fn serve_bytes<T, W: Write>(
    rt: &T,
    alloc: Global,
    word: Option<u32>,
    request: Request,
    bytes: &[u8],
    writer: &mut W,
) -> Exit
where
    T: Threads + Wait + Clock + Sync,
    ensures status { result ≢ Exit.Refused }
    ensures short { result ≡ Exit.Well → length bytes.now ≤ byte_limit }
    ensures long { byte_limit < length bytes.now →
        WroteFault (codes "long") (W.contents writer.old) (W.contents writer.new) }
    ensures reported { (most : ℕ) → request ≡ Request.Check most → result ≡ Exit.Well →
        ReportsIn word most bytes.now (W.contents writer.old) (W.contents writer.new) }
    ensures answered { request ≡ Request.Replay → result ≡ Exit.Well →
        AnswersIn word bytes.now (W.contents writer.old) (W.contents writer.new) }
    ensures free { (most : ℕ) → request ≡ Request.Explore most → result ≡ Exit.Well →
        ExploresIn word bytes.now (W.contents writer.old) (W.contents writer.new) }
    ensures paged { (most : ℕ) → request ≡ Request.Page most → result ≡ Exit.Well →
        FindsFreeIn word bytes.now (W.contents writer.old) (W.contents writer.new) }
    ensures header { request ≡ Request.Header → result ≡ Exit.Well →
        WritesHeaderIn word bytes.now (W.contents writer.old) (W.contents writer.new) }
    ensures python { request ≡ Request.Module → result ≡ Exit.Well →
        WritesModuleIn word bytes.now (W.contents writer.old) (W.contents writer.new) }
    ensures picture { request ≡ Request.Draw → result ≡ Exit.Well →
        WritesPictureIn word bytes.now (W.contents writer.old) (W.contents writer.new) }
    ensures ran { (turns : ℕ) → request ≡ Request.Run turns → result ≡ Exit.Well →
        WritesRunIn word turns bytes.now (W.contents writer.old) (W.contents writer.new) }
    ensures shown { (turns : ℕ) → request ≡ Request.RunPage turns → result ≡ Exit.Well →
        WritesRunPageIn word turns bytes.now (W.contents writer.old) (W.contents writer.new) }
    ensures failed { result ≡ Exit.Failed →
        FailsIn word request bytes.now (W.contents writer.old) (W.contents writer.new) }
{
    if bytes.len() > MAX_BYTES {
        return fail(writer, "long");
    }
    let (document, script) = bytes.split_at(plan_length(bytes));
    match asked_plan(alloc, word, document) {
        Ok(plan) => serve_plan(rt, alloc, request, &plan, script, writer),
        Err(fault) => refuse_asked(alloc, writer, fault),
    }
}

/// Prints what the request asks of a plan, and of the script after it.
fn serve_plan<T, W: Write>(
    rt: &T,
    alloc: Global,
    request: Request,
    plan: &ProgrammedPlan,
    script: &[u8],
    writer: &mut W,
) -> Exit
where
    T: Threads + Wait + Clock + Sync,
    ensures status { result ≢ Exit.Refused }
    ensures reported { (most : ℕ) → request ≡ Request.Check most → result ≡ Exit.Well →
        WritesReport most plan.now script.now (W.contents writer.old) (W.contents writer.new) }
    ensures answered { request ≡ Request.Replay → result ≡ Exit.Well →
        AnswersScript plan.now.named script.now (W.contents writer.old) (W.contents writer.new) }
    ensures free { (most : ℕ) → request ≡ Request.Explore most → result ≡ Exit.Well →
        Explores plan.now script.now (W.contents writer.old) (W.contents writer.new) }
    ensures paged { (most : ℕ) → request ≡ Request.Page most → result ≡ Exit.Well →
        FindsFree plan.now script.now (W.contents writer.old) (W.contents writer.new) }
    ensures header { request ≡ Request.Header → result ≡ Exit.Well →
        Appends (W.contents writer.old) (W.contents writer.new) (header_text plan.now) }
    ensures python { request ≡ Request.Module → result ≡ Exit.Well →
        Appends (W.contents writer.old) (W.contents writer.new)
        (module_text plan.now.named plan.now.motors.names plan.now.motors.motors.items) }
    ensures picture { request ≡ Request.Draw → result ≡ Exit.Well →
        WritesPicture plan.now (W.contents writer.old) (W.contents writer.new) }
    ensures ran { (turns : ℕ) → request ≡ Request.Run turns → result ≡ Exit.Well →
        WritesRun plan.now turns script.now (W.contents writer.old) (W.contents writer.new) }
    ensures shown { (turns : ℕ) → request ≡ Request.RunPage turns → result ≡ Exit.Well →
        WritesRunPage plan.now turns script.now (W.contents writer.old) (W.contents writer.new) }
    ensures failed { result ≡ Exit.Failed →
        WroteUnread (W.contents writer.old) (W.contents writer.new)
        ⊎ FailsBy request plan.now script.now (W.contents writer.old) (W.contents writer.new) }
{
    match request {
        Request::Header => print_header(alloc, plan, writer),
        Request::Module => print_module(alloc, plan, writer),
        Request::Draw => print_picture(alloc, plan, writer),
        Request::Replay => replay_script(alloc, &plan.named, script, writer),
        Request::Explore(most) => explore_script(alloc, plan, most, script, writer),
        Request::Page(most) => page_script(alloc, plan, most, script, writer),
        Request::Run(turns) => run_script(rt, alloc, plan, turns, script, writer),
        Request::RunPage(turns) => run_page_script(rt, alloc, plan, turns, script, writer),
        Request::Check(most) => report_script(alloc, plan, most, script, writer),
    }
}

/// Prints the report of a plan, with turns from the start of the script, if it has one.
fn report_script<W: Write>(
    alloc: Global,
    plan: &ProgrammedPlan,
    most: usize,
    script: &[u8],
    writer: &mut W,
) -> Exit
    ensures status { result ≢ Exit.Refused }
    ensures reported { result ≡ Exit.Well →
        WritesReport most plan.now script.now (W.contents writer.old) (W.contents writer.new) }
    ensures failed { result ≡ Exit.Failed →
        WroteUnread (W.contents writer.old) (W.contents writer.new)
        ⊎ WroteReport most plan.now script.now (W.contents writer.old) (W.contents writer.new) }
{
    match start_of_script(alloc, &plan.named, script) {
        Ok(start) => print_report(alloc, plan, most, start_if(&start), writer),
        Err(fault) => fail_to_read(writer, fault),
    }
}

/// The start of a script, if it has one.
fn start_if(start: &Result<State, ScriptFault>) -> Option<State>
    ensures { result ≡ hazards.start_if start.now }
{
    match start {
        Ok(opening) => Some(*opening),
        Err(_) => None,
    }
}

/// Prints the report of a plan. It isn't well where the motors of a hazard aren't kept apart, or may not run at a line.
fn print_report<W: Write>(
    alloc: Global,
    plan: &ProgrammedPlan,
    most: usize,
    start: Option<State>,
    writer: &mut W,
) -> Exit
    ensures status { result ≢ Exit.Refused }
    ensures reported { result ≡ Exit.Well → (text : List ℕ)
        × hazards.TellsReport most plan.now start true text
        × Appends (W.contents writer.old) (W.contents writer.new) text }
    ensures failed { result ≡ Exit.Failed →
        WroteUnread (W.contents writer.old) (W.contents writer.new)
        ⊎ WroteReportFrom most plan.now start (W.contents writer.old) (W.contents writer.new) }
{
    match report_of(alloc, plan, start, most) {
        Ok(Report::Kept(text)) => print(writer, text.as_bytes()),
        Ok(Report::Unkept(text)) => print_warning(writer, text.as_str()),
        Err(AllocError) => fail(writer, "memory"),
    }
}

fn print_header<W: Write>(alloc: Global, plan: &ProgrammedPlan, writer: &mut W) -> Exit
    ensures status { result ≢ Exit.Refused }
    ensures header { result ≡ Exit.Well →
        Appends (W.contents writer.old) (W.contents writer.new) (header_text plan.now) }
    ensures failed { result ≡ Exit.Failed →
        WroteUnread (W.contents writer.old) (W.contents writer.new)
        ⊎ WroteHeader plan.now (W.contents writer.old) (W.contents writer.new) }
{
    match header_of(alloc, plan) {
        Ok(text) => print(writer, text.as_bytes()),
        Err(AllocError) => fail(writer, "memory"),
    }
}

fn print_module<W: Write>(alloc: Global, plan: &ProgrammedPlan, writer: &mut W) -> Exit
    ensures status { result ≢ Exit.Refused }
    ensures python { result ≡ Exit.Well →
        Appends (W.contents writer.old) (W.contents writer.new)
        (module_text plan.now.named plan.now.motors.names plan.now.motors.motors.items) }
    ensures failed { result ≡ Exit.Failed →
        WroteUnread (W.contents writer.old) (W.contents writer.new)
        ⊎ WroteModule plan.now (W.contents writer.old) (W.contents writer.new) }
{
    match module_of(alloc, plan) {
        Ok(text) => print(writer, text.as_bytes()),
        Err(AllocError) => fail(writer, "memory"),
    }
}

fn print_picture<W: Write>(alloc: Global, plan: &ProgrammedPlan, writer: &mut W) -> Exit
    ensures status { result ≢ Exit.Refused }
    ensures picture { result ≡ Exit.Well →
        WritesPicture plan.now (W.contents writer.old) (W.contents writer.new) }
    ensures failed { result ≡ Exit.Failed →
        WroteUnread (W.contents writer.old) (W.contents writer.new)
        ⊎ WrotePicture plan.now (W.contents writer.old) (W.contents writer.new) }
{
    match picture_of(alloc, plan) {
        Ok(text) => print(writer, text.as_bytes()),
        Err(AllocError) => fail(writer, "memory"),
    }
}

fn replay_script<W: Write>(alloc: Global, named: &NamedPlan, script: &[u8], writer: &mut W) -> Exit
    ensures status { result ≢ Exit.Refused }
    ensures answered { result ≡ Exit.Well →
        AnswersScript named.now script.now (W.contents writer.old) (W.contents writer.new) }
    ensures failed { result ≡ Exit.Failed →
        WroteUnread (W.contents writer.old) (W.contents writer.new)
        ⊎ WroteAnswers named.now script.now (W.contents writer.old) (W.contents writer.new) }
{
    match answer_script(alloc, named, script) {
        Ok(answered) => print_answers(writer, &answered),
        Err(fault) => fail_to_read(writer, fault),
    }
}

fn explore_script<W: Write>(
    alloc: Global,
    plan: &ProgrammedPlan,
    most: usize,
    script: &[u8],
    writer: &mut W,
) -> Exit
    ensures status { result ≢ Exit.Refused }
    ensures free { result ≡ Exit.Well →
        Explores plan.now script.now (W.contents writer.old) (W.contents writer.new) }
    ensures failed { result ≡ Exit.Failed →
        WroteUnread (W.contents writer.old) (W.contents writer.new)
        ⊎ WroteEnd most plan.now script.now (W.contents writer.old) (W.contents writer.new) }
{
    match start_of_script(alloc, &plan.named, script) {
        Ok(Ok(opening)) => explore_from(alloc, plan, most, &opening, writer),
        Ok(Err(fault)) => refuse_start(alloc, writer, fault),
        Err(fault) => fail_to_read(writer, fault),
    }
}

fn explore_from<W: Write>(
    alloc: Global,
    plan: &ProgrammedPlan,
    most: usize,
    opening: &State,
    writer: &mut W,
) -> Exit
    ensures status { result ≢ Exit.Refused }
    ensures free { result ≡ Exit.Well → WritesExploration plan.now.named plan.now.programs
        opening.now
        (W.contents writer.old) (W.contents writer.new) }
    ensures failed { result ≡ Exit.Failed →
        WroteUnread (W.contents writer.old) (W.contents writer.new)
        ⊎ WroteEndFrom most plan.now opening.now (W.contents writer.old) (W.contents writer.new) }
{
    match exploration_of(alloc, plan, opening, most) {
        Ok(Exploration::Well(text)) => print(writer, text.as_bytes()),
        Ok(Exploration::Unwell(text)) => print_warning(writer, text.as_str()),
        Ok(Exploration::Large(words)) => fail(writer, words.as_str()),
        Err(AllocError) => fail(writer, "memory"),
    }
}

/// Lets the machines run from the start of a script, and prints what they did.
fn run_script<T, W: Write>(
    rt: &T,
    alloc: Global,
    plan: &ProgrammedPlan,
    turns: u32,
    script: &[u8],
    writer: &mut W,
) -> Exit
where
    T: Threads + Wait + Clock + Sync,
    ensures status { result ≢ Exit.Refused }
    ensures ran { result ≡ Exit.Well →
        WritesRun plan.now turns script.now (W.contents writer.old) (W.contents writer.new) }
    ensures failed { result ≡ Exit.Failed →
        WroteUnread (W.contents writer.old) (W.contents writer.new)
        ⊎ WroteRun plan.now turns script.now (W.contents writer.old) (W.contents writer.new) }
{
    histories_are_answered();
    match start_of_script(alloc, &plan.named, script) {
        Ok(Ok(start)) => run_from(rt, alloc, plan, turns, &start, writer),
        Ok(Err(fault)) => refuse_start(alloc, writer, fault),
        Err(fault) => fail_to_read(writer, fault),
    }
}

fn run_from<T, W: Write>(
    rt: &T,
    alloc: Global,
    plan: &ProgrammedPlan,
    turns: u32,
    start: &State,
    writer: &mut W,
) -> Exit
where
    T: Threads + Wait + Clock + Sync,
    requires { IsStartOf plan.now.named start.now }
    ensures status { result ≢ Exit.Refused }
    ensures ran { result ≡ Exit.Well →
        WritesRunFrom plan.now turns start.now (W.contents writer.old) (W.contents writer.new) }
    ensures failed { result ≡ Exit.Failed →
        WroteUnread (W.contents writer.old) (W.contents writer.new)
        ⊎ WroteRunFrom plan.now turns start.now (W.contents writer.old) (W.contents writer.new) }
{
    match run_and_tell(rt, alloc, plan, start, turns) {
        Ok(Told::Fine(text)) => print(writer, text.as_bytes()),
        Ok(Told::Stopped(text)) => print_warning(writer, text.as_str()),
        Err(RunFault::Memory) => fail(writer, "memory"),
        Err(RunFault::Audit) => fail(writer, "audit"),
        Err(RunFault::Long) => fail(writer, "long"),
    }
}

/// Prints what was found of a standstill, of who starves, of motors that aren't kept apart or may not run, or of a
/// machine that was stopped. That isn't well, whatever was written.
pub(crate) fn print_warning<W: Write>(writer: &mut W, text: &str) -> Exit
    ensures status { result ≡ Exit.Failed }
    ensures line { WrotePrefix (W.contents writer.old) (W.contents writer.new) text.now }
{
    let _ = print(writer, text.as_bytes());
    Exit::Failed
}

/// Prints answers. Returns `Well` if they were written and no record was refused.
fn print_answers<W: Write>(writer: &mut W, answered: &ScriptAnswers) -> Exit
    ensures status { result ≢ Exit.Refused }
    ensures clean { result ≡ Exit.Well → answered.now.outcome ≡ Outcome.Clean }
    ensures written { result ≡ Exit.Well →
        Appends (W.contents writer.old) (W.contents writer.new) answered.now.text }
    ensures failed { result ≡ Exit.Failed →
        WrotePrefix (W.contents writer.old) (W.contents writer.new) answered.now.text }
{
    let printed = print(writer, answered.text().as_bytes());
    match answered.outcome() {
        Outcome::Clean => printed,
        Outcome::Refused(_) => Exit::Failed,
    }
}

/// Does what the words ask for, and returns the exit status: 0 on success, and for help; 1 for a refused plan or
/// script, motors that aren't kept apart or may not run at their line, a standstill, a machine that may starve, plates
/// that may rest, a machine that was stopped in a run, a failed read or write, and if memory ran out; 2 for other
/// words. A run waits until all its threads have ended.
pub fn serve<T, R: Read, W: Write>(
    rt: &T,
    alloc: Global,
    words: &[&str],
    reader: &mut R,
    writer: &mut W,
) -> u8
where
    T: Threads + Wait + Clock + Sync,
    ensures status { result ≤ 2 }

    // If they ask for help, status 0 says that help was printed, status 1 that a prefix was. For the version it says
    // the same.
    ensures help { wanted_of (texts_of words.now) ≡ Some Wanted.Help →
        Prints result (W.contents writer.old) (W.contents writer.new) HELP.now }
    ensures version { wanted_of (texts_of words.now) ≡ Some Wanted.Version →
        Prints result (W.contents writer.old) (W.contents writer.new)
        (version_line (codes "plan")) }

    // The plan is that of the document in the input; or with `--word` that of one word of the plant in it.
    // With `replay`: status 0 says that each record of the script was answered by the plan, and that the answers were
    // written.
    ensures replay { (word : Option ℕ) →
        Ask (texts_of words.now) word Request.Replay → result ≡ 0 →
        AnswersInput word (R.remaining reader.old) (W.contents writer.old) (W.contents writer.new) }

    // With `explore`: status 0 says that no order of turns of this plan's programs leads from the script's start to a
    // standstill, that no machine starves and no plates rest by what explorations answer, and that this was written. If
    // at least two groups of machines that share nothing have programs, it says so of each group.
    ensures explore { (word : Option ℕ) (most : ℕ) →
        Ask (texts_of words.now) word (Request.Explore most) → result ≡ 0 →
        ExploresInput word (R.remaining reader.old)
        (W.contents writer.old) (W.contents writer.new) }

    // With `explore --page`: status 0 says and writes the same of all machines together; there is no page then.
    ensures page { (word : Option ℕ) (most : ℕ) →
        Ask (texts_of words.now) word (Request.Page most) → result ≡ 0 →
        FindsInputFree word (R.remaining reader.old)
        (W.contents writer.old) (W.contents writer.new) }

    // With `check`: status 0 says that this plan's report was written, and that the motors of each hazard are kept
    // apart. With `header`: that its header was written, or with `header --python` its module. With `draw`: its
    // picture.
    ensures check { (word : Option ℕ) (most : ℕ) →
        Ask (texts_of words.now) word (Request.Check most) → result ≡ 0 →
        Reports word most (R.remaining reader.old) (W.contents writer.old) (W.contents writer.new) }
    ensures header { (word : Option ℕ) →
        Ask (texts_of words.now) word Request.Header → result ≡ 0 →
        WritesHeader word (R.remaining reader.old) (W.contents writer.old) (W.contents writer.new) }
    ensures python { (word : Option ℕ) →
        Ask (texts_of words.now) word Request.Module → result ≡ 0 →
        WritesModule word (R.remaining reader.old) (W.contents writer.old) (W.contents writer.new) }
    ensures draw { (word : Option ℕ) →
        Ask (texts_of words.now) word Request.Draw → result ≡ 0 →
        Draws word (R.remaining reader.old) (W.contents writer.old) (W.contents writer.new) }

    // With `run --turns N`: that each machine took these turns, over one interlock from the script's start, none was
    // stopped, and one legal history explains what each has noted; and that how many calls of each were done and
    // refused, and the script of that history, were written.
    ensures run { (word : Option ℕ) (turns : ℕ) →
        Ask (texts_of words.now) word (Request.Run turns) → result ≡ 0 →
        TellsInputRun word turns (R.remaining reader.old)
        (W.contents writer.old) (W.contents writer.new) }

    // With `run --turns N --page`: the same, and that the page of that history was written.
    ensures run_page { (word : Option ℕ) (turns : ℕ) →
        Ask (texts_of words.now) word (Request.RunPage turns) → result ≡ 0 →
        ShowsInputRun word turns (R.remaining reader.old)
        (W.contents writer.old) (W.contents writer.new) }

    // Status 1 says for each of these what was written, of which the writer may have taken but a prefix: the line of a
    // fault, as that there is no such word; or, by the plan that is asked for of the document in the input, what
    // follows.
    // With `replay`: the answers to the script.
    ensures replay_fails { (word : Option ℕ) →
        Ask (texts_of words.now) word Request.Replay → result ≡ 1 →
        Fails word Request.Replay (R.remaining reader.old)
        (W.contents writer.old) (W.contents writer.new) }

    // With `explore`: a standstill, which turns from the script's start lead to, or that there is none, and what
    // explorations answer of machines and plates; of each group apart, if at least two have programs.
    ensures explore_fails { (word : Option ℕ) (most : ℕ) →
        Ask (texts_of words.now) word (Request.Explore most) → result ≡ 1 →
        Fails word (Request.Explore most) (R.remaining reader.old)
        (W.contents writer.old) (W.contents writer.new) }

    // With `explore --page`: the page of such a standstill, or of a fair order in which a machine starves or plates
    // rest; or that there is none; or that it has more turns than a page shows.
    ensures page_fails { (word : Option ℕ) (most : ℕ) →
        Ask (texts_of words.now) word (Request.Page most) → result ≡ 1 →
        Fails word (Request.Page most) (R.remaining reader.old)
        (W.contents writer.old) (W.contents writer.new) }

    // With `check`: its report. With `header`: its header, or with `header --python` its module. With `draw`: its
    // picture.
    ensures check_fails { (word : Option ℕ) (most : ℕ) →
        Ask (texts_of words.now) word (Request.Check most) → result ≡ 1 →
        Fails word (Request.Check most) (R.remaining reader.old)
        (W.contents writer.old) (W.contents writer.new) }
    ensures header_fails { (word : Option ℕ) →
        Ask (texts_of words.now) word Request.Header → result ≡ 1 →
        Fails word Request.Header (R.remaining reader.old)
        (W.contents writer.old) (W.contents writer.new) }
    ensures python_fails { (word : Option ℕ) →
        Ask (texts_of words.now) word Request.Module → result ≡ 1 →
        Fails word Request.Module (R.remaining reader.old)
        (W.contents writer.old) (W.contents writer.new) }
    ensures draw_fails { (word : Option ℕ) →
        Ask (texts_of words.now) word Request.Draw → result ≡ 1 →
        Fails word Request.Draw (R.remaining reader.old)
        (W.contents writer.old) (W.contents writer.new) }

    // With `run`: what the machines did, also where one was stopped; or that there are more calls than a script may
    // have records.
    ensures run_fails { (word : Option ℕ) (turns : ℕ) →
        Ask (texts_of words.now) word (Request.Run turns) → result ≡ 1 →
        Fails word (Request.Run turns) (R.remaining reader.old)
        (W.contents writer.old) (W.contents writer.new) }

    // With `run --turns N --page`: the page of what they did, also where one was stopped; or the same.
    ensures run_page_fails { (word : Option ℕ) (turns : ℕ) →
        Ask (texts_of words.now) word (Request.RunPage turns) → result ≡ 1 →
        Fails word (Request.RunPage turns) (R.remaining reader.old)
        (W.contents writer.old) (W.contents writer.new) }

    // With `words`: status 0 says that what the words of the plant in the document have was written, and of each hazard
    // the first word that keeps its motors apart; status 1 says that, or that no word does; or the line of a fault.
    ensures words { AskWords (texts_of words.now) PlantRequest.Listing → result ≡ 0 →
        WritesWords PlantRequest.Listing (R.remaining reader.old)
        (W.contents writer.old) (W.contents writer.new) }
    ensures words_fails { AskWords (texts_of words.now) PlantRequest.Listing → result ≡ 1 →
        FailsWords PlantRequest.Listing (R.remaining reader.old)
        (W.contents writer.old) (W.contents writer.new) }

    // With `header --words`: status 0 says that one header of all words of the plant in the document was written;
    // status 1 that a prefix of it was, or the line of a fault.
    ensures header_words { AskWords (texts_of words.now) PlantRequest.Header → result ≡ 0 →
        WritesWords PlantRequest.Header (R.remaining reader.old)
        (W.contents writer.old) (W.contents writer.new) }
    ensures header_words_fails { AskWords (texts_of words.now) PlantRequest.Header → result ≡ 1 →
        FailsWords PlantRequest.Header (R.remaining reader.old)
        (W.contents writer.old) (W.contents writer.new) }

    // With `draw --words`: status 0 says that the picture of all words of the plant in the document was written, with the
    // first word that keeps the motors of each hazard apart, or that none does; status 1 that a prefix of it was, or the
    // line of a fault.
    ensures draw_words { AskWords (texts_of words.now) PlantRequest.Draw → result ≡ 0 →
        WritesWords PlantRequest.Draw (R.remaining reader.old)
        (W.contents writer.old) (W.contents writer.new) }
    ensures draw_words_fails { AskWords (texts_of words.now) PlantRequest.Draw → result ≡ 1 →
        FailsWords PlantRequest.Draw (R.remaining reader.old)
        (W.contents writer.old) (W.contents writer.new) }

    // With `explore --words`: status 0 says that no order of turns of the machines' programs, on all words of the plant
    // together, leads from the script's start to a standstill, that no machine starves by what an exploration answers,
    // and that this was written; status 1 that a standstill was written, and the fewest turns that lead to it; or that
    // there is none, and what an exploration answers of each machine; or one of these; or the line of a fault.
    ensures explore_words { (most : ℕ) →
        wanted_of (texts_of words.now) ≡ Some (Wanted.ExploreWords most) → result ≡ 0 →
        ExploresWords (R.remaining reader.old) (W.contents writer.old) (W.contents writer.new) }
    ensures explore_words_fails { (most : ℕ) →
        wanted_of (texts_of words.now) ≡ Some (Wanted.ExploreWords most) → result ≡ 1 →
        FailsExploreWords most (R.remaining reader.old)
        (W.contents writer.old) (W.contents writer.new) }

    // With `run --words --turns N`: status 0 says that each machine took these turns, through its program on all words of
    // the plant, from the script's start, none was stopped, and of each word one legal history explains what each has
    // noted; and that how many calls of each were done and refused, and the scripts of these histories, were written;
    // status 1 that the same was, also where one was stopped; or the line of a fault.
    ensures run_words { (turns : ℕ) →
        wanted_of (texts_of words.now) ≡ Some (Wanted.RunWords turns) → result ≡ 0 →
        RunsWords turns (R.remaining reader.old) (W.contents writer.old) (W.contents writer.new) }
    ensures run_words_fails { (turns : ℕ) →
        wanted_of (texts_of words.now) ≡ Some (Wanted.RunWords turns) → result ≡ 1 →
        FailsRunWords turns (R.remaining reader.old)
        (W.contents writer.old) (W.contents writer.new) }

    // Status 2 comes exactly for other words, of which a line was printed, or a prefix of it.
    ensures refused { result ≡ 2 → wanted_of (texts_of words.now) ≡ None }
    ensures other { wanted_of (texts_of words.now) ≡ None → result ≡ 2 }
    ensures line { wanted_of (texts_of words.now) ≡ None →
        WrotePrefix (W.contents writer.old) (W.contents writer.new) OTHER_WORDS.now }

    // At most one byte more is read than a plan and a script may have.
    ensures read { TakesAtMost (R.remaining reader.old) (R.remaining reader.new) max_bytes_read }
{
    match request::wanted_of(words) {
        Some(Wanted::Help) => print(writer, HELP.as_bytes()).status(),
        Some(Wanted::Version) => print_version(writer, "plan").status(),
        Some(Wanted::Words(request)) => words_input(alloc, request, reader, writer).status(),
        Some(Wanted::ExploreWords(most)) => {
            together_input(rt, alloc, Together::Explore(most), reader, writer).status()
        }
        Some(Wanted::RunWords(turns)) => {
            together_input(rt, alloc, Together::Run(turns), reader, writer).status()
        }
        Some(Wanted::Plan { word, request }) => {
            serve_input(rt, alloc, word, request, reader, writer).status()
        }
        None => refuse_words(writer, OTHER_WORDS).status(),
    }
}

/// Runs the program with the words that it was started with, and returns the exit status.
pub fn start<T, E: Env, R: Read, W: Write>(
    rt: &T,
    alloc: Global,
    env: &E,
    reader: &mut R,
    writer: &mut W,
) -> u8
where
    T: Threads + Wait + Clock + Sync,
    ensures status { result ≤ 2 }
    ensures read { TakesAtMost (R.remaining reader.old) (R.remaining reader.new) max_bytes_read }
{
    with_texts!(
        alloc,
        env,
        writer,
        Exit::status,
        |texts| serve(rt, alloc, texts, reader, writer)
    )
}
