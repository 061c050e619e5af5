//! Prints the page of what was explored, or of a run.
ghost use Rattle.std.specs.Prelude.{◌≡◌, ◌≢◌, ◌⊎◌};
ghost use Rattle.plan_text.specs.HistoryLaws.{IsStartOf};
ghost use Rattle.plan_app.specs.Failed.{WrotePage, WrotePageFrom, WroteUnread};
ghost use Rattle.plan_app.specs.Failed.{WroteRunPage, WroteRunPageFrom};
ghost use Rattle.plan_app.specs.Served.{FindsFree, WritesFree, WritesRunPage, WritesRunPageFrom};

use crate::page::{Page, page_of};
use crate::run::{RunFault, Told};
use crate::run_page::run_and_show;
use crate::serve::{fail_to_read, print_warning, refuse_start};
use plan_document::ProgrammedPlan;
use plan_rules::State;
use plan_text::laws::histories_are_answered;
use plan_text::start_of_script;
use program_shell::{Exit, fail, print};
use std::alloc::{AllocError, Global};
use std::io::Write;
use std::sync::Wait;
use std::thread::Threads;
use std::time::Clock;

/// Explores a plan's programs from the start of a script, and prints the page of what was found.
pub(crate) fn page_script<W: Write>(
    alloc: Global,
    plan: &ProgrammedPlan,
    most: usize,
    script: &[u8],
    writer: &mut W,
) -> Exit
    ensures status { result ≢ Exit.Refused }
    ensures free { result ≡ Exit.Well →
        FindsFree plan.now script.now (W.contents writer.old) (W.contents writer.new) }
    ensures failed { result ≡ Exit.Failed →
        WroteUnread (W.contents writer.old) (W.contents writer.new)
        ⊎ WrotePage most plan.now script.now (W.contents writer.old) (W.contents writer.new) }
{
    histories_are_answered();
    match start_of_script(alloc, &plan.named, script) {
        Ok(Ok(opening)) => page_from(alloc, plan, most, &opening, writer),
        Ok(Err(fault)) => refuse_start(alloc, writer, fault),
        Err(fault) => fail_to_read(writer, fault),
    }
}

fn page_from<W: Write>(
    alloc: Global,
    plan: &ProgrammedPlan,
    most: usize,
    opening: &State,
    writer: &mut W,
) -> Exit
    requires { IsStartOf plan.now.named opening.now }
    ensures status { result ≢ Exit.Refused }
    ensures free { result ≡ Exit.Well → WritesFree plan.now.named plan.now.programs opening.now
        (W.contents writer.old) (W.contents writer.new) }
    ensures failed { result ≡ Exit.Failed →
        WroteUnread (W.contents writer.old) (W.contents writer.new)
        ⊎ WrotePageFrom most plan.now opening.now (W.contents writer.old) (W.contents writer.new) }
{
    match page_of(alloc, plan, opening, most) {
        Ok(Page::Free(text)) => print(writer, text.as_bytes()),
        Ok(Page::Found(text)) => print_warning(writer, text.as_str()),
        Ok(Page::Long) => fail(writer, "long"),
        Ok(Page::Large(words)) => fail(writer, words.as_str()),
        Err(AllocError) => fail(writer, "memory"),
    }
}

/// Lets the machines run from the start of a script, and prints the page of what they did.
pub(crate) fn run_page_script<T, W: Write>(
    rt: &T,
    alloc: Global,
    plan: &ProgrammedPlan,
    turns: u32,
    script: &[u8],
    writer: &mut W,
) -> Exit
where
    T: Threads + Wait + Clock + Sync,
    ensures status { result ≢ Exit.Refused }
    ensures shown { result ≡ Exit.Well →
        WritesRunPage plan.now turns script.now (W.contents writer.old) (W.contents writer.new) }
    ensures failed { result ≡ Exit.Failed →
        WroteUnread (W.contents writer.old) (W.contents writer.new)
        ⊎ WroteRunPage plan.now turns script.now (W.contents writer.old) (W.contents writer.new) }
{
    histories_are_answered();
    match start_of_script(alloc, &plan.named, script) {
        Ok(Ok(start)) => run_page_from(rt, alloc, plan, turns, &start, writer),
        Ok(Err(fault)) => refuse_start(alloc, writer, fault),
        Err(fault) => fail_to_read(writer, fault),
    }
}

fn run_page_from<T, W: Write>(
    rt: &T,
    alloc: Global,
    plan: &ProgrammedPlan,
    turns: u32,
    start: &State,
    writer: &mut W,
) -> Exit
where
    T: Threads + Wait + Clock + Sync,
    requires { IsStartOf plan.now.named start.now }
    ensures status { result ≢ Exit.Refused }
    ensures shown { result ≡ Exit.Well →
        WritesRunPageFrom plan.now turns start.now (W.contents writer.old) (W.contents writer.new) }
    ensures failed { result ≡ Exit.Failed →
        WroteUnread (W.contents writer.old) (W.contents writer.new)
        ⊎ WroteRunPageFrom plan.now turns start.now (W.contents writer.old)
        (W.contents writer.new) }
{
    match run_and_show(rt, alloc, plan, start, turns) {
        Ok(Told::Fine(text)) => print(writer, text.as_bytes()),
        Ok(Told::Stopped(text)) => print_warning(writer, text.as_str()),
        Err(RunFault::Memory) => fail(writer, "memory"),
        Err(RunFault::Audit) => fail(writer, "audit"),
        Err(RunFault::Long) => fail(writer, "long"),
    }
}
