//! Two machines at a press, and the interlock between them, called directly: the ram, and a loader
//! that reaches in while the press is open. Lines of text are their requests and the replies.
#![tactic(auto)]

mod fault;
mod laws;
mod requests;

ghost use Rattle.std.specs.Prelude.{◌≡◌};

use cell_interlock::{Interlock, Pass};
use cell_rules::State;
use fault::TwoFault;
use requests::{Party, Request, reply_word};
use std::alloc::Global;

// The number of exchanges that a call may lose before it is Busy.
const TRIES: u8 = 8;

// The answer to a line.
fn answer(interlock: &Interlock, ram: &mut Pass, loader: &mut Pass, text: &str) -> &'static str
    requires ram { ram.old.table ≡ interlock.now.table }
    requires loader { loader.old.table ≡ interlock.now.table }
    ensures ram { ram.new.table ≡ interlock.now.table }
    ensures loader { loader.new.table ≡ interlock.now.table }
{
    match Request::read(text) {
        Some(request) => reply_word(match request.party() {
            Party::Ram => interlock.ask(ram, request.call()),
            Party::Loader => interlock.ask(loader, request.call()),
        }),
        None => "unread",
    }
}

// Answers each line, until the input ends.
fn serve(
    rt: &HostRuntime,
    alloc: Global,
    interlock: &Interlock,
    ram: &mut Pass,
    loader: &mut Pass,
) -> Result<(), TwoFault>
    requires ram { ram.old.table ≡ interlock.now.table }
    requires loader { loader.old.table ≡ interlock.now.table }
{
    for text in rt.lines(alloc) {
        let answer = answer(interlock, ram, loader, text?.as_str());
        println!(rt; "{answer}")?;
    }
    Ok(())
}

fn main(rt: HostRuntime) -> Result<(), TwoFault> {
    let alloc = rt.alloc();
    let opening = State::start([false; 10], 0)?;
    let (interlock, mut passes) = Interlock::new(alloc, opening, TRIES)?;
    serve(&rt, alloc, &interlock, &mut passes.press, &mut passes.robot)
}
