//! Tests of the interlock, a file for each subject, and what several of them use.
ghost use Rattle.cell_types.specs.declared.machine.Machine.TheVariants.{Feed, Table, Robot, Press};
ghost use Rattle.cell_interlock.specs.Ends.{ArePassesOf, IsPassOf};

use cell_interlock::{Interlock, Pass, Passes};
use cell_rules::State;
use std::alloc::Global;
use std::process::Abort;

mod callers;
mod closing;
mod letters;
mod played;
mod receipts;
mod ring;
mod steps;
mod stopped;
mod threads;
mod waiting;

/// A new interlock with this first stamp and without plates, and its passes.
fn opened_at(rt: &impl Abort, alloc: Global, first: u32, tries: u8) -> (Interlock, Passes)
    ensures { ArePassesOf result.0 result.1 }
{
    let opening = State::start([false; 10], first).expect(rt, "a start without plates");
    Interlock::new(alloc, opening, tries).expect(rt, "an interlock")
}

/// One with the stamp 0.
fn open_interlock(rt: &impl Abort, alloc: Global, tries: u8) -> (Interlock, Passes)
    ensures { ArePassesOf result.0 result.1 }
{
    opened_at(rt, alloc, 0, tries)
}

/// The passes of feed belt, table, robot and press. The others are dropped.
fn stations_of(interlock: &Interlock, passes: Passes) -> (Pass, Pass, Pass, Pass)
    requires { ArePassesOf interlock.now passes }
    ensures feed { IsPassOf interlock.now Feed result.0 }
    ensures table { IsPassOf interlock.now Table result.1 }
    ensures robot { IsPassOf interlock.now Robot result.2 }
    ensures press { IsPassOf interlock.now Press result.3 }
{
    let _ = interlock;
    (passes.feed, passes.table, passes.robot, passes.press)
}
