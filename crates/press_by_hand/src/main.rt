//! The press, driven by lines of text as its switches and its motor: a machine with your own
//! sensors and motors.
#![tactic(auto)]

mod fault;
mod laws;
mod texts;

ghost use Rattle.std.specs.Prelude.{◌≡◌, []};
ghost use Rattle.cell_types.specs.declared.machine.Machine.TheVariants.{Press};

use cell_control::Wired;
use cell_interlock::{Interlock, Pass, PassLine};
use cell_rules::{Line, State};
use cell_sensors::PressSense;
use cell_table_press::PressProgram;
use fault::PressFault;
use std::alloc::Global;
use std::io;
use texts::{motor_word, read_switches};

// The full places at the start: a plate that isn't forged is in the press.
const PLACES: [bool; 10] = [
    false, false, false, false, true, false, false, false, false, false,
];

// The number of exchanges that a call may lose before it is Busy.
const TRIES: u8 = 8;

// Gives the press a turn, and prints its motor's command, and after a fault also why.
fn turn<L: Line>(
    rt: &HostRuntime,
    press: &mut Wired<PressProgram, L>,
    switches: PressSense,
) -> io::Result<()> {
    let told = press.turn(&switches);
    let motor = motor_word(told.act.press);
    match told.fault {
        None => println!(rt; "{motor}"),
        Some(fault) => println!(rt; "{motor}: {fault}"),
    }
}

// Drives the press by each line, until the input ends.
fn drive<L: Line>(
    rt: &HostRuntime,
    alloc: Global,
    press: &mut Wired<PressProgram, L>,
) -> io::Result<()> {
    for text in rt.lines(alloc) {
        match read_switches(text?.as_bytes()) {
            Some(switches) => turn(rt, press, switches)?,
            None => println!(rt; "off unread")?,
        }
    }
    Ok(())
}

// Drives the press over the interlock with its pass, and then says how many calls its journal has.
fn serve(
    rt: &HostRuntime,
    alloc: Global,
    opening: &State,
    interlock: &Interlock,
    pass: Pass,
) -> Result<(), PressFault>
    requires own { pass.table ≡ interlock.now.table }
    requires machine { pass.machine ≡ Press }
    requires opening { pass.opening ≡ opening.now }
    requires fresh { pass.seen ≡ [] }
{
    let line = PassLine::new(alloc, interlock, pass);
    let mut press = Wired::new(PressProgram, opening, line);
    drive(rt, alloc, &mut press)?;
    let (_, journal) = press.into_line().into_parts();
    println!(rt; "{} calls", journal.len())?;
    Ok(())
}

fn main(rt: HostRuntime) -> Result<(), PressFault> {
    let alloc = rt.alloc();
    let opening = State::start(PLACES, 0)?;
    let (interlock, passes) = Interlock::new(alloc, opening, TRIES)?;
    serve(&rt, alloc, &opening, &interlock, passes.press)
}
