//! The press at the end of its line to an interlock, which begins where 14 bytes say.
ghost use Rattle.std.specs.Prelude.{◌≡◌};
ghost use Rattle.cell_interlock.specs.Fresh.{AreFresh};

use crate::resume::plant::Plant;
use cell_control::Wired;
use cell_interlock::{Interlock, MakeFault, PassLine, Passes};
use cell_resume::{Checkpoint, CheckpointBytes, Resumed, ResumedCell, Team, resume_at};
use cell_rules::Survey;
use cell_table_press::PressProgram;
use std::alloc::Global;

/// The press, and the line of the watch, which asks nothing.
#[derive(Drop)]
struct WiredPress<'a> {
    press: Wired<Resumed<PressProgram>, PassLine<'a>>,
    watch: PassLine<'a>,
}

impl WiredPress<'_> {
    // One turn of the press. Whether it goes on.
    fn turn(&mut self, plant: &mut Plant) -> bool {
        let told = self.press.turn(&plant.press_sense());
        plant.set_press(told.act);
        told.fault.is_none()
    }

    // Turns of the press, one after another. Whether it goes on.
    fn turns(&mut self, plant: &mut Plant, turns: u32) -> bool {
        for _ in 0..turns {
            if !self.turn(plant) {
                return false;
            }
        }
        true
    }

    // What is stored then, by the watch's survey.
    fn hand_out(mut self, stood: Team) -> CheckpointBytes {
        let mut team = stood;
        team.press = self.press.progress();
        Checkpoint::of(&self.watch.survey(), &team).to_bytes()
    }
}

/// Goes on from these bytes for a number of turns of the press, and gives what is stored after them. `None` if the
/// bytes are refused, there is no memory, or the press stops.
pub fn press_goes_on(
    alloc: Global,
    bytes: CheckpointBytes,
    plant: &mut Plant,
    turns: u32,
) -> Option<CheckpointBytes> {
    match resume_at(bytes) {
        Ok(cell) => match go_on_by(alloc, &cell, plant, turns) {
            Ok(stored) => stored,
            Err(_) => None,
        },
        Err(_) => None,
    }
}

// The press goes on where a cell does, on a line of its own.
fn wired_press<'a>(
    alloc: Global,
    cell: &ResumedCell,
    interlock: &'a Interlock,
    passes: Passes,
) -> WiredPress<'a>
    requires opening { interlock.now.opening ≡ cell.now.state }
    requires fresh { AreFresh interlock.now passes }
{
    let opening = cell.state();
    let press_line = PassLine::new(alloc, interlock, passes.press);
    WiredPress {
        press: Wired::new(cell.press(), &opening, press_line),
        watch: PassLine::new(alloc, interlock, passes.watch),
    }
}

fn go_on_by(
    alloc: Global,
    cell: &ResumedCell,
    plant: &mut Plant,
    turns: u32,
) -> Result<Option<CheckpointBytes>, MakeFault> {
    let (interlock, passes) = Interlock::new(alloc, cell.state(), 8)?;
    let mut press = wired_press(alloc, cell, &interlock, passes);
    let goes_on = press.turns(plant, turns);
    let stored = press.hand_out(cell.team());
    Ok(if goes_on { Some(stored) } else { None })
}
