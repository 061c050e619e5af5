//! A watch that looks at the interlock once in each round, stops the cell in one round, and resumes it
//! in the next one.
ghost use Rattle.cell_interlock.specs.Seen.{IsSamePass};

use cell_interlock::{Interlock, Pass, PassLine};
use cell_rules::{Line, Survey};
use cell_threads::{Watching, WorkerResult};
use cell_types::{Answer, Call, Reply};
use std::alloc::Global;

/// Looks once in each round.
#[derive(Drop)]
pub struct Lookout {
    /// How often it looked.
    pub looks: u32,
    /// How often it saw the cell stopped.
    pub stops: u32,
    // The round in which it stops the cell.
    stops_in: u32,
}

impl Lookout {
    /// A watch that will stop the cell in this round, from 0.
    pub fn new(stops_in: u32) -> Lookout {
        Lookout {
            looks: 0,
            stops: 0,
            stops_in,
        }
    }
}

impl Watching for Lookout {
    fn watch(self, alloc: Global, interlock: &Interlock, pass: Pass) -> WorkerResult<Lookout> {
        let Lookout {
            looks,
            stops,
            stops_in,
        } = self;
        let mut line = PassLine::new(alloc, interlock, pass);
        let is_stopped = look_in_round(&mut line, looks == stops_in);
        let (pass, journal) = line.into_parts();
        WorkerResult {
            pass,
            journal,
            output: Lookout {
                looks: looks.saturating_add(1),
                stops: stops.saturating_add(u32::from(is_stopped)),
                stops_in,
            },
        }
    }
}

// Looks whether the cell is stopped. In one round it stops it before that, in each other one it resumes
// it afterwards.
fn look_in_round(line: &mut PassLine<'_>, stops_now: bool) -> bool
    ensures { IsSamePass line.old.pass line.new.pass }
{
    if stops_now {
        stop_and_look(line)
    } else {
        look_and_resume(line)
    }
}

// Stops the cell, and looks.
fn stop_and_look(line: &mut PassLine<'_>) -> bool
    ensures { IsSamePass line.old.pass line.new.pass }
{
    let _ = is_done(line, Call::Stop);
    look(line)
}

// Looks, and resumes the cell if it is stopped.
fn look_and_resume(line: &mut PassLine<'_>) -> bool
    ensures { IsSamePass line.old.pass line.new.pass }
{
    let is_stopped = look(line);
    resume_if(line, is_stopped);
    is_stopped
}

// Resumes the cell if it is stopped.
fn resume_if(line: &mut PassLine<'_>, is_stopped: bool)
    ensures { IsSamePass line.old.pass line.new.pass }
{
    if is_stopped {
        let _ = is_done(line, Call::Resume);
    }
}

// Whether the cell is stopped.
fn look(line: &mut PassLine<'_>) -> bool
    ensures { IsSamePass line.old.pass line.new.pass }
{
    line.survey().stopped()
}

// Makes a call, and says whether it is done.
fn is_done(line: &mut PassLine<'_>, call: Call) -> bool
    ensures { IsSamePass line.old.pass line.new.pass }
{
    matches!(line.ask(call), Ok(Reply::Settled(Answer::Done, _)))
}
