//! Six machines with sensors and actuators of your own, each in a thread, all at one pace, over one
//! interlock after another. A watch looks at each, and stops the cell for a round. Prints how each machine
//! ended, how many rounds an audit accepted, how often the crane gave a plate back to the feed belt,
//! and how often the watch looked and saw the cell stopped.
#![tactic(auto)]

mod axis;
mod devices;
mod fault;
mod laws;
mod lookout;
mod rounds;
mod six;

use cell_rules::State;
use cell_sensors::{Points, PointsFault, position_on_line};
use fault::SixFault;
use lookout::Lookout;
use rounds::Audits;
use six::{AxisPoints, RoundPlan, SixStatuses, drive};
use std::{env, io};

// The full places at the start: a plate is at the feed belt's entry.
const PLACES: [bool; 10] = [
    true, false, false, false, false, false, false, false, false, false,
];

// In these turns the plate gets round once, and not twice, in whichever order the threads go on. The
// mark is low, so that stamps begin again.
const PLAN: RoundPlan = RoundPlan {
    rounds: 12,
    turns: 100,
    mark: 10,
};

// With a word after the program's name: until some million calls are done. With two numbers: this many
// rounds, of this many turns each.
const LONG: RoundPlan = RoundPlan {
    rounds: 400,
    turns: 100_000,
    mark: 300_000,
};

fn main(rt: HostRuntime) -> Result<(), SixFault> {
    let alloc = rt.alloc();
    let opening = State::start(PLACES, 0)?;
    let points = axis_points()?;
    let (plan, is_long) = asked_plan(&rt)?;
    let gauges = (
        move |raw: u16| position_on_line(&points.arm, raw),
        move |raw: u16| position_on_line(&points.arm, raw),
        move |raw: u16| position_on_line(&points.rotation, raw),
        move |raw: u16| position_on_line(&points.turn, raw),
        move |raw: u16| position_on_line(&points.arm, raw),
    );
    let mut audits = Audits::new(alloc);
    let (six, watch) = drive(&rt, alloc, opening, gauges, points, plan, &mut audits)?;
    tell(&rt, &six, &watch, &audits, is_long)?;
    Ok(())
}

// The points of the potentiometers.
fn axis_points() -> Result<AxisPoints, PointsFault> {
    Ok(AxisPoints {
        arm: Points::new(0, 1000, 0, 1000, 5)?,
        rotation: Points::new(0, 2000, 0, 2000, 5)?,
        turn: Points::new(0, 500, 0, 500, 5)?,
    })
}

// Prints how the machines ended, and what the audits and the watch counted.
fn tell(
    rt: &HostRuntime,
    six: &SixStatuses,
    watch: &Lookout,
    audits: &Audits,
    is_long: bool,
) -> io::Result<()> {
    tell_ends(rt, six)?;
    println!(rt; "audited {}\nrounds {}", audits.rounds, audits.plates)?;
    println!(rt; "looks {}\nstops {}", watch.looks, watch.stops)?;
    if is_long {
        println!(rt; "done {}\nrenewed {}", audits.done, audits.renewed)?;
    }
    Ok(())
}

// Prints how each machine ended.
fn tell_ends(rt: &HostRuntime, six: &SixStatuses) -> io::Result<()> {
    let ends = [
        ("feed", six.feed),
        ("table", six.table),
        ("robot", six.robot),
        ("press", six.press),
        ("deposit", six.deposit),
        ("crane", six.crane),
    ];
    for (name, status) in &ends {
        println!(rt; "{name} {status:?}")?;
    }
    Ok(())
}

// The plan that the words after the program's name ask for, and whether there are any.
fn asked_plan(rt: &HostRuntime) -> io::Result<(RoundPlan, bool)> {
    let mut words = env::args(rt)?;
    let _name = words.next();
    let rounds = words.next();
    let is_long = rounds.is_some();
    Ok((plan_of(rounds, words.next()), is_long))
}

// The plan that two words ask for, or one, or none.
fn plan_of(rounds: Option<String>, turns: Option<String>) -> RoundPlan {
    match (rounds, turns) {
        (None, _) => PLAN,
        (Some(rounds), Some(turns)) => plan_by(rounds.as_str(), turns.as_str()).unwrap_or(LONG),
        (Some(_), None) => LONG,
    }
}

// The plan by two numbers.
fn plan_by(rounds: &str, turns: &str) -> Option<RoundPlan> {
    Some(RoundPlan {
        rounds: rounds.parse::<u32>().ok()?,
        turns: turns.parse::<u32>().ok()?,
        mark: LONG.mark,
    })
}
