//! A chain of eight machines that hand a plate on, each after a long program, beside twenty-two that only wait, or ask
//! nothing. At most one machine can go on, so the turns and the situations are counted by hand.

use plan_explorer::{Explored, Programs, explore, take_turns};
use plan_liveness::{Liveness, Progress, explore_machines, explore_plates};
use plan_rules::State;
use plan_types::{Call, Plan, PlanPlace, PlanPose, PlanZone, Posture, Tables, Way};
use std::alloc::{AllocError, Global};

/// How many machines hand the plate on. The zone with the number of each leads to the next one.
const LINKS: u8 = 7;

/// How many machines there are.
const MACHINES: u8 = 30;

/// A machine that only waits, or has a pose of its own: it is the last.
const LAST: u8 = 29;

/// A pose of a machine, which opens its zone outward if it is a link.
fn pose_of(machine: u8) -> PlanPose {
    let mut gives = [None; 10];
    if machine < LINKS {
        gives[usize::from(machine)] = Some(Posture::OpenOut);
    }
    PlanPose {
        machine,
        after_moving: false,
        gives,
    }
}

/// Adds each machine's zone, pose and place, as long as there are places. The poses are those of the links, and one of
/// the last machine.
fn push_tables(
    zones: &mut Vec<PlanZone>,
    poses: &mut Vec<PlanPose>,
    places: &mut Vec<PlanPlace>,
) -> Result<(), AllocError> {
    for link in 0..LINKS {
        zones.push(PlanZone {
            host: link,
            guest: link + 1,
            joins: false,
            inward: None,
            outward: Some(Way {
                from: link,
                to: link + 1,
            }),
        })?;
        poses.push(pose_of(link))?;
        places.push(PlanPlace::kept_by(link))?;
    }
    poses.push(pose_of(LAST))?;
    places.push(PlanPlace::kept_by(LINKS))?;
    Ok(())
}

/// Adds the program of a link, of this many steps. It takes the plate, claims its zone, poses again and again, and
/// gives the plate.
fn push_link(calls: &mut Vec<Call>, link: u8, steps: usize) -> Result<(), AllocError> {
    if link > 0 {
        calls.push(Call::Take(link - 1))?;
    }
    calls.push(Call::Claim(link))?;
    for _ in calls.len() + 1..steps {
        calls.push(Call::SetPose(link))?;
    }
    calls.push(Call::Give(link))?;
    Ok(())
}

/// Adds a program.
fn push_list(lists: &mut Vec<Vec<Call>>, alloc: Global, calls: &[Call]) -> Result<(), AllocError> {
    lists.push(calls.to_vec(alloc)?)?;
    Ok(())
}

/// Adds the programs, of this many steps for each link. The machine after the links takes the plate, and waits for
/// another one; those after it have the next one of these programs, and the last machine has the last.
fn push_programs(
    lists: &mut Vec<Vec<Call>>,
    alloc: Global,
    steps: usize,
    others: &[Call],
    last: &[Call],
) -> Result<(), AllocError> {
    for link in 0..LINKS {
        lists.push(link_program(alloc, link, steps)?)?;
    }
    push_list(lists, alloc, &[Call::Take(6), Call::Take(6)])?;
    for _ in LINKS + 1..LAST {
        push_list(lists, alloc, others)?;
    }
    push_list(lists, alloc, last)
}

/// The program of a link.
fn link_program(alloc: Global, link: u8, steps: usize) -> Result<Vec<Call>, AllocError> {
    let mut calls = Vec::new(alloc);
    match push_link(&mut calls, link, steps) {
        Ok(()) => Ok(calls),
        Err(error) => Err(error),
    }
}

/// Those programs, if there is memory.
fn programs(alloc: Global, steps: usize, others: &[Call], last: &[Call]) -> Option<Programs> {
    let mut lists = Vec::new(alloc);
    let is_made = push_programs(&mut lists, alloc, steps, others, last).is_ok();
    match Programs::new(lists) {
        Ok(programs) if is_made => Some(programs),
        _ => None,
    }
}

/// The plan, if there is memory.
fn plan(alloc: Global) -> Option<Plan> {
    let mut zones = Vec::new(alloc);
    let mut poses = Vec::new(alloc);
    let mut places = Vec::new(alloc);
    let is_made = push_tables(&mut zones, &mut poses, &mut places).is_ok();
    let tables = Tables {
        machines: MACHINES,
        zones,
        poses,
        places,
    };
    match Plan::new(tables) {
        Ok(plan) if is_made => Some(plan),
        _ => None,
    }
}

/// The opening with a plate in the first place.
fn opening() -> State {
    let mut places = [false; 16];
    places[0] = true;
    State::start(places, 0)
}

/// The same with a plate past the plan's places, of which no word of the plan can tell.
fn opening_past_the_plan() -> State {
    let mut places = [false; 16];
    places[0] = true;
    places[15] = true;
    State::start(places, 0)
}

/// Adds the turns that lead to the end: all steps of a link, then those of the next, and one of the machine after the
/// last.
fn push_way(turns: &mut Vec<u8>, steps: usize) -> Result<(), AllocError> {
    for link in 0..LINKS {
        for _ in 0..steps {
            turns.push(link)?;
        }
    }
    turns.push(LINKS)?;
    Ok(())
}

/// Whether these turns are the fewest that lead to the end, and they are taken.
fn are_fewest(alloc: Global, plan: &Plan, programs: &Programs, way: &[u8]) -> bool {
    let opening = opening();
    let is_found = match explore(alloc, plan, &opening, programs, usize::MAX) {
        Ok(Explored::Standstill(turns)) => turns.as_slice() == way,
        _ => false,
    };
    match take_turns(alloc, plan, &opening, programs, way) {
        Ok(walk) => {
            is_found
                && walk.events.len() == 7 * 255 + 1
                && walk.outlook.len() == usize::from(MACHINES)
        }
        Err(_) => false,
    }
}

// All thirty machines wait at the end: the fewest turns to it are found, and taken.
#[test]
fn thirty_machines_stand_still_after_many_turns(rt: HostRuntime) {
    let plan = plan(rt.alloc()).expect(&rt, "a plan");
    // a zone that isn't theirs
    let waits = [Call::Release(0)];
    let programs = programs(rt.alloc(), 255, &waits, &waits).expect(&rt, "programs");
    let mut way = Vec::new(rt.alloc());
    let is_made = push_way(&mut way, 255).is_ok();
    assert!(rt; is_made && are_fewest(rt.alloc(), &plan, &programs, way.as_slice()));
}

/// Whether these are the answers for all machines. Only the last goes on for ever. Those of the chain starve, and so do
/// all others, unless they ask nothing.
fn are_known(answers: &[Liveness], all_ask: bool) -> bool {
    for (machine, answer) in answers.iter().enumerate() {
        let is_last = machine == usize::from(LAST);
        let is_of_chain = machine <= usize::from(LINKS);
        let is_known = match answer {
            Liveness::Always(_) => is_last,
            Liveness::Starves(_) => !is_last && (is_of_chain || all_ask),
            Liveness::Silent => !is_last && !is_of_chain && !all_ask,
            _ => false,
        };
        if !is_known {
            return false;
        }
    }
    answers.len() == usize::from(MACHINES)
}

/// Whether the last machine alone goes on for ever, and plates don't.
fn goes_on_alone(alloc: Global, plan: &Plan, programs: &Programs, all_ask: bool) -> bool {
    let opening = opening();
    let are_right = match explore_machines(alloc, plan, &opening, programs) {
        Ok(answers) => are_known(answers.as_slice(), all_ask),
        Err(_) => false,
    };
    match explore_plates(alloc, plan, &opening, programs, None, &[]) {
        Ok(Progress::Starves(_)) => are_right,
        _ => false,
    }
}

/// How many situations there are, if none of them is a standstill.
fn situations_from(
    alloc: Global,
    plan: &Plan,
    opening: &State,
    programs: &Programs,
) -> Option<usize> {
    match explore(alloc, plan, opening, programs, usize::MAX) {
        Ok(Explored::Free(situations)) => Some(situations),
        _ => None,
    }
}

// The last machine goes on for ever, at each moment and at the end. No other machine does, and the plate rests there.
#[test]
fn one_of_thirty_machines_goes_on(rt: HostRuntime) {
    let plan = plan(rt.alloc()).expect(&rt, "a plan");
    let last = [Call::SetPose(LINKS), Call::SetPose(LINKS)];
    let programs = programs(rt.alloc(), 4, &[], &last).expect(&rt, "programs");
    // before the turns of each step and at the end, with the last machine at either of its steps
    let wanted = 2 * (7 * 4 + 2);
    assert!(rt; situations_from(rt.alloc(), &plan, &opening(), &programs) == Some(wanted));
    assert!(rt; goes_on_alone(rt.alloc(), &plan, &programs, false));
}

// Who asks in vain starves: all machines but the last. A link without poses claims its zone, and gives in vain.
#[test]
fn each_of_29_machines_starves(rt: HostRuntime) {
    let plan = plan(rt.alloc()).expect(&rt, "a plan");
    // a zone that isn't theirs
    let waits = [Call::Release(0)];
    let last = [Call::SetPose(LINKS), Call::SetPose(LINKS)];
    let programs = programs(rt.alloc(), 1, &waits, &last).expect(&rt, "programs");
    // before the claim and after it, with the last machine at either of its steps
    assert!(rt; situations_from(rt.alloc(), &plan, &opening(), &programs) == Some(4));
    assert!(rt; goes_on_alone(rt.alloc(), &plan, &programs, true));
}

// An opening that no word tells is explored alike.
#[test]
fn a_plate_past_the_plan_changes_nothing(rt: HostRuntime) {
    let plan = plan(rt.alloc()).expect(&rt, "a plan");
    let last = [Call::SetPose(LINKS), Call::SetPose(LINKS)];
    let programs = programs(rt.alloc(), 9, &[], &last).expect(&rt, "programs");
    let told = situations_from(rt.alloc(), &plan, &opening(), &programs);
    let untold = situations_from(rt.alloc(), &plan, &opening_past_the_plan(), &programs);
    assert!(rt; told.is_some() && told == untold);
}
