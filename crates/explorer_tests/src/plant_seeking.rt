//! Searches for standstills of literal plants, in which uncontended turns are taken alone.
ghost use Rattle.std.specs.Prelude.{◌<◌, ◌≤◌};

use crate::plants::{crossing, through};
use plan_explorer::{Explored, PlantPrograms, RoutedCall, explore_plant, seek_plant_standstill};
use plan_rules::State;
use plan_types::{Call, Plan, PlanPose, PlanZone, Posture, Tables};
use std::alloc::Global;
use std::test::Fail;

/// How many units stand on each of the two words of a transfer line.
const UNITS: u8 = 5;

/// Five units of a transfer line on one word, which begin with this machine. Each hosts two stations, and opens both by
/// its pose. Machine 0, the bar, is the guest of all.
fn units(alloc: Global, first: u8) -> Result<Plan, Fail>
    requires { first ≤ 6 }
{
    let mut zones = Vec::new(alloc);
    let mut poses = Vec::new(alloc);
    for unit in 0..UNITS {
        let station = PlanZone {
            host: first + unit,
            guest: 0,
            joins: false,
            inward: None,
            outward: None,
        };
        zones.push(station)?;
        zones.push(station)?;
        let mut gives = [None; 10];
        gives[usize::from(2 * unit)] = Some(Posture::OpenIn);
        gives[usize::from(2 * unit + 1)] = Some(Posture::OpenIn);
        poses.push(PlanPose {
            machine: first + unit,
            after_moving: false,
            gives,
        })?;
    }
    let tables = Tables {
        machines: 2 * UNITS + 1,
        zones,
        poses,
        places: Vec::new(alloc),
    };
    Ok(Plan::new(tables)?)
}

/// The bar waits for all stations, and releases them.
fn bar(alloc: Global) -> Result<Vec<RoutedCall>, Fail> {
    let mut program = Vec::new(alloc);
    for word in 0..2usize {
        for station in 0..2 * UNITS {
            let call = Call::Inquire(station);
            program.push(RoutedCall { word, call })?;
        }
    }
    for word in 0..2usize {
        for station in 0..2 * UNITS {
            let call = Call::Release(station);
            program.push(RoutedCall { word, call })?;
        }
    }
    Ok(program)
}

/// A unit claims its two stations, opens them, and yields them to the bar, or doesn't.
fn unit(alloc: Global, word: usize, unit: u8, yields: bool) -> Result<Vec<RoutedCall>, Fail>
    requires { unit < 5 }
{
    let left = 2 * unit;
    let right = left + 1;
    let mut program = Vec::new(alloc);
    for call in [Call::Claim(left), Call::Claim(right), Call::SetPose(unit)] {
        program.push(RoutedCall { word, call })?;
    }
    if yields {
        for call in [Call::Yield(left), Call::Yield(right)] {
            program.push(RoutedCall { word, call })?;
        }
    }
    Ok(program)
}

/// What a search finds of a transfer line of ten units, within this number of situations.
fn sought_in_line(alloc: Global, yields: bool, most: usize) -> Result<Explored, Fail> {
    let first = units(alloc, 1)?;
    let second = units(alloc, 1 + UNITS)?;
    let mut lists = vec![in alloc; bar(alloc)?]?;
    for word in 0..2usize {
        for number in 0..UNITS {
            let is_last = word == 1 && number == UNITS - 1;
            lists.push(unit(alloc, word, number, yields || !is_last)?)?;
        }
    }
    let programs = PlantPrograms::new(alloc, lists, 2)?;
    let plans = [&first, &second];
    let start = State::start([false; 16], 0);
    let openings = [start, start];
    Ok(seek_plant_standstill(alloc, &plans, &openings, &programs, most)?)
}

// Before the bar has had a turn each of ten units comes to six situations: all together to 60,466,176.
#[test]
fn transfer_line_goes_on(rt: HostRuntime) -> Result<(), Fail> {
    let found = sought_in_line(rt.alloc(), true, 156)?;
    assert!(rt; matches!(found, Explored::Free(156)));
    let found = sought_in_line(rt.alloc(), true, 155)?;
    assert!(rt; matches!(found, Explored::Unfinished(_)));
    Ok(())
}

// The last unit claims its stations again, which it has: ten units and the bar have come as far as they can, and no
// fewer turns lead there.
#[test]
fn transfer_line_stands_still(rt: HostRuntime) -> Result<(), Fail> {
    match sought_in_line(rt.alloc(), false, 1000)? {
        Explored::Standstill(turns) => assert_eq!(rt; turns.len(), 9 * 5 + 3 + 18),
        Explored::Free(_) | Explored::Unfinished(_) => assert!(rt; false),
    }
    Ok(())
}

/// What is found of two machines that cross two zones, by a search of all orders of turns, and by one of few.
fn both_answers(alloc: Global, first: usize, second: usize) -> Result<(Explored, Explored), Fail> {
    let mut opening = State::start([false; 16], 7);
    opening.zones[0].posture = Posture::OpenIn;
    let plan = crossing(alloc)?;
    let lists = vec![in alloc; through(alloc, 0, 1)?, through(alloc, first, second)?]?;
    let programs = PlantPrograms::new(alloc, lists, 2)?;
    let plans = [&plan, &plan];
    let openings = [opening, opening];
    let all = explore_plant(alloc, &plans, &openings, &programs, 100)?;
    let few = seek_plant_standstill(alloc, &plans, &openings, &programs, 100)?;
    Ok((all, few))
}

/// How many turns lead to the standstill that was found, if one was.
fn turns_in(found: &Explored) -> Option<usize> {
    match found {
        Explored::Standstill(turns) => Some(turns.len()),
        _ => None,
    }
}

/// How many situations were looked at, if nothing stands still.
fn situations_in(found: &Explored) -> Option<usize> {
    match found {
        Explored::Free(situations) => Some(*situations),
        _ => None,
    }
}

#[test]
fn contended_turns_are_taken_in_each_order(rt: HostRuntime) -> Result<(), Fail> {
    let (all, few) = both_answers(rt.alloc(), 1, 0)?;
    assert!(rt; turns_in(&few).is_some());
    assert_eq!(rt; turns_in(&few), turns_in(&all));
    let (all, few) = both_answers(rt.alloc(), 0, 1)?;
    assert!(rt; situations_in(&few).is_some());
    assert!(rt; situations_in(&few) <= situations_in(&all));
    Ok(())
}
