//! Presses that share nothing, each with its loader: all situations together, and those of each press alone.

ghost use Rattle.std.specs.Prelude.{◌<◌, ◌≤◌, IfOk};
ghost use Rattle.plan_rules.specs.Sound.{IsSound};

use plan_explorer::{Explored, Programs, Witness, explore, explore_group, groups_of, seek_hazard};
use plan_liveness::{Liveness, explore_machines};
use plan_motors::{Motor, NO_NEED, ZoneNeed};
use plan_rules::State;
use plan_rules::laws::starts_are_sound;
use plan_types::{Call, Plan, PlanPlace, PlanPose, PlanZone, Posture, Tables, Way};
use std::alloc::Global;
use std::test::Fail;

/// A pose of a press.
fn pose_of(press: u8, after_moving: bool, posture: Posture) -> PlanPose
    requires { press < 10 }
{
    let mut gives = [None; 10];
    gives[usize::from(press)] = Some(posture);
    PlanPose {
        machine: 2 * press + 1,
        after_moving,
        gives,
    }
}

/// Press 0 is machine 1 with the loader 0, press 1 machine 3 with the loader 2, and so on.
fn tables(alloc: Global, presses: u8) -> Result<Tables, Fail>
    requires { presses ≤ 3 }
{
    let mut zones = Vec::new(alloc);
    let mut poses = Vec::new(alloc);
    let mut places = Vec::new(alloc);
    for press in 0..presses {
        let loader = 2 * press;
        zones.push(PlanZone {
            host: loader + 1,
            guest: loader,
            joins: false,
            inward: Some(Way {
                from: loader,
                to: loader + 1,
            }),
            outward: Some(Way {
                from: loader + 1,
                to: loader,
            }),
        })?;
        poses.push(pose_of(press, true, Posture::OpenIn))?;
        poses.push(pose_of(press, true, Posture::OpenOut))?;
        poses.push(pose_of(press, true, Posture::Closed))?;
        poses.push(pose_of(press, false, Posture::Moving))?;
        places.push(PlanPlace::kept_by(loader))?;
        places.push(PlanPlace::kept_by(loader + 1))?;
    }
    Ok(Tables {
        machines: 2 * presses,
        zones,
        poses,
        places,
    })
}

/// Each loader waits until its press hands the zone over to it.
fn programs_of(alloc: Global, presses: u8) -> Result<Programs, Fail>
    requires { presses ≤ 3 }
{
    let mut lists = Vec::new(alloc);
    for zone in 0..presses {
        let first = 4 * zone;
        lists.push(vec![in alloc; Call::Give(zone), Call::Take(zone), Call::Release(zone)]?)?;
        lists.push(vec![in alloc;
            Call::Claim(zone),
            Call::SetPose(first + 3),
            Call::SetPose(first),
            Call::Yield(zone),
            Call::Take(zone),
            Call::SetPose(first + 3),
            Call::SetPose(first + 2),
            Call::SetPose(first + 3),
            Call::SetPose(first + 1),
            Call::Give(zone),
        ]?)?;
    }
    match Programs::new(lists) {
        Ok(programs) => Ok(programs),
        Err(_) => Err(Fail::from("no programs")),
    }
}

fn situations(
    alloc: Global,
    plan: &Plan,
    programs: &Programs,
    opening: &State,
) -> Result<usize, Fail> {
    match explore(alloc, plan, opening, programs, usize::MAX)? {
        Explored::Free(situations) => Ok(situations),
        Explored::Standstill(_) => Err(Fail::from("a standstill")),
        Explored::Unfinished(_) => Err(Fail::from("no limit")),
    }
}

/// A number of presses: their plan, their programs, and an opening in which each loader has a plate.
fn plant(alloc: Global, presses: u8) -> Result<(Plan, Programs, State), Fail>
    requires { presses ≤ 3 }
    ensures { IfOk result (λ plant. IsSound plant.0 plant.2) }
{
    let Ok(plan) = Plan::new(tables(alloc, presses)?) else {
        return Err(Fail::from("no plan"));
    };
    let full = [
        true, false, true, false, true, false, false, false, false, false, false, false, false,
        false, false, false,
    ];
    let opening = State::start(full, 0);
    starts_are_sound(&plan, &opening);
    Ok((plan, programs_of(alloc, presses)?, opening))
}

/// How many situations a number of presses, all together, come to.
fn together(alloc: Global, presses: u8) -> Result<usize, Fail>
    requires { presses ≤ 3 }
{
    let (plan, programs, opening) = plant(alloc, presses)?;
    situations(alloc, &plan, &programs, &opening)
}

#[test]
fn presses_come_to_the_product_of_their_situations(rt: HostRuntime) -> Result<(), Fail> {
    let alloc = rt.alloc();
    assert!(rt; together(alloc, 1)? == 15);
    assert!(rt; together(alloc, 2)? == 225);
    assert!(rt; together(alloc, 3)? == 3375);
    Ok(())
}

#[test]
fn presses_are_explored_apart(rt: HostRuntime) -> Result<(), Fail> {
    let alloc = rt.alloc();
    let (plan, programs, opening) = plant(alloc, 3)?;
    let groups = groups_of(&plan);
    for press in 0..3 {
        let loader = 2 * usize::from(press);
        let group = 2 * press + 1;
        assert!(rt; groups[loader] == group && groups[loader + 1] == group);
        let Explored::Free(alone) = explore_group(
            alloc, &plan, &opening, &programs, &groups, group, 15,
        )?
        else {
            return Err(Fail::from("a standstill, or more situations"));
        };
        assert!(rt; alone == 15);
        let programs = programs.alone(alloc, &groups, group)?;
        let answers = explore_machines(alloc, &plan, &opening, &programs)?;
        assert!(rt; is_within(answers.get(loader), 7) && is_within(answers.get(loader + 1), 3));
    }
    Ok(())
}

/// Whether a machine goes on within so often k turns.
fn is_within(answer: Option<&Liveness>, plain: usize) -> bool {
    match answer {
        Some(Liveness::Always(bound)) => bound.plain == plain && bound.helped == 0,
        _ => false,
    }
}

/// A motor that is driven only while its machine holds a zone in a posture.
fn motor_of(machine: u8, zone: u8, posture: Posture) -> Motor
    requires { zone < 10 }
{
    let mut zones = [NO_NEED; 10];
    zones[usize::from(zone)] = ZoneNeed {
        holds: true,
        posture: Some(posture),
    };
    Motor {
        machine,
        zones,
        places: [None; 16],
    }
}

/// To how many situations a search for a hazard comes, if nothing leads there.
fn situations_to_hazard(
    alloc: Global,
    first: &Motor,
    second: &Motor,
) -> Result<Option<usize>, Fail> {
    let (plan, programs, opening) = plant(alloc, 3)?;
    match seek_hazard(alloc, &plan, &opening, &programs, first, second, 225)? {
        Witness::Never(situations) => Ok(Some(situations)),
        Witness::Turns(_) => Ok(None),
        Witness::Unfinished(_) => Err(Fail::from("more situations")),
    }
}

#[test]
fn hazards_are_sought_apart(rt: HostRuntime) -> Result<(), Fail> {
    let alloc = rt.alloc();
    let ram = motor_of(1, 0, Posture::Moving);
    let arm = motor_of(0, 0, Posture::OpenIn);
    let other_ram = motor_of(3, 1, Posture::Moving);
    let other_arm = motor_of(2, 1, Posture::Closed);
    assert!(rt; situations_to_hazard(alloc, &ram, &arm)? == Some(15));
    assert!(rt; situations_to_hazard(alloc, &ram, &other_arm)? == Some(225));
    assert!(rt; situations_to_hazard(alloc, &ram, &other_ram)? == None);
    Ok(())
}
