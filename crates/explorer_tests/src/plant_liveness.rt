//! Which machines of literal plants on two words go on for ever.
use crate::plants::{crossing, through};
use plan_explorer::{PlantPrograms, RoutedCall};
use plan_liveness::{Liveness, explore_plant_machines};
use plan_rules::State;
use plan_types::{Call, Plan, PlanPose, PlanZone, Posture, Tables};
use std::alloc::Global;
use std::test::Fail;

// A state in which the first zone is open, with plates at all places or at none.
fn open_state(is_full: bool) -> State {
    let mut opening = State::start([is_full; 16], 7);
    opening.zones[0].posture = Posture::OpenIn;
    opening
}

// A program of calls on words.
fn program(alloc: Global, calls: &[(usize, Call)]) -> Result<Vec<RoutedCall>, Fail> {
    let mut program = Vec::new(alloc);
    for at in calls {
        let (word, call) = *at;
        program.push(RoutedCall { word, call })?;
    }
    Ok(program)
}

// Claims the zone of a word and releases it.
fn round(alloc: Global, word: usize, zone: u8) -> Result<Vec<RoutedCall>, Fail> {
    program(
        alloc,
        &[(word, Call::Claim(zone)), (word, Call::Release(zone))],
    )
}

// What is answered of each machine on two words.
fn explore_two(
    alloc: Global,
    first: (&Plan, State),
    second: (&Plan, State),
    lists: Vec<Vec<RoutedCall>>,
) -> Result<Vec<Liveness>, Fail> {
    let programs = PlantPrograms::new(alloc, lists, 2)?;
    let plans = [first.0, second.0];
    let openings = [first.1, second.1];
    Ok(explore_plant_machines(alloc, &plans, &openings, &programs)?)
}

// The kind of an answer, and of whom it speaks.
fn kind_of(answer: &Liveness) -> (&'static str, u8) {
    match answer {
        Liveness::Silent => ("silent", 0),
        Liveness::Always(_) => ("always", 0),
        Liveness::IfOne { strong, .. } => ("if one", *strong),
        Liveness::IfAll { .. } => ("if all", 0),
        Liveness::IfTwo { .. } => ("if two", 0),
        Liveness::Starves(_) => ("starves", 0),
        Liveness::Unknown(_) => ("unknown", 0),
    }
}

// What is answered of machines at two crossings, each on a word of its own.
fn at_crossings(
    alloc: Global,
    is_full: bool,
    lists: Vec<Vec<RoutedCall>>,
) -> Result<Vec<Liveness>, Fail> {
    let plan = crossing(alloc)?;
    let opening = open_state(is_full);
    explore_two(alloc, (&plan, opening), (&plan, opening), lists)
}

// The kinds of these answers.
fn kinds(
    alloc: Global,
    is_full: bool,
    lists: Vec<Vec<RoutedCall>>,
) -> Result<Vec<(&'static str, u8)>, Fail> {
    let answers = at_crossings(alloc, is_full, lists)?;
    let mut kinds = Vec::new(alloc);
    for answer in answers.iter() {
        kinds.push(kind_of(answer))?;
    }
    Ok(kinds)
}

#[test]
fn crossing_machines_starve(rt: HostRuntime) -> Result<(), Fail> {
    let alloc = rt.alloc();
    let lists = vec![in alloc; through(alloc, 0, 1)?, through(alloc, 1, 0)?]?;
    let answers = at_crossings(alloc, false, lists)?;
    assert_eq!(rt; answers.len(), 2);
    for answer in answers.iter() {
        match answer {
            Liveness::Starves(order) => {
                assert_eq!(rt; order.stem.as_slice(), [0, 1].as_slice());
                assert_eq!(rt; order.cycle.len(), 1);
            }
            _ => assert!(rt; false),
        }
    }
    Ok(())
}

#[test]
fn machines_in_one_order_need_no_other(rt: HostRuntime) -> Result<(), Fail> {
    let alloc = rt.alloc();
    for is_full in [false, true] {
        let lists = vec![in alloc;
            through(alloc, 0, 1)?,
            through(alloc, 0, 1)?,
            Vec::new(alloc),
        ]?;
        let found = kinds(alloc, is_full, lists)?;
        assert_eq!(rt;
            found.as_slice(),
            [("if one", 0), ("if one", 1), ("silent", 0)].as_slice()
        );
    }
    Ok(())
}

#[test]
fn machines_on_words_of_their_own_go_on(rt: HostRuntime) -> Result<(), Fail> {
    let alloc = rt.alloc();
    let waits = program(alloc, &[(1, Call::Inquire(0))])?;
    let lists = vec![in alloc; round(alloc, 0, 0)?, round(alloc, 1, 0)?, waits]?;
    let found = kinds(alloc, false, lists)?;
    assert_eq!(rt;
        found.as_slice(),
        [("always", 0), ("always", 0), ("unknown", 0)].as_slice()
    );
    Ok(())
}

// A zone of two machines.
fn zone_of(host: u8, guest: u8) -> PlanZone {
    PlanZone {
        host,
        guest,
        joins: false,
        inward: None,
        outward: None,
    }
}

// Two zones, and the poses by which their hosts open them.
fn two_crossings(alloc: Global) -> Result<Plan, Fail> {
    let mut first = [None; 10];
    first[0] = Some(Posture::OpenIn);
    let mut second = [None; 10];
    second[1] = Some(Posture::OpenIn);
    let poses = [
        PlanPose {
            machine: 1,
            after_moving: false,
            gives: first,
        },
        PlanPose {
            machine: 0,
            after_moving: false,
            gives: second,
        },
    ];
    let tables = Tables {
        machines: 4,
        zones: vec![in alloc; zone_of(1, 2), zone_of(0, 3)]?,
        poses: poses.to_vec(alloc)?,
        places: Vec::new(alloc),
    };
    Ok(Plan::new(tables)?)
}

// Machine 0 waits until machine 1 hands it the zone of word 0, which comes to that once it has passed machine 2 on
// word 1; then it passes machine 3 there.
#[test]
fn two_machines_may_have_to_be_strong(rt: HostRuntime) -> Result<(), Fail> {
    let alloc = rt.alloc();
    let waits = [
        (0, Call::Inquire(0)),
        (0, Call::Yield(0)),
        (1, Call::Claim(1)),
        (1, Call::Release(1)),
    ];
    let hands = [
        (1, Call::Claim(0)),
        (1, Call::Release(0)),
        (0, Call::Claim(0)),
        (0, Call::Yield(0)),
        (0, Call::Inquire(0)),
        (0, Call::Release(0)),
    ];
    let lists = vec![in alloc;
        program(alloc, &waits)?,
        program(alloc, &hands)?,
        round(alloc, 1, 0)?,
        round(alloc, 1, 1)?,
    ]?;
    let (first, second) = (crossing(alloc)?, two_crossings(alloc)?);
    let mut opening = open_state(false);
    opening.zones[1].posture = Posture::OpenIn;
    let answers = explore_two(
        alloc,
        (&first, open_state(false)),
        (&second, opening),
        lists,
    )?;
    match answers.first() {
        Some(Liveness::IfAll { .. }) => {}
        _ => assert!(rt; false),
    }
    Ok(())
}
