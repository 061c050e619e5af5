//! Explorations of literal plants on two words.
use plan_explorer::{
    Explored, PlantProgramFault, PlantPrograms, RoutedCall, RoutedEvent, explore_plant,
    take_plant_turns,
};
use plan_rules::State;
use plan_types::{Answer, Call, Event, Plan, PlanPose, PlanZone, Posture, Refusal, Tables};
use std::alloc::Global;
use std::test::Fail;

// A zone that two machines share, and which is open.
pub(crate) fn crossing(alloc: Global) -> Result<Plan, Fail> {
    let zone = PlanZone {
        host: 0,
        guest: 1,
        joins: false,
        inward: None,
        outward: None,
    };
    let mut gives = [None; 10];
    gives[0] = Some(Posture::OpenIn);
    let open = PlanPose {
        machine: 0,
        after_moving: false,
        gives,
    };
    let tables = Tables {
        machines: 2,
        zones: vec![in alloc; zone]?,
        poses: vec![in alloc; open]?,
        places: Vec::new(alloc),
    };
    Ok(Plan::new(tables)?)
}

// Claims the zone of one word and then that of another, and releases both.
pub(crate) fn through(alloc: Global, first: usize, second: usize) -> Result<Vec<RoutedCall>, Fail> {
    let calls = [
        (first, Call::Claim(0)),
        (second, Call::Claim(0)),
        (second, Call::Release(0)),
        (first, Call::Release(0)),
    ];
    let mut program = Vec::new(alloc);
    for (word, call) in calls {
        program.push(RoutedCall { word, call })?;
    }
    Ok(program)
}

// What an exploration finds of machine 0, which claims word 0 first, and machine 1, which claims this word first.
fn explore_two(alloc: Global, first: usize, second: usize, most: usize) -> Result<Explored, Fail> {
    let mut opening = State::start([false; 16], 7);
    opening.zones[0].posture = Posture::OpenIn;
    explored_from(alloc, opening, first, second, most)
}

// The same from an opening of both words.
fn explored_from(
    alloc: Global,
    opening: State,
    first: usize,
    second: usize,
    most: usize,
) -> Result<Explored, Fail> {
    let plan = crossing(alloc)?;
    let lists = vec![in alloc; through(alloc, 0, 1)?, through(alloc, first, second)?]?;
    let programs = PlantPrograms::new(alloc, lists, 2)?;
    let plans = [&plan, &plan];
    let openings = [opening, opening];
    Ok(explore_plant(alloc, &plans, &openings, &programs, most)?)
}

#[test]
fn crossing_machines_stand_still(rt: HostRuntime) -> Result<(), Fail> {
    match explore_two(rt.alloc(), 1, 0, 100)? {
        Explored::Standstill(turns) => assert_eq!(rt; turns.as_slice(), [0, 1].as_slice()),
        Explored::Free(_) | Explored::Unfinished(_) => assert!(rt; false),
    }
    Ok(())
}

#[test]
fn machines_in_one_order_come_to_seven_situations(rt: HostRuntime) -> Result<(), Fail> {
    match explore_two(rt.alloc(), 0, 1, 100)? {
        Explored::Free(situations) => assert_eq!(rt; situations, 7),
        Explored::Standstill(_) | Explored::Unfinished(_) => assert!(rt; false),
    }
    Ok(())
}

#[test]
fn limit_ends_an_exploration(rt: HostRuntime) -> Result<(), Fail> {
    match explore_two(rt.alloc(), 0, 1, 6)? {
        Explored::Unfinished(turns) => assert!(rt; turns <= 3),
        Explored::Free(_) | Explored::Standstill(_) => assert!(rt; false),
    }
    Ok(())
}

#[test]
fn steps_name_words_that_are_there(rt: HostRuntime) -> Result<(), Fail> {
    let lists = vec![in rt.alloc(); through(rt.alloc(), 0, 1)?, through(rt.alloc(), 0, 2)?]?;
    let strange = PlantProgramFault::NoSuchWord {
        machine: 1,
        step: 1,
    };
    match PlantPrograms::new(rt.alloc(), lists, 2) {
        Ok(_) => assert!(rt; false),
        Err(fault) => assert_eq!(rt; fault, strange),
    }
    Ok(())
}

#[test]
fn openings_that_no_word_tells_are_explored(rt: HostRuntime) -> Result<(), Fail> {
    let mut opening = State::start([true; 16], 7);
    opening.zones[0].posture = Posture::OpenIn;
    match explored_from(rt.alloc(), opening, 0, 1, 100)? {
        Explored::Free(situations) => assert_eq!(rt; situations, 7),
        Explored::Standstill(_) | Explored::Unfinished(_) => assert!(rt; false),
    }
    Ok(())
}

// What a machine asks of a word, and the answer.
fn claim_event(machine: u8, word: usize, answer: Answer) -> RoutedEvent {
    RoutedEvent {
        word,
        event: Event {
            machine,
            call: Call::Claim(0),
            answer,
        },
    }
}

#[test]
fn turns_into_a_standstill_are_told(rt: HostRuntime) -> Result<(), Fail> {
    let alloc = rt.alloc();
    let plan = crossing(alloc)?;
    let lists = vec![in alloc; through(alloc, 0, 1)?, through(alloc, 1, 0)?]?;
    let programs = PlantPrograms::new(alloc, lists, 2)?;
    let mut opening = State::start([false; 16], 7);
    opening.zones[0].posture = Posture::OpenIn;
    let plans = [&plan, &plan];
    let openings = [opening, opening];
    let turns = [0, 2, 1, 0];
    let walk = take_plant_turns(alloc, &plans, &openings, &programs, &turns)?;
    let first_waits = claim_event(0, 1, Answer::Refused(Refusal::Held(1)));
    let second_waits = claim_event(1, 0, Answer::Refused(Refusal::Held(0)));
    let asked = [
        claim_event(0, 0, Answer::Done),
        claim_event(1, 1, Answer::Done),
        first_waits,
    ];
    assert!(rt; walk.events.as_slice() == asked.as_slice());
    assert!(rt; walk.outlook.as_slice() == [first_waits, second_waits].as_slice());
    Ok(())
}
