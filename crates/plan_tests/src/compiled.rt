//! Compiled plans: each call that is done has its row, but for a plan in which a zone joins another. That rows answer
//! as the rules do is what the clauses of `step_word` say; of the example plans `check` says that they are complete.

use super::doubles::are_answered;
use plan_compiled::{Compiled, SLOTS_OF_ALL, slot};
use plan_rules::State;
use plan_types::{
    Answer, Call, MAX_ZONES, Plan, PlanPlace, PlanPose, PlanZone, Posture, Refusal, Tables, Way,
    examples,
};
use plan_word::pack;
use std::alloc::Global;

/// Thirty machines: ten host a zone each for another one, and have a pose for each posture; eleven have no zone. And a
/// hall with two doors, which one pose opens both inward: of it this isn't known.
const ROWS: &str = "\
0: ./plan check
=>
@11 [[machine]]
name = \"n#\"
@@10 [[machine]]
name = \"h#\"
poses = [
  { name = \"moving\", gives = { z# = \"moving\" } },
  { name = \"closed\", gives = { z# = \"closed\" }, after_moving = true },
  { name = \"inward\", gives = { z# = \"openin\" }, after_moving = true },
  { name = \"outward\", gives = { z# = \"openout\" }, after_moving = true },
]
@@9 [[machine]]
name = \"g#\"
@@9 [[zone]]
name = \"z#\"
host = \"h#\"
guest = \"g#\"
@[[zone]]
name = \"z10\"
host = \"h10\"
guest = \"h1\"
=>
30 machines: n1[..]
40 poses: moving[..]
rows: each call that is done has its row
--
0: ./plan check
=>
[[machine]]
name = \"hall\"
poses = [{ name = \"open\", gives = { east = \"openin\", west = \"openin\" } }]

[[machine]]
name = \"visitor\"

[[zone]]
name = \"east\"
host = \"hall\"
guest = \"visitor\"

[[zone]]
name = \"west\"
host = \"hall\"
guest = \"visitor\"
=>
[..]
rows: some calls that are done may have none, and are answered more slowly
";

#[test]
fn tells_whether_rows_are_complete(rt: HostRuntime) {
    are_answered(&rt, rt.alloc(), "", ROWS);
}

/// The press, compiled. `None` if memory runs out.
fn press(alloc: Global) -> Option<Compiled> {
    let plan = Plan::new(examples::press(alloc).ok()?).ok()?;
    Some(Compiled::new(plan))
}

/// Whether each call has a start, and that of a pose lies among the rows.
fn has_starts(compiled: &Compiled) -> bool {
    let starts = compiled.starts();
    match starts.get(slot(1, Call::SetPose(3))) {
        Some(first) => {
            starts.len() == SLOTS_OF_ALL && usize::from(*first) < compiled.rows().len()
        }
        None => false,
    }
}

/// The word of the start with a plate in the loader's hand.
fn start_of(compiled: &Compiled) -> u64 {
    let mut full = [false; 16];
    full[0] = true;
    pack(compiled.plan(), &compiled.layout(), &State::start(full, 0))
}

#[test]
fn a_press_claims_by_a_row(rt: HostRuntime) {
    let compiled = press(rt.alloc()).expect(&rt, "memory");
    assert!(rt; has_starts(&compiled));
    let (word, claim) = (start_of(&compiled), Call::Claim(0));
    assert!(rt; compiled.has_row(word, 1, claim));
    assert!(rt; compiled.step_word(word, 1, claim) == Some((Answer::Done, 0xA1)));
}

/// A pose of a press with two robots, by the postures of the loader's side and of the unloader's.
fn pose(after_moving: bool, loader: Posture, unloader: Posture) -> PlanPose {
    let mut gives = [None; MAX_ZONES];
    gives[0] = Some(loader);
    gives[1] = Some(unloader);
    PlanPose {
        machine: 1,
        after_moving,
        gives,
    }
}

/// A press, 1, with a loader, 0, and an unloader, 2, whose zones are of one space, compiled. `None` if memory runs out.
fn robots(alloc: Global) -> Option<Compiled> {
    let loader = PlanZone {
        host: 1,
        guest: 0,
        joins: false,
        inward: Some(Way { from: 0, to: 1 }),
        outward: None,
    };
    let unloader = PlanZone {
        host: 1,
        guest: 2,
        joins: true,
        inward: None,
        outward: Some(Way { from: 1, to: 2 }),
    };
    let poses = vec![in alloc;
        pose(true, Posture::OpenIn, Posture::Closed),
        pose(true, Posture::Closed, Posture::OpenOut),
        pose(true, Posture::Closed, Posture::Closed),
        pose(false, Posture::Moving, Posture::Moving),
    ]
    .ok()?;
    let places = vec![in alloc;
        PlanPlace::kept_by(0),
        PlanPlace::kept_by(1),
        PlanPlace::kept_by(2),
    ]
    .ok()?;
    let tables = Tables {
        machines: 3,
        zones: vec![in alloc; loader, unloader].ok()?,
        poses,
        places,
    };
    Some(Compiled::new(Plan::new(tables).ok()?))
}

#[test]
fn robots_are_answered_without_rows(rt: HostRuntime) {
    let compiled = robots(rt.alloc()).expect(&rt, "memory");
    assert!(rt; !compiled.is_complete());
    let (word, claim) = (start_of(&compiled), Call::Claim(1));
    assert!(rt; !compiled.has_row(word, 1, claim));
    // the press has the space by either zone, and the loader is refused
    assert!(rt; compiled.step_word(word, 1, claim) == Some((Answer::Done, 0x901)));
    let held = Answer::Refused(Refusal::Held(1));
    assert!(rt; compiled.step_word(0x901, 0, Call::Claim(0)) == Some((held, 0x901)));
    // the spare code of a word that is no state's: a guest in a closed zone
    assert!(rt; compiled.step_word(0x902, 0, Call::Claim(0)) == None);
}
