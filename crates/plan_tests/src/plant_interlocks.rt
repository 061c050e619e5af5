//! A plant on two words: a loader at a press, and at a shelf. What the machines do in threads, each by one pass for
//! both words, is a legal history of each word; a stop bars on both; a motor needs both.
ghost use Rattle.std.specs.Prelude.{All};
ghost use Rattle.plan_interlock.specs.Plant.{IsOfPlant};

use plan_interlock::examples::{press_and_shelf, shelf, word_of};
use plan_interlock::{PlantFault, PlantInterlock, PlantPass, WordReplies};
use plan_motors::{Motor, MotorMask, NO_NEED, ZoneNeed};
use plan_rules::State;
use plan_types::{Answer, Call, Plan, Refusal, Tables, examples};
use plan_workers::{PlanAuditFault, PlanEntry, audit};
use std::alloc::{AllocError, Global};
use std::thread;
use std::thread::Threads;
use word_interlock::Reply;

/// What a machine noted of a call: on which word it was, and what was answered.
#[derive(Clone, Copy)]
struct Note {
    word: usize,
    entry: PlanEntry,
}

/// Lets a machine make some rounds of calls on each word, in turn, and notes what is answered.
fn notes_of(
    alloc: Global,
    interlock: &PlantInterlock,
    mut pass: PlantPass,
    rounds: u32,
) -> Result<Vec<Note>, AllocError>
    requires of_plant { IsOfPlant interlock.now pass }
{
    let mut notes = Vec::new(alloc);
    for round in 0..rounds {
        let call = match round % 3 {
            0 => Call::Claim(0),
            1 => Call::Inquire(0),
            _ => Call::Release(0),
        };
        for word in 0..interlock.words() {
            if let Reply::Settled(answer, stamp) = interlock.ask(&mut pass, word, call) {
                let entry = PlanEntry {
                    call,
                    answer,
                    stamp,
                };
                notes.push(Note { word, entry })?;
            }
        }
    }
    Ok(notes)
}

/// The notes of several machines, each in a thread of its own.
fn notes_in_threads<R: Threads + Sync>(
    rt: &R,
    alloc: Global,
    interlock: &PlantInterlock,
    passes: Vec<PlantPass>,
    rounds: u32,
) -> Result<Vec<Option<Vec<Note>>>, AllocError>
    requires of_plant { All (IsOfPlant interlock.now) passes.items }
{
    thread::map_vec(
        rt,
        passes,
        &|pass: PlantPass| -> Option<Vec<Note>>
            requires { IsOfPlant interlock.now pass }
        { notes_of(alloc, interlock, pass, rounds).ok() },
    )
}

/// The journals of the machines on one word.
fn journals_on(
    alloc: Global,
    noted: &[Option<Vec<Note>>],
    word: usize,
) -> Result<Vec<Vec<PlanEntry>>, AllocError> {
    let mut journals = Vec::new(alloc);
    for notes in noted {
        let mut journal = Vec::new(alloc);
        if let Some(notes) = notes {
            for note in notes {
                if note.word == word {
                    journal.push(note.entry)?;
                }
            }
        }
        journals.push(journal)?;
    }
    Ok(journals)
}

/// The plans of the two words.
fn plans(alloc: Global) -> Option<(Plan, Plan)> {
    let mut press = examples::press(alloc).ok()?;
    press.machines = 3;
    let shelf = shelf(alloc).ok()?;
    Some((Plan::new(press).ok()?, Plan::new(shelf).ok()?))
}

/// What an audit says of what the machines noted on one word: how many events its legal history has.
fn audit_word(
    alloc: Global,
    plan: &Plan,
    full: bool,
    noted: &[Option<Vec<Note>>],
    word: usize,
) -> Result<usize, PlanAuditFault> {
    let mut places = [false; 16];
    places[0] = full;
    let Ok(journals) = journals_on(alloc, noted, word) else {
        return Err(PlanAuditFault::Memory);
    };
    let events = audit(alloc, plan, &State::start(places, 0), &journals, None)?;
    Ok(events.len())
}

#[test]
fn each_word_has_one_legal_history(rt: HostRuntime) {
    let Some((interlock, mut passes)) = press_and_shelf(rt.alloc()) else {
        panic!(rt; "no memory");
    };
    assert!(rt; interlock.words() == 2 && passes.len() == 4);
    let watch = passes.pop();
    assert!(rt; watch.is_some_and(|watch| watch.actor() == 30));
    let noted = notes_in_threads(&rt, rt.alloc(), &interlock, passes, 300);
    let noted = noted.expect(&rt, "memory");
    let Some((press, shelf)) = plans(rt.alloc()) else {
        panic!(rt; "no memory");
    };
    // what changes nothing is never Busy: on each word an inquiry in each third round, and all calls of a stranger
    let on_press = audit_word(rt.alloc(), &press, true, &noted, 0);
    let on_shelf = audit_word(rt.alloc(), &shelf, false, &noted, 1);
    assert!(rt; on_press.is_ok_and(|events| events > 300));
    assert!(rt; on_shelf.is_ok_and(|events| events > 300));
}

/// What comes back from a call, where it isn't Busy.
fn answer_of(reply: Reply<Answer>) -> Option<Answer> {
    match reply {
        Reply::Settled(answer, _) => Some(answer),
        Reply::Busy { .. } => None,
    }
}

/// Whether both words answered this, and there is no third one.
fn both_answered(replies: &WordReplies, answer: Answer) -> bool {
    replies[0].and_then(answer_of) == Some(answer)
        && replies[1].and_then(answer_of) == Some(answer)
        && replies[2].is_none()
}

/// What a machine is answered on both words.
fn asked_both(
    interlock: &PlantInterlock,
    pass: &mut PlantPass,
    call: Call,
) -> Option<(Answer, Answer)>
    requires of_plant { IsOfPlant interlock.now pass.old }
    ensures of_plant { IsOfPlant interlock.now pass.new }
{
    if interlock.words() != 2 {
        return None;
    }
    let first = answer_of(interlock.ask(pass, 0, call))?;
    let second = answer_of(interlock.ask(pass, 1, call))?;
    Some((first, second))
}

#[test]
fn a_stop_bars_on_both_words(rt: HostRuntime) {
    let Some((interlock, mut passes)) = press_and_shelf(rt.alloc()) else {
        panic!(rt; "no memory");
    };
    let Some(mut watch) = passes.pop() else {
        panic!(rt; "no watch");
    };
    let Some(mut shelf) = passes.pop() else {
        panic!(rt; "no shelf");
    };
    let stopped = Answer::Refused(Refusal::Stopped);
    assert!(rt; both_answered(&interlock.stop(&mut watch), Answer::Done));
    assert!(rt; both_answered(&interlock.stop(&mut watch), stopped));
    let barred = asked_both(&interlock, &mut shelf, Call::Claim(0));
    assert!(rt; barred == Some((Answer::Refused(Refusal::NotParty), stopped)));
    assert!(rt; both_answered(&interlock.resume(&mut watch), Answer::Done));
    let free = asked_both(&interlock, &mut shelf, Call::Claim(0));
    assert!(rt; free == Some((Answer::Refused(Refusal::NotParty), Answer::Done)));
    let refused = Answer::Refused(Refusal::NotParty);
    assert!(rt; both_answered(&interlock.stop(&mut shelf), refused));
}

/// A motor of the loader: what it needs of a word's zone 0 and of its place 0.
fn part(holds: bool, full: Option<bool>) -> Motor {
    let mut motor = Motor {
        machine: 0,
        zones: [NO_NEED; 10],
        places: [None; 16],
    };
    motor.zones[0] = ZoneNeed {
        holds,
        posture: None,
    };
    motor.places[0] = full;
    motor
}

/// Which of two motors may run. Both need the shelf, on word 1. On word 0 the first one needs a plate in the loader's
/// hand, the second one none.
fn permission(alloc: Global, interlock: &PlantInterlock, pass: &mut PlantPass) -> Option<u64>
    requires of_plant { IsOfPlant interlock.now pass.old }
    ensures of_plant { IsOfPlant interlock.now pass.new }
{
    if interlock.words() != 2 {
        return None;
    }
    let (press, shelf) = plans(alloc)?;
    let first = MotorMask::of(&press, &part(false, Some(true)));
    let second = MotorMask::of(&press, &part(false, Some(false)));
    let both = MotorMask::of(&shelf, &part(true, None));
    let on_press = vec![in alloc; first, second].ok()?;
    let on_shelf = vec![in alloc; both, both].ok()?;
    let masks = vec![in alloc; on_press, on_shelf].ok()?;
    Some(interlock.permitted_motors(pass, masks.as_slice()))
}

/// Whether a machine's call is done on the shelf's word.
fn is_done_there(interlock: &PlantInterlock, pass: &mut PlantPass, call: Call) -> bool
    requires of_plant { IsOfPlant interlock.now pass.old }
    ensures of_plant { IsOfPlant interlock.now pass.new }
{
    match asked_both(interlock, pass, call) {
        Some((_, answer)) => answer == Answer::Done,
        None => false,
    }
}

#[test]
fn a_motor_needs_both_words(rt: HostRuntime) {
    let Some((interlock, mut passes)) = press_and_shelf(rt.alloc()) else {
        panic!(rt; "no memory");
    };
    if passes.len() != 4 {
        panic!(rt; "no loader");
    }
    let mut shelf = passes.remove(2);
    let mut loader = passes.remove(0);
    assert!(rt; loader.actor() == 0 && shelf.actor() == 2);
    assert!(rt; is_done_there(&interlock, &mut shelf, Call::Claim(0)));
    assert!(rt; is_done_there(&interlock, &mut shelf, Call::SetPose(0)));
    assert!(rt; is_done_there(&interlock, &mut shelf, Call::Release(0)));
    assert!(rt; permission(rt.alloc(), &interlock, &mut loader) == Some(0b00));
    assert!(rt; is_done_there(&interlock, &mut loader, Call::Claim(0)));
    assert!(rt; permission(rt.alloc(), &interlock, &mut loader) == Some(0b01));
}

/// Why no interlock is made of a press, with two machines, and of a lift, with three.
fn fault_of_two(alloc: Global) -> Option<PlantFault> {
    let Ok(at_press) = examples::press(alloc) else {
        return None;
    };
    let Ok(at_lift) = examples::lift(alloc) else {
        return None;
    };
    let press = word_of(at_press, [false; 16])?;
    let lift = word_of(at_lift, [false; 16])?;
    let Ok(words) = vec![in alloc; press, lift] else {
        return None;
    };
    PlantInterlock::new(alloc, words, 8).err()
}

#[test]
fn faults_come_in_order(rt: HostRuntime) {
    let alloc = rt.alloc();
    let words = PlantInterlock::new(alloc, Vec::new(alloc), 8).err();
    assert!(rt; words == Some(PlantFault::Words));
    let few = PlantInterlock::new(alloc, Vec::new(alloc), 0).err();
    assert!(rt; few == Some(PlantFault::Tries));
    let many = PlantInterlock::new(alloc, Vec::new(alloc), 65).err();
    assert!(rt; many == Some(PlantFault::Tries));
    assert!(rt; fault_of_two(alloc) == Some(PlantFault::Machines));
}
