//! Thirty machines, the most that a plan has, on one word: each makes a call by its pass, in a thread of its own. All
//! calls are one legal history.
ghost use Rattle.std.specs.Prelude.{All, IfSome};
ghost use Rattle.plan_interlock.specs.Plant.{IsOfPlant};

use plan_interlock::examples::word_of;
use plan_interlock::{PlantInterlock, PlantPass};
use plan_rules::State;
use plan_types::{Answer, Call, Plan, PlanZone, Posture, Refusal, Tables};
use plan_workers::{PlanEntry, audit};
use std::alloc::{AllocError, Global};
use std::thread;
use std::thread::Threads;
use word_interlock::Reply;

/// Each of the first ten machines hosts a zone, and each of the next ten is the guest of one. The last ten have none.
fn tables(alloc: Global) -> Result<Tables, AllocError> {
    let mut zones = Vec::new(alloc);
    for host in 0..10u8 {
        zones.push(PlanZone {
            host,
            guest: host + 10,
            joins: false,
            inward: None,
            outward: None,
        })?;
    }
    Ok(Tables {
        machines: 30,
        zones,
        poses: Vec::new(alloc),
        places: Vec::new(alloc),
    })
}

/// Their interlock on one word, and all passes. A call may lose more exchanges than there are machines.
fn on_one_word(alloc: Global) -> Option<(PlantInterlock, Vec<PlantPass>)>
    ensures own { IfSome result (λ made. All (IsOfPlant made.0) made.1.items) }
{
    let Ok(tables) = tables(alloc) else {
        return None;
    };
    let word = word_of(tables, [false; 16])?;
    let Ok(words) = vec![in alloc; word] else {
        return None;
    };
    let Ok(made) = PlantInterlock::new(alloc, words, 64) else {
        return None;
    };
    Some(made)
}

/// What a machine is answered that claims a zone.
fn claim_zone(interlock: &PlantInterlock, mut pass: PlantPass) -> Option<PlanEntry>
    requires of_plant { IsOfPlant interlock.now pass }
{
    let _ = interlock.words();
    let call = Call::Claim(pass.actor() % 10);
    match interlock.ask(&mut pass, 0, call) {
        Reply::Settled(answer, stamp) => Some(PlanEntry {
            call,
            answer,
            stamp,
        }),
        Reply::Busy { .. } => None,
    }
}

/// The same of several machines, each in a thread of its own.
fn claimed_in_threads<R: Threads + Sync>(
    rt: &R,
    interlock: &PlantInterlock,
    passes: Vec<PlantPass>,
) -> Result<Vec<Option<PlanEntry>>, AllocError>
    requires of_plant { All (IsOfPlant interlock.now) passes.items }
{
    thread::map_vec(
        rt,
        passes,
        &|pass: PlantPass| -> Option<PlanEntry>
            requires { IsOfPlant interlock.now pass }
        { claim_zone(interlock, pass) },
    )
}

/// Whether a machine was answered rightly: a host gets its zone, the guest finds it held or closed, and all others are
/// no parties of it.
fn is_right(machine: usize, answer: Answer) -> bool {
    match machine {
        0..=9 => answer == Answer::Done,
        10..=19 => {
            let host = (machine % 10) as u8;
            answer == Answer::Refused(Refusal::Held(host))
                || answer == Answer::Refused(Refusal::Shut(Posture::Closed))
        }
        _ => answer == Answer::Refused(Refusal::NotParty),
    }
}

/// Whether all machines were.
fn are_right(entries: &[Option<PlanEntry>]) -> bool {
    for (machine, entry) in entries.iter().enumerate() {
        match entry {
            Some(entry) if is_right(machine, entry.answer) => {}
            _ => return false,
        }
    }
    entries.len() == 30
}

/// The journals of machines that made one call each.
fn journals_of(
    alloc: Global,
    entries: &[Option<PlanEntry>],
) -> Result<Vec<Vec<PlanEntry>>, AllocError> {
    let mut journals = Vec::new(alloc);
    for entry in entries {
        let mut journal = Vec::new(alloc);
        if let Some(entry) = entry {
            journal.push(*entry)?;
        }
        journals.push(journal)?;
    }
    Ok(journals)
}

/// How many events their one legal history has. `None` if there is none, or no memory.
fn audit_entries(alloc: Global, entries: &[Option<PlanEntry>]) -> Option<usize> {
    let journals = journals_of(alloc, entries).ok()?;
    let plan = Plan::new(tables(alloc).ok()?).ok()?;
    let start = State::start([false; 16], 0);
    match audit(alloc, &plan, &start, &journals, None) {
        Ok(events) => Some(events.len()),
        Err(_) => None,
    }
}

#[test]
fn thirty_machines_call_in_threads(rt: HostRuntime) {
    let Some((interlock, mut passes)) = on_one_word(rt.alloc()) else {
        panic!(rt; "no memory");
    };
    let watch = passes.pop();
    assert!(rt; watch.is_some_and(|watch| watch.actor() == 30));
    let entries = claimed_in_threads(&rt, &interlock, passes).expect(&rt, "memory");
    assert!(rt; are_right(&entries));
    assert!(rt; audit_entries(rt.alloc(), &entries) == Some(30));
}
