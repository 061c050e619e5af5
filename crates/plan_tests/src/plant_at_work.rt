//! Three machines of a plant on two words, each in a thread of its own, with journals; and what an audit says of them.
ghost use Rattle.std.specs.Prelude.{◌<◌, All, IfOk, IfSome};
ghost use Rattle.plan_workers.specs.PlantJobs.{IsPlantJobOf, IsPlantReady};

use plan_controller::Faults;
use plan_interlock::examples::{press_and_shelf, shelf};
use plan_interlock::{PlantInterlock, PlantPass};
use plan_rules::State;
use plan_types::{Call, Event, Plan, examples};
use plan_workers::laws::new_passes_may_work;
use plan_workers::{
    PacedPlanGate, PlanAuditFault, PlanDevices, PlanEntry, PlantAuditFault, PlantController,
    PlantJob, PlantRecorded, RoutedStep, WordJournals, audit_plant, journals_on,
    record_plant_in_threads, survey_words,
};
use std::alloc::{AllocError, Global};
use std::sync::Wait;
use std::thread::Threads;
use std::time::{Clock, Duration};

/// How many turns each machine takes.
const TURNS: u32 = 12;

/// Sensors that show nothing; the motors that were given last, and those that were ever given.
#[derive(Drop)]
struct Still {
    motors: u64,
    ever: u64,
}

impl PlanDevices for Still {
    fn sensors(&mut self) -> Option<u32> {
        Some(0)
    }

    fn drive(&mut self, motors: u64) {
        self.motors = motors;
        self.ever |= motors;
    }
}

/// To make a call on a word until it is done.
fn step(word: usize, call: Call) -> RoutedStep {
    RoutedStep::Do {
        word,
        call,
        faults: Faults::none(),
    }
}

/// The loader claims the shelf, on word 1, once that is open, and then the press, on word 0, which stays shut. The
/// press claims its zone, travels, and runs its ram. The shelf opens, and runs its belt.
fn program_of(alloc: Global, machine: u8) -> Result<Vec<RoutedStep>, AllocError> {
    let run = RoutedStep::Run {
        motors: 0b10,
        until: 4,
    };
    let steps = match machine {
        0 => vec![in alloc; step(1, Call::Claim(0)), step(0, Call::Claim(0))]?,
        1 => vec![in alloc; step(0, Call::Claim(0)), step(0, Call::SetPose(3)), run]?,
        _ => vec![in alloc;
            step(1, Call::Claim(0)),
            step(1, Call::SetPose(0)),
            step(1, Call::Release(0)),
            run,
        ]?,
    };
    Ok(steps)
}

/// The interlock of the example, the passes of its machines, and the watch's: of its clauses what jobs need.
fn plant(alloc: Global) -> Option<(PlantInterlock, Vec<PlantPass>, PlantPass)>
    ensures machines { IfSome result (λ made. All (IsPlantJobOf made.0) made.1.items) }
    ensures watch { IfSome result (λ made. IsPlantJobOf made.0 made.2) }
{
    new_passes_may_work();
    let (interlock, mut passes) = press_and_shelf(alloc)?;
    let watch = passes.pop()?;
    Some((interlock, passes, watch))
}

/// The job of a machine by its pass. `None` if there is no memory.
fn job_of(alloc: Global, interlock: &PlantInterlock, pass: PlantPass) -> Option<PlantJob<Still>>
    requires own { IsPlantJobOf interlock.now pass }
    ensures ready { IfSome result (IsPlantReady interlock.now) }
{
    let machine = pass.actor();
    let steps = program_of(alloc, machine).ok()?;
    let controller = PlantController::new(machine, interlock.words(), steps)?;
    let devices = Still { motors: 0, ever: 0 };
    Some(PlantJob::new(pass, controller, devices))
}

/// The jobs of all machines.
fn jobs_of(
    alloc: Global,
    interlock: &PlantInterlock,
    passes: Vec<PlantPass>,
) -> Result<Vec<PlantJob<Still>>, AllocError>
    requires own { All (IsPlantJobOf interlock.now) passes.items }
    ensures ready { IfOk result (λ jobs. All (IsPlantReady interlock.now) jobs.items) }
{
    let mut jobs = Vec::new(alloc);
    'passes: for pass in passes {
        let Some(job) = job_of(alloc, interlock, pass) else {
            return Err(AllocError);
        };
        jobs.push(job)?;
    }
    Ok(jobs)
}

/// What is known of a plant's words after its run.
#[derive(Drop)]
struct Noted {
    plans: [Plan; 2],
    starts: [State; 2],
    journals: [Vec<Vec<PlanEntry>>; 2],
    ends: Vec<State>,
}

/// What machines have noted, with the states that the watch then finds.
fn notes_of(
    alloc: Global,
    interlock: &PlantInterlock,
    watch: PlantPass,
    backs: &[PlantRecorded<Still>],
) -> Option<Noted>
    requires own { IsPlantJobOf interlock.now watch }
{
    let mut press = examples::press(alloc).ok()?;
    press.machines = 3;
    let plans = [Plan::new(press).ok()?, Plan::new(shelf(alloc).ok()?).ok()?];
    let mut places = [false; 16];
    let empty = State::start(places, 0);
    places[0] = true;
    Some(Noted {
        plans,
        starts: [State::start(places, 0), empty],
        journals: [
            journals_on(alloc, backs, 0).ok()?,
            journals_on(alloc, backs, 1).ok()?,
        ],
        ends: survey_words(alloc, interlock, watch).ok()?,
    })
}

impl Noted {
    /// What an audit takes of a word.
    fn of_word(&self, word: usize) -> WordJournals<'_, '_, '_, '_>
        requires { word < 2 }
    {
        WordJournals {
            plan: &self.plans[word],
            start: &self.starts[word],
            journals: &self.journals[word],
            end: self.ends.get(word),
        }
    }

    /// What an audit says of both words.
    fn audit_words(&self, alloc: Global) -> Result<Vec<Vec<Event>>, PlantAuditFault> {
        audit_plant(alloc, &[self.of_word(0), self.of_word(1)])
    }
}

/// Whether a machine has taken all its turns, rests at this place with its motors off, and had these on at times.
fn has_worked(back: &PlantRecorded<Still>, machine: u8, place: usize, ever: u64) -> bool {
    let worked = &back.worked;
    worked.pass.actor() == machine
        && worked.turns == TURNS
        && worked.controller.place() == place
        && worked.stopped_by.is_none()
        && worked.devices.motors == 0
        && worked.devices.ever == ever
        && back.journals.len() == 2
}

fn have_worked(backs: &[PlantRecorded<Still>]) -> bool {
    match backs {
        [loader, press, shelf] => {
            has_worked(loader, 0, 1, 0)
                && has_worked(press, 1, 2, 0b10)
                && has_worked(shelf, 2, 3, 0b10)
        }
        _ => false,
    }
}

impl Noted {
    /// What would be known, had a machine left out its last entry on word 1.
    fn without_last(mut self, machine: usize) -> Noted {
        if let Some(journal) = self.journals[1].get_mut(machine) {
            let _ = journal.pop();
        }
        self
    }
}

/// What machines give back and note in a run at one pace.
fn run<R: Threads + Wait + Clock + Sync>(
    rt: &R,
    alloc: Global,
) -> Option<(Vec<PlantRecorded<Still>>, Noted)> {
    let (interlock, passes, watch) = plant(alloc)?;
    let Ok(jobs) = jobs_of(alloc, &interlock, passes) else {
        return None;
    };
    let gate = PacedPlanGate::new(rt, 3, Duration::from_secs(30));
    let backs = record_plant_in_threads(rt, alloc, &interlock, jobs, &gate, TURNS).ok()?;
    let noted = notes_of(alloc, &interlock, watch, &backs)?;
    Some((backs, noted))
}

/// In all the loader calls in each turn, and the press and the shelf make five calls.
#[test]
fn three_machines_work_on_two_words(rt: HostRuntime) {
    let Some((backs, noted)) = run(&rt, rt.alloc()) else {
        panic!(rt; "no memory");
    };
    assert!(rt; have_worked(&backs));
    let found = noted.audit_words(rt.alloc()).expect(&rt, "histories");
    assert!(rt; found.len() == 2 && found[0].len() + found[1].len() == 17);
}

/// Without the loader's claim of the shelf the end isn't reached; without the shelf's release that claim comes too
/// early. The first word is explained all the same.
#[test]
fn the_second_word_is_refused(rt: HostRuntime) {
    let rows = [
        (0, PlanAuditFault::End),
        (2, PlanAuditFault::OutOfTurn { stamp: 2 }),
    ];
    for (machine, fault) in rows {
        let Some((_backs, noted)) = run(&rt, rt.alloc()) else {
            panic!(rt; "no memory");
        };
        let refused = noted.without_last(machine).audit_words(rt.alloc()).err();
        assert!(rt; refused == Some(PlantAuditFault { word: 1, fault }));
    }
}
