//! A machine at work on two words: a loader that claims a shelf, awaits a press, runs its arm, and leaves both.
ghost use Rattle.std.specs.Prelude.{◌≡◌, IfSome};
ghost use Rattle.plan_controller.specs.BenchView.{desk_of};

use plan_controller::{Faults, PlanBench, PlanLine};
use plan_interlock::examples::shelf;
use plan_rules::State;
use plan_rules::laws::starts_are_sound;
use plan_types::{Answer, Call, Plan, Tables, examples};
use plan_workers::{
    PlanDevices, PlanEntry, PlantController, PlantWorker, RoutedStep, WordJournals, audit_plant,
    steps_on,
};
use std::alloc::{AllocError, Global};

/// What the sensors show, and the motors that were given last.
#[derive(Drop)]
struct Arm {
    sensors: Option<u32>,
    motors: u64,
}

impl PlanDevices for Arm {
    fn sensors(&mut self) -> Option<u32> {
        self.sensors
    }

    fn drive(&mut self, motors: u64) {
        self.motors = motors;
    }
}

/// On word 1 the loader claims the shelf, on word 0 it awaits the press; it runs its arm until sensor 2 shows, and
/// leaves the shelf, and then the press.
fn program(alloc: Global) -> Result<Vec<RoutedStep>, AllocError> {
    let faults = Faults::none();
    let steps = vec![in alloc;
        RoutedStep::Do {
            word: 1,
            call: Call::Claim(0),
            faults
        },
        RoutedStep::Await { word: 0, zone: 0 },
        RoutedStep::Run {
            motors: 0b1,
            until: 2
        },
        RoutedStep::Do {
            word: 1,
            call: Call::Release(0),
            faults
        },
        RoutedStep::Do {
            word: 0,
            call: Call::Yield(0),
            faults
        },
    ]?;
    Ok(steps)
}

/// A bench by these tables, which opens with no plate. `None` if there is no memory.
fn bench_of(alloc: Global, tables: Tables) -> Option<PlanBench> {
    let plan = Plan::new(tables).ok()?;
    let start = State::start([false; 16], 0);
    starts_are_sound(&plan, &start);
    Some(PlanBench::new(alloc, plan, start))
}

/// A bench on which a machine has made these calls, each of which was done. The loader is to call.
fn bench_after(alloc: Global, tables: Tables, machine: u8, calls: &[Call]) -> Option<PlanBench>
    ensures { IfSome result (λ bench. (desk_of bench).machine ≡ 0) }
{
    let mut bench = bench_of(alloc, tables)?;
    bench.seat(machine);
    let mut are_done = true;
    for call in calls {
        are_done &= bench.ask(*call) == Some(Answer::Done);
    }
    bench.seat(0);
    if are_done { Some(bench) } else { None }
}

/// The press has opened and handed its zone to the loader.
fn press_bench(alloc: Global) -> Option<PlanBench>
    ensures { IfSome result (λ bench. (desk_of bench).machine ≡ 0) }
{
    let calls = [
        Call::Claim(0),
        Call::SetPose(3),
        Call::SetPose(0),
        Call::Yield(0),
    ];
    bench_after(alloc, examples::press(alloc).ok()?, 1, &calls)
}

/// The shelf is open and free.
fn shelf_bench(alloc: Global) -> Option<PlanBench>
    ensures { IfSome result (λ bench. (desk_of bench).machine ≡ 0) }
{
    let calls = [Call::Claim(0), Call::SetPose(0), Call::Release(0)];
    bench_after(alloc, shelf(alloc).ok()?, 2, &calls)
}

/// The loader at the beginning of its program. `None` if there is no memory.
fn loader(alloc: Global) -> Option<PlantWorker<PlanBench, Arm>> {
    let press = press_bench(alloc)?;
    let shelf = shelf_bench(alloc)?;
    let controller = PlantController::new(0, 2, program(alloc).ok()?)?;
    let lines = vec![in alloc; press, shelf].ok()?;
    let arm = Arm {
        sensors: Some(0),
        motors: 0,
    };
    Some(PlantWorker::new(controller, lines, arm))
}

#[test]
fn a_loader_goes_through_both_words(rt: HostRuntime) {
    let Some(mut loader) = loader(rt.alloc()) else {
        panic!(rt; "no memory");
    };
    let claimed = loader.work_turn().taken;
    assert!(rt; claimed.asked == Some((1, Call::Claim(0), Some(Answer::Done))));
    assert!(rt; loader.work_turn().taken.motors == 0 && loader.controller().place() == 2);
    assert!(rt; loader.work_turn().taken.motors == 0b1 && loader.devices().motors == 0b1);
    let (controller, lines, arm) = loader.into_parts();
    assert!(rt; arm.motors == 0 && controller.place() == 2 && lines.len() == 2);
}

#[test]
fn a_step_stands_on_its_word_and_a_run_on_each(rt: HostRuntime) {
    let steps = program(rt.alloc()).expect(&rt, "memory");
    let counts = [3, 3, 1];
    for word in 0..3 {
        let own = steps_on(rt.alloc(), &steps, word).expect(&rt, "memory");
        assert!(rt; own.len() == counts[word]);
    }
}

/// No machine has called on either word; each part of what is known of them lies elsewhere.
#[test]
fn each_word_is_audited_by_itself(rt: HostRuntime) {
    let tables = examples::press(rt.alloc()).expect(&rt, "memory");
    let plan = Plan::new(tables).expect(&rt, "a plan");
    let start = State::start([false; 16], 0);
    let journals: Vec<Vec<PlanEntry>> = Vec::new(rt.alloc());
    let end = start;
    let word = WordJournals {
        plan: &plan,
        start: &start,
        journals: journals.as_slice(),
        end: Some(&end),
    };
    let words = [word, word];
    let found = audit_plant(rt.alloc(), &words).expect(&rt, "histories");
    assert!(rt; found.len() == 2 && found[1].is_empty());
}
