//! Examples: two machines at a press, on one word; and a loader at a press and at a shelf, on two words.
ghost use Rattle.std.specs.Prelude.{◌≡◌, ◌≤◌, ℕ, IfSome, IfOk, All, true, false};
ghost use Rattle.std.specs.Prelude.{[], ◌∷◌, map, replicate, get_or};
ghost use Rattle.plan_types.specs.Table.{place_count};
ghost use Rattle.plan_types.specs.Examples.{press_table};
ghost use Rattle.plan_rules.specs.State.{start_state};
ghost use Rattle.plan_interlock.specs.Book.{plan_of};
ghost use Rattle.plan_interlock.specs.Plant.{IsOfPlant};
ghost use Rattle.plan_interlock.specs.PlantExamples.{press_word, shelf_word};
ghost use Rattle.plan_interlock.specs.PlantMake.{OpensSoundly, new_pass};

use crate::laws::starts_can_open;
use crate::plant::{PlantInterlock, PlantPass};
use crate::plant_make::WordOpening;
use crate::rules::PlanRules;
use crate::{PlanInterlock, PlanPass};
use plan_rules::State;
use plan_types::{MAX_ZONES, Plan, PlanPose, PlanZone, Posture, Tables, examples};
use std::alloc::{AllocError, Global};
use word_interlock::Interlock;

/// The interlock of two machines at a press, with the loader's pass and the press's; the loader has a plate. `None` if
/// there is no memory.
///
/// It is by the plan of that example (`plan`), and so are the passes (`rules`). At the start only place 0, the
/// loader's, is full (`opening`). The first pass is that of machine 0, the loader, and the second that of machine 1,
/// the press (`callers`), both from that start (`starts`) and with nothing seen yet (`unused`). A call may lose 8
/// exchanges (`limit`).
pub fn press(alloc: Global) -> Option<(PlanInterlock, PlanPass, PlanPass)>
    ensures loader { IfSome result (λ made. made.1.table ≡ made.0.table) }
    ensures press { IfSome result (λ made. made.2.table ≡ made.0.table) }
    ensures plan { IfSome result (λ made. plan_of made.0.rules ≡ press_table) }
    ensures rules { IfSome result (λ made. (made.1.rules ≡ made.0.rules)
        × (made.2.rules ≡ made.0.rules)) }
    ensures opening { IfSome result (λ made.
        made.0.opening ≡ start_state (true ∷ replicate 15 false) 0) }
    ensures callers { IfSome result (λ made. (made.1.actor ≡ 0) × (made.2.actor ≡ 1)) }
    ensures starts { IfSome result (λ made. (made.1.opening ≡ made.0.opening)
        × (made.2.opening ≡ made.0.opening)) }
    ensures unused { IfSome result (λ made. (made.1.seen ≡ []) × (made.2.seen ≡ [])) }
    ensures limit { IfSome result (λ made. made.0.tries ≡ 8) }
{
    let Ok(tables) = examples::press(alloc) else {
        return None;
    };
    let Ok(plan) = Plan::new(tables) else {
        return None;
    };
    let rules = PlanRules::new(plan);
    let mut full = [false; 16];
    full[0] = true;
    let opening = State::start(full, 0);
    starts_can_open(&rules, &opening);
    let Ok((interlock, mut passes)) = Interlock::new(alloc, rules, opening, 8) else {
        return None;
    };
    let loader = interlock.take_pass(&mut passes, 0);
    let press = interlock.take_pass(&mut passes, 1);
    Some((interlock, loader, press))
}

/// The tables of a shelf: one zone of machine 2, which the loader, machine 0, enters while it is open. Pose 0 opens it.
pub fn shelf(alloc: Global) -> Result<Tables, AllocError>
    ensures { IfOk result (λ tables. tables ≡ shelf_word) }
{
    let shelf = PlanZone {
        host: 2,
        guest: 0,
        joins: false,
        inward: None,
        outward: None,
    };
    let mut gives = [None; MAX_ZONES];
    gives[0] = Some(Posture::OpenIn);
    let open = PlanPose {
        machine: 2,
        after_moving: false,
        gives,
    };
    Ok(Tables {
        machines: 3,
        zones: vec![in alloc; shelf]?,
        poses: vec![in alloc; open]?,
        places: Vec::new(alloc),
    })
}

/// A word by these tables, which opens with a start with these places full, at stamp 0. `None` if the tables are no
/// plan.
pub fn word_of(tables: Tables, full: [bool; 16]) -> Option<WordOpening>
    requires places { (p : ℕ) → place_count tables ≤ p → get_or full p false ≡ false }
    ensures plan { IfSome result (λ w. plan_of w.rules ≡ tables) }
    ensures start { IfSome result (λ w. w.state ≡ start_state full 0) }
    ensures sound { IfSome result OpensSoundly }
{
    let Ok(plan) = Plan::new(tables) else {
        return None;
    };
    let rules = PlanRules::new(plan);
    let state = State::start(full, 0);
    starts_can_open(&rules, &state);
    Some(WordOpening { rules, state })
}

/// The interlock of a plant on two words, with its passes: on word 0 the loader, machine 0, and the press, machine 1;
/// on word 1 the loader at the shelf, a zone of machine 2. The loader has a plate. `None` if there is no memory.
///
/// The words are by these plans (`plans`), and at the start only the loader's place on word 0 is full (`openings`). The
/// passes are those of machines 0, 1 and 2, and the watch's, each with a right on both words, with nothing seen yet
/// (`passes`), and of this interlock (`own`).
pub fn press_and_shelf(alloc: Global) -> Option<(PlantInterlock, Vec<PlantPass>)>
    ensures plans { IfSome result (λ made.
        map (λ i. plan_of i.rules) made.0 ≡ press_word ∷ shelf_word ∷ []) }
    ensures openings { IfSome result (λ made. map (λ i. i.opening) made.0
        ≡ start_state (true ∷ replicate 15 false) 0 ∷ start_state (replicate 16 false) 0 ∷ []) }
    ensures passes { IfSome result (λ made. made.1.items
        ≡ new_pass made.0 0 ∷ new_pass made.0 1 ∷ new_pass made.0 2 ∷ new_pass made.0 30 ∷ []) }
    ensures own { IfSome result (λ made. All (IsOfPlant made.0) made.1.items) }
{
    let Ok(mut at_press) = examples::press(alloc) else {
        return None;
    };
    at_press.machines = 3;
    let Ok(at_shelf) = shelf(alloc) else {
        return None;
    };
    let mut full = [false; 16];
    full[0] = true;
    let press = word_of(at_press, full)?;
    let shelf = word_of(at_shelf, [false; 16])?;
    let Ok(words) = vec![in alloc; press, shelf] else {
        return None;
    };
    let Ok(made) = PlantInterlock::new(alloc, words, 8) else {
        return None;
    };
    Some(made)
}
