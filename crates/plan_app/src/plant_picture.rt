//! What `plan draw --words` prints of a plant: its picture, with the word that keeps the motors of each hazard apart.
ghost use Rattle.std.specs.Prelude.{◌≡◌, ◌≤◌, IfOk, length, map, string_bytes};
ghost use Rattle.plan_app.specs.OnWords.{AreKeepers};
ghost use Rattle.plan_app.specs.PlantPictures as spec;

use crate::on_words::{Keeper, keepers_of, push_keeper};
use plan_document::ProgrammedPlan;
use plan_picture::{Finding, plant_picture_of};
use std::alloc::{AllocError, Global};

/// The picture of a plant, by the plans of its words, with the first word that keeps the motors of each hazard apart.
/// An error says that memory ran out.
pub(crate) fn plant_drawing_of(
    alloc: Global,
    plans: &[ProgrammedPlan],
) -> Result<String, AllocError>
    requires { length plans.now ≤ 16 }
    ensures { IfOk result (λ text. spec.IsPlantPicture plans.now (string_bytes text)) }
{
    let keepers = keepers_of(alloc, plans)?;
    drawing_by(alloc, plans, keepers.as_slice())
}

/// The same by the keepers of each hazard.
fn drawing_by(
    alloc: Global,
    plans: &[ProgrammedPlan],
    keepers: &[Option<Keeper>],
) -> Result<String, AllocError>
    requires few { length plans.now ≤ 16 }
    requires keepers { AreKeepers plans.now keepers.now }
    ensures { IfOk result (λ text. spec.IsPlantPicture plans.now (string_bytes text)) }
{
    let found = findings_by(alloc, plans, keepers)?;
    plant_picture_of(alloc, plans, found.as_slice())
}

/// What is said of each hazard.
fn findings_by(
    alloc: Global,
    plans: &[ProgrammedPlan],
    keepers: &[Option<Keeper>],
) -> Result<Vec<Finding>, AllocError>
    ensures { IfOk result (λ found. found.items ≡ map (spec.found_on plans.now) keepers.now) }
{
    let mut found = Vec::new(alloc);
    'keepers: for i in 0..keepers.len() {
        found.push(finding_by(alloc, plans, keepers[i])?)?;
    }
    Ok(found)
}

/// What is said of a hazard: the word that keeps its motors apart, and by what; or that none does.
fn finding_by(
    alloc: Global,
    plans: &[ProgrammedPlan],
    keeper: Option<Keeper>,
) -> Result<Finding, AllocError>
    ensures { IfOk result (λ found. found ≡ spec.found_on plans.now keeper) }
{
    let mut words = String::new(alloc);
    push_keeper(&mut words, plans, keeper)?;
    Ok(Finding::new(keeper.is_some(), words))
}
