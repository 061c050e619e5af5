//! The plan that is asked for: that of a document, or that of one word of the plant in it.
ghost use Rattle.std.specs.Prelude.{◌≡◌, ◌≤◌, ◌++◌, IfOk, IfErr, OnOk, Some, length, slice_get, string_bytes};
ghost use Rattle.plan_app.specs.Asked as spec;

use plan_document::{PlanTextFault, ProgrammedPlan, ProgrammedPlant, plan_of, plant_of};
use std::alloc::{AllocError, Global};

/// Why there is no plan that was asked for.
#[derive(Drop)]
pub enum NoPlan {
    /// The document has a fault.
    OfDocument(PlanTextFault),
    /// The plant in it has no word with the number.
    OfWord {
        /// The number.
        number: u32,
        /// How many words the plant has.
        count: usize,
    },
}

/// The plan of a document, or of the word with a number of the plant in it.
pub fn asked_plan(
    alloc: Global,
    word: Option<u32>,
    document: &[u8],
) -> Result<ProgrammedPlan, NoPlan>
    ensures plan { IfOk result (spec.IsAsked word document.now) }
    ensures fault { IfErr result (spec.IsNoPlan word document.now) }
{
    match word {
        None => plan_in(alloc, document),
        Some(number) => plan_on_word(alloc, number, document),
    }
}

/// The plan of a document.
fn plan_in(alloc: Global, document: &[u8]) -> Result<ProgrammedPlan, NoPlan>
    ensures plan { IfOk result (spec.IsAsked None document.now) }
    ensures fault { IfErr result (spec.IsNoPlan None document.now) }
{
    match plan_of(alloc, document) {
        Ok(plan) => Ok(plan),
        Err(fault) => Err(NoPlan::OfDocument(fault)),
    }
}

/// The plan of the word with this number, of the plant in a document.
fn plan_on_word(alloc: Global, number: u32, document: &[u8]) -> Result<ProgrammedPlan, NoPlan>
    ensures plan { IfOk result (spec.IsPlanOnWord number document.now) }
    ensures fault { IfErr result (spec.IsNoPlan (Some number) document.now) }
{
    match plant_of(alloc, document) {
        Ok(plant) => word_plan(plant, number),
        Err(fault) => Err(NoPlan::OfDocument(fault)),
    }
}

/// Takes the plan of the word with this number out of a plant.
fn word_plan(plant: ProgrammedPlant, number: u32) -> Result<ProgrammedPlan, NoPlan>
    ensures plan { IfOk result (λ plan. slice_get plant.plans.items number ≡ Some plan) }
    ensures fault { IfErr result (λ fault. length plant.plans.items ≤ number
        × (fault ≡ NoPlan.OfWord number (length plant.plans.items))) }
{
    let ProgrammedPlant { mut plans, .. } = plant;
    let count = plans.len();
    if (number as usize) < count {
        Ok(plans.swap_remove(number as usize))
    } else {
        Err(NoPlan::OfWord { number, count })
    }
}

/// That a plant has no word with a number, and which words it has.
pub fn no_word_text(alloc: Global, number: u32, count: usize) -> Result<String, AllocError>
    ensures { IfOk result (λ text. string_bytes text ≡ spec.no_word_text number count) }
{
    let mut text = String::new(alloc);
    write!(text, "plan has no word {number}: it has ")?;
    push_words_there(&mut text, count)?;
    Ok(text)
}

/// Adds which words a plant has.
fn push_words_there(text: &mut String, count: usize) -> Result<(), AllocError>
    ensures { OnOk result (string_bytes text.new
        ≡ string_bytes text.old ++ spec.words_there count) }
{
    if count == 1 {
        text.push_str("word 0 alone")
    } else {
        let last = count.saturating_sub(1);
        write!(text, "words 0 to {last}")
    }
}
