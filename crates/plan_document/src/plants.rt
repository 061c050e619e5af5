//! A plant in a document: it is laid out on words, and each word has the plan of its own document.
ghost use Rattle.std.specs.Prelude.{◌≡◌, ◌<◌, IfOk, length};
ghost use Rattle.plan_words.specs.Plant.{IsOnWords, word_at};
ghost use Rattle.plan_document.specs.Names.{machine_names, place_names, zone_names};
ghost use Rattle.plan_document.specs.OnWord.{names_on};
ghost use Rattle.plan_document.specs.Plants as spec;
ghost use Rattle.plan_document.specs.Saying.{IsPlanOf};

use crate::document::Document;
use crate::fault::PlanTextFault;
use crate::naming::KindNames;
use crate::parts::document_on;
use crate::plant_faults::{OnWord, plant_fault};
use crate::plant_programs::PlantLines;
use crate::plant_tables::{PlantRows, plant_rows_of};
use crate::resolving::{ProgrammedPlan, programmed_plan_of};
use plan_explorer::PlantPrograms;
use plan_text::Names;
use plan_words::Words;
use std::alloc::Global;

/// What a document says of a plant on several words.
#[derive(Drop)]
pub struct ProgrammedPlant {
    /// Which zones, poses and places are on which word.
    pub words: Words,
    /// What the document of each word says, by the word's number.
    pub plans: Vec<ProgrammedPlan>,
    /// What each machine asks on which word.
    pub programs: PlantPrograms,
}

/// The plans of words, and the documents that say them.
#[derive(Drop)]
pub struct WordPlans {
    /// The document of each word.
    pub documents: Vec<Document>,
    /// What it says.
    pub plans: Vec<ProgrammedPlan>,
}

/// The plant of a document, or the first fault: of its rows, of its words, of each word's document, and then of the
/// machines' programs as a whole.
pub fn programmed_plant_of(
    alloc: Global,
    document: &Document,
) -> Result<ProgrammedPlant, PlanTextFault>
    ensures { IfOk result (spec.IsPlantOf document.now) }
{
    let PlantRows {
        zones,
        places,
        tables,
    } = plant_rows_of(alloc, document)?;
    let words = match Words::new(tables, alloc) {
        Ok(words) => words,
        Err(fault) => return Err(plant_fault(alloc, document, fault)),
    };
    let made = plans_of(alloc, document, &zones, &places, &words)?;
    let lines = PlantLines {
        document,
        words: &words,
        made: &made,
    };
    let programs = lines.programs(alloc)?;
    Ok(ProgrammedPlant {
        words,
        plans: made.plans,
        programs,
    })
}

/// What the document of each word says.
fn plans_of(
    alloc: Global,
    document: &Document,
    zones: &Names,
    places: &Names,
    words: &Words,
) -> Result<WordPlans, PlanTextFault>
    requires zones { zones.now ≡ zone_names document.now.zones.items }
    requires places { places.now ≡ place_names document.now.machines.items }
    ensures count { IfOk result (λ made. length made.plans.items ≡ length words.now.words) }
    ensures plans { IfOk result (spec.AreWordPlansBy document.now words.now) }
{
    let mut documents = Vec::new(alloc);
    let mut plans = Vec::new(alloc);
    for word in 0..words.count() {
        let (part, plan) = plan_of_word(alloc, document, zones, places, words, word)?;
        documents.push(part)?;
        plans.push(plan)?;
    }
    Ok(WordPlans { documents, plans })
}

/// The document of a word, and what it says.
fn plan_of_word(
    alloc: Global,
    document: &Document,
    zones: &Names,
    places: &Names,
    words: &Words,
    word: usize,
) -> Result<(Document, ProgrammedPlan), PlanTextFault>
    requires word { word < length words.now.words }
    requires zones { zones.now ≡ zone_names document.now.zones.items }
    requires places { places.now ≡ place_names document.now.machines.items }
    ensures { IfOk result (λ made. spec.IsWordPlanBy document.now words.now word made.0 made.1) }
{
    let zones = KindNames::new(alloc, zones, words.zones(word))?;
    let places = KindNames::new(alloc, places, words.places(word))?;
    let part = document_on(
        alloc,
        document,
        &zones,
        &places,
        words.zones(word),
        words.poses(word),
    )?;
    let on_word = OnWord {
        document,
        zones: &zones,
        places: &places,
        poses: words.poses(word),
    };
    let plan = plan_of_part(alloc, &part, on_word)?;
    Ok((part, plan))
}

/// What the document of a word says.
fn plan_of_part(
    alloc: Global,
    part: &Document,
    on_word: OnWord<'_>,
) -> Result<ProgrammedPlan, PlanTextFault>
    ensures { IfOk result (IsPlanOf part.now) }
{
    match programmed_plan_of(alloc, part) {
        Ok(plan) => Ok(plan),
        Err(fault) => Err(on_word.in_plant(alloc, fault)),
    }
}
