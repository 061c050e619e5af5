//! What `plan header --words` prints: the headers of all words of a plant, each with the word's number in its names.
ghost use Rattle.std.specs.Prelude.{◌≡◌, ◌++◌, IfOk, OnOk, flat_map, length, string_bytes};
ghost use Rattle.std.specs.List.{range_with_len};
ghost use Rattle.plan_header.specs.PlantHeaders as spec;

use crate::header::header_of;
use crate::numbered::push_numbered;
use plan_document::ProgrammedPlan;
use std::alloc::{AllocError, Global};

/// How the header of a plant begins, up to how many words it has.
const HEAD: &str = "\
/* A plant on several words, as `plan header --words` prints it: the header of each word's plan. What that of word 0
   defines begins with PLAN0_ or plan0_, what that of word 1 defines with PLAN1_ or plan1_, and so on. */
#define PLANT_WORDS ";

/// What `plan header --words` prints of a plant, by the plans of its words: how many words it has, and the header of
/// each. What is `PLAN_..` in the header of one plan is `PLAN0_..` in that of word 0, so no two words define one name.
/// An error says that memory ran out.
pub fn plant_header_of(alloc: Global, plans: &[ProgrammedPlan]) -> Result<String, AllocError>
    ensures { IfOk result (λ text. string_bytes text ≡ spec.plant_header_text plans.now) }
{
    let mut text = String::new(alloc);
    match push_plant(alloc, &mut text, plans) {
        Ok(()) => Ok(text),
        Err(error) => Err(error),
    }
}

#[tactic(auto, unfolding(crate::specs::PlantHeaders::plant_header_text))]
fn push_plant(alloc: Global, text: &mut String, plans: &[ProgrammedPlan]) -> Result<(), AllocError>
    ensures { OnOk result (string_bytes text.new
        ≡ string_bytes text.old ++ spec.plant_header_text plans.now) }
{
    push_head(text, plans.len())?;
    push_headers(alloc, text, plans)
}

/// Adds how many words there are.
fn push_head(text: &mut String, count: usize) -> Result<(), AllocError>
    ensures { OnOk result (string_bytes text.new ≡ string_bytes text.old ++ spec.head count) }
{
    text.push_str(HEAD)?;
    writeln!(text, "{count}")
}

/// Adds the header of each word.
fn push_headers(
    alloc: Global,
    text: &mut String,
    plans: &[ProgrammedPlan],
) -> Result<(), AllocError>
    ensures { OnOk result (string_bytes text.new ≡ string_bytes text.old
        ++ flat_map (spec.header_on plans.now) (range_with_len 0 (length plans.now))) }
{
    'words: for word in 0..plans.len() {
        push_header_on(alloc, text, plans, word)?;
    }
    Ok(())
}

/// Adds the header of the word with a number, if there is one.
fn push_header_on(
    alloc: Global,
    text: &mut String,
    plans: &[ProgrammedPlan],
    word: usize,
) -> Result<(), AllocError>
    ensures { OnOk result (string_bytes text.new
        ≡ string_bytes text.old ++ spec.header_on plans.now word) }
{
    match plans.get(word) {
        Some(plan) => push_word_header(alloc, text, plan, word),
        None => Ok(()),
    }
}

/// Adds the header of a word's plan.
fn push_word_header(
    alloc: Global,
    text: &mut String,
    plan: &ProgrammedPlan,
    word: usize,
) -> Result<(), AllocError>
    ensures { OnOk result (string_bytes text.new
        ≡ string_bytes text.old ++ spec.word_header plan.now word) }
{
    let header = header_of(alloc, plan)?;
    text.push_str("\n")?;
    push_numbered(text, word, header.as_str())
}
