//! What `plan words` prints of a plant: what each word has, and which word keeps the motors of each hazard apart.
ghost use Rattle.std.specs.Prelude.{◌≡◌, ◌++◌, IfOk, OnOk, flat_map, length, string_bytes};
ghost use Rattle.std.specs.List.{list_all, range_with_len};
ghost use Rattle.std.specs.Prelude.{is_some, slice_get, Some};
ghost use Rattle.plan_app.specs.OnWords as spec;

use crate::hazards::{hazard_at, push_two};
use crate::leads::is_never;
use crate::report::{push_names, push_width};
use crate::words::push_counted;
use plan_document::ProgrammedPlan;
use plan_motors::Verdict;
use plan_picture::{push_verdict, verdict_of};
use plan_text::{NamedPlan, Names};
use std::alloc::{AllocError, Global};

/// What is said of a hazard whose motors no word keeps apart.
const BY_NONE: &str = "NOT kept apart on any word";

/// The first word that keeps the motors of a hazard apart.
#[derive(Clone, Copy)]
pub struct Keeper {
    /// The word's number.
    pub word: usize,
    /// What keeps them apart there.
    pub verdict: Verdict,
}

/// What `plan words` prints.
#[derive(Drop)]
pub enum Listing {
    /// Some word keeps the motors of each hazard apart.
    Kept(String),
    /// Of some hazard none does.
    Unkept(String),
}

/// What `plan words` prints of a plant, by the plans of its words: how many words there are, the bits and the names of
/// each, and for each hazard the first word that keeps its motors apart. An error says that memory ran out.
pub fn listing_of(alloc: Global, plans: &[ProgrammedPlan]) -> Result<Listing, AllocError>
    ensures { IfOk result (spec.IsListing plans.now) }
{
    let keepers = keepers_of(alloc, plans)?;
    listing_by(alloc, plans, keepers.as_slice())
}

/// The same by the keepers of each hazard.
fn listing_by(
    alloc: Global,
    plans: &[ProgrammedPlan],
    keepers: &[Option<Keeper>],
) -> Result<Listing, AllocError>
    requires { spec.AreKeepers plans.now keepers.now }
    ensures { IfOk result (spec.IsListing plans.now) }
{
    let text = text_of(alloc, plans, keepers)?;
    if are_kept(keepers) {
        Ok(Listing::Kept(text))
    } else {
        Ok(Listing::Unkept(text))
    }
}

// ---- which word keeps motors apart

/// The first word that keeps the motors of each hazard apart.
pub(crate) fn keepers_of(
    alloc: Global,
    plans: &[ProgrammedPlan],
) -> Result<Vec<Option<Keeper>>, AllocError>
    ensures { IfOk result (λ keepers. spec.AreKeepers plans.now keepers.items) }
{
    keepers_below(alloc, plans, hazard_count(plans))
}

/// How many hazards a plant has.
fn hazard_count(plans: &[ProgrammedPlan]) -> usize
    ensures { result ≡ spec.hazard_count plans.now }
{
    match plans.get(0) {
        Some(plan) => plan.motors.hazards.len(),
        None => 0,
    }
}

/// The same of the hazards below a number.
fn keepers_below(
    alloc: Global,
    plans: &[ProgrammedPlan],
    count: usize,
) -> Result<Vec<Option<Keeper>>, AllocError>
    requires { count ≡ spec.hazard_count plans.now }
    ensures { IfOk result (λ keepers. spec.AreKeepers plans.now keepers.items) }
{
    let mut keepers = Vec::new(alloc);
    for hazard in 0..count {
        keepers.push(keeper_of(plans, hazard))?;
    }
    Ok(keepers)
}

/// The first word that keeps the motors of a hazard apart.
fn keeper_of(plans: &[ProgrammedPlan], hazard: usize) -> Option<Keeper>
    ensures { spec.IsKeptBy plans.now hazard result }
{
    for word in 0..plans.len() {
        let verdict = verdict_on(&plans[word], hazard);
        if is_never(&verdict) {
            return Some(Keeper { word, verdict });
        }
    }
    None
}

/// What keeps the motors of a hazard apart on one word, or a state that permits both.
fn verdict_on(plan: &ProgrammedPlan, hazard: usize) -> Verdict
    ensures { spec.IsVerdictOn plan.now hazard result }
{
    verdict_of(plan, hazard_at(&plan.motors.hazards, hazard))
}

/// Whether some word keeps the motors of each hazard apart.
fn are_kept(keepers: &[Option<Keeper>]) -> bool
    ensures { result ≡ list_all is_some keepers.now }
{
    keepers.iter().all(|keeper| keeper.is_some())
}

// ---- the text

/// What is printed of a plant.
fn text_of(
    alloc: Global,
    plans: &[ProgrammedPlan],
    keepers: &[Option<Keeper>],
) -> Result<String, AllocError>
    ensures { IfOk result (λ text. string_bytes text ≡ spec.words_text plans.now keepers.now) }
{
    let mut text = String::new(alloc);
    push_text(&mut text, plans, keepers)?;
    Ok(text)
}

#[tactic(auto, unfolding(crate::specs::OnWords::words_text))]
fn push_text(
    text: &mut String,
    plans: &[ProgrammedPlan],
    keepers: &[Option<Keeper>],
) -> Result<(), AllocError>
    ensures { OnOk result (string_bytes text.new
        ≡ string_bytes text.old ++ spec.words_text plans.now keepers.now) }
{
    push_count(text, plans.len())?;
    push_words(text, plans)?;
    push_titled(text, plans, keepers)
}

/// Adds how many words there are.
fn push_count(text: &mut String, count: usize) -> Result<(), AllocError>
    ensures { OnOk result (string_bytes text.new
        ≡ string_bytes text.old ++ spec.count_line count) }
{
    push_counted(text, count, "word")?;
    text.push_str("\n")
}

/// Adds what each word has.
fn push_words(text: &mut String, plans: &[ProgrammedPlan]) -> Result<(), AllocError>
    ensures { OnOk result (string_bytes text.new ≡ string_bytes text.old
        ++ flat_map (spec.lines_of plans.now) (range_with_len 0 (length plans.now))) }
{
    'words: for word in 0..plans.len() {
        push_lines(text, plans, word)?;
    }
    Ok(())
}

/// Adds what the word with a number has, if there is one.
fn push_lines(text: &mut String, plans: &[ProgrammedPlan], word: usize) -> Result<(), AllocError>
    ensures { OnOk result (string_bytes text.new
        ≡ string_bytes text.old ++ spec.lines_of plans.now word) }
{
    match plans.get(word) {
        Some(plan) => push_word(text, &plan.named, word),
        None => Ok(()),
    }
}

/// Adds the number of a word, its bits, and the names of what it has.
fn push_word(text: &mut String, named: &NamedPlan, word: usize) -> Result<(), AllocError>
    ensures { OnOk result (string_bytes text.new
        ≡ string_bytes text.old ++ spec.word_lines named.now word) }
{
    push_number(text, word)?;
    push_width(text, named.layout())?;
    push_named(text, named)
}

/// Adds the number of a word.
pub(crate) fn push_number(text: &mut String, word: usize) -> Result<(), AllocError>
    ensures { OnOk result (string_bytes text.new
        ≡ string_bytes text.old ++ spec.number_words word) }
{
    write!(text, "word {word}: ")
}

/// Adds the names of what a word has.
fn push_named(text: &mut String, named: &NamedPlan) -> Result<(), AllocError>
    ensures { OnOk result (string_bytes text.new
        ≡ string_bytes text.old ++ spec.named_lines named.now) }
{
    push_indented(text, "zone", named.zones())?;
    push_indented(text, "place", named.places())?;
    push_indented(text, "pose", named.poses())
}

/// Adds how many names of a kind there are, and the names, after two blanks.
fn push_indented(text: &mut String, kind: &str, names: &Names) -> Result<(), AllocError>
    ensures { OnOk result (string_bytes text.new
        ≡ string_bytes text.old ++ spec.indented kind.now names.now) }
{
    text.push_str("  ")?;
    push_names(text, kind, names)
}

/// Adds what is said of each hazard, by the titles in the plan of the first word.
fn push_titled(
    text: &mut String,
    plans: &[ProgrammedPlan],
    keepers: &[Option<Keeper>],
) -> Result<(), AllocError>
    ensures { OnOk result (string_bytes text.new ≡ string_bytes text.old
        ++ spec.titled_lines plans.now (slice_get plans.now 0) keepers.now) }
{
    match plans.get(0) {
        Some(plan) => push_hazards(text, plans, &plan.motors.hazard_names, keepers),
        None => Ok(()),
    }
}

/// Adds what is said of each hazard.
fn push_hazards(
    text: &mut String,
    plans: &[ProgrammedPlan],
    titles: &Names,
    keepers: &[Option<Keeper>],
) -> Result<(), AllocError>
    ensures { OnOk result (string_bytes text.new ≡ string_bytes text.old
        ++ spec.hazard_lines plans.now titles.now keepers.now) }
{
    'hazards: for hazard in 0..titles.len() as u8 {
        push_hazard(text, plans, titles, keepers, hazard)?;
    }
    Ok(())
}

/// Adds what is said of a hazard, if it has been looked at.
fn push_hazard(
    text: &mut String,
    plans: &[ProgrammedPlan],
    titles: &Names,
    keepers: &[Option<Keeper>],
    hazard: u8,
) -> Result<(), AllocError>
    ensures { OnOk result (string_bytes text.new ≡ string_bytes text.old
        ++ spec.hazard_line plans.now titles.now keepers.now hazard) }
{
    match keepers.get(usize::from(hazard)) {
        Some(keeper) => push_line(text, plans, titles, hazard, *keeper),
        None => Ok(()),
    }
}

/// Adds the title of a hazard, and which word keeps its motors apart.
fn push_line(
    text: &mut String,
    plans: &[ProgrammedPlan],
    titles: &Names,
    hazard: u8,
    keeper: Option<Keeper>,
) -> Result<(), AllocError>
    ensures { OnOk result (string_bytes text.new ≡ string_bytes text.old
        ++ spec.keeper_line plans.now titles.now hazard keeper) }
{
    push_two(text, titles.name(hazard), ": ")?;
    push_keeper(text, plans, keeper)?;
    text.push_str("\n")
}

/// Adds which word keeps two motors apart, and by what; or that none does.
pub(crate) fn push_keeper(
    text: &mut String,
    plans: &[ProgrammedPlan],
    keeper: Option<Keeper>,
) -> Result<(), AllocError>
    ensures { OnOk result (string_bytes text.new
        ≡ string_bytes text.old ++ spec.keeper_words plans.now keeper) }
{
    match keeper {
        Some(keeper) => push_kept(text, plans, keeper),
        None => text.push_str(BY_NONE),
    }
}

/// Adds the word that keeps two motors apart, and by what.
fn push_kept(text: &mut String, plans: &[ProgrammedPlan], keeper: Keeper) -> Result<(), AllocError>
    ensures { OnOk result (string_bytes text.new ≡ string_bytes text.old
        ++ spec.words_by (slice_get plans.now keeper.word) keeper) }
{
    match plans.get(keeper.word) {
        Some(plan) => push_apart(text, &plan.named, keeper),
        None => Ok(()),
    }
}

fn push_apart(text: &mut String, named: &NamedPlan, keeper: Keeper) -> Result<(), AllocError>
    ensures { OnOk result (string_bytes text.new
        ≡ string_bytes text.old ++ spec.apart_words named.now keeper) }
{
    push_verdict(text, named, keeper.verdict)?;
    let word = keeper.word;
    write!(text, " on word {word}")
}
