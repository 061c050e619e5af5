//! What a picture says of each hazard.
ghost use Rattle.std.specs.Prelude.{◌≡◌, ◌≤◌, ◌<◌, IfOk, OnOk, map, string_bytes};
ghost use Rattle.plan_motors.specs.Verdict as of_motors;
ghost use Rattle.plan_picture.specs.Pictures as spec;

use crate::verdicts::{push_verdict, verdicts_of};
use plan_document::ProgrammedPlan;
use plan_motors::Verdict;
use plan_text::NamedPlan;
use std::alloc::{AllocError, Global};
use std::marker::Model;

/// What is said of a hazard: whether its motors are kept apart, and by what, in words.
#[derive(Debug, Drop)]
pub struct Finding {
    kept: bool,
    words: String,
}

impl Model for Finding {
    ghost use Rattle.std.specs.Prelude.{string_bytes};
    ghost use Rattle.plan_picture.specs.Pictures.{Found};

    ghost Value = { Found };

    ghost view = { λ a. record { kept = a.kept; words = string_bytes a.words } };
}

impl Finding {
    /// Whether motors are kept apart, and words that say by what, or that they aren't.
    pub fn new(kept: bool, words: String) -> Finding
        ensures kept { result.kept ≡ kept }
        ensures words { result.words ≡ string_bytes words }
    {
        Finding { kept, words }
    }

    /// Whether the motors are kept apart.
    pub fn is_kept(&self) -> bool
        ensures { result ≡ self.now.kept }
    {
        self.kept
    }

    /// By what, in words.
    pub fn words(&self) -> &str
        ensures { result.now ≡ self.now.words }
    {
        self.words.as_str()
    }
}

/// What is said of each hazard of a plan. An error says that memory ran out.
pub(crate) fn findings_of(alloc: Global, plan: &ProgrammedPlan) -> Result<Vec<Finding>, AllocError>
    ensures { IfOk result (λ found. spec.AreFound plan.now found.items) }
{
    let verdicts = verdicts_of(alloc, plan)?;
    findings_by(alloc, &plan.named, verdicts.as_slice())
}

/// What is said by what is shown of each hazard.
fn findings_by(
    alloc: Global,
    named: &NamedPlan,
    verdicts: &[Verdict],
) -> Result<Vec<Finding>, AllocError>
    ensures { IfOk result (λ found. found.items ≡ map (spec.found_by named.now) verdicts.now) }
{
    let mut found = Vec::new(alloc);
    'verdicts: for i in 0..verdicts.len() {
        found.push(finding_of(alloc, named, verdicts[i])?)?;
    }
    Ok(found)
}

/// What is said by what is shown of a hazard.
fn finding_of(alloc: Global, named: &NamedPlan, verdict: Verdict) -> Result<Finding, AllocError>
    ensures { IfOk result (λ found. found ≡ spec.found_by named.now verdict) }
{
    let mut words = String::new(alloc);
    push_verdict(&mut words, named, verdict)?;
    Ok(Finding::new(is_never(verdict), words))
}

/// Whether what is shown keeps two motors apart.
fn is_never(verdict: Verdict) -> bool
    ensures { result ≡ of_motors.is_never verdict }
{
    match verdict {
        Verdict::Excluded(_) | Verdict::ByPoses(_) => true,
        Verdict::Possible(_) => false,
    }
}

/// The class of what is said of a hazard.
pub(crate) fn found_class(kept: bool) -> &'static str
    ensures { result.now ≡ spec.found_class kept }
{
    if kept { "kept" } else { "unkept" }
}
