//! Why a record is no call, in words.
ghost use Rattle.std.specs.Prelude.{◌≡◌};
ghost use Rattle.csv.specs.Records.{fields_of};
ghost use Rattle.plan_text.specs.Reasons as spec;

use crate::NamedPlan;
use crate::calls::Verb;
use csv::ByteRecord;

/// What is said of a record whose first field names no machine.
const NO_MACHINE: &str = "field 1: no machine has this name";

/// What is said of a word before a name that isn't a verb, or not of a name.
const NO_VERB_OF_A_NAME: &str = "field 2: this isn't a verb that takes a name; \
     known: claim, give, yield, take, release, inquire, pose, advance";

/// What is said of a word with nothing after it that isn't a verb.
const NO_VERB: &str = "field 2: this isn't a verb; known: stop, resume, \
     and with a name claim, give, yield, take, release, inquire, pose, advance";

/// What is wrong with a verb and a name after it.
fn no_object(verb: Option<Verb>) -> &'static str
    ensures { result.now ≡ spec.no_object verb }
{
    match verb {
        None => NO_VERB_OF_A_NAME,
        Some(Verb::Pose) => "field 3: no pose has this name",
        Some(Verb::Advance) => "field 3: no place has this name",
        Some(_) => "field 3: no zone has this name",
    }
}

/// What is wrong with a verb and nothing after it.
fn no_name(verb: Option<Verb>) -> &'static str
    ensures { result.now ≡ spec.no_name verb }
{
    match verb {
        None => NO_VERB,
        Some(_) => "field 3: a name is missing",
    }
}

/// Why a record is no call: the number of the first field that is wrong, and what is wrong with it.
pub fn why_no_call(named: &NamedPlan, row: &ByteRecord) -> &'static str
    ensures { result.now ≡ spec.why_no_call named.now (fields_of row.now) }
{
    if row.len() > 3 {
        return "field 4: a record has at most three fields";
    }
    let Some(name) = row.get(0) else {
        return NO_MACHINE;
    };
    if named.caller(name).is_none() {
        return NO_MACHINE;
    }
    let Some(word) = row.get(1) else {
        return "field 2: a verb is missing";
    };
    match row.get(2) {
        Some(_) => no_object(Verb::read(word)),
        None => no_name(Verb::read(word)),
    }
}
