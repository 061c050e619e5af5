//! What is wrong with a later record of a script.

use crate::fields::{Field, MAX_FIELDS};
use crate::records::{Record, record_at};
use crate::start_words::{field_of, is_version};
use cell_types::{Call, Machine, Pose, Zone};
use std::alloc::{AllocError, Global};

/// What is said where nothing else is known.
const NO_CALL: &str = "it is no call";

/// What stands after a verb.
#[derive(Clone, Copy)]
enum Object {
    Nothing,
    Zone,
    Pose,
}

/// The verbs that take a zone.
fn zone_verbs() -> [&'static str; 6] {
    let zone = Zone::Z1;
    [
        Call::Claim(zone).verb(),
        Call::Give(zone).verb(),
        Call::Yield(zone).verb(),
        Call::Take(zone).verb(),
        Call::Release(zone).verb(),
        Call::Inquire(zone).verb(),
    ]
}

/// All verbs.
fn verbs() -> [&'static str; 10] {
    let [claim, give, hand_back, take, release, inquire] = zone_verbs();
    let pose = Call::SetPose(Pose::Low).verb();
    let advance = Call::Advance.verb();
    let stop = Call::Stop.verb();
    let resume = Call::Resume.verb();
    [
        claim, give, hand_back, take, release, inquire, pose, advance, stop, resume,
    ]
}

/// What stands after this verb; `None` if it is no verb.
fn object_of(verb: &[u8]) -> Option<Object> {
    if zone_verbs().iter().any(|word| word.as_bytes() == verb) {
        return Some(Object::Zone);
    }
    if verb == b"pose".as_slice() {
        return Some(Object::Pose);
    }
    if verbs().iter().any(|word| word.as_bytes() == verb) {
        return Some(Object::Nothing);
    }
    None
}

/// Adds why the record with this number is no call.
pub fn push_bad_row(
    alloc: Global,
    words: &mut String,
    script: &[u8],
    number: u32,
) -> Result<(), AllocError> {
    match record_at(alloc, script, number)? {
        Some(record) => push_bad_record(alloc, words, script, &record),
        None => words.push_str(NO_CALL),
    }
}

/// Adds why a record is no call.
fn push_bad_record(
    alloc: Global,
    words: &mut String,
    script: &[u8],
    record: &Record,
) -> Result<(), AllocError> {
    let Some(machine) = field_of(record, 0) else {
        return words.push_str(NO_CALL);
    };
    if machine.bytes.starts_with(b"#".as_slice()) {
        return machine.push_comment(words);
    }
    if is_version(machine.bytes) {
        return machine.push_wrong(words, " begins a script; it stands in record 0 alone");
    }
    if Machine::read(machine.bytes).is_none() {
        let machines = Machine::ALL.map(|machine| machine.word());
        return machine.push_unknown(alloc, words, "machine", &machines);
    }
    let is_first = is_first_version(alloc, script)?;
    push_bad_call(alloc, words, record, is_first)
}

/// Whether a script can't stop the cell.
fn is_first_version(alloc: Global, script: &[u8]) -> Result<bool, AllocError> {
    match record_at(alloc, script, 0)? {
        Some(record) => Ok(record.row.get(0) == Some(b"start".as_slice())),
        None => Ok(false),
    }
}

/// Adds why the fields after the machine's are no call.
fn push_bad_call(
    alloc: Global,
    words: &mut String,
    record: &Record,
    is_first: bool,
) -> Result<(), AllocError> {
    let line = record.line;
    let Some(verb) = field_of(record, 1) else {
        return write!(
            words,
            "line {line}: a verb is missing after the machine, such as claim"
        );
    };
    let Some(object) = object_of(verb.bytes) else {
        return verb.push_unknown(alloc, words, "verb", &verbs());
    };
    if is_first && (verb.bytes == b"stop".as_slice() || verb.bytes == b"resume".as_slice()) {
        verb.push_place(words)?;
        return words.push_str(" needs a script that begins with start2, not with start");
    }
    if let Some(more) = field_of(record, MAX_FIELDS) {
        return more.push_wrong(words, "; a call has at most three fields");
    }
    push_bad_object(alloc, words, verb, object, field_of(record, 2))
}

/// Adds why a field is no object of a verb.
fn push_bad_object(
    alloc: Global,
    words: &mut String,
    verb: Field<'_>,
    wanted: Object,
    found: Option<Field<'_>>,
) -> Result<(), AllocError> {
    let Some(field) = found else {
        return push_no_object(words, verb, wanted);
    };
    match wanted {
        Object::Nothing => field.push_wrong(words, "; no field follows this verb"),
        Object::Zone => {
            let zones = Zone::ALL.map(|zone| zone.word());
            field.push_unknown(alloc, words, "zone", &zones)
        }
        Object::Pose => {
            let poses = Pose::ALL.map(|pose| pose.word());
            field.push_unknown(alloc, words, "pose", &poses)
        }
    }
}

/// Adds that a verb needs an object.
fn push_no_object(words: &mut String, verb: Field<'_>, wanted: Object) -> Result<(), AllocError> {
    let needs = match wanted {
        Object::Nothing => return words.push_str(NO_CALL),
        Object::Zone => " needs a zone after it, z1 to z6",
        Object::Pose => " needs a pose after it, such as middle",
    };
    verb.push_place(words)?;
    words.push_str(needs)
}
