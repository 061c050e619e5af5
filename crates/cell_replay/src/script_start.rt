//! Reads the start in record 0.

ghost use Rattle.std.specs.Prelude.{◌≡◌, drop};
ghost use Rattle.csv.specs.Records.{fields_of};
ghost use Rattle.cell_replay.specs.Script as script;

use crate::version::Version;
use cell_rules::{PLACES, State, read_places};
use csv::ByteRecord;
use csv_rows::{ScriptFault, read_number};

/// The start with these places and this stamp; `BadStart` if one is absent, or both make no start.
fn start_of(places: Option<[bool; PLACES]>, stamp: Option<u32>) -> Result<State, ScriptFault>
    ensures { result ≡ script.start_of places stamp }
{
    match (places, stamp) {
        (Some(places), Some(stamp)) => {
            State::start(places, stamp).map_err(|_| ScriptFault::BadStart)
        }
        _ => Err(ScriptFault::BadStart),
    }
}

/// The version of a script, and the state that it starts from.
#[derive(Clone, Copy)]
pub struct Start {
    pub version: Version,
    pub state: State,
}

/// The start in record 0. `NoStart` if its first field is no version's word, `BadStart` if the rest
/// is no start.
#[tactic(auto, using(crate::proofs::Starts::start_shapes))]
pub fn read_start(row: &ByteRecord) -> Result<Start, ScriptFault>
    ensures { result ≡ script.start_in (fields_of row.now) }
{
    let Some(word) = row.get(0) else {
        return Err(ScriptFault::NoStart);
    };
    let Some(version) = Version::read(word) else {
        return Err(ScriptFault::NoStart);
    };
    let state = read_state(row)?;
    Ok(Start { version, state })
}

/// The state in the fields of record 0 after the first.
#[tactic(auto, using(crate::proofs::Starts::start_shapes))]
fn read_state(row: &ByteRecord) -> Result<State, ScriptFault>
    ensures { result ≡ script.start_fields (drop 1 (fields_of row.now)) }
{
    let Some(places) = row.get(1) else {
        return Err(ScriptFault::BadStart);
    };
    let Some(stamp) = row.get(2) else {
        return start_of(read_places(places), Some(0));
    };
    if row.len() > 3 {
        return Err(ScriptFault::BadStart);
    }
    start_of(read_places(places), read_number(stamp))
}
