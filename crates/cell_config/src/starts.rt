//! The start: which places are full, and the first stamp.

ghost use Rattle.std.specs.Prelude.{◌≡◌, IfOk};
ghost use Rattle.toml.specs.View.{table_view};
ghost use Rattle.cell_rules.specs.Start.{IsStartState};
ghost use Rattle.cell_config.specs.Settings as settings;

use crate::fault::ConfigFault;
use crate::values::{number_at, value_at};
use cell_rules::{LAST_STAMP, PLACES, State, read_places};
use toml::Table;

/// Which places are full, from the key `start`.
///
/// `Missing` if the key is absent, `Kind` if its value is no text, `Start` if the text isn't ten
/// digits 0 or 1.
fn places_at(table: &Table) -> Result<[bool; PLACES], ConfigFault>
    ensures { result ≡ settings.places_at (table_view table.now) }
{
    let Some(value) = value_at(table, "start") else {
        return Err(ConfigFault::Missing);
    };
    let Some(text) = value.as_str() else {
        return Err(ConfigFault::Kind);
    };
    read_places(text.as_bytes()).ok_or(ConfigFault::Start)
}

/// The start with these places and this stamp; `Start` if it isn't valid.
fn start_of(places: [bool; PLACES], stamp: u32) -> Result<State, ConfigFault>
    ensures value { result ≡ settings.start_of places stamp }
    ensures start { IfOk result IsStartState }
{
    match State::start(places, stamp) {
        Ok(start) => Ok(start),
        Err(_) => Err(ConfigFault::Start),
    }
}

/// The start in a table's keys `start` and `stamp`.
///
/// `Missing` if there is no `start`; `Kind` or `Start` if it isn't ten digits 0 or 1; then `Kind`
/// or `Range` for `stamp`; then `Start` if the start isn't valid.
pub fn start_at(table: &Table) -> Result<State, ConfigFault>
    ensures value { result ≡ settings.start_at (table_view table.now) }
    ensures start { IfOk result IsStartState }
{
    let places = places_at(table)?;
    let stamp = number_at(table, "stamp", 0, LAST_STAMP, 0)?;
    start_of(places, stamp)
}
