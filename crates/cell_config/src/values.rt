//! Values at keys.

ghost use Rattle.std.specs.Prelude.{◌≡◌, ◌≤◌, IfOk, option_map};
ghost use Rattle.toml.specs.Data.{as_integer, get_member};
ghost use Rattle.toml.specs.View.{table_view, view};
ghost use Rattle.cell_config.specs.Steps.{at_key};
ghost use Rattle.cell_config.specs.Settings.{number_within};

use crate::fault::ConfigFault;
use toml::{Table, Value};

/// The value at a key.
pub fn value_at<'a>(table: &'a Table, key: &str) -> Option<&'a Value>
    ensures { option_map (λ v. view v.now) result ≡ get_member key.now (table_view table.now) }
{
    table.get(key)
}

/// The number, if it is within limits; else `Range`.
pub fn number_within(number: i64, least: u32, most: u32) -> Result<u32, ConfigFault>
    ensures value { result ≡ number_within least most number }
    ensures limits { IfOk result (λ n. (least ≤ n) × (n ≤ most)) }
{
    match u32::try_from(number) {
        Ok(number) if least <= number && number <= most => Ok(number),
        _ => Err(ConfigFault::Range),
    }
}

/// The whole number at a key, or a default if the key is absent.
///
/// `Kind` if the value is no whole number, `Range` if it is out of range.
pub fn number_at(
    table: &Table,
    key: &str,
    least: u32,
    most: u32,
    default: u32,
) -> Result<u32, ConfigFault>
    requires { (least ≤ default) × (default ≤ most) }
    ensures value { result
        ≡ at_key key.now as_integer default (number_within least most) (table_view table.now) }
    ensures limits { IfOk result (λ n. (least ≤ n) × (n ≤ most)) }
{
    match value_at(table, key) {
        None => Ok(default),
        Some(value) => match value.as_integer() {
            None => Err(ConfigFault::Kind),
            Some(number) => number_within(number, least, most),
        },
    }
}
