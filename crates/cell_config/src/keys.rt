//! Which keys a configuration may have.

ghost use Rattle.std.specs.Prelude.{◌≡◌};
ghost use Rattle.toml.specs.View.{table_view, view};
ghost use Rattle.cell_config.specs.Keys as keys;

use toml::{Table, Value};

/// The keys at the top with plain values.
pub const PLAIN_KEYS: [&str; 3] = ["start", "stamp", "schedule"];

/// The keys at the top with sections.
pub const SECTION_KEYS: [&str; 5] = ["arm1", "arm2", "rotation", "turn", "gripper"];

/// The keys of a section.
pub const INNER_KEYS: [&str; 3] = ["raw", "tol", "points"];

fn is_plain_key(key: &str) -> bool
    ensures { result ≡ keys.is_one_of keys.plain_keys key.now }
{
    PLAIN_KEYS.contains(&key)
}

fn is_section_key(key: &str) -> bool
    ensures { result ≡ keys.is_one_of keys.section_keys key.now }
{
    SECTION_KEYS.contains(&key)
}

fn is_inner_key(key: &str) -> bool
    ensures { result ≡ keys.is_one_of keys.inner_keys key.now }
{
    INNER_KEYS.contains(&key)
}

/// Whether a section has only known keys.
fn has_inner_keys(section: &Table) -> bool
    ensures { result ≡ keys.has_inner_keys (table_view section.now) }
{
    'keys: for (key, _) in section.iter() {
        if !is_inner_key(key.as_str()) {
            return false;
        }
    }
    true
}

/// Whether a section has only known keys, if it is a table.
fn is_known_inside(value: &Value) -> bool
    ensures { result ≡ keys.is_known_inside (view value.now) }
{
    match value.as_table() {
        Some(section) => has_inner_keys(section),
        None => true,
    }
}

fn is_known_entry(key: &str, value: &Value) -> bool
    ensures { result ≡ keys.is_known_entry (key.now, view value.now) }
{
    is_plain_key(key) || is_section_key(key) && is_known_inside(value)
}

/// Whether all keys are known, at the top and in each section that is a table.
pub fn is_known(table: &Table) -> bool
    ensures { result ≡ keys.is_known (table_view table.now) }
{
    'entries: for (key, value) in table.iter() {
        if !is_known_entry(key.as_str(), value) {
            return false;
        }
    }
    true
}
