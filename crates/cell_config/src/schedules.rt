//! The schedule: a text with a letter for each turn.

ghost use Rattle.std.specs.Prelude.{◌≡◌, ◌≢◌, ◌<◌, ℕ, None, Ok, Err, MatchResult, length, chars, nat_lt};
ghost use Rattle.std.specs.Prelude.{slice_index_or};
ghost use Rattle.toml.specs.View.{table_view};
ghost use Rattle.cell_config.specs.Letters as letters;
ghost use Rattle.cell_config.specs.Settings as settings;
ghost use Rattle.cell_config.specs.declared.fault.ConfigFault.TheVariants.{Memory};

use crate::fault::ConfigFault;
use crate::letters::turn_of;
use crate::values::value_at;
use cell_notes::Turn;
use std::alloc::Global;
use toml::Table;

/// The most letters of a schedule.
pub const MAX_LETTERS: usize = 1_000_000;

/// How many ASCII characters there are.
const ASCII: usize = 128;

/// The turn of each ASCII character; every letter is one. A table replaces the search of `turn_of`,
/// whose branches no processor predicts.
fn ascii_turns() -> [Option<Turn>; ASCII]
    ensures { (code : ℕ) → code < 128 → slice_index_or result code None ≡ letters.turn_of code }
{
    let mut turns = [None; ASCII];
    for code in 0..128u8 {
        turns[usize::from(code)] = turn_of(code);
    }
    turns
}

/// Whether a text has more characters than a schedule may have. It has at least as many bytes as
/// characters.
fn is_too_long(text: &str) -> bool
    ensures { result ≡ nat_lt letters.max_letters (length (chars text.now)) }
{
    text.len() > MAX_LETTERS && text.chars().count() > MAX_LETTERS
}

/// The turns of a text of letters.
///
/// `Range` if the text has more than 1,000,000 characters, `Letter` if one of them is no letter,
/// and `Memory` if memory ran out.
fn turns_of(alloc: Global, text: &str) -> Result<Vec<Turn>, ConfigFault>
    ensures { MatchResult result
        (λ turns. letters.turns_of text.now ≡ Ok turns.items)
        (λ fault. fault ≢ Memory → letters.turns_of text.now ≡ Err fault) }
{
    if is_too_long(text) {
        return Err(ConfigFault::Range);
    }
    if !text.is_ascii() {
        return Err(ConfigFault::Letter);
    }
    let mut turns = Vec::with_capacity(alloc, text.len())?;
    let ascii = ascii_turns();
    'letters: for letter in text.as_bytes() {
        let Some(turn) = ascii[usize::from(*letter)] else {
            return Err(ConfigFault::Letter);
        };
        turns.push(turn)?;
    }
    Ok(turns)
}

/// The turns in a table's key `schedule`, or none if the key is absent. `Kind` if its value is no
/// text; `Range`, `Letter` and `Memory` as for a text.
pub fn schedule_at(alloc: Global, table: &Table) -> Result<Vec<Turn>, ConfigFault>
    ensures { MatchResult result
        (λ turns. settings.schedule_at (table_view table.now) ≡ Ok turns.items)
        (λ fault. fault ≢ Memory → settings.schedule_at (table_view table.now) ≡ Err fault) }
{
    let Some(value) = value_at(table, "schedule") else {
        return Ok(Vec::new(alloc));
    };
    let Some(text) = value.as_str() else {
        return Err(ConfigFault::Kind);
    };
    turns_of(alloc, text)
}
