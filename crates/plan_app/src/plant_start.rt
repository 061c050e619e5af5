//! The start of a plant on several words. Record 0 of a script has a digit for each place of the plant; each word has
//! the start of its places' digits.
ghost use Rattle.std.specs.Prelude.{◌≡◌, ◌<◌, List, IfOk, [], get_or, length, map, nat_eq, nat_lt, set};
ghost use Rattle.std.specs.List.{range_with_len};
ghost use Rattle.csv.specs.Records.{fields_of};
ghost use Rattle.csv_rows.specs.Rows.{HasRows, IsPlain, Row};
ghost use Rattle.plan_types.specs.Table.{place_count};
ghost use Rattle.plan_words.specs.Plant.{IsOnWords};
ghost use Rattle.plan_app.specs.PlantStarts as spec;

use csv::{ByteRecord, Reader, ReaderBuilder};
use csv_rows::{ScriptFault, read_row};
use plan_document::ProgrammedPlant;
use plan_rules::State;
use plan_text::start::read_start;
use plan_words::Words;
use std::alloc::{AllocError, Global};
use std::io::Read;
use text_io::InputFault;

/// The opening of each word in record 0 of a script, or why there are none. `Read` or `Memory`: it wasn't read.
pub fn openings_of_script(
    alloc: Global,
    plant: &ProgrammedPlant,
    script: &[u8],
) -> Result<Result<Vec<State>, ScriptFault>, InputFault>
    requires { spec.HasWords plant.now }
    ensures { IfOk result (λ openings. spec.listed openings
        ≡ spec.plant_start plant.now script.now) }
{
    let mut reader = ReaderBuilder::new()
        .has_headers(false)
        .flexible(true)
        .from_reader(alloc, script);
    openings_of_rows(alloc, plant, &mut reader)
}

/// Those in the first record that a reader has left.
fn openings_of_rows<R: Read>(
    alloc: Global,
    plant: &ProgrammedPlant,
    reader: &mut Reader<R>,
) -> Result<Result<Vec<State>, ScriptFault>, InputFault>
    requires words { spec.HasWords plant.now }
    requires plain { IsPlain reader.old }
    ensures { IfOk result (λ openings. (rows : List Row) → HasRows R.remaining reader.old rows →
        spec.listed openings ≡ spec.rows_openings plant.now.words
        (spec.tables_of plant.now.plans.items) rows) }
{
    let mut row = ByteRecord::new(alloc);
    if !read_row(reader, &mut row)? {
        return Ok(Err(ScriptFault::NoStart));
    }
    Ok(openings_of_row(alloc, plant, &row)?)
}

/// The opening of each word in a record. `BadStart` too if it hasn't as many digits as the plant has places.
fn openings_of_row(
    alloc: Global,
    plant: &ProgrammedPlant,
    row: &ByteRecord,
) -> Result<Result<Vec<State>, ScriptFault>, AllocError>
    requires { spec.HasWords plant.now }
    ensures { IfOk result (λ openings. spec.listed openings ≡ spec.openings_in plant.now.words
        (spec.tables_of plant.now.plans.items) (fields_of row.now)) }
{
    let counted = has_digits(&plant.words, row);
    Ok(if_counted(counted, starts_of(alloc, plant, row)?))
}

/// Those starts, if the digits are counted right.
fn if_counted(
    counted: bool,
    starts: Result<Vec<State>, ScriptFault>,
) -> Result<Vec<State>, ScriptFault>
    ensures { spec.listed result ≡ spec.if_counted counted (spec.listed starts) }
{
    match starts {
        Err(fault) => Err(fault),
        Ok(starts) => {
            if counted {
                Ok(starts)
            } else {
                Err(ScriptFault::BadStart)
            }
        }
    }
}

// ---- how many digits there are

/// Whether a record has as many digits as a plant has places.
fn has_digits(words: &Words, row: &ByteRecord) -> bool
    requires { IsOnWords words.now }
    ensures { result ≡ spec.has_digits (place_count words.now.plant) (fields_of row.now) }
{
    is_place_count(words, digits_in(row).len())
}

/// Whether this is how many places a plant has.
fn is_place_count(words: &Words, count: usize) -> bool
    requires { IsOnWords words.now }
    ensures { result ≡ nat_eq count (place_count words.now.plant) }
{
    !has_place(words, count) && (count == 0 || has_place(words, count - 1))
}

/// Whether a plant has the place with this number.
fn has_place(words: &Words, place: usize) -> bool
    requires { IsOnWords words.now }
    ensures { result ≡ nat_lt place (place_count words.now.plant) }
{
    words.place(place).is_some()
}

/// The digits in a record.
fn digits_in(row: &ByteRecord) -> &[u8]
    ensures { result.now ≡ get_or (fields_of row.now) 1 [] }
{
    field_of(row, 1)
}

/// The field of a record at a place; none is empty.
fn field_of(row: &ByteRecord, at: usize) -> &[u8]
    ensures { result.now ≡ get_or (fields_of row.now) at [] }
{
    match row.get(at) {
        Some(field) => field,
        None => &[],
    }
}

// ---- the start of each word

/// The start of each word, or the first fault.
fn starts_of(
    alloc: Global,
    plant: &ProgrammedPlant,
    row: &ByteRecord,
) -> Result<Result<Vec<State>, ScriptFault>, AllocError>
    requires { spec.HasWords plant.now }
    ensures { IfOk result (λ starts. spec.listed starts ≡ spec.all_starts
        (map (spec.start_on plant.now.words (spec.tables_of plant.now.plans.items)
        (fields_of row.now)) (range_with_len 0 (length plant.now.plans.items)))) }
{
    let mut starts = Vec::new(alloc);
    for word in 0..plant.plans.len() {
        match start_on(alloc, plant, row, word)? {
            Ok(start) => starts.push(start)?,
            Err(fault) => return Ok(Err(fault)),
        }
    }
    Ok(Ok(starts))
}

/// The start of a word.
fn start_on(
    alloc: Global,
    plant: &ProgrammedPlant,
    row: &ByteRecord,
    word: usize,
) -> Result<Result<State, ScriptFault>, AllocError>
    requires words { spec.HasWords plant.now }
    requires there { word < length plant.now.plans.items }
    ensures { IfOk result (λ start. start ≡ spec.start_on plant.now.words
        (spec.tables_of plant.now.plans.items) (fields_of row.now) word) }
{
    let row = row_on(alloc, row, plant.words.places(word))?;
    Ok(read_start(&plant.plans[word].named, &row))
}

/// A record with the digits of these places alone.
fn row_on(alloc: Global, row: &ByteRecord, places: &[usize]) -> Result<ByteRecord, AllocError>
    ensures { IfOk result (λ on_word. fields_of on_word
        ≡ spec.row_on (fields_of row.now) places.now) }
{
    let digits = digits_at(alloc, digits_in(row), places)?;
    row_with(alloc, row, digits.as_slice())
}

/// The digits of these places.
fn digits_at(alloc: Global, digits: &[u8], places: &[usize]) -> Result<Vec<u8>, AllocError>
    ensures { IfOk result (λ own. own.items ≡ spec.digits_at digits.now places.now) }
{
    places
        .iter()
        .map(|place| digit_of(digits, *place))
        .collect(alloc)
}

/// The digit of a place; a byte that is no digit stands for none.
fn digit_of(digits: &[u8], place: usize) -> u8
    ensures { result ≡ get_or digits.now place 0 }
{
    digits.get(place).copied().unwrap_or(0)
}

/// A record with these digits instead of its own.
fn row_with(alloc: Global, row: &ByteRecord, digits: &[u8]) -> Result<ByteRecord, AllocError>
    ensures { IfOk result (λ made. fields_of made ≡ set (fields_of row.now) 1 digits.now) }
{
    let mut made = ByteRecord::new(alloc);
    for at in 0..row.len() {
        made.push_field(field_with(row, at, digits))?;
    }
    Ok(made)
}

/// The field of such a record at a place.
fn field_with<'a>(row: &'a ByteRecord, at: usize, digits: &'a [u8]) -> &'a [u8]
    requires { at < length (fields_of row.now) }
    ensures { result.now ≡ get_or (set (fields_of row.now) 1 digits.now) at [] }
{
    if at == 1 { digits } else { field_of(row, at) }
}
