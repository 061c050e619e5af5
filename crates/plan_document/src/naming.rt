//! The names of a plant, and those on one of its words.
ghost use Rattle.std.specs.Prelude.{◌≡◌, ◌++◌, option_to_list, slice_get, OnOk, IfOk};
ghost use Rattle.plan_text.specs.Calls.{verb_of};
ghost use Rattle.plan_document.specs.OnWord as spec;

use crate::fault::{DocumentFault, Key, too_many};
use crate::tables::push_name;
use plan_text::calls::Verb;
use plan_text::{MAX_NAMES, Names};
use std::alloc::Global;

/// The names of one kind in a plant, and those on one of its words.
#[derive(Drop)]
pub struct KindNames {
    /// Those in the plant.
    pub all: Names,
    /// Those on the word.
    pub own: Names,
}

/// Whether a name is one of these.
fn is_name_of(names: &Names, name: &[u8]) -> bool
    ensures { result ≡ spec.is_name_of names.now name.now }
{
    names.number_of(name).is_some()
}

/// Copies of the names with these numbers.
fn pick_names(alloc: Global, names: &Names, numbers: &[usize]) -> Result<Names, DocumentFault>
    ensures { IfOk result (λ copies. copies ≡ spec.picked names.now numbers.now) }
{
    let mut copies = Names::new(alloc);
    'numbers: for i in 0..numbers.len() {
        push_name_at(alloc, names, numbers[i], &mut copies)?;
    }
    Ok(copies)
}

/// Copies of these names.
fn copy_names(alloc: Global, names: &Names) -> Result<Names, DocumentFault>
    ensures { IfOk result (λ copies. copies ≡ names.now) }
{
    let mut copies = Names::new(alloc);
    'names: for number in 0..names.len() {
        push_name_at(alloc, names, number, &mut copies)?;
    }
    Ok(copies)
}

/// Adds a copy of a name, if there is one with this number.
fn push_name_at(
    alloc: Global,
    names: &Names,
    number: usize,
    copies: &mut Names,
) -> Result<(), DocumentFault>
    ensures { OnOk result (copies.new ≡ copies.old ++ option_to_list (slice_get names.now number)) }
{
    if number < names.len() {
        if copies.len() >= MAX_NAMES {
            return Err(too_many(Key::Zone, MAX_NAMES));
        }
        push_name(alloc, copies, names.name(number as u8))?;
    }
    Ok(())
}

impl KindNames {
    /// These names, and those with these numbers.
    pub fn new(alloc: Global, all: &Names, numbers: &[usize]) -> Result<KindNames, DocumentFault>
        ensures { IfOk result (λ names. names ≡ spec.names_on all.now numbers.now) }
    {
        let own = pick_names(alloc, all, numbers)?;
        let all = copy_names(alloc, all)?;
        Ok(KindNames { all, own })
    }

    /// Whether a name is one of the word's, or of no word.
    pub fn is_here(&self, name: &[u8]) -> bool
        ensures { result ≡ spec.is_here self.now name.now }
    {
        is_name_of(&self.own, name) || !is_name_of(&self.all, name)
    }
}

/// What stands before the first blank.
fn first_word(text: &[u8]) -> &[u8]
    ensures { result.now ≡ spec.first_word text.now }
{
    let mut end = 0;
    'bytes: while end < text.len() && text[end] != b' ' {
        end += 1;
    }
    &text[..end]
}

/// What stands between the first blank and the second one.
fn second_word(text: &[u8]) -> &[u8]
    ensures { result.now ≡ spec.second_word text.now }
{
    match text.get(first_word(text).len() + 1..) {
        Some(rest) => first_word(rest),
        None => &[],
    }
}

/// Whether what a verb says of a name is said of this word.
fn stands_by(
    zones: &KindNames,
    places: &KindNames,
    poses: &KindNames,
    verb: &[u8],
    name: &[u8],
) -> bool
    ensures { result ≡ spec.stands_by zones.now places.now poses.now verb.now name.now
        (verb_of verb.now) }
{
    match Verb::read(verb) {
        Some(Verb::Pose) => poses.is_here(name),
        Some(Verb::Advance) => places.is_here(name),
        Some(_) => zones.is_here(name),
        None => verb != b"await".as_slice() || zones.is_here(name),
    }
}

/// Whether a line of a program stands in the document of this word.
pub fn stands_on(zones: &KindNames, places: &KindNames, poses: &KindNames, line: &[u8]) -> bool
    ensures { result ≡ spec.stands_on zones.now places.now poses.now line.now }
{
    stands_by(zones, places, poses, first_word(line), second_word(line))
}
