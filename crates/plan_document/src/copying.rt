//! Copies of rows: of all, or of those with some numbers.
ghost use Rattle.std.specs.Prelude.{◌≡◌, ◌++◌, map, option_map, option_to_list, slice_get, string_bytes, IfOk, OnOk};
ghost use Rattle.plan_document.specs.OnWord.{picked};
ghost use Rattle.plan_document.specs.Texts as texts;

use crate::document::{HazardRow, PoseRow, PostureRow, WayRow, ZoneRow};
use crate::values::copy;
use std::alloc::{AllocError, Global};

/// A row that can be copied.
pub trait RowCopy: Drop {
    ghost use Rattle.std.specs.Prelude.{◌≡◌, IfOk};

    // The texts of a row.
    ghost Texts: { Type 0 };

    ghost texts: { Self → Texts };

    /// A row with the same texts.
    fn copy_row(&self, alloc: Global) -> Result<Self, AllocError>
        ensures { IfOk result (λ copied. texts copied ≡ texts self.now) };
}

/// Copies of these rows.
pub fn copies<R: RowCopy>(alloc: Global, rows: &[R]) -> Result<Vec<R>, AllocError>
    ensures { IfOk result (λ copies. map R.texts copies.items ≡ map R.texts rows.now) }
{
    let mut copies = Vec::new(alloc);
    'rows: for i in 0..rows.len() {
        let copied = rows[i].copy_row(alloc)?;
        copies.push(copied)?;
    }
    Ok(copies)
}

/// Copies of the rows with these numbers.
pub fn copies_of<R: RowCopy>(
    alloc: Global,
    rows: &[R],
    numbers: &[usize],
) -> Result<Vec<R>, AllocError>
    ensures { IfOk result (λ copies.
        map R.texts copies.items ≡ picked (map R.texts rows.now) numbers.now) }
{
    let mut copies = Vec::new(alloc);
    'numbers: for i in 0..numbers.len() {
        push_copy(alloc, rows, numbers[i], &mut copies)?;
    }
    Ok(copies)
}

/// Adds a copy of the row with a number, if there is one.
fn push_copy<R: RowCopy>(
    alloc: Global,
    rows: &[R],
    number: usize,
    copies: &mut Vec<R>,
) -> Result<(), AllocError>
    ensures { OnOk result (map R.texts copies.new.items
        ≡ map R.texts copies.old.items ++ option_to_list (slice_get (map R.texts rows.now) number)) }
{
    if number < rows.len() {
        let copied = rows[number].copy_row(alloc)?;
        copies.push(copied)?;
    }
    Ok(())
}

impl RowCopy for String {
    ghost use Rattle.std.specs.Prelude.{string_bytes};
    ghost use Rattle.plan_text.specs.Names.{Text};

    ghost Texts = { Text };

    ghost texts = { string_bytes };

    fn copy_row(&self, alloc: Global) -> Result<String, AllocError> {
        copy(alloc, self.as_str())
    }
}

impl RowCopy for PostureRow {
    ghost use Rattle.plan_document.specs.Texts.{PostureTexts, posture_texts};

    ghost Texts = { PostureTexts };

    ghost texts = { posture_texts };

    fn copy_row(&self, alloc: Global) -> Result<PostureRow, AllocError> {
        let zone = copy(alloc, self.zone.as_str())?;
        let posture = copy(alloc, self.posture.as_str())?;
        Ok(PostureRow { zone, posture })
    }
}

impl RowCopy for PoseRow {
    ghost use Rattle.plan_document.specs.Texts.{PoseTexts, pose_texts};

    ghost Texts = { PoseTexts };

    ghost texts = { pose_texts };

    fn copy_row(&self, alloc: Global) -> Result<PoseRow, AllocError> {
        let name = copy(alloc, self.name.as_str())?;
        let gives = copies(alloc, &self.gives)?;
        Ok(PoseRow {
            name,
            gives,
            after_moving: self.after_moving,
        })
    }
}

impl RowCopy for HazardRow {
    ghost use Rattle.plan_document.specs.Texts.{HazardTexts, hazard_texts};

    ghost Texts = { HazardTexts };

    ghost texts = { hazard_texts };

    fn copy_row(&self, alloc: Global) -> Result<HazardRow, AllocError> {
        let name = copy(alloc, self.name.as_str())?;
        let first = copy(alloc, self.first.as_str())?;
        let second = copy(alloc, self.second.as_str())?;
        Ok(HazardRow {
            name,
            first,
            second,
        })
    }
}

impl RowCopy for ZoneRow {
    ghost use Rattle.plan_document.specs.Texts.{ZoneTexts, zone_texts};

    ghost Texts = { ZoneTexts };

    ghost texts = { zone_texts };

    fn copy_row(&self, alloc: Global) -> Result<ZoneRow, AllocError> {
        let space = copy_if(alloc, &self.space)?;
        let name = copy(alloc, self.name.as_str())?;
        let host = copy(alloc, self.host.as_str())?;
        let guest = copy(alloc, self.guest.as_str())?;
        let inward = copy_way(alloc, &self.inward)?;
        let outward = copy_way(alloc, &self.outward)?;
        Ok(ZoneRow {
            at: self.at,
            space,
            joins: self.joins,
            name,
            host,
            guest,
            inward,
            outward,
        })
    }
}

fn copy_if(alloc: Global, text: &Option<String>) -> Result<Option<String>, AllocError>
    ensures { IfOk result (λ copied.
        option_map string_bytes copied ≡ option_map string_bytes text.now) }
{
    match text {
        Some(text) => Ok(Some(copy(alloc, text.as_str())?)),
        None => Ok(None),
    }
}

fn copy_way(alloc: Global, way: &Option<WayRow>) -> Result<Option<WayRow>, AllocError>
    ensures { IfOk result (λ copied.
        option_map texts.way_texts copied ≡ option_map texts.way_texts way.now) }
{
    let Some(way) = way else {
        return Ok(None);
    };
    let from = copy(alloc, way.from.as_str())?;
    let to = copy(alloc, way.to.as_str())?;
    Ok(Some(WayRow { from, to }))
}
