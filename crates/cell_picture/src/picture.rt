//! Writes the picture of a run.

ghost use Rattle.std.specs.Prelude.{◌≡◌, ◌++◌, IfOk, OnOk, string_bytes};
ghost use Rattle.cell_picture.specs.Columns as columns;
ghost use Rattle.cell_picture.specs.Pictures as pictures;
ghost use Rattle.cell_picture.specs.Pictures.{IsPictureOf, ShowsPart};

use crate::pieces::{PICTURE_HEAD, PICTURE_TAIL, Piece, machines, plate};
use crate::span::{frame_at, shown_part};
use crate::values::Value;
use cell_plant::Frame;
use std::alloc::{AllocError, Global};

/// The number of values in a column.
const VALUES: usize = 101;

/// The picture of a run that has these frames: one whole element `svg`. An error says that memory
/// ran out.
pub fn loop_picture(alloc: Global, frames: &[Frame]) -> Result<String, AllocError>
    ensures { IfOk result (λ text. IsPictureOf frames.now (string_bytes text)) }
{
    let part = shown_part(frames);
    let count = plates_in(frames);
    picture_of(alloc, part, count)
}

/// The picture with these frames and this number of plates.
fn picture_of(alloc: Global, part: &[Frame], count: u32) -> Result<String, AllocError>
    ensures { IfOk result (λ text. ShowsPart part.now count (string_bytes text)) }
{
    let mut text = String::from_str(alloc, PICTURE_HEAD)?;
    push_pieces(&mut text, part, 0, &machines())?;
    push_plates(&mut text, part, &plate(), count)?;
    text.push_str(PICTURE_TAIL)?;
    Ok(text)
}

/// The number of plates of a run that has these frames.
fn plates_in(frames: &[Frame]) -> u32
    ensures { result ≡ pictures.plates_in frames.now }
{
    match frames {
        [] => 0,
        [first, ..] => first.state.plates(),
    }
}

/// Adds this number of plates, each by these pieces.
#[tactic(auto, using(crate::proofs::Growing::one_plate_more, std::proofs::Common::append_assoc))]
fn push_plates(
    text: &mut String,
    part: &[Frame],
    plate: &[Piece],
    count: u32,
) -> Result<(), AllocError>
    ensures { OnOk result (string_bytes text.new
        ≡ string_bytes text.old ++ pictures.plates_text part.now plate.now count) }
{
    for number in 0..count {
        push_pieces(text, part, number, plate)?;
    }
    Ok(())
}

/// Adds pieces; those of a plate, of the plate with this number.
#[tactic(auto, using(crate::proofs::Growing::one_piece_more, std::proofs::Common::append_assoc))]
fn push_pieces(
    text: &mut String,
    part: &[Frame],
    number: u32,
    pieces: &[Piece],
) -> Result<(), AllocError>
    ensures { OnOk result (string_bytes text.new
        ≡ string_bytes text.old ++ columns.pieces_text part.now number pieces.now) }
{
    for piece in pieces {
        push_piece(text, part, number, *piece)?;
    }
    Ok(())
}

/// Adds a piece.
#[tactic(auto, unfolding(crate::specs::Columns::piece_text))]
fn push_piece(
    text: &mut String,
    part: &[Frame],
    number: u32,
    piece: Piece,
) -> Result<(), AllocError>
    ensures { OnOk result (string_bytes text.new
        ≡ string_bytes text.old ++ columns.piece_text part.now number piece) }
{
    match piece {
        Piece::Text(fixed) => text.push_str(fixed),
        Piece::Attribute(name, value) => push_attribute(text, part, number, name, value),
        Piece::Transform(kind, value) => push_transform(text, part, number, kind, value),
    }
}

/// Adds how an attribute changes.
#[tactic(auto, using(std::proofs::Common::append_assoc))]
fn push_attribute(
    text: &mut String,
    part: &[Frame],
    number: u32,
    name: &str,
    value: Value,
) -> Result<(), AllocError>
    ensures { OnOk result (string_bytes text.new
        ≡ string_bytes text.old ++ columns.attribute_text part.now number name.now value) }
{
    write!(
        text,
        "<animate attributeName=\"{name}\" dur=\"24s\" repeatCount=\"indefinite\" values=\""
    )?;
    push_column_end(text, part, number, value)
}

/// Adds how an element is moved or turned.
#[tactic(auto, using(std::proofs::Common::append_assoc))]
fn push_transform(
    text: &mut String,
    part: &[Frame],
    number: u32,
    kind: &str,
    value: Value,
) -> Result<(), AllocError>
    ensures { OnOk result (string_bytes text.new
        ≡ string_bytes text.old ++ columns.transform_text part.now number kind.now value) }
{
    write!(
        text,
        "<animateTransform attributeName=\"transform\" type=\"{kind}\" dur=\"24s\" \
         repeatCount=\"indefinite\" values=\""
    )?;
    push_column_end(text, part, number, value)
}

/// Adds the values of a column, and the end of its element.
#[tactic(auto, using(std::proofs::Common::append_assoc))]
fn push_column_end(
    text: &mut String,
    part: &[Frame],
    number: u32,
    value: Value,
) -> Result<(), AllocError>
    ensures { OnOk result (string_bytes text.new
        ≡ string_bytes text.old ++ columns.column_end part.now number value) }
{
    push_column(text, part, number, value)?;
    text.push_str("\"/>")
}

/// Adds the values of a column, with a semicolon between any two.
#[tactic(auto, using(crate::proofs::Growing::one_value_more, std::proofs::Common::append_assoc))]
fn push_column(
    text: &mut String,
    part: &[Frame],
    number: u32,
    value: Value,
) -> Result<(), AllocError>
    ensures { OnOk result (string_bytes text.new
        ≡ string_bytes text.old ++ columns.column_text value number part.now 101) }
{
    for at in 0..VALUES {
        push_value(text, part, number, value, at)?;
    }
    Ok(())
}

/// Adds the value with this place in its column, and a semicolon before it unless it is the first.
fn push_value(
    text: &mut String,
    part: &[Frame],
    number: u32,
    value: Value,
    at: usize,
) -> Result<(), AllocError>
    ensures { OnOk result (string_bytes text.new ≡ string_bytes text.old
        ++ columns.entry_text value number at (columns.frame_at part.now at)) }
{
    let Some(frame) = frame_at(part, at) else {
        return Ok(());
    };
    if at > 0 {
        text.push_str(";")?;
    }
    let shown = value.of(number, frame);
    write!(text, "{shown}")
}
