//! Laws of pictures, each the contract of a function that does nothing.

ghost use Rattle.cell_picture.specs.PictureExamples.{PictureExamples};

/// Examples: which frames are shown, which frame a value is of, the values of a literal frame, and
/// where plates are, in literal numbers and text.
pub fn pictures_are_met()
    ensures { PictureExamples }
{}
