//! Laws of pictures, each the contract of a function that does nothing.

ghost use Rattle.plan_picture.specs.PictureExamples.{ElementsAreMet, PartsAreMet, WordsAreMet};
ghost use Rattle.plan_picture.specs.PictureLaws.{AllIsApart, AllIsDrawn, TextsFit};

/// Each machine and motor, and each place of each word, stands with its name in its lane, each zone of each word and
/// each hazard with its name in its column; a zone's host, guest and ways and a hazard's motors are where their lanes
/// and rows are.
pub fn all_is_drawn()
    ensures { AllIsDrawn }
{}

/// Lanes, the rows of a lane, and columns are apart, and all of it is in the picture.
pub fn all_is_apart()
    ensures { AllIsApart }
{}

/// No text is wider than its room, and none ends an element.
pub fn texts_fit()
    ensures { TextsFit }
{}

/// Examples: elements, and the parts of the pictures of a press and of a plant on two words, whole.
pub fn parts_are_met()
    ensures elements { ElementsAreMet }
    ensures parts { PartsAreMet }
    ensures words { WordsAreMet }
{}
