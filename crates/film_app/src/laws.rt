//! Laws of films, each the contract of a function that does nothing.

ghost use Rattle.film_app.specs.FieldExamples.{FieldsAreTold};
ghost use Rattle.film_app.specs.FieldsByNumber.{FieldsByNumber};
ghost use Rattle.film_app.specs.LineExamples.{LineExamples};
ghost use Rattle.film_app.specs.Plain.{LinesNeedNoEscape};
ghost use Rattle.film_app.specs.Statuses.{StatusesTell};
ghost use Rattle.film_app.specs.WordExamples.{RequestsAreMet, StepsAreMet};

/// No byte of any frame's line means anything in HTML: lines have letters, digits, blanks and
/// `! + , - ;`. So no text of the input gets into a page, and no line ends the element that it
/// stands in.
pub fn lines_need_no_escape()
    ensures { LinesNeedNoEscape }
{}

/// Examples: frames with their lines, in literal text; each part of the plant; schedules that are
/// cut and that aren't.
pub fn lines_are_met()
    ensures { LineExamples }
{}

/// Examples: the words of all steps, what the program's words ask for, and each field of a line, in literal text.
pub fn words_are_met()
    ensures steps { StepsAreMet }
    ensures requests { RequestsAreMet }
    ensures fields { FieldsAreTold }
{}

/// Fields and lines, and the page of a schedule, whatever their numbers are.
#[tactic(auto, using(crate::proofs::FieldNumbers::by_number))]
pub fn fields_by_number()
    ensures { FieldsByNumber }
{}

/// What each exit status says, of known bytes. At 0 the page, or the picture, is that of the frames
/// of a run of the configuration's first 100000 turns. At 1 the configuration was refused, memory ran
/// out, or such a text was written in part.
pub fn statuses_tell()
    ensures { StatusesTell }
{}
