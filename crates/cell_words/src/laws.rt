//! Laws of the program's words, each the contract of a function that does nothing.

ghost use Rattle.cell_words.specs.WordExamples.{FlagsAreMet, ModesAreMet, WordsAreMet};

/// Examples: words and what they ask for, each flag with both ends of its range, and refused words;
/// what is said of words and of a mode; and flags without the word `run`.
pub fn words_are_met()
    ensures words { WordsAreMet }
    ensures modes { ModesAreMet }
    ensures flags { FlagsAreMet }
{}
