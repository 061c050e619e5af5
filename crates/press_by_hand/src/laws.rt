//! A law of the texts, the contract of a function that does nothing.

ghost use Rattle.press_by_hand.specs.TextExamples.{TextsAreMet};

/// The texts of literal switches and of each command.
pub fn texts_are_met()
    ensures { TextsAreMet }
{}
