//! A law of places, the contract of a function that does nothing.

ghost use Rattle.toml_places.specs.PlaceExamples.{StepsAreMet};

/// Example steps: which begin others, and which place they lead to. The nearest place, and one around a byte, in other
/// words.
pub fn steps_are_met()
    ensures { StepsAreMet }
{}
