//! Laws of explanations, each the contract of a function that does nothing.

ghost use Rattle.explain_app.specs.ExplainExamples.{ExplanationsAreMet, StatusesTell};

/// Examples: what explanations begin with, what may be written of an input by the exit status, and
/// which words ask for which kind of input.
pub fn explanations_are_met()
    ensures { ExplanationsAreMet }
{}

/// What each exit status says of a script and of a configuration whose bytes are known: it was read
/// and nothing was written, it was refused and the explanation begins so, or no explanation was
/// written whole.
pub fn statuses_tell()
    ensures { StatusesTell }
{}
