//! Laws of the six programs together. Each is the contract of a function with an empty body.
ghost use Rattle.cell_team.specs.Heeded.{NoMachineIsRefused, NoMachineIsStopped};
ghost use Rattle.cell_parts.specs.Axes.{CellScales};
ghost use Rattle.cell_team.specs.NextCalls.{NextCallsAreHeeded};
ghost use Rattle.cell_team.specs.Renewals.{NoRenewedMachineIsRefused, RenewalExamples};
ghost use Rattle.cell_team.specs.WrongPrograms.{WrongProgramsAreRefused};

/// From every start, in each legal history in which each of the six machines has come by its own
/// events to a step of its program, whatever the order of the calls and whatever the watch does: the
/// next call of each machine is done, or shows a zone, or is refused only with what its step waits
/// for, or as worn.
pub fn no_machine_is_refused()
    ensures { NoMachineIsRefused }
{}

/// So it is after any number of renewals of the interlock, each of which opened with the state that
/// the one before it left, but for the stamp, and with each machine at the step to which it had come.
pub fn no_renewed_machine_is_refused()
    ensures { NoRenewedMachineIsRefused }
{}

/// Examples of renewals: over an empty cell six machines stand at their starts, also after one renewal
/// with any stamp, and after two.
pub fn renewals_are_met()
    ensures { (c : CellScales) → RenewalExamples c }
{}

/// The same of each machine by its name, and how a machine comes on in a history: by an answer that
/// leads on, by a refusal to where it was, and by driving.
pub fn next_calls_are_heeded()
    ensures { (c : CellScales) → NextCallsAreHeeded c }
{}

/// So in such a history no refusal has ever stopped a machine, but a worn one.
pub fn no_machine_is_stopped()
    ensures { NoMachineIsStopped }
{}

/// The first law holds of the cell's programs, and fails of programs that are wrong in one row: of a
/// feed belt that takes before it has released, a table that waits for a free zone where it gives, a
/// robot that claims a zone which it has, a press that moves before it has claimed back, and others.
pub fn wrong_programs_are_refused()
    ensures { WrongProgramsAreRefused }
{}
