//! Laws of the numbers: functions that do nothing, each of which carries a theorem in its contract.
ghost use Rattle.cell_c.specs.Examples.{Examples};

/// The numbers of all names, and replies that name a machine, a zone, a posture or a plate, in
/// figures.
pub fn numbers_are_met()
    ensures { Examples }
{}
