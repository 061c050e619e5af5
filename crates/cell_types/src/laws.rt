//! Laws of the tables, each the contract of a function that does nothing.
ghost use Rattle.cell_types.specs.Numbers.{NumbersOfRefusals};
ghost use Rattle.cell_types.specs.TableExamples.{TableExamples};
ghost use Rattle.cell_types.specs.Ways.{GoesRound, JoinsKeepers, OneRowEach};
ghost use Rattle.cell_types.specs.WordExamples.{WordExamples};

/// In one zone a machine gives in at most one row, and receives in at most one.
pub fn one_row_each()
    ensures { OneRowEach }
{}

/// A transfer row leads from a place of its giver to a place of its receiver, and work from a place
/// of a machine to another of its own.
pub fn rows_join_keepers()
    ensures { JoinsKeepers }
{}

/// Plates go round: each place is left by one way, through a zone or by work, and entered by one.
pub fn plates_go_round()
    ensures { GoesRound }
{}

/// The numbers of the refusals are 1 to 16, as in the table. Two refusals share a number only if
/// they differ in nothing but what they name.
pub fn numbers_of_refusals()
    ensures { NumbersOfRefusals }
{}

/// The words of all names, refusals, answers and calls, spelt out.
#[tactic(auto, using(crate::proofs::ExamplesMet::words_are_met))]
pub fn words_by_examples()
    ensures { WordExamples }
{}

/// The tables row by row: the parties of each zone, each way of a plate, each pose, and the keeper
/// of each place. And which names are the same.
#[tactic(auto, using(crate::proofs::ExamplesMet::tables_are_met))]
pub fn tables_by_examples()
    ensures { TableExamples }
{}
