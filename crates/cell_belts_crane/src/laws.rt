//! Laws of the programs, row by row. Each is the contract of a function with an empty body.
ghost use Rattle.cell_belts_crane.specs.CraneExamples.{CraneRowsAreMet};
ghost use Rattle.cell_belts_crane.specs.DepositExamples.{DepositRowsAreMet};
ghost use Rattle.cell_belts_crane.specs.FeedExamples.{FeedRowsAreMet};
ghost use Rattle.cell_belts_crane.specs.KeepExamples.{KeepsAreMet};

/// The rows of the feed belt's program, by examples: its start, by the places that are full; for
/// each step and each state of its notes, what it asks, exactly the refusals on which it stays, and
/// the next step; and whether the belt runs, by the light barrier.
#[tactic(auto, using(crate::proofs::BeltRows::feed_rows))]
pub fn feed_rows_are_met()
    ensures { FeedRowsAreMet }
{}

/// The rows of the deposit belt's program, likewise.
#[tactic(auto, using(crate::proofs::BeltRows::deposit_rows))]
pub fn deposit_rows_are_met()
    ensures { DepositRowsAreMet }
{}

/// The rows of the crane's program, likewise, with its gripper's motor and its travel at the last
/// reading that is far enough and at the first that isn't.
#[tactic(auto, using(crate::proofs::lemmas::CraneRows::crane_rows))]
pub fn crane_rows_are_met()
    ensures { CraneRowsAreMet }
{}

/// What belts and crane keep at each step, which a checkpoint is tested by: of each zone whether it is
/// theirs, whether a plate is on its way there, and its posture; their plates, and the crane's magnet.
#[tactic(auto, using(crate::proofs::KeepRows::keeps_are_met))]
pub fn keeps_are_met()
    ensures { KeepsAreMet }
{}
