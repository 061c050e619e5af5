//! Going on from 14 bytes.

ghost use Rattle.std.specs.Prelude.{◌≡◌, ◌≢◌, ◌↔◌, Ok, Err};
ghost use Rattle.cell_rules.specs.ModelState.{ModelState};
ghost use Rattle.cell_rules.specs.Sound.{IsSound};
ghost use Rattle.cell_word.specs.Layout.{packed};
ghost use Rattle.cell_team.specs.Team.{Team};
ghost use Rattle.cell_resume.specs.declared.fault.ResumeFault.{ResumeFault};
ghost use Rattle.cell_resume.specs.declared.fault.ResumeFault.TheVariants.{NoState};
ghost use Rattle.cell_resume.specs.Teams.{stood};
ghost use Rattle.cell_resume.specs.Checkpoints.{IsCheckpointOf, IsFirst, IsWrong, checkpoint_in};

use crate::checkpoint::{Checkpoint, CheckpointBytes};
use crate::fault::ResumeFault;
use crate::resuming::ResumedCell;

/// Goes on from the 14 bytes that a cell handed out last, after a test: the word is a state's, each
/// number is a step's, and each machine is in step with the state.
///
/// Bytes that were handed out by machines in step with their state are always taken back, and mean
/// that state and these steps. `NoState`, `NoStep` and `NotInStep` say what is wrong with others,
/// and with which machine: of several machines with the first, in the order feed belt, table, robot,
/// press, deposit belt, crane.
pub fn resume_at(bytes: CheckpointBytes) -> Result<ResumedCell, ResumeFault>
    ensures ok { (s : ModelState) (team : Team)
        → (result ≡ Ok (stood s team)) ↔ IsCheckpointOf (checkpoint_in bytes) s team }
    ensures no_state { (result ≡ Err NoState)
        ↔ ((s : ModelState) → IsSound s → packed s ≢ (checkpoint_in bytes).word) }
    ensures wrong { (s : ModelState) (fault : ResumeFault) → IsSound s
        → packed s ≡ (checkpoint_in bytes).word → result ≡ Err fault
        → IsWrong (checkpoint_in bytes) s fault }
    ensures first { (s : ModelState) (fault : ResumeFault) → IsSound s
        → packed s ≡ (checkpoint_in bytes).word → result ≡ Err fault
        → IsFirst (checkpoint_in bytes) s fault }
{
    Checkpoint::from_bytes(bytes).resume()
}
