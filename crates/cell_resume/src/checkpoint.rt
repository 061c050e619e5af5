//! What is handed out after a turn: the interlock's word, and the number of each machine's step.

ghost use Rattle.std.specs.Prelude.{◌≡◌};
ghost use Rattle.cell_resume.specs.Teams.{AreInStep};
ghost use Rattle.cell_word.specs.Layout.{packed};
ghost use Rattle.cell_resume.specs.Checkpoints.{AreNumbersOfSteps, IsCheckpointOf, checkpoint_in};

use crate::{crane, deposit, feed, press, robot, table};
use cell_rules::State;
use cell_rules::laws::states_are_sound;
use cell_team::Team;
use cell_word::pack;

/// A checkpoint as it is stored: the bytes of the word, the lowest first, and the six numbers.
pub type CheckpointBytes = [u8; 14];

/// What a cell hands out after a turn.
#[derive(Clone, Copy, Debug, PartialEq, Eq)]
pub struct Checkpoint {
    /// The word of the interlock's state.
    pub word: u64,
    /// The number of the feed belt's step.
    pub feed: u8,
    /// The number of the table's step.
    pub table: u8,
    /// The number of the robot's step.
    pub robot: u8,
    /// Twice the number of the press's step, and 1 more if its motor ran upward last.
    pub press: u8,
    /// The number of the deposit belt's step.
    pub deposit: u8,
    /// The number of the crane's step.
    pub crane: u8,
}

impl Checkpoint {
    /// The checkpoint of machines that stand at these steps in a state. The numbers are those of the
    /// steps, whether they are in step with the state or not.
    pub fn of(state: &State, team: &Team) -> Checkpoint
        ensures word { result.word ≡ packed state.now }
        ensures steps { AreNumbersOfSteps result team.now }
        ensures in_step { AreInStep team.now state.now
            → IsCheckpointOf result state.now team.now }
    {
        states_are_sound(state);
        Checkpoint {
            word: pack(state),
            feed: feed::number(team.feed),
            table: table::number(team.table),
            robot: robot::number(team.robot),
            press: press::number(team.press),
            deposit: deposit::number(team.deposit),
            crane: crane::number(team.crane),
        }
    }

    /// The bytes to store.
    pub fn to_bytes(&self) -> CheckpointBytes
        ensures { checkpoint_in result ≡ self.now }
    {
        let [b0, b1, b2, b3, b4, b5, b6, b7] = self.word.to_le_bytes();
        [
            b0,
            b1,
            b2,
            b3,
            b4,
            b5,
            b6,
            b7,
            self.feed,
            self.table,
            self.robot,
            self.press,
            self.deposit,
            self.crane,
        ]
    }

    /// The checkpoint that was stored as these bytes.
    pub fn from_bytes(bytes: CheckpointBytes) -> Checkpoint
        ensures { result ≡ checkpoint_in bytes }
    {
        let [
            b0,
            b1,
            b2,
            b3,
            b4,
            b5,
            b6,
            b7,
            feed,
            table,
            robot,
            press,
            deposit,
            crane,
        ] = bytes;
        Checkpoint {
            word: u64::from_le_bytes([b0, b1, b2, b3, b4, b5, b6, b7]),
            feed,
            table,
            robot,
            press,
            deposit,
            crane,
        }
    }
}
