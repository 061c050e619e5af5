//! Why a replay fails.

ghost use Rattle.std.specs.Prelude.{◌≡◌};
ghost use Rattle.cell_replay.specs.Faults.{replay_fault_of};
ghost use Rattle.cell_replay.specs.declared.fault.ReplayFault.TheVariants.{Memory};

use std::alloc::AllocError;
use text_io::InputFault;

/// Why a replay failed.
#[derive(Clone, Copy, PartialEq, Eq, Debug)]
pub enum ReplayFault {
    /// The reader failed.
    Read,
    /// The writer failed, or took none of the bytes that were left.
    Write,
    /// Memory ran out.
    Memory,
}

impl From<AllocError> for ReplayFault {
    ghost from_gives = { λ _ fault. fault ≡ Memory };

    fn from(_error: AllocError) -> ReplayFault {
        ReplayFault::Memory
    }
}

impl From<InputFault> for ReplayFault {
    ghost from_gives = { λ fault given. given ≡ replay_fault_of fault };

    fn from(fault: InputFault) -> ReplayFault {
        match fault {
            InputFault::Read => ReplayFault::Read,
            InputFault::Memory => ReplayFault::Memory,
        }
    }
}
