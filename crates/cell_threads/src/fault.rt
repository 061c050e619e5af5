//! Why a run by six workers gives no record.

ghost use Rattle.std.specs.Prelude.{◌≡◌};
ghost use Rattle.cell_threads.specs.Faults.{run_fault_text};

use cell_interlock::MakeFault;
use thiserror::Error;

/// Why a run by workers gives no record. Its text follows the word `fault` in a program's fault
/// line.
#[derive(Clone, Copy, PartialEq, Eq, Debug, Error)]
#[error("{}", self.text())]
pub enum RunFault {
    /// The number of exchanges that a call may lose isn't 1 to 64. No worker has begun.
    Tries,
    /// There is no memory for the interlock. No worker has begun.
    Memory,
    /// A thread couldn't be started. The workers that had begun have ended.
    Spawn,
}

impl RunFault {
    /// The text that follows the word `fault` in a program's fault line.
    pub fn text(&self) -> &'static str
        ensures { result.now ≡ run_fault_text self.now }
    {
        match self {
            RunFault::Tries => "tries",
            RunFault::Memory => "memory",
            RunFault::Spawn => "spawn",
        }
    }
}

impl From<MakeFault> for RunFault {
    ghost use Rattle.cell_interlock.specs.declared.make.MakeFault.{MakeFault};
    ghost use Rattle.cell_threads.specs.declared.fault.RunFault.{RunFault};

    ghost from_gives = { λ fault run. (fault ≡ MakeFault.Tries → run ≡ RunFault.Tries)
        × (fault ≡ MakeFault.Memory → run ≡ RunFault.Memory) };

    fn from(fault: MakeFault) -> RunFault {
        match fault {
            MakeFault::Tries => RunFault::Tries,
            MakeFault::Memory => RunFault::Memory,
        }
    }
}
