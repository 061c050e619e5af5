//! What a machine's actuators are told.
ghost use Rattle.std.specs.Prelude.{◌≡◌, Some, None};
ghost use Rattle.cell_control.specs.Turns.{answered};

use crate::fault::CtlFault;

/// What a machine is told in a turn: commands that its actuators are to be set to, each time.
#[derive(Clone, Copy)]
pub struct Commands<A> {
    /// The commands to its actuators. After a fault all motors are off, and magnets stay as the
    /// program has noted them.
    pub act: A,
    /// What stops the machine in this turn; `Stopped` in all later ones. `None` while it runs.
    pub fault: Option<CtlFault>,
}

impl<A: Copy> Commands<A> {
    /// These commands, without a fault.
    pub fn well(act: A) -> Commands<A>
        ensures { result ≡ record { act = act; fault = None } }
    {
        Commands { act, fault: None }
    }

    /// These commands after a fault.
    pub fn after(fault: CtlFault, act: A) -> Commands<A>
        ensures { result ≡ record { act = act; fault = Some fault } }
    {
        Commands {
            act,
            fault: Some(fault),
        }
    }

    /// The commands, or the fault.
    pub fn result(self) -> Result<A, CtlFault>
        ensures { result ≡ answered self.act self.fault }
    {
        match self.fault {
            None => Ok(self.act),
            Some(fault) => Err(fault),
        }
    }
}
