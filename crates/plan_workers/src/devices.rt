//! A machine's devices: its sensors and its motors.

/// A machine's devices: its sensors and its motors, whichever they are.
///
/// By default nothing is known of them. Who simulates them may say what they do by `reads` and `drives`.
pub trait PlanDevices {
    ghost use Rattle.std.specs.Prelude.{⊤, ℕ, Option};

    // What reading the sensors shows: the devices before it, what the sensors show, the devices after it.
    ghost reads: { Self → Option ℕ → Self → Type 0 } = { λ _ _ _. ⊤ };

    // What giving the motors does: the devices before it, the motors that are on, the devices after it.
    ghost drives: { Self → ℕ → Self → Type 0 } = { λ _ _ _. ⊤ };

    /// What the sensors show now: a bit for each. `None` if they can't be read.
    fn sensors(&mut self) -> Option<u32>
        ensures { reads self.old result self.new };

    /// Turns on the motors that have a bit here, and all others off.
    fn drive(&mut self, motors: u64)
        ensures { drives self.old motors self.new };
}
