//! An observer sees a run, frame by frame.

use crate::frame::Frame;
use std::convert::Infallible;

/// Sees a run: its start, and then the cell after each turn.
pub trait Observer {
    ghost use Rattle.std.specs.Prelude.{◌≡◌, Bool, false, Result, Ok};
    ghost use Rattle.cell_plant.specs.declared.frame.Frame.{Frame};

    /// Why it fails.
    type Fault;

    // Whether it looks.
    ghost LOOKS: { Bool };

    /// Whether it looks. No frame is made for one that doesn't.
    const LOOKS: bool;

    // What a frame does to it: the observer before, the frame, what came back, the observer after.
    ghost sees: { Self → Frame → Result (Unit {0}) Self.Fault → Self → Type 0 };

    /// Sees the next frame. An error ends the run.
    fn see(&mut self, frame: &Frame) -> Result<(), Self::Fault>
        ensures { sees self.old frame.now result self.new };

    // No frame makes a difference to an observer that doesn't look.
    ghost blind: { (w : Self) (f : Frame) → LOOKS ≡ false → sees w f (Ok tt) w };
}

/// The observer that doesn't look.
#[derive(Clone, Copy)]
pub struct NoObserver;

impl Observer for NoObserver {
    ghost use Rattle.std.specs.Prelude.{◌≡◌, false, Ok, refl};

    type Fault = Infallible;

    ghost LOOKS = { false };

    const LOOKS: bool = false;

    ghost sees = { λ _ _ result _. result ≡ Ok tt };

    ghost blind = { λ _ _ _. refl };

    fn see(&mut self, _frame: &Frame) -> Result<(), Infallible> {
        Ok(())
    }
}

/// Why the simulation of a cell ended before its last turn.
#[derive(Clone, Copy, Debug)]
pub enum SeenFault<E> {
    /// Out of memory for a journal's entry.
    Memory,
    /// Its observer failed, with this error.
    Observer(E),
}
