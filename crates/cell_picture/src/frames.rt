//! Keeps the frames of a run.

ghost use Rattle.std.specs.Prelude.{◌≡◌, []};

use cell_plant::{Frame, Observer};
use std::alloc::{AllocError, Global};
use std::marker::Model;

/// An observer that keeps each frame that it is shown. As a value it is the list of these frames.
#[derive(Drop)]
pub struct LoopFrames {
    frames: Vec<Frame>,
}

impl Model for LoopFrames {
    ghost use Rattle.std.specs.Prelude.{List};
    ghost use Rattle.cell_plant.specs.declared.frame.Frame.{Frame};

    ghost Value = { List Frame };

    ghost view = { λ w. w.frames.items };
}

impl LoopFrames {
    /// No frame yet.
    pub fn new(alloc: Global) -> LoopFrames
        ensures { result ≡ [] }
    {
        LoopFrames {
            frames: Vec::new(alloc),
        }
    }

    /// The frames that it has been shown, in order.
    pub fn as_slice(&self) -> &[Frame]
        ensures { result.now ≡ self.now }
    {
        self.frames.as_slice()
    }
}

impl Observer for LoopFrames {
    ghost use Rattle.std.specs.Prelude.{◌≡◌, ◌∷◌, ◌++◌, [], OnOk, true};
    ghost use Rattle.std.proofs.Common.{sym};
    ghost use Rattle.std.proofs.lemmas.Bool.{false≢true};

    type Fault = AllocError;

    ghost LOOKS = { true };

    const LOOKS: bool = true;

    ghost sees = { λ old frame result new. OnOk result (new ≡ old ++ (frame ∷ [])) };

    ghost blind = { λ _ _ looks. absurd (false≢true (sym looks)) };

    // Out of memory is the only fault.
    fn see(&mut self, frame: &Frame) -> Result<(), AllocError> {
        self.frames.push(*frame)?;
        Ok(())
    }
}
