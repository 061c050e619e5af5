//! A step's row in a program's table: what it asks or drives, the step after it, and what it waits for.

ghost use Rattle.std.specs.Prelude.{◌≡◌};
ghost use Rattle.cell_control.specs.Row.{waits_on, row_that_asks, row_that_drives, with_waits};

use cell_types::{Call, Refusal};

/// What a step waits for: the refusals on which it stays, besides `Stopped`.
#[derive(Clone, Copy)]
pub enum Waits {
    /// For nothing: each refusal but `Stopped` stops the controller.
    Never,
    /// Until its zone is free.
    UntilFree,
    /// Until its zone is its own.
    UntilOwner,
    /// Until the place that it gives to has room.
    UntilRoom,
    /// Until its zone is free, and open to it.
    UntilFreeAndOpen,
}

/// A row of a program: what a step asks, what it waits for, and the next step with its notes.
#[derive(Clone, Copy)]
pub struct Row<P> {
    /// What the step asks; `None` if it drives.
    pub call: Option<Call>,
    /// The refusals on which the step stays.
    pub waits: Waits,
    /// The next step after the call or the drive is done.
    pub next: P,
}

impl Waits {
    /// Whether the step stays on a refusal.
    #[inline(always)]
    pub fn stays_on(self, refusal: Refusal) -> bool
        ensures { result ≡ waits_on self refusal }
    {
        match refusal {
            Refusal::Held(_) => matches!(self, Waits::UntilFree | Waits::UntilFreeAndOpen),
            Refusal::Shut(_) => matches!(self, Waits::UntilFreeAndOpen),
            Refusal::NotOwner(_) => matches!(self, Waits::UntilOwner),
            Refusal::PlaceFull => matches!(self, Waits::UntilRoom),
            _ => false,
        }
    }
}

impl<P: Copy> Row<P> {
    /// The row of a step that asks a call and waits for nothing.
    #[inline(always)]
    pub fn asks(call: Call, next: P) -> Row<P>
        ensures { result ≡ row_that_asks call next }
    {
        Row {
            call: Some(call),
            waits: Waits::Never,
            next,
        }
    }

    /// The row of a step that drives.
    #[inline(always)]
    pub fn drives(next: P) -> Row<P>
        ensures { result ≡ row_that_drives next }
    {
        Row {
            call: None,
            waits: Waits::Never,
            next,
        }
    }

    /// The same row, of a step that waits.
    #[inline(always)]
    pub fn waits(self, waits: Waits) -> Row<P>
        ensures { result ≡ with_waits self waits }
    {
        Row { waits, ..self }
    }
}
