//! What a caller remembers of its calls, and why a call couldn't be made.
ghost use Rattle.std.specs.Prelude.{◌≡◌};
ghost use Rattle.cell_rules.specs.Seen.{heard_nothing, heard_after};

use cell_types::{Call, Reply};

/// Why a line could not make a call.
#[derive(Clone, Copy, Debug, PartialEq, Eq)]
pub enum LineFault {
    /// Memory ran out before anything had changed.
    Memory,
}

/// What came back from a call.
pub type Answered = Result<Reply, LineFault>;

/// What a line remembers of its calls.
#[derive(Clone, Copy, PartialEq, Eq)]
pub struct Heard {
    /// How many calls were asked, refused ones too. It wraps round.
    pub asks: u64,
    /// The last call, and what came back.
    pub last: Option<(Call, Answered)>,
}

impl Heard {
    /// The value before the first call.
    pub fn nothing() -> Heard
        ensures { result ≡ heard_nothing }
    {
        Heard {
            asks: 0,
            last: None,
        }
    }

    /// The value after another call has come back.
    pub fn after(self, call: Call, answered: Answered) -> Heard
        ensures { result ≡ heard_after self call answered }
    {
        Heard {
            asks: self.asks.wrapping_add(1),
            last: Some((call, answered)),
        }
    }
}
