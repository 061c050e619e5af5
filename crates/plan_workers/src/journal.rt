//! What a machine's journal has of its calls.

use plan_types::{Answer, Call};

/// A call that was answered, as its machine's journal has it.
#[derive(Clone, Copy, Debug, PartialEq, Eq)]
pub struct PlanEntry {
    /// The call.
    pub call: Call,
    /// What was answered.
    pub answer: Answer,
    /// The stamp of the state after it.
    pub stamp: u32,
}
