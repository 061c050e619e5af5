//! A plan, and programs by which its machines ask.

use plan_explorer::Programs;
use plan_text::NamedPlan;

/// A plan with names, and programs by which its machines ask: all of them, or some machines alone.
#[derive(Clone, Copy)]
pub struct Acting<'a> {
    /// The plan.
    pub named: &'a NamedPlan,
    /// What each machine asks.
    pub programs: &'a Programs,
}
