//! What C keeps of a plan.
ghost use Rattle.std.specs.Prelude.{◌≡◌};

use plan_compiled::Compiled;
use plan_types::Plan;

/// A plan that was opened, or what says that the bytes were none. Nothing but `bagunjoki_plan_open` makes one.
#[repr(C)]
#[derive(Drop)]
pub struct Opened {
    /// Whether the bytes were a plan's.
    pub is_plan: bool,
    /// The plan, compiled. If they weren't, the one without any row.
    pub compiled: Compiled,
}

impl Opened {
    /// Compiles a plan for C.
    pub(crate) fn of(is_plan: bool, plan: Plan) -> Opened
        ensures is_plan { result.is_plan ≡ is_plan }
        ensures table { result.compiled.table ≡ plan }
    {
        Opened {
            is_plan,
            compiled: Compiled::new(plan),
        }
    }
}
