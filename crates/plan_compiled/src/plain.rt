//! Plans in which no zone joins the one before it. Of no others are rows made: there the bits of a zone tell all of it,
//! and a call changes its own zone alone.
ghost use Rattle.std.specs.Prelude.{◌≡◌, ◌↔◌, IsTrue};
ghost use Rattle.plan_rules.specs.PlainLaws.{IsPlain};
ghost use Rattle.plan_word.specs.Layout.{counts_of};
ghost use Rattle.plan_compiled.specs.Alone as alone;

use plan_rules::ZoneState;
use plan_types::Plan;
use plan_word::{Layout, zone_of_code};

/// Whether no zone joins the one before it, so that each is a space by itself.
pub(crate) fn is_plain(plan: &Plan) -> bool
    ensures { IsTrue result ↔ IsPlain plan.now }
{
    for zone in 0..plan.zone_count() {
        if plan.zone(zone).joins {
            return false;
        }
    }
    true
}

/// What a zone's bits tell of it, if it is a space by itself.
pub(crate) fn zone_alone(plan: &Plan, layout: &Layout, zone: u8, code: u64) -> ZoneState
    requires { layout.now ≡ counts_of plan.now }
    ensures { result ≡ alone.zone_alone plan.now zone code }
{
    zone_of_code(plan, layout, zone, code, code)
}
