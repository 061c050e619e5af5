//! Who enters the space of a zone.
ghost use Rattle.std.specs.Prelude.{◌≡◌, ◌&&◌, ◌||◌, nat_eq};
ghost use Rattle.plan_types.specs.Table as table;
ghost use Rattle.plan_types.specs.Table.{same_space, host_of, guest_of};

use plan_types::Plan;

fn is_party_near(plan: &Plan, machine: u8, zone: u8, other: u8) -> bool
    ensures { result ≡ (same_space plan.now other zone
        && (nat_eq machine (host_of plan.now other) || nat_eq machine (guest_of plan.now other))) }
{
    plan.same_space(other, zone) && (machine == plan.host(other) || machine == plan.guest(other))
}

/// Whether a machine enters the space of a zone: it is a party of a zone of this space.
#[tactic(auto, using(plan_types::proofs::lemmas::Below::any_below_more))]
pub(crate) fn enters(plan: &Plan, machine: u8, zone: u8) -> bool
    ensures { result ≡ table.enters plan.now machine zone }
{
    let mut found = false;
    for other in 0..plan.zone_count() {
        found = found || is_party_near(plan, machine, zone, other);
    }
    found
}
