//! The faults of a line with their numbers.
ghost use Rattle.std.specs.Prelude.{◌≡◌, ◌↔◌, ◌≤◌, ◌<◌, ◌/◌, ◌%◌, ◌^◌, nat_eq, if◌then◌else◌, Some};
ghost use Rattle.plan_controller.specs.declared.faults.Faults.{Faults as PlanFaults};
ghost use Rattle.plan_c.specs.Numbers as numbers;

use plan_controller::Faults;

/// Whether a number has a bit.
fn has_bit(bits: u16, bit: u8) -> bool
    requires { bit < 16 }
    ensures { result ≡ nat_eq (bits / 2 ^ bit % 2) 1 }
{
    bits >> bit & 1 == 1
}

/// A number that is there, or 0.
fn value_if(is_there: bool, value: u16) -> u16
    ensures value { result ≡ (if is_there then value else 0) }
    ensures at_most { result ≤ value }
{
    if is_there { value } else { 0 }
}

/// The number of faults.
fn faults_number(faults: Faults) -> u16
    ensures { result ≡ numbers.faults_number faults }
{
    value_if(faults.held, 1 << 2)
        + value_if(faults.shut, 1 << 4)
        + value_if(faults.not_owner, 1 << 5)
        + value_if(faults.plate_in_zone, 1 << 6)
        + value_if(faults.no_plate, 1 << 7)
        + value_if(faults.place_full, 1 << 8)
        + value_if(faults.wrong_way, 1 << 9)
        + value_if(faults.stopped, 1 << 14)
}

/// The faults whose bits a number has.
fn faults_in(bits: u16) -> Faults
    ensures { (faults : PlanFaults) → bits ≡ numbers.faults_number faults → result ≡ faults }
{
    Faults {
        held: has_bit(bits, 2),
        shut: has_bit(bits, 4),
        not_owner: has_bit(bits, 5),
        plate_in_zone: has_bit(bits, 6),
        no_plate: has_bit(bits, 7),
        place_full: has_bit(bits, 8),
        wrong_way: has_bit(bits, 9),
        stopped: has_bit(bits, 14),
    }
}

/// The faults with this number, or `None` if it has other bits.
pub(crate) fn faults_with(bits: u16) -> Option<Faults>
    ensures { (faults : PlanFaults) → (result ≡ Some faults) ↔ (bits ≡ numbers.faults_number faults) }
{
    let faults = faults_in(bits);
    (faults_number(faults) == bits).then_some(faults)
}
