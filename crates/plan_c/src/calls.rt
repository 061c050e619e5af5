//! The calls with their numbers.
ghost use Rattle.std.specs.Prelude.{◌≡◌, ◌↔◌, Some};
ghost use Rattle.plan_types.specs.declared.call.Call.{Call};
ghost use Rattle.plan_c.specs.Numbers as numbers;

use plan_types::Call;

/// The call with these numbers, or `None` if they name none.
pub(crate) fn call_with(verb: u8, object: u8) -> Option<Call>
    ensures { (call : Call) → (result ≡ Some call) ↔ numbers.IsCall verb object call }
{
    match (verb, object) {
        (1, zone) => Some(Call::Claim(zone)),
        (2, zone) => Some(Call::Give(zone)),
        (3, zone) => Some(Call::Yield(zone)),
        (4, zone) => Some(Call::Take(zone)),
        (5, zone) => Some(Call::Release(zone)),
        (6, pose) => Some(Call::SetPose(pose)),
        (8, zone) => Some(Call::Inquire(zone)),
        (9, 0) => Some(Call::Stop),
        (10, 0) => Some(Call::Resume),
        (11, place) => Some(Call::Advance(place)),
        _ => None,
    }
}
