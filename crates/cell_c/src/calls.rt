//! The numbers of calls.
ghost use Rattle.std.specs.Prelude.{◌≡◌, ◌↔◌, Some};
ghost use Rattle.cell_c.specs.Numbers.{IsCall};

use crate::numbers::{pose_with, zone_with};
use cell_types::Call;

/// The call of a verb's number and of an object's: a zone's, a pose's, or 0 for a call without
/// object. `None` if there is none.
pub fn call_with(verb: u8, object: u8) -> Option<Call>
    ensures { (call : Call) → (result ≡ Some call) ↔ IsCall verb object call }
{
    match verb {
        1 => zone_with(object).map(Call::Claim),
        2 => zone_with(object).map(Call::Give),
        3 => zone_with(object).map(Call::Yield),
        4 => zone_with(object).map(Call::Take),
        5 => zone_with(object).map(Call::Release),
        6 => pose_with(object).map(Call::SetPose),
        7 if object == 0 => Some(Call::Advance),
        8 => zone_with(object).map(Call::Inquire),
        9 if object == 0 => Some(Call::Stop),
        10 if object == 0 => Some(Call::Resume),
        _ => None,
    }
}
