//! The texts of the switches and the motor.
ghost use Rattle.std.specs.Prelude.{◌≡◌, Bool, Some, IfSome};
ghost use Rattle.press_by_hand.specs.Texts.{switch_digit, switch_digits, motor_word as word_of};
ghost use Rattle.cell_sensors.specs.declared.sense.PressSense.{PressSense};

use cell_devices::Motor;
use cell_sensors::PressSense;

/// The switches by three digits, bottom, middle and top: `001` is the top. `None` if the text isn't
/// three digits of 0 and 1.
pub fn read_switches(text: &[u8]) -> Option<PressSense>
    ensures right { IfSome result (λ switches. text.now ≡ switch_digits switches) }
    ensures all { (switches : PressSense) → text.now ≡ switch_digits switches → result ≡ Some switches }
{
    let [bottom, middle, top] = text else {
        return None;
    };
    Some(PressSense {
        bottom: read_switch(*bottom)?,
        middle: read_switch(*middle)?,
        top: read_switch(*top)?,
    })
}

// A switch by its digit: 1 is on.
fn read_switch(digit: u8) -> Option<bool>
    ensures right { IfSome result (λ on. digit ≡ switch_digit on) }
    ensures all { (on : Bool) → digit ≡ switch_digit on → result ≡ Some on }
{
    match digit {
        b'0' => Some(false),
        b'1' => Some(true),
        _ => None,
    }
}

/// The word of a command to the motor: `off`, `up` or `down`.
pub fn motor_word(motor: Motor) -> &'static str
    ensures { result.now ≡ word_of motor }
{
    match motor {
        Motor::Off => "off",
        Motor::Plus => "up",
        Motor::Minus => "down",
    }
}
