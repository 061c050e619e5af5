//! The letters of schedules.

ghost use Rattle.std.specs.Prelude.{◌≡◌};
ghost use Rattle.cell_config.specs.Letters as letters;

use cell_notes::Turn;
use cell_types::Machine;

/// The letter of a machine's turn: a capital one if a call in the turn finds the interlock busy.
pub fn letter_word(busy: bool, machine: Machine) -> &'static str
    ensures { result.now ≡ letters.letter_word busy machine }
{
    match (busy, machine) {
        (false, Machine::Feed) => "f",
        (false, Machine::Table) => "t",
        (false, Machine::Robot) => "r",
        (false, Machine::Press) => "p",
        (false, Machine::Deposit) => "d",
        (false, Machine::Crane) => "c",
        (false, Machine::Watch) => "w",
        (true, Machine::Feed) => "F",
        (true, Machine::Table) => "T",
        (true, Machine::Robot) => "R",
        (true, Machine::Press) => "P",
        (true, Machine::Deposit) => "D",
        (true, Machine::Crane) => "C",
        (true, Machine::Watch) => "W",
    }
}

/// Whether a byte is the letter of a machine's turn.
fn is_letter_of(busy: bool, machine: Machine, byte: u8) -> bool
    ensures { result ≡ letters.is_letter_of busy machine byte }
{
    letter_word(busy, machine).as_bytes() == [byte].as_slice()
}

/// The machine whose turn has this letter, or `None` if none has it.
fn machine_of(busy: bool, byte: u8) -> Option<Machine>
    ensures { result ≡ letters.machine_of busy byte }
{
    Machine::ALL
        .iter()
        .copied()
        .find(|machine| is_letter_of(busy, *machine, byte))
}

/// The turn of a letter, or `None` if the byte is no letter.
#[tactic(auto, using(crate::proofs::Turns::turn_found))]
pub(crate) fn turn_of(byte: u8) -> Option<Turn>
    ensures { result ≡ letters.turn_of byte }
{
    let busy = byte.is_ascii_uppercase();
    match machine_of(busy, byte) {
        Some(machine) => Some(Turn { machine, busy }),
        None => None,
    }
}

/// Whether a byte is a letter.
pub fn is_letter(byte: u8) -> bool
    ensures { result ≡ letters.is_letter byte }
{
    turn_of(byte).is_some()
}
