//! Masks of calls. Each was worked out by hand from the layout and the rules. The words of states, and calls on words,
//! are what the clauses of `cell_word` and its law `words_by_examples` say.

use cell_types::{Call, Machine, Zone};
use cell_word::masks;

// Calls, with the bits that they clear and those that they set; the last is never Done.
const MASKS: &[(Machine, Call, u64, u64)] = &[
    (Machine::Robot, Call::Claim(Zone::Z3), 0xC00, 0x800),
    (Machine::Press, Call::Yield(Zone::Z3), 0xC00, 0x800),
    (Machine::Robot, Call::Give(Zone::Z3), 0x2_0000_1C00, 0x1400),
    (Machine::Feed, Call::Advance, 0xF000_0000, 0x8000_0000),
    (Machine::Watch, Call::Resume, 1 << 60, 0),
    (Machine::Watch, Call::Claim(Zone::Z1), 0, 0),
];

#[test]
fn calls_clear_and_set_bits(rt: HostRuntime) {
    for (machine, call, clear, set) in MASKS {
        assert!(rt; masks(*machine, *call) == (*clear, *set), "{clear}");
    }
}
