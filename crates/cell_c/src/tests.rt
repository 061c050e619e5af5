//! Tests of the exported functions, on words.

use crate::exports::{
    bagunjoki_is_full, bagunjoki_is_state, bagunjoki_is_stopped, bagunjoki_restamp,
    bagunjoki_stamp, bagunjoki_start, bagunjoki_step,
};

// A call's machine, verb and object; its answer, owner, zone, posture and plate; and the stamp.
const ROWS: &[([u8; 3], [u8; 5], u32)] = &[
    ([4, 1, 3], [0, 0, 0, 0, 0], 1),
    ([3, 1, 3], [2, 4, 0, 0, 0], 1),
    ([4, 5, 3], [0, 0, 0, 0, 0], 2),
    ([3, 1, 3], [4, 0, 0, 0, 0], 2),
    ([7, 8, 3], [32, 0, 0, 0, 0], 2),
    ([2, 2, 1], [5, 0, 0, 0, 0], 2),
    ([5, 1, 4], [0, 0, 0, 0, 0], 3),
    ([6, 1, 4], [1, 0, 0, 0, 0], 3),
    ([3, 1, 4], [2, 5, 0, 0, 0], 3),
    ([6, 1, 5], [4, 0, 0, 0, 0], 3),
    ([1, 1, 6], [0, 0, 0, 0, 0], 4),
    ([6, 1, 6], [2, 1, 0, 0, 0], 4),
    ([2, 1, 1], [0, 0, 0, 0, 0], 5),
    ([2, 1, 2], [0, 0, 0, 0, 0], 6),
    ([2, 6, 1], [0, 0, 0, 0, 0], 7),
    ([2, 6, 2], [8, 0, 0, 0, 0], 7),
    ([2, 6, 3], [0, 0, 0, 0, 0], 8),
    ([2, 2, 2], [0, 0, 0, 0, 0], 9),
    ([7, 8, 2], [32, 3, 0, 3, 1], 9),
    ([3, 5, 2], [6, 0, 2, 0, 0], 9),
    ([3, 4, 2], [0, 0, 0, 0, 0], 10),
    ([3, 3, 2], [0, 0, 0, 0, 0], 11),
    ([2, 5, 2], [0, 0, 0, 0, 0], 12),
    ([1, 6, 9], [0, 0, 0, 0, 0], 13),
    ([6, 1, 6], [2, 1, 0, 0, 0], 13),
    ([1, 6, 8], [8, 0, 0, 0, 0], 13),
    ([4, 6, 4], [5, 0, 0, 0, 0], 13),
    ([4, 6, 5], [5, 0, 0, 0, 0], 13),
    ([4, 6, 6], [5, 0, 0, 0, 0], 13),
    ([4, 6, 7], [10, 0, 0, 0, 0], 13),
    ([5, 6, 10], [0, 0, 0, 0, 0], 14),
    ([5, 6, 11], [5, 0, 0, 0, 0], 14),
    ([5, 6, 12], [5, 0, 0, 0, 0], 14),
    ([4, 1, 3], [0, 0, 0, 0, 0], 15),
    ([4, 6, 4], [0, 0, 0, 0, 0], 16),
    ([4, 6, 6], [0, 0, 0, 0, 0], 17),
    ([7, 8, 3], [32, 4, 0, 3, 0], 17),
    ([4, 6, 4], [0, 0, 0, 0, 0], 18),
    ([7, 8, 3], [32, 4, 0, 1, 0], 18),
    ([4, 6, 5], [0, 0, 0, 0, 0], 19),
    ([7, 8, 3], [32, 4, 0, 2, 0], 19),
    ([4, 5, 3], [0, 0, 0, 0, 0], 20),
    ([7, 9, 0], [0, 0, 0, 0, 0], 21),
    ([4, 1, 3], [14, 0, 0, 0, 0], 21),
    ([7, 9, 0], [14, 0, 0, 0, 0], 21),
    ([4, 10, 0], [1, 0, 0, 0, 0], 21),
    ([1, 7, 0], [11, 0, 0, 0, 0], 21),
    ([8, 1, 3], [64, 0, 0, 0, 0], 21),
    ([0, 1, 3], [64, 0, 0, 0, 0], 21),
    ([4, 1, 7], [64, 0, 0, 0, 0], 21),
    ([4, 6, 13], [64, 0, 0, 0, 0], 21),
    ([1, 7, 1], [64, 0, 0, 0, 0], 21),
    ([1, 11, 1], [64, 0, 0, 0, 0], 21),
];

#[test]
fn is_answered_in_numbers(rt: HostRuntime) {
    let mut word = bagunjoki_start(b"0110000000", 0);
    for (call, wanted, stamp) in ROWS {
        let reply = bagunjoki_step(word, call[0], call[1], call[2]);
        let plate = u8::from(reply.plate);
        let told = [reply.answer, reply.owner, reply.zone, reply.posture, plate];
        assert!(rt; told == *wanted && bagunjoki_stamp(reply.next) == *stamp);
        word = reply.next;
    }
    assert!(rt; bagunjoki_is_stopped(word) && bagunjoki_is_state(word));
    assert!(rt; bagunjoki_is_full(word, 2) && bagunjoki_is_full(word, 4));
    assert!(rt; !bagunjoki_is_full(word, 3) && !bagunjoki_is_full(word, 11));
    assert!(rt; bagunjoki_step(0xC00, 1, 1, 1).answer == 65 && !bagunjoki_is_state(0xC00));
    assert!(rt; bagunjoki_start(b"0000110000", 0) == u64::MAX);
    let worn = bagunjoki_restamp(word, 1_048_575);
    assert!(rt; bagunjoki_stamp(worn) == 1_048_575 && bagunjoki_restamp(worn, 21) == word);
    assert!(rt; bagunjoki_step(worn, 7, 10, 0).answer == 13);
    assert!(rt; bagunjoki_restamp(word, 1_048_576) == u64::MAX);
    assert!(rt; bagunjoki_restamp(0xC00, 0) == u64::MAX);
}
