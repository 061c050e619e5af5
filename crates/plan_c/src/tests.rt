//! Tests of the exported functions, on a plan's words.

use crate::by_plan::NO_WORD;
use crate::calls::call_with;
use crate::exports::{
    bagunjoki_plan_is_in_step, bagunjoki_plan_may_run, bagunjoki_plan_open, bagunjoki_plan_restamp,
    bagunjoki_plan_stamp, bagunjoki_plan_start, bagunjoki_plan_step, bagunjoki_plan_turn,
};
use crate::line::ProgramLine;
use crate::opened::Opened;
use crate::reply::{NO_CALL, Reply, bare_reply, reply_of};
use crate::turn::{Place, Turned};
use plan_rules::{LAST_STAMP, State, apply};
use plan_types::{Plan, examples};
use plan_word::{Layout, pack};

// ---- the functions without their clauses, so that no row of a test carries these

// The bytes of the press.
const PRESS: [u8; 62] = [
    2, 1, 4, 2, 1, 0, 1, 0, 1, 1, 1, 0, 1, 1, 3, 0, 0, 0, 0, 0, 0, 0, 0, 0, 1, 1, 4, 0, 0, 0, 0, 0,
    0, 0, 0, 0, 1, 1, 1, 0, 0, 0, 0, 0, 0, 0, 0, 0, 1, 0, 2, 0, 0, 0, 0, 0, 0, 0, 0, 0, 0, 1,
];

fn open_bytes(bytes: &[u8]) -> Opened {
    bagunjoki_plan_open(bytes)
}

fn start_of(plan: &Opened, places: &[u8]) -> u64 {
    bagunjoki_plan_start(plan, places, 0)
}

// A call by its machine, its verb and its object.
fn step(plan: &Opened, word: u64, call: [u8; 3]) -> Reply {
    bagunjoki_plan_step(plan, word, call[0], call[1], call[2])
}

// The word after a call, if its answer is this one, and else 0.
fn word_after(plan: &Opened, word: u64, call: [u8; 3], answer: u8) -> u64 {
    let reply = step(plan, word, call);
    if reply.answer == answer {
        reply.next
    } else {
        0
    }
}

fn stamp_of(plan: &Opened, word: u64) -> u32 {
    bagunjoki_plan_stamp(plan, word)
}

fn restamp_word(plan: &Opened, word: u64, stamp: u32) -> u64 {
    bagunjoki_plan_restamp(plan, word, stamp)
}

// A turn of the press: its sensors are those that show, if they could be read.
fn turn(
    plan: &Opened,
    word: u64,
    lines: &[ProgramLine],
    place: Place,
    sensors: Option<u32>,
) -> Turned {
    let shown = sensors.unwrap_or(0);
    bagunjoki_plan_turn(plan, word, 1, lines, place, sensors.is_some(), shown)
}

fn may_go_on(plan: &Opened, word: u64, lines: &[ProgramLine], place: Place) -> bool {
    bagunjoki_plan_is_in_step(plan, word, 1, lines, place)
}

// The line, and what has stopped the machine there.
fn place_at(line: u8, stopped: u8) -> Place {
    Place { line, stopped }
}

fn is_at(place: Place, line: u8, stopped: u8) -> bool {
    place.line == line && place.stopped == stopped
}

// ---- calls

// A call's machine, verb and object, and then its answer, owner, zone, posture and stamp, and whether the ram and the
// arm may run after it: the ram while the press holds its zone and moves, the arm while the loader holds it.
const ROWS: &[([u8; 3], [u8; 4], u32, [bool; 2])] = &[
    ([1, 1, 0], [0, 255, 255, 255], 1, [false, false]),
    ([0, 1, 0], [2, 1, 255, 255], 1, [false, false]),
    ([1, 6, 3], [0, 255, 255, 255], 2, [true, false]),
    ([0, 1, 0], [2, 1, 255, 255], 2, [true, false]),
    ([30, 9, 0], [0, 255, 255, 255], 3, [true, false]),
    ([30, 10, 0], [0, 255, 255, 255], 4, [true, false]),
    ([1, 6, 0], [0, 255, 255, 255], 5, [false, false]),
    ([0, 1, 0], [2, 1, 255, 255], 5, [false, false]),
    ([1, 3, 0], [0, 255, 255, 255], 6, [false, true]),
    ([1, 6, 3], [5, 0, 255, 255], 6, [false, true]),
    ([0, 2, 0], [0, 255, 255, 255], 7, [false, false]),
    ([30, 8, 0], [32, 1, 255, 2], 7, [false, false]),
    ([1, 5, 0], [6, 255, 0, 255], 7, [false, false]),
    ([1, 4, 0], [0, 255, 255, 255], 8, [false, false]),
    ([0, 2, 0], [5, 1, 255, 255], 8, [false, false]),
    ([1, 1, 1], [1, 255, 255, 255], 8, [false, false]),
    ([2, 1, 0], [1, 255, 255, 255], 8, [false, false]),
    ([1, 6, 4], [12, 255, 255, 255], 8, [false, false]),
    ([1, 6, 1], [10, 255, 255, 255], 8, [false, false]),
    ([1, 7, 0], [64, 255, 255, 255], 8, [false, false]),
    ([30, 9, 1], [64, 255, 255, 255], 8, [false, false]),
    ([30, 9, 0], [0, 255, 255, 255], 9, [false, false]),
    ([0, 1, 0], [14, 255, 255, 255], 9, [false, false]),
    ([30, 10, 0], [0, 255, 255, 255], 10, [false, false]),
    ([30, 10, 0], [15, 255, 255, 255], 10, [false, false]),
    // a number past the plan's machines names a machine that may only inquire
    ([255, 8, 0], [32, 1, 255, 2], 10, [false, false]),
    ([255, 1, 0], [1, 255, 255, 255], 10, [false, false]),
    ([255, 9, 0], [1, 255, 255, 255], 10, [false, false]),
];

// Whether the ram and the arm may run.
fn may_run(word: u64) -> [bool; 2] {
    [
        bagunjoki_plan_may_run(word, 0x1B, 0x09),
        bagunjoki_plan_may_run(word, 0x03, 0x02),
    ]
}

// Whether a row's call is answered so. The word becomes that after it.
fn is_row(plan: &Opened, word: &mut u64, row: &([u8; 3], [u8; 4], u32, [bool; 2])) -> bool {
    let (call, wanted, stamp, motors) = row;
    let reply = step(plan, *word, *call);
    *word = reply.next;
    [reply.answer, reply.owner, reply.zone, reply.posture] == *wanted
        && stamp_of(plan, *word) == *stamp
        && may_run(*word) == *motors
}

// Whether the word after the rows, which has stamp 10, has others, and wears.
fn takes_stamps(plan: &Opened, word: u64) -> bool {
    let worn = restamp_word(plan, word, LAST_STAMP);
    stamp_of(plan, worn) == LAST_STAMP
        && step(plan, worn, [30, 9, 0]).answer == 13
        && restamp_word(plan, worn, 10) == word
        && restamp_word(plan, word, 1_048_576) == NO_WORD
}

#[test]
fn is_answered_in_numbers(rt: HostRuntime) {
    let plan = open_bytes(&PRESS);
    let mut word = start_of(&plan, b"10");
    assert!(rt; word == 0x20);
    for row in ROWS {
        assert!(rt; is_row(&plan, &mut word, row), "after {word:x}");
    }
    assert!(rt; takes_stamps(&plan, word));
    assert!(rt; start_of(&plan, b"1") == NO_WORD && stamp_of(&plan, u64::MAX) == u32::MAX);
}

// ---- a source and a sink

// The bytes of a press whose loader has a hand, a source, and a tray, a sink.
const THROUGH: [u8; 63] = [
    2, 1, 4, 3, 1, 0, 1, 0, 2, 1, 2, 1, 1, 1, 3, 0, 0, 0, 0, 0, 0, 0, 0, 0, 1, 1, 4, 0, 0, 0, 0, 0,
    0, 0, 0, 0, 1, 1, 1, 0, 0, 0, 0, 0, 0, 0, 0, 0, 1, 0, 2, 0, 0, 0, 0, 0, 0, 0, 0, 0, 64, 128, 1,
];

// Advances among other calls, each with its answer, and the stamp after it.
const ADVANCES: &[([u8; 3], u8, u32)] = &[
    ([0, 11, 1], 0, 1),
    ([0, 11, 1], 7, 1),
    ([0, 11, 0], 0, 2),
    ([0, 11, 0], 8, 2),
    ([1, 11, 0], 1, 2),
    ([1, 11, 2], 1, 2),
    ([0, 11, 3], 1, 2),
    ([30, 9, 0], 0, 3),
    ([0, 11, 1], 14, 3),
    ([30, 10, 0], 0, 4),
];

#[test]
fn plates_come_and_go(rt: HostRuntime) {
    let plan = open_bytes(&THROUGH);
    let mut word = start_of(&plan, b"010");
    for (call, answer, stamp) in ADVANCES {
        let reply = step(&plan, word, *call);
        word = reply.next;
        assert!(rt;
            reply.answer == *answer && stamp_of(&plan, word) == *stamp,
            "after {word:x}"
        );
    }
    assert!(rt; word == restamp_word(&plan, start_of(&plan, b"100"), 4));
}

// ---- turns

fn line(motors: u64, kind: u8, object: u8, until: u8) -> ProgramLine {
    ProgramLine {
        motors,
        kind,
        object,
        until,
        faults: 0,
    }
}

fn with_faults(faults: u16, line: ProgramLine) -> ProgramLine {
    ProgramLine { faults, ..line }
}

// The press claims its zone, moves, runs its ram until sensor 4 shows, says that it is open, hands its zone over, and
// awaits it.
fn program() -> [ProgramLine; 6] {
    [
        line(0, 1, 0, 0),
        line(0, 6, 3, 0),
        line(1, 17, 0, 4),
        line(0, 6, 0, 0),
        line(0, 3, 0, 0),
        line(0, 16, 0, 0),
    ]
}

// What the sensors show, if they could be read; and then the motors, the line and the answer.
const TURNS: &[(Option<u32>, u64, u8, u8)] = &[
    (Some(0), 0, 1, 0),
    (None, 0, 1, 255),
    (Some(0), 0, 2, 0),
    (Some(0), 1, 2, 255),
    (Some(15), 1, 2, 255),
    (None, 0, 2, 255),
    (Some(16), 0, 3, 255),
    (Some(0), 0, 4, 0),
    (Some(0), 0, 5, 0),
    (Some(0), 0, 5, 32),
];

// Whether the press may go on, and its turn is a row's. Word and place become those after it.
fn is_turn(
    plan: &Opened,
    word: &mut u64,
    place: &mut Place,
    row: &(Option<u32>, u64, u8, u8),
) -> bool {
    let (sensors, motors, line, answer) = row;
    let lines = program();
    let is_taken_back = may_go_on(plan, *word, &lines, *place);
    let turned = turn(plan, *word, &lines, *place, *sensors);
    *word = turned.word;
    *place = turned.place;
    is_taken_back && turned.motors == *motors && turned.answer == *answer && is_at(*place, *line, 0)
}

// Whether a turn leads there with this answer. Word and place become those after it.
fn leads_to(
    plan: &Opened,
    word: &mut u64,
    place: &mut Place,
    answer: u8,
    line: u8,
    stopped: u8,
) -> bool {
    let turned = turn(plan, *word, &program(), *place, Some(0));
    *word = turned.word;
    *place = turned.place;
    turned.answer == answer && is_at(*place, line, stopped)
}

// The press's turns until it awaits its zone, and once the loader has given it back. Then the press claims what it
// owns, and stops for good. Each place and word is taken back.
#[test]
fn the_press_takes_turns(rt: HostRuntime) {
    let plan = open_bytes(&PRESS);
    let mut word = start_of(&plan, b"10");
    let mut place = place_at(0, 0);
    for row in TURNS {
        assert!(rt;
            is_turn(&plan, &mut word, &mut place, row),
            "after {word:x}"
        );
    }
    word = word_after(&plan, word, [0, 2, 0], 0);
    assert!(rt; leads_to(&plan, &mut word, &mut place, 32, 0, 0));
    assert!(rt; leads_to(&plan, &mut word, &mut place, 3, 0, 3));
    word = start_of(&plan, b"10");
    assert!(rt; leads_to(&plan, &mut word, &mut place, 255, 0, 3));
}

// A line, what has stopped the machine there, and whether that place is taken back while the press moves: a line that
// comes after the next call, one past the end, and a number that stops nothing aren't.
const PLACES: &[(u8, u8, bool)] = &[
    (2, 0, true),
    (2, 3, true),
    (2, 11, false),
    (4, 0, false),
    (6, 0, false),
];

// The words after the press's claim, and after its first move.
fn word_after_claim(plan: &Opened) -> u64 {
    word_after(plan, start_of(plan, b"10"), [1, 1, 0], 0)
}

fn moving(plan: &Opened) -> u64 {
    word_after(plan, word_after_claim(plan), [1, 6, 3], 0)
}

fn runs_on(plan: &Opened, word: u64, lines: &[ProgramLine]) -> bool {
    may_go_on(plan, word, lines, place_at(2, 0))
}

#[test]
fn places_are_taken_back(rt: HostRuntime) {
    let plan = open_bytes(&PRESS);
    for (line, stopped, wanted) in PLACES {
        let place = place_at(*line, *stopped);
        assert!(rt; may_go_on(&plan, moving(&plan), &program(), place) == *wanted);
    }
    let words = [word_after_claim(&plan), u64::MAX];
    assert!(rt; !runs_on(&plan, words[0], &program()) && !runs_on(&plan, words[1], &program()));
    let none = open_bytes(&[]);
    let word = moving(&plan);
    assert!(rt; !runs_on(&plan, word, &no_steps()) && !runs_on(&none, word, &program()));
}

// The press's zone is the loader's, so its claim is refused: Held. Which faults of its line stop it, and with what.
const FAULTS: &[(u16, u8)] = &[
    (0, 0),
    (1 << 2, 2),
    (1 << 4, 0),
    (1 << 2 | 1 << 14, 2),
    (17_392, 0),
    (17_396, 2),
];

// The word after the press has yielded its zone.
fn word_after_yield(plan: &Opened) -> u64 {
    let open = word_after(plan, moving(plan), [1, 6, 0], 0);
    word_after(plan, open, [1, 3, 0], 0)
}

// Whether the claim with a row's faults is refused, and stops the press so; and that on the next line, which has none,
// doesn't.
fn is_stopped(plan: &Opened, word: u64, row: &(u16, u8)) -> bool {
    let (faults, stopped) = row;
    let claim = line(0, 1, 0, 0);
    let lines = [with_faults(*faults, claim), claim];
    let turned = turn(plan, word, &lines, place_at(0, 0), Some(0));
    let next = turn(plan, word, &lines, place_at(1, 0), Some(0));
    turned.answer == 2
        && is_at(turned.place, 0, *stopped)
        && may_go_on(plan, word, &lines, turned.place)
        && next.answer == 2
        && is_at(next.place, 1, 0)
}

#[test]
fn faults_stop_the_press(rt: HostRuntime) {
    let plan = open_bytes(&PRESS);
    let word = word_after_yield(&plan);
    for row in FAULTS {
        assert!(rt; is_stopped(&plan, word, row));
    }
}

// Lines that are no step: no verb, the cell's Advance, a kind past all, a call with a motor, a call with a sensor, an
// await with a motor, and a run of an object; a bit of no refusal, one of a refusal that always stops, and faults of a
// wait and of a run.
fn no_steps() -> [ProgramLine; 12] {
    [
        line(0, 0, 0, 0),
        line(0, 7, 0, 0),
        line(0, 18, 0, 0),
        line(1, 1, 0, 0),
        line(0, 1, 0, 1),
        line(1, 16, 0, 0),
        line(1, 17, 1, 0),
        with_faults(1 << 11, line(0, 1, 0, 0)),
        with_faults(1 | 1 << 2, line(0, 1, 0, 0)),
        with_faults(1 << 13, line(0, 1, 0, 0)),
        with_faults(1 << 2, line(0, 16, 0, 0)),
        with_faults(1 << 2, line(1, 17, 0, 0)),
    ]
}

// Whether a turn rests at a line, with this answer.
fn rests(plan: &Opened, word: u64, lines: &[ProgramLine], line: u8, answer: u8) -> bool {
    let turned = turn(plan, word, lines, place_at(line, 0), Some(0));
    turned.answer == answer
        && turned.motors == 0
        && turned.word == word
        && is_at(turned.place, line, 0)
}

// A program of inquiries.
const INQUIRIES: [ProgramLine; 256] = [ProgramLine {
    motors: 0,
    kind: 8,
    object: 0,
    until: 0,
    faults: 0,
}; 256];

#[test]
fn turns_tell_why_they_rest(rt: HostRuntime) {
    let plan = open_bytes(&PRESS);
    let word = start_of(&plan, b"10");
    for line in 0..13 {
        assert!(rt; rests(&plan, word, &no_steps(), line, 64), "{line}");
    }
    assert!(rt; rests(&plan, u64::MAX, &program(), 0, 65));
    assert!(rt; rests(&open_bytes(&[]), word, &program(), 0, 67));
    assert!(rt; rests(&plan, word, &INQUIRIES, 0, 64));
    assert!(rt; rests(&plan, word, &INQUIRIES[..255], 0, 32));
}

// ---- other plans

// Two machines at a zone, with no poses and no places. The host is machine 0, the guest the one given.
fn bare_zone(guest: u8) -> [u8; 12] {
    [2, 1, 0, 0, 0, guest, 0, 0, 0, 0, 0, 0]
}

// Whether each function says that there is no plan.
fn is_no_plan(plan: &Opened) -> bool {
    !plan.is_plan
        && step(plan, 0, [0, 1, 0]).answer == 67
        && start_of(plan, b"") == NO_WORD
        && restamp_word(plan, 0, 0) == NO_WORD
        && stamp_of(plan, 0) == u32::MAX
}

// A guest that is its own host makes no plan.
#[test]
fn tells_what_is_no_plan(rt: HostRuntime) {
    assert!(rt; is_no_plan(&open_bytes(&bare_zone(0))));
}

// Two machines at a zone, which the first pose moves, and the second one opens inward.
const MOVED_AND_OPENED: [u8; 36] = [
    2, 1, 2, 0, 0, 1, 0, 0, 0, 0, 0, 0, 0, 0, 2, 0, 0, 0, 0, 0, 0, 0, 0, 0, 0, 0, 3, 0, 0, 0, 0, 0,
    0, 0, 0, 0,
];

// No pose opens the zone outward, so no start comes to word 12, in which it is so and free. It is a state's all the
// same.
#[test]
fn an_open_free_zone_is_a_state(rt: HostRuntime) {
    let plan = open_bytes(&MOVED_AND_OPENED);
    assert!(rt; start_of(&plan, b"") == 0 && step(&plan, 0, [1, 1, 0]).answer == 4);
    assert!(rt; word_after(&plan, 12, [1, 1, 0], 0) == 30);
}

// The most machines, of which the last one is a guest, and the most poses, none of which gives a posture.
fn largest_counts() -> [u8; 780] {
    let mut bytes = [0; 780];
    bytes[0] = 30;
    bytes[1] = 1;
    bytes[2] = 64;
    bytes[5] = 29;
    bytes
}

// An opened plan has as many bytes as in the header for C.
#[test]
fn the_largest_counts_are_a_plan(rt: HostRuntime) {
    assert!(rt; size_of::<Opened>() == 32_824);
    let plan = open_bytes(&largest_counts());
    assert!(rt; start_of(&plan, b"") == 0 && step(&plan, 0, [0, 6, 64]).answer == 12);
    assert!(rt; step(&plan, 0, [29, 1, 0]).answer == 4 && step(&plan, 0, [28, 1, 0]).answer == 1);
    assert!(rt; stamp_of(&plan, word_after(&plan, 0, [0, 6, 63], 0)) == 1);
}

// Eight zones of five bits, as plates come in and poses move and open them, and three places: the word has 64 bits, the
// stamp from bit 43 up, and the stop in bit 63.
const ALL_BITS: [u8; 95] = [
    2, 8, 2, 3, 0, 1, 1, 2, 0, 0, 0, 0, 0, 1, 1, 2, 0, 0, 0, 0, 0, 1, 1, 2, 0, 0, 0, 0, 0, 1, 1, 2,
    0, 0, 0, 0, 0, 1, 1, 2, 0, 0, 0, 0, 0, 1, 1, 2, 0, 0, 0, 0, 0, 1, 1, 2, 0, 0, 0, 0, 0, 1, 1, 2,
    0, 0, 0, 0, 0, 0, 2, 2, 2, 2, 2, 2, 2, 2, 0, 0, 0, 0, 3, 3, 3, 3, 3, 3, 3, 3, 0, 0, 0, 0, 1,
];

// A word, a call, its answer and the word after it. No machine has the number 3 of an owner: the last word is no
// state's.
const WORDS: &[(u64, [u8; 3], u8, u64)] = &[
    (0x7FFF_F500_0000_0000, [0, 1, 7], 0, 0x7FFF_FD08_0000_0000),
    (0x7FFF_F500_0000_0000, [30, 9, 0], 0, 0xFFFF_FD00_0000_0000),
    (
        0xFFFF_FD00_0000_0000,
        [30, 10, 0],
        13,
        0xFFFF_FD00_0000_0000,
    ),
    (0xFFFF_FD00_0000_0000, [30, 8, 7], 32, 0xFFFF_FD00_0000_0000),
    (0x8000_3D00_0000_0000, [0, 1, 7], 14, 0x8000_3D00_0000_0000),
    (0x8000_3D00_0000_0000, [30, 10, 0], 0, 0x4500_0000_0000),
    (0xFFFF_FD18_0000_0000, [0, 1, 7], 65, 0xFFFF_FD18_0000_0000),
];

// Whether a row's call has its answer, and leads to its word.
fn is_word_row(plan: &Opened, row: &(u64, [u8; 3], u8, u64)) -> bool {
    let (word, call, answer, next) = row;
    let reply = step(plan, *word, *call);
    reply.answer == *answer && reply.next == *next
}

// Whether a start, a stamp and another stamp are those of a plan with these bits.
fn has_stamps(plan: &Opened) -> bool {
    let start = bagunjoki_plan_start(plan, b"101", 1_048_574);
    let stopped = 0xFFFF_FD00_0000_0000;
    let early = restamp_word(plan, stopped, 7);
    start == 0x7FFF_F500_0000_0000
        && stamp_of(plan, start) == 1_048_574
        && stamp_of(plan, stopped) == LAST_STAMP
        && early == 0x8000_3D00_0000_0000
        && restamp_word(plan, early, LAST_STAMP) == stopped
        && stamp_of(plan, 0xFFFF_FD18_0000_0000) == u32::MAX
}

// Whatever the highest bits, each function answers by the plan.
#[test]
fn words_of_all_bits_are_answered(rt: HostRuntime) {
    let plan = open_bytes(&ALL_BITS);
    for row in WORDS {
        assert!(rt; is_word_row(&plan, row));
    }
    assert!(rt; has_stamps(&plan));
    let shown = step(&plan, 0xFFFF_FD00_0000_0000, [30, 8, 7]);
    assert!(rt; shown.owner == 255 && shown.posture == 0);
}

// Five spaces of two guests each, which no plate passes, and thirteen places. Once the second guests have all spaces,
// which are open outward, all places are full, the stamp is the last and the plant is stopped, all bits are set.
const FIVE_SPACES: [u8; 133] = [
    3, 10, 3, 13, 0, 1, 0, 0, 0, 0, 0, 0, 0, 2, 2, 0, 0, 0, 0, 0, 0, 1, 0, 0, 0, 0, 0, 0, 0, 2, 2,
    0, 0, 0, 0, 0, 0, 1, 0, 0, 0, 0, 0, 0, 0, 2, 2, 0, 0, 0, 0, 0, 0, 1, 0, 0, 0, 0, 0, 0, 0, 2, 2,
    0, 0, 0, 0, 0, 0, 1, 0, 0, 0, 0, 0, 0, 0, 2, 2, 0, 0, 0, 0, 0, 0, 0, 2, 2, 2, 2, 2, 2, 2, 2, 2,
    2, 0, 0, 3, 3, 3, 3, 3, 3, 3, 3, 3, 3, 0, 0, 4, 4, 4, 4, 4, 4, 4, 4, 4, 4, 0, 0, 0, 0, 0, 0, 0,
    0, 0, 0, 0, 0, 0,
];

// So the word with all bits is a state's, and that which stands for none isn't.
#[test]
fn all_bits_may_be_set(rt: HostRuntime) {
    let plan = open_bytes(&FIVE_SPACES);
    assert!(rt; plan.is_plan && stamp_of(&plan, u64::MAX) == LAST_STAMP);
    assert!(rt; restamp_word(&plan, u64::MAX, 0) == 0x8000_07FF_FFFF_FFFF);
    assert!(rt; restamp_word(&plan, 0x8000_07FF_FFFF_FFFF, LAST_STAMP) == u64::MAX);
    assert!(rt; stamp_of(&plan, NO_WORD) == u32::MAX);
}

// Of `bindings/tests/plan_walk.c`, which makes the same calls by the library.
const WALKED: u64 = 0x8ebe0a45669b9ad7;

const CALLERS: [u8; 4] = [0, 1, 2, 30];

fn mix(sum: u64, value: u64) -> u64 {
    (sum ^ value).wrapping_mul(1_099_511_628_211)
}

fn mix_reply(sum: u64, reply: Reply) -> u64 {
    let sum = mix(
        mix(mix(sum, reply.next), u64::from(reply.answer)),
        u64::from(reply.owner),
    );
    let sum = mix(mix(sum, u64::from(reply.zone)), u64::from(reply.posture));
    mix(sum, u64::from(reply.plate))
}

// The reply to a call that is drawn, by the rules. `None` with the last stamp.
fn drawn_reply(plan: &Plan, state: &mut State, drawn: u64) -> Option<Reply> {
    if state.stamp >= LAST_STAMP {
        return None;
    }
    let machine = CALLERS[(drawn % 4) as usize];
    let reply = match call_with((drawn / 4 % 11) as u8, (drawn / 64 % 6) as u8) {
        Some(call) => reply_of(apply(plan, state, machine, call), 0),
        None => bare_reply(NO_CALL, 0),
    };
    if state.stamp > LAST_STAMP {
        return None;
    }
    let next = pack(plan, &Layout::of(plan), state);
    Some(Reply { next, ..reply })
}

// The sum over the replies to 100,000 calls.
fn word_after_walk(plan: &Plan) -> Option<u64> {
    let mut full = [false; 16];
    full[1] = true;
    let mut state = State::start(full, 0);
    let mut seed: u64 = 1;
    let mut sum: u64 = 14_695_981_039_346_656_037;
    for _ in 0..100_000 {
        seed = seed
            .wrapping_mul(6_364_136_223_846_793_005)
            .wrapping_add(1_442_695_040_888_963_407);
        sum = mix_reply(sum, drawn_reply(plan, &mut state, seed >> 33)?);
    }
    Some(sum)
}

// The lift, answered by the rules.
#[test]
fn walks_as_c_does(rt: HostRuntime) {
    let tables = examples::lift(rt.alloc()).expect(&rt, "memory");
    let plan = Plan::new(tables).expect(&rt, "a plan");
    assert!(rt; word_after_walk(&plan) == Some(WALKED));
}
