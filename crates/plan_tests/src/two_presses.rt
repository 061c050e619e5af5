//! Whether the machines of two presses go on for ever: what is printed of it, and of both presses' plan.

use super::doubles::are_answered;

/// The example of two presses.
const TWO_PRESSES: &str = "\
[[machine]]
name = \"left_arm\"
places = [\"left_hand\"]
poses = [{ name = \"sharing\", gives = { rack = \"openin\" } }]
program = [\"claim rack\", \"pose sharing\", \"release rack\", \"give left\", \"take left\", \
     \"release left\"]

[[machine]]
name = \"right_arm\"
places = [\"right_hand\"]
program = [\"claim rack\", \"release rack\", \"give right\", \"take right\", \"release right\"]

[[machine]]
name = \"left_press\"
places = [\"left_die\"]
poses = [
  { name = \"travelling\", gives = { left = \"moving\" } },
  { name = \"load\", gives = { left = \"openin\" }, after_moving = true },
  { name = \"forge\", gives = { left = \"closed\" }, after_moving = true },
  { name = \"unload\", gives = { left = \"openout\" }, after_moving = true },
]
program = [\"claim left\", \"pose travelling\", \"pose load\", \"yield left\", \"take left\", \
     \"pose travelling\", \"pose forge\",
  \"pose travelling\", \"pose unload\", \"give left\"]

[[machine]]
name = \"right_press\"
places = [\"right_die\"]
poses = [
  { name = \"travelling\", gives = { right = \"moving\" } },
  { name = \"load\", gives = { right = \"openin\" }, after_moving = true },
  { name = \"forge\", gives = { right = \"closed\" }, after_moving = true },
  { name = \"unload\", gives = { right = \"openout\" }, after_moving = true },
]
program = [\"claim right\", \"pose travelling\", \"pose load\", \"yield right\", \"take \
     right\", \"pose travelling\", \"pose forge\",
  \"pose travelling\", \"pose unload\", \"give right\"]

[[zone]]
name = \"rack\"
host = \"left_arm\"
guest = \"right_arm\"

[[zone]]
name = \"left\"
host = \"left_press\"
guest = \"left_arm\"
inward = [\"left_hand\", \"left_die\"]
outward = [\"left_die\", \"left_hand\"]

[[zone]]
name = \"right\"
host = \"right_press\"
guest = \"right_arm\"
inward = [\"right_hand\", \"right_die\"]
outward = [\"right_die\", \"right_hand\"]
";

/// Of two presses.
const TWO_PRESSES_GO: &str = "\
1: ./plan explore
=>
start,1100
=>
no standstill in any order of turns before the last stamp: 860 situations
left_arm goes on for ever if it isn't passed over for ever: within k * 22 + k * k * 5 turns
  a fair order in which it starves: first
  left_arm asks: claim rack: done
  left_arm asks: pose sharing: done
  left_arm asks: release rack: done
  left_press asks: claim left: done
  left_press asks: pose travelling: done
  left_press asks: pose load: done
  left_press asks: yield left: done
  left_arm asks: give left: done
  left_press asks: take left: done
  left_press asks: pose travelling: done
  left_press asks: pose forge: done
  left_press asks: pose travelling: done
  left_press asks: pose unload: done
  left_press asks: give left: done
  left_arm asks: take left: done
  left_arm asks: release left: done
  left_press asks: claim left: done
  left_press asks: pose travelling: done
  left_press asks: pose load: done
  left_press asks: yield left: done
  right_press asks: claim right: done
  right_press asks: pose travelling: done
  and then again and again
  left_arm could go on: claim rack: done
  right_arm asks: claim rack: done
  left_arm waits: claim rack: held right_arm
  right_arm asks: release rack: done
  left_arm could go on: claim rack: done
  right_press asks: pose load: done
  right_press asks: yield right: done
  right_arm asks: give right: done
  right_press asks: take right: done
  right_press asks: pose travelling: done
  right_press asks: pose forge: done
  right_press asks: pose travelling: done
  right_press asks: pose unload: done
  right_press asks: give right: done
  right_arm asks: take right: done
  right_arm asks: release right: done
  right_press asks: claim right: done
  right_press asks: pose travelling: done
right_arm goes on for ever if it isn't passed over for ever: within k * 22 + k * k * 6 turns
  a fair order in which it starves: first
  left_arm asks: claim rack: done
  left_arm asks: pose sharing: done
  left_press asks: claim left: done
  left_press asks: pose travelling: done
  right_press asks: claim right: done
  right_press asks: pose travelling: done
  right_press asks: pose load: done
  right_press asks: yield right: done
  and then again and again
  right_arm waits: claim rack: held left_arm
  left_arm asks: release rack: done
  right_arm could go on: claim rack: done
  left_press asks: pose load: done
  left_press asks: yield left: done
  left_arm asks: give left: done
  left_press asks: take left: done
  left_press asks: pose travelling: done
  left_press asks: pose forge: done
  left_press asks: pose travelling: done
  left_press asks: pose unload: done
  left_press asks: give left: done
  left_arm asks: take left: done
  left_arm asks: release left: done
  left_arm asks: claim rack: done
  right_arm waits: claim rack: held left_arm
  left_press asks: claim left: done
  left_arm asks: pose sharing: done
  left_press asks: pose travelling: done
left_press goes on for ever if left_arm isn't passed over for ever: within k * 27 + k * k * 5 \
     turns
  a fair order in which it starves: first
  left_arm asks: claim rack: done
  left_arm asks: pose sharing: done
  left_arm asks: release rack: done
  left_press asks: claim left: done
  left_press asks: pose travelling: done
  left_press asks: pose load: done
  left_press asks: yield left: done
  left_arm asks: give left: done
  left_press asks: take left: done
  left_press asks: pose travelling: done
  left_press asks: pose forge: done
  left_press asks: pose travelling: done
  left_press asks: pose unload: done
  left_press asks: give left: done
  left_arm asks: take left: done
  left_arm asks: release left: done
  left_press asks: claim left: done
  left_press asks: pose travelling: done
  left_press asks: pose load: done
  left_press asks: yield left: done
  right_press asks: claim right: done
  right_press asks: pose travelling: done
  and then again and again
  left_press waits: take left: notowner left_arm
  right_arm asks: claim rack: done
  right_arm asks: release rack: done
  right_press asks: pose load: done
  right_press asks: yield right: done
  right_arm asks: give right: done
  right_press asks: take right: done
  right_press asks: pose travelling: done
  right_press asks: pose forge: done
  right_press asks: pose travelling: done
  right_press asks: pose unload: done
  right_press asks: give right: done
  right_arm asks: take right: done
  right_arm asks: release right: done
  right_press asks: claim right: done
  right_press asks: pose travelling: done
right_press goes on for ever if right_arm isn't passed over for ever: within k * 27 + k * k * 6 \
     turns
  a fair order in which it starves: first
  left_arm asks: claim rack: done
  left_arm asks: pose sharing: done
  left_press asks: claim left: done
  left_press asks: pose travelling: done
  right_press asks: claim right: done
  right_press asks: pose travelling: done
  right_press asks: pose load: done
  right_press asks: yield right: done
  and then again and again
  right_press waits: take right: notowner right_arm
  left_arm asks: release rack: done
  left_press asks: pose load: done
  left_press asks: yield left: done
  left_arm asks: give left: done
  left_press asks: take left: done
  left_press asks: pose travelling: done
  left_press asks: pose forge: done
  left_press asks: pose travelling: done
  left_press asks: pose unload: done
  left_press asks: give left: done
  left_arm asks: take left: done
  left_arm asks: release left: done
  left_arm asks: claim rack: done
  left_press asks: claim left: done
  left_arm asks: pose sharing: done
  left_press asks: pose travelling: done
plates move for ever in each fair order: within k * 16 turns
in an order that is fair with bound k, each machine that could go on at k turns on end goes on;
a machine isn't passed over for ever if it goes on wherever it could at k turns, on end or not
--
0: ./plan check
=>
=>
[..]
rows: each call that is done has its row
--
0: ./plan header
=>
=>
[..]
static const uint8_t PLAN_BYTES[] = {
    4, 3, 9, 4, 0, 1, 0, 0,
    0, 0, 0, 0, 2, 0, 1, 0,
    2, 1, 2, 0, 3, 1, 1, 1,
    3, 1, 3, 1, 0, 0, 3, 0,
    0, 0, 0, 0, 0, 0, 0, 0,
    2, 0, 0, 2, 0, 0, 0, 0,
    0, 0, 0, 0, 2, 1, 0, 3,
    0, 0, 0, 0, 0, 0, 0, 0,
    2, 1, 0, 1, 0, 0, 0, 0,
    0, 0, 0, 0, 2, 1, 0, 4,
    0, 0, 0, 0, 0, 0, 0, 0,
    3, 0, 0, 0, 2, 0, 0, 0,
    0, 0, 0, 0, 3, 1, 0, 0,
    3, 0, 0, 0, 0, 0, 0, 0,
    3, 1, 0, 0, 1, 0, 0, 0,
    0, 0, 0, 0, 3, 1, 0, 0,
    4, 0, 0, 0, 0, 0, 0, 0,
    0, 1, 2, 3,
};
[..]
";

/// The two presses, of which the left one is out of use.
const ONE_PRESS: &str = "\
[[machine]]
name = \"left_arm\"
places = [\"left_hand\"]
poses = [{ name = \"sharing\", gives = { rack = \"openin\" } }]
program = [\"claim rack\", \"pose sharing\", \"release rack\", \"give left\", \"take left\", \
     \"release left\"]

[[machine]]
name = \"right_arm\"
places = [\"right_hand\"]
program = [\"claim rack\", \"release rack\", \"give right\", \"take right\", \"release right\"]

[[machine]]
name = \"left_press\"
places = [\"left_die\"]
poses = [
  { name = \"travelling\", gives = { left = \"moving\" } },
  { name = \"load\", gives = { left = \"openin\" }, after_moving = true },
  { name = \"forge\", gives = { left = \"closed\" }, after_moving = true },
  { name = \"unload\", gives = { left = \"openout\" }, after_moving = true },
]
program = []

[[machine]]
name = \"right_press\"
places = [\"right_die\"]
poses = [
  { name = \"travelling\", gives = { right = \"moving\" } },
  { name = \"load\", gives = { right = \"openin\" }, after_moving = true },
  { name = \"forge\", gives = { right = \"closed\" }, after_moving = true },
  { name = \"unload\", gives = { right = \"openout\" }, after_moving = true },
]
program = [\"claim right\", \"pose travelling\", \"pose load\", \"yield right\", \"take \
     right\", \"pose travelling\", \"pose forge\",
  \"pose travelling\", \"pose unload\", \"give right\"]

[[zone]]
name = \"rack\"
host = \"left_arm\"
guest = \"right_arm\"

[[zone]]
name = \"left\"
host = \"left_press\"
guest = \"left_arm\"
inward = [\"left_hand\", \"left_die\"]
outward = [\"left_die\", \"left_hand\"]

[[zone]]
name = \"right\"
host = \"right_press\"
guest = \"right_arm\"
inward = [\"right_hand\", \"right_die\"]
outward = [\"right_die\", \"right_hand\"]
";

/// Of the right one.
const ONE_PRESS_GOES: &str = "\
1: ./plan explore
=>
start,1100
=>
no standstill in any order of turns before the last stamp: 44 situations
left_arm may starve though no machine is passed over for ever
  a fair order in which it starves: first
  left_arm asks: claim rack: done
  left_arm asks: pose sharing: done
  left_arm asks: release rack: done
  right_press asks: claim right: done
  right_press asks: pose travelling: done
  and then again and again
  left_arm waits: give left: notowner free
  right_arm asks: claim rack: done
  right_press asks: pose load: done
  right_arm asks: release rack: done
  right_press asks: yield right: done
  right_arm asks: give right: done
  right_press asks: take right: done
  right_press asks: pose travelling: done
  right_press asks: pose forge: done
  right_press asks: pose travelling: done
  right_press asks: pose unload: done
  right_press asks: give right: done
  right_arm asks: take right: done
  right_arm asks: release right: done
  right_press asks: claim right: done
  right_press asks: pose travelling: done
right_arm goes on for ever in each fair order: within k * 8 turns
left_press asks nothing
right_press goes on for ever in each fair order: within k * 7 turns
plates move for ever in each fair order: within k * 10 turns
in an order that is fair with bound k, each machine that could go on at k turns on end goes on;
a machine isn't passed over for ever if it goes on wherever it could at k turns, on end or not
";

// Status 1 says that a machine may starve.
#[test]
fn explores_two_presses(rt: HostRuntime) {
    are_answered(&rt, rt.alloc(), TWO_PRESSES, TWO_PRESSES_GO);
    are_answered(&rt, rt.alloc(), ONE_PRESS, ONE_PRESS_GOES);
}
