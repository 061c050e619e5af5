//! Groups of machines that share nothing with each other, which `explore` looks at apart.

use super::answered_examples::PRESS;
use super::doubles::are_answered;

/// Two presses, each with a loader of its own, a fan with a plate in its tray, and a scale that is out of use.
const TWO_PRESSES: &str = "\
[[machine]]
name = \"left_loader\"
places = [\"left_hand\"]
program = [\"give left\", \"take left\", \"release left\"]

[[machine]]
name = \"left_press\"
places = [\"left_die\"]
poses = [
  { name = \"load\", gives = { left = \"openin\" }, after_moving = true },
  { name = \"unload\", gives = { left = \"openout\" }, after_moving = true },
  { name = \"forge\", gives = { left = \"closed\" }, after_moving = true },
  { name = \"travelling\", gives = { left = \"moving\" } },
]
program = [
  \"claim left\", \"pose travelling\", \"pose load\", \"yield left\", \"take left\", \"pose travelling\",
  \"pose forge\", \"pose travelling\", \"pose unload\", \"give left\",
]

[[machine]]
name = \"fan\"
places = [\"tray\"]
poses = [{ name = \"left\", gives = {} }, { name = \"right\", gives = {} }]
program = [\"pose left\", \"pose right\"]

[[machine]]
name = \"right_press\"
places = [\"right_die\"]
poses = [
  { name = \"load\", gives = { right = \"openin\" }, after_moving = true },
  { name = \"unload\", gives = { right = \"openout\" }, after_moving = true },
  { name = \"forge\", gives = { right = \"closed\" }, after_moving = true },
  { name = \"travelling\", gives = { right = \"moving\" } },
]
program = [
  \"claim right\", \"pose travelling\", \"pose load\", \"release right\", \"take right\", \"pose travelling\",
  \"pose forge\", \"pose travelling\", \"pose unload\", \"give right\",
]

[[machine]]
name = \"scale\"
places = [\"pan\"]

[[machine]]
name = \"right_loader\"
places = [\"right_hand\"]
program = [\"claim right\", \"give right\", \"take right\", \"release right\"]

[[zone]]
name = \"left\"
host = \"left_press\"
guest = \"left_loader\"
inward = [\"left_hand\", \"left_die\"]
outward = [\"left_die\", \"left_hand\"]

[[zone]]
name = \"right\"
host = \"right_press\"
guest = \"right_loader\"
inward = [\"right_hand\", \"right_die\"]
outward = [\"right_die\", \"right_hand\"]
";

/// The right press stands still while the left one goes on. Nothing is said of the plates of the fan, nor of the scale.
const TWO_PRESSES_GO: &str = "\
1: ./plan explore
=>
start,101011
=>
apart from all others: left_loader, left_press
no standstill in any order of turns before the last stamp: 15 situations
left_loader goes on for ever in each fair order: within k * 7 turns
left_press goes on for ever in each fair order: within k * 3 turns
plates move for ever in each fair order: within k * 6 turns
in an order that is fair with bound k, each machine that could go on at k turns on end goes on;
a machine isn't passed over for ever if it goes on wherever it could at k turns, on end or not
apart from all others: fan
no standstill in any order of turns before the last stamp: 2 situations
fan goes on for ever in each fair order: within k * 1 turns
in an order that is fair with bound k, each machine that could go on at k turns on end goes on;
a machine isn't passed over for ever if it goes on wherever it could at k turns, on end or not
apart from all others: right_press, right_loader
a standstill after 15 turns, and no fewer
right_press waits: claim right: held right_loader
right_loader waits: give right: wrongway
turns:
  right_press asks: claim right: done
  right_press asks: pose travelling: done
  right_press asks: pose load: done
  right_press asks: release right: done
  right_loader asks: claim right: done
  right_loader asks: give right: done
  right_press asks: take right: done
  right_press asks: pose travelling: done
  right_press asks: pose forge: done
  right_press asks: pose travelling: done
  right_press asks: pose unload: done
  right_press asks: give right: done
  right_loader asks: take right: done
  right_loader asks: release right: done
  right_loader asks: claim right: done
apart from all others: scale
no standstill in any order of turns before the last stamp: 1 situation
scale asks nothing
in an order that is fair with bound k, each machine that could go on at k turns on end goes on;
a machine isn't passed over for ever if it goes on wherever it could at k turns, on end or not
";

/// Of one group with programs, and a machine out of use, all is told together.
const PRESS_AND_SCALE_GO: &str = "\
0: ./plan explore
=>
[[machine]]
name = \"scale\"
places = [\"pan\"]
start,101
=>
no standstill in any order of turns before the last stamp: 15 situations
loader goes on for ever in each fair order: within k * 7 turns
press goes on for ever in each fair order: within k * 3 turns
scale asks nothing
plates move for ever in each fair order: within k * 6 turns
in an order that is fair with bound k, each machine that could go on at k turns on end goes on;
a machine isn't passed over for ever if it goes on wherever it could at k turns, on end or not
";

// Status 1 says that some group stands still.
#[test]
fn explores_groups_apart(rt: HostRuntime) {
    are_answered(&rt, rt.alloc(), TWO_PRESSES, TWO_PRESSES_GO);
    are_answered(&rt, rt.alloc(), PRESS, PRESS_AND_SCALE_GO);
}
