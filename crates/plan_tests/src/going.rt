//! Whether the machines of plans go on for ever: what is printed of it. Of the example plans also that their rows are
//! complete, and their bytes.

use super::answered_examples::PRESS;
use super::doubles::are_answered;

/// What is printed of the press, if a plate is in the loader's hand. There is no page then.
const PRESS_GOES: &str = "\
0: ./plan explore
0: ./plan explore --page
=>
start,10
=>
no standstill in any order of turns before the last stamp: 15 situations
loader goes on for ever in each fair order: within k * 7 turns
press goes on for ever in each fair order: within k * 3 turns
plates move for ever in each fair order: within k * 6 turns
in an order that is fair with bound k, each machine that could go on at k turns on end goes on;
a machine isn't passed over for ever if it goes on wherever it could at k turns, on end or not
";

/// The example of a junction.
pub const JUNCTION: &str = "\
[[machine]]
name = \"points\"
poses = [
  { name = \"switching\", gives = { north_road = \"moving\", south_road = \"moving\" } },
  { name = \"set_north\", gives = { north_road = \"openin\", south_road = \"closed\" }, \
     after_moving = true },
  { name = \"set_south\", gives = { north_road = \"closed\", south_road = \"openin\" }, \
     after_moving = true },
]
program = [
  \"claim north_road\",
  \"claim south_road\",
  \"pose switching\",
  \"pose set_north\",
  \"release north_road\",
  \"claim north_road\",
  \"pose switching\",
  \"pose set_south\",
  \"release south_road\",
  \"release north_road\",
]

[[machine]]
name = \"north_train\"
program = [\"claim north_road\", \"release north_road\"]

[[machine]]
name = \"south_train\"
program = [\"claim south_road\", \"release south_road\"]

[[zone]]
name = \"north_road\"
host = \"points\"
guest = \"north_train\"

[[zone]]
name = \"south_road\"
host = \"points\"
guest = \"south_train\"
";

/// Of a junction.
const JUNCTION_GOES: &str = "\
1: ./plan explore
=>
start,
=>
no standstill in any order of turns before the last stamp: 17 situations
points goes on for ever if it isn't passed over for ever: within k * 1 + k * k * 1 turns
  a fair order in which it starves: first
  points asks: claim north_road: done
  points asks: claim south_road: done
  points asks: pose switching: done
  points asks: pose set_north: done
  points asks: release north_road: done
  and then again and again
  points could go on: claim north_road: done
  north_train asks: claim north_road: done
  points waits: claim north_road: held north_train
  north_train asks: release north_road: done
north_train goes on for ever if neither it nor points is passed over for ever: within k * 10 * \
     (k * 1 + k * k * 1) turns; points brings it chances
  a fair order in which it starves: first
  points asks: claim north_road: done
  points asks: claim south_road: done
  points asks: pose switching: done
  and then again and again
  north_train waits: claim north_road: held points
  points asks: pose set_north: done
  points asks: release north_road: done
  north_train could go on: claim north_road: done
  points asks: claim north_road: done
  north_train waits: claim north_road: held points
  points asks: pose switching: done
  points asks: pose set_south: done
  points asks: release south_road: done
  south_train asks: claim south_road: done
  points asks: release north_road: done
  north_train waits: claim north_road: shut closed
  points asks: claim north_road: done
  north_train waits: claim north_road: held points
  south_train asks: release south_road: done
  points asks: claim south_road: done
  points asks: pose switching: done
south_train goes on for ever if neither it nor points is passed over for ever: within k * 10 * \
     (k * 1 + k * k * 1) turns; points brings it chances
  a fair order in which it starves: first
  points asks: claim north_road: done
  points asks: claim south_road: done
  points asks: pose switching: done
  and then again and again
  south_train waits: claim south_road: held points
  points asks: pose set_north: done
  points asks: release north_road: done
  north_train asks: claim north_road: done
  north_train asks: release north_road: done
  points asks: claim north_road: done
  points asks: pose switching: done
  points asks: pose set_south: done
  points asks: release south_road: done
  south_train could go on: claim south_road: done
  points asks: release north_road: done
  points asks: claim north_road: done
  points asks: claim south_road: done
  south_train waits: claim south_road: held points
  points asks: pose switching: done
in an order that is fair with bound k, each machine that could go on at k turns on end goes on;
a machine isn't passed over for ever if it goes on wherever it could at k turns, on end or not
--
0: ./plan check
=>
=>
[..]
rows: each call that is done has its row
--
0: ./plan header
=>
=>
[..]
static const uint8_t PLAN_BYTES[] = {
    3, 2, 3, 0, 0, 1, 0, 0,
    0, 0, 0, 0, 0, 2, 0, 0,
    0, 0, 0, 0, 0, 0, 2, 2,
    0, 0, 0, 0, 0, 0, 0, 0,
    0, 1, 3, 1, 0, 0, 0, 0,
    0, 0, 0, 0, 0, 1, 1, 3,
    0, 0, 0, 0, 0, 0, 0, 0,
};
[..]
";

/// The example of a lift.
pub const LIFT: &str = "\
[[machine]]
name = \"lift\"
places = [\"cabin\"]
poses = [
  { name = \"travelling\", gives = { lower = \"moving\", upper = \"moving\" } },
  { name = \"load_below\", gives = { lower = \"openin\", upper = \"closed\" }, after_moving = \
     true },
  { name = \"unload_above\", gives = { lower = \"closed\", upper = \"openout\" }, after_moving \
     = true },
  { name = \"unload_below\", gives = { lower = \"openout\", upper = \"closed\" }, after_moving \
     = true },
  { name = \"load_above\", gives = { lower = \"closed\", upper = \"openin\" }, after_moving = \
     true },
]
program = [
  \"claim lower or stop on shut notowner\", \"claim upper\", \"pose travelling\", \"pose load_below\", \"yield \
    lower\", \
     \"take lower\",
  \"pose travelling\", \"pose unload_above\", \"give upper\",
  \"pose travelling\", \"pose load_above\", \"yield upper\", \"take upper\",
  \"pose travelling\", \"pose unload_below\", \"give lower\", \"release upper\",
]

[[machine]]
name = \"below\"
places = [\"ground\"]
program = [\"give lower\", \"take lower\", \"release lower\"]

[[machine]]
name = \"above\"
places = [\"gallery\"]
program = [\"take upper\", \"yield upper\", \"give upper\"]

[[zone]]
name = \"lower\"
host = \"lift\"
guest = \"below\"
inward = [\"ground\", \"cabin\"]
outward = [\"cabin\", \"ground\"]

[[zone]]
name = \"upper\"
host = \"lift\"
guest = \"above\"
inward = [\"gallery\", \"cabin\"]
outward = [\"cabin\", \"gallery\"]
";

/// Of a lift.
const LIFT_GOES: &str = "\
0: ./plan explore
=>
start,010,100
=>
no standstill in any order of turns before the last stamp: 28 situations
lift goes on for ever in each fair order: within k * 3 turns
below goes on for ever in each fair order: within k * 16 turns
above goes on for ever in each fair order: within k * 18 turns
plates move for ever in each fair order: within k * 8 turns
in an order that is fair with bound k, each machine that could go on at k turns on end goes on;
a machine isn't passed over for ever if it goes on wherever it could at k turns, on end or not
";

/// The example of the production cell.
const CELL: &str = "\
[[machine]]
name = \"feed\"
places = [\"feed_belt\"]
poses = [
  { name = \"running\", gives = { z6 = \"moving\" } },
  { name = \"landing\", gives = { z6 = \"openin\" } },
  { name = \"halted\", gives = { z6 = \"closed\" } },
]
program = [\"claim z6\", \"claim z1\", \"pose running\", \"pose halted\", \"give z1\", \"pose \
     landing\", \"release z6\", \"take z6\",
  \"pose running\", \"pose halted\", \"release z6\"]

[[machine]]
name = \"table\"
places = [\"table_top\"]
poses = [
  { name = \"turning\", gives = { z1 = \"moving\", z2 = \"moving\" } },
  { name = \"loading\", gives = { z1 = \"openin\", z2 = \"closed\" }, after_moving = true },
  { name = \"unloading\", gives = { z1 = \"closed\", z2 = \"openout\" }, after_moving = true },
]
program = [\"claim z1\", \"claim z2\", \"pose turning\", \"pose loading\", \"release z1\", \
     \"take z1\", \"pose turning\",
  \"pose unloading\", \"give z2\", \"release z1\"]

[[machine]]
name = \"robot\"
places = [\"arm1\", \"arm2\"]
program = [\"take z2\", \"release z2\", \"give z3\", \"take z3\", \"release z3\", \"claim z4\", \
     \"give z4\"]

[[machine]]
name = \"press\"
places = [\"die\"]
poses = [
  { name = \"travelling\", gives = { z3 = \"moving\" } },
  { name = \"middle\", gives = { z3 = \"openin\" }, after_moving = true },
  { name = \"low\", gives = { z3 = \"openout\" }, after_moving = true },
  { name = \"top\", gives = { z3 = \"closed\" }, after_moving = true },
]
program = [\"claim z3\", \"pose travelling\", \"pose middle\", \"yield z3\", \"take z3\", \
     \"pose travelling\", \"pose top\",
  \"pose travelling\", \"pose low\", \"give z3\"]

[[machine]]
name = \"deposit\"
places = [\"deposit_belt\"]
poses = [
  { name = \"running\", gives = { z4 = \"moving\", z5 = \"moving\" } },
  { name = \"landing\", gives = { z4 = \"openin\", z5 = \"closed\" } },
  { name = \"offering\", gives = { z4 = \"closed\", z5 = \"openout\" } },
  { name = \"standing\", gives = { z4 = \"openin\", z5 = \"openout\" } },
  { name = \"halted\", gives = { z4 = \"closed\", z5 = \"closed\" } },
]
program = [\"claim z4\", \"claim z5\", \"pose landing\", \"release z4\", \"take z4\", \"pose \
     running\", \"pose offering\", \"give z5\",
  \"release z4\"]

[[machine]]
name = \"crane\"
places = [\"gripper\"]
program = [\"take z5\", \"release z5\", \"claim z6\", \"give z6\"]

[[zone]]
name = \"z1\"
host = \"table\"
guest = \"feed\"
inward = [\"feed_belt\", \"table_top\"]

[[zone]]
name = \"z2\"
host = \"table\"
guest = \"robot\"
outward = [\"table_top\", \"arm1\"]

[[zone]]
name = \"z3\"
host = \"press\"
guest = \"robot\"
inward = [\"arm1\", \"die\"]
outward = [\"die\", \"arm2\"]

[[zone]]
name = \"z4\"
host = \"deposit\"
guest = \"robot\"
inward = [\"arm2\", \"deposit_belt\"]

[[zone]]
name = \"z5\"
host = \"deposit\"
guest = \"crane\"
outward = [\"deposit_belt\", \"gripper\"]

[[zone]]
name = \"z6\"
host = \"feed\"
guest = \"crane\"
inward = [\"gripper\", \"feed_belt\"]
";

/// Of the production cell.
const CELL_GOES: &str = "\
0: ./plan explore
=>
start,1000000
=>
no standstill in any order of turns before the last stamp: 8622 situations
feed goes on for ever in each fair order: within k * 50 turns
table goes on for ever in each fair order: within k * 51 turns
robot goes on for ever in each fair order: within k * 43 turns
press goes on for ever in each fair order: within k * 54 turns
deposit goes on for ever in each fair order: within k * 53 turns
crane goes on for ever in each fair order: within k * 60 turns
plates move for ever in each fair order: within k * 23 turns
in an order that is fair with bound k, each machine that could go on at k turns on end goes on;
a machine isn't passed over for ever if it goes on wherever it could at k turns, on end or not
--
0: ./plan check
=>
=>
[..]
rows: each call that is done has its row
--
0: ./plan header
=>
=>
[..]
static const uint8_t PLAN_BYTES[] = {
    6, 6, 15, 7, 1, 0, 1, 0,
    1, 0, 0, 0, 1, 2, 0, 0,
    0, 1, 1, 2, 3, 2, 1, 2,
    4, 1, 4, 3, 4, 2, 1, 3,
    5, 0, 0, 0, 4, 5, 0, 0,
    0, 1, 5, 6, 0, 5, 1, 6,
    0, 0, 0, 0, 0, 0, 0, 0,
    0, 0, 0, 2, 0, 0, 0, 0,
    0, 0, 0, 0, 0, 0, 0, 3,
    0, 0, 0, 0, 0, 0, 0, 0,
    0, 0, 0, 1, 0, 0, 0, 0,
    1, 0, 2, 2, 0, 0, 0, 0,
    0, 0, 0, 0, 1, 1, 3, 1,
    0, 0, 0, 0, 0, 0, 0, 0,
    1, 1, 1, 4, 0, 0, 0, 0,
    0, 0, 0, 0, 3, 0, 0, 0,
    2, 0, 0, 0, 0, 0, 0, 0,
    3, 1, 0, 0, 3, 0, 0, 0,
    0, 0, 0, 0, 3, 1, 0, 0,
    4, 0, 0, 0, 0, 0, 0, 0,
    3, 1, 0, 0, 1, 0, 0, 0,
    0, 0, 0, 0, 4, 0, 0, 0,
    0, 2, 2, 0, 0, 0, 0, 0,
    4, 0, 0, 0, 0, 3, 1, 0,
    0, 0, 0, 0, 4, 0, 0, 0,
    0, 1, 4, 0, 0, 0, 0, 0,
    4, 0, 0, 0, 0, 3, 4, 0,
    0, 0, 0, 0, 4, 0, 0, 0,
    0, 1, 1, 0, 0, 0, 0, 0,
    0, 1, 2, 2, 3, 4, 5,
};
[..]
";

/// A cart and a door that take a dock and let it go.
const DOCK: &str = "\
[[machine]]
name = \"cart\"
program = [\"claim dock\", \"release dock\"]

[[machine]]
name = \"door\"
poses = [
  { name = \"swinging\", gives = { dock = \"moving\" } },
  { name = \"open\", gives = { dock = \"openin\" }, after_moving = true },
]
program = [\"claim dock\", \"pose swinging\", \"pose open\", \"release dock\"]

[[zone]]
name = \"dock\"
host = \"door\"
guest = \"cart\"
";

/// Of the dock: each of both may keep the other one out.
const DOCK_GOES: &str = "\
1: ./plan explore
=>
start,
=>
no standstill in any order of turns before the last stamp: 7 situations
cart goes on for ever if it isn't passed over for ever: within k * 3 + k * k * 3 turns
  a fair order in which it starves: first
  door asks: claim dock: done
  door asks: pose swinging: done
  and then again and again
  cart waits: claim dock: held door
  door asks: pose open: done
  door asks: release dock: done
  cart could go on: claim dock: done
  door asks: claim dock: done
  cart waits: claim dock: held door
  door asks: pose swinging: done
door goes on for ever if it isn't passed over for ever: within k * 1 + k * k * 1 turns
  a fair order in which it starves: first
  door asks: claim dock: done
  door asks: pose swinging: done
  door asks: pose open: done
  door asks: release dock: done
  and then again and again
  door could go on: claim dock: done
  cart asks: claim dock: done
  door waits: claim dock: held cart
  cart asks: release dock: done
in an order that is fair with bound k, each machine that could go on at k turns on end goes on;
a machine isn't passed over for ever if it goes on wherever it could at k turns, on end or not
";

/// A fan that turns to and fro. The plate in its tray rests.
const FAN: &str = "\
[[machine]]
name = \"fan\"
places = [\"tray\"]
poses = [{ name = \"left\", gives = {} }, { name = \"right\", gives = {} }]
program = [\"pose left\", \"pose right\"]
";

/// Of the fan: status 1 comes of the plate alone.
const FAN_GOES: &str = "\
1: ./plan explore
=>
start,1
=>
no standstill in any order of turns before the last stamp: 2 situations
fan goes on for ever in each fair order: within k * 1 turns
plates may rest for ever
  a fair order in which none moves: first
  and then again and again
  fan asks: pose left: done
  fan asks: pose right: done
in an order that is fair with bound k, each machine that could go on at k turns on end goes on;
a machine isn't passed over for ever if it goes on wherever it could at k turns, on end or not
";

// Status 1 says that a machine may starve, or that plates may rest.
#[test]
fn explores_small_plans(rt: HostRuntime) {
    are_answered(&rt, rt.alloc(), PRESS, PRESS_GOES);
    are_answered(&rt, rt.alloc(), JUNCTION, JUNCTION_GOES);
    are_answered(&rt, rt.alloc(), LIFT, LIFT_GOES);
    are_answered(&rt, rt.alloc(), DOCK, DOCK_GOES);
    are_answered(&rt, rt.alloc(), FAN, FAN_GOES);
}

#[test]
fn explores_the_cell(rt: HostRuntime) {
    are_answered(&rt, rt.alloc(), CELL, CELL_GOES);
}
