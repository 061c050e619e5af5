//! What is printed of motors and hazards: what keeps the motors apart, or a state that permits both and the calls that
//! lead there, and the masks.

use super::doubles::are_answered;

/// Two machines at a press, and their motors. The press comes last, so that a program may follow.
const PLAN: &str = "\
[[machine]]
name = \"loader\"
places = [\"hand\"]

[[zone]]
name = \"interior\"
host = \"press\"
guest = \"loader\"
inward = [\"hand\", \"die\"]

[[motor]]
name = \"ram\"
machine = \"press\"
holds = { interior = \"moving\" }

[[motor]]
name = \"arm_in_press\"
machine = \"loader\"
holds = { interior = \"any\" }

[[motor]]
name = \"heater\"
machine = \"press\"
stands = { interior = \"closed\" }
full = [\"die\"]

[[motor]]
name = \"valve\"
machine = \"press\"
empty = [\"die\"]

[[motor]]
name = \"lamp\"
machine = \"press\"
stands = { interior = \"openout\" }

[[machine]]
name = \"press\"
places = [\"die\"]
poses = [
  { name = \"load\", gives = { interior = \"openin\" }, after_moving = true },
  { name = \"travelling\", gives = { interior = \"moving\" } },
]
";

/// What is said of the motors. Of the masks: bits 0 and 1 of the zone are its owner, 1 the host and 2 the guest, bits 3
/// and 4 its posture; bit 5 is the hand, bit 6 the die. Then what is said of hazards: with status 1 if some motors
/// aren't kept apart. In the end the press is the only machine that has a program, and its calls lead to a hazard, with
/// or without a plate in the loader's hand, and not with a plate in the die. A start that isn't valid is none.
const ROWS: &str = "\
0: ./plan check
=>
=>
2 machines: loader press
1 zone: interior
2 places: hand die
2 poses: load travelling
a word of 28 bits
bit 0, 5 bits: zone interior
bit 5, 1 bit: place hand
bit 6, 1 bit: place die
bit 7, 20 bits: stamp
bit 27, 1 bit: stop
rows: each call that is done has its row
5 motors: ram arm_in_press heater valve lamp
--
0: ./plan header
=>
=>
[..]off and at rest[..]#define PLAN_MAY_RUN(word, motor) (((word) & PLAN_MASK_##motor) == PLAN_PATTERN_##motor)
#define PLAN_MASK_RAM UINT64_C(27)
#define PLAN_PATTERN_RAM UINT64_C(9)
#define PLAN_MASK_ARM_IN_PRESS UINT64_C(3)
#define PLAN_PATTERN_ARM_IN_PRESS UINT64_C(2)
#define PLAN_MASK_HEATER UINT64_C(88)
#define PLAN_PATTERN_HEATER UINT64_C(64)
#define PLAN_MASK_VALVE UINT64_C(64)
#define PLAN_PATTERN_VALVE UINT64_C(0)
#define PLAN_MASK_LAMP UINT64_C(24)
#define PLAN_PATTERN_LAMP UINT64_C(24)

/* The names of each kind, by their numbers. A null comes after the last. */
[..]
--
0: ./plan check
=>
[[hazard]]
name = \"ram, arm\"
motors = [\"ram\", \"arm_in_press\"]

[[hazard]]
name = \"arm, ram\"
motors = [\"arm_in_press\", \"ram\"]

[[hazard]]
name = \"arm, heater\"
motors = [\"arm_in_press\", \"heater\"]

[[hazard]]
name = \"heater, valve\"
motors = [\"heater\", \"valve\"]

[[hazard]]
name = \"lamp, arm\"
motors = [\"lamp\", \"arm_in_press\"]
=>
2 machines: loader press
1 zone: interior
2 places: hand die
2 poses: load travelling
a word of 28 bits
bit 0, 5 bits: zone interior
bit 5, 1 bit: place hand
bit 6, 1 bit: place die
bit 7, 20 bits: stamp
bit 27, 1 bit: stop
rows: each call that is done has its row
5 motors: ram arm_in_press heater valve lamp
ram, arm: kept apart by interior
arm, ram: kept apart by interior
arm, heater: kept apart by interior
heater, valve: kept apart by place die
lamp, arm: kept apart by the poses of press
--
1: ./plan check
=>
[[hazard]]
name = \"heater\"
motors = [\"heater\", \"heater\"]

[[hazard]]
name = \"ram, valve\"
motors = [\"ram\", \"valve\"]

[[hazard]]
name = \"valve\"
motors = [\"valve\", \"valve\"]
=>
2 machines: loader press
1 zone: interior
2 places: hand die
2 poses: load travelling
a word of 28 bits
bit 0, 5 bits: zone interior
bit 5, 1 bit: place hand
bit 6, 1 bit: place die
bit 7, 20 bits: stamp
bit 27, 1 bit: stop
rows: each call that is done has its row
5 motors: ram arm_in_press heater valve lamp
heater: NOT kept apart: start 01 permits both
ram, valve: NOT kept apart: a state permits both; interior held by press, moving; none of the programs leads there \
    from start 00
valve: NOT kept apart: start 00 permits both
--
1: ./plan check
=>
[[hazard]]
name = \"arm wet\"
motors = [\"valve\", \"arm_in_press\"]

[[hazard]]
name = \"Arm (2) crushed!\"
motors = [\"ram\", \"arm_in_press\"]
=>
2 machines: loader press
1 zone: interior
2 places: hand die
2 poses: load travelling
a word of 28 bits
bit 0, 5 bits: zone interior
bit 5, 1 bit: place hand
bit 6, 1 bit: place die
bit 7, 20 bits: stamp
bit 27, 1 bit: stop
rows: each call that is done has its row
5 motors: ram arm_in_press heater valve lamp
arm wet: NOT kept apart: a state permits both; interior held by loader, openin; none of the programs leads there \
from start 00
Arm (2) crushed!: kept apart by interior
--
1: ./plan check
=>
program = [\"claim interior\", \"pose travelling\", \"pose load\", \"yield interior\"]

[[hazard]]
name = \"arm wet\"
motors = [\"valve\", \"arm_in_press\"]

[[hazard]]
name = \"Arm (2) crushed!\"
motors = [\"ram\", \"arm_in_press\"]
=>
2 machines: loader press
1 zone: interior
2 places: hand die
2 poses: load travelling
a word of 28 bits
bit 0, 5 bits: zone interior
bit 5, 1 bit: place hand
bit 6, 1 bit: place die
bit 7, 20 bits: stamp
bit 27, 1 bit: stop
rows: each call that is done has its row
5 motors: ram arm_in_press heater valve lamp
arm wet: NOT kept apart: from start 00 these calls permit both
  press asks: claim interior: done
  press asks: pose travelling: done
  press asks: pose load: done
  press asks: yield interior: done
Arm (2) crushed!: kept apart by interior
--
1: ./plan check
=>
program = [\"claim interior\", \"pose travelling\", \"pose load\", \"yield interior\"]

[[hazard]]
name = \"arm wet\"
motors = [\"valve\", \"arm_in_press\"]
start,10
=>
[..]
arm wet: NOT kept apart: from start 10 these calls permit both
[..]
--
1: ./plan check
=>
program = [\"claim interior\", \"pose travelling\", \"pose load\", \"yield interior\"]

[[hazard]]
name = \"arm wet\"
motors = [\"valve\", \"arm_in_press\"]
start,10,7
loader,claim,interior
=>
[..]
arm wet: NOT kept apart: from start 10 these calls permit both
[..]
--
1: ./plan check
=>
program = [\"claim interior\", \"pose travelling\", \"pose load\", \"yield interior\"]

[[hazard]]
name = \"arm wet\"
motors = [\"valve\", \"arm_in_press\"]
start,1
=>
[..]
arm wet: NOT kept apart: from start 00 these calls permit both
[..]
--
1: ./plan check
=>
program = [\"claim interior\", \"pose travelling\", \"pose load\", \"yield interior\"]

[[hazard]]
name = \"arm wet\"
motors = [\"valve\", \"arm_in_press\"]
start,01
=>
[..]
arm wet: NOT kept apart: a state permits both; interior held by loader, openin; none of the programs leads there from \
    start 01
";

#[test]
fn judges_motors_and_hazards(rt: HostRuntime) {
    are_answered(&rt, rt.alloc(), PLAN, ROWS);
}
