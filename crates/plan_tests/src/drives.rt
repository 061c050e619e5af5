//! What `check` says of the motors that programs run.

use super::doubles::are_answered;

/// Two machines at a press. The press comes last, so that its program may follow.
const PLAN: &str = "\
[[machine]]
name = \"loader\"
places = [\"hand\"]

[[zone]]
name = \"interior\"
host = \"press\"
guest = \"loader\"
inward = [\"hand\", \"die\"]

[[motor]]
name = \"ram\"
machine = \"press\"
holds = { interior = \"moving\" }

[[motor]]
name = \"heater\"
machine = \"press\"
full = [\"die\"]

[[machine]]
name = \"press\"
places = [\"die\"]
sensors = [\"top\", \"bottom\"]
poses = [
  { name = \"load\", gives = { interior = \"openin\" }, after_moving = true },
  { name = \"travelling\", gives = { interior = \"moving\" } },
]
";

/// Programs, each with what is said of it: first those in which nothing is wrong, then those that run what isn't
/// permitted. The status is 1 if the program is wrong on some line.
const ROWS: &str = "\
0: ./plan check
=>
program = [\"claim interior\", \"pose travelling\", \"run ram until bottom\"]
=>
2 machines: loader press
1 zone: interior
2 places: hand die
2 poses: load travelling
a word of 28 bits
bit 0, 5 bits: zone interior
bit 5, 1 bit: place hand
bit 6, 1 bit: place die
bit 7, 20 bits: stamp
bit 27, 1 bit: stop
rows: each call that is done has its row
drives: each motor is permitted where its program runs it
2 motors: ram heater
--
0: ./plan check
=>
program = [\"await top\", \"claim interior\", \"pose travelling\", \"await interior\", \"run ram until bottom\"]
=>
[..]
rows: each call that is done has its row
drives: each motor is permitted where its program runs it
2 motors: ram heater
--
0: ./plan check
=>
program = [\"claim interior\", \"pose travelling\", \"await bottom\"]
=>
[..]
rows: each call that is done has its row
2 motors: ram heater
--
1: ./plan check
=>
program = [\"run ram until bottom\"]
=>
[..]
rows: each call that is done has its row
press, line 1: ram needs to hold interior; here it may be another's
2 motors: ram heater
--
1: ./plan check
=>
program = [\"claim interior\", \"run ram until bottom\"]
=>
[..]
rows: each call that is done has its row
press, line 2: ram needs interior moving; here its posture isn't known
2 motors: ram heater
--
1: ./plan check
=>
program = [\"claim interior\", \"pose travelling\", \"pose load\", \"run ram until bottom\"]
=>
[..]
rows: each call that is done has its row
press, line 4: ram needs interior moving; here it is openin
2 motors: ram heater
--
1: ./plan check
=>
program = [\"claim interior\", \"pose travelling\", \"run heater ram until bottom\"]
=>
[..]
rows: each call that is done has its row
press, line 3: heater needs die full; here it may be empty
2 motors: ram heater
";

#[test]
fn tells_whether_drives_are_permitted(rt: HostRuntime) {
    are_answered(&rt, rt.alloc(), PLAN, ROWS);
}
