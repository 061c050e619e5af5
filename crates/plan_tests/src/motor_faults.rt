//! Each fault of a motor and of a hazard, in words.

use super::doubles::are_answered;

/// Three machines and two zones, up to line 18.
const PLAN: &str = "\
[[machine]]
name = \"loader\"
places = [\"hand\"]
[[machine]]
name = \"press\"
places = [\"die\"]
poses = [{ name = \"open\", gives = { interior = \"openin\" } }]
[[machine]]
name = \"cart\"
places = [\"bed\"]
[[zone]]
name = \"interior\"
host = \"press\"
guest = \"loader\"
[[zone]]
name = \"dock\"
host = \"cart\"
guest = \"loader\"
";

/// What comes after the plan, each with its fault.
const MOTORS: &str = "\
1: ./plan check
=>
[motor]
name = \"ram\"
=>
fault plan line 19: the document: motor: it takes a list of tables; begin each with [[motor]]
--
1: ./plan check
=>
[hazard]
name = \"ram\"
=>
fault plan line 19: the document: hazard: it takes a list of tables; begin each with [[hazard]]
--
1: ./plan check
=>
[[motor]]
=>
fault plan line 19: motor 1: name: it is missing
--
1: ./plan check
=>
[[motor]]
name = \"ram\"
=>
fault plan line 19: motor ram: machine: it is missing
--
1: ./plan check
=>
[[motor]]
name = \"ram\"
host = \"press\"
=>
fault plan line 21: motor ram: \"host\" isn't a key here; known: name, machine, holds, stands, full, empty
--
1: ./plan check
=>
[[motor]]
name = \"Ram\"
machine = \"press\"
=>
fault plan line 20: motor 1: name: \"Ram\" isn't a name: a letter, then letters, digits or underscores, lower case, at \
    most 32
--
1: ./plan check
=>
[[motor]]
name = \"ram\"
machine = \"press\"
[[motor]]
name = \"ram\"
machine = \"press\"
=>
fault plan line 23: motor 2: name: \"ram\" is defined twice, first on line 20
--
1: ./plan check
=>
[[motor]]
name = \"ram\"
machine = \"pres\"
=>
fault plan line 21: motor ram: machine: no machine is named \"pres\"
--
1: ./plan check
=>
[[motor]]
name = \"ram\"
machine = \"press\"
holds = \"interior\"
=>
fault plan line 22: motor ram: holds: it takes a table, such as { interior = \"closed\" }
--
1: ./plan check
=>
[[motor]]
name = \"ram\"
machine = \"press\"
stands = { interior = 1 }
=>
fault plan line 22: motor ram: stands: it takes a table, such as { interior = \"closed\" }
--
1: ./plan check
=>
[[motor]]
name = \"ram\"
machine = \"press\"
full = \"die\"
=>
fault plan line 22: motor ram: full: it takes a list of texts, such as [\"hand\", \"die\"]
--
1: ./plan check
=>
[[motor]]
name = \"ram\"
machine = \"press\"
holds = { inside = \"any\" }
=>
fault plan line 22: motor ram: holds: no zone is named \"inside\"
--
1: ./plan check
=>
[[motor]]
name = \"ram\"
machine = \"press\"
holds = { interior = \"open\" }
=>
fault plan line 22: motor ram: holds: \"open\" isn't a posture; known: closed, moving, openin, openout, and any for \
    each of \
them
--
1: ./plan check
=>
[[motor]]
name = \"ram\"
machine = \"press\"
stands = { interior = \"any\" }
=>
fault plan line 22: motor ram: stands: \"any\" isn't a posture; known: closed, moving, openin, openout
--
1: ./plan check
=>
[[motor]]
name = \"ram\"
machine = \"press\"
holds = { interior = \"any\" }
stands.interior = \"closed\"
=>
fault plan line 23: motor ram: stands: \"interior\" is in holds, too
--
1: ./plan check
=>
[[motor]]
name = \"ram\"
machine = \"press\"
full = [\"die\", \"bin\"]
=>
fault plan line 22: motor ram: full: no place is named \"bin\"
--
1: ./plan check
=>
[[motor]]
name = \"ram\"
machine = \"press\"
full = [\"die\"]
empty = [\"die\"]
=>
fault plan line 23: motor ram: empty: \"die\" is in full, too
--
1: ./plan check
=>
[[motor]]
name = \"ram\"
machine = \"press\"
holds = { interior = \"any\", dock = \"any\" }
=>
fault plan line 22: motor ram: holds: the machine is neither host nor guest of \"dock\"
=>
What doesn't fit the plan.
--
1: ./plan check
=>
[[motor]]
name = \"ram\"
machine = \"press\"
stands = { dock = \"closed\" }
=>
fault plan line 22: motor ram: stands: the machine is neither host nor guest of \"dock\"
--
1: ./plan check
=>
[[motor]]
name = \"arm\"
machine = \"loader\"
stands = { interior = \"openin\" }
=>
fault plan line 22: motor arm: stands: the machine doesn't host \"interior\"
--
1: ./plan check
=>
[[motor]]
name = \"arm\"
machine = \"loader\"
empty = [\"hand\",
  \"die\"]
=>
fault plan line 23: motor arm: empty: the machine doesn't keep \"die\"
--
1: ./plan check
=>
[[motor]]
name = \"arm\"
machine = \"loader\"
holds = { interior = \"moving\" }
=>
fault plan line 19: motor arm: no state of the plan permits it
";

/// What comes after the plan and a motor, each with its fault. The motor ends on line 21.
const HAZARDS: &str = "\
1: ./plan check
=>
[[motor]]
name = \"ram\"
machine = \"press\"
[[hazard]]
=>
fault plan line 22: hazard 1: name: it is missing
--
1: ./plan check
=>
[[motor]]
name = \"ram\"
machine = \"press\"
[[hazard]]
name = \"arm hurt\"
=>
fault plan line 22: hazard arm hurt: motors: it is missing
--
1: ./plan check
=>
[[motor]]
name = \"ram\"
machine = \"press\"
[[hazard]]
name = \"arm hurt\"
motor = \"ram\"
=>
fault plan line 24: hazard arm hurt: \"motor\" isn't a key here; known: name, motors
--
1: ./plan check
=>
[[motor]]
name = \"ram\"
machine = \"press\"
[[hazard]]
name = \"arm hurt\"
motors = [\"ram\"]
=>
fault plan line 24: hazard arm hurt: motors: it takes two motors, such as [\"ram\", \"arm_in_press\"]
--
1: ./plan check
=>
[[motor]]
name = \"ram\"
machine = \"press\"
[[hazard]]
name = \"arm hurt\"
motors = [\"ram\", \"arm\"]
=>
fault plan line 24: hazard arm hurt: motors: no motor is named \"arm\"
--
1: ./plan check
=>
[[motor]]
name = \"ram\"
machine = \"press\"
[[hazard]]
name = \"arm: hurt\"
motors = [\"ram\", \"ram\"]
=>
fault plan line 23: hazard 1: name: \"arm: hurt\" isn't a hazard's name: printable ASCII without a colon, at most 60 \
    characters
--
1: ./plan check
=>
[[motor]]
name = \"ram\"
machine = \"press\"
[[hazard]]
name = \"\"
motors = [\"ram\", \"ram\"]
=>
fault plan line 23: hazard 1: name: \"\" isn't a hazard's name: printable ASCII without a colon, at most 60 characters
--
1: ./plan check
=>
[[motor]]
name = \"ram\"
machine = \"press\"
[[hazard]]
name = \"x y\"
motors = [\"ram\", \"ram\"]
[[hazard]]
name = \"x y\"
motors = [\"ram\", \"ram\"]
=>
fault plan line 26: hazard 2: name: \"x y\" is defined twice, first on line 23
";

/// The most motors and the most hazards, and one more of each. The first motor is another machine's.
const COUNTS: &str = "\
0: ./plan check
=>
[[motor]]
name = \"m0\"
machine = \"loader\"
holds.interior = \"any\"
@63 [[motor]]
name = \"m#\"
machine = \"press\"
holds.interior = \"any\"
@@64 [[hazard]]
name = \"hazard #\"
motors = [\"m0\", \"m1\"]
@=>
[..]
64 motors: m0@63  m#@
@64 hazard #: kept apart by interior
@--
1: ./plan check
=>
@65 [[motor]]
name = \"m#\"
machine = \"press\"
holds.interior = \"any\"
@=>
fault plan line 276: motor 65: name: there are more than 64
--
1: ./plan check
=>
@2 [[motor]]
name = \"m#\"
machine = \"press\"
holds.interior = \"any\"
@@65 [[hazard]]
name = \"hazard #\"
motors = [\"m1\", \"m2\"]
@=>
fault plan line 220: hazard 65: name: there are more than 64
";

#[test]
fn tells_faults_of_motors(rt: HostRuntime) {
    are_answered(&rt, rt.alloc(), PLAN, MOTORS);
    are_answered(&rt, rt.alloc(), PLAN, HAZARDS);
    are_answered(&rt, rt.alloc(), PLAN, COUNTS);
}
